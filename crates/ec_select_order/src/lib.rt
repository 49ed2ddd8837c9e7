//! The code of comparisons: whether one number of several bytes stands in a relation to another one, as 0 or 1 in R30 or another
//! register.
//!
//! `specs/Relations.antt` has the code, `specs/Laws.antt` what it does. R0, R1 and R30 are work registers.
#![tactic(auto)]

pub mod laws;
mod relations;

pub use relations::{Relation, branch_unless, relate, relate_in, truth_in};
