//! Pieces of code for a known number that is put to a place, and for a number of several bytes and a known one: differences,
//! AND, OR and comparisons.
//!
//! `specs/ByNumber.antt` has the code, `specs/Laws.antt` what it does. R0, R30 and R31 are work registers.
#![tactic(auto)]

mod comparisons;
pub mod laws;
mod operators;
mod pairs;

pub use comparisons::compare_with;
pub use operators::{ByNumber, add_number, change_by};
pub use pairs::put_number;
