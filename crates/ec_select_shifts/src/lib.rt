//! The code of shifts: a number of several bytes shifted where it stands, by a count in R30 or a known one.
//!
//! `specs/Shifts.antt` has the code, `specs/Laws.antt` what it does. R0, R1 and R30 are work registers.
#![tactic(auto)]

pub mod laws;
mod shifts;

pub use shifts::{Direction, shift, shift_by};
