//! The code of shifts of fixed-point numbers.
//!
//! `specs/Shifts.antt` has the code, `specs/ShiftLaws.antt` what it does. R0, R1, R30 and R31 are work registers.
#![tactic(auto)]

pub mod laws;
mod shifts;

pub use shifts::{mark, shift_code, shift_number, turned};
