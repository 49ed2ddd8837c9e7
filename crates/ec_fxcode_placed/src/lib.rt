//! The code of operations on fixed-point numbers in the place of the result.
//!
//! `specs/Shifts.antt` has the code of shifts, `specs/ShiftLaws.antt` what it does. R0, R1, R30 and R31 are work
//! registers.
#![tactic(auto)]

pub mod laws;
mod shifts;

pub use shifts::{shift_in_place, shift_in_place_by};
