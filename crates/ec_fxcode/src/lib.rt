//! The code of fixed-point operations that the code of integers does not cover.
//!
//! `specs/Clamps.antt` has the code that brings a wide number into a format, `specs/ClampLaws.antt` what it does. R0,
//! R1, R30 and R31 are work registers.
#![tactic(auto)]

mod clamps;
pub mod laws;

pub use clamps::{clamp, clamp_code, fills, place_of, put_byte, sign, take_byte};
