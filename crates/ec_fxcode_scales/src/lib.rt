//! The code that multiplies and divides numbers by powers of two.
//!
//! `specs/Scales.antt` has the code, `specs/ScaleLaws.antt` what it does. R0, R1, R30 and R31 are work registers.
#![tactic(auto)]

pub mod laws;
mod scales;

pub use scales::{cut, scale};
