//! The code that stops a sum or a difference of two numbers of one fixed-point format at the ends of its range, and the
//! negation of one byte that is stopped there.
//!
//! `specs/Limits.antt` has the code, `specs/LimitLaws.antt` what it does. R0, R1 and R31 are work registers.
#![tactic(auto)]

pub mod laws;
mod limits;

pub use limits::{limit, negate_byte};
