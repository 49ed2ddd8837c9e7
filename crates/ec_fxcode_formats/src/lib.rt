//! The code that brings a number from one number of bits behind the point to another, by registers.
//!
//! `specs/Cuts.antt` has the code that drops bits, `specs/Raises.antt` that which adds some, `specs/Brought.antt` which
//! of them there is, and `specs/FormatLaws.antt` what they do. R0, R1, R8 to R13 and R31 are work registers.
#![tactic(auto)]

mod brought;
mod cuts;
pub mod laws;
mod raises;

pub use brought::{Digits, bring, can_bring};
