//! The code of quotients and remainders of numbers of up to four bytes, by long division.
//!
//! `specs/Quotients.antt` and `specs/Signs.antt` have the code, `specs/Laws.antt` and `specs/SignLaws.antt` what it
//! does. R0, R1, R8 to R13, R26, R27, R30 and R31 are work registers: Y is left as it is.
#![tactic(auto)]

mod fetches;
pub mod laws;
mod puts;
mod quotients;
mod signs;

pub use quotients::divide;
pub use signs::{Division, quotient};
