//! The code of quotients of fixed-point numbers.
//!
//! `specs/Quotients.antt` has the code, `specs/QuotientLaws.antt` what it does. R0, R1, R30 and R31 are work registers.
#![tactic(auto)]

mod division;
mod formats;
pub mod laws;
mod quotients;

pub use formats::whole_format;
pub use quotients::{Term, div_code, divide_numbers};
