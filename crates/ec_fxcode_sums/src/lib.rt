//! The code of sums, differences, negations and comparisons of fixed-point numbers.
//!
//! `specs/Sums.antt` and `specs/Orders.antt` have the code, `specs/SumLaws.antt` and `specs/OrderLaws.antt` what it
//! does. R0, R1, R30 and R31 are work registers.
#![tactic(auto)]

mod aligned;
pub mod laws;
mod orders;
mod sums;

pub use aligned::Operand;
pub use orders::order;
pub use sums::{negate, sum};
