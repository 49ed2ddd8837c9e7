//! The code of operations with a fixed-point operand or result.
//!
//! `specs/Types.antt` has the formats of types and the code that an operator has, `specs/Codes.antt` that code, and
//! `specs/FixedLaws.antt` what it does, by the operators of programs. R0, R1, R30 and R31 are work registers.
#![tactic(auto)]

mod families;
pub mod laws;
mod operations;

pub use families::FixedFamily;
pub use operations::{Places, fixed_binary, fixed_conversion, fixed_unary};
