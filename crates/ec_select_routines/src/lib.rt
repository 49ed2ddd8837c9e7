//! Operations whose code stands once, as a routine that is called: those with a fixed-point operand or result, and
//! quotients and remainders of integers.
//!
//! `specs/Codes.antt` has the code of routines and of their calls, `specs/Laws.antt` what a call computes and how many
//! words there are, and `specs/Sizes.antt` which shapes stand once by the sizes of their code. R0, R1, R8 to R13, R26,
//! R27, R30 and R31 are work registers.
#![tactic(auto)]

mod calls;
pub mod laws;
mod places;
mod routines;

pub use calls::{call_with_one, call_with_two};
pub use routines::{binary_routine, conversion_routine, quotient_routine, unary_routine};
