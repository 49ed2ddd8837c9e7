//! Whether a typed expression is a constant expression, and its value, which is what a run gives (ISO/IEC 9899:1999, 6.6).
#![tactic(auto)]

mod arithmetic;
mod constants;
mod laws;
mod numbers;
mod typed;

pub use constants::constant;
pub use laws::{runs_give_constants, tests_tell_constants, valid_forms_are_constant};
pub use typed::is_constant;
