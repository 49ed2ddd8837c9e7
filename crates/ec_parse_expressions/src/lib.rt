//! Specifiers, type names and expressions, read from the first tokens of a list (ISO/IEC 9899:1999, 6.5 and 6.7).
//!
//! What is given and answered is as in ec_parse_tokens.
#![tactic(auto)]

mod expressions;
mod types;

pub use expressions::{assignment, conditional, expression};
pub use types::{specs, stars, type_name};
