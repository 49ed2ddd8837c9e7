//! The calls of a program, and the first function that reaches itself by them.
//!
//! What a function calls is told by its body alone ([`calls_of`]); which functions it reaches, itself or through
//! others, is found by a search over the calls of all ([`first_recursive`]). A program of the language has no function
//! that reaches itself: see `no_recursion` of `Valid` in `ec_core`.
#![tactic(auto)]

mod calls;
mod recursion;
mod rows;
mod search;

pub use calls::{calls_of, rows_of};
pub use recursion::first_recursive;
