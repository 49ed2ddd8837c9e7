//! The walk over expressions: what each means where names and tags are known, and the rules that it breaks
//! (ISO/IEC 9899:1999, 6.5; ISO/IEC TR 18037:2008, 4.1, 5.1 and 6.2).
//!
//! The walk only dispatches: it walks the parts of an expression, takes each that is used, and hands them to a function
//! that judges them and makes what the form means. Operators by their tokens, what stands behind names and the types of
//! type names stand in modules of their own.
#![tactic(auto)]

mod arguments;
mod bindings;
mod callees;
mod counts;
mod known;
mod names;
mod nodes;
mod subscripts;
mod tokens;
mod type_names;
mod types;
mod walk;

pub use known::Known;
pub use names::{constant, judge_named, named};
pub use type_names::{TypeNamed, type_named};
pub use walk::{assignment, binary, cast, conditional, expression, postfix, primary, unary};
