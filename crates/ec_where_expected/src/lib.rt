//! The kinds of tokens that may stand at a place of a source: exactly those with which the tokens before the place still
//! begin a program.
#![tactic(auto)]

mod candidates;
mod judging;
mod naming;

pub use candidates::{CLASSES, Candidate, Class, Classes, ROWS};
pub use judging::standing;
pub use naming::listed;
