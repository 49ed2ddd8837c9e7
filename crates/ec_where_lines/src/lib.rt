//! Lines of the tool: the place of a source that a line names and what is wrong there, and what is said of the other
//! lines.
//!
//! What is said is a function of the line. Its words stand in tables, which the definitions name.
#![tactic(auto)]

mod fault;
mod notices;
mod parts;
mod rules;
mod words;

pub use fault::{ByteFault, Fault, SourceFault, TokenFault, source_fault};
pub use notices::{FileNames, Kind, notice};
pub use parts::{look_up, row};
pub use rules::{CONSTRAINTS, POINTS, SYNTAX, UNCOUNTED};
pub use words::{NAMES, RESERVED, byte_message, undeclared, word_run};
