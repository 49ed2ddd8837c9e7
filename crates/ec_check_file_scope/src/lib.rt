//! Declarations at file scope: what they declare in the program and in the names of a unit, and the rules that they
//! break (ISO/IEC 9899:1999, 6.2.2, 6.7 and 6.9; ISO/IEC TR 18037:2008, 5.2).
//!
//! Trees that are not used are dropped by a call: a drop in place at each exit would cost the proof its variants.
#![tactic(auto)]

mod copies;
mod file_functions;
mod file_names;
mod file_objects;
mod file_scope;
mod file_table;
mod laws;
mod states;

pub use file_functions::name_function;
pub use file_names::{FileKind, FileName};
pub use file_objects::{file_register, word_of};
pub use file_scope::{file_declaration, file_structure};
pub use file_table::FileNames;
pub use laws::{conflicts_are_told, homes_are_declared};
pub use states::{Setting, State, known_of};
