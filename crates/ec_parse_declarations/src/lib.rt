//! Declarations and definitions of structs, read from the first tokens of a list (ISO/IEC 9899:1999, 6.7).
//!
//! What is given and answered is as in ec_parse_tokens; where a part has a height, it is the greatest of its sizes and
//! initialisers.
#![tactic(auto)]

mod declarations;
mod structures;

pub use declarations::{declaration, declarator, declared, structure};
pub use structures::structure_head;
