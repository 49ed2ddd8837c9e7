//! Laws: what statements, initialisers and units are in the typed program, in the words of the standard (ISO/IEC 9899:1999,
//! 6.7 to 6.9; ISO/IEC TR 18037:2008, 4.1 and 5.1).
#![tactic(auto)]

mod laws;

pub use laws::{file_scope_is_said, initialisers_are_said, statements_are_said};
