//! What a machine shows that begins at the startup code of a program.
//!
//! `specs/Laws.antt` joins the law of the startup code to that of the code of all functions.
#![tactic(auto)]

mod laws;

pub use laws::programs_show_their_operations;
