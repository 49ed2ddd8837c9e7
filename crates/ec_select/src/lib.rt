//! The code of a whole program for a core, from what runs before `main` to the last function.
//!
//! `specs/Program.antt` has the code, `specs/Sharing.antt` which operations call routines, `specs/Labels.antt` the labels
//! and homes of its functions, `specs/Selected.antt` which programs have code, and `specs/LaidOut.antt` where code,
//! objects and stack stand. The laws tell that the code
//! can be placed, how many words it has, and that a machine shows by it what the operations do.
#![tactic(auto)]

mod functions;
mod labels;
mod laws;
mod program;
mod routines;
mod shapes;
mod sharing;
mod spans;
mod tables;
mod uses;

pub use laws::{operations_have_code, selections_are_valid, selections_have_words, selections_run};
pub use program::select;
