//! The machine does what the operations of all functions do, where it runs the code of `ec_select_operations`.
//!
//! `specs/Covered.antt` tells how operations have code, `specs/Standing.antt` where homes and objects stand, and
//! `specs/Relation.antt` when a machine shows the state of an intermediate program. The law in `laws` tells that the
//! machine shows what the operations of all functions do, wherever code, objects and stack stand.
#![tactic(auto)]

mod laws;

pub use laws::{code_follows_operations, homes_are_laid_out};
