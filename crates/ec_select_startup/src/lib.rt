//! The code that runs before `main`.
//!
//! `specs/Startup.antt` has the code, `specs/Laws.antt` what it does. R0, R24 to R27, R30 and R31 are work registers.
#![tactic(auto)]

pub mod laws;
mod spans;

pub use spans::{Filling, Span, startup};
