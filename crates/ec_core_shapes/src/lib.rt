//! The weight of a program by shapes, with which routines are counted that stand once and are called.
//!
//! `specs/SharedWeight.antt` defines it. The functions are its laws: each proves one, and does nothing.
#![tactic(auto)]

mod laws;

pub use laws::{shapes_are_told, shared_weight_is_no_more, weight_counts_parts};
