//! The operations of a program, and that they do what it does.
#![tactic(auto)]

mod laws;

pub use laws::{lowered_follows, lowered_is_made_of_its_program, operations_stay_on_ports};
