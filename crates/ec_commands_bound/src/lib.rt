//! The command `bound`: from the named files to a number of steps within which the machine of their program ends; and why
//! none is printed, with the lines that tell it.
#![tactic(auto)]

mod answer;
mod bounding;
mod line;
mod stop;

pub use answer::conclude;
pub use bounding::bound;
pub use stop::{StepsStop, status};
