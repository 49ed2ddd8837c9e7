//! A number of steps within which the machine of a placed program ends, where all loops of its source are counted.
//!
//! What a counted loop is, and how much work its turns are, is told by `ec_core_steps` from the program alone.
#![tactic(auto)]

mod bounds;
mod laws;
mod starts;
mod stop;

pub use bounds::bound;
pub use laws::counted_programs_end_in_time;
pub use stop::BoundStop;
