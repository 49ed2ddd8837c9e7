//! How much work a run of a program does at most, where all its loops are counted, and the first that is not.
#![tactic(auto)]

mod bounds;
mod costs;
mod counted;
mod laws;
mod reached;
mod touches;
mod uncounted;
mod words;

pub use bounds::{first_uncounted, most_work};
pub use counted::{Operands, Update};
pub use laws::{counted_programs_are_bounded, turns_are_values_in_order};
pub use touches::Touch;
pub use uncounted::Site;
