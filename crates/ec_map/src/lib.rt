//! The map of a chip: where code, objects and the stack stand, and its ports.
#![tactic(auto)]

mod cores;
mod dynamics;
mod groups;
mod keys;
mod map;
mod ports;
mod read;
mod region;
mod rules;
mod values;

pub use cores::home_end;
pub use map::{Fixed1, Map};
pub use read::{MapStop, read_map};
pub use region::{Region, Regions};
