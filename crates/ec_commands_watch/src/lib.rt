//! The command `watch`: from the named files to the run of what was built of them, up to the first write that gives a number
//! of a static object a watched value.
#![tactic(auto)]

mod line;
mod load;
mod watching;

pub use watching::watch;
