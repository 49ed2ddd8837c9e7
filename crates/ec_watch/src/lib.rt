//! Runs of built programs that stop where a number of a static object gets a watched value.
//!
//! `specs/Watches.antt` says what a watch of a build is, and how its run stands to the source.
#![tactic(auto)]

mod points;
mod watching;

pub use ec_emu_watch::{Compare, CompareOp, ValueRule, Watch, WatchEnd, WatchPoint, WatchReport};
pub use points::point;
pub use watching::watch;
