//! Runs of the AVR core that stop where a number in memory gets a watched value.
//!
//! `specs/Points.antt` says what a number in memory is, and `specs/Hits.antt` at which step a run stops.
#![tactic(auto)]

mod compare;
mod point;
mod run;
mod watch;

pub use compare::{Compare, CompareOp, ValueRule};
pub use point::WatchPoint;
pub use run::{WatchEnd, WatchReport, run_watched};
pub use watch::Watch;
