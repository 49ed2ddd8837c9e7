//! From the texts of the sources to their trees.
//!
//! `units_of` lexes all sources and parses them. `specs/Units.antt` says which trees it answers, and why there are none.
#![tactic(auto)]

mod stop;
mod units;

pub use ec_parse::{Tree, discard};
pub use stop::UnitStop;
pub use units::units_of;
