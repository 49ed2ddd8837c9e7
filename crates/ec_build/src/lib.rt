//! From sources and a map to a placed image.
//!
//! `build` reads the map, lexes all sources, parses them, checks their program, lowers it, selects its code and places
//! it. `specs/Builds.antt` says what it promises, `specs/Causes.antt` why there is no build, and `specs/Accepted.antt`
//! when there is one. All builds of the same texts have one image: `specs/Images.antt`.
#![tactic(auto)]

mod building;
mod codes;
mod laws;
mod maps;
mod places;
mod programs;
mod reaches;
mod stop;
mod units;

pub use building::{Built, build, discard};
pub use ec_check::CheckStop;
pub use laws::builds_have_one_image;
pub use stop::BuildStop;
