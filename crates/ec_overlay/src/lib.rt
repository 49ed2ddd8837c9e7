//! Frames of functions that are overlaid by their calls: each begins at the greatest end of any caller's frame.
//!
//! `specs/Chains.antt` has the chains of calls, and `specs/Frames.antt` where frames begin and what all need, and
//! `specs/Objects.antt` where the parameters and locals of a function stand in its frame.
#![tactic(auto)]

mod begins;
mod laws;

pub use begins::{Area, area_of, zeros};
pub use laws::{frames_are_overlaid, overlaid_objects_stand_apart};
