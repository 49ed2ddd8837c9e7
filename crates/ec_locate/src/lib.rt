//! The locating linker: where objects stand by the map, and the image.
#![tactic(auto)]

mod calls;
mod code;
mod entries;
mod fixed;
mod frames;
mod image;
mod labels;
mod laws;
mod layout;
mod needs;
mod placing;
mod stop;
mod values;

pub use ec_map::{Fixed1, Map, MapStop, Region, read_map};
pub use laws::{
    chains_are_counted, code_stands, data_need_is_of_chains, data_stands_apart, flash_stands_apart,
    initial_values_stand, placed_stand_apart, stops_have_causes,
};
pub use placing::{Located, place};
pub use stop::{PlaceStop, RegionName};
