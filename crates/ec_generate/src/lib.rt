//! The generated programs, by which a build shows whether it works: for each number the text of one, and their map.
#![tactic(auto)]

mod generated;

pub use generated::{generate, map_text};
