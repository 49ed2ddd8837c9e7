//! The commands `list` and `assemble`: from a HEX file to its listing, and from a listing to a HEX file.
#![tactic(auto)]

mod assembling;
mod listing;

pub use assembling::assemble;
pub use listing::list;
