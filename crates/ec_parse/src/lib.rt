//! The tree of a list of tokens, read by recursive descent with no step back.
#![tactic(auto)]

mod parsing;
mod statements;
mod stop;
mod trees;
mod units;

pub use ec_grammar::Tree;
pub use parsing::parse;
pub use stop::ParseStop;
pub use trees::{append, discard, discard_tree};
