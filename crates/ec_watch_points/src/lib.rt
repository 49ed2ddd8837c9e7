//! Which numbers of the static objects of a program can be watched, and where each stands.
//!
//! `specs/Numbers.antt` says which numbers there are by a name, and what is told of one.
#![tactic(auto)]

mod numbers;

pub use numbers::point_at;
