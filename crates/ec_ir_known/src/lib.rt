//! Which temporaries hold a known number before each operation of a function.
//!
//! `specs/Known.antt` tells when a number is known, by the operations before in the same straight run. [`right_numbers`]
//! goes over the operations from the first to the last with a row of what is known of each place: a number, or that it is
//! below 256. By the law in `laws` each temporary holds in each run what is known of it.
#![tactic(auto)]

mod known;
mod laws;

pub use known::{KnownNumber, KnownNumbers, RightNumber, right_numbers};
pub use laws::known_numbers_are_held;
