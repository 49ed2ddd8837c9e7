//! The checker: the typed program of all units, or the least constraint that they break (ISO/IEC 9899:1999; ISO/IEC TR
//! 18037:2008).
//!
//! Trees that are not used are dropped by a call: a drop in place at each exit would cost the proof its variants.
#![tactic(auto)]

mod checking;
mod counts;
mod definitions;
mod laws;
mod units;

pub use checking::{CheckStop, check, discard};
pub use laws::{
    programs_are_typed, programs_are_valid, programs_exist, structs_are_few, the_least_is_found,
};
