//! What expressions mean, as a relation in the words of the standard (ISO/IEC 9899:1999, 6.5; ISO/IEC TR 18037:2008),
//! and the laws that the walk over expressions gives just that, and tells their constraints exactly where they are
//! broken.
#![tactic(auto)]

mod laws;

pub use laws::{
    broken_parts_break_all, constraints_are_told, modes_are_said, sites_are_judged,
    walk_gives_meanings,
};
