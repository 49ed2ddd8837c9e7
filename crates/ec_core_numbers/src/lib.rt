//! A law: what a run writes to a leaf is a number of its type.
//!
//! `specs/Numbers.antt` tells which numbers these are. The function proves it, and does nothing.
#![tactic(auto)]

ghost use Rattle.ec_core_numbers.specs.Numbers.{WritesHoldNumbers};

use ec_core::types_are_kept;

/// In a valid program whose ports give bytes, each number that a run writes to a leaf is one that the type of the leaf
/// holds, also where the run meets an undefined point or goes on without an end.
pub fn writes_hold_numbers()
    ensures { WritesHoldNumbers }
{
    types_are_kept();
}
