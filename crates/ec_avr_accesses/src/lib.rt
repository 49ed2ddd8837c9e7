//! What the accesses of a step tell of the SRAM.
//!
//! `specs/Sram.antt` tells which bytes of the SRAM a step with an access may change. Each function proves laws, and does
//! nothing.
#![tactic(auto)]

ghost use Rattle.ec_avr_accesses.specs.Sram.{NothingElseChanges, WrittenBytesStand, StackStepsHaveBytes, RunsChangeAsTold};

use ec_avr::stack_bytes_are_told;

/// A step changes no byte of the SRAM but the one that its access writes, or those that it pushes. A byte that it writes
/// stands there then, and a step whose access is of the stack pushes or pops a byte.
pub fn steps_change_as_told()
    ensures others { NothingElseChanges }
    ensures written { WrittenBytesStand }
    ensures stack { StackStepsHaveBytes }
{
    stack_bytes_are_told();
}

/// After a run each byte of the SRAM is the one that was written there last, or the one of before, if no step pushed to
/// its address or popped from it.
pub fn runs_change_as_told()
    ensures { RunsChangeAsTold }
{
    stack_bytes_are_told();
}
