//! The laws of programs whose loops are counted. Each function proves one, and does nothing.
ghost use Rattle.ec_core_steps.specs.Laws.{CountedProgramsAreBounded};
ghost use Rattle.ec_core_steps.specs.Turns.{TurnsAreValuesInOrder};

use ec_check_constants::{runs_give_constants, tests_tell_constants};
use ec_core::work_never_falls;

/// Where all loops of the functions that main reaches are counted, no run does more work than the text tells, and none
/// is out of 65,536 turns.
pub fn counted_programs_are_bounded()
    ensures { CountedProgramsAreBounded }
{
    runs_give_constants();
    tests_tell_constants();
    work_never_falls();
}

/// The turns of a counted loop are as many as values are in order with its bound, from the first one on.
pub fn turns_are_values_in_order()
    ensures { TurnsAreValuesInOrder }
{}
