//! The laws of code that is written: each function proves one, and does nothing.
ghost use Rattle.ec_select_operations.specs.Routines.{OneShapeHasOneRoutine};
ghost use Rattle.ec_select_operations.specs.Written.{NeededCodeIsWritten, NeededFunctionsAreWritten};

use ec_core_shapes::shapes_are_told;

/// Code that is written with the bytes that are needed of each result is the code of the operations.
pub fn needed_code_is_written()
    ensures { NeededCodeIsWritten }
{}

/// So is that of a function, with its label.
pub fn needed_functions_are_written()
    ensures { NeededFunctionsAreWritten }
{
    needed_code_is_written();
}

/// Operations of one shape have one routine.
pub fn one_shape_has_one_routine()
    ensures { OneShapeHasOneRoutine }
{
    shapes_are_told();
}
