//! The law of the test.
ghost use Rattle.ec_check_constants.specs.Laws.{RunsGiveConstants, ValidFormsAreConstant};
ghost use Rattle.ec_check_constants.specs.Laws.{TestsTellConstants};

use ec_core::types_are_told;

/// A run of a constant expression gives its value, or meets the undefined point that stands for it. It leaves objects,
/// groups and events as they are.
pub fn runs_give_constants()
    ensures { RunsGiveConstants }
{}

/// An expression of a valid program that has the form of a constant is a constant expression.
pub fn valid_forms_are_constant()
    ensures { ValidFormsAreConstant }
{}

/// The test tells exactly the constant expressions.
pub fn tests_tell_constants()
    ensures { TestsTellConstants }
{
    types_are_told();
}
