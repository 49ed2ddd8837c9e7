//! What calls of routines compute, their words, and which shapes stand once: each function proves a law, and does nothing.
ghost use Rattle.ec_select_routines.specs.Laws.{BinaryRoutinesAreRight, BinaryRoutinesHave, CallsHave};
ghost use Rattle.ec_select_routines.specs.Laws.{ConversionRoutinesAreRight, ConversionRoutinesHave};
ghost use Rattle.ec_select_routines.specs.Laws.{QuotientRoutinesAreRight, UnaryRoutinesAreRight, UnaryRoutinesHave};
ghost use Rattle.ec_select_routines.specs.Sizes.{SizesDecide};

use ec_asm::laws::{calls_return, parts_stand};
use ec_select_fixed::laws::{
    fixed_binaries_are_right, fixed_binaries_are_short, fixed_conversions_are_right,
    fixed_conversions_are_short, fixed_unaries_are_right, fixed_unaries_are_short,
};
use ec_select_quotients::laws::quotients_are_right;

/// A call of the routine of a binary operator computes what its code does at each use, in at most 34 steps more, and
/// changes besides the work bytes and the work registers the two bytes alone that it pushes.
pub fn binary_routines_are_right()
    ensures { BinaryRoutinesAreRight }
{
    calls_return();
    parts_stand();
    fixed_binaries_are_right();
}

/// So does that of a negation.
pub fn unary_routines_are_right()
    ensures { UnaryRoutinesAreRight }
{
    calls_return();
    parts_stand();
    fixed_unaries_are_right();
}

/// So does that of a conversion.
pub fn conversion_routines_are_right()
    ensures { ConversionRoutinesAreRight }
{
    calls_return();
    parts_stand();
    fixed_conversions_are_right();
}

/// A call of the routine of a quotient or a remainder of integers leaves it among the work bytes.
pub fn quotient_routines_are_right()
    ensures { QuotientRoutinesAreRight }
{
    calls_return();
    parts_stand();
    quotients_are_right();
}

/// A routine of a fixed-point operation has at most one word more than the operation may have by itself, and a call at
/// most 4 for each byte of its operands and 2.
pub fn routines_have_words()
    ensures binary { BinaryRoutinesHave }
    ensures unary { UnaryRoutinesHave }
    ensures conversion { ConversionRoutinesHave }
    ensures calls { CallsHave }
{
    fixed_binaries_are_short();
    fixed_unaries_are_short();
    fixed_conversions_are_short();
}

/// Where each shape stands once whose routine with its calls is shorter than code at each use, the code is never longer than
/// that, and within the rows of shapes.
pub fn sizes_decide<U, K>()
    ensures { SizesDecide U K }
{}
