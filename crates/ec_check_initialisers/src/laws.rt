//! The laws of sizes and of the values of leaves: each function proves one, and does nothing.
ghost use Rattle.ec_check_initialisers.specs.Laws.{SizesAreValues, StaticNumbersAreValues, ValuesHaveLeafTypes};
ghost use Rattle.ec_check_initialisers.specs.Laws.{InitialValuesSuit, ConstantsAreNoPointers};

use ec_check_constants::{runs_give_constants, tests_tell_constants};
use ec_core::{leaves_fill_their_types, structs_are_laid_out, types_are_told};

/// No part of an expression that has the form of a constant expression is a pointer. So a pointer is an initial value
/// only as `0`, an array's name or `&` of a place.
pub fn constants_are_no_pointers()
    ensures { ConstantsAreNoPointers }
{}

/// A size of an array is from 1 to 32,767, and is the value of a constant expression, which a run of it gives.
pub fn sizes_are_values()
    ensures { SizesAreValues }
{
    tests_tell_constants();
}

/// A number that an item gives to a static object is the value of a constant expression, which a run of it gives.
pub fn static_numbers_are_values()
    ensures { StaticNumbersAreValues }
{
    tests_tell_constants();
    runs_give_constants();
}

/// The values of a local object are as many as its type has leaves, and each has the type of its leaf.
pub fn values_have_leaf_types()
    ensures { ValuesHaveLeafTypes }
{
    structs_are_laid_out();
    leaves_fill_their_types();
    types_are_told();
}

/// The initial values of a static object are as many as its type has leaves, and each suits its leaf: a number that an
/// arithmetic type holds, or null or an address for a pointer, of an object at file scope in a space that the pointer's
/// encloses, at an offset from 0 to its size.
pub fn initial_values_suit()
    ensures { InitialValuesSuit }
{
    structs_are_laid_out();
    leaves_fill_their_types();
    types_are_told();
    tests_tell_constants();
}
