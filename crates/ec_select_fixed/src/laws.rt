//! What the code of operations with a fixed-point operand or result does.
ghost use Rattle.ec_select_fixed.specs.FixedLaws.{FixedBinariesAreRight, FixedBinariesHave, FixedBinariesArePlain};
ghost use Rattle.ec_select_fixed.specs.FixedLaws.{FixedUnariesAreRight, FixedUnariesHave, FixedUnariesArePlain};
ghost use Rattle.ec_select_fixed.specs.FixedLaws.{FixedConversionsAreRight, FixedConversionsHave};
ghost use Rattle.ec_select_fixed.specs.FixedLaws.{FixedConversionsArePlain};

use ec_fxcode_conversions::laws::{
    conversions_are_right, conversions_are_short, conversions_are_valid,
    conversions_have_no_labels, products_are_right, products_are_short, products_are_valid,
    products_have_no_labels, wholes_are_right, wholes_are_short, wholes_are_valid,
    wholes_have_no_labels,
};
use ec_fxcode_quotients::laws::{
    quotients_are_right, quotients_are_short, quotients_are_valid, quotients_have_no_labels,
};
use ec_fxcode_shifts::laws::{
    shifts_are_right, shifts_are_short, shifts_are_valid, shifts_have_no_labels,
};
use ec_fxcode_sums::laws::{
    negations_are_right, negations_are_short, negations_are_valid, negations_have_no_labels,
    orders_are_right, orders_are_short, orders_are_valid, orders_have_no_labels, sums_are_right,
    sums_are_short, sums_are_valid, sums_have_no_labels,
};

/// The code of a binary operator ends in at most the steps that the operation may take, but those of a copy of its
/// result, and leaves the bytes of the result where the operator has one. All else is kept but the work bytes, the
/// flags and the work registers.
pub fn fixed_binaries_are_right()
    ensures { FixedBinariesAreRight }
{
    sums_are_right();
    products_are_right();
    quotients_are_right();
    shifts_are_right();
    orders_are_right();
}

/// So does that of a negation.
pub fn fixed_unaries_are_right()
    ensures { FixedUnariesAreRight }
{
    negations_are_right();
}

/// So does that of a conversion.
pub fn fixed_conversions_are_right()
    ensures { FixedConversionsAreRight }
{
    conversions_are_right();
    wholes_are_right();
}

/// It has at most the words that the operation may have, but those of a copy of its result.
pub fn fixed_binaries_are_short()
    ensures { FixedBinariesHave }
{
    sums_are_short();
    products_are_short();
    quotients_are_short();
    shifts_are_short();
    orders_are_short();
}

/// So has that of a negation.
pub fn fixed_unaries_are_short()
    ensures { FixedUnariesHave }
{
    negations_are_short();
}

/// So has that of a conversion.
pub fn fixed_conversions_are_short()
    ensures { FixedConversionsHave }
{
    conversions_are_short();
    wholes_are_short();
}

/// Its items are valid where the places of the bytes are, refer to no label, and are the place of none.
pub fn fixed_binaries_are_plain()
    ensures { FixedBinariesArePlain }
{
    sums_are_valid();
    sums_have_no_labels();
    products_are_valid();
    products_have_no_labels();
    quotients_are_valid();
    quotients_have_no_labels();
    shifts_are_valid();
    shifts_have_no_labels();
    orders_are_valid();
    orders_have_no_labels();
}

/// So are those of a negation.
pub fn fixed_unaries_are_plain()
    ensures { FixedUnariesArePlain }
{
    negations_are_valid();
    negations_have_no_labels();
}

/// So are those of a conversion.
pub fn fixed_conversions_are_plain()
    ensures { FixedConversionsArePlain }
{
    conversions_are_valid();
    conversions_have_no_labels();
    wholes_are_valid();
    wholes_have_no_labels();
}
