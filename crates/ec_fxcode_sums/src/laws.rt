//! What the code of sums, negations and comparisons does.
ghost use Rattle.ec_fxcode_sums.specs.SumLaws.{SumsAreRight, SumsHave, SumsAreValid, SumsUseNoLabel, SumsPlaceNoLabel};
ghost use Rattle.ec_fxcode_sums.specs.SumLaws.{NegationsAreRight, NegationsHave, NegationsAreValid};
ghost use Rattle.ec_fxcode_sums.specs.SumLaws.{NegationsUseNoLabel, NegationsPlaceNoLabel};
ghost use Rattle.ec_fxcode_sums.specs.OrderLaws.{OrdersAreRight, OrdersHave, OrdersAreValid};
ghost use Rattle.ec_fxcode_sums.specs.OrderLaws.{OrdersUseNoLabel, OrdersPlaceNoLabel};

use ec_asm::laws::{
    numbers_are_their_bytes, operators_are_right, parts_stand, pieces_are_straight, runs_join,
    straight_code_goes,
};
use ec_fxcode::laws::{clamps_are_right, clamps_are_valid, clamps_have_no_labels};
use ec_fxcode_scales::laws::{
    clamps_are_words_short, cuts_are_right, cuts_are_short, cuts_are_valid, cuts_have_no_labels,
    scales_are_right, scales_are_short, scales_are_valid, scales_have_no_labels,
};
use ec_select_bytes::laws::{complements_are_right, complements_are_straight};
use ec_select_order::laws::{relations_are_told, relations_have_words};

/// From its first word to its end the code of `sum` takes at most so many steps, and leaves the exact sum or
/// difference, rounded toward zero and brought into the format of the result. All else is kept but the work bytes, the
/// flags and the work registers.
pub fn sums_are_right()
    ensures { SumsAreRight }
{
    clamps_are_right();
    cuts_are_right();
    numbers_are_their_bytes();
    operators_are_right();
    parts_stand();
    pieces_are_straight();
    runs_join();
    scales_are_right();
    straight_code_goes();
}

/// It has at most so many words.
pub fn sums_are_short()
    ensures { SumsHave }
{
    clamps_are_words_short();
    cuts_are_short();
    scales_are_short();
}

/// The fields of its items are in range where the places of the bytes are.
pub fn sums_are_valid()
    ensures { SumsAreValid }
{
    clamps_are_valid();
    cuts_are_valid();
    scales_are_valid();
}

/// Its items refer to no label, and are the place of none.
pub fn sums_have_no_labels()
    ensures uses { SumsUseNoLabel }
    ensures places { SumsPlaceNoLabel }
{
    clamps_have_no_labels();
    cuts_have_no_labels();
    scales_have_no_labels();
}

/// From its first word to its end the code of `negate` takes at most so many steps, and leaves the negated number,
/// brought into its format. All else is kept but the work bytes, the flags and the work registers.
pub fn negations_are_right()
    ensures { NegationsAreRight }
{
    clamps_are_right();
    complements_are_right();
    complements_are_straight();
    numbers_are_their_bytes();
    parts_stand();
    runs_join();
    scales_are_right();
    straight_code_goes();
}

/// It has at most so many words.
pub fn negations_are_short()
    ensures { NegationsHave }
{
    clamps_are_words_short();
    complements_are_straight();
    scales_are_short();
}

/// The fields of its items are in range where the places of the bytes are.
pub fn negations_are_valid()
    ensures { NegationsAreValid }
{
    clamps_are_valid();
    scales_are_valid();
}

/// Its items refer to no label, and are the place of none.
pub fn negations_have_no_labels()
    ensures uses { NegationsUseNoLabel }
    ensures places { NegationsPlaceNoLabel }
{
    clamps_have_no_labels();
    scales_have_no_labels();
}

/// From its first word to its end the code of `order` takes at most so many steps, and leaves in R30 whether the exact
/// values stand in the relation. All else is kept but the work bytes, the flags and the work registers.
pub fn orders_are_right()
    ensures { OrdersAreRight }
{
    numbers_are_their_bytes();
    parts_stand();
    relations_are_told();
    runs_join();
    scales_are_right();
    straight_code_goes();
}

/// It has at most so many words.
pub fn orders_are_short()
    ensures { OrdersHave }
{
    relations_have_words();
    scales_are_short();
}

/// The fields of its items are in range where the places of the bytes are.
pub fn orders_are_valid()
    ensures { OrdersAreValid }
{
    scales_are_valid();
}

/// Its items refer to no label, and are the place of none.
pub fn orders_have_no_labels()
    ensures uses { OrdersUseNoLabel }
    ensures places { OrdersPlaceNoLabel }
{
    scales_have_no_labels();
}
