//! What the code of quotients does.
ghost use Rattle.ec_fxcode_quotients.specs.QuotientLaws.{QuotientsAreRight, QuotientsHave, QuotientsAreValid};
ghost use Rattle.ec_fxcode_quotients.specs.QuotientLaws.{QuotientsUseNoLabel, QuotientsPlaceNoLabel};

/// From its first word to its end the code takes at most so many steps, and leaves the exact quotient, rounded toward
/// zero and brought into the format of the result, where the divisor is not 0. All else is kept but the work bytes, the
/// flags and the work registers.
pub fn quotients_are_right()
    ensures { QuotientsAreRight }
{}

/// It has at most so many words.
pub fn quotients_are_short()
    ensures { QuotientsHave }
{}

/// The fields of its items are in range where the places of the bytes are.
pub fn quotients_are_valid()
    ensures { QuotientsAreValid }
{}

/// Its items refer to no label, and are the place of none.
pub fn quotients_have_no_labels()
    ensures uses { QuotientsUseNoLabel }
    ensures places { QuotientsPlaceNoLabel }
{}
