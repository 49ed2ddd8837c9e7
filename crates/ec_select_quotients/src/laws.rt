//! What the code of division does.
ghost use Rattle.ec_select_quotients.specs.Laws.{DivisionIsRight};
ghost use Rattle.ec_select_quotients.specs.SignLaws.{QuotientsAreRight};

/// From its first word to its end the code takes at most so many steps, and leaves the quotient and the remainder of
/// two numbers without signs. All else is kept but the flags and the work registers.
pub fn division_is_right()
    ensures { DivisionIsRight }
{}

/// From its first word to its end the code takes at most so many steps, and leaves the quotient, truncated towards 0,
/// or the remainder, with the sign of the number that is divided. All else is kept but the flags and the work
/// registers.
pub fn quotients_are_right()
    ensures { QuotientsAreRight }
{}
