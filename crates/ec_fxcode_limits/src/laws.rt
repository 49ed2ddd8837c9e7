//! What the code that stops a sum or a difference does.
ghost use Rattle.ec_fxcode_limits.specs.LimitLaws.{LimitedSumsAreRight, LimitsHave, OppositesAreRight};

/// A sum or a difference of two numbers of one format, and the code behind it, leave the result as a value of the
/// format, or where it is out of range the nearer end of the range, in at most so many steps. All else is kept but the
/// flags and the work registers.
pub fn limited_sums_are_right()
    ensures { LimitedSumsAreRight }
{}

/// The code behind it has at most so many words.
pub fn limits_are_short()
    ensures { LimitsHave }
{}

/// The code of `negate_byte` leaves the opposite of one byte with a sign as a value of the format, or where that is out of range
/// the greatest one. All else is kept but the flags.
pub fn opposites_are_right()
    ensures { OppositesAreRight }
{}
