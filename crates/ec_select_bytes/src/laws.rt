//! What the pieces of code do.
ghost use Rattle.ec_select_bytes.specs.Laws.{ConstantsAreRight, TestsTellZero, TestsKeep, ExtensionsAreRight};
ghost use Rattle.ec_select_bytes.specs.Laws.{ValuesAreStraight, ValuesTake, ValuesHave};
ghost use Rattle.ec_select_bytes.specs.ComplementLaws.{ComplementsAreRight, NegationsAreRight};
ghost use Rattle.ec_select_bytes.specs.ComplementLaws.{ComplementsAreStraight, ComplementsTake, ComplementsHave};

/// The code of `constant` puts the bytes of a number to their place, and keeps all others but R30.
pub fn constants_are_right()
    ensures { ConstantsAreRight }
{}

/// The code of `test` leaves in Z whether a number of at least one byte is 0, and keeps all but the flags, R0 and R1.
pub fn tests_are_right()
    ensures zero { TestsTellZero }
    ensures keep { TestsKeep }
{}

/// The code of `extend` puts 0 to the bytes above a number, or 255 where it is signed and negative, and keeps all
/// others but R0 and R1.
pub fn extensions_are_right()
    ensures { ExtensionsAreRight }
{}

/// The code is straight, and has at most so many steps and words.
pub fn values_are_straight()
    ensures straight { ValuesAreStraight }
    ensures steps { ValuesTake }
    ensures words { ValuesHave }
{}

/// The code of `complement` turns all bits of a number, that of `negate` negates it, and both keep all else but the
/// flags, R0 and R1.
pub fn complements_are_right()
    ensures complement { ComplementsAreRight }
    ensures negation { NegationsAreRight }
{}

/// The code is straight, and has at most so many steps and words.
pub fn complements_are_straight()
    ensures straight { ComplementsAreStraight }
    ensures steps { ComplementsTake }
    ensures words { ComplementsHave }
{}
