//! What the pieces of code do.
ghost use Rattle.ec_select_numbers.specs.Laws.{NumbersAreSubtracted, NumbersChangeBits, NumbersAreCompared};
ghost use Rattle.ec_select_numbers.specs.Laws.{NumbersAreAdded, NumbersAreStraight, NumbersArePut, PutsAreStraight};

/// The code of `put_number` puts the lowest bytes of a number to a place, and keeps all else but R30 and R31. That of
/// `change_by` leaves the difference of a number and a known one, or AND or OR of them, and that of `add_number` their sum.
/// Both keep all else but the flags, R30 and R31. That of `compare_with` leaves in C, S and Z how a number of at least one
/// byte stands to a known one, and keeps all else but R0 and R30. The code is straight, and has at most so many steps and
/// words.
pub fn numbers_are_operands()
    ensures subtracted { NumbersAreSubtracted }
    ensures added { NumbersAreAdded }
    ensures bits { NumbersChangeBits }
    ensures compared { NumbersAreCompared }
    ensures straight { NumbersAreStraight }
    ensures put { NumbersArePut }
    ensures put_straight { PutsAreStraight }
{}
