//! What the code of shifts does.
ghost use Rattle.ec_select_shifts.specs.Laws.{ShiftsAreRight, CountedShiftsAreRight, ShiftsHaveWords};
ghost use Rattle.ec_select_shifts.specs.Laws.{CountedShiftsHaveWords};

/// From its first word to its end the code takes at most so many steps, and leaves the number shifted by the count in
/// R30, which is below 128. All else is kept but the flags, R0, R1 and R30.
pub fn shifts_are_right()
    ensures { ShiftsAreRight }
{}

/// So does that of a shift by a known count, with one step more.
pub fn counted_shifts_are_right()
    ensures { CountedShiftsAreRight }
{}

/// This has at most so many words.
pub fn counted_shifts_have_words()
    ensures { CountedShiftsHaveWords }
{}

/// That of a shift by the count in R30 has so many words.
pub fn shifts_have_words()
    ensures { ShiftsHaveWords }
{}
