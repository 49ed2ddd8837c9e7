//! What the code in the place of the result does.
ghost use Rattle.ec_fxcode_placed.specs.ShiftLaws.{PlacedShiftsAreRight, PlacedShiftsHave, PlacedCountsAreRight, PlacedCountsHave};

/// The code leaves the number shifted by the count in R30, rounded toward zero, as a value of its format, in at most so
/// many steps. All else is kept but the flags and the work registers.
pub fn placed_shifts_are_right()
    ensures { PlacedShiftsAreRight }
{}

/// It has at most so many words.
pub fn placed_shifts_have()
    ensures { PlacedShiftsHave }
{}

/// So does that of a shift by a known count, with a few steps more.
pub fn placed_counts_are_right()
    ensures { PlacedCountsAreRight }
{}

/// This has at most so many words.
pub fn placed_counts_have()
    ensures { PlacedCountsHave }
{}
