//! What the code of shifts does.
ghost use Rattle.ec_fxcode_shifts.specs.ShiftLaws.{ShiftsAreRight, ShiftsHave, ShiftsAreValid, ShiftsUseNoLabel};
ghost use Rattle.ec_fxcode_shifts.specs.ShiftLaws.{ShiftsPlaceNoLabel};

/// From its first word to its end the code takes at most so many steps, and leaves the operand times two to the power
/// of the count, or divided by it and rounded toward zero, brought into the format of the operand, where the count is
/// from 0 to below the bits of the format. All else is kept but the work bytes, the flags and the work registers.
pub fn shifts_are_right()
    ensures { ShiftsAreRight }
{}

/// It has at most so many words.
pub fn shifts_are_short()
    ensures { ShiftsHave }
{}

/// The fields of its items are in range where the places of the bytes are.
pub fn shifts_are_valid()
    ensures { ShiftsAreValid }
{}

/// Its items refer to no label, and are the place of none.
pub fn shifts_have_no_labels()
    ensures uses { ShiftsUseNoLabel }
    ensures places { ShiftsPlaceNoLabel }
{}
