//! What the code that brings numbers from one number of bits behind the point to another does.
ghost use Rattle.ec_fxcode_formats.specs.FormatLaws.{CutsAreRight, CutsHave, NumbersAreBrought, BroughtHave};

/// The code leaves the number without so many bits, rounded toward zero, where its place has room for it, in at most so
/// many steps. All else is kept but the flags and the work registers.
pub fn cuts_are_right()
    ensures { CutsAreRight }
{}

/// It has at most so many words.
pub fn cuts_have()
    ensures { CutsHave }
{}

/// The code leaves the number in units of the other form, rounded toward zero, where its place has room for it, in at
/// most so many steps. All else is kept but the flags and the work registers.
pub fn numbers_are_brought()
    ensures { NumbersAreBrought }
{}

/// It has at most so many words.
pub fn brought_have()
    ensures { BroughtHave }
{}
