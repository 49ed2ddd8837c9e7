//! What the code does.
ghost use Rattle.ec_fxcode.specs.ClampLaws.{ClampsAreRight, ClampsHave, ClampsAreValid, ClampsUseNoLabel};
ghost use Rattle.ec_fxcode.specs.ClampLaws.{ClampsPlaceNoLabel};

/// The code of `clamp` leaves the number itself where it fits the format, and else, where the mode saturates, the
/// nearer end of the format's range. All else is kept but the flags and the work registers.
pub fn clamps_are_right()
    ensures { ClampsAreRight }
{}

/// It has at most so many words.
pub fn clamps_are_short()
    ensures { ClampsHave }
{}

/// The fields of its items are in range where the places of the bytes are.
pub fn clamps_are_valid()
    ensures { ClampsAreValid }
{}

/// Its items refer to no label, and are the place of none.
pub fn clamps_have_no_labels()
    ensures uses { ClampsUseNoLabel }
    ensures places { ClampsPlaceNoLabel }
{}
