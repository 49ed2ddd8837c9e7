//! What the code of scales does.
ghost use Rattle.ec_fxcode_scales.specs.ScaleLaws.{ScalesAreRight, ScalesHave, ScalesAreValid, ScalesUseNoLabel};
ghost use Rattle.ec_fxcode_scales.specs.ScaleLaws.{ScalesPlaceNoLabel, CutsAreRight, CutsHave, CutsAreValid};
ghost use Rattle.ec_fxcode_scales.specs.ScaleLaws.{CutsUseNoLabel, CutsPlaceNoLabel, ClampsAreShort};

/// From its first word to its end the code of `scale` takes at most 64 steps for each byte of the result, and leaves
/// the number times two to the power of the bits. All else is kept but the flags and the work registers.
pub fn scales_are_right()
    ensures { ScalesAreRight }
{}

/// It has at most so many words.
pub fn scales_are_short()
    ensures { ScalesHave }
{}

/// The fields of its items are in range where the places of the bytes are.
pub fn scales_are_valid()
    ensures { ScalesAreValid }
{}

/// Its items refer to no label, and are the place of none.
pub fn scales_have_no_labels()
    ensures uses { ScalesUseNoLabel }
    ensures places { ScalesPlaceNoLabel }
{}

/// From its first word to its end the code of `cut` takes at most 64 steps for each byte, and leaves the number divided
/// by two to the power of the bits and rounded toward zero, where its magnitude has a bit to spare. All else is kept
/// but the flags and the work registers.
pub fn cuts_are_right()
    ensures { CutsAreRight }
{}

/// It has at most so many words.
pub fn cuts_are_short()
    ensures { CutsHave }
{}

/// The fields of its items are in range where the places of the bytes are.
pub fn cuts_are_valid()
    ensures { CutsAreValid }
{}

/// Its items refer to no label, and are the place of none.
pub fn cuts_have_no_labels()
    ensures uses { CutsUseNoLabel }
    ensures places { CutsPlaceNoLabel }
{}

/// The code that brings a number into a format has at most so many words, by the bytes of both.
pub fn clamps_are_words_short()
    ensures { ClampsAreShort }
{}
