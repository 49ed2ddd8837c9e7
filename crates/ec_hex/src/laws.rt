//! A law of texts.
ghost use Rattle.ec_hex.specs.Text.{TextsAreShort};

/// The text of an image has at most 14 bytes for each byte of the flash, 16 for each 65,536 of them that others follow,
/// and 12 more.
pub fn texts_are_short()
    ensures { TextsAreShort }
{}
