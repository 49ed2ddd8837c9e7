//! What holds of all listings.
ghost use Rattle.ec_list.specs.Lists.{ListsOneImage, ListsShortly};

/// A text lists at most one image of a core, and has at most 16 bytes for each byte of its flash.
pub fn texts_list_one_image()
    ensures one { ListsOneImage }
    ensures short { ListsShortly }
{}
