//! Listings: the text of an image, and the image of a text.
//!
//! `specs/Texts.antt` is the table of the texts of instructions, `specs/Lines.antt` says what a line is and which bytes it
//! lists, and `specs/Lists.antt` which image a text lists, why a text lists none, and which text is written for an image.
#![tactic(auto)]

mod assembling;
mod laws;
mod line;
mod listing;
mod reading;
mod scanning;
mod texts;

pub use assembling::{AsmStop, assemble};
pub use laws::texts_list_one_image;
pub use listing::list;
