//! Intel HEX: the text of a flash image, and what a text denotes.
//!
//! The format is that of Intel's Hexadecimal Object File Format Specification, Revision A, 1988. `specs/Record.antt`
//! says what a line of a text is, `specs/Denotes.antt` which image a text denotes, `specs/Stops.antt` why a text
//! denotes none, and `specs/Text.antt` which text is written for an image.
#![tactic(auto)]

mod laws;
mod line;
mod read;
mod record;
mod text;
mod write;

pub use laws::texts_are_short;
pub use read::{HexStop, read_hex};
pub use text::{digit_number, digit_of, first_line};
pub use write::write_hex;
