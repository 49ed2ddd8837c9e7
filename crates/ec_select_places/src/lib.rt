//! Pieces of code for pointers: a pointer moved by so many elements, pointers subtracted and compared, and pointers of
//! two bytes that become pointers of three bytes and back.
//!
//! A pointer has its offset in two bytes, the low one first, and that of the unnamed space has a third byte, which
//! tells the bank: 0x00 is flash, and 0x80 is data. Null is 0. `specs/Numbers.antt` tells pointers as numbers,
//! `specs/Steps.antt`, `specs/Distances.antt` and `specs/Conversions.antt` have the pieces, `specs/StepLaws.antt`,
//! `specs/DistanceLaws.antt`, `specs/ConversionLaws.antt` and `specs/Form.antt` what they do. R0, R1, R8 to R11, R30
//! and R31 are work registers.
//!
//! An index in registers of its own is added to a pointer in registers as it stands: `specs/Indexes.antt` has the pieces,
//! `specs/IndexLaws.antt` what they do. R26 is a work register of theirs.
//!
//! On a core whose flash goes past the first 65,536 bytes a pointer of three bytes into flash has the whole address.
//! `specs/Far.antt` has the pieces for these, `specs/FarLaws.antt` and `specs/FarForm.antt` what they do.
#![tactic(auto)]

mod conversions;
mod distances;
mod far;
mod indexes;
mod inverses;
pub mod laws;
mod steps;

pub use conversions::{embed, narrow};
pub use distances::{distance, elements};
pub use far::{advance_far, order_far};
pub use indexes::{add_index, can_add};
pub use inverses::{OddPart, inverse, odd_part};
pub use steps::{advance, order, scale_index};
