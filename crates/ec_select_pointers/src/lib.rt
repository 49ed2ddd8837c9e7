//! Pieces of code for pointers: the address of a place put to a pointer, a pointer moved by an
//! offset, loads and stores of numbers of several bytes through pointers, and loads from places in
//! the flash bank.
//!
//! A pointer has its address in two bytes, the low one first, and that of the unnamed space has a third byte, which
//! tells the bank: 0x00 is flash, and 0x80 is data. `specs/Addresses.antt` and `specs/Accesses.antt` have the pieces,
//! `specs/AddressLaws.antt`, `specs/AccessLaws.antt` and `specs/Form.antt` what they do. R0, R30 and R31 are work
//! registers.
//!
//! A pointer may stay in Z over loads and a store at a displacement, and R0 may have its third byte.
//! `specs/Fetched.antt` has the pieces for this, and `specs/FetchedLaws.antt` what they do.
//!
//! On a core with RAMPZ a pointer of three bytes into flash has the whole address. `specs/Far.antt` has the pieces for
//! these, `specs/FarLaws.antt` and `specs/FarForm.antt` what they do.
#![tactic(auto)]

mod accesses;
mod addresses;
mod far;
mod fetched;
pub mod laws;
mod memory;

pub use accesses::{load_any, load_data, load_flash, load_table, point, store_data};
pub use addresses::{address, field};
pub use far::{far_address, far_field, load_any_far, load_far, load_far_table};
pub use fetched::{fetch, load_further, load_member, load_tagged, store_member};
