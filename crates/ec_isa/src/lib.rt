//! The instructions of the AVR core and the words that they stand for, both ways.
//!
//! The table is that of the Microchip AVR Instruction Set Manual, cut to the instructions of this core:
//! `specs/Table.antt` has a line for each of them.
#![tactic(auto)]

mod addresses;
pub mod decoding;
pub mod encoding;
mod flags;
mod formats;
pub mod instructions;
mod words;

pub use addresses::{
    has_rampz, is_core_register, is_kept, is_past_ports, is_port, lowered, post_increment, raised,
};
pub use decoding::decode;
pub use encoding::{encode, is_in_table};
pub use flags::{half_carry, zero_of_difference};
pub use instructions::{Instr, Words};
pub use words::{return_address, skipped_words};
