//! Items of code, and the layer for proofs about code.
//!
//! Items are instructions, labels, and instructions that refer to labels and to bytes of objects. `specs/` has the view
//! of the machine that proofs about code use, where items stand, and runs of code on the view. What holds of them are
//! the contracts of functions that do nothing, in `laws`, and the functions that make code have theirs.
#![tactic(auto)]

mod instructions;
mod items;
pub mod laws;
mod pieces;
mod valid;

pub use instructions::words;
pub use items::{AsmItem, AsmProgram, Slot, code_words, item_words};
pub use pieces::{Location, Operator, compare, copy, halve, operate};
pub use valid::{is_valid_asm, is_valid_item, size_of, stands_once, used_label};
