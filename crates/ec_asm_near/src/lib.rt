//! Items of code in which jumps, calls and branches to labels that are near take one word, and branches to others that
//! RJMP reaches two.
//!
//! `ec_asm` says where items stand as a relation, for which a relative jump stands for the jump to its label too. So
//! what is proved of items holds of them shortened: the contracts of functions that do nothing say so, in `laws`.
#![tactic(auto)]

mod labels;
pub mod laws;
mod rows;
mod shorten;

pub use shorten::near;
