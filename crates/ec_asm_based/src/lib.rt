//! Items of code in which bytes of objects that stand near one address, the base, are loaded and stored by Y in one
//! word each.
//!
//! `ec_asm` says where items stand as a relation, for which a load or a store of an object's byte by Y stands for the
//! one by its address too, where Y holds the base all along. So what is proved of items holds of them shortened: the
//! contracts of functions that do nothing say so, in `laws`.
#![tactic(auto)]

mod base;
pub mod laws;
mod reach;
mod shorten;

pub use reach::Reach;
pub use shorten::based;
