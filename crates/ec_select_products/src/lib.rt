//! The code of products of two bytes, each signed or unsigned.
//!
//! `specs/Products.antt` has the code, `specs/Laws.antt` what it does. R0, R1, R30 and R31 are work registers.
#![tactic(auto)]

pub mod laws;
mod products;

pub use products::{Factor, multiply};
