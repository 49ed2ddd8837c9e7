//! The code of conversions between the formats of fixed-point numbers and integers, and of products of one byte.
//!
//! `specs/Conversions.antt` and `specs/Products.antt` have the code, `specs/ConversionLaws.antt` and
//! `specs/ProductLaws.antt` what it does. R0, R1, R30 and R31 are work registers.
#![tactic(auto)]

mod conversions;
pub mod laws;
mod products;

pub use conversions::{Number, convert, whole};
pub use products::multiply;
