//! Fixed-point arithmetic after ISO/IEC TR 18037:2008: formats, exact results rounded toward zero,
//! saturation and overflow.
//!
//! A fixed-point value is a whole number `n` of a format with `frac` fraction bits and stands for
//! `n / 2^frac`. Each operation forms the exact result, rounds it toward zero to the unit of the
//! result format, and then tests the range. No call takes memory.
#![tactic(auto)]

pub mod arithmetic;
pub mod constants;
pub mod conversions;
pub mod formats;
pub mod numbers;
pub mod rounding;

pub use arithmetic::{add, div, mul, neg, shift, sub};
pub use constants::constant;
pub use conversions::{compare, convert, to_int};
pub use formats::{Format, FxKind, greatest_number, least_number};
pub use numbers::{Fixed, Fx, Mode, Num};
pub use rounding::round;
