//! Typed operands: places and values, their implicit conversions, and what binary operators make of them (ISO/IEC
//! 9899:1999, 6.3 and 6.5; ISO/IEC TR 18037:2008, 4.1 and 5.1). First what is decided of operands by their types alone, in
//! `sorts`, `conversions` and `meetings`, and the faults that are told of broken rules, in `faults`.
//!
//! A form is made by a function of its operands, None standing for one that broke a rule and has no type, and is judged
//! by another one, which tells the rules that it breaks. Nothing here speaks of the trees of a text.
//!
//! Trees that are not used are dropped by a call: a drop in place at each exit would cost the proof its variants.
#![tactic(auto)]

mod conversions;
mod faults;
mod meetings;
mod members;
mod operands;
mod operators;
mod passing;
mod sorts;
mod types;

pub use faults::{Fault, Faults, judgements_add_up, the_least_is_kept};
pub use meetings::{Meeting, type_between};
pub use members::member_named;
pub use operands::{
    Modes, Operand, as_value, boxed, boxed_in, convert, is_null, made, mode_of, valued,
};
pub use operators::{
    are_apart, can_be_stepped, is_beside_null, is_unsuited, judge_operation, meeting_of, operate,
    suits,
};
pub use passing::{boxed_in_type, brought, in_type, judge_conversion, judge_passing, pass};
pub use sorts::{Sort, same_pointee, type_sort};
pub use types::{is_aggregate, kept, nest, sort_of};
