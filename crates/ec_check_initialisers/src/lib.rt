//! Sizes of arrays and initialisers (ISO/IEC 9899:1999, 6.7.5.2 and 6.7.8): the parts of the types of objects, places in
//! objects with static storage, and the values of initialisers of locals and statics.
#![tactic(auto)]

mod forms;
mod items;
mod laws;
mod leaves;
mod locals;
mod parts;
mod places;
mod sizes;
mod statics;
mod zeros;

pub use laws::{
    constants_are_no_pointers, initial_values_suit, sizes_are_values, static_numbers_are_values,
    values_have_leaf_types,
};
pub use locals::{Values, local_values};
pub use sizes::array_size;
pub use statics::{static_values, zero_values};
