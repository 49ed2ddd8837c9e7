//! The laws of the walk over expressions (ISO/IEC 9899:1999, 6.5): what an expression means is as a valid program asks,
//! it means something where no rule is told, and its value needs no more temporaries than it has tokens.
#![tactic(auto)]

mod laws;

pub use laws::{
    declarations_keep_suiting, definitions_keep_suiting, expressions_are_valid,
    kept_expressions_have_meanings, kept_types_are_said, needs_are_bounded,
    only_functions_are_called, said_types_are_placed, sites_are_kept, values_are_valid,
};
