//! Laws: what the tokens of a unit say of its parts, with no tree between them (ISO/IEC 9899:1999, 6.10.6; ISO/IEC TR
//! 18037:2008, 4.1.3).
#![tactic(auto)]

mod laws;

pub use laws::{
    definers_are_in_order, definers_define, functions_are_in_order, objects_are_in_order,
    parts_begin_at_first_tokens, shared_words_are_said, structs_are_in_order, tokens_say_modes,
    tokens_say_states,
};
