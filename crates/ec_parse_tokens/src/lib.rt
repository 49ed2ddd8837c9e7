//! The first tokens of a list that is read, how deep what begins with them may nest, and boxes for trees.
//!
//! A function of the parser is given the tokens that are still to be read, and answers what it read of them with the
//! tokens after it. Its `left` says how many constructs may still be opened, and its `room` what height the nodes
//! around, as far as they may end with this one, leave to it; both begin at `LIMIT`. It stops with
//! `ReadError::Syntax` at the first token that cannot be gone on with, with `ReadError::TooDeep` at the first one at
//! which the limit of nesting is passed, and with `ReadError::NoMemory`.
#![tactic(auto)]

mod boxes;
mod depth;
mod punctuators;
mod stop;
mod tokens;
mod words;

pub use boxes::{add, boxed};
pub use depth::{
    CHAIN, LIMIT, begun_body, begun_expression, begun_statement, ended, higher, opened,
    room_behind, too_long,
};
pub use stop::ReadError;
pub use tokens::{
    Jump, Keyword, Source, begins_specs, expect, expect_end, expect_name, expect_word, take,
    take_access, take_assign, take_cast, take_constant, take_keyword, take_level, take_name,
    take_operation, take_pragma, take_prefix, take_qualifier, take_spec_word, take_step, take_void,
    take_word, unexpected,
};
