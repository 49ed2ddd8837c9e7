//! The walk over statements (ISO/IEC 9899:1999, 6.8): what the statements of a function's body mean, the scope behind them,
//! and which constraints they break.
//!
//! Its laws say that the objects that a body declares are those of a valid program, and that what the body means is a
//! statement as a valid program asks.
#![tactic(auto)]

mod around;
mod headings;
mod kept;
mod kinds;
mod laws;
mod locals;
mod parts;
mod results;
mod walk;

pub use around::{Around, with_pragma};
pub use laws::{
    bodies_are_valid, bodies_need_their_tokens, declared_types_are_placed,
    function_types_are_usable, inner_objects_keep_suiting, kept_bodies_have_meanings,
    kept_functions_have_types, kept_objects_have_types, objects_are_appended, objects_stay,
    scopes_end,
};
pub use walk::body;
