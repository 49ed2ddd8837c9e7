//! What is told from a tree alone: the first tokens of its parts, and how many objects and functions it declares.
#![tactic(auto)]

mod counts;
mod firsts;

pub use counts::{has_too_many_functions, has_too_many_objects, is_function, less_function};
pub use firsts::{
    first_assignment, first_binary, first_cast, first_compound, first_conditional,
    first_declaration, first_expression, first_initialiser, first_item, first_param, first_postfix,
    first_primary, first_spec, first_specs, first_statement, first_type_name, first_unary,
};
