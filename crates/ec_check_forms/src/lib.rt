//! The forms of expressions over typed operands: prefix operators, steps, assignments and uses of values; subscripts and
//! members; `&&`, `||`, `?:`, casts and commas; names, calls, operations on ports and constants (ISO/IEC 9899:1999, 6.5;
//! ISO/IEC TR 18037:2008, 4.1, 5.1 and 6.2).
//!
//! The rules that operands can break stand as a table, by the sites where they are judged. The laws say that these rules are
//! exactly the constraints of the language, and that what a form makes of operands is as a valid program asks.
#![tactic(auto)]

mod accesses;
mod assignments;
mod calls;
mod choices;
mod laws;
mod ports;
mod prefixes;
mod uses;

pub use accesses::{index, judge_index, judge_member, member};
pub use assignments::{assign, compound, judge_assignment, judge_compound, judge_step, step};
pub use calls::{
    Meant, call, fixed_constant, judge_call, judge_callee, judge_function, judge_name, size_value,
    whole_constant,
};
pub use choices::{cast, choose, judge_cast, judge_choice, judge_logical, logical, sequence};
pub use laws::{
    forms_stay_valid, kept_forms_have_meanings, kept_members_have_meanings, names_are_valid,
    rules_are_constraints, sizes_are_valid,
};
pub use ports::{
    Binding, NamedGroup, NamedPort, access, binding_named, binding_operation, group_named,
    group_operation, is_indexed, judge_binding, judge_group, judge_port, operand_count,
    operand_type, port_named,
};
pub use prefixes::{PrefixOp, judge_prefix, prefix};
pub use uses::{condition, judge_condition, take, take_part};
