//! The typed program, the layout of its types, what its operators do to values, and what a run of it does.
//!
//! A program is what a compiler's front end leaves of its source: objects, functions, and trees of
//! statements and expressions in which each node has its type and each conversion is a node of its
//! own (ISO/IEC 9899:1999, ISO/IEC TR 18037:2008). Contracts see these trees without their pointers,
//! by the definitions of `specs/Plain.antt`.
#![tactic(auto)]

mod arithmetic_operations;
mod arithmetic_types;
mod expressions;
mod integers;
mod laws;
mod layers;
mod layout;
mod pointers;
mod programs;
mod statements;
mod type_laws;
mod types;
mod values;

pub use arithmetic_operations::{
    arithmetic_conversion, arithmetic_operation, fixed_operation, is_comparison, unary_operation,
};
pub use arithmetic_types::{Arithmetic, FixedType, IntegerType, result_type, signed_kind};
pub use expressions::{BinOp, Expr, Node, PlaceExpr, UnOp};
pub use integers::integer_operation;
pub use laws::{
    bytes_are_taken_in_order, calls_nest_no_deeper, depends_on_bytes_read, events_are_at_home,
    invalid_is_never_met, more_turns_only_add, operands_suit, parts_only_add, registers_are_silent,
    runs_by_steps, turns_are_work, types_are_kept, types_are_told, work_never_falls,
};
pub use layout::{Leaf, leaves, size_of};
pub use pointers::{
    pointer_comparison, pointer_conversion, pointer_difference, pointer_sum, pointer_truth,
};
pub use programs::{Func, LeafInit, Obj, Program, Storage};
pub use statements::{Stmt, StmtKind};
pub use type_laws::{leaves_fill_their_types, structs_are_laid_out, usual_conversions};
pub use types::{CType, Member, StructDef};
pub use values::{ObjectPointer, Referent, Undefined, Value};
