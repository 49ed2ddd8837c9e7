//! What declarators, definitions of structs and declarations of objects in named registers declare, and the rules that
//! they break (ISO/IEC 9899:1999, 6.7; ISO/IEC TR 18037:2008, 5.1 and 5.2); and of a unit which `main` is of another form,
//! and what is told of a fault.
#![tactic(auto)]

mod functions;
mod heads;
mod name_sets;
mod object_types;
mod objects;
mod params;
mod registers;
mod scopes;
mod structures;
mod units;

pub use functions::{FunctionDeclared, declared_function, param_types};
pub use object_types::is_object_type;
pub use objects::{ObjectDeclared, declared_object};
pub use params::{ParamDeclared, declared_params};
pub use registers::{RegisterDeclared, declared_register};
pub use scopes::{Context, Scope, copied_name, copied_type};
pub use structures::{MemberDeclared, add_struct, defined_struct};
pub use units::{UnitFault, is_other_form, told_of};
