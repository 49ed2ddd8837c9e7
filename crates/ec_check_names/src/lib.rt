//! What the words and stars of a declaration mean, what a name or a tag stands for at a place, and the definitions of all
//! units by name (ISO/IEC 9899:1999, 6.2 and 6.7; ISO/IEC TR 18037:2008, 4.1.1 and 5.1.2).
#![tactic(auto)]

mod blocks;
mod defining;
mod laws;
mod linkage;
mod names;
mod numbering;
mod qualifiers;
mod specifiers;
mod spellings;
mod stars;
mod struct_table;
mod structs;
mod tags;
mod words;

pub use ec_check_trees::{
    first_assignment, first_binary, first_cast, first_compound, first_conditional,
    first_declaration, first_expression, first_initialiser, first_item, first_param, first_postfix,
    first_primary, first_spec, first_specs, first_statement, first_type_name, first_unary,
    has_too_many_functions, has_too_many_objects, is_function, less_function,
};
pub use laws::{
    blocks_end, definitions_are_found, definitions_are_numbered, equal_structs_are_one,
    inner_names_hide, outer_names_are_known,
};
pub use linkage::{Linkage, linkage_of};
pub use names::{Entry, Named, Names};
pub use numbering::{Defined, Definition, definitions, is_defined, number_of, storage_of};
pub use qualifiers::{Qualities, SpaceWord, judge_qualifiers, judge_quality, qualities_of};
pub use specifiers::{
    Lone, Specified, Storage, StorageWord, Storages, TypeWords, judge_specs, said_by, storages_of,
};
pub use spellings::{is_main, register_number};
pub use stars::{Declared, pointed};
pub use struct_table::{StructTable, struct_key};
pub use structs::same_struct;
pub use tags::{TagState, Tags};
pub use words::{BaseType, Times, Words, lone_type};
