//! Laws: what declarations say, and that what is told of the parts of declarations and statements is exactly what breaks a
//! constraint there (ISO/IEC 9899:1999, 6.7 to 6.9; ISO/IEC TR 18037:2008, 5.1 and 5.2).
#![tactic(auto)]

mod laws;

pub use laws::{
    blocks_are_judged, bodies_are_judged, constants_are_told, declarators_are_said,
    file_names_are_judged, file_scope_is_judged, functions_are_judged, heads_are_judged,
    initialisers_are_judged, items_have_values, linkages_are_found, mains_are_found,
    objects_are_judged, specifiers_are_judged, statements_are_judged, structs_are_declared,
    structures_are_judged, there_is_one_reading, types_are_said,
};
