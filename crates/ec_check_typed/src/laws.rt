//! The laws of what statements and initialisers are: each function proves one, and does nothing.
ghost use Rattle.ec_check_typed.specs.Laws.{InitialisersAreSaid, StatementsAreSaid, FileScopeIsSaid};

use ec_check_meanings::walk_gives_meanings;
use ec_check_names::{blocks_end, equal_structs_are_one};
use ec_check_parts::{
    declarators_are_said, file_scope_is_judged, items_have_values, linkages_are_found,
    structs_are_declared,
};
use ec_core::types_are_told;

/// An initialiser gives an object's leaves their values, by the relation, exactly where the walk over initialisers gives
/// these (ISO/IEC 9899:1999, 6.7.8).
pub fn initialisers_are_said()
    ensures { InitialisersAreSaid }
{
    types_are_told();
    walk_gives_meanings();
    items_have_values();
}

/// A statement, and the body of a function, are statements of the program and declare objects, by the relation, exactly where
/// the walk over statements gives these (ISO/IEC 9899:1999, 6.8).
pub fn statements_are_said()
    ensures { StatementsAreSaid }
{
    types_are_told();
    walk_gives_meanings();
    blocks_end();
    items_have_values();
    declarators_are_said();
    initialisers_are_said();
}

/// Declarations, named registers and structs at file scope add to the program what the relation says, exactly as the walk over
/// units adds it (ISO/IEC 9899:1999, 6.7 and 6.9).
pub fn file_scope_is_said()
    ensures { FileScopeIsSaid }
{
    initialisers_are_said();
    declarators_are_said();
    linkages_are_found();
    structs_are_declared();
    file_scope_is_judged();
    equal_structs_are_one();
}
