//! Each function proves a law, and does nothing.
ghost use Rattle.ec_check_parts.specs.Laws.{SpecifiersAreJudged, HeadsAreJudged, FunctionsAreJudged, ObjectsAreJudged};
ghost use Rattle.ec_check_parts.specs.Laws.{StructuresAreJudged, InitialisersAreJudged, BlocksAreJudged};
ghost use Rattle.ec_check_parts.specs.Laws.{StatementsAreJudged, FileNamesAreJudged, BodiesAreJudged, FileScopeIsJudged};
ghost use Rattle.ec_check_parts.specs.Linkages.{LinkagesAreFound};
ghost use Rattle.ec_check_parts.specs.Mains.{MainsAreFound};
ghost use Rattle.ec_check_parts.specs.Readings.{OneReads};
ghost use Rattle.ec_check_parts.specs.Said.{ConstantsAreTold, ItemsHaveValues, TypesAreSaid, DeclaratorsAreSaid, StructsAreDeclared};

use ec_check_file_scope::conflicts_are_told;
use ec_check_least::the_least_is_told;
use ec_check_meanings::{constraints_are_told, sites_are_judged, walk_gives_meanings};
use ec_check_names::blocks_end;
use ec_core::types_are_told;

/// What is told of specifiers and of lists of qualifiers (rules 1, 2, 4 and 10) is exactly what breaks a constraint there.
pub fn specifiers_are_judged()
    ensures { SpecifiersAreJudged }
{}

/// What is told of specifiers and stars before a name (rules 2, 3, 4 and 7) is exactly what breaks a constraint there, in
/// each role: objects at file scope and in blocks, members, named registers, parameters, results, and type names.
pub fn heads_are_judged()
    ensures { HeadsAreJudged }
{}

/// What is told of the result and the parameters of a function (rules 1 to 5, 7, 10 and 17) is exactly what breaks a
/// constraint there.
pub fn functions_are_judged()
    ensures { FunctionsAreJudged }
{}

/// What is told of the members of a struct, of the struct and of an object in a named register (rules 1 to 5 and 7 to 12) is
/// exactly what breaks a constraint there.
pub fn structures_are_judged()
    ensures { StructuresAreJudged }
{
    the_least_is_told();
    types_are_told();
    walk_gives_meanings();
    sites_are_judged();
    constraints_are_told();
}

/// What is told of the declarator of an object, at file scope and in blocks (rules 2 to 4 and 7 to 9), is exactly what breaks
/// a constraint there.
pub fn objects_are_judged()
    ensures { ObjectsAreJudged }
{
    types_are_told();
    walk_gives_meanings();
    sites_are_judged();
    constraints_are_told();
}

/// What is told of an initialiser (rules 14, 15, and those of expressions) is exactly what breaks a constraint there, in
/// blocks and at file scope.
pub fn initialisers_are_judged()
    ensures { InitialisersAreJudged }
{
    types_are_told();
    walk_gives_meanings();
    sites_are_judged();
    constraints_are_told();
}

/// What is told of a declaration in a block (rules 1 to 5, 7 to 10 and 16) is exactly what breaks a constraint there.
pub fn blocks_are_judged()
    ensures { BlocksAreJudged }
{
    types_are_told();
    walk_gives_meanings();
    sites_are_judged();
    constraints_are_told();
}

/// What is told of conditions, of expressions whose value is not used, of `return`, and of `break` and `continue` (rules 25
/// and 28 to 30, 38 to 40, and those of expressions) is exactly what breaks a constraint there.
pub fn statements_are_judged()
    ensures { StatementsAreJudged }
{
    types_are_told();
    walk_gives_meanings();
    sites_are_judged();
    constraints_are_told();
}

/// What is told of names at file scope (rules 6, 13, 16 and 18) is exactly what breaks a constraint there.
pub fn file_names_are_judged()
    ensures { FileNamesAreJudged }
{
    types_are_told();
    conflicts_are_told();
}

/// What is told of the body of a function is exactly what breaks a constraint at one of the parts that stand in it, each with
/// the names that are known there.
pub fn bodies_are_judged()
    ensures { BodiesAreJudged }
{
    initialisers_are_judged();
    blocks_are_judged();
    statements_are_judged();
    blocks_end();
}

/// What is told of a declaration, a named register or a struct at file scope is exactly what breaks a constraint at one of the
/// parts that stand in it, and behind it the same is known.
pub fn file_scope_is_judged()
    ensures { FileScopeIsJudged }
{
    functions_are_judged();
    structures_are_judged();
    objects_are_judged();
    initialisers_are_judged();
    file_names_are_judged();
}

/// What is looked into as a constant expression, of a size or of a static initialiser, is built as one (ISO/IEC 9899:1999,
/// 6.6).
pub fn constants_are_told()
    ensures { ConstantsAreTold }
{
    walk_gives_meanings();
}

/// Which items are address constants, what an item of an initialiser means in its place, and the initial value that it gives a
/// static object: a number, the null pointer or an address (ISO/IEC 9899:1999, 6.6 and 6.7.8).
pub fn items_have_values()
    ensures { ItemsHaveValues }
{
    types_are_told();
    walk_gives_meanings();
    sites_are_judged();
    constraints_are_told();
}

/// The type that specifiers name, and the one that they say with stars before a name (ISO/IEC 9899:1999, 6.7.2 and 6.7.5.1).
pub fn types_are_said()
    ensures { TypesAreSaid }
{}

/// What declarators of objects, of parameters and of functions declare, and objects in named registers (ISO/IEC 9899:1999,
/// 6.7.5; ISO/IEC TR 18037:2008, 5.2.2).
pub fn declarators_are_said()
    ensures { DeclaratorsAreSaid }
{
    types_are_told();
    walk_gives_meanings();
    sites_are_judged();
    constraints_are_told();
}

/// The linkage of a declaration at file scope is that of ISO/IEC 9899:1999, 6.2.2.
pub fn linkages_are_found()
    ensures { LinkagesAreFound }
{}

/// The struct that a definition declares (ISO/IEC 9899:1999, 6.7.2.1).
pub fn structs_are_declared()
    ensures { StructsAreDeclared }
{
    the_least_is_told();
    types_are_told();
    walk_gives_meanings();
    sites_are_judged();
    constraints_are_told();
}

/// The function that a program begins with is the first one of the name `main` that is defined for all units.
pub fn mains_are_found()
    ensures { MainsAreFound }
{}

/// There is one reading of declarators, of definitions of structs and of names at file scope by the words for them, and it is what
/// the walk finds.
pub fn there_is_one_reading()
    ensures { OneReads }
{
    declarators_are_said();
    structs_are_declared();
    linkages_are_found();
}
