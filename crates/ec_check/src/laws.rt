//! The laws of the checker: each function proves one, and does nothing.
ghost use Rattle.ec_check.specs.Broken.{LeastIsFound};
ghost use Rattle.ec_check.specs.Laws.{ProgramsAreTyped, ProgramsExist, StructsAreFew};
ghost use Rattle.ec_check.specs.Validity.{ProgramsAreValid};

use ec_check_expression_laws::{
    declarations_keep_suiting, definitions_keep_suiting, kept_expressions_have_meanings,
    kept_types_are_said, said_types_are_placed,
};
use ec_check_forms::kept_forms_have_meanings;
use ec_check_initialisers::{initial_values_suit, sizes_are_values};
use ec_check_least::the_least_is_told;
use ec_check_names::{blocks_end, equal_structs_are_one};
use ec_check_parts::{
    bodies_are_judged, declarators_are_said, file_names_are_judged, file_scope_is_judged,
    functions_are_judged, there_is_one_reading,
};
use ec_check_statements::{
    bodies_are_valid, bodies_need_their_tokens, function_types_are_usable,
    inner_objects_keep_suiting, kept_bodies_have_meanings, kept_functions_have_types,
    kept_objects_have_types, objects_are_appended, objects_stay, scopes_end,
};
use ec_check_typed::{file_scope_is_said, statements_are_said};
use ec_core::structs_are_laid_out;

/// What the walk over the units tells is exactly what breaks a constraint at one of the parts that stand in them; what it finds
/// is the least of that, by unit, token and number; and it finds none exactly where they break none.
pub fn the_least_is_found()
    ensures { LeastIsFound }
{
    the_least_is_told();
    functions_are_judged();
    file_names_are_judged();
    bodies_are_judged();
    file_scope_is_judged();
    there_is_one_reading();
    scopes_end();
    blocks_end();
}

/// Units that keep the limits and break no rule have a program, where they define no more structs than there are numbers
/// of 32 bits.
pub fn programs_exist()
    ensures { ProgramsExist }
{
    structs_are_laid_out();
    sizes_are_values();
    kept_types_are_said();
    kept_forms_have_meanings();
    kept_expressions_have_meanings();
    declarations_keep_suiting();
    definitions_keep_suiting();
    kept_objects_have_types();
    kept_functions_have_types();
    inner_objects_keep_suiting();
    objects_stay();
    scopes_end();
    kept_bodies_have_meanings();
}

/// Units of at most 65,536 tokens, of which there are at most 16, define no more structs than that.
pub fn structs_are_few()
    ensures { StructsAreFew }
{}

/// The program of units that keep the limits and break no rule is a valid program, where no function reaches itself, each
/// constant in the units stands for a number of its type, and each unit has at most 65,536 tokens.
pub fn programs_are_valid()
    ensures { ProgramsAreValid }
{
    structs_are_laid_out();
    equal_structs_are_one();
    sizes_are_values();
    initial_values_suit();
    said_types_are_placed();
    kept_types_are_said();
    kept_forms_have_meanings();
    kept_expressions_have_meanings();
    declarations_keep_suiting();
    definitions_keep_suiting();
    kept_objects_have_types();
    function_types_are_usable();
    kept_functions_have_types();
    inner_objects_keep_suiting();
    objects_stay();
    scopes_end();
    objects_are_appended();
    kept_bodies_have_meanings();
    bodies_are_valid();
    bodies_need_their_tokens();
}

/// The program of units, by the relation between trees and programs, is the one that the walk over the units gives; so there is
/// only one; and there is one where units keep the limits and break no constraint.
pub fn programs_are_typed()
    ensures { ProgramsAreTyped }
{
    the_least_is_found();
    programs_exist();
    functions_are_judged();
    file_names_are_judged();
    bodies_are_judged();
    file_scope_is_judged();
    there_is_one_reading();
    scopes_end();
    blocks_end();
    declarators_are_said();
    file_scope_is_said();
    statements_are_said();
}
