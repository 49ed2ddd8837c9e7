//! The laws of statements: each function proves one, and does nothing.
ghost use Rattle.ec_check_statements.specs.Laws.{DeclaredTypesArePlaced, KeptObjectsHaveTypes, KeptMembersHaveTypes, ObjectsStay};
ghost use Rattle.ec_check_statements.specs.Laws.{FunctionTypesAreUsable, KeptFunctionsHaveTypes};
ghost use Rattle.ec_check_statements.specs.Laws.{InnerObjectsKeepSuiting};
ghost use Rattle.ec_check_statements.specs.Laws.{ObjectsAreAppended, ScopesEnd, BodiesAreValid};
ghost use Rattle.ec_check_statements.specs.Laws.{KeptBodiesHaveMeanings, BodiesNeedTheirTokens};

use ec_check_expression_laws::{
    declarations_keep_suiting, expressions_are_valid, kept_expressions_have_meanings,
    kept_types_are_said, needs_are_bounded, said_types_are_placed, values_are_valid,
};
use ec_check_forms::{forms_stay_valid, kept_forms_have_meanings};
use ec_check_initialisers::{sizes_are_values, values_have_leaf_types};
use ec_check_names::blocks_end;
use ec_core::structs_are_laid_out;

/// The type that a declarator gives an object has from 1 to 32,767 bytes, where what is known suits a program, and it
/// names structs that are known.
pub fn declared_types_are_placed()
    ensures { DeclaredTypesArePlaced }
{
    structs_are_laid_out();
    said_types_are_placed();
    sizes_are_values();
}

/// An object or a member has a type where its specifiers break no rule, nothing is told at the sites of its declarator,
/// and what is known was declared without a broken rule.
pub fn kept_objects_have_types()
    ensures objects { KeptObjectsHaveTypes }
    ensures members { KeptMembersHaveTypes }
{
    sizes_are_values();
    kept_types_are_said();
    kept_expressions_have_meanings();
}

/// Parameters have scalar types, and results have scalar types or are void, whose values can be used.
pub fn function_types_are_usable()
    ensures { FunctionTypesAreUsable }
{
    said_types_are_placed();
}

/// Parameters and results have types where nothing is told at their sites, and no result is a struct.
pub fn kept_functions_have_types()
    ensures { KeptFunctionsHaveTypes }
{
    kept_types_are_said();
}

/// What is known goes on to suit a program, or to have types, behind the declarator of a local object or a parameter,
/// which gets the next number.
pub fn inner_objects_keep_suiting()
    ensures { InnerObjectsKeepSuiting }
{
    declarations_keep_suiting();
}

/// The objects before a body have the same numbers behind it.
pub fn objects_stay()
    ensures { ObjectsStay }
{
    blocks_end();
}

/// Behind a body stand the objects that stood before it, and others behind them, each of which is as a valid program
/// asks of a local object of the function.
pub fn objects_are_appended()
    ensures { ObjectsAreAppended }
{
    structs_are_laid_out();
    said_types_are_placed();
    sizes_are_values();
    blocks_end();
}

/// Behind a body the names are known that were known where its scope began, before the parameters.
pub fn scopes_end()
    ensures { ScopesEnd }
{
    blocks_end();
}

/// What a body means is a statement as a valid program asks, where what is known at its begin suits that program, and
/// each constant in it stands for a number of its type.
pub fn bodies_are_valid()
    ensures { BodiesAreValid }
{
    structs_are_laid_out();
    said_types_are_placed();
    sizes_are_values();
    values_have_leaf_types();
    blocks_end();
    expressions_are_valid();
    forms_stay_valid();
    values_are_valid();
    declarations_keep_suiting();
}

/// A body has a meaning where no rule is told at its sites and what is known at its begin was declared without a broken
/// rule, and it adds as many objects as it declares.
pub fn kept_bodies_have_meanings()
    ensures { KeptBodiesHaveMeanings }
{
    blocks_end();
    sizes_are_values();
    declarations_keep_suiting();
    kept_types_are_said();
    kept_expressions_have_meanings();
    kept_forms_have_meanings();
}

/// The values of a body need no more temporaries at once than the body has tokens.
pub fn bodies_need_their_tokens()
    ensures { BodiesNeedTheirTokens }
{
    needs_are_bounded();
}
