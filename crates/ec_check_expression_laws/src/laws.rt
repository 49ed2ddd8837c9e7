//! The laws of expressions: each function proves one, and does nothing.
ghost use Rattle.ec_check_expression_laws.specs.Laws.{ExpressionsAreValid, ValuesAreValid, DeclarationsKeepSuiting};
ghost use Rattle.ec_check_expression_laws.specs.Laws.{DefinitionsKeepSuiting, KeptExpressionsHaveMeanings, SitesAreKept};
ghost use Rattle.ec_check_expression_laws.specs.Laws.{SaidTypesArePlaced, KeptTypesAreSaid, NeedsAreBounded};
ghost use Rattle.ec_check_expression_laws.specs.FunctionNames.{OnlyFunctionsAreCalled};

use ec_check_forms::{
    forms_stay_valid, kept_forms_have_meanings, kept_members_have_meanings, names_are_valid,
    sizes_are_valid,
};
use ec_check_names::{inner_names_hide, outer_names_are_known};
use ec_core::types_are_told;

/// What an expression means is as a valid program asks, where what is known suits that program and each constant stands
/// for a number of its type.
pub fn expressions_are_valid()
    ensures { ExpressionsAreValid }
{
    forms_stay_valid();
    names_are_valid();
    sizes_are_valid();
}

/// The value of an operand that is as a valid program asks is a valid expression, but for a struct's.
pub fn values_are_valid()
    ensures { ValuesAreValid }
{}

/// What is known goes on to suit a program where one more name is declared that is the program's.
pub fn declarations_keep_suiting()
    ensures { DeclarationsKeepSuiting }
{
    inner_names_hide();
    outer_names_are_known();
}

/// So it does where the definition of a struct ends, whose tag stands for a struct of the program, or for none.
pub fn definitions_keep_suiting()
    ensures { DefinitionsKeepSuiting }
{
    outer_names_are_known();
}

/// An expression has a meaning where no rule is told at its sites and what is known was declared without a broken rule.
pub fn kept_expressions_have_meanings()
    ensures { KeptExpressionsHaveMeanings }
{
    types_are_told();
    kept_forms_have_meanings();
    kept_members_have_meanings();
}

/// Where nothing is told at sites, no rule is broken at the first of them, and nothing is told at the others.
pub fn sites_are_kept()
    ensures { SitesAreKept }
{}

/// The type that specifiers and stars say is that of a place, where it is not void and leads to no void.
pub fn said_types_are_placed()
    ensures { SaidTypesArePlaced }
{}

/// Specifiers that break no rule and do not name void say a type that has a size, and so they do behind stars.
pub fn kept_types_are_said()
    ensures { KeptTypesAreSaid }
{}

/// The first site of a call tells rule 21 at the first token of what is called, exactly where that is not the name of a
/// function, in parentheses or not. Nothing else is told there.
pub fn only_functions_are_called()
    ensures { OnlyFunctionsAreCalled }
{}

/// The value of an expression needs no more temporaries than the expression has tokens.
pub fn needs_are_bounded()
    ensures { NeedsAreBounded }
{}
