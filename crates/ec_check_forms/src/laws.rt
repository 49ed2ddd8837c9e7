//! The laws of operands: each function proves one, and does nothing.
ghost use Rattle.ec_check_forms.specs.Laws.{RulesAreConstraints};
ghost use Rattle.ec_check_forms.specs.Meanings.{KeptFormsHaveMeanings, KeptMembersHaveMeanings};
ghost use Rattle.ec_check_forms.specs.Validity.{FormsStayValid, NamesAreValid, SizesAreValid};

use ec_core::{types_are_told, usual_conversions};

/// What the rules of a place tell is exactly what breaks a constraint there.
pub fn rules_are_constraints()
    ensures { RulesAreConstraints }
{
    types_are_told();
}

/// What a form makes of operands that are as a valid program asks is an operand as it asks.
pub fn forms_stay_valid()
    ensures { FormsStayValid }
{
    types_are_told();
    usual_conversions();
}

/// So are the names of the program's objects, calls of its functions, operations on groups and constants.
pub fn names_are_valid()
    ensures { NamesAreValid }
{}

/// So is the value of `sizeof` of a type of at most 65,535 bytes.
pub fn sizes_are_valid()
    ensures { SizesAreValid }
{}

/// A form of operands that have types has a meaning where no rule is broken.
pub fn kept_forms_have_meanings()
    ensures { KeptFormsHaveMeanings }
{
    types_are_told();
}

/// A member of an operand that has a type has a meaning where no rule is broken.
pub fn kept_members_have_meanings()
    ensures { KeptMembersHaveMeanings }
{}
