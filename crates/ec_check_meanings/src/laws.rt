//! The laws of what expressions mean: each function proves one, and does nothing.
ghost use Rattle.ec_check_meanings.specs.Laws.{WalkGivesMeanings, BrokenPartsBreakAll, ModesAreSaid};
ghost use Rattle.ec_check_meanings.specs.Laws.{SitesAreJudged, ConstraintsAreTold};

use ec_check_forms::rules_are_constraints;
use ec_core::types_are_told;

/// An expression means an operand, by the relation, exactly where the walk over expressions gives that operand
/// (ISO/IEC 9899:1999, 6.5).
pub fn walk_gives_meanings()
    ensures { WalkGivesMeanings }
{
    types_are_told();
}

/// Nothing around a part that means nothing has a meaning.
pub fn broken_parts_break_all()
    ensures { BrokenPartsBreakAll }
{
    types_are_told();
}

/// Each node of what an expression means has the mode that the overflow states at its place say of its type (ISO/IEC TR
/// 18037:2008, 4.1.3); of a compound assignment both modes.
pub fn modes_are_said()
    ensures { ModesAreSaid }
{}

/// The places where the walk judges are those of the expression, each with what is seen of its operands.
pub fn sites_are_judged()
    ensures { SitesAreJudged }
{
    types_are_told();
}

/// What the walk tells where it judges operands is exactly what breaks a constraint of the expression.
pub fn constraints_are_told()
    ensures { ConstraintsAreTold }
{
    rules_are_constraints();
    sites_are_judged();
}
