//! A law: of what is told at the places of declarations and statements the least is found.
//!
//! `specs/Told.antt` says what is told there. The function proves it, and does nothing.
#![tactic(auto)]

ghost use Rattle.ec_check_least.specs.Told.{LeastIsTold};

use ec_check_operands::{judgements_add_up, the_least_is_kept};

/// What a walk over places finds is a fault that is told at one of them, and no other is told before it, by token and then
/// by rule; it finds none exactly where none is told.
pub fn the_least_is_told()
    ensures { LeastIsTold }
{
    the_least_is_kept();
    judgements_add_up();
}
