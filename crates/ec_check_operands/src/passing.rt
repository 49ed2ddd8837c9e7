//! Implicit conversions.
ghost use Rattle.std.specs.Prelude.{◌≡◌, IfOk, option_map};
ghost use Rattle.std.specs.Option.{option_copied};
ghost use Rattle.ec_core.specs.Plain.{plain_type, plain_expr};
ghost use Rattle.ec_check_operands.specs.Faults.{all_judged};
ghost use Rattle.ec_check_operands.specs.Operands.{plain_operand};
ghost use Rattle.ec_check_operands.specs.Passing.{in_type as in_type_of, brought, passed, passing_rules};

use crate::conversions::{becomes_null, drops_const, judge_types, narrows, passes};
use crate::faults::Faults;
use crate::operands::{Modes, Operand, as_value, boxed, convert, is_null, made};
use crate::sorts::type_sort;
use crate::types::sort_of;
use ec_core::{CType, Expr, Node};
use ec_space::NoMemory;
use std::alloc::Global;

/// The operand in a type to which a conversion leads.
pub fn in_type(alloc: Global, modes: Modes, to: &CType, x: Operand) -> Result<Expr, NoMemory>
    ensures { IfOk result (λ e. plain_expr e ≡ in_type_of modes (plain_type to.now) (plain_operand x)) }
{
    if becomes_null(is_null(&x), type_sort(to)) {
        drop(x);
        let to = to.copied(alloc)?;
        return Ok(made(modes, to, Node::Null));
    }
    convert(alloc, modes, to, as_value(modes, x))
}

/// The same, in a box.
pub fn boxed_in_type(
    alloc: Global,
    modes: Modes,
    to: &CType,
    x: Operand,
) -> Result<Box<Expr>, NoMemory>
    ensures { IfOk result (λ e. plain_expr e.value ≡ in_type_of modes (plain_type to.now) (plain_operand x)) }
{
    let e = in_type(alloc, modes, to, x)?;
    boxed(alloc, e)
}

/// The operand in a type, or None where no implicit conversion leads there.
pub fn brought(
    alloc: Global,
    modes: Modes,
    to: &CType,
    x: Operand,
) -> Result<Option<Expr>, NoMemory>
    ensures { IfOk result (λ e. option_map plain_expr e ≡ brought modes (plain_type to.now) (plain_operand x)) }
{
    let from = sort_of(&x);
    let target = type_sort(to);
    if passes(from, is_null(&x), target) && !(narrows(from, target) || drops_const(from, target)) {
        let e = in_type(alloc, modes, to, x)?;
        Ok(Some(e))
    } else {
        drop(x);
        Ok(None)
    }
}

/// The operand in the type to which it is passed, or None where one of both is unknown or no implicit conversion leads
/// there.
pub fn pass(
    alloc: Global,
    modes: Modes,
    to: Option<&CType>,
    x: Option<Operand>,
) -> Result<Option<Expr>, NoMemory>
    ensures { IfOk result (λ e. option_map plain_expr e
        ≡ passed modes (option_map plain_type (option_copied to.entry)) (option_map plain_operand x)) }
{
    match to.zip(x) {
        None => Ok(None),
        Some((to, x)) => brought(alloc, modes, to, x),
    }
}

/// Judges the conversion of an operand to a type, which is told at `at`: at the first token of an argument or an
/// initialiser, or at `return`.
pub fn judge_passing(faults: &mut Faults, x: &Option<Operand>, to: &Option<CType>, at: u32)
    ensures { faults.new.least ≡ all_judged faults.old.least
        (passing_rules (option_map plain_operand x.now) (option_map plain_type to.now) at) }
{
    judge_conversion(faults, x, to.as_ref(), at);
}

/// Judges the conversion of an operand to a type, where both are known.
pub fn judge_conversion(faults: &mut Faults, x: &Option<Operand>, to: Option<&CType>, at: u32)
    ensures { faults.new.least ≡ all_judged faults.old.least
        (passing_rules (option_map plain_operand x.now) (option_map plain_type (option_copied to.entry)) at) }
{
    let Some(x) = x else {
        return;
    };
    let Some(to) = to else {
        return;
    };
    judge_types(faults, sort_of(x), is_null(x), type_sort(to), at);
}
