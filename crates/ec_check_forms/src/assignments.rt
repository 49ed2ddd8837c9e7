//! Assignments, compound assignments and steps.
ghost use Rattle.std.specs.Prelude.{◌≡◌, IfOk, option_map};
ghost use Rattle.std.specs.Option.{option_copied};
ghost use Rattle.ec_core.specs.Operators.{operation_types};
ghost use Rattle.ec_core.specs.Plain.{plain_type, plain_place};
ghost use Rattle.ec_check_operands.specs.Faults.{all_judged};
ghost use Rattle.ec_check_operands.specs.Operands.{plain_operand, with_one, with_both};
ghost use Rattle.ec_check_forms.specs.Nodes.{unassigned, const_assigned, type_of_place, assignment_rules, assigned, assigned_at};
ghost use Rattle.ec_check_forms.specs.Nodes.{pointer_added, compound_rules, operation_mode, compounded, compounded_at, step_rules};
ghost use Rattle.ec_check_forms.specs.Nodes.{stepped};

use crate::uses::is_no_scalar;
use ec_check_operands::{
    Faults, Modes, Operand, as_value, boxed, brought, can_be_stepped, is_aggregate, is_unsuited,
    judge_conversion, made, mode_of, sort_of, suits, type_sort, valued,
};
use ec_core::{Arithmetic, BinOp, CType, Expr, Node, PlaceExpr};
use ec_fx::Mode;
use ec_space::NoMemory;
use std::alloc::Global;

fn is_unassigned(x: &Option<Operand>) -> bool
    ensures { result ≡ unassigned (option_map plain_operand x.now) }
{
    match x {
        None => false,
        Some(Operand::Place { ty, .. }) => is_aggregate(ty),
        Some(Operand::Value { .. }) => true,
    }
}

fn is_const(x: &Option<Operand>) -> bool
    ensures { result ≡ const_assigned (option_map plain_operand x.now) }
{
    match x {
        None => false,
        Some(Operand::Place { konst, .. }) => *konst,
        Some(Operand::Value { .. }) => false,
    }
}

fn place_type(x: &Option<Operand>) -> Option<&CType>
    ensures { option_map plain_type (option_copied result) ≡ type_of_place (option_map plain_operand x.now) }
{
    match x {
        None => None,
        Some(Operand::Place { ty, .. }) => Some(ty),
        Some(Operand::Value { .. }) => None,
    }
}

// ---- `=`

/// Judges the operands of `=`, which are told there.
pub fn judge_assignment(faults: &mut Faults, x: &Option<Operand>, y: &Option<Operand>, at: u32)
    ensures { faults.new.least ≡ all_judged faults.old.least
        (assignment_rules (option_map plain_operand x.now) (option_map plain_operand y.now) at) }
{
    faults.judge(26, is_unassigned(x), at);
    faults.judge(27, is_const(x), at);
    judge_conversion(faults, y, place_type(x), at);
}

/// The assignment to a place of a type.
fn stored(
    alloc: Global,
    modes: Modes,
    ty: CType,
    place: PlaceExpr,
    y: Operand,
) -> Result<Option<Operand>, NoMemory>
    ensures { IfOk result (λ z. option_map plain_operand z ≡ assigned_at modes (plain_type ty) (plain_place place) (plain_operand y)) }
{
    let Some(e) = brought(alloc, modes, &ty, y)? else {
        return Ok(None);
    };
    let e = boxed(alloc, e)?;
    Ok(valued(Some(made(modes, ty, Node::Assign(place, e)))))
}

fn store(alloc: Global, modes: Modes, x: Operand, y: Operand) -> Result<Option<Operand>, NoMemory>
    ensures { IfOk result (λ z. option_map plain_operand z ≡ assigned modes (plain_operand x) (plain_operand y)) }
{
    match x {
        Operand::Value { value, .. } => {
            drop((value, y));
            Ok(None)
        }
        Operand::Place {
            ty,
            konst,
            place,
            ..
        } => {
            if konst || is_aggregate(&ty) {
                drop((ty, place, y));
                Ok(None)
            } else {
                stored(alloc, modes, ty, place, y)
            }
        }
    }
}

/// What `=` makes of its operands, or None where one has no type or they break a rule.
pub fn assign(
    alloc: Global,
    modes: Modes,
    x: Option<Operand>,
    y: Option<Operand>,
) -> Result<Option<Operand>, NoMemory>
    ensures { IfOk result (λ z. option_map plain_operand z
        ≡ with_both (option_map plain_operand x) (option_map plain_operand y) (assigned modes)) }
{
    match x.zip(y) {
        None => Ok(None),
        Some((x, y)) => store(alloc, modes, x, y),
    }
}

// ---- compound assignments

fn is_pointer_added(x: &Option<Operand>, y: &Option<Operand>) -> bool
    ensures { result ≡ pointer_added (option_map plain_operand x.now) (option_map plain_operand y.now) }
{
    match (x, y) {
        (Some(_), Some(y)) => sort_of(y).is_pointer(),
        _ => false,
    }
}

/// Judges the operands of a compound assignment, which are told at its operator.
pub fn judge_compound(
    faults: &mut Faults,
    op: BinOp,
    x: &Option<Operand>,
    y: &Option<Operand>,
    at: u32,
)
    ensures { faults.new.least ≡ all_judged faults.old.least
        (compound_rules op (option_map plain_operand x.now) (option_map plain_operand y.now) at) }
{
    faults.judge(23, is_unsuited(op, x, y), at);
    faults.judge(26, is_unassigned(x), at);
    faults.judge(27, is_const(x), at);
    faults.judge(28, is_pointer_added(x, y), at);
}

fn outcome(op: BinOp, s: Arithmetic, t: Arithmetic) -> Arithmetic
    ensures { result ≡ (operation_types op s t).result }
{
    match op {
        BinOp::Shl | BinOp::Shr => s.promoted(),
        _ => s.common(t),
    }
}

fn operation_mode(modes: Modes, op: BinOp, s: Option<Arithmetic>, t: Option<Arithmetic>) -> Mode
    ensures { result ≡ operation_mode modes op s t }
{
    match (s, t) {
        (Some(s), Some(t)) => mode_of(modes, &outcome(op, s, t).to_type()),
        _ => Mode { saturate: false },
    }
}

fn changed(
    alloc: Global,
    modes: Modes,
    op: BinOp,
    ty: CType,
    place: PlaceExpr,
    y: Operand,
) -> Result<Option<Operand>, NoMemory>
    ensures { IfOk result (λ z. option_map plain_operand z
        ≡ compounded_at modes op (plain_type ty) (plain_place place) (plain_operand y)) }
{
    let other = sort_of(&y).arithmetic();
    let mode = operation_mode(modes, op, ty.arithmetic(), other);
    let e = boxed(alloc, as_value(modes, y))?;
    Ok(valued(Some(made(modes, ty, Node::Compound(op, mode, place, e)))))
}

fn change(
    alloc: Global,
    modes: Modes,
    op: BinOp,
    x: Operand,
    y: Operand,
) -> Result<Option<Operand>, NoMemory>
    ensures { IfOk result (λ z. option_map plain_operand z
        ≡ compounded modes op (plain_operand x) (plain_operand y)) }
{
    let right = sort_of(&y);
    match x {
        Operand::Value { value, .. } => {
            drop((value, y));
            Ok(None)
        }
        Operand::Place {
            ty,
            konst,
            place,
            ..
        } => {
            if konst
                || is_aggregate(&ty)
                || right.is_pointer()
                || !suits(op, type_sort(&ty), right)
            {
                drop((ty, place, y));
                Ok(None)
            } else {
                changed(alloc, modes, op, ty, place, y)
            }
        }
    }
}

/// What a compound assignment makes of its operands, or None where one has no type or they break a rule.
pub fn compound(
    alloc: Global,
    modes: Modes,
    op: BinOp,
    x: Option<Operand>,
    y: Option<Operand>,
) -> Result<Option<Operand>, NoMemory>
    ensures { IfOk result (λ z. option_map plain_operand z
        ≡ with_both (option_map plain_operand x) (option_map plain_operand y) (compounded modes op)) }
{
    match x.zip(y) {
        None => Ok(None),
        Some((x, y)) => change(alloc, modes, op, x, y),
    }
}

// ---- steps

/// Judges the operand of `++` or `--`, which is told there.
pub fn judge_step(faults: &mut Faults, x: &Option<Operand>, at: u32)
    ensures { faults.new.least ≡ all_judged faults.old.least (step_rules (option_map plain_operand x.now) at) }
{
    faults.judge(23, is_no_scalar(x), at);
    faults.judge(26, is_unassigned(x), at);
    faults.judge(27, is_const(x), at);
}

/// What `++`, where `up` holds, or `--` makes of its operand, or None where that has no type or breaks a rule. `prefix`
/// tells whether the operator stands before the operand.
pub fn step(modes: Modes, up: bool, prefix: bool, x: Option<Operand>) -> Option<Operand>
    ensures { option_map plain_operand result
        ≡ with_one (option_map plain_operand x) (stepped modes up prefix) }
{
    match x {
        None => None,
        Some(Operand::Value { value, .. }) => {
            drop(value);
            None
        }
        Some(
            Operand::Place {
                ty,
                konst,
                place,
                ..
            },
        ) => {
            if can_be_stepped(type_sort(&ty), konst) {
                valued(Some(made(modes, ty, Node::Step { up, prefix, place })))
            } else {
                drop((ty, place));
                None
            }
        }
    }
}
