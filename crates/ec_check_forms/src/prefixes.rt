//! Prefix operators.
ghost use Rattle.std.specs.Prelude.{◌≡◌, IfOk, Some, option_map};
ghost use Rattle.ec_core.specs.ArithmeticTypes.{type_of};
ghost use Rattle.ec_core.specs.Operators.{promoted_type};
ghost use Rattle.ec_core.specs.Plain.{plain_type, plain_expr};
ghost use Rattle.ec_core.specs.Typing.{int};
ghost use Rattle.ec_check_operands.specs.Faults.{all_judged};
ghost use Rattle.ec_check_operands.specs.Operands.{plain_operand, with_one};
ghost use Rattle.ec_check_forms.specs.Nodes.{is_value, is_register, prefix_rules, address, pointed, plus, suits_unary};
ghost use Rattle.ec_check_forms.specs.Nodes.{unary_operation, negated, prefixed};

use crate::uses::condition;
use ec_check_operands::{
    Faults, Modes, Operand, as_value, boxed, boxed_in, convert, made, sort_of, valued,
};
use ec_core::{Arithmetic, CType, Expr, Node, PlaceExpr, UnOp};
use ec_space::NoMemory;
use std::alloc::Global;

/// A prefix operator other than `++` and `--`.
#[derive(Clone, Copy)]
pub enum PrefixOp {
    /// `&`
    Address,
    /// `*`
    Deref,
    /// `+`
    Plus,
    /// `-`
    Minus,
    /// `~`
    Invert,
    /// `!`
    Not,
}

/// The type `int`.
pub fn int() -> CType
    ensures { plain_type result ≡ int }
{
    CType::Int {
        signed: true,
        bytes: 2,
    }
}

fn is_value(x: &Operand) -> bool
    ensures { result ≡ is_value (plain_operand x.now) }
{
    match x {
        Operand::Place { .. } => false,
        Operand::Value { .. } => true,
    }
}

fn is_register(x: &Operand) -> bool
    ensures { result ≡ is_register (plain_operand x.now) }
{
    match x {
        Operand::Place { register, .. } => *register,
        Operand::Value { .. } => false,
    }
}

/// Judges the operand of a prefix operator, which is told at the operator.
pub fn judge_prefix(faults: &mut Faults, op: PrefixOp, x: &Option<Operand>, at: u32)
    ensures { faults.new.least ≡ all_judged faults.old.least
        (prefix_rules op (option_map plain_operand x.now) at) }
{
    let Some(x) = x else {
        return;
    };
    match op {
        PrefixOp::Address => {
            faults.judge(26, is_value(x), at);
            faults.judge(33, is_register(x), at);
        }
        PrefixOp::Deref => faults.judge(34, !sort_of(x).is_pointer(), at),
        PrefixOp::Plus | PrefixOp::Minus => faults.judge(23, !sort_of(x).is_arithmetic(), at),
        PrefixOp::Invert => faults.judge(23, !sort_of(x).is_integer(), at),
        PrefixOp::Not => faults.judge(25, !sort_of(x).is_scalar(), at),
    }
}

fn address(alloc: Global, modes: Modes, x: Operand) -> Result<Option<Operand>, NoMemory>
    ensures { IfOk result (λ y. option_map plain_operand y ≡ address modes (plain_operand x)) }
{
    match x {
        Operand::Value { value, .. } => {
            drop(value);
            Ok(None)
        }
        Operand::Place {
            ty,
            konst,
            space,
            register,
            place,
        } => {
            if register {
                drop((ty, place));
                return Ok(None);
            }
            let to = boxed(alloc, ty)?;
            Ok(Some(Operand::Value {
                value: made(
                    modes,
                    CType::Ptr { space, konst, to },
                    Node::AddressOf(place),
                ),
                null: false,
            }))
        }
    }
}

/// What a pointer points to, or None where the value is no pointer.
pub fn pointed(alloc: Global, e: Expr) -> Result<Option<Operand>, NoMemory>
    ensures { IfOk result (λ x. option_map plain_operand x ≡ pointed (plain_expr e)) }
{
    let e = boxed(alloc, e)?;
    match &e.ty {
        CType::Ptr { space, konst, to } => {
            let ty = to.copied(alloc)?;
            let space = *space;
            let konst = *konst;
            Ok(Some(Operand::Place {
                ty,
                konst,
                space,
                register: false,
                place: PlaceExpr::Deref(e),
            }))
        }
        CType::Void
        | CType::Int { .. }
        | CType::Fx { .. }
        | CType::Array { .. }
        | CType::Struct { .. } => Ok(None),
    }
}

fn promoted(t: Arithmetic) -> CType
    ensures { plain_type result ≡ type_of (promoted_type t) }
{
    t.promoted().to_type()
}

fn plus(alloc: Global, modes: Modes, e: Expr) -> Result<Option<Operand>, NoMemory>
    ensures { IfOk result (λ x. option_map plain_operand x ≡ plus modes (plain_expr e)) }
{
    let Some(t) = e.ty.arithmetic() else {
        drop(e);
        return Ok(None);
    };
    let e = convert(alloc, modes, &promoted(t), e)?;
    Ok(valued(Some(e)))
}

fn suits_unary(op: UnOp, t: Arithmetic) -> bool
    ensures { result ≡ suits_unary op t }
{
    match op {
        UnOp::Minus => true,
        UnOp::Invert => match t {
            Arithmetic::Integer(_) => true,
            Arithmetic::Fixed(_) => false,
        },
    }
}

fn unary_operation(
    alloc: Global,
    modes: Modes,
    op: UnOp,
    e: Expr,
) -> Result<Option<Operand>, NoMemory>
    ensures { IfOk result (λ x. option_map plain_operand x ≡ unary_operation modes op (plain_expr e)) }
{
    let Some(t) = e.ty.arithmetic().filter(|t| suits_unary(op, *t)) else {
        drop(e);
        return Ok(None);
    };
    let ty = promoted(t);
    let e = boxed_in(alloc, modes, &ty, e)?;
    Ok(valued(Some(made(modes, ty, Node::Unary(op, e)))))
}

fn negated(alloc: Global, modes: Modes, e: Option<Expr>) -> Result<Option<Operand>, NoMemory>
    ensures { IfOk result (λ x. option_map plain_operand x ≡ negated modes (option_map plain_expr e)) }
{
    let Some(e) = e else {
        return Ok(None);
    };
    let e = boxed(alloc, e)?;
    Ok(valued(Some(made(modes, int(), Node::Not(e)))))
}

fn prefix_one(
    alloc: Global,
    modes: Modes,
    op: PrefixOp,
    x: Operand,
) -> Result<Option<Operand>, NoMemory>
    ensures { IfOk result (λ y. option_map plain_operand y ≡ prefixed modes op (plain_operand x)) }
{
    match op {
        PrefixOp::Address => address(alloc, modes, x),
        PrefixOp::Deref => pointed(alloc, as_value(modes, x)),
        PrefixOp::Plus => plus(alloc, modes, as_value(modes, x)),
        PrefixOp::Minus => unary_operation(alloc, modes, UnOp::Minus, as_value(modes, x)),
        PrefixOp::Invert => unary_operation(alloc, modes, UnOp::Invert, as_value(modes, x)),
        PrefixOp::Not => negated(alloc, modes, condition(modes, Some(x))),
    }
}

/// What a prefix operator makes of its operand, or None where that has no type or breaks a rule.
pub fn prefix(
    alloc: Global,
    modes: Modes,
    op: PrefixOp,
    x: Option<Operand>,
) -> Result<Option<Operand>, NoMemory>
    ensures { IfOk result (λ y. option_map plain_operand y
        ≡ with_one (option_map plain_operand x) (prefixed modes op)) }
{
    let Some(x) = x else {
        return Ok(None);
    };
    prefix_one(alloc, modes, op, x)
}
