//! The walk over a constant expression.
ghost use Rattle.std.specs.Prelude.{◌≡◌, IfOk};
ghost use Rattle.ec_core.specs.ArithmeticValues.{HoldsNumber};
ghost use Rattle.ec_core.specs.Operators.{number_type};
ghost use Rattle.ec_core.specs.Plain.{plain_type, plain_expr, unary, binary, convert, conditional};
ghost use Rattle.ec_core.specs.Typing.{int};
ghost use Rattle.ec_check_constants.specs.Constants.{IsNumeric, IsConstant, IsConstantNode, constant, node_constant};
ghost use Rattle.ec_check_constants.specs.Constants.{not_of, and_of, or_of, choice_of};

use crate::numbers::{binary_value, conversion, is_true, truth, truth_of, unary_value};
use ec_core::{BinOp, CType, Expr, Node, UnOp, Undefined};
use ec_fx::Mode;

/// The value of a constant expression, a number that its type holds, or the first point at which it is undefined: a zero
/// divisor, a shift count out of range, a fixed-point result that overflows and does not saturate, or a part before the
/// point that the integer type does not hold (ISO/IEC 9899:1999, 6.6; ISO/IEC TR 18037:2008, 4.1).
#[cycle(constant)]
pub fn constant(e: &Expr) -> Result<i128, Undefined>
    requires { IsConstant (plain_expr e.now) }
    ensures value { result ≡ constant (plain_expr e.now) }
    ensures held { IfOk result (HoldsNumber (number_type (plain_type e.now.ty))) }
{
    match &e.node {
        Node::Number(n) => Ok(*n),
        Node::Unary(op, a) => unary(*op, &e.ty, e.mode, a),
        Node::Binary(op, a, b) => binary(*op, &e.ty, e.mode, a, b),
        Node::Convert(a) => converted(&e.ty, e.mode, a),
        Node::Not(a) => logical_not(a),
        Node::And(a, b) => logical_and(a, b),
        Node::Or(a, b) => logical_or(a, b),
        Node::Cond(c, a, b) => conditional(&e.ty, c, a, b),
        _ => unreachable!(),
    }
}

#[cycle(constant)]
fn unary(op: UnOp, ty: &CType, mode: Mode, a: &Expr) -> Result<i128, Undefined>
    requires { IsConstantNode (plain_type ty.now) (unary op (plain_expr a.now)) }
    ensures value { result ≡ node_constant (plain_type ty.now) mode (unary op (plain_expr a.now)) }
    ensures held { IfOk result (HoldsNumber (number_type (plain_type ty.now))) }
{
    let n = constant(a)?;
    unary_value(op, ty, mode, n)
}

#[cycle(constant)]
fn binary(op: BinOp, ty: &CType, mode: Mode, a: &Expr, b: &Expr) -> Result<i128, Undefined>
    requires { IsConstantNode (plain_type ty.now) (binary op (plain_expr a.now) (plain_expr b.now)) }
    ensures value { result ≡ node_constant (plain_type ty.now) mode
        (binary op (plain_expr a.now) (plain_expr b.now)) }
    ensures held { IfOk result (HoldsNumber (number_type (plain_type ty.now))) }
{
    let m = constant(a)?;
    let n = constant(b)?;
    binary_value(op, ty, mode, &a.ty, m, &b.ty, n)
}

#[cycle(constant)]
fn converted(ty: &CType, mode: Mode, a: &Expr) -> Result<i128, Undefined>
    requires numeric { IsNumeric (plain_type ty.now) }
    requires node { IsConstantNode (plain_type ty.now) (convert (plain_expr a.now)) }
    ensures value { result ≡ node_constant (plain_type ty.now) mode (convert (plain_expr a.now)) }
    ensures held { IfOk result (HoldsNumber (number_type (plain_type ty.now))) }
{
    let n = constant(a)?;
    conversion(ty, mode, &a.ty, n)
}

#[cycle(constant)]
fn logical_not(a: &Expr) -> Result<i128, Undefined>
    requires { IsConstant (plain_expr a.now) }
    ensures value { result ≡ not_of (constant (plain_expr a.now)) }
    ensures held { IfOk result (HoldsNumber (number_type int)) }
{
    let n = constant(a)?;
    Ok(truth(!is_true(n)))
}

#[cycle(constant)]
fn logical_and(a: &Expr, b: &Expr) -> Result<i128, Undefined>
    requires left { IsConstant (plain_expr a.now) }
    requires right { IsConstant (plain_expr b.now) }
    ensures value { result ≡ and_of (constant (plain_expr a.now)) (constant (plain_expr b.now)) }
    ensures held { IfOk result (HoldsNumber (number_type int)) }
{
    let n = constant(a)?;
    if is_true(n) {
        truth_of(constant(b))
    } else {
        Ok(truth(false))
    }
}

#[cycle(constant)]
fn logical_or(a: &Expr, b: &Expr) -> Result<i128, Undefined>
    requires left { IsConstant (plain_expr a.now) }
    requires right { IsConstant (plain_expr b.now) }
    ensures value { result ≡ or_of (constant (plain_expr a.now)) (constant (plain_expr b.now)) }
    ensures held { IfOk result (HoldsNumber (number_type int)) }
{
    let n = constant(a)?;
    if is_true(n) {
        Ok(truth(true))
    } else {
        truth_of(constant(b))
    }
}

#[cycle(constant)]
fn conditional(ty: &CType, c: &Expr, a: &Expr, b: &Expr) -> Result<i128, Undefined>
    requires { IsConstantNode (plain_type ty.now)
        (conditional (plain_expr c.now) (plain_expr a.now) (plain_expr b.now)) }
    ensures value { result ≡ choice_of (constant (plain_expr c.now)) (constant (plain_expr a.now))
        (constant (plain_expr b.now)) }
    ensures held { IfOk result (HoldsNumber (number_type (plain_type ty.now))) }
{
    let n = constant(c)?;
    if is_true(n) { constant(a) } else { constant(b) }
}
