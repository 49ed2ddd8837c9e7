//! The walk over a typed expression.
ghost use Rattle.std.specs.Prelude.{◌≡◌, ◌&&◌, IsTrue};
ghost use Rattle.ec_core.specs.Operators.{number_type, same_type};
ghost use Rattle.ec_core.specs.Plain.{plain_type, plain_expr, plain_node};
ghost use Rattle.ec_check_constants.specs.Constants.{IsConstant};
ghost use Rattle.ec_check_constants.specs.Tests.{is_constant, is_constant_node, have_unary_types};
ghost use Rattle.ec_check_constants.specs.Tests.{have_arithmetic_types};

use crate::arithmetic::{
    have_arithmetic_types, have_unary_types, holds_number, is_int, is_numeric, number_type,
};
use crate::laws::tests_tell_constants;
use ec_core::{BinOp, CType, Expr, Node, UnOp};

/// Whether an expression is a constant expression: it is built of numbers, conversions, operators and `?:`, and each of
/// its nodes has an arithmetic type that suits its operands. Only then it has a value by `crate::constants::constant`.
pub fn is_constant(e: &Expr) -> bool
    ensures value { result ≡ is_constant (plain_expr e.now) }
    ensures sound { IsTrue result → IsConstant (plain_expr e.now) }
{
    tests_tell_constants();
    is_constant_expression(e)
}

#[cycle(is_constant)]
fn is_constant_expression(e: &Expr) -> bool
    ensures { result ≡ is_constant (plain_expr e.now) }
{
    is_numeric(&e.ty) && is_constant_node(&e.ty, &e.node)
}

#[cycle(is_constant)]
fn is_constant_node(ty: &CType, node: &Node) -> bool
    ensures { result ≡ is_constant_node (plain_type ty.now) (plain_node node.now) }
{
    match node {
        Node::Number(n) => holds_number(number_type(ty), *n),
        Node::Unary(op, a) => is_constant_expression(a) && is_unary(*op, ty, &a.ty),
        Node::Binary(op, a, b) => {
            is_constant_expression(a)
                && (is_constant_expression(b) && is_binary(*op, ty, &a.ty, &b.ty))
        }
        Node::Convert(a) => is_constant_expression(a),
        Node::Not(a) => is_constant_expression(a) && is_int(ty),
        Node::And(a, b) => is_constant_expression(a) && (is_constant_expression(b) && is_int(ty)),
        Node::Or(a, b) => is_constant_expression(a) && (is_constant_expression(b) && is_int(ty)),
        Node::Cond(c, a, b) => {
            is_constant_expression(c)
                && (is_constant_expression(a)
                    && (is_constant_expression(b) && (a.ty.is_same(ty) && b.ty.is_same(ty))))
        }
        Node::Null
        | Node::Load(_)
        | Node::AddressOf(_)
        | Node::Assign(_, _)
        | Node::Compound(_, _, _, _)
        | Node::Step { .. }
        | Node::Comma(_, _)
        | Node::Call(_, _)
        | Node::Io { .. }
        | Node::Group { .. }
        | Node::Bind { .. }
        | Node::DynGroup { .. } => false,
    }
}

fn is_unary(op: UnOp, ty: &CType, a: &CType) -> bool
    ensures { result ≡ (same_type (plain_type a.now) (plain_type ty.now)
        && have_unary_types op (number_type (plain_type ty.now))) }
{
    a.is_same(ty) && have_unary_types(op, number_type(ty))
}

fn is_binary(op: BinOp, ty: &CType, a: &CType, b: &CType) -> bool
    ensures { result ≡ have_arithmetic_types op (number_type (plain_type ty.now)) (number_type (plain_type a.now))
        (number_type (plain_type b.now)) }
{
    have_arithmetic_types(op, number_type(ty), number_type(a), number_type(b))
}
