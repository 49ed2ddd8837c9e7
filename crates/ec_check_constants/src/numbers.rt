//! Operators on the numbers of constants.
ghost use Rattle.std.specs.Prelude.{◌≡◌, IfOk};
ghost use Rattle.ec_core.specs.ArithmeticValues.{HoldsNumber, operand, arithmetic_value, unary_value};
ghost use Rattle.ec_core.specs.ArithmeticValues.{conversion_value, IsKnownType};
ghost use Rattle.ec_core.specs.Integers.{truth};
ghost use Rattle.ec_core.specs.Operators.{number_type};
ghost use Rattle.ec_core.specs.Plain.{plain_type};
ghost use Rattle.ec_core.specs.Typing.{int, HaveArithmeticTypes, HaveUnaryTypes};
ghost use Rattle.ec_check_constants.specs.Constants.{is_true, truth_of, IsNumeric};

use ec_core::{
    Arithmetic, BinOp, CType, IntegerType, UnOp, Undefined, arithmetic_conversion,
    arithmetic_operation, operands_suit, unary_operation,
};
use ec_fx::Mode;

/// The type as an arithmetic one, `int` where it is none.
fn number_type(ty: &CType) -> Arithmetic
    ensures { result ≡ number_type (plain_type ty.now) }
{
    match ty.arithmetic() {
        Some(t) => t,
        None => Arithmetic::Integer(IntegerType {
            signed: true,
            bytes: 2,
        }),
    }
}

/// The value of a unary operator on a number of its type.
pub(crate) fn unary_value(op: UnOp, ty: &CType, mode: Mode, n: i128) -> Result<i128, Undefined>
    requires types { HaveUnaryTypes op (number_type (plain_type ty.now)) }
    requires n_in { HoldsNumber (number_type (plain_type ty.now)) n }
    ensures value { result ≡ unary_value op (number_type (plain_type ty.now)) mode n }
    ensures held { IfOk result (HoldsNumber (number_type (plain_type ty.now))) }
{
    operands_suit();
    unary_operation(op, number_type(ty), mode, n)
}

/// The value of a binary operator with the type `ty` on numbers of the types `a` and `b`.
pub(crate) fn binary_value(
    op: BinOp,
    ty: &CType,
    mode: Mode,
    a: &CType,
    m: i128,
    b: &CType,
    n: i128,
) -> Result<i128, Undefined>
    requires types { HaveArithmeticTypes op (number_type (plain_type ty.now)) (number_type (plain_type a.now))
        (number_type (plain_type b.now)) }
    requires m_in { HoldsNumber (number_type (plain_type a.now)) m }
    requires n_in { HoldsNumber (number_type (plain_type b.now)) n }
    ensures value { result ≡ arithmetic_value op (number_type (plain_type ty.now)) mode
        (operand (number_type (plain_type a.now)) m) (operand (number_type (plain_type b.now)) n) }
    ensures held { IfOk result (HoldsNumber (number_type (plain_type ty.now))) }
{
    operands_suit();
    let x = number_type(a).operand(m);
    let y = number_type(b).operand(n);
    arithmetic_operation(op, number_type(ty), mode, x, y)
}

/// A number of the type `a` in the type `ty`.
pub(crate) fn conversion(ty: &CType, mode: Mode, a: &CType, n: i128) -> Result<i128, Undefined>
    requires numeric { IsNumeric (plain_type ty.now) }
    requires n_in { HoldsNumber (number_type (plain_type a.now)) n }
    ensures value { result ≡ conversion_value (number_type (plain_type ty.now)) mode
        (operand (number_type (plain_type a.now)) n) }
    ensures held { IfOk result (HoldsNumber (number_type (plain_type ty.now))) }
{
    let x = number_type(a).operand(n);
    arithmetic_conversion(number_type(ty), mode, x)
}

/// Whether a number holds as a condition.
pub(crate) fn is_true(n: i128) -> bool
    ensures { result ≡ is_true n }
{
    n != 0
}

/// The number of a truth value, of type int.
pub(crate) fn truth(holds: bool) -> i128
    ensures value { result ≡ truth holds }
    ensures held { HoldsNumber (number_type int) result }
{
    if holds { 1 } else { 0 }
}

/// The number of the truth value of a number.
pub(crate) fn truth_of(value: Result<i128, Undefined>) -> Result<i128, Undefined>
    ensures value { result ≡ truth_of value }
    ensures held { IfOk result (HoldsNumber (number_type int)) }
{
    let n = value?;
    Ok(truth(is_true(n)))
}
