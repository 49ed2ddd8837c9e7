//! Operators and conversions on numbers of arithmetic types (ISO/IEC 9899:1999, 6.3 and 6.5; ISO/IEC TR 18037:2008,
//! 4.1).
ghost use Rattle.std.specs.Prelude.{◌≡◌, IfOk};
ghost use Rattle.std.specs.Option.{ok_or};
ghost use Rattle.ec_fx.specs.Conversions.{integer_of};
ghost use Rattle.ec_fx.specs.Numbers.{scaled, IsFixed, IsNumber};
ghost use Rattle.ec_fx.specs.Ranges.{IsWithin};
ghost use Rattle.ec_fx.specs.Results.{HasFormat};
ghost use Rattle.ec_core.specs.declared.values.Undefined.TheVariants.{WholePart};
ghost use Rattle.ec_core.specs.Integers.{IsInteger, HoldsInteger, width_of, truth, accepts};
ghost use Rattle.ec_core.specs.ArithmeticValues.{HoldsNumber, HoldsFixed, fixed_number, operand, outcome, fixed_shift};
ghost use Rattle.ec_core.specs.ArithmeticValues.{shift_value, fixed_value, IsShift, SuitsFixed, is_comparison};
ghost use Rattle.ec_core.specs.ArithmeticValues.{typed_value, arithmetic_value, SuitsTyped, IsIntegerResult, Suits};
ghost use Rattle.ec_core.specs.ArithmeticValues.{unary_value, SuitsUnary, conversion_value, IsKnownType};

use crate::arithmetic_types::{Arithmetic, FixedType, IntegerType};
use crate::expressions::{BinOp, UnOp};
use crate::integers::{compared, complement, integer_operation, is_count, negation};
use crate::values::Undefined;
use ec_fx::{Fixed, Format, Fx, Mode, Num, compare, convert, neg, shift, to_int};
use std::cmp::Ordering;

impl FixedType {
    /// The number as a value of the type.
    pub fn number(self, n: i128) -> Fixed
        requires { HoldsFixed self n }
        ensures value { result ≡ fixed_number self n }
        ensures fixed { IsFixed result }
    {
        Fixed {
            format: self.kind.format(),
            n,
        }
    }
}

impl Arithmetic {
    /// The number, a value of this type, with its binary point.
    pub fn operand(self, n: i128) -> Num
        requires { HoldsNumber self n }
        ensures value { result ≡ operand self n }
        ensures number { IsNumber result }
    {
        match self {
            Arithmetic::Integer(_) => Num::Whole(n as i64),
            Arithmetic::Fixed(t) => Num::Fixed(t.number(n)),
        }
    }
}

/// The number of a result that has the format `to`, if it is a value.
fn outcome(to: Format, fx: Fx) -> Result<i128, Undefined>
    requires { HasFormat to fx }
    ensures value { result ≡ outcome fx }
    ensures held { IfOk result (IsWithin to.signed to.bits) }
{
    match fx {
        Fx::Got(x) => Ok(x.n),
        Fx::Overflow => Err(Undefined::FixedOverflow),
        Fx::ZeroDivisor => Err(Undefined::ZeroDivisor),
    }
}

fn fixed_shift(left: bool, x: Fixed, count: i128, mode: Mode) -> Result<i128, Undefined>
    requires { IsFixed x }
    ensures value { result ≡ fixed_shift left x count mode }
    ensures held { IfOk result (IsWithin x.format.signed x.format.bits) }
{
    if !is_count(x.format.bits, count) {
        return Err(Undefined::ShiftCount);
    }
    outcome(x.format, shift(x, count as u8, left, mode))
}

/// The value of `a op b` where an operand is fixed-point and the result has the format `to`.
pub fn fixed_operation(op: BinOp, to: Format, a: Num, b: Num, mode: Mode) -> Result<i128, Undefined>
    requires a_in { IsNumber a }
    requires b_in { IsNumber b }
    requires suits { SuitsFixed op a b to }
    ensures value { result ≡ fixed_value op to a b mode }
    ensures held { IfOk result (IsWithin to.signed to.bits) }
{
    match op {
        BinOp::Add => outcome(to, ec_fx::add(a, b, to, mode)),
        BinOp::Sub => outcome(to, ec_fx::sub(a, b, to, mode)),
        BinOp::Mul => outcome(to, ec_fx::mul(a, b, to, mode)),
        BinOp::Div => outcome(to, ec_fx::div(a, b, to, mode)),
        BinOp::Shl => shift_operation(true, to, a, b, mode),
        BinOp::Shr => shift_operation(false, to, a, b, mode),
        _ => unreachable!(),
    }
}

fn shift_operation(left: bool, to: Format, a: Num, b: Num, mode: Mode) -> Result<i128, Undefined>
    requires a_in { IsNumber a }
    requires suits { IsShift a b to }
    ensures value { result ≡ shift_value left a b mode }
    ensures held { IfOk result (IsWithin to.signed to.bits) }
{
    match a {
        Num::Whole(_) => unreachable!(),
        Num::Fixed(x) => match b {
            Num::Whole(count) => fixed_shift(left, x, count as i128, mode),
            Num::Fixed(_) => unreachable!(),
        },
    }
}

fn whole(n: Num) -> i128
    ensures { result ≡ scaled n }
{
    match n {
        Num::Whole(n) => n as i128,
        Num::Fixed(x) => x.n,
    }
}

/// Whether an operator compares its operands.
pub fn is_comparison(op: BinOp) -> bool
    ensures { result ≡ is_comparison op }
{
    match op {
        BinOp::Lt | BinOp::Gt | BinOp::Le | BinOp::Ge | BinOp::Eq | BinOp::Ne => true,
        _ => false,
    }
}

fn typed_operation(op: BinOp, ty: Arithmetic, mode: Mode, a: Num, b: Num) -> Result<i128, Undefined>
    requires a_in { IsNumber a }
    requires b_in { IsNumber b }
    requires suits { SuitsTyped op ty a b }
    ensures value { result ≡ typed_value op ty mode a b }
    ensures held { IfOk result (HoldsNumber ty) }
{
    match ty {
        Arithmetic::Integer(t) => integer_operation(op, t, whole(a), whole(b)),
        Arithmetic::Fixed(t) => fixed_operation(op, t.kind.format(), a, b, mode),
    }
}

/// The value of `a op b` with the result type `ty`, or the point at which it is undefined. A comparison
/// compares the exact values, and gives 0 or 1.
pub fn arithmetic_operation(
    op: BinOp,
    ty: Arithmetic,
    mode: Mode,
    a: Num,
    b: Num,
) -> Result<i128, Undefined>
    requires a_in { IsNumber a }
    requires b_in { IsNumber b }
    requires suits { Suits op ty a b }
    ensures value { result ≡ arithmetic_value op ty mode a b }
    ensures held { IfOk result (HoldsNumber ty) }
{
    if is_comparison(op) {
        return Ok(comparison(op, ty, compare(a, b)));
    }
    typed_operation(op, ty, mode, a, b)
}

fn comparison(op: BinOp, ty: Arithmetic, order: Ordering) -> i128
    requires { IsIntegerResult ty }
    ensures value { result ≡ truth (accepts op order) }
    ensures held { HoldsNumber ty result }
{
    match ty {
        Arithmetic::Integer(t) => compared(op, t, order),
        Arithmetic::Fixed(_) => unreachable!(),
    }
}

/// The value of `op n` where `n` and the result have the type `ty`.
pub fn unary_operation(op: UnOp, ty: Arithmetic, mode: Mode, n: i128) -> Result<i128, Undefined>
    requires n_in { HoldsNumber ty n }
    requires suits { SuitsUnary op ty }
    ensures value { result ≡ unary_value op ty mode n }
    ensures held { IfOk result (HoldsNumber ty) }
{
    match ty {
        Arithmetic::Integer(t) => match op {
            UnOp::Minus => Ok(negation(t, n)),
            UnOp::Invert => Ok(complement(t, n)),
        },
        Arithmetic::Fixed(t) => outcome(t.kind.format(), neg(t.number(n), mode)),
    }
}

/// The number in the type `to`, or the point at which the conversion is undefined.
pub fn arithmetic_conversion(to: Arithmetic, mode: Mode, a: Num) -> Result<i128, Undefined>
    requires a_in { IsNumber a }
    requires known { IsKnownType to }
    ensures value { result ≡ conversion_value to mode a }
    ensures held { IfOk result (HoldsNumber to) }
{
    match to {
        Arithmetic::Integer(t) => match a {
            Num::Whole(n) => Ok(t.wrapped(n as i128)),
            Num::Fixed(x) => whole_part(t, x),
        },
        Arithmetic::Fixed(t) => outcome(t.kind.format(), convert(a, t.kind.format(), mode)),
    }
}

fn whole_part(t: IntegerType, x: Fixed) -> Result<i128, Undefined>
    requires integer { IsInteger t }
    requires x_in { IsFixed x }
    ensures value { result ≡ ok_or (integer_of x t.signed (width_of t)) WholePart }
    ensures held { IfOk result (HoldsInteger t) }
{
    match to_int(x, t.signed, t.width()) {
        Some(n) => Ok(n as i128),
        None => Err(Undefined::WholePart),
    }
}
