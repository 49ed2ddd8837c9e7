//! Integer operators (ISO/IEC 9899:1999, 6.5). Results wrap to their type.
ghost use Rattle.std.specs.Prelude.{◌≡◌, ◌*◌, ◌^◌, ◌<◌, ◌≤◌, ℕ, pos, neg_ℤ, ◌+ℤ◌, ◌-ℤ◌, ◌*ℤ◌, ◌≤ℤ◌, ◌≢◌, int_div};
ghost use Rattle.std.specs.Prelude.{int_rem, unsigned_abs, bit_and, bit_or, bit_xor, IfOk};
ghost use Rattle.ec_fx.specs.Numbers.{IsWhole};
ghost use Rattle.ec_core.specs.Integers.{IsInteger, HoldsInteger, width_of, modulus, low_bits, from_bits, wrapped};
ghost use Rattle.ec_core.specs.Integers.{quotient, remainder, is_count, left_shift, right_shift, bitwise};
ghost use Rattle.ec_core.specs.Integers.{bits_operator, truth, accepts, integer_value, negation, complement};

use crate::arithmetic_types::IntegerType;
use crate::expressions::BinOp;
use crate::values::Undefined;
use std::cmp::Ordering;

impl IntegerType {
    /// The number of its bits.
    pub fn width(self) -> u8
        requires { IsInteger self }
        ensures value { result ≡ width_of self }
        ensures bound { result ≤ 32 }
    {
        8 * self.bytes
    }

    fn modulus(self) -> i128
        requires { IsInteger self }
        ensures { result ≡ pos (modulus self) }
    {
        1i128 << self.width()
    }

    fn low_bits(self, n: i128) -> u128
        requires integer { IsInteger self }
        ensures value { result ≡ low_bits self n }
        ensures bound { result < modulus self }
    {
        n.rem_euclid(self.modulus()) as u128
    }

    fn from_bits(self, low: u128) -> i128
        requires integer { IsInteger self }
        requires bits { low < modulus self }
        ensures value { result ≡ from_bits self low }
        ensures held { HoldsInteger self result }
    {
        let modulus = self.modulus();
        let low = low as i128;
        if self.signed && modulus <= 2 * low {
            low - modulus
        } else {
            low
        }
    }

    /// The number of this type that equals `n` modulo 2 to the power of its width.
    pub fn wrapped(self, n: i128) -> i128
        requires { IsInteger self }
        ensures value { result ≡ wrapped self n }
        ensures held { HoldsInteger self result }
    {
        self.from_bits(self.low_bits(n))
    }

    fn truth(self, holds: bool) -> i128
        requires { IsInteger self }
        ensures value { result ≡ truth holds }
        ensures held { HoldsInteger self result }
    {
        if holds { 1 } else { 0 }
    }
}

// Exact results, which fit 128 bits.

fn exact_sum(a: i128, b: i128) -> i128
    requires a_in { IsWhole a }
    requires b_in { IsWhole b }
    ensures { result ≡ a +ℤ b }
{
    a + b
}

fn exact_difference(a: i128, b: i128) -> i128
    requires a_in { IsWhole a }
    requires b_in { IsWhole b }
    ensures { result ≡ a -ℤ b }
{
    a - b
}

fn exact_product(a: i128, b: i128) -> i128
    requires a_in { IsWhole a }
    requires b_in { IsWhole b }
    ensures { result ≡ a *ℤ b }
{
    a * b
}

fn exact_quotient(a: i128, b: i128) -> i128
    requires a_in { IsWhole a }
    requires b_in { IsWhole b }
    requires nonzero { b ≢ pos 0 }
    ensures { result ≡ int_div a b }
{
    a / b
}

fn exact_remainder(a: i128, b: i128) -> i128
    requires a_in { IsWhole a }
    requires b_in { IsWhole b }
    requires nonzero { b ≢ pos 0 }
    ensures { result ≡ int_rem a b }
{
    a % b
}

/// `a / b`, wrapped, or the undefined point of a zero divisor.
fn quotient(t: IntegerType, a: i128, b: i128) -> Result<i128, Undefined>
    requires integer { IsInteger t }
    requires a_in { IsWhole a }
    requires b_in { IsWhole b }
    ensures value { result ≡ quotient t a b }
    ensures held { IfOk result (HoldsInteger t) }
{
    if b == 0 {
        return Err(Undefined::ZeroDivisor);
    }
    Ok(t.wrapped(exact_quotient(a, b)))
}

/// `a % b`, which has the sign of `a`, or the undefined point of a zero divisor.
fn remainder(t: IntegerType, a: i128, b: i128) -> Result<i128, Undefined>
    requires integer { IsInteger t }
    requires a_in { IsWhole a }
    requires b_in { IsWhole b }
    ensures value { result ≡ remainder t a b }
    ensures held { IfOk result (HoldsInteger t) }
{
    if b == 0 {
        return Err(Undefined::ZeroDivisor);
    }
    Ok(t.wrapped(exact_remainder(a, b)))
}

/// Whether a value of `width` bits can be shifted by `count`.
pub(crate) fn is_count(width: u8, count: i128) -> bool
    ensures { result ≡ is_count width count }
{
    0 <= count && count < width as i128
}

fn power_of_two(count: i128) -> i128
    requires low { pos 0 ≤ℤ count }
    requires high { count ≤ℤ pos 31 }
    ensures value { result ≡ pos (2 ^ unsigned_abs count) }
    ensures some { pos 1 ≤ℤ result }
    ensures most { result ≤ℤ pos (2 ^ 31) }
{
    1i128 << count as u8
}

/// `a << count`, wrapped, or the undefined point of a count out of range.
fn left_shift(t: IntegerType, a: i128, count: i128) -> Result<i128, Undefined>
    requires integer { IsInteger t }
    requires a_in { IsWhole a }
    ensures value { result ≡ left_shift t a count }
    ensures held { IfOk result (HoldsInteger t) }
{
    if !is_count(t.width(), count) {
        return Err(Undefined::ShiftCount);
    }
    Ok(t.wrapped(exact_product(a, power_of_two(count))))
}

/// `a >> count`, rounded down, or the undefined point of a count out of range.
fn right_shift(t: IntegerType, a: i128, count: i128) -> Result<i128, Undefined>
    requires integer { IsInteger t }
    requires a_in { IsWhole a }
    ensures value { result ≡ right_shift t a count }
    ensures held { IfOk result (HoldsInteger t) }
{
    if !is_count(t.width(), count) {
        return Err(Undefined::ShiftCount);
    }
    Ok(t.wrapped(a.div_euclid(power_of_two(count))))
}

/// `a & b`, `a | b` or `a ^ b` of the two's complement bits.
fn bitwise(op: BinOp, t: IntegerType, a: i128, b: i128) -> i128
    requires { IsInteger t }
    ensures value { result ≡ bitwise (bits_operator op) t a b }
    ensures held { HoldsInteger t result }
{
    let left = t.low_bits(a);
    let right = t.low_bits(b);
    let bits = match op {
        BinOp::And => left & right,
        BinOp::Or => left | right,
        _ => left ^ right,
    };
    t.from_bits(bits)
}

/// Whether the operands of a comparison, which have this order, make it true.
pub(crate) fn accepts(op: BinOp, order: Ordering) -> bool
    ensures { result ≡ accepts op order }
{
    match order {
        Ordering::Less => match op {
            BinOp::Lt | BinOp::Le | BinOp::Ne => true,
            _ => false,
        },
        Ordering::Equal => match op {
            BinOp::Le | BinOp::Ge | BinOp::Eq => true,
            _ => false,
        },
        Ordering::Greater => match op {
            BinOp::Gt | BinOp::Ge | BinOp::Ne => true,
            _ => false,
        },
    }
}

/// The value of a comparison of operands with this order: 0 or 1, of the type `t`.
pub(crate) fn compared(op: BinOp, t: IntegerType, order: Ordering) -> i128
    requires { IsInteger t }
    ensures value { result ≡ truth (accepts op order) }
    ensures held { HoldsInteger t result }
{
    t.truth(accepts(op, order))
}

/// The value of `a op b` where the result, or for a comparison the operands, have the type `t`.
pub fn integer_operation(op: BinOp, t: IntegerType, a: i128, b: i128) -> Result<i128, Undefined>
    requires integer { IsInteger t }
    requires a_in { IsWhole a }
    requires b_in { IsWhole b }
    ensures value { result ≡ integer_value op t a b }
    ensures held { IfOk result (HoldsInteger t) }
{
    match op {
        BinOp::Add => Ok(t.wrapped(exact_sum(a, b))),
        BinOp::Sub => Ok(t.wrapped(exact_difference(a, b))),
        BinOp::Mul => Ok(t.wrapped(exact_product(a, b))),
        BinOp::Div => quotient(t, a, b),
        BinOp::Rem => remainder(t, a, b),
        BinOp::Shl => left_shift(t, a, b),
        BinOp::Shr => right_shift(t, a, b),
        BinOp::And | BinOp::Or | BinOp::Xor => Ok(bitwise(op, t, a, b)),
        BinOp::Lt | BinOp::Gt | BinOp::Le | BinOp::Ge | BinOp::Eq | BinOp::Ne => {
            Ok(compared(op, t, a.cmp(&b)))
        }
    }
}

/// `-n`, wrapped.
pub(crate) fn negation(t: IntegerType, n: i128) -> i128
    requires integer { IsInteger t }
    requires n_in { IsWhole n }
    ensures value { result ≡ negation t n }
    ensures held { HoldsInteger t result }
{
    t.wrapped(exact_difference(0, n))
}

/// `~n`
pub(crate) fn complement(t: IntegerType, n: i128) -> i128
    requires integer { IsInteger t }
    requires n_in { IsWhole n }
    ensures value { result ≡ complement t n }
    ensures held { HoldsInteger t result }
{
    t.wrapped(exact_difference(-1, n))
}
