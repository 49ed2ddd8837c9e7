//! Sums, differences, products, quotients and shifts.
ghost use Rattle.std.specs.Prelude.{◌≡◌, ◌≢◌, ◌-◌, ◌^◌, ◌<◌, ◌≤◌, ℤ, pos, ◌*ℤ◌, unsigned_abs};
ghost use Rattle.ec_fx.specs.Arithmetic.{sum_of, difference_of, product_of, quotient_of, shift_of, negation_of, sum_in};
ghost use Rattle.ec_fx.specs.Arithmetic.{difference_in, product_in, quotient_in, exact_shift, exact_negation, turned};
ghost use Rattle.ec_fx.specs.Arithmetic.{IsResultFormat, IsOneByte};
ghost use Rattle.ec_fx.specs.Formats.{IsFormat};
ghost use Rattle.ec_fx.specs.Numbers.{scaled, IsFixed, IsNumber};
ghost use Rattle.ec_fx.specs.Results.{HasFormat, IsAccurate};
ghost use Rattle.ec_fx.specs.Rounding.{rounded};

use crate::formats::Format;
use crate::numbers::{Fixed, Fx, Mode, Num};
use crate::rounding::{round, shifted_left, shifted_right};

/// `a + b`, rounded toward zero to the format `to`: that of the fixed operand, or the higher of two.
/// A rounded result out of range is clamped, or `Overflow` where the mode does not saturate.
pub fn add(a: Num, b: Num, to: Format, mode: Mode) -> Fx
    requires a_in { IsNumber a }
    requires b_in { IsNumber b }
    requires permitted { IsResultFormat a b to }
    ensures value { result ≡ sum_of a b to mode }
    ensures accurate { IsAccurate (sum_in a b to) to result }
    ensures format { HasFormat to result }
{
    mode.fit(to, sum(a, b, to))
}

/// `a - b`, rounded toward zero to the format `to`: that of the fixed operand, or the higher of two.
/// A rounded result out of range is clamped, or `Overflow` where the mode does not saturate.
pub fn sub(a: Num, b: Num, to: Format, mode: Mode) -> Fx
    requires a_in { IsNumber a }
    requires b_in { IsNumber b }
    requires permitted { IsResultFormat a b to }
    ensures value { result ≡ difference_of a b to mode }
    ensures accurate { IsAccurate (difference_in a b to) to result }
    ensures format { HasFormat to result }
{
    mode.fit(to, difference(a, b, to))
}

/// `a * b` of operands of one byte each, rounded toward zero to the format `to`: that of the fixed
/// operand, or the higher of two. A rounded result out of range is clamped, or `Overflow` where the
/// mode does not saturate.
pub fn mul(a: Num, b: Num, to: Format, mode: Mode) -> Fx
    requires a_in { IsNumber a }
    requires b_in { IsNumber b }
    requires permitted { IsResultFormat a b to }
    requires a_byte { IsOneByte a }
    requires b_byte { IsOneByte b }
    ensures value { result ≡ product_of a b to mode }
    ensures accurate { IsAccurate (product_in a b to) to result }
    ensures format { HasFormat to result }
{
    mode.fit(to, product(a, b, to))
}

/// `a / b`, rounded toward zero to the format `to`: that of the fixed operand, or the higher of two.
/// A rounded result out of range is clamped, or `Overflow` where the mode does not saturate.
/// A divisor of 0 gives `ZeroDivisor`.
pub fn div(a: Num, b: Num, to: Format, mode: Mode) -> Fx
    requires a_in { IsNumber a }
    requires b_in { IsNumber b }
    requires permitted { IsResultFormat a b to }
    ensures value { result ≡ quotient_of a b to mode }
    ensures accurate { scaled b ≢ pos 0 → IsAccurate (quotient_in a b to) to result }
    ensures format { HasFormat to result }
{
    if b.scaled() == 0 {
        return Fx::ZeroDivisor;
    }
    mode.fit(to, quotient(a, b, to))
}

/// `a` times 2^count to the left, or divided by it, rounded toward zero to its own format. A result
/// out of range is clamped, or `Overflow` where the mode does not saturate.
pub fn shift(a: Fixed, count: u8, left: bool, mode: Mode) -> Fx
    requires a_in { IsFixed a }
    requires count_in { count < a.format.bits }
    ensures value { result ≡ shift_of a count left mode }
    ensures accurate { IsAccurate (exact_shift a.n count left) a.format result }
    ensures format { HasFormat a.format result }
{
    mode.fit(a.format, shifted(a, count, left))
}

/// `-a` in its own format. A result out of range is clamped, or `Overflow` where the mode does not
/// saturate.
pub fn neg(a: Fixed, mode: Mode) -> Fx
    requires { IsFixed a }
    ensures value { result ≡ negation_of a mode }
    ensures accurate { IsAccurate (exact_negation a.n) a.format result }
    ensures format { HasFormat a.format result }
{
    mode.fit(a.format, negated(a))
}

// The results below are in units of the result format, before their range is tested. The exact
// results are taken without the powers of two that numerator and denominator have in common, so that
// numerators have at most 98 bits.

/// Both operands are brought to the fraction bits of the one that has more.
fn sum(a: Num, b: Num, to: Format) -> i128
    requires a_in { IsNumber a }
    requires b_in { IsNumber b }
    requires permitted { IsResultFormat a b to }
    ensures { result ≡ rounded (sum_in a b to) }
{
    let frac = a.fraction_bits().max(b.fraction_bits());
    shifted_right(a.aligned(frac) + b.aligned(frac), frac - to.frac)
}

/// Both operands are brought to the fraction bits of the one that has more.
fn difference(a: Num, b: Num, to: Format) -> i128
    requires a_in { IsNumber a }
    requires b_in { IsNumber b }
    requires permitted { IsResultFormat a b to }
    ensures { result ≡ rounded (difference_in a b to) }
{
    let frac = a.fraction_bits().max(b.fraction_bits());
    shifted_right(a.aligned(frac) - b.aligned(frac), frac - to.frac)
}

fn product(a: Num, b: Num, to: Format) -> i128
    requires a_in { IsNumber a }
    requires b_in { IsNumber b }
    requires permitted { IsResultFormat a b to }
    requires a_byte { IsOneByte a }
    requires b_byte { IsOneByte b }
    ensures { result ≡ rounded (product_in a b to) }
{
    let count = a.fraction_bits() + b.fraction_bits() - to.frac;
    shifted_right(a.scaled() * b.scaled(), count)
}

/// `x * 2^(g + r) / (y * 2^f)`
fn quotient(a: Num, b: Num, to: Format) -> i128
    requires a_in { IsNumber a }
    requires b_in { IsNumber b }
    requires known { IsFormat to }
    requires nonzero { scaled b ≢ pos 0 }
    ensures { result ≡ rounded (quotient_in a b to) }
{
    let up = b.fraction_bits() + to.frac;
    let down = a.fraction_bits();
    let common = up.min(down);
    let numerator = shifted_left(a.scaled(), up - common);
    let denominator = shifted_left(b.scaled(), down - common);
    round(turned(denominator, numerator), denominator.unsigned_abs())
}

/// The number, with its sign turned where the divisor is negative.
fn turned(divisor: i128, n: i128) -> i128
    requires { unsigned_abs n < 2 ^ 127 }
    ensures { result ≡ turned divisor n }
{
    if divisor < 0 { -n } else { n }
}

fn shifted(a: Fixed, count: u8, left: bool) -> i128
    requires a_in { IsFixed a }
    requires count_in { count < a.format.bits }
    ensures { result ≡ rounded (exact_shift a.n count left) }
{
    if left {
        return shifted_left(a.n, count);
    }
    shifted_right(a.n, count)
}

fn negated(a: Fixed) -> i128
    requires { IsFixed a }
    ensures { result ≡ rounded (exact_negation a.n) }
{
    -a.n
}
