//! Conversions and comparisons.
ghost use Rattle.std.specs.Prelude.{◌≡◌, IfSome};
ghost use Rattle.ec_fx.specs.Conversions.{conversion_in, conversion_of, exact_whole, integer_of, held, order_of};
ghost use Rattle.ec_fx.specs.Conversions.{IsIntegerWidth};
ghost use Rattle.ec_fx.specs.Formats.{IsFormat};
ghost use Rattle.ec_fx.specs.Numbers.{IsFixed, IsNumber};
ghost use Rattle.ec_fx.specs.Results.{HasFormat, IsAccurate};
ghost use Rattle.ec_fx.specs.Rounding.{rounded, IsWithinUnit};

use crate::formats::{Format, greatest_number, least_number};
use crate::numbers::{Fixed, Fx, Mode, Num};
use crate::rounding::{shifted_left, shifted_right};
use std::cmp::Ordering;

/// The value rounded toward zero to the format `to`. A rounded result out of range is clamped, or
/// `Overflow` where the mode does not saturate.
pub fn convert(a: Num, to: Format, mode: Mode) -> Fx
    requires a_in { IsNumber a }
    requires known { IsFormat to }
    ensures value { result ≡ conversion_of a to mode }
    ensures accurate { IsAccurate (conversion_in a to) to result }
    ensures format { HasFormat to result }
{
    mode.fit(to, converted(a, to))
}

/// The part before the point, or None where an integer type of 8, 16 or 32 bits does not hold it.
pub fn to_int(a: Fixed, signed: bool, bits: u8) -> Option<i64>
    requires a_in { IsFixed a }
    requires bits_in { IsIntegerWidth bits }
    ensures value { result ≡ integer_of a signed bits }
    ensures unit { IfSome result (IsWithinUnit (exact_whole a)) }
{
    held(whole_part(a), signed, bits)
}

/// The order of the exact values, without a conversion of either.
pub fn compare(a: Num, b: Num) -> Ordering
    requires a_in { IsNumber a }
    requires b_in { IsNumber b }
    ensures { result ≡ order_of a b }
{
    let left = shifted_left(a.scaled(), b.fraction_bits());
    let right = shifted_left(b.scaled(), a.fraction_bits());
    left.cmp(&right)
}

fn converted(a: Num, to: Format) -> i128
    requires a_in { IsNumber a }
    requires known { IsFormat to }
    ensures { result ≡ rounded (conversion_in a to) }
{
    let scaled = shifted_left(a.scaled(), to.frac);
    shifted_right(scaled, a.fraction_bits())
}

fn whole_part(a: Fixed) -> i128
    requires a_in { IsFixed a }
    ensures { result ≡ rounded (exact_whole a) }
{
    shifted_right(a.n, a.format.frac)
}

fn held(n: i128, signed: bool, bits: u8) -> Option<i64>
    requires bits_in { IsIntegerWidth bits }
    ensures { result ≡ held signed bits n }
{
    if n > greatest_number(signed, bits) || n < least_number(signed, bits) {
        return None;
    }
    Some(n as i64)
}
