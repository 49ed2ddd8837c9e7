//! Fixed-point constants of a source text.
ghost use Rattle.std.specs.Prelude.{◌≡◌, ◌==◌, ◌&&◌, ◌^◌, ◌<◌, ◌≤◌};
ghost use Rattle.ec_fx.specs.Constants.{exact_constant, value_of_constant};
ghost use Rattle.ec_fx.specs.Formats.{is_fract, IsFormat};
ghost use Rattle.ec_fx.specs.Results.{HasFormat, IsAccurate};

use crate::formats::Format;
use crate::numbers::{Fixed, Fx, Mode};
use crate::rounding::{round, shifted_left};

#[tactic(auto, using(crate::proofs::Powers::ten_step, crate::proofs::Powers::ten_bound))]
fn power_of_ten(exponent: u8) -> u128
    requires { exponent ≤ 24 }
    ensures value { result ≡ 10 ^ exponent }
    ensures positive { 0 < result }
    ensures bound { result ≤ 10 ^ 24 }
{
    let mut power: u128 = 1;
    for _place in 0..exponent {
        power *= 10;
    }
    power
}

/// The value of the constant whose digits, read as one whole number, are `digits`, with `places` of
/// them behind the decimal point. A `_Fract` constant of value exactly 1 is the greatest value of its
/// type; every other constant that is out of range after rounding is an overflow.
pub fn constant(digits: u128, places: u8, to: Format) -> Fx
    requires digits_in { digits < 10 ^ 24 }
    requires places_in { places ≤ 24 }
    requires known { IsFormat to }
    ensures value { result ≡ value_of_constant digits places to }
    ensures accurate { IsAccurate (exact_constant digits places to) to result }
    ensures format { HasFormat to result }
{
    if is_exactly_one(digits, places, to) {
        return Fx::Got(Fixed {
            format: to,
            n: to.greatest(),
        });
    }
    let mode = Mode { saturate: false };
    let scaled = shifted_left(digits as i128, to.frac);
    mode.fit(to, round(scaled, power_of_ten(places)))
}

fn is_exactly_one(digits: u128, places: u8, to: Format) -> bool
    requires places_in { places ≤ 24 }
    requires known { IsFormat to }
    ensures { result ≡ (is_fract to && digits == 10 ^ places) }
{
    to.is_fract() && digits == power_of_ten(places)
}
