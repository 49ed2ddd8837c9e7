//! Rounding toward zero, and products and quotients by powers of two.
ghost use Rattle.std.specs.Prelude.{◌≡◌, ◌*◌, ◌^◌, ◌<◌, ◌≤◌, pos, ◌*ℤ◌, unsigned_abs};
ghost use Rattle.ec_fx.specs.Rounding.{trunc, IsWithinUnit};

/// The whole part of `num / den`: rounds toward zero.
pub fn round(num: i128, den: u128) -> i128
    requires positive { 0 < den }
    requires small { den ≤ 2 ^ 100 }
    ensures value { result ≡ trunc num den }
    ensures unit { IsWithinUnit (record { numerator = num; denominator = den }) result }
{
    num / den as i128
}

/// `n * 2^count`
pub(crate) fn shifted_left(n: i128, count: u8) -> i128
    requires count_in { count ≤ 64 }
    requires fits { unsigned_abs n * 2 ^ count < 2 ^ 127 }
    ensures { result ≡ n *ℤ pos (2 ^ count) }
{
    n * (1i128 << count)
}

/// `n / 2^count`, rounded toward zero.
pub(crate) fn shifted_right(n: i128, count: u8) -> i128
    requires count_in { count ≤ 64 }
    requires fits { unsigned_abs n < 2 ^ 127 }
    ensures { result ≡ trunc n (2 ^ count) }
{
    let magnitude = (n.unsigned_abs() >> count) as i128;
    if n < 0 { -magnitude } else { magnitude }
}
