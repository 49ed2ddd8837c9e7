//! Operands and results.
ghost use Rattle.std.specs.Prelude.{◌≡◌, ◌-◌, ◌^◌, ◌≤◌, pos, ◌*ℤ◌, unsigned_abs};
ghost use Rattle.ec_fx.specs.Numbers.{scaled, fraction_bits, IsNumber};
ghost use Rattle.ec_fx.specs.Results.{clamped, fit, HasFormat};
ghost use Rattle.ec_fx.specs.Formats.{IsFormat};

use crate::formats::Format;
use crate::rounding::shifted_left;

/// A fixed-point value: it stands for `n / 2^format.frac`, and `n` is in the format's range.
#[derive(Clone, Copy, Debug, PartialEq, Eq)]
pub struct Fixed {
    pub format: Format,
    pub n: i128,
}

/// An operand.
#[derive(Clone, Copy, Debug, PartialEq, Eq)]
pub enum Num {
    /// A whole number from -2^31 to 2^32 - 1.
    Whole(i64),
    /// A fixed-point value.
    Fixed(Fixed),
}

/// What stands where a result is out of range: the nearer end of the range, or overflow.
#[derive(Clone, Copy, Debug, PartialEq, Eq)]
pub struct Mode {
    pub saturate: bool,
}

/// The result of an operation.
#[derive(Clone, Copy, Debug, PartialEq, Eq)]
pub enum Fx {
    /// The value.
    Got(Fixed),
    /// The rounded result is out of range, and the mode does not saturate.
    Overflow,
    /// The divisor is 0.
    ZeroDivisor,
}

impl Num {
    /// The number without its binary point.
    pub(crate) fn scaled(self) -> i128
        ensures { result ≡ scaled self }
    {
        match self {
            Num::Whole(n) => n as i128,
            Num::Fixed(x) => x.n,
        }
    }

    /// How many bits of `scaled` stand behind the binary point.
    pub(crate) fn fraction_bits(self) -> u8
        ensures { result ≡ fraction_bits self }
    {
        match self {
            Num::Whole(_) => 0,
            Num::Fixed(x) => x.format.frac,
        }
    }

    /// The number with `frac` bits behind the binary point, as many as it has or more.
    pub(crate) fn aligned(self, frac: u8) -> i128
        requires self_in { IsNumber self }
        requires enough { fraction_bits self ≤ frac }
        requires most { frac ≤ 32 }
        ensures value { result ≡ scaled self *ℤ pos (2 ^ (frac - fraction_bits self)) }
        ensures bound { unsigned_abs result ≤ 2 ^ 96 }
    {
        shifted_left(self.scaled(), frac - self.fraction_bits())
    }
}

impl Mode {
    /// The number as a value of the format, or what stands for it where it is out of range.
    pub(crate) fn fit(self, to: Format, n: i128) -> Fx
        requires { IsFormat to }
        ensures value { result ≡ fit to self n }
        ensures format { HasFormat to result }
    {
        let least = to.least();
        let greatest = to.greatest();
        if n > greatest {
            return self.clamped(to, greatest);
        }
        if n < least {
            return self.clamped(to, least);
        }
        Fx::Got(Fixed { format: to, n })
    }

    fn clamped(self, to: Format, end: i128) -> Fx
        ensures { result ≡ clamped to self end }
    {
        if self.saturate {
            Fx::Got(Fixed { format: to, n: end })
        } else {
            Fx::Overflow
        }
    }
}
