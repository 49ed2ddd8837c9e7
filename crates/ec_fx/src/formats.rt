//! The twelve fixed-point kinds and their formats.
ghost use Rattle.std.specs.Prelude.{◌≡◌, ◌≤◌, true, false};
ghost use Rattle.ec_fx.specs.Formats.{format_of, is_fract, rank_of, higher, IsFormat};
ghost use Rattle.ec_fx.specs.Ranges.{least, greatest};

/// The kinds of fixed-point type, each of which also exists with `_Sat` (ISO/IEC TR 18037, 4.1.1).
#[derive(Clone, Copy, Debug, PartialEq, Eq)]
pub enum FxKind {
    /// `short _Fract`, s.7
    ShortFract,
    /// `_Fract`, s.15
    Fract,
    /// `long _Fract`, s.31
    LongFract,
    /// `short _Accum`, s8.7
    ShortAccum,
    /// `_Accum`, s16.15
    Accum,
    /// `long _Accum`, s32.31
    LongAccum,
    /// `unsigned short _Fract`, .8
    UnsignedShortFract,
    /// `unsigned _Fract`, .16
    UnsignedFract,
    /// `unsigned long _Fract`, .32
    UnsignedLongFract,
    /// `unsigned short _Accum`, 8.8
    UnsignedShortAccum,
    /// `unsigned _Accum`, 16.16
    UnsignedAccum,
    /// `unsigned long _Accum`, 32.32
    UnsignedLongAccum,
}

impl FxKind {
    /// The format of the values of this kind.
    pub fn format(self) -> Format
        ensures value { result ≡ format_of self }
        ensures known { IsFormat result }
    {
        match self {
            FxKind::ShortFract => Format::signed(8, 7),
            FxKind::Fract => Format::signed(16, 15),
            FxKind::LongFract => Format::signed(32, 31),
            FxKind::ShortAccum => Format::signed(16, 7),
            FxKind::Accum => Format::signed(32, 15),
            FxKind::LongAccum => Format::signed(64, 31),
            FxKind::UnsignedShortFract => Format::unsigned(8, 8),
            FxKind::UnsignedFract => Format::unsigned(16, 16),
            FxKind::UnsignedLongFract => Format::unsigned(32, 32),
            FxKind::UnsignedShortAccum => Format::unsigned(16, 8),
            FxKind::UnsignedAccum => Format::unsigned(32, 16),
            FxKind::UnsignedLongAccum => Format::unsigned(64, 32),
        }
    }
}

/// How the values of a fixed-point type are kept: two's complement or unsigned numbers of `bits`
/// bits, of which the lowest `frac` stand behind the binary point.
#[derive(Clone, Copy, Debug, PartialEq, Eq)]
pub struct Format {
    pub signed: bool,
    pub bits: u8,
    pub frac: u8,
}

impl Format {
    fn signed(bits: u8, frac: u8) -> Format
        ensures { result ≡ record { signed = true; bits = bits; frac = frac } }
    {
        Format {
            signed: true,
            bits,
            frac,
        }
    }

    fn unsigned(bits: u8, frac: u8) -> Format
        ensures { result ≡ record { signed = false; bits = bits; frac = frac } }
    {
        Format {
            signed: false,
            bits,
            frac,
        }
    }

    /// The kind of the values of this format, the inverse of `FxKind::format`.
    pub fn kind(self) -> FxKind
        requires { IsFormat self }
        ensures { format_of result ≡ self }
    {
        match (self.signed, self.bits, self.frac) {
            (true, 8, _) => FxKind::ShortFract,
            (true, 16, 15) => FxKind::Fract,
            (true, 16, _) => FxKind::ShortAccum,
            (true, 32, 31) => FxKind::LongFract,
            (true, 32, _) => FxKind::Accum,
            (true, _, _) => FxKind::LongAccum,
            (false, 8, _) => FxKind::UnsignedShortFract,
            (false, 16, 16) => FxKind::UnsignedFract,
            (false, 16, _) => FxKind::UnsignedShortAccum,
            (false, 32, 32) => FxKind::UnsignedLongFract,
            (false, 32, _) => FxKind::UnsignedAccum,
            (false, _, _) => FxKind::UnsignedLongAccum,
        }
    }

    /// Whether all bits but a sign stand behind the point, as in the `_Fract` kinds.
    pub fn is_fract(self) -> bool
        requires { IsFormat self }
        ensures { result ≡ is_fract self }
    {
        self.bits == self.frac + if self.signed { 1 } else { 0 }
    }

    fn rank(self) -> u8
        requires { IsFormat self }
        ensures { result ≡ rank_of self }
    {
        if self.is_fract() {
            self.bits
        } else {
            64 + self.bits
        }
    }

    /// The result format of two operands of one signedness: the later one in the order
    /// `short _Fract`, `_Fract`, `long _Fract`, `short _Accum`, `_Accum`, `long _Accum`.
    pub fn higher(self, other: Format) -> Format
        requires self_known { IsFormat self }
        requires other_known { IsFormat other }
        ensures { result ≡ higher self other }
    {
        if self.rank() < other.rank() {
            other
        } else {
            self
        }
    }

    /// The least number of the format.
    pub fn least(self) -> i128
        requires { IsFormat self }
        ensures { result ≡ least self.signed self.bits }
    {
        least_number(self.signed, self.bits)
    }

    /// The greatest number of the format.
    pub fn greatest(self) -> i128
        requires { IsFormat self }
        ensures { result ≡ greatest self.signed self.bits }
    {
        greatest_number(self.signed, self.bits)
    }
}

/// The least number of `bits` bits, 1 to 64, in two's complement or unsigned.
pub fn least_number(signed: bool, bits: u8) -> i128
    requires some { 1 ≤ bits }
    requires most { bits ≤ 64 }
    ensures { result ≡ least signed bits }
{
    if signed { -(1i128 << (bits - 1)) } else { 0 }
}

/// The greatest number of `bits` bits, 1 to 64, in two's complement or unsigned.
pub fn greatest_number(signed: bool, bits: u8) -> i128
    requires some { 1 ≤ bits }
    requires most { bits ≤ 64 }
    ensures { result ≡ greatest signed bits }
{
    if signed {
        (1i128 << (bits - 1)) - 1
    } else {
        (1i128 << bits) - 1
    }
}
