//! Arithmetic types, their promotions and their common types (ISO/IEC 9899:1999, 6.3.1; ISO/IEC TR 18037:2008, 4.1.4).
ghost use Rattle.std.specs.Prelude.{◌≡◌, option_map};
ghost use Rattle.ec_fx.specs.Formats.{format_of, rank_of};
ghost use Rattle.ec_core.specs.Plain.{plain_type};
ghost use Rattle.ec_core.specs.ArithmeticTypes.{arithmetic_of, type_of, promoted, common_integer, signed_kind};
ghost use Rattle.ec_core.specs.ArithmeticTypes.{higher_kind, common_fixed, common, result_type_of};
ghost use Rattle.ec_core.specs.Operators.{promoted_type, converted_beside};
ghost use Rattle.ec_core.specs.TypeLaws.{factor_beside};

use crate::types::CType;
use ec_fx::FxKind;

/// An integer type of 1, 2 or 4 bytes.
#[derive(Clone, Copy, Debug, PartialEq, Eq)]
pub struct IntegerType {
    pub signed: bool,
    pub bytes: u8,
}

/// A fixed-point type, `sat` where it has `_Sat`.
#[derive(Clone, Copy, Debug, PartialEq, Eq)]
pub struct FixedType {
    pub kind: FxKind,
    pub sat: bool,
}

/// A type of numbers.
#[derive(Clone, Copy, Debug, PartialEq, Eq)]
pub enum Arithmetic {
    Integer(IntegerType),
    Fixed(FixedType),
}

impl IntegerType {
    /// The type after the integer promotions: a type of one byte becomes `int`, which holds its values.
    pub fn promoted(self) -> IntegerType
        ensures { result ≡ promoted self }
    {
        if self.bytes < 2 {
            IntegerType {
                signed: true,
                bytes: 2,
            }
        } else {
            self
        }
    }

    /// The common type of two integer operands by the usual arithmetic conversions.
    pub fn common(self, other: IntegerType) -> IntegerType
        ensures { result ≡ common_integer self other }
    {
        let a = self.promoted();
        let b = other.promoted();
        if a.bytes < b.bytes {
            b
        } else if b.bytes < a.bytes {
            a
        } else {
            IntegerType {
                signed: a.signed && b.signed,
                bytes: a.bytes,
            }
        }
    }
}

/// The signed counterpart of a kind, which holds each value of the unsigned one but for its last bit.
pub fn signed_kind(kind: FxKind) -> FxKind
    ensures { result ≡ signed_kind kind }
{
    match kind {
        FxKind::ShortFract | FxKind::UnsignedShortFract => FxKind::ShortFract,
        FxKind::Fract | FxKind::UnsignedFract => FxKind::Fract,
        FxKind::LongFract | FxKind::UnsignedLongFract => FxKind::LongFract,
        FxKind::ShortAccum | FxKind::UnsignedShortAccum => FxKind::ShortAccum,
        FxKind::Accum | FxKind::UnsignedAccum => FxKind::Accum,
        FxKind::LongAccum | FxKind::UnsignedLongAccum => FxKind::LongAccum,
    }
}

fn rank(kind: FxKind) -> u8
    ensures { result ≡ rank_of (format_of kind) }
{
    let format = kind.format();
    if format.is_fract() {
        format.bits
    } else {
        64 + format.bits
    }
}

/// The later of two kinds of one signedness in the order `short _Fract`, `_Fract`, `long _Fract`,
/// `short _Accum`, `_Accum`, `long _Accum`.
fn higher_kind(a: FxKind, b: FxKind) -> FxKind
    ensures { result ≡ higher_kind a b }
{
    if rank(a) < rank(b) { b } else { a }
}

impl FixedType {
    /// The common type of two fixed-point operands. Where one is signed, so is their common type.
    pub fn common(self, other: FixedType) -> FixedType
        ensures { result ≡ common_fixed self other }
    {
        let kind = if self.kind.format().signed || other.kind.format().signed {
            higher_kind(signed_kind(self.kind), signed_kind(other.kind))
        } else {
            higher_kind(self.kind, other.kind)
        };
        FixedType {
            kind,
            sat: self.sat || other.sat,
        }
    }
}

impl Arithmetic {
    /// The type of an operation's result. An integer beside a fixed-point operand does not count.
    pub fn common(self, other: Arithmetic) -> Arithmetic
        ensures { result ≡ common self other }
    {
        match self {
            Arithmetic::Integer(a) => match other {
                Arithmetic::Integer(b) => Arithmetic::Integer(a.common(b)),
                Arithmetic::Fixed(b) => Arithmetic::Fixed(b),
            },
            Arithmetic::Fixed(a) => match other {
                Arithmetic::Integer(_) => Arithmetic::Fixed(a),
                Arithmetic::Fixed(b) => Arithmetic::Fixed(a.common(b)),
            },
        }
    }

    /// The type after the integer promotions, which leave a fixed-point type as it is.
    pub fn promoted(self) -> Arithmetic
        ensures { result ≡ promoted_type self }
    {
        match self {
            Arithmetic::Integer(a) => Arithmetic::Integer(a.promoted()),
            Arithmetic::Fixed(_) => self,
        }
    }

    /// The type that an operand of this type is brought to beside one of another type: beside an integer an integer
    /// becomes their common type, and beside a signed fixed-point type an unsigned one its signed counterpart.
    pub fn converted_beside(self, other: Arithmetic) -> Arithmetic
        ensures { result ≡ converted_beside self other }
    {
        match self {
            Arithmetic::Integer(a) => match other {
                Arithmetic::Integer(b) => Arithmetic::Integer(a.common(b)),
                Arithmetic::Fixed(_) => self,
            },
            Arithmetic::Fixed(a) => match other {
                Arithmetic::Integer(_) => self,
                Arithmetic::Fixed(b) => Arithmetic::Fixed(FixedType {
                    kind: if b.kind.format().signed {
                        signed_kind(a.kind)
                    } else {
                        a.kind
                    },
                    sat: a.sat,
                }),
            },
        }
    }

    /// The type that a factor is brought to beside another one: an integer stays as it is.
    pub fn factor_beside(self, other: Arithmetic) -> Arithmetic
        ensures { result ≡ factor_beside self other }
    {
        match self {
            Arithmetic::Integer(_) => self,
            Arithmetic::Fixed(_) => self.converted_beside(other),
        }
    }

    /// This type among all types.
    pub fn to_type(self) -> CType
        ensures { plain_type result ≡ type_of self }
    {
        match self {
            Arithmetic::Integer(IntegerType { signed, bytes }) => CType::Int { signed, bytes },
            Arithmetic::Fixed(FixedType { kind, sat }) => CType::Fx { kind, sat },
        }
    }
}

impl CType {
    /// The arithmetic type that this is, or None where it is none.
    pub fn arithmetic(&self) -> Option<Arithmetic>
        ensures { result ≡ arithmetic_of (plain_type self.now) }
    {
        match self {
            CType::Int { signed, bytes } => Some(Arithmetic::Integer(IntegerType {
                signed: *signed,
                bytes: *bytes,
            })),
            CType::Fx { kind, sat } => Some(Arithmetic::Fixed(FixedType {
                kind: *kind,
                sat: *sat,
            })),
            CType::Void | CType::Ptr { .. } | CType::Array { .. } | CType::Struct { .. } => None,
        }
    }
}

/// The type of the result of an arithmetic operation on operands of two types, or None exactly where
/// one of them is not arithmetic.
pub fn result_type(a: &CType, b: &CType) -> Option<CType>
    ensures { option_map plain_type result ≡ result_type_of (plain_type a.now) (plain_type b.now) }
{
    let left = a.arithmetic()?;
    let right = b.arithmetic()?;
    let common = left.common(right);
    Some(common.to_type())
}
