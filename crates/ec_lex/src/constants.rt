//! Integer constants (ISO/IEC 9899:1999, 6.4.4.1) and fixed-point constants (ISO/IEC TR 18037:2008).
ghost use Rattle.std.specs.Prelude.{true, ◌≡◌, ◌==◌, ◌^◌, ◌<◌, ◌≤◌, length, map, option_map};
ghost use Rattle.std.specs.Cmp.Lexicographic.{pointwise};
ghost use Rattle.std.specs.Char.{to_ascii_lowercase};
ghost use Rattle.ec_grammar.specs.Tokens.{view_kind, whole};
ghost use Rattle.ec_lex.specs.Bytes.{digit_value};
ghost use Rattle.ec_lex.specs.Constants.{value_from, suffix_value, integer_suffixes, fixed_suffixes, types_tried};
ghost use Rattle.ec_lex.specs.Constants.{first_holding};
ghost use Rattle.ec_lex.specs.Reading.{below, whole_of, fixed_of, integer_of, constant_of, integer_suffix};
ghost use Rattle.ec_lex.specs.Reading.{fixed_suffix};
ghost use Rattle.ec_lex.specs.Views.{view_constant, view_type};

use crate::bytes::{digits_len, hexadecimal_len, is_digit, octal_len};
use ec_fx::{Fx, FxKind};
use ec_grammar::TokenKind;

/// A constant without its place.
#[derive(Clone, Copy)]
pub enum Constant {
    Whole { value: u32, signed: bool, bytes: u8 },
    Fixed { kind: FxKind, n: i128 },
}

impl Constant {
    /// The constant as a token.
    pub fn token(self) -> TokenKind
        ensures { view_kind result ≡ view_constant self }
    {
        match self {
            Constant::Whole {
                value,
                signed,
                bytes,
            } => TokenKind::Whole {
                value,
                signed,
                bytes,
            },
            Constant::Fixed { kind, n } => TokenKind::FixedConst { kind, n },
        }
    }
}

/// A character constant has type int.
pub fn character_constant(value: u8) -> Constant
    ensures { view_constant result ≡ whole value true 2 }
{
    Constant::Whole {
        value: value as u32,
        signed: true,
        bytes: 2,
    }
}

/// What the suffix of an integer constant says.
#[derive(Clone, Copy)]
pub struct Suffix {
    pub unsigned: bool,
    pub long: bool,
}

#[derive(Clone, Copy)]
pub struct IntegerType {
    pub signed: bool,
    pub bytes: u8,
}

static INTEGER_SUFFIXES: [(&[u8], Suffix); 5] = [
    (
        b"",
        Suffix {
            unsigned: false,
            long: false,
        },
    ),
    (
        b"u",
        Suffix {
            unsigned: true,
            long: false,
        },
    ),
    (
        b"l",
        Suffix {
            unsigned: false,
            long: true,
        },
    ),
    (
        b"ul",
        Suffix {
            unsigned: true,
            long: true,
        },
    ),
    (
        b"lu",
        Suffix {
            unsigned: true,
            long: true,
        },
    ),
];

static FIXED_SUFFIXES: [(&[u8], FxKind); 12] = [
    (b"hr", FxKind::ShortFract),
    (b"r", FxKind::Fract),
    (b"lr", FxKind::LongFract),
    (b"hk", FxKind::ShortAccum),
    (b"k", FxKind::Accum),
    (b"lk", FxKind::LongAccum),
    (b"uhr", FxKind::UnsignedShortFract),
    (b"ur", FxKind::UnsignedFract),
    (b"ulr", FxKind::UnsignedLongFract),
    (b"uhk", FxKind::UnsignedShortAccum),
    (b"uk", FxKind::UnsignedAccum),
    (b"ulk", FxKind::UnsignedLongAccum),
];

/// The digits of a fixed-point constant make a number below this one.
const DIGITS_LIMIT: u128 = 1_000_000_000_000_000_000_000_000;

fn is_in_either_case(bytes: &[u8], letters: &[u8]) -> bool
    ensures { result ≡ pointwise (λ a b. to_ascii_lowercase a == b) bytes.now letters.now }
{
    if bytes.len() != letters.len() {
        return false;
    }
    for i in 0..bytes.len() {
        if bytes[i].to_ascii_lowercase() != letters[i] {
            return false;
        }
    }
    true
}

fn suffix_value<K: Copy>(bytes: &[u8], table: &[(&[u8], K)]) -> Option<K>
    ensures { result ≡ suffix_value bytes.now (map (λ x. (x.0.now, x.1)) table.now) }
{
    for (letters, value) in table {
        if is_in_either_case(bytes, *letters) {
            return Some(*value);
        }
    }
    None
}

#[tactic(auto, unfolding(crate::specs::Reading::integer_suffix))]
fn integer_suffix(bytes: &[u8]) -> Option<Suffix>
    ensures { result ≡ integer_suffix bytes.now }
{
    suffix_value(bytes, &INTEGER_SUFFIXES)
}

#[tactic(auto, unfolding(crate::specs::Reading::fixed_suffix))]
fn fixed_suffix(bytes: &[u8]) -> Option<FxKind>
    ensures { result ≡ fixed_suffix bytes.now }
{
    suffix_value(bytes, &FIXED_SUFFIXES)
}

fn digit_value(digit: u8) -> u8
    ensures { result ≡ digit_value digit }
{
    if digit <= b'9' {
        digit.saturating_sub(b'0')
    } else if digit <= b'F' {
        digit - 55
    } else {
        digit.saturating_sub(87)
    }
}

/// The number of these digits behind the number `start`, where it is below the limit.
fn number(start: u128, base: u8, limit: u128, digits: &[u8]) -> Option<u128>
    requires some { 1 ≤ base }
    requires most { base ≤ 16 }
    requires limit_most { limit ≤ 10 ^ 24 }
    requires start_below { start < limit }
    ensures { result ≡ below limit (value_from base start digits.now) }
{
    let mut value = start;
    for digit in digits {
        value = value * base as u128 + digit_value(*digit) as u128;
        if value >= limit {
            return None;
        }
    }
    Some(value)
}

fn integer_type(value: u32, decimal: bool, suffix: Suffix) -> Option<IntegerType>
    ensures { option_map view_type result ≡ first_holding value (types_tried decimal suffix.unsigned suffix.long) }
{
    if !suffix.unsigned && !suffix.long && value <= 0x7FFF {
        return Some(IntegerType {
            signed: true,
            bytes: 2,
        });
    }
    if (suffix.unsigned || !decimal) && !suffix.long && value <= 0xFFFF {
        return Some(IntegerType {
            signed: false,
            bytes: 2,
        });
    }
    if !suffix.unsigned && value <= 0x7FFF_FFFF {
        return Some(IntegerType {
            signed: true,
            bytes: 4,
        });
    }
    if suffix.unsigned || !decimal {
        return Some(IntegerType {
            signed: false,
            bytes: 4,
        });
    }
    None
}

/// The constant whose first `len` bytes are digits of the base.
#[tactic(auto, unfolding(crate::specs::Reading::whole_of))]
fn whole(base: u8, len: usize, bytes: &[u8]) -> Option<Constant>
    requires some { 1 ≤ base }
    requires most { base ≤ 16 }
    requires within { len ≤ length bytes.now }
    ensures { option_map view_constant result ≡ whole_of base len bytes.now }
{
    let suffix = integer_suffix(&bytes[len..])?;
    let value = number(0, base, 1 << 32, &bytes[..len])? as u32;
    let ty = integer_type(value, base == 10, suffix)?;
    Some(Constant::Whole {
        value,
        signed: ty.signed,
        bytes: ty.bytes,
    })
}

#[tactic(auto, unfolding(crate::specs::Reading::integer_of))]
fn integer(run: &[u8]) -> Option<Constant>
    ensures { option_map view_constant result ≡ integer_of run.now }
{
    match run {
        [b'0', b'x' | b'X', digits @ ..] => {
            let len = hexadecimal_len(digits);
            if len == 0 {
                None
            } else {
                whole(16, len, digits)
            }
        }
        [b'0', digits @ ..] => whole(8, octal_len(digits), digits),
        [first, ..] if is_digit(*first) => whole(10, digits_len(run), run),
        _ => None,
    }
}

/// The fixed-point constant of the digits before the point and what follows the point.
#[tactic(auto, unfolding(crate::specs::Reading::fixed_of))]
fn fixed(before: &[u8], more: &[u8]) -> Option<Constant>
    ensures { option_map view_constant result ≡ fixed_of before.now more.now }
{
    let len = digits_len(more);
    if before.is_empty() && len == 0 {
        return None;
    }
    if before.len() > 24 || len > 24 - before.len() {
        return None;
    }
    let kind = fixed_suffix(&more[len..])?;
    let whole_part = number(0, 10, DIGITS_LIMIT, before)?;
    let digits = number(whole_part, 10, DIGITS_LIMIT, &more[..len])?;
    match ec_fx::constant(digits, len as u8, kind.format()) {
        Fx::Got(x) => Some(Constant::Fixed { kind, n: x.n }),
        _ => None,
    }
}

/// The constant that a run of bytes is, or None where it is none or no type holds its value.
#[tactic(auto, unfolding(crate::specs::Reading::constant_of))]
pub fn read_constant(run: &[u8]) -> Option<Constant>
    ensures { option_map view_constant result ≡ constant_of run.now }
{
    let len = digits_len(run);
    match &run[len..] {
        [b'.', more @ ..] => fixed(&run[..len], more),
        _ => integer(run),
    }
}
