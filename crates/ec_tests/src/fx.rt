//! Expected values are worked out with whole fractions, apart from this library: `Fits` is the
//! number in either mode, and `Clamps` the end of the range where an operation overflows.
ghost use Rattle.std.specs.Prelude.{◌≡◌};
ghost use Rattle.ec_fx.specs.Arithmetic.{IsOneByte, IsResultFormat};
ghost use Rattle.ec_fx.specs.Formats.{IsFormat};
ghost use Rattle.ec_fx.specs.Numbers.{IsFixed, IsNumber};

use Want::{Clamps, Fits};
use ec_fx::*;
use std::cmp::Ordering;
use std::process::Abort;

const PLAIN: Mode = Mode { saturate: false };

const SATURATING: Mode = Mode { saturate: true };

// Operands are named as the suffixes of constants name their kinds, and whole numbers `INT`.
const HR: Option<FxKind> = Some(FxKind::ShortFract);

const R: Option<FxKind> = Some(FxKind::Fract);

const LR: Option<FxKind> = Some(FxKind::LongFract);

const HK: Option<FxKind> = Some(FxKind::ShortAccum);

const K: Option<FxKind> = Some(FxKind::Accum);

const LK: Option<FxKind> = Some(FxKind::LongAccum);

const UHR: Option<FxKind> = Some(FxKind::UnsignedShortFract);

const UR: Option<FxKind> = Some(FxKind::UnsignedFract);

const ULR: Option<FxKind> = Some(FxKind::UnsignedLongFract);

const UHK: Option<FxKind> = Some(FxKind::UnsignedShortAccum);

const UK: Option<FxKind> = Some(FxKind::UnsignedAccum);

const ULK: Option<FxKind> = Some(FxKind::UnsignedLongAccum);

const INT: Option<FxKind> = None;

/// A kind and a number, or `INT` and a whole number.
type Operand = (Option<FxKind>, i128);

#[derive(Clone, Copy, Debug)]
enum Want {
    Fits(i128),
    Clamps(i128),
}

fn check(rt: &impl Abort, to: Format, want: Want, plain: Fx, saturating: Fx) {
    let (n, fits) = match want {
        Fits(n) => (n, true),
        Clamps(n) => (n, false),
    };
    let got = Fx::Got(Fixed { format: to, n });
    let wanted = if fits { got } else { Fx::Overflow };
    assert!(rt; saturating == got && plain == wanted, "{want:?}");
}

fn format(rt: &impl Abort, kind: Option<FxKind>) -> Format
    ensures { IsFormat result }
{
    kind.expect(rt, "a fixed kind").format()
}

fn fixed(rt: &impl Abort, kind: Option<FxKind>, n: i128) -> Fixed
    ensures { IsFixed result }
{
    let format = format(rt, kind);
    assert!(rt; n >= format.least());
    assert!(rt; n <= format.greatest());
    Fixed { format, n }
}

fn number(rt: &impl Abort, operand: Operand) -> Num
    ensures { IsNumber result }
{
    let (kind, n) = operand;
    if kind.is_some() {
        return Num::Fixed(fixed(rt, kind, n));
    }
    assert!(rt; n >= -2_147_483_648);
    assert!(rt; n <= 4_294_967_295);
    Num::Whole(n as i64)
}

fn result_format(rt: &impl Abort, a: Num, b: Num) -> Format
    requires a_in { IsNumber a }
    requires b_in { IsNumber b }
    ensures { IsResultFormat a b result }
{
    match (a, b) {
        (Num::Whole(_), Num::Whole(_)) => panic!(rt; "two whole numbers"),
        (Num::Whole(_), Num::Fixed(y)) => y.format,
        (Num::Fixed(x), Num::Whole(_)) => x.format,
        (Num::Fixed(x), Num::Fixed(y)) => {
            assert!(rt; x.format.signed == y.format.signed);
            x.format.higher(y.format)
        }
    }
}

fn check_byte(rt: &impl Abort, a: Num)
    ensures { IsOneByte a }
{
    match a {
        Num::Whole(n) => assert!(rt; n >= -128 && n <= 255),
        Num::Fixed(x) => assert!(rt; x.format.bits == 8),
    }
}

/// Two operands, their sum and their difference.
static SUMS: [(Operand, Operand, Want, Want); 17] = [
    ((HR, 127), (HR, 1), Clamps(127), Fits(126)),
    ((HR, -128), (HR, -128), Clamps(-128), Fits(0)),
    ((R, 32767), (HR, -128), Fits(-1), Clamps(32767)),
    ((LR, -2147483648), (HK, 32767), Fits(32639), Clamps(-32768)),
    ((LR, -1), (HK, 0), Fits(0), Fits(0)),
    ((INT, 4294967295), (HR, -1), Clamps(127), Clamps(127)),
    ((INT, -1), (HR, 1), Fits(-127), Clamps(-128)),
    (
        (LK, -9223372036854775808),
        (INT, -2147483648),
        Clamps(-9223372036854775808),
        Fits(-4611686018427387904),
    ),
    (
        (LK, 9223372036854775807),
        (INT, 4294967295),
        Clamps(9223372036854775807),
        Fits(2147483647),
    ),
    (
        (LK, -9223372036854775808),
        (LR, -1),
        Clamps(-9223372036854775808),
        Fits(-9223372036854775807),
    ),
    (
        (ULK, 18446744073709551615),
        (ULK, 18446744073709551615),
        Clamps(18446744073709551615),
        Fits(0),
    ),
    ((ULK, 0), (ULK, 1), Fits(1), Clamps(0)),
    (
        (ULK, 18446744073709551615),
        (INT, 4294967295),
        Clamps(18446744073709551615),
        Fits(4294967295),
    ),
    ((ULR, 4294967295), (UHK, 65535), Clamps(65535), Clamps(0)),
    ((UHR, 255), (INT, -1), Clamps(0), Clamps(255)),
    ((UK, 0), (INT, -2147483648), Clamps(0), Clamps(4294967295)),
    (
        (K, -2147483648),
        (LR, 2147483647),
        Fits(-2147450880),
        Clamps(-2147483648),
    ),
];

#[test]
fn sums_and_differences(rt: HostRuntime) {
    for &(a, b, sum, difference) in &SUMS {
        let (a, b) = (number(&rt, a), number(&rt, b));
        let to = result_format(&rt, a, b);
        check(
            &rt,
            to,
            sum,
            add(a, b, to, PLAIN),
            add(a, b, to, SATURATING),
        );
        check(
            &rt,
            to,
            difference,
            sub(a, b, to, PLAIN),
            sub(a, b, to, SATURATING),
        );
    }
}

/// Two operands of one byte and their product.
static PRODUCTS: [(Operand, Operand, Want); 12] = [
    ((HR, -128), (HR, -128), Clamps(127)),
    ((HR, -1), (HR, 1), Fits(0)),
    ((UHR, 255), (UHR, 255), Fits(254)),
    ((HR, 32), (INT, 3), Fits(96)),
    ((HR, -128), (INT, 255), Clamps(-128)),
    ((HR, 127), (INT, -128), Clamps(-128)),
    ((HR, -1), (INT, -1), Fits(1)),
    ((UHR, 1), (INT, -1), Clamps(0)),
    ((UHR, 255), (INT, 255), Clamps(255)),
    ((INT, -128), (HR, -127), Clamps(127)),
    ((HR, 127), (HR, -127), Fits(-126)),
    ((HR, -3), (HR, 43), Fits(-1)),
];

#[test]
fn products(rt: HostRuntime) {
    for &(a, b, product) in &PRODUCTS {
        let (a, b) = (number(&rt, a), number(&rt, b));
        let to = result_format(&rt, a, b);
        check_byte(&rt, a);
        check_byte(&rt, b);
        check(
            &rt,
            to,
            product,
            mul(a, b, to, PLAIN),
            mul(a, b, to, SATURATING),
        );
    }
}

/// Two operands and their quotient.
static QUOTIENTS: [(Operand, Operand, Want); 22] = [
    ((HK, -128), (HK, 384), Fits(-42)),
    ((HR, -128), (HR, -128), Clamps(127)),
    ((HR, -128), (HR, 1), Clamps(-128)),
    ((R, 16384), (R, 8192), Clamps(32767)),
    ((LR, -2147483648), (HK, 1), Fits(-16384)),
    ((LR, 2147483647), (HK, -32768), Fits(0)),
    ((HK, 1), (LR, -2147483648), Fits(-1)),
    ((HK, -32768), (LR, 2147483647), Fits(-32768)),
    ((INT, 4294967295), (LK, 1), Clamps(9223372036854775807)),
    (
        (INT, 4294967295),
        (LK, -9223372036854775808),
        Fits(-2147483647),
    ),
    ((INT, 1), (LK, 9223372036854775807), Fits(0)),
    (
        (LK, -9223372036854775808),
        (INT, -1),
        Clamps(9223372036854775807),
    ),
    (
        (LK, -9223372036854775808),
        (INT, 4294967295),
        Fits(-2147483648),
    ),
    (
        (ULK, 18446744073709551615),
        (ULK, 18446744073709551615),
        Fits(4294967296),
    ),
    (
        (ULK, 18446744073709551615),
        (ULK, 1),
        Clamps(18446744073709551615),
    ),
    ((ULK, 1), (ULK, 18446744073709551615), Fits(0)),
    ((ULK, 18446744073709551615), (INT, -1), Clamps(0)),
    ((ULK, 1), (INT, -2147483648), Fits(0)),
    ((UHR, 1), (ULK, 3), Fits(24019198012642645)),
    ((ULR, 4294967295), (UHR, 255), Clamps(4294967295)),
    ((K, -2147483648), (K, 3), Clamps(-2147483648)),
    ((HR, -127), (INT, 2), Fits(-63)),
];

#[test]
fn quotients(rt: HostRuntime) {
    for &(a, b, quotient) in &QUOTIENTS {
        let (a, b) = (number(&rt, a), number(&rt, b));
        let to = result_format(&rt, a, b);
        check(
            &rt,
            to,
            quotient,
            div(a, b, to, PLAIN),
            div(a, b, to, SATURATING),
        );
    }
}

#[test]
fn no_quotient_by_zero(rt: HostRuntime) {
    let one = number(&rt, (HK, 128));
    let zero = number(&rt, (INT, 0));
    let to = result_format(&rt, one, zero);
    assert!(rt; div(one, zero, to, SATURATING) == Fx::ZeroDivisor);
}

/// A number of a kind, the count, whether it is shifted left, and what comes of it.
static SHIFTS: [(Option<FxKind>, i128, u8, bool, Want); 14] = [
    (R, -16384, 1, false, Fits(-8192)),
    (HR, -1, 7, false, Fits(0)),
    (HR, -128, 7, false, Fits(-1)),
    (HR, 1, 7, true, Clamps(127)),
    (HR, -1, 7, true, Fits(-128)),
    (HR, 64, 1, true, Clamps(127)),
    (LK, -9223372036854775808, 63, false, Fits(-1)),
    (
        LK,
        -9223372036854775808,
        63,
        true,
        Clamps(-9223372036854775808),
    ),
    (
        LK,
        9223372036854775807,
        63,
        true,
        Clamps(9223372036854775807),
    ),
    (
        ULK,
        18446744073709551615,
        63,
        true,
        Clamps(18446744073709551615),
    ),
    (ULK, 18446744073709551615, 63, false, Fits(1)),
    (ULK, 1, 63, true, Fits(9223372036854775808)),
    (UHR, 255, 0, true, Fits(255)),
    (K, -3, 1, false, Fits(-1)),
];

#[test]
fn shifts(rt: HostRuntime) {
    for &(kind, n, count, left, shifted) in &SHIFTS {
        let a = fixed(&rt, kind, n);
        assert!(rt; count < a.format.bits);
        check(
            &rt,
            a.format,
            shifted,
            shift(a, count, left, PLAIN),
            shift(a, count, left, SATURATING),
        );
    }
}

/// A number of a kind and its negative.
static NEGATIONS: [(Option<FxKind>, i128, Want); 24] = [
    (HR, -128, Clamps(127)),
    (HR, 127, Fits(-127)),
    (R, -32768, Clamps(32767)),
    (R, 32767, Fits(-32767)),
    (LR, -2147483648, Clamps(2147483647)),
    (LR, 2147483647, Fits(-2147483647)),
    (HK, -32768, Clamps(32767)),
    (HK, 32767, Fits(-32767)),
    (K, -2147483648, Clamps(2147483647)),
    (K, 2147483647, Fits(-2147483647)),
    (LK, -9223372036854775808, Clamps(9223372036854775807)),
    (LK, 9223372036854775807, Fits(-9223372036854775807)),
    (UHR, 0, Fits(0)),
    (UHR, 255, Clamps(0)),
    (UR, 0, Fits(0)),
    (UR, 65535, Clamps(0)),
    (ULR, 0, Fits(0)),
    (ULR, 4294967295, Clamps(0)),
    (UHK, 0, Fits(0)),
    (UHK, 65535, Clamps(0)),
    (UK, 0, Fits(0)),
    (UK, 4294967295, Clamps(0)),
    (ULK, 0, Fits(0)),
    (ULK, 18446744073709551615, Clamps(0)),
];

#[test]
fn negations(rt: HostRuntime) {
    for &(kind, n, negated) in &NEGATIONS {
        let a = fixed(&rt, kind, n);
        check(&rt, a.format, negated, neg(a, PLAIN), neg(a, SATURATING));
    }
}

/// An operand, the kind to which it is converted, and what comes of it.
static CONVERSIONS: [(Operand, Option<FxKind>, Want); 17] = [
    ((LK, -9223372036854775808), HR, Clamps(-128)),
    ((LK, -1), HR, Fits(0)),
    ((ULK, 18446744073709551615), LK, Fits(9223372036854775807)),
    ((HR, -128), LK, Fits(-2147483648)),
    ((HR, -1), UHR, Clamps(0)),
    ((R, -255), HR, Fits(0)),
    ((R, -1), ULK, Clamps(0)),
    ((INT, 4294967295), ULK, Fits(18446744069414584320)),
    ((INT, 4294967295), LK, Fits(9223372034707292160)),
    ((INT, -2147483648), LK, Fits(-4611686018427387904)),
    ((INT, -2147483648), UHR, Clamps(0)),
    ((INT, 1), R, Clamps(32767)),
    ((INT, -1), R, Fits(-32768)),
    ((LR, 2147483647), HR, Fits(127)),
    ((UHK, 65535), HK, Fits(32767)),
    ((ULR, 4294967295), HR, Fits(127)),
    ((UR, 65535), LR, Fits(2147450880)),
];

#[test]
fn conversions(rt: HostRuntime) {
    for &(a, kind, converted) in &CONVERSIONS {
        let a = number(&rt, a);
        let to = format(&rt, kind);
        check(
            &rt,
            to,
            converted,
            convert(a, to, PLAIN),
            convert(a, to, SATURATING),
        );
    }
}

/// A number of a kind, an integer type by its sign and bits, and the integer.
static INTEGERS: [(Option<FxKind>, i128, bool, u8, Option<i64>); 23] = [
    (HK, -129, true, 8, Some(-1)),
    (HK, -32768, true, 8, None),
    (HK, -16511, true, 8, Some(-128)),
    (HK, -16512, true, 8, None),
    (HK, 16383, true, 8, Some(127)),
    (HK, 16384, true, 8, None),
    (HK, -127, false, 8, Some(0)),
    (HK, -128, false, 8, None),
    (LK, -9223372036854775808, true, 32, None),
    (LK, -4611686018427387905, true, 32, Some(-2147483648)),
    (LK, -4611686020574871552, true, 32, None),
    (LK, 9223372036854775807, true, 32, None),
    (LK, 9223372036854775807, false, 32, Some(4294967295)),
    (ULK, 18446744073709551615, false, 32, Some(4294967295)),
    (ULK, 18446744073709551615, true, 32, None),
    (ULK, 9223372036854775807, true, 32, Some(2147483647)),
    (K, 2147483647, true, 16, None),
    (K, 1073741823, true, 16, Some(32767)),
    (K, -1073774591, true, 16, Some(-32768)),
    (K, -1073774592, true, 16, None),
    (HR, -128, true, 8, Some(-1)),
    (ULR, 4294967295, false, 8, Some(0)),
    (UK, 4294967295, false, 16, Some(65535)),
];

#[test]
fn integers(rt: HostRuntime) {
    for &(kind, n, signed, bits, integer) in &INTEGERS {
        assert!(rt; bits == 8 || bits == 16 || bits == 32);
        assert!(rt;
            to_int(fixed(&rt, kind, n), signed, bits) == integer,
            "{n} in {bits} bits"
        );
    }
}

/// Two operands and how they compare.
static ORDERS: [(Operand, Operand, Ordering); 10] = [
    (
        (ULK, 18446744073709551615),
        (INT, 4294967295),
        Ordering::Greater,
    ),
    (
        (LK, -9223372036854775808),
        (INT, -2147483648),
        Ordering::Less,
    ),
    ((LK, -1), (UHR, 0), Ordering::Less),
    ((HR, 64), (ULR, 2147483648), Ordering::Equal),
    ((HR, -1), (LR, -16777216), Ordering::Equal),
    ((HR, -1), (LR, -16777215), Ordering::Less),
    (
        (ULK, 18446744073709551615),
        (LK, 9223372036854775807),
        Ordering::Greater,
    ),
    ((INT, -1), (HR, -128), Ordering::Equal),
    ((INT, 1), (ULR, 4294967295), Ordering::Greater),
    ((HK, -32768), (K, -8388608), Ordering::Equal),
];

#[test]
fn orders(rt: HostRuntime) {
    for &(a, b, order) in &ORDERS {
        let (a, b) = (number(&rt, a), number(&rt, b));
        assert!(rt; compare(a, b) == order);
    }
}

/// A kind, the digits of a constant and how many stand behind its point, and its number.
static CONSTANTS: [(Option<FxKind>, u128, u8, Option<i128>); 54] = [
    (HR, 1000000000, 9, Some(127)),
    (HR, 999999999, 9, Some(127)),
    (HR, 100000000000000000001, 20, None),
    (HR, 78125, 7, Some(1)),
    (HR, 78124, 7, Some(0)),
    (R, 1000000000, 9, Some(32767)),
    (R, 999999999, 9, Some(32767)),
    (R, 100000000000000000001, 20, None),
    (R, 30517578125, 15, Some(1)),
    (R, 30517578124, 15, Some(0)),
    (LR, 1000000000, 9, Some(2147483647)),
    (LR, 999999999, 9, Some(2147483645)),
    (LR, 100000000000000000001, 20, None),
    (LR, 465661287307740, 24, Some(1)),
    (LR, 465661287307739, 24, Some(0)),
    (HK, 256, 0, None),
    (HK, 255999999999999, 12, Some(32767)),
    (HK, 78125, 7, Some(1)),
    (HK, 78124, 7, Some(0)),
    (K, 65536, 0, None),
    (K, 65535999999999999, 12, Some(2147483647)),
    (K, 30517578125, 15, Some(1)),
    (K, 30517578124, 15, Some(0)),
    (LK, 4294967296, 0, None),
    (LK, 4294967295999999999999, 12, Some(9223372036854775807)),
    (LK, 465661287307740, 24, Some(1)),
    (LK, 465661287307739, 24, Some(0)),
    (UHR, 1000000000, 9, Some(255)),
    (UHR, 999999999, 9, Some(255)),
    (UHR, 100000000000000000001, 20, None),
    (UHR, 390625, 8, Some(1)),
    (UHR, 390624, 8, Some(0)),
    (UR, 1000000000, 9, Some(65535)),
    (UR, 999999999, 9, Some(65535)),
    (UR, 100000000000000000001, 20, None),
    (UR, 152587890625, 16, Some(1)),
    (UR, 152587890624, 16, Some(0)),
    (ULR, 1000000000, 9, Some(4294967295)),
    (ULR, 999999999, 9, Some(4294967291)),
    (ULR, 100000000000000000001, 20, None),
    (ULR, 232830643653870, 24, Some(1)),
    (ULR, 232830643653869, 24, Some(0)),
    (UHK, 256, 0, None),
    (UHK, 255999999999999, 12, Some(65535)),
    (UHK, 390625, 8, Some(1)),
    (UHK, 390624, 8, Some(0)),
    (UK, 65536, 0, None),
    (UK, 65535999999999999, 12, Some(4294967295)),
    (UK, 152587890625, 16, Some(1)),
    (UK, 152587890624, 16, Some(0)),
    (ULK, 4294967296, 0, None),
    (ULK, 4294967295999999999999, 12, Some(18446744073709551615)),
    (ULK, 232830643653870, 24, Some(1)),
    (ULK, 232830643653869, 24, Some(0)),
];

#[test]
fn constants_at_the_ends(rt: HostRuntime) {
    for &(kind, digits, places, n) in &CONSTANTS {
        assert!(rt; digits < 1_000_000_000_000_000_000_000_000);
        assert!(rt; places <= 24);
        let format = format(&rt, kind);
        let want = match n {
            Some(n) => Fx::Got(Fixed { format, n }),
            None => Fx::Overflow,
        };
        assert!(rt;
            constant(digits, places, format) == want,
            "{digits} {places}"
        );
        assert!(rt; Some(format.kind()) == kind);
    }
}

/// A numerator, a denominator and the whole part.
static ROUNDED: [(i128, u128, i128); 4] = [
    (7, 2, 3),
    (-7, 2, -3),
    (i128::MIN, 1, i128::MIN),
    (1, 1 << 100, 0),
];

#[test]
fn rounding_is_toward_zero(rt: HostRuntime) {
    for &(num, den, whole) in &ROUNDED {
        assert!(rt; den > 0 && den <= 1 << 100);
        assert!(rt; round(num, den) == whole, "{num}");
    }
}
