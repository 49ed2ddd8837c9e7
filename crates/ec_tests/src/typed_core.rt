//! Expected values are worked out by the rules of ISO C and of fixed-point arithmetic, apart from this library.
ghost use Rattle.std.specs.Prelude.{◌≡◌, IfOk};
ghost use Rattle.ec_fx.specs.Numbers.{IsNumber, IsWhole};
ghost use Rattle.ec_core.specs.ArithmeticValues.{IsKnownType};
ghost use Rattle.ec_core.specs.Integers.{IsInteger};

use ec_core::Undefined::{
    FixedOverflow, Narrowing, PointerRange, PointerUse, ShiftCount, Unrelated, WholePart,
    ZeroDivisor,
};
use ec_core::*;
use ec_fx::{Fixed, FxKind, Mode, Num};
use ec_space::{Home, NoMemory, Seq, SpaceId};
use std::alloc::Global;
use std::process::Abort;

const PLAIN: Mode = Mode { saturate: false };

const SATURATING: Mode = Mode { saturate: true };

const CHAR: IntegerType = IntegerType {
    signed: true,
    bytes: 1,
};

const UNSIGNED_CHAR: IntegerType = IntegerType {
    signed: false,
    bytes: 1,
};

const INT: IntegerType = IntegerType {
    signed: true,
    bytes: 2,
};

const UNSIGNED: IntegerType = IntegerType {
    signed: false,
    bytes: 2,
};

const LONG: IntegerType = IntegerType {
    signed: true,
    bytes: 4,
};

const UNSIGNED_LONG: IntegerType = IntegerType {
    signed: false,
    bytes: 4,
};

fn check_integer(rt: &impl Abort, t: IntegerType)
    ensures { IsInteger t }
{
    assert!(rt; t.bytes == 1 || t.bytes == 2 || t.bytes == 4);
}

fn check_whole(rt: &impl Abort, n: i128)
    ensures { IsWhole n }
{
    assert!(rt; n >= -2_147_483_648);
    assert!(rt; n <= 4_294_967_295);
}

/// An operator, its type, its operands and its value.
static OPERATORS: [(BinOp, IntegerType, i128, i128, Result<i128, Undefined>); 29] = [
    (BinOp::Add, UNSIGNED, 65535, 2, Ok(1)),
    (BinOp::Add, INT, 32767, 1, Ok(-32768)),
    (BinOp::Sub, UNSIGNED, 0, 1, Ok(65535)),
    (BinOp::Sub, LONG, -2147483648, 1, Ok(2147483647)),
    (BinOp::Mul, INT, -128, 255, Ok(-32640)),
    (BinOp::Mul, INT, 255, 255, Ok(-511)),
    (BinOp::Div, INT, -7, 2, Ok(-3)),
    (BinOp::Div, INT, 7, -2, Ok(-3)),
    (BinOp::Div, INT, -32768, -1, Ok(-32768)),
    (BinOp::Div, LONG, 1, 0, Err(ZeroDivisor)),
    (BinOp::Rem, INT, -7, 2, Ok(-1)),
    (BinOp::Rem, INT, 7, -2, Ok(1)),
    (BinOp::Rem, UNSIGNED_LONG, 7, 0, Err(ZeroDivisor)),
    (BinOp::Shl, INT, 1, 15, Ok(-32768)),
    (BinOp::Shl, INT, 3, 16, Err(ShiftCount)),
    (BinOp::Shl, LONG, 3, 16, Ok(196608)),
    (BinOp::Shl, INT, 3, -1, Err(ShiftCount)),
    (BinOp::Shr, INT, -7, 1, Ok(-4)),
    (BinOp::Shr, INT, -1, 15, Ok(-1)),
    (BinOp::Shr, UNSIGNED, 32768, 15, Ok(1)),
    (BinOp::Shr, UNSIGNED_LONG, 1, 32, Err(ShiftCount)),
    (BinOp::And, INT, -256, 4095, Ok(3840)),
    (BinOp::Or, INT, -32768, 1, Ok(-32767)),
    (BinOp::Xor, UNSIGNED, 65535, 255, Ok(65280)),
    (BinOp::Xor, INT, -1, 255, Ok(-256)),
    (BinOp::Lt, INT, -1, 1, Ok(1)),
    (BinOp::Lt, UNSIGNED, 65535, 1, Ok(0)),
    (BinOp::Ge, LONG, -5, -5, Ok(1)),
    (BinOp::Ne, INT, 4, 4, Ok(0)),
];

#[test]
fn integer_operators(rt: HostRuntime) {
    for &(op, t, a, b, want) in &OPERATORS {
        check_integer(&rt, t);
        check_whole(&rt, a);
        check_whole(&rt, b);
        assert!(rt; integer_operation(op, t, a, b) == want, "{a} and {b}");
    }
}

/// A type, a whole number and that number in the type.
static INTEGERS: [(IntegerType, i128, i128); 7] = [
    (UNSIGNED, -1, 65535),
    (CHAR, 200, -56),
    (CHAR, -129, 127),
    (UNSIGNED_CHAR, 511, 255),
    (INT, 32768, -32768),
    (LONG, 4294967295, -1),
    (UNSIGNED_LONG, -2147483648, 2147483648),
];

#[test]
fn integer_conversions(rt: HostRuntime) {
    for &(t, n, want) in &INTEGERS {
        check_integer(&rt, t);
        assert!(rt; t.wrapped(n) == want, "{n}");
        let n = number(&rt, WHOLE, n);
        assert!(rt; arithmetic_conversion(Arithmetic::Integer(t), PLAIN, n) == Ok(want));
    }
}

/// A number of a fixed-point type, or a whole number.
fn number(rt: &impl Abort, kind: Option<FxKind>, n: i128) -> Num
    ensures { IsNumber result }
{
    match kind {
        Some(kind) => {
            let format = kind.format();
            assert!(rt; n >= format.least());
            assert!(rt; n <= format.greatest());
            Num::Fixed(Fixed { format, n })
        }
        None => {
            check_whole(rt, n);
            Num::Whole(n as i64)
        }
    }
}

const SHORT_ACCUM: Arithmetic = Arithmetic::Fixed(FixedType {
    kind: FxKind::ShortAccum,
    sat: false,
});

const SHORT_FRACT: Arithmetic = Arithmetic::Fixed(FixedType {
    kind: FxKind::ShortFract,
    sat: false,
});

const UNSIGNED_ACCUM: Arithmetic = Arithmetic::Fixed(FixedType {
    kind: FxKind::UnsignedAccum,
    sat: false,
});

const UNSIGNED_SHORT_FRACT: Arithmetic = Arithmetic::Fixed(FixedType {
    kind: FxKind::UnsignedShortFract,
    sat: false,
});

const FRACT: Arithmetic = Arithmetic::Fixed(FixedType {
    kind: FxKind::Fract,
    sat: false,
});

const LONG_FRACT: Arithmetic = Arithmetic::Fixed(FixedType {
    kind: FxKind::LongFract,
    sat: false,
});

const ACCUM: Arithmetic = Arithmetic::Fixed(FixedType {
    kind: FxKind::Accum,
    sat: false,
});

const UNSIGNED_LONG_FRACT: Arithmetic = Arithmetic::Fixed(FixedType {
    kind: FxKind::UnsignedLongFract,
    sat: false,
});

const UNSIGNED_SHORT_ACCUM: Arithmetic = Arithmetic::Fixed(FixedType {
    kind: FxKind::UnsignedShortAccum,
    sat: false,
});

const HR: Option<FxKind> = Some(FxKind::ShortFract);

const UHR: Option<FxKind> = Some(FxKind::UnsignedShortFract);

const HK: Option<FxKind> = Some(FxKind::ShortAccum);

const WHOLE: Option<FxKind> = None;

/// A number of a kind, a type, and what it is there, also where it saturates.
static CONVERSIONS: [(
    Option<FxKind>,
    i128,
    Arithmetic,
    Result<i128, Undefined>,
    Result<i128, Undefined>,
); 9] = [
    (HR, 96, SHORT_ACCUM, Ok(96), Ok(96)),
    (HK, 12288, Arithmetic::Integer(INT), Ok(96), Ok(96)),
    (HK, -42 * 128, Arithmetic::Integer(INT), Ok(-42), Ok(-42)),
    (HK, -300, Arithmetic::Integer(CHAR), Ok(-2), Ok(-2)),
    (
        HK,
        25600,
        Arithmetic::Integer(CHAR),
        Err(WholePart),
        Err(WholePart),
    ),
    (HK, -1, Arithmetic::Integer(UNSIGNED), Ok(0), Ok(0)),
    (HK, 128, SHORT_FRACT, Err(FixedOverflow), Ok(127)),
    (WHOLE, -3, UNSIGNED_ACCUM, Err(FixedOverflow), Ok(0)),
    (UHR, 255, SHORT_FRACT, Ok(127), Ok(127)),
];

#[test]
fn fixed_conversions(rt: HostRuntime) {
    for &(kind, n, to, plain, saturating) in &CONVERSIONS {
        let a = number(&rt, kind, n);
        check_known(&rt, to);
        assert!(rt; arithmetic_conversion(to, PLAIN, a) == plain, "{n}");
        assert!(rt;
            arithmetic_conversion(to, SATURATING, a) == saturating,
            "{n}"
        );
    }
}

fn check_known(rt: &impl Abort, ty: Arithmetic)
    ensures { IsKnownType ty }
{
    match ty {
        Arithmetic::Integer(t) => check_integer(rt, t),
        Arithmetic::Fixed(_) => {}
    }
}

fn boxed(alloc: Global, ty: CType) -> Result<Box<CType>, NoMemory>
    ensures { IfOk result (λ b. b.value ≡ ty) }
{
    match Box::new(alloc, ty) {
        Ok(b) => Ok(b),
        Err(_) => Err(NoMemory),
    }
}

/// The size of an array of three longs, and the number of its leaves that are where longs are.
fn array_of_longs(alloc: Global) -> Result<(u32, usize), NoMemory> {
    let structs = Seq::new(alloc);
    let of = boxed(alloc, Arithmetic::Integer(LONG).to_type())?;
    let ty = CType::Array { of, len: 3 };
    let size = size_of(&structs, &ty);
    let leaves = leaves(alloc, &structs, &ty)?;
    let count = leaves
        .as_slice()
        .iter()
        .filter(|leaf| leaf.at % 4 == 0)
        .count();
    Ok((size, count))
}

#[test]
fn array_leaves(rt: HostRuntime) {
    assert!(rt; matches!(array_of_longs(rt.alloc()), Ok((12, 3))));
}

/// Two types and that in which their values are added.
static COMMON: [(Arithmetic, Arithmetic, Arithmetic); 9] = [
    (
        Arithmetic::Integer(CHAR),
        Arithmetic::Integer(UNSIGNED_CHAR),
        Arithmetic::Integer(INT),
    ),
    (
        Arithmetic::Integer(INT),
        Arithmetic::Integer(UNSIGNED),
        Arithmetic::Integer(UNSIGNED),
    ),
    (
        Arithmetic::Integer(UNSIGNED_CHAR),
        Arithmetic::Integer(UNSIGNED),
        Arithmetic::Integer(UNSIGNED),
    ),
    (
        Arithmetic::Integer(UNSIGNED),
        Arithmetic::Integer(LONG),
        Arithmetic::Integer(LONG),
    ),
    (
        Arithmetic::Integer(UNSIGNED_LONG),
        Arithmetic::Integer(LONG),
        Arithmetic::Integer(UNSIGNED_LONG),
    ),
    (Arithmetic::Integer(UNSIGNED_LONG), SHORT_FRACT, SHORT_FRACT),
    (UNSIGNED_SHORT_FRACT, FRACT, FRACT),
    (UNSIGNED_ACCUM, LONG_FRACT, ACCUM),
    (
        UNSIGNED_LONG_FRACT,
        UNSIGNED_SHORT_ACCUM,
        UNSIGNED_SHORT_ACCUM,
    ),
];

/// Whether a type of numbers is the common type of two types.
fn is_common(a: &CType, b: &CType, want: Arithmetic) -> bool {
    match result_type(a, b) {
        Some(ty) => ty.arithmetic() == Some(want),
        None => false,
    }
}

/// Whether two types have a common type.
fn have_common(a: &CType, b: &CType) -> bool {
    result_type(a, b).is_some()
}

#[test]
fn result_types(rt: HostRuntime) {
    for &(a, b, want) in &COMMON {
        assert!(rt; is_common(&a.to_type(), &b.to_type(), want));
    }
    assert!(rt; !have_common(&CType::Void, &Arithmetic::Integer(INT).to_type()));
    assert!(rt;
        !have_common(
            &Arithmetic::Integer(INT).to_type(),
            &CType::Struct { index: 0 }
        )
    );
}

/// A pointer to an int, or to a const int.
fn pointer(alloc: Global, space: SpaceId, konst: bool) -> Result<CType, NoMemory> {
    let to = boxed(alloc, Arithmetic::Integer(INT).to_type())?;
    Ok(CType::Ptr { space, konst, to })
}

/// Whether a type is that of such a pointer.
fn is_pointer(alloc: Global, ty: &CType, space: SpaceId, konst: bool) -> Result<bool, NoMemory> {
    let other = pointer(alloc, space, konst)?;
    Ok(ty.is_same(&other))
}

fn is_copied(alloc: Global, ty: &CType) -> Result<bool, NoMemory> {
    let copy = ty.copied(alloc)?;
    Ok(ty.is_same(&copy))
}

fn is_int(ty: &CType) -> bool {
    ty.is_same(&Arithmetic::Integer(INT).to_type())
}

/// Whether a generic pointer to an int that is not const is told from other types.
fn is_told_apart(alloc: Global, p: &CType) -> Result<bool, NoMemory> {
    Ok(
        is_copied(alloc, p)?
            && !is_pointer(alloc, p, SpaceId::Generic, true)?
            && !is_pointer(alloc, p, SpaceId::Data, false)?
            && !is_int(p),
    )
}

/// Whether a type points to an int.
fn points_to_int(ty: &CType) -> bool {
    match ty.pointee() {
        Some(to) => is_int(to),
        None => false,
    }
}

/// Whether a pointer is told apart, and points to an int.
fn pointers_are_types(alloc: Global) -> Result<(bool, bool), NoMemory> {
    let p = pointer(alloc, SpaceId::Generic, false)?;
    let apart = is_told_apart(alloc, &p)?;
    Ok((apart, points_to_int(&p)))
}

#[test]
fn same_types(rt: HostRuntime) {
    assert!(rt; matches!(pointers_are_types(rt.alloc()), Ok((true, true))));
    assert!(rt; Arithmetic::Integer(INT).to_type().pointee().is_none());
}

/// An object of 10 bytes of the home data, such a one that is no more, and one of the home far.
const OF: Referent = Referent {
    live: true,
    size: 10,
    home: Home::Data,
};

const DEAD: Referent = Referent {
    live: false,
    size: 10,
    home: Home::Data,
};

const FAR: Referent = Referent {
    live: true,
    size: 10,
    home: Home::Far,
};

type Pointer = Option<ObjectPointer>;

const START: Pointer = Some(ObjectPointer {
    object: 1,
    instance: 0,
    offset: 0,
});

const END: Pointer = Some(ObjectPointer {
    object: 1,
    instance: 0,
    offset: 10,
});

const OTHER: Pointer = Some(ObjectPointer {
    object: 2,
    instance: 0,
    offset: 4,
});

const OTHER_END: Pointer = Some(ObjectPointer {
    object: 2,
    instance: 0,
    offset: 10,
});

/// A pointer, what it points into, so many elements of so many bytes, and their sum.
static SUMS: [(Pointer, Referent, i128, u32, Result<Pointer, Undefined>); 6] = [
    (START, OF, 5, 2, Ok(END)),
    (END, OF, -5, 2, Ok(START)),
    (END, OF, 1, 2, Err(PointerRange)),
    (START, OF, -1, 1, Err(PointerRange)),
    (None, OF, 0, 1, Err(PointerRange)),
    (START, DEAD, 0, 1, Err(PointerUse)),
];

/// The bytes of an element, a pointer, and the difference of the start and it.
static DIFFERENCES: [(u32, Pointer, Result<i128, Undefined>); 3] = [
    (2, END, Ok(-5)),
    (4, END, Err(Unrelated)),
    (2, OTHER, Err(Unrelated)),
];

#[test]
fn moved_pointers(rt: HostRuntime) {
    for &(p, of, n, element, want) in &SUMS {
        check_whole(&rt, n);
        assert!(rt; pointer_sum(p, of, n, element) == want, "{n}");
    }
    for &(element, q, want) in &DIFFERENCES {
        assert!(rt; element > 0);
        assert!(rt;
            pointer_difference(element, START, OF, q, OF) == want,
            "{element}"
        );
    }
}

/// An operator, a pointer, what it points into, another pointer, and their comparison.
static COMPARISONS: [(BinOp, Pointer, Referent, Pointer, Result<i128, Undefined>); 10] = [
    (BinOp::Lt, START, OF, END, Ok(1)),
    (BinOp::Ge, START, OF, END, Ok(0)),
    (BinOp::Lt, START, OF, OTHER, Err(Unrelated)),
    (BinOp::Le, None, OF, None, Err(Unrelated)),
    (BinOp::Eq, None, OF, None, Ok(1)),
    (BinOp::Ne, None, OF, END, Ok(1)),
    (BinOp::Eq, START, OF, OTHER, Ok(0)),
    (BinOp::Eq, END, OF, OTHER, Err(PointerUse)),
    (BinOp::Ne, END, OF, OTHER_END, Ok(1)),
    (BinOp::Eq, START, DEAD, None, Err(PointerUse)),
];

/// A space, a pointer, what it points into, and what it is there.
static IN_SPACES: [(SpaceId, Pointer, Referent, Result<Pointer, Undefined>); 5] = [
    (SpaceId::Generic, START, OF, Ok(START)),
    (SpaceId::Flash, START, OF, Err(Narrowing)),
    (SpaceId::Flash, None, OF, Ok(None)),
    (SpaceId::FarFlash, START, FAR, Ok(START)),
    (SpaceId::Flash, START, FAR, Err(Narrowing)),
];

#[test]
fn compared_pointers(rt: HostRuntime) {
    for &(op, p, of, q, want) in &COMPARISONS {
        assert!(rt; pointer_comparison(op, p, of, q, OF) == want, "{op:?}");
    }
    assert!(rt; pointer_truth(START, OF) == Ok(true));
    assert!(rt; pointer_truth(None, DEAD) == Ok(false));
    for &(space, p, of, want) in &IN_SPACES {
        assert!(rt; pointer_conversion(space, p, of) == want, "{space:?}");
    }
}
