//! Tests of types and numbers.
ghost use Rattle.std.specs.Prelude.{◌≡◌, ◌≤◌, IsTrue};
ghost use Rattle.ec_core.specs.Integers.{IsInteger, width_of};
ghost use Rattle.ec_core.specs.Layout.{IsIntegerSize};
ghost use Rattle.ec_core.specs.Operators.{number_type, same_type};
ghost use Rattle.ec_core.specs.Plain.{plain_type};
ghost use Rattle.ec_core.specs.Typing.{int};
ghost use Rattle.ec_check_constants.specs.Tests.{is_integer_size, is_numeric, same_number_type, is_integer_kind};
ghost use Rattle.ec_check_constants.specs.Tests.{is_promoted, is_one_byte, have_one_signedness, have_common_integer};
ghost use Rattle.ec_check_constants.specs.Tests.{have_usual_types, have_product_types, have_integer_types};
ghost use Rattle.ec_check_constants.specs.Tests.{is_shift_count, have_shift_types, have_compared_types};
ghost use Rattle.ec_check_constants.specs.Tests.{have_arithmetic_types, have_unary_types, is_within, holds_number};

use ec_core::{Arithmetic, BinOp, CType, IntegerType, UnOp};
use ec_fx::{greatest_number, least_number};

// ---- types

/// The type as an arithmetic one, `int` where it is none.
pub(crate) fn number_type(ty: &CType) -> Arithmetic
    ensures { result ≡ number_type (plain_type ty.now) }
{
    match ty.arithmetic() {
        Some(t) => t,
        None => Arithmetic::Integer(IntegerType {
            signed: true,
            bytes: 2,
        }),
    }
}

fn is_integer_size(bytes: u8) -> bool
    ensures value { result ≡ is_integer_size bytes }
    ensures sized { IsTrue result → IsIntegerSize bytes }
{
    bytes == 1 || bytes == 2 || bytes == 4
}

pub(crate) fn is_numeric(ty: &CType) -> bool
    ensures { result ≡ is_numeric (plain_type ty.now) }
{
    match ty {
        CType::Int { bytes, .. } => is_integer_size(*bytes),
        CType::Fx { .. } => true,
        CType::Void | CType::Ptr { .. } | CType::Array { .. } | CType::Struct { .. } => false,
    }
}

pub(crate) fn is_int(ty: &CType) -> bool
    ensures { result ≡ same_type (plain_type ty.now) int }
{
    let int = CType::Int {
        signed: true,
        bytes: 2,
    };
    ty.is_same(&int)
}

fn same_number_type(x: Arithmetic, y: Arithmetic) -> bool
    ensures { result ≡ same_number_type x y }
{
    let a = x.to_type();
    let b = y.to_type();
    a.is_same(&b)
}

fn is_integer_kind(t: Arithmetic) -> bool
    ensures { result ≡ is_integer_kind t }
{
    match t {
        Arithmetic::Integer(_) => true,
        Arithmetic::Fixed(_) => false,
    }
}

fn is_promoted(t: Arithmetic) -> bool
    ensures { result ≡ is_promoted t }
{
    match t {
        Arithmetic::Integer(t) => !(t.bytes < 2),
        Arithmetic::Fixed(_) => true,
    }
}

fn is_one_byte(t: Arithmetic) -> bool
    ensures { result ≡ is_one_byte t }
{
    match t {
        Arithmetic::Integer(t) => t.bytes == 1,
        Arithmetic::Fixed(t) => t.kind.format().bits == 8,
    }
}

fn have_one_signedness(x: Arithmetic, y: Arithmetic) -> bool
    ensures { result ≡ have_one_signedness x y }
{
    match x {
        Arithmetic::Integer(_) => true,
        Arithmetic::Fixed(x) => match y {
            Arithmetic::Integer(_) => true,
            Arithmetic::Fixed(y) => x.kind.format().signed == y.kind.format().signed,
        },
    }
}

fn have_common_integer(x: Arithmetic, y: Arithmetic) -> bool
    ensures { result ≡ have_common_integer x y }
{
    match x {
        Arithmetic::Integer(_) => match y {
            Arithmetic::Integer(_) => same_number_type(x, y) && is_promoted(x),
            Arithmetic::Fixed(_) => true,
        },
        Arithmetic::Fixed(_) => true,
    }
}

// ---- operators

fn have_usual_types(ty: Arithmetic, x: Arithmetic, y: Arithmetic) -> bool
    ensures { result ≡ have_usual_types ty x y }
{
    have_common_integer(x, y) && (have_one_signedness(x, y) && same_number_type(ty, x.common(y)))
}

fn have_product_types(ty: Arithmetic, x: Arithmetic, y: Arithmetic) -> bool
    ensures { result ≡ have_product_types ty x y }
{
    is_one_byte(x)
        && (is_one_byte(y) && (have_one_signedness(x, y) && same_number_type(ty, x.common(y))))
}

fn have_integer_types(ty: Arithmetic, x: Arithmetic, y: Arithmetic) -> bool
    ensures { result ≡ have_integer_types ty x y }
{
    is_integer_kind(x) && (is_integer_kind(y) && have_usual_types(ty, x, y))
}

fn is_shift_count(x: Arithmetic, y: Arithmetic) -> bool
    ensures { result ≡ is_shift_count x y }
{
    match x {
        Arithmetic::Integer(_) => is_integer_kind(y) && is_promoted(y),
        Arithmetic::Fixed(_) => is_integer_kind(y),
    }
}

fn have_shift_types(ty: Arithmetic, x: Arithmetic, y: Arithmetic) -> bool
    ensures { result ≡ have_shift_types ty x y }
{
    is_promoted(x) && (is_shift_count(x, y) && same_number_type(ty, x))
}

fn have_compared_types(ty: Arithmetic, x: Arithmetic, y: Arithmetic) -> bool
    ensures { result ≡ have_compared_types ty x y }
{
    have_common_integer(x, y) && is_int(&ty.to_type())
}

pub(crate) fn have_arithmetic_types(op: BinOp, ty: Arithmetic, x: Arithmetic, y: Arithmetic) -> bool
    ensures { result ≡ have_arithmetic_types op ty x y }
{
    match op {
        BinOp::Add | BinOp::Sub | BinOp::Div => have_usual_types(ty, x, y),
        BinOp::Mul => have_product_types(ty, x, y),
        BinOp::Rem | BinOp::And | BinOp::Or | BinOp::Xor => have_integer_types(ty, x, y),
        BinOp::Shl | BinOp::Shr => have_shift_types(ty, x, y),
        BinOp::Lt | BinOp::Gt | BinOp::Le | BinOp::Ge | BinOp::Eq | BinOp::Ne => {
            have_compared_types(ty, x, y)
        }
    }
}

pub(crate) fn have_unary_types(op: UnOp, t: Arithmetic) -> bool
    ensures { result ≡ have_unary_types op t }
{
    match op {
        UnOp::Minus => is_promoted(t),
        UnOp::Invert => is_integer_kind(t) && is_promoted(t),
    }
}

// ---- numbers

fn is_within(signed: bool, bits: u8, n: i128) -> bool
    requires some { 1 ≤ bits }
    requires most { bits ≤ 64 }
    ensures { result ≡ is_within signed bits n }
{
    least_number(signed, bits) <= n && n <= greatest_number(signed, bits)
}

fn holds_integer(t: IntegerType, n: i128) -> bool
    requires { IsInteger t }
    ensures { result ≡ is_within t.signed (width_of t) n }
{
    is_within(t.signed, t.width(), n)
}

pub(crate) fn holds_number(t: Arithmetic, n: i128) -> bool
    ensures { result ≡ holds_number t n }
{
    match t {
        Arithmetic::Integer(t) => is_integer_size(t.bytes) && holds_integer(t, n),
        Arithmetic::Fixed(t) => {
            let format = t.kind.format();
            format.least() <= n && n <= format.greatest()
        }
    }
}
