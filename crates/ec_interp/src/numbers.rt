//! Operators and conversions on numbers of arithmetic types, where the numbers and the types suit them.
ghost use Rattle.std.specs.Prelude.{◌≡◌, IsTrue, IfErr, IfOk};
ghost use Rattle.ec_fx.specs.Arithmetic.{IsOneByte, IsResultFormat};
ghost use Rattle.ec_fx.specs.Formats.{IsFormat};
ghost use Rattle.ec_fx.specs.Numbers.{IsNumber};
ghost use Rattle.ec_core.specs.ArithmeticValues.{HoldsNumber, operand, arithmetic_value, IsShift, SuitsFixed};
ghost use Rattle.ec_core.specs.ArithmeticValues.{SuitsTyped, IsIntegerResult, IsWholeOperand, Suits, unary_value};
ghost use Rattle.ec_core.specs.ArithmeticValues.{IsKnownType, conversion_value};
ghost use Rattle.ec_core.specs.Integers.{IsInteger};
ghost use Rattle.ec_core.specs.Operators.{number_type, operation_types};
ghost use Rattle.ec_core.specs.Operators.{operation_value, compound_value, brought};
ghost use Rattle.ec_core.specs.Plain.{plain_type};
ghost use Rattle.ec_core.specs.Typing.{HaveCompoundArithmetic};
ghost use Rattle.ec_interp.specs.Shows.{Tells};
ghost use Rattle.ec_interp.specs.Suits.{IsMemory, IsAnswered};

use crate::behaviour::Unanswered;
use crate::state::RunError;
use ec_core::{
    Arithmetic, BinOp, CType, IntegerType, UnOp, arithmetic_conversion, arithmetic_operation,
    is_comparison, unary_operation,
};
use ec_fx::{Format, Mode, Num, greatest_number, least_number};

// ---- what operands suit

fn is_integer(t: IntegerType) -> bool
    ensures only { IsTrue result → IsInteger t }
    ensures all { IsInteger t → IsTrue result }
{
    t.bytes == 1 || t.bytes == 2 || t.bytes == 4
}

/// Whether a number is a value of a type.
fn is_in_range(t: Arithmetic, n: i128) -> bool
    ensures only { IsTrue result → HoldsNumber t n }
    ensures all { HoldsNumber t n → IsTrue result }
{
    match t {
        Arithmetic::Integer(t) => is_integer(t) && is_of_integer(t, n),
        Arithmetic::Fixed(t) => {
            let format = t.kind.format();
            format.least() <= n && n <= format.greatest()
        }
    }
}

fn is_of_integer(t: IntegerType, n: i128) -> bool
    requires { IsInteger t }
    ensures only { IsTrue result → HoldsNumber (Arithmetic.Integer t) n }
    ensures all { HoldsNumber (Arithmetic.Integer t) n → IsTrue result }
{
    let bits = t.width();
    least_number(t.signed, bits) <= n && n <= greatest_number(t.signed, bits)
}

fn is_known(t: Arithmetic) -> bool
    ensures only { IsTrue result → IsKnownType t }
    ensures all { IsKnownType t → IsTrue result }
{
    match t {
        Arithmetic::Integer(t) => is_integer(t),
        Arithmetic::Fixed(_) => true,
    }
}

fn is_whole(a: Num) -> bool
    ensures only { IsTrue result → IsWholeOperand a }
    ensures all { IsWholeOperand a → IsTrue result }
{
    match a {
        Num::Whole(_) => true,
        Num::Fixed(_) => false,
    }
}

fn is_one_byte(a: Num) -> bool
    ensures only { IsTrue result → IsOneByte a }
    ensures all { IsOneByte a → IsTrue result }
{
    match a {
        Num::Whole(n) => -128 <= n && n <= 255,
        Num::Fixed(x) => x.format.bits == 8,
    }
}

fn has_result_format(a: Num, b: Num, to: Format) -> bool
    requires a_in { IsNumber a }
    requires b_in { IsNumber b }
    ensures only { IsTrue result → IsResultFormat a b to }
    ensures all { IsResultFormat a b to → IsTrue result }
{
    match a {
        Num::Whole(_) => match b {
            Num::Whole(_) => false,
            Num::Fixed(y) => to == y.format,
        },
        Num::Fixed(x) => match b {
            Num::Whole(_) => to == x.format,
            Num::Fixed(y) => {
                x.format.signed == y.format.signed && to == x.format.higher(y.format)
            }
        },
    }
}

fn is_shift(a: Num, b: Num, to: Format) -> bool
    ensures only { IsTrue result → IsShift a b to }
    ensures all { IsShift a b to → IsTrue result }
{
    match a {
        Num::Whole(_) => false,
        Num::Fixed(x) => match b {
            Num::Whole(_) => x.format == to,
            Num::Fixed(_) => false,
        },
    }
}

fn suits_fixed(op: BinOp, a: Num, b: Num, to: Format) -> bool
    requires a_in { IsNumber a }
    requires b_in { IsNumber b }
    ensures only { IsTrue result → SuitsFixed op a b to }
    ensures all { SuitsFixed op a b to → IsTrue result }
{
    match op {
        BinOp::Add | BinOp::Sub | BinOp::Div => has_result_format(a, b, to),
        BinOp::Mul => has_result_format(a, b, to) && is_one_byte(a) && is_one_byte(b),
        BinOp::Shl | BinOp::Shr => is_shift(a, b, to),
        _ => false,
    }
}

fn suits_typed(op: BinOp, ty: Arithmetic, a: Num, b: Num) -> bool
    requires a_in { IsNumber a }
    requires b_in { IsNumber b }
    ensures only { IsTrue result → SuitsTyped op ty a b }
    ensures all { SuitsTyped op ty a b → IsTrue result }
{
    match ty {
        Arithmetic::Integer(t) => is_integer(t) && is_whole(a) && is_whole(b),
        Arithmetic::Fixed(t) => suits_fixed(op, a, b, t.kind.format()),
    }
}

fn is_integer_result(ty: Arithmetic) -> bool
    ensures only { IsTrue result → IsIntegerResult ty }
    ensures all { IsIntegerResult ty → IsTrue result }
{
    match ty {
        Arithmetic::Integer(t) => is_integer(t),
        Arithmetic::Fixed(_) => false,
    }
}

fn suits(op: BinOp, ty: Arithmetic, a: Num, b: Num) -> bool
    requires a_in { IsNumber a }
    requires b_in { IsNumber b }
    ensures only { IsTrue result → Suits op ty a b }
    ensures all { Suits op ty a b → IsTrue result }
{
    if is_comparison(op) {
        is_integer_result(ty)
    } else {
        suits_typed(op, ty, a, b)
    }
}

// ---- operators

/// The type as an arithmetic one, `int` where it is none.
pub fn number_type(ty: &CType) -> Arithmetic
    ensures { result ≡ number_type (plain_type ty.now) }
{
    match ty.arithmetic() {
        Some(t) => t,
        None => Arithmetic::Integer(IntegerType {
            signed: true,
            bytes: 2,
        }),
    }
}

fn operand(t: Arithmetic, n: i128) -> Result<Num, Unanswered>
    ensures value { IfOk result (λ x. x ≡ operand t n) }
    ensures number { IfOk result IsNumber }
    ensures answered { HoldsNumber t n → IfErr result IsMemory }
{
    if !is_in_range(t, n) {
        return Err(Unanswered::Unsuited);
    }
    Ok(t.operand(n))
}

fn operation_on(op: BinOp, ty: Arithmetic, mode: Mode, a: Num, b: Num) -> Result<i128, RunError>
    requires a_in { IsNumber a }
    requires b_in { IsNumber b }
    ensures tells { Tells result (arithmetic_value op ty mode a b) }
    ensures held { IfOk result (HoldsNumber ty) }
    ensures answered { Suits op ty a b → IsAnswered result }
{
    if !suits(op, ty, a, b) {
        return Err(RunError::Unanswered(Unanswered::Unsuited));
    }
    match arithmetic_operation(op, ty, mode, a, b) {
        Ok(n) => Ok(n),
        Err(point) => Err(RunError::Undefined(point)),
    }
}

/// A number with its type.
#[derive(Clone, Copy)]
pub struct Typed {
    pub ty: Arithmetic,
    pub n: i128,
}

/// The value of `a op b` with the result type `ty`.
pub fn operation(
    op: BinOp,
    ty: Arithmetic,
    mode: Mode,
    a: Typed,
    b: Typed,
) -> Result<i128, RunError>
    ensures tells { Tells result (arithmetic_value op ty mode (operand a.ty a.n) (operand b.ty b.n)) }
    ensures held { IfOk result (HoldsNumber ty) }
    ensures answered { HoldsNumber a.ty a.n → HoldsNumber b.ty b.n → Suits op ty (operand a.ty a.n) (operand b.ty b.n)
        → IsAnswered result }
{
    let x = operand(a.ty, a.n)?;
    let y = operand(b.ty, b.n)?;
    operation_on(op, ty, mode, x, y)
}

/// The value of `op n` where both have the type `ty`.
pub fn unary(op: UnOp, ty: Arithmetic, mode: Mode, n: i128) -> Result<i128, RunError>
    ensures tells { Tells result (unary_value op ty mode n) }
    ensures answered { HoldsNumber ty n → IsAnswered result }
{
    if !is_in_range(ty, n) {
        return Err(RunError::Unanswered(Unanswered::Unsuited));
    }
    match (op, ty) {
        (UnOp::Invert, Arithmetic::Fixed(_)) => Ok(n),
        _ => match unary_operation(op, ty, mode, n) {
            Ok(n) => Ok(n),
            Err(point) => Err(RunError::Undefined(point)),
        },
    }
}

/// A number of one type in another.
pub fn brought(to: Arithmetic, mode: Mode, a: Typed) -> Result<i128, RunError>
    ensures tells { Tells result (brought to mode a.ty a.n) }
    ensures held { IfOk result (HoldsNumber to) }
    ensures answered { IsKnownType to → HoldsNumber a.ty a.n → IsAnswered result }
{
    let x = operand(a.ty, a.n)?;
    if !is_known(to) {
        return Err(RunError::Unanswered(Unanswered::Unsuited));
    }
    match arithmetic_conversion(to, mode, x) {
        Ok(n) => Ok(n),
        Err(point) => Err(RunError::Undefined(point)),
    }
}

// ---- compound assignments

/// The types that two operands are brought to, and that of the result.
#[derive(Clone, Copy)]
struct OperationTypes {
    left: Arithmetic,
    right: Arithmetic,
    outcome: Arithmetic,
}

fn operation_types(op: BinOp, x: Arithmetic, y: Arithmetic) -> OperationTypes
    ensures left { result.left ≡ (operation_types op x y).left }
    ensures right { result.right ≡ (operation_types op x y).right }
    ensures outcome { result.outcome ≡ (operation_types op x y).result }
{
    match op {
        BinOp::Shl | BinOp::Shr => OperationTypes {
            left: x.promoted(),
            right: y,
            outcome: x.promoted(),
        },
        _ => OperationTypes {
            left: x.converted_beside(y),
            right: y.converted_beside(x),
            outcome: x.common(y),
        },
    }
}

/// The number that a compound assignment writes: the operation's result in the type of the place. The
/// first mode is that of the operation, and the second that of the conversion.
pub fn compound(
    op: BinOp,
    operation_mode: Mode,
    mode: Mode,
    a: Typed,
    b: Typed,
) -> Result<i128, RunError>
    ensures tells { Tells result (compound_value op operation_mode mode a.ty a.n b.ty b.n) }
    ensures answered { HaveCompoundArithmetic op a.ty b.ty → HoldsNumber a.ty a.n → HoldsNumber b.ty b.n
        → IsAnswered result }
{
    let types = operation_types(op, a.ty, b.ty);
    let x = brought(types.left, operation_mode, a)?;
    let y = brought(types.right, operation_mode, b)?;
    let left = Typed {
        ty: types.left,
        n: x,
    };
    let right = Typed {
        ty: types.right,
        n: y,
    };
    let n = operation(op, types.outcome, operation_mode, left, right)?;
    brought(
        a.ty,
        mode,
        Typed {
            ty: types.outcome,
            n,
        },
    )
}
