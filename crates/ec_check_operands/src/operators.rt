//! Binary operators.
ghost use Rattle.std.specs.Prelude.{◌≡◌, ◌&&◌, not, if◌then◌else◌};
ghost use Rattle.ec_fx.specs.Formats.{format_of, is_fract};
ghost use Rattle.ec_check_operands.specs.Operators.{suits_alone};
ghost use Rattle.ec_check_operands.specs.Sorts.{plain_sort, is_scalar};
ghost use Rattle.std.specs.Prelude.{IfOk, option_map};
ghost use Rattle.ec_core.specs.Plain.{plain_type, plain_expr};
ghost use Rattle.ec_core.specs.TypeLaws.{compared_beside};
ghost use Rattle.ec_check_operands.specs.Faults.{all_judged};
ghost use Rattle.ec_check_operands.specs.Operands.{plain_operand};
ghost use Rattle.ec_check_operands.specs.Operators.{suit_together, suits, is_equality, is_beside_null};
ghost use Rattle.ec_check_operands.specs.Operators.{comparable};
ghost use Rattle.ec_check_operands.specs.Operators.{meets, are_apart, unsuited, incomparable, meet_apart, operation_rules};
ghost use Rattle.ec_check_operands.specs.Operators.{plain_operation, count_beside, usual_types, product_types, shift_types};
ghost use Rattle.ec_check_operands.specs.Operators.{comparison_types, binary_types, number_operation, in_space};
ghost use Rattle.ec_check_operands.specs.Operators.{pointer_operation, beside, null_compared, moved, mixed, mixed_operation};
ghost use Rattle.ec_check_operands.specs.Operators.{numbers_meet, meeting_by, meeting, operation_by, operated};

use crate::conversions::into_space;
use crate::faults::Faults;
use crate::meetings::Meeting;
use crate::operands::{Modes, Operand, as_value, boxed, convert_boxed, is_null, made, valued};
use crate::sorts::{Sort, same_pointee, type_sort};
use crate::types::{kept, nest, sort_of};
use ec_core::{Arithmetic, BinOp, CType, Expr, IntegerType, Node, is_comparison};
use ec_fx::FxKind;
use ec_space::{NoMemory, SpaceId};
use std::alloc::Global;

/// Whether an operand of a type suits a binary operator whatever the other one is; `left` tells which of both it is (ISO/IEC
/// 9899:1999, 6.5.5 to 6.5.12). Factors have one byte.
pub fn suits_alone(op: BinOp, left: bool, ty: Sort<'_>) -> bool
    ensures { result ≡ suits_alone op left (plain_sort ty.entry) }
{
    match op {
        BinOp::Add | BinOp::Sub => ty.is_scalar(),
        BinOp::Mul => ty.is_one_byte(),
        BinOp::Div => ty.is_arithmetic(),
        BinOp::Shl | BinOp::Shr => {
            if left {
                ty.is_arithmetic()
            } else {
                ty.is_integer()
            }
        }
        BinOp::Rem | BinOp::And | BinOp::Or | BinOp::Xor => ty.is_integer(),
        BinOp::Lt | BinOp::Gt | BinOp::Le | BinOp::Ge | BinOp::Eq | BinOp::Ne => true,
    }
}

/// Whether an object of a type can be the operand of `++` and `--`: its type is scalar, and it is not const, as `konst` tells
/// (ISO/IEC 9899:1999, 6.5.2.4 and 6.5.3.1).
pub fn can_be_stepped(ty: Sort<'_>, konst: bool) -> bool
    ensures { result ≡ (is_scalar (plain_sort ty.entry) && not konst) }
{
    ty.is_scalar() && !konst
}

/// Whether results of a fixed-point kind saturate by the overflow state of its family: `fract` is the state of the `_Fract`
/// types, and `accum` that of the `_Accum` types (ISO/IEC TR 18037:2008, 4.1.3).
pub fn family_state(kind: FxKind, fract: bool, accum: bool) -> bool
    ensures { result ≡ (if is_fract (format_of kind) then fract else accum) }
{
    if kind.format().is_fract() {
        fract
    } else {
        accum
    }
}

const INT: Arithmetic = Arithmetic::Integer(IntegerType {
    signed: true,
    bytes: 2,
});

// ---- rules

fn suit_together(op: BinOp, a: Sort<'_>, b: Sort<'_>) -> bool
    ensures { result ≡ suit_together op (plain_sort a.entry) (plain_sort b.entry) }
{
    match op {
        BinOp::Add => {
            a.is_arithmetic() && b.is_arithmetic()
                || a.is_pointer() && b.is_integer()
                || a.is_integer() && b.is_pointer()
        }
        BinOp::Sub => {
            a.is_arithmetic() && b.is_arithmetic()
                || a.is_pointer() && b.is_integer()
                || same_pointee(a, b)
        }
        _ => true,
    }
}

/// Whether two values suit an operator, each alone and both together.
pub fn suits(op: BinOp, a: Sort<'_>, b: Sort<'_>) -> bool
    ensures { result ≡ suits op (plain_sort a.entry) (plain_sort b.entry) }
{
    suits_alone(op, true, a) && suits_alone(op, false, b) && suit_together(op, a, b)
}

fn is_equality(op: BinOp) -> bool
    ensures { result ≡ is_equality op }
{
    match op {
        BinOp::Eq | BinOp::Ne => true,
        _ => false,
    }
}

/// Whether one is a pointer and the other the null constant.
pub fn is_beside_null(a: Sort<'_>, p: bool, b: Sort<'_>, q: bool) -> bool
    ensures { result ≡ is_beside_null (plain_sort a.entry) p (plain_sort b.entry) q }
{
    a.is_pointer() && q || p && b.is_pointer()
}

fn comparable(op: BinOp, a: Sort<'_>, p: bool, b: Sort<'_>, q: bool) -> bool
    ensures { result ≡ comparable op (plain_sort a.entry) p (plain_sort b.entry) q }
{
    a.is_arithmetic() && b.is_arithmetic()
        || same_pointee(a, b)
        || is_equality(op) && is_beside_null(a, p, b, q)
}

fn meets(op: BinOp) -> bool
    ensures { result ≡ meets op }
{
    match op {
        BinOp::Sub => true,
        _ => is_comparison(op),
    }
}

/// Whether both are pointers to one type, into spaces neither of which encloses the other.
pub fn are_apart(a: Sort<'_>, b: Sort<'_>) -> bool
    ensures { result ≡ are_apart (plain_sort a.entry) (plain_sort b.entry) }
{
    same_pointee(a, b) && !nest(a, b)
}

/// Whether an operand whose type is known does not suit an operator, or two do not.
pub fn is_unsuited(op: BinOp, x: &Option<Operand>, y: &Option<Operand>) -> bool
    ensures { result ≡ unsuited op (option_map plain_operand x.now) (option_map plain_operand y.now) }
{
    match (x, y) {
        (None, None) => false,
        (Some(x), None) => !suits_alone(op, true, sort_of(x)),
        (None, Some(y)) => !suits_alone(op, false, sort_of(y)),
        (Some(x), Some(y)) => !suits(op, sort_of(x), sort_of(y)),
    }
}

fn is_incomparable(op: BinOp, x: &Option<Operand>, y: &Option<Operand>) -> bool
    ensures { result ≡ incomparable op (option_map plain_operand x.now) (option_map plain_operand y.now) }
{
    match (x, y) {
        (Some(x), Some(y)) => {
            is_comparison(op) && !comparable(op, sort_of(x), is_null(x), sort_of(y), is_null(y))
        }
        _ => false,
    }
}

fn meet_apart(op: BinOp, x: &Option<Operand>, y: &Option<Operand>) -> bool
    ensures { result ≡ meet_apart op (option_map plain_operand x.now) (option_map plain_operand y.now) }
{
    match (x, y) {
        (Some(x), Some(y)) => meets(op) && are_apart(sort_of(x), sort_of(y)),
        _ => false,
    }
}

/// Judges the operands of a binary operator.
pub fn judge_operation(
    faults: &mut Faults,
    op: BinOp,
    x: &Option<Operand>,
    y: &Option<Operand>,
    at: u32,
)
    ensures { faults.new.least ≡ all_judged faults.old.least
        (operation_rules op (option_map plain_operand x.now) (option_map plain_operand y.now) at) }
{
    faults.judge(23, is_unsuited(op, x, y), at);
    faults.judge(24, is_incomparable(op, x, y), at);
    faults.judge(32, meet_apart(op, x, y), at);
}

// ---- numbers

/// The types of the operands of an operation, and that of its result.
#[derive(Clone, Copy)]
pub struct Operation {
    pub left: Arithmetic,
    pub right: Arithmetic,
    pub outcome: Arithmetic,
}

fn compared_beside(x: Arithmetic, y: Arithmetic) -> Arithmetic
    ensures { result ≡ compared_beside x y }
{
    match x {
        Arithmetic::Integer(_) => x.converted_beside(y),
        Arithmetic::Fixed(_) => x,
    }
}

fn count_beside(x: Arithmetic, y: Arithmetic) -> Arithmetic
    ensures { result ≡ count_beside x y }
{
    match x {
        Arithmetic::Integer(_) => y.promoted(),
        Arithmetic::Fixed(_) => y,
    }
}

fn usual_types(x: Arithmetic, y: Arithmetic) -> Operation
    ensures { plain_operation result ≡ usual_types x y }
{
    Operation {
        left: x.converted_beside(y),
        right: y.converted_beside(x),
        outcome: x.common(y),
    }
}

fn product_types(x: Arithmetic, y: Arithmetic) -> Operation
    ensures { plain_operation result ≡ product_types x y }
{
    Operation {
        left: x.factor_beside(y),
        right: y.factor_beside(x),
        outcome: x.common(y),
    }
}

fn shift_types(x: Arithmetic, y: Arithmetic) -> Operation
    ensures { plain_operation result ≡ shift_types x y }
{
    Operation {
        left: x.promoted(),
        right: count_beside(x, y),
        outcome: x.promoted(),
    }
}

fn comparison_types(x: Arithmetic, y: Arithmetic) -> Operation
    ensures { plain_operation result ≡ comparison_types x y }
{
    Operation {
        left: compared_beside(x, y),
        right: compared_beside(y, x),
        outcome: INT,
    }
}

fn binary_types(op: BinOp, x: Arithmetic, y: Arithmetic) -> Operation
    ensures { plain_operation result ≡ binary_types op x y }
{
    match op {
        BinOp::Mul => product_types(x, y),
        BinOp::Shl | BinOp::Shr => shift_types(x, y),
        BinOp::Lt | BinOp::Gt | BinOp::Le | BinOp::Ge | BinOp::Eq | BinOp::Ne => {
            comparison_types(x, y)
        }
        BinOp::Add | BinOp::Sub | BinOp::Div | BinOp::Rem | BinOp::And | BinOp::Or | BinOp::Xor =>
            usual_types(x, y),
    }
}

fn number_operation(
    alloc: Global,
    modes: Modes,
    op: BinOp,
    t: Operation,
    x: Box<Expr>,
    y: Box<Expr>,
) -> Result<Expr, NoMemory>
    ensures { IfOk result (λ e. plain_expr e
        ≡ number_operation modes op (plain_operation t) (plain_expr x.value) (plain_expr y.value)) }
{
    let x = convert_boxed(alloc, modes, &t.left.to_type(), x)?;
    let y = convert_boxed(alloc, modes, &t.right.to_type(), y)?;
    Ok(made(modes, t.outcome.to_type(), Node::Binary(op, x, y)))
}

// ---- pointers

fn in_space(alloc: Global, modes: Modes, s: SpaceId, e: Box<Expr>) -> Result<Box<Expr>, NoMemory>
    ensures { IfOk result (λ x. plain_expr x.value ≡ in_space modes s (plain_expr e.value)) }
{
    match &e.ty {
        CType::Ptr { .. } => {
            let to = kept(alloc, into_space(s, type_sort(&e.ty)))?;
            convert_boxed(alloc, modes, &to, e)
        }
        CType::Void
        | CType::Int { .. }
        | CType::Fx { .. }
        | CType::Array { .. }
        | CType::Struct { .. } => Ok(e),
    }
}

fn pointer_operation(
    alloc: Global,
    modes: Modes,
    op: BinOp,
    space: Option<SpaceId>,
    x: Box<Expr>,
    y: Box<Expr>,
) -> Result<Option<Expr>, NoMemory>
    ensures { IfOk result (λ e. option_map plain_expr e
        ≡ pointer_operation modes op space (plain_expr x.value) (plain_expr y.value)) }
{
    let Some(space) = space else {
        return Ok(None);
    };
    let x = in_space(alloc, modes, space, x)?;
    let y = in_space(alloc, modes, space, y)?;
    Ok(Some(made(modes, INT.to_type(), Node::Binary(op, x, y))))
}

/// A pointer and what stands beside it, in their order.
fn beside(modes: Modes, op: BinOp, left: bool, ty: CType, p: Box<Expr>, other: Box<Expr>) -> Expr
    ensures { plain_expr result ≡ beside modes op left (plain_type ty) (plain_expr p.value) (plain_expr other.value) }
{
    if left {
        made(modes, ty, Node::Binary(op, p, other))
    } else {
        made(modes, ty, Node::Binary(op, other, p))
    }
}

fn null_compared(
    alloc: Global,
    modes: Modes,
    op: BinOp,
    left: bool,
    p: Box<Expr>,
) -> Result<Expr, NoMemory>
    ensures { IfOk result (λ e. plain_expr e ≡ null_compared modes op left (plain_expr p.value)) }
{
    let ty = p.ty.copied(alloc)?;
    let zero = boxed(alloc, made(modes, ty, Node::Null))?;
    Ok(beside(modes, op, left, INT.to_type(), p, zero))
}

fn moved(
    alloc: Global,
    modes: Modes,
    op: BinOp,
    left: bool,
    p: Box<Expr>,
    count: Box<Expr>,
) -> Result<Expr, NoMemory>
    ensures { IfOk result (λ e. plain_expr e ≡ moved modes op left (plain_expr p.value) (plain_expr count.value)) }
{
    let ty = p.ty.copied(alloc)?;
    Ok(beside(modes, op, left, ty, p, count))
}

fn mixed(
    alloc: Global,
    modes: Modes,
    op: BinOp,
    left: bool,
    p: Box<Expr>,
    other: Box<Expr>,
) -> Result<Expr, NoMemory>
    ensures { IfOk result (λ e. plain_expr e ≡ mixed modes op left (plain_expr p.value) (plain_expr other.value)) }
{
    if is_comparison(op) {
        null_compared(alloc, modes, op, left, p)
    } else {
        moved(alloc, modes, op, left, p, other)
    }
}

fn mixed_operation(
    alloc: Global,
    modes: Modes,
    op: BinOp,
    left: bool,
    x: Box<Expr>,
    y: Box<Expr>,
) -> Result<Expr, NoMemory>
    ensures { IfOk result (λ e. plain_expr e
        ≡ mixed_operation modes op left (plain_expr x.value) (plain_expr y.value)) }
{
    if left {
        mixed(alloc, modes, op, left, x, y)
    } else {
        mixed(alloc, modes, op, left, y, x)
    }
}

// ---- both

fn numbers_meet(a: Option<Arithmetic>, b: Option<Arithmetic>) -> Meeting
    ensures { result ≡ numbers_meet a b }
{
    match (a, b) {
        (Some(a), Some(b)) => Meeting::Numbers(a, b),
        _ => Meeting::Nothing,
    }
}

fn meeting_by(a: Option<SpaceId>, b: Option<SpaceId>, numbers: Meeting) -> Meeting
    ensures { result ≡ meeting_by a b numbers }
{
    match (a, b) {
        (Some(a), Some(b)) => Meeting::Pointers(a.join(b)),
        (Some(_), None) => Meeting::Mixed(true),
        (None, Some(_)) => Meeting::Mixed(false),
        (None, None) => numbers,
    }
}

/// How values of two types meet.
pub fn meeting_of(a: Sort<'_>, b: Sort<'_>) -> Meeting
    ensures { result ≡ meeting (plain_sort a.entry) (plain_sort b.entry) }
{
    meeting_by(
        a.space(),
        b.space(),
        numbers_meet(a.arithmetic(), b.arithmetic()),
    )
}

fn operation_by(
    alloc: Global,
    modes: Modes,
    op: BinOp,
    how: Meeting,
    x: Box<Expr>,
    y: Box<Expr>,
) -> Result<Option<Expr>, NoMemory>
    ensures { IfOk result (λ e. option_map plain_expr e
        ≡ operation_by modes op how (plain_expr x.value) (plain_expr y.value)) }
{
    match how {
        Meeting::Pointers(space) => pointer_operation(alloc, modes, op, space, x, y),
        Meeting::Mixed(left) => {
            let e = mixed_operation(alloc, modes, op, left, x, y)?;
            Ok(Some(e))
        }
        Meeting::Numbers(s, t) => {
            let e = number_operation(alloc, modes, op, binary_types(op, s, t), x, y)?;
            Ok(Some(e))
        }
        Meeting::Nothing => Ok(None),
    }
}

/// What a binary operator makes of its operands, or None where an operand has no type or they break a rule.
pub fn operate(
    alloc: Global,
    modes: Modes,
    op: BinOp,
    x: Option<Operand>,
    y: Option<Operand>,
) -> Result<Option<Operand>, NoMemory>
    ensures { IfOk result (λ z. option_map plain_operand z
        ≡ operated modes op (option_map plain_operand x) (option_map plain_operand y)) }
{
    let broken = is_unsuited(op, &x, &y) || is_incomparable(op, &x, &y) || meet_apart(op, &x, &y);
    match x.zip(y).filter(|_| !broken) {
        None => Ok(None),
        Some((x, y)) => {
            let how = meeting_of(sort_of(&x), sort_of(&y));
            let x = boxed(alloc, as_value(modes, x));
            let y = boxed(alloc, as_value(modes, y));
            let e = operation_by(alloc, modes, op, how, x?, y?)?;
            Ok(valued(e))
        }
    }
}
