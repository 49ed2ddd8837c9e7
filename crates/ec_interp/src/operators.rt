//! Operators and conversions on values of any type.
ghost use Rattle.std.specs.Prelude.{◌≡◌, ◌^◌, ◌≤◌, ◌≤ℤ◌, ◌*ℤ◌, ◌-ℤ◌, pos, neg_ℤ, IsTrue, IfErr, IfOk};
ghost use Rattle.ec_core.specs.declared.values.Value.TheVariants.{Pointer as ThePointer};
ghost use Rattle.ec_core.specs.Accesses.{is_live_in, referent_of, element_size, operand_of};
ghost use Rattle.ec_core.specs.Layout.{IsScalar};
ghost use Rattle.ec_core.specs.Operators.{number_type, unary_result, pointers_result, offset_result, binary_result};
ghost use Rattle.ec_core.specs.Operators.{conversion_result, truth_result, compound_result};
ghost use Rattle.ec_core.specs.Plain.{void, plain_type, plain_program};
ghost use Rattle.ec_core.specs.Pointers.{displaced, moved, sum_of_pointer, comparison_of_pointers};
ghost use Rattle.ec_core.specs.Pointers.{difference_of_pointers};
ghost use Rattle.ec_core.specs.Typing.{HaveBinaryTypes, HaveCompoundTypes, AreConvertible};
ghost use Rattle.ec_core.specs.Valid.{IsExprType};
ghost use Rattle.ec_interp.specs.Shows.{Tells};
ghost use Rattle.ec_interp.specs.Suits.{IsGiven, IsMemory, IsAnswered, IsOperand, IsNear, IsNumberOf};
ghost use Rattle.ec_interp.specs.Views.{seen, seen_object, HasLayouts};

use crate::behaviour::Unanswered;
use crate::layouts::{element_size, size};
use crate::numbers::{Typed, brought, compound, number_type, operation, unary};
use crate::state::{Context, ObjectState, RunError, State, object, object_state};
use crate::values::{in_space, is_not_zero};
use ec_core::{
    BinOp, CType, ObjectPointer, Referent, UnOp, Undefined, Value, is_comparison,
    pointer_comparison, pointer_difference, pointer_truth,
};
use ec_fx::Mode;
use ec_space::Home;

/// An operand: its type and its value.
#[derive(Clone, Copy)]
pub struct Operand<'a> {
    pub ty: &'a CType,
    pub value: Value,
}

// ---- what pointers point into

pub fn is_live_in(p: ObjectPointer, x: &ObjectState) -> bool
    ensures { result ≡ is_live_in p (seen_object x.now) }
{
    x.live && x.serial == p.instance
}

/// What stands beside a pointer without an object.
const NOTHING_KNOWN: Referent = Referent {
    live: false,
    size: 0,
    home: Home::Data,
};

/// What is known of the instance that a pointer points into.
pub fn referent(f: &Context, s: &State, p: Option<ObjectPointer>) -> Result<Referent, Unanswered>
    requires { HasLayouts f.now.program.now }
    ensures referent { IfOk result (λ of. of ≡ referent_of (plain_program f.now.program.now) p (seen s.now)) }
    ensures answered { IsGiven f.now → IfErr result IsMemory }
{
    let Some(p) = p else {
        return Ok(NOTHING_KNOWN);
    };
    let Some(o) = object(f.program, p.object) else {
        return Ok(NOTHING_KNOWN);
    };
    let Some(x) = object_state(s, p.object) else {
        return Ok(NOTHING_KNOWN);
    };
    let bytes = size(f, &o.ty)?;
    Ok(Referent {
        live: is_live_in(p, x),
        size: bytes,
        home: o.home,
    })
}

// ---- pointers

fn displaced(p: ObjectPointer, size: u32, at: i128) -> Result<Option<ObjectPointer>, RunError>
    ensures tells { Tells result (displaced p size at) }
    ensures answered { IsAnswered result }
{
    if 0 <= at && at <= size as i128 {
        Ok(Some(ObjectPointer {
            object: p.object,
            instance: p.instance,
            offset: at as u32,
        }))
    } else {
        Err(RunError::Undefined(Undefined::PointerRange))
    }
}

/// So many bytes further.
pub fn moved(
    p: Option<ObjectPointer>,
    of: Referent,
    bytes: i128,
) -> Result<Option<ObjectPointer>, RunError>
    requires low { neg_ℤ (pos (2 ^ 100)) ≤ℤ bytes }
    requires high { bytes ≤ℤ pos (2 ^ 100) }
    ensures tells { Tells result (moved p of bytes) }
    ensures answered { IsAnswered result }
{
    match p {
        None => Err(RunError::Undefined(Undefined::PointerRange)),
        Some(p) => {
            if of.live {
                displaced(p, of.size, p.offset as i128 + bytes)
            } else {
                Err(RunError::Undefined(Undefined::PointerUse))
            }
        }
    }
}

/// So many elements in bytes.
fn in_bytes(n: i128, element: u32) -> i128
    requires { IsNear n }
    ensures value { result ≡ n *ℤ pos element }
    ensures low { neg_ℤ (pos (2 ^ 100)) ≤ℤ result }
    ensures high { result ≤ℤ pos (2 ^ 100) }
{
    n * element as i128
}

/// So many elements further.
fn moved_elements(
    p: Option<ObjectPointer>,
    of: Referent,
    n: i128,
    element: u32,
) -> Result<Option<ObjectPointer>, RunError>
    requires { IsNear n }
    ensures tells { Tells result (sum_of_pointer p of n element) }
    ensures answered { IsAnswered result }
{
    moved(p, of, in_bytes(n, element))
}

fn is_near(n: i128) -> bool
    ensures only { IsTrue result → IsNear n }
    ensures all { IsNear n → IsTrue result }
{
    -(1i128 << 40) <= n && n <= 1i128 << 40
}

/// A pointer operand and a number of elements.
fn offset_pointer(
    f: &Context,
    s: &State,
    op: BinOp,
    a: &Operand,
    p: Option<ObjectPointer>,
    n: i128,
) -> Result<Value, RunError>
    requires layouts { HasLayouts f.now.program.now }
    requires pointer { a.now.value ≡ ThePointer p }
    ensures tells { Tells result (offset_result op
        (operand_of (plain_program f.now.program.now) (plain_type a.now.ty.now) a.now.value (seen s.now)) p n) }
    ensures answered { IsGiven f.now → IsExprType (plain_program f.now.program.now) (plain_type a.now.ty.now) → IsNear n
        → IsAnswered result }
{
    if !is_near(n) {
        return Err(RunError::Unanswered(Unanswered::Unsuited));
    }
    let count = match op {
        BinOp::Add => n,
        BinOp::Sub => negated(n),
        _ => return Err(RunError::Undefined(Undefined::Invalid)),
    };
    let of = referent(f, s, p)?;
    let element = element_size(f, a.ty)?;
    let q = moved_elements(p, of, count, element)?;
    Ok(Value::Pointer(q))
}

fn negated(n: i128) -> i128
    requires { IsNear n }
    ensures value { result ≡ pos 0 -ℤ n }
    ensures near { IsNear result }
{
    0 - n
}

fn compared(
    f: &Context,
    s: &State,
    op: BinOp,
    p: Option<ObjectPointer>,
    q: Option<ObjectPointer>,
) -> Result<i128, RunError>
    requires { HasLayouts f.now.program.now }
    ensures answered { IsGiven f.now → IsAnswered result }
    ensures tells { Tells result (comparison_of_pointers op p
        (referent_of (plain_program f.now.program.now) p (seen s.now)) q
        (referent_of (plain_program f.now.program.now) q (seen s.now))) }
{
    let of = referent(f, s, p)?;
    let into = referent(f, s, q)?;
    match pointer_comparison(op, p, of, q, into) {
        Ok(n) => Ok(n),
        Err(point) => Err(RunError::Undefined(point)),
    }
}

fn difference(
    f: &Context,
    s: &State,
    element: u32,
    p: Option<ObjectPointer>,
    q: Option<ObjectPointer>,
) -> Result<i128, RunError>
    requires { HasLayouts f.now.program.now }
    ensures answered { IsGiven f.now → 1 ≤ element → IsAnswered result }
    ensures tells { Tells result (difference_of_pointers element p
        (referent_of (plain_program f.now.program.now) p (seen s.now)) q
        (referent_of (plain_program f.now.program.now) q (seen s.now))) }
{
    if element == 0 {
        return Err(RunError::Unanswered(Unanswered::Unsuited));
    }
    let of = referent(f, s, p)?;
    let into = referent(f, s, q)?;
    match pointer_difference(element, p, of, q, into) {
        Ok(n) => Ok(n),
        Err(point) => Err(RunError::Undefined(point)),
    }
}

/// Two pointer operands: their difference, or a comparison.
fn pointers(
    f: &Context,
    s: &State,
    op: BinOp,
    a: &Operand,
    p: Option<ObjectPointer>,
    b: &Operand,
    q: Option<ObjectPointer>,
) -> Result<Value, RunError>
    requires layouts { HasLayouts f.now.program.now }
    requires left { a.now.value ≡ ThePointer p }
    requires right { b.now.value ≡ ThePointer q }
    ensures answered { IsGiven f.now → IsExprType (plain_program f.now.program.now) (plain_type a.now.ty.now)
        → 1 ≤ element_size (plain_program f.now.program.now) (plain_type a.now.ty.now) → IsAnswered result }
    ensures tells { Tells result (pointers_result op
        (operand_of (plain_program f.now.program.now) (plain_type a.now.ty.now) a.now.value (seen s.now)) p
        (operand_of (plain_program f.now.program.now) (plain_type b.now.ty.now) b.now.value (seen s.now)) q) }
{
    if is_comparison(op) {
        let n = compared(f, s, op, p, q)?;
        return Ok(Value::Number(n));
    }
    let element = element_size(f, a.ty)?;
    let n = difference(f, s, element, p, q)?;
    Ok(Value::Number(n))
}

// ---- operators

/// The value of a unary operator.
pub fn unary_value(op: UnOp, ty: &CType, mode: Mode, x: Value) -> Result<Value, RunError>
    ensures tells { Tells result (unary_result op (plain_type ty.now) mode x) }
    ensures answered { IsNumberOf (plain_type ty.now) x → IsAnswered result }
{
    match x {
        Value::Number(n) => {
            let r = unary(op, number_type(ty), mode, n)?;
            Ok(Value::Number(r))
        }
        Value::Pointer(_) => Err(RunError::Undefined(Undefined::Invalid)),
    }
}

/// The value of a binary operator with this result type.
pub fn binary_value(
    f: &Context,
    s: &State,
    op: BinOp,
    ty: &CType,
    mode: Mode,
    a: &Operand,
    b: &Operand,
) -> Result<Value, RunError>
    requires { HasLayouts f.now.program.now }
    ensures answered { IsGiven f.now → IsOperand f.now (plain_type a.now.ty.now) a.now.value
        → IsOperand f.now (plain_type b.now.ty.now) b.now.value
        → HaveBinaryTypes op (plain_type ty.now) (plain_type a.now.ty.now) (plain_type b.now.ty.now)
        → IsAnswered result }
    ensures tells { Tells result (binary_result op (plain_type ty.now) mode
        (operand_of (plain_program f.now.program.now) (plain_type a.now.ty.now) a.now.value (seen s.now))
        (operand_of (plain_program f.now.program.now) (plain_type b.now.ty.now) b.now.value (seen s.now))) }
{
    match a.value {
        Value::Number(m) => match b.value {
            Value::Number(n) => {
                let x = typed(a.ty, m);
                let y = typed(b.ty, n);
                let r = operation(op, number_type(ty), mode, x, y)?;
                Ok(Value::Number(r))
            }
            Value::Pointer(q) => offset_pointer(f, s, op, b, q, m),
        },
        Value::Pointer(p) => match b.value {
            Value::Number(n) => offset_pointer(f, s, op, a, p, n),
            Value::Pointer(q) => pointers(f, s, op, a, p, b, q),
        },
    }
}

fn typed(ty: &CType, n: i128) -> Typed
    ensures ty { result.ty ≡ number_type (plain_type ty.now) }
    ensures number { result.n ≡ n }
{
    Typed {
        ty: number_type(ty),
        n,
    }
}

/// A value in a type.
pub fn conversion(
    f: &Context,
    s: &State,
    ty: &CType,
    mode: Mode,
    a: &Operand,
) -> Result<Value, RunError>
    requires { HasLayouts f.now.program.now }
    ensures answered { IsGiven f.now → IsOperand f.now (plain_type a.now.ty.now) a.now.value
        → IsScalar (plain_type ty.now) → AreConvertible (plain_type ty.now) (plain_type a.now.ty.now)
        → IsAnswered result }
    ensures tells { Tells result (conversion_result (plain_type ty.now) mode
        (operand_of (plain_program f.now.program.now) (plain_type a.now.ty.now) a.now.value (seen s.now))) }
{
    match a.value {
        Value::Number(n) => {
            let r = brought(number_type(ty), mode, typed(a.ty, n))?;
            Ok(Value::Number(r))
        }
        Value::Pointer(p) => match ty {
            CType::Ptr { space, .. } => {
                let of = referent(f, s, p)?;
                in_space(*space, p, of)
            }
            _ => Err(RunError::Undefined(Undefined::Invalid)),
        },
    }
}

/// Whether a value is unequal to 0, or not null.
pub fn truth(f: &Context, s: &State, x: Value) -> Result<bool, RunError>
    requires { HasLayouts f.now.program.now }
    ensures answered { IsGiven f.now → IsAnswered result }
    ensures tells { Tells result (truth_result (operand_of (plain_program f.now.program.now) void x (seen s.now))) }
{
    match x {
        Value::Number(n) => Ok(is_not_zero(n)),
        Value::Pointer(p) => {
            let of = referent(f, s, p)?;
            match pointer_truth(p, of) {
                Ok(holds) => Ok(holds),
                Err(point) => Err(RunError::Undefined(point)),
            }
        }
    }
}

/// The value that a compound assignment writes, from the old value of its place and its right side. The
/// first mode is that of the operation, and the second that of the conversion to the type of the place.
pub fn compound_value(
    f: &Context,
    s: &State,
    op: BinOp,
    operation_mode: Mode,
    mode: Mode,
    a: &Operand,
    b: &Operand,
) -> Result<Value, RunError>
    requires { HasLayouts f.now.program.now }
    ensures answered { IsGiven f.now → IsOperand f.now (plain_type a.now.ty.now) a.now.value
        → IsOperand f.now (plain_type b.now.ty.now) b.now.value
        → HaveCompoundTypes op (plain_type a.now.ty.now) (plain_type b.now.ty.now) → IsAnswered result }
    ensures tells { Tells result (compound_result op operation_mode mode
        (operand_of (plain_program f.now.program.now) (plain_type a.now.ty.now) a.now.value (seen s.now))
        (operand_of (plain_program f.now.program.now) (plain_type b.now.ty.now) b.now.value (seen s.now))) }
{
    match b.value {
        Value::Number(n) => match a.value {
            Value::Number(m) => {
                let r = compound(op, operation_mode, mode, typed(a.ty, m), typed(b.ty, n))?;
                Ok(Value::Number(r))
            }
            Value::Pointer(p) => offset_pointer(f, s, op, a, p, n),
        },
        Value::Pointer(_) => Err(RunError::Undefined(Undefined::Invalid)),
    }
}
