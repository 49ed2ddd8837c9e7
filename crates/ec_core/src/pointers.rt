//! Operators and conversions on pointers (ISO/IEC 9899:1999, 6.3.2.3, 6.5.6, 6.5.8 and 6.5.9).
//!
//! None is the null pointer. Beside a pointer stands what is known of the instance that it points into;
//! beside null it counts for nothing.
ghost use Rattle.std.specs.Prelude.{◌≡◌, ◌<◌, ◌≤◌, ◌+ℤ◌, ◌*ℤ◌, ◌-ℤ◌, pos, IfOk};
ghost use Rattle.ec_fx.specs.Numbers.{IsWhole};
ghost use Rattle.ec_core.specs.Integers.{truth, accepts};
ghost use Rattle.ec_core.specs.Pointers.{is_usable, displaced, moved, sum_of_pointer, same_instance, in_elements};
ghost use Rattle.ec_core.specs.Pointers.{elements_between, difference_of_pointers, ordered, is_at_end, apart, equality};
ghost use Rattle.ec_core.specs.Pointers.{compared_pointers, comparison_of_pointers, truth_of_pointer, pointer_in_space};

use crate::expressions::BinOp;
use crate::integers::accepts;
use crate::values::{ObjectPointer, Referent, Undefined};
use ec_space::SpaceId;

fn is_usable(p: Option<ObjectPointer>, of: Referent) -> bool
    ensures { result ≡ is_usable p of }
{
    match p {
        None => true,
        Some(_) => of.live,
    }
}

fn displaced(p: ObjectPointer, size: u32, at: i128) -> Result<Option<ObjectPointer>, Undefined>
    ensures { result ≡ displaced p size at }
{
    if 0 <= at && at <= size as i128 {
        Ok(Some(ObjectPointer {
            object: p.object,
            instance: p.instance,
            offset: at as u32,
        }))
    } else {
        Err(Undefined::PointerRange)
    }
}

/// An offset that is so many elements past another one.
fn offset_past(offset: u32, n: i128, element: u32) -> i128
    requires { IsWhole n }
    ensures { result ≡ pos offset +ℤ (n *ℤ pos element) }
{
    offset as i128 + n * element as i128
}

/// `p + n` for elements of `element` bytes. A negative `n` subtracts. Undefined are null, an object
/// that is not live, and a result outside the object.
pub fn pointer_sum(
    p: Option<ObjectPointer>,
    of: Referent,
    n: i128,
    element: u32,
) -> Result<Option<ObjectPointer>, Undefined>
    requires { IsWhole n }
    ensures { result ≡ sum_of_pointer p of n element }
{
    match p {
        None => Err(Undefined::PointerRange),
        Some(p) => {
            if of.live {
                displaced(p, of.size, offset_past(p.offset, n, element))
            } else {
                Err(Undefined::PointerUse)
            }
        }
    }
}

fn same_instance(p: ObjectPointer, q: ObjectPointer) -> bool
    ensures { result ≡ same_instance p q }
{
    p.object == q.object && p.instance == q.instance
}

fn in_elements(element: u32, p: u32, q: u32) -> Result<i128, Undefined>
    requires { 0 < element }
    ensures { result ≡ in_elements element (pos p -ℤ pos q) }
{
    let bytes = p as i128 - q as i128;
    if bytes % element as i128 == 0 {
        Ok(bytes / element as i128)
    } else {
        Err(Undefined::Unrelated)
    }
}

fn elements_between(
    element: u32,
    p: Option<ObjectPointer>,
    q: Option<ObjectPointer>,
) -> Result<i128, Undefined>
    requires { 0 < element }
    ensures { result ≡ elements_between element p q }
{
    match p {
        None => Err(Undefined::Unrelated),
        Some(p) => match q {
            None => Err(Undefined::Unrelated),
            Some(q) => {
                if same_instance(p, q) {
                    in_elements(element, p.offset, q.offset)
                } else {
                    Err(Undefined::Unrelated)
                }
            }
        },
    }
}

/// `p - q` in elements of `element` bytes, of which there is at least one. Undefined are objects that
/// are not live, pointers that are not into one object, and a difference that is no multiple.
pub fn pointer_difference(
    element: u32,
    p: Option<ObjectPointer>,
    of: Referent,
    q: Option<ObjectPointer>,
    into: Referent,
) -> Result<i128, Undefined>
    requires { 0 < element }
    ensures { result ≡ difference_of_pointers element p of q into }
{
    if is_usable(p, of) && is_usable(q, into) {
        elements_between(element, p, q)
    } else {
        Err(Undefined::PointerUse)
    }
}

fn ordered(op: BinOp, p: Option<ObjectPointer>, q: Option<ObjectPointer>) -> Result<i128, Undefined>
    ensures { result ≡ ordered op p q }
{
    match p {
        None => Err(Undefined::Unrelated),
        Some(p) => match q {
            None => Err(Undefined::Unrelated),
            Some(q) => {
                if same_instance(p, q) {
                    Ok(truth(accepts(op, p.offset.cmp(&q.offset))))
                } else {
                    Err(Undefined::Unrelated)
                }
            }
        },
    }
}

fn truth(holds: bool) -> i128
    ensures { result ≡ truth holds }
{
    if holds { 1 } else { 0 }
}

fn apart(p_at_end: bool, q_at_end: bool) -> Result<bool, Undefined>
    ensures { result ≡ apart p_at_end q_at_end }
{
    if p_at_end == q_at_end {
        Ok(false)
    } else {
        Err(Undefined::PointerUse)
    }
}

fn equality(
    p: Option<ObjectPointer>,
    of: Referent,
    q: Option<ObjectPointer>,
    into: Referent,
) -> Result<bool, Undefined>
    ensures { result ≡ equality p of q into }
{
    match p {
        None => Ok(q.is_none()),
        Some(p) => match q {
            None => Ok(false),
            Some(q) => {
                if same_instance(p, q) {
                    Ok(p.offset == q.offset)
                } else {
                    apart(p.offset == of.size, q.offset == into.size)
                }
            }
        },
    }
}

fn compared_pointers(
    op: BinOp,
    p: Option<ObjectPointer>,
    of: Referent,
    q: Option<ObjectPointer>,
    into: Referent,
) -> Result<i128, Undefined>
    ensures { result ≡ compared_pointers op p of q into }
{
    match op {
        BinOp::Eq => {
            let equal = equality(p, of, q, into)?;
            Ok(truth(equal))
        }
        BinOp::Ne => {
            let equal = equality(p, of, q, into)?;
            Ok(truth(!equal))
        }
        _ => ordered(op, p, q),
    }
}

/// The value of a comparison of two pointers, 0 or 1. Undefined are objects that are not live, an order
/// of pointers that are not into one object, and a pointer past its object's end beside one into
/// another object that is not past its end.
pub fn pointer_comparison(
    op: BinOp,
    p: Option<ObjectPointer>,
    of: Referent,
    q: Option<ObjectPointer>,
    into: Referent,
) -> Result<i128, Undefined>
    ensures { result ≡ comparison_of_pointers op p of q into }
{
    if is_usable(p, of) && is_usable(q, into) {
        compared_pointers(op, p, of, q, into)
    } else {
        Err(Undefined::PointerUse)
    }
}

/// A pointer as a condition: whether it is not null. Undefined is an object that is not live.
pub fn pointer_truth(p: Option<ObjectPointer>, of: Referent) -> Result<bool, Undefined>
    ensures { result ≡ truth_of_pointer p of }
{
    match p {
        None => Ok(false),
        Some(_) => {
            if of.live {
                Ok(true)
            } else {
                Err(Undefined::PointerUse)
            }
        }
    }
}

/// The pointer in a space, which keeps object and offset. Undefined are an object that is not live, and
/// one whose home the space lacks.
pub fn pointer_conversion(
    space: SpaceId,
    p: Option<ObjectPointer>,
    of: Referent,
) -> Result<Option<ObjectPointer>, Undefined>
    ensures { result ≡ pointer_in_space space p of }
{
    match p {
        None => Ok(None),
        Some(p) => {
            if !of.live {
                Err(Undefined::PointerUse)
            } else if space.holds(of.home) {
                Ok(Some(p))
            } else {
                Err(Undefined::Narrowing)
            }
        }
    }
}
