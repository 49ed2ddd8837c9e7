//! Types of operands, which are looked at and kept.
ghost use Rattle.std.specs.Prelude.{◌≡◌, IfOk};
ghost use Rattle.ec_core.specs.Plain.{plain_type};
ghost use Rattle.ec_check_operands.specs.Operands.{plain_operand, plain_sort, value_type};
ghost use Rattle.ec_check_operands.specs.Sorts.{is_aggregate, nest};

use crate::operands::{Operand, boxed};
use crate::sorts::{Sort, type_sort};
use ec_core::CType;
use ec_space::NoMemory;
use std::alloc::Global;

/// The type of an operand's value, where an array's is a pointer to its first element.
pub fn sort_of(x: &Operand) -> Sort<'_>
    ensures { plain_sort result ≡ value_type (plain_operand x.now) }
{
    match x {
        Operand::Place {
            ty,
            konst,
            space,
            ..
        } => match ty {
            CType::Array { of, .. } => Sort::Pointer {
                space: *space,
                konst: *konst,
                to: of,
            },
            CType::Void
            | CType::Int { .. }
            | CType::Fx { .. }
            | CType::Ptr { .. }
            | CType::Struct { .. } => type_sort(ty),
        },
        Operand::Value { value, .. } => type_sort(&value.ty),
    }
}

/// A type that was looked at, to be kept: another value that is the same type.
pub fn kept(alloc: Global, ty: Sort<'_>) -> Result<CType, NoMemory>
    ensures { IfOk result (λ kept. plain_type kept ≡ plain_sort ty.entry) }
{
    match ty {
        Sort::Void => Ok(CType::Void),
        Sort::Number(t) => Ok(t.to_type()),
        Sort::Pointer { space, konst, to } => {
            let to = boxed(alloc, to.copied(alloc)?)?;
            Ok(CType::Ptr { space, konst, to })
        }
        Sort::Array { of, len } => {
            let of = boxed(alloc, of.copied(alloc)?)?;
            Ok(CType::Array { of, len })
        }
        Sort::Struct { index } => Ok(CType::Struct { index }),
    }
}

/// Whether an object of the type has parts: it is an array or a struct.
pub fn is_aggregate(ty: &CType) -> bool
    ensures { result ≡ is_aggregate (plain_type ty.now) }
{
    match ty {
        CType::Array { .. } | CType::Struct { .. } => true,
        CType::Void | CType::Int { .. } | CType::Fx { .. } | CType::Ptr { .. } => false,
    }
}

/// Whether the spaces of two pointers nest.
pub fn nest(a: Sort<'_>, b: Sort<'_>) -> bool
    ensures { result ≡ nest (plain_sort a.entry) (plain_sort b.entry) }
{
    match (a, b) {
        (Sort::Pointer { space, .. }, Sort::Pointer { space: other, .. }) => {
            space.join(other).is_some()
        }
        _ => false,
    }
}
