//! The kinds of types by which the code of an operation is chosen.
ghost use Rattle.std.specs.Prelude.{◌≡◌};
ghost use Rattle.ec_core.specs.Plain.{plain_type};
ghost use Rattle.ec_select_operations.specs.Code.{is_signed, has_one_format, has_one_fraction};
ghost use Rattle.ec_select_operations.specs.Needs.{is_fixed, is_whole};
ghost use Rattle.ec_select_operations.specs.Pointers.{is_pointer, is_into_data};

use ec_core::CType;
use ec_space::SpaceId;

/// Whether a type is fixed-point.
pub fn is_fixed(ty: &CType) -> bool
    ensures { result ≡ is_fixed (plain_type ty.now) }
{
    matches!(ty, CType::Fx { .. })
}

/// Whether a type is that of a pointer.
pub fn is_pointer(ty: &CType) -> bool
    ensures { result ≡ is_pointer (plain_type ty.now) }
{
    matches!(ty, CType::Ptr { .. })
}

/// Whether operations take all bytes of an operand with this type: of fixed-point numbers and pointers.
pub fn is_whole(ty: &CType) -> bool
    ensures { result ≡ is_whole (plain_type ty.now) }
{
    matches!(ty, CType::Fx { .. } | CType::Ptr { .. })
}

/// Whether a type is that of numbers in two's complement.
pub(crate) fn is_signed(ty: &CType) -> bool
    ensures { result ≡ is_signed (plain_type ty.now) }
{
    match ty {
        CType::Int { signed, .. } => *signed,
        CType::Fx { kind, .. } => kind.format().signed,
        _ => false,
    }
}

/// Whether both types are fixed-point, and their numbers have equal formats.
pub(crate) fn has_one_format(ty: &CType, other: &CType) -> bool
    ensures { result ≡ has_one_format (plain_type ty.now) (plain_type other.now) }
{
    match (ty, other) {
        (CType::Fx { kind, .. }, CType::Fx { kind: with, .. }) => *kind == *with,
        _ => false,
    }
}

/// Whether both types are fixed-point, and their numbers have as many bits behind the point.
pub(crate) fn has_one_fraction(ty: &CType, other: &CType) -> bool
    ensures { result ≡ has_one_fraction (plain_type ty.now) (plain_type other.now) }
{
    match (ty, other) {
        (CType::Fx { kind, .. }, CType::Fx { kind: with, .. }) => {
            kind.format().frac == with.format().frac
        }
        _ => false,
    }
}

/// Whether a type is that of a pointer into the data bank alone.
pub(crate) fn is_into_data(ty: &CType) -> bool
    ensures { result ≡ is_into_data (plain_type ty.now) }
{
    match ty {
        CType::Ptr {
            space: SpaceId::Data,
            ..
        } => true,
        _ => false,
    }
}
