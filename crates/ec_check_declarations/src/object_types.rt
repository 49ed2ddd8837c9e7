//! Types that objects can have, and their sizes (ISO/IEC 9899:1999, 6.2.5 and 6.7.5.2).
ghost use Rattle.std.specs.Prelude.{◌≡◌, ℕ, IfSome, None, if◌then◌else◌, option_map, map, length};
ghost use Rattle.ec_core.specs.Layout.{IsObjectType, AreStructs};
ghost use Rattle.ec_core.specs.Plain.{plain_type, plain_struct};
ghost use Rattle.ec_check_expressions.specs.Known.{is_sized};
ghost use Rattle.ec_check_declarations.specs.ObjectTypes.{is_object_type, object_type, is_too_large};

use ec_core::{CType, StructDef, size_of};
use ec_space::Seq;

fn is_sized(structs: usize, ty: &CType) -> bool
    ensures { result ≡ is_sized structs (plain_type ty.now) }
{
    match ty {
        CType::Void | CType::Array { .. } => false,
        CType::Int { bytes, .. } => *bytes == 1 || *bytes == 2 || *bytes == 4,
        CType::Fx { .. } => true,
        CType::Ptr { to, .. } => to.names_below(structs),
        CType::Struct { index } => (*index as usize) < structs,
    }
}

/// Whether an object can have the type, where there are `structs` structs: it is a scalar, a struct, or an array of
/// them.
pub fn is_object_type(structs: usize, ty: &CType) -> bool
    ensures { result ≡ is_object_type structs (plain_type ty.now) }
{
    match ty {
        CType::Void => false,
        CType::Array { of, len } => is_sized(structs, of) && *len <= 32_767,
        CType::Int { .. } | CType::Fx { .. } | CType::Ptr { .. } | CType::Struct { .. } => {
            is_sized(structs, ty)
        }
    }
}

/// The type, if an object can have it.
pub(crate) fn object_type(structs: &Seq<StructDef>, ty: Option<CType>) -> Option<CType>
    ensures value { option_map plain_type result
        ≡ object_type (length (map plain_struct structs.now.items)) (option_map plain_type ty) }
    ensures object { IfSome (option_map plain_type result) (IsObjectType (length structs.now.items)) }
{
    let ty = ty?;
    if is_object_type(structs.len(), &ty) {
        Some(ty)
    } else {
        None
    }
}

/// Whether an object of the type has more bytes than an object may have (rule 9).
pub(crate) fn is_too_large(structs: &Seq<StructDef>, ty: &Option<CType>) -> bool
    requires structs { AreStructs (map plain_struct structs.now.items) }
    requires object { IfSome (option_map plain_type ty.now) (IsObjectType (length structs.now.items)) }
    ensures { result ≡ is_too_large (map plain_struct structs.now.items) (option_map plain_type ty.now) }
{
    match ty {
        None => false,
        Some(ty) => size_of(structs, ty) > 32_767,
    }
}

/// The type, if an object of it is not too large.
pub(crate) fn small_type(large: bool, ty: Option<CType>) -> Option<CType>
    ensures value { option_map plain_type result ≡ (if large then None else option_map plain_type ty) }
    ensures object { (n : ℕ) → IfSome (option_map plain_type ty) (IsObjectType n)
        → IfSome (option_map plain_type result) (IsObjectType n) }
{
    ty.filter(|_| !large)
}
