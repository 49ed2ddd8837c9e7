//! The types that type names mean (ISO/IEC 9899:1999, 6.7.6).
ghost use Rattle.std.specs.Prelude.{◌≡◌, option_map};
ghost use Rattle.ec_core.specs.Plain.{plain_type};
ghost use Rattle.ec_check_expressions.specs.Types.{is_sized, meant_type};

use ec_core::CType;

/// Whether a type name can say the type and an object can have it, where there are `structs` structs.
pub fn is_sized(structs: usize, ty: &CType) -> bool
    ensures { result ≡ is_sized structs (plain_type ty.now) }
{
    match ty {
        CType::Void | CType::Array { .. } => false,
        CType::Int { bytes, .. } => *bytes == 1 || *bytes == 2 || *bytes == 4,
        CType::Fx { .. } => true,
        CType::Ptr { to, .. } => to.names_below(structs),
        CType::Struct { index } => (*index as usize) < structs,
    }
}

/// The type that a type name means, which says a type, and `void` at a token, if at all: None where it says `void`.
pub fn meant_type(void_at: Option<u32>, ty: Option<CType>) -> Option<CType>
    ensures { option_map plain_type result ≡ meant_type void_at (option_map plain_type ty) }
{
    let void = void_at.is_some();
    ty.filter(|_| !void)
}
