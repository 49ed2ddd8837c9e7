//! Types as they are looked at, and tests of them.
ghost use Rattle.std.specs.Prelude.{◌≡◌};
ghost use Rattle.ec_core.specs.ArithmeticTypes.{arithmetic_of};
ghost use Rattle.ec_core.specs.Plain.{plain_type};
ghost use Rattle.ec_core.specs.Typing.{pointer_space};
ghost use Rattle.ec_check_operands.specs.Sorts.{plain_sort, is_void, is_arithmetic, is_pointer, is_scalar, is_integer};
ghost use Rattle.ec_check_operands.specs.Sorts.{is_one_byte, is_struct, same_pointee};

use ec_core::{Arithmetic, CType, FixedType, IntegerType};
use ec_space::SpaceId;

/// A type that is looked at and not kept.
#[derive(Clone, Copy)]
pub enum Sort<'a> {
    Void,
    Number(Arithmetic),
    Pointer {
        space: SpaceId,
        konst: bool,
        to: &'a CType,
    },
    Array {
        of: &'a CType,
        len: u16,
    },
    Struct {
        index: u32,
    },
}

/// A type of any form.
pub fn type_sort(ty: &CType) -> Sort<'_>
    ensures { plain_sort result ≡ plain_type ty.now }
{
    match ty {
        CType::Void => Sort::Void,
        CType::Int { signed, bytes } => Sort::Number(Arithmetic::Integer(IntegerType {
            signed: *signed,
            bytes: *bytes,
        })),
        CType::Fx { kind, sat } => Sort::Number(Arithmetic::Fixed(FixedType {
            kind: *kind,
            sat: *sat,
        })),
        CType::Ptr { space, konst, to } => Sort::Pointer {
            space: *space,
            konst: *konst,
            to,
        },
        CType::Array { of, len } => Sort::Array { of, len: *len },
        CType::Struct { index } => Sort::Struct { index: *index },
    }
}

impl Sort<'_> {
    pub fn is_void(self) -> bool
        ensures { result ≡ is_void (plain_sort self.entry) }
    {
        match self {
            Sort::Void => true,
            Sort::Number(Arithmetic::Integer(_)) | Sort::Number(Arithmetic::Fixed(_)) => false,
            Sort::Pointer { .. } | Sort::Array { .. } | Sort::Struct { .. } => false,
        }
    }

    /// The arithmetic type that this is, or None where it is none.
    pub fn arithmetic(self) -> Option<Arithmetic>
        ensures { result ≡ arithmetic_of (plain_sort self.entry) }
    {
        match self {
            Sort::Number(Arithmetic::Integer(t)) => Some(Arithmetic::Integer(t)),
            Sort::Number(Arithmetic::Fixed(t)) => Some(Arithmetic::Fixed(t)),
            Sort::Void | Sort::Pointer { .. } | Sort::Array { .. } | Sort::Struct { .. } => None,
        }
    }

    pub fn is_arithmetic(self) -> bool
        ensures { result ≡ is_arithmetic (plain_sort self.entry) }
    {
        self.arithmetic().is_some()
    }

    pub fn is_pointer(self) -> bool
        ensures { result ≡ is_pointer (plain_sort self.entry) }
    {
        match self {
            Sort::Pointer { .. } => true,
            Sort::Number(Arithmetic::Integer(_)) | Sort::Number(Arithmetic::Fixed(_)) => false,
            Sort::Void | Sort::Array { .. } | Sort::Struct { .. } => false,
        }
    }

    /// The space of a pointer.
    pub fn space(self) -> Option<SpaceId>
        ensures { result ≡ pointer_space (plain_sort self.entry) }
    {
        match self {
            Sort::Pointer { space, .. } => Some(space),
            Sort::Number(Arithmetic::Integer(_)) | Sort::Number(Arithmetic::Fixed(_)) => None,
            Sort::Void | Sort::Array { .. } | Sort::Struct { .. } => None,
        }
    }

    pub fn is_scalar(self) -> bool
        ensures { result ≡ is_scalar (plain_sort self.entry) }
    {
        self.is_arithmetic() || self.is_pointer()
    }

    pub fn is_integer(self) -> bool
        ensures { result ≡ is_integer (plain_sort self.entry) }
    {
        match self {
            Sort::Number(Arithmetic::Integer(_)) => true,
            Sort::Number(Arithmetic::Fixed(_)) => false,
            Sort::Void | Sort::Pointer { .. } | Sort::Array { .. } | Sort::Struct { .. } => false,
        }
    }

    pub fn is_struct(self) -> bool
        ensures { result ≡ is_struct (plain_sort self.entry) }
    {
        match self {
            Sort::Struct { .. } => true,
            Sort::Number(Arithmetic::Integer(_)) | Sort::Number(Arithmetic::Fixed(_)) => false,
            Sort::Void | Sort::Pointer { .. } | Sort::Array { .. } => false,
        }
    }

    /// Whether it is an arithmetic type of one byte, as factors have.
    pub fn is_one_byte(self) -> bool
        ensures { result ≡ is_one_byte (plain_sort self.entry) }
    {
        match self {
            Sort::Number(Arithmetic::Integer(t)) => t.bytes == 1,
            Sort::Number(Arithmetic::Fixed(t)) => t.kind.format().bits == 8,
            Sort::Void | Sort::Pointer { .. } | Sort::Array { .. } | Sort::Struct { .. } => false,
        }
    }
}

/// Whether both are pointers to one type, whatever their const and spaces are.
pub fn same_pointee(a: Sort<'_>, b: Sort<'_>) -> bool
    ensures { result ≡ same_pointee (plain_sort a.entry) (plain_sort b.entry) }
{
    match (a, b) {
        (Sort::Pointer { to, .. }, Sort::Pointer { to: other, .. }) => to.is_same(other),
        _ => false,
    }
}
