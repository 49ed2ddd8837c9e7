//! Types (ISO/IEC 9899:1999, 6.2.5; ISO/IEC TR 18037:2008, 4.1.1 and 5.1).
ghost use Rattle.std.specs.Prelude.{◌≡◌, option_map, IfOk};
ghost use Rattle.std.specs.Option.{option_copied};

use crate::layers::{unwrapped, wrapped};
use ec_fx::FxKind;
use ec_space::{Name, NoMemory, Seq, SpaceId};
use std::alloc::Global;

/// A type. `char` and `signed char` are one type of 1 byte, `short` and `int` one type of 2 bytes, and
/// `long` has 4. Whether an object is const stands at the object, and not in its type.
pub enum CType {
    /// The result of a function without one.
    Void,
    /// An integer type of 1, 2 or 4 bytes.
    Int {
        signed: bool,
        bytes: u8,
    },
    /// A fixed-point type, `sat` where it has `_Sat`.
    Fx {
        kind: FxKind,
        sat: bool,
    },
    /// A pointer into a space, `konst` where it points to const.
    Ptr {
        space: SpaceId,
        konst: bool,
        to: Box<CType>,
    },
    /// An array of `len` elements.
    Array {
        of: Box<CType>,
        len: u16,
    },
    /// The struct with this place in the program's list.
    Struct {
        index: u32,
    },
}

impl Drop for CType {
    /// Frees what the type is made of in a loop, since a type may have as many layers as a text has stars.
    fn drop(mut self) {
        loop {
            match self {
                CType::Ptr {
                    space: _,
                    konst: _,
                    to,
                } => self = Box::into_inner(to),
                CType::Array { of, len: _ } => self = Box::into_inner(of),
                CType::Void => return,
                CType::Int {
                    signed: _,
                    bytes: _,
                } => return,
                CType::Fx { kind: _, sat: _ } => return,
                CType::Struct { index: _ } => return,
            }
        }
    }
}

pub(crate) fn boxed<T: Drop>(alloc: Global, x: T) -> Result<Box<T>, NoMemory>
    ensures { IfOk result (λ b. b.value ≡ x) }
{
    match Box::new(alloc, x) {
        Ok(b) => Ok(b),
        Err(_) => Err(NoMemory),
    }
}

impl CType {
    ghost use Rattle.ec_core.specs.Layers.{names_below, value_type_of};
    ghost use Rattle.ec_core.specs.Operators.{same_type};
    ghost use Rattle.ec_core.specs.Plain.{plain_type};
    ghost use Rattle.ec_core.specs.Typing.{pointee};

    /// Another value that is the same type.
    pub fn copied(&self, alloc: Global) -> Result<CType, NoMemory>
        ensures { IfOk result (λ copy. plain_type copy ≡ plain_type self.now) }
    {
        let mut layers = Vec::new(alloc);
        let innermost = unwrapped(self, &mut layers)?;
        wrapped(alloc, &mut layers, innermost)
    }

    /// What it points to, or None where it is no pointer.
    pub fn pointee(&self) -> Option<&CType>
        ensures { option_map plain_type (option_copied result) ≡ pointee (plain_type self.now) }
    {
        match self {
            CType::Ptr { to, .. } => Some(to),
            _ => None,
        }
    }

    /// The type that the value of an object has: of an array a pointer to its elements, which stand in `space` and are const
    /// where `konst` is; of any other object its own (ISO/IEC 9899:1999, 6.3.2.1).
    pub fn of_value(self, space: SpaceId, konst: bool) -> CType
        ensures { plain_type result ≡ value_type_of space konst (plain_type self) }
    {
        match self {
            CType::Array { of, len: _ } => CType::Ptr {
                space,
                konst,
                to: of,
            },
            CType::Void => CType::Void,
            CType::Int { signed, bytes } => CType::Int { signed, bytes },
            CType::Fx { kind, sat } => CType::Fx { kind, sat },
            CType::Ptr { space, konst, to } => CType::Ptr { space, konst, to },
            CType::Struct { index } => CType::Struct { index },
        }
    }

    /// Whether the struct that the type is made of, where there is one, is among the first `count`.
    pub fn names_below(&self, count: usize) -> bool
        ensures { result ≡ names_below count (plain_type self.now) }
    {
        let mut at = self;
        loop {
            match at {
                CType::Void | CType::Int { .. } | CType::Fx { .. } => return true,
                CType::Ptr { to, .. } => at = to,
                CType::Array { of, .. } => at = of,
                CType::Struct { index } => return (*index as usize) < count,
            }
        }
    }

    /// Whether two types are the same, const of what they point to included.
    pub fn is_same(&self, other: &CType) -> bool
        ensures { result ≡ same_type (plain_type self.now) (plain_type other.now) }
    {
        let mut mine = self;
        let mut theirs = other;
        loop {
            match (mine, theirs) {
                (
                    CType::Ptr { space, konst, to },
                    CType::Ptr {
                        space: place,
                        konst: fixed,
                        to: target,
                    },
                ) => {
                    if *space != *place || *konst != *fixed {
                        return false;
                    }
                    mine = to;
                    theirs = target;
                }
                (
                    CType::Array { of, len },
                    CType::Array {
                        of: element,
                        len: count,
                    },
                ) => {
                    if *len != *count {
                        return false;
                    }
                    mine = of;
                    theirs = element;
                }
                (CType::Void, CType::Void) => return true,
                (
                    CType::Int { signed, bytes },
                    CType::Int {
                        signed: sign,
                        bytes: count,
                    },
                ) => return *signed == *sign && *bytes == *count,
                (
                    CType::Fx { kind, sat },
                    CType::Fx {
                        kind: other,
                        sat: saturates,
                    },
                ) => return *kind == *other && *sat == *saturates,
                (CType::Struct { index }, CType::Struct { index: place }) => return *index
                    == *place,
                _ => return false,
            }
        }
    }
}

/// A member of a struct.
#[derive(Drop)]
pub struct Member {
    pub name: Name,
    pub ty: CType,
}

/// A struct definition. The members' types name earlier structs alone.
#[derive(Drop)]
pub struct StructDef {
    pub tag: Name,
    pub members: Seq<Member>,
}
