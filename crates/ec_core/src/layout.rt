//! Sizes of types and their scalar leaves.
ghost use Rattle.std.specs.Prelude.{◌≡◌, ◌+◌, ◌*◌, ◌^◌, ◌<◌, ◌≤◌, [], ◌∷◌, ◌++◌, length, map, IfOk, OnOk};
ghost use Rattle.std.specs.List.{AllByRecursion};
ghost use Rattle.ec_space.specs.Spaces.{width};
ghost use Rattle.ec_core.specs.Plain.{plain_type, plain_member, plain_struct};
ghost use Rattle.ec_core.specs.Layout.{plain_leaf, scalar_size, repeated, size_of_type, leaves_of_type, type_layout};
ghost use Rattle.ec_core.specs.Layout.{members_layout, struct_layouts, NamesBelow, IsElement, IsObjectType, AreStructs};

use crate::types::{CType, Member, StructDef};
use ec_space::{NoMemory, Seq, SpaceId};
use std::alloc::Global;

/// A scalar part of an object.
#[derive(Drop)]
pub struct Leaf {
    /// A scalar type.
    pub ty: CType,
    /// Its offset in bytes.
    pub at: u32,
}

/// The number of bytes of a type. A struct's members and an array's elements follow one another
/// without padding.
pub fn size_of(structs: &Seq<StructDef>, ty: &CType) -> u32
    requires structs { AreStructs (map plain_struct structs.now.items) }
    requires object { IsObjectType (length structs.now.items) (plain_type ty.now) }
    ensures { result ≡ size_of_type (map plain_struct structs.now.items) (plain_type ty.now) }
{
    type_size(structs.as_slice(), ty)
}

fn pointer_size(space: SpaceId) -> u32
    ensures { result ≡ width space }
{
    match space {
        SpaceId::Flash | SpaceId::Data => 2,
        SpaceId::FarFlash | SpaceId::Generic => 3,
    }
}

fn scalar_size(ty: &CType) -> u32
    ensures value { result ≡ scalar_size (plain_type ty.now) }
    ensures bound { result ≤ 255 }
{
    match ty {
        CType::Int { bytes, .. } => *bytes as u32,
        CType::Fx { kind, .. } => kind.format().bits as u32 / 8,
        CType::Ptr { space, .. } => pointer_size(*space),
        CType::Void | CType::Array { .. } | CType::Struct { .. } => 0,
    }
}

#[cycle(sizes)]
fn type_size(structs: &[StructDef], ty: &CType) -> u32
    requires structs { AreStructs (map plain_struct structs.now) }
    requires object { IsObjectType (length structs.now) (plain_type ty.now) }
    ensures { result ≡ size_of_type (map plain_struct structs.now) (plain_type ty.now) }
{
    match ty {
        CType::Array { of, len } => *len as u32 * element_size(structs, of),
        CType::Int { .. } | CType::Fx { .. } | CType::Ptr { .. } | CType::Struct { .. } => {
            element_size(structs, ty)
        }
        CType::Void => unreachable!(),
    }
}

#[cycle(sizes)]
fn element_size(structs: &[StructDef], ty: &CType) -> u32
    requires structs { AreStructs (map plain_struct structs.now) }
    requires names { NamesBelow (length structs.now) (plain_type ty.now) }
    requires element { IsElement (plain_type ty.now) }
    ensures value { result ≡ size_of_type (map plain_struct structs.now) (plain_type ty.now) }
    ensures bound { result ≤ 32_767 }
{
    match ty {
        CType::Int { .. } | CType::Fx { .. } | CType::Ptr { .. } => scalar_size(ty),
        CType::Struct { index } => {
            let def = &structs[*index as usize];
            members_size(structs, *index, def.members.as_slice())
        }
        CType::Void | CType::Array { .. } => unreachable!(),
    }
}

/// The size of members that name only structs below `index`.
#[cycle(sizes)]
fn members_size(structs: &[StructDef], index: u32, members: &[Member]) -> u32
    requires structs { AreStructs (map plain_struct structs.now) }
    requires index { index ≤ length structs.now }
    requires earlier { AllByRecursion (λ m. IsObjectType index m.ty) (map plain_member members.now) }
    requires small { (members_layout (struct_layouts (map plain_struct structs.now))
        (map plain_member members.now)).size ≤ 32_767 }
    ensures { result ≡ (members_layout (struct_layouts (map plain_struct structs.now))
        (map plain_member members.now)).size }
{
    let mut size = 0;
    for member in members {
        size += type_size(structs, &member.ty);
    }
    size
}

/// The scalar leaves of a type with their byte offsets, in order.
pub fn leaves(alloc: Global, structs: &Seq<StructDef>, ty: &CType) -> Result<Seq<Leaf>, NoMemory>
    requires structs { AreStructs (map plain_struct structs.now.items) }
    requires object { IsObjectType (length structs.now.items) (plain_type ty.now) }
    ensures { IfOk result (λ leaves. map plain_leaf leaves.items
        ≡ leaves_of_type (map plain_struct structs.now.items) (plain_type ty.now)) }
{
    let mut out = Seq::new(alloc);
    push_leaves(alloc, structs.as_slice(), ty, 0, &mut out)?;
    Ok(out)
}

// Each of the functions below appends the leaves of its type where it stands at the offset `at`.

#[cycle(pushes)]
fn push_leaves(
    alloc: Global,
    structs: &[StructDef],
    ty: &CType,
    at: u32,
    out: &mut Seq<Leaf>,
) -> Result<(), NoMemory>
    requires structs { AreStructs (map plain_struct structs.now) }
    requires object { IsObjectType (length structs.now) (plain_type ty.now) }
    requires fits { at + size_of_type (map plain_struct structs.now) (plain_type ty.now) < 2 ^ 32 }
    ensures { OnOk result (map plain_leaf out.new.items
        ≡ map plain_leaf out.old.items
        ++ (type_layout (struct_layouts (map plain_struct structs.now)) (plain_type ty.now)).leaves_at at) }
{
    match ty {
        CType::Array { of, len } => {
            push_elements(alloc, structs, of, *len, at, out)?;
            Ok(())
        }
        CType::Int { .. } | CType::Fx { .. } | CType::Ptr { .. } | CType::Struct { .. } => {
            push_element(alloc, structs, ty, at, out)?;
            Ok(())
        }
        CType::Void => unreachable!(),
    }
}

#[cycle(pushes)]
fn push_elements(
    alloc: Global,
    structs: &[StructDef],
    of: &CType,
    len: u16,
    at: u32,
    out: &mut Seq<Leaf>,
) -> Result<(), NoMemory>
    requires structs { AreStructs (map plain_struct structs.now) }
    requires names { NamesBelow (length structs.now) (plain_type of.now) }
    requires element { IsElement (plain_type of.now) }
    requires fits { at + len * size_of_type (map plain_struct structs.now) (plain_type of.now) < 2 ^ 32 }
    ensures { OnOk result (map plain_leaf out.new.items
        ≡ map plain_leaf out.old.items
        ++ (repeated len (type_layout (struct_layouts (map plain_struct structs.now))
        (plain_type of.now))).leaves_at at) }
{
    let size = element_size(structs, of);
    let mut offset = at;
    for done in 0..len {
        push_element(alloc, structs, of, offset, out)?;
        offset += size;
    }
    Ok(())
}

#[cycle(pushes)]
fn push_element(
    alloc: Global,
    structs: &[StructDef],
    ty: &CType,
    at: u32,
    out: &mut Seq<Leaf>,
) -> Result<(), NoMemory>
    requires structs { AreStructs (map plain_struct structs.now) }
    requires names { NamesBelow (length structs.now) (plain_type ty.now) }
    requires element { IsElement (plain_type ty.now) }
    requires fits { at + size_of_type (map plain_struct structs.now) (plain_type ty.now) < 2 ^ 32 }
    ensures { OnOk result (map plain_leaf out.new.items
        ≡ map plain_leaf out.old.items
        ++ (type_layout (struct_layouts (map plain_struct structs.now)) (plain_type ty.now)).leaves_at at) }
{
    match ty {
        CType::Int { .. } | CType::Fx { .. } | CType::Ptr { .. } => {
            push_scalar(alloc, ty, at, out)?;
            Ok(())
        }
        CType::Struct { index } => {
            let def = &structs[*index as usize];
            push_members(alloc, structs, *index, def.members.as_slice(), at, out)?;
            Ok(())
        }
        CType::Void | CType::Array { .. } => unreachable!(),
    }
}

fn push_scalar(alloc: Global, ty: &CType, at: u32, out: &mut Seq<Leaf>) -> Result<(), NoMemory>
    ensures { OnOk result (map plain_leaf out.new.items
        ≡ map plain_leaf out.old.items ++ record { ty = plain_type ty.now; at = at } ∷ []) }
{
    let ty = ty.copied(alloc)?;
    out.push(Leaf { ty, at })
}

/// Members that name only structs below `index`.
#[cycle(pushes)]
fn push_members(
    alloc: Global,
    structs: &[StructDef],
    index: u32,
    members: &[Member],
    at: u32,
    out: &mut Seq<Leaf>,
) -> Result<(), NoMemory>
    requires structs { AreStructs (map plain_struct structs.now) }
    requires index { index ≤ length structs.now }
    requires earlier { AllByRecursion (λ m. IsObjectType index m.ty) (map plain_member members.now) }
    requires fits { at + (members_layout (struct_layouts (map plain_struct structs.now))
        (map plain_member members.now)).size < 2 ^ 32 }
    ensures { OnOk result (map plain_leaf out.new.items
        ≡ map plain_leaf out.old.items
        ++ (members_layout (struct_layouts (map plain_struct structs.now))
        (map plain_member members.now)).leaves_at at) }
{
    let mut offset = at;
    for member in members {
        push_leaves(alloc, structs, &member.ty, offset, out)?;
        offset += type_size(structs, &member.ty);
    }
    Ok(())
}
