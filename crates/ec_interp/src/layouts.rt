//! Types of places, and layouts of types.
ghost use Rattle.std.specs.Prelude.{◌≡◌, ◌≤◌, IsTrue, map, length, take, option_map, unwrap_or, slice_get, IfErr, IfOk};
ghost use Rattle.std.specs.List.{AllByRecursion};
ghost use Rattle.std.specs.Option.{option_copied};
ghost use Rattle.ec_core.specs.Accesses.{element_size, leaf_count, member_offset};
ghost use Rattle.ec_core.specs.Layout.{plain_leaf, size_of_type, leaves_of_type, members_layout, struct_layouts};
ghost use Rattle.ec_core.specs.Layout.{NamesBelow, IsElement, IsObjectType};
ghost use Rattle.ec_core.specs.Plain.{void, plain_type, plain_member, plain_struct, plain_place, plain_program};
ghost use Rattle.ec_core.specs.Typing.{pointee, pointer_space, member_type, place_type, place_space};
ghost use Rattle.ec_core.specs.Valid.{IsExprType};
ghost use Rattle.ec_interp.specs.Suits.{IsMemory};
ghost use Rattle.ec_interp.specs.Views.{HasLayouts};

use crate::behaviour::Unanswered;
use crate::state::{Context, at, object};
use ec_core::{CType, Leaf, Member, PlaceExpr, Program, StructDef, leaves, size_of};
use ec_space::{Seq, SpaceId};

// ---- types that have a layout

fn names_below(count: usize, ty: &CType) -> bool
    ensures only { IsTrue result → NamesBelow count (plain_type ty.now) }
    ensures all { NamesBelow count (plain_type ty.now) → IsTrue result }
{
    match ty {
        CType::Void | CType::Int { .. } | CType::Fx { .. } => true,
        CType::Ptr { to, .. } => names_below(count, to),
        CType::Array { of, .. } => names_below(count, of),
        CType::Struct { index } => (*index as usize) < count,
    }
}

fn is_element(ty: &CType) -> bool
    ensures only { IsTrue result → IsElement (plain_type ty.now) }
    ensures all { IsElement (plain_type ty.now) → IsTrue result }
{
    match ty {
        CType::Int { bytes, .. } => *bytes == 1 || *bytes == 2 || *bytes == 4,
        CType::Fx { .. } | CType::Ptr { .. } | CType::Struct { .. } => true,
        CType::Void | CType::Array { .. } => false,
    }
}

/// A scalar, a struct, or an array of at most 32,767 scalars or structs, beside so many structs.
fn has_layout(count: usize, ty: &CType) -> bool
    ensures only { IsTrue result → IsObjectType count (plain_type ty.now) }
    ensures all { IsObjectType count (plain_type ty.now) → IsTrue result }
{
    match ty {
        CType::Array { of, len } => *len <= 32_767 && is_element(of) && names_below(count, of),
        _ => is_element(ty) && names_below(count, ty),
    }
}

/// The size of a type in bytes.
pub fn size(f: &Context, ty: &CType) -> Result<u32, Unanswered>
    requires { HasLayouts f.now.program.now }
    ensures size { IfOk result (λ bytes. bytes
        ≡ size_of_type (map plain_struct f.now.program.now.structs.items) (plain_type ty.now)) }
    ensures answered { IsObjectType (length f.now.program.now.structs.items) (plain_type ty.now)
        → IfErr result IsMemory }
{
    if !has_layout(f.program.structs.len(), ty) {
        return Err(Unanswered::Unsuited);
    }
    Ok(size_of(&f.program.structs, ty))
}

/// The scalar leaves of a type.
pub fn leaves_in(f: &Context, ty: &CType) -> Result<Seq<Leaf>, Unanswered>
    requires { HasLayouts f.now.program.now }
    ensures leaves { IfOk result (λ leaves. map plain_leaf leaves.items
        ≡ leaves_of_type (map plain_struct f.now.program.now.structs.items) (plain_type ty.now)) }
    ensures answered { IsObjectType (length f.now.program.now.structs.items) (plain_type ty.now)
        → IfErr result IsMemory }
{
    if !has_layout(f.program.structs.len(), ty) {
        return Err(Unanswered::Unsuited);
    }
    match leaves(f.alloc, &f.program.structs, ty) {
        Ok(leaves) => Ok(leaves),
        Err(_) => Err(Unanswered::NoMemory),
    }
}

/// How many leaves a type has.
pub fn leaf_count(f: &Context, ty: &CType) -> Result<usize, Unanswered>
    requires { HasLayouts f.now.program.now }
    ensures count { IfOk result (λ n. n ≡ leaf_count (plain_program f.now.program.now) (plain_type ty.now)) }
    ensures answered { IsObjectType (length f.now.program.now.structs.items) (plain_type ty.now)
        → IfErr result IsMemory }
{
    let leaves = leaves_in(f, ty)?;
    Ok(leaves.len())
}

// ---- parts of types

/// The size of what a type points to, 0 where it is no pointer.
pub fn element_size(f: &Context, ty: &CType) -> Result<u32, Unanswered>
    requires { HasLayouts f.now.program.now }
    ensures size { IfOk result (λ bytes. bytes ≡ element_size (plain_program f.now.program.now) (plain_type ty.now)) }
    ensures answered { IsExprType (plain_program f.now.program.now) (plain_type ty.now) → IfErr result IsMemory }
{
    match ty.pointee() {
        Some(to) => size(f, to),
        None => Ok(0),
    }
}

fn struct_at(program: &Program, index: u32) -> Option<&StructDef>
    ensures { option_map plain_struct (option_copied result)
        ≡ slice_get (map plain_struct program.now.structs.items) index }
{
    at(program.structs.as_slice(), index as usize)
}

fn member_at(def: &StructDef, i: u16) -> Option<&Member>
    ensures { option_map plain_member (option_copied result) ≡ slice_get (plain_struct def.now).members i }
{
    at(def.members.as_slice(), i as usize)
}

/// The type of the member with a number of a type, which is that of a struct.
fn member_type<'a>(program: &'a Program, ty: &CType, i: u16) -> Option<&'a CType>
    ensures { option_map plain_type (option_copied result)
        ≡ member_type (plain_program program.now) (plain_type ty.now) i }
{
    match ty {
        CType::Struct { index } => match struct_at(program, *index) {
            Some(def) => match member_at(def, i) {
                Some(member) => Some(&member.ty),
                None => None,
            },
            None => None,
        },
        _ => None,
    }
}

/// The size of the first members. They and those behind them are small together.
fn members_size(f: &Context, members: &[Member], count: usize) -> Result<u32, Unanswered>
    requires layouts { HasLayouts f.now.program.now }
    requires small { (members_layout (struct_layouts (map plain_struct f.now.program.now.structs.items))
        (map plain_member members.now)).size ≤ 32_767 }
    ensures size { IfOk result (λ bytes. bytes
        ≡ (members_layout (struct_layouts (map plain_struct f.now.program.now.structs.items))
        (take count (map plain_member members.now))).size) }
    ensures bound { IfOk result (λ bytes.
        bytes ≤ (members_layout (struct_layouts (map plain_struct f.now.program.now.structs.items))
        (map plain_member members.now)).size) }
    ensures answered { AllByRecursion (λ m. IsObjectType (length f.now.program.now.structs.items) m.ty)
        (map plain_member members.now) → IfErr result IsMemory }
{
    if count == 0 {
        return Ok(0);
    }
    match members {
        [] => Ok(0),
        [first, rest @ ..] => {
            let bytes = size(f, &first.ty)?;
            let more = members_size(f, rest, count - 1)?;
            Ok(bytes + more)
        }
    }
}

/// Where the member with a number begins in a type, which is that of a struct.
pub fn member_offset(f: &Context, ty: Option<&CType>, i: u16) -> Result<u32, Unanswered>
    requires { HasLayouts f.now.program.now }
    ensures size { IfOk result (λ bytes. bytes
        ≡ member_offset (plain_program f.now.program.now)
        (unwrap_or (option_map plain_type (option_copied ty.entry)) void) i) }
    ensures answered { IfErr result IsMemory }
{
    match ty {
        Some(CType::Struct { index }) => match struct_at(f.program, *index) {
            Some(def) => members_size(f, def.members.as_slice(), i as usize),
            None => Ok(0),
        },
        _ => Ok(0),
    }
}

// ---- places

/// The type of a place.
pub fn place_type<'a>(program: &'a Program, p: &'a PlaceExpr) -> Option<&'a CType>
    ensures { option_map plain_type (option_copied result)
        ≡ place_type (plain_program program.now) (plain_place p.now) }
{
    match p {
        PlaceExpr::Object(o) => match object(program, *o) {
            Some(x) => Some(&x.ty),
            None => None,
        },
        PlaceExpr::Deref(e) => e.ty.pointee(),
        PlaceExpr::Member(q, i) => match place_type(program, q) {
            Some(ty) => member_type(program, ty, *i),
            None => None,
        },
    }
}

/// The space that a place is in by its type.
pub fn place_space(program: &Program, p: &PlaceExpr) -> Option<SpaceId>
    ensures { result ≡ place_space (plain_program program.now) (plain_place p.now) }
{
    match p {
        PlaceExpr::Object(o) => match object(program, *o) {
            Some(x) => Some(x.space),
            None => None,
        },
        PlaceExpr::Deref(e) => match e.ty {
            CType::Ptr { space, .. } => Some(space),
            _ => None,
        },
        PlaceExpr::Member(q, _) => place_space(program, q),
    }
}
