//! Types of places, and where members begin.
ghost use Rattle.std.specs.Prelude.{◌≡◌, ◌+◌, map, length, take, option_map, unwrap_or, slice_get, IfOk};
ghost use Rattle.std.specs.List.{AllByRecursion};
ghost use Rattle.std.specs.Option.{option_copied};
ghost use Rattle.ec_core.specs.Accesses.{member_offset};
ghost use Rattle.ec_core.specs.Layout.{members_layout, struct_layouts, IsObjectType};
ghost use Rattle.ec_core.specs.Plain.{void, plain_type, plain_member, plain_struct, plain_place, plain_program};
ghost use Rattle.ec_core.specs.Typing.{member_type, place_type};
ghost use Rattle.ec_lower.specs.Emits.{IsLaidOut};
ghost use Rattle.ec_lower_code.specs.Code.{offset_of};

use ec_core::{CType, Member, PlaceExpr, Program, StructDef, size_of, structs_are_laid_out};
use ec_space::NoMemory;

fn at<T>(items: &[T], i: usize) -> Option<&T>
    ensures { option_copied result ≡ slice_get items.now i }
{
    items.get(i)
}

fn struct_at(program: &Program, index: u32) -> Option<&StructDef>
    ensures { option_map plain_struct (option_copied result)
        ≡ slice_get (map plain_struct program.now.structs.items) index }
{
    at(program.structs.as_slice(), index as usize)
}

fn member_at(def: &StructDef, i: u16) -> Option<&Member>
    ensures { option_map plain_member (option_copied result) ≡ slice_get (plain_struct def.now).members i }
{
    at(def.members.as_slice(), i as usize)
}

/// The type of the member with a number of a type, which is that of a struct.
fn member_type<'a>(program: &'a Program, ty: &CType, i: u16) -> Option<&'a CType>
    ensures { option_map plain_type (option_copied result)
        ≡ member_type (plain_program program.now) (plain_type ty.now) i }
{
    match ty {
        CType::Struct { index } => match struct_at(program, *index) {
            Some(def) => match member_at(def, i) {
                Some(member) => Some(&member.ty),
                None => None,
            },
            None => None,
        },
        _ => None,
    }
}

/// The type of a place.
fn place_type<'a>(program: &'a Program, p: &'a PlaceExpr) -> Option<&'a CType>
    ensures { option_map plain_type (option_copied result)
        ≡ place_type (plain_program program.now) (plain_place p.now) }
{
    match p {
        PlaceExpr::Object(o) => match at(program.objs.as_slice(), *o as usize) {
            Some(x) => Some(&x.ty),
            None => None,
        },
        PlaceExpr::Deref(e) => e.ty.pointee(),
        PlaceExpr::Member(q, i) => match place_type(program, q) {
            Some(ty) => member_type(program, ty, *i),
            None => None,
        },
    }
}

/// A sum below 2^32.
pub fn sum(a: u32, b: u32) -> Result<u32, NoMemory>
    ensures { IfOk result (λ n. n ≡ a + b) }
{
    match a.checked_add(b) {
        Some(n) => Ok(n),
        None => Err(NoMemory),
    }
}

/// The first `count` members.
fn first_of(members: &[Member], count: usize) -> &[Member]
    ensures { result.now ≡ take count members.now }
{
    if count < members.len() {
        &members[..count]
    } else {
        members
    }
}

/// The bytes of the first members.
fn members_size(program: &Program, members: &[Member], count: usize) -> Result<u32, NoMemory>
    requires layouts { IsLaidOut (plain_program program.now) }
    requires known { AllByRecursion (λ m. IsObjectType (length program.now.structs.items) m.ty)
        (map plain_member members.now) }
    ensures { IfOk result (λ bytes. bytes
        ≡ (members_layout (struct_layouts (map plain_struct program.now.structs.items))
        (take count (map plain_member members.now))).size) }
{
    let first = first_of(members, count);
    let mut bytes = 0;
    for member in first {
        bytes = sum(bytes, size_of(&program.structs, &member.ty))?;
    }
    Ok(bytes)
}

/// Where the member with a number begins in a type, in bytes.
fn member_offset(program: &Program, ty: Option<&CType>, i: u16) -> Result<u32, NoMemory>
    requires { IsLaidOut (plain_program program.now) }
    ensures { IfOk result (λ bytes. bytes ≡ member_offset (plain_program program.now)
        (unwrap_or (option_map plain_type (option_copied ty.entry)) void) i) }
{
    structs_are_laid_out();
    match ty {
        Some(CType::Struct { index }) => match struct_at(program, *index) {
            Some(def) => members_size(program, def.members.as_slice(), i as usize),
            None => Ok(0),
        },
        _ => Ok(0),
    }
}

/// Where the member with a number begins in a place, in bytes.
pub fn offset_of(program: &Program, p: &PlaceExpr, i: u16) -> Result<u32, NoMemory>
    requires { IsLaidOut (plain_program program.now) }
    ensures { IfOk result (λ bytes. bytes ≡ offset_of (plain_program program.now) (plain_place p.now) i) }
{
    let ty = place_type(program, p);
    member_offset(program, ty, i)
}
