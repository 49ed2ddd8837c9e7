//! The parts of arrays and structs, and the rules that braces and their lack can break.
ghost use Rattle.std.specs.Prelude.{◌≡◌, map, drop, length, nat_lt, if◌then◌else◌, Some, None};
ghost use Rattle.std.specs.Prelude.{IfOk, IfSome, option_map};
ghost use Rattle.std.specs.Option.{option_copied};
ghost use Rattle.ec_core.specs.Layout.{IsObjectType, AreStructs};
ghost use Rattle.ec_core.specs.Plain.{plain_type, plain_struct, struct};
ghost use Rattle.ec_core.specs.Typing.{type_of_member};
ghost use Rattle.ec_check_operands.specs.Faults.{all_judged};
ghost use Rattle.ec_check_operands.specs.Sorts.{is_aggregate};
ghost use Rattle.ec_check_initialisers.specs.Parts.{part_type, part_of, member_count, part_count, scalar_of, is_bare};
ghost use Rattle.ec_check_initialisers.specs.Parts.{bare_rules, has_no_place, braces_rules};

use ec_check_operands::{Faults, boxed};
use ec_core::{CType, Leaf, StructDef, structs_are_laid_out};
use ec_space::{NoMemory, Seq};
use std::alloc::Global;

fn element_type(alloc: Global, of: &CType, len: u16, i: usize) -> Result<Option<CType>, NoMemory>
    ensures { IfOk result (λ ty. option_map plain_type ty ≡ (if nat_lt i len then Some (plain_type of.now) else None)) }
{
    if i < len as usize {
        let ty = of.copied(alloc)?;
        Ok(Some(ty))
    } else {
        Ok(None)
    }
}

fn member_type(
    alloc: Global,
    structs: &Seq<StructDef>,
    index: u32,
    i: usize,
) -> Result<Option<CType>, NoMemory>
    ensures { IfOk result (λ ty. option_map plain_type ty
        ≡ type_of_member (map plain_struct structs.now.items) (struct index) i) }
{
    let Some(def) = structs.get(index as usize) else {
        return Ok(None);
    };
    let Some(member) = def.members.get(i) else {
        return Ok(None);
    };
    let ty = member.ty.copied(alloc)?;
    Ok(Some(ty))
}

fn part_type(
    alloc: Global,
    structs: &Seq<StructDef>,
    ty: &CType,
    i: usize,
) -> Result<Option<CType>, NoMemory>
    ensures { IfOk result (λ part. option_map plain_type part
        ≡ part_type (map plain_struct structs.now.items) (plain_type ty.now) i) }
{
    match ty {
        CType::Array { of, len } => element_type(alloc, of, *len, i),
        CType::Struct { index } => member_type(alloc, structs, *index, i),
        CType::Void | CType::Int { .. } | CType::Fx { .. } | CType::Ptr { .. } => Ok(None),
    }
}

fn part_in(
    alloc: Global,
    structs: &Seq<StructDef>,
    ty: &Option<CType>,
    i: usize,
) -> Result<Option<CType>, NoMemory>
    ensures { IfOk result (λ part. option_map plain_type part
        ≡ part_of (map plain_struct structs.now.items) (option_map plain_type ty.now) i) }
{
    match ty {
        None => Ok(None),
        Some(ty) => part_type(alloc, structs, ty, i),
    }
}

/// A type that is known or not, in a box.
pub type Part = Box<Option<CType>>;

/// The type of the part with a number, counted from 0, or None where there is none.
pub fn part_of(
    alloc: Global,
    structs: &Seq<StructDef>,
    ty: &Option<CType>,
    i: usize,
) -> Result<Part, NoMemory>
    requires structs { AreStructs (map plain_struct structs.now.items) }
    requires object { IfSome (option_map plain_type ty.now) (IsObjectType (length structs.now.items)) }
    ensures value { IfOk result (λ part. option_map plain_type part.value
        ≡ part_of (map plain_struct structs.now.items) (option_map plain_type ty.now) i) }
    ensures object { IfOk result (λ part. IfSome (option_map plain_type part.value)
        (IsObjectType (length structs.now.items))) }
{
    structs_are_laid_out();
    let found = part_in(alloc, structs, ty, i)?;
    let part = boxed(alloc, found)?;
    Ok(part)
}

fn member_count(def: Option<&StructDef>) -> usize
    ensures { result ≡ member_count (option_map plain_struct (option_copied def.entry)) }
{
    match def {
        None => 0,
        Some(def) => def.members.len(),
    }
}

fn part_count(structs: &Seq<StructDef>, ty: &CType) -> usize
    ensures { result ≡ part_count (map plain_struct structs.now.items) (plain_type ty.now) }
{
    match ty {
        CType::Array { len, .. } => *len as usize,
        CType::Struct { index } => member_count(structs.get(*index as usize)),
        CType::Void | CType::Int { .. } | CType::Fx { .. } | CType::Ptr { .. } => 0,
    }
}

/// The type, where an object of it has no parts.
pub fn scalar_of(ty: &Option<CType>) -> Option<&CType>
    ensures { option_map plain_type (option_copied result) ≡ scalar_of (option_map plain_type ty.now) }
{
    match ty {
        None => None,
        Some(ty) => { if is_aggregate(ty) { None } else { Some(ty) } }
    }
}

/// Whether an object of the type has parts.
pub fn is_aggregate(ty: &CType) -> bool
    ensures { result ≡ is_aggregate (plain_type ty.now) }
{
    match ty {
        CType::Array { .. } | CType::Struct { .. } => true,
        CType::Void | CType::Int { .. } | CType::Fx { .. } | CType::Ptr { .. } => false,
    }
}

/// Whether it is the type of an object with parts.
pub fn is_bare(ty: &Option<CType>) -> bool
    ensures { result ≡ is_bare (option_map plain_type ty.now) }
{
    match ty {
        None => false,
        Some(ty) => is_aggregate(ty),
    }
}

/// Judges an initialiser without braces, which is told at its first token: rule 14.
pub fn judge_bare(faults: &mut Faults, ty: &Option<CType>, at: u32)
    ensures { faults.new.least ≡ all_judged faults.old.least (bare_rules (option_map plain_type ty.now) at) }
{
    faults.judge(14, is_bare(ty), at);
}

fn has_no_place(structs: &Seq<StructDef>, ty: &Option<CType>, count: usize) -> bool
    ensures { result ≡ has_no_place (map plain_struct structs.now.items) (option_map plain_type ty.now) count }
{
    match ty {
        None => false,
        Some(ty) => !is_aggregate(ty) || part_count(structs, ty) < count,
    }
}

/// Judges an initialiser with so many items in braces, which is told at `{`: rule 14.
pub fn judge_braces(
    faults: &mut Faults,
    structs: &Seq<StructDef>,
    ty: &Option<CType>,
    count: usize,
    at: u32,
)
    ensures { faults.new.least ≡ all_judged faults.old.least
        (braces_rules (map plain_struct structs.now.items) (option_map plain_type ty.now) count at) }
{
    faults.judge(14, has_no_place(structs, ty, count), at);
}

/// What stands behind the first `given` leaves.
pub fn rest_of(all: &[Leaf], given: usize) -> &[Leaf]
    ensures { result.now ≡ drop given all.now }
{
    if given < all.len() {
        &all[given..]
    } else {
        &[]
    }
}
