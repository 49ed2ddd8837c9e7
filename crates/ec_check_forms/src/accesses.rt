//! Subscripts and members.
ghost use Rattle.std.specs.Prelude.{◌≡◌, IfOk, map, position, slice_get, option_map};
ghost use Rattle.std.specs.Str.{bytes_eq};
ghost use Rattle.ec_core.specs.Plain.{plain_type, plain_struct, struct};
ghost use Rattle.ec_core.specs.Typing.{type_of_member};
ghost use Rattle.ec_check_operands.specs.Faults.{all_judged};
ghost use Rattle.ec_check_operands.specs.Operands.{plain_operand, plain_sort, with_one, with_both};
ghost use Rattle.ec_check_forms.specs.Accesses.{no_pointer, no_integer, index_rules, indexed, struct_of, base_of, no_base};
ghost use Rattle.ec_check_forms.specs.Accesses.{member_number, not_among, no_member, member_rules, reached, part_of};
ghost use Rattle.ec_check_forms.specs.Accesses.{member_of, AreCounted};

use crate::prefixes::pointed;
use ec_check_operands::{
    Faults, Modes, Operand, Sort, as_value, boxed, made, member_named, sort_of,
};
use ec_core::{Arithmetic, BinOp, CType, Member, Node, PlaceExpr, StructDef};
use ec_space::{Name, NoMemory, Seq};
use std::alloc::Global;

// ---- subscripts

fn is_no_pointer(x: &Option<Operand>) -> bool
    ensures { result ≡ no_pointer (option_map plain_operand x.now) }
{
    match x {
        None => false,
        Some(x) => !sort_of(x).is_pointer(),
    }
}

fn is_no_integer(x: &Option<Operand>) -> bool
    ensures { result ≡ no_integer (option_map plain_operand x.now) }
{
    match x {
        None => false,
        Some(x) => !sort_of(x).is_integer(),
    }
}

/// Judges the operands of a subscript, which are told at `[`.
pub fn judge_index(faults: &mut Faults, x: &Option<Operand>, y: &Option<Operand>, at: u32)
    ensures { faults.new.least ≡ all_judged faults.old.least
        (index_rules (option_map plain_operand x.now) (option_map plain_operand y.now) at) }
{
    faults.judge(34, is_no_pointer(x) || is_no_integer(y), at);
}

fn element(alloc: Global, modes: Modes, a: Operand, i: Operand) -> Result<Option<Operand>, NoMemory>
    ensures { IfOk result (λ x. option_map plain_operand x ≡ indexed modes (plain_operand a) (plain_operand i)) }
{
    if !sort_of(&i).is_integer() {
        drop((a, i));
        return Ok(None);
    }
    let i = boxed(alloc, as_value(modes, i));
    let a = boxed(alloc, as_value(modes, a))?;
    let ty = a.ty.copied(alloc)?;
    pointed(alloc, made(modes, ty, Node::Binary(BinOp::Add, a, i?)))
}

/// What a subscript makes of its operands, or None where one has no type or they break a rule.
pub fn index(
    alloc: Global,
    modes: Modes,
    x: Option<Operand>,
    y: Option<Operand>,
) -> Result<Option<Operand>, NoMemory>
    ensures { IfOk result (λ z. option_map plain_operand z
        ≡ with_both (option_map plain_operand x) (option_map plain_operand y) (indexed modes)) }
{
    let Some(x) = x else {
        drop(y);
        return Ok(None);
    };
    let Some(y) = y else {
        drop(x);
        return Ok(None);
    };
    element(alloc, modes, x, y)
}

// ---- members

fn struct_of(ty: &CType) -> Option<u32>
    ensures { result ≡ struct_of (plain_type ty.now) }
{
    match ty {
        CType::Struct { index } => Some(*index),
        CType::Void
        | CType::Int { .. }
        | CType::Fx { .. }
        | CType::Ptr { .. }
        | CType::Array { .. } => None,
    }
}

/// The struct of a value, or the one that it points to where `arrow` holds.
fn base_of(arrow: bool, ty: Sort<'_>) -> Option<u32>
    ensures { result ≡ base_of arrow (plain_sort ty.entry) }
{
    match ty {
        Sort::Pointer { to, .. } => { if arrow { struct_of(to) } else { None } }
        Sort::Struct { index } => { if arrow { None } else { Some(index) } }
        Sort::Number(Arithmetic::Integer(_)) | Sort::Number(Arithmetic::Fixed(_)) => None,
        Sort::Void | Sort::Array { .. } => None,
    }
}

fn place_in(members: &Seq<Member>, name: &Name) -> Option<usize>
    ensures { result ≡ position (λ m. bytes_eq m.name.items name.now.items) members.now.items }
{
    member_named(members.as_slice(), name.as_slice())
}

fn number_in(def: &StructDef, name: &Name) -> Option<usize>
    ensures { result ≡ position (λ m. bytes_eq m.name name.now.items) (plain_struct def.now).members }
{
    place_in(&def.members, name)
}

fn number_at(structs: &Seq<StructDef>, name: &Name, index: u32) -> Option<usize>
    ensures { result ≡ with_one (slice_get structs.now.items index) (λ def.
        position (λ m. bytes_eq m.name name.now.items) (plain_struct def).members) }
{
    match structs.get(index as usize) {
        None => None,
        Some(def) => number_in(def, name),
    }
}

fn member_number(structs: &Seq<StructDef>, name: &Name, index: u32) -> Option<usize>
    ensures { result ≡ member_number (map plain_struct structs.now.items) name.now.items index }
{
    number_at(structs, name, index)
}

fn is_no_base(arrow: bool, x: &Option<Operand>) -> bool
    ensures { result ≡ no_base arrow (option_map plain_operand x.now) }
{
    match x {
        None => false,
        Some(x) => base_of(arrow, sort_of(x)).is_none(),
    }
}

fn is_not_among(structs: &Seq<StructDef>, name: &Name, base: Option<u32>) -> bool
    ensures { result ≡ not_among (map plain_struct structs.now.items) name.now.items base }
{
    match base {
        None => false,
        Some(index) => member_number(structs, name, index).is_none(),
    }
}

fn is_no_member(structs: &Seq<StructDef>, name: &Name, arrow: bool, x: &Option<Operand>) -> bool
    ensures { result
        ≡ no_member (map plain_struct structs.now.items) name.now.items arrow (option_map plain_operand x.now) }
{
    match x {
        None => false,
        Some(x) => is_not_among(structs, name, base_of(arrow, sort_of(x))),
    }
}

/// Judges the operand of `->`, where `arrow` holds, or of `.`, which is told there, and the member, which is told at
/// its name.
pub fn judge_member(
    faults: &mut Faults,
    structs: &Seq<StructDef>,
    name: &Name,
    arrow: bool,
    x: &Option<Operand>,
    at: u32,
    name_at: u32,
)
    ensures { faults.new.least ≡ all_judged faults.old.least
        (member_rules (map plain_struct structs.now.items) name.now.items arrow (option_map plain_operand x.now)
        at name_at) }
{
    faults.judge(34, is_no_base(arrow, x), at);
    faults.judge(35, is_no_member(structs, name, arrow, x), name_at);
}

fn member_type(
    alloc: Global,
    structs: &Seq<StructDef>,
    index: u32,
    k: usize,
) -> Result<Option<CType>, NoMemory>
    ensures { IfOk result (λ ty. option_map plain_type ty
        ≡ type_of_member (map plain_struct structs.now.items) (struct index) k) }
{
    let Some(def) = structs.get(index as usize) else {
        return Ok(None);
    };
    let Some(m) = def.members.get(k) else {
        return Ok(None);
    };
    let ty = m.ty.copied(alloc)?;
    Ok(Some(ty))
}

fn reached(
    alloc: Global,
    modes: Modes,
    arrow: bool,
    x: Operand,
) -> Result<Option<Operand>, NoMemory>
    ensures { IfOk result (λ y. option_map plain_operand y ≡ reached modes arrow (plain_operand x)) }
{
    if arrow {
        pointed(alloc, as_value(modes, x))
    } else {
        Ok(Some(x))
    }
}

fn part_of(alloc: Global, ty: CType, k: u16, x: Operand) -> Result<Option<Operand>, NoMemory>
    ensures { IfOk result (λ y. option_map plain_operand y ≡ part_of (plain_type ty) k (plain_operand x)) }
{
    match x {
        Operand::Value { value, .. } => {
            drop((value, ty));
            Ok(None)
        }
        Operand::Place {
            konst,
            space,
            register,
            place,
            ..
        } => {
            let place = boxed(alloc, place)?;
            Ok(Some(Operand::Place {
                ty,
                konst,
                space,
                register,
                place: PlaceExpr::Member(place, k),
            }))
        }
    }
}

fn part_reached(
    alloc: Global,
    modes: Modes,
    arrow: bool,
    ty: CType,
    k: u16,
    x: Operand,
) -> Result<Option<Operand>, NoMemory>
    ensures { IfOk result (λ y. option_map plain_operand y
        ≡ with_one (reached modes arrow (plain_operand x)) (part_of (plain_type ty) k)) }
{
    let Some(base) = reached(alloc, modes, arrow, x)? else {
        return Ok(None);
    };
    part_of(alloc, ty, k, base)
}

fn member_at(
    alloc: Global,
    modes: Modes,
    structs: &Seq<StructDef>,
    name: &Name,
    arrow: bool,
    x: Operand,
) -> Result<Option<Operand>, NoMemory>
    requires { AreCounted (map plain_struct structs.now.items) }
    ensures { IfOk result (λ y. option_map plain_operand y
        ≡ member_of modes (map plain_struct structs.now.items) name.now.items arrow (plain_operand x)) }
{
    let Some(index) = base_of(arrow, sort_of(&x)) else {
        drop(x);
        return Ok(None);
    };
    let Some(k) = member_number(structs, name, index) else {
        drop(x);
        return Ok(None);
    };
    match member_type(alloc, structs, index, k) {
        Ok(Some(ty)) => part_reached(alloc, modes, arrow, ty, k as u16, x),
        Ok(None) => {
            drop(x);
            Ok(None)
        }
        Err(fault) => {
            drop(x);
            Err(fault)
        }
    }
}

/// What `->`, where `arrow` holds, or `.` makes of its operand, or None where that has no type or a rule is broken.
pub fn member(
    alloc: Global,
    modes: Modes,
    structs: &Seq<StructDef>,
    name: &Name,
    arrow: bool,
    x: Option<Operand>,
) -> Result<Option<Operand>, NoMemory>
    requires { AreCounted (map plain_struct structs.now.items) }
    ensures { IfOk result (λ y. option_map plain_operand y
        ≡ with_one (option_map plain_operand x)
        (member_of modes (map plain_struct structs.now.items) name.now.items arrow)) }
{
    let Some(x) = x else {
        return Ok(None);
    };
    member_at(alloc, modes, structs, name, arrow, x)
}
