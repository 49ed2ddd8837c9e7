//! Static places and their addresses.
//!
//! Trees that are not used are dropped by a call: a drop in place at each exit would cost the proof its variants.
ghost use Rattle.std.specs.Prelude.{◌≡◌, ◌^◌, ◌<◌, map, length, take, IfSome, Some, option_map};
ghost use Rattle.std.specs.List.{AllByRecursion};
ghost use Rattle.ec_core.specs.Layout.{members_layout, struct_layouts, IsObjectType, AreStructs};
ghost use Rattle.ec_core.specs.Plain.{plain_type, plain_member, plain_struct};
ghost use Rattle.ec_check_initialisers.specs.Places.{plain_place, moved, start_of, object_in};
ghost use Rattle.std.specs.Prelude.{◌+◌, ◌*◌, ◌∷◌, [], position, slice_get, if◌then◌else◌};
ghost use Rattle.std.specs.Prelude.{IfOk, None};
ghost use Rattle.std.specs.Option.{option_copied};
ghost use Rattle.std.specs.Str.{bytes_eq};
ghost use Rattle.ec_core.specs.Layout.{size_of_type};
ghost use Rattle.ec_core.specs.Plain.{plain_expr};
ghost use Rattle.ec_grammar.specs.Views.{view_expression, view_assignment, view_conditional, view_binary, view_cast};
ghost use Rattle.ec_grammar.specs.Views.{view_unary, view_postfix, view_primary, view_identifier};
ghost use Rattle.ec_grammar.specs.Trees.{name};
ghost use Rattle.ec_check_names.specs.Names.{plain_named, plain_names};
ghost use Rattle.ec_check_operands.specs.Operands.{plain_operand, with_one};
ghost use Rattle.ec_check_forms.specs.Nodes.{used};
ghost use Rattle.ec_check_forms.specs.Accesses.{struct_of};
ghost use Rattle.ec_check_expressions.specs.Expressions.{of_expression};
ghost use Rattle.ec_check_expressions.specs.Known.{IsSound, plain_known};
ghost use Rattle.ec_check_expressions.specs.Tokens.{is_arrow};
ghost use Rattle.ec_check_initialisers.specs.Places.{named_outside, object_named};
ghost use Rattle.ec_check_initialisers.specs.Places.{index_of_number, index_of_result, index_of_value, index_of_operand};
ghost use Rattle.ec_check_initialisers.specs.Places.{index_value, indexed, element_type, element_address, element_of, number_in};
ghost use Rattle.ec_check_initialisers.specs.Places.{member_offset, member_at, member_in, member_of, plain_designated, place_in};
ghost use Rattle.ec_check_initialisers.specs.Places.{place_at, address_at, IsObjectPlace, address_designated, part_designated};
ghost use Rattle.ec_check_initialisers.specs.Places.{element_designated, address_form, form_of};
ghost use Rattle.ec_check_initialisers.specs.Places.{in_expression, in_assignment, in_conditional, in_binary, in_cast, in_unary};
ghost use Rattle.ec_check_initialisers.specs.Places.{in_postfix, in_primary, is_array, address_constant, NamesObjects};

use crate::forms::{is_constant_assignment, is_constant_expression};
use ec_check_constants::{constant, is_constant};
use ec_check_expressions::{Known, expression};
use ec_check_forms::take;
use ec_check_names::{Named, first_expression};
use ec_check_operands::{Faults, Operand, type_sort};
use ec_core::{CType, Expr, Member, StructDef, Undefined, size_of, structs_are_laid_out};
use ec_grammar::{
    Assignment, Binary, Cast, Conditional, Expression, Identifier, Postfix, Primary, PunctKind,
    Unary,
};
use ec_space::{Name, NoMemory, Seq};
use std::alloc::Global;

/// An address in an object with static storage.
#[derive(Clone, Copy)]
pub struct StaticAddress {
    /// The object's place in the program's list.
    pub object: u16,
    /// In bytes, from 0 to the object's size.
    pub offset: u32,
}

/// A place in an object with static storage.
#[derive(Clone, Copy)]
pub struct StaticPlace<'a> {
    /// None where no unit defines the object, or where the place is not in it.
    pub address: Option<StaticAddress>,
    /// The number of bytes of the object.
    pub size: u32,
    pub ty: &'a CType,
}

fn moved_from(size: u32, a: StaticAddress, bytes: u64) -> Option<StaticAddress>
    requires { bytes < 2 ^ 63 }
    ensures { result ≡ moved size (Some a) bytes }
{
    let offset = a.offset as u64 + bytes;
    if (size as u64) < offset {
        None
    } else {
        Some(StaticAddress {
            object: a.object,
            offset: offset as u32,
        })
    }
}

/// The address so many bytes behind one, or None where it is past the end of an object of so many bytes (6.5.6), or where
/// the address is not known.
pub fn moved(size: u32, address: Option<StaticAddress>, bytes: u64) -> Option<StaticAddress>
    requires { bytes < 2 ^ 63 }
    ensures { result ≡ moved size address bytes }
{
    match address {
        None => None,
        Some(a) => moved_from(size, a, bytes),
    }
}

fn start_of(number: Option<u16>) -> Option<StaticAddress>
    ensures { result ≡ start_of number }
{
    match number {
        None => None,
        Some(object) => Some(StaticAddress { object, offset: 0 }),
    }
}

/// The place of a whole object, with its number where a unit defines it. None where its type is not known, or where it
/// stands in a named register, which has no address.
pub fn object_in<'a>(
    structs: &Seq<StructDef>,
    number: Option<u16>,
    ty: &'a Option<CType>,
    register: bool,
) -> Option<StaticPlace<'a>>
    requires structs { AreStructs (map plain_struct structs.now.items) }
    requires object { IfSome (option_map plain_type ty.now) (IsObjectType (length structs.now.items)) }
    ensures value { option_map plain_place result
        ≡ object_in (map plain_struct structs.now.items) number (option_map plain_type ty.now) register }
    ensures object { IfSome (option_map plain_place result) (λ s. IsObjectType (length structs.now.items) s.ty) }
{
    let Some(ty) = ty else {
        return None;
    };
    if register {
        return None;
    }
    Some(StaticPlace {
        address: start_of(number),
        size: size_of(structs, ty),
        ty,
    })
}

/// The first `count` members.
pub fn first_of(members: &[Member], count: usize) -> &[Member]
    ensures { result.now ≡ take count members.now }
{
    if count < members.len() {
        &members[..count]
    } else {
        members
    }
}

/// The address behind members that begin at an address in an object of so many bytes, or None where it is past the
/// object's end.
pub fn behind(
    structs: &Seq<StructDef>,
    size: u32,
    from: Option<StaticAddress>,
    members: &[Member],
) -> Option<StaticAddress>
    requires structs { AreStructs (map plain_struct structs.now.items) }
    requires known { AllByRecursion (λ m. IsObjectType (length structs.now.items) m.ty)
        (map plain_member members.now) }
    ensures { result ≡ moved size from
        (members_layout (struct_layouts (map plain_struct structs.now.items)) (map plain_member members.now)).size }
{
    let mut address = moved(size, from, 0);
    for member in members {
        address = moved(size, address, size_of(structs, &member.ty) as u64);
    }
    address
}

/// What an expression names before a run.
#[derive(Clone, Copy)]
pub(crate) enum Designated<'a> {
    Place(StaticPlace<'a>),
    /// The address of a place.
    Address(StaticPlace<'a>),
}

/// The form of an item of the initialiser of a static object, by which it is an initial value or not.
#[derive(Clone, Copy)]
pub(crate) enum ItemForm {
    /// A constant expression.
    Constant,
    /// An address constant, and the address, where it is one in an object.
    Address(Option<StaticAddress>),
    Other,
}

// ---- names

fn named_outside<'a>(known: &Known<'a>, name: &Name) -> Option<&'a Named>
    ensures { option_map plain_named (option_copied result)
        ≡ named_outside name.now.items (plain_known known.now).names }
{
    if known.names.is_declared_since(0, name) {
        None
    } else {
        known.names.find(name)
    }
}

fn object_named<'a>(known: &Known<'a>, name: &Name) -> Option<StaticPlace<'a>>
    requires sound { IsSound (plain_known known.now) }
    requires named { NamesObjects (plain_known known.now) }
    ensures value { let k = plain_known known.now in option_map plain_place result
        ≡ object_named k.structs (named_outside name.now.items k.names) }
    ensures object { IfSome (option_map plain_place result)
        (λ s. IsObjectType (length known.now.structs.now.items) s.ty) }
{
    match named_outside(known, name) {
        None | Some(Named::Function { .. }) => None,
        Some(
            Named::Object {
                number,
                ty,
                register,
                ..
            },
        ) => object_in(known.structs, *number, ty, *register),
    }
}

// ---- elements

fn index_of_number(n: i128) -> Option<u16>
    ensures { result ≡ index_of_number n }
{
    if 0 <= n && n <= 32_767 {
        Some(n as u16)
    } else {
        None
    }
}

fn index_of_result(value: Result<i128, Undefined>) -> Option<u16>
    ensures { result ≡ index_of_result value }
{
    match value {
        Ok(n) => index_of_number(n),
        Err(_) => None,
    }
}

fn index_of_value(e: &Expr) -> Option<u16>
    ensures { result ≡ index_of_value (plain_expr e.now) }
{
    if type_sort(&e.ty).is_integer() && is_constant(e) {
        index_of_result(constant(e))
    } else {
        None
    }
}

fn index_of_operand(x: &Operand) -> Option<u16>
    ensures { result ≡ index_of_operand (plain_operand x.now) }
{
    match x {
        Operand::Place { .. } => None,
        Operand::Value { value, .. } => index_of_value(value),
    }
}

fn index_of_used(x: &Option<Operand>) -> Option<u16>
    ensures { result ≡ with_one (option_map plain_operand x.now) index_of_operand }
{
    match x {
        None => None,
        Some(x) => index_of_operand(x),
    }
}

/// The value of a constant index. What its rules tell is left to the walk over the whole initialiser.
fn index_value(alloc: Global, known: &Known, e: &Expression) -> Result<Option<u16>, NoMemory>
    requires { IsSound (plain_known known.now) }
    ensures { IfOk result (λ i. i ≡ index_value (plain_known known.now) (view_expression e.now)) }
{
    let mut untold = Faults::new();
    let x = expression(alloc, known, &mut untold, e)?;
    let x = take(&mut untold, x, first_expression(e));
    let i = index_of_used(&x);
    drop(x);
    Ok(i)
}

fn element_type(ty: &CType) -> Option<&CType>
    ensures { option_map plain_type (option_copied result) ≡ element_type (plain_type ty.now) }
{
    match ty {
        CType::Array { of, .. } => Some(of),
        CType::Void
        | CType::Int { .. }
        | CType::Fx { .. }
        | CType::Ptr { .. }
        | CType::Struct { .. } => None,
    }
}

fn element_address(s: &StaticPlace, i: Option<u16>, bytes: u32) -> Option<StaticAddress>
    ensures { result ≡ element_address (plain_place s.now) i bytes }
{
    match i {
        None => None,
        Some(i) => moved(s.size, s.address, i as u64 * bytes as u64),
    }
}

fn element_of<'a>(
    structs: &Seq<StructDef>,
    i: Option<u16>,
    s: &StaticPlace<'a>,
) -> Option<StaticPlace<'a>>
    requires structs { AreStructs (map plain_struct structs.now.items) }
    requires object { IsObjectType (length structs.now.items) (plain_place s.now).ty }
    ensures value { option_map plain_place result
        ≡ element_of (map plain_struct structs.now.items) i (plain_place s.now) }
    ensures object { IfSome (option_map plain_place result) (λ s. IsObjectType (length structs.now.items) s.ty) }
{
    let Some(of) = element_type(s.ty) else {
        return None;
    };
    Some(StaticPlace {
        address: element_address(s, i, size_of(structs, of)),
        size: s.size,
        ty: of,
    })
}

// ---- members

fn named_in(members: &[Member], name: &[u8]) -> Option<usize>
    ensures { result ≡ position (λ m. bytes_eq m.name.items name.now) members.now }
{
    members.iter().position(|m| m.name.as_slice() == name)
}

fn named_among(members: &Seq<Member>, name: &Name) -> Option<usize>
    ensures { result ≡ position (λ m. bytes_eq m.name.items name.now.items) members.now.items }
{
    named_in(members.as_slice(), name.as_slice())
}

fn number_in(name: &Name, def: &StructDef) -> Option<usize>
    ensures { result ≡ number_in name.now.items (plain_struct def.now) }
{
    named_among(&def.members, name)
}

fn member_at<'a>(
    structs: &Seq<StructDef>,
    s: &StaticPlace<'a>,
    def: &'a StructDef,
    i: usize,
) -> Option<StaticPlace<'a>>
    requires structs { AreStructs (map plain_struct structs.now.items) }
    requires known { AllByRecursion (λ m. IsObjectType (length structs.now.items) m.ty)
        (plain_struct def.now).members }
    ensures value { option_map plain_place result
        ≡ member_at (map plain_struct structs.now.items) (plain_place s.now) (plain_struct def.now) i }
    ensures object { IfSome (option_map plain_place result) (λ s. IsObjectType (length structs.now.items) s.ty) }
{
    let Some(member) = def.members.get(i) else {
        return None;
    };
    let earlier = first_of(def.members.as_slice(), i);
    Some(StaticPlace {
        address: behind(structs, s.size, s.address, earlier),
        size: s.size,
        ty: &member.ty,
    })
}

fn member_in<'a>(
    structs: &Seq<StructDef>,
    s: &StaticPlace<'a>,
    name: &Name,
    def: &'a StructDef,
) -> Option<StaticPlace<'a>>
    requires structs { AreStructs (map plain_struct structs.now.items) }
    requires known { AllByRecursion (λ m. IsObjectType (length structs.now.items) m.ty)
        (plain_struct def.now).members }
    ensures value { option_map plain_place result
        ≡ member_in (map plain_struct structs.now.items) (plain_place s.now) name.now.items (plain_struct def.now) }
    ensures object { IfSome (option_map plain_place result) (λ s. IsObjectType (length structs.now.items) s.ty) }
{
    match number_in(name, def) {
        None => None,
        Some(i) => member_at(structs, s, def, i),
    }
}

fn struct_of(ty: &CType) -> Option<u32>
    ensures { result ≡ struct_of (plain_type ty.now) }
{
    match ty {
        CType::Struct { index } => Some(*index),
        CType::Void
        | CType::Int { .. }
        | CType::Fx { .. }
        | CType::Ptr { .. }
        | CType::Array { .. } => None,
    }
}

fn member_of<'a>(
    structs: &'a Seq<StructDef>,
    name: &Name,
    s: &StaticPlace<'a>,
) -> Option<StaticPlace<'a>>
    requires { AreStructs (map plain_struct structs.now.items) }
    ensures value { option_map plain_place result
        ≡ member_of (map plain_struct structs.now.items) name.now.items (plain_place s.now) }
    ensures object { IfSome (option_map plain_place result) (λ s. IsObjectType (length structs.now.items) s.ty) }
{
    structs_are_laid_out();
    let Some(index) = struct_of(s.ty) else {
        return None;
    };
    match structs.get(index as usize) {
        None => None,
        Some(def) => member_in(structs, s, name, def),
    }
}

// ---- what an expression names

fn address_of(d: Option<Designated<'_>>) -> Option<Designated<'_>>
    ensures { option_map plain_designated result
        ≡ option_map address_at (place_in (option_map plain_designated d.entry)) }
{
    match d {
        Some(Designated::Place(s)) => Some(Designated::Address(s)),
        None | Some(Designated::Address(_)) => None,
    }
}

/// What a prefix operator makes of what stands behind it: `&` of a place is its address.
fn address_designated(op: PunctKind, d: Option<Designated<'_>>) -> Option<Designated<'_>>
    ensures { option_map plain_designated result ≡ address_designated op (option_map plain_designated d.entry) }
{
    match op {
        PunctKind::Ampersand => address_of(d),
        _ => None,
    }
}

fn is_arrow(op: PunctKind) -> bool
    ensures { result ≡ is_arrow op }
{
    match op {
        PunctKind::Arrow => true,
        _ => false,
    }
}

fn as_place(s: Option<StaticPlace<'_>>) -> Option<Designated<'_>>
    ensures { option_map plain_designated result ≡ option_map place_at (option_map plain_place s.entry) }
{
    match s {
        None => None,
        Some(s) => Some(Designated::Place(s)),
    }
}

fn part_designated<'a>(
    structs: &'a Seq<StructDef>,
    arrow: bool,
    name: &Name,
    d: Option<Designated<'a>>,
) -> Option<Designated<'a>>
    requires { AreStructs (map plain_struct structs.now.items) }
    ensures value { option_map plain_designated result
        ≡ part_designated (map plain_struct structs.now.items) arrow name.now.items
        (option_map plain_designated d.entry) }
    ensures object { IsObjectPlace (length structs.now.items) (option_map plain_designated result) }
{
    if arrow {
        return None;
    }
    match d {
        Some(Designated::Place(s)) => as_place(member_of(structs, name, &s)),
        None | Some(Designated::Address(_)) => None,
    }
}

fn element_designated<'a>(
    structs: &Seq<StructDef>,
    i: Option<u16>,
    d: Option<Designated<'a>>,
) -> Option<Designated<'a>>
    requires structs { AreStructs (map plain_struct structs.now.items) }
    requires object { IsObjectPlace (length structs.now.items) (option_map plain_designated d) }
    ensures value { option_map plain_designated result
        ≡ element_designated (map plain_struct structs.now.items) i (option_map plain_designated d.entry) }
    ensures object { IsObjectPlace (length structs.now.items) (option_map plain_designated result) }
{
    match d {
        Some(Designated::Place(s)) => as_place(element_of(structs, i, &s)),
        None | Some(Designated::Address(_)) => None,
    }
}

fn indexed<'a>(
    alloc: Global,
    known: &Known,
    d: Option<Designated<'a>>,
    e: &Expression,
) -> Result<Option<Designated<'a>>, NoMemory>
    requires sound { IsSound (plain_known known.now) }
    requires object { IsObjectPlace (length known.now.structs.now.items) (option_map plain_designated d) }
    ensures value { IfOk result (λ x. option_map plain_designated x
        ≡ indexed (plain_known known.now) (option_map plain_designated d.entry) (view_expression e.now)) }
    ensures object { IfOk result (λ x. IsObjectPlace (length known.now.structs.now.items)
        (option_map plain_designated x)) }
{
    let form = is_constant_expression(alloc, known, e)?;
    if form {
        let i = index_value(alloc, known, e)?;
        Ok(element_designated(known.structs, i, d))
    } else {
        Ok(None)
    }
}

/// What the name of a static object names.
fn in_name<'a>(known: &Known<'a>, n: &Identifier) -> Option<Designated<'a>>
    requires sound { IsSound (plain_known known.now) }
    requires named { NamesObjects (plain_known known.now) }
    ensures value { option_map plain_designated result
        ≡ in_primary (plain_known known.now) (name (view_identifier n.now)) }
    ensures object { IsObjectPlace (length known.now.structs.now.items) (option_map plain_designated result) }
{
    as_place(object_named(known, &n.name))
}

#[cycle(designated)]
fn in_expression<'a>(
    alloc: Global,
    known: &Known<'a>,
    e: &Expression,
) -> Result<Option<Designated<'a>>, NoMemory>
    requires sound { IsSound (plain_known known.now) }
    requires named { NamesObjects (plain_known known.now) }
    ensures value { IfOk result (λ d. option_map plain_designated d
        ≡ in_expression (plain_known known.now) (view_expression e.now)) }
    ensures object { IfOk result (λ d. IsObjectPlace (length known.now.structs.now.items)
        (option_map plain_designated d)) }
{
    match e {
        Expression::Single(a) => in_assignment(alloc, known, a),
        Expression::Comma(_, _, _) => Ok(None),
    }
}

#[cycle(designated)]
fn in_assignment<'a>(
    alloc: Global,
    known: &Known<'a>,
    e: &Assignment,
) -> Result<Option<Designated<'a>>, NoMemory>
    requires sound { IsSound (plain_known known.now) }
    requires named { NamesObjects (plain_known known.now) }
    ensures value { IfOk result (λ d. option_map plain_designated d
        ≡ in_assignment (plain_known known.now) (view_assignment e.now)) }
    ensures object { IfOk result (λ d. IsObjectPlace (length known.now.structs.now.items)
        (option_map plain_designated d)) }
{
    match e {
        Assignment::Value(c) => in_conditional(alloc, known, c),
        Assignment::Assign(_, _, _, _) => Ok(None),
    }
}

#[cycle(designated)]
fn in_conditional<'a>(
    alloc: Global,
    known: &Known<'a>,
    e: &Conditional,
) -> Result<Option<Designated<'a>>, NoMemory>
    requires sound { IsSound (plain_known known.now) }
    requires named { NamesObjects (plain_known known.now) }
    ensures value { IfOk result (λ d. option_map plain_designated d
        ≡ in_conditional (plain_known known.now) (view_conditional e.now)) }
    ensures object { IfOk result (λ d. IsObjectPlace (length known.now.structs.now.items)
        (option_map plain_designated d)) }
{
    match e {
        Conditional::Plain(b) => in_binary(alloc, known, b),
        Conditional::Choose(_, _, _, _, _) => Ok(None),
    }
}

#[cycle(designated)]
fn in_binary<'a>(
    alloc: Global,
    known: &Known<'a>,
    e: &Binary,
) -> Result<Option<Designated<'a>>, NoMemory>
    requires sound { IsSound (plain_known known.now) }
    requires named { NamesObjects (plain_known known.now) }
    ensures value { IfOk result (λ d. option_map plain_designated d
        ≡ in_binary (plain_known known.now) (view_binary e.now)) }
    ensures object { IfOk result (λ d. IsObjectPlace (length known.now.structs.now.items)
        (option_map plain_designated d)) }
{
    match e {
        Binary::Operand(c) => in_cast(alloc, known, c),
        Binary::Join(_, _, _, _) => Ok(None),
    }
}

#[cycle(designated)]
fn in_cast<'a>(
    alloc: Global,
    known: &Known<'a>,
    e: &Cast,
) -> Result<Option<Designated<'a>>, NoMemory>
    requires sound { IsSound (plain_known known.now) }
    requires named { NamesObjects (plain_known known.now) }
    ensures value { IfOk result (λ d. option_map plain_designated d
        ≡ in_cast (plain_known known.now) (view_cast e.now)) }
    ensures object { IfOk result (λ d. IsObjectPlace (length known.now.structs.now.items)
        (option_map plain_designated d)) }
{
    match e {
        Cast::Uncast(u) => in_unary(alloc, known, u),
        Cast::Convert(_, _, _, _) => Ok(None),
    }
}

#[cycle(designated)]
fn in_unary<'a>(
    alloc: Global,
    known: &Known<'a>,
    e: &Unary,
) -> Result<Option<Designated<'a>>, NoMemory>
    requires sound { IsSound (plain_known known.now) }
    requires named { NamesObjects (plain_known known.now) }
    ensures value { IfOk result (λ d. option_map plain_designated d
        ≡ in_unary (plain_known known.now) (view_unary e.now)) }
    ensures object { IfOk result (λ d. IsObjectPlace (length known.now.structs.now.items)
        (option_map plain_designated d)) }
{
    match e {
        Unary::Postfix(p) => in_postfix(alloc, known, p),
        Unary::Prefix(_, op, c) => {
            let d = in_cast(alloc, known, c)?;
            Ok(address_designated(*op, d))
        }
        Unary::Step(_, _, _) | Unary::Size(_, _, _, _) => Ok(None),
    }
}

#[cycle(designated)]
fn in_postfix<'a>(
    alloc: Global,
    known: &Known<'a>,
    e: &Postfix,
) -> Result<Option<Designated<'a>>, NoMemory>
    requires sound { IsSound (plain_known known.now) }
    requires named { NamesObjects (plain_known known.now) }
    ensures value { IfOk result (λ d. option_map plain_designated d
        ≡ in_postfix (plain_known known.now) (view_postfix e.now)) }
    ensures object { IfOk result (λ d. IsObjectPlace (length known.now.structs.now.items)
        (option_map plain_designated d)) }
{
    match e {
        Postfix::Primary(p) => in_primary(alloc, known, p),
        Postfix::Index(p, _, e, _) => {
            let d = in_postfix(alloc, known, p)?;
            indexed(alloc, known, d, e)
        }
        Postfix::Member(p, _, op, n) => {
            let d = in_postfix(alloc, known, p)?;
            Ok(part_designated(known.structs, is_arrow(*op), &n.name, d))
        }
        Postfix::Call(_, _, _, _) | Postfix::Stepped(_, _, _) => Ok(None),
    }
}

#[cycle(designated)]
fn in_primary<'a>(
    alloc: Global,
    known: &Known<'a>,
    e: &Primary,
) -> Result<Option<Designated<'a>>, NoMemory>
    requires sound { IsSound (plain_known known.now) }
    requires named { NamesObjects (plain_known known.now) }
    ensures value { IfOk result (λ d. option_map plain_designated d
        ≡ in_primary (plain_known known.now) (view_primary e.now)) }
    ensures object { IfOk result (λ d. IsObjectPlace (length known.now.structs.now.items)
        (option_map plain_designated d)) }
{
    match e {
        Primary::Name(n) => Ok(in_name(known, n)),
        Primary::Parenthesised(_, e, _) => in_expression(alloc, known, e),
        Primary::Constant(_, _) | Primary::Operation(_, _, _, _, _, _) => Ok(None),
    }
}

// ---- address constants

fn array_place<'a>(s: &StaticPlace<'a>) -> Option<StaticPlace<'a>>
    ensures { option_map plain_place result
        ≡ (if is_array (plain_place s.now).ty then Some (plain_place s.now) else None) }
{
    match element_type(s.ty) {
        None => None,
        Some(_) => Some(*s),
    }
}

fn address_constant(d: Option<Designated<'_>>) -> Option<StaticPlace<'_>>
    ensures { option_map plain_place result ≡ address_constant (option_map plain_designated d.entry) }
{
    match d {
        None => None,
        Some(Designated::Place(s)) => array_place(&s),
        Some(Designated::Address(s)) => Some(s),
    }
}

fn address_form(s: Option<StaticPlace<'_>>) -> ItemForm
    ensures { result ≡ address_form (option_map plain_place s.entry) }
{
    match s {
        None => ItemForm::Other,
        Some(s) => ItemForm::Address(s.address),
    }
}

/// The form of an item of the initialiser of a static object.
pub(crate) fn form_of(alloc: Global, known: &Known, a: &Assignment) -> Result<ItemForm, NoMemory>
    requires sound { IsSound (plain_known known.now) }
    requires named { NamesObjects (plain_known known.now) }
    ensures { IfOk result (λ form. form ≡ form_of (plain_known known.now) (view_assignment a.now)) }
{
    let constant_form = is_constant_assignment(alloc, known, a)?;
    if constant_form {
        Ok(ItemForm::Constant)
    } else {
        let d = in_assignment(alloc, known, a)?;
        Ok(address_form(address_constant(d)))
    }
}
