//! Definitions of structs (ISO/IEC 9899:1999, 6.7.2.1).
ghost use Rattle.std.specs.Prelude.{◌≡◌, ◌-◌, ◌∷◌, [], ◌++◌, IfOk, OnOk, IfSome, Some, true, map, length, option_map};
ghost use Rattle.ec_core.specs.Layout.{AreStructs, size_of_type};
ghost use Rattle.ec_core.specs.Plain.{plain_type, plain_member, plain_struct};
ghost use Rattle.ec_check_forms.specs.Accesses.{AreCounted};
ghost use Rattle.ec_grammar.specs.Views.{view_declarator, view_next_declarator, view_member, view_structure};
ghost use Rattle.ec_check_names.specs.Tables.{with_name};
ghost use Rattle.ec_check_names.specs.Tags.{plain_tags};
ghost use Rattle.ec_check_expressions.specs.Known.{IsSound, plain_known};
ghost use Rattle.ec_check_declarations.specs.Structures.{plain_member_declared, with_member, member_sites};
ghost use Rattle.ec_check_declarations.specs.Structures.{with_more_members, more_member_sites, with_declared, declared_sites};
ghost use Rattle.ec_check_declarations.specs.Structures.{with_all_declared, all_declared_sites, known_members, size_together};
ghost use Rattle.ec_check_declarations.specs.Structures.{left_by, is_over, is_within, may_follow, struct_of, struct_defined};
ghost use Rattle.ec_check_declarations.specs.Structures.{structure_sites, struct_number, with_struct, is_too_large_together};
ghost use Rattle.ec_check_declarations.specs.Structures.{member_list_sites, members_of};
ghost use Rattle.ec_check_declarations.specs.ObjectTypes.{is_object_type};
ghost use Rattle.ec_check_declarations.specs.Sites.{Walked};

use crate::name_sets::Members;
use crate::object_types::is_object_type;
use crate::objects::typed_declarator;
use crate::scopes::copied_name;
use ec_check_expressions::Known;
use ec_check_names::{Specified, StructTable, Tags, is_function, judge_specs, struct_key};
use ec_check_operands::Faults;
use ec_core::{CType, Member, StructDef, size_of, structs_are_laid_out};
use ec_grammar::{Declarator, NextDeclarator, Structure};
use ec_space::{Name, NoMemory, Seq};
use std::alloc::Global;

/// What a declarator of a member declares.
#[derive(Drop)]
pub struct MemberDeclared {
    pub name: Name,
    /// None where the declarator breaks a rule of types, or has the form of a function.
    pub ty: Option<CType>,
}

// ---- members

fn push_named(
    alloc: Global,
    members: &mut Members,
    name: &Name,
    ty: Option<CType>,
) -> Result<(), NoMemory>
    ensures { OnOk result (map plain_member_declared members.new.items ≡ map plain_member_declared members.old.items
        ++ record { name = name.now.items; ty = option_map plain_type ty } ∷ []) }
{
    let name = copied_name(alloc, name)?;
    members.push(alloc, MemberDeclared { name, ty })
}

fn add_member(
    alloc: Global,
    known: &Known,
    faults: &mut Faults,
    said: Specified,
    d: &Declarator,
    members: &mut Members,
) -> Result<(), NoMemory>
    requires { IsSound (plain_known known.now) }
    ensures { let k = plain_known known.now in let t = view_declarator d.now in
        let ms = map plain_member_declared members.old.items in
        OnOk result (Walked faults.old.least faults.new.least (member_sites k said t ms)
        (map plain_member_declared members.new.items) (with_member k said t ms)) }
{
    let o = typed_declarator(alloc, known, faults, false, said, d, &None)?;
    let at = d.name.spot.index;
    let again = members.has(&d.name.name);
    faults.judge(5, again, at);
    faults.judge(11, o.konst || is_function(&d.shape), at);
    push_named(alloc, members, &d.name.name, o.ty)
}

fn add_more(
    alloc: Global,
    known: &Known,
    faults: &mut Faults,
    said: Specified,
    more: &[NextDeclarator],
    members: &mut Members,
) -> Result<(), NoMemory>
    requires { IsSound (plain_known known.now) }
    ensures { let k = plain_known known.now in let ts = map view_next_declarator more.now in
        let ms = map plain_member_declared members.old.items in
        OnOk result (Walked faults.old.least faults.new.least (more_member_sites k said ts ms)
        (map plain_member_declared members.new.items) (with_more_members k said ts ms)) }
{
    for d in more {
        add_member(alloc, known, faults, said, &d.declarator, members)?;
    }
    Ok(())
}

fn add_declared(
    alloc: Global,
    known: &Known,
    faults: &mut Faults,
    m: &ec_grammar::Member,
    members: &mut Members,
) -> Result<(), NoMemory>
    requires { IsSound (plain_known known.now) }
    ensures { let k = plain_known known.now in let t = view_member m.now in
        let ms = map plain_member_declared members.old.items in
        OnOk result (Walked faults.old.least faults.new.least (declared_sites k t ms)
        (map plain_member_declared members.new.items) (with_declared k t ms)) }
{
    let said = judge_specs(faults, known.tags, false, &m.specs);
    add_member(alloc, known, faults, said, &m.first, members)?;
    add_more(alloc, known, faults, said, &m.more, members)
}

fn add_all_declared(
    alloc: Global,
    known: &Known,
    faults: &mut Faults,
    more: &[ec_grammar::Member],
    members: &mut Members,
) -> Result<(), NoMemory>
    requires { IsSound (plain_known known.now) }
    ensures { let k = plain_known known.now in let ts = map view_member more.now in
        let ms = map plain_member_declared members.old.items in
        OnOk result (Walked faults.old.least faults.new.least (all_declared_sites k ts ms)
        (map plain_member_declared members.new.items) (with_all_declared k ts ms)) }
{
    for m in more {
        add_declared(alloc, known, faults, m, members)?;
    }
    Ok(())
}

fn push_known(
    alloc: Global,
    known: &mut Seq<Member>,
    name: &Name,
    ty: &CType,
) -> Result<(), NoMemory>
    ensures { OnOk result (map plain_member known.new.items ≡ map plain_member known.old.items
        ++ record { name = name.now.items; ty = plain_type ty.now } ∷ []) }
{
    let name = copied_name(alloc, name)?;
    let ty = ty.copied(alloc)?;
    known.push(Member { name, ty })
}

/// The members, or None where the type of one is not known.
fn known_members(alloc: Global, members: &[MemberDeclared]) -> Result<Option<Seq<Member>>, NoMemory>
    ensures { IfOk result (λ ms. option_map (λ ms. map plain_member ms.items) ms
        ≡ known_members (map plain_member_declared members.now)) }
{
    let mut known = Seq::new(alloc);
    for m in members {
        let Some(ty) = &m.ty else {
            return Ok(None);
        };
        push_known(alloc, &mut known, &m.name, ty)?;
    }
    Ok(Some(known))
}

// ---- structs

fn less_type(left: u32, structs: &Seq<StructDef>, ty: &CType) -> u32
    requires structs { AreStructs (map plain_struct structs.now.items) }
    requires object { is_object_type (length (map plain_struct structs.now.items)) (plain_type ty.now) ≡ true }
    ensures { result ≡ left - size_of_type (map plain_struct structs.now.items) (plain_type ty.now) }
{
    left.saturating_sub(size_of(structs, ty))
}

/// What is left of 32,768 bytes once those of all members are taken from it, or None where one has not the type of an
/// object.
fn left_by(structs: &Seq<StructDef>, members: &[Member]) -> Option<u32>
    requires { AreStructs (map plain_struct structs.now.items) }
    ensures { result ≡ left_by (size_together (map plain_struct structs.now.items) (map plain_member members.now)) }
{
    let mut left = 32_768;
    for m in members {
        if !is_object_type(structs.len(), &m.ty) {
            return None;
        }
        left = less_type(left, structs, &m.ty);
    }
    Some(left)
}

fn is_over(left: Option<u32>) -> bool
    ensures { (size : _) → left ≡ left_by size → result ≡ is_over size }
{
    match left {
        None => false,
        Some(left) => left == 0,
    }
}

fn is_within(left: Option<u32>) -> bool
    ensures { (size : _) → left ≡ left_by size → result ≡ is_within size }
{
    match left {
        None => false,
        Some(left) => left != 0,
    }
}

fn is_too_large_together(structs: &Seq<StructDef>, members: &Option<Seq<Member>>) -> bool
    requires { AreStructs (map plain_struct structs.now.items) }
    ensures { result ≡ is_too_large_together (map plain_struct structs.now.items)
        (option_map (λ ms. map plain_member ms.items) members.now) }
{
    match members {
        None => false,
        Some(members) => is_over(left_by(structs, members.as_slice())),
    }
}

fn may_follow(structs: &Seq<StructDef>, members: &[Member]) -> bool
    requires { AreStructs (map plain_struct structs.now.items) }
    ensures { result ≡ may_follow (map plain_struct structs.now.items) (map plain_member members.now) }
{
    is_within(left_by(structs, members)) && members.len() <= 65_536 && structs.len() < 4_294_967_296
}

fn struct_of(
    alloc: Global,
    structs: &Seq<StructDef>,
    tag: &Name,
    members: Option<Seq<Member>>,
) -> Result<Option<StructDef>, NoMemory>
    requires { AreStructs (map plain_struct structs.now.items) }
    ensures value { IfOk result (λ s. option_map plain_struct s ≡ struct_of (map plain_struct structs.now.items)
        tag.now.items (option_map (λ ms. map plain_member ms.items) members)) }
    ensures follows { IfOk result (λ s. IfSome (option_map plain_struct s)
        (λ s. may_follow (map plain_struct structs.now.items) s.members ≡ true)) }
{
    let Some(members) = members else {
        return Ok(None);
    };
    if !may_follow(structs, members.as_slice()) {
        return Ok(None);
    }
    let tag = copied_name(alloc, tag)?;
    Ok(Some(StructDef { tag, members }))
}

fn declared_members(
    alloc: Global,
    known: &Known,
    faults: &mut Faults,
    s: &Structure,
) -> Result<Members, NoMemory>
    requires { IsSound (plain_known known.now) }
    ensures { let k = plain_known known.now in let first = view_member s.now.first in
        let more = map view_member s.now.more.items in
        IfOk result (λ ms. Walked faults.old.least faults.new.least (member_list_sites k first more)
        (map plain_member_declared ms.items) (with_all_declared k more (with_declared k first []))) }
{
    let mut members = Members::new(alloc);
    add_declared(alloc, known, faults, &s.first, &mut members)?;
    add_all_declared(alloc, known, faults, &s.more, &mut members)?;
    Ok(members)
}

/// The members, or None where one breaks a rule: they are judged apart, and the least fault there is noted.
fn all_members(
    alloc: Global,
    known: &Known,
    faults: &mut Faults,
    s: &Structure,
) -> Result<Option<Seq<Member>>, NoMemory>
    requires { IsSound (plain_known known.now) }
    ensures { let k = plain_known known.now in let first = view_member s.now.first in
        let more = map view_member s.now.more.items in
        IfOk result (λ ms. Walked faults.old.least faults.new.least (member_list_sites k first more)
        (option_map (λ ms. map plain_member ms.items) ms) (members_of k first more)) }
{
    let mut apart = Faults::new();
    let members = declared_members(alloc, known, &mut apart, s)?;
    match apart.least {
        None => known_members(alloc, members.as_slice()),
        Some(fault) => {
            faults.note(fault);
            Ok(None)
        }
    }
}

/// The struct that is defined, or None where a member breaks a rule, or where it is too large. Judges at the tag rule 10,
/// where the unit has defined it before, and rule 9 where no member breaks a rule; and of the members the rules of
/// specifiers and declarators, whatever their bytes, and rules 5 and 11 at the name.
pub fn defined_struct(
    alloc: Global,
    known: &Known,
    faults: &mut Faults,
    s: &Structure,
) -> Result<Option<StructDef>, NoMemory>
    requires { IsSound (plain_known known.now) }
    ensures walked { let k = plain_known known.now in let t = view_structure s.now in
        IfOk result (λ d. Walked faults.old.least faults.new.least (structure_sites k t)
        (option_map plain_struct d) (struct_defined k t)) }
    ensures follows { IfOk result (λ d. IfSome (option_map plain_struct d)
        (λ s. may_follow (map plain_struct known.now.structs.now.items) s.members ≡ true)) }
{
    let at = s.tag.spot.index;
    let again = !known.tags.state(&s.tag.name).is_undefined();
    faults.judge(10, again, at);
    let members = all_members(alloc, known, faults, s)?;
    let large = is_too_large_together(known.structs, &members);
    faults.judge(9, large, at);
    struct_of(alloc, known.structs, &s.tag.name, members)
}

fn place_struct(alloc: Global, structs: &mut StructTable, def: StructDef) -> Result<u32, NoMemory>
    requires structs { AreStructs (map plain_struct structs.old.items) }
    requires counted { AreCounted (map plain_struct structs.old.items) }
    requires follows { may_follow (map plain_struct structs.old.items) (plain_struct def).members ≡ true }
    ensures number { IfOk result (λ n. Some n ≡ struct_number (Some (plain_struct def))
        (map plain_struct structs.old.items)) }
    ensures list { OnOk result (map plain_struct structs.new.items
        ≡ with_struct (Some (plain_struct def)) (map plain_struct structs.old.items)) }
    ensures structs { OnOk result (AreStructs (map plain_struct structs.new.items)) }
    ensures counted { OnOk result (AreCounted (map plain_struct structs.new.items)) }
{
    structs_are_laid_out();
    let Ok(key) = struct_key(alloc, &def) else {
        drop(def);
        return Err(NoMemory);
    };
    match structs.place(&key, &def) {
        Some(i) => Ok(i as u32),
        None => {
            let n = structs.list().len() as u32;
            structs.push(alloc, key, def)?;
            Ok(n)
        }
    }
}

/// Takes note of a struct definition that has ended: of the struct, which stands in the list once, or of one that
/// breaks a rule.
pub fn add_struct(
    alloc: Global,
    tags: &mut Tags,
    structs: &mut StructTable,
    tag: &Name,
    def: Option<StructDef>,
) -> Result<(), NoMemory>
    requires structs { AreStructs (map plain_struct structs.old.items) }
    requires counted { AreCounted (map plain_struct structs.old.items) }
    requires follows { IfSome (option_map plain_struct def)
        (λ s. may_follow (map plain_struct structs.old.items) s.members ≡ true) }
    ensures tags { OnOk result (plain_tags tags.new ≡ with_name tag.now.items
        (struct_number (option_map plain_struct def) (map plain_struct structs.old.items)) (plain_tags tags.old)) }
    ensures list { OnOk result (map plain_struct structs.new.items
        ≡ with_struct (option_map plain_struct def) (map plain_struct structs.old.items)) }
    ensures structs { OnOk result (AreStructs (map plain_struct structs.new.items)) }
    ensures counted { OnOk result (AreCounted (map plain_struct structs.new.items)) }
{
    let index = match def {
        None => None,
        Some(def) => {
            let n = place_struct(alloc, structs, def)?;
            Some(n)
        }
    };
    let tag = copied_name(alloc, tag)?;
    tags.define(tag, index)
}
