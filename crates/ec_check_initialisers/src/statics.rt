//! Initialisers of objects with static storage.
ghost use Rattle.std.specs.Prelude.{◌≡◌, ◌∷◌, [], ◌++◌, map, length, IfOk, OnOk, IfSome, Some, None, option_map};
ghost use Rattle.ec_core.specs.Layout.{plain_leaf, IsObjectType, AreStructs};
ghost use Rattle.ec_core.specs.Plain.{plain_type, plain_struct};
ghost use Rattle.ec_grammar.specs.Trees.{initial_value};
ghost use Rattle.ec_grammar.specs.Views.{view_assignment, view_initialiser, views_initialisers};
ghost use Rattle.ec_check_expressions.specs.Known.{IsSound, plain_known};
ghost use Rattle.ec_check_initialisers.specs.Items.{zero_leaf, zero_leaves};
ghost use Rattle.ec_check_initialisers.specs.Parts.{part_of, whole_by, filled_by, joined};
ghost use Rattle.ec_check_initialisers.specs.Places.{NamesObjects};
ghost use Rattle.ec_check_initialisers.specs.Sites.{Walked};
ghost use Rattle.ec_check_initialisers.specs.Statics.{static_leaves, with_static_items, static_sites, static_items_sites};

use crate::items::item_leaf;
use crate::locals::items_count;
use crate::parts::{is_aggregate, judge_braces, part_of, rest_of};
use ec_check_expressions::Known;
use ec_check_operands::{Faults, type_sort};
use ec_core::{CType, Leaf, LeafInit, StructDef, leaves};
use ec_grammar::{Assignment, Initialiser, NextInitialiser};
use ec_space::{NoMemory, Seq, push};
use std::alloc::Global;

/// The initial values of leaves, in order, or None where an item broke a rule.
type Leaves = Option<Vec<LeafInit>>;

// ---- lists of leaves

fn one_leaf(alloc: Global, e: Option<LeafInit>) -> Result<Leaves, NoMemory>
    ensures { IfOk result (λ es. option_map (λ v. v.items) es ≡ option_map (λ leaf. leaf ∷ []) e) }
{
    let Some(e) = e else {
        return Ok(None);
    };
    let mut es = Vec::new(alloc);
    push(&mut es, e)?;
    Ok(Some(es))
}

fn append(es: &mut Leaves, fs: Leaves) -> Result<(), NoMemory>
    ensures { OnOk result (option_map (λ v. v.items) es.new
        ≡ joined (option_map (λ v. v.items) es.old) (option_map (λ v. v.items) fs)) }
{
    let Some(left) = es else {
        return Ok(());
    };
    let Some(mut right) = fs else {
        *es = None;
        return Ok(());
    };
    match left.append(&mut right) {
        Ok(()) => Ok(()),
        Err(_) => Err(NoMemory),
    }
}

fn copied(leaf: &LeafInit) -> LeafInit
    ensures { result ≡ leaf.now }
{
    match leaf {
        LeafInit::Number(n) => LeafInit::Number(*n),
        LeafInit::Null => LeafInit::Null,
        LeafInit::Address { object, offset } => LeafInit::Address {
            object: *object,
            offset: *offset,
        },
    }
}

fn listed(alloc: Global, es: &[LeafInit]) -> Result<Seq<LeafInit>, NoMemory>
    ensures { IfOk result (λ all. all.items ≡ es.now) }
{
    let mut all = Seq::new(alloc);
    for e in es {
        all.push(copied(e))?;
    }
    Ok(all)
}

// ---- what is left out

fn zero_leaf(ty: &CType) -> LeafInit
    ensures { result ≡ zero_leaf (plain_type ty.now) }
{
    if type_sort(ty).is_pointer() {
        LeafInit::Null
    } else {
        LeafInit::Number(0)
    }
}

fn push_zeros(rest: &[Leaf], es: &mut Vec<LeafInit>) -> Result<(), NoMemory>
    ensures { OnOk result (es.new.items
        ≡ es.old.items ++ map (λ leaf. zero_leaf leaf.ty) (map plain_leaf rest.now)) }
{
    for leaf in rest {
        push(es, zero_leaf(&leaf.ty))?;
    }
    Ok(())
}

fn count(es: &[LeafInit]) -> usize
    ensures { result ≡ length es.now }
{
    es.len()
}

/// Puts zeros behind the initial values of the first leaves of a type, so that each leaf has one.
fn fill(
    alloc: Global,
    structs: &Seq<StructDef>,
    ty: &CType,
    es: &mut Vec<LeafInit>,
) -> Result<(), NoMemory>
    requires structs { AreStructs (map plain_struct structs.now.items) }
    requires object { IsObjectType (length structs.now.items) (plain_type ty.now) }
    ensures { OnOk result (es.new.items
        ≡ filled_by zero_leaf (map plain_struct structs.now.items) (plain_type ty.now) es.old.items) }
{
    let all = leaves(alloc, structs, ty)?;
    let values = es.as_slice();
    let given = count(values);
    let whole = all.as_slice();
    let rest = rest_of(whole, given);
    push_zeros(rest, es)?;
    Ok(())
}

fn filled(
    alloc: Global,
    structs: &Seq<StructDef>,
    ty: &CType,
    mut es: Vec<LeafInit>,
) -> Result<Leaves, NoMemory>
    requires structs { AreStructs (map plain_struct structs.now.items) }
    requires object { IsObjectType (length structs.now.items) (plain_type ty.now) }
    ensures { IfOk result (λ all. option_map (λ v. v.items) all
        ≡ whole_by zero_leaf (map plain_struct structs.now.items) (Some (plain_type ty.now)) (Some es.items)) }
{
    if is_aggregate(ty) {
        fill(alloc, structs, ty, &mut es)?;
        Ok(Some(es))
    } else {
        Ok(None)
    }
}

fn whole_leaves(
    alloc: Global,
    structs: &Seq<StructDef>,
    ty: &Option<CType>,
    es: Leaves,
) -> Result<Leaves, NoMemory>
    requires structs { AreStructs (map plain_struct structs.now.items) }
    requires object { IfSome (option_map plain_type ty.now) (IsObjectType (length structs.now.items)) }
    ensures { IfOk result (λ all. option_map (λ v. v.items) all
        ≡ whole_by zero_leaf (map plain_struct structs.now.items) (option_map plain_type ty.now)
        (option_map (λ v. v.items) es)) }
{
    let Some(ty) = ty else {
        return Ok(None);
    };
    let Some(es) = es else {
        return Ok(None);
    };
    filled(alloc, structs, ty, es)
}

/// The initial values of all leaves of a static object without an initialiser: zero, or the null pointer.
pub fn zero_values(
    alloc: Global,
    structs: &Seq<StructDef>,
    ty: &CType,
) -> Result<Seq<LeafInit>, NoMemory>
    requires structs { AreStructs (map plain_struct structs.now.items) }
    requires object { IsObjectType (length structs.now.items) (plain_type ty.now) }
    ensures { IfOk result (λ all. all.items
        ≡ zero_leaves (map plain_struct structs.now.items) (plain_type ty.now)) }
{
    let mut es = Vec::new(alloc);
    fill(alloc, structs, ty, &mut es)?;
    listed(alloc, es.as_slice())
}

// ---- initialisers

/// An initialiser without braces.
fn bare_leaves(
    alloc: Global,
    known: &Known,
    faults: &mut Faults,
    a: &Assignment,
    ty: &Option<CType>,
) -> Result<Leaves, NoMemory>
    requires sound { IsSound (plain_known known.now) }
    requires named { NamesObjects (plain_known known.now) }
    ensures { let k = plain_known known.now in let i = initial_value (view_assignment a.now) in
        let t = option_map plain_type ty.now in
        IfOk result (λ es. Walked faults.old.least faults.new.least (static_sites k i t)
        (option_map (λ v. v.items) es) (static_leaves k i t)) }
{
    let leaf = item_leaf(alloc, known, faults, a, ty)?;
    one_leaf(alloc, leaf)
}

/// The initial values of all leaves of an object of a type, as a list that grows.
#[cycle(statics)]
fn static_leaves(
    alloc: Global,
    known: &Known,
    faults: &mut Faults,
    i: &Initialiser,
    ty: &Option<CType>,
) -> Result<Leaves, NoMemory>
    requires sound { IsSound (plain_known known.now) }
    requires named { NamesObjects (plain_known known.now) }
    requires object { IfSome (option_map plain_type ty.now) (IsObjectType (length known.now.structs.now.items)) }
    ensures { let k = plain_known known.now in let u = view_initialiser i.now in
        let t = option_map plain_type ty.now in
        IfOk result (λ es. Walked faults.old.least faults.new.least (static_sites k u t)
        (option_map (λ v. v.items) es) (static_leaves k u t)) }
{
    match i {
        Initialiser::Value(a) => bare_leaves(alloc, known, faults, a, ty),
        Initialiser::Braces(l, first, more, _, _) => {
            judge_braces(faults, known.structs, ty, items_count(more) + 1, l.index);
            let mut es = Some(Vec::new(alloc));
            static_item(alloc, known, faults, first, ty, 0, &mut es)?;
            static_items(alloc, known, faults, more, ty, &mut es)?;
            whole_leaves(alloc, known.structs, ty, es)
        }
    }
}

/// The item with a number.
#[cycle(statics)]
fn static_item(
    alloc: Global,
    known: &Known,
    faults: &mut Faults,
    x: &Initialiser,
    ty: &Option<CType>,
    i: usize,
    es: &mut Leaves,
) -> Result<(), NoMemory>
    requires sound { IsSound (plain_known known.now) }
    requires named { NamesObjects (plain_known known.now) }
    requires object { IfSome (option_map plain_type ty.now) (IsObjectType (length known.now.structs.now.items)) }
    ensures { let k = plain_known known.now in let u = view_initialiser x.now in
        let p = part_of k.structs (option_map plain_type ty.now) i in
        OnOk result (Walked faults.old.least faults.new.least (static_sites k u p)
        (option_map (λ v. v.items) es.new)
        (joined (option_map (λ v. v.items) es.old) (static_leaves k u p))) }
{
    let part = part_of(alloc, known.structs, ty, i)?;
    let fs = static_leaves(alloc, known, faults, x, &part)?;
    append(es, fs)
}

/// The items behind the first one.
#[cycle(statics)]
fn static_items(
    alloc: Global,
    known: &Known,
    faults: &mut Faults,
    more: &[NextInitialiser],
    ty: &Option<CType>,
    es: &mut Leaves,
) -> Result<(), NoMemory>
    requires sound { IsSound (plain_known known.now) }
    requires named { NamesObjects (plain_known known.now) }
    requires object { IfSome (option_map plain_type ty.now) (IsObjectType (length known.now.structs.now.items)) }
    ensures { let k = plain_known known.now in let u = views_initialisers more.now in
        let t = option_map plain_type ty.now in
        OnOk result (Walked faults.old.least faults.new.least (static_items_sites k t 1 u)
        (option_map (λ v. v.items) es.new)
        (with_static_items k t (option_map (λ v. v.items) es.old) 1 u)) }
{
    for (i, x) in more.iter().enumerate() {
        static_item(alloc, known, faults, &x.value, ty, i + 1, es)?;
    }
    Ok(())
}

/// The initial values of all leaves of a static object of a type, or None where an item breaks a rule or the type is
/// unknown. Judges rule 14 at the first token of the innermost initialiser that breaks it, rule 15 at the first token
/// of each item that is neither a constant expression nor an address constant, or whose value is undefined, and the
/// other rules of each item that has one of these forms.
pub fn static_values(
    alloc: Global,
    known: &Known,
    faults: &mut Faults,
    i: &Initialiser,
    ty: &Option<CType>,
) -> Result<Option<Seq<LeafInit>>, NoMemory>
    requires sound { IsSound (plain_known known.now) }
    requires named { NamesObjects (plain_known known.now) }
    requires object { IfSome (option_map plain_type ty.now) (IsObjectType (length known.now.structs.now.items)) }
    ensures { let k = plain_known known.now in let u = view_initialiser i.now in
        let t = option_map plain_type ty.now in
        IfOk result (λ all. Walked faults.old.least faults.new.least (static_sites k u t)
        (option_map (λ v. v.items) all) (static_leaves k u t)) }
{
    let Some(es) = static_leaves(alloc, known, faults, i, ty)? else {
        return Ok(None);
    };
    let all = listed(alloc, es.as_slice())?;
    Ok(Some(all))
}
