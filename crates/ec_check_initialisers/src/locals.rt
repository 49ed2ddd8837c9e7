//! Initialisers of locals.
ghost use Rattle.std.specs.Prelude.{◌≡◌, ◌∷◌, [], ◌++◌, map, length, IfOk, OnOk, IfSome, Some, None, option_map};
ghost use Rattle.ec_core.specs.Layout.{IsObjectType, AreStructs};
ghost use Rattle.ec_core.specs.Plain.{plain_type, plain_expr, plain_struct};
ghost use Rattle.ec_grammar.specs.Trees.{initial_value};
ghost use Rattle.ec_grammar.specs.Views.{view_assignment, view_initialiser, views_initialisers};
ghost use Rattle.ec_check_names.specs.Firsts.{first_assignment};
ghost use Rattle.ec_check_forms.specs.Nodes.{used};
ghost use Rattle.ec_check_operands.specs.Operands.{plain_operand};
ghost use Rattle.ec_check_operands.specs.Passing.{passing_rules};
ghost use Rattle.ec_check_operands.specs.Faults.{all_judged};
ghost use Rattle.ec_check_forms.specs.Sites.{a_use, a_passing};
ghost use Rattle.ec_check_expressions.specs.Expressions.{of_assignment, assignment_sites};
ghost use Rattle.ec_check_expressions.specs.Known.{IsSound, plain_known};
ghost use Rattle.ec_check_expressions.specs.Sites.{on};
ghost use Rattle.ec_check_initialisers.specs.Parts.{part_of, scalar_of, scalar_value, whole_values, joined, one_value};
ghost use Rattle.ec_check_initialisers.specs.Sites.{Site, sites_in, Walked};
ghost use Rattle.ec_check_initialisers.specs.Locals.{leaf_values, with_items, leaf_sites, items_sites, items_count};

use crate::parts::{is_aggregate, is_bare, judge_bare, judge_braces, part_of, scalar_of};
use crate::zeros::fill;
use ec_check_expressions::{Known, assignment};
use ec_check_forms::take;
use ec_check_names::first_assignment;
use ec_check_operands::{Faults, Modes, Operand, judge_passing, pass};
use ec_core::{CType, Expr, StructDef};
use ec_grammar::{Assignment, Initialiser, NextInitialiser};
use ec_space::{NoMemory, Seq, push};
use std::alloc::Global;

/// The values of leaves, in order, or None where an item broke a rule.
pub type Values = Option<Vec<Expr>>;

// ---- lists of values

fn one_value(alloc: Global, e: Option<Expr>) -> Result<Values, NoMemory>
    ensures { IfOk result (λ es. option_map (λ v. map plain_expr v.items) es ≡ one_value (option_map plain_expr e)) }
{
    let Some(e) = e else {
        return Ok(None);
    };
    let mut es = Vec::new(alloc);
    push(&mut es, e)?;
    Ok(Some(es))
}

fn append(es: &mut Values, fs: Values) -> Result<(), NoMemory>
    ensures { OnOk result (option_map (λ v. map plain_expr v.items) es.new
        ≡ joined (option_map (λ v. map plain_expr v.items) es.old) (option_map (λ v. map plain_expr v.items) fs)) }
{
    let Some(left) = es else {
        return Ok(());
    };
    let Some(mut right) = fs else {
        *es = None;
        return Ok(());
    };
    match left.append(&mut right) {
        Ok(()) => Ok(()),
        Err(_) => Err(NoMemory),
    }
}

fn filled(
    alloc: Global,
    modes: Modes,
    structs: &Seq<StructDef>,
    ty: &CType,
    mut es: Vec<Expr>,
) -> Result<Values, NoMemory>
    requires structs { AreStructs (map plain_struct structs.now.items) }
    requires object { IsObjectType (length structs.now.items) (plain_type ty.now) }
    ensures { IfOk result (λ all. option_map (λ v. map plain_expr v.items) all
        ≡ whole_values modes (map plain_struct structs.now.items) (Some (plain_type ty.now))
        (Some (map plain_expr es.items))) }
{
    if is_aggregate(ty) {
        fill(alloc, modes, structs, ty, &mut es)?;
        Ok(Some(es))
    } else {
        Ok(None)
    }
}

fn whole_values(
    alloc: Global,
    modes: Modes,
    structs: &Seq<StructDef>,
    ty: &Option<CType>,
    es: Values,
) -> Result<Values, NoMemory>
    requires structs { AreStructs (map plain_struct structs.now.items) }
    requires object { IfSome (option_map plain_type ty.now) (IsObjectType (length structs.now.items)) }
    ensures { IfOk result (λ all. option_map (λ v. map plain_expr v.items) all
        ≡ whole_values modes (map plain_struct structs.now.items) (option_map plain_type ty.now)
        (option_map (λ v. map plain_expr v.items) es)) }
{
    let Some(ty) = ty else {
        return Ok(None);
    };
    let Some(es) = es else {
        return Ok(None);
    };
    filled(alloc, modes, structs, ty, es)
}

// ---- initialisers

/// How many items follow the first one.
pub(crate) fn items_count(more: &[NextInitialiser]) -> usize
    ensures value { result ≡ items_count (views_initialisers more.now) }
    ensures bound { result ≡ length more.now }
{
    more.len()
}

/// Judges the conversion of an item to a type without parts.
fn judge_scalar(faults: &mut Faults, x: &Option<Operand>, ty: &Option<CType>, at: u32)
    ensures { faults.new.least ≡ all_judged faults.old.least
        (passing_rules (option_map plain_operand x.now) (scalar_of (option_map plain_type ty.now)) at) }
{
    if !is_bare(ty) {
        judge_passing(faults, x, ty, at);
    }
}

/// The operand of an item without braces.
pub(crate) fn walked_value(
    alloc: Global,
    known: &Known,
    faults: &mut Faults,
    a: &Assignment,
    ty: &Option<CType>,
) -> Result<Option<Operand>, NoMemory>
    requires { IsSound (plain_known known.now) }
    ensures { let k = plain_known known.now in let t = view_assignment a.now in
        IfOk result (λ x. Walked faults.old.least faults.new.least
        (sites_in (assignment_sites k t (on (a_use (of_assignment k t) (first_assignment t))
        ∷ on (a_passing (used (of_assignment k t)) (scalar_of (option_map plain_type ty.now)) (first_assignment t)) ∷ [])))
        (option_map plain_operand x) (used (of_assignment k t))) }
{
    let x = assignment(alloc, known, faults, a)?;
    let at = first_assignment(a);
    let x = take(faults, x, at);
    judge_scalar(faults, &x, ty, at);
    Ok(x)
}

fn scalar_value(
    alloc: Global,
    modes: Modes,
    ty: &Option<CType>,
    x: Option<Operand>,
) -> Result<Values, NoMemory>
    ensures { IfOk result (λ es. option_map (λ v. map plain_expr v.items) es
        ≡ scalar_value modes (option_map plain_type ty.now) (option_map plain_operand x)) }
{
    let e = pass(alloc, modes, scalar_of(ty), x)?;
    one_value(alloc, e)
}

/// An initialiser without braces.
fn bare_value(
    alloc: Global,
    known: &Known,
    faults: &mut Faults,
    a: &Assignment,
    ty: &Option<CType>,
) -> Result<Values, NoMemory>
    requires { IsSound (plain_known known.now) }
    ensures { let k = plain_known known.now in let i = initial_value (view_assignment a.now) in
        let t = option_map plain_type ty.now in
        IfOk result (λ es. Walked faults.old.least faults.new.least (leaf_sites k i t)
        (option_map (λ v. map plain_expr v.items) es) (leaf_values k i t)) }
{
    let x = walked_value(alloc, known, faults, a, ty)?;
    judge_bare(faults, ty, first_assignment(a));
    scalar_value(alloc, known.modes, ty, x)
}

/// The values of all leaves of a local of a type, brought to their types, or None where an item breaks a rule or the type
/// is unknown. Judges rule 14 at the first token of the innermost initialiser that breaks it, and the rules of each item.
#[cycle(locals)]
pub fn local_values(
    alloc: Global,
    known: &Known,
    faults: &mut Faults,
    i: &Initialiser,
    ty: &Option<CType>,
) -> Result<Values, NoMemory>
    requires sound { IsSound (plain_known known.now) }
    requires object { IfSome (option_map plain_type ty.now) (IsObjectType (length known.now.structs.now.items)) }
    ensures { let k = plain_known known.now in let u = view_initialiser i.now in
        let t = option_map plain_type ty.now in
        IfOk result (λ es. Walked faults.old.least faults.new.least (leaf_sites k u t)
        (option_map (λ v. map plain_expr v.items) es) (leaf_values k u t)) }
{
    match i {
        Initialiser::Value(a) => bare_value(alloc, known, faults, a, ty),
        Initialiser::Braces(l, first, more, _, _) => {
            judge_braces(faults, known.structs, ty, items_count(more) + 1, l.index);
            let mut es = Some(Vec::new(alloc));
            local_item(alloc, known, faults, first, ty, 0, &mut es)?;
            local_items(alloc, known, faults, more, ty, &mut es)?;
            whole_values(alloc, known.modes, known.structs, ty, es)
        }
    }
}

/// The item with a number.
#[cycle(locals)]
fn local_item(
    alloc: Global,
    known: &Known,
    faults: &mut Faults,
    x: &Initialiser,
    ty: &Option<CType>,
    i: usize,
    es: &mut Values,
) -> Result<(), NoMemory>
    requires sound { IsSound (plain_known known.now) }
    requires object { IfSome (option_map plain_type ty.now) (IsObjectType (length known.now.structs.now.items)) }
    ensures { let k = plain_known known.now in let u = view_initialiser x.now in
        let p = part_of k.structs (option_map plain_type ty.now) i in
        OnOk result (Walked faults.old.least faults.new.least (leaf_sites k u p)
        (option_map (λ v. map plain_expr v.items) es.new)
        (joined (option_map (λ v. map plain_expr v.items) es.old) (leaf_values k u p))) }
{
    let part = part_of(alloc, known.structs, ty, i)?;
    let fs = local_values(alloc, known, faults, x, &part)?;
    append(es, fs)
}

/// The items behind the first one.
#[cycle(locals)]
fn local_items(
    alloc: Global,
    known: &Known,
    faults: &mut Faults,
    more: &[NextInitialiser],
    ty: &Option<CType>,
    es: &mut Values,
) -> Result<(), NoMemory>
    requires sound { IsSound (plain_known known.now) }
    requires object { IfSome (option_map plain_type ty.now) (IsObjectType (length known.now.structs.now.items)) }
    ensures { let k = plain_known known.now in let u = views_initialisers more.now in
        let t = option_map plain_type ty.now in
        OnOk result (Walked faults.old.least faults.new.least (items_sites k t 1 u)
        (option_map (λ v. map plain_expr v.items) es.new)
        (with_items k t (option_map (λ v. map plain_expr v.items) es.old) 1 u)) }
{
    for (i, x) in more.iter().enumerate() {
        local_item(alloc, known, faults, &x.value, ty, i + 1, es)?;
    }
    Ok(())
}
