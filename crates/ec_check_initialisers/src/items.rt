//! Items of initialisers of static objects.
//!
//! Trees that are not used are dropped by a call: a drop in place at each exit would cost the proof its variants.
ghost use Rattle.std.specs.Prelude.{◌≡◌, ◌∷◌, [], IfOk, false, None, option_map};
ghost use Rattle.std.specs.Option.{option_copied};
ghost use Rattle.ec_core.specs.Plain.{plain_type, plain_expr};
ghost use Rattle.ec_check_operands.specs.Faults.{all_judged};
ghost use Rattle.ec_grammar.specs.Views.{view_assignment};
ghost use Rattle.ec_check_operands.specs.Operands.{plain_operand, with_one};
ghost use Rattle.ec_check_expressions.specs.Known.{IsSound, plain_known};
ghost use Rattle.ec_check_initialisers.specs.Items.{leaf_of_result, number_leaf, constant_leaf, address_leaf, leaf_of};
ghost use Rattle.ec_check_initialisers.specs.Items.{becomes_null, is_other, leaf_rules};
ghost use Rattle.ec_check_initialisers.specs.Parts.{scalar_of, bare_rules};
ghost use Rattle.ec_check_initialisers.specs.Places.{form_of, NamesObjects};
ghost use Rattle.ec_check_initialisers.specs.Sites.{Site, Walked};
ghost use Rattle.ec_check_initialisers.specs.declared.places.ItemForm.TheVariants.{Other};
ghost use Rattle.ec_check_initialisers.specs.Statics.{walked_leaf, item_leaf, walked_sites, item_sites};

use crate::leaves::is_missing;
use crate::locals::walked_value;
use crate::parts::{judge_bare, scalar_of};
use crate::places::{ItemForm, StaticAddress, form_of};
use ec_check_constants::{constant, is_constant};
use ec_check_expressions::Known;
use ec_check_names::first_assignment;
use ec_check_operands::{Faults, Operand, is_null, pass, type_sort};
use ec_core::{CType, Expr, LeafInit, Undefined};
use ec_grammar::Assignment;
use ec_space::NoMemory;
use std::alloc::Global;

// ---- leaves

fn leaf_of_result(value: Result<i128, Undefined>) -> Option<LeafInit>
    ensures { result ≡ leaf_of_result value }
{
    match value {
        Ok(n) => Some(LeafInit::Number(n)),
        Err(_) => None,
    }
}

fn number_leaf(e: &Expr) -> Option<LeafInit>
    ensures { result ≡ number_leaf (plain_expr e.now) }
{
    if is_constant(e) {
        leaf_of_result(constant(e))
    } else {
        None
    }
}

fn constant_leaf(null: bool, e: &Expr) -> Option<LeafInit>
    ensures { result ≡ constant_leaf null (plain_expr e.now) }
{
    if null {
        Some(LeafInit::Null)
    } else {
        number_leaf(e)
    }
}

fn address_leaf(a: Option<StaticAddress>) -> Option<LeafInit>
    ensures { result ≡ address_leaf a }
{
    match a {
        None => None,
        Some(a) => Some(LeafInit::Address {
            object: a.object,
            offset: a.offset,
        }),
    }
}

fn leaf_of(form: ItemForm, null: bool, e: &Expr) -> Option<LeafInit>
    ensures { result ≡ leaf_of form null (plain_expr e.now) }
{
    match form {
        ItemForm::Constant => constant_leaf(null, e),
        ItemForm::Address(a) => address_leaf(a),
        ItemForm::Other => None,
    }
}

fn leaf_of_value(form: ItemForm, null: bool, e: &Option<Expr>) -> Option<LeafInit>
    ensures { result ≡ with_one (option_map plain_expr e.now) (leaf_of form null) }
{
    match e {
        None => None,
        Some(e) => leaf_of(form, null, e),
    }
}

/// Whether an operand is the null pointer constant, and is brought to a pointer type.
fn becomes_null(ty: Option<&CType>, x: &Option<Operand>) -> bool
    ensures { result ≡ becomes_null (option_map plain_type (option_copied ty.entry)) (option_map plain_operand x.now) }
{
    let Some(ty) = ty else {
        return false;
    };
    let Some(x) = x else {
        return false;
    };
    is_null(x) && type_sort(ty).is_pointer()
}

// ---- rule 15

fn is_other(form: ItemForm) -> bool
    ensures { result ≡ is_other form }
{
    match form {
        ItemForm::Constant | ItemForm::Address(_) => false,
        ItemForm::Other => true,
    }
}

/// The leaf that an item gives. Judges rule 15 at its first token.
fn judged_leaf(
    faults: &mut Faults,
    form: ItemForm,
    null: bool,
    e: &Option<Expr>,
    at: u32,
) -> Option<LeafInit>
    ensures value { result ≡ with_one (option_map plain_expr e.now) (leaf_of form null) }
    ensures faults { faults.new.least ≡ all_judged faults.old.least
        (leaf_rules form null (option_map plain_expr e.now) at) }
{
    let leaf = leaf_of_value(form, null, e);
    faults.judge(15, is_other(form) || is_missing(e, &leaf), at);
    leaf
}

// ---- items

/// The leaf that an item of a form gives, which is walked as an item of a local is.
fn walked_leaf(
    alloc: Global,
    known: &Known,
    faults: &mut Faults,
    form: ItemForm,
    a: &Assignment,
    ty: &Option<CType>,
) -> Result<Option<LeafInit>, NoMemory>
    requires { IsSound (plain_known known.now) }
    ensures { let k = plain_known known.now in let u = view_assignment a.now in
        let t = option_map plain_type ty.now in
        IfOk result (λ leaf. Walked faults.old.least faults.new.least (walked_sites k form t u)
        leaf (walked_leaf k form t u)) }
{
    let x = walked_value(alloc, known, faults, a, ty)?;
    let at = first_assignment(a);
    judge_bare(faults, ty, at);
    let null = becomes_null(scalar_of(ty), &x);
    let e = pass(alloc, known.modes, scalar_of(ty), x)?;
    let leaf = judged_leaf(faults, form, null, &e, at);
    drop(e);
    Ok(leaf)
}

/// Judges an item that has no form of an initial value: rule 14 by the type alone, and rule 15.
fn refuse(faults: &mut Faults, ty: &Option<CType>, at: u32)
    ensures { faults.new.least ≡ all_judged
        (all_judged faults.old.least (bare_rules (option_map plain_type ty.now) at)) (leaf_rules Other false None at) }
{
    judge_bare(faults, ty, at);
    faults.judge(15, true, at);
}

/// What an item without braces initialises a leaf with, or None where it breaks a rule, which is told.
pub(crate) fn item_leaf(
    alloc: Global,
    known: &Known,
    faults: &mut Faults,
    a: &Assignment,
    ty: &Option<CType>,
) -> Result<Option<LeafInit>, NoMemory>
    requires sound { IsSound (plain_known known.now) }
    requires named { NamesObjects (plain_known known.now) }
    ensures { let k = plain_known known.now in let u = view_assignment a.now in
        let t = option_map plain_type ty.now in
        IfOk result (λ leaf. Walked faults.old.least faults.new.least (item_sites k (form_of k u) t u)
        leaf (item_leaf k (form_of k u) t u)) }
{
    let form = form_of(alloc, known, a)?;
    match form {
        ItemForm::Constant | ItemForm::Address(_) => {
            walked_leaf(alloc, known, faults, form, a, ty)
        }
        ItemForm::Other => {
            refuse(faults, ty, first_assignment(a));
            Ok(None)
        }
    }
}
