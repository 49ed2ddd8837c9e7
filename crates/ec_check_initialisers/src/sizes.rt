//! Sizes of arrays.
//!
//! Trees that are not used are dropped by a call: a drop in place at each exit would cost the proof its variants.
ghost use Rattle.std.specs.Prelude.{◌≡◌, Option};
ghost use Rattle.ec_core.specs.Plain.{plain_expr};
ghost use Rattle.ec_check_initialisers.specs.Sizes.{size_of_number, size_of_result, size_of_value};
ghost use Rattle.std.specs.Prelude.{IfOk, ◌∷◌, [], option_map};
ghost use Rattle.ec_check_operands.specs.Faults.{all_judged};
ghost use Rattle.ec_grammar.specs.Views.{view_conditional};
ghost use Rattle.ec_check_names.specs.Firsts.{first_conditional};
ghost use Rattle.ec_check_forms.specs.Nodes.{used};
ghost use Rattle.ec_check_operands.specs.Operands.{plain_operand, with_one};
ghost use Rattle.ec_check_forms.specs.Sites.{a_use};
ghost use Rattle.ec_check_expressions.specs.Expressions.{of_conditional, conditional_sites};
ghost use Rattle.ec_check_expressions.specs.Known.{IsSound, plain_known};
ghost use Rattle.ec_check_expressions.specs.Sites.{on};
ghost use Rattle.ec_check_initialisers.specs.Sizes.{size_of_operand, array_size, is_unsized, size_rules};
ghost use Rattle.ec_check_initialisers.specs.Sites.{Site, sites_in, a_size, size_sites, Walked};

use crate::forms::is_constant_conditional;
use ec_check_constants::{constant, is_constant};
use ec_check_expressions::{Known, conditional};
use ec_check_forms::take;
use ec_check_names::first_conditional;
use ec_check_operands::{Faults, Operand, type_sort};
use ec_core::{Expr, Undefined};
use ec_grammar::Conditional;
use ec_space::NoMemory;
use std::alloc::Global;

fn size_of_number(n: i128) -> Option<u16>
    ensures { result ≡ size_of_number n }
{
    if 1 <= n && n <= 32_767 {
        Some(n as u16)
    } else {
        None
    }
}

fn size_of_result(value: Result<i128, Undefined>) -> Option<u16>
    ensures { result ≡ size_of_result value }
{
    match value {
        Ok(n) => size_of_number(n),
        Err(_) => None,
    }
}

/// The value of an expression as the size of an array, or None where it is no constant of an integer type from 1 to 32,767.
pub fn size_of_value(e: &Expr) -> Option<u16>
    ensures { result ≡ size_of_value (plain_expr e.now) }
{
    if type_sort(&e.ty).is_integer() && is_constant(e) {
        size_of_result(constant(e))
    } else {
        None
    }
}

fn size_of_operand(x: &Operand) -> Option<u16>
    ensures { result ≡ size_of_operand (plain_operand x.now) }
{
    match x {
        Operand::Place { .. } => None,
        Operand::Value { value, .. } => size_of_value(value),
    }
}

fn size_of_used(x: &Option<Operand>) -> Option<u16>
    ensures { result ≡ with_one (option_map plain_operand x.now) size_of_operand }
{
    match x {
        None => None,
        Some(x) => size_of_operand(x),
    }
}

fn is_unsized(x: &Option<Operand>) -> bool
    ensures { result ≡ is_unsized (option_map plain_operand x.now) }
{
    match x {
        None => false,
        Some(x) => size_of_operand(x).is_none(),
    }
}

/// Judges the size of an array, which has the form of a constant expression or not: rule 8 at `at`.
fn judge_size(faults: &mut Faults, form: bool, x: &Option<Operand>, at: u32)
    ensures { faults.new.least ≡ all_judged faults.old.least
        (size_rules form (option_map plain_operand x.now) at) }
{
    faults.judge(8, !form || is_unsized(x), at);
}

/// The size in its form, walked.
fn walked_size(
    alloc: Global,
    known: &Known,
    faults: &mut Faults,
    c: &Conditional,
) -> Result<Option<Operand>, NoMemory>
    requires { IsSound (plain_known known.now) }
    ensures { let k = plain_known known.now in let t = view_conditional c.now in
        IfOk result (λ x. Walked faults.old.least faults.new.least
        (sites_in (conditional_sites k t (on (a_use (of_conditional k t) (first_conditional t)) ∷ [])))
        (option_map plain_operand x) (used (of_conditional k t))) }
{
    let x = conditional(alloc, known, faults, c)?;
    let x = take(faults, x, first_conditional(c));
    Ok(x)
}

/// The size that stands in `[ ]`, from 1 to 32,767, or None where there is none. Judges it: what has not the form of a
/// constant expression breaks rule 8 at `at`, the index of `[`, and is not looked into; otherwise the rules of the
/// expression are judged, and then rule 8 at `at`, where it has a type.
pub fn array_size(
    alloc: Global,
    known: &Known,
    faults: &mut Faults,
    c: &Conditional,
    at: u32,
) -> Result<Option<u16>, NoMemory>
    requires { IsSound (plain_known known.now) }
    ensures { let k = plain_known known.now in let t = view_conditional c.now in
        IfOk result (λ n. Walked faults.old.least faults.new.least (size_sites k t at)
        n (array_size k t)) }
{
    let form = is_constant_conditional(alloc, known, c)?;
    if form {
        let x = walked_size(alloc, known, faults, c)?;
        judge_size(faults, true, &x, at);
        let n = size_of_used(&x);
        drop(x);
        Ok(n)
    } else {
        judge_size(faults, false, &None, at);
        Ok(None)
    }
}
