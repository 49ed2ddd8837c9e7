//! `&&`, `||`, the comma, `?:` and casts.
ghost use Rattle.std.specs.Prelude.{◌≡◌, IfOk, option_map};
ghost use Rattle.std.specs.Option.{option_copied};
ghost use Rattle.ec_core.specs.Plain.{plain_type, plain_expr};
ghost use Rattle.ec_check_operands.specs.Faults.{all_judged};
ghost use Rattle.ec_check_operands.specs.Operands.{plain_operand, plain_sort, value_type, with_one, with_both};
ghost use Rattle.ec_check_forms.specs.Choices.{logical, logical_rules, sequence, alternatives, no_alternatives};
ghost use Rattle.ec_check_forms.specs.Choices.{chosen_apart};
ghost use Rattle.ec_check_forms.specs.Choices.{choice_rules, choice_type, choice_made};
ghost use Rattle.ec_check_forms.specs.Choices.{chosen, castable};
ghost use Rattle.ec_check_forms.specs.Nodes.{condition as condition_of};
ghost use Rattle.ec_check_forms.specs.Choices.{no_cast, cast_rules, cast};
ghost use Rattle.ec_check_operands.specs.Passing.{in_type as in_type_of};

use crate::prefixes::int;
use crate::uses::{condition, is_no_scalar};
use ec_check_operands::{
    Faults, Modes, Operand, Sort, are_apart, as_value, boxed, boxed_in_type, in_type,
    is_beside_null, is_null, kept, made, meeting_of, nest, same_pointee, sort_of, type_between,
    type_sort, valued,
};
use ec_core::{CType, Expr, Node};
use ec_space::NoMemory;
use std::alloc::Global;

// ---- `&&`, `||`

/// Judges the operands of `&&` or `||`, which are told there.
pub fn judge_logical(faults: &mut Faults, x: &Option<Operand>, y: &Option<Operand>, at: u32)
    ensures { faults.new.least ≡ all_judged faults.old.least
        (logical_rules (option_map plain_operand x.now) (option_map plain_operand y.now) at) }
{
    faults.judge(25, is_no_scalar(x), at);
    faults.judge(25, is_no_scalar(y), at);
}

/// What `&&`, where `both` holds, or `||` makes of its operands, or None where one has no type or is not scalar.
pub fn logical(
    alloc: Global,
    modes: Modes,
    both: bool,
    x: Option<Operand>,
    y: Option<Operand>,
) -> Result<Option<Operand>, NoMemory>
    ensures { IfOk result (λ z. option_map plain_operand z
        ≡ logical modes both (condition_of modes (option_map plain_operand x))
        (condition_of modes (option_map plain_operand y))) }
{
    match condition(modes, x).zip(condition(modes, y)) {
        None => Ok(None),
        Some((x, y)) => {
            let x = boxed(alloc, x);
            let y = boxed(alloc, y);
            let node = if both {
                Node::And(x?, y?)
            } else {
                Node::Or(x?, y?)
            };
            Ok(valued(Some(made(modes, int(), node))))
        }
    }
}

// ---- the comma

/// What a comma makes of its operands, or None where one has no type.
pub fn sequence(
    alloc: Global,
    modes: Modes,
    x: Option<Operand>,
    y: Option<Operand>,
) -> Result<Option<Operand>, NoMemory>
    ensures { IfOk result (λ z. option_map plain_operand z
        ≡ with_both (option_map plain_operand x) (option_map plain_operand y) (sequence modes)) }
{
    match x.zip(y) {
        None => Ok(None),
        Some((x, y)) => {
            let x = boxed(alloc, as_value(modes, x));
            let y = boxed(alloc, as_value(modes, y))?;
            let ty = y.ty.copied(alloc)?;
            Ok(valued(Some(made(modes, ty, Node::Comma(x?, y)))))
        }
    }
}

// ---- `?:`

fn alternatives(a: Sort<'_>, p: bool, b: Sort<'_>, q: bool) -> bool
    ensures { result ≡ alternatives (plain_sort a.entry) p (plain_sort b.entry) q }
{
    a.is_void() && b.is_void()
        || a.is_arithmetic() && b.is_arithmetic()
        || same_pointee(a, b)
        || is_beside_null(a, p, b, q)
}

fn are_no_alternatives(x: &Option<Operand>, y: &Option<Operand>) -> bool
    ensures { result ≡ no_alternatives (option_map plain_operand x.now) (option_map plain_operand y.now) }
{
    match (x, y) {
        (Some(x), Some(y)) => !alternatives(sort_of(x), is_null(x), sort_of(y), is_null(y)),
        _ => false,
    }
}

fn are_chosen_apart(x: &Option<Operand>, y: &Option<Operand>) -> bool
    ensures { result ≡ chosen_apart (option_map plain_operand x.now) (option_map plain_operand y.now) }
{
    match (x, y) {
        (Some(x), Some(y)) => are_apart(sort_of(x), sort_of(y)),
        _ => false,
    }
}

/// Judges the operands of `?:`, which are told at `?`.
pub fn judge_choice(
    faults: &mut Faults,
    c: &Option<Operand>,
    x: &Option<Operand>,
    y: &Option<Operand>,
    at: u32,
)
    ensures { faults.new.least ≡ all_judged faults.old.least
        (choice_rules (option_map plain_operand c.now) (option_map plain_operand x.now)
        (option_map plain_operand y.now) at) }
{
    faults.judge(25, is_no_scalar(c), at);
    faults.judge(24, are_no_alternatives(x, y), at);
    faults.judge(32, are_chosen_apart(x, y), at);
}

fn choice_type(alloc: Global, x: &Operand, y: &Operand) -> Result<Option<CType>, NoMemory>
    ensures { IfOk result (λ ty. option_map plain_type ty
        ≡ choice_type (plain_operand x.now) (plain_operand y.now)) }
{
    let a = sort_of(x);
    let b = sort_of(y);
    if !alternatives(a, is_null(x), b, is_null(y)) {
        return Ok(None);
    }
    if a.is_void() {
        return Ok(Some(CType::Void));
    }
    match type_between(meeting_of(a, b), a, b) {
        None => Ok(None),
        Some(ty) => {
            let ty = kept(alloc, ty)?;
            Ok(Some(ty))
        }
    }
}

/// Both operands in a type, in boxes.
fn alternatives_in(
    alloc: Global,
    modes: Modes,
    ty: &CType,
    x: Operand,
    y: Operand,
) -> Result<(Box<Expr>, Box<Expr>), NoMemory>
    ensures left { IfOk result (λ es. plain_expr es.0.value ≡ in_type_of modes (plain_type ty.now) (plain_operand x)) }
    ensures right { IfOk result (λ es. plain_expr es.1.value ≡ in_type_of modes (plain_type ty.now) (plain_operand y)) }
{
    let x = boxed_in_type(alloc, modes, ty, x);
    let y = boxed_in_type(alloc, modes, ty, y)?;
    Ok((x?, y))
}

fn choice_in(
    alloc: Global,
    modes: Modes,
    ty: CType,
    c: Expr,
    x: Operand,
    y: Operand,
) -> Result<Expr, NoMemory>
    ensures { IfOk result (λ e. plain_expr e
        ≡ choice_made modes (plain_type ty) (plain_expr c)
        (in_type_of modes (plain_type ty) (plain_operand x))
        (in_type_of modes (plain_type ty) (plain_operand y))) }
{
    let c = boxed(alloc, c);
    let (x, y) = alternatives_in(alloc, modes, &ty, x, y)?;
    Ok(made(modes, ty, Node::Cond(c?, x, y)))
}

fn choice(
    alloc: Global,
    modes: Modes,
    c: Expr,
    x: Operand,
    y: Operand,
) -> Result<Option<Operand>, NoMemory>
    ensures { IfOk result (λ z. option_map plain_operand z
        ≡ chosen modes (plain_expr c) (plain_operand x) (plain_operand y)) }
{
    match choice_type(alloc, &x, &y) {
        Ok(Some(ty)) => {
            let e = choice_in(alloc, modes, ty, c, x, y)?;
            Ok(valued(Some(e)))
        }
        Ok(None) => {
            drop((c, x, y));
            Ok(None)
        }
        Err(fault) => {
            drop((c, x, y));
            Err(fault)
        }
    }
}

fn choice_on(
    alloc: Global,
    modes: Modes,
    c: Option<Expr>,
    x: Operand,
    y: Operand,
) -> Result<Option<Operand>, NoMemory>
    ensures { IfOk result (λ z. option_map plain_operand z
        ≡ with_one (option_map plain_expr c) (λ c. chosen modes c (plain_operand x) (plain_operand y))) }
{
    match c {
        None => {
            drop((x, y));
            Ok(None)
        }
        Some(c) => choice(alloc, modes, c, x, y),
    }
}

/// What `?:` makes of its operands, or None where one has no type or they break a rule.
pub fn choose(
    alloc: Global,
    modes: Modes,
    c: Option<Operand>,
    x: Option<Operand>,
    y: Option<Operand>,
) -> Result<Option<Operand>, NoMemory>
    ensures { IfOk result (λ z. option_map plain_operand z
        ≡ with_both (option_map plain_operand x) (option_map plain_operand y) (λ a b.
        with_one (condition_of modes (option_map plain_operand c)) (λ c. chosen modes c a b))) }
{
    let Some(x) = x else {
        drop((c, y));
        return Ok(None);
    };
    let Some(y) = y else {
        drop((c, x));
        return Ok(None);
    };
    let z = choice_on(alloc, modes, condition(modes, c), x, y)?;
    Ok(z)
}

// ---- casts

fn castable(from: Sort<'_>, null: bool, to: Sort<'_>) -> bool
    ensures { result ≡ castable (plain_sort from.entry) null (plain_sort to.entry) }
{
    from.is_arithmetic() && to.is_arithmetic()
        || null && to.is_pointer()
        || same_pointee(from, to) && nest(from, to)
}

fn is_no_cast(to: &Option<CType>, x: &Option<Operand>) -> bool
    ensures { result ≡ no_cast (option_map plain_type to.now) (option_map plain_operand x.now) }
{
    match (to, x) {
        (Some(to), Some(x)) => !castable(sort_of(x), is_null(x), type_sort(to)),
        _ => false,
    }
}

/// Judges a cast of an operand to a type, which is told at `(`.
pub fn judge_cast(faults: &mut Faults, to: &Option<CType>, x: &Option<Operand>, at: u32)
    ensures { faults.new.least ≡ all_judged faults.old.least
        (cast_rules (option_map plain_type to.now) (option_map plain_operand x.now) at) }
{
    faults.judge(31, is_no_cast(to, x), at);
}

fn cast_to(alloc: Global, modes: Modes, to: &CType, x: Operand) -> Result<Option<Operand>, NoMemory>
    ensures { IfOk result (λ y. option_map plain_operand y ≡ cast modes (plain_type to.now) (plain_operand x)) }
{
    if castable(sort_of(&x), is_null(&x), type_sort(to)) {
        let e = in_type(alloc, modes, to, x)?;
        Ok(valued(Some(e)))
    } else {
        drop(x);
        Ok(None)
    }
}

/// What a cast makes of an operand, or None where the type or the operand is unknown or the cast breaks a rule.
pub fn cast(
    alloc: Global,
    modes: Modes,
    to: &Option<CType>,
    x: Option<Operand>,
) -> Result<Option<Operand>, NoMemory>
    ensures { IfOk result (λ y. option_map plain_operand y
        ≡ with_both (option_map plain_type to.now) (option_map plain_operand x) (cast modes)) }
{
    let Some(to) = to else {
        drop(x);
        return Ok(None);
    };
    let Some(x) = x else {
        return Ok(None);
    };
    cast_to(alloc, modes, to, x)
}
