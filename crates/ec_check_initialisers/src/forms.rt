//! The form of constant expressions (ISO/IEC 9899:1999, 6.6).
//!
//! Trees that are not used are dropped by a call: a drop in place at each exit would cost the proof its variants.
ghost use Rattle.std.specs.Prelude.{◌≡◌, IfOk, option_map};
ghost use Rattle.ec_grammar.specs.Views.{view_expression, view_assignment, view_conditional, view_binary, view_cast};
ghost use Rattle.ec_grammar.specs.Views.{view_unary, view_postfix, view_primary};
ghost use Rattle.ec_check_operands.specs.Operands.{plain_operand};
ghost use Rattle.ec_check_expressions.specs.Expressions.{of_cast};
ghost use Rattle.ec_check_expressions.specs.Known.{IsSound, plain_known};
ghost use Rattle.ec_check_initialisers.specs.Forms.{is_value_operator, is_pointer_operand, is_constant_expression};
ghost use Rattle.ec_check_initialisers.specs.Forms.{is_constant_assignment, is_constant_conditional, is_constant_binary};
ghost use Rattle.ec_check_initialisers.specs.Forms.{is_constant_cast, is_constant_unary, is_constant_postfix, is_constant_primary};

use ec_check_expressions::{Known, cast};
use ec_check_operands::{Faults, Operand, sort_of};
use ec_grammar::{
    Assignment, Binary, Cast, Conditional, Expression, Postfix, Primary, PunctKind, Unary,
};
use ec_space::NoMemory;
use std::alloc::Global;

fn is_value_operator(op: PunctKind) -> bool
    ensures { result ≡ is_value_operator op }
{
    match op {
        PunctKind::Ampersand | PunctKind::Star => false,
        _ => true,
    }
}

fn is_pointer_operand(x: &Option<Operand>) -> bool
    ensures { result ≡ is_pointer_operand (option_map plain_operand x.now) }
{
    match x {
        None => false,
        Some(x) => sort_of(x).is_pointer(),
    }
}

/// Whether a cast has the type of a pointer.
fn is_pointer_cast(alloc: Global, known: &Known, e: &Cast) -> Result<bool, NoMemory>
    requires { IsSound (plain_known known.now) }
    ensures { IfOk result (λ b. b ≡ is_pointer_operand (of_cast (plain_known known.now) (view_cast e.now))) }
{
    let mut untold = Faults::new();
    let x = cast(alloc, known, &mut untold, e)?;
    let pointer = is_pointer_operand(&x);
    drop(x);
    Ok(pointer)
}

#[cycle(constant_form)]
pub(crate) fn is_constant_expression(
    alloc: Global,
    known: &Known,
    e: &Expression,
) -> Result<bool, NoMemory>
    requires { IsSound (plain_known known.now) }
    ensures { IfOk result (λ b. b ≡ is_constant_expression (plain_known known.now) (view_expression e.now)) }
{
    match e {
        Expression::Single(a) => is_constant_assignment(alloc, known, a),
        Expression::Comma(_, _, _) => Ok(false),
    }
}

#[cycle(constant_form)]
pub(crate) fn is_constant_assignment(
    alloc: Global,
    known: &Known,
    e: &Assignment,
) -> Result<bool, NoMemory>
    requires { IsSound (plain_known known.now) }
    ensures { IfOk result (λ b. b ≡ is_constant_assignment (plain_known known.now) (view_assignment e.now)) }
{
    match e {
        Assignment::Value(c) => is_constant_conditional(alloc, known, c),
        Assignment::Assign(_, _, _, _) => Ok(false),
    }
}

/// Whether an expression has the form of a constant expression: it is built of constants, `sizeof`, casts, unary
/// `+ - ~ !`, binary operators and `?:`, and no part of it is a pointer. What its rules tell is left to the walk over it.
#[cycle(constant_form)]
pub(crate) fn is_constant_conditional(
    alloc: Global,
    known: &Known,
    e: &Conditional,
) -> Result<bool, NoMemory>
    requires { IsSound (plain_known known.now) }
    ensures { IfOk result (λ b. b ≡ is_constant_conditional (plain_known known.now) (view_conditional e.now)) }
{
    match e {
        Conditional::Plain(b) => is_constant_binary(alloc, known, b),
        Conditional::Choose(b, _, e, _, c) => {
            let condition = is_constant_binary(alloc, known, b)?;
            let second = is_constant_expression(alloc, known, e)?;
            let third = is_constant_conditional(alloc, known, c)?;
            Ok(condition && (second && third))
        }
    }
}

#[cycle(constant_form)]
fn is_constant_binary(alloc: Global, known: &Known, e: &Binary) -> Result<bool, NoMemory>
    requires { IsSound (plain_known known.now) }
    ensures { IfOk result (λ b. b ≡ is_constant_binary (plain_known known.now) (view_binary e.now)) }
{
    match e {
        Binary::Operand(c) => is_constant_cast(alloc, known, c),
        Binary::Join(a, _, _, b) => {
            let left = is_constant_binary(alloc, known, a)?;
            let right = is_constant_binary(alloc, known, b)?;
            Ok(left && right)
        }
    }
}

#[cycle(constant_form)]
fn is_constant_cast(alloc: Global, known: &Known, e: &Cast) -> Result<bool, NoMemory>
    requires { IsSound (plain_known known.now) }
    ensures { IfOk result (λ b. b ≡ is_constant_cast (plain_known known.now) (view_cast e.now)) }
{
    match e {
        Cast::Uncast(u) => is_constant_unary(alloc, known, u),
        Cast::Convert(_, _, _, c) => {
            let form = is_constant_cast(alloc, known, c)?;
            if form {
                let pointer = is_pointer_cast(alloc, known, e)?;
                Ok(!pointer)
            } else {
                Ok(false)
            }
        }
    }
}

#[cycle(constant_form)]
fn is_constant_unary(alloc: Global, known: &Known, e: &Unary) -> Result<bool, NoMemory>
    requires { IsSound (plain_known known.now) }
    ensures { IfOk result (λ b. b ≡ is_constant_unary (plain_known known.now) (view_unary e.now)) }
{
    match e {
        Unary::Postfix(p) => is_constant_postfix(alloc, known, p),
        Unary::Step(_, _, _) => Ok(false),
        Unary::Prefix(_, op, c) => {
            let form = is_constant_cast(alloc, known, c)?;
            Ok(is_value_operator(*op) && form)
        }
        Unary::Size(_, _, _, _) => Ok(true),
    }
}

#[cycle(constant_form)]
fn is_constant_postfix(alloc: Global, known: &Known, e: &Postfix) -> Result<bool, NoMemory>
    requires { IsSound (plain_known known.now) }
    ensures { IfOk result (λ b. b ≡ is_constant_postfix (plain_known known.now) (view_postfix e.now)) }
{
    match e {
        Postfix::Primary(p) => is_constant_primary(alloc, known, p),
        Postfix::Index(_, _, _, _)
        | Postfix::Call(_, _, _, _)
        | Postfix::Member(_, _, _, _)
        | Postfix::Stepped(_, _, _) => Ok(false),
    }
}

#[cycle(constant_form)]
fn is_constant_primary(alloc: Global, known: &Known, e: &Primary) -> Result<bool, NoMemory>
    requires { IsSound (plain_known known.now) }
    ensures { IfOk result (λ b. b ≡ is_constant_primary (plain_known known.now) (view_primary e.now)) }
{
    match e {
        Primary::Constant(_, _) => Ok(true),
        Primary::Parenthesised(_, e, _) => is_constant_expression(alloc, known, e),
        Primary::Name(_) | Primary::Operation(_, _, _, _, _, _) => Ok(false),
    }
}
