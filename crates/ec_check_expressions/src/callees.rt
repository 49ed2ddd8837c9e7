//! What is called.
//!
//! Operands that are not used are dropped by a call: a drop in place at each exit would cost the proof its variants.
ghost use Rattle.std.specs.Prelude.{◌≡◌, IfOk, List, ◌∷◌, map, option_map};
ghost use Rattle.std.specs.Option.{option_copied};
ghost use Rattle.ec_grammar.specs.Views.{view_expression, view_assignment, view_conditional, view_binary, view_cast};
ghost use Rattle.ec_grammar.specs.Views.{view_unary, view_postfix, view_primary, view_identifier};
ghost use Rattle.ec_core.specs.Plain.{plain_type};
ghost use Rattle.ec_check_names.specs.Names.{plain_named};
ghost use Rattle.ec_check_forms.specs.Calls.{called as called_of};
ghost use Rattle.ec_check_operands.specs.Operands.{plain_operand};
ghost use Rattle.ec_check_expressions.specs.Arguments.{plain_arguments};
ghost use Rattle.ec_check_expressions.specs.Callees.{name_in_expression, name_in_assignment, name_in_conditional, name_in_binary};
ghost use Rattle.ec_check_expressions.specs.Callees.{name_in_cast, name_in_unary, name_in_postfix, name_in_primary, plain_called};
ghost use Rattle.ec_check_expressions.specs.Callees.{function_named, callee, takes, count_sites, called_sites, exprs_of, call_of};
ghost use Rattle.ec_check_expressions.specs.Known.{plain_known};
ghost use Rattle.ec_check_expressions.specs.Sites.{Site, told};

use crate::known::Known;
use ec_check_forms::{call, judge_call, judge_function};
use ec_check_names::Named;
use ec_check_operands::{Faults, Modes, Operand};
use ec_core::{CType, Expr};
use ec_grammar::{
    Assignment, Binary, Cast, Conditional, Expression, Identifier, Postfix, Primary, Unary,
};
use ec_space::{NoMemory, Seq};
use std::alloc::Global;

// ---- the name

#[cycle(name)]
fn name_in_expression(e: &Expression) -> Option<&Identifier>
    ensures { option_map view_identifier (option_copied result) ≡ name_in_expression (view_expression e.now) }
{
    match e {
        Expression::Single(a) => name_in_assignment(a),
        Expression::Comma(_, _, _) => None,
    }
}

#[cycle(name)]
fn name_in_assignment(e: &Assignment) -> Option<&Identifier>
    ensures { option_map view_identifier (option_copied result) ≡ name_in_assignment (view_assignment e.now) }
{
    match e {
        Assignment::Value(c) => name_in_conditional(c),
        Assignment::Assign(_, _, _, _) => None,
    }
}

#[cycle(name)]
fn name_in_conditional(e: &Conditional) -> Option<&Identifier>
    ensures { option_map view_identifier (option_copied result) ≡ name_in_conditional (view_conditional e.now) }
{
    match e {
        Conditional::Plain(b) => name_in_binary(b),
        Conditional::Choose(_, _, _, _, _) => None,
    }
}

#[cycle(name)]
fn name_in_binary(e: &Binary) -> Option<&Identifier>
    ensures { option_map view_identifier (option_copied result) ≡ name_in_binary (view_binary e.now) }
{
    match e {
        Binary::Operand(c) => name_in_cast(c),
        Binary::Join(_, _, _, _) => None,
    }
}

#[cycle(name)]
fn name_in_cast(e: &Cast) -> Option<&Identifier>
    ensures { option_map view_identifier (option_copied result) ≡ name_in_cast (view_cast e.now) }
{
    match e {
        Cast::Uncast(u) => name_in_unary(u),
        Cast::Convert(_, _, _, _) => None,
    }
}

#[cycle(name)]
fn name_in_unary(e: &Unary) -> Option<&Identifier>
    ensures { option_map view_identifier (option_copied result) ≡ name_in_unary (view_unary e.now) }
{
    match e {
        Unary::Postfix(p) => name_in_postfix(p),
        Unary::Step(_, _, _) | Unary::Prefix(_, _, _) | Unary::Size(_, _, _, _) => None,
    }
}

#[cycle(name)]
fn name_in_postfix(e: &Postfix) -> Option<&Identifier>
    ensures { option_map view_identifier (option_copied result) ≡ name_in_postfix (view_postfix e.now) }
{
    match e {
        Postfix::Primary(p) => name_in_primary(p),
        Postfix::Index(_, _, _, _)
        | Postfix::Call(_, _, _, _)
        | Postfix::Member(_, _, _, _)
        | Postfix::Stepped(_, _, _) => None,
    }
}

#[cycle(name)]
fn name_in_primary(e: &Primary) -> Option<&Identifier>
    ensures { option_map view_identifier (option_copied result) ≡ name_in_primary (view_primary e.now) }
{
    match e {
        Primary::Name(n) => Some(n),
        Primary::Parenthesised(_, e, _) => name_in_expression(e),
        Primary::Constant(_, _) | Primary::Operation(_, _, _, _, _, _) => None,
    }
}

// ---- the function

/// A function that is called by its name.
#[derive(Clone, Copy)]
pub(crate) struct Called<'a> {
    /// The token of its name.
    pub at: u32,
    /// Its place in the program's list, or None where no unit defines it.
    pub number: Option<u16>,
    pub returns: &'a Option<CType>,
    pub params: &'a Option<Seq<CType>>,
}

fn function_named(at: u32, what: Option<&Named>) -> Option<Called<'_>>
    ensures { option_map plain_called result ≡ function_named at (option_map plain_named (option_copied what.entry)) }
{
    match what {
        None | Some(Named::Object { .. }) => None,
        Some(
            Named::Function {
                number,
                result_type,
                params,
            },
        ) => Some(Called {
            at,
            number: *number,
            returns: result_type,
            params,
        }),
    }
}

/// The function that a postfix expression names, in parentheses or not.
pub(crate) fn callee<'a>(known: &Known<'a>, p: &Postfix) -> Option<Called<'a>>
    ensures { option_map plain_called result ≡ callee (plain_known known.now) (view_postfix p.now) }
{
    let n = name_in_postfix(p)?;
    function_named(n.spot.index, known.names.find(&n.name))
}

// ---- its call

fn judge_count(faults: &mut Faults, params: &Option<Seq<CType>>, count: usize, at: u32)
    ensures { (rest : List Site) → told faults.new.least rest ≡ told faults.old.least
        (count_sites (option_map (λ ts. map plain_type ts.items) params.now) count at rest) }
{
    match params {
        None => {}
        Some(params) => judge_call(faults, params.len(), count, at),
    }
}

/// Judges a call of a function by its name with so many arguments: rule 19 at the name, rule 22 at `(`.
pub(crate) fn judge_called(faults: &mut Faults, f: &Called, count: usize, at: u32)
    ensures { (rest : List Site) → told faults.new.least rest ≡ told faults.old.least
        (called_sites (plain_called f.now) count at rest) }
{
    judge_function(faults, f.number.is_some(), f.at);
    judge_count(faults, f.params, count, at);
}

fn takes(params: &Option<Seq<CType>>, count: usize) -> bool
    ensures { result ≡ takes (option_map (λ ts. map plain_type ts.items) params.now) count }
{
    match params {
        None => false,
        Some(params) => params.len() == count,
    }
}

fn made_call(
    modes: Modes,
    function: u16,
    returns: CType,
    args: Option<Seq<Expr>>,
) -> Option<Operand>
    ensures { option_map plain_operand result
        ≡ called_of modes function (plain_type returns) (option_map exprs_of (plain_arguments args)) }
{
    call(modes, function, returns, args)
}

/// What a call makes of its arguments, brought to the types of the parameters.
pub(crate) fn call_of(
    alloc: Global,
    modes: Modes,
    f: &Called,
    count: usize,
    args: Option<Seq<Expr>>,
) -> Result<Option<Operand>, NoMemory>
    ensures { IfOk result (λ x. option_map plain_operand x
        ≡ call_of modes (plain_called f.now) count (plain_arguments args)) }
{
    let called = f.number.zip(f.returns.as_ref());
    let Some((number, returns)) = called.filter(|_| takes(f.params, count)) else {
        drop(args);
        return Ok(None);
    };
    let returns = returns.copied(alloc)?;
    Ok(made_call(modes, number, returns, args))
}
