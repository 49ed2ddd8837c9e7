//! The walk over the trees of expressions.
//!
//! Operands that are not used are dropped by a call: a drop in place at each exit would cost the proof its variants.
ghost use Rattle.std.specs.Prelude.{◌≡◌, IfOk, OnOk, Some, None, List, [], ◌∷◌, option_map};
ghost use Rattle.ec_grammar.specs.Views.{view_expression, view_assignment, view_conditional, view_binary, view_cast};
ghost use Rattle.ec_grammar.specs.Views.{view_unary, view_postfix, view_primary, view_arguments, views_further};
ghost use Rattle.ec_check_operands.specs.Operands.{plain_operand};
ghost use Rattle.ec_check_forms.specs.Calls.{port_named, group_named, group_operation as group_operation_of};
ghost use Rattle.ec_check_forms.specs.Sites.{a_port, a_group};
ghost use Rattle.ec_check_expressions.specs.Counts.{further_count, argument_count};
ghost use Rattle.ec_check_expressions.specs.Arguments.{nothing, port_operands, plain_wanted, wanted_of, plain_passed};
ghost use Rattle.ec_check_expressions.specs.Arguments.{arguments_in, access_of};
ghost use Rattle.ec_check_expressions.specs.Arguments.{arguments as no_arguments, operands as no_operands};
ghost use Rattle.ec_check_expressions.specs.Expressions.{of_expression, of_assignment, of_conditional, of_binary, of_cast, of_unary};
ghost use Rattle.ec_check_expressions.specs.Expressions.{of_postfix, of_primary, passed_arguments, passed_further};
ghost use Rattle.ec_check_expressions.specs.Expressions.{expression_sites, assignment_sites, conditional_sites, binary_sites};
ghost use Rattle.ec_check_expressions.specs.Expressions.{cast_sites, unary_sites, postfix_sites, primary_sites, arguments_sites};
ghost use Rattle.ec_check_expressions.specs.Expressions.{further_sites, wanted_for, operation_of, operation_sites};
ghost use Rattle.ec_check_expressions.specs.Callees.{plain_called, called_sites, call_of};
ghost use Rattle.ec_check_expressions.specs.Known.{IsSound, plain_known};
ghost use Rattle.ec_check_expressions.specs.Sites.{Site, on, told, Walked};

use crate::arguments::{Passed, Wanted, accessing, grouping, mapping, passing, wanted_of};
use crate::callees::{Called, call_of, callee, judge_called};
use crate::counts::{argument_count, further_count};
use crate::known::Known;
use crate::names::{constant, naming};
use crate::nodes::{
    casting, choosing, indexing, joining, prefixing, reaching, sequenced, sizing, stepping,
    storing, take_first, take_first_part,
};
use ec_check_forms::judge_callee;
use ec_check_names::{
    first_assignment, first_binary, first_cast, first_expression, first_postfix, first_unary,
};
use ec_check_operands::{Faults, Operand};
use ec_grammar::{
    Argument, Arguments, Assignment, Binary, Cast, Conditional, Expression, GroupOp, Identifier,
    IoOp, Operation, Postfix, Primary, Unary,
};
use ec_space::NoMemory;
use std::alloc::Global;

/// What an expression means, or None where it breaks a rule and has no type. Judges the rules of its parts.
#[cycle(walk)]
pub fn expression(
    alloc: Global,
    known: &Known,
    faults: &mut Faults,
    e: &Expression,
) -> Result<Option<Operand>, NoMemory>
    requires { IsSound (plain_known known.now) }
    ensures { let k = plain_known known.now in let t = view_expression e.now in
        IfOk result (λ x. Walked faults.old.least faults.new.least (expression_sites k t)
        (option_map plain_operand x) (of_expression k t)) }
{
    match e {
        Expression::Single(a) => assignment(alloc, known, faults, a),
        Expression::Comma(e, _, a) => {
            let x = expression(alloc, known, faults, e)?;
            let p = take_first_part(faults, x, first_expression(e));
            match assignment(alloc, known, faults, a) {
                Ok(y) => sequenced(alloc, known.modes, faults, p, y, first_assignment(a)),
                Err(error) => {
                    drop(p);
                    Err(error)
                }
            }
        }
    }
}

#[cycle(walk)]
pub fn assignment(
    alloc: Global,
    known: &Known,
    faults: &mut Faults,
    e: &Assignment,
) -> Result<Option<Operand>, NoMemory>
    requires { IsSound (plain_known known.now) }
    ensures { let k = plain_known known.now in let t = view_assignment e.now in
        IfOk result (λ x. Walked faults.old.least faults.new.least (assignment_sites k t)
        (option_map plain_operand x) (of_assignment k t)) }
{
    match e {
        Assignment::Value(c) => conditional(alloc, known, faults, c),
        Assignment::Assign(u, s, op, a) => {
            let x = unary(alloc, known, faults, u)?;
            let p = take_first(faults, x, first_unary(u));
            let second = first_assignment(a);
            match assignment(alloc, known, faults, a) {
                Ok(y) => storing(alloc, known.modes, faults, *op, p, y, second, s.index),
                Err(error) => {
                    drop(p);
                    Err(error)
                }
            }
        }
    }
}

#[cycle(walk)]
pub fn conditional(
    alloc: Global,
    known: &Known,
    faults: &mut Faults,
    e: &Conditional,
) -> Result<Option<Operand>, NoMemory>
    requires { IsSound (plain_known known.now) }
    ensures { let k = plain_known known.now in let t = view_conditional e.now in
        IfOk result (λ x. Walked faults.old.least faults.new.least (conditional_sites k t)
        (option_map plain_operand x) (of_conditional k t)) }
{
    match e {
        Conditional::Plain(b) => binary(alloc, known, faults, b),
        Conditional::Choose(b, q, e, _, c) => {
            let w = binary(alloc, known, faults, b)?;
            let p = take_first(faults, w, first_binary(b));
            let x = match expression(alloc, known, faults, e) {
                Ok(x) => x,
                Err(error) => {
                    drop(p);
                    return Err(error);
                }
            };
            let y = match conditional(alloc, known, faults, c) {
                Ok(y) => y,
                Err(error) => {
                    drop((p, x));
                    return Err(error);
                }
            };
            let z = choosing(alloc, known.modes, faults, p, x, y, q.index)?;
            Ok(z)
        }
    }
}

#[cycle(walk)]
pub fn binary(
    alloc: Global,
    known: &Known,
    faults: &mut Faults,
    e: &Binary,
) -> Result<Option<Operand>, NoMemory>
    requires { IsSound (plain_known known.now) }
    ensures { let k = plain_known known.now in let t = view_binary e.now in
        IfOk result (λ x. Walked faults.old.least faults.new.least (binary_sites k t)
        (option_map plain_operand x) (of_binary k t)) }
{
    match e {
        Binary::Operand(c) => cast(alloc, known, faults, c),
        Binary::Join(a, s, op, b) => {
            let x = binary(alloc, known, faults, a)?;
            let p = take_first(faults, x, first_binary(a));
            let second = first_binary(b);
            match binary(alloc, known, faults, b) {
                Ok(y) => joining(alloc, known.modes, faults, *op, p, y, second, s.index),
                Err(error) => {
                    drop(p);
                    Err(error)
                }
            }
        }
    }
}

#[cycle(walk)]
pub fn cast(
    alloc: Global,
    known: &Known,
    faults: &mut Faults,
    e: &Cast,
) -> Result<Option<Operand>, NoMemory>
    requires { IsSound (plain_known known.now) }
    ensures { let k = plain_known known.now in let t = view_cast e.now in
        IfOk result (λ x. Walked faults.old.least faults.new.least (cast_sites k t)
        (option_map plain_operand x) (of_cast k t)) }
{
    match e {
        Cast::Uncast(u) => unary(alloc, known, faults, u),
        Cast::Convert(l, n, _, c) => {
            let x = cast(alloc, known, faults, c)?;
            let p = take_first(faults, x, first_cast(c));
            let z = casting(alloc, known, faults, n, p, l.index)?;
            Ok(z)
        }
    }
}

#[cycle(walk)]
pub fn unary(
    alloc: Global,
    known: &Known,
    faults: &mut Faults,
    e: &Unary,
) -> Result<Option<Operand>, NoMemory>
    requires { IsSound (plain_known known.now) }
    ensures { let k = plain_known known.now in let t = view_unary e.now in
        IfOk result (λ x. Walked faults.old.least faults.new.least (unary_sites k t)
        (option_map plain_operand x) (of_unary k t)) }
{
    match e {
        Unary::Postfix(p) => postfix(alloc, known, faults, p),
        Unary::Step(s, op, u) => {
            let x = unary(alloc, known, faults, u)?;
            let z = stepping(known.modes, faults, *op, true, x, first_unary(u), s.index);
            Ok(z)
        }
        Unary::Prefix(s, op, c) => {
            let x = cast(alloc, known, faults, c)?;
            prefixing(alloc, known.modes, faults, *op, x, first_cast(c), s.index)
        }
        Unary::Size(_, _, n, _) => sizing(alloc, known, faults, n),
    }
}

#[cycle(walk)]
pub fn postfix(
    alloc: Global,
    known: &Known,
    faults: &mut Faults,
    e: &Postfix,
) -> Result<Option<Operand>, NoMemory>
    requires { IsSound (plain_known known.now) }
    ensures { let k = plain_known known.now in let t = view_postfix e.now in
        IfOk result (λ x. Walked faults.old.least faults.new.least (postfix_sites k t)
        (option_map plain_operand x) (of_postfix k t)) }
{
    match e {
        Postfix::Primary(p) => primary(alloc, known, faults, p),
        Postfix::Index(p, l, e, _) => {
            let x = postfix(alloc, known, faults, p)?;
            let r = take_first(faults, x, first_postfix(p));
            let second = first_expression(e);
            match expression(alloc, known, faults, e) {
                Ok(y) => indexing(alloc, known.modes, faults, r, y, second, l.index),
                Err(error) => {
                    drop(r);
                    Err(error)
                }
            }
        }
        Postfix::Call(p, l, a, _) => {
            let f = callee(known, p);
            judge_callee(faults, f.is_some(), first_postfix(p));
            match f {
                None => {
                    let x = postfix(alloc, known, faults, p)?;
                    drop(x);
                    unwanted(alloc, known, faults, a)?;
                    Ok(None)
                }
                Some(f) => call(alloc, known, faults, &f, l.index, a),
            }
        }
        Postfix::Member(p, s, op, n) => {
            let x = postfix(alloc, known, faults, p)?;
            reaching(alloc, known, faults, *op, n, x, first_postfix(p), s.index)
        }
        Postfix::Stepped(p, s, op) => {
            let x = postfix(alloc, known, faults, p)?;
            let z = stepping(
                known.modes,
                faults,
                *op,
                false,
                x,
                first_postfix(p),
                s.index,
            );
            Ok(z)
        }
    }
}

/// A call of a function by its name, with its `(` at `at`.
#[cycle(walk)]
fn call(
    alloc: Global,
    known: &Known,
    faults: &mut Faults,
    f: &Called,
    at: u32,
    a: &Arguments,
) -> Result<Option<Operand>, NoMemory>
    requires { IsSound (plain_known known.now) }
    ensures { let k = plain_known known.now in let g = plain_called f.now in let u = view_arguments a.now in
        let w = wanted_of g.params in
        IfOk result (λ x. Walked faults.old.least faults.new.least
        (λ rest. called_sites g (argument_count u) at (arguments_sites k w u rest))
        (option_map plain_operand x) (call_of k.modes g (argument_count u)
        (arguments_in (passed_arguments k w (no_arguments (Some [])) u)))) }
{
    let count = argument_count(a);
    judge_called(faults, f, count, at);
    let mut args = Passed::no_arguments(alloc);
    match arguments(alloc, known, faults, &wanted_of(f.params), &mut args, a) {
        Ok(()) => call_of(alloc, known.modes, f, count, args.arguments()),
        Err(e) => {
            drop(args);
            Err(e)
        }
    }
}

/// The arguments of what is no function's name.
#[cycle(walk)]
fn unwanted(
    alloc: Global,
    known: &Known,
    faults: &mut Faults,
    a: &Arguments,
) -> Result<(), NoMemory>
    requires { IsSound (plain_known known.now) }
    ensures { OnOk result ((rest : List Site) → told faults.new.least rest ≡ told faults.old.least
        (arguments_sites (plain_known known.now) nothing (view_arguments a.now) rest)) }
{
    let mut args = Passed::no_operands();
    let walked = arguments(alloc, known, faults, &Wanted::Nothing, &mut args, a);
    drop(args);
    walked
}

/// Arguments, each of which is put to those before it.
#[cycle(walk)]
fn arguments(
    alloc: Global,
    known: &Known,
    faults: &mut Faults,
    wanted: &Wanted,
    args: &mut Passed,
    a: &Arguments,
) -> Result<(), NoMemory>
    requires { IsSound (plain_known known.now) }
    ensures { let k = plain_known known.now in let w = plain_wanted wanted.now in let u = view_arguments a.now in
        OnOk result (Walked faults.old.least faults.new.least (arguments_sites k w u)
        (plain_passed args.new) (passed_arguments k w (plain_passed args.old) u)) }
{
    match a {
        Arguments::None => Ok(()),
        Arguments::Some(a, more) => {
            let x = assignment(alloc, known, faults, a)?;
            passing(
                alloc,
                known.modes,
                faults,
                wanted,
                0,
                args,
                x,
                first_assignment(a),
            )?;
            further(alloc, known, faults, wanted, args, more)
        }
    }
}

/// Arguments behind the first one, or behind the name of a port.
#[cycle(walk)]
fn further(
    alloc: Global,
    known: &Known,
    faults: &mut Faults,
    wanted: &Wanted,
    args: &mut Passed,
    more: &[Argument],
) -> Result<(), NoMemory>
    requires { IsSound (plain_known known.now) }
    ensures { let k = plain_known known.now in let w = plain_wanted wanted.now in let u = views_further more.now in
        OnOk result (Walked faults.old.least faults.new.least (further_sites k w 1 u)
        (plain_passed args.new) (passed_further k w (plain_passed args.old) 1 u)) }
{
    for (i, a) in more.iter().enumerate() {
        let x = assignment(alloc, known, faults, &a.value)?;
        passing(
            alloc,
            known.modes,
            faults,
            wanted,
            i + 1,
            args,
            x,
            first_assignment(&a.value),
        )?;
    }
    Ok(())
}

#[cycle(walk)]
pub fn primary(
    alloc: Global,
    known: &Known,
    faults: &mut Faults,
    e: &Primary,
) -> Result<Option<Operand>, NoMemory>
    requires { IsSound (plain_known known.now) }
    ensures { let k = plain_known known.now in let t = view_primary e.now in
        IfOk result (λ x. Walked faults.old.least faults.new.least (primary_sites k t)
        (option_map plain_operand x) (of_primary k t)) }
{
    match e {
        Primary::Name(n) => naming(alloc, known, faults, n),
        Primary::Constant(_, c) => Ok(Some(constant(known.modes, **c))),
        Primary::Parenthesised(_, e, _) => expression(alloc, known, faults, e),
        Primary::Operation(s, op, _, n, more, _) => {
            operation(alloc, known, faults, *op, n, more, s.index)
        }
    }
}

/// An operation of `<iohw.h>`, whose name stands at `at`.
#[cycle(walk)]
fn operation(
    alloc: Global,
    known: &Known,
    faults: &mut Faults,
    op: Operation,
    n: &Identifier,
    more: &[Argument],
    at: u32,
) -> Result<Option<Operand>, NoMemory>
    requires { IsSound (plain_known known.now) }
    ensures { let k = plain_known known.now in let u = views_further more.now in let w = wanted_for op in
        IfOk result (λ x. Walked faults.old.least faults.new.least
        (operation_sites k op n.now.name.items u at (further_sites k w 1 u)) (option_map plain_operand x)
        (operation_of k op n.now.name.items u (passed_further k w (no_operands None None) 1 u))) }
{
    match op {
        Operation::Port(op) => port_operation(alloc, known, faults, op, n, more, at),
        Operation::Group(GroupOp::Acquire) => {
            group_operation(alloc, known, faults, true, n, more, at)
        }
        Operation::Group(GroupOp::Release) => {
            group_operation(alloc, known, faults, false, n, more, at)
        }
        Operation::Group(GroupOp::Map) => Ok(mapping(known, faults, n, more, at)),
    }
}

/// An operation on a port.
#[cycle(walk)]
fn port_operation(
    alloc: Global,
    known: &Known,
    faults: &mut Faults,
    op: IoOp,
    n: &Identifier,
    more: &[Argument],
    at: u32,
) -> Result<Option<Operand>, NoMemory>
    requires { IsSound (plain_known known.now) }
    ensures { let k = plain_known known.now in let u = views_further more.now in let w = port_operands op in
        let p = port_named k.ports n.now.name.items in
        IfOk result (λ x. Walked faults.old.least faults.new.least
        (λ rest. further_sites k w 1 u (on (a_port op p (further_count u) at) ∷ rest)) (option_map plain_operand x)
        (access_of k.modes op p (further_count u) (passed_further k w (no_operands None None) 1 u))) }
{
    let mut args = Passed::no_operands();
    match further(
        alloc,
        known,
        faults,
        &Wanted::PortOperands(op),
        &mut args,
        more,
    ) {
        Ok(()) => accessing(alloc, known, faults, op, n, further_count(more), args, at),
        Err(e) => {
            drop(args);
            Err(e)
        }
    }
}

/// An acquire or a release.
#[cycle(walk)]
fn group_operation(
    alloc: Global,
    known: &Known,
    faults: &mut Faults,
    acquire: bool,
    n: &Identifier,
    more: &[Argument],
    at: u32,
) -> Result<Option<Operand>, NoMemory>
    requires { IsSound (plain_known known.now) }
    ensures { let k = plain_known known.now in let u = views_further more.now in
        let g = group_named k.ports n.now.name.items in
        IfOk result (λ x. Walked faults.old.least faults.new.least
        (λ rest. further_sites k nothing 1 u (on (a_group g (further_count u) at) ∷ rest)) (option_map plain_operand x)
        (group_operation_of k.modes acquire g (further_count u))) }
{
    let mut args = Passed::no_operands();
    let walked = further(alloc, known, faults, &Wanted::Nothing, &mut args, more);
    drop(args);
    walked?;
    Ok(grouping(known, faults, acquire, n, further_count(more), at))
}
