//! Arguments of calls, and operands of operations on ports.
//!
//! Trees that are not used are dropped by a call: a drop in place at each exit would cost the proof its variants.
ghost use Rattle.std.specs.Prelude.{◌≡◌, IfOk, OnOk, [], ◌∷◌, None, Some, map, option_map, slice_get};
ghost use Rattle.ec_core.specs.Plain.{plain_type, plain_expr};
ghost use Rattle.ec_grammar.specs.Views.{views_further};
ghost use Rattle.ec_check_forms.specs.Calls.{port_named, group_named, group_operation, binding_operation};
ghost use Rattle.ec_check_forms.specs.Nodes.{used};
ghost use Rattle.ec_check_operands.specs.Operands.{plain_operand};
ghost use Rattle.ec_check_operands.specs.Passing.{passed as passed_to};
ghost use Rattle.ec_check_forms.specs.Sites.{a_use, a_passing, a_port, a_group, a_binding};
ghost use Rattle.ec_check_expressions.specs.Arguments.{plain_wanted, wanted_of, wanted_type, plain_passed};
ghost use Rattle.ec_check_expressions.specs.Arguments.{arguments as passed_arguments, operands as passed_operands, plain_arguments};
ghost use Rattle.ec_check_expressions.specs.Arguments.{appended, is_index, with_argument, arguments_in};
ghost use Rattle.ec_check_expressions.specs.Arguments.{access_of};
ghost use Rattle.ec_check_expressions.specs.Bindings.{binding_of};
ghost use Rattle.ec_check_expressions.specs.Known.{IsSound, plain_known};
ghost use Rattle.ec_check_expressions.specs.Sites.{on, Walked};

use crate::bindings::binding_of;
use crate::known::Known;
use ec_check_forms::{
    NamedPort, access, binding_operation, group_named, group_operation, is_indexed, judge_binding,
    judge_group, judge_port, operand_count, operand_type, port_named, take,
};
use ec_check_operands::{Faults, Modes, Operand, boxed, judge_passing, pass};
use ec_core::{CType, Expr};
use ec_grammar::{Argument, Identifier, IoOp};
use ec_space::{NoMemory, Seq};
use std::alloc::Global;

/// What the types are to which arguments are brought.
#[derive(Clone, Copy)]
pub(crate) enum Wanted<'a> {
    /// Nothing is known of them.
    Nothing,
    /// Those of parameters.
    Parameters(&'a Seq<CType>),
    /// Those of the operands of a port operation, where the port itself has number 0.
    PortOperands(IoOp),
}

pub(crate) fn wanted_of(params: &Option<Seq<CType>>) -> Wanted<'_>
    ensures { plain_wanted result ≡ wanted_of (option_map (λ ts. map plain_type ts.items) params.now) }
{
    match params {
        None => Wanted::Nothing,
        Some(params) => Wanted::Parameters(params),
    }
}

fn type_at(alloc: Global, types: &Seq<CType>, i: usize) -> Result<Option<CType>, NoMemory>
    ensures { IfOk result (λ ty. option_map plain_type ty ≡ slice_get (map plain_type types.now.items) i) }
{
    let Some(ty) = types.get(i) else {
        return Ok(None);
    };
    let ty = ty.copied(alloc)?;
    Ok(Some(ty))
}

fn wanted_type(alloc: Global, wanted: &Wanted, i: usize) -> Result<Option<CType>, NoMemory>
    ensures { IfOk result (λ ty. option_map plain_type ty ≡ wanted_type (plain_wanted wanted.now) i) }
{
    match wanted {
        Wanted::Nothing => Ok(None),
        Wanted::Parameters(types) => type_at(alloc, types, i),
        Wanted::PortOperands(op) => Ok(operand_type(*op, i.saturating_sub(1))),
    }
}

/// What was passed so far.
#[derive(Drop)]
pub(crate) enum Passed {
    /// The arguments of a call, or None where one cannot be brought to its type.
    Arguments(Option<Seq<Expr>>),
    /// The operands of a port operation.
    Operands {
        index: Option<Expr>,
        contents: Option<Expr>,
    },
}

impl Passed {
    /// No arguments of a call.
    pub(crate) fn no_arguments(alloc: Global) -> Passed
        ensures { plain_passed result ≡ passed_arguments (Some []) }
    {
        Passed::Arguments(Some(Seq::new(alloc)))
    }

    /// No operands of a port operation.
    pub(crate) fn no_operands() -> Passed
        ensures { plain_passed result ≡ passed_operands None None }
    {
        Passed::Operands {
            index: None,
            contents: None,
        }
    }

    pub(crate) fn arguments(self) -> Option<Seq<Expr>>
        ensures { plain_arguments result ≡ arguments_in (plain_passed self) }
    {
        match self {
            Passed::Arguments(es) => es,
            Passed::Operands { index, contents } => {
                drop((index, contents));
                None
            }
        }
    }
}

fn is_index(wanted: &Wanted, i: usize) -> bool
    ensures { result ≡ is_index (plain_wanted wanted.now) i }
{
    match wanted {
        Wanted::Nothing | Wanted::Parameters(_) => false,
        Wanted::PortOperands(op) => is_indexed(*op) && i == 1,
    }
}

fn append(args: &mut Option<Seq<Expr>>, e: Option<Expr>) -> Result<(), NoMemory>
    ensures { OnOk result (plain_arguments args.new
        ≡ appended (plain_arguments args.old) (option_map plain_expr e)) }
{
    let Some(e) = e else {
        *args = None;
        return Ok(());
    };
    match args {
        None => {
            drop(e);
            Ok(())
        }
        Some(es) => es.push(e),
    }
}

fn set<T: Drop>(place: &mut T, x: T)
    ensures { place.new ≡ x }
{
    *place = x;
}

fn put(wanted: &Wanted, i: usize, args: &mut Passed, e: Option<Expr>) -> Result<(), NoMemory>
    ensures { OnOk result (plain_passed args.new
        ≡ with_argument (plain_wanted wanted.now) i (plain_passed args.old) (option_map plain_expr e)) }
{
    match args {
        Passed::Arguments(es) => append(es, e),
        Passed::Operands { index, contents } => {
            if is_index(wanted, i) {
                set(index, e);
            } else {
                set(contents, e);
            }
            Ok(())
        }
    }
}

/// Takes an argument for use (rule 40), judges how it is passed (rules 28 to 30), and puts it to those before it.
pub(crate) fn passing(
    alloc: Global,
    modes: Modes,
    faults: &mut Faults,
    wanted: &Wanted,
    i: usize,
    args: &mut Passed,
    x: Option<Operand>,
    first: u32,
) -> Result<(), NoMemory>
    ensures { let a = option_map plain_operand x in let w = plain_wanted wanted.now in let to = wanted_type w i in
        OnOk result (Walked faults.old.least faults.new.least
        (λ rest. on (a_use a first) ∷ on (a_passing (used a) to first) ∷ rest)
        (plain_passed args.new) (with_argument w i (plain_passed args.old) (passed_to modes to (used a)))) }
{
    let x = take(faults, x, first);
    let x = boxed(alloc, x)?;
    let to = wanted_type(alloc, wanted, i)?;
    let x = Box::into_inner(x);
    judge_passing(faults, &x, &to, first);
    let e = pass(alloc, modes, to.as_ref(), x);
    drop(to);
    put(wanted, i, args, e?)
}

// ---- operations on ports and groups

fn access_of(
    alloc: Global,
    modes: Modes,
    op: IoOp,
    port: Option<NamedPort>,
    count: usize,
    args: Passed,
) -> Result<Option<Operand>, NoMemory>
    ensures { IfOk result (λ x. option_map plain_operand x ≡ access_of modes op port count (plain_passed args)) }
{
    if count != operand_count(op) {
        drop(args);
        return Ok(None);
    }
    match args {
        Passed::Arguments(es) => {
            drop(es);
            Ok(None)
        }
        Passed::Operands { index, contents } => access(alloc, modes, op, port, index, contents),
    }
}

/// What an operation on a port makes of its operands, of which there are so many.
pub(crate) fn accessing(
    alloc: Global,
    known: &Known,
    faults: &mut Faults,
    op: IoOp,
    name: &Identifier,
    count: usize,
    args: Passed,
    at: u32,
) -> Result<Option<Operand>, NoMemory>
    requires { IsSound (plain_known known.now) }
    ensures { let k = plain_known known.now in let p = port_named k.ports name.now.name.items in
        IfOk result (λ x. Walked faults.old.least faults.new.least (λ rest. on (a_port op p count at) ∷ rest)
        (option_map plain_operand x) (access_of k.modes op p count (plain_passed args))) }
{
    let port = port_named(known.ports, &name.name);
    judge_port(faults, op, port, count, at);
    access_of(alloc, known.modes, op, port, count, args)
}

/// What an acquire or a release makes, with so many operands behind the group.
pub(crate) fn grouping(
    known: &Known,
    faults: &mut Faults,
    acquire: bool,
    name: &Identifier,
    count: usize,
    at: u32,
) -> Option<Operand>
    requires { IsSound (plain_known known.now) }
    ensures { let k = plain_known known.now in let g = group_named k.ports name.now.name.items in
        Walked faults.old.least faults.new.least (λ rest. on (a_group g count at) ∷ rest)
        (option_map plain_operand result) (group_operation k.modes acquire g count) }
{
    let group = group_named(known.ports, &name.name);
    judge_group(faults, group, count, at);
    group_operation(known.modes, acquire, group, count)
}

/// What `iogroup_map` makes of a dynamic group's name and the arguments behind it.
pub(crate) fn mapping(
    known: &Known,
    faults: &mut Faults,
    name: &Identifier,
    more: &[Argument],
    at: u32,
) -> Option<Operand>
    requires { IsSound (plain_known known.now) }
    ensures { let k = plain_known known.now in let b = binding_of k.ports name.now.name.items (views_further more.now) in
        Walked faults.old.least faults.new.least (λ rest. on (a_binding b at) ∷ rest)
        (option_map plain_operand result) (binding_operation k.modes b) }
{
    let binding = binding_of(known.ports, name, more);
    judge_binding(faults, binding, at);
    binding_operation(known.modes, binding)
}
