//! The typed program of all units, or why there is none.
ghost use Rattle.std.specs.Prelude.{◌≡◌, ◌≤◌, None, IfOk, IfSome, is_some, option_map, map, length};
ghost use Rattle.ec_iohw.specs.Valid.{ValidIo};
ghost use Rattle.ec_core.specs.Layout.{AreStructs};
ghost use Rattle.ec_core.specs.Plain.{plain_program, plain_struct};
ghost use Rattle.ec_core.specs.Valid.{Valid};
ghost use Rattle.ec_grammar.specs.Views.{view_tree};
ghost use Rattle.ec_check_names.specs.Definitions.{plain_definitions};
ghost use Rattle.ec_check_file_scope.specs.States.{plain_state, IsSoundState};
ghost use Rattle.ec_check.specs.Answers.{Walks, HasFewFunctions, HasStructs, Recurs, FollowsWalk, Checked};
ghost use Rattle.ec_check.specs.Units.{main_of, is_last, after_units, first_fault, program_in, program_by};
ghost use Rattle.ec_check.specs.Answers.{plain_unit_fault};
ghost use Rattle.ec_check.specs.Laws.{AreShort};
ghost use Rattle.ec_check.specs.Validity.{HoldNumbers};

use crate::counts::has_too_many_structs;
use crate::laws::{
    programs_are_typed, programs_are_valid, programs_exist, structs_are_few, the_least_is_found,
};
use crate::units::{main_of, unit};
use ec_check_declarations::{Scope, UnitFault, copied_name, told_of};
use ec_check_file_scope::{Setting, State};
use ec_check_names::{Definition, definitions, has_too_many_functions, has_too_many_objects};
use ec_check_recursion::first_recursive;
use ec_core::Program;
use ec_grammar::Tree;
use ec_iohw::IoTable;
use ec_space::{Name, NoMemory, Seq};
use std::alloc::Global;
use thiserror::Error;

/// Why there is no program.
#[derive(Debug, Drop, Error)]
pub enum CheckStop {
    /// Memory ran out, or the units define more structs than there are numbers of 32 bits.
    #[error("no memory")]
    NoMemory,
    /// The units declare more than 1,024 objects.
    #[error("too many objects")]
    TooManyObjects,
    /// The units define more than 256 functions.
    #[error("too many functions")]
    TooManyFunctions,
    /// The least broken rule by unit, token and rule, from 1 to 40.
    #[error("constraint {rule} at token {token} of unit {unit}")]
    Constraint { unit: u8, token: u32, rule: u8 },
    /// The name of the function, first by place of definition, that reaches itself by calls.
    #[error("recursion")]
    Recursion(Name),
}

fn is_last(behind: &[Tree]) -> bool
    ensures { result ≡ is_last (map view_tree behind.now) }
{
    match behind {
        [] => true,
        [_, ..] => false,
    }
}

/// Walks all units in order, up to the first that has a fault, and answers its least fault.
fn walk_units(
    alloc: Global,
    definitions: &[Definition],
    ports: &IoTable,
    has_main: bool,
    units: &[Tree],
    state: &mut State,
) -> Result<Option<UnitFault>, NoMemory>
    requires io { ValidIo ports.now }
    requires units { length units.now ≤ 16 }
    requires sound { IsSoundState (plain_state state.old) }
    requires main { has_main ≡ is_some (main_of (plain_definitions definitions.now)) }
    ensures fault { IfOk result (λ f. option_map plain_unit_fault f ≡ first_fault (plain_definitions definitions.now)
        ports.now 0 (map view_tree units.now) (plain_state state.old)) }
    ensures state { IfOk result (λ f. f ≡ None → plain_state state.new ≡ after_units
        (plain_definitions definitions.now) ports.now 0 (map view_tree units.now) (plain_state state.old)) }
    ensures sound { IfOk result (λ f. f ≡ None → IsSoundState (plain_state state.new)) }
{
    for (i, u) in units.iter().enumerate() {
        let setting = Setting {
            definitions,
            ports,
            unit: i as u8,
        };
        let last = is_last(&units[i + 1..]);
        let found = unit(alloc, &setting, state, has_main, last, u)?;
        if let Some(fault) = found {
            return Ok(Some(told_of(i as u8, fault)));
        }
    }
    Ok(None)
}

/// The program that a walk over the units has come to.
fn program_in(main: u16, state: State) -> Program
    requires sound { IsSoundState (plain_state state) }
    ensures structs { AreStructs (map plain_struct result.structs.items) }
    ensures value { plain_program result ≡ program_in main (plain_state state) }
    ensures few { result.funcs.items ≡ state.functions.items }
{
    let State {
        scope,
        tags,
        structs,
        functions,
        declared,
        ..
    } = state;
    let Scope { names, objects } = scope;
    drop((names, tags, declared));
    Program {
        structs: structs.into_list(),
        objs: objects,
        funcs: functions,
        main,
    }
}

fn program_by(main: Option<u16>, state: State) -> Option<Program>
    requires sound { IsSoundState (plain_state state) }
    ensures structs { IfSome result (λ p. AreStructs (map plain_struct p.structs.items)) }
    ensures value { option_map plain_program result ≡ program_by main (plain_state state) }
    ensures few { IfSome result (λ p. length p.funcs.items ≤ 65_536) }
{
    let whole = state.whole && state.functions.len() <= 65_536;
    match main {
        Some(main) => {
            if whole {
                Some(program_in(main, state))
            } else {
                drop(state);
                None
            }
        }
        None => {
            drop(state);
            None
        }
    }
}

/// The program of the units, or None where not all of it has a meaning.
fn program_of(
    alloc: Global,
    definitions: &[Definition],
    ports: &IoTable,
    units: &[Tree],
) -> Result<Result<Option<Program>, UnitFault>, NoMemory>
    requires io { ValidIo ports.now }
    requires units { length units.now ≤ 16 }
    ensures walks { IfOk result (λ r. Walks (plain_definitions definitions.now) ports.now (map view_tree units.now) r) }
    ensures few { IfOk result (λ r. HasFewFunctions r) }
    ensures structs { IfOk result (λ r. HasStructs r) }
{
    let main = main_of(alloc, definitions)?;
    let mut state = State::new(alloc);
    match walk_units(alloc, definitions, ports, main.is_some(), units, &mut state) {
        Ok(None) => Ok(Ok(program_by(main, state))),
        Ok(Some(f)) => {
            drop(state);
            Ok(Err(f))
        }
        Err(e) => {
            drop(state);
            Err(e)
        }
    }
}

/// Takes a program that is needed no more.
pub fn discard(_program: Program) {}

fn recursion(alloc: Global, p: Program) -> Result<Program, CheckStop>
    requires few { length p.funcs.items ≤ 65_536 }
    requires structs { AreStructs (map plain_struct p.structs.items) }
    ensures recurs { Recurs (plain_program p) result }
    ensures structs { IfOk result (λ p. AreStructs (map plain_struct p.structs.items)) }
{
    let found = match first_recursive(alloc, &p) {
        Ok(found) => found,
        Err(_) => {
            drop(p);
            return Err(CheckStop::NoMemory);
        }
    };
    let Some(f) = found else {
        return Ok(p);
    };
    let Some(function) = p.funcs.get(f as usize) else {
        unreachable!();
    };
    let name = copied_name(alloc, &function.name);
    drop(p);
    match name {
        Ok(name) => Err(CheckStop::Recursion(name)),
        Err(_) => Err(CheckStop::NoMemory),
    }
}

/// What `check` answers, by what the walk over the units finds.
fn checked_program(alloc: Global, units: &Seq<Tree>, io: &IoTable) -> Result<Program, CheckStop>
    requires io { ValidIo io.now }
    requires some { 1 ≤ length units.now.items }
    requires most { length units.now.items ≤ 16 }
    ensures answer { FollowsWalk (map view_tree units.now.items) io.now result }
    ensures structs { IfOk result (λ p. AreStructs (map plain_struct p.structs.items)) }
{
    let trees = units.as_slice();
    if has_too_many_objects(trees) {
        return Err(CheckStop::TooManyObjects);
    }
    if has_too_many_functions(trees) {
        return Err(CheckStop::TooManyFunctions);
    }
    if has_too_many_structs(trees) {
        return Err(CheckStop::NoMemory);
    }
    programs_exist();
    let definitions = match definitions(alloc, trees) {
        Ok(definitions) => definitions,
        Err(_) => return Err(CheckStop::NoMemory),
    };
    let walked = match program_of(alloc, definitions.as_slice(), io, trees) {
        Ok(walked) => walked,
        Err(_) => return Err(CheckStop::NoMemory),
    };
    match walked {
        Err(f) => Err(CheckStop::Constraint {
            unit: f.unit,
            token: f.token,
            rule: f.rule,
        }),
        Ok(None) => unreachable!(),
        Ok(Some(p)) => recursion(alloc, p),
    }
}

/// The typed program of the units, which no constraint, no limit and no recursion stands against. Otherwise the
/// first of these causes: too many objects; too many functions; the least constraint by unit, token and rule, which is
/// broken there, and none that is broken comes before it; the first function that reaches itself. There is a program
/// wherever none of these stands against it and memory lasts; and it is valid, where the constants in the units stand for
/// numbers of their types, and no unit has more than 65,536 tokens.
pub fn check(alloc: Global, units: &Seq<Tree>, io: &IoTable) -> Result<Program, CheckStop>
    requires io { ValidIo io.now }
    requires some { 1 ≤ length units.now.items }
    requires most { length units.now.items ≤ 16 }
    ensures answer { Checked (map view_tree units.now.items) io.now result }
    ensures valid { HoldNumbers (map view_tree units.now.items) → AreShort (map view_tree units.now.items)
        → IfOk result (λ p. Valid (plain_program p) io.now) }
    ensures structs { IfOk result (λ p. AreStructs (map plain_struct p.structs.items)) }
{
    structs_are_few();
    programs_are_valid();
    the_least_is_found();
    programs_are_typed();
    checked_program(alloc, units, io)
}
