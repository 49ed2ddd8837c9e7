//! Units (ISO/IEC 9899:1999, 6.9).
ghost use Rattle.std.specs.Prelude.{◌≡◌, IfOk, OnOk, is_some, map};
ghost use Rattle.ec_iohw.specs.Valid.{ValidIo};
ghost use Rattle.ec_grammar.specs.Views.{view_external, view_tree};
ghost use Rattle.ec_check_names.specs.Definitions.{plain_definitions};
ghost use Rattle.ec_check_declarations.specs.Sites.{Walked};
ghost use Rattle.ec_check_file_scope.specs.States.{plain_setting, plain_state, IsSoundState};
ghost use Rattle.ec_check.specs.Units.{after_external, external_sites, after_externals, externals_sites, main_of};
ghost use Rattle.ec_check.specs.Units.{after_unit, unit_sites, unit_fault};

use crate::definitions::definition;
use ec_check_file_scope::{Setting, State, file_declaration, file_register, file_structure};
use ec_check_names::{Definition, Linkage, number_of};
use ec_check_operands::{Fault, Faults};
use ec_check_statements::with_pragma;
use ec_grammar::{External, Tree};
use ec_space::{NoMemory, Seq};
use std::alloc::Global;

fn external(
    alloc: Global,
    setting: &Setting,
    state: &mut State,
    faults: &mut Faults,
    x: &External,
) -> Result<(), NoMemory>
    requires io { ValidIo (plain_setting setting.now).ports }
    requires sound { IsSoundState (plain_state state.old) }
    ensures walked { let r = plain_setting setting.now in let s = plain_state state.old in
        let t = view_external x.now in
        OnOk result (Walked faults.old.least faults.new.least (external_sites r t s)
        (plain_state state.new) (after_external r t s)) }
    ensures sound { OnOk result (IsSoundState (plain_state state.new)) }
{
    match x {
        External::Pragma(p) => {
            state.modes = with_pragma(state.modes, *p);
            Ok(())
        }
        External::Structure(d) => file_structure(alloc, setting, state, faults, d),
        External::Register(d) => file_register(alloc, setting, state, faults, d),
        External::Declaration(d) => file_declaration(alloc, setting, state, faults, d),
        External::Function(f) => definition(alloc, setting, state, faults, f),
    }
}

fn externals(
    alloc: Global,
    setting: &Setting,
    state: &mut State,
    faults: &mut Faults,
    all: &[External],
) -> Result<(), NoMemory>
    requires io { ValidIo (plain_setting setting.now).ports }
    requires sound { IsSoundState (plain_state state.old) }
    ensures walked { let r = plain_setting setting.now in let s = plain_state state.old in
        let ts = map view_external all.now in
        OnOk result (Walked faults.old.least faults.new.least (externals_sites r ts s)
        (plain_state state.new) (after_externals r ts s)) }
    ensures sound { OnOk result (IsSoundState (plain_state state.new)) }
{
    for x in all {
        external(alloc, setting, state, faults, x)?;
    }
    Ok(())
}

/// The number of `main`, if a unit defines it as a name of all units.
pub(crate) fn main_of(alloc: Global, definitions: &[Definition]) -> Result<Option<u16>, NoMemory>
    ensures { IfOk result (λ n. n ≡ main_of (plain_definitions definitions.now)) }
{
    let mut name = Seq::new(alloc);
    name.extend_from_slice(b"main".as_slice())?;
    Ok(number_of(definitions, &name, 0, Linkage::External, true))
}

/// A unit, which is the last or not. Answers the least of its faults, if it has one.
pub(crate) fn unit(
    alloc: Global,
    setting: &Setting,
    state: &mut State,
    has_main: bool,
    last: bool,
    u: &Tree,
) -> Result<Option<Fault>, NoMemory>
    requires io { ValidIo (plain_setting setting.now).ports }
    requires sound { IsSoundState (plain_state state.old) }
    requires main { has_main ≡ is_some (main_of (plain_setting setting.now).definitions) }
    ensures fault { let r = plain_setting setting.now in
        IfOk result (λ f. f ≡ unit_fault r last (view_tree u.now) (plain_state state.old)) }
    ensures state { OnOk result (plain_state state.new
        ≡ after_unit (plain_setting setting.now) (view_tree u.now) (plain_state state.old)) }
    ensures sound { OnOk result (IsSoundState (plain_state state.new)) }
{
    state.begin_unit(alloc);
    let mut faults = Faults::new();
    externals(alloc, setting, state, &mut faults, &u.items)?;
    faults.judge(18, last && !has_main, u.end.index);
    Ok(faults.least)
}
