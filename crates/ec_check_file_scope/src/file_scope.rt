//! Declarations and definitions of structs at file scope (ISO/IEC 9899:1999, 6.7 and 6.9).
ghost use Rattle.std.specs.Prelude.{◌≡◌, IfOk, OnOk, IfSome, true, map, option_map};
ghost use Rattle.ec_core.specs.Plain.{plain_struct};
ghost use Rattle.ec_iohw.specs.Valid.{ValidIo};
ghost use Rattle.ec_grammar.specs.Views.{view_init_declarator, view_next_init_declarator, view_declaration};
ghost use Rattle.ec_grammar.specs.Views.{view_structure};
ghost use Rattle.ec_check_declarations.specs.Sites.{Walked};
ghost use Rattle.ec_check_declarations.specs.Structures.{structure_sites, struct_defined, may_follow};
ghost use Rattle.ec_check_file_scope.specs.FileScope.{after_declarator, declarator_sites, after_more, more_sites};
ghost use Rattle.ec_check_file_scope.specs.FileScope.{after_declaration, declaration_sites, after_structure};
ghost use Rattle.ec_check_file_scope.specs.States.{plain_setting, plain_state, known_of, IsSoundState};

use crate::file_functions::file_function;
use crate::file_objects::file_object;
use crate::states::{Setting, State, known_of};
use ec_check_declarations::{add_struct, defined_struct};
use ec_check_names::{Specified, Storage, judge_specs, storages_of};
use ec_check_operands::Faults;
use ec_core::StructDef;
use ec_grammar::{Declaration, InitDeclarator, NextInitDeclarator, Shape, Structure};
use ec_space::NoMemory;
use std::alloc::Global;

fn declarator(
    alloc: Global,
    setting: &Setting,
    state: &mut State,
    faults: &mut Faults,
    said: Specified,
    storage: Option<Storage>,
    d: &InitDeclarator,
) -> Result<(), NoMemory>
    requires io { ValidIo (plain_setting setting.now).ports }
    requires sound { IsSoundState (plain_state state.old) }
    ensures walked { let r = plain_setting setting.now in let s = plain_state state.old in
        let t = view_init_declarator d.now in
        OnOk result (Walked faults.old.least faults.new.least (declarator_sites r said storage t s)
        (plain_state state.new) (after_declarator r said storage t s)) }
    ensures sound { OnOk result (IsSoundState (plain_state state.new)) }
{
    match &d.declarator.shape {
        Shape::Object | Shape::Array(_, _, _) => {
            file_object(alloc, setting, state, faults, said, storage, d)
        }
        Shape::Function(_, params, _) => {
            file_function(alloc, setting, state, faults, said, storage, d, params)
        }
    }
}

fn more_declarators(
    alloc: Global,
    setting: &Setting,
    state: &mut State,
    faults: &mut Faults,
    said: Specified,
    storage: Option<Storage>,
    more: &[NextInitDeclarator],
) -> Result<(), NoMemory>
    requires io { ValidIo (plain_setting setting.now).ports }
    requires sound { IsSoundState (plain_state state.old) }
    ensures walked { let r = plain_setting setting.now in let s = plain_state state.old in
        let ts = map view_next_init_declarator more.now in
        OnOk result (Walked faults.old.least faults.new.least (more_sites r said storage ts s)
        (plain_state state.new) (after_more r said storage ts s)) }
    ensures sound { OnOk result (IsSoundState (plain_state state.new)) }
{
    for d in more {
        declarator(alloc, setting, state, faults, said, storage, &d.declarator)?;
    }
    Ok(())
}

/// A declaration at file scope. Judges the rules of its specifiers, and those of its declarators and initialisers, in
/// order.
pub fn file_declaration(
    alloc: Global,
    setting: &Setting,
    state: &mut State,
    faults: &mut Faults,
    d: &Declaration,
) -> Result<(), NoMemory>
    requires io { ValidIo (plain_setting setting.now).ports }
    requires sound { IsSoundState (plain_state state.old) }
    ensures walked { let r = plain_setting setting.now in let s = plain_state state.old in
        let t = view_declaration d.now in
        OnOk result (Walked faults.old.least faults.new.least (declaration_sites r t s)
        (plain_state state.new) (after_declaration r t s)) }
    ensures sound { OnOk result (IsSoundState (plain_state state.new)) }
{
    let said = judge_specs(faults, &state.tags, true, &d.specs);
    let storage = storages_of(&d.specs).first;
    declarator(alloc, setting, state, faults, said, storage, &d.first)?;
    more_declarators(alloc, setting, state, faults, said, storage, &d.more)
}

fn struct_of(
    alloc: Global,
    setting: &Setting,
    state: &State,
    faults: &mut Faults,
    d: &Structure,
) -> Result<Option<StructDef>, NoMemory>
    requires io { ValidIo (plain_setting setting.now).ports }
    requires sound { IsSoundState (plain_state state.now) }
    ensures walked { let k = known_of (plain_setting setting.now).ports (plain_state state.now) in
        let t = view_structure d.now in
        IfOk result (λ s. Walked faults.old.least faults.new.least (structure_sites k t)
        (option_map plain_struct s) (struct_defined k t)) }
    ensures follows { IfOk result (λ s. IfSome (option_map plain_struct s)
        (λ s. may_follow (plain_state state.now).structs s.members ≡ true)) }
{
    let ports = setting.ports;
    let known = known_of(ports, state);
    defined_struct(alloc, &known, faults, d)
}

/// A definition of a struct. Judges the rules of its members, and rules 9 and 10 at the tag.
pub fn file_structure(
    alloc: Global,
    setting: &Setting,
    state: &mut State,
    faults: &mut Faults,
    d: &Structure,
) -> Result<(), NoMemory>
    requires io { ValidIo (plain_setting setting.now).ports }
    requires sound { IsSoundState (plain_state state.old) }
    ensures walked { let r = plain_setting setting.now in let s = plain_state state.old in
        let t = view_structure d.now in
        OnOk result (Walked faults.old.least faults.new.least (structure_sites (known_of r.ports s) t)
        (plain_state state.new) (after_structure r t s)) }
    ensures sound { OnOk result (IsSoundState (plain_state state.new)) }
{
    let def = struct_of(alloc, setting, state, faults, d)?;
    add_struct(alloc, &mut state.tags, &mut state.structs, &d.tag.name, def)?;
    Ok(())
}
