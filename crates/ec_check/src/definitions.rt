//! Definitions of functions (ISO/IEC 9899:1999, 6.9.1).
ghost use Rattle.std.specs.Prelude.{◌≡◌, IfOk, OnOk, Some, [], map, option_map};
ghost use Rattle.ec_iohw.specs.Valid.{ValidIo};
ghost use Rattle.ec_core.specs.Plain.{plain_type, plain_stmt, plain_function};
ghost use Rattle.ec_grammar.specs.Views.{view_compound, view_function};
ghost use Rattle.ec_check_declarations.specs.Functions.{plain_declared_function};
ghost use Rattle.ec_check_declarations.specs.Params.{plain_param};
ghost use Rattle.ec_check_declarations.specs.Scopes.{plain_scope};
ghost use Rattle.ec_check_declarations.specs.Sites.{Walked};
ghost use Rattle.ec_check_file_scope.specs.States.{plain_setting, plain_state, IsSoundState};
ghost use Rattle.ec_check.specs.Definitions.{with_param, param_number, with_params, next_numbers, param_numbers};
ghost use Rattle.ec_check.specs.Definitions.{has_number, number_in, function_made, with_function, defined_in};
ghost use Rattle.ec_check.specs.Definitions.{after_definition, body_sites_in, definition_sites, definition_word};
ghost use Rattle.ec_check.specs.Definitions.{definition_head_sites, definition_declared, definition_body_sites};
ghost use Rattle.ec_check.specs.Definitions.{with_definition};

use ec_check_declarations::{
    Context, FunctionDeclared, ParamDeclared, Scope, copied_name, declared_function,
};
use ec_check_file_scope::{Setting, State, name_function, word_of};
use ec_check_names::{StorageWord, judge_specs, storages_of};
use ec_check_operands::Faults;
use ec_check_statements::{Around, body};
use ec_core::{CType, Func, Stmt, Storage};
use ec_grammar::{Compound, Function};
use ec_space::{Name, NoMemory, Seq};
use std::alloc::Global;

// ---- parameters

/// Declares a parameter with a name as an object of the function, and answers its number, if it is made.
fn declare_param(
    alloc: Global,
    unit: u8,
    function: u16,
    scope: &mut Scope,
    p: &ParamDeclared,
) -> Result<Option<u16>, NoMemory>
    ensures number { IfOk result (λ n. n ≡ param_number (plain_param p.now).name (plain_param p.now)
        (plain_scope scope.old)) }
    ensures scope { OnOk result (plain_scope scope.new ≡ with_param unit function (plain_param p.now).name
        (plain_param p.now) (plain_scope scope.old)) }
{
    match &p.name {
        None => Ok(None),
        Some(name) => {
            let storage = Storage::Param(function);
            scope.declare_inner(alloc, unit, name, &p.ty, p.konst, storage)
        }
    }
}

fn keep(numbers: &mut Option<Seq<u16>>, n: Option<u16>) -> Result<(), NoMemory>
    ensures { OnOk result (option_map (λ ns. ns.items) numbers.new
        ≡ next_numbers (option_map (λ ns. ns.items) numbers.old) n) }
{
    let Some(list) = numbers else {
        return Ok(());
    };
    match n {
        None => {
            *numbers = None;
            Ok(())
        }
        Some(n) => list.push(n),
    }
}

/// Declares the parameters of a function, and answers the numbers of their objects, if all are made.
fn declare_params(
    alloc: Global,
    unit: u8,
    function: u16,
    scope: &mut Scope,
    params: &[ParamDeclared],
) -> Result<Option<Seq<u16>>, NoMemory>
    ensures numbers { let ps = map plain_param params.now in
        IfOk result (λ ns. option_map (λ ns. ns.items) ns
        ≡ param_numbers unit function ps (plain_scope scope.old) (Some [])) }
    ensures scope { OnOk result (plain_scope scope.new
        ≡ with_params unit function (map plain_param params.now) (plain_scope scope.old)) }
{
    let mut numbers = Some(Seq::new(alloc));
    for p in params {
        let n = declare_param(alloc, unit, function, scope, p)?;
        keep(&mut numbers, n)?;
    }
    Ok(numbers)
}

// ---- functions

fn number_in(functions: &Seq<Func>) -> u16
    ensures { result ≡ number_in (map plain_function functions.now.items) }
{
    let n = functions.len();
    if n < 65_536 { n as u16 } else { 0 }
}

fn function_made(
    alloc: Global,
    unit: u8,
    name: &Name,
    returns: Option<CType>,
    params: Option<Seq<u16>>,
    body: Option<Stmt>,
) -> Result<Option<Func>, NoMemory>
    ensures { IfOk result (λ f. option_map plain_function f ≡ function_made unit name.now.items
        (option_map plain_type returns) (option_map (λ ns. ns.items) params) (option_map plain_stmt body)) }
{
    let Some(((returns, params), body)) = returns.zip(params).zip(body) else {
        return Ok(None);
    };
    let Ok(name) = copied_name(alloc, name) else {
        drop(((returns, params), body));
        return Err(NoMemory);
    };
    Ok(Some(Func {
        name,
        unit,
        result: returns,
        params,
        body,
    }))
}

fn add_function(state: &mut State, f: Option<Func>) -> Result<(), NoMemory>
    requires { IsSoundState (plain_state state.old) }
    ensures state { OnOk result (plain_state state.new
        ≡ with_function (option_map plain_function f) (plain_state state.old)) }
    ensures sound { OnOk result (IsSoundState (plain_state state.new)) }
{
    let Some(f) = f else {
        state.whole = false;
        return Ok(());
    };
    if state.functions.len() < 65_536 {
        state.functions.push(f)
    } else {
        drop(f);
        state.whole = false;
        Ok(())
    }
}

/// The parameters and the body of a definition, whose name is declared.
fn define(
    alloc: Global,
    setting: &Setting,
    state: &mut State,
    faults: &mut Faults,
    name: &Name,
    f: FunctionDeclared,
    c: &Compound,
) -> Result<(), NoMemory>
    requires io { ValidIo (plain_setting setting.now).ports }
    requires sound { IsSoundState (plain_state state.old) }
    ensures walked { let r = plain_setting setting.now in let s = plain_state state.old in
        let d = plain_declared_function f in let t = view_compound c.now in
        OnOk result (Walked faults.old.least faults.new.least (body_sites_in r d t s)
        (plain_state state.new) (defined_in r name.now.items d t s)) }
    ensures sound { OnOk result (IsSoundState (plain_state state.new)) }
{
    let function = number_in(&state.functions);
    let first = state.scope.names.names_inside();
    let numbers = declare_params(alloc, setting.unit, function, &mut state.scope, &f.params);
    let Ok(numbers) = numbers else {
        drop(f);
        return Err(NoMemory);
    };
    let context = Context {
        tags: &state.tags,
        structs: state.structs.list(),
        ports: setting.ports,
        modes: state.modes,
    };
    let around = Around {
        function,
        unit: setting.unit,
        in_loop: false,
        result: &f.returns,
        first,
    };
    let Ok(stmt) = body(alloc, &context, &around, &mut state.scope, faults, c) else {
        drop((f, numbers));
        return Err(NoMemory);
    };
    let FunctionDeclared { returns, params } = f;
    drop(params);
    let made = function_made(alloc, setting.unit, name, returns, numbers, stmt)?;
    add_function(state, made)
}

/// What the head of a definition declares.
fn declared(
    alloc: Global,
    state: &State,
    faults: &mut Faults,
    f: &Function,
) -> Result<FunctionDeclared, NoMemory>
    ensures { let s = plain_state state.now in let t = view_function f.now in
        IfOk result (λ d. Walked faults.old.least faults.new.least (definition_head_sites t s)
        (plain_declared_function d) (definition_declared t s)) }
{
    let said = judge_specs(faults, &state.tags, true, &f.result.specs);
    declared_function(
        alloc,
        faults,
        &state.tags,
        state.structs.list().len(),
        true,
        said,
        &f.result.stars,
        f.name.spot.index,
        &f.params,
    )
}

fn word_of_definition(f: &Function) -> Option<StorageWord>
    ensures { result ≡ definition_word (view_function f.now) }
{
    word_of(storages_of(&f.result.specs).first)
}

/// The name, the parameters and the body of a definition whose head declares so much.
fn add_definition(
    alloc: Global,
    setting: &Setting,
    state: &mut State,
    faults: &mut Faults,
    f: &Function,
    d: FunctionDeclared,
) -> Result<(), NoMemory>
    requires io { ValidIo (plain_setting setting.now).ports }
    requires sound { IsSoundState (plain_state state.old) }
    ensures walked { let r = plain_setting setting.now in let s = plain_state state.old in
        let t = view_function f.now in let x = plain_declared_function d in
        OnOk result (Walked faults.old.least faults.new.least (definition_body_sites r t s x)
        (plain_state state.new) (with_definition r t s x)) }
    ensures sound { OnOk result (IsSoundState (plain_state state.new)) }
{
    let word = word_of_definition(f);
    let named = name_function(
        alloc, setting, state, faults, word, &f.name, true, false, &d,
    );
    if let Err(e) = named {
        drop(d);
        return Err(e);
    }
    define(alloc, setting, state, faults, &f.name.name, d, &f.body)?;
    Ok(())
}

/// A definition of a function. Judges its specifiers; rules 2, 3, 4, 7 and 17 of its result; those of its parameters; 6
/// and 18 at its name; and those of its body.
pub(crate) fn definition(
    alloc: Global,
    setting: &Setting,
    state: &mut State,
    faults: &mut Faults,
    f: &Function,
) -> Result<(), NoMemory>
    requires io { ValidIo (plain_setting setting.now).ports }
    requires sound { IsSoundState (plain_state state.old) }
    ensures walked { let r = plain_setting setting.now in let s = plain_state state.old in
        let t = view_function f.now in
        OnOk result (Walked faults.old.least faults.new.least (definition_sites r t s)
        (plain_state state.new) (after_definition r t s)) }
    ensures sound { OnOk result (IsSoundState (plain_state state.new)) }
{
    let d = declared(alloc, state, faults, f)?;
    add_definition(alloc, setting, state, faults, f, d)
}
