//! Declarations of functions at file scope (ISO/IEC 9899:1999, 6.7.5.3).
ghost use Rattle.std.specs.Prelude.{◌≡◌, IfOk, OnOk, false, map, length};
ghost use Rattle.ec_check_operands.specs.Faults.{all_judged};
ghost use Rattle.ec_grammar.specs.Views.{view_star, view_params, view_init_declarator};
ghost use Rattle.ec_check_names.specs.Names.{plain_named};
ghost use Rattle.ec_check_declarations.specs.Functions.{plain_declared_function, function_declared, function_sites};
ghost use Rattle.ec_check_declarations.specs.Params.{plain_param};
ghost use Rattle.ec_check_declarations.specs.Sites.{Walked};
ghost use Rattle.ec_check_file_scope.specs.FileFunctions.{function_link, function_name, function_named, with_function_name};
ghost use Rattle.ec_check_file_scope.specs.FileFunctions.{has_params, is_other_main};
ghost use Rattle.ec_check_file_scope.specs.FileFunctions.{function_rules, named_function_sites, after_function};
ghost use Rattle.ec_check_file_scope.specs.FileFunctions.{after_function_declarator, declared_function_sites, file_function_sites};
ghost use Rattle.ec_check_file_scope.specs.FileObjects.{word_of};
ghost use Rattle.ec_check_file_scope.specs.FileNames.{plain_file_name};
ghost use Rattle.ec_check_file_scope.specs.States.{plain_setting, plain_state, IsSoundState};

use crate::file_names::{FileKind, FileName};
use crate::file_objects::{is_started, judge_extern, word_of};
use crate::file_table::FileNames;
use crate::states::{Setting, State};
use ec_check_declarations::{
    FunctionDeclared, ParamDeclared, copied_name, copied_type, declared_function, is_other_form,
    param_types,
};
use ec_check_names::{
    Linkage, Named, Specified, Storage, StorageWord, is_main, linkage_of, number_of,
};
use ec_check_operands::Faults;
use ec_grammar::{Identifier, InitDeclarator, Params};
use ec_space::{Name, NoMemory};
use std::alloc::Global;

fn function_name(
    alloc: Global,
    setting: &Setting,
    name: &Name,
    linkage: Linkage,
    defined: bool,
    f: &FunctionDeclared,
) -> Result<FileName, NoMemory>
    ensures { IfOk result (λ d. plain_file_name d ≡ function_name (plain_setting setting.now) name.now.items linkage
        defined (plain_declared_function f.now)) }
{
    let name = copied_name(alloc, name)?;
    let returns = copied_type(alloc, &f.returns)?;
    let params = param_types(alloc, &f.params)?;
    Ok(FileName {
        name,
        unit: setting.unit,
        linkage,
        defines: defined,
        kind: FileKind::Function {
            returns,
            count: f.params.len(),
            params,
        },
    })
}

fn function_named(
    alloc: Global,
    setting: &Setting,
    name: &Name,
    linkage: Linkage,
    f: &FunctionDeclared,
) -> Result<Named, NoMemory>
    ensures { IfOk result (λ what. plain_named what ≡ function_named (plain_setting setting.now) name.now.items linkage
        (plain_declared_function f.now)) }
{
    let result_type = copied_type(alloc, &f.returns)?;
    let params = param_types(alloc, &f.params)?;
    Ok(Named::Function {
        number: number_of(setting.definitions, name, setting.unit, linkage, true),
        result_type,
        params,
    })
}

fn has_params(params: &[ParamDeclared]) -> bool
    ensures { result ≡ has_params (map plain_param params.now) }
{
    match params {
        [] => false,
        [_, ..] => true,
    }
}

fn is_other_main(word: Option<StorageWord>, f: &FunctionDeclared) -> bool
    ensures { result ≡ is_other_main word (plain_declared_function f.now) }
{
    is_other_form(word, &f.returns, has_params(&f.params))
}

fn judge_function(
    faults: &mut Faults,
    d: &FileName,
    declared: &FileNames,
    initialised: bool,
    other: bool,
    at: u32,
)
    ensures { faults.new.least ≡ all_judged faults.old.least
        (function_rules (plain_file_name d.now) (map plain_file_name declared.now.items) initialised other at) }
{
    faults.judge(6, declared.conflicts(d), at);
    faults.judge(16, initialised, at);
    faults.judge(18, is_main(&d.name) && other, at);
}

/// Declares the name of a function, whose storage word is this, and which is defined or only declared, with an
/// initialiser or not. Judges at the name rule 6, rule 16 of an initialiser, and rule 18 of a `main` other than `int
/// main(void)` without `static`.
pub fn name_function(
    alloc: Global,
    setting: &Setting,
    state: &mut State,
    faults: &mut Faults,
    word: Option<StorageWord>,
    name: &Identifier,
    defined: bool,
    initialised: bool,
    f: &FunctionDeclared,
) -> Result<(), NoMemory>
    requires { IsSoundState (plain_state state.old) }
    ensures walked { let r = plain_setting setting.now in let s = plain_state state.old in
        let n = name.now.name.items in let o = plain_declared_function f.now in
        OnOk result (Walked faults.old.least faults.new.least
        (named_function_sites r word n defined o initialised name.now.spot.index s)
        (plain_state state.new) (with_function_name r n (function_link r word n s) defined o s)) }
    ensures sound { OnOk result (IsSoundState (plain_state state.new)) }
{
    let earlier = state.declared.earlier_link(&name.name, setting.unit);
    let linkage = linkage_of(word, true, earlier);
    let d = function_name(alloc, setting, &name.name, linkage, defined, f)?;
    judge_function(
        faults,
        &d,
        &state.declared,
        initialised,
        is_other_main(word, f),
        name.spot.index,
    );
    let Ok(what) = function_named(alloc, setting, &name.name, linkage, f) else {
        drop(d);
        return Err(NoMemory);
    };
    state.declare(alloc, &name.name, what, d)
}

fn declared(
    alloc: Global,
    state: &State,
    faults: &mut Faults,
    said: Specified,
    d: &InitDeclarator,
    params: &Params,
) -> Result<FunctionDeclared, NoMemory>
    ensures { let s = plain_state state.now in let ss = map view_star d.now.declarator.stars.items in
        let at = d.now.declarator.name.spot.index in let ps = view_params params.now in
        IfOk result (λ f. Walked faults.old.least faults.new.least (function_sites s.tags false said ss at ps)
        (plain_declared_function f) (function_declared s.tags (length s.structs) said ss ps)) }
{
    declared_function(
        alloc,
        faults,
        &state.tags,
        state.structs.list().len(),
        false,
        said,
        &d.declarator.stars,
        d.declarator.name.spot.index,
        params,
    )
}

/// Declares the name of a function whose declarator declares so much. Judges rule 16 at an `extern` before an initialiser,
/// and rules 6, 16 and 18 at the name.
fn add_declared(
    alloc: Global,
    setting: &Setting,
    state: &mut State,
    faults: &mut Faults,
    storage: Option<Storage>,
    d: &InitDeclarator,
    f: &FunctionDeclared,
) -> Result<(), NoMemory>
    requires { IsSoundState (plain_state state.old) }
    ensures walked { let r = plain_setting setting.now in let s = plain_state state.old in
        let t = view_init_declarator d.now in let n = d.now.declarator.name.name.items in
        let o = plain_declared_function f.now in
        OnOk result (Walked faults.old.least faults.new.least (declared_function_sites r storage t s o)
        (plain_state state.new) (after_function_declarator r (word_of storage) n o s)) }
    ensures sound { OnOk result (IsSoundState (plain_state state.new)) }
{
    let started = is_started(&d.start);
    judge_extern(faults, started, storage);
    let word = word_of(storage);
    let name = &d.declarator.name;
    name_function(alloc, setting, state, faults, word, name, false, started, f)
}

/// A declarator of a function at file scope, where its specifiers say so much and have this storage word.
pub(crate) fn file_function(
    alloc: Global,
    setting: &Setting,
    state: &mut State,
    faults: &mut Faults,
    said: Specified,
    storage: Option<Storage>,
    d: &InitDeclarator,
    params: &Params,
) -> Result<(), NoMemory>
    requires { IsSoundState (plain_state state.old) }
    ensures walked { let r = plain_setting setting.now in let s = plain_state state.old in
        let t = view_init_declarator d.now in let ps = view_params params.now in
        OnOk result (Walked faults.old.least faults.new.least (file_function_sites r said storage t ps s)
        (plain_state state.new) (after_function r said storage t ps s)) }
    ensures sound { OnOk result (IsSoundState (plain_state state.new)) }
{
    let f = declared(alloc, state, faults, said, d, params)?;
    let named = add_declared(alloc, setting, state, faults, storage, d, &f);
    drop(f);
    named
}
