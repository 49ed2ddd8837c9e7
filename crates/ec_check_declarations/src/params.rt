//! Parameters (ISO/IEC 9899:1999, 6.7.5.3).
ghost use Rattle.std.specs.Prelude.{◌≡◌, ◌||◌, ◌∷◌, [], ◌++◌, IfOk, OnOk, map, option_map};
ghost use Rattle.ec_core.specs.Plain.{plain_type};
ghost use Rattle.ec_grammar.specs.Views.{view_option, view_identifier, view_param, view_next_param, view_params};
ghost use Rattle.ec_check_names.specs.Tags.{plain_tags};
ghost use Rattle.ec_check_declarations.specs.Params.{plain_param, name_in, is_no_scalar, scalar_type, param_at, has_name};
ghost use Rattle.ec_check_declarations.specs.Params.{is_nameless, is_misnamed, param_declared, param_sites, next_declared};
ghost use Rattle.ec_check_declarations.specs.Params.{params_declared, more_params_sites, params_sites};
ghost use Rattle.ec_check_declarations.specs.NameSets.{is_among, AreParamNames};
ghost use Rattle.ec_check_declarations.specs.Sites.{Walked};

use crate::heads::{head, meant_type};
use crate::name_sets::{is_among, note_name};
use crate::object_types::is_object_type;
use crate::scopes::copied_name;
use ec_check_names::{Tags, first_type_name, judge_specs};
use ec_check_operands::{Faults, type_sort};
use ec_core::CType;
use ec_grammar::{Identifier, NextParam, Param, Params};
use ec_space::{Name, NoMemory, push};
use indexmap::IndexSet;
use std::alloc::Global;

/// What a parameter declares.
#[derive(Drop)]
pub struct ParamDeclared {
    pub name: Option<Name>,
    /// None where the parameter breaks a rule of types.
    pub ty: Option<CType>,
    pub konst: bool,
}

// ---- names

/// Notes the name of a parameter, if it has one.
fn note_param(alloc: Global, names: &mut IndexSet<Name>, p: &Param) -> Result<(), NoMemory>
    ensures { OnOk result ((n : _) → is_among n names.new.keys
        ≡ (is_among n names.old.keys || has_name n (view_param p.now))) }
{
    match &p.name {
        None => Ok(()),
        Some(n) => note_name(alloc, names, &n.name),
    }
}

fn is_nameless(defined: bool, p: &Param) -> bool
    ensures { result ≡ is_nameless defined (view_param p.now) }
{
    match &p.name {
        None => defined,
        Some(_) => false,
    }
}

/// Whether a parameter has the name of one before it, which all have these names, or none though the function is defined.
fn is_misnamed(defined: bool, names: &IndexSet<Name>, p: &Param) -> bool
    ensures { (first : _) (before : _) → AreParamNames names.now.keys first before
        → result ≡ is_misnamed defined first before (view_param p.now) }
{
    match &p.name {
        None => defined,
        Some(n) => is_among(names, &n.name),
    }
}

fn param_at(p: &Param) -> u32
    ensures { result ≡ param_at (view_param p.now) }
{
    match &p.name {
        None => first_type_name(&p.ty),
        Some(n) => n.spot.index,
    }
}

// ---- types

fn is_no_scalar(ty: &Option<CType>) -> bool
    ensures { result ≡ is_no_scalar (option_map plain_type ty.now) }
{
    match ty {
        None => false,
        Some(ty) => !type_sort(ty).is_scalar(),
    }
}

fn scalar_type(structs: usize, ty: Option<CType>) -> Option<CType>
    ensures { option_map plain_type result ≡ scalar_type structs (option_map plain_type ty) }
{
    ty.filter(|ty| type_sort(ty).is_scalar() && is_object_type(structs, ty))
}

// ---- parameters

fn name_in(alloc: Global, name: &Option<Identifier>) -> Result<Option<Name>, NoMemory>
    ensures { IfOk result (λ n. option_map (λ n. n.items) n ≡ name_in (view_option view_identifier name.now)) }
{
    let Some(n) = name else {
        return Ok(None);
    };
    let copy = copied_name(alloc, &n.name)?;
    Ok(Some(copy))
}

fn declared_param(
    alloc: Global,
    faults: &mut Faults,
    tags: &Tags,
    structs: usize,
    misnamed: bool,
    p: &Param,
) -> Result<ParamDeclared, NoMemory>
    ensures { let ts = plain_tags tags.now in let t = view_param p.now in
        IfOk result (λ d. Walked faults.old.least faults.new.least (param_sites ts misnamed t)
        (plain_param d) (param_declared ts structs t)) }
{
    let said = judge_specs(faults, tags, false, &p.ty.specs);
    let void_at = said.types.void_at();
    let head = head(alloc, faults, false, void_at, said, &p.ty.stars)?;
    let at = param_at(p);
    faults.judge(5, misnamed, at);
    faults.judge(17, is_no_scalar(&head.ty), at);
    let konst = head.qualities.konst;
    let ty = scalar_type(structs, meant_type(void_at, head.ty));
    let name = name_in(alloc, &p.name)?;
    Ok(ParamDeclared { name, ty, konst })
}

fn add_param(
    alloc: Global,
    faults: &mut Faults,
    tags: &Tags,
    structs: usize,
    misnamed: bool,
    p: &Param,
    params: &mut Vec<ParamDeclared>,
) -> Result<(), NoMemory>
    ensures { let ts = plain_tags tags.now in let t = view_param p.now in
        OnOk result (Walked faults.old.least faults.new.least (param_sites ts misnamed t)
        (map plain_param params.new.items) (map plain_param params.old.items ++ param_declared ts structs t ∷ [])) }
{
    let d = declared_param(alloc, faults, tags, structs, misnamed, p)?;
    push(params, d)
}

/// The parameters behind the first one.
fn add_params(
    alloc: Global,
    faults: &mut Faults,
    tags: &Tags,
    structs: usize,
    defined: bool,
    first: &Param,
    more: &[NextParam],
    params: &mut Vec<ParamDeclared>,
) -> Result<(), NoMemory>
    ensures { let ts = plain_tags tags.now in let all = map view_next_param more.now in
        OnOk result (Walked faults.old.least faults.new.least
        (more_params_sites ts defined (view_param first.now) all 0 all)
        (map plain_param params.new.items)
        (map plain_param params.old.items ++ map (next_declared ts structs) all)) }
{
    let mut names = IndexSet::new(alloc);
    note_param(alloc, &mut names, first)?;
    for p in more {
        let misnamed = is_misnamed(defined, &names, &p.param);
        add_param(alloc, faults, tags, structs, misnamed, &p.param, params)?;
        note_param(alloc, &mut names, &p.param)?;
    }
    Ok(())
}

/// What parameters declare, where there are `structs` structs, of a function that is defined or only declared. Judges
/// their specifiers (rules 1, 2, 4 and 10), stars, spaces (3) and `void` (7); and at the name, or else at the first
/// token, rule 5, where a parameter has the name of one before it, or has none though the function is defined, and rule
/// 17.
pub fn declared_params(
    alloc: Global,
    faults: &mut Faults,
    tags: &Tags,
    structs: usize,
    defined: bool,
    params: &Params,
) -> Result<Vec<ParamDeclared>, NoMemory>
    ensures { let ts = plain_tags tags.now in let t = view_params params.now in
        IfOk result (λ ps. Walked faults.old.least faults.new.least (params_sites ts defined t)
        (map plain_param ps.items) (params_declared ts structs t)) }
{
    let mut all = Vec::new(alloc);
    match params {
        Params::Void(_) => {}
        Params::Some(first, more) => {
            let nameless = is_nameless(defined, first);
            add_param(alloc, faults, tags, structs, nameless, first, &mut all)?;
            add_params(alloc, faults, tags, structs, defined, first, more, &mut all)?;
        }
    }
    Ok(all)
}
