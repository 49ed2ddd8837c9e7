//! Declarators and definitions of functions (ISO/IEC 9899:1999, 6.7.5.3 and 6.9.1).
ghost use Rattle.std.specs.Prelude.{◌≡◌, ◌∷◌, [], ◌++◌, IfOk, OnOk, map, option_map};
ghost use Rattle.ec_core.specs.Plain.{plain_type};
ghost use Rattle.ec_grammar.specs.Views.{view_star, view_params};
ghost use Rattle.ec_check_names.specs.Tags.{plain_tags};
ghost use Rattle.ec_check_declarations.specs.Functions.{plain_declared_function, is_no_result, result_type, function_declared};
ghost use Rattle.ec_check_declarations.specs.Functions.{returned, result_sites, function_sites, param_types};
ghost use Rattle.ec_check_declarations.specs.Params.{plain_param};
ghost use Rattle.ec_check_declarations.specs.Sites.{Walked};

use crate::heads::{head, meant_type, misused_in_result};
use crate::object_types::is_object_type;
use crate::params::{ParamDeclared, declared_params};
use ec_check_names::{Specified, Tags};
use ec_check_operands::{Faults, type_sort};
use ec_core::CType;
use ec_grammar::{Params, Star};
use ec_space::{NoMemory, Seq};
use std::alloc::Global;

/// What a declarator or a definition of a function declares.
#[derive(Drop)]
pub struct FunctionDeclared {
    /// The type of the result, or None where it breaks a rule.
    pub returns: Option<CType>,
    pub params: Vec<ParamDeclared>,
}

fn is_no_result(ty: &Option<CType>) -> bool
    ensures { result ≡ is_no_result (option_map plain_type ty.now) }
{
    match ty {
        None => false,
        Some(ty) => {
            let sort = type_sort(ty);
            !(sort.is_scalar() || sort.is_void())
        }
    }
}

fn result_type(structs: usize, ty: Option<CType>) -> Option<CType>
    ensures { option_map plain_type result ≡ result_type structs (option_map plain_type ty) }
{
    ty.filter(|ty| {
        type_sort(ty).is_void() || type_sort(ty).is_scalar() && is_object_type(structs, ty)
    })
}

/// The type of the result. Judges the rules of its stars, of its space and of `void`, and rule 17 at the name.
fn declared_result(
    alloc: Global,
    faults: &mut Faults,
    structs: usize,
    said: Specified,
    stars: &[Star],
    at: u32,
) -> Result<Option<CType>, NoMemory>
    ensures { let ss = map view_star stars.now in
        IfOk result (λ ty. Walked faults.old.least faults.new.least (result_sites said ss at)
        (option_map plain_type ty) (returned structs said ss)) }
{
    let misused = misused_in_result(said.types.void_at(), stars);
    let head = head(alloc, faults, false, misused, said, stars)?;
    faults.judge(17, is_no_result(&head.ty), at);
    let ty = result_type(structs, meant_type(misused, head.ty));
    Ok(ty)
}

/// What a function declares whose specifiers say so much, of which there are `structs` structs, where it is defined or
/// only declared. Judges rules 2, 3, 4 and 7 of its result, rule 17 at its name `at`, and the rules of its parameters.
pub fn declared_function(
    alloc: Global,
    faults: &mut Faults,
    tags: &Tags,
    structs: usize,
    defined: bool,
    said: Specified,
    stars: &[Star],
    at: u32,
    params: &Params,
) -> Result<FunctionDeclared, NoMemory>
    ensures { let ts = plain_tags tags.now in let ss = map view_star stars.now in let ps = view_params params.now in
        IfOk result (λ f. Walked faults.old.least faults.new.least (function_sites ts defined said ss at ps)
        (plain_declared_function f) (function_declared ts structs said ss ps)) }
{
    let returns = declared_result(alloc, faults, structs, said, stars, at)?;
    let params = declared_params(alloc, faults, tags, structs, defined, params)?;
    Ok(FunctionDeclared { returns, params })
}

fn push_type(alloc: Global, types: &mut Seq<CType>, ty: &CType) -> Result<(), NoMemory>
    ensures { OnOk result (map plain_type types.new.items ≡ map plain_type types.old.items ++ plain_type ty.now ∷ []) }
{
    let copy = ty.copied(alloc)?;
    types.push(copy)
}

/// The types of parameters, or None where one is not known.
pub fn param_types(alloc: Global, params: &[ParamDeclared]) -> Result<Option<Seq<CType>>, NoMemory>
    ensures { IfOk result (λ ts. option_map (λ ts. map plain_type ts.items) ts
        ≡ param_types (map plain_param params.now)) }
{
    let mut types = Seq::new(alloc);
    for p in params {
        let Some(ty) = &p.ty else {
            return Ok(None);
        };
        push_type(alloc, &mut types, ty)?;
    }
    Ok(Some(types))
}
