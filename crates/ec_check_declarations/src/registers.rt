//! Objects in named registers (ISO/IEC TR 18037:2008, 5.2.2).
ghost use Rattle.std.specs.Prelude.{◌≡◌, ℕ, IfOk, IfSome, map, length, option_map};
ghost use Rattle.ec_core.specs.Layout.{IsObjectType, AreStructs};
ghost use Rattle.ec_core.specs.Plain.{plain_type, plain_struct};
ghost use Rattle.ec_grammar.specs.Views.{view_register_object};
ghost use Rattle.ec_check_expressions.specs.Known.{IsSound, plain_known};
ghost use Rattle.ec_check_declarations.specs.Registers.{plain_declared_register, is_no_number, passes_last, number_type};
ghost use Rattle.ec_check_declarations.specs.Registers.{register_declared, register_sites};
ghost use Rattle.ec_check_declarations.specs.Sites.{Walked};

use crate::heads::{head, meant_type};
use crate::object_types::object_type;
use ec_check_expressions::Known;
use ec_check_names::{judge_specs, register_number};
use ec_check_operands::{Faults, type_sort};
use ec_core::{CType, StructDef, size_of};
use ec_grammar::RegisterObject;
use ec_space::{NoMemory, Seq};
use std::alloc::Global;

/// What a declaration of an object in a named register declares.
#[derive(Drop)]
pub struct RegisterDeclared {
    /// The first register, from 2 to 7, or None where its name is that of none of these.
    pub first: Option<u8>,
    /// None where the declaration breaks a rule of types, or the object does not lie in the registers from 2 to 7.
    pub ty: Option<CType>,
    pub konst: bool,
}

fn is_no_number(ty: &Option<CType>) -> bool
    ensures { result ≡ is_no_number (option_map plain_type ty.now) }
{
    match ty {
        None => false,
        Some(ty) => !type_sort(ty).is_arithmetic(),
    }
}

fn passes_last(structs: &Seq<StructDef>, first: Option<u8>, ty: &Option<CType>) -> bool
    requires structs { AreStructs (map plain_struct structs.now.items) }
    requires object { IfSome (option_map plain_type ty.now) (IsObjectType (length structs.now.items)) }
    ensures { result ≡ passes_last (map plain_struct structs.now.items) first (option_map plain_type ty.now) }
{
    let Some(first) = first else {
        return false;
    };
    let Some(ty) = ty else {
        return false;
    };
    let size = size_of(structs, ty);
    8 < first as u64 + size as u64
}

fn number_type(ty: Option<CType>) -> Option<CType>
    ensures value { option_map plain_type result ≡ number_type (option_map plain_type ty) }
    ensures object { (n : ℕ) → IfSome (option_map plain_type ty) (IsObjectType n)
        → IfSome (option_map plain_type result) (IsObjectType n) }
{
    ty.filter(|ty| type_sort(ty).is_arithmetic())
}

/// What is declared. Judges the rules of the specifiers, rule 3 of a space, rule 7 of `void`, and rule 12 at the
/// register: it is none of `_R2` to `_R7`, or the type is neither an integer's nor a fixed-point one, or passes R7.
pub fn declared_register(
    alloc: Global,
    known: &Known,
    faults: &mut Faults,
    r: &RegisterObject,
) -> Result<RegisterDeclared, NoMemory>
    requires { IsSound (plain_known known.now) }
    ensures walked { let k = plain_known known.now in let t = view_register_object r.now in
        IfOk result (λ d. Walked faults.old.least faults.new.least (register_sites k t)
        (plain_declared_register d) (register_declared k t)) }
    ensures object { IfOk result (λ d. IfSome (option_map plain_type d.ty)
        (IsObjectType (length known.now.structs.now.items))) }
{
    let said = judge_specs(faults, known.tags, false, &r.specs);
    let void_at = said.types.void_at();
    let head = head(alloc, faults, false, void_at, said, &[])?;
    let first = register_number(&r.register.name);
    let konst = head.qualities.konst;
    let no_number = is_no_number(&head.ty);
    let ty = object_type(known.structs, meant_type(void_at, head.ty));
    let passes = passes_last(known.structs, first, &ty);
    let broken = first.is_none() || no_number || passes;
    faults.judge(12, broken, r.register.spot.index);
    let ty = if passes { None } else { number_type(ty) };
    Ok(RegisterDeclared { first, ty, konst })
}
