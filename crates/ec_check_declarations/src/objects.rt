//! Declarators of objects (ISO/IEC 9899:1999, 6.7.5).
ghost use Rattle.std.specs.Prelude.{◌≡◌, [], IfOk, OnOk, IfSome, Some, pos, map, length, option_map};
ghost use Rattle.ec_core.specs.Layout.{IsObjectType, AreStructs};
ghost use Rattle.ec_core.specs.Plain.{plain_type, plain_struct, array};
ghost use Rattle.ec_grammar.specs.Views.{view_option, view_conditional, view_start, view_shape, view_declarator};
ghost use Rattle.ec_grammar.specs.Views.{views_initialisers, view_star};
ghost use Rattle.ec_check_operands.specs.Faults.{all_judged};
ghost use Rattle.ec_check_names.specs.Specifiers.{void_at};
ghost use Rattle.ec_check_names.specs.Stars.{plain_declared};
ghost use Rattle.ec_check_expressions.specs.TypeNames.{meant_type};
ghost use Rattle.ec_check_declarations.specs.ObjectTypes.{object_type};
ghost use Rattle.ec_check_operands.specs.Operands.{with_both};
ghost use Rattle.ec_check_expressions.specs.Known.{IsSound, plain_known};
ghost use Rattle.ec_check_initialisers.specs.Locals.{items_count};
ghost use Rattle.ec_check_initialisers.specs.Sites.{size_sites};
ghost use Rattle.ec_check_initialisers.specs.Sizes.{array_size, size_of_number};
ghost use Rattle.ec_check_declarations.specs.Declarators.{given_size, declared_size, declared_size_sites, shape_size, shape_sites};
ghost use Rattle.ec_check_declarations.specs.Declarators.{shaped, plain_declared_object, typed_object, typed_declarator};
ghost use Rattle.ec_check_declarations.specs.Declarators.{sized, object_declared, typed_object_sites, typed_sites, sized_sites};
ghost use Rattle.ec_check_declarations.specs.Declarators.{object_sites, head_of, head_rules, misused_in};
ghost use Rattle.ec_check_declarations.specs.Sites.{Walked, initialiser_in};

use crate::heads::{head, meant_type, misused_in};
use crate::object_types::{is_too_large, object_type, small_type};
use ec_check_expressions::Known;
use ec_check_initialisers::array_size;
use ec_check_names::{Declared, Specified};
use ec_check_operands::{Faults, boxed};
use ec_core::{CType, StructDef};
use ec_grammar::{Conditional, Declarator, Initialiser, NextInitialiser, Shape, Start};
use ec_space::{NoMemory, Seq, SpaceId};
use std::alloc::Global;

/// What a declarator of an object or a member declares.
#[derive(Drop)]
pub struct ObjectDeclared {
    /// None where the declarator breaks a rule of types, or has the form of a function; and where an object of the type
    /// has too many bytes.
    pub ty: Option<CType>,
    pub konst: bool,
    /// The space that is said, which is the generic one where none is.
    pub space: SpaceId,
}

// ---- sizes of arrays

fn items_count(more: &[NextInitialiser]) -> usize
    ensures value { result ≡ items_count (views_initialisers more.now) }
    ensures bound { result ≡ length more.now }
{
    more.len()
}

fn size_of_number(n: usize) -> Option<u16>
    ensures { result ≡ size_of_number (pos n) }
{
    if 1 <= n && n <= 32_767 {
        Some(n as u16)
    } else {
        None
    }
}

/// The size that an initialiser in braces gives an array.
fn given_size(start: &Option<Start>) -> Option<u16>
    ensures { result ≡ given_size (view_option view_start start.now) }
{
    let Some(start) = start else {
        return None;
    };
    match &start.value {
        Initialiser::Value(_) => None,
        Initialiser::Braces(_, _, more, _, _) => size_of_number(items_count(more) + 1),
    }
}

/// The size that stands in `[ ]`.
fn written_size(
    alloc: Global,
    known: &Known,
    faults: &mut Faults,
    c: &Conditional,
    at: u32,
) -> Result<Option<u16>, NoMemory>
    requires { IsSound (plain_known known.now) }
    ensures { let k = plain_known known.now in let t = view_conditional c.now in
        IfOk result (λ n. Walked faults.old.least faults.new.least
        (initialiser_in (size_sites k t at [])) n (array_size k t)) }
{
    let n = array_size(alloc, known, faults, c, at)?;
    Ok(n)
}

fn declared_size(
    alloc: Global,
    known: &Known,
    faults: &mut Faults,
    size: &Option<Conditional>,
    start: &Option<Start>,
    at: u32,
) -> Result<Option<u16>, NoMemory>
    requires { IsSound (plain_known known.now) }
    ensures { let k = plain_known known.now in let c = view_option view_conditional size.now in
        let i = view_option view_start start.now in
        IfOk result (λ n. Walked faults.old.least faults.new.least (declared_size_sites k c i at)
        n (declared_size k c i)) }
{
    match size {
        None => {
            let n = given_size(start);
            faults.judge(8, n.is_none(), at);
            Ok(n)
        }
        Some(c) => written_size(alloc, known, faults, c, at),
    }
}

fn shape_size(
    alloc: Global,
    known: &Known,
    faults: &mut Faults,
    shape: &Shape,
    start: &Option<Start>,
) -> Result<Option<u16>, NoMemory>
    requires { IsSound (plain_known known.now) }
    ensures { let k = plain_known known.now in let t = view_shape shape.now in
        let i = view_option view_start start.now in
        IfOk result (λ n. Walked faults.old.least faults.new.least (shape_sites k t i) n (shape_size k t i)) }
{
    match shape {
        Shape::Object | Shape::Function(_, _, _) => Ok(None),
        Shape::Array(l, size, _) => declared_size(alloc, known, faults, size, start, l.index),
    }
}

// ---- types

fn array_of(alloc: Global, ty: Option<CType>, size: Option<u16>) -> Result<Option<CType>, NoMemory>
    ensures { IfOk result (λ a. option_map plain_type a
        ≡ with_both (option_map plain_type ty) size (λ of n. Some (array of n))) }
{
    let Some((of, len)) = ty.zip(size) else {
        return Ok(None);
    };
    let of = boxed(alloc, of)?;
    Ok(Some(CType::Array { of, len }))
}

fn shaped(
    alloc: Global,
    ty: Option<CType>,
    shape: &Shape,
    size: Option<u16>,
) -> Result<Option<CType>, NoMemory>
    ensures { IfOk result (λ x. option_map plain_type x
        ≡ shaped (option_map plain_type ty) (view_shape shape.now) size) }
{
    match shape {
        Shape::Object => Ok(ty),
        Shape::Array(_, _, _) => array_of(alloc, ty, size),
        Shape::Function(_, _, _) => Ok(None),
    }
}

// ---- objects

/// What stands behind the specifiers and the stars of a declarator.
fn head_of_object(
    alloc: Global,
    faults: &mut Faults,
    may_have_space: bool,
    said: Specified,
    d: &Declarator,
) -> Result<Declared, NoMemory>
    ensures value { IfOk result (λ h. plain_declared h ≡ head_of said (map view_star d.now.stars.items)) }
    ensures judged { OnOk result (faults.new.least ≡ all_judged faults.old.least (head_rules may_have_space
        (misused_in (view_shape d.now.shape) (void_at said.types) (map view_star d.now.stars.items))
        said (map view_star d.now.stars.items))) }
{
    let misused = misused_in(&d.shape, said.types.void_at(), &d.stars);
    head(alloc, faults, may_have_space, misused, said, &d.stars)
}

/// The type that is declared, if an object can have it.
fn type_of_object(
    alloc: Global,
    structs: &Seq<StructDef>,
    said: Specified,
    ty: Option<CType>,
    shape: &Shape,
    size: Option<u16>,
) -> Result<Option<CType>, NoMemory>
    ensures value { IfOk result (λ x. option_map plain_type x
        ≡ object_type (length (map plain_struct structs.now.items))
        (shaped (meant_type (void_at said.types) (option_map plain_type ty)) (view_shape shape.now) size)) }
    ensures object { IfOk result (λ x. IfSome (option_map plain_type x) (IsObjectType (length structs.now.items))) }
{
    let ty = meant_type(said.types.void_at(), ty);
    let ty = shaped(alloc, ty, shape, size)?;
    Ok(object_type(structs, ty))
}

/// The declarator, where an array's size is known, whatever the bytes of its type.
fn typed_object(
    alloc: Global,
    structs: &Seq<StructDef>,
    faults: &mut Faults,
    may_have_space: bool,
    said: Specified,
    d: &Declarator,
    size: Option<u16>,
) -> Result<ObjectDeclared, NoMemory>
    ensures walked { let n = length (map plain_struct structs.now.items) in let t = view_declarator d.now in
        IfOk result (λ o. Walked faults.old.least faults.new.least (typed_object_sites may_have_space said t)
        (plain_declared_object o) (typed_object n said t size)) }
    ensures object { IfOk result (λ o. IfSome (option_map plain_type o.ty) (IsObjectType (length structs.now.items))) }
{
    let head = head_of_object(alloc, faults, may_have_space, said, d)?;
    let konst = head.qualities.konst;
    let space = head.qualities.space_id();
    let ty = type_of_object(alloc, structs, said, head.ty, &d.shape, size)?;
    Ok(ObjectDeclared { ty, konst, space })
}

/// What a declarator of an object or a member declares, where `said` is what its specifiers say, and `start` its
/// initialiser, if it has one, whatever the bytes of its type. Judges rule 8 at `[` and the rules of the size there;
/// rules 2 and 4 of stars; rule 3 of a space of what is declared itself, where it may not have one; and rule 7 at the
/// word `void`.
pub(crate) fn typed_declarator(
    alloc: Global,
    known: &Known,
    faults: &mut Faults,
    may_have_space: bool,
    said: Specified,
    d: &Declarator,
    start: &Option<Start>,
) -> Result<ObjectDeclared, NoMemory>
    requires { IsSound (plain_known known.now) }
    ensures walked { let k = plain_known known.now in let t = view_declarator d.now in
        let i = view_option view_start start.now in
        IfOk result (λ o. Walked faults.old.least faults.new.least (typed_sites k may_have_space said t i)
        (plain_declared_object o) (typed_declarator k said t i)) }
    ensures object { IfOk result (λ o. IfSome (option_map plain_type o.ty)
        (IsObjectType (length known.now.structs.now.items))) }
{
    let size = shape_size(alloc, known, faults, &d.shape, start)?;
    typed_object(alloc, known.structs, faults, may_have_space, said, d, size)
}

/// An object whose declarator declares so much at a name: rule 9 is judged there.
fn sized(
    structs: &Seq<StructDef>,
    faults: &mut Faults,
    at: u32,
    o: ObjectDeclared,
) -> ObjectDeclared
    requires structs { AreStructs (map plain_struct structs.now.items) }
    requires object { IfSome (option_map plain_type o.ty) (IsObjectType (length structs.now.items)) }
    ensures walked { let s = map plain_struct structs.now.items in let x = plain_declared_object o in
        Walked faults.old.least faults.new.least (sized_sites s x at) (plain_declared_object result) (sized s x) }
    ensures object { IfSome (option_map plain_type result.ty) (IsObjectType (length structs.now.items)) }
{
    let ObjectDeclared { ty, konst, space } = o;
    let large = is_too_large(structs, &ty);
    faults.judge(9, large, at);
    ObjectDeclared {
        ty: small_type(large, ty),
        konst,
        space,
    }
}

/// What a declarator of an object declares, where `said` is what its specifiers say, and `start` its initialiser, if it
/// has one. Judges rule 8 at `[` and the rules of the size there; rules 2 and 4 of stars; rule 3 of a space of the
/// object itself, where it may not have one; rule 7 at the word `void`; and rule 9 at the name.
pub fn declared_object(
    alloc: Global,
    known: &Known,
    faults: &mut Faults,
    may_have_space: bool,
    said: Specified,
    d: &Declarator,
    start: &Option<Start>,
) -> Result<ObjectDeclared, NoMemory>
    requires { IsSound (plain_known known.now) }
    ensures walked { let k = plain_known known.now in let t = view_declarator d.now in
        let i = view_option view_start start.now in
        IfOk result (λ o. Walked faults.old.least faults.new.least (object_sites k may_have_space said t i)
        (plain_declared_object o) (object_declared k said t i)) }
    ensures object { IfOk result (λ o. IfSome (option_map plain_type o.ty)
        (IsObjectType (length known.now.structs.now.items))) }
{
    let o = typed_declarator(alloc, known, faults, may_have_space, said, d, start)?;
    Ok(sized(known.structs, faults, d.name.spot.index, o))
}
