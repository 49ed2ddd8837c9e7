//! Declarations of objects at file scope, and of objects in named registers (ISO/IEC 9899:1999, 6.7.8 and 6.9.2;
//! ISO/IEC TR 18037:2008, 5.2.2).
ghost use Rattle.std.specs.Prelude.{◌≡◌, ◌≤◌, ◌∷◌, [], IfOk, OnOk, IfSome, map, length, option_map};
ghost use Rattle.ec_iohw.specs.Valid.{ValidIo};
ghost use Rattle.ec_core.specs.Layout.{IsObjectType};
ghost use Rattle.ec_core.specs.Plain.{plain_type, plain_object};
ghost use Rattle.ec_check_operands.specs.Faults.{all_judged, rule};
ghost use Rattle.ec_grammar.specs.Views.{view_option, view_start, view_initialiser, view_init_declarator};
ghost use Rattle.ec_grammar.specs.Views.{view_register_object};
ghost use Rattle.ec_check_initialisers.specs.Statics.{static_leaves, static_sites};
ghost use Rattle.ec_check_names.specs.Names.{plain_named};
ghost use Rattle.ec_check_expressions.specs.Known.{IsSound, plain_known};
ghost use Rattle.ec_check_initialisers.specs.Places.{NamesObjects};
ghost use Rattle.ec_check_declarations.specs.Declarators.{plain_declared_object};
ghost use Rattle.ec_check_declarations.specs.Registers.{plain_declared_register, register_declared, register_sites};
ghost use Rattle.ec_check_declarations.specs.Sites.{on, initialiser_in, Walked};
ghost use Rattle.ec_check_file_scope.specs.FileNames.{plain_kind, plain_file_name};
ghost use Rattle.ec_check_file_scope.specs.FileObjects.{object_name, object_named, home_of, initial_leaves, initial_sites};
ghost use Rattle.ec_check_file_scope.specs.FileObjects.{object_made, extern_rules, name_rules, named_in, initialised_in};
ghost use Rattle.ec_check_file_scope.specs.FileObjects.{link_of};
ghost use Rattle.ec_check_file_scope.specs.FileObjects.{word_of, after_object, file_object_sites, number_size, overlap};
ghost use Rattle.ec_check_file_scope.specs.FileObjects.{share_of};
ghost use Rattle.ec_check_file_scope.specs.FileObjects.{share, same_register, shares_register, register_name, register_named};
ghost use Rattle.ec_check_file_scope.specs.FileObjects.{register_made, after_register, file_register_sites, is_started};
ghost use Rattle.ec_check_file_scope.specs.FileObjects.{with_declared, declared_sites, with_register, register_name_sites};
ghost use Rattle.ec_check_file_scope.specs.FileObjects.{sites_of_object, object_of};
ghost use Rattle.ec_check_file_scope.specs.States.{plain_setting, plain_state, known_of, with_name, IsSoundState};

use crate::file_names::{FileKind, FileName, differ, is_external, other_register};
use crate::file_table::FileNames;
use crate::states::{Setting, State, known_of};
use ec_check_declarations::{
    ObjectDeclared, RegisterDeclared, copied_name, copied_type, declared_object, declared_register,
};
use ec_check_expressions::Known;
use ec_check_initialisers::{static_values, zero_values};
use ec_check_names::{
    Linkage, Named, Specified, Storage, StorageWord, is_defined, is_main, linkage_of, number_of,
};
use ec_check_operands::Faults;
use ec_core::{CType, LeafInit, Obj, Storage as Kept};
use ec_grammar::{Identifier, InitDeclarator, RegisterObject, Start};
use ec_space::{Home, Name, NoMemory, Seq, SpaceId};
use std::alloc::Global;

// ---- names

/// The word of a storage word.
pub fn word_of(storage: Option<Storage>) -> Option<StorageWord>
    ensures { result ≡ word_of storage }
{
    match storage {
        None => None,
        Some(storage) => Some(storage.word),
    }
}

fn object_name(
    alloc: Global,
    setting: &Setting,
    name: &Name,
    linkage: Linkage,
    defined: bool,
    o: &ObjectDeclared,
) -> Result<FileName, NoMemory>
    ensures { IfOk result (λ d. plain_file_name d ≡ object_name (plain_setting setting.now) name.now.items linkage
        defined (plain_declared_object o.now)) }
{
    let name = copied_name(alloc, name)?;
    let ty = copied_type(alloc, &o.ty)?;
    Ok(FileName {
        name,
        unit: setting.unit,
        linkage,
        defines: defined,
        kind: FileKind::Object {
            ty,
            konst: o.konst,
            space: o.space,
        },
    })
}

fn object_named(
    alloc: Global,
    setting: &Setting,
    name: &Name,
    linkage: Linkage,
    o: &ObjectDeclared,
) -> Result<Named, NoMemory>
    ensures { IfOk result (λ what. plain_named what ≡ object_named (plain_setting setting.now) name.now.items linkage
        (plain_declared_object o.now)) }
{
    let ty = copied_type(alloc, &o.ty)?;
    Ok(Named::Object {
        number: number_of(setting.definitions, name, setting.unit, linkage, false),
        ty,
        konst: o.konst,
        space: o.space,
        register: false,
    })
}

fn judge_name(faults: &mut Faults, d: &FileName, declared: &FileNames, at: u32)
    ensures { faults.new.least ≡ all_judged faults.old.least
        (name_rules (plain_file_name d.now) (map plain_file_name declared.now.items) at) }
{
    faults.judge(6, declared.conflicts(d), at);
    faults.judge(18, is_main(&d.name), at);
}

/// Declares the name of an object. Judges rule 6, and rule 18 of an object with the name `main`.
fn name_object(
    alloc: Global,
    setting: &Setting,
    state: &mut State,
    faults: &mut Faults,
    name: &Identifier,
    linkage: Linkage,
    defined: bool,
    o: &ObjectDeclared,
) -> Result<(), NoMemory>
    requires sound { IsSoundState (plain_state state.old) }
    requires object { IfSome (option_map plain_type o.now.ty) (IsObjectType (length state.old.structs.items)) }
    ensures state { OnOk result (plain_state state.new ≡ named_in (plain_setting setting.now) name.now.name.items
        linkage defined (plain_declared_object o.now) (plain_state state.old)) }
    ensures sound { OnOk result (IsSoundState (plain_state state.new)) }
    ensures noted { OnOk result (faults.new.least ≡ all_judged faults.old.least
        (name_rules (object_name (plain_setting setting.now) name.now.name.items linkage defined
        (plain_declared_object o.now)) (plain_state state.old).declared name.now.spot.index)) }
{
    let d = object_name(alloc, setting, &name.name, linkage, defined, o)?;
    judge_name(faults, &d, &state.declared, name.spot.index);
    let Ok(what) = object_named(alloc, setting, &name.name, linkage, o) else {
        drop(d);
        return Err(NoMemory);
    };
    state.declare(alloc, &name.name, what, d)
}

// ---- initial values

fn given_leaves(
    alloc: Global,
    known: &Known,
    faults: &mut Faults,
    start: &Start,
    ty: &Option<CType>,
) -> Result<Option<Seq<LeafInit>>, NoMemory>
    requires sound { IsSound (plain_known known.now) }
    requires named { NamesObjects (plain_known known.now) }
    requires object { IfSome (option_map plain_type ty.now) (IsObjectType (length known.now.structs.now.items)) }
    ensures { let k = plain_known known.now in let i = view_initialiser start.now.value in
        let t = option_map plain_type ty.now in
        IfOk result (λ all. Walked faults.old.least faults.new.least (initialiser_in (static_sites k i t []))
        (option_map (λ v. v.items) all) (static_leaves k i t)) }
{
    static_values(alloc, known, faults, &start.value, ty)
}

fn initial_leaves(
    alloc: Global,
    known: &Known,
    faults: &mut Faults,
    start: &Option<Start>,
    ty: &Option<CType>,
) -> Result<Option<Seq<LeafInit>>, NoMemory>
    requires sound { IsSound (plain_known known.now) }
    requires named { NamesObjects (plain_known known.now) }
    requires object { IfSome (option_map plain_type ty.now) (IsObjectType (length known.now.structs.now.items)) }
    ensures { let k = plain_known known.now in let i = view_option view_start start.now in
        let t = option_map plain_type ty.now in
        IfOk result (λ all. Walked faults.old.least faults.new.least (initial_sites k i t)
        (option_map (λ v. v.items) all) (initial_leaves k i t)) }
{
    match start {
        Some(start) => given_leaves(alloc, known, faults, start, ty),
        None => match ty {
            None => Ok(None),
            Some(ty) => {
                let all = zero_values(alloc, known.structs, ty)?;
                Ok(Some(all))
            }
        },
    }
}

fn home_of(space: SpaceId) -> Home
    ensures { result ≡ home_of space }
{
    match space {
        SpaceId::Flash => Home::Flash,
        SpaceId::FarFlash => Home::Far,
        SpaceId::Data | SpaceId::Generic => Home::Data,
    }
}

fn object_made(
    alloc: Global,
    setting: &Setting,
    name: &Name,
    linkage: Linkage,
    o: ObjectDeclared,
    leaves: Option<Seq<LeafInit>>,
) -> Result<Option<Obj>, NoMemory>
    ensures { IfOk result (λ x. option_map plain_object x ≡ object_made (plain_setting setting.now) name.now.items
        linkage (plain_declared_object o) (option_map plain_type o.ty) (option_map (λ v. v.items) leaves)) }
{
    let ObjectDeclared { ty, konst, space } = o;
    let Some((ty, leaves)) = ty.zip(leaves) else {
        return Ok(None);
    };
    let Ok(name) = copied_name(alloc, name) else {
        drop((ty, leaves));
        return Err(NoMemory);
    };
    Ok(Some(Obj {
        name,
        unit: setting.unit,
        external: is_external(linkage),
        ty,
        space,
        home: home_of(space),
        konst,
        storage: Kept::Static(leaves),
    }))
}

/// Whether there is an initialiser.
pub(crate) fn is_started(start: &Option<Start>) -> bool
    ensures { result ≡ is_started (view_option view_start start.now) }
{
    match start {
        None => false,
        Some(_) => true,
    }
}

/// Judges rule 16 of a declarator with an initialiser or without, at the word `extern`.
pub(crate) fn judge_extern(faults: &mut Faults, initialised: bool, storage: Option<Storage>)
    ensures { faults.new.least ≡ all_judged faults.old.least (extern_rules initialised storage) }
{
    let Some(storage) = storage else {
        return;
    };
    match storage.word {
        StorageWord::Extern => faults.judge(16, initialised, storage.at),
        StorageWord::Static => {}
    }
}

/// The initial values of an object whose name is declared, and the object, if it is a definition.
fn initialise(
    alloc: Global,
    setting: &Setting,
    state: &mut State,
    faults: &mut Faults,
    name: &Name,
    linkage: Linkage,
    defined: bool,
    o: ObjectDeclared,
    start: &Option<Start>,
) -> Result<(), NoMemory>
    requires io { ValidIo (plain_setting setting.now).ports }
    requires sound { IsSoundState (plain_state state.old) }
    requires object { IfSome (option_map plain_type o.ty) (IsObjectType (length state.old.structs.items)) }
    ensures walked { let r = plain_setting setting.now in let s = plain_state state.old in
        let i = view_option view_start start.now in let d = plain_declared_object o in
        OnOk result (Walked faults.old.least faults.new.least (initial_sites (known_of r.ports s) i d.ty)
        (plain_state state.new) (initialised_in r name.now.items linkage defined d i s)) }
    ensures sound { OnOk result (IsSoundState (plain_state state.new)) }
{
    let ports = setting.ports;
    let known = known_of(ports, state);
    let Ok(leaves) = initial_leaves(alloc, &known, faults, start, &o.ty) else {
        drop(o);
        return Err(NoMemory);
    };
    if defined {
        let object = object_made(alloc, setting, name, linkage, o, leaves)?;
        state.add_object(object)
    } else {
        drop((o, leaves));
        Ok(())
    }
}

/// What the declarator of an object declares.
fn object_of(
    alloc: Global,
    setting: &Setting,
    state: &State,
    faults: &mut Faults,
    said: Specified,
    d: &InitDeclarator,
) -> Result<ObjectDeclared, NoMemory>
    requires io { ValidIo (plain_setting setting.now).ports }
    requires sound { IsSoundState (plain_state state.now) }
    ensures walked { let r = plain_setting setting.now in let s = plain_state state.now in
        let t = view_init_declarator d.now in
        IfOk result (λ o. Walked faults.old.least faults.new.least (sites_of_object r said t s)
        (plain_declared_object o) (object_of r said t s)) }
    ensures object { IfOk result (λ o. IfSome (option_map plain_type o.ty)
        (IsObjectType (length state.now.structs.items))) }
{
    let ports = setting.ports;
    let known = known_of(ports, state);
    declared_object(alloc, &known, faults, true, said, &d.declarator, &d.start)
}

/// The name and the initial values of an object, where its declarator declares so much.
fn add_declared(
    alloc: Global,
    setting: &Setting,
    state: &mut State,
    faults: &mut Faults,
    storage: Option<Storage>,
    d: &InitDeclarator,
    o: ObjectDeclared,
) -> Result<(), NoMemory>
    requires io { ValidIo (plain_setting setting.now).ports }
    requires sound { IsSoundState (plain_state state.old) }
    requires object { IfSome (option_map plain_type o.ty) (IsObjectType (length state.old.structs.items)) }
    ensures walked { let r = plain_setting setting.now in let s = plain_state state.old in
        let t = view_init_declarator d.now in let x = plain_declared_object o in
        OnOk result (Walked faults.old.least faults.new.least (declared_sites r storage t s x)
        (plain_state state.new) (with_declared r storage t s x)) }
    ensures sound { OnOk result (IsSoundState (plain_state state.new)) }
{
    let name = &d.declarator.name;
    let word = word_of(storage);
    let earlier = state.declared.earlier_link(&name.name, setting.unit);
    let linkage = linkage_of(word, false, earlier);
    let defined = is_defined(word, false);
    judge_extern(faults, is_started(&d.start), storage);
    let named = name_object(alloc, setting, state, faults, name, linkage, defined, &o);
    if let Err(e) = named {
        drop(o);
        return Err(e);
    }
    initialise(
        alloc, setting, state, faults, &name.name, linkage, defined, o, &d.start,
    )?;
    Ok(())
}

/// A declarator of an object at file scope, where its specifiers say so much and have this storage word. Judges rules 3
/// and 7 to 9 of the declarator; 16 at an `extern` before an initialiser; 6 and 18 at the name; and those of the
/// initialiser.
pub(crate) fn file_object(
    alloc: Global,
    setting: &Setting,
    state: &mut State,
    faults: &mut Faults,
    said: Specified,
    storage: Option<Storage>,
    d: &InitDeclarator,
) -> Result<(), NoMemory>
    requires io { ValidIo (plain_setting setting.now).ports }
    requires sound { IsSoundState (plain_state state.old) }
    ensures walked { let r = plain_setting setting.now in let s = plain_state state.old in
        let t = view_init_declarator d.now in
        OnOk result (Walked faults.old.least faults.new.least (file_object_sites r said storage t s)
        (plain_state state.new) (after_object r said storage t s)) }
    ensures sound { OnOk result (IsSoundState (plain_state state.new)) }
{
    let o = object_of(alloc, setting, state, faults, said, d)?;
    add_declared(alloc, setting, state, faults, storage, d, o)
}

// ---- named registers

fn number_size(ty: &CType) -> u32
    ensures value { result ≡ number_size (plain_type ty.now) }
    ensures bound { result ≤ 255 }
{
    match ty {
        CType::Int { bytes, .. } => *bytes as u32,
        CType::Fx { kind, .. } => kind.format().bits as u32 / 8,
        CType::Void | CType::Ptr { .. } | CType::Array { .. } | CType::Struct { .. } => 0,
    }
}

fn overlap(p: u8, a: &CType, q: u8, b: &CType) -> bool
    ensures { result ≡ overlap p (plain_type a.now) q (plain_type b.now) }
{
    (p as u32) < q as u32 + number_size(b) && (q as u32) < p as u32 + number_size(a)
}

fn share_of(p: Option<u8>, a: &Option<CType>, q: Option<u8>, b: &Option<CType>) -> bool
    ensures { result ≡ share_of p (option_map plain_type a.now) q (option_map plain_type b.now) }
{
    let Some(p) = p else {
        return false;
    };
    let Some(a) = a else {
        return false;
    };
    let Some(q) = q else {
        return false;
    };
    let Some(b) = b else {
        return false;
    };
    overlap(p, a, q, b)
}

fn share(a: &FileKind, b: &FileKind) -> bool
    ensures { result ≡ share (plain_kind a.now) (plain_kind b.now) }
{
    match a {
        FileKind::Register { first, ty, .. } => match b {
            FileKind::Register {
                first: register,
                ty: other,
                ..
            } => share_of(*first, ty, *register, other),
            FileKind::Object { .. } | FileKind::Function { .. } => false,
        },
        FileKind::Object { .. } | FileKind::Function { .. } => false,
    }
}

fn same_register(a: &FileKind, b: &FileKind) -> bool
    ensures { result ≡ same_register (plain_kind a.now) (plain_kind b.now) }
{
    match a {
        FileKind::Register { first, ty, .. } => match b {
            FileKind::Register {
                first: register,
                ty: other,
                ..
            } => !differ(ty, other) && !other_register(*first, *register),
            FileKind::Object { .. } | FileKind::Function { .. } => false,
        },
        FileKind::Object { .. } | FileKind::Function { .. } => false,
    }
}

/// Whether a register is that of an object before it, which has another name, type or first register (rule 13).
fn shares_register(d: &FileName, declared: &[FileName]) -> bool
    ensures { result ≡ shares_register (plain_file_name d.now) (map plain_file_name declared.now) }
{
    for e in declared {
        if share(&d.kind, &e.kind) && !(d.name == e.name && same_register(&d.kind, &e.kind)) {
            return true;
        }
    }
    false
}

fn register_name(
    alloc: Global,
    setting: &Setting,
    name: &Name,
    o: &RegisterDeclared,
) -> Result<FileName, NoMemory>
    ensures { IfOk result (λ d. plain_file_name d ≡ register_name (plain_setting setting.now) name.now.items
        (plain_declared_register o.now)) }
{
    let name = copied_name(alloc, name)?;
    let ty = copied_type(alloc, &o.ty)?;
    Ok(FileName {
        name,
        unit: setting.unit,
        linkage: Linkage::External,
        defines: true,
        kind: FileKind::Register {
            first: o.first,
            ty,
            konst: o.konst,
        },
    })
}

fn register_named(
    alloc: Global,
    setting: &Setting,
    name: &Name,
    o: &RegisterDeclared,
) -> Result<Named, NoMemory>
    ensures { IfOk result (λ what. plain_named what ≡ register_named (plain_setting setting.now) name.now.items
        (plain_declared_register o.now)) }
{
    let ty = copied_type(alloc, &o.ty)?;
    Ok(Named::Object {
        number: number_of(
            setting.definitions,
            name,
            setting.unit,
            Linkage::External,
            false,
        ),
        ty,
        konst: o.konst,
        space: SpaceId::Generic,
        register: true,
    })
}

fn register_made(
    alloc: Global,
    setting: &Setting,
    name: &Name,
    o: RegisterDeclared,
) -> Result<Option<Obj>, NoMemory>
    ensures { IfOk result (λ x. option_map plain_object x ≡ register_made (plain_setting setting.now) name.now.items
        (plain_declared_register o) o.first (option_map plain_type o.ty)) }
{
    let RegisterDeclared { first, ty, konst } = o;
    let Some((first, ty)) = first.zip(ty) else {
        return Ok(None);
    };
    let Ok(name) = copied_name(alloc, name) else {
        drop(ty);
        return Err(NoMemory);
    };
    Ok(Some(Obj {
        name,
        unit: setting.unit,
        external: true,
        ty,
        space: SpaceId::Generic,
        home: Home::Data,
        konst,
        storage: Kept::Register(first),
    }))
}

/// Declares the name of an object in a named register. Judges rule 13 at the register, and rules 6 and 18 at the name.
fn name_register(
    alloc: Global,
    setting: &Setting,
    state: &mut State,
    faults: &mut Faults,
    r: &RegisterObject,
    o: &RegisterDeclared,
) -> Result<(), NoMemory>
    requires sound { IsSoundState (plain_state state.old) }
    requires object { IfSome (option_map plain_type o.now.ty) (IsObjectType (length state.old.structs.items)) }
    ensures walked { let s = plain_state state.old in let n = r.now.name.name.items in
        let d = register_name (plain_setting setting.now) n (plain_declared_register o.now) in
        OnOk result (Walked faults.old.least faults.new.least
        (λ rest. on (rule 13 (shares_register d s.declared) r.now.register.spot.index ∷ [])
        ∷ on (name_rules d s.declared r.now.name.spot.index) ∷ rest)
        (plain_state state.new)
        (with_name n (register_named (plain_setting setting.now) n (plain_declared_register o.now)) d s)) }
    ensures sound { OnOk result (IsSoundState (plain_state state.new)) }
{
    let name = &r.name.name;
    let d = register_name(alloc, setting, name, o)?;
    let shared = shares_register(&d, state.declared.as_slice());
    faults.judge(13, shared, r.register.spot.index);
    judge_name(faults, &d, &state.declared, r.name.spot.index);
    let Ok(what) = register_named(alloc, setting, name, o) else {
        drop(d);
        return Err(NoMemory);
    };
    state.declare(alloc, name, what, d)
}

/// What the declaration of an object in a named register declares.
fn register_of(
    alloc: Global,
    setting: &Setting,
    state: &State,
    faults: &mut Faults,
    r: &RegisterObject,
) -> Result<RegisterDeclared, NoMemory>
    requires io { ValidIo (plain_setting setting.now).ports }
    requires sound { IsSoundState (plain_state state.now) }
    ensures walked { let k = known_of (plain_setting setting.now).ports (plain_state state.now) in
        let t = view_register_object r.now in
        IfOk result (λ o. Walked faults.old.least faults.new.least (register_sites k t)
        (plain_declared_register o) (register_declared k t)) }
    ensures object { IfOk result (λ o. IfSome (option_map plain_type o.ty)
        (IsObjectType (length state.now.structs.items))) }
{
    let ports = setting.ports;
    let known = known_of(ports, state);
    declared_register(alloc, &known, faults, r)
}

/// The name of an object in a named register, and the object, where its declaration declares so much.
fn add_register(
    alloc: Global,
    setting: &Setting,
    state: &mut State,
    faults: &mut Faults,
    r: &RegisterObject,
    o: RegisterDeclared,
) -> Result<(), NoMemory>
    requires sound { IsSoundState (plain_state state.old) }
    requires object { IfSome (option_map plain_type o.ty) (IsObjectType (length state.old.structs.items)) }
    ensures walked { let u = plain_setting setting.now in let s = plain_state state.old in
        let t = view_register_object r.now in let x = plain_declared_register o in
        OnOk result (Walked faults.old.least faults.new.least (register_name_sites u t s x)
        (plain_state state.new) (with_register u t s x)) }
    ensures sound { OnOk result (IsSoundState (plain_state state.new)) }
{
    let before = state.declared.is_registered(&r.name.name);
    let named = name_register(alloc, setting, state, faults, r, &o);
    if let Err(e) = named {
        drop(o);
        return Err(e);
    }
    if before {
        drop(o);
        return Ok(());
    }
    let object = register_made(alloc, setting, &r.name.name, o)?;
    state.add_object(object)
}

/// A declaration of an object in a named register. The object stands once, however many units declare it.
pub fn file_register(
    alloc: Global,
    setting: &Setting,
    state: &mut State,
    faults: &mut Faults,
    r: &RegisterObject,
) -> Result<(), NoMemory>
    requires io { ValidIo (plain_setting setting.now).ports }
    requires sound { IsSoundState (plain_state state.old) }
    ensures walked { let u = plain_setting setting.now in let s = plain_state state.old in
        let t = view_register_object r.now in
        OnOk result (Walked faults.old.least faults.new.least (file_register_sites u t s)
        (plain_state state.new) (after_register u t s)) }
    ensures sound { OnOk result (IsSoundState (plain_state state.new)) }
{
    let o = register_of(alloc, setting, state, faults, r)?;
    add_register(alloc, setting, state, faults, r, o)
}
