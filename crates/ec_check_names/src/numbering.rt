//! The definitions of all units by name, numbered in the order in which they stand (ISO/IEC 9899:1999, 6.9).
//!
//! A name may be used before its definition, or in another unit, so the numbers are told from the trees alone, before
//! any type is known.
ghost use Rattle.std.specs.Prelude.{◌≡◌, ◌+◌, ◌≤◌, ◌<◌, IfOk, OnOk, length, map, option_map};
ghost use Rattle.ec_grammar.specs.Views.{view_specs, view_init_declarator, view_next_init_declarator};
ghost use Rattle.ec_grammar.specs.Views.{view_declaration, view_register_object, view_function, view_external};
ghost use Rattle.ec_grammar.specs.Views.{view_tree};
ghost use Rattle.ec_check_names.specs.Counts.{most_objects, most_functions, objects_in_declarator, objects_in_more};
ghost use Rattle.ec_check_names.specs.Counts.{objects_in_declaration, objects_in_function, objects_in_external};
ghost use Rattle.ec_check_names.specs.Counts.{objects_in_externals, objects_in_unit, objects_declared};
ghost use Rattle.ec_check_names.specs.Counts.{functions_in_external, functions_in_externals, functions_in_unit};
ghost use Rattle.ec_check_names.specs.Counts.{functions_defined};
ghost use Rattle.ec_check_names.specs.Definitions.{plain_definition, plain_definitions, plain_numbering, nothing_numbered};
ghost use Rattle.ec_check_names.specs.Definitions.{storage_of, is_defined, with_link, with_object, with_function, link_in};
ghost use Rattle.ec_check_names.specs.Definitions.{numbered_declarator, numbered_more, numbered_declaration, is_register};
ghost use Rattle.ec_check_names.specs.Definitions.{is_registered, numbered_register, numbered_function, numbered_external};
ghost use Rattle.ec_check_names.specs.Definitions.{numbered_externals, unlinked, numbered_unit, definitions};
ghost use Rattle.ec_check_names.specs.Definitions.{same_linkage, is_internal, is_function_kind, same_kind, defines};
ghost use Rattle.ec_check_names.specs.Definitions.{number_of};

use crate::defining::{Counts, defines_object};
use crate::linkage::{Linkage, linkage_of};
use crate::specifiers::{StorageWord, storages_of};
use ec_check_trees::{is_function, less_function};
use ec_grammar::{
    Declaration, External, Function, InitDeclarator, NextInitDeclarator, RegisterObject, Specs,
    Tree,
};
use ec_space::{Name, NoMemory, Seq};
use indexmap::IndexMap;
use std::alloc::Global;

/// What a definition defines.
#[derive(Clone, Copy, Debug, PartialEq, Eq)]
pub enum Defined {
    Object,
    /// An object in a named register.
    Register,
    Function,
}

/// A definition at file scope.
#[derive(Drop)]
pub struct Definition {
    pub name: Name,
    /// The number of its unit, from 0; of an object in a named register, of the first unit that declares it.
    pub unit: u8,
    pub linkage: Linkage,
    pub kind: Defined,
    /// How many objects, or else functions, are defined before it, parameters and the objects of blocks included.
    pub number: u16,
}

/// The definitions so far.
#[derive(Drop)]
pub struct Numbering {
    pub definitions: Seq<Definition>,
    /// The linkages of the names that the unit has declared so far.
    pub links: IndexMap<Name, Linkage>,
    /// How many objects and functions there are so far.
    pub counts: Counts,
}

fn copied(alloc: Global, name: &Name) -> Result<Name, NoMemory>
    ensures { IfOk result (λ copy. copy.items ≡ name.now.items) }
{
    let mut copy = Seq::new(alloc);
    copy.extend_from_slice(name.as_slice())?;
    Ok(copy)
}

/// The first storage word of specifiers.
pub fn storage_of(specs: &Specs) -> Option<StorageWord>
    ensures { result ≡ storage_of (view_specs specs.now) }
{
    match storages_of(specs).first {
        Some(storage) => Some(storage.word),
        None => None,
    }
}

/// Whether a declaration at file scope, of a function or else of an object, defines the object that it declares. It
/// does without `extern`, since there are no tentative definitions.
pub fn is_defined(storage: Option<StorageWord>, function: bool) -> bool
    ensures { result ≡ is_defined storage function }
{
    match storage {
        None | Some(StorageWord::Static) => defines_object(function, false),
        Some(StorageWord::Extern) => defines_object(function, true),
    }
}

fn is_register(kind: Defined) -> bool
    ensures { result ≡ is_register kind }
{
    match kind {
        Defined::Register => true,
        Defined::Object | Defined::Function => false,
    }
}

fn is_registered(name: &Name, definitions: &[Definition]) -> bool
    ensures { result ≡ is_registered name.now.items (plain_definitions definitions.now) }
{
    for d in definitions {
        if is_register(d.kind) && d.name == *name {
            return true;
        }
    }
    false
}

impl Numbering {
    fn new(alloc: Global) -> Numbering
        ensures { plain_numbering result ≡ nothing_numbered }
    {
        Numbering {
            definitions: Seq::new(alloc),
            links: IndexMap::new(alloc),
            counts: Counts::none(),
        }
    }

    fn link_in(&self, storage: Option<StorageWord>, function: bool, name: &Name) -> Linkage
        ensures { result ≡ link_in storage function name.now.items (plain_numbering self.now) }
    {
        linkage_of(storage, function, self.links.get(name).copied())
    }

    fn link_copy(&mut self, name: Name, linkage: Linkage) -> Result<(), NoMemory>
        ensures { OnOk result (plain_numbering self.new ≡ with_link name.items linkage (plain_numbering self.old)) }
    {
        match self.links.insert(name, linkage) {
            Ok(_) => Ok(()),
            Err(_) => Err(NoMemory),
        }
    }

    fn link(&mut self, alloc: Global, name: &Name, linkage: Linkage) -> Result<(), NoMemory>
        ensures { OnOk result (plain_numbering self.new ≡ with_link name.now.items linkage (plain_numbering self.old)) }
    {
        let copy = copied(alloc, name)?;
        self.link_copy(copy, linkage)?;
        Ok(())
    }

    fn define_object(
        &mut self,
        alloc: Global,
        unit: u8,
        name: &Name,
        linkage: Linkage,
        kind: Defined,
    ) -> Result<(), NoMemory>
        requires { self.old.counts.objects < most_objects }
        ensures { OnOk result (plain_numbering self.new
            ≡ with_object unit name.now.items linkage kind (plain_numbering self.old)) }
    {
        let name = copied(alloc, name)?;
        let number = self.counts.objects as u16;
        self.definitions.push(Definition {
            name,
            unit,
            linkage,
            kind,
            number,
        })?;
        self.counts = self.counts.with_object();
        Ok(())
    }

    fn define_function(
        &mut self,
        alloc: Global,
        unit: u8,
        linkage: Linkage,
        f: &Function,
    ) -> Result<(), NoMemory>
        requires functions { self.old.counts.functions < most_functions }
        requires objects { self.old.counts.objects + objects_in_function (view_function f.now) ≤ most_objects }
        ensures { OnOk result (plain_numbering self.new ≡ with_function unit f.now.name.name.items linkage
            (objects_in_function (view_function f.now)) (plain_numbering self.old)) }
    {
        let name = copied(alloc, &f.name.name)?;
        let number = self.counts.functions as u16;
        self.definitions.push(Definition {
            name,
            unit,
            linkage,
            kind: Defined::Function,
            number,
        })?;
        let own = 1_024 - less_function(1_024, f);
        self.counts = self.counts.with_function(own);
        Ok(())
    }

    fn number_declarator(
        &mut self,
        alloc: Global,
        unit: u8,
        storage: Option<StorageWord>,
        d: &InitDeclarator,
    ) -> Result<(), NoMemory>
        requires { self.old.counts.objects + objects_in_declarator (view_init_declarator d.now) ≤ most_objects }
        ensures numbered { OnOk result (plain_numbering self.new
            ≡ numbered_declarator unit storage (view_init_declarator d.now) (plain_numbering self.old)) }
        ensures objects { OnOk result (self.new.counts.objects
            ≤ self.old.counts.objects + objects_in_declarator (view_init_declarator d.now)) }
        ensures functions { OnOk result (self.new.counts.functions ≡ self.old.counts.functions) }
    {
        let name = &d.declarator.name.name;
        let function = is_function(&d.declarator.shape);
        let linkage = self.link_in(storage, function, name);
        self.link(alloc, name, linkage)?;
        if is_defined(storage, function) {
            self.define_object(alloc, unit, name, linkage, Defined::Object)?;
        }
        Ok(())
    }

    fn number_more(
        &mut self,
        alloc: Global,
        unit: u8,
        storage: Option<StorageWord>,
        more: &[NextInitDeclarator],
    ) -> Result<(), NoMemory>
        requires { self.old.counts.objects + objects_in_more (map view_next_init_declarator more.now) ≤ most_objects }
        ensures numbered { OnOk result (plain_numbering self.new
            ≡ numbered_more unit storage (map view_next_init_declarator more.now) (plain_numbering self.old)) }
        ensures objects { OnOk result (self.new.counts.objects
            ≤ self.old.counts.objects + objects_in_more (map view_next_init_declarator more.now)) }
        ensures functions { OnOk result (self.new.counts.functions ≡ self.old.counts.functions) }
    {
        for d in more {
            self.number_declarator(alloc, unit, storage, &d.declarator)?;
        }
        Ok(())
    }

    fn number_declaration(
        &mut self,
        alloc: Global,
        unit: u8,
        d: &Declaration,
    ) -> Result<(), NoMemory>
        requires { self.old.counts.objects + objects_in_declaration (view_declaration d.now) ≤ most_objects }
        ensures numbered { OnOk result (plain_numbering self.new
            ≡ numbered_declaration unit (view_declaration d.now) (plain_numbering self.old)) }
        ensures objects { OnOk result (self.new.counts.objects
            ≤ self.old.counts.objects + objects_in_declaration (view_declaration d.now)) }
        ensures functions { OnOk result (self.new.counts.functions ≡ self.old.counts.functions) }
    {
        let storage = storage_of(&d.specs);
        self.number_declarator(alloc, unit, storage, &d.first)?;
        self.number_more(alloc, unit, storage, &d.more)?;
        Ok(())
    }

    fn number_register(
        &mut self,
        alloc: Global,
        unit: u8,
        r: &RegisterObject,
    ) -> Result<(), NoMemory>
        requires { self.old.counts.objects < most_objects }
        ensures numbered { OnOk result (plain_numbering self.new
            ≡ numbered_register unit (view_register_object r.now) (plain_numbering self.old)) }
        ensures objects { OnOk result (self.new.counts.objects ≤ self.old.counts.objects + 1) }
        ensures functions { OnOk result (self.new.counts.functions ≡ self.old.counts.functions) }
    {
        let name = &r.name.name;
        if is_registered(name, self.definitions.as_slice()) {
            return Ok(());
        }
        self.define_object(alloc, unit, name, Linkage::External, Defined::Register)?;
        Ok(())
    }

    fn number_function(&mut self, alloc: Global, unit: u8, f: &Function) -> Result<(), NoMemory>
        requires functions { self.old.counts.functions < most_functions }
        requires objects { self.old.counts.objects + objects_in_function (view_function f.now) ≤ most_objects }
        ensures numbered { OnOk result (plain_numbering self.new
            ≡ numbered_function unit (view_function f.now) (plain_numbering self.old)) }
        ensures objects { OnOk result (self.new.counts.objects
            ≡ self.old.counts.objects + objects_in_function (view_function f.now)) }
        ensures functions { OnOk result (self.new.counts.functions ≡ self.old.counts.functions + 1) }
    {
        let name = &f.name.name;
        let linkage = self.link_in(storage_of(&f.result.specs), true, name);
        self.link(alloc, name, linkage)?;
        self.define_function(alloc, unit, linkage, f)?;
        Ok(())
    }

    fn number_external(
        &mut self,
        alloc: Global,
        unit: u8,
        external: &External,
    ) -> Result<(), NoMemory>
        requires functions { self.old.counts.functions + functions_in_external (view_external external.now)
            ≤ most_functions }
        requires objects { self.old.counts.objects + objects_in_external (view_external external.now) ≤ most_objects }
        ensures numbered { OnOk result (plain_numbering self.new
            ≡ numbered_external unit (view_external external.now) (plain_numbering self.old)) }
        ensures objects { OnOk result (self.new.counts.objects
            ≤ self.old.counts.objects + objects_in_external (view_external external.now)) }
        ensures functions { OnOk result (self.new.counts.functions
            ≡ self.old.counts.functions + functions_in_external (view_external external.now)) }
    {
        match external {
            External::Pragma(_) | External::Structure(_) => Ok(()),
            External::Register(r) => {
                self.number_register(alloc, unit, r)?;
                Ok(())
            }
            External::Declaration(d) => {
                self.number_declaration(alloc, unit, d)?;
                Ok(())
            }
            External::Function(f) => {
                self.number_function(alloc, unit, f)?;
                Ok(())
            }
        }
    }

    fn number_externals(
        &mut self,
        alloc: Global,
        unit: u8,
        externals: &[External],
    ) -> Result<(), NoMemory>
        requires functions { self.old.counts.functions + functions_in_externals (map view_external externals.now)
            ≤ most_functions }
        requires objects { self.old.counts.objects + objects_in_externals (map view_external externals.now)
            ≤ most_objects }
        ensures numbered { OnOk result (plain_numbering self.new
            ≡ numbered_externals unit (map view_external externals.now) (plain_numbering self.old)) }
        ensures objects { OnOk result (self.new.counts.objects
            ≤ self.old.counts.objects + objects_in_externals (map view_external externals.now)) }
        ensures functions { OnOk result (self.new.counts.functions
            ≡ self.old.counts.functions + functions_in_externals (map view_external externals.now)) }
    {
        for external in externals {
            self.number_external(alloc, unit, external)?;
        }
        Ok(())
    }

    fn number_unit(&mut self, alloc: Global, unit: u8, tree: &Tree) -> Result<(), NoMemory>
        requires functions { self.old.counts.functions + functions_in_unit (view_tree tree.now) ≤ most_functions }
        requires objects { self.old.counts.objects + objects_in_unit (view_tree tree.now) ≤ most_objects }
        ensures numbered { OnOk result (plain_numbering self.new
            ≡ numbered_unit unit (view_tree tree.now) (plain_numbering self.old)) }
        ensures objects { OnOk result (self.new.counts.objects
            ≤ self.old.counts.objects + objects_in_unit (view_tree tree.now)) }
        ensures functions { OnOk result (self.new.counts.functions
            ≡ self.old.counts.functions + functions_in_unit (view_tree tree.now)) }
    {
        self.links.clear();
        self.number_externals(alloc, unit, &tree.items)?;
        Ok(())
    }
}

/// The definitions of all units in order. The units must keep the limits of objects and functions.
pub fn definitions(alloc: Global, units: &[Tree]) -> Result<Seq<Definition>, NoMemory>
    requires units { length units.now ≤ 16 }
    requires objects { objects_declared (map view_tree units.now) ≤ most_objects }
    requires functions { functions_defined (map view_tree units.now) ≤ most_functions }
    ensures { IfOk result (λ ds. plain_definitions ds.items ≡ definitions (map view_tree units.now)) }
{
    let mut numbering = Numbering::new(alloc);
    let mut unit: u8 = 0;
    for tree in units {
        numbering.number_unit(alloc, unit, tree)?;
        unit += 1;
    }
    Ok(numbering.definitions)
}

fn same_linkage(a: Linkage, b: Linkage) -> bool
    ensures { result ≡ same_linkage a b }
{
    match (a, b) {
        (Linkage::Internal, Linkage::Internal) | (Linkage::External, Linkage::External) => true,
        (Linkage::Internal, Linkage::External) | (Linkage::External, Linkage::Internal) => false,
    }
}

fn is_internal(linkage: Linkage) -> bool
    ensures { result ≡ is_internal linkage }
{
    match linkage {
        Linkage::Internal => true,
        Linkage::External => false,
    }
}

fn is_function_kind(kind: Defined) -> bool
    ensures { result ≡ is_function_kind kind }
{
    match kind {
        Defined::Function => true,
        Defined::Object | Defined::Register => false,
    }
}

fn same_kind(function: bool, kind: Defined) -> bool
    ensures { result ≡ same_kind function kind }
{
    if function {
        is_function_kind(kind)
    } else {
        !is_function_kind(kind)
    }
}

fn defines(d: &Definition, name: &Name, unit: u8, linkage: Linkage, function: bool) -> bool
    ensures { result ≡ defines name.now.items unit linkage function (plain_definition d.now) }
{
    d.name == *name
        && same_linkage(d.linkage, linkage)
        && same_kind(function, d.kind)
        && (!is_internal(linkage) || d.unit == unit)
}

/// The number of the definition of a name with a linkage, as a function or else as an object, where the name stands in
/// a unit. None where no unit defines it, or, for an internal name, where that unit does not.
pub fn number_of(
    definitions: &[Definition],
    name: &Name,
    unit: u8,
    linkage: Linkage,
    function: bool,
) -> Option<u16>
    ensures { result ≡ number_of name.now.items unit linkage function (plain_definitions definitions.now) }
{
    for d in definitions {
        if defines(d, name, unit, linkage, function) {
            return Some(d.number);
        }
    }
    None
}
