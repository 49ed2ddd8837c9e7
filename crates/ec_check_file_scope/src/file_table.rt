//! The declarations at file scope of all units, each of which is found by its name.
ghost use Rattle.std.specs.Prelude.{◌≡◌, ◌∷◌, ◌++◌, [], IfOk, OnOk, OnErr, map};
ghost use Rattle.ec_check_file_scope.specs.FileNames.{plain_file_name, conflicts, earlier_link, is_registered};
ghost use Rattle.std.specs.Option.{option_copied};
ghost use Rattle.ec_check_file_scope.specs.Groups.{those_of, group_of, ends_told, TakesNote, KeepsGroups, Puts, AddsTo};

use crate::copies::copied_declaration;
use crate::file_names::{FileName, conflicts, earlier_link, is_registered, says_all};
use ec_check_declarations::copied_name;
use ec_check_names::Linkage;
use ec_core::types_are_told;
use ec_space::{Name, NoMemory, Seq};
use indexmap::IndexMap;
use std::alloc::Global;
use std::marker::Model;

/// The declarations at file scope of all units, in their order. Contracts see their list.
#[derive(Drop)]
pub struct FileNames {
    list: Seq<FileName>,
    /// Of each name its declarations, but for one that tells no more than the one before it.
    groups: IndexMap<Name, Seq<FileName>>,
}

impl Model for FileNames {
    ghost use Rattle.std.specs.Prelude.{map};
    ghost use Rattle.ec_space.specs.Listed.{Listed, listed_code};
    ghost use Rattle.ec_check_file_scope.specs.declared.file_names.FileName.{FileName};
    ghost use Rattle.ec_check_file_scope.specs.contracts.file_names.FileName as file_name;
    ghost use Rattle.ec_check_file_scope.specs.FileNames.{plain_file_name};
    ghost use Rattle.ec_check_file_scope.specs.Groups.{AreGrouped};

    ghost Value = { Listed FileName };

    ghost coded = { listed_code file_name.the_row.coded };

    ghost view = { λ a. a.list };

    ghost invariant = { λ a. AreGrouped (map plain_file_name a.list.items) a.groups.entries };
}

/// Whether the last of the declarations of a name tells all that one more would tell.
fn ends_told(group: &[FileName], d: &FileName) -> bool
    ensures { result ≡ ends_told (map plain_file_name group.now) (plain_file_name d.now) }
{
    match group.last() {
        Some(e) => says_all(e, d),
        None => false,
    }
}

/// The declarations that are kept of a name.
fn group<'a>(groups: &'a IndexMap<Name, Seq<FileName>>, name: &Name) -> Option<&'a Seq<FileName>>
    ensures { those_of (option_copied result) ≡ group_of name.now.items groups.now.entries }
{
    groups.get(name)
}

fn is_told(groups: &IndexMap<Name, Seq<FileName>>, d: &FileName) -> bool
    ensures { result ≡ ends_told (group_of d.now.name.items groups.now.entries) (plain_file_name d.now) }
{
    match group(groups, &d.name) {
        Some(group) => ends_told(group.as_slice(), d),
        None => false,
    }
}

fn one(alloc: Global, d: FileName) -> Result<Seq<FileName>, NoMemory>
    ensures { IfOk result (λ group. group.items ≡ d ∷ []) }
{
    let mut group = Seq::new(alloc);
    group.push(d)?;
    Ok(group)
}

fn put(
    groups: &mut IndexMap<Name, Seq<FileName>>,
    name: Name,
    group: Seq<FileName>,
) -> Result<(), NoMemory>
    ensures ok { OnOk result (Puts name.items (map plain_file_name group.items) groups.old.entries groups.new.entries) }
    ensures err { OnErr result (KeepsGroups groups.old.entries groups.new.entries) }
{
    match groups.insert(name, group) {
        Ok(_) => Ok(()),
        Err(_) => Err(NoMemory),
    }
}

/// The first declaration of a name.
fn begin(
    alloc: Global,
    groups: &mut IndexMap<Name, Seq<FileName>>,
    d: FileName,
) -> Result<(), NoMemory>
    requires { group_of d.name.items groups.old.entries ≡ [] }
    ensures ok { OnOk result (AddsTo (plain_file_name d) groups.old.entries groups.new.entries) }
    ensures err { OnErr result (KeepsGroups groups.old.entries groups.new.entries) }
{
    let name = copied_name(alloc, &d.name)?;
    let group = one(alloc, d)?;
    put(groups, name, group)
}

/// One declaration more of a name that has one.
fn grow(
    groups: &mut IndexMap<Name, Seq<FileName>>,
    name: &Name,
    d: FileName,
) -> Result<(), NoMemory>
    requires name { name.now.items ≡ d.name.items }
    ensures ok { OnOk result (AddsTo (plain_file_name d) groups.old.entries groups.new.entries) }
    ensures err { OnErr result (KeepsGroups groups.old.entries groups.new.entries) }
{
    match groups.get_mut(name) {
        Some(group) => group.push(d),
        None => {
            drop(d);
            Err(NoMemory)
        }
    }
}

fn add(
    alloc: Global,
    groups: &mut IndexMap<Name, Seq<FileName>>,
    name: &Name,
    d: FileName,
) -> Result<(), NoMemory>
    requires { name.now.items ≡ d.name.items }
    ensures ok { OnOk result (AddsTo (plain_file_name d) groups.old.entries groups.new.entries) }
    ensures err { OnErr result (KeepsGroups groups.old.entries groups.new.entries) }
{
    if groups.contains_key(name) {
        grow(groups, name, d)
    } else {
        begin(alloc, groups, d)
    }
}

/// Takes note of a declaration that stands behind all others.
fn note(
    alloc: Global,
    groups: &mut IndexMap<Name, Seq<FileName>>,
    d: &FileName,
) -> Result<(), NoMemory>
    ensures ok { OnOk result (TakesNote (plain_file_name d.now) groups.old.entries groups.new.entries) }
    ensures err { OnErr result (KeepsGroups groups.old.entries groups.new.entries) }
{
    types_are_told();
    if is_told(groups, d) {
        return Ok(());
    }
    let copy = copied_declaration(alloc, d)?;
    add(alloc, groups, &d.name, copy)
}

impl FileNames {
    /// There is no declaration.
    pub(crate) fn new(alloc: Global) -> FileNames
        ensures { result.items ≡ [] }
    {
        FileNames {
            list: Seq::new(alloc),
            groups: IndexMap::new(alloc),
        }
    }

    /// One declaration more, behind all others.
    pub(crate) fn push(&mut self, alloc: Global, d: FileName) -> Result<(), NoMemory>
        ensures { OnOk result (self.new.items ≡ self.old.items ++ d ∷ []) }
    {
        self.list.reserve(1)?;
        note(alloc, &mut self.groups, &d)?;
        self.list.push(d)
    }

    /// All declarations, in their order.
    pub(crate) fn as_slice(&self) -> &[FileName]
        ensures { result.now ≡ self.now.items }
    {
        self.list.as_slice()
    }

    /// Whether a declaration conflicts with one before it (rule 6).
    pub(crate) fn conflicts(&self, d: &FileName) -> bool
        ensures { result ≡ conflicts (plain_file_name d.now) (map plain_file_name self.now.items) }
    {
        match group(&self.groups, &d.name) {
            Some(group) => conflicts(d, group.as_slice()),
            None => false,
        }
    }

    /// The linkage of the last declaration of a name in a unit.
    pub(crate) fn earlier_link(&self, name: &Name, unit: u8) -> Option<Linkage>
        ensures { result ≡ earlier_link name.now.items unit (map plain_file_name self.now.items) }
    {
        match group(&self.groups, name) {
            Some(group) => earlier_link(name, unit, group.as_slice()),
            None => None,
        }
    }

    /// Whether a name is that of an object in a named register.
    pub(crate) fn is_registered(&self, name: &Name) -> bool
        ensures { result ≡ is_registered name.now.items (map plain_file_name self.now.items) }
    {
        match group(&self.groups, name) {
            Some(group) => is_registered(name, group.as_slice()),
            None => false,
        }
    }
}
