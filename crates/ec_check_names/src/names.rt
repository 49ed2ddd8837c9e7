//! What is known of names at a place (ISO/IEC 9899:1999, 6.2.1).
ghost use Rattle.std.specs.Prelude.{◌≡◌, ◌≤◌, length, map, is_some, option_map, OnOk};
ghost use Rattle.std.specs.Option.{option_copied};
ghost use Rattle.ec_check_names.specs.Names.{plain_named, plain_entry, plain_names, no_names, newest, found};
ghost use Rattle.ec_check_names.specs.Names.{with_outside, with_inside, closed, is_declared_since};

use crate::blocks::{keep_first, newer};
use ec_core::CType;
use ec_space::{Name, NoMemory, Seq, SpaceId};
use indexmap::IndexMap;
use std::alloc::Global;

/// What a name stands for.
#[derive(Drop)]
pub enum Named {
    Object {
        /// Its place in the program's list, or None where no unit defines it.
        number: Option<u16>,
        /// None where its declaration breaks a rule.
        ty: Option<CType>,
        konst: bool,
        space: SpaceId,
        /// Whether it stands in a named register.
        register: bool,
    },
    Function {
        /// Its place in the program's list, or None where no unit defines it.
        number: Option<u16>,
        /// The result, or None where its declaration breaks a rule.
        result_type: Option<CType>,
        /// The types of the parameters, or None where their declaration breaks a rule.
        params: Option<Seq<CType>>,
    },
}

/// A name that is declared in a block.
#[derive(Drop)]
pub struct Entry {
    pub name: Name,
    pub what: Named,
}

/// The names that are known at a place.
#[derive(Drop)]
pub struct Names {
    /// Those at file scope.
    pub outside: IndexMap<Name, Named>,
    /// Those of the blocks around the place, the newest last.
    pub inside: Vec<Entry>,
}

fn newest<'a>(entries: &'a [Entry], name: &Name) -> Option<&'a Named>
    ensures { option_map plain_named (option_copied result) ≡ newest name.now.items (map plain_entry entries.now) }
{
    let mut best = None;
    for entry in entries {
        best = newer(best, entry.name == *name, &entry.what);
    }
    best
}

fn is_declared(entries: &[Entry], name: &Name) -> bool
    ensures { result ≡ is_some (newest name.now.items (map plain_entry entries.now)) }
{
    newest(entries, name).is_some()
}

impl Names {
    /// No name is known.
    pub fn new(alloc: Global) -> Names
        ensures { plain_names result ≡ no_names }
    {
        Names {
            outside: IndexMap::new(alloc),
            inside: Vec::new(alloc),
        }
    }

    /// What a name stands for, or None where it is not declared. Its newest declaration in a block hides the others.
    pub fn find(&self, name: &Name) -> Option<&Named>
        ensures { option_map plain_named (option_copied result) ≡ found name.now.items (plain_names self.now) }
    {
        match newest(&self.inside, name) {
            Some(what) => Some(what),
            None => self.outside.get(name),
        }
    }

    /// Declares a name at file scope, where a later declaration takes the place of an earlier one.
    pub fn declare_outside(&mut self, name: Name, what: Named) -> Result<(), NoMemory>
        ensures { OnOk result (plain_names self.new
            ≡ with_outside name.items (plain_named what) (plain_names self.old)) }
    {
        match self.outside.insert(name, what) {
            Ok(_) => Ok(()),
            Err(_) => Err(NoMemory),
        }
    }

    /// Declares a name in a block, where it hides other declarations until the block ends.
    pub fn declare_inside(&mut self, name: Name, what: Named) -> Result<(), NoMemory>
        ensures { OnOk result (plain_names self.new
            ≡ with_inside name.items (plain_named what) (plain_names self.old)) }
    {
        match self.inside.push(Entry { name, what }) {
            Ok(()) => Ok(()),
            Err(_) => Err(NoMemory),
        }
    }

    /// How many names blocks have declared: what a block that begins here ends with.
    pub fn names_inside(&self) -> usize
        ensures { result ≡ length (plain_names self.now).inside }
    {
        self.inside.len()
    }

    /// Forgets the names of a block that began where blocks had so many names.
    pub fn close(&mut self, names: usize)
        ensures { plain_names self.new ≡ closed names (plain_names self.old) }
    {
        keep_first(&mut self.inside, names);
    }

    /// Whether a name was declared in a block that began where blocks had so many names (rule 5).
    pub fn is_declared_since(&self, names: usize, name: &Name) -> bool
        requires { names ≤ length (plain_names self.now).inside }
        ensures { result ≡ is_declared_since names name.now.items (plain_names self.now) }
    {
        is_declared(&self.inside[names..], name)
    }
}
