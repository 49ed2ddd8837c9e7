//! The structs of a program, each of which is found by its tag and the names of its members.
ghost use Rattle.std.specs.Prelude.{◌≡◌, ◌∷◌, ◌++◌, [], IfOk, OnOk, OnErr, map, slice_get};
ghost use Rattle.std.specs.Option.{option_copied};
ghost use Rattle.ec_core.specs.Plain.{plain_struct};
ghost use Rattle.ec_check_names.specs.Structs.{struct_place};
ghost use Rattle.ec_check_names.specs.StructTables.{struct_key, same_at, found_in, those_of, places_of, Puts, AddsTo, KeepsPlaces};

use crate::structs::same_struct;
use ec_core::StructDef;
use ec_space::{Name, NoMemory, Seq};
use indexmap::IndexMap;
use std::alloc::Global;
use std::marker::Model;

/// The structs of a program so far, in their order. Contracts see their list.
#[derive(Drop)]
pub struct StructTable {
    list: Seq<StructDef>,
    /// The places of the structs with the same key.
    places: IndexMap<Name, Seq<usize>>,
}

impl Model for StructTable {
    ghost use Rattle.std.specs.Prelude.{map};
    ghost use Rattle.ec_space.specs.Listed.{Listed, listed_code};
    ghost use Rattle.ec_core.specs.declared.types.StructDef.{StructDef};
    ghost use Rattle.ec_core.specs.contracts.types.StructDef as struct_def;
    ghost use Rattle.ec_core.specs.Plain.{plain_struct};
    ghost use Rattle.ec_check_names.specs.StructTables.{AreFound};

    ghost Value = { Listed StructDef };

    ghost coded = { listed_code struct_def.the_row.coded };

    ghost view = { λ a. a.list };

    ghost invariant = { λ a. AreFound (map plain_struct a.list.items) a.places.entries };
}

/// What a struct is found by: its tag, and behind it the names of its members.
pub fn struct_key(alloc: Global, def: &StructDef) -> Result<Name, NoMemory>
    ensures { IfOk result (λ key. key.items ≡ struct_key (plain_struct def.now)) }
{
    let mut key = Seq::new(alloc);
    key.extend_from_slice(def.tag.as_slice())?;
    for member in def.members.as_slice() {
        key.extend_from_slice(member.name.as_slice())?;
    }
    Ok(key)
}

fn is_at(new: &StructDef, structs: &Seq<StructDef>, place: usize) -> bool
    ensures { result ≡ same_at (plain_struct new.now) (slice_get (map plain_struct structs.now.items) place) }
{
    match structs.get(place) {
        None => false,
        Some(old) => same_struct(new, old),
    }
}

/// The first of these places at which the same struct stands.
fn found_in(new: &StructDef, structs: &Seq<StructDef>, places: &[usize]) -> Option<usize>
    ensures { result ≡ found_in (map plain_struct structs.now.items) places.now (plain_struct new.now) }
{
    for place in places {
        if is_at(new, structs, *place) {
            return Some(*place);
        }
    }
    None
}

fn places_of<'a>(places: &'a IndexMap<Name, Seq<usize>>, key: &Name) -> Option<&'a Seq<usize>>
    ensures { those_of (option_copied result) ≡ places_of key.now.items places.now.entries }
{
    places.get(key)
}

fn one(alloc: Global, place: usize) -> Result<Seq<usize>, NoMemory>
    ensures { IfOk result (λ places. places.items ≡ place ∷ []) }
{
    let mut places = Seq::new(alloc);
    places.push(place)?;
    Ok(places)
}

/// The first place of a key.
fn begin(
    alloc: Global,
    places: &mut IndexMap<Name, Seq<usize>>,
    key: Name,
    place: usize,
) -> Result<(), NoMemory>
    requires { places_of key.items places.old.entries ≡ [] }
    ensures ok { OnOk result (AddsTo key.items place places.old.entries places.new.entries) }
    ensures err { OnErr result (KeepsPlaces places.old.entries places.new.entries) }
{
    let all = one(alloc, place)?;
    match places.insert(key, all) {
        Ok(_) => Ok(()),
        Err(_) => Err(NoMemory),
    }
}

/// One place more of a key that has one.
fn grow(places: &mut IndexMap<Name, Seq<usize>>, key: &Name, place: usize) -> Result<(), NoMemory>
    ensures ok { OnOk result (AddsTo key.now.items place places.old.entries places.new.entries) }
    ensures err { OnErr result (KeepsPlaces places.old.entries places.new.entries) }
{
    match places.get_mut(key) {
        Some(all) => all.push(place),
        None => Err(NoMemory),
    }
}

fn add(
    alloc: Global,
    places: &mut IndexMap<Name, Seq<usize>>,
    key: Name,
    place: usize,
) -> Result<(), NoMemory>
    ensures ok { OnOk result (AddsTo key.items place places.old.entries places.new.entries) }
    ensures err { OnErr result (KeepsPlaces places.old.entries places.new.entries) }
{
    if places.contains_key(&key) {
        grow(places, &key, place)
    } else {
        begin(alloc, places, key, place)
    }
}

impl StructTable {
    /// There is no struct.
    pub fn new(alloc: Global) -> StructTable
        ensures { result.items ≡ [] }
    {
        StructTable {
            list: Seq::new(alloc),
            places: IndexMap::new(alloc),
        }
    }

    /// The structs, in their order.
    pub fn list(&self) -> &Seq<StructDef>
        ensures { result.now ≡ self.now }
    {
        &self.list
    }

    /// The structs, in their order, which are looked for no more.
    pub fn into_list(self) -> Seq<StructDef>
        ensures { result.items ≡ self.items }
    {
        let StructTable { list, places } = self;
        drop(places);
        list
    }

    /// The place of the first struct that is the same as this one, which has this key, or None where there is none.
    pub fn place(&self, key: &Name, new: &StructDef) -> Option<usize>
        requires { key.now.items ≡ struct_key (plain_struct new.now) }
        ensures { result ≡ struct_place (plain_struct new.now) (map plain_struct self.now.items) }
    {
        match places_of(&self.places, key) {
            Some(places) => found_in(new, &self.list, places.as_slice()),
            None => None,
        }
    }

    /// One struct more, which has this key, behind all others.
    pub fn push(&mut self, alloc: Global, key: Name, def: StructDef) -> Result<(), NoMemory>
        requires { key.items ≡ struct_key (plain_struct def) }
        ensures { OnOk result (self.new.items ≡ self.old.items ++ def ∷ []) }
    {
        self.list.reserve(1)?;
        add(alloc, &mut self.places, key, self.list.len())?;
        self.list.push(def)
    }
}
