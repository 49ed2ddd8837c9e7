//! What the map puts at fixed addresses.
ghost use Rattle.std.specs.Prelude.{◌≡◌, ◌+◌, ◌<◌, map, length, drop, IfOk, IfSome, option_map, position};
ghost use Rattle.std.specs.Option.{option_copied};
ghost use Rattle.ec_core.specs.Plain.{plain_object, plain_storage};
ghost use Rattle.ec_locate.specs.Entries.{is_static as static_storage};
ghost use Rattle.ec_locate.specs.Fixed.{can_place, object_named, missing, block_at, block_of, blocks, shares, meets};
ghost use Rattle.ec_locate.specs.Fixed.{same_bank, overlaps, is_in_bank, name_where_met, region_met, clash_of};
ghost use Rattle.ec_locate.specs.Fixed.{region_or_later, first_clash, region_text, place_name, neighbour_name};

use crate::entries::{Entry, is_static};
use crate::stop::RegionName;
use ec_core::Obj;
use ec_map::{Fixed1, Map, Region, home_end};
use ec_space::{Bank, Core, Home, Name, NoMemory, Seq};
use std::alloc::Global;

/// The bytes of an object that the map places.
#[derive(Clone, Copy)]
pub struct Block {
    pub home: Home,
    pub at: u32,
    pub size: u32,
}

/// What a block clashes with.
#[derive(Clone, Copy)]
pub enum Neighbour {
    /// It does not lie wholly in its bank, or the pointer past its last byte has no bytes.
    BankEnd,
    InRegion(RegionName),
    /// The block of a later name, by how many names stand between.
    Later(usize),
}

/// Whether an object is an external static one of a name.
fn can_place(obj: &Obj, name: &[u8]) -> bool
    ensures { result ≡ can_place name.now (plain_object obj.now) }
{
    obj.external && is_static(obj) && obj.name.as_slice() == name
}

fn object_at(objs: &[Obj], name: &[u8]) -> Option<usize>
    ensures { result ≡ position (λ obj. can_place name.now (plain_object obj)) objs.now }
{
    objs.iter().position(|obj| can_place(obj, name))
}

fn object_named(objs: &[Obj], name: &[u8]) -> Option<usize>
    ensures { result ≡ object_named (map plain_object objs.now) name.now }
{
    object_at(objs, name)
}

/// The first place whose name no external static object has.
pub(crate) fn missing<'a>(objs: &[Obj], places: &'a [Fixed1]) -> Option<&'a Fixed1>
    ensures { option_copied result ≡ missing (map plain_object objs.now) places.now }
{
    places.iter().find(|place| object_named(objs, place.name.as_slice()).is_none())
}

fn block_at(at: u32, entry: Option<Entry>) -> Block
    ensures { result ≡ block_at at entry }
{
    match entry {
        Some(entry) => Block {
            home: entry.home,
            at,
            size: entry.size,
        },
        None => Block {
            home: Home::Data,
            at,
            size: 0,
        },
    }
}

fn block_of(entries: &[Entry], objs: &[Obj], place: &Fixed1) -> Block
    ensures { result ≡ block_of entries.now (map plain_object objs.now) place.now }
{
    match object_named(objs, place.name.as_slice()) {
        Some(number) => block_at(place.at, entries.get(number).copied()),
        None => block_at(place.at, None),
    }
}

/// The bytes of each object that the map places, in the order of the places.
pub(crate) fn blocks_of(
    alloc: Global,
    entries: &[Entry],
    objs: &[Obj],
    places: &[Fixed1],
) -> Result<Seq<Block>, NoMemory>
    ensures { IfOk result (λ made. made.items ≡ blocks entries.now (map plain_object objs.now) places.now) }
{
    let mut made = Seq::new(alloc);
    for place in places {
        made.push(block_of(entries, objs, place))?;
    }
    Ok(made)
}

/// Whether some bytes share one with others.
fn shares(at: u32, size: u32, first: u32, many: u32) -> bool
    ensures { result ≡ shares at size first many }
{
    let end = u64::from(at) + u64::from(size);
    let other_end = u64::from(first) + u64::from(many);
    u64::from(at) < other_end && u64::from(first) < end
}

/// Whether a block and a region have a byte in common. A region without bytes has none.
fn meets(block: Block, region: Region) -> bool
    ensures { result ≡ meets block region }
{
    0 < region.size && shares(block.at, block.size, region.first, region.size)
}

fn same_bank(a: Bank, b: Bank) -> bool
    ensures { result ≡ same_bank a b }
{
    match (a, b) {
        (Bank::Flash, Bank::Flash) | (Bank::Data, Bank::Data) => true,
        _ => false,
    }
}

fn overlaps(a: Block, b: Block) -> bool
    ensures { result ≡ overlaps a b }
{
    same_bank(a.home.bank(), b.home.bank()) && shares(a.at, a.size, b.at, b.size)
}

/// Whether a block lies wholly in the flash or the SRAM of a core, and the pointer past its last byte has bytes.
fn is_in_bank(core: Core, block: Block) -> bool
    ensures { result ≡ is_in_bank core block }
{
    let end = u64::from(block.at) + u64::from(block.size);
    let ends = end <= u64::from(home_end(block.home, core));
    match block.home {
        Home::Flash | Home::Far => ends,
        Home::Data => 256 <= block.at && ends,
    }
}

/// The name of a region, where a block meets it.
fn name_where_met(block: Block, region: Region, name: RegionName) -> Option<RegionName>
    ensures { result ≡ name_where_met block region name }
{
    if meets(block, region) {
        Some(name)
    } else {
        None
    }
}

/// The first region of its bank that a block meets.
fn region_met(map: &Map, block: Block) -> Option<RegionName>
    ensures { result ≡ region_met map.now block }
{
    match block.home.bank() {
        Bank::Flash => {
            let code = name_where_met(block, map.code, RegionName::Code);
            let tables = name_where_met(block, map.tables, RegionName::Tables);
            let far = name_where_met(block, map.far, RegionName::Far);
            code.or(tables.or(far))
        }
        Bank::Data => {
            let vars = name_where_met(block, map.vars, RegionName::Data);
            let stack = name_where_met(block, map.stack, RegionName::Stack);
            vars.or(stack)
        }
    }
}

/// The place of the first block that a block overlaps.
fn later(block: Block, blocks: &[Block]) -> Option<usize>
    ensures { result ≡ position (overlaps block) blocks.now }
{
    blocks.iter().position(|other| overlaps(block, *other))
}

/// What a block clashes with, where these are the blocks of later names.
fn clash_of(map: &Map, block: Block, rest: &[Block]) -> Option<Neighbour>
    ensures { result ≡ clash_of map.now block rest.now }
{
    if !is_in_bank(map.core, block) {
        return Some(Neighbour::BankEnd);
    }
    match region_met(map, block) {
        Some(name) => Some(Neighbour::InRegion(name)),
        None => match later(block, rest) {
            Some(between) => Some(Neighbour::Later(between)),
            None => None,
        },
    }
}

/// The first block that clashes, by its place, and what it clashes with.
pub(crate) fn first_clash(map: &Map, blocks: &[Block]) -> Option<(usize, Neighbour)>
    ensures value { result ≡ first_clash map.now 0 blocks.now }
    ensures within { IfSome result (λ clash. clash.0 < length blocks.now) }
{
    for (i, block) in blocks.iter().enumerate() {
        let (_, rest) = blocks.split_at(i + 1);
        match clash_of(map, *block, rest) {
            Some(neighbour) => return Some((i, neighbour)),
            None => {}
        }
    }
    None
}

fn region_text(name: RegionName) -> &'static str
    ensures { result.now ≡ region_text name }
{
    match name {
        RegionName::Code => "code",
        RegionName::Tables => "tables",
        RegionName::Far => "far",
        RegionName::Data => "data",
        RegionName::Stack => "stack",
    }
}

/// A name of the same bytes.
pub(crate) fn named(alloc: Global, bytes: &[u8]) -> Result<Name, NoMemory>
    ensures { IfOk result (λ name. name.items ≡ bytes.now) }
{
    let mut name = Seq::new(alloc);
    name.extend_from_slice(bytes)?;
    Ok(name)
}

/// The name of the place with a number, empty where there is none.
pub(crate) fn place_name(places: &[Fixed1], i: usize) -> &[u8]
    ensures { result.now ≡ place_name places.now i }
{
    match places.get(i) {
        Some(place) => place.name.as_slice(),
        None => &[],
    }
}

/// The name by which a neighbour of a block is told.
pub(crate) fn neighbour_name(places: &[Fixed1], i: usize, neighbour: Neighbour) -> &[u8]
    requires { i < length places.now }
    ensures { result.now ≡ neighbour_name places.now i neighbour }
{
    match neighbour {
        Neighbour::BankEnd => "bank".as_bytes(),
        Neighbour::InRegion(name) => region_text(name).as_bytes(),
        Neighbour::Later(between) => {
            let (_, rest) = places.split_at(i + 1);
            place_name(rest, between)
        }
    }
}
