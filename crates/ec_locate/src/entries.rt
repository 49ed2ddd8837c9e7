//! What is asked of the objects of a program to place them.
ghost use Rattle.std.specs.Prelude.{◌≡◌, ◌<◌, ◌≤◌, ◌^◌, All, IfOk, map, length, sum_by};
ghost use Rattle.std.specs.List.{AllByRecursion};
ghost use Rattle.ec_core.specs.Layout.{AreStructs, IsObjectType};
ghost use Rattle.ec_core.specs.Plain.{plain_struct, plain_type, plain_object, plain_storage, plain_program};
ghost use Rattle.ec_core.specs.Valid.{IsObject};
ghost use Rattle.ec_locate.specs.Entries.{fixed_place, kept_by, is_static, entry_of, entries, flash_size, far_size, data_size};
ghost use Rattle.ec_locate.specs.Entries.{initial_size, flash_sizes, far_sizes, data_sizes, initial_sizes, work_size};

use ec_core::{Obj, Program, Storage, StructDef, size_of};
use ec_iohw::IoTable;
use ec_map::Fixed1;
use ec_space::{Home, NoMemory, Seq};
use std::alloc::Global;

/// How an object is kept.
#[derive(Clone, Copy)]
pub enum Kept {
    /// In the registers of the core from this one on.
    Register(u8),
    /// Where the map puts it, by the address in its bank.
    Fixed(u32),
    /// In the region of its home.
    Packed,
    /// In the frame of this function, of which it is a parameter or a local.
    InFrame(u16),
}

/// What is asked of an object to place it.
#[derive(Clone, Copy)]
pub struct Entry {
    /// Its bytes.
    pub size: u32,
    pub home: Home,
    pub is_static: bool,
    pub kept: Kept,
}

/// Where the map puts an object of a name.
fn fixed_place(places: &[Fixed1], name: &[u8]) -> Option<u32>
    ensures { result ≡ fixed_place places.now name.now }
{
    match places.iter().find(|place| place.name.as_slice() == name) {
        Some(place) => Some(place.at),
        None => None,
    }
}

fn kept_by(obj: &Obj, places: &[Fixed1]) -> Kept
    ensures { result ≡ kept_by places.now obj.now.external obj.now.name.items (plain_storage obj.now.storage) }
{
    match &obj.storage {
        Storage::Static(_) => {
            if !obj.external {
                return Kept::Packed;
            }
            match fixed_place(places, obj.name.as_slice()) {
                Some(at) => Kept::Fixed(at),
                None => Kept::Packed,
            }
        }
        Storage::Register(first) => Kept::Register(*first),
        Storage::Local(function) | Storage::Param(function) => Kept::InFrame(*function),
    }
}

pub(crate) fn is_static(obj: &Obj) -> bool
    ensures { result ≡ is_static (plain_storage obj.now.storage) }
{
    match &obj.storage {
        Storage::Static(_) => true,
        Storage::Register(_) | Storage::Local(_) | Storage::Param(_) => false,
    }
}

fn entry_of(structs: &Seq<StructDef>, obj: &Obj, places: &[Fixed1]) -> Entry
    requires structs { AreStructs (map plain_struct structs.now.items) }
    requires object { IsObjectType (length structs.now.items) (plain_type obj.now.ty) }
    ensures { result ≡ entry_of (map plain_struct structs.now.items) places.now (plain_object obj.now) }
{
    Entry {
        size: size_of(structs, &obj.ty),
        home: obj.home,
        is_static: is_static(obj),
        kept: kept_by(obj, places),
    }
}

fn entries_from(
    alloc: Global,
    structs: &Seq<StructDef>,
    objs: &[Obj],
    places: &[Fixed1],
) -> Result<Seq<Entry>, NoMemory>
    requires structs { AreStructs (map plain_struct structs.now.items) }
    requires objects { All (λ obj. IsObjectType (length structs.now.items) (plain_type obj.ty)) objs.now }
    ensures { IfOk result (λ made. made.items
        ≡ map (λ obj. entry_of (map plain_struct structs.now.items) places.now (plain_object obj)) objs.now) }
{
    let mut made = Seq::new(alloc);
    for obj in objs {
        made.push(entry_of(structs, obj, places))?;
    }
    Ok(made)
}

/// What is asked of the objects of a program, where the map puts some at these places.
pub(crate) fn entries_of(
    alloc: Global,
    program: &Program,
    places: &[Fixed1],
) -> Result<Seq<Entry>, NoMemory>
    requires structs { AreStructs (plain_program program.now).structs }
    requires objects { AllByRecursion (IsObject (plain_program program.now)) (plain_program program.now).objects }
    ensures { IfOk result (λ made. made.items ≡ entries places.now (plain_program program.now)) }
{
    let made = entries_from(alloc, &program.structs, program.objs.as_slice(), places)?;
    Ok(made)
}

/// The bytes of an object of home flash in region `tables`.
pub(crate) fn flash_size(entry: Entry) -> u32
    ensures { result ≡ flash_size entry }
{
    match (entry.kept, entry.home) {
        (Kept::Packed, Home::Flash) => entry.size,
        _ => 0,
    }
}

/// The bytes of an object of home far in region `far`.
pub(crate) fn far_size(entry: Entry) -> u32
    ensures { result ≡ far_size entry }
{
    match (entry.kept, entry.home) {
        (Kept::Packed, Home::Far) => entry.size,
        _ => 0,
    }
}

/// The bytes of a data object in region `data`.
pub(crate) fn data_size(entry: Entry) -> u32
    ensures { result ≡ data_size entry }
{
    match (entry.kept, entry.home) {
        (Kept::Packed, Home::Data) => entry.size,
        _ => 0,
    }
}

/// The initial bytes of a static object of the home data.
pub(crate) fn initial_size(entry: Entry) -> u32
    ensures { result ≡ initial_size entry }
{
    match entry.home {
        Home::Data => if entry.is_static { entry.size } else { 0 },
        Home::Flash | Home::Far => 0,
    }
}

pub(crate) fn flash_sizes(entries: &[Entry]) -> u64
    requires { length entries.now < 2 ^ 29 }
    ensures value { result ≡ flash_sizes entries.now }
    ensures bound { result < 2 ^ 61 }
{
    let mut sum = 0u64;
    for entry in entries {
        sum += u64::from(flash_size(*entry));
    }
    sum
}

pub(crate) fn far_sizes(entries: &[Entry]) -> u64
    requires { length entries.now < 2 ^ 29 }
    ensures value { result ≡ far_sizes entries.now }
    ensures bound { result < 2 ^ 61 }
{
    let mut sum = 0u64;
    for entry in entries {
        sum += u64::from(far_size(*entry));
    }
    sum
}

pub(crate) fn data_sizes(entries: &[Entry]) -> u64
    requires { length entries.now < 2 ^ 29 }
    ensures value { result ≡ data_sizes entries.now }
    ensures bound { result < 2 ^ 61 }
{
    let mut sum = 0u64;
    for entry in entries {
        sum += u64::from(data_size(*entry));
    }
    sum
}

pub(crate) fn initial_sizes(entries: &[Entry]) -> u64
    requires { length entries.now < 2 ^ 29 }
    ensures value { result ≡ initial_sizes entries.now }
    ensures bound { result < 2 ^ 61 }
{
    let mut sum = 0u64;
    for entry in entries {
        sum += u64::from(initial_size(*entry));
    }
    sum
}

/// How many work bytes there are: 64, and behind them one for each dynamic group.
pub(crate) fn work_size(io: &IoTable) -> u64
    requires { length io.now.dynamics.items ≤ 8 }
    ensures { result ≡ work_size io.now }
{
    64 + io.dynamics.len() as u64
}
