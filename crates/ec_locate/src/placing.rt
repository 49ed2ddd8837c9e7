//! Placing a program.
ghost use Rattle.std.specs.Prelude.{◌≡◌, ℕ, ◌<◌, ◌≤◌, ◌^◌, ◌+◌, ◌*◌, All, IsTrue, IfOk, IfErr, OnOk, length};
ghost use Rattle.std.specs.Prelude.{Some, None};
ghost use Rattle.std.specs.Prelude.{map as each};
ghost use Rattle.ec_check_recursion.specs.Rows.{plain_rows, rows_of_program};
ghost use Rattle.ec_asm.specs.Items.{code_words};
ghost use Rattle.ec_asm.specs.Valid.{ValidAsm};
ghost use Rattle.ec_core.specs.Layout.{AreStructs, IsObjectType};
ghost use Rattle.ec_core.specs.Plain.{plain_struct, plain_type, plain_object, plain_program, PlainProgram};
ghost use Rattle.ec_core.specs.Valid.{Valid};
ghost use Rattle.ec_map.specs.Maps.{ValidMap};
ghost use Rattle.ec_overlay.specs.Chains.{NothingRecurs};
ghost use Rattle.ec_locate.specs.Areas.{IsKeptBelow, AreAreas};
ghost use Rattle.ec_locate.specs.Calls.{call_depth};
ghost use Rattle.ec_locate.specs.Code.{has_words};
ghost use Rattle.ec_locate.specs.Entries.{flash_sizes, far_sizes, initial_sizes, entries, work_size};
ghost use Rattle.ec_locate.specs.Fixed.{missing, blocks, first_clash};
ghost use Rattle.ec_locate.specs.Image.{flash_of, image};
ghost use Rattle.ec_locate.specs.Layout.{work_area, layout};
ghost use Rattle.ec_locate.specs.Needs.{first_shortage};
ghost use Rattle.ec_locate.specs.Placing.{object_sizes, scratch_needs, needs, IsShort, IsWithoutObject, IsClash};
ghost use Rattle.ec_locate.specs.Placing.{IsStop, IsLocated, last_of};

use crate::calls::call_depth;
use crate::entries::{
    Entry, data_sizes, entries_of, far_sizes, flash_sizes, initial_sizes, work_size,
};
use crate::fixed::{Neighbour, blocks_of, first_clash, missing, named, neighbour_name, place_name};
use crate::frames::{Areas, areas_of};
use crate::image::image_from;
use crate::layout::{Layout, layout_of};
use crate::needs::{Needs, first_shortage};
use crate::stop::PlaceStop;
use ec_asm::{AsmProgram, code_words};
use ec_avr::Image;
use ec_check_recursion::rows_of;
use ec_core::{Obj, Program};
use ec_iohw::IoTable;
use ec_map::{Fixed1, Map};
use ec_space::{NoMemory, Place, Seq};
use std::alloc::Global;

/// A program that was placed.
#[derive(Drop)]
pub struct Located {
    /// The code, and the initial values of static objects.
    pub image: Image,
    /// The place of each object.
    pub places: Seq<Place>,
    /// The data address of the scratch memory of each function.
    pub frames: Seq<u32>,
    /// The data address of the work bytes.
    pub work: u32,
    /// The bytes of the code.
    pub code_bytes: u32,
}

/// The bytes that the regions have to have, by the areas of frames and the longest chain of calls.
fn needs_of(io: &IoTable, entries: &[Entry], asm: &AsmProgram, areas: &Areas, depth: u32) -> Needs
    requires dynamics { length io.now.dynamics.items ≤ 8 }
    requires objects { length entries.now < 2 ^ 12 }
    requires items { length asm.now.items.items < 2 ^ 32 }
    requires locals { areas.now.locals.need ≤ 2 ^ 61 }
    requires scratch { areas.now.scratch.need ≤ 2 ^ 61 }
    ensures { (p : PlainProgram) → AreAreas (rows_of_program p) entries.now asm.now.frames.items areas.now
        → depth ≡ call_depth p → result ≡ needs p io.now entries.now asm.now.frames.items asm.now.items.items }
{
    Needs {
        tables: flash_sizes(entries) + initial_sizes(entries),
        far: far_sizes(entries),
        vars: data_sizes(entries) + areas.locals.need + areas.scratch.need + work_size(io),
        stack: 16 + 2 * u64::from(depth),
        code: 2 * code_words(asm.items.as_slice()),
    }
}

/// Refuses a program where a region is too small.
fn refuse_short(map: &Map, needs: Needs) -> Result<(), PlaceStop>
    ensures ok { OnOk result (first_shortage map.now needs ≡ None) }
    ensures stop { IfErr result (IsShort (first_shortage map.now needs)) }
{
    match first_shortage(map, needs) {
        Some(shortage) => Err(PlaceStop::TooSmall {
            region: shortage.region,
            needed: shortage.needed,
            available: shortage.available,
        }),
        None => Ok(()),
    }
}

/// Refuses a map that places an object that there is not.
fn refuse_missing(alloc: Global, objs: &[Obj], places: &[Fixed1]) -> Result<(), PlaceStop>
    ensures ok { OnOk result (missing (each plain_object objs.now) places.now ≡ None) }
    ensures stop { IfErr result (IsWithoutObject (missing (each plain_object objs.now) places.now)) }
{
    match missing(objs, places) {
        Some(place) => {
            let name = named(alloc, place.name.as_slice())?;
            Err(PlaceStop::NoSuchObject(name))
        }
        None => Ok(()),
    }
}

/// How a clash is told.
fn clash_told(
    alloc: Global,
    places: &[Fixed1],
    i: usize,
    neighbour: Neighbour,
) -> Result<PlaceStop, NoMemory>
    requires { i < length places.now }
    ensures { IfOk result (IsClash places.now (Some (i, neighbour))) }
{
    let name = named(alloc, place_name(places, i))?;
    let other = named(alloc, neighbour_name(places, i, neighbour))?;
    Ok(PlaceStop::Clash(name, other))
}

/// Refuses a map whose fixed places clash.
fn refuse_clash(alloc: Global, map: &Map, entries: &[Entry], objs: &[Obj]) -> Result<(), PlaceStop>
    ensures ok { OnOk result (first_clash map.now 0 (blocks entries.now (each plain_object objs.now)
        map.now.places.items) ≡ None) }
    ensures stop { IfErr result (IsClash map.now.places.items (first_clash map.now 0
        (blocks entries.now (each plain_object objs.now) map.now.places.items))) }
{
    let places = map.places.as_slice();
    let made = blocks_of(alloc, entries, objs, places)?;
    match first_clash(map, made.as_slice()) {
        Some((i, neighbour)) => {
            let stop = clash_told(alloc, places, i, neighbour)?;
            Err(stop)
        }
        None => Ok(()),
    }
}

/// The program where it stands, which the regions have room for.
fn locate(
    alloc: Global,
    program: &Program,
    asm: &AsmProgram,
    map: &Map,
    rows: &[Seq<u16>],
    entries: &[Entry],
    areas: Areas,
) -> Result<Located, NoMemory>
    requires structs { AreStructs (each plain_struct program.now.structs.items) }
    requires objects { All (λ obj. IsObjectType (length program.now.structs.items) (plain_type obj.ty))
        program.now.objs.items }
    requires words { All (λ item. IsTrue (has_words item)) asm.now.items.items }
    requires room { code_words asm.now.items.items < 2 ^ 16 }
    requires items { length asm.now.items.items < 2 ^ 32 }
    requires few { length entries.now < 2 ^ 12 }
    requires functions { length asm.now.frames.items ≡ length rows.now }
    requires known { All (λ entry. IsKeptBelow (length rows.now) entry.kept) entries.now }
    requires never { NothingRecurs (plain_rows rows.now) }
    requires areas { AreAreas (plain_rows rows.now) entries.now asm.now.frames.items areas }
    requires begins { All (λ begin. begin ≤ 2 ^ 60) areas.locals.begins.items }
    requires flash { map.now.tables.first + flash_sizes entries.now + initial_sizes entries.now < 2 ^ 32 }
    requires far { map.now.far.first < 2 ^ 32 → map.now.far.first + far_sizes entries.now < 2 ^ 32 }
    requires ram { work_area map.now (plain_rows rows.now) entries.now asm.now.frames.items < 2 ^ 32 }
    requires stack { map.now.stack.first + map.now.stack.size < 2 ^ 32 }
    requires some { 0 < map.now.stack.size }
    ensures places { IfOk result (λ l. l.places.items ≡ (layout map.now (plain_rows rows.now) entries.now asm.now.frames.items).places) }
    ensures frames { IfOk result (λ l. l.frames.items ≡ (layout map.now (plain_rows rows.now) entries.now asm.now.frames.items).frames) }
    ensures work { IfOk result (λ l. l.work ≡ (layout map.now (plain_rows rows.now) entries.now asm.now.frames.items).work) }
    ensures code_bytes { IfOk result (λ l. l.code_bytes ≡ 2 * code_words asm.now.items.items) }
    ensures core { IfOk result (λ l. l.image.core ≡ map.now.core) }
    ensures flash { IfOk result (λ l. flash_of l.image ≡ image map.now.core (plain_program program.now)
        (layout map.now (plain_rows rows.now) entries.now asm.now.frames.items) (last_of map.now) asm.now.items.items) }
{
    let items = asm.items.as_slice();
    let layout = layout_of(alloc, map, rows, entries, asm.frames.as_slice(), areas)?;
    let last = map.stack.first + map.stack.size - 1;
    let image = image_from(alloc, map.core, program, items, &layout, last)?;
    let Layout {
        places,
        initials: _,
        frames,
        work,
    } = layout;
    Ok(Located {
        image,
        places,
        frames,
        work,
        code_bytes: (2 * code_words(items)) as u32,
    })
}

/// Places a program by a map.
///
/// Free static objects stand one after another in their regions, and others where the map says. Parameters and locals of a
/// function stand one after another from the greatest end of any caller's on, and its scratch memory likewise, so what
/// stands in one place is never of two functions that are active together. The code stands from address 0 on with its labels and the
/// places of objects put in, and the initial values of static objects stand in flash. A program is refused where a
/// region is too small, a place of the map has no object, or an object that the map places clashes, in this order.
pub fn place(
    alloc: Global,
    program: &Program,
    asm: &AsmProgram,
    map: &Map,
) -> Result<Located, PlaceStop>
    requires program { Valid (plain_program program.now) map.now.io }
    requires map { ValidMap map.now }
    requires asm { ValidAsm (object_sizes (plain_program program.now)) (work_size map.now.io) asm.now }
    requires frames { asm.now.frames.items ≡ scratch_needs (plain_program program.now) }
    requires items { length asm.now.items.items < 2 ^ 32 }
    ensures located { IfOk result (IsLocated (plain_program program.now) map.now asm.now) }
    ensures stopped { IfErr result (IsStop (plain_program program.now) map.now asm.now) }
{
    let objs = program.objs.as_slice();
    let entries = entries_of(alloc, program, map.places.as_slice())?;
    let rows = rows_of(alloc, program)?;
    let frames = asm.frames.as_slice();
    let areas = areas_of(alloc, rows.as_slice(), entries.as_slice(), frames)?;
    let depth = call_depth(alloc, rows.as_slice(), program.main)?;
    let needs = needs_of(&map.io, entries.as_slice(), asm, &areas, depth);
    refuse_short(map, needs)?;
    refuse_missing(alloc, objs, map.places.as_slice())?;
    refuse_clash(alloc, map, entries.as_slice(), objs)?;
    let located = locate(
        alloc,
        program,
        asm,
        map,
        rows.as_slice(),
        entries.as_slice(),
        areas,
    )?;
    Ok(located)
}
