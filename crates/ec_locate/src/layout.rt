//! Where objects, initial bytes, scratch memory and work bytes stand.
ghost use Rattle.std.specs.Prelude.{◌≡◌, ℕ, ◌+◌, ◌<◌, ◌≤◌, ◌^◌, Some, All, IfOk, length, map, slice_index};
ghost use Rattle.ec_check_recursion.specs.Rows.{plain_rows};
ghost use Rattle.ec_overlay.specs.Chains.{NothingRecurs};
ghost use Rattle.ec_overlay.specs.Objects.{bytes_before};
ghost use Rattle.ec_locate.specs.Areas.{IsKeptBelow, AreAreas};
ghost use Rattle.ec_locate.specs.Entries.{flash_sizes, far_sizes, data_sizes, initial_sizes, frame_of, owned_of, local_size};
ghost use Rattle.ec_locate.specs.Layout.{place_by, places_from, initial_at, initials_from, work_area, layout};
ghost use Rattle.ec_locate.specs.Code.{layout_view};

use crate::entries::{
    Entry, Kept, data_size, data_sizes, far_size, flash_size, flash_sizes, initial_size,
};
use crate::frames::{Areas, take};
use ec_map::{Map, Region};
use ec_overlay::frames_are_overlaid;
use ec_space::{Bank, Home, NoMemory, Place, Seq};
use std::alloc::Global;

/// Where objects, initial bytes, scratch memory and work bytes stand.
#[derive(Drop)]
pub struct Layout {
    /// The place of each object.
    pub places: Seq<Place>,
    /// The flash address of the initial bytes of each object.
    pub initials: Seq<u32>,
    /// The data address of the scratch memory of each function.
    pub frames: Seq<u32>,
    /// The data address of the work bytes.
    pub work: u32,
}

/// The end of a frame so far, by its function; 0 where there is no such function.
fn end_of(ends: &[u64], function: u16) -> u64
    ensures { result ≡ slice_index ends.now function }
{
    match ends.get(usize::from(function)) {
        Some(end) => *end,
        None => 0,
    }
}

/// The address where a frame goes on in an area.
fn frame_at(area: u32, ends: &[u64], function: u16) -> u32
    requires { area + slice_index ends.now function < 2 ^ 32 }
    ensures { result ≡ area + slice_index ends.now function }
{
    (u64::from(area) + end_of(ends, function)) as u32
}

/// The place of an object, where its region goes on at `flash`, at `far` or at `at`, and each frame at its end so far in an
/// area.
fn place_by(entry: Entry, flash: u32, far: u32, at: u32, area: u32, ends: &[u64]) -> Place
    requires { (f : ℕ) → frame_of entry.kept ≡ Some f → area + slice_index ends.now f < 2 ^ 32 }
    ensures { result ≡ place_by entry.kept entry.home flash far at (λ f. area + slice_index ends.now f) }
{
    match entry.kept {
        Kept::Register(first) => Place {
            bank: Bank::Data,
            offset: u32::from(first),
        },
        Kept::Fixed(there) => Place {
            bank: entry.home.bank(),
            offset: there,
        },
        Kept::Packed => Place {
            bank: entry.home.bank(),
            offset: match entry.home {
                Home::Flash => flash,
                Home::Far => far,
                Home::Data => at,
            },
        },
        Kept::InFrame(function) => Place {
            bank: entry.home.bank(),
            offset: frame_at(area, ends, function),
        },
    }
}

/// Free static objects stand one after another in their regions, from these addresses on, and parameters and locals in the
/// frames of their functions, each from its end so far on.
pub(crate) fn places_from(
    alloc: Global,
    entries: &[Entry],
    flash: u32,
    far: u32,
    at: u32,
    area: u32,
    ends: &mut [u64],
) -> Result<Seq<Place>, NoMemory>
    requires flash_fits { flash + flash_sizes entries.now < 2 ^ 32 }
    requires far_fits { far + far_sizes entries.now < 2 ^ 32 }
    requires data_fits { at + data_sizes entries.now < 2 ^ 32 }
    requires few { length entries.now < 2 ^ 12 }
    requires known { All (λ entry. IsKeptBelow (length ends.old) entry.kept) entries.now }
    requires begins { All (λ begin. begin ≤ 2 ^ 60) ends.old }
    requires frames_fit { (f : ℕ) → f < length ends.old
        → area + slice_index ends.old f + local_size entries.now f < 2 ^ 32 }
    ensures { IfOk result (λ places. places.items ≡ places_from flash far at
        (λ f i. area + (slice_index ends.old f + bytes_before f i (map owned_of entries.now))) 0 entries.now) }
{
    let mut places = Seq::new(alloc);
    let mut next_flash = flash;
    let mut next_far = far;
    let mut next_at = at;
    for entry in entries {
        places.push(place_by(*entry, next_flash, next_far, next_at, area, ends))?;
        next_flash += flash_size(*entry);
        next_far += far_size(*entry);
        next_at += data_size(*entry);
        take(ends, *entry);
    }
    Ok(places)
}

fn initial_at(entry: Entry, first: u32, at: u32) -> u32
    ensures { result ≡ initial_at entry.is_static entry.home first at }
{
    match entry.home {
        Home::Data => if entry.is_static { at } else { first },
        Home::Flash | Home::Far => first,
    }
}

/// Initial bytes stand one after another, from an address on.
pub(crate) fn initials_from(
    alloc: Global,
    entries: &[Entry],
    first: u32,
    at: u32,
) -> Result<Seq<u32>, NoMemory>
    requires { at + initial_sizes entries.now < 2 ^ 32 }
    ensures { IfOk result (λ initials. initials.items ≡ initials_from first at entries.now) }
{
    let mut initials = Seq::new(alloc);
    let mut next = at;
    for entry in entries {
        initials.push(initial_at(*entry, first, next))?;
        next += initial_size(*entry);
    }
    Ok(initials)
}

/// The scratch memory of each function stands where its frame begins in an area.
pub(crate) fn frames_from(alloc: Global, area: u32, begins: &[u64]) -> Result<Seq<u32>, NoMemory>
    requires { All (λ begin. area + begin < 2 ^ 32) begins.now }
    ensures { IfOk result (λ made. made.items ≡ map (λ begin. area + begin) begins.now) }
{
    let mut made = Seq::new(alloc);
    for begin in begins {
        made.push((u64::from(area) + *begin) as u32)?;
    }
    Ok(made)
}

/// The first address of a region, which has 32 bits.
fn first_of(region: Region) -> u32
    ensures value { result ≡ region.first }
    ensures fits { result < 2 ^ 32 }
{
    region.first
}

/// The layout of a program by the regions of a map.
pub(crate) fn layout_of(
    alloc: Global,
    map: &Map,
    rows: &[Seq<u16>],
    entries: &[Entry],
    frames: &[u16],
    areas: Areas,
) -> Result<Layout, NoMemory>
    requires objects { length entries.now < 2 ^ 12 }
    requires functions { length frames.now ≡ length rows.now }
    requires known { All (λ entry. IsKeptBelow (length rows.now) entry.kept) entries.now }
    requires never { NothingRecurs (plain_rows rows.now) }
    requires areas { AreAreas (plain_rows rows.now) entries.now frames.now areas }
    requires begins { All (λ begin. begin ≤ 2 ^ 60) areas.locals.begins.items }
    requires flash { map.now.tables.first + flash_sizes entries.now + initial_sizes entries.now < 2 ^ 32 }
    requires far { map.now.far.first < 2 ^ 32 → map.now.far.first + far_sizes entries.now < 2 ^ 32 }
    requires ram { work_area map.now (plain_rows rows.now) entries.now frames.now < 2 ^ 32 }
    ensures { IfOk result (λ made. layout_view made ≡ layout map.now (plain_rows rows.now) entries.now frames.now) }
{
    frames_are_overlaid();
    let flash = map.tables.first;
    let values = flash + flash_sizes(entries) as u32;
    let local_area = map.vars.first + data_sizes(entries) as u32;
    let Areas { locals, scratch } = areas;
    let scratch_area = local_area + locals.need as u32;
    let work = scratch_area + scratch.need as u32;
    let mut ends = locals.begins;
    let vars = map.vars.first;
    let far = first_of(map.far);
    let places = places_from(alloc, entries, flash, far, vars, local_area, &mut ends)?;
    let initials = initials_from(alloc, entries, flash, values)?;
    let frames = frames_from(alloc, scratch_area, &scratch.begins)?;
    Ok(Layout {
        places,
        initials,
        frames,
        work,
    })
}
