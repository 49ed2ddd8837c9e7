//! The frames of functions: parameters and locals, and scratch memory, both overlaid by the calls.
ghost use Rattle.std.specs.Prelude.{◌≡◌, ℕ, ◌+◌, ◌==◌, ◌<◌, ◌≤◌, ◌^◌, if◌then◌else◌, All, IfOk, length};
ghost use Rattle.std.specs.Prelude.{map, slice_index};
ghost use Rattle.ec_check_recursion.specs.Rows.{plain_rows};
ghost use Rattle.ec_overlay.specs.Objects.{bytes_in};
ghost use Rattle.ec_locate.specs.Areas.{AreAreas};
ghost use Rattle.ec_locate.specs.Entries.{frame_of, frame_size, local_size};

use crate::entries::{Entry, Kept};
use ec_overlay::{Area, area_of, zeros};
use ec_space::{NoMemory, Seq};
use std::alloc::Global;

/// The areas of frames.
#[derive(Drop)]
pub struct Areas {
    /// The parameters and locals of each function.
    pub locals: Area,
    /// The scratch memory of each function.
    pub scratch: Area,
}

/// The frame of a function has so many bytes more.
fn add(used: &mut [u64], function: u16, size: u32)
    requires { All (λ bytes. bytes ≤ 2 ^ 61) used.old }
    ensures count { length used.new ≡ length used.old }
    ensures each { (f : ℕ) → f < length used.old → slice_index used.new f
        ≡ slice_index used.old f + (if function == f then size else 0) }
    ensures below { (f : ℕ) → f < length used.old → slice_index used.new f ≤ slice_index used.old f + 2 ^ 32 }
{
    let place = usize::from(function);
    if place < used.len() {
        used[place] += u64::from(size);
    }
}

/// An object takes its bytes of the frame that it is kept in.
pub(crate) fn take(used: &mut [u64], entry: Entry)
    requires { All (λ bytes. bytes ≤ 2 ^ 61) used.old }
    ensures count { length used.new ≡ length used.old }
    ensures each { (f : ℕ) → f < length used.old → slice_index used.new f
        ≡ slice_index used.old f + bytes_in f (frame_of entry.kept) entry.size }
    ensures below { (f : ℕ) → f < length used.old → slice_index used.new f ≤ slice_index used.old f + 2 ^ 32 }
{
    match entry.kept {
        Kept::InFrame(function) => add(used, function, entry.size),
        Kept::Packed | Kept::Fixed(_) | Kept::Register(_) => {}
    }
}

/// So do all objects.
fn take_all(used: &mut [u64], entries: &[Entry])
    requires few { length entries.now < 2 ^ 12 }
    requires small { All (λ bytes. bytes ≤ 2 ^ 60) used.old }
    ensures count { length used.new ≡ length used.old }
    ensures each { (f : ℕ) → f < length used.old → slice_index used.new f
        ≡ slice_index used.old f + local_size entries.now f }
    ensures below { (f : ℕ) → f < length used.old → slice_index used.new f ≤ slice_index used.old f + 2 ^ 44 }
{
    for entry in entries {
        take(used, *entry);
    }
}

/// The bytes of the parameters and locals of each of some functions.
fn local_sizes(alloc: Global, entries: &[Entry], functions: usize) -> Result<Vec<u64>, NoMemory>
    requires { length entries.now < 2 ^ 12 }
    ensures count { IfOk result (λ sizes. length sizes.items ≡ functions) }
    ensures each { IfOk result (λ sizes. (f : ℕ) → f < functions → slice_index sizes.items f ≡ local_size entries.now f) }
    ensures small { IfOk result (λ sizes. (f : ℕ) → f < functions → slice_index sizes.items f ≤ 2 ^ 44) }
{
    let mut sizes = zeros(alloc, functions)?;
    take_all(&mut sizes, entries);
    Ok(sizes)
}

/// The bytes of the scratch memory of each function, by their sixteenth parts.
fn scratch_sizes(alloc: Global, frames: &[u16]) -> Result<Vec<u64>, NoMemory>
    ensures { IfOk result (λ sizes. sizes.items ≡ map frame_size frames.now) }
{
    let mut sizes = Vec::new(alloc);
    for frame in frames {
        if sizes.push(16 * u64::from(*frame)).is_err() {
            return Err(NoMemory);
        }
    }
    Ok(sizes)
}

/// The areas of the functions of a program, by what each calls.
pub(crate) fn areas_of(
    alloc: Global,
    rows: &[Seq<u16>],
    entries: &[Entry],
    frames: &[u16],
) -> Result<Areas, NoMemory>
    requires entries { length entries.now < 2 ^ 12 }
    requires functions { length rows.now ≤ 2 ^ 16 }
    requires frames { length frames.now ≡ length rows.now }
    ensures areas { IfOk result (AreAreas (plain_rows rows.now) entries.now frames.now) }
    ensures begins { IfOk result (λ areas. All (λ begin. begin ≤ 2 ^ 60) areas.locals.begins.items) }
    ensures locals { IfOk result (λ areas. areas.locals.need ≤ 2 ^ 61) }
    ensures scratch { IfOk result (λ areas. areas.scratch.need ≤ 2 ^ 61) }
{
    let local_sizes = local_sizes(alloc, entries, rows.len())?;
    let scratch_sizes = scratch_sizes(alloc, frames)?;
    let locals = area_of(alloc, rows, &local_sizes)?;
    let scratch = area_of(alloc, rows, &scratch_sizes)?;
    Ok(Areas { locals, scratch })
}
