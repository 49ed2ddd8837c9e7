//! Where frames begin, and the bytes that all need.
ghost use Rattle.std.specs.Prelude.{◌≡◌, ℕ, ◌^◌, ◌<◌, ◌≤◌, ◌==◌, max, if◌then◌else◌, All, IfOk, length};
ghost use Rattle.std.specs.Prelude.{replicate};
ghost use Rattle.std.specs.Prelude.{slice_index};
ghost use Rattle.ec_check_recursion.specs.Rows.{plain_rows};
ghost use Rattle.ec_overlay.specs.Chains.{has};
ghost use Rattle.ec_overlay.specs.Frames.{greatest_end, begin_of, need_of, IsArea};

use ec_space::{NoMemory, Seq};
use std::alloc::Global;

/// The frame of a function begins behind this end.
fn raise(function: u16, end: u64, begins: &mut [u64])
    ensures count { length begins.new ≡ length begins.old }
    ensures each { (f : ℕ) → f < length begins.old → slice_index begins.new f
        ≡ max (if function == f then end else 0) (slice_index begins.old f) }
{
    let place = usize::from(function);
    if place < begins.len() && begins[place] < end {
        begins[place] = end;
    }
}

/// So do those of all functions of a row.
fn raise_all(row: &[u16], end: u64, begins: &mut [u64])
    ensures count { length begins.new ≡ length begins.old }
    ensures each { (f : ℕ) → f < length begins.old → slice_index begins.new f
        ≡ max (if has row.now f then end else 0) (slice_index begins.old f) }
{
    for function in row {
        raise(*function, end, begins);
    }
}

/// So many numbers, each 0.
pub fn zeros(alloc: Global, count: usize) -> Result<Vec<u64>, NoMemory>
    ensures { IfOk result (λ made. made.items ≡ replicate count 0) }
{
    let mut made = Vec::new(alloc);
    for _place in 0..count {
        if made.push(0).is_err() {
            return Err(NoMemory);
        }
    }
    Ok(made)
}

/// Each frame at the greatest end of any caller's frame, where those begin so.
fn moved(
    alloc: Global,
    rows: &[Seq<u16>],
    sizes: &[u64],
    begins: &[u64],
) -> Result<Vec<u64>, NoMemory>
    requires count { length begins.now ≡ length rows.now }
    requires sizes { length sizes.now ≡ length rows.now }
    requires small { All (λ size. size ≤ 2 ^ 44) sizes.now }
    requires fits { All (λ begin. begin ≤ 2 ^ 60) begins.now }
    ensures count { IfOk result (λ made. length made.items ≡ length rows.now) }
    ensures each { IfOk result (λ made. (f : ℕ) → f < length rows.now → slice_index made.items f
        ≡ greatest_end (plain_rows rows.now) (slice_index sizes.now) (slice_index begins.now) f) }
{
    let mut made = zeros(alloc, rows.len())?;
    for (caller, row) in rows.iter().enumerate() {
        let end = begins[caller] + sizes[caller];
        raise_all(row.as_slice(), end, &mut made);
    }
    Ok(made)
}

/// Where the frame of each function begins, by what each calls and the bytes of each frame.
fn begins_of(alloc: Global, rows: &[Seq<u16>], sizes: &[u64]) -> Result<Vec<u64>, NoMemory>
    requires sizes { length sizes.now ≡ length rows.now }
    requires few { length rows.now ≤ 2 ^ 16 }
    requires small { All (λ size. size ≤ 2 ^ 44) sizes.now }
    ensures count { IfOk result (λ begins. length begins.items ≡ length rows.now) }
    ensures each { IfOk result (λ begins. (f : ℕ) → f < length rows.now → slice_index begins.items f
        ≡ begin_of (plain_rows rows.now) (slice_index sizes.now) f) }
{
    let mut begins = zeros(alloc, rows.len())?;
    for _round in 0..rows.len() {
        begins = moved(alloc, rows, sizes, &begins)?;
    }
    Ok(begins)
}

/// The bytes that all frames need.
fn need_of(rows: &[Seq<u16>], sizes: &[u64], begins: &[u64]) -> u64
    requires sizes { length sizes.now ≡ length rows.now }
    requires few { length rows.now ≤ 2 ^ 16 }
    requires small { All (λ size. size ≤ 2 ^ 44) sizes.now }
    requires count { length begins.now ≡ length rows.now }
    requires each { (f : ℕ) → f < length rows.now → slice_index begins.now f
        ≡ begin_of (plain_rows rows.now) (slice_index sizes.now) f }
    ensures value { result ≡ need_of (plain_rows rows.now) (slice_index sizes.now) }
    ensures bound { result ≤ 2 ^ 61 }
{
    let mut need = 0u64;
    for function in 0..begins.len() {
        let end = begins[function] + sizes[function];
        if need < end {
            need = end;
        }
    }
    need
}

/// Frames that are overlaid.
#[derive(Drop)]
pub struct Area {
    /// Where the frame of each function begins, from the first byte of the area on.
    pub begins: Vec<u64>,
    /// The bytes of the area.
    pub need: u64,
}

/// The area of the frames of some functions, by what each calls and the bytes of each frame, at most 2^44: each frame
/// begins at the greatest end of any caller's. It goes over all calls once for each function.
pub fn area_of(alloc: Global, rows: &[Seq<u16>], sizes: &[u64]) -> Result<Area, NoMemory>
    requires sizes { length sizes.now ≡ length rows.now }
    requires few { length rows.now ≤ 2 ^ 16 }
    requires small { All (λ size. size ≤ 2 ^ 44) sizes.now }
    ensures area { IfOk result (λ area. (size : ℕ → ℕ)
        → ((f : ℕ) → f < length rows.now → slice_index sizes.now f ≡ size f)
        → IsArea (plain_rows rows.now) size area.begins.items area.need) }
    ensures begins { IfOk result (λ area. All (λ begin. begin ≤ 2 ^ 60) area.begins.items) }
    ensures need { IfOk result (λ area. area.need ≤ 2 ^ 61) }
{
    let begins = begins_of(alloc, rows, sizes)?;
    let need = need_of(rows, sizes, &begins);
    Ok(Area { begins, need })
}
