//! How many functions are active at once.
ghost use Rattle.std.specs.Prelude.{◌≡◌, ◌+◌, ◌≤◌, ◌<◌, ◌^◌, max, map, length, All, slice_index, IfOk};
ghost use Rattle.ec_check_recursion.specs.Rows.{plain_rows};
ghost use Rattle.ec_locate.specs.Calls.{deepest, chains};

use ec_space::{NoMemory, Seq};
use std::alloc::Global;

/// The depth of a function.
fn depth_of(depths: &[u32], function: u16) -> u32
    ensures { result ≡ slice_index depths.now function }
{
    match depths.get(usize::from(function)) {
        Some(depth) => *depth,
        None => 0,
    }
}

/// The greater of a depth and that of a function.
fn with_call(depths: &[u32], best: u32, function: u16) -> u32
    ensures { result ≡ max best (slice_index depths.now function) }
{
    let depth = depth_of(depths, function);
    if best < depth { depth } else { best }
}

/// The greatest depth of the functions of a row.
fn deepest(depths: &[u32], row: &[u16]) -> u32
    ensures { result ≡ deepest depths.now row.now }
{
    let mut best = 0u32;
    for function in row {
        best = with_call(depths, best, *function);
    }
    best
}

/// The lengths of chains that have one function more.
fn longer(alloc: Global, rows: &[Seq<u16>], depths: &[u32]) -> Result<Seq<u32>, NoMemory>
    requires { All (λ depth. depth ≤ 4_294_967_294) depths.now }
    ensures { IfOk result (λ made. made.items ≡ map (λ row. 1 + deepest depths.now row.items) rows.now) }
{
    let mut made = Seq::new(alloc);
    for row in rows {
        made.push(1 + deepest(depths, row.as_slice()))?;
    }
    Ok(made)
}

/// For each function, how many functions stand on the longest chain of calls that begins with it.
fn depths_of(alloc: Global, rows: &[Seq<u16>]) -> Result<Seq<u32>, NoMemory>
    requires { length rows.now < 2 ^ 31 }
    ensures { IfOk result (λ depths. depths.items ≡ chains (length rows.now) (plain_rows rows.now)) }
{
    let mut depths = Seq::filled(alloc, rows.len(), 0)?;
    for _round in 0..rows.len() {
        depths = longer(alloc, rows, depths.as_slice())?;
    }
    Ok(depths)
}

/// How many functions stand on the longest chain of calls from main, main included.
pub(crate) fn call_depth(alloc: Global, rows: &[Seq<u16>], main: u16) -> Result<u32, NoMemory>
    requires { length rows.now < 2 ^ 31 }
    ensures { IfOk result (λ depth. depth ≡ slice_index (chains (length rows.now) (plain_rows rows.now)) main) }
{
    let depths = depths_of(alloc, rows)?;
    Ok(depth_of(depths.as_slice(), main))
}
