//! Which functions main reaches by calls.
ghost use Rattle.std.specs.Prelude.{◌≡◌, ◌||◌, [], ◌∷◌, false, IfOk, length, replicate, slice_index_or};
ghost use Rattle.ec_core.specs.Plain.{PlainProgram};
ghost use Rattle.ec_check_recursion.specs.Rows.{plain_rows, row_at, rows_of_program};
ghost use Rattle.ec_core_steps.specs.Reached.{AreMarked, IsSpreadFrom, IsSpread, IsClosed, MarkReached};

use ec_space::{NoMemory, Seq};
use std::alloc::Global;

/// Marks a function. Whether it was not marked.
fn mark(function: u16, marks: &mut [bool]) -> bool
    ensures { AreMarked (function ∷ []) marks.old marks.new result }
{
    let place = usize::from(function);
    if place < marks.len() && !marks[place] {
        marks[place] = true;
        true
    } else {
        false
    }
}

fn either(a: bool, b: bool) -> bool
    ensures { result ≡ a || b }
{
    a || b
}

/// Marks each function of a row. Whether one of them was not marked.
fn mark_all(row: &[u16], marks: &mut [bool]) -> bool
    ensures { AreMarked row.now marks.old marks.new result }
{
    let mut grown = false;
    for function in row {
        let more = mark(*function, marks);
        grown = either(grown, more);
    }
    grown
}

fn is_marked(marks: &[bool], function: usize) -> bool
    ensures { result ≡ slice_index_or marks.now function false }
{
    match marks.get(function) {
        Some(marked) => *marked,
        None => false,
    }
}

/// What a function calls.
fn row_at(rows: &[Seq<u16>], function: usize) -> &[u16]
    ensures { result.now ≡ row_at (plain_rows rows.now) function }
{
    match rows.get(function) {
        Some(row) => row.as_slice(),
        None => &[],
    }
}

/// Marks what a function calls, where it is marked itself. Whether one of these was not marked.
fn spread_from(function: usize, row: &[u16], marks: &mut [bool]) -> bool
    ensures { IsSpreadFrom function row.now marks.old marks.new result }
{
    if is_marked(marks, function) {
        mark_all(row, marks)
    } else {
        false
    }
}

/// Marks what the marked functions call. Whether one of these was not marked.
fn spread(rows: &[Seq<u16>], marks: &mut [bool]) -> bool
    ensures { IsSpread (plain_rows rows.now) (length rows.now) marks.old marks.new result }
{
    let mut grown = false;
    for function in 0..rows.len() {
        let more = spread_from(function, row_at(rows, function), marks);
        grown = either(grown, more);
    }
    grown
}

/// Marks all that the marked functions reach.
fn spread_out(rows: &[Seq<u16>], marks: &mut [bool])
    ensures { IsClosed (plain_rows rows.now) marks.old marks.new }
{
    let mut grown = true;
    while grown {
        grown = spread(rows, marks);
    }
}

/// No function marked.
pub(crate) fn unmarked(alloc: Global, count: usize) -> Result<Vec<bool>, NoMemory>
    ensures { IfOk result (λ marks. marks.items ≡ replicate count false) }
{
    let mut marks = Vec::new(alloc);
    for _place in 0..count {
        if marks.push(false).is_err() {
            return Err(NoMemory);
        }
    }
    Ok(marks)
}

/// Marks main and what it reaches, where none is marked yet.
pub(crate) fn mark_reached(main: u16, rows: &[Seq<u16>], marks: &mut [bool])
    requires { marks.old ≡ replicate (length rows.now) false }
    ensures { (p : PlainProgram) → plain_rows rows.now ≡ rows_of_program p → p.main ≡ main → MarkReached p marks.new }
{
    mark(main, marks);
    spread_out(rows, marks);
}
