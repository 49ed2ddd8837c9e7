//! Which functions a function reaches by calls.
ghost use Rattle.std.specs.Prelude.{◌≡◌, ℕ, ◌<◌, ◌↔◌, false, [], ◌∷◌, IsTrue, OnOk, IfOk, IfSome, IfNone, length};
ghost use Rattle.std.specs.Prelude.{replicate};
ghost use Rattle.ec_check_recursion.specs.Rows.{plain_rows, LeadsTo, AreReached, AreNoted, IsSearch, IsFirst};

use crate::rows::{calls_at, calls_by_number};
use ec_space::{NoMemory, Seq};
use std::alloc::Global;

/// Marks a function, and lets it wait where it was not marked.
fn note(function: u16, marks: &mut [bool], waiting: &mut Vec<u16>) -> Result<(), NoMemory>
    ensures { OnOk result (AreNoted (function ∷ []) marks.old marks.new waiting.old.items waiting.new.items) }
{
    let place = usize::from(function);
    if place < marks.len() && !marks[place] {
        marks[place] = true;
        if waiting.push(function).is_err() {
            return Err(NoMemory);
        }
    }
    Ok(())
}

/// The same of each function of a row.
fn note_all(row: &[u16], marks: &mut [bool], waiting: &mut Vec<u16>) -> Result<(), NoMemory>
    ensures { OnOk result (AreNoted row.now marks.old marks.new waiting.old.items waiting.new.items) }
{
    for function in row {
        note(*function, marks, waiting)?;
    }
    Ok(())
}

/// No function marked.
fn unmarked(alloc: Global, count: usize) -> Result<Vec<bool>, NoMemory>
    ensures { IfOk result (λ marks. marks.items ≡ replicate count false) }
{
    let mut marks = Vec::new(alloc);
    for _place in 0..count {
        if marks.push(false).is_err() {
            return Err(NoMemory);
        }
    }
    Ok(marks)
}

/// Goes on from the functions that wait, until none does.
fn go_on(rows: &[Seq<u16>], marks: &mut [bool], waiting: &mut Vec<u16>) -> Result<(), NoMemory>
    ensures { OnOk result ((f : ℕ) → IsSearch (plain_rows rows.now) f marks.old waiting.old.items
        → AreReached (plain_rows rows.now) f marks.new) }
{
    while let Some(function) = waiting.pop() {
        note_all(calls_by_number(rows, function), marks, waiting)?;
    }
    Ok(())
}

/// Whether a function leads to itself, where none is marked yet.
fn leads_back(
    alloc: Global,
    rows: &[Seq<u16>],
    function: usize,
    marks: &mut [bool],
) -> Result<bool, NoMemory>
    requires within { function < length rows.now }
    requires unmarked { marks.old ≡ replicate (length rows.now) false }
    ensures { IfOk result (λ found. IsTrue found ↔ LeadsTo (plain_rows rows.now) function function) }
{
    let mut waiting = Vec::new(alloc);
    note_all(calls_at(rows, function), marks, &mut waiting)?;
    go_on(rows, marks, &mut waiting)?;
    Ok(marks[function])
}

/// Whether a function reaches itself.
fn reaches_itself(alloc: Global, rows: &[Seq<u16>], function: usize) -> Result<bool, NoMemory>
    requires { function < length rows.now }
    ensures { IfOk result (λ found. IsTrue found ↔ LeadsTo (plain_rows rows.now) function function) }
{
    let mut marks = unmarked(alloc, rows.len())?;
    let found = leads_back(alloc, rows, function, &mut marks)?;
    Ok(found)
}

/// The first function that reaches itself.
pub(crate) fn first_of(alloc: Global, rows: &[Seq<u16>]) -> Result<Option<usize>, NoMemory>
    ensures found { IfOk result (λ r. IfSome r (IsFirst (plain_rows rows.now))) }
    ensures none { IfOk result (λ r. IfNone r ((f : ℕ) → ¬ LeadsTo (plain_rows rows.now) f f)) }
{
    for function in 0..rows.len() {
        if reaches_itself(alloc, rows, function)? {
            return Ok(Some(function));
        }
    }
    Ok(None)
}
