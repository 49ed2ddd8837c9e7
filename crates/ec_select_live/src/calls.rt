//! What calls keep of the places that have registers.
ghost use Rattle.std.specs.Prelude.{◌≡◌, ◌<◌, ◌++◌, ◌∷◌, [], length, map, OnOk, IfOk};
ghost use Rattle.ec_ir.specs.Operations.{plain_ir};
ghost use Rattle.ec_ir_known.specs.Known.{right_numbers};
ghost use Rattle.ec_select_operations.specs.Code.{register_places};
ghost use Rattle.ec_select_operations.specs.Needs.{facts_of, without_result};
ghost use Rattle.ec_select_operations.specs.Written.{row_from, kept_row, kept_rows};
ghost use Rattle.ec_select_live.specs.Places.{HasPlaces, HavePlaces};
ghost use Rattle.ec_select_live.specs.Tables.{need_of, needs_of};

use crate::needs::before;
use crate::rows::clear;
use crate::table::{LabelNeeds, zeros};
use ec_ir::{Ir, Temp};
use ec_ir_known::RightNumber;
use ec_select_operations::{moves_pointer, number_at};
use ec_space::{NoMemory, Seq};
use std::alloc::Global;

/// The places that may have registers.
fn register_places(slots: usize) -> u8
    ensures { result ≡ register_places slots }
{
    if slots < 6 { slots as u8 } else { 6 }
}

/// The bytes of a place that are needed after a call, where it is not the result's.
fn kept_at(need: &[u8], to: Option<Temp>, place: u8) -> u8
    requires { place < length need.now }
    ensures { result ≡ without_result to (need_of need.now) place }
{
    let n = need[usize::from(place)];
    match to {
        Some(t) if t.at == u16::from(place) => 0,
        _ => n,
    }
}

fn push(row: &mut Vec<u8>, n: u8) -> Result<(), NoMemory>
    ensures { OnOk result (row.new.items ≡ row.old.items ++ n ∷ []) }
{
    match row.push(n) {
        Ok(()) => Ok(()),
        Err(_) => Err(NoMemory),
    }
}

/// What a call keeps.
fn row_of(alloc: Global, need: &[u8], to: Option<Temp>) -> Result<Vec<u8>, NoMemory>
    ensures { IfOk result (λ row. row.items
        ≡ row_from (register_places (length need.now)) 0 (without_result to (need_of need.now))) }
{
    let mut row = Vec::new(alloc);
    for place in 0..register_places(need.len()) {
        push(&mut row, kept_at(need, to, place))?;
    }
    Ok(row)
}

/// A row of one number.
fn row_with(alloc: Global, n: u8) -> Result<Vec<u8>, NoMemory>
    ensures { IfOk result (λ row. row.items ≡ n ∷ []) }
{
    let mut row = Vec::new(alloc);
    push(&mut row, n)?;
    Ok(row)
}

/// What a call keeps, or what is needed of the place of an index. The row of any other operation is empty.
fn kept_row(alloc: Global, need: &[u8], i: &Ir) -> Result<Vec<u8>, NoMemory>
    requires { HasPlaces (length need.now) (plain_ir i.now) }
    ensures { IfOk result (λ row. row.items
        ≡ kept_row (length need.now) (need_of need.now) (plain_ir i.now)) }
{
    match i {
        Ir::Call(_, to) => row_of(alloc, need, *to),
        Ir::Bin {
            op,
            aty,
            b,
            bty,
            ..
        } if moves_pointer(*op, aty, bty) => row_with(alloc, need[usize::from(b.at)]),
        _ => Ok(Vec::new(alloc)),
    }
}

/// So many empty rows.
fn empty_rows(alloc: Global, n: usize) -> Result<Vec<Vec<u8>>, NoMemory>
    ensures { IfOk result (λ rows. length rows.items ≡ n) }
{
    let mut rows = Vec::new(alloc);
    for _k in 0..n {
        match rows.push(Vec::new(alloc)) {
            Ok(()) => {}
            Err(_) => return Err(NoMemory),
        }
    }
    Ok(rows)
}

fn keep_all(
    alloc: Global,
    table: &LabelNeeds,
    in_flash: bool,
    code: &[Ir],
    numbers: &[Option<RightNumber>],
    need: &mut [u8],
    rows: &mut [Vec<u8>],
) -> Result<(), NoMemory>
    requires numbers { numbers.now ≡ right_numbers (map plain_ir code.now) }
    requires places { HavePlaces (length need.old) (map plain_ir code.now) }
    requires lengths { length rows.old ≡ length code.now }
    ensures { OnOk result (map (λ row. row.items) rows.new
        ≡ kept_rows (length need.old) (facts_of in_flash (needs_of table.now) (map plain_ir code.now)) (map plain_ir code.now)) }
{
    clear(need);
    for k in (0..code.len()).rev() {
        let i = &code[k];
        let number = number_at(numbers, k);
        rows[k] = kept_row(alloc, need, i)?;
        before(table, in_flash, number, i, need);
    }
    Ok(())
}

/// For each call a row of numbers: how many bytes it keeps of each of the first places, where so much is needed at the
/// labels, and second operands are known to hold these numbers. For each operation that moves a pointer one number: how
/// many bytes are needed behind it of the place of its index. The row of any other operation is empty.
pub fn kept(
    alloc: Global,
    table: &LabelNeeds,
    in_flash: bool,
    code: &Seq<Ir>,
    numbers: &[Option<RightNumber>],
    slots: u16,
) -> Result<Vec<Vec<u8>>, NoMemory>
    requires places { HavePlaces slots (map plain_ir code.now.items) }
    requires numbers { numbers.now ≡ right_numbers (map plain_ir code.now.items) }
    ensures { IfOk result (λ rows. map (λ row. row.items) rows.items
        ≡ kept_rows slots (facts_of in_flash (needs_of table.now) (map plain_ir code.now.items)) (map plain_ir code.now.items)) }
{
    let mut need = zeros(alloc, usize::from(slots))?;
    let mut rows = empty_rows(alloc, code.len())?;
    keep_all(
        alloc,
        table,
        in_flash,
        code.as_slice(),
        numbers,
        &mut need,
        &mut rows,
    )?;
    Ok(rows)
}
