//! Routines, and the labels by which operations call them.
ghost use Rattle.std.specs.Prelude.{◌≡◌, ◌+◌, ◌^◌, ◌<◌, ◌++◌, map, length, IfOk, OnOk};
ghost use Rattle.std.specs.List.{AllByRecursion};
ghost use Rattle.ec_ir.specs.Operations.{plain_ir};
ghost use Rattle.ec_select.specs.Seen.{plain_row, row_operation, HasRoutine};
ghost use Rattle.ec_select.specs.Sharing.{label_where, routine_among, routines_among, row_routine};

use crate::shapes::{is_shaped, same_shape};
use crate::sharing::Row;
use ec_asm::AsmItem;
use ec_ir::Ir;
use ec_select_operations::routine;
use ec_space::{NoMemory, Seq, push};
use std::alloc::Global;

fn label_where(once: bool, label: u64) -> Option<u64>
    ensures { result ≡ label_where once label }
{
    if once { Some(label) } else { None }
}

/// The label of the routine, if there is one, that an operation calls, where those of rows begin at a number.
fn routine_of(rows: &[Row], first: u64, i: &Ir) -> Option<u64>
    requires room { first + length rows.now < 2 ^ 64 }
    requires each { AllByRecursion HasRoutine (map row_operation rows.now) }
    ensures { result ≡ routine_among first (map plain_row rows.now) (plain_ir i.now) }
{
    if !is_shaped(i) {
        return None;
    }
    for k in 0..rows.len() {
        let row = &rows[k];
        if same_shape(row.operation, i) {
            return label_where(row.once, first + k as u64);
        }
    }
    None
}

/// So for each of several operations.
pub(crate) fn routines_of(
    alloc: Global,
    rows: &[Row],
    first: u64,
    code: &[Ir],
) -> Result<Vec<Option<u64>>, NoMemory>
    requires room { first + length rows.now < 2 ^ 64 }
    requires each { AllByRecursion HasRoutine (map row_operation rows.now) }
    ensures { IfOk result (λ routines. routines.items
        ≡ map (routine_among first (map plain_row rows.now)) (map plain_ir code.now)) }
{
    let mut routines = Vec::new(alloc);
    for i in code {
        push(&mut routines, routine_of(rows, first, i))?;
    }
    Ok(routines)
}

fn add_routine(out: &mut Seq<AsmItem>, row: &Row, label: u64) -> Result<(), NoMemory>
    requires { HasRoutine (row_operation row.now) }
    ensures { OnOk result (out.new.items ≡ out.old.items ++ row_routine label (plain_row row.now)) }
{
    if row.once {
        routine(out, label, row.operation)?;
    }
    Ok(())
}

/// Appends the routines of the shapes that stand once.
pub(crate) fn add_routines(out: &mut Seq<AsmItem>, rows: &[Row], first: u64) -> Result<(), NoMemory>
    requires room { first + length rows.now < 2 ^ 64 }
    requires each { AllByRecursion HasRoutine (map row_operation rows.now) }
    ensures { OnOk result (out.new.items ≡ out.old.items ++ routines_among first (map plain_row rows.now)) }
{
    for k in 0..rows.len() {
        add_routine(out, &rows[k], first + k as u64)?;
    }
    Ok(())
}
