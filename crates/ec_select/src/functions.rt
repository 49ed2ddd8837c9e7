//! The code of the functions of a program, and of the routines that they call.
ghost use Rattle.std.specs.Prelude.{◌≡◌, ◌++◌, ◌+◌, ◌^◌, ◌<◌, ◌==◌, map, length, IfOk, OnOk, Some, slice_get};
ghost use Rattle.std.specs.List.{AllByRecursion};
ghost use Rattle.ec_ir.specs.Operations.{plain_ir, plain_ir_function, plain_ir_program};
ghost use Rattle.ec_select.specs.Labels.{homes_of, label_count, first_label};
ghost use Rattle.ec_select.specs.Program.{code_of, functions_with};
ghost use Rattle.ec_select.specs.Seen.{plain_row, row_operation, tables_in, HasRoutine};
ghost use Rattle.ec_select.specs.Selected.{ValidWithCells, HasCode, AreWritten};
ghost use Rattle.ec_select.specs.Sharing.{routine_among, routines_begin};
ghost use Rattle.ec_select_live.specs.Tables.{needs_of};

use crate::labels::{homes_of, label_count};
use crate::routines::{add_routines, routines_of};
use crate::sharing::{Row, rows_of};
use crate::tables::tables_of;
use crate::uses::uses_of;
use ec_asm::AsmItem;
use ec_core::leaves_fill_their_types;
use ec_ir::{IrFunc, IrProgram};
use ec_ir_known::{RightNumber, right_numbers};
use ec_select_live::{LabelNeeds, kept, valid_operations_have_places, wanted};
use ec_select_operations::{Linking, function, has_tables, needed_functions_are_written};
use ec_space::{Core, NoMemory, Seq};
use std::alloc::Global;

/// How the code of the function with a number, for a core, is put together with that of the others, where `first` is the
/// label of items for its label 0.
fn linking(ir: &IrProgram, core: Core, f: u16, g: &IrFunc, first: u64) -> Linking
    requires { f < 256 }
    ensures { result ≡ record {
      core = core;
      first_label = first;
      first_entry = 1;
      homes = homes_of f (map plain_ir g.now.code.items);
      slots = g.now.slots;
      is_main = f == ir.now.main;
    } }
{
    Linking {
        core,
        first_label: first,
        first_entry: 1,
        homes: homes_of(f, g.code.as_slice()),
        slots: g.slots,
        is_main: f == ir.main,
    }
}

/// Appends the code of the function with a number for a core, by a table of what is needed at its labels, and by rows of shapes
/// whose routines have labels from a number on.
fn add_function(
    alloc: Global,
    out: &mut Seq<AsmItem>,
    ir: &IrProgram,
    core: Core,
    f: u16,
    g: &IrFunc,
    first: u64,
    table: &LabelNeeds,
    rows: &[Row],
    routines: u64,
) -> Result<(), NoMemory>
    requires valid { ValidWithCells (plain_ir_program ir.now) }
    requires code { HasCode (plain_ir_program ir.now) }
    requires is { slice_get (plain_ir_program ir.now).functions f ≡ Some (plain_ir_function g.now) }
    requires first { first ≡ first_label (plain_ir_program ir.now).functions f }
    requires room { first + label_count (map plain_ir g.now.code.items) < 2 ^ 64 }
    requires labels { routines + length rows.now < 2 ^ 64 }
    requires each { AllByRecursion HasRoutine (map row_operation rows.now) }
    ensures { OnOk result (out.new.items ≡ out.old.items ++ code_of core (plain_ir_program ir.now)
        (routine_among routines (map plain_row rows.now)) (needs_of table.now) f (Some (plain_ir_function g.now))) }
{
    leaves_fill_their_types();
    valid_operations_have_places();
    needed_functions_are_written();
    let of = linking(ir, core, f, g, first);
    let known = right_numbers(alloc, &g.code, g.slots)?;
    let numbers: &[Option<RightNumber>] = &known;
    let in_flash = has_tables(ir);
    let bytes = wanted(alloc, table, in_flash, &g.code, numbers, g.slots)?;
    let keeps = kept(alloc, table, in_flash, &g.code, numbers, g.slots)?;
    let code = g.code.as_slice();
    let called = routines_of(alloc, rows, routines, code)?;
    function(out, ir, of, f, code, &bytes, &keeps, numbers, &called)?;
    Ok(())
}

/// The label of items for label 0 of the next function.
fn next_label(first: u64, g: &IrFunc) -> Result<u64, NoMemory>
    ensures { IfOk result (λ next. next ≡ first + label_count (map plain_ir g.now.code.items)) }
{
    let count = label_count(g.code.as_slice())?;
    match first.checked_add(count) {
        Some(next) => Ok(next),
        None => Err(NoMemory),
    }
}

/// The label behind those of all functions, where so many routines have labels from there on.
fn routines_begin(ir: &IrProgram, count: usize) -> Result<u64, NoMemory>
    requires { ValidWithCells (plain_ir_program ir.now) }
    ensures is { IfOk result (λ begin. begin ≡ routines_begin (plain_ir_program ir.now)) }
    ensures room { IfOk result (λ begin. begin + count < 2 ^ 64) }
{
    let mut begin = 1 + ir.funcs.len() as u64;
    for g in ir.funcs.as_slice() {
        begin = next_label(begin, g)?;
    }
    match begin.checked_add(count as u64) {
        Some(_) => Ok(begin),
        None => Err(NoMemory),
    }
}

/// Appends the code of all functions of a program for a core.
fn add_functions(
    alloc: Global,
    out: &mut Seq<AsmItem>,
    ir: &IrProgram,
    core: Core,
    tables: &[LabelNeeds],
    rows: &[Row],
    routines: u64,
) -> Result<(), NoMemory>
    requires valid { ValidWithCells (plain_ir_program ir.now) }
    requires code { HasCode (plain_ir_program ir.now) }
    requires tables { length tables.now ≡ length ir.now.funcs.items }
    requires labels { routines + length rows.now < 2 ^ 64 }
    requires each { AllByRecursion HasRoutine (map row_operation rows.now) }
    ensures { OnOk result (out.new.items ≡ out.old.items ++ functions_with core (plain_ir_program ir.now)
        (routine_among routines (map plain_row rows.now)) (tables_in tables.now) (length ir.now.funcs.items)) }
{
    let mut first = 1 + ir.funcs.len() as u64;
    for (f, g) in ir.funcs.as_slice().iter().enumerate() {
        let next = next_label(first, g)?;
        add_function(
            alloc, out, ir, core, f as u16, g, first, &tables[f], rows, routines,
        )?;
        first = next;
    }
    Ok(())
}

/// Appends the code of all functions of a program for a core, and the routines of the shapes that stand once.
pub(crate) fn add_code(
    alloc: Global,
    out: &mut Seq<AsmItem>,
    ir: &IrProgram,
    core: Core,
) -> Result<(), NoMemory>
    requires valid { ValidWithCells (plain_ir_program ir.now) }
    requires code { HasCode (plain_ir_program ir.now) }
    ensures { OnOk result (AreWritten core (plain_ir_program ir.now) out.old.items out.new.items) }
{
    let tables = tables_of(alloc, ir)?;
    let uses = uses_of(alloc, ir, core, &tables)?;
    let rows = rows_of(alloc, &uses)?;
    let first = routines_begin(ir, rows.len())?;
    add_functions(alloc, out, ir, core, &tables, &rows, first)?;
    add_routines(out, &rows, first)?;
    Ok(())
}
