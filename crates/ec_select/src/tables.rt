//! What is needed at the labels of each function.
ghost use Rattle.std.specs.Prelude.{◌≡◌, length, IfOk, Some, slice_get};
ghost use Rattle.ec_ir.specs.Operations.{data_of, plain_ir_function, plain_ir_program};
ghost use Rattle.ec_select.specs.Seen.{tables_in};
ghost use Rattle.ec_select.specs.Selected.{ValidWithCells, AreTables};
ghost use Rattle.ec_select_live.specs.Least.{IsLeast};
ghost use Rattle.ec_select_live.specs.Tables.{needs_of};
ghost use Rattle.ec_select_operations.specs.Needs.{IsLive};
ghost use Rattle.ec_select_operations.specs.Pointers.{has_tables};

use ec_ir::{IrFunc, IrProgram};
use ec_ir_known::{RightNumber, right_numbers};
use ec_select_live::{LabelNeeds, live, valid_operations_have_places};
use ec_select_operations::has_tables;
use ec_space::{NoMemory, push};
use std::alloc::Global;

/// The table of the function with a number.
fn table_of(alloc: Global, ir: &IrProgram, f: u16, g: &IrFunc) -> Result<LabelNeeds, NoMemory>
    requires valid { ValidWithCells (plain_ir_program ir.now) }
    requires is { slice_get (plain_ir_program ir.now).functions f ≡ Some (plain_ir_function g.now) }
    ensures live { IfOk result (λ table. IsLive (has_tables (data_of (plain_ir_program ir.now)).objects) (needs_of table)
        (plain_ir_function g.now).code) }
    ensures least { IfOk result (λ table. IsLeast (has_tables (data_of (plain_ir_program ir.now)).objects) g.now.slots
        (needs_of table) (plain_ir_function g.now).code) }
{
    valid_operations_have_places();
    let known = right_numbers(alloc, &g.code, g.slots)?;
    let numbers: &[Option<RightNumber>] = &known;
    let in_flash = has_tables(ir);
    live(alloc, in_flash, &g.code, numbers, g.slots)
}

/// The tables of all functions.
pub(crate) fn tables_of(alloc: Global, ir: &IrProgram) -> Result<Vec<LabelNeeds>, NoMemory>
    requires { ValidWithCells (plain_ir_program ir.now) }
    ensures are { IfOk result (λ tables. AreTables (plain_ir_program ir.now) (tables_in tables.items)
        (length (plain_ir_program ir.now).functions)) }
    ensures count { IfOk result (λ tables. length tables.items ≡ length ir.now.funcs.items) }
{
    let mut tables = Vec::new(alloc);
    for (f, g) in ir.funcs.as_slice().iter().enumerate() {
        let table = table_of(alloc, ir, f as u16, g)?;
        push(&mut tables, table)?;
    }
    Ok(tables)
}
