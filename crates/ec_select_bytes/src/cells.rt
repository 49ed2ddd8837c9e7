//! The code of cells, each of which holds the base of a dynamic group's choice, and of operations on ports of such a group.
ghost use Rattle.std.specs.Prelude.{◌≡◌, ◌≤◌, ◌++◌, ◌+◌, Some, OnOk, OnErr};
ghost use Rattle.ec_runs.specs.Behaviours.{BeginWith};
ghost use Rattle.ec_asm.specs.declared.items.AsmItem.TheVariants.{LoadObj};
ghost use Rattle.ec_asm.specs.Pieces.{HasBytes, copy_code};
ghost use Rattle.ec_select_bytes.specs.Ports.{HasIndexByte, first_cell, cell_place, pointed, further_code};
ghost use Rattle.ec_select_bytes.specs.Ports.{cell_point_code, cell_in_code, cell_out_code};

use crate::ports::{PortAccess, read_bytes, scale, write_bytes};
use crate::values::extend;
use ec_asm::{AsmItem, Location, copy};
use ec_isa::Instr;
use ec_space::{NoMemory, Seq};

/// What an operation accesses: `width` bytes, 1, 2 or 4, from the address on that is `offset` behind what a cell holds, or
/// of an element there whose index stands at a place.
#[derive(Clone, Copy)]
pub struct CellAccess {
    pub cell: u8,
    pub offset: u8,
    pub width: u8,
    pub index: Option<Location>,
}

/// The object of the work bytes, by the numbers of [`ec_asm::AsmItem`].
const WORK: u16 = 1280;

/// The first cell stands behind the work bytes.
const FIRST_CELL: u32 = 64;

/// Where a cell stands.
fn cell_place(cell: u8) -> Location
    ensures value { result ≡ cell_place cell }
    ensures byte { HasBytes result 255 }
{
    Location::InMemory {
        object: WORK,
        offset: FIRST_CELL + u32::from(cell),
    }
}

/// Appends code that loads the bytes of a cell, which are one, to a place.
pub fn load_cell(out: &mut Seq<AsmItem>, cell: u8, to: Location, bytes: u8) -> Result<(), NoMemory>
    requires { HasBytes to bytes }
    ensures ok { OnOk result (out.new.items ≡ out.old.items ++ copy_code (cell_place cell) to bytes) }
    ensures err { OnErr result (BeginWith out.old.items out.new.items) }
{
    copy(out, cell_place(cell), to, bytes)
}

/// Appends code that stores the bytes of a cell, which are one, from a place.
pub fn store_cell(
    out: &mut Seq<AsmItem>,
    cell: u8,
    from: Location,
    bytes: u8,
) -> Result<(), NoMemory>
    requires { HasBytes from bytes }
    ensures ok { OnOk result (out.new.items ≡ out.old.items ++ copy_code from (cell_place cell) bytes) }
    ensures err { OnErr result (BeginWith out.old.items out.new.items) }
{
    copy(out, from, cell_place(cell), bytes)
}

/// The item that loads a cell to a register.
fn cell_to(register: u8, cell: u8) -> AsmItem
    ensures { result ≡ LoadObj register 1280 (first_cell + cell) }
{
    AsmItem::LoadObj {
        d: register,
        object: WORK,
        offset: FIRST_CELL + u32::from(cell),
    }
}

/// Bytes where Z points.
fn pointed(width: u8) -> PortAccess
    ensures index { result.index ≡ pointed }
    ensures port { result.port ≡ 0 }
    ensures width { result.width ≡ width }
{
    PortAccess {
        port: 0,
        width,
        index: Some(Location::InRegisters(30)),
    }
}

/// Appends code by which R30 goes further by an offset, and R31 becomes 0.
fn go_further(out: &mut Seq<AsmItem>, offset: u8) -> Result<(), NoMemory>
    ensures ok { OnOk result (out.new.items ≡ out.old.items ++ further_code offset) }
    ensures err { OnErr result (out.new.items ≡ out.old.items) }
{
    out.extend_from_slice(&[
        AsmItem::Plain(Instr::Ldi { d: 31, k: offset }),
        AsmItem::Plain(Instr::Add { d: 30, r: 31 }),
        AsmItem::Plain(Instr::Ldi { d: 31, k: 0 }),
    ])
}

/// Appends code that sets Z to the address of the port, or of the element where there is an index.
fn point(out: &mut Seq<AsmItem>, of: CellAccess) -> Result<(), NoMemory>
    requires { HasIndexByte of.index }
    ensures ok { OnOk result (out.new.items ≡ out.old.items ++ cell_point_code of.index of.cell of.offset of.width) }
    ensures err { OnErr result (BeginWith out.old.items out.new.items) }
{
    match of.index {
        None => {
            out.extend_from_slice(&[cell_to(30, of.cell)])?;
            go_further(out, of.offset)
        }
        Some(at) => point_to(out, of, at),
    }
}

fn point_to(out: &mut Seq<AsmItem>, of: CellAccess, at: Location) -> Result<(), NoMemory>
    requires { HasBytes at 1 }
    ensures ok { OnOk result (out.new.items ≡ out.old.items ++ cell_point_code (Some at) of.cell of.offset of.width) }
    ensures err { OnErr result (BeginWith out.old.items out.new.items) }
{
    copy(out, at, Location::InRegisters(30), 1)?;
    scale(out, of.width)?;
    out.extend_from_slice(&[
        cell_to(31, of.cell),
        AsmItem::Plain(Instr::Add { d: 30, r: 31 }),
    ])?;
    go_further(out, of.offset)
}

/// Appends code that reads a port of a dynamic group to a place, of which so many bytes are wanted: those past the width
/// are 0. Where memory runs out, a part of the code is appended.
pub fn read_cell_port(
    out: &mut Seq<AsmItem>,
    of: CellAccess,
    to: Location,
    wanted: u8,
) -> Result<(), NoMemory>
    requires index { HasIndexByte of.index }
    requires width { HasBytes to of.width }
    requires wanted { HasBytes to wanted }
    requires some { 1 ≤ of.width }
    ensures ok { OnOk result (out.new.items
        ≡ out.old.items ++ cell_in_code of.index to of.cell of.offset of.width wanted) }
    ensures err { OnErr result (BeginWith out.old.items out.new.items) }
{
    point(out, of)?;
    read_bytes(out, pointed(of.width), to)?;
    extend(out, false, to, of.width, wanted)
}

/// Appends code that writes the low bytes of a number to a port of a dynamic group. Where memory runs out, a part of the
/// code is appended.
pub fn write_cell_port(
    out: &mut Seq<AsmItem>,
    of: CellAccess,
    from: Location,
) -> Result<(), NoMemory>
    requires index { HasIndexByte of.index }
    requires width { HasBytes from of.width }
    ensures ok { OnOk result (out.new.items
        ≡ out.old.items ++ cell_out_code of.index from of.cell of.offset of.width) }
    ensures err { OnErr result (BeginWith out.old.items out.new.items) }
{
    point(out, of)?;
    write_bytes(out, pointed(of.width), from)
}
