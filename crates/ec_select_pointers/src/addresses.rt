//! Addresses put to pointers, and pointers moved by an offset.
ghost use Rattle.std.specs.Prelude.{◌≡◌, ◌++◌, OnOk, OnErr, Option};
ghost use Rattle.ec_runs.specs.Behaviours.{BeginWith};
ghost use Rattle.ec_asm.specs.Pieces.{HasByte, HasBytes};
ghost use Rattle.ec_select_pointers.specs.Addresses.{part_byte, parts_pair, both_parts, tag_code, address_code, subtracts};
ghost use Rattle.ec_select_pointers.specs.Addresses.{subtract_byte, subtract_pair, subtract_both, field_code, pointer_bytes};
ghost use Rattle.ec_select_pointers.specs.Addresses.{is_low_pair};

use crate::memory::{load, store};
use ec_asm::{AsmItem, Location};
use ec_isa::Instr;
use ec_space::{NoMemory, Seq};

/// Appends code that puts byte `i` of the address of a place to byte `i` of a pointer, through R30 where LDI does not
/// reach it.
pub(crate) fn part_byte(
    out: &mut Seq<AsmItem>,
    object: u16,
    offset: u32,
    to: Location,
    i: u8,
) -> Result<(), NoMemory>
    requires { HasByte to i }
    ensures ok { OnOk result (out.new.items ≡ out.old.items ++ part_byte object offset to i) }
    ensures err { OnErr result (out.new.items ≡ out.old.items) }
{
    match to {
        Location::InRegisters(r) if r + i >= 16 => out.extend_from_slice(&[AsmItem::LoadPart {
            d: r + i,
            object,
            offset,
            part: i,
        }]),
        Location::InRegisters(r) => out.extend_from_slice(&[
            AsmItem::LoadPart {
                d: 30,
                object,
                offset,
                part: i,
            },
            AsmItem::Plain(Instr::Mov { d: r + i, r: 30 }),
        ]),
        Location::InMemory {
            object: home,
            offset: at,
        } => out.extend_from_slice(&[
            AsmItem::LoadPart {
                d: 30,
                object,
                offset,
                part: i,
            },
            store(home, at, i, 30),
        ]),
    }
}

/// Whether two bytes in registers are below R16 and are reached by one MOVW.
fn is_low_pair(r: u8) -> bool
    ensures { result ≡ is_low_pair r }
{
    r < 16 && r % 2 == 0
}

/// Appends code that puts the address of a place to two registers, by R30 and R31.
fn parts_pair(out: &mut Seq<AsmItem>, object: u16, offset: u32, r: u8) -> Result<(), NoMemory>
    ensures ok { OnOk result (out.new.items ≡ out.old.items ++ parts_pair object offset r) }
    ensures err { OnErr result (out.new.items ≡ out.old.items) }
{
    out.extend_from_slice(&[
        AsmItem::LoadPart {
            d: 30,
            object,
            offset,
            part: 0,
        },
        AsmItem::LoadPart {
            d: 31,
            object,
            offset,
            part: 1,
        },
        AsmItem::Plain(Instr::Movw { d: r, r: 30 }),
    ])
}

/// Appends code that puts both bytes of the address of a place to the first two of a pointer.
fn both_parts(
    out: &mut Seq<AsmItem>,
    object: u16,
    offset: u32,
    to: Location,
) -> Result<(), NoMemory>
    requires { HasBytes to 2 }
    ensures ok { OnOk result (out.new.items ≡ out.old.items ++ both_parts object offset to) }
    ensures err { OnErr result (BeginWith out.old.items out.new.items) }
{
    match to {
        Location::InRegisters(r) if is_low_pair(r) => parts_pair(out, object, offset, r),
        _ => {
            part_byte(out, object, offset, to, 0)?;
            part_byte(out, object, offset, to, 1)
        }
    }
}

/// Appends code that puts a tag to the third byte of a pointer, or nothing for a pointer without a tag.
fn tag_byte(out: &mut Seq<AsmItem>, tag: Option<u8>, to: Location) -> Result<(), NoMemory>
    requires { HasBytes to (pointer_bytes tag) }
    ensures ok { OnOk result (out.new.items ≡ out.old.items ++ tag_code tag to) }
    ensures err { OnErr result (out.new.items ≡ out.old.items) }
{
    let Some(tag) = tag else {
        return Ok(());
    };
    match to {
        Location::InRegisters(r) if r + 2 >= 16 => {
            out.extend_from_slice(&[AsmItem::Plain(Instr::Ldi { d: r + 2, k: tag })])
        }
        Location::InRegisters(r) => out.extend_from_slice(&[
            AsmItem::Plain(Instr::Ldi { d: 30, k: tag }),
            AsmItem::Plain(Instr::Mov { d: r + 2, r: 30 }),
        ]),
        Location::InMemory { object, offset } => out.extend_from_slice(&[
            AsmItem::Plain(Instr::Ldi { d: 30, k: tag }),
            store(object, offset, 2, 30),
        ]),
    }
}

/// Appends code that puts the address of a place, modulo 65,536, to a pointer at `to`, with the tag of its bank where
/// the pointer has one: 0x00 for flash and 0x80 for data. Where memory runs out, a part of the code is appended.
pub fn address(
    out: &mut Seq<AsmItem>,
    object: u16,
    offset: u32,
    tag: Option<u8>,
    to: Location,
) -> Result<(), NoMemory>
    requires { HasBytes to (pointer_bytes tag) }
    ensures ok { OnOk result (out.new.items ≡ out.old.items ++ address_code object offset tag to) }
    ensures err { OnErr result (BeginWith out.old.items out.new.items) }
{
    both_parts(out, object, offset, to)?;
    tag_byte(out, tag, to)
}

/// The instruction that subtracts a constant from a register for byte `i`: the lowest byte takes no borrow.
fn subtracts(i: u8, d: u8, k: u8) -> Instr
    ensures { result ≡ subtracts i d k }
{
    if i == 0 {
        Instr::Subi { d, k }
    } else {
        Instr::Sbci { d, k }
    }
}

/// Appends code that subtracts a constant from byte `i` of a number, through R30 where SUBI does not reach it.
pub(crate) fn subtract_byte(
    out: &mut Seq<AsmItem>,
    k: u8,
    at: Location,
    i: u8,
) -> Result<(), NoMemory>
    requires { HasByte at i }
    ensures ok { OnOk result (out.new.items ≡ out.old.items ++ subtract_byte k at i) }
    ensures err { OnErr result (out.new.items ≡ out.old.items) }
{
    match at {
        Location::InRegisters(r) if r + i >= 16 => {
            out.extend_from_slice(&[AsmItem::Plain(subtracts(i, r + i, k))])
        }
        Location::InRegisters(r) => out.extend_from_slice(&[
            AsmItem::Plain(Instr::Mov { d: 30, r: r + i }),
            AsmItem::Plain(subtracts(i, 30, k)),
            AsmItem::Plain(Instr::Mov { d: r + i, r: 30 }),
        ]),
        Location::InMemory { object, offset } => out.extend_from_slice(&[
            load(30, object, offset, i),
            AsmItem::Plain(subtracts(i, 30, k)),
            store(object, offset, i, 30),
        ]),
    }
}

/// Appends code that subtracts a constant from two registers, in R30 and R31.
fn subtract_pair(out: &mut Seq<AsmItem>, k: u16, r: u8) -> Result<(), NoMemory>
    ensures ok { OnOk result (out.new.items ≡ out.old.items ++ subtract_pair k r) }
    ensures err { OnErr result (out.new.items ≡ out.old.items) }
{
    out.extend_from_slice(&[
        AsmItem::Plain(Instr::Movw { d: 30, r }),
        AsmItem::Plain(Instr::Subi {
            d: 30,
            k: (k % 256) as u8,
        }),
        AsmItem::Plain(Instr::Sbci {
            d: 31,
            k: (k / 256) as u8,
        }),
        AsmItem::Plain(Instr::Movw { d: r, r: 30 }),
    ])
}

/// Appends code that subtracts a constant from the first two bytes of a place.
fn subtract_both(out: &mut Seq<AsmItem>, k: u16, at: Location) -> Result<(), NoMemory>
    requires { HasBytes at 2 }
    ensures ok { OnOk result (out.new.items ≡ out.old.items ++ subtract_both k at) }
    ensures err { OnErr result (BeginWith out.old.items out.new.items) }
{
    match at {
        Location::InRegisters(r) if is_low_pair(r) => subtract_pair(out, k, r),
        _ => {
            subtract_byte(out, (k % 256) as u8, at, 0)?;
            subtract_byte(out, (k / 256) as u8, at, 1)
        }
    }
}

/// Appends code that adds an offset to the address in a pointer, modulo 65,536, and keeps its tag. Where memory runs
/// out, a part of the code is appended.
pub fn field(out: &mut Seq<AsmItem>, pointer: Location, offset: u32) -> Result<(), NoMemory>
    requires { HasBytes pointer 2 }
    ensures ok { OnOk result (out.new.items ≡ out.old.items ++ field_code pointer offset) }
    ensures err { OnErr result (BeginWith out.old.items out.new.items) }
{
    if offset % 65536 == 0 {
        return Ok(());
    }
    let rest = 65536 - offset % 65536;
    subtract_both(out, rest as u16, pointer)
}
