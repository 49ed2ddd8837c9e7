//! The code of operations on ports.
ghost use Rattle.std.specs.Prelude.{◌≡◌, ◌≤◌, ◌<◌, ◌++◌, Some, OnOk, OnErr};
ghost use Rattle.ec_runs.specs.Behaviours.{BeginWith};
ghost use Rattle.ec_asm.specs.Items.{chain};
ghost use Rattle.ec_asm.specs.Pieces.{HasByte, HasBytes};
ghost use Rattle.ec_select_bytes.specs.Ports.{HasIndexByte, in_instruction, out_instruction};
ghost use Rattle.ec_select_bytes.specs.Ports.{read_instruction, write_instruction};
ghost use Rattle.ec_select_bytes.specs.Ports.{read_byte, write_byte, write_code, scale_code, point_code};
ghost use Rattle.ec_select_bytes.specs.Ports.{in_code, out_code};

use crate::values::extend;
use ec_asm::{AsmItem, Location, copy};
use ec_isa::Instr;
use ec_space::{NoMemory, Seq};

/// What an operation accesses: `width` bytes, 1, 2 or 4, from the address of a port on, or of an element of it whose
/// index stands at a place.
#[derive(Clone, Copy)]
pub struct PortAccess {
    pub port: u8,
    pub width: u8,
    pub index: Option<Location>,
}

/// The instruction that reads a port to a register: IN where it reaches the address, else LDS.
fn in_instruction(register: u8, from: u16) -> Instr
    ensures { result ≡ in_instruction register from }
{
    if from >= 0x20 && from <= 0x5F {
        Instr::In {
            d: register,
            a: (from - 0x20) as u8,
        }
    } else {
        Instr::Lds {
            d: register,
            k: from,
        }
    }
}

/// The instruction that writes a register to a port: OUT where it reaches the address, else STS.
fn out_instruction(address: u16, register: u8) -> Instr
    ensures { result ≡ out_instruction address register }
{
    if address >= 0x20 && address <= 0x5F {
        Instr::Out {
            a: (address - 0x20) as u8,
            r: register,
        }
    } else {
        Instr::Sts {
            k: address,
            r: register,
        }
    }
}

/// The instruction that reads byte `i`, by Z where there is an index.
fn read_instruction(of: PortAccess, register: u8, i: u8) -> Instr
    ensures { result ≡ read_instruction of.index of.port register i }
{
    match of.index {
        None => in_instruction(register, u16::from(of.port) + u16::from(i)),
        Some(_) => Instr::LddZ { d: register, q: i },
    }
}

/// The instruction that writes byte `i`, by Z where there is an index.
fn write_instruction(of: PortAccess, i: u8, register: u8) -> Instr
    ensures { result ≡ write_instruction of.index of.port i register }
{
    match of.index {
        None => out_instruction(u16::from(of.port) + u16::from(i), register),
        Some(_) => Instr::StdZ { q: i, r: register },
    }
}

/// Appends code that reads byte `i` to its place, by R0 where that is in memory.
fn read_byte(out: &mut Seq<AsmItem>, of: PortAccess, to: Location, i: u8) -> Result<(), NoMemory>
    requires { HasByte to i }
    ensures ok { OnOk result (out.new.items ≡ out.old.items ++ read_byte of.index of.port to i) }
    ensures err { OnErr result (out.new.items ≡ out.old.items) }
{
    match to {
        Location::InRegisters(r) => {
            out.extend_from_slice(&[AsmItem::Plain(read_instruction(of, r + i, i))])
        }
        Location::InMemory { object, offset } => out.extend_from_slice(&[
            AsmItem::Plain(read_instruction(of, 0, i)),
            AsmItem::StoreObj {
                object,
                offset: offset + u32::from(i),
                r: 0,
            },
        ]),
    }
}

/// Appends code that writes byte `i` from its place, by R0 where that is in memory.
fn write_byte(out: &mut Seq<AsmItem>, of: PortAccess, from: Location, i: u8) -> Result<(), NoMemory>
    requires { HasByte from i }
    ensures ok { OnOk result (out.new.items ≡ out.old.items ++ write_byte of.index of.port from i) }
    ensures err { OnErr result (out.new.items ≡ out.old.items) }
{
    match from {
        Location::InRegisters(r) => {
            out.extend_from_slice(&[AsmItem::Plain(write_instruction(of, i, r + i))])
        }
        Location::InMemory { object, offset } => out.extend_from_slice(&[
            AsmItem::LoadObj {
                d: 0,
                object,
                offset: offset + u32::from(i),
            },
            AsmItem::Plain(write_instruction(of, i, 0)),
        ]),
    }
}

/// Appends code that reads all bytes, by rising address.
#[tactic(auto, using(crate::proofs::Bytes::byte_there))]
pub(crate) fn read_bytes(
    out: &mut Seq<AsmItem>,
    of: PortAccess,
    to: Location,
) -> Result<(), NoMemory>
    requires { HasBytes to of.width }
    ensures ok { OnOk result (out.new.items ≡ out.old.items ++ chain (read_byte of.index of.port to) of.width) }
    ensures err { OnErr result (BeginWith out.old.items out.new.items) }
{
    for i in 0..of.width {
        read_byte(out, of, to, i)?;
    }
    Ok(())
}

/// Appends code that writes all bytes, by falling address.
#[tactic(auto, using(crate::proofs::Bytes::byte_there))]
pub(crate) fn write_bytes(
    out: &mut Seq<AsmItem>,
    of: PortAccess,
    from: Location,
) -> Result<(), NoMemory>
    requires { HasBytes from of.width }
    ensures ok { OnOk result (out.new.items ≡ out.old.items ++ write_code of.index of.port from 0 of.width) }
    ensures err { OnErr result (BeginWith out.old.items out.new.items) }
{
    for k in 0..of.width {
        write_byte(out, of, from, of.width - 1 - k)?;
    }
    Ok(())
}

/// Appends code that multiplies R30 by a width.
pub(crate) fn scale(out: &mut Seq<AsmItem>, width: u8) -> Result<(), NoMemory>
    ensures ok { OnOk result (out.new.items ≡ out.old.items ++ scale_code width) }
    ensures err { OnErr result (BeginWith out.old.items out.new.items) }
{
    let double = AsmItem::Plain(Instr::Add { d: 30, r: 30 });
    match width {
        1 => Ok(()),
        2 => out.extend_from_slice(&[double]),
        _ => out.extend_from_slice(&[double, double]),
    }
}

/// Appends code that sets Z to the address of the element, where there is an index.
fn point(out: &mut Seq<AsmItem>, of: PortAccess) -> Result<(), NoMemory>
    requires { HasIndexByte of.index }
    ensures ok { OnOk result (out.new.items ≡ out.old.items ++ point_code of.index of.port of.width) }
    ensures err { OnErr result (BeginWith out.old.items out.new.items) }
{
    match of.index {
        None => Ok(()),
        Some(at) => point_to(out, of, at),
    }
}

fn point_to(out: &mut Seq<AsmItem>, of: PortAccess, at: Location) -> Result<(), NoMemory>
    requires { HasBytes at 1 }
    ensures ok { OnOk result (out.new.items ≡ out.old.items ++ point_code (Some at) of.port of.width) }
    ensures err { OnErr result (BeginWith out.old.items out.new.items) }
{
    copy(out, at, Location::InRegisters(30), 1)?;
    scale(out, of.width)?;
    out.extend_from_slice(&[
        AsmItem::Plain(Instr::Ldi { d: 31, k: of.port }),
        AsmItem::Plain(Instr::Add { d: 30, r: 31 }),
        AsmItem::Plain(Instr::Ldi { d: 31, k: 0 }),
    ])
}

/// Appends code that reads a port to a place, of which so many bytes are wanted: those past the width are 0. Where
/// memory runs out, a part of the code is appended.
pub fn read_port(
    out: &mut Seq<AsmItem>,
    of: PortAccess,
    to: Location,
    wanted: u8,
) -> Result<(), NoMemory>
    requires index { HasIndexByte of.index }
    requires width { HasBytes to of.width }
    requires wanted { HasBytes to wanted }
    requires some { 1 ≤ of.width }
    ensures ok { OnOk result (out.new.items ≡ out.old.items ++ in_code of.index to of.port of.width wanted) }
    ensures err { OnErr result (BeginWith out.old.items out.new.items) }
{
    point(out, of)?;
    read_bytes(out, of, to)?;
    extend(out, false, to, of.width, wanted)
}

/// Appends code that writes the low bytes of a number to a port. Where memory runs out, a part of the code is appended.
pub fn write_port(out: &mut Seq<AsmItem>, of: PortAccess, from: Location) -> Result<(), NoMemory>
    requires index { HasIndexByte of.index }
    requires width { HasBytes from of.width }
    ensures ok { OnOk result (out.new.items ≡ out.old.items ++ out_code of.index from of.port of.width) }
    ensures err { OnErr result (BeginWith out.old.items out.new.items) }
{
    point(out, of)?;
    write_bytes(out, of, from)
}
