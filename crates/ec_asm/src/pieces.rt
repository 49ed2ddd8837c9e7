//! Pieces of code for numbers of several bytes, in registers or in memory.
ghost use Rattle.std.specs.Prelude.{◌≡◌, ◌+◌, ◌<◌, ◌^◌, ◌++◌, OnOk, OnErr};
ghost use Rattle.ec_runs.specs.Behaviours.{BeginWith};
ghost use Rattle.ec_asm.specs.Pieces.{HasByte, HasBytes, instruction, copy_byte, copy_code, operate_byte, operate_code};
ghost use Rattle.ec_asm.specs.Pieces.{compare_byte, compare_code, halves, halve_byte, halve_code};

use crate::instructions::{compares, from_top, sums};
use crate::items::AsmItem;
use ec_isa::Instr;
use ec_space::{NoMemory, Seq};

/// Where a number of several bytes stands, the lowest byte first.
#[derive(Clone, Copy)]
pub enum Location {
    /// In registers, from this one up. R0 and R1 are for the code itself.
    InRegisters(u8),
    /// In the bytes of an object from this offset up, by the numbers of [`AsmItem`].
    InMemory { object: u16, offset: u32 },
}

/// An operator of two numbers of several bytes, whose result takes the place of the first one.
#[derive(Clone, Copy)]
pub enum Operator {
    /// The sum, modulo the power of 256 that the bytes have.
    Sum,
    /// The first number less the second, modulo that power.
    Difference,
    BitAnd,
    BitOr,
    BitXor,
}

/// Appends code that copies byte `i` of a number. Between two bytes of memory it goes through R0.
fn copy_byte(out: &mut Seq<AsmItem>, from: Location, to: Location, i: u8) -> Result<(), NoMemory>
    requires from { HasByte from i }
    requires to { HasByte to i }
    ensures ok { OnOk result (out.new.items ≡ out.old.items ++ copy_byte from to i) }
    ensures err { OnErr result (out.new.items ≡ out.old.items) }
{
    match (from, to) {
        (Location::InRegisters(a), Location::InRegisters(b)) => {
            out.extend_from_slice(&[AsmItem::Plain(Instr::Mov { d: b + i, r: a + i })])
        }
        (Location::InMemory { object, offset }, Location::InRegisters(b)) => {
            out.extend_from_slice(&[load(b + i, object, offset, i)])
        }
        (Location::InRegisters(a), Location::InMemory { object, offset }) => {
            out.extend_from_slice(&[store(object, offset, i, a + i)])
        }
        (
            Location::InMemory {
                object: a,
                offset: j,
            },
            Location::InMemory {
                object: b,
                offset: k,
            },
        ) => out.extend_from_slice(&[load(0, a, j, i), store(b, k, i, 0)]),
    }
}

/// A load of a register from byte `i` after an offset.
fn load(d: u8, object: u16, offset: u32, i: u8) -> AsmItem
    requires { offset + i < 2 ^ 32 }
    ensures { result ≡ AsmItem.LoadObj d object (offset + i) }
{
    AsmItem::LoadObj {
        d,
        object,
        offset: offset + u32::from(i),
    }
}

/// A store of a register to byte `i` after an offset.
fn store(object: u16, offset: u32, i: u8, r: u8) -> AsmItem
    requires { offset + i < 2 ^ 32 }
    ensures { result ≡ AsmItem.StoreObj object (offset + i) r }
{
    AsmItem::StoreObj {
        object,
        offset: offset + u32::from(i),
        r,
    }
}

/// Appends code that copies a number of so many bytes. No byte of it stands above the byte where it is to stand, unless
/// all do. Where memory runs out, a part of the code is appended.
pub fn copy(out: &mut Seq<AsmItem>, from: Location, to: Location, bytes: u8) -> Result<(), NoMemory>
    requires from { HasBytes from bytes }
    requires to { HasBytes to bytes }
    ensures ok { OnOk result (out.new.items ≡ out.old.items ++ copy_code from to bytes) }
    ensures err { OnErr result (BeginWith out.old.items out.new.items) }
{
    for i in 0..bytes {
        copy_byte(out, from, to, i)?;
    }
    Ok(())
}

/// The instruction of an operator for byte `i`: the lowest byte takes no carry or borrow.
fn instruction(op: Operator, i: u8, d: u8, r: u8) -> Instr
    ensures { result ≡ instruction op i d r }
{
    match op {
        Operator::Sum => sums(i, d, r),
        Operator::Difference if i == 0 => Instr::Sub { d, r },
        Operator::Difference => Instr::Sbc { d, r },
        Operator::BitAnd => Instr::And { d, r },
        Operator::BitOr => Instr::Or { d, r },
        Operator::BitXor => Instr::Eor { d, r },
    }
}

/// Appends code for byte `i` of an operator, through R0 and R1 where a number stands in memory.
fn operate_byte(
    out: &mut Seq<AsmItem>,
    op: Operator,
    from: Location,
    to: Location,
    i: u8,
) -> Result<(), NoMemory>
    requires from { HasByte from i }
    requires to { HasByte to i }
    ensures ok { OnOk result (out.new.items ≡ out.old.items ++ operate_byte op from to i) }
    ensures err { OnErr result (out.new.items ≡ out.old.items) }
{
    match (from, to) {
        (Location::InRegisters(a), Location::InRegisters(b)) => {
            out.extend_from_slice(&[AsmItem::Plain(instruction(op, i, b + i, a + i))])
        }
        (Location::InMemory { object, offset }, Location::InRegisters(b)) => {
            out.extend_from_slice(&[
                load(0, object, offset, i),
                AsmItem::Plain(instruction(op, i, b + i, 0)),
            ])
        }
        (Location::InRegisters(a), Location::InMemory { object, offset }) => {
            out.extend_from_slice(&[
                load(0, object, offset, i),
                AsmItem::Plain(instruction(op, i, 0, a + i)),
                store(object, offset, i, 0),
            ])
        }
        (
            Location::InMemory {
                object: a,
                offset: j,
            },
            Location::InMemory {
                object: b,
                offset: k,
            },
        ) => out.extend_from_slice(&[
            load(1, a, j, i),
            load(0, b, k, i),
            AsmItem::Plain(instruction(op, i, 0, 1)),
            store(b, k, i, 0),
        ]),
    }
}

/// Appends code that puts the number at `to`, by an operator with the number at `from`, to where it stands. Both have
/// so many bytes. Where memory runs out, a part of the code is appended.
pub fn operate(
    out: &mut Seq<AsmItem>,
    op: Operator,
    from: Location,
    to: Location,
    bytes: u8,
) -> Result<(), NoMemory>
    requires from { HasBytes from bytes }
    requires to { HasBytes to bytes }
    ensures ok { OnOk result (out.new.items ≡ out.old.items ++ operate_code op from to bytes) }
    ensures err { OnErr result (BeginWith out.old.items out.new.items) }
{
    for i in 0..bytes {
        operate_byte(out, op, from, to, i)?;
    }
    Ok(())
}

/// Appends code that compares byte `i`.
fn compare_byte(out: &mut Seq<AsmItem>, from: Location, to: Location, i: u8) -> Result<(), NoMemory>
    requires from { HasByte from i }
    requires to { HasByte to i }
    ensures ok { OnOk result (out.new.items ≡ out.old.items ++ compare_byte from to i) }
    ensures err { OnErr result (out.new.items ≡ out.old.items) }
{
    match (from, to) {
        (Location::InRegisters(a), Location::InRegisters(b)) => {
            out.extend_from_slice(&[AsmItem::Plain(compares(i, b + i, a + i))])
        }
        (Location::InMemory { object, offset }, Location::InRegisters(b)) => {
            out.extend_from_slice(&[
                load(0, object, offset, i),
                AsmItem::Plain(compares(i, b + i, 0)),
            ])
        }
        (Location::InRegisters(a), Location::InMemory { object, offset }) => {
            out.extend_from_slice(&[
                load(0, object, offset, i),
                AsmItem::Plain(compares(i, 0, a + i)),
            ])
        }
        (
            Location::InMemory {
                object: a,
                offset: j,
            },
            Location::InMemory {
                object: b,
                offset: k,
            },
        ) => out.extend_from_slice(&[
            load(1, a, j, i),
            load(0, b, k, i),
            AsmItem::Plain(compares(i, 0, 1)),
        ]),
    }
}

/// Appends code that compares the number at `to` with the number at `from`, both of so many bytes: it leaves the borrow
/// of `to` less `from` in C, and in Z whether they are equal. Where memory runs out, a part of the code is appended.
pub fn compare(
    out: &mut Seq<AsmItem>,
    from: Location,
    to: Location,
    bytes: u8,
) -> Result<(), NoMemory>
    requires from { HasBytes from bytes }
    requires to { HasBytes to bytes }
    ensures ok { OnOk result (out.new.items ≡ out.old.items ++ compare_code from to bytes) }
    ensures err { OnErr result (BeginWith out.old.items out.new.items) }
{
    for i in 0..bytes {
        compare_byte(out, from, to, i)?;
    }
    Ok(())
}

/// The instruction that halves the byte that is the `k`-th from the top: the first one takes its sign or 0, and each
/// other one the bit that fell out of the byte above.
fn halves(signed: bool, k: u8, d: u8) -> Instr
    ensures { result ≡ halves signed k d }
{
    if k > 0 {
        Instr::Ror { d }
    } else if signed {
        Instr::Asr { d }
    } else {
        Instr::Lsr { d }
    }
}

/// Appends code that halves the `k`-th byte from the top of a number of so many bytes.
fn halve_byte(
    out: &mut Seq<AsmItem>,
    at: Location,
    signed: bool,
    bytes: u8,
    k: u8,
) -> Result<(), NoMemory>
    requires at { HasBytes at bytes }
    requires k { k < bytes }
    ensures ok { OnOk result (out.new.items ≡ out.old.items ++ halve_byte signed at bytes k) }
    ensures err { OnErr result (out.new.items ≡ out.old.items) }
{
    let i = from_top(bytes, k);
    match at {
        Location::InRegisters(r) => {
            out.extend_from_slice(&[AsmItem::Plain(halves(signed, k, r + i))])
        }
        Location::InMemory { object, offset } => out.extend_from_slice(&[
            load(0, object, offset, i),
            AsmItem::Plain(halves(signed, k, 0)),
            store(object, offset, i, 0),
        ]),
    }
}

/// Appends code that halves a number of so many bytes and rounds it down, in two's complement (`signed`) or without a
/// sign, and leaves in C the bit that falls out. Where memory runs out, a part of the code is appended.
pub fn halve(out: &mut Seq<AsmItem>, at: Location, signed: bool, bytes: u8) -> Result<(), NoMemory>
    requires at { HasBytes at bytes }
    ensures ok { OnOk result (out.new.items ≡ out.old.items ++ halve_code signed at bytes) }
    ensures err { OnErr result (BeginWith out.old.items out.new.items) }
{
    for k in 0..bytes {
        halve_byte(out, at, signed, bytes, k)?;
    }
    Ok(())
}
