//! Operators with a known number.
ghost use Rattle.std.specs.Prelude.{◌≡◌, ◌≤◌, ◌<◌, ◌+◌, ◌++◌, OnOk, OnErr};
ghost use Rattle.ec_runs.specs.Behaviours.{BeginWith};
ghost use Rattle.ec_asm.specs.Pieces.{HasByte, HasBytes};
ghost use Rattle.ec_select_bytes.specs.Values.{byte_of};
ghost use Rattle.ec_select_numbers.specs.ByNumber.{immediate, is_neutral, immediate_byte, changed_byte, each_changed};
ghost use Rattle.ec_select_numbers.specs.ByNumber.{changed_pair, rest_changed, changes_pair, changed_code};
ghost use Rattle.ec_select_numbers.specs.ByNumber.{negated, added_code};

use crate::pairs::is_low_pair;
use ec_asm::{AsmItem, Location};
use ec_isa::Instr;
use ec_space::{NoMemory, Seq};

/// An operator that changes a number by a known one.
#[derive(Clone, Copy)]
pub enum ByNumber {
    /// The number less the known one, modulo the power of 256 that the bytes have.
    Subtract,
    /// AND.
    Mask,
    /// OR.
    Set,
}

/// Byte `i` of a number.
pub(crate) fn byte_of(number: u128, i: u8) -> u8
    requires { i < 16 }
    ensures { result ≡ byte_of number i }
{
    (number / 256u128.pow(u32::from(i)) % 256) as u8
}

/// The instruction that changes a register by a byte: of a difference the lowest byte takes no borrow.
fn immediate(op: ByNumber, i: u8, d: u8, k: u8) -> Instr
    ensures { result ≡ immediate op i d k }
{
    match op {
        ByNumber::Subtract if i == 0 => Instr::Subi { d, k },
        ByNumber::Subtract => Instr::Sbci { d, k },
        ByNumber::Mask => Instr::Andi { d, k },
        ByNumber::Set => Instr::Ori { d, k },
    }
}

/// Whether a byte leaves each other one as it is.
fn is_neutral(op: ByNumber, k: u8) -> bool
    ensures { result ≡ is_neutral op k }
{
    match op {
        ByNumber::Subtract => false,
        ByNumber::Mask => k == 255,
        ByNumber::Set => k == 0,
    }
}

/// Appends code that changes byte `i` of a place by a byte, through R30 where an immediate does not reach it.
fn immediate_byte(
    out: &mut Seq<AsmItem>,
    op: ByNumber,
    to: Location,
    k: u8,
    i: u8,
) -> Result<(), NoMemory>
    requires { HasByte to i }
    ensures ok { OnOk result (out.new.items ≡ out.old.items ++ immediate_byte (immediate op i) to k i) }
    ensures err { OnErr result (out.new.items ≡ out.old.items) }
{
    match to {
        Location::InRegisters(r) if r + i >= 16 => {
            out.extend_from_slice(&[AsmItem::Plain(immediate(op, i, r + i, k))])
        }
        Location::InRegisters(r) => out.extend_from_slice(&[
            AsmItem::Plain(Instr::Mov { d: 30, r: r + i }),
            AsmItem::Plain(immediate(op, i, 30, k)),
            AsmItem::Plain(Instr::Mov { d: r + i, r: 30 }),
        ]),
        Location::InMemory { object, offset } => {
            let offset = offset + u32::from(i);
            out.extend_from_slice(&[
                AsmItem::LoadObj {
                    d: 30,
                    object,
                    offset,
                },
                AsmItem::Plain(immediate(op, i, 30, k)),
                AsmItem::StoreObj {
                    object,
                    offset,
                    r: 30,
                },
            ])
        }
    }
}

fn changed_byte(
    out: &mut Seq<AsmItem>,
    op: ByNumber,
    to: Location,
    k: u8,
    i: u8,
) -> Result<(), NoMemory>
    requires { HasByte to i }
    ensures ok { OnOk result (out.new.items ≡ out.old.items ++ changed_byte op to k i) }
    ensures err { OnErr result (out.new.items ≡ out.old.items) }
{
    if is_neutral(op, k) {
        Ok(())
    } else {
        immediate_byte(out, op, to, k, i)
    }
}

/// Appends code that changes so many bytes of a place by a known number, one after another.
fn change_each(
    out: &mut Seq<AsmItem>,
    op: ByNumber,
    to: Location,
    number: u128,
    bytes: u8,
) -> Result<(), NoMemory>
    requires to { HasBytes to bytes }
    requires most { bytes ≤ 16 }
    ensures ok { OnOk result (out.new.items ≡ out.old.items ++ each_changed op to number bytes) }
    ensures err { OnErr result (BeginWith out.old.items out.new.items) }
{
    for i in 0..bytes {
        changed_byte(out, op, to, byte_of(number, i), i)?;
    }
    Ok(())
}

/// Appends code that changes two bytes in registers by a known number, in R30 and R31.
fn change_pair(out: &mut Seq<AsmItem>, op: ByNumber, r: u8, number: u128) -> Result<(), NoMemory>
    ensures ok { OnOk result (out.new.items ≡ out.old.items ++ changed_pair op r number) }
    ensures err { OnErr result (out.new.items ≡ out.old.items) }
{
    out.extend_from_slice(&[
        AsmItem::Plain(Instr::Movw { d: 30, r }),
        AsmItem::Plain(immediate(op, 0, 30, byte_of(number, 0))),
        AsmItem::Plain(immediate(op, 1, 31, byte_of(number, 1))),
        AsmItem::Plain(Instr::Movw { d: r, r: 30 }),
    ])
}

/// Appends code that changes so many bytes behind two in registers by the bytes of a known number behind its lowest two.
fn change_rest(
    out: &mut Seq<AsmItem>,
    op: ByNumber,
    r: u8,
    number: u128,
    bytes: u8,
) -> Result<(), NoMemory>
    requires to { r + (2 + bytes) ≤ 32 }
    requires most { bytes ≤ 14 }
    ensures ok { OnOk result (out.new.items ≡ out.old.items ++ rest_changed op r number bytes) }
    ensures err { OnErr result (BeginWith out.old.items out.new.items) }
{
    for i in 0..bytes {
        let k = byte_of(number, 2 + i);
        changed_byte(out, op, Location::InRegisters(r), k, 2 + i)?;
    }
    Ok(())
}

/// Whether two bytes below R16 are changed by one MOVW each way: both bytes of the number change something.
fn changes_pair(op: ByNumber, r: u8, number: u128, bytes: u8) -> bool
    ensures { result ≡ changes_pair op r number bytes }
{
    is_low_pair(r, bytes)
        && !is_neutral(op, byte_of(number, 0))
        && !is_neutral(op, byte_of(number, 1))
}

/// Appends code that changes so many bytes of a place by a known number. Where memory runs out, a part of the code is
/// appended.
pub fn change_by(
    out: &mut Seq<AsmItem>,
    op: ByNumber,
    to: Location,
    number: u128,
    bytes: u8,
) -> Result<(), NoMemory>
    requires to { HasBytes to bytes }
    requires most { bytes ≤ 16 }
    ensures ok { OnOk result (out.new.items ≡ out.old.items ++ changed_code op to number bytes) }
    ensures err { OnErr result (BeginWith out.old.items out.new.items) }
{
    match to {
        Location::InRegisters(r) if changes_pair(op, r, number, bytes) => {
            change_pair(out, op, r, number)?;
            change_rest(out, op, r, number, bytes - 2)
        }
        _ => change_each(out, op, to, number, bytes),
    }
}

/// What is subtracted where a number is added.
fn negated(number: u128) -> u128
    ensures { result ≡ negated number }
{
    if number == 0 {
        0
    } else {
        u128::MAX - number + 1
    }
}

/// Appends code that adds a known number to so many bytes of a place. Where memory runs out, a part of the code is
/// appended.
pub fn add_number(
    out: &mut Seq<AsmItem>,
    to: Location,
    number: u128,
    bytes: u8,
) -> Result<(), NoMemory>
    requires to { HasBytes to bytes }
    requires most { bytes ≤ 16 }
    ensures ok { OnOk result (out.new.items ≡ out.old.items ++ added_code to number bytes) }
    ensures err { OnErr result (BeginWith out.old.items out.new.items) }
{
    change_by(out, ByNumber::Subtract, to, negated(number), bytes)
}
