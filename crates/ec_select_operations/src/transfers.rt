//! Copies of numbers of several bytes, between registers two bytes at a time.
ghost use Rattle.std.specs.Prelude.{◌≡◌, ◌≤◌, ◌+◌, ◌++◌, OnOk, OnErr};
ghost use Rattle.ec_runs.specs.Behaviours.{BeginWith};
ghost use Rattle.ec_asm.specs.Pieces.{HasBytes};
ghost use Rattle.ec_select_operations.specs.Code.{odd_code, pairs_code, transfer_code};

use ec_asm::{AsmItem, Location, copy};
use ec_isa::Instr;
use ec_space::{NoMemory, Seq};

/// Appends code that copies the last byte of a number between registers, where it has an odd number of bytes.
fn copy_odd(out: &mut Seq<AsmItem>, from: u8, to: u8, bytes: u8) -> Result<(), NoMemory>
    requires from { from + bytes ≤ 32 }
    requires to { to + bytes ≤ 32 }
    ensures ok { OnOk result (out.new.items ≡ out.old.items ++ odd_code from to bytes) }
    ensures err { OnErr result (out.new.items ≡ out.old.items) }
{
    if bytes % 2 == 0 {
        return Ok(());
    }
    let i = bytes / 2 * 2;
    out.extend_from_slice(&[AsmItem::Plain(Instr::Mov {
        d: to + i,
        r: from + i,
    })])
}

/// Appends code that copies a number between registers, two bytes at a time. Where memory runs out, a part of the code is
/// appended.
fn copy_pairs(out: &mut Seq<AsmItem>, from: u8, to: u8, bytes: u8) -> Result<(), NoMemory>
    requires from { from + bytes ≤ 32 }
    requires to { to + bytes ≤ 32 }
    ensures ok { OnOk result (out.new.items ≡ out.old.items ++ pairs_code from to bytes) }
    ensures err { OnErr result (BeginWith out.old.items out.new.items) }
{
    for i in 0..bytes / 2 {
        out.extend_from_slice(&[AsmItem::Plain(Instr::Movw {
            d: to + 2 * i,
            r: from + 2 * i,
        })])?;
    }
    copy_odd(out, from, to, bytes)
}

/// Appends code that copies a number, by pairs of bytes between registers of even numbers. Where memory runs out, a part of
/// the code is appended.
pub(crate) fn transfer(
    out: &mut Seq<AsmItem>,
    from: Location,
    to: Location,
    bytes: u8,
) -> Result<(), NoMemory>
    requires from { HasBytes from bytes }
    requires to { HasBytes to bytes }
    ensures ok { OnOk result (out.new.items ≡ out.old.items ++ transfer_code from to bytes) }
    ensures err { OnErr result (BeginWith out.old.items out.new.items) }
{
    match (from, to) {
        (Location::InRegisters(a), Location::InRegisters(b)) if a % 2 == 0 && b % 2 == 0 => {
            copy_pairs(out, a, b, bytes)
        }
        _ => copy(out, from, to, bytes),
    }
}
