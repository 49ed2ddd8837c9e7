//! The divisor is brought to its registers.
ghost use Rattle.std.specs.Prelude.{◌≡◌, ◌+◌, ◌≤◌, ◌<◌, ◌%◌, ◌++◌, suc, OnOk, OnErr};
ghost use Rattle.ec_runs.specs.Behaviours.{BeginWith};
ghost use Rattle.ec_asm.specs.Pieces.{HasBytes, HasByte};
ghost use Rattle.ec_asm.specs.Items.{chain};
ghost use Rattle.ec_select_quotients.specs.Signs.{fetch_byte, fetch_pairs, fetch_code};

use crate::quotients::divisor_register;
use ec_asm::{AsmItem, Location};
use ec_isa::Instr;
use ec_space::{NoMemory, Seq};

/// Appends code that brings byte `i` of a number to the divisor's registers.
fn fetch_byte(out: &mut Seq<AsmItem>, from: Location, i: u8) -> Result<(), NoMemory>
    requires from { HasByte from i }
    requires few { i < 4 }
    ensures ok { OnOk result (out.new.items ≡ out.old.items ++ fetch_byte from i) }
    ensures err { OnErr result (out.new.items ≡ out.old.items) }
{
    let d = divisor_register(i);
    match from {
        Location::InRegisters(r) => {
            out.extend_from_slice(&[AsmItem::Plain(Instr::Mov { d, r: r + i })])
        }
        Location::InMemory { object, offset } => out.extend_from_slice(&[AsmItem::LoadObj {
            d,
            object,
            offset: offset + u32::from(i),
        }]),
    }
}

fn fetch_bytes(out: &mut Seq<AsmItem>, from: Location, bytes: u8) -> Result<(), NoMemory>
    requires from { HasBytes from bytes }
    requires few { bytes ≤ 4 }
    ensures ok { OnOk result (out.new.items ≡ out.old.items ++ chain (fetch_byte from) bytes) }
    ensures err { OnErr result (BeginWith out.old.items out.new.items) }
{
    for i in 0..bytes {
        fetch_byte(out, from, i)?;
    }
    Ok(())
}

/// Appends code that brings a number of up to four bytes from an even register on, two bytes at a time.
fn fetch_pairs(out: &mut Seq<AsmItem>, r: u8, top: u8) -> Result<(), NoMemory>
    requires { r + suc top ≤ 32 }
    ensures ok { OnOk result (out.new.items ≡ out.old.items ++ fetch_pairs r top) }
    ensures err { OnErr result (out.new.items ≡ out.old.items) }
{
    let low = AsmItem::Plain(Instr::Movw { d: 12, r });
    if top < 2 {
        out.extend_from_slice(&[low])
    } else {
        out.extend_from_slice(&[low, AsmItem::Plain(Instr::Movw { d: 26, r: r + 2 })])
    }
}

/// Appends code that brings a number of `top + 1` bytes to the divisor's registers. Where memory runs out, a part of the
/// code is appended.
pub(crate) fn fetch(out: &mut Seq<AsmItem>, from: Location, top: u8) -> Result<(), NoMemory>
    requires from { HasBytes from (suc top) }
    requires most { top < 4 }
    ensures ok { OnOk result (out.new.items ≡ out.old.items ++ fetch_code from top) }
    ensures err { OnErr result (BeginWith out.old.items out.new.items) }
{
    match from {
        Location::InRegisters(r) if r % 2 == 0 => fetch_pairs(out, r, top),
        _ => fetch_bytes(out, from, top + 1),
    }
}
