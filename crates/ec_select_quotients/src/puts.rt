//! The remainder is brought to its place.
ghost use Rattle.std.specs.Prelude.{◌≡◌, ◌+◌, ◌≤◌, ◌<◌, ◌%◌, ◌++◌, OnOk, OnErr};
ghost use Rattle.ec_runs.specs.Behaviours.{BeginWith};
ghost use Rattle.ec_asm.specs.Pieces.{HasBytes};
ghost use Rattle.ec_select_quotients.specs.Signs.{put_pairs, put_code};

use crate::quotients::remainder;
use ec_asm::{AsmItem, Location, copy};
use ec_isa::Instr;
use ec_space::{NoMemory, Seq};

/// Appends code that brings the remainder to an even register and those above it, two bytes at a time.
fn put_pairs(out: &mut Seq<AsmItem>, r: u8, bytes: u8) -> Result<(), NoMemory>
    requires to { r + bytes ≤ 32 }
    requires most { bytes ≤ 4 }
    ensures ok { OnOk result (out.new.items ≡ out.old.items ++ put_pairs r bytes) }
    ensures err { OnErr result (out.new.items ≡ out.old.items) }
{
    let low = AsmItem::Plain(Instr::Movw { d: r, r: 8 });
    match bytes {
        0 => Ok(()),
        1 => out.extend_from_slice(&[AsmItem::Plain(Instr::Mov { d: r, r: 8 })]),
        2 => out.extend_from_slice(&[low]),
        3 => out.extend_from_slice(&[low, AsmItem::Plain(Instr::Mov { d: r + 2, r: 10 })]),
        _ => out.extend_from_slice(&[low, AsmItem::Plain(Instr::Movw { d: r + 2, r: 10 })]),
    }
}

/// Appends code that brings the remainder to its place. Where memory runs out, a part of the code is appended.
pub(crate) fn put_remainder(out: &mut Seq<AsmItem>, at: Location, bytes: u8) -> Result<(), NoMemory>
    requires at { HasBytes at bytes }
    requires most { bytes ≤ 4 }
    ensures ok { OnOk result (out.new.items ≡ out.old.items ++ put_code at bytes) }
    ensures err { OnErr result (BeginWith out.old.items out.new.items) }
{
    match at {
        Location::InRegisters(r) if r % 2 == 0 => put_pairs(out, r, bytes),
        _ => copy(out, remainder(), at, bytes),
    }
}
