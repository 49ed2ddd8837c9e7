//! Numbers that are put to a place, and two bytes in registers below R16.
ghost use Rattle.std.specs.Prelude.{◌≡◌, ◌≤◌, ◌++◌, OnOk, OnErr};
ghost use Rattle.ec_runs.specs.Behaviours.{BeginWith};
ghost use Rattle.ec_asm.specs.Pieces.{HasBytes};
ghost use Rattle.ec_select_numbers.specs.ByNumber.{is_low_pair, put_pair_code, put_code};

use crate::operators::byte_of;
use ec_asm::{AsmItem, Location};
use ec_isa::Instr;
use ec_select_bytes::constant;
use ec_space::{NoMemory, Seq};

/// Whether the first two of so many bytes in registers are below R16 and are reached by one MOVW.
pub(crate) fn is_low_pair(r: u8, bytes: u8) -> bool
    ensures { result ≡ is_low_pair r bytes }
{
    r < 16 && r % 2 == 0 && bytes >= 2
}

/// Appends code that puts the lowest two bytes of a number to registers.
fn put_pair(out: &mut Seq<AsmItem>, number: u128, r: u8) -> Result<(), NoMemory>
    ensures ok { OnOk result (out.new.items ≡ out.old.items ++ put_pair_code r number) }
    ensures err { OnErr result (out.new.items ≡ out.old.items) }
{
    out.extend_from_slice(&[
        AsmItem::Plain(Instr::Ldi {
            d: 30,
            k: byte_of(number, 0),
        }),
        AsmItem::Plain(Instr::Ldi {
            d: 31,
            k: byte_of(number, 1),
        }),
        AsmItem::Plain(Instr::Movw { d: r, r: 30 }),
    ])
}

/// Appends code that puts the lowest bytes of a number to a place: to registers below R16 two at a time, by MOVW. Where
/// memory runs out, a part of the code is appended.
pub fn put_number(
    out: &mut Seq<AsmItem>,
    number: u128,
    to: Location,
    bytes: u8,
) -> Result<(), NoMemory>
    requires to { HasBytes to bytes }
    requires most { bytes ≤ 16 }
    ensures ok { OnOk result (out.new.items ≡ out.old.items ++ put_code to number bytes) }
    ensures err { OnErr result (BeginWith out.old.items out.new.items) }
{
    match to {
        Location::InRegisters(r) if is_low_pair(r, bytes) => {
            put_pair(out, number, r)?;
            let rest = Location::InRegisters(r + 2);
            constant(out, number / 65536, rest, bytes - 2)
        }
        _ => constant(out, number, to, bytes),
    }
}
