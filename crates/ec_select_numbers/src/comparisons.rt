//! Comparisons with a known number.
ghost use Rattle.std.specs.Prelude.{◌≡◌, ◌≤◌, ◌<◌, ◌+◌, ◌++◌, OnOk, OnErr};
ghost use Rattle.ec_runs.specs.Behaviours.{BeginWith};
ghost use Rattle.ec_asm.specs.Pieces.{HasByte, HasBytes, compares};
ghost use Rattle.ec_select_numbers.specs.ByNumber.{register_compared, compared_byte, compared_code};

use crate::operators::byte_of;
use ec_asm::{AsmItem, Location};
use ec_isa::Instr;
use ec_space::{NoMemory, Seq};

/// The instruction that compares byte `i` with a register: the lowest byte takes no borrow.
fn compares(i: u8, d: u8, r: u8) -> Instr
    ensures { result ≡ compares i d r }
{
    if i == 0 {
        Instr::Cp { d, r }
    } else {
        Instr::Cpc { d, r }
    }
}

/// Appends code that compares byte `i` of a number in registers with a byte: CPI reaches R16 and above, and takes no
/// borrow.
fn register_compared(out: &mut Seq<AsmItem>, r: u8, k: u8, i: u8) -> Result<(), NoMemory>
    requires { r + i < 32 }
    ensures ok { OnOk result (out.new.items ≡ out.old.items ++ register_compared r k i) }
    ensures err { OnErr result (out.new.items ≡ out.old.items) }
{
    if i == 0 && r >= 16 {
        out.extend_from_slice(&[AsmItem::Plain(Instr::Cpi { d: r, k })])
    } else {
        out.extend_from_slice(&[
            AsmItem::Plain(Instr::Ldi { d: 30, k }),
            AsmItem::Plain(compares(i, r + i, 30)),
        ])
    }
}

/// Appends code that compares byte `i` of a place with a byte.
fn compared_byte(out: &mut Seq<AsmItem>, at: Location, k: u8, i: u8) -> Result<(), NoMemory>
    requires { HasByte at i }
    ensures ok { OnOk result (out.new.items ≡ out.old.items ++ compared_byte at k i) }
    ensures err { OnErr result (out.new.items ≡ out.old.items) }
{
    match at {
        Location::InRegisters(r) => register_compared(out, r, k, i),
        Location::InMemory { object, offset } => out.extend_from_slice(&[
            AsmItem::LoadObj {
                d: 0,
                object,
                offset: offset + u32::from(i),
            },
            AsmItem::Plain(Instr::Ldi { d: 30, k }),
            AsmItem::Plain(compares(i, 0, 30)),
        ]),
    }
}

/// Appends code that compares so many bytes of a place with a known number, and leaves the flags. Where memory runs out,
/// a part of the code is appended.
pub fn compare_with(
    out: &mut Seq<AsmItem>,
    at: Location,
    number: u128,
    bytes: u8,
) -> Result<(), NoMemory>
    requires at { HasBytes at bytes }
    requires most { bytes ≤ 16 }
    ensures ok { OnOk result (out.new.items ≡ out.old.items ++ compared_code at number bytes) }
    ensures err { OnErr result (BeginWith out.old.items out.new.items) }
{
    for i in 0..bytes {
        compared_byte(out, at, byte_of(number, i), i)?;
    }
    Ok(())
}
