//! The signs of numbers that are divided, and the registers of a division.
ghost use Rattle.std.specs.Prelude.{◌≡◌, ◌+◌, ◌≤◌, ◌<◌, ◌^◌, ◌++◌, pos, OnOk, OnErr};
ghost use Rattle.ec_runs.specs.Behaviours.{BeginWith};
ghost use Rattle.ec_asm.specs.Pieces.{HasBytes};
ghost use Rattle.ec_select_bytes.specs.Signs.{negation_words, negate_if_code, cross_code, registers_code};

use crate::complements::negate;
use ec_asm::{AsmItem, Location};
use ec_isa::Instr;
use ec_space::{NoMemory, Seq};

fn negation_words(at: Location, bytes: u8) -> u16
    ensures { result ≡ negation_words at bytes }
{
    let n = u16::from(bytes);
    match at {
        Location::InRegisters(_) => 1 * n + (1 + 1 * n),
        Location::InMemory { .. } => 5 * n + (1 + 5 * n),
    }
}

/// A branch over so many words, where the carry is 0.
fn over_unless(words: u16) -> Instr
    requires { words < 2 ^ 12 }
    ensures { result ≡ Instr.Brbc 0 (pos words) }
{
    Instr::Brbc {
        s: 0,
        k: words as i16,
    }
}

/// Appends code that negates a number of so many bytes where the highest bit of a register is 1. Where memory runs out, a
/// part of the code is appended.
pub fn negate_if(
    out: &mut Seq<AsmItem>,
    register: u8,
    at: Location,
    bytes: u8,
) -> Result<(), NoMemory>
    requires { HasBytes at bytes }
    ensures ok { OnOk result (out.new.items ≡ out.old.items ++ negate_if_code register at bytes) }
    ensures err { OnErr result (BeginWith out.old.items out.new.items) }
{
    out.extend_from_slice(&[
        AsmItem::Plain(Instr::Mov { d: 0, r: register }),
        AsmItem::Plain(Instr::Add { d: 0, r: 0 }),
        AsmItem::Plain(over_unless(negation_words(at, bytes))),
    ])?;
    negate(out, at, bytes)
}

/// Appends code that makes the sign of a number that is divided, the highest bit of R31, the sign of the result: the
/// highest byte of the divisor stands in R8 and `top` further up. A remainder has the sign of the number (ISO/IEC
/// 9899:1999, 6.5.5). Where memory runs out, nothing is appended.
pub fn cross_signs(out: &mut Seq<AsmItem>, remainder: bool, top: u8) -> Result<(), NoMemory>
    requires { top < 4 }
    ensures ok { OnOk result (out.new.items ≡ out.old.items ++ cross_code remainder top) }
    ensures err { OnErr result (out.new.items ≡ out.old.items) }
{
    if remainder {
        Ok(())
    } else {
        out.extend_from_slice(&[AsmItem::Plain(Instr::Eor { d: 31, r: 8 + top })])
    }
}

/// Appends code that puts the bits of a number of so many bytes to R13, by R30, and 0 to the byte above a divisor of as
/// many bytes, from 0 to 4, in R8 and above. Where memory runs out, nothing is appended.
pub fn set_registers(out: &mut Seq<AsmItem>, bytes: u8) -> Result<(), NoMemory>
    requires { bytes ≤ 4 }
    ensures ok { OnOk result (out.new.items ≡ out.old.items ++ registers_code bytes) }
    ensures err { OnErr result (out.new.items ≡ out.old.items) }
{
    out.extend_from_slice(&[
        AsmItem::Plain(Instr::Ldi {
            d: 30,
            k: 8 * bytes,
        }),
        AsmItem::Plain(Instr::Mov { d: 13, r: 30 }),
        AsmItem::Plain(Instr::Eor {
            d: 8 + bytes,
            r: 8 + bytes,
        }),
    ])
}
