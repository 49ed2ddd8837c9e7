//! Pieces of code for the complement and the negation of a number, where it stands.
ghost use Rattle.std.specs.Prelude.{◌≡◌, ◌+◌, ◌++◌, OnOk, OnErr};
ghost use Rattle.ec_runs.specs.Behaviours.{BeginWith};
ghost use Rattle.ec_asm.specs.Pieces.{HasByte, HasBytes};
ghost use Rattle.ec_select_bytes.specs.Complements.{complement_byte, complement_code, carry_byte, carry_code};
ghost use Rattle.ec_select_bytes.specs.Complements.{negation_code};

use ec_asm::{AsmItem, Location};
use ec_isa::Instr;
use ec_space::{NoMemory, Seq};

/// Appends code that turns all bits of byte `i` of a number.
fn complement_byte(out: &mut Seq<AsmItem>, at: Location, i: u8) -> Result<(), NoMemory>
    requires { HasByte at i }
    ensures ok { OnOk result (out.new.items ≡ out.old.items ++ complement_byte at i) }
    ensures err { OnErr result (out.new.items ≡ out.old.items) }
{
    match at {
        Location::InRegisters(r) => {
            out.extend_from_slice(&[AsmItem::Plain(Instr::Com { d: r + i })])
        }
        Location::InMemory { object, offset } => {
            let offset = offset + u32::from(i);
            out.extend_from_slice(&[
                AsmItem::LoadObj {
                    d: 0,
                    object,
                    offset,
                },
                AsmItem::Plain(Instr::Com { d: 0 }),
                AsmItem::StoreObj {
                    object,
                    offset,
                    r: 0,
                },
            ])
        }
    }
}

/// Appends code that turns all bits of a number of so many bytes. Where memory runs out, a part of the code is appended.
pub fn complement(out: &mut Seq<AsmItem>, at: Location, bytes: u8) -> Result<(), NoMemory>
    requires { HasBytes at bytes }
    ensures ok { OnOk result (out.new.items ≡ out.old.items ++ complement_code at bytes) }
    ensures err { OnErr result (BeginWith out.old.items out.new.items) }
{
    for i in 0..bytes {
        complement_byte(out, at, i)?;
    }
    Ok(())
}

/// Appends code that adds R1 and the carry to byte `i` of a number.
fn carry_byte(out: &mut Seq<AsmItem>, at: Location, i: u8) -> Result<(), NoMemory>
    requires { HasByte at i }
    ensures ok { OnOk result (out.new.items ≡ out.old.items ++ carry_byte at i) }
    ensures err { OnErr result (out.new.items ≡ out.old.items) }
{
    match at {
        Location::InRegisters(r) => {
            out.extend_from_slice(&[AsmItem::Plain(Instr::Adc { d: r + i, r: 1 })])
        }
        Location::InMemory { object, offset } => {
            let offset = offset + u32::from(i);
            out.extend_from_slice(&[
                AsmItem::LoadObj {
                    d: 0,
                    object,
                    offset,
                },
                AsmItem::Plain(Instr::Adc { d: 0, r: 1 }),
                AsmItem::StoreObj {
                    object,
                    offset,
                    r: 0,
                },
            ])
        }
    }
}

fn carry(out: &mut Seq<AsmItem>, at: Location, bytes: u8) -> Result<(), NoMemory>
    requires { HasBytes at bytes }
    ensures ok { OnOk result (out.new.items ≡ out.old.items ++ carry_code at bytes) }
    ensures err { OnErr result (BeginWith out.old.items out.new.items) }
{
    for i in 0..bytes {
        carry_byte(out, at, i)?;
    }
    Ok(())
}

/// Appends code that negates a number of so many bytes. Where memory runs out, a part of the code is appended.
pub fn negate(out: &mut Seq<AsmItem>, at: Location, bytes: u8) -> Result<(), NoMemory>
    requires { HasBytes at bytes }
    ensures ok { OnOk result (out.new.items ≡ out.old.items ++ negation_code at bytes) }
    ensures err { OnErr result (BeginWith out.old.items out.new.items) }
{
    complement(out, at, bytes)?;
    out.extend_from_slice(&[AsmItem::Plain(Instr::Eor { d: 1, r: 1 })])?;
    carry(out, at, bytes)
}
