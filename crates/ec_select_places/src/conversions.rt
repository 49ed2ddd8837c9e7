//! Pointers of two bytes that become pointers of three bytes, and back.
ghost use Rattle.std.specs.Prelude.{◌≡◌, ◌++◌, true, false, OnOk, OnErr};
ghost use Rattle.ec_runs.specs.Behaviours.{BeginWith};
ghost use Rattle.ec_asm.specs.Pieces.{HasBytes};
ghost use Rattle.ec_select_places.specs.Conversions.{data_tag_code, embed_code, narrow_code};

use crate::steps::z_pair;
use ec_asm::{AsmItem, Location, copy};
use ec_isa::Instr;
use ec_space::{NoMemory, Seq};

/// Appends code that makes a register the tag of a pointer into data, whose two bytes are in other registers: 0 where it is
/// null.
fn data_tag(out: &mut Seq<AsmItem>, t: u8, low: u8, high: u8) -> Result<(), NoMemory>
    ensures ok { OnOk result (out.new.items ≡ out.old.items ++ data_tag_code t low high) }
    ensures err { OnErr result (out.new.items ≡ out.old.items) }
{
    out.extend_from_slice(&[
        AsmItem::Plain(Instr::Eor { d: t, r: t }),
        AsmItem::Plain(Instr::Cp { d: t, r: low }),
        AsmItem::Plain(Instr::Cpc { d: t, r: high }),
        AsmItem::Plain(Instr::Ror { d: t }),
    ])
}

/// Appends code that gives a pointer into data its third byte.
fn embed_in_data(out: &mut Seq<AsmItem>, at: Location) -> Result<(), NoMemory>
    requires { HasBytes at 3 }
    ensures ok { OnOk result (out.new.items ≡ out.old.items ++ embed_code true at) }
    ensures err { OnErr result (BeginWith out.old.items out.new.items) }
{
    match at {
        Location::InRegisters(b) => data_tag(out, b + 2, b, b + 1),
        Location::InMemory { object, offset } => {
            copy(out, at, z_pair(), 2)?;
            data_tag(out, 1, 30, 31)?;
            out.push(AsmItem::StoreObj {
                object,
                offset: offset + 2,
                r: 1,
            })
        }
    }
}

/// Appends code that gives a pointer into flash its third byte.
fn embed_in_flash(out: &mut Seq<AsmItem>, at: Location) -> Result<(), NoMemory>
    requires { HasBytes at 3 }
    ensures ok { OnOk result (out.new.items ≡ out.old.items ++ embed_code false at) }
    ensures err { OnErr result (out.new.items ≡ out.old.items) }
{
    match at {
        Location::InRegisters(b) => {
            out.extend_from_slice(&[AsmItem::Plain(Instr::Eor { d: b + 2, r: b + 2 })])
        }
        Location::InMemory { object, offset } => out.extend_from_slice(&[
            AsmItem::Plain(Instr::Eor { d: 1, r: 1 }),
            AsmItem::StoreObj {
                object,
                offset: offset + 2,
                r: 1,
            },
        ]),
    }
}

/// Appends code that gives a pointer of two bytes, into the data bank or into flash, a third one behind them, which tells
/// the bank. Null stays null. Where memory runs out, a part of the code is appended.
pub fn embed(out: &mut Seq<AsmItem>, to_data: bool, at: Location) -> Result<(), NoMemory>
    requires { HasBytes at 3 }
    ensures ok { OnOk result (out.new.items ≡ out.old.items ++ embed_code to_data at) }
    ensures err { OnErr result (BeginWith out.old.items out.new.items) }
{
    if to_data {
        return embed_in_data(out, at);
    }
    embed_in_flash(out, at)
}

/// Appends code that puts a pointer of three bytes to two, without its tag. Where memory runs out, a part of the code
/// is appended.
pub fn narrow(out: &mut Seq<AsmItem>, from: Location, to: Location) -> Result<(), NoMemory>
    requires from { HasBytes from 2 }
    requires to { HasBytes to 2 }
    ensures ok { OnOk result (out.new.items ≡ out.old.items ++ narrow_code from to) }
    ensures err { OnErr result (BeginWith out.old.items out.new.items) }
{
    copy(out, from, to, 2)
}
