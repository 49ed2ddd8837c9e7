//! Loads, addresses and pointers moved by an offset on a core with RAMPZ.
ghost use Rattle.std.specs.Prelude.{◌≡◌, ◌<◌, ◌++◌, OnOk, OnErr};
ghost use Rattle.ec_runs.specs.Behaviours.{BeginWith};
ghost use Rattle.ec_asm.specs.Pieces.{HasByte, HasBytes};
ghost use Rattle.ec_select_pointers.specs.Far.{page_code, far_byte, far_bytes, load_far_code, load_far_table_code};
ghost use Rattle.ec_select_pointers.specs.Far.{top_test, either_far_bytes, load_any_far_code, far_address_code};
ghost use Rattle.ec_select_pointers.specs.Far.{field_far_code};

use crate::accesses::{bytes_words, data_bytes, over, point};
use crate::addresses::{part_byte, subtract_byte};
use crate::memory::{load, store};
use ec_asm::{AsmItem, Location};
use ec_isa::Instr;
use ec_space::{NoMemory, Seq};

/// Appends code that sets RAMPZ to the third byte of a pointer, through R0 where that is in memory.
fn page(out: &mut Seq<AsmItem>, pointer: Location) -> Result<(), NoMemory>
    requires { HasBytes pointer 3 }
    ensures ok { OnOk result (out.new.items ≡ out.old.items ++ page_code pointer) }
    ensures err { OnErr result (out.new.items ≡ out.old.items) }
{
    match pointer {
        Location::InRegisters(r) => {
            out.extend_from_slice(&[AsmItem::Plain(Instr::Out { a: 0x3B, r: r + 2 })])
        }
        Location::InMemory { object, offset } => out.extend_from_slice(&[
            load(0, object, offset, 2),
            AsmItem::Plain(Instr::Out { a: 0x3B, r: 0 }),
        ]),
    }
}

/// Appends code that loads byte `i` from the flash bank, where RAMPZ and Z have its address.
fn far_byte(out: &mut Seq<AsmItem>, to: Location, i: u8) -> Result<(), NoMemory>
    requires { HasByte to i }
    ensures ok { OnOk result (out.new.items ≡ out.old.items ++ far_byte to i) }
    ensures err { OnErr result (out.new.items ≡ out.old.items) }
{
    match to {
        Location::InRegisters(r) => {
            out.extend_from_slice(&[AsmItem::Plain(Instr::ElpmInc { d: r + i })])
        }
        Location::InMemory { object, offset } => out.extend_from_slice(&[
            AsmItem::Plain(Instr::ElpmInc { d: 0 }),
            store(object, offset, i, 0),
        ]),
    }
}

fn far_bytes(out: &mut Seq<AsmItem>, to: Location, bytes: u8) -> Result<(), NoMemory>
    requires { HasBytes to bytes }
    ensures ok { OnOk result (out.new.items ≡ out.old.items ++ far_bytes to bytes) }
    ensures err { OnErr result (BeginWith out.old.items out.new.items) }
{
    for i in 0..bytes {
        far_byte(out, to, i)?;
    }
    Ok(())
}

/// Appends code that loads a number of so many bytes from the flash bank, through the pointer of three bytes at
/// `pointer`, which has the whole address. Where memory runs out, a part of the code is appended.
pub fn load_far(
    out: &mut Seq<AsmItem>,
    pointer: Location,
    to: Location,
    bytes: u8,
) -> Result<(), NoMemory>
    requires pointer { HasBytes pointer 3 }
    requires to { HasBytes to bytes }
    ensures ok { OnOk result (out.new.items ≡ out.old.items ++ load_far_code pointer to bytes) }
    ensures err { OnErr result (BeginWith out.old.items out.new.items) }
{
    point(out, pointer)?;
    page(out, pointer)?;
    far_bytes(out, to, bytes)
}

/// Appends code that loads a number of so many bytes from a place in the flash bank, whose whole
/// address is known when the code is placed. Where memory runs out, a part of the code is appended.
pub fn load_far_table(
    out: &mut Seq<AsmItem>,
    object: u16,
    offset: u32,
    to: Location,
    bytes: u8,
) -> Result<(), NoMemory>
    requires { HasBytes to bytes }
    ensures ok { OnOk result (out.new.items
        ≡ out.old.items ++ load_far_table_code object offset to bytes) }
    ensures err { OnErr result (BeginWith out.old.items out.new.items) }
{
    out.extend_from_slice(&[
        AsmItem::LoadPart {
            d: 30,
            object,
            offset,
            part: 2,
        },
        AsmItem::Plain(Instr::Out { a: 0x3B, r: 30 }),
        AsmItem::LoadPart {
            d: 30,
            object,
            offset,
            part: 0,
        },
        AsmItem::LoadPart {
            d: 31,
            object,
            offset,
            part: 1,
        },
    ])?;
    far_bytes(out, to, bytes)
}

/// Appends code that passes over the next word where the top bit of the third byte of a pointer is 1, which is in R0
/// already where it is in memory.
fn top_test(out: &mut Seq<AsmItem>, pointer: Location) -> Result<(), NoMemory>
    requires { HasBytes pointer 3 }
    ensures ok { OnOk result (out.new.items ≡ out.old.items ++ top_test pointer) }
    ensures err { OnErr result (out.new.items ≡ out.old.items) }
{
    let r = match pointer {
        Location::InRegisters(r) => r + 2,
        Location::InMemory { .. } => 0,
    };
    out.extend_from_slice(&[AsmItem::Plain(Instr::Sbrs { r, b: 7 })])
}

/// Appends code that loads so many bytes from the data bank where its first word is passed over, and else from the
/// flash bank.
fn either_far_bytes(out: &mut Seq<AsmItem>, to: Location, bytes: u8) -> Result<(), NoMemory>
    requires { HasBytes to bytes }
    ensures ok { OnOk result (out.new.items ≡ out.old.items ++ either_far_bytes to bytes) }
    ensures err { OnErr result (BeginWith out.old.items out.new.items) }
{
    let words = bytes_words(to, bytes);
    over(out, words + 1)?;
    data_bytes(out, to, bytes)?;
    over(out, words)?;
    far_bytes(out, to, bytes)
}

/// Appends code that loads a number of so many bytes through the pointer of three bytes at `pointer`: from the data
/// bank where its top bit is 1, and else from the flash bank, at the whole address. Where memory runs out, a part of
/// the code is appended.
pub fn load_any_far(
    out: &mut Seq<AsmItem>,
    pointer: Location,
    to: Location,
    bytes: u8,
) -> Result<(), NoMemory>
    requires pointer { HasBytes pointer 3 }
    requires to { HasBytes to bytes }
    ensures ok { OnOk result (out.new.items ≡ out.old.items ++ load_any_far_code pointer to bytes) }
    ensures err { OnErr result (BeginWith out.old.items out.new.items) }
{
    point(out, pointer)?;
    page(out, pointer)?;
    top_test(out, pointer)?;
    either_far_bytes(out, to, bytes)
}

/// Appends code that puts the whole address of a place to a pointer of three bytes. Where memory runs out, a part of
/// the code is appended.
pub fn far_address(
    out: &mut Seq<AsmItem>,
    object: u16,
    offset: u32,
    to: Location,
) -> Result<(), NoMemory>
    requires { HasBytes to 3 }
    ensures ok { OnOk result (out.new.items ≡ out.old.items ++ far_address_code object offset to) }
    ensures err { OnErr result (BeginWith out.old.items out.new.items) }
{
    part_byte(out, object, offset, to, 0)?;
    part_byte(out, object, offset, to, 1)?;
    part_byte(out, object, offset, to, 2)
}

/// Appends code that adds an offset to all three bytes of a pointer, modulo 2 to the power of 24. Where memory runs
/// out, a part of the code is appended.
pub fn far_field(out: &mut Seq<AsmItem>, pointer: Location, offset: u32) -> Result<(), NoMemory>
    requires { HasBytes pointer 3 }
    ensures ok { OnOk result (out.new.items ≡ out.old.items ++ field_far_code pointer offset) }
    ensures err { OnErr result (BeginWith out.old.items out.new.items) }
{
    if offset % 16_777_216 == 0 {
        return Ok(());
    }
    let rest = 16_777_216 - offset % 16_777_216;
    subtract_byte(out, (rest % 256) as u8, pointer, 0)?;
    subtract_byte(out, (rest / 256 % 256) as u8, pointer, 1)?;
    subtract_byte(out, (rest / 65_536) as u8, pointer, 2)
}
