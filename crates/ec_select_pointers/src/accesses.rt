//! Loads and stores through pointers, and loads from places in the flash bank.
ghost use Rattle.std.specs.Prelude.{◌≡◌, ◌<◌, ◌^◌, ◌++◌, OnOk, OnErr};
ghost use Rattle.ec_runs.specs.Behaviours.{BeginWith};
ghost use Rattle.ec_asm.specs.Pieces.{HasByte, HasBytes};
ghost use Rattle.ec_select_pointers.specs.Accesses.{point_code, data_byte, flash_byte, data_bytes, flash_bytes};
ghost use Rattle.ec_select_pointers.specs.Accesses.{load_data_code, load_flash_code, bytes_words, tag_test, over};
ghost use Rattle.ec_select_pointers.specs.Accesses.{either_bytes, load_any_code, store_byte, store_bytes};
ghost use Rattle.ec_select_pointers.specs.Accesses.{store_data_code, load_table_code};

use crate::memory::{load, store};
use ec_asm::{AsmItem, Location, copy};
use ec_isa::Instr;
use ec_space::{NoMemory, Seq};

/// Appends code that sets Z to the address in a pointer, or to another number of two bytes: by one MOVW from an even register.
/// Where memory runs out, a part of the code is appended.
pub fn point(out: &mut Seq<AsmItem>, pointer: Location) -> Result<(), NoMemory>
    requires { HasBytes pointer 2 }
    ensures ok { OnOk result (out.new.items ≡ out.old.items ++ point_code pointer) }
    ensures err { OnErr result (BeginWith out.old.items out.new.items) }
{
    match pointer {
        Location::InRegisters(r) if r % 2 == 0 => {
            out.extend_from_slice(&[AsmItem::Plain(Instr::Movw { d: 30, r })])
        }
        _ => copy(out, pointer, Location::InRegisters(30), 2),
    }
}

/// Appends code that loads byte `i` from the data bank, where Z is the address of byte 0.
fn data_byte(out: &mut Seq<AsmItem>, to: Location, i: u8) -> Result<(), NoMemory>
    requires { HasByte to i }
    ensures ok { OnOk result (out.new.items ≡ out.old.items ++ data_byte to i) }
    ensures err { OnErr result (out.new.items ≡ out.old.items) }
{
    match to {
        Location::InRegisters(r) => {
            out.extend_from_slice(&[AsmItem::Plain(Instr::LddZ { d: r + i, q: i })])
        }
        Location::InMemory { object, offset } => out.extend_from_slice(&[
            AsmItem::Plain(Instr::LddZ { d: 0, q: i }),
            store(object, offset, i, 0),
        ]),
    }
}

pub(crate) fn data_bytes(out: &mut Seq<AsmItem>, to: Location, bytes: u8) -> Result<(), NoMemory>
    requires { HasBytes to bytes }
    ensures ok { OnOk result (out.new.items ≡ out.old.items ++ data_bytes to bytes) }
    ensures err { OnErr result (BeginWith out.old.items out.new.items) }
{
    for i in 0..bytes {
        data_byte(out, to, i)?;
    }
    Ok(())
}

/// Appends code that loads byte `i` from the flash bank, where Z is its address.
fn flash_byte(out: &mut Seq<AsmItem>, to: Location, i: u8) -> Result<(), NoMemory>
    requires { HasByte to i }
    ensures ok { OnOk result (out.new.items ≡ out.old.items ++ flash_byte to i) }
    ensures err { OnErr result (out.new.items ≡ out.old.items) }
{
    match to {
        Location::InRegisters(r) => {
            out.extend_from_slice(&[AsmItem::Plain(Instr::LpmZPlus { d: r + i })])
        }
        Location::InMemory { object, offset } => out.extend_from_slice(&[
            AsmItem::Plain(Instr::LpmZPlus { d: 0 }),
            store(object, offset, i, 0),
        ]),
    }
}

pub(crate) fn flash_bytes(out: &mut Seq<AsmItem>, to: Location, bytes: u8) -> Result<(), NoMemory>
    requires { HasBytes to bytes }
    ensures ok { OnOk result (out.new.items ≡ out.old.items ++ flash_bytes to bytes) }
    ensures err { OnErr result (BeginWith out.old.items out.new.items) }
{
    for i in 0..bytes {
        flash_byte(out, to, i)?;
    }
    Ok(())
}

/// Appends code that loads a number of so many bytes from the data bank, through the pointer at `pointer`. Where memory
/// runs out, a part of the code is appended.
pub fn load_data(
    out: &mut Seq<AsmItem>,
    pointer: Location,
    to: Location,
    bytes: u8,
) -> Result<(), NoMemory>
    requires pointer { HasBytes pointer 2 }
    requires to { HasBytes to bytes }
    ensures ok { OnOk result (out.new.items ≡ out.old.items ++ load_data_code pointer to bytes) }
    ensures err { OnErr result (BeginWith out.old.items out.new.items) }
{
    point(out, pointer)?;
    data_bytes(out, to, bytes)
}

/// Appends code that loads a number of so many bytes from the flash bank, through the pointer at `pointer`. Where
/// memory runs out, a part of the code is appended.
pub fn load_flash(
    out: &mut Seq<AsmItem>,
    pointer: Location,
    to: Location,
    bytes: u8,
) -> Result<(), NoMemory>
    requires pointer { HasBytes pointer 2 }
    requires to { HasBytes to bytes }
    ensures ok { OnOk result (out.new.items ≡ out.old.items ++ load_flash_code pointer to bytes) }
    ensures err { OnErr result (BeginWith out.old.items out.new.items) }
{
    point(out, pointer)?;
    flash_bytes(out, to, bytes)
}

/// Appends code that loads a number of so many bytes from a place in the flash bank, whose address
/// is known when the code is placed. Where memory runs out, a part of the code is appended.
pub fn load_table(
    out: &mut Seq<AsmItem>,
    object: u16,
    offset: u32,
    to: Location,
    bytes: u8,
) -> Result<(), NoMemory>
    requires { HasBytes to bytes }
    ensures ok { OnOk result (out.new.items
        ≡ out.old.items ++ load_table_code object offset to bytes) }
    ensures err { OnErr result (BeginWith out.old.items out.new.items) }
{
    out.extend_from_slice(&[
        AsmItem::LoadPart {
            d: 30,
            object,
            offset,
            part: 0,
        },
        AsmItem::LoadPart {
            d: 31,
            object,
            offset,
            part: 1,
        },
    ])?;
    flash_bytes(out, to, bytes)
}

/// The words of a load from either bank.
pub(crate) fn bytes_words(to: Location, bytes: u8) -> u16
    ensures value { result ≡ bytes_words to bytes }
    ensures most { result < 2 ^ 10 }
{
    let each = match to {
        Location::InRegisters(_) => 1,
        Location::InMemory { .. } => 3,
    };
    each * u16::from(bytes)
}

/// Appends a jump over so many words.
pub(crate) fn over(out: &mut Seq<AsmItem>, words: u16) -> Result<(), NoMemory>
    requires { words < 2 ^ 11 }
    ensures ok { OnOk result (out.new.items ≡ out.old.items ++ over words) }
    ensures err { OnErr result (out.new.items ≡ out.old.items) }
{
    out.extend_from_slice(&[AsmItem::Plain(Instr::Rjmp { k: words as i16 })])
}

/// Appends code that passes over the next word where the top bit of the third byte of a pointer is 1.
fn tag_test(out: &mut Seq<AsmItem>, pointer: Location) -> Result<(), NoMemory>
    requires { HasBytes pointer 3 }
    ensures ok { OnOk result (out.new.items ≡ out.old.items ++ tag_test pointer) }
    ensures err { OnErr result (out.new.items ≡ out.old.items) }
{
    match pointer {
        Location::InRegisters(r) => {
            out.extend_from_slice(&[AsmItem::Plain(Instr::Sbrs { r: r + 2, b: 7 })])
        }
        Location::InMemory { object, offset } => out.extend_from_slice(&[
            load(0, object, offset, 2),
            AsmItem::Plain(Instr::Sbrs { r: 0, b: 7 }),
        ]),
    }
}

/// Appends code that loads so many bytes from the data bank where its first word is passed over, and else from the
/// flash bank.
fn either_bytes(out: &mut Seq<AsmItem>, to: Location, bytes: u8) -> Result<(), NoMemory>
    requires { HasBytes to bytes }
    ensures ok { OnOk result (out.new.items ≡ out.old.items ++ either_bytes to bytes) }
    ensures err { OnErr result (BeginWith out.old.items out.new.items) }
{
    let words = bytes_words(to, bytes);
    over(out, words + 1)?;
    data_bytes(out, to, bytes)?;
    over(out, words)?;
    flash_bytes(out, to, bytes)
}

/// Appends code that loads a number of so many bytes through the pointer at `pointer`, whose third byte tells the bank.
/// Where memory runs out, a part of the code is appended.
pub fn load_any(
    out: &mut Seq<AsmItem>,
    pointer: Location,
    to: Location,
    bytes: u8,
) -> Result<(), NoMemory>
    requires pointer { HasBytes pointer 3 }
    requires to { HasBytes to bytes }
    ensures ok { OnOk result (out.new.items ≡ out.old.items ++ load_any_code pointer to bytes) }
    ensures err { OnErr result (BeginWith out.old.items out.new.items) }
{
    point(out, pointer)?;
    tag_test(out, pointer)?;
    either_bytes(out, to, bytes)
}

/// Appends code that stores byte `i` of a number to the data bank, where Z is the address of byte 0.
fn store_byte(out: &mut Seq<AsmItem>, from: Location, i: u8) -> Result<(), NoMemory>
    requires { HasByte from i }
    ensures ok { OnOk result (out.new.items ≡ out.old.items ++ store_byte from i) }
    ensures err { OnErr result (out.new.items ≡ out.old.items) }
{
    match from {
        Location::InRegisters(r) => {
            out.extend_from_slice(&[AsmItem::Plain(Instr::StdZ { q: i, r: r + i })])
        }
        Location::InMemory { object, offset } => out.extend_from_slice(&[
            load(0, object, offset, i),
            AsmItem::Plain(Instr::StdZ { q: i, r: 0 }),
        ]),
    }
}

fn store_bytes(out: &mut Seq<AsmItem>, from: Location, bytes: u8) -> Result<(), NoMemory>
    requires { HasBytes from bytes }
    ensures ok { OnOk result (out.new.items ≡ out.old.items ++ store_bytes from bytes) }
    ensures err { OnErr result (BeginWith out.old.items out.new.items) }
{
    for i in 0..bytes {
        store_byte(out, from, i)?;
    }
    Ok(())
}

/// Appends code that stores a number of so many bytes to the data bank, through the pointer at `pointer`. Where memory
/// runs out, a part of the code is appended.
pub fn store_data(
    out: &mut Seq<AsmItem>,
    from: Location,
    pointer: Location,
    bytes: u8,
) -> Result<(), NoMemory>
    requires from { HasBytes from bytes }
    requires pointer { HasBytes pointer 2 }
    ensures ok { OnOk result (out.new.items ≡ out.old.items ++ store_data_code from pointer bytes) }
    ensures err { OnErr result (BeginWith out.old.items out.new.items) }
{
    point(out, pointer)?;
    store_bytes(out, from, bytes)
}
