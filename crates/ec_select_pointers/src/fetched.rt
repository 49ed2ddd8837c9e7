//! A pointer that stays in Z.
ghost use Rattle.std.specs.Prelude.{◌≡◌, ◌+◌, ◌<◌, ◌≤◌, ◌++◌, OnOk, OnErr};
ghost use Rattle.ec_runs.specs.Behaviours.{BeginWith};
ghost use Rattle.ec_asm.specs.Pieces.{HasByte, HasBytes};
ghost use Rattle.ec_select_pointers.specs.Fetched.{z_register, fetch_byte, fetch_code, member_byte, load_member_code};
ghost use Rattle.ec_select_pointers.specs.Fetched.{go_on_code, go_on_words, load_further_code, either_further};
ghost use Rattle.ec_select_pointers.specs.Fetched.{load_tagged_code, store_member_byte, store_member_code};

use crate::accesses::{bytes_words, flash_bytes, over};
use crate::memory::{load, store};
use ec_asm::{AsmItem, Location};
use ec_isa::Instr;
use ec_space::{NoMemory, Seq};

/// The register that byte `i` of a pointer is brought to: the low two bytes to Z, and any other to R0.
fn z_register(i: u8) -> u8
    ensures { result ≡ z_register i }
{
    if i < 2 { 30 + i } else { 0 }
}

/// Appends code that brings byte `i` of a pointer to its register.
fn fetch_byte(out: &mut Seq<AsmItem>, pointer: Location, i: u8) -> Result<(), NoMemory>
    requires { HasByte pointer i }
    ensures ok { OnOk result (out.new.items ≡ out.old.items ++ fetch_byte pointer i) }
    ensures err { OnErr result (out.new.items ≡ out.old.items) }
{
    let d = z_register(i);
    match pointer {
        Location::InRegisters(r) => {
            out.extend_from_slice(&[AsmItem::Plain(Instr::Mov { d, r: r + i })])
        }
        Location::InMemory { object, offset } => {
            out.extend_from_slice(&[load(d, object, offset, i)])
        }
    }
}

/// Appends code that reads all bytes of a pointer and leaves the low two of them in Z. Where memory runs out, a part of
/// the code is appended.
pub fn fetch(out: &mut Seq<AsmItem>, pointer: Location, bytes: u8) -> Result<(), NoMemory>
    requires { HasBytes pointer bytes }
    ensures ok { OnOk result (out.new.items ≡ out.old.items ++ fetch_code pointer bytes) }
    ensures err { OnErr result (BeginWith out.old.items out.new.items) }
{
    for i in 0..bytes {
        fetch_byte(out, pointer, i)?;
    }
    Ok(())
}

/// Appends code that loads byte `i` of a number that begins at a displacement from Z.
fn member_byte(
    out: &mut Seq<AsmItem>,
    displacement: u8,
    to: Location,
    i: u8,
) -> Result<(), NoMemory>
    requires to { HasByte to i }
    requires reach { displacement + i < 64 }
    ensures ok { OnOk result (out.new.items ≡ out.old.items ++ member_byte displacement to i) }
    ensures err { OnErr result (out.new.items ≡ out.old.items) }
{
    let q = displacement + i;
    match to {
        Location::InRegisters(r) => {
            out.extend_from_slice(&[AsmItem::Plain(Instr::LddZ { d: r + i, q })])
        }
        Location::InMemory { object, offset } => out.extend_from_slice(&[
            AsmItem::Plain(Instr::LddZ { d: 0, q }),
            store(object, offset, i, 0),
        ]),
    }
}

/// Appends code that loads a number of so many bytes from the data bank, at a displacement from Z. Where memory runs out,
/// a part of the code is appended.
pub fn load_member(
    out: &mut Seq<AsmItem>,
    displacement: u8,
    to: Location,
    bytes: u8,
) -> Result<(), NoMemory>
    requires to { HasBytes to bytes }
    requires reach { displacement + bytes ≤ 64 }
    ensures ok { OnOk result (out.new.items ≡ out.old.items ++ load_member_code displacement to bytes) }
    ensures err { OnErr result (BeginWith out.old.items out.new.items) }
{
    for i in 0..bytes {
        member_byte(out, displacement, to, i)?;
    }
    Ok(())
}

/// Appends code that moves Z on by an offset.
fn go_on(out: &mut Seq<AsmItem>, offset: u8) -> Result<(), NoMemory>
    ensures ok { OnOk result (out.new.items ≡ out.old.items ++ go_on_code offset) }
    ensures err { OnErr result (out.new.items ≡ out.old.items) }
{
    if offset == 0 {
        Ok(())
    } else {
        out.extend_from_slice(&[AsmItem::Plain(Instr::Adiw { d: 30, k: offset })])
    }
}

/// The words of that.
fn go_on_words(offset: u8) -> u16
    ensures value { result ≡ go_on_words offset }
    ensures most { result ≤ 1 }
{
    if offset == 0 { 0 } else { 1 }
}

/// Appends code that loads a number of so many bytes from the flash bank, at an offset from Z. Where memory runs out, a part
/// of the code is appended.
pub fn load_further(
    out: &mut Seq<AsmItem>,
    offset: u8,
    to: Location,
    bytes: u8,
) -> Result<(), NoMemory>
    requires to { HasBytes to bytes }
    ensures ok { OnOk result (out.new.items ≡ out.old.items ++ load_further_code offset to bytes) }
    ensures err { OnErr result (BeginWith out.old.items out.new.items) }
{
    go_on(out, offset)?;
    flash_bytes(out, to, bytes)
}

/// Appends code that loads so many bytes at an offset from Z from the data bank where its first word is passed over, and else
/// from the flash bank.
fn either_further(
    out: &mut Seq<AsmItem>,
    offset: u8,
    to: Location,
    bytes: u8,
) -> Result<(), NoMemory>
    requires to { HasBytes to bytes }
    requires reach { offset + bytes ≤ 64 }
    ensures ok { OnOk result (out.new.items ≡ out.old.items ++ either_further offset to bytes) }
    ensures err { OnErr result (BeginWith out.old.items out.new.items) }
{
    let words = bytes_words(to, bytes);
    over(out, words + 1)?;
    load_member(out, offset, to, bytes)?;
    over(out, go_on_words(offset) + words)?;
    load_further(out, offset, to, bytes)
}

/// Appends code that loads a number of so many bytes at an offset from Z, from the bank that the tag in R0 tells. Where
/// memory runs out, a part of the code is appended.
pub fn load_tagged(
    out: &mut Seq<AsmItem>,
    offset: u8,
    to: Location,
    bytes: u8,
) -> Result<(), NoMemory>
    requires to { HasBytes to bytes }
    requires reach { offset + bytes ≤ 64 }
    ensures ok { OnOk result (out.new.items ≡ out.old.items ++ load_tagged_code offset to bytes) }
    ensures err { OnErr result (BeginWith out.old.items out.new.items) }
{
    out.extend_from_slice(&[AsmItem::Plain(Instr::Sbrs { r: 0, b: 7 })])?;
    either_further(out, offset, to, bytes)
}

/// Appends code that stores byte `i` of a number where one begins at a displacement from Z.
fn store_member_byte(
    out: &mut Seq<AsmItem>,
    displacement: u8,
    from: Location,
    i: u8,
) -> Result<(), NoMemory>
    requires from { HasByte from i }
    requires reach { displacement + i < 64 }
    ensures ok { OnOk result (out.new.items ≡ out.old.items ++ store_member_byte displacement from i) }
    ensures err { OnErr result (out.new.items ≡ out.old.items) }
{
    let q = displacement + i;
    match from {
        Location::InRegisters(r) => {
            out.extend_from_slice(&[AsmItem::Plain(Instr::StdZ { q, r: r + i })])
        }
        Location::InMemory { object, offset } => out.extend_from_slice(&[
            load(0, object, offset, i),
            AsmItem::Plain(Instr::StdZ { q, r: 0 }),
        ]),
    }
}

/// Appends code that stores a number of so many bytes to the data bank, at a displacement from Z. Where memory runs out, a
/// part of the code is appended.
pub fn store_member(
    out: &mut Seq<AsmItem>,
    displacement: u8,
    from: Location,
    bytes: u8,
) -> Result<(), NoMemory>
    requires from { HasBytes from bytes }
    requires reach { displacement + bytes ≤ 64 }
    ensures ok { OnOk result (out.new.items ≡ out.old.items ++ store_member_code displacement from bytes) }
    ensures err { OnErr result (BeginWith out.old.items out.new.items) }
{
    for i in 0..bytes {
        store_member_byte(out, displacement, from, i)?;
    }
    Ok(())
}
