//! Pieces of code for a constant, a test and an extension.
ghost use Rattle.std.specs.Prelude.{◌≡◌, ◌≤◌, ◌+◌, ◌<◌, ◌^◌, ◌++◌, OnOk, OnErr};
ghost use Rattle.ec_runs.specs.Behaviours.{BeginWith};
ghost use Rattle.ec_asm.specs.Pieces.{HasByte, HasBytes, compares};
ghost use Rattle.ec_select_bytes.specs.Values.{byte_of, constant_byte, constant_code, byte_test, first_byte, put_byte};
ghost use Rattle.ec_select_bytes.specs.Values.{join_byte, join_code, test_code};
ghost use Rattle.ec_select_bytes.specs.Values.{take_byte, fill_code, puts_code, clears_code, widen_code, extend_code};

use ec_asm::{AsmItem, Location};
use ec_isa::Instr;
use ec_space::{NoMemory, Seq};

/// A load of a register from byte `i` after an offset.
fn load(d: u8, object: u16, offset: u32, i: u8) -> AsmItem
    requires { offset + i < 2 ^ 32 }
    ensures { result ≡ AsmItem.LoadObj d object (offset + i) }
{
    AsmItem::LoadObj {
        d,
        object,
        offset: offset + u32::from(i),
    }
}

/// A store of a register to byte `i` after an offset.
fn store(object: u16, offset: u32, i: u8, r: u8) -> AsmItem
    requires { offset + i < 2 ^ 32 }
    ensures { result ≡ AsmItem.StoreObj object (offset + i) r }
{
    AsmItem::StoreObj {
        object,
        offset: offset + u32::from(i),
        r,
    }
}

/// Appends code that puts a byte to byte `i` of a place, through R30 where LDI does not reach it.
fn constant_byte(out: &mut Seq<AsmItem>, to: Location, byte: u8, i: u8) -> Result<(), NoMemory>
    requires { HasByte to i }
    ensures ok { OnOk result (out.new.items ≡ out.old.items ++ constant_byte to byte i) }
    ensures err { OnErr result (out.new.items ≡ out.old.items) }
{
    match to {
        Location::InRegisters(r) if r + i >= 16 => out.extend_from_slice(&[AsmItem::Plain(
            Instr::Ldi { d: r + i, k: byte },
        )]),
        Location::InRegisters(r) => out.extend_from_slice(&[
            AsmItem::Plain(Instr::Ldi { d: 30, k: byte }),
            AsmItem::Plain(Instr::Mov { d: r + i, r: 30 }),
        ]),
        Location::InMemory { object, offset } => out.extend_from_slice(&[
            AsmItem::Plain(Instr::Ldi { d: 30, k: byte }),
            store(object, offset, i, 30),
        ]),
    }
}

/// Byte `i` of a number.
fn byte_of(number: u128, i: u8) -> u8
    requires { i < 16 }
    ensures { result ≡ byte_of number i }
{
    (number / 256u128.pow(u32::from(i)) % 256) as u8
}

/// Appends code that puts the lowest bytes of a number to a place. Where memory runs out, a part of the code is
/// appended.
pub fn constant(
    out: &mut Seq<AsmItem>,
    number: u128,
    to: Location,
    bytes: u8,
) -> Result<(), NoMemory>
    requires to { HasBytes to bytes }
    requires most { bytes ≤ 16 }
    ensures ok { OnOk result (out.new.items ≡ out.old.items ++ constant_code to number bytes) }
    ensures err { OnErr result (BeginWith out.old.items out.new.items) }
{
    for i in 0..bytes {
        constant_byte(out, to, byte_of(number, i), i)?;
    }
    Ok(())
}

/// The instruction that compares byte `i` with a register: the lowest byte takes no borrow.
fn compares(i: u8, d: u8, r: u8) -> Instr
    ensures { result ≡ compares i d r }
{
    if i == 0 {
        Instr::Cp { d, r }
    } else {
        Instr::Cpc { d, r }
    }
}

/// Appends code that leaves in Z whether the first byte of a number is 0.
fn test_byte(out: &mut Seq<AsmItem>, at: Location) -> Result<(), NoMemory>
    requires { HasByte at 0 }
    ensures ok { OnOk result (out.new.items ≡ out.old.items ++ byte_test at) }
    ensures err { OnErr result (out.new.items ≡ out.old.items) }
{
    match at {
        Location::InRegisters(r) => {
            out.extend_from_slice(&[AsmItem::Plain(Instr::And { d: r, r })])
        }
        Location::InMemory { object, offset } => out.extend_from_slice(&[
            load(0, object, offset, 0),
            AsmItem::Plain(Instr::And { d: 0, r: 0 }),
        ]),
    }
}

/// Appends code that brings the first byte of a number to R0.
fn bring_first(out: &mut Seq<AsmItem>, at: Location) -> Result<(), NoMemory>
    requires { HasByte at 0 }
    ensures ok { OnOk result (out.new.items ≡ out.old.items ++ first_byte at) }
    ensures err { OnErr result (out.new.items ≡ out.old.items) }
{
    match at {
        Location::InRegisters(r) => {
            out.extend_from_slice(&[AsmItem::Plain(Instr::Mov { d: 0, r })])
        }
        Location::InMemory { object, offset } => {
            out.extend_from_slice(&[load(0, object, offset, 0)])
        }
    }
}

/// Appends code that joins the byte behind byte `i` to R0 by OR.
fn join_byte(out: &mut Seq<AsmItem>, at: Location, i: u8) -> Result<(), NoMemory>
    requires some { i < 255 }
    requires there { HasByte at (1 + i) }
    ensures ok { OnOk result (out.new.items ≡ out.old.items ++ join_byte at i) }
    ensures err { OnErr result (out.new.items ≡ out.old.items) }
{
    match at {
        Location::InRegisters(r) => {
            out.extend_from_slice(&[AsmItem::Plain(Instr::Or {
                d: 0,
                r: r + (1 + i),
            })])
        }
        Location::InMemory { object, offset } => out.extend_from_slice(&[
            load(1, object, offset, 1 + i),
            AsmItem::Plain(Instr::Or { d: 0, r: 1 }),
        ]),
    }
}

/// Appends code that leaves in Z whether a number of so many bytes is 0. Where memory runs out, a part of the code is
/// appended.
pub fn test(out: &mut Seq<AsmItem>, at: Location, bytes: u8) -> Result<(), NoMemory>
    requires { HasBytes at bytes }
    ensures ok { OnOk result (out.new.items ≡ out.old.items ++ test_code at bytes) }
    ensures err { OnErr result (BeginWith out.old.items out.new.items) }
{
    if bytes == 0 {
        return Ok(());
    }
    if bytes == 1 {
        return test_byte(out, at);
    }
    bring_first(out, at)?;
    join_bytes(out, at, bytes - 1)
}

/// Appends code that joins so many bytes behind the first one to R0.
fn join_bytes(out: &mut Seq<AsmItem>, at: Location, count: u8) -> Result<(), NoMemory>
    requires some { count < 255 }
    requires there { HasBytes at (count + 1) }
    ensures ok { OnOk result (out.new.items ≡ out.old.items ++ join_code at count) }
    ensures err { OnErr result (BeginWith out.old.items out.new.items) }
{
    for i in 0..count {
        join_byte(out, at, i)?;
    }
    Ok(())
}

/// Appends code that puts the byte of R0 to byte `i` of a place.
fn put_byte(out: &mut Seq<AsmItem>, to: Location, i: u8) -> Result<(), NoMemory>
    requires { HasByte to i }
    ensures ok { OnOk result (out.new.items ≡ out.old.items ++ put_byte to i) }
    ensures err { OnErr result (out.new.items ≡ out.old.items) }
{
    match to {
        Location::InRegisters(r) => {
            out.extend_from_slice(&[AsmItem::Plain(Instr::Mov { d: r + i, r: 0 })])
        }
        Location::InMemory { object, offset } => {
            out.extend_from_slice(&[store(object, offset, i, 0)])
        }
    }
}

/// Appends code that takes byte `i` of a place to R0.
fn take_byte(out: &mut Seq<AsmItem>, from: Location, i: u8) -> Result<(), NoMemory>
    requires { HasByte from i }
    ensures ok { OnOk result (out.new.items ≡ out.old.items ++ take_byte from i) }
    ensures err { OnErr result (out.new.items ≡ out.old.items) }
{
    match from {
        Location::InRegisters(r) => {
            out.extend_from_slice(&[AsmItem::Plain(Instr::Mov { d: 0, r: r + i })])
        }
        Location::InMemory { object, offset } => {
            out.extend_from_slice(&[load(0, object, offset, i)])
        }
    }
}

/// Appends code that makes R0 the byte above a number of `m` bytes.
fn fill(out: &mut Seq<AsmItem>, signed: bool, at: Location, m: u8) -> Result<(), NoMemory>
    requires at { HasBytes at m }
    requires some { 1 ≤ m }
    ensures ok { OnOk result (out.new.items ≡ out.old.items ++ fill_code signed at m) }
    ensures err { OnErr result (BeginWith out.old.items out.new.items) }
{
    if signed {
        take_byte(out, at, m - 1)?;
        out.extend_from_slice(&[
            AsmItem::Plain(Instr::Add { d: 0, r: 0 }),
            AsmItem::Plain(Instr::Sbc { d: 0, r: 0 }),
        ])
    } else {
        out.extend_from_slice(&[AsmItem::Plain(Instr::Eor { d: 0, r: 0 })])
    }
}

/// Appends code that puts the byte of R0 to so many bytes of a place, from byte `m` on.
fn puts(out: &mut Seq<AsmItem>, at: Location, m: u8, count: u8) -> Result<(), NoMemory>
    requires at { HasBytes at (m + count) }
    requires most { m + count < 256 }
    ensures ok { OnOk result (out.new.items ≡ out.old.items ++ puts_code at m count) }
    ensures err { OnErr result (BeginWith out.old.items out.new.items) }
{
    for i in 0..count {
        put_byte(out, at, m + i)?;
    }
    Ok(())
}

/// Appends code that makes so many registers 0, from byte `m` on.
fn clears(out: &mut Seq<AsmItem>, first: u8, m: u8, count: u8) -> Result<(), NoMemory>
    requires at { first + m + count ≤ 32 }
    ensures ok { OnOk result (out.new.items ≡ out.old.items ++ clears_code first m count) }
    ensures err { OnErr result (BeginWith out.old.items out.new.items) }
{
    for i in 0..count {
        let d = first + (m + i);
        out.extend_from_slice(&[AsmItem::Plain(Instr::Eor { d, r: d })])?;
    }
    Ok(())
}

/// Appends code that gives a number of `m` bytes so many bytes more.
fn widen(
    out: &mut Seq<AsmItem>,
    signed: bool,
    at: Location,
    m: u8,
    count: u8,
) -> Result<(), NoMemory>
    requires at { HasBytes at (m + count) }
    requires some { 1 ≤ m }
    requires most { m + count < 256 }
    ensures ok { OnOk result (out.new.items ≡ out.old.items ++ widen_code signed at m count) }
    ensures err { OnErr result (BeginWith out.old.items out.new.items) }
{
    match at {
        Location::InRegisters(first) if !signed => clears(out, first, m, count),
        _ => {
            fill(out, signed, at, m)?;
            puts(out, at, m, count)
        }
    }
}

/// Appends code that gives a number of `m` bytes the bytes above it, up to `n`: its sign, or 0. Where memory runs out,
/// a part of the code is appended.
pub fn extend(
    out: &mut Seq<AsmItem>,
    signed: bool,
    at: Location,
    m: u8,
    n: u8,
) -> Result<(), NoMemory>
    requires at { HasBytes at n }
    requires some { 1 ≤ m }
    ensures ok { OnOk result (out.new.items ≡ out.old.items ++ extend_code signed at m n) }
    ensures err { OnErr result (BeginWith out.old.items out.new.items) }
{
    if n <= m {
        return Ok(());
    }
    widen(out, signed, at, m, n - m)
}
