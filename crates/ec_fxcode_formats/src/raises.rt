//! Bits behind the point are added.
ghost use Rattle.std.specs.Prelude.{◌≡◌, suc, ◌+◌, ◌-◌, ◌/◌, ◌≤◌, ◌<◌, ◌++◌, OnOk, OnErr, min};
ghost use Rattle.ec_runs.specs.Behaviours.{BeginWith};
ghost use Rattle.ec_asm.specs.Pieces.{HasBytes, HasByte};
ghost use Rattle.ec_fxcode_formats.specs.Cuts.{bytes_below};
ghost use Rattle.ec_fxcode_formats.specs.Raises.{spare, signed_code, entered_code, half_code, puts_code, zero_byte, zeros_code};
ghost use Rattle.ec_fxcode_formats.specs.Raises.{more_code, placed_code, raise_code};

use crate::cuts::{bytes_below, clear, row_from};
use ec_asm::{AsmItem, Location, copy, halve};
use ec_fxcode::{fills, put_byte};
use ec_fxcode_shifts::mark;
use ec_isa::Instr;
use ec_space::{NoMemory, Seq};

/// The byte of the row below the number.
pub(crate) fn spare(bits: u8) -> u8
    requires { bits < 64 }
    ensures value { result ≡ spare bits }
    ensures few { result ≤ 1 }
{
    bytes_below(bits) - bits / 8
}

/// Appends code that marks the sign of a number of `m` bytes, where `k` bytes are more.
fn signed_from(
    out: &mut Seq<AsmItem>,
    signed: bool,
    from: Location,
    m: u8,
    k: u8,
) -> Result<(), NoMemory>
    requires top { HasByte from (m - 1) }
    requires some { 1 ≤ m }
    ensures ok { OnOk result (out.new.items ≡ out.old.items ++ signed_code signed from m k) }
    ensures err { OnErr result (BeginWith out.old.items out.new.items) }
{
    if m < k {
        return mark(out, signed, from, m);
    }
    Ok(())
}

/// Appends code that brings low bytes of a number to the row from byte `s` on, with bytes of its sign above them where
/// it has fewer.
fn enter(out: &mut Seq<AsmItem>, from: Location, m: u8, s: u8, k: u8) -> Result<(), NoMemory>
    requires from { HasBytes from (min m k) }
    requires room { s + k ≤ 6 }
    ensures ok { OnOk result (out.new.items ≡ out.old.items ++ entered_code from m s k) }
    ensures err { OnErr result (BeginWith out.old.items out.new.items) }
{
    let low = m.min(k);
    clear(out, 0, s)?;
    copy(out, from, row_from(s), low)?;
    fills(out, row_from(s), low, k)
}

/// Appends code that halves what is in the row with the byte below it, where not only whole bytes are added.
fn half(out: &mut Seq<AsmItem>, k: u8, bits: u8) -> Result<(), NoMemory>
    requires { k ≤ 6 }
    ensures ok { OnOk result (out.new.items ≡ out.old.items ++ half_code k bits) }
    ensures err { OnErr result (BeginWith out.old.items out.new.items) }
{
    if bits % 8 == 0 {
        return Ok(());
    }
    halve(out, row_from(0), false, k + 1)
}

/// Appends code that puts `k` bytes of the row to those of a place from byte `i` on.
fn puts(out: &mut Seq<AsmItem>, to: Location, i: u8, k: u8) -> Result<(), NoMemory>
    requires to { HasBytes to (i + k) }
    requires few { k ≤ 6 }
    requires low { i < 8 }
    ensures ok { OnOk result (out.new.items ≡ out.old.items ++ puts_code to i k) }
    ensures err { OnErr result (BeginWith out.old.items out.new.items) }
{
    for j in 0..k {
        put_byte(out, 8 + j, to, i + j)?;
    }
    Ok(())
}

/// Appends code that puts 0 to byte `i` of a place.
fn zero_byte(out: &mut Seq<AsmItem>, to: Location, i: u8) -> Result<(), NoMemory>
    requires { HasByte to i }
    ensures ok { OnOk result (out.new.items ≡ out.old.items ++ zero_byte to i) }
    ensures err { OnErr result (out.new.items ≡ out.old.items) }
{
    match to {
        Location::InRegisters(r) => out.extend_from_slice(&[AsmItem::Plain(Instr::Eor {
            d: r + i,
            r: r + i,
        })]),
        Location::InMemory { object, offset } => out.extend_from_slice(&[
            AsmItem::Plain(Instr::Eor { d: 0, r: 0 }),
            AsmItem::StoreObj {
                object,
                offset: offset + u32::from(i),
                r: 0,
            },
        ]),
    }
}

/// Appends code that puts 0 to the first `bytes` bytes of a place.
fn zeros(out: &mut Seq<AsmItem>, to: Location, bytes: u8) -> Result<(), NoMemory>
    requires { HasBytes to bytes }
    ensures ok { OnOk result (out.new.items ≡ out.old.items ++ zeros_code to bytes) }
    ensures err { OnErr result (BeginWith out.old.items out.new.items) }
{
    for i in 0..bytes {
        zero_byte(out, to, i)?;
    }
    Ok(())
}

/// Appends code that puts `k` bytes of a number with bits more to a place, from byte `i` on, and 0 below them.
fn more(
    out: &mut Seq<AsmItem>,
    from: Location,
    to: Location,
    m: u8,
    bits: u8,
    i: u8,
    k: u8,
) -> Result<(), NoMemory>
    requires from { HasBytes from (min m k) }
    requires to { HasBytes to (i + k) }
    requires low_bytes { HasBytes to i }
    requires bits { bits < 64 }
    requires low { i < 8 }
    requires room { spare bits + k ≤ 6 }
    ensures ok { OnOk result (out.new.items ≡ out.old.items ++ more_code from to m bits i k) }
    ensures err { OnErr result (BeginWith out.old.items out.new.items) }
{
    enter(out, from, m, spare(bits), k)?;
    half(out, k, bits)?;
    puts(out, to, i, k)?;
    zeros(out, to, i)
}

/// The same with the sign of the number.
fn placed(
    out: &mut Seq<AsmItem>,
    signed: bool,
    from: Location,
    to: Location,
    m: u8,
    bits: u8,
    i: u8,
    k: u8,
) -> Result<(), NoMemory>
    requires from { HasBytes from (min m k) }
    requires top { HasByte from (m - 1) }
    requires some { 1 ≤ m }
    requires to { HasBytes to (i + k) }
    requires low_bytes { HasBytes to i }
    requires bits { bits < 64 }
    requires low { i < 8 }
    requires room { spare bits + k ≤ 6 }
    ensures ok { OnOk result (out.new.items ≡ out.old.items ++ placed_code signed from to m bits i k) }
    ensures err { OnErr result (BeginWith out.old.items out.new.items) }
{
    signed_from(out, signed, from, m, k)?;
    more(out, from, to, m, bits, i, k)
}

/// Appends code that puts a number of `m` bytes with so many bits more to `n` bytes at another place. No result is
/// promised where it has no room there. Where memory runs out, a part of the code is appended.
#[tactic(auto, using(ec_fxcode_shifts::proofs::Places::fewer_bytes, ec_fxcode_shifts::proofs::Places::byte_there))]
pub fn raise(
    out: &mut Seq<AsmItem>,
    signed: bool,
    from: Location,
    to: Location,
    m: u8,
    n: u8,
    bits: u8,
) -> Result<(), NoMemory>
    requires from { HasBytes from m }
    requires top { HasByte from (m - 1) }
    requires to { HasBytes to n }
    requires some { 1 ≤ m }
    requires bits { bits < 64 }
    requires low { bits / 8 < n }
    requires room { spare bits + (n - bits / 8) ≤ 6 }
    ensures ok { OnOk result (out.new.items ≡ out.old.items ++ raise_code signed from to m n bits) }
    ensures err { OnErr result (BeginWith out.old.items out.new.items) }
{
    let i = bits / 8;
    placed(out, signed, from, to, m, bits, i, n - i)
}
