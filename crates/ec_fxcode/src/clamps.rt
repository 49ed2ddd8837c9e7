//! A number brought into a format.
ghost use Rattle.std.specs.Prelude.{◌≡◌, ℕ, ◌+◌, ◌-◌, ◌*◌, ◌/◌, ◌≤◌, ◌<◌, ◌^◌, ◌++◌, true, false, OnOk, OnErr};
ghost use Rattle.ec_runs.specs.Behaviours.{BeginWith};
ghost use Rattle.ec_asm.specs.Pieces.{HasBytes, HasByte};
ghost use Rattle.ec_fx.specs.Formats.{IsFormat};
ghost use Rattle.ec_fxcode.specs.Clamps.{take_byte, put_byte, sign_code, fills_code, extended_code, wanted_code};
ghost use Rattle.ec_fxcode.specs.Clamps.{gather_byte, gather_code, masks_code, end_byte, top_byte, ends_code};
ghost use Rattle.ec_fxcode.specs.Clamps.{saturate_code, may_pass, saturate_if, clamp_code};
ghost use Rattle.ec_fxcode.specs.Slots.{IsSlot, ShareNoByte, place_of};

use ec_asm::{AsmItem, Location, Slot, copy};
use ec_fx::{Format, Mode};
use ec_isa::Instr;
use ec_space::{NoMemory, Seq};
use std::alloc::Global;

/// Appends code that takes byte `i` of a number to R0.
pub fn take_byte(out: &mut Seq<AsmItem>, from: Location, i: u8) -> Result<(), NoMemory>
    requires { HasByte from i }
    ensures ok { OnOk result (out.new.items ≡ out.old.items ++ take_byte from i) }
    ensures err { OnErr result (out.new.items ≡ out.old.items) }
{
    match from {
        Location::InRegisters(r) => {
            out.extend_from_slice(&[AsmItem::Plain(Instr::Mov { d: 0, r: r + i })])
        }
        Location::InMemory { object, offset } => out.extend_from_slice(&[AsmItem::LoadObj {
            d: 0,
            object,
            offset: offset + u32::from(i),
        }]),
    }
}

/// Appends code that puts the byte of a register to byte `i` of a place.
pub fn put_byte(out: &mut Seq<AsmItem>, register: u8, to: Location, i: u8) -> Result<(), NoMemory>
    requires { HasByte to i }
    ensures ok { OnOk result (out.new.items ≡ out.old.items ++ put_byte register to i) }
    ensures err { OnErr result (out.new.items ≡ out.old.items) }
{
    match to {
        Location::InRegisters(r) => out.extend_from_slice(&[AsmItem::Plain(Instr::Mov {
            d: r + i,
            r: register,
        })]),
        Location::InMemory { object, offset } => out.extend_from_slice(&[AsmItem::StoreObj {
            object,
            offset: offset + u32::from(i),
            r: register,
        }]),
    }
}

/// Appends code that makes R31 0, or 255 where a number is negative.
pub fn sign(out: &mut Seq<AsmItem>, from: Location, bytes: u8) -> Result<(), NoMemory>
    requires from { HasByte from (bytes - 1) }
    requires some { 1 ≤ bytes }
    ensures ok { OnOk result (out.new.items ≡ out.old.items ++ sign_code from bytes) }
    ensures err { OnErr result (BeginWith out.old.items out.new.items) }
{
    take_byte(out, from, bytes - 1)?;
    out.extend_from_slice(&[
        AsmItem::Plain(Instr::Add { d: 0, r: 0 }),
        AsmItem::Plain(Instr::Sbc { d: 31, r: 31 }),
    ])
}

/// Appends code that puts R31 to the bytes of a place from byte `m` up to byte `bytes`.
pub fn fills(out: &mut Seq<AsmItem>, to: Location, m: u8, bytes: u8) -> Result<(), NoMemory>
    requires to { HasBytes to bytes }
    requires most { m ≤ bytes }
    ensures ok { OnOk result (out.new.items ≡ out.old.items ++ fills_code to m bytes) }
    ensures err { OnErr result (BeginWith out.old.items out.new.items) }
{
    for i in 0..bytes - m {
        put_byte(out, 31, to, m + i)?;
    }
    Ok(())
}

/// Appends code that puts the low `k` bytes of a number of `n` bytes to a place, with bytes of its sign above them
/// where it has fewer.
fn extended(
    out: &mut Seq<AsmItem>,
    from: Location,
    n: u8,
    to: Location,
    k: u8,
) -> Result<(), NoMemory>
    requires from { HasBytes from n }
    requires top { HasByte from (n - 1) }
    requires to { HasBytes to k }
    requires some { 1 ≤ n }
    ensures ok { OnOk result (out.new.items ≡ out.old.items ++ extended_code from to n k) }
    ensures err { OnErr result (BeginWith out.old.items out.new.items) }
{
    let m = n.min(k);
    sign(out, from, n)?;
    copy(out, from, to, m)?;
    fills(out, to, m, k)
}

/// Appends code that makes R1 what each byte above the `k`-th has to be, and R30 0 where the number has the sign that
/// it may have.
fn wanted(out: &mut Seq<AsmItem>, signed: bool, from: Location, k: u8) -> Result<(), NoMemory>
    requires from { signed ≡ true → HasByte from (k - 1) }
    requires some { 1 ≤ k }
    ensures ok { OnOk result (out.new.items ≡ out.old.items ++ wanted_code signed from k) }
    ensures err { OnErr result (BeginWith out.old.items out.new.items) }
{
    if signed {
        take_byte(out, from, k - 1)?;
        out.extend_from_slice(&[
            AsmItem::Plain(Instr::Add { d: 0, r: 0 }),
            AsmItem::Plain(Instr::Sbc { d: 1, r: 1 }),
            AsmItem::Plain(Instr::Eor { d: 30, r: 30 }),
        ])
    } else {
        out.extend_from_slice(&[
            AsmItem::Plain(Instr::Eor { d: 1, r: 1 }),
            AsmItem::Plain(Instr::Mov { d: 30, r: 31 }),
        ])
    }
}

/// Appends code that keeps R30 at 0 where byte `j` is what R1 has.
fn gather_byte(out: &mut Seq<AsmItem>, from: Location, j: u8) -> Result<(), NoMemory>
    requires { HasByte from j }
    ensures ok { OnOk result (out.new.items ≡ out.old.items ++ gather_byte from j) }
    ensures err { OnErr result (BeginWith out.old.items out.new.items) }
{
    take_byte(out, from, j)?;
    out.extend_from_slice(&[
        AsmItem::Plain(Instr::Sub { d: 0, r: 1 }),
        AsmItem::Plain(Instr::Or { d: 30, r: 0 }),
    ])
}

fn gather(out: &mut Seq<AsmItem>, from: Location, k: u8, n: u8) -> Result<(), NoMemory>
    requires { HasBytes from n }
    ensures ok { OnOk result (out.new.items ≡ out.old.items ++ gather_code from k n) }
    ensures err { OnErr result (BeginWith out.old.items out.new.items) }
{
    if n <= k {
        return Ok(());
    }
    for i in 0..n - k {
        gather_byte(out, from, k + i)?;
    }
    Ok(())
}

/// Appends code that makes R30 255 where the number fits, and else 0, and R31 what is added to the bytes then.
fn masks(out: &mut Seq<AsmItem>) -> Result<(), NoMemory>
    ensures ok { OnOk result (out.new.items ≡ out.old.items ++ masks_code) }
    ensures err { OnErr result (out.new.items ≡ out.old.items) }
{
    out.extend_from_slice(&[
        AsmItem::Plain(Instr::Neg { d: 30 }),
        AsmItem::Plain(Instr::Sbc { d: 30, r: 30 }),
        AsmItem::Plain(Instr::Com { d: 31 }),
        AsmItem::Plain(Instr::And { d: 31, r: 30 }),
        AsmItem::Plain(Instr::Com { d: 30 }),
    ])
}

/// Appends code that puts byte `i` of the end of the range where the number does not fit.
fn end_byte(out: &mut Seq<AsmItem>, to: Location, i: u8) -> Result<(), NoMemory>
    requires { HasByte to i }
    ensures ok { OnOk result (out.new.items ≡ out.old.items ++ end_byte to i) }
    ensures err { OnErr result (BeginWith out.old.items out.new.items) }
{
    take_byte(out, to, i)?;
    out.extend_from_slice(&[
        AsmItem::Plain(Instr::And { d: 0, r: 30 }),
        AsmItem::Plain(Instr::Add { d: 0, r: 31 }),
    ])?;
    put_byte(out, 0, to, i)
}

fn end_bytes(out: &mut Seq<AsmItem>, to: Location, bytes: u8) -> Result<(), NoMemory>
    requires { HasBytes to bytes }
    ensures ok { OnOk result (out.new.items ≡ out.old.items ++ ends_code false to bytes) }
    ensures err { OnErr result (BeginWith out.old.items out.new.items) }
{
    for i in 0..bytes {
        end_byte(out, to, i)?;
    }
    Ok(())
}

/// The same of the highest byte of a number with a sign.
fn top_byte(out: &mut Seq<AsmItem>, to: Location, i: u8) -> Result<(), NoMemory>
    requires { HasByte to i }
    ensures ok { OnOk result (out.new.items ≡ out.old.items ++ top_byte to i) }
    ensures err { OnErr result (BeginWith out.old.items out.new.items) }
{
    take_byte(out, to, i)?;
    out.extend_from_slice(&[
        AsmItem::Plain(Instr::And { d: 0, r: 30 }),
        AsmItem::Plain(Instr::Com { d: 30 }),
        AsmItem::Plain(Instr::Andi { d: 30, k: 128 }),
        AsmItem::Plain(Instr::Add { d: 31, r: 30 }),
        AsmItem::Plain(Instr::Add { d: 0, r: 31 }),
    ])?;
    put_byte(out, 0, to, i)
}

fn ends(out: &mut Seq<AsmItem>, signed: bool, to: Location, bytes: u8) -> Result<(), NoMemory>
    requires to { HasBytes to bytes }
    requires top { HasByte to (bytes - 1) }
    requires some { 1 ≤ bytes }
    ensures ok { OnOk result (out.new.items ≡ out.old.items ++ ends_code signed to bytes) }
    ensures err { OnErr result (BeginWith out.old.items out.new.items) }
{
    if signed {
        end_bytes(out, to, bytes - 1)?;
        top_byte(out, to, bytes - 1)
    } else {
        end_bytes(out, to, bytes)
    }
}

/// Appends code that puts the end of the range where the number does not fit.
fn saturate(
    out: &mut Seq<AsmItem>,
    signed: bool,
    from: Location,
    n: u8,
    to: Location,
    k: u8,
) -> Result<(), NoMemory>
    requires from { HasBytes from n }
    requires from_top { signed ≡ true → HasByte from (k - 1) }
    requires to { HasBytes to k }
    requires to_top { HasByte to (k - 1) }
    requires some { 1 ≤ k }
    ensures ok { OnOk result (out.new.items ≡ out.old.items ++ saturate_code signed from to n k) }
    ensures err { OnErr result (BeginWith out.old.items out.new.items) }
{
    wanted(out, signed, from, k)?;
    gather(out, from, k, n)?;
    masks(out)?;
    ends(out, signed, to, k)
}

/// Whether a number of `n` bytes in two's complement may be out of the range of `k` bytes.
fn may_pass(signed: bool, n: u8, k: u8) -> bool
    ensures { result ≡ may_pass signed n k }
{
    !signed || k < n
}

/// Appends code that brings a number of `n` bytes in two's complement, in units of a format, into that format: the
/// number itself where it fits, and else, where the mode saturates, the nearer end of the format's range. Where memory
/// runs out, a part of the code is appended.
pub fn clamp(
    out: &mut Seq<AsmItem>,
    from: Location,
    n: u8,
    to: Location,
    format: Format,
    mode: Mode,
) -> Result<(), NoMemory>
    requires format { IsFormat format }
    requires from { HasBytes from n }
    requires from_byte { (i : ℕ) → i < n → HasByte from i }
    requires to { HasBytes to (format.bits / 8) }
    requires to_byte { (i : ℕ) → i < format.bits / 8 → HasByte to i }
    requires some { 1 ≤ n }
    ensures ok { OnOk result (out.new.items ≡ out.old.items ++ clamp_code format mode from to n (format.bits / 8)) }
    ensures err { OnErr result (BeginWith out.old.items out.new.items) }
{
    let k = format.bits / 8;
    extended(out, from, n, to, k)?;
    if mode.saturate && may_pass(format.signed, n, k) {
        saturate(out, format.signed, from, n, to, k)
    } else {
        Ok(())
    }
}

/// Appends code that brings the number in the bytes of `a`, 1 to 16 of them in two's complement and in units of
/// `tofmt`, into that format in the bytes of `to`: the number itself where it fits, and else, where the mode saturates,
/// the nearer end of the format's range. It needs no label, and none of the 40 work bytes. Where memory runs out, a
/// part of the code is appended.
pub fn clamp_code(
    _alloc: Global,
    out: &mut Seq<AsmItem>,
    _labels: &mut u64,
    a: Slot,
    to: Slot,
    tofmt: Format,
    mode: Mode,
    _work: Slot,
) -> Result<(), NoMemory>
    requires format { IsFormat tofmt }
    requires a { IsSlot a }
    requires some { 1 ≤ a.bytes }
    requires most { a.bytes ≤ 16 }
    requires to { IsSlot to }
    requires bytes { to.bytes * 8 ≡ tofmt.bits }
    requires work { IsSlot _work }
    requires work_bytes { _work.bytes ≡ 40 }
    requires apart { ShareNoByte a to }
    requires apart_from_work { ShareNoByte a _work }
    requires to_apart_from_work { ShareNoByte to _work }
    requires labels { _labels.old < 2 ^ 63 }
    ensures ok { OnOk result (out.new.items ≡ out.old.items ++ clamp_code tofmt mode (place_of a) (place_of to) a.bytes
        to.bytes) }
    ensures err { OnErr result (BeginWith out.old.items out.new.items) }
    ensures labels { _labels.new ≡ _labels.old }
{
    clamp(out, place_of(a), a.bytes, place_of(to), tofmt, mode)
}

/// The bytes of a slot.
pub fn place_of(slot: Slot) -> Location
    ensures { result ≡ place_of slot }
{
    Location::InMemory {
        object: slot.object,
        offset: slot.at,
    }
}
