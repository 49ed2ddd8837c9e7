//! A fixed-point number shifted by a count.
ghost use Rattle.std.specs.Prelude.{◌≡◌, ℕ, ◌+◌, ◌-◌, ◌*◌, ◌/◌, ◌≤◌, ◌<◌, ◌^◌, ◌++◌, pos, negsuc, OnOk, OnErr};
ghost use Rattle.ec_runs.specs.Behaviours.{BeginWith};
ghost use Rattle.ec_asm.specs.Pieces.{HasBytes, HasByte, instruction};
ghost use Rattle.ec_fx.specs.Formats.{IsFormat};
ghost use Rattle.ec_select_shifts.specs.Shifts.{turn_code, turn_words};
ghost use Rattle.ec_fxcode.specs.Clamps.{take_byte, put_byte, sign_code, fills_code};
ghost use Rattle.ec_fxcode.specs.Slots.{IsSlot, ShareNoByte, place_of};
ghost use Rattle.ec_fxcode_shifts.specs.Shifts.{count_row, count_code, mark_code, turned_byte, turned_code};
ghost use Rattle.ec_fxcode_shifts.specs.Shifts.{widened_code, enter_code, leave_code, direction, width, again_code};
ghost use Rattle.ec_fxcode_shifts.specs.Shifts.{turns_code, before_code, after_code, shift_code};
ghost use Rattle.ec_fxcode_shifts.specs.ShiftLaws.{IsWholeFormat};

use ec_asm::{AsmItem, Location, Operator, Slot, copy, halve, operate};
use ec_fx::{Format, Mode};
use ec_fxcode::{clamp, fills, place_of, put_byte, sign, take_byte};
use ec_isa::Instr;
use ec_select_shifts::Direction;
use ec_space::{NoMemory, Seq};
use std::alloc::Global;

/// Appends code that takes the count of bits to R30, modulo the bits of the number.
fn count(out: &mut Seq<AsmItem>, from: Location, bits: u8) -> Result<(), NoMemory>
    requires from { HasBytes from 1 }
    requires some { 1 ≤ bits }
    ensures ok { OnOk result (out.new.items ≡ out.old.items ++ count_code from bits) }
    ensures err { OnErr result (BeginWith out.old.items out.new.items) }
{
    copy(out, from, Location::InRegisters(30), 1)?;
    out.extend_from_slice(&[AsmItem::Plain(Instr::Andi { d: 30, k: bits - 1 })])
}

/// Appends code that makes R31 0, or 255 where a number is negative. Where memory runs out, a part of the code is
/// appended.
pub fn mark(out: &mut Seq<AsmItem>, signed: bool, at: Location, bytes: u8) -> Result<(), NoMemory>
    requires at { HasByte at (bytes - 1) }
    requires some { 1 ≤ bytes }
    ensures ok { OnOk result (out.new.items ≡ out.old.items ++ mark_code signed at bytes) }
    ensures err { OnErr result (BeginWith out.old.items out.new.items) }
{
    if signed {
        sign(out, at, bytes)
    } else {
        out.extend_from_slice(&[AsmItem::Plain(Instr::Eor { d: 31, r: 31 })])
    }
}

/// The subtraction of R31 from R0 for byte `i`: the lowest byte takes no borrow.
fn less(i: u8) -> Instr
    ensures { result ≡ instruction Operator.Difference i 0 31 }
{
    if i == 0 {
        Instr::Sub { d: 0, r: 31 }
    } else {
        Instr::Sbc { d: 0, r: 31 }
    }
}

/// Appends code that brings byte `i` of a number to another place. The number is negated where R31 is 255, and copied
/// where it is 0.
fn turned_byte(out: &mut Seq<AsmItem>, from: Location, to: Location, i: u8) -> Result<(), NoMemory>
    requires from { HasByte from i }
    requires to { HasByte to i }
    ensures ok { OnOk result (out.new.items ≡ out.old.items ++ turned_byte from to i) }
    ensures err { OnErr result (BeginWith out.old.items out.new.items) }
{
    take_byte(out, from, i)?;
    out.extend_from_slice(&[
        AsmItem::Plain(Instr::Eor { d: 0, r: 31 }),
        AsmItem::Plain(less(i)),
    ])?;
    put_byte(out, 0, to, i)
}

/// Appends code that brings a number to another place, negated where R31 is 255, and copied where it is 0. Where memory
/// runs out, a part of the code is appended.
pub fn turned(
    out: &mut Seq<AsmItem>,
    from: Location,
    to: Location,
    bytes: u8,
) -> Result<(), NoMemory>
    requires from { HasBytes from bytes }
    requires to { HasBytes to bytes }
    ensures ok { OnOk result (out.new.items ≡ out.old.items ++ turned_code from to bytes) }
    ensures err { OnErr result (BeginWith out.old.items out.new.items) }
{
    for i in 0..bytes {
        turned_byte(out, from, to, i)?;
    }
    Ok(())
}

/// Appends code that brings a number to the work bytes: with bytes of its sign above it, or its magnitude.
fn enter(
    out: &mut Seq<AsmItem>,
    left: bool,
    from: Location,
    work: Location,
    bytes: u8,
) -> Result<(), NoMemory>
    requires from { HasBytes from bytes }
    requires work { HasBytes work (2 * bytes) }
    requires low { HasBytes work bytes }
    requires most { bytes ≤ 8 }
    ensures ok { OnOk result (out.new.items ≡ out.old.items ++ enter_code left from work bytes) }
    ensures err { OnErr result (BeginWith out.old.items out.new.items) }
{
    if left {
        copy(out, from, work, bytes)?;
        fills(out, work, bytes, 2 * bytes)
    } else {
        turned(out, from, work, bytes)
    }
}

/// Appends code that takes the count, and brings the number to the work bytes.
fn before(
    out: &mut Seq<AsmItem>,
    signed: bool,
    left: bool,
    from: Location,
    by: Location,
    work: Location,
    bytes: u8,
) -> Result<(), NoMemory>
    requires from { HasBytes from bytes }
    requires top { HasByte from (bytes - 1) }
    requires by { HasBytes by 1 }
    requires work { HasBytes work (2 * bytes) }
    requires low { HasBytes work bytes }
    requires some { 1 ≤ bytes }
    requires most { bytes ≤ 8 }
    ensures ok { OnOk result (out.new.items ≡ out.old.items ++ before_code signed left from by work bytes) }
    ensures err { OnErr result (BeginWith out.old.items out.new.items) }
{
    count(out, by, 8 * bytes)?;
    mark(out, signed, from, bytes)?;
    enter(out, left, from, work, bytes)
}

/// The words of one turn of the loop.
fn turn_words(left: bool, at: Location, bytes: u8) -> u16
    ensures { result ≡ turn_words (direction left) at bytes }
{
    let each = match (at, left) {
        (Location::InRegisters(_), _) => 1,
        (Location::InMemory { .. }, true) => 7,
        (Location::InMemory { .. }, false) => 5,
    };
    each * u16::from(bytes)
}

/// A jump over so many words.
fn over(words: u16) -> Instr
    requires { words < 2 ^ 11 }
    ensures { result ≡ Instr.Rjmp (pos words) }
{
    Instr::Rjmp { k: words as i16 }
}

/// A jump back over so many words and the two words before it.
fn back(words: u16) -> Instr
    requires { words < 2 ^ 11 }
    ensures { result ≡ Instr.Rjmp (negsuc (words + 2)) }
{
    Instr::Rjmp {
        k: -3 - words as i16,
    }
}

/// Appends code that shifts a number by one bit.
fn turn(out: &mut Seq<AsmItem>, left: bool, at: Location, bytes: u8) -> Result<(), NoMemory>
    requires { HasBytes at bytes }
    ensures ok { OnOk result (out.new.items ≡ out.old.items ++ turn_code (direction left) at bytes) }
    ensures err { OnErr result (BeginWith out.old.items out.new.items) }
{
    if left {
        operate(out, Operator::Sum, at, at, bytes)
    } else {
        halve(out, at, false, bytes)
    }
}

/// Appends code that shifts a number by one bit for as often as R30 tells.
fn turns(out: &mut Seq<AsmItem>, left: bool, at: Location, bytes: u8) -> Result<(), NoMemory>
    requires at { HasBytes at bytes }
    requires most { bytes ≤ 16 }
    ensures ok { OnOk result (out.new.items ≡ out.old.items ++ turns_code (direction left) at bytes) }
    ensures err { OnErr result (BeginWith out.old.items out.new.items) }
{
    let words = turn_words(left, at, bytes);
    out.extend_from_slice(&[AsmItem::Plain(over(words))])?;
    turn(out, left, at, bytes)?;
    out.extend_from_slice(&[
        AsmItem::Plain(Instr::Dec { d: 30 }),
        AsmItem::Plain(Instr::Brbs { s: 2, k: 1 }),
        AsmItem::Plain(back(words)),
    ])
}

/// Appends code that brings the shifted number from the work bytes to its place: into its format, or with its sign.
fn leave(
    out: &mut Seq<AsmItem>,
    left: bool,
    format: Format,
    mode: Mode,
    work: Location,
    to: Location,
    bytes: u8,
) -> Result<(), NoMemory>
    requires format { IsFormat format }
    requires bits { bytes * 8 ≡ format.bits }
    requires work { HasBytes work (2 * bytes) }
    requires low { HasBytes work bytes }
    requires work_byte { (i : ℕ) → i < 2 * bytes → HasByte work i }
    requires to { HasBytes to bytes }
    requires to_byte { (i : ℕ) → i < bytes → HasByte to i }
    requires some { 1 ≤ bytes }
    requires most { bytes ≤ 8 }
    ensures ok { OnOk result (out.new.items ≡ out.old.items ++ leave_code left format mode work to bytes) }
    ensures err { OnErr result (BeginWith out.old.items out.new.items) }
{
    if left {
        clamp(out, work, 2 * bytes, to, format, mode)
    } else {
        turned(out, work, to, bytes)
    }
}

/// Appends code that shifts the number in the work bytes by the count in R30, and brings it to its place.
fn after(
    out: &mut Seq<AsmItem>,
    left: bool,
    format: Format,
    mode: Mode,
    work: Location,
    to: Location,
    bytes: u8,
) -> Result<(), NoMemory>
    requires format { IsFormat format }
    requires bits { bytes * 8 ≡ format.bits }
    requires work { HasBytes work (2 * bytes) }
    requires low { HasBytes work bytes }
    requires work_byte { (i : ℕ) → i < 2 * bytes → HasByte work i }
    requires to { HasBytes to bytes }
    requires to_byte { (i : ℕ) → i < bytes → HasByte to i }
    requires some { 1 ≤ bytes }
    requires most { bytes ≤ 8 }
    ensures ok { OnOk result (out.new.items ≡ out.old.items ++ after_code left format mode work to bytes) }
    ensures err { OnErr result (BeginWith out.old.items out.new.items) }
{
    turns(out, left, work, if left { 2 * bytes } else { bytes })?;
    leave(out, left, format, mode, work, to, bytes)
}

/// Appends code that shifts the fixed-point number at `from` to the left or to the right by the number of bits that the
/// lowest byte at `by` tells, and puts the result to `to`: the number times two to the power of the count, or divided by
/// it and rounded toward zero, and, where it is out of the range of the format and the mode saturates, the nearer end of
/// that range. It promises no result where the count is below 0 or not below the bits of the format. It needs no label,
/// and at most 16 of the work bytes. Where memory runs out, a part of the code is appended.
#[tactic(auto, using(crate::proofs::Places::byte_there, crate::proofs::Places::fewer_bytes))]
pub fn shift_number(
    out: &mut Seq<AsmItem>,
    format: Format,
    left: bool,
    mode: Mode,
    from: Location,
    by: Location,
    to: Location,
    work: Location,
) -> Result<(), NoMemory>
    requires format { IsFormat format }
    requires from { HasBytes from (format.bits / 8) }
    requires by { HasBytes by 1 }
    requires to { HasBytes to (format.bits / 8) }
    requires work { HasBytes work 40 }
    ensures ok { OnOk result (out.new.items ≡ out.old.items
        ++ shift_code format left mode from by to work (format.bits / 8)) }
    ensures err { OnErr result (BeginWith out.old.items out.new.items) }
{
    let bytes = format.bits / 8;
    before(out, format.signed, left, from, by, work, bytes)?;
    after(out, left, format, mode, work, to, bytes)
}

/// Appends code that shifts the fixed-point number in the bytes of `a`, of the format `afmt`, to the left or to the
/// right by the number of bits in the bytes of `b`, and puts the result into the bytes of `to`: the number times two to
/// the power of the count, or divided by it and rounded toward zero, and, where it is out of the range of the format
/// and the mode saturates, the nearer end of that range. It promises no result where the count is below 0 or not below
/// the bits of the format. It needs no label, and at most 16 of the work bytes. Where memory runs out, a part of the
/// code is appended.
pub fn shift_code(
    _alloc: Global,
    out: &mut Seq<AsmItem>,
    _labels: &mut u64,
    a: Slot,
    afmt: Format,
    b: Slot,
    _bfmt: Format,
    left: bool,
    to: Slot,
    _tofmt: Format,
    mode: Mode,
    work: Slot,
) -> Result<(), NoMemory>
    requires format { IsFormat afmt }
    requires a { IsSlot a }
    requires a_bytes { a.bytes * 8 ≡ afmt.bits }
    requires count_format { IsWholeFormat _bfmt }
    requires b { IsSlot b }
    requires b_bytes { b.bytes * 8 ≡ _bfmt.bits }
    requires to_format { _tofmt ≡ afmt }
    requires to { IsSlot to }
    requires to_bytes { to.bytes * 8 ≡ afmt.bits }
    requires work { IsSlot work }
    requires work_bytes { work.bytes ≡ 40 }
    requires apart { ShareNoByte a b × ShareNoByte a to × ShareNoByte a work }
    requires others { ShareNoByte b to × ShareNoByte b work × ShareNoByte to work }
    requires labels { _labels.old < 2 ^ 63 }
    ensures ok { OnOk result (out.new.items ≡ out.old.items
        ++ shift_code afmt left mode (place_of a) (place_of b) (place_of to) (place_of work) a.bytes) }
    ensures err { OnErr result (BeginWith out.old.items out.new.items) }
    ensures labels { _labels.new ≡ _labels.old }
{
    let (from, by, at) = (place_of(a), place_of(b), place_of(work));
    before(out, afmt.signed, left, from, by, at, a.bytes)?;
    after(out, left, afmt, mode, at, place_of(to), a.bytes)
}
