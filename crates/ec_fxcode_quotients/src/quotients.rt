//! Quotients of fixed-point numbers.
ghost use Rattle.std.specs.Prelude.{◌≡◌, ℕ, ◌+◌, ◌*◌, ◌≤◌, ◌<◌, ◌^◌, ◌++◌, negsuc, OnOk, OnErr};
ghost use Rattle.ec_runs.specs.Behaviours.{BeginWith};
ghost use Rattle.ec_asm.specs.Pieces.{HasBytes, HasByte};
ghost use Rattle.ec_fx.specs.Formats.{IsFormat};
ghost use Rattle.ec_fxcode_quotients.specs.Quotients.{clear_code, again_code, finish_code};
ghost use Rattle.std.specs.Prelude.{◌-◌, ◌/◌, max, List, [], ◌∷◌};
ghost use Rattle.ec_fxcode_shifts.specs.Shifts.{mark_code, turned_code};
ghost use Rattle.ec_fxcode.specs.Slots.{IsSlot, ShareNoByte, place_of};
ghost use Rattle.ec_fxcode_quotients.specs.Quotients.{bits_of, quotient_bytes, number_bytes, further, number_at};
ghost use Rattle.ec_fxcode_quotients.specs.Quotients.{number_code, divisor_code, ready_code, turns_code};
ghost use Rattle.ec_fxcode_quotients.specs.Quotients.{solve_code, quotient_code, divide_code};
ghost use Rattle.ec_fxcode_quotients.specs.QuotientLaws.{IsOperandFormat};

use crate::division::{further, turns};
use ec_asm::{AsmItem, Location, Slot};
use ec_fx::{Format, Mode};
use ec_fxcode::{clamp, fills, place_of};
use ec_fxcode_shifts::{mark, turned};
use ec_isa::Instr;
use ec_space::{NoMemory, Seq};
use std::alloc::Global;

/// Appends code that clears the byte above a divisor of so many bytes at the beginning of the work bytes, the remainder,
/// and the lowest bytes of the number. Where memory runs out, a part of the code is appended.
pub fn clear_work(
    out: &mut Seq<AsmItem>,
    work: Location,
    divisor_bytes: u8,
    low: u8,
) -> Result<(), NoMemory>
    requires work { HasBytes work (2 * divisor_bytes + 2 + low) }
    requires divisor { divisor_bytes ≤ 8 }
    requires low { low ≤ 13 }
    ensures ok { OnOk result (out.new.items ≡ out.old.items ++ clear_code work divisor_bytes low) }
    ensures err { OnErr result (BeginWith out.old.items out.new.items) }
{
    out.extend_from_slice(&[AsmItem::Plain(Instr::Eor { d: 31, r: 31 })])?;
    fills(out, work, divisor_bytes, 2 * divisor_bytes + 2 + low)
}

/// A jump back over so many words and the two words before it.
fn back(words: u16) -> Instr
    requires { words < 2 ^ 11 }
    ensures { result ≡ Instr.Rjmp (negsuc (words + 2)) }
{
    Instr::Rjmp {
        k: -3 - words as i16,
    }
}

/// Appends code that counts R30 down, and jumps back over so many words, as long as it is not below 0. Where memory runs
/// out, nothing is appended.
pub fn again(out: &mut Seq<AsmItem>, words: u16) -> Result<(), NoMemory>
    requires { words < 2 ^ 11 }
    ensures ok { OnOk result (out.new.items ≡ out.old.items ++ again_code words) }
    ensures err { OnErr result (out.new.items ≡ out.old.items) }
{
    out.extend_from_slice(&[
        AsmItem::Plain(Instr::Dec { d: 30 }),
        AsmItem::Plain(Instr::Brbs { s: 2, k: 1 }),
        AsmItem::Plain(back(words)),
    ])
}

/// Appends code that gives a quotient of so many bytes its sign, by R31, and brings it into the format of the result.
/// Where memory runs out, a part of the code is appended.
pub fn finish_quotient(
    out: &mut Seq<AsmItem>,
    format: Format,
    mode: Mode,
    quotient: Location,
    bytes: u8,
    to: Location,
    to_bytes: u8,
) -> Result<(), NoMemory>
    requires format { IsFormat format }
    requires bits { to_bytes * 8 ≡ format.bits }
    requires quotient { HasBytes quotient bytes }
    requires quotient_byte { (i : ℕ) → i < bytes → HasByte quotient i }
    requires to { HasBytes to to_bytes }
    requires to_byte { (i : ℕ) → i < to_bytes → HasByte to i }
    requires some { 1 ≤ bytes }
    ensures ok { OnOk result (out.new.items ≡ out.old.items ++ finish_code format mode quotient to bytes to_bytes) }
    ensures err { OnErr result (BeginWith out.old.items out.new.items) }
{
    turned(out, quotient, quotient, bytes)?;
    clamp(out, quotient, bytes, to, format, mode)
}

/// Appends code that brings the magnitude of the number to the work bytes, and its sign to R30.
fn number(
    out: &mut Seq<AsmItem>,
    signed: bool,
    from: Location,
    bytes: u8,
    to: Location,
) -> Result<(), NoMemory>
    requires from { HasBytes from bytes }
    requires top { HasByte from (bytes - 1) }
    requires to { HasBytes to bytes }
    requires some { 1 ≤ bytes }
    ensures ok { OnOk result (out.new.items ≡ out.old.items
        ++ (mark_code signed from bytes ++ (turned_code from to bytes ++ (AsmItem.Plain (Instr.Mov 30 31) ∷ [])))) }
    ensures err { OnErr result (BeginWith out.old.items out.new.items) }
{
    mark(out, signed, from, bytes)?;
    turned(out, from, to, bytes)?;
    out.extend_from_slice(&[AsmItem::Plain(Instr::Mov { d: 30, r: 31 })])
}

/// Appends code that brings the magnitude of the divisor to the work bytes, the sign of the result to R31, and the
/// count of bits to R30.
fn divisor(
    out: &mut Seq<AsmItem>,
    signed: bool,
    from: Location,
    bytes: u8,
    work: Location,
    bits: u8,
) -> Result<(), NoMemory>
    requires from { HasBytes from bytes }
    requires top { HasByte from (bytes - 1) }
    requires to { HasBytes work bytes }
    requires some { 1 ≤ bytes }
    ensures ok { OnOk result (out.new.items ≡ out.old.items ++ divisor_code signed from work bytes bits) }
    ensures err { OnErr result (BeginWith out.old.items out.new.items) }
{
    mark(out, signed, from, bytes)?;
    turned(out, from, work, bytes)?;
    out.extend_from_slice(&[
        AsmItem::Plain(Instr::Eor { d: 31, r: 30 }),
        AsmItem::Plain(Instr::Ldi { d: 30, k: bits }),
    ])
}

/// The number that is divided, and the divisor.
#[derive(Clone, Copy)]
struct Operands {
    number: Location,
    signed: bool,
    bytes: u8,
    divisor: Location,
    divisor_signed: bool,
    divisor_bytes: u8,
}

/// Appends code that lays out the work bytes.
fn ready(
    out: &mut Seq<AsmItem>,
    of: Operands,
    work: Location,
    low: u8,
    bits: u8,
) -> Result<(), NoMemory>
    requires number { HasBytes of.number of.bytes }
    requires number_top { HasByte of.number (of.bytes - 1) }
    requires number_some { 1 ≤ of.bytes }
    requires divisor { HasBytes of.divisor of.divisor_bytes }
    requires divisor_top { HasByte of.divisor (of.divisor_bytes - 1) }
    requires divisor_some { 1 ≤ of.divisor_bytes }
    requires divisor_most { of.divisor_bytes ≤ 8 }
    requires low { low + of.bytes ≤ 13 }
    requires work { HasBytes work 31 }
    requires last { HasByte work 31 }
    ensures ok { OnOk result (out.new.items ≡ out.old.items
        ++ ready_code of.signed of.divisor_signed of.number of.divisor work of.bytes of.divisor_bytes low bits) }
    ensures err { OnErr result (BeginWith out.old.items out.new.items) }
{
    clear_work(out, work, of.divisor_bytes, low)?;
    let at = further(work, 2 * of.divisor_bytes + 2 + low);
    number(out, of.signed, of.number, of.bytes, at)?;
    divisor(
        out,
        of.divisor_signed,
        of.divisor,
        of.divisor_bytes,
        work,
        bits,
    )
}

/// Appends code that divides the numbers in the work bytes, and brings the quotient to its place.
fn solve(
    out: &mut Seq<AsmItem>,
    format: Format,
    mode: Mode,
    work: Location,
    to: Location,
    divisor_bytes: u8,
    bytes: u8,
    quotient_bytes: u8,
    to_bytes: u8,
) -> Result<(), NoMemory>
    requires format { IsFormat format }
    requires bits { to_bytes * 8 ≡ format.bits }
    requires work { HasBytes work 31 }
    requires last { HasByte work 31 }
    requires to { HasBytes to to_bytes }
    requires to_byte { (i : ℕ) → i < to_bytes → HasByte to i }
    requires divisor { divisor_bytes ≤ 8 }
    requires some { 1 ≤ quotient_bytes }
    requires most { quotient_bytes ≤ bytes }
    requires bytes { bytes ≤ 13 }
    ensures ok { OnOk result (out.new.items ≡ out.old.items
        ++ solve_code format mode work to divisor_bytes bytes quotient_bytes to_bytes) }
    ensures err { OnErr result (BeginWith out.old.items out.new.items) }
{
    turns(out, work, divisor_bytes, bytes)?;
    let quotient = further(work, 2 * divisor_bytes + 2);
    finish_quotient(out, format, mode, quotient, quotient_bytes, to, to_bytes)
}

/// Appends the code of a division with a quotient of so many bits.
fn divide(
    out: &mut Seq<AsmItem>,
    of: Operands,
    bits: u8,
    format: Format,
    mode: Mode,
    work: Location,
    to: Location,
    to_bytes: u8,
) -> Result<(), NoMemory>
    requires number { HasBytes of.number of.bytes }
    requires number_top { HasByte of.number (of.bytes - 1) }
    requires number_some { 1 ≤ of.bytes }
    requires number_most { of.bytes ≤ 8 }
    requires divisor { HasBytes of.divisor of.divisor_bytes }
    requires divisor_top { HasByte of.divisor (of.divisor_bytes - 1) }
    requires divisor_some { 1 ≤ of.divisor_bytes }
    requires divisor_most { of.divisor_bytes ≤ 8 }
    requires bits { bits ≤ 97 }
    requires format { IsFormat format }
    requires format_bits { to_bytes * 8 ≡ format.bits }
    requires work { HasBytes work 31 }
    requires last { HasByte work 31 }
    requires to { HasBytes to to_bytes }
    requires to_byte { (i : ℕ) → i < to_bytes → HasByte to i }
    ensures ok { OnOk result (out.new.items ≡ out.old.items
        ++ quotient_code of.signed of.divisor_signed format mode of.number of.divisor to work of.bytes of.divisor_bytes
        to_bytes bits) }
    ensures err { OnErr result (BeginWith out.old.items out.new.items) }
{
    let quotient_bytes = bits / 8 + 1;
    let bytes = (of.bytes + 1).max(quotient_bytes);
    ready(out, of, work, bytes - of.bytes, bits)?;
    solve(
        out,
        format,
        mode,
        work,
        to,
        of.divisor_bytes,
        bytes,
        quotient_bytes,
        to_bytes,
    )
}

/// The bits of the quotient of a number of so many bytes.
fn bits_of(number: Format, divisor: Format, to: Format, bytes: u8) -> u8
    requires number { IsOperandFormat number }
    requires bytes { bytes * 8 ≡ number.bits }
    requires divisor { IsOperandFormat divisor }
    requires to { IsFormat to }
    ensures value { result ≡ bits_of number divisor to bytes }
    ensures most { result ≤ 97 }
{
    number.bits + (divisor.frac + to.frac) - number.frac
}

/// A number that is divided, a divisor or a quotient: where it stands, and its format, of which it has the bytes.
#[derive(Clone, Copy)]
pub struct Term {
    pub at: Location,
    pub format: Format,
}

/// Appends code that divides one number by another, and puts the exact quotient, rounded toward zero, to the place of the
/// result: where it is out of the range of its format and the mode saturates, the nearer end of the range. It promises no
/// result where the divisor is 0. It needs no label, and at most 31 of the work bytes. Where memory runs out, a part of
/// the code is appended.
#[tactic(auto, using(ec_fxcode_shifts::proofs::Places::byte_there, ec_fxcode_shifts::proofs::Places::fewer_bytes))]
pub fn divide_numbers(
    out: &mut Seq<AsmItem>,
    number: Term,
    divisor: Term,
    to: Term,
    mode: Mode,
    work: Location,
) -> Result<(), NoMemory>
    requires number_format { IsOperandFormat number.format }
    requires number { HasBytes number.at (number.format.bits / 8) }
    requires divisor_format { IsOperandFormat divisor.format }
    requires divisor { HasBytes divisor.at (divisor.format.bits / 8) }
    requires to_format { IsFormat to.format }
    requires to { HasBytes to.at (to.format.bits / 8) }
    requires work { HasBytes work 40 }
    ensures ok { OnOk result (out.new.items ≡ out.old.items
        ++ divide_code number.format divisor.format to.format mode number.at divisor.at to.at work
        (number.format.bits / 8) (divisor.format.bits / 8) (to.format.bits / 8)) }
    ensures err { OnErr result (BeginWith out.old.items out.new.items) }
{
    let of = Operands {
        number: number.at,
        signed: number.format.signed,
        bytes: number.format.bits / 8,
        divisor: divisor.at,
        divisor_signed: divisor.format.signed,
        divisor_bytes: divisor.format.bits / 8,
    };
    let bits = bits_of(number.format, divisor.format, to.format, of.bytes);
    divide(
        out,
        of,
        bits,
        to.format,
        mode,
        work,
        to.at,
        to.format.bits / 8,
    )
}

/// Appends code that divides the number in the bytes of `a`, of the format `afmt`, by that in the bytes of `b`, of the
/// format `bfmt`, and puts the exact quotient, rounded toward zero, into the bytes of `to`, in the format `tofmt`:
/// where it is out of the range of that format and the mode saturates, the nearer end of the range. It promises no
/// result where the divisor is 0. It needs no label, and at most 31 of the work bytes. Where memory runs out, a part of
/// the code is appended.
pub fn div_code(
    _alloc: Global,
    out: &mut Seq<AsmItem>,
    _labels: &mut u64,
    a: Slot,
    afmt: Format,
    b: Slot,
    bfmt: Format,
    to: Slot,
    tofmt: Format,
    mode: Mode,
    work: Slot,
) -> Result<(), NoMemory>
    requires a_format { IsOperandFormat afmt }
    requires a { IsSlot a }
    requires a_bytes { a.bytes * 8 ≡ afmt.bits }
    requires b_format { IsOperandFormat bfmt }
    requires b { IsSlot b }
    requires b_bytes { b.bytes * 8 ≡ bfmt.bits }
    requires to_format { IsFormat tofmt }
    requires to { IsSlot to }
    requires to_bytes { to.bytes * 8 ≡ tofmt.bits }
    requires work { IsSlot work }
    requires work_bytes { work.bytes ≡ 40 }
    requires apart { ShareNoByte a b × ShareNoByte a to × ShareNoByte a work }
    requires others { ShareNoByte b to × ShareNoByte b work × ShareNoByte to work }
    requires labels { _labels.old < 2 ^ 63 }
    ensures ok { OnOk result (out.new.items ≡ out.old.items
        ++ divide_code afmt bfmt tofmt mode (place_of a) (place_of b) (place_of to) (place_of work) a.bytes b.bytes
        to.bytes) }
    ensures err { OnErr result (BeginWith out.old.items out.new.items) }
    ensures labels { _labels.new ≡ _labels.old }
{
    let of = Operands {
        number: place_of(a),
        signed: afmt.signed,
        bytes: a.bytes,
        divisor: place_of(b),
        divisor_signed: bfmt.signed,
        divisor_bytes: b.bytes,
    };
    let bits = bits_of(afmt, bfmt, tofmt, a.bytes);
    divide(
        out,
        of,
        bits,
        tofmt,
        mode,
        place_of(work),
        place_of(to),
        to.bytes,
    )
}
