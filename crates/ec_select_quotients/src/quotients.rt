//! Long division.
ghost use Rattle.std.specs.Prelude.{◌≡◌, ◌+◌, ◌≤◌, ◌<◌, ◌^◌, ◌++◌, pos, negsuc, OnOk, OnErr};
ghost use Rattle.ec_runs.specs.Behaviours.{BeginWith};
ghost use Rattle.ec_asm.specs.Pieces.{HasBytes, HasByte, compares, instruction};
ghost use Rattle.ec_asm.specs.declared.pieces.Operator.TheVariants.{Difference};
ghost use Rattle.ec_select_quotients.specs.Quotients.{remainder_row, divisor_register, rotate_byte, rotate_code};
ghost use Rattle.ec_select_quotients.specs.Quotients.{test_byte, test_code, rows_code, bring_code, bring_words};
ghost use Rattle.ec_select_quotients.specs.Quotients.{less_byte, less_code, mark_code, note_code, take_code};
ghost use Rattle.ec_select_quotients.specs.Quotients.{mark_words, note_words, take_words, back_words, divide_code};

use ec_asm::{AsmItem, Location, Operator, operate};
use ec_isa::Instr;
use ec_space::{NoMemory, Seq};

/// The registers of the remainder.
pub fn remainder() -> Location
    ensures { result ≡ remainder_row }
{
    Location::InRegisters(8)
}

/// The register of byte `i` of the divisor: R12, R13, R26 or R27.
pub(crate) fn divisor_register(i: u8) -> u8
    requires { i < 4 }
    ensures register { result ≡ divisor_register i }
    ensures below { result < 28 }
{
    if i < 2 { 12 + i } else { 24 + i }
}

/// Appends code that doubles byte `i` of the remainder and adds the carry.
fn rotate_byte(out: &mut Seq<AsmItem>, i: u8) -> Result<(), NoMemory>
    requires { i < 4 }
    ensures ok { OnOk result (out.new.items ≡ out.old.items ++ rotate_byte i) }
    ensures err { OnErr result (out.new.items ≡ out.old.items) }
{
    out.extend_from_slice(&[AsmItem::Plain(Instr::Adc { d: 8 + i, r: 8 + i })])
}

fn rotate(out: &mut Seq<AsmItem>, bytes: u8) -> Result<(), NoMemory>
    requires { bytes ≤ 4 }
    ensures ok { OnOk result (out.new.items ≡ out.old.items ++ rotate_code bytes) }
    ensures err { OnErr result (BeginWith out.old.items out.new.items) }
{
    for i in 0..bytes {
        rotate_byte(out, i)?;
    }
    Ok(())
}

/// The comparison of byte `i` of two numbers: the lowest byte takes no borrow.
fn compares(i: u8, d: u8, r: u8) -> Instr
    ensures { result ≡ compares i d r }
{
    if i == 0 {
        Instr::Cp { d, r }
    } else {
        Instr::Cpc { d, r }
    }
}

/// Appends code that compares byte `i` of the remainder with that of the divisor.
fn test_byte(out: &mut Seq<AsmItem>, i: u8) -> Result<(), NoMemory>
    requires { i < 4 }
    ensures ok { OnOk result (out.new.items ≡ out.old.items ++ test_byte i) }
    ensures err { OnErr result (out.new.items ≡ out.old.items) }
{
    out.extend_from_slice(&[AsmItem::Plain(compares(i, 8 + i, divisor_register(i)))])
}

fn test(out: &mut Seq<AsmItem>, bytes: u8) -> Result<(), NoMemory>
    requires { bytes ≤ 4 }
    ensures ok { OnOk result (out.new.items ≡ out.old.items ++ test_code bytes) }
    ensures err { OnErr result (BeginWith out.old.items out.new.items) }
{
    for i in 0..bytes {
        test_byte(out, i)?;
    }
    Ok(())
}

/// Appends code that doubles the remainder and compares it with the divisor.
fn rows(out: &mut Seq<AsmItem>, bytes: u8) -> Result<(), NoMemory>
    requires { bytes ≤ 4 }
    ensures ok { OnOk result (out.new.items ≡ out.old.items ++ rows_code bytes) }
    ensures err { OnErr result (BeginWith out.old.items out.new.items) }
{
    rotate(out, bytes)?;
    test(out, bytes)
}

/// Appends code that brings the next bit of a number to the remainder.
fn bring(out: &mut Seq<AsmItem>, at: Location, bytes: u8) -> Result<(), NoMemory>
    requires at { HasBytes at bytes }
    requires most { bytes ≤ 4 }
    ensures ok { OnOk result (out.new.items ≡ out.old.items ++ bring_code at bytes) }
    ensures err { OnErr result (BeginWith out.old.items out.new.items) }
{
    operate(out, Operator::Sum, at, at, bytes)?;
    rows(out, bytes)
}

/// The difference of byte `i` of two numbers: the lowest byte takes no borrow.
pub(crate) fn subtracts(i: u8, d: u8, r: u8) -> Instr
    ensures { result ≡ instruction Difference i d r }
{
    if i == 0 {
        Instr::Sub { d, r }
    } else {
        Instr::Sbc { d, r }
    }
}

/// Appends code that takes byte `i` of the divisor from that of the remainder.
fn less_byte(out: &mut Seq<AsmItem>, i: u8) -> Result<(), NoMemory>
    requires { i < 4 }
    ensures ok { OnOk result (out.new.items ≡ out.old.items ++ less_byte i) }
    ensures err { OnErr result (out.new.items ≡ out.old.items) }
{
    out.extend_from_slice(&[AsmItem::Plain(subtracts(i, 8 + i, divisor_register(i)))])
}

fn less(out: &mut Seq<AsmItem>, bytes: u8) -> Result<(), NoMemory>
    requires { bytes ≤ 4 }
    ensures ok { OnOk result (out.new.items ≡ out.old.items ++ less_code bytes) }
    ensures err { OnErr result (BeginWith out.old.items out.new.items) }
{
    for i in 0..bytes {
        less_byte(out, i)?;
    }
    Ok(())
}

/// Appends code that sets the lowest bit of an even number.
fn mark(out: &mut Seq<AsmItem>, at: Location) -> Result<(), NoMemory>
    requires { HasByte at 0 }
    ensures ok { OnOk result (out.new.items ≡ out.old.items ++ mark_code at) }
    ensures err { OnErr result (out.new.items ≡ out.old.items) }
{
    match at {
        Location::InRegisters(r) => out.extend_from_slice(&[AsmItem::Plain(Instr::Inc { d: r })]),
        Location::InMemory { object, offset } => out.extend_from_slice(&[
            AsmItem::LoadObj {
                d: 0,
                object,
                offset,
            },
            AsmItem::Plain(Instr::Inc { d: 0 }),
            AsmItem::StoreObj {
                object,
                offset,
                r: 0,
            },
        ]),
    }
}

/// Appends code that notes a bit of the quotient, where that is wanted.
fn note(out: &mut Seq<AsmItem>, remainder: bool, at: Location) -> Result<(), NoMemory>
    requires { HasByte at 0 }
    ensures ok { OnOk result (out.new.items ≡ out.old.items ++ note_code remainder at) }
    ensures err { OnErr result (out.new.items ≡ out.old.items) }
{
    if remainder { Ok(()) } else { mark(out, at) }
}

/// Appends code that takes the divisor from the remainder.
fn take(out: &mut Seq<AsmItem>, remainder: bool, at: Location, bytes: u8) -> Result<(), NoMemory>
    requires at { HasByte at 0 }
    requires most { bytes ≤ 4 }
    ensures ok { OnOk result (out.new.items ≡ out.old.items ++ take_code remainder at bytes) }
    ensures err { OnErr result (BeginWith out.old.items out.new.items) }
{
    less(out, bytes)?;
    note(out, remainder, at)
}

fn bring_words(at: Location, bytes: u8) -> u16
    requires { bytes ≤ 4 }
    ensures { result ≡ bring_words at bytes }
{
    let n = u16::from(bytes);
    match at {
        Location::InRegisters(_) => n + (n + n),
        Location::InMemory { .. } => 7 * n + (n + n),
    }
}

fn mark_words(at: Location) -> u16
    ensures { result ≡ mark_words at }
{
    match at {
        Location::InRegisters(_) => 1,
        Location::InMemory { .. } => 5,
    }
}

fn note_words(remainder: bool, at: Location) -> u16
    ensures words { result ≡ note_words remainder at }
    ensures most { result ≤ 5 }
{
    if remainder { 0 } else { mark_words(at) }
}

fn take_words(remainder: bool, at: Location, bytes: u8) -> u16
    requires { bytes ≤ 4 }
    ensures words { result ≡ take_words remainder at bytes }
    ensures most { result ≤ 9 }
{
    u16::from(bytes) + note_words(remainder, at)
}

/// A branch over so many words, where the carry is 1.
fn over(words: u16) -> Instr
    requires { words < 2 ^ 12 }
    ensures { result ≡ Instr.Brbs 0 (pos words) }
{
    Instr::Brbs {
        s: 0,
        k: words as i16,
    }
}

/// A branch back over so many words, where Z is 0.
fn back(words: u16) -> Instr
    requires { words < 2 ^ 12 }
    ensures { result ≡ Instr.Brbc 1 (negsuc words) }
{
    Instr::Brbc {
        s: 1,
        k: -1 - words as i16,
    }
}

/// Appends code that divides a number of at most four bytes by that in the divisor's registers: the quotient takes its
/// place, where it is wanted, and the remainder stands in R8 and above. Where memory runs out, a part of the code is
/// appended.
pub fn divide(
    out: &mut Seq<AsmItem>,
    remainder: bool,
    at: Location,
    bytes: u8,
) -> Result<(), NoMemory>
    requires at { HasBytes at bytes }
    requires first { HasByte at 0 }
    requires most { bytes ≤ 4 }
    ensures ok { OnOk result (out.new.items ≡ out.old.items ++ divide_code remainder at bytes) }
    ensures err { OnErr result (BeginWith out.old.items out.new.items) }
{
    let (first, second) = (bring_words(at, bytes), take_words(remainder, at, bytes));
    bring(out, at, bytes)?;
    out.extend_from_slice(&[AsmItem::Plain(over(second))])?;
    take(out, remainder, at, bytes)?;
    out.extend_from_slice(&[
        AsmItem::Plain(Instr::Dec { d: 30 }),
        AsmItem::Plain(back(first + 1 + second + 1)),
    ])
}
