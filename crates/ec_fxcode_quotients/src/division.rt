//! Long division of magnitudes in memory.
ghost use Rattle.std.specs.Prelude.{◌≡◌, suc, ◌+◌, ◌*◌, ◌≤◌, ◌<◌, ◌^◌, ◌++◌, pos, OnOk, OnErr};
ghost use Rattle.ec_runs.specs.Behaviours.{BeginWith};
ghost use Rattle.ec_asm.specs.Pieces.{HasBytes, HasByte};
ghost use Rattle.ec_select_quotients.specs.Quotients.{mark_code as lowest_code};
ghost use Rattle.ec_fxcode.specs.Clamps.{take_byte, put_byte};
ghost use Rattle.ec_fxcode_quotients.specs.Quotients.{further, remainder_at, number_at, rotate_byte, rotate_code};
ghost use Rattle.ec_fxcode_quotients.specs.Quotients.{bring_code, bring_words, take_code, take_words, skip_code};
ghost use Rattle.ec_fxcode_quotients.specs.Quotients.{turn_code, turn_words, turns_code};

use crate::quotients::again;
use ec_asm::{AsmItem, Location, Operator, compare, operate};
use ec_fxcode::{put_byte, take_byte};
use ec_isa::Instr;
use ec_space::{NoMemory, Seq};

/// A place `i` bytes further up.
pub(crate) fn further(at: Location, i: u8) -> Location
    requires start { HasBytes at i }
    requires byte { HasByte at i }
    ensures { result ≡ further at i }
{
    match at {
        Location::InRegisters(r) => Location::InRegisters(r + i),
        Location::InMemory { object, offset } => Location::InMemory {
            object,
            offset: offset + u32::from(i),
        },
    }
}

/// Appends code that doubles byte `i` of the remainder and adds the carry.
fn rotate_byte(out: &mut Seq<AsmItem>, at: Location, i: u8) -> Result<(), NoMemory>
    requires { HasByte at i }
    ensures ok { OnOk result (out.new.items ≡ out.old.items ++ rotate_byte at i) }
    ensures err { OnErr result (BeginWith out.old.items out.new.items) }
{
    take_byte(out, at, i)?;
    out.extend_from_slice(&[AsmItem::Plain(Instr::Adc { d: 0, r: 0 })])?;
    put_byte(out, 0, at, i)
}

fn rotate(out: &mut Seq<AsmItem>, at: Location, bytes: u8) -> Result<(), NoMemory>
    requires { HasBytes at bytes }
    ensures ok { OnOk result (out.new.items ≡ out.old.items ++ rotate_code at bytes) }
    ensures err { OnErr result (BeginWith out.old.items out.new.items) }
{
    for i in 0..bytes {
        rotate_byte(out, at, i)?;
    }
    Ok(())
}

/// Appends code that brings the next bit of the number to the remainder, and compares it with the divisor.
fn bring(
    out: &mut Seq<AsmItem>,
    divisor: Location,
    remainder: Location,
    number: Location,
    rest: u8,
    bytes: u8,
) -> Result<(), NoMemory>
    requires divisor { HasBytes divisor rest }
    requires remainder { HasBytes remainder rest }
    requires number { HasBytes number bytes }
    ensures ok { OnOk result (out.new.items ≡ out.old.items ++ bring_code divisor remainder number rest bytes) }
    ensures err { OnErr result (BeginWith out.old.items out.new.items) }
{
    operate(out, Operator::Sum, number, number, bytes)?;
    rotate(out, remainder, rest)?;
    compare(out, divisor, remainder, rest)
}

/// Appends code that sets the lowest bit of an even number.
fn lowest(out: &mut Seq<AsmItem>, at: Location) -> Result<(), NoMemory>
    requires { HasByte at 0 }
    ensures ok { OnOk result (out.new.items ≡ out.old.items ++ lowest_code at) }
    ensures err { OnErr result (out.new.items ≡ out.old.items) }
{
    match at {
        Location::InRegisters(r) => out.extend_from_slice(&[AsmItem::Plain(Instr::Inc { d: r })]),
        Location::InMemory { object, offset } => out.extend_from_slice(&[
            AsmItem::LoadObj {
                d: 0,
                object,
                offset,
            },
            AsmItem::Plain(Instr::Inc { d: 0 }),
            AsmItem::StoreObj {
                object,
                offset,
                r: 0,
            },
        ]),
    }
}

/// Appends code that takes the divisor from the remainder, and notes a bit of the quotient.
fn take(
    out: &mut Seq<AsmItem>,
    divisor: Location,
    remainder: Location,
    number: Location,
    rest: u8,
) -> Result<(), NoMemory>
    requires divisor { HasBytes divisor rest }
    requires remainder { HasBytes remainder rest }
    requires number { HasByte number 0 }
    ensures ok { OnOk result (out.new.items ≡ out.old.items ++ take_code divisor remainder number rest) }
    ensures err { OnErr result (BeginWith out.old.items out.new.items) }
{
    operate(out, Operator::Difference, divisor, remainder, rest)?;
    lowest(out, number)
}

fn bring_words(at: Location, rest: u8, bytes: u8) -> u16
    ensures { result ≡ bring_words at rest bytes }
{
    let (m, n) = (u16::from(rest), u16::from(bytes));
    match at {
        Location::InRegisters(_) => n + 4 * m,
        Location::InMemory { .. } => 7 * n + 10 * m,
    }
}

fn take_words(at: Location, rest: u8) -> u16
    ensures { result ≡ take_words at rest }
{
    let m = u16::from(rest);
    match at {
        Location::InRegisters(_) => m + 1,
        Location::InMemory { .. } => 7 * m + 5,
    }
}

/// A jump over so many words.
fn over(words: u16) -> Instr
    requires { words < 2 ^ 11 }
    ensures { result ≡ Instr.Rjmp (pos words) }
{
    Instr::Rjmp { k: words as i16 }
}

/// Appends code that passes over the taking where the remainder is less.
fn skip(out: &mut Seq<AsmItem>, work: Location, rest: u8) -> Result<(), NoMemory>
    requires { rest ≤ 9 }
    ensures ok { OnOk result (out.new.items ≡ out.old.items ++ skip_code work rest) }
    ensures err { OnErr result (out.new.items ≡ out.old.items) }
{
    out.extend_from_slice(&[
        AsmItem::Plain(Instr::Brbc { s: 0, k: 1 }),
        AsmItem::Plain(over(take_words(work, rest))),
    ])
}

/// Appends code for a bit of the quotient.
fn turn(
    out: &mut Seq<AsmItem>,
    work: Location,
    divisor_bytes: u8,
    bytes: u8,
) -> Result<(), NoMemory>
    requires work { HasBytes work 31 }
    requires last { HasByte work 31 }
    requires divisor { divisor_bytes ≤ 8 }
    requires most { bytes ≤ 13 }
    ensures ok { OnOk result (out.new.items ≡ out.old.items ++ turn_code work divisor_bytes bytes) }
    ensures err { OnErr result (BeginWith out.old.items out.new.items) }
{
    let rest = divisor_bytes + 1;
    let remainder = further(work, divisor_bytes + 1);
    let number = further(work, 2 * divisor_bytes + 2);
    bring(out, work, remainder, number, rest, bytes)?;
    skip(out, work, rest)?;
    take(out, work, remainder, number, rest)
}

/// Appends code that divides the number by the divisor, as many bits as R30 tells.
pub(crate) fn turns(
    out: &mut Seq<AsmItem>,
    work: Location,
    divisor_bytes: u8,
    bytes: u8,
) -> Result<(), NoMemory>
    requires work { HasBytes work 31 }
    requires last { HasByte work 31 }
    requires divisor { divisor_bytes ≤ 8 }
    requires most { bytes ≤ 13 }
    ensures ok { OnOk result (out.new.items ≡ out.old.items ++ turns_code work divisor_bytes bytes) }
    ensures err { OnErr result (BeginWith out.old.items out.new.items) }
{
    let rest = divisor_bytes + 1;
    let words = bring_words(work, rest, bytes) + 2 + take_words(work, rest);
    out.extend_from_slice(&[AsmItem::Plain(over(words))])?;
    turn(out, work, divisor_bytes, bytes)?;
    again(out, words)
}
