//! A sum or a difference is stopped at the ends of its range.
ghost use Rattle.std.specs.Prelude.{◌≡◌, ◌≤◌, ◌<◌, ◌^◌, ◌++◌, suc, pos, OnOk, OnErr};
ghost use Rattle.ec_runs.specs.Behaviours.{BeginWith};
ghost use Rattle.ec_asm.specs.Pieces.{HasBytes, HasByte};
ghost use Rattle.ec_fxcode_limits.specs.Limits.{past_flag, fill_code, fill_words, low_code, top_code, top_words, byte_words};
ghost use Rattle.ec_fxcode_limits.specs.Limits.{made_code, made_words, aside_code, end_code, end_words, limit_code, opposite_code};

use ec_asm::{AsmItem, Location};
use ec_fxcode::put_byte;
use ec_isa::Instr;
use ec_space::{NoMemory, Seq};

/// V or C.
fn past_flag(signed: bool) -> u8
    ensures { result ≡ past_flag signed }
{
    if signed { 3 } else { 0 }
}

/// Appends code that makes a register the bytes below the highest one of an end of the range.
fn fill(out: &mut Seq<AsmItem>, register: u8, minus: bool, signed: bool) -> Result<(), NoMemory>
    ensures ok { OnOk result (out.new.items ≡ out.old.items ++ fill_code register minus signed) }
    ensures err { OnErr result (out.new.items ≡ out.old.items) }
{
    let d = register;
    match (minus, signed) {
        (false, true) => out.extend_from_slice(&[
            AsmItem::Plain(Instr::Sbc { d, r: register }),
            AsmItem::Plain(Instr::Com { d }),
        ]),
        (true, true) => out.extend_from_slice(&[AsmItem::Plain(Instr::Sbc { d, r: register })]),
        (false, false) => out.extend_from_slice(&[AsmItem::Plain(Instr::Ldi { d, k: 255 })]),
        (true, false) => out.extend_from_slice(&[AsmItem::Plain(Instr::Ldi { d, k: 0 })]),
    }
}

fn fill_words(minus: bool, signed: bool) -> u16
    ensures { result ≡ fill_words minus signed }
{
    match (minus, signed) {
        (false, true) => 2,
        _ => 1,
    }
}

/// Appends code that puts the byte of a register to the lowest `bytes` bytes of a place.
fn low(out: &mut Seq<AsmItem>, register: u8, to: Location, bytes: u8) -> Result<(), NoMemory>
    requires { HasBytes to bytes }
    ensures ok { OnOk result (out.new.items ≡ out.old.items ++ low_code register to bytes) }
    ensures err { OnErr result (BeginWith out.old.items out.new.items) }
{
    for i in 0..bytes {
        put_byte(out, register, to, i)?;
    }
    Ok(())
}

/// Appends code that makes the register the highest byte of that end.
fn top(out: &mut Seq<AsmItem>, register: u8, signed: bool) -> Result<(), NoMemory>
    ensures ok { OnOk result (out.new.items ≡ out.old.items ++ top_code register signed) }
    ensures err { OnErr result (out.new.items ≡ out.old.items) }
{
    if signed {
        out.extend_from_slice(&[AsmItem::Plain(Instr::Subi {
            d: register,
            k: 128,
        })])
    } else {
        Ok(())
    }
}

fn top_words(signed: bool) -> u16
    ensures { result ≡ top_words signed }
{
    if signed { 1 } else { 0 }
}

fn byte_words(to: Location) -> u16
    ensures value { result ≡ byte_words to }
    ensures most { result ≤ 2 }
{
    match to {
        Location::InRegisters(_) => 1,
        Location::InMemory { .. } => 2,
    }
}

/// The words of the code that makes an end of the range of `top + 1` bytes, all but its highest byte at a place.
fn made_words(minus: bool, signed: bool, to: Location, top: u8) -> u16
    ensures value { result ≡ made_words minus signed to top }
    ensures most { result < 2 ^ 11 }
{
    fill_words(minus, signed) + (byte_words(to) * u16::from(top) + top_words(signed))
}

/// The words of the code that puts an end of the range to `top + 1` bytes.
fn end_words(minus: bool, signed: bool, to: Location, top: u8) -> u16
    requires { HasByte to top }
    ensures value { result ≡ end_words minus signed to top }
    ensures most { result < 2 ^ 12 }
{
    let made = made_words(minus, signed, to, top);
    match to {
        Location::InRegisters(r) if r + top >= 16 => made,
        _ => made + byte_words(to),
    }
}

/// A branch over so many words, where a flag is 0.
fn over_unless(flag: u8, words: u16) -> Instr
    requires { words < 2 ^ 12 }
    ensures { result ≡ Instr.Brbc flag (pos words) }
{
    Instr::Brbc {
        s: flag,
        k: words as i16,
    }
}

/// Appends code that makes an end of the range of `top + 1` bytes, all but its highest byte at a place, and that one in
/// a register.
fn made(
    out: &mut Seq<AsmItem>,
    register: u8,
    minus: bool,
    signed: bool,
    to: Location,
    top_byte: u8,
) -> Result<(), NoMemory>
    requires { HasBytes to top_byte }
    ensures ok { OnOk result (out.new.items ≡ out.old.items ++ made_code register minus signed to top_byte) }
    ensures err { OnErr result (BeginWith out.old.items out.new.items) }
{
    fill(out, register, minus, signed)?;
    low(out, register, to, top_byte)?;
    top(out, register, signed)
}

/// Appends code that puts an end of the range to `top + 1` bytes, through R31.
fn aside(
    out: &mut Seq<AsmItem>,
    minus: bool,
    signed: bool,
    to: Location,
    top_byte: u8,
) -> Result<(), NoMemory>
    requires low { HasBytes to top_byte }
    requires top { HasByte to top_byte }
    ensures ok { OnOk result (out.new.items ≡ out.old.items ++ aside_code minus signed to top_byte) }
    ensures err { OnErr result (BeginWith out.old.items out.new.items) }
{
    made(out, 31, minus, signed, to, top_byte)?;
    put_byte(out, 31, to, top_byte)
}

/// Appends code that puts an end of the range to `top + 1` bytes: it is made in the register of its highest byte, where
/// an immediate reaches that one.
fn end(
    out: &mut Seq<AsmItem>,
    minus: bool,
    signed: bool,
    to: Location,
    top_byte: u8,
) -> Result<(), NoMemory>
    requires low { HasBytes to top_byte }
    requires top { HasByte to top_byte }
    ensures ok { OnOk result (out.new.items ≡ out.old.items ++ end_code minus signed to top_byte) }
    ensures err { OnErr result (BeginWith out.old.items out.new.items) }
{
    match to {
        Location::InRegisters(r) if r + top_byte >= 16 => {
            made(out, r + top_byte, minus, signed, to, top_byte)
        }
        _ => aside(out, minus, signed, to, top_byte),
    }
}

/// Appends code that stands right behind the code of a sum, or of a difference, of two numbers of `top + 1` bytes, and
/// changes nothing between: where the result is out of the range of such numbers, in two's complement or without a
/// sign, it puts the nearer end of the range in its place. Where memory runs out, a part of the code is appended.
pub fn limit(
    out: &mut Seq<AsmItem>,
    minus: bool,
    signed: bool,
    to: Location,
    top: u8,
) -> Result<(), NoMemory>
    requires low { HasBytes to top }
    requires top { HasByte to top }
    ensures ok { OnOk result (out.new.items ≡ out.old.items ++ limit_code minus signed to top) }
    ensures err { OnErr result (BeginWith out.old.items out.new.items) }
{
    let words = end_words(minus, signed, to, top);
    out.extend_from_slice(&[AsmItem::Plain(over_unless(past_flag(signed), words))])?;
    end(out, minus, signed, to, top)
}

/// Appends code that negates one byte with a sign in a register, where -128 becomes 127.
pub fn negate_byte(out: &mut Seq<AsmItem>, register: u8) -> Result<(), NoMemory>
    ensures ok { OnOk result (out.new.items ≡ out.old.items ++ opposite_code register) }
    ensures err { OnErr result (out.new.items ≡ out.old.items) }
{
    out.extend_from_slice(&[
        AsmItem::Plain(Instr::Neg { d: register }),
        AsmItem::Plain(Instr::Brbc { s: 3, k: 1 }),
        AsmItem::Plain(Instr::Com { d: register }),
    ])
}
