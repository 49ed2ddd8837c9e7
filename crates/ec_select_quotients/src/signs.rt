//! Quotients and remainders of numbers with and without signs.
ghost use Rattle.std.specs.Prelude.{◌≡◌, ◌+◌, ◌≤◌, ◌<◌, ◌++◌, suc, OnOk, OnErr};
ghost use Rattle.ec_runs.specs.Behaviours.{BeginWith};
ghost use Rattle.ec_asm.specs.Pieces.{HasBytes, HasByte};
ghost use Rattle.ec_select_quotients.specs.Signs.{spread_code, top_code, divisor_top_code, turn_byte, turn_code};
ghost use Rattle.ec_select_quotients.specs.Signs.{turn_divisor_byte, turn_divisor_code, cross_code, number_sign_code};
ghost use Rattle.ec_select_quotients.specs.Signs.{divisor_sign_code, signs_code, clear_byte, clear_code, start_code};
ghost use Rattle.ec_select_quotients.specs.Signs.{result_code, sign_code, finish_code, divided_code, quotient_code};

use crate::fetches::fetch;
use crate::puts::put_remainder;
use crate::quotients::{divide, divisor_register, subtracts};
use ec_asm::{AsmItem, Location};
use ec_isa::Instr;
use ec_space::{NoMemory, Seq};

/// What is computed of two numbers.
#[derive(Clone, Copy)]
pub struct Division {
    /// The remainder, and not the quotient.
    pub remainder: bool,
    /// Both numbers are in two's complement.
    pub signed: bool,
}

/// Appends code that makes a byte 255 where its highest bit is set, and else 0.
fn spread(out: &mut Seq<AsmItem>, s: u8) -> Result<(), NoMemory>
    ensures ok { OnOk result (out.new.items ≡ out.old.items ++ spread_code s) }
    ensures err { OnErr result (out.new.items ≡ out.old.items) }
{
    out.extend_from_slice(&[
        AsmItem::Plain(Instr::Add { d: s, r: s }),
        AsmItem::Plain(Instr::Sbc { d: s, r: s }),
    ])
}

/// Appends code that takes the highest byte of a number to R31.
fn take_top(out: &mut Seq<AsmItem>, at: Location, top: u8) -> Result<(), NoMemory>
    requires { HasByte at top }
    ensures ok { OnOk result (out.new.items ≡ out.old.items ++ top_code at top) }
    ensures err { OnErr result (out.new.items ≡ out.old.items) }
{
    match at {
        Location::InRegisters(r) => {
            out.extend_from_slice(&[AsmItem::Plain(Instr::Mov { d: 31, r: r + top })])
        }
        Location::InMemory { object, offset } => out.extend_from_slice(&[AsmItem::LoadObj {
            d: 31,
            object,
            offset: offset + u32::from(top),
        }]),
    }
}

/// Appends code that turns byte `i` of a number that is negated where R31 is 255.
fn turn_byte(out: &mut Seq<AsmItem>, at: Location, i: u8) -> Result<(), NoMemory>
    requires { HasByte at i }
    ensures ok { OnOk result (out.new.items ≡ out.old.items ++ turn_byte at i) }
    ensures err { OnErr result (out.new.items ≡ out.old.items) }
{
    match at {
        Location::InRegisters(r) => out.extend_from_slice(&[
            AsmItem::Plain(Instr::Eor { d: r + i, r: 31 }),
            AsmItem::Plain(subtracts(i, r + i, 31)),
        ]),
        Location::InMemory { object, offset } => {
            let offset = offset + u32::from(i);
            out.extend_from_slice(&[
                AsmItem::LoadObj {
                    d: 0,
                    object,
                    offset,
                },
                AsmItem::Plain(Instr::Eor { d: 0, r: 31 }),
                AsmItem::Plain(subtracts(i, 0, 31)),
                AsmItem::StoreObj {
                    object,
                    offset,
                    r: 0,
                },
            ])
        }
    }
}

/// Appends code that negates a number where R31 is 255, and leaves it as it is where R31 is 0.
fn turn(out: &mut Seq<AsmItem>, at: Location, bytes: u8) -> Result<(), NoMemory>
    requires { HasBytes at bytes }
    ensures ok { OnOk result (out.new.items ≡ out.old.items ++ turn_code at bytes) }
    ensures err { OnErr result (BeginWith out.old.items out.new.items) }
{
    for i in 0..bytes {
        turn_byte(out, at, i)?;
    }
    Ok(())
}

fn turn_divisor_byte(out: &mut Seq<AsmItem>, i: u8) -> Result<(), NoMemory>
    requires { i < 4 }
    ensures ok { OnOk result (out.new.items ≡ out.old.items ++ turn_divisor_byte i) }
    ensures err { OnErr result (out.new.items ≡ out.old.items) }
{
    let d = divisor_register(i);
    out.extend_from_slice(&[
        AsmItem::Plain(Instr::Eor { d, r: 1 }),
        AsmItem::Plain(subtracts(i, d, 1)),
    ])
}

/// Appends code that negates the divisor where R1 is 255, and leaves it as it is where R1 is 0.
fn turn_divisor(out: &mut Seq<AsmItem>, bytes: u8) -> Result<(), NoMemory>
    requires { bytes ≤ 4 }
    ensures ok { OnOk result (out.new.items ≡ out.old.items ++ turn_divisor_code bytes) }
    ensures err { OnErr result (BeginWith out.old.items out.new.items) }
{
    for i in 0..bytes {
        turn_divisor_byte(out, i)?;
    }
    Ok(())
}

/// Appends code that makes a number its magnitude, and leaves its sign in R31.
fn number_sign(out: &mut Seq<AsmItem>, at: Location, top: u8) -> Result<(), NoMemory>
    requires at { HasBytes at (suc top) }
    requires highest { HasByte at top }
    requires most { top < 4 }
    ensures ok { OnOk result (out.new.items ≡ out.old.items ++ number_sign_code at top) }
    ensures err { OnErr result (BeginWith out.old.items out.new.items) }
{
    take_top(out, at, top)?;
    spread(out, 31)?;
    turn(out, at, top + 1)
}

/// Appends code that turns the sign of a quotient where the divisor has one. A remainder has the sign of the number
/// that is divided (ISO/IEC 9899:1999, 6.5.5).
fn cross(out: &mut Seq<AsmItem>, remainder: bool) -> Result<(), NoMemory>
    ensures ok { OnOk result (out.new.items ≡ out.old.items ++ cross_code remainder) }
    ensures err { OnErr result (out.new.items ≡ out.old.items) }
{
    if remainder {
        Ok(())
    } else {
        out.extend_from_slice(&[AsmItem::Plain(Instr::Eor { d: 31, r: 1 })])
    }
}

/// Appends code that makes the divisor its magnitude, and leaves the sign of the result in R31.
fn divisor_sign(out: &mut Seq<AsmItem>, remainder: bool, top: u8) -> Result<(), NoMemory>
    requires { top < 4 }
    ensures ok { OnOk result (out.new.items ≡ out.old.items ++ divisor_sign_code remainder top) }
    ensures err { OnErr result (BeginWith out.old.items out.new.items) }
{
    out.extend_from_slice(&[AsmItem::Plain(Instr::Mov {
        d: 1,
        r: divisor_register(top),
    })])?;
    spread(out, 1)?;
    turn_divisor(out, top + 1)?;
    cross(out, remainder)
}

/// Appends code that makes both numbers their magnitudes, and leaves the sign of the result in R31.
fn signs(out: &mut Seq<AsmItem>, of: Division, at: Location, top: u8) -> Result<(), NoMemory>
    requires at { HasBytes at (suc top) }
    requires highest { HasByte at top }
    requires most { top < 4 }
    ensures ok { OnOk result (out.new.items ≡ out.old.items ++ signs_code of.remainder of.signed at top) }
    ensures err { OnErr result (BeginWith out.old.items out.new.items) }
{
    if !of.signed {
        return Ok(());
    }
    number_sign(out, at, top)?;
    divisor_sign(out, of.remainder, top)
}

fn clear_byte(out: &mut Seq<AsmItem>, i: u8) -> Result<(), NoMemory>
    requires { i < 4 }
    ensures ok { OnOk result (out.new.items ≡ out.old.items ++ clear_byte i) }
    ensures err { OnErr result (out.new.items ≡ out.old.items) }
{
    out.extend_from_slice(&[AsmItem::Plain(Instr::Eor { d: 8 + i, r: 8 + i })])
}

fn clear(out: &mut Seq<AsmItem>, bytes: u8) -> Result<(), NoMemory>
    requires { bytes ≤ 4 }
    ensures ok { OnOk result (out.new.items ≡ out.old.items ++ clear_code bytes) }
    ensures err { OnErr result (BeginWith out.old.items out.new.items) }
{
    for i in 0..bytes {
        clear_byte(out, i)?;
    }
    Ok(())
}

/// Appends code that puts the count of bits to R30, and clears the remainder.
fn start(out: &mut Seq<AsmItem>, bytes: u8) -> Result<(), NoMemory>
    requires { bytes ≤ 4 }
    ensures ok { OnOk result (out.new.items ≡ out.old.items ++ start_code bytes) }
    ensures err { OnErr result (BeginWith out.old.items out.new.items) }
{
    out.extend_from_slice(&[AsmItem::Plain(Instr::Ldi {
        d: 30,
        k: 8 * bytes,
    })])?;
    clear(out, bytes)
}

/// Appends code that brings the remainder to its place, where that is wanted.
fn bring_result(
    out: &mut Seq<AsmItem>,
    of: Division,
    at: Location,
    bytes: u8,
) -> Result<(), NoMemory>
    requires at { HasBytes at bytes }
    requires most { bytes ≤ 4 }
    ensures ok { OnOk result (out.new.items ≡ out.old.items ++ result_code of.remainder at bytes) }
    ensures err { OnErr result (BeginWith out.old.items out.new.items) }
{
    if of.remainder {
        put_remainder(out, at, bytes)
    } else {
        Ok(())
    }
}

fn sign(out: &mut Seq<AsmItem>, of: Division, at: Location, bytes: u8) -> Result<(), NoMemory>
    requires at { HasBytes at bytes }
    ensures ok { OnOk result (out.new.items ≡ out.old.items ++ sign_code of.signed at bytes) }
    ensures err { OnErr result (BeginWith out.old.items out.new.items) }
{
    if of.signed {
        turn(out, at, bytes)
    } else {
        Ok(())
    }
}

/// Appends code that divides, and gives the result its place and its sign.
fn finish(out: &mut Seq<AsmItem>, of: Division, at: Location, bytes: u8) -> Result<(), NoMemory>
    requires at { HasBytes at bytes }
    requires lowest { HasByte at 0 }
    requires most { bytes ≤ 4 }
    ensures ok { OnOk result (out.new.items ≡ out.old.items ++ finish_code of.remainder of.signed at bytes) }
    ensures err { OnErr result (BeginWith out.old.items out.new.items) }
{
    divide(out, of.remainder, at, bytes)?;
    bring_result(out, of, at, bytes)?;
    sign(out, of, at, bytes)
}

/// Appends code that divides a number by that in the divisor's registers.
fn divided(out: &mut Seq<AsmItem>, of: Division, at: Location, top: u8) -> Result<(), NoMemory>
    requires at { HasBytes at (suc top) }
    requires highest { HasByte at top }
    requires lowest { HasByte at 0 }
    requires most { top < 4 }
    ensures ok { OnOk result (out.new.items ≡ out.old.items ++ divided_code of.remainder of.signed at top) }
    ensures err { OnErr result (BeginWith out.old.items out.new.items) }
{
    signs(out, of, at, top)?;
    start(out, top + 1)?;
    finish(out, of, at, top + 1)
}

/// Appends code that divides a number by another one, both of `top + 1` bytes, and leaves the quotient or the remainder
/// in its place. Where memory runs out, a part of the code is appended.
pub fn quotient(
    out: &mut Seq<AsmItem>,
    of: Division,
    at: Location,
    by: Location,
    top: u8,
) -> Result<(), NoMemory>
    requires at { HasBytes at (suc top) }
    requires highest { HasByte at top }
    requires lowest { HasByte at 0 }
    requires by { HasBytes by (suc top) }
    requires most { top < 4 }
    ensures ok { OnOk result (out.new.items ≡ out.old.items
        ++ quotient_code of.remainder of.signed at by top) }
    ensures err { OnErr result (BeginWith out.old.items out.new.items) }
{
    fetch(out, by, top)?;
    divided(out, of, at, top)
}
