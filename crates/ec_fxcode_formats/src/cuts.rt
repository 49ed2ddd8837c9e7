//! Bits behind the point are dropped.
ghost use Rattle.std.specs.Prelude.{◌≡◌, suc, ◌+◌, ◌-◌, ◌≤◌, ◌<◌, ◌++◌, OnOk, OnErr};
ghost use Rattle.ec_runs.specs.Behaviours.{BeginWith};
ghost use Rattle.ec_asm.specs.Pieces.{HasBytes, HasByte};
ghost use Rattle.ec_fxcode_formats.specs.Cuts.{row_from, bytes_below, clear_byte, clear_code, double_code, less_code, cut_code};

use ec_asm::{AsmItem, Location, Operator, operate};
use ec_fxcode_shifts::{mark, turned};
use ec_isa::Instr;
use ec_space::{NoMemory, Seq};

/// The registers from byte `i` of the magnitude on.
pub(crate) fn row_from(i: u8) -> Location
    requires { i < 24 }
    ensures { result ≡ row_from i }
{
    Location::InRegisters(8 + i)
}

/// The bytes below what is left of so many bits less.
pub(crate) fn bytes_below(bits: u8) -> u8
    requires { bits < 64 }
    ensures { result ≡ bytes_below bits }
{
    (bits + 7) / 8
}

/// Appends code that clears the bytes of the row from byte `from` up to byte `to`.
pub(crate) fn clear(out: &mut Seq<AsmItem>, from: u8, to: u8) -> Result<(), NoMemory>
    requires { to ≤ 24 }
    ensures ok { OnOk result (out.new.items ≡ out.old.items ++ clear_code from to) }
    ensures err { OnErr result (BeginWith out.old.items out.new.items) }
{
    if to <= from {
        return Ok(());
    }
    for i in 0..to - from {
        let register = 8 + (from + i);
        out.extend_from_slice(&[AsmItem::Plain(Instr::Eor {
            d: register,
            r: register,
        })])?;
    }
    Ok(())
}

/// Appends code that doubles the bytes that are left, and the one below them, where not only whole bytes are dropped.
fn double(out: &mut Seq<AsmItem>, bytes: u8, bits: u8) -> Result<(), NoMemory>
    requires bits { bits < 64 }
    requires bytes { bytes < 16 }
    ensures ok { OnOk result (out.new.items ≡ out.old.items ++ double_code bytes bits) }
    ensures err { OnErr result (BeginWith out.old.items out.new.items) }
{
    if bits % 8 == 0 {
        return Ok(());
    }
    let at = row_from(bits / 8);
    operate(out, Operator::Sum, at, at, bytes + 1)
}

/// Appends code that brings the magnitude to the row, drops bits of it, and brings what is left to its place.
fn less(
    out: &mut Seq<AsmItem>,
    from: Location,
    to: Location,
    m: u8,
    n: u8,
    bits: u8,
) -> Result<(), NoMemory>
    requires from { HasBytes from m }
    requires to { HasBytes to n }
    requires few { m ≤ 6 }
    requires room { bytes_below bits + n ≤ 6 }
    ensures ok { OnOk result (out.new.items ≡ out.old.items ++ less_code from to m n bits) }
    ensures err { OnErr result (BeginWith out.old.items out.new.items) }
{
    let below = bytes_below(bits);
    turned(out, from, row_from(0), m)?;
    clear(out, m, below + n)?;
    double(out, n, bits)?;
    turned(out, row_from(below), to, n)
}

/// Appends code that puts a number of `m` bytes without so many bits, rounded toward zero, to `n` bytes at another place.
/// No result is promised where it has no room there. Where memory runs out, a part of the code is appended.
pub fn cut(
    out: &mut Seq<AsmItem>,
    signed: bool,
    from: Location,
    to: Location,
    m: u8,
    n: u8,
    bits: u8,
) -> Result<(), NoMemory>
    requires from { HasBytes from m }
    requires top { HasByte from (m - 1) }
    requires to { HasBytes to n }
    requires some { 1 ≤ m }
    requires few { m ≤ 6 }
    requires room { bytes_below bits + n ≤ 6 }
    ensures ok { OnOk result (out.new.items ≡ out.old.items ++ cut_code signed from to m n bits) }
    ensures err { OnErr result (BeginWith out.old.items out.new.items) }
{
    mark(out, signed, from, m)?;
    less(out, from, to, m, n, bits)
}
