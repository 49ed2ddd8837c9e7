//! A number multiplied or divided by a power of two.
ghost use Rattle.std.specs.Prelude.{◌≡◌, ◌+◌, ◌-◌, ◌/◌, ◌≤◌, ◌<◌, ◌++◌, OnOk, OnErr};
ghost use Rattle.ec_runs.specs.Behaviours.{BeginWith};
ghost use Rattle.ec_asm.specs.Pieces.{HasBytes, HasByte};
ghost use Rattle.ec_fxcode_scales.specs.Scales.{nearest, clears_code, moved_byte, moved_code, bit_code, is_one_more};
ghost use Rattle.ec_fxcode_scales.specs.Scales.{is_one_less, placed_code, scale_code, lowered_code, cut_code};

use ec_asm::{AsmItem, Location, Operator, halve, operate};
use ec_fxcode::{fills, put_byte, sign, take_byte};
use ec_fxcode_shifts::{mark, turned};
use ec_isa::Instr;
use ec_select_shifts::Direction;
use ec_space::{NoMemory, Seq};

/// The whole bytes that are nearest to so many bits.
fn nearest(bits: u8) -> u8
    requires { bits < 255 }
    ensures { result ≡ nearest bits }
{
    (bits + 1) / 8
}

/// Appends code that makes the bytes of a place from one up to another 0.
fn clear(out: &mut Seq<AsmItem>, at: Location, first: u8, end: u8) -> Result<(), NoMemory>
    requires at { HasBytes at end }
    requires some { first ≤ end }
    ensures ok { OnOk result (out.new.items ≡ out.old.items ++ clears_code at first end) }
    ensures err { OnErr result (BeginWith out.old.items out.new.items) }
{
    out.extend_from_slice(&[AsmItem::Plain(Instr::Eor { d: 1, r: 1 })])?;
    for i in 0..end - first {
        put_byte(out, 1, at, first + i)?;
    }
    Ok(())
}

/// Appends code that takes byte `j + i` of one place to byte `k + i` of another.
fn moved_byte(
    out: &mut Seq<AsmItem>,
    from: Location,
    to: Location,
    j: u8,
    k: u8,
    i: u8,
) -> Result<(), NoMemory>
    requires from { HasByte from (j + i) }
    requires to { HasByte to (k + i) }
    requires from_fits { j + i < 256 }
    requires to_fits { k + i < 256 }
    ensures ok { OnOk result (out.new.items ≡ out.old.items ++ moved_byte from to j k i) }
    ensures err { OnErr result (BeginWith out.old.items out.new.items) }
{
    take_byte(out, from, j + i)?;
    put_byte(out, 0, to, k + i)
}

/// Appends code that takes the bytes of one place from byte `j` on to those of another from byte `k` on.
fn moved(
    out: &mut Seq<AsmItem>,
    from: Location,
    to: Location,
    j: u8,
    k: u8,
    bytes: u8,
) -> Result<(), NoMemory>
    requires from { HasBytes from (j + bytes) }
    requires to { HasBytes to (k + bytes) }
    requires from_fits { j + bytes < 256 }
    requires to_fits { k + bytes < 256 }
    ensures ok { OnOk result (out.new.items ≡ out.old.items ++ moved_code from to j k bytes) }
    ensures err { OnErr result (BeginWith out.old.items out.new.items) }
{
    for i in 0..bytes {
        moved_byte(out, from, to, j, k, i)?;
    }
    Ok(())
}

/// Appends code that moves a number by one bit, where that is asked for.
fn bit(
    out: &mut Seq<AsmItem>,
    moves: bool,
    way: Direction,
    at: Location,
    bytes: u8,
) -> Result<(), NoMemory>
    requires { HasBytes at bytes }
    ensures ok { OnOk result (out.new.items ≡ out.old.items ++ bit_code moves way at bytes) }
    ensures err { OnErr result (BeginWith out.old.items out.new.items) }
{
    match (moves, way) {
        (false, _) => Ok(()),
        (true, Direction::Left) => operate(out, Operator::Sum, at, at, bytes),
        (true, Direction::Right { signed }) => halve(out, at, signed, bytes),
    }
}

/// Whether so many bits are one more than whole bytes.
fn is_one_more(bits: u8) -> bool
    ensures { result ≡ is_one_more bits }
{
    bits % 8 == 1
}

/// Whether so many bits are one less than whole bytes.
fn is_one_less(bits: u8) -> bool
    ensures { result ≡ is_one_less bits }
{
    bits % 8 == 7
}

/// Appends code that puts bytes of 0, a number, and bytes of R31 to a place.
fn placed(
    out: &mut Seq<AsmItem>,
    from: Location,
    to: Location,
    bytes: u8,
    wide: u8,
    low: u8,
) -> Result<(), NoMemory>
    requires from { HasBytes from bytes }
    requires to { HasBytes to wide }
    requires low_bytes { HasBytes to low }
    requires low_and_number { HasBytes to (low + bytes) }
    requires room { low + bytes ≤ wide }
    ensures ok { OnOk result (out.new.items ≡ out.old.items ++ placed_code from to bytes wide low) }
    ensures err { OnErr result (BeginWith out.old.items out.new.items) }
{
    clear(out, to, 0, low)?;
    moved(out, from, to, 0, low, bytes)?;
    fills(out, to, low + bytes, wide)
}

/// Appends code that puts a number of `bytes` bytes, in two's complement where it has a sign, times two to the power of
/// `bits`, to a place of `wide` bytes, in two's complement. Where memory runs out, a part of the code is appended.
pub fn scale(
    out: &mut Seq<AsmItem>,
    signed: bool,
    from: Location,
    to: Location,
    bytes: u8,
    wide: u8,
    bits: u8,
) -> Result<(), NoMemory>
    requires from { HasBytes from bytes }
    requires to { HasBytes to wide }
    requires some { 1 ≤ bytes }
    requires room { bytes + (bits + 7) / 8 + 1 ≤ wide }
    requires most { wide ≤ 16 }
    ensures ok { OnOk result (out.new.items ≡ out.old.items ++ scale_code signed from to bytes wide bits) }
    ensures err { OnErr result (BeginWith out.old.items out.new.items) }
{
    mark(out, signed, from, bytes)?;
    placed(out, from, to, bytes, wide, nearest(bits))?;
    bit(out, is_one_more(bits), Direction::Left, to, wide)?;
    bit(
        out,
        is_one_less(bits),
        Direction::Right { signed: true },
        to,
        wide,
    )
}

/// Appends code that leaves out the lowest bytes of a number, and halves it where that is asked for.
fn lowered(
    out: &mut Seq<AsmItem>,
    halves: bool,
    at: Location,
    wide: u8,
    low: u8,
) -> Result<(), NoMemory>
    requires at { HasBytes at wide }
    requires rest { HasBytes at (wide - low) }
    requires room { low ≤ wide }
    ensures ok { OnOk result (out.new.items ≡ out.old.items ++ lowered_code halves at wide low) }
    ensures err { OnErr result (BeginWith out.old.items out.new.items) }
{
    let rest = wide - low;
    moved(out, at, at, low, 0, rest)?;
    bit(out, halves, Direction::Right { signed: false }, at, rest)?;
    clear(out, at, rest, wide)
}

/// Appends code that divides a number of `wide` bytes, in two's complement, by two to the power of `bits` where it
/// stands, and rounds it toward zero. Where memory runs out, a part of the code is appended.
pub fn cut(out: &mut Seq<AsmItem>, at: Location, wide: u8, bits: u8) -> Result<(), NoMemory>
    requires at { HasBytes at wide }
    requires some { 1 ≤ wide }
    requires most { wide ≤ 16 }
    requires room { (bits + 7) / 8 ≤ wide }
    ensures ok { OnOk result (out.new.items ≡ out.old.items ++ cut_code at wide bits) }
    ensures err { OnErr result (BeginWith out.old.items out.new.items) }
{
    sign(out, at, wide)?;
    turned(out, at, at, wide)?;
    bit(out, is_one_less(bits), Direction::Left, at, wide)?;
    lowered(out, is_one_more(bits), at, wide, nearest(bits))?;
    turned(out, at, at, wide)
}
