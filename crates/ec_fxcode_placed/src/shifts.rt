//! A fixed-point number is shifted where it stands.
ghost use Rattle.std.specs.Prelude.{◌≡◌, ◌+◌, ◌-◌, ◌*◌, ◌≤◌, ◌<◌, ◌^◌, ◌++◌, pos, negsuc, OnOk, OnErr};
ghost use Rattle.ec_runs.specs.Behaviours.{BeginWith};
ghost use Rattle.ec_asm.specs.Pieces.{HasBytes, HasByte, instruction};
ghost use Rattle.ec_fxcode_placed.specs.Shifts.{raise_byte, raise_code, half_code, half_words, rounded_code, placed_code};
ghost use Rattle.ec_fxcode_placed.specs.Counts.{biased_by, biased_byte, bias_code, rounded_by_code, placed_by_code};
ghost use Rattle.ec_fxcode_placed.specs.Counts.{mask_byte, known_bias_by, known_bias_byte, known_bias_code, takes_known_bias};
ghost use Rattle.ec_asm.specs.Items.{chain};

use ec_asm::{AsmItem, Location, Operator, halve};
use ec_fxcode::sign;
use ec_isa::Instr;
use ec_select_shifts::{Direction, shift, shift_by};
use ec_space::{NoMemory, Seq};

/// The subtraction of R31 from a register for byte `i`: the lowest byte takes no borrow.
fn less(i: u8, register: u8) -> Instr
    ensures { result ≡ instruction Operator.Difference i register 31 }
{
    if i == 0 {
        Instr::Sub { d: register, r: 31 }
    } else {
        Instr::Sbc { d: register, r: 31 }
    }
}

/// Appends code that takes R31 from byte `i` of a number, with the borrow.
fn raise_byte(out: &mut Seq<AsmItem>, at: Location, i: u8) -> Result<(), NoMemory>
    requires { HasByte at i }
    ensures ok { OnOk result (out.new.items ≡ out.old.items ++ raise_byte at i) }
    ensures err { OnErr result (out.new.items ≡ out.old.items) }
{
    match at {
        Location::InRegisters(r) => out.extend_from_slice(&[AsmItem::Plain(less(i, r + i))]),
        Location::InMemory { object, offset } => {
            let offset = offset + u32::from(i);
            out.extend_from_slice(&[
                AsmItem::LoadObj {
                    d: 0,
                    object,
                    offset,
                },
                AsmItem::Plain(less(i, 0)),
                AsmItem::StoreObj {
                    object,
                    offset,
                    r: 0,
                },
            ])
        }
    }
}

/// Appends code that adds 1 to a number where R31 is 255.
fn raise(out: &mut Seq<AsmItem>, at: Location, bytes: u8) -> Result<(), NoMemory>
    requires { HasBytes at bytes }
    ensures ok { OnOk result (out.new.items ≡ out.old.items ++ raise_code at bytes) }
    ensures err { OnErr result (BeginWith out.old.items out.new.items) }
{
    for i in 0..bytes {
        raise_byte(out, at, i)?;
    }
    Ok(())
}

/// Appends code that halves a number in two's complement, and rounds toward zero.
fn half(out: &mut Seq<AsmItem>, at: Location, bytes: u8) -> Result<(), NoMemory>
    requires at { HasBytes at bytes }
    requires top { HasByte at (bytes - 1) }
    requires some { 1 ≤ bytes }
    ensures ok { OnOk result (out.new.items ≡ out.old.items ++ half_code at bytes) }
    ensures err { OnErr result (BeginWith out.old.items out.new.items) }
{
    sign(out, at, bytes)?;
    raise(out, at, bytes)?;
    halve(out, at, true, bytes)
}

fn half_words(at: Location, bytes: u8) -> u16
    ensures value { result ≡ half_words at bytes }
    ensures most { result ≤ 4 + 10 * bytes }
{
    let bytes = u16::from(bytes);
    match at {
        Location::InRegisters(_) => 3 + (bytes + bytes),
        Location::InMemory { .. } => 4 + (5 * bytes + 5 * bytes),
    }
}

/// A jump over so many words.
fn over(words: u16) -> Instr
    requires { words < 2 ^ 12 }
    ensures { result ≡ Instr.Rjmp (pos words) }
{
    Instr::Rjmp { k: words as i16 }
}

/// A jump back over so many words and the two words before it.
fn back(words: u16) -> Instr
    requires { words < 2 ^ 12 }
    ensures { result ≡ Instr.Rjmp (negsuc (words + 2)) }
{
    Instr::Rjmp {
        k: -3 - words as i16,
    }
}

/// Appends code that shifts a number in two's complement to the right by as many bits as R30 tells, and rounds toward
/// zero.
fn rounded(out: &mut Seq<AsmItem>, at: Location, bytes: u8) -> Result<(), NoMemory>
    requires at { HasBytes at bytes }
    requires top { HasByte at (bytes - 1) }
    requires some { 1 ≤ bytes }
    ensures ok { OnOk result (out.new.items ≡ out.old.items ++ rounded_code at bytes) }
    ensures err { OnErr result (BeginWith out.old.items out.new.items) }
{
    let words = half_words(at, bytes);
    out.extend_from_slice(&[AsmItem::Plain(over(words))])?;
    half(out, at, bytes)?;
    out.extend_from_slice(&[
        AsmItem::Plain(Instr::Dec { d: 30 }),
        AsmItem::Plain(Instr::Brbs { s: 2, k: 1 }),
        AsmItem::Plain(back(words)),
    ])
}

/// Appends code that shifts a fixed-point number of so many bytes where it stands, to the left or to the right by as
/// many bits as R30 tells. To the right it rounds toward zero, and to the left no result is promised where it is out of
/// range. Where memory runs out, a part of the code is appended.
pub fn shift_in_place(
    out: &mut Seq<AsmItem>,
    left: bool,
    signed: bool,
    at: Location,
    bytes: u8,
) -> Result<(), NoMemory>
    requires at { HasBytes at bytes }
    requires top { HasByte at (bytes - 1) }
    requires some { 1 ≤ bytes }
    ensures ok { OnOk result (out.new.items ≡ out.old.items ++ placed_code left signed at bytes) }
    ensures err { OnErr result (BeginWith out.old.items out.new.items) }
{
    match (left, signed) {
        (true, _) => shift(out, Direction::Left, at, bytes),
        (false, true) => rounded(out, at, bytes),
        (false, false) => shift(out, Direction::Right { signed: false }, at, bytes),
    }
}

/// The addition of a register to another one for byte `i`: the lowest byte takes R31, and each other one the carry.
fn more(i: u8, register: u8) -> Instr
    ensures { result ≡ biased_by i register }
{
    if i == 0 {
        Instr::Add { d: register, r: 31 }
    } else {
        Instr::Adc { d: register, r: 0 }
    }
}

/// Appends code for byte `i` of a sum with R31.
fn bias_byte(out: &mut Seq<AsmItem>, r: u8, i: u8) -> Result<(), NoMemory>
    requires { r + i < 32 }
    ensures ok { OnOk result (out.new.items ≡ out.old.items ++ biased_byte r i) }
    ensures err { OnErr result (BeginWith out.old.items out.new.items) }
{
    out.extend_from_slice(&[AsmItem::Plain(more(i, r + i))])
}

/// Appends code that adds R31 to a number in registers from `r` on, where R0 is 0.
fn bias_bytes(out: &mut Seq<AsmItem>, r: u8, bytes: u8) -> Result<(), NoMemory>
    requires { r + bytes ≤ 32 }
    ensures ok { OnOk result (out.new.items ≡ out.old.items ++ chain (biased_byte r) bytes) }
    ensures err { OnErr result (BeginWith out.old.items out.new.items) }
{
    for i in 0..bytes {
        bias_byte(out, r, i)?;
    }
    Ok(())
}

/// Appends code that adds 2 ^ count - 1 to a number in registers from `r` on where it is negative.
fn bias(out: &mut Seq<AsmItem>, r: u8, bytes: u8, count: u8) -> Result<(), NoMemory>
    requires row { r + bytes ≤ 32 }
    requires some { 1 ≤ bytes }
    requires few { count < 8 }
    ensures ok { OnOk result (out.new.items ≡ out.old.items ++ bias_code r bytes count) }
    ensures err { OnErr result (BeginWith out.old.items out.new.items) }
{
    sign(out, Location::InRegisters(r), bytes)?;
    out.extend_from_slice(&[
        AsmItem::Plain(Instr::Andi {
            d: 31,
            k: low_mask(count),
        }),
        AsmItem::Plain(Instr::Eor { d: 0, r: 0 }),
    ])?;
    bias_bytes(out, r, bytes)
}

/// 2 ^ count - 1.
fn low_mask(count: u8) -> u8
    requires { count < 8 }
    ensures { result ≡ 2 ^ count - 1 }
{
    (1 << count) - 1
}

/// Byte `i` of 2 ^ count - 1.
fn mask_byte(count: u8, i: u8) -> u8
    requires { i < 32 }
    ensures { result ≡ mask_byte count i }
{
    let bits = count.saturating_sub(8 * i);
    if bits < 8 { low_mask(bits) } else { 255 }
}

/// What takes byte `i` of 256 ^ n less 2 ^ count - 1 from a register: the lowest byte takes no borrow.
fn known_bias_by(count: u8, i: u8, register: u8) -> Instr
    requires some { 1 ≤ count }
    requires index { i < 32 }
    ensures { result ≡ known_bias_by count i register }
{
    let mask = mask_byte(count, i);
    if i == 0 {
        Instr::Subi {
            d: register,
            k: 255 - mask + 1,
        }
    } else {
        Instr::Sbci {
            d: register,
            k: 255 - mask,
        }
    }
}

/// Appends code that adds 2 ^ count - 1 to a number in registers from `r` on.
fn known_bias_bytes(out: &mut Seq<AsmItem>, r: u8, bytes: u8, count: u8) -> Result<(), NoMemory>
    requires row { r + bytes ≤ 32 }
    requires some { 1 ≤ count }
    ensures ok { OnOk result (out.new.items ≡ out.old.items ++ chain (known_bias_byte r count) bytes) }
    ensures err { OnErr result (BeginWith out.old.items out.new.items) }
{
    for i in 0..bytes {
        out.extend_from_slice(&[AsmItem::Plain(known_bias_by(count, i, r + i))])?;
    }
    Ok(())
}

/// Appends code that adds 2 ^ count - 1 to a number in registers from `r` on where it is negative, and that is passed over
/// where it is not.
fn known_bias(out: &mut Seq<AsmItem>, r: u8, bytes: u8, count: u8) -> Result<(), NoMemory>
    requires row { r + bytes ≤ 32 }
    requires bytes { 1 ≤ bytes }
    requires some { 1 ≤ count }
    ensures ok { OnOk result (out.new.items ≡ out.old.items ++ known_bias_code r bytes count) }
    ensures err { OnErr result (BeginWith out.old.items out.new.items) }
{
    out.extend_from_slice(&[
        AsmItem::Plain(Instr::Sbrs {
            r: r + (bytes - 1),
            b: 7,
        }),
        AsmItem::Plain(over(u16::from(bytes))),
    ])?;
    known_bias_bytes(out, r, bytes, count)
}

/// Whether the bias of a number in registers from `r` on is made of bytes that are known.
fn takes_known_bias(r: u8, count: u8) -> bool
    ensures { result ≡ takes_known_bias r count }
{
    16 <= r && 1 <= count
}

/// Appends code that shifts a number in two's complement to the right by a known count, and rounds toward zero.
fn rounded_by(out: &mut Seq<AsmItem>, at: Location, bytes: u8, count: u8) -> Result<(), NoMemory>
    requires at { HasBytes at bytes }
    requires top { HasByte at (bytes - 1) }
    requires some { 1 ≤ bytes }
    ensures ok { OnOk result (out.new.items ≡ out.old.items ++ rounded_by_code at bytes count) }
    ensures err { OnErr result (BeginWith out.old.items out.new.items) }
{
    let right = Direction::Right { signed: true };
    match at {
        Location::InRegisters(r) if takes_known_bias(r, count) => {
            known_bias(out, r, bytes, count)?;
            shift_by(out, right, at, bytes, count)
        }
        Location::InRegisters(r) if count < 8 => {
            bias(out, r, bytes, count)?;
            shift_by(out, right, at, bytes, count)
        }
        _ => {
            out.extend_from_slice(&[AsmItem::Plain(Instr::Ldi { d: 30, k: count })])?;
            rounded(out, at, bytes)
        }
    }
}

/// Appends code that shifts a fixed-point number of so many bytes where it stands, by a known count. To the right it
/// rounds toward zero, and to the left no result is promised where it is out of range. Where memory runs out, a part of
/// the code is appended.
pub fn shift_in_place_by(
    out: &mut Seq<AsmItem>,
    left: bool,
    signed: bool,
    at: Location,
    bytes: u8,
    count: u8,
) -> Result<(), NoMemory>
    requires at { HasBytes at bytes }
    requires top { HasByte at (bytes - 1) }
    requires some { 1 ≤ bytes }
    ensures ok { OnOk result (out.new.items ≡ out.old.items ++ placed_by_code left signed at bytes count) }
    ensures err { OnErr result (BeginWith out.old.items out.new.items) }
{
    match (left, signed) {
        (true, _) => shift_by(out, Direction::Left, at, bytes, count),
        (false, true) => rounded_by(out, at, bytes, count),
        (false, false) => shift_by(out, Direction::Right { signed: false }, at, bytes, count),
    }
}
