//! Shifts by a count that is known when the code runs.
ghost use Rattle.std.specs.Prelude.{◌≡◌, ◌+◌, ◌-◌, ◌++◌, ◌<◌, ◌≤◌, ◌^◌, pos, negsuc, OnOk, OnErr};
ghost use Rattle.ec_runs.specs.Behaviours.{BeginWith};
ghost use Rattle.ec_asm.specs.Items.{chain};
ghost use Rattle.ec_asm.specs.Pieces.{HasBytes};
ghost use Rattle.ec_select_shifts.specs.Shifts.{turn_code, turn_words, jump_code, end_code, shift_code};
ghost use Rattle.ec_select_shifts.specs.Shifts.{turns_code, most_turn_words, bits_code, filled_byte, raised_byte, lowered_byte};
ghost use Rattle.ec_select_shifts.specs.Shifts.{sign_code, moved_byte, moved_code, moves_bytes, counted_code};
ghost use Rattle.ec_select_shifts.specs.Shifts.{against_code, carried_byte, carry_code, carried_code, takes_carry, bytes_code};

use ec_asm::{AsmItem, Location, Operator, halve, operate};
use ec_isa::Instr;
use ec_space::{NoMemory, Seq};

/// The direction of a shift, and what comes in from above.
#[derive(Clone, Copy)]
pub enum Direction {
    Left,
    /// To the right, where the sign of the number comes in, or 0.
    Right { signed: bool },
}

/// The words of one turn of the loop.
fn turn_words(shift: Direction, at: Location, bytes: u8) -> u16
    ensures { result ≡ turn_words shift at bytes }
{
    let each = match (at, shift) {
        (Location::InRegisters(_), _) => 1,
        (Location::InMemory { .. }, Direction::Left) => 7,
        (Location::InMemory { .. }, Direction::Right { .. }) => 5,
    };
    each * u16::from(bytes)
}

/// A jump over so many words.
fn over(words: u16) -> Instr
    requires { words < 2 ^ 12 }
    ensures { result ≡ Instr.Rjmp (pos words) }
{
    Instr::Rjmp { k: words as i16 }
}

/// A branch back over so many words and the word before the branch, where N is 0.
fn back(words: u16) -> Instr
    requires { words < 2 ^ 12 }
    ensures { result ≡ Instr.Brbc 2 (negsuc (words + 1)) }
{
    Instr::Brbc {
        s: 2,
        k: -2 - words as i16,
    }
}

/// Appends code that shifts a number by one bit.
fn turn(out: &mut Seq<AsmItem>, shift: Direction, at: Location, bytes: u8) -> Result<(), NoMemory>
    requires { HasBytes at bytes }
    ensures ok { OnOk result (out.new.items ≡ out.old.items ++ turn_code shift at bytes) }
    ensures err { OnErr result (BeginWith out.old.items out.new.items) }
{
    match shift {
        Direction::Left => operate(out, Operator::Sum, at, at, bytes),
        Direction::Right { signed } => halve(out, at, signed, bytes),
    }
}

/// Appends code that shifts a number of so many bytes by the count in R30. Where memory runs out, a part of the code is
/// appended.
pub fn shift(
    out: &mut Seq<AsmItem>,
    shift: Direction,
    at: Location,
    bytes: u8,
) -> Result<(), NoMemory>
    requires { HasBytes at bytes }
    ensures ok { OnOk result (out.new.items ≡ out.old.items ++ shift_code shift at bytes) }
    ensures err { OnErr result (BeginWith out.old.items out.new.items) }
{
    let words = turn_words(shift, at, bytes);
    out.extend_from_slice(&[AsmItem::Plain(over(words))])?;
    turn(out, shift, at, bytes)?;
    out.extend_from_slice(&[
        AsmItem::Plain(Instr::Dec { d: 30 }),
        AsmItem::Plain(back(words)),
    ])
}

/// Appends code that shifts a number by so many bits, one after another.
fn turns(
    out: &mut Seq<AsmItem>,
    shift: Direction,
    at: Location,
    bytes: u8,
    count: u8,
) -> Result<(), NoMemory>
    requires { HasBytes at bytes }
    ensures ok { OnOk result (out.new.items ≡ out.old.items ++ turns_code shift at bytes count) }
    ensures err { OnErr result (BeginWith out.old.items out.new.items) }
{
    for i in 0..count {
        turn(out, shift, at, bytes)?;
    }
    Ok(())
}

/// How many words turns one after another may have: as many as the loop, and in registers twice as many.
fn most_turn_words(by: Direction, at: Location, bytes: u8) -> u32
    ensures { result ≡ most_turn_words by at bytes }
{
    let words = u32::from(turn_words(by, at, bytes)) + 4;
    match at {
        Location::InRegisters(_) => 2 * words,
        Location::InMemory { .. } => words,
    }
}

/// Appends code that shifts a number of so many bytes by so many bits: turns one after another where these have few
/// words, and else the loop. Where memory runs out, a part of the code is appended.
fn bits(
    out: &mut Seq<AsmItem>,
    by: Direction,
    at: Location,
    bytes: u8,
    count: u8,
) -> Result<(), NoMemory>
    requires { HasBytes at bytes }
    ensures ok { OnOk result (out.new.items ≡ out.old.items ++ bits_code by at bytes count) }
    ensures err { OnErr result (BeginWith out.old.items out.new.items) }
{
    let words = u32::from(turn_words(by, at, bytes));
    if u32::from(count) * words <= most_turn_words(by, at, bytes) {
        return turns(out, by, at, bytes, count);
    }
    out.extend_from_slice(&[AsmItem::Plain(Instr::Ldi { d: 30, k: count })])?;
    shift(out, by, at, bytes)
}

/// Appends code for a byte into which none moves: it becomes the sign in R0, or 0.
fn fill(out: &mut Seq<AsmItem>, by: Direction, d: u8) -> Result<(), NoMemory>
    ensures ok { OnOk result (out.new.items ≡ out.old.items ++ filled_byte by d) }
    ensures err { OnErr result (BeginWith out.old.items out.new.items) }
{
    match by {
        Direction::Right { signed: true } => {
            out.extend_from_slice(&[AsmItem::Plain(Instr::Mov { d, r: 0 })])
        }
        _ => out.extend_from_slice(&[AsmItem::Plain(Instr::Eor { d, r: d })]),
    }
}

/// Appends code that moves a byte by so many up, to byte `j` of a number from register `r` on.
fn raise(out: &mut Seq<AsmItem>, r: u8, skipped: u8, j: u8) -> Result<(), NoMemory>
    requires { r + j < 32 }
    ensures ok { OnOk result (out.new.items ≡ out.old.items ++ raised_byte r skipped j) }
    ensures err { OnErr result (BeginWith out.old.items out.new.items) }
{
    if skipped <= j {
        let from = r + (j - skipped);
        return out.extend_from_slice(&[AsmItem::Plain(Instr::Mov { d: r + j, r: from })]);
    }
    fill(out, Direction::Left, r + j)
}

/// Appends code that moves a byte by so many down, to byte `j` of so many from register `r` on.
fn lower(
    out: &mut Seq<AsmItem>,
    signed: bool,
    r: u8,
    bytes: u8,
    skipped: u8,
    j: u8,
) -> Result<(), NoMemory>
    requires row { r + bytes ≤ 32 }
    requires index { j < bytes }
    requires some { skipped ≤ bytes }
    ensures ok { OnOk result (out.new.items ≡ out.old.items ++ lowered_byte signed r bytes skipped j) }
    ensures err { OnErr result (BeginWith out.old.items out.new.items) }
{
    if skipped + j < bytes {
        let from = r + (skipped + j);
        return out.extend_from_slice(&[AsmItem::Plain(Instr::Mov { d: r + j, r: from })]);
    }
    fill(out, Direction::Right { signed }, r + j)
}

/// Appends code that takes the sign of a number of so many bytes to R0, where it is shifted to the right with its sign.
fn sign(out: &mut Seq<AsmItem>, by: Direction, r: u8, bytes: u8) -> Result<(), NoMemory>
    requires row { r + bytes ≤ 32 }
    requires some { 1 ≤ bytes }
    ensures ok { OnOk result (out.new.items ≡ out.old.items ++ sign_code by r bytes) }
    ensures err { OnErr result (BeginWith out.old.items out.new.items) }
{
    match by {
        Direction::Right { signed: true } => out.extend_from_slice(&[
            AsmItem::Plain(Instr::Mov {
                d: 0,
                r: r + (bytes - 1),
            }),
            AsmItem::Plain(Instr::Add { d: 0, r: 0 }),
            AsmItem::Plain(Instr::Sbc { d: 0, r: 0 }),
        ]),
        _ => Ok(()),
    }
}

/// Appends code that moves one byte of so many by so many: up from the highest one on, and down from the lowest.
fn move_byte(
    out: &mut Seq<AsmItem>,
    by: Direction,
    r: u8,
    bytes: u8,
    skipped: u8,
    i: u8,
) -> Result<(), NoMemory>
    requires row { r + bytes ≤ 32 }
    requires index { i < bytes }
    requires some { skipped ≤ bytes }
    ensures ok { OnOk result (out.new.items ≡ out.old.items ++ moved_byte by r bytes skipped i) }
    ensures err { OnErr result (BeginWith out.old.items out.new.items) }
{
    match by {
        Direction::Left => raise(out, r, skipped, bytes - 1 - i),
        Direction::Right { signed } => lower(out, signed, r, bytes, skipped, i),
    }
}

/// Appends code that moves the bytes of a number by so many.
fn move_bytes(
    out: &mut Seq<AsmItem>,
    by: Direction,
    r: u8,
    bytes: u8,
    skipped: u8,
) -> Result<(), NoMemory>
    requires row { r + bytes ≤ 32 }
    requires some { skipped < bytes }
    ensures ok { OnOk result (out.new.items ≡ out.old.items ++ moved_code by r bytes skipped) }
    ensures err { OnErr result (BeginWith out.old.items out.new.items) }
{
    sign(out, by, r, bytes)?;
    for i in 0..bytes {
        move_byte(out, by, r, bytes, skipped, i)?;
    }
    Ok(())
}

/// Appends code that shifts the bytes that move by one bit the other way. The bit that leaves them is the carry.
fn turn_back(
    out: &mut Seq<AsmItem>,
    by: Direction,
    r: u8,
    skipped: u8,
    moved: u8,
) -> Result<(), NoMemory>
    requires { r + skipped + moved ≤ 32 }
    ensures ok { OnOk result (out.new.items ≡ out.old.items ++ against_code by r skipped moved) }
    ensures err { OnErr result (BeginWith out.old.items out.new.items) }
{
    match by {
        Direction::Left => turn(
            out,
            Direction::Right { signed: false },
            Location::InRegisters(r),
            moved,
        ),
        Direction::Right { .. } => {
            turn(
                out,
                Direction::Left,
                Location::InRegisters(r + skipped),
                moved,
            )
        }
    }
}

/// Appends code that moves one byte of so many by so many, and keeps the carry. A byte into which none moves has the carry in
/// all its bits where the sign comes in, and is else 0.
fn carry_byte(
    out: &mut Seq<AsmItem>,
    by: Direction,
    r: u8,
    bytes: u8,
    skipped: u8,
    i: u8,
) -> Result<(), NoMemory>
    requires row { r + bytes ≤ 32 }
    requires index { i < bytes }
    requires some { skipped ≤ bytes }
    ensures ok { OnOk result (out.new.items ≡ out.old.items ++ carried_byte by r bytes skipped i) }
    ensures err { OnErr result (BeginWith out.old.items out.new.items) }
{
    match by {
        Direction::Right { signed: true } if skipped + i >= bytes => {
            out.extend_from_slice(&[AsmItem::Plain(Instr::Sbc { d: r + i, r: r + i })])
        }
        _ => move_byte(out, by, r, bytes, skipped, i),
    }
}

/// Appends code that takes the carry into the byte beside those that have moved.
fn carry(
    out: &mut Seq<AsmItem>,
    by: Direction,
    r: u8,
    skipped: u8,
    moved: u8,
) -> Result<(), NoMemory>
    requires row { r + skipped + moved ≤ 32 }
    requires some { 1 ≤ moved }
    ensures ok { OnOk result (out.new.items ≡ out.old.items ++ carry_code by r skipped moved) }
    ensures err { OnErr result (BeginWith out.old.items out.new.items) }
{
    let top = r + (moved - 1);
    match by {
        Direction::Left => {
            out.extend_from_slice(&[AsmItem::Plain(Instr::Ror { d: r + skipped })])
        }
        Direction::Right { signed: false } => {
            out.extend_from_slice(&[AsmItem::Plain(Instr::Adc { d: top, r: top })])
        }
        Direction::Right { signed: true } => Ok(()),
    }
}

/// Appends code that moves the bytes of a number by so many, and keeps the carry.
fn carry_bytes(
    out: &mut Seq<AsmItem>,
    by: Direction,
    r: u8,
    bytes: u8,
    skipped: u8,
) -> Result<(), NoMemory>
    requires row { r + bytes ≤ 32 }
    requires some { skipped ≤ bytes }
    ensures ok { OnOk result (out.new.items ≡ out.old.items ++ chain (carried_byte by r bytes skipped) bytes) }
    ensures err { OnErr result (BeginWith out.old.items out.new.items) }
{
    for i in 0..bytes {
        carry_byte(out, by, r, bytes, skipped, i)?;
    }
    Ok(())
}

/// Appends code that shifts a number by so many whole bytes and seven bits: one bit the other way, and a byte more.
fn carried(
    out: &mut Seq<AsmItem>,
    by: Direction,
    r: u8,
    bytes: u8,
    skipped: u8,
) -> Result<(), NoMemory>
    requires row { r + bytes ≤ 32 }
    requires some { skipped < bytes }
    ensures ok { OnOk result (out.new.items ≡ out.old.items ++ carried_code by r bytes skipped) }
    ensures err { OnErr result (BeginWith out.old.items out.new.items) }
{
    let moved = bytes - skipped;
    turn_back(out, by, r, skipped, moved)?;
    carry_bytes(out, by, r, bytes, skipped + 1)?;
    carry(out, by, r, skipped, moved)
}

/// Appends code that shifts a number by so many whole bytes, and those that have moved by so many bits.
fn bytes_and_bits(
    out: &mut Seq<AsmItem>,
    by: Direction,
    r: u8,
    bytes: u8,
    skipped: u8,
    count: u8,
) -> Result<(), NoMemory>
    requires row { r + bytes ≤ 32 }
    requires some { skipped < bytes }
    ensures ok { OnOk result (out.new.items ≡ out.old.items ++ bytes_code by r bytes skipped count) }
    ensures err { OnErr result (BeginWith out.old.items out.new.items) }
{
    move_bytes(out, by, r, bytes, skipped)?;
    let first = match by {
        Direction::Left => r + skipped,
        Direction::Right { .. } => r,
    };
    bits(
        out,
        by,
        Location::InRegisters(first),
        bytes - skipped,
        count,
    )
}

/// Whether a shift moves some whole bytes of a number, and not all of them.
fn moves_bytes(bytes: u8, count: u8) -> bool
    ensures { result ≡ moves_bytes bytes count }
{
    8 <= count && count / 8 < bytes
}

/// Whether a shift leaves some bytes of a number, and moves them by seven bits.
fn takes_carry(bytes: u8, count: u8) -> bool
    ensures { result ≡ takes_carry bytes count }
{
    count / 8 < bytes && count % 8 == 7
}

/// Appends code that shifts a number of so many bytes by a known count. In registers whole bytes are moved first, or one more
/// where seven bits are left. Where memory runs out, a part of the code is appended.
pub fn shift_by(
    out: &mut Seq<AsmItem>,
    by: Direction,
    at: Location,
    bytes: u8,
    count: u8,
) -> Result<(), NoMemory>
    requires { HasBytes at bytes }
    ensures ok { OnOk result (out.new.items ≡ out.old.items ++ counted_code by at bytes count) }
    ensures err { OnErr result (BeginWith out.old.items out.new.items) }
{
    match at {
        Location::InRegisters(r) if takes_carry(bytes, count) => {
            carried(out, by, r, bytes, count / 8)
        }
        Location::InRegisters(r) if moves_bytes(bytes, count) => {
            bytes_and_bits(out, by, r, bytes, count / 8, count % 8)
        }
        _ => bits(out, by, at, bytes, count),
    }
}
