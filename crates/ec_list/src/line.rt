//! The lines of a listing, written and read.
ghost use Rattle.std.specs.Prelude.{◌≡◌, ◌<◌, ◌≤◌, ◌+◌, ◌*◌, ◌%◌, ◌/◌, ◌++◌};
ghost use Rattle.std.specs.Prelude.{◌∷◌, [], ◌↔◌, OnOk, IfOk, Some, drop, length, bytes_eq};
ghost use Rattle.ec_hex.specs.Bytes.{digit, digits_of};
ghost use Rattle.ec_list.specs.Lines.{address_text, item_text, line_text, item_bytes, end_of};
ghost use Rattle.ec_list.specs.ReadingLines.{digit_guess as digit_guess_of, digit_in as digit_in_of, address_guess as address_guess_of};
ghost use Rattle.ec_list.specs.ReadingLines.{item_guess as item_guess_of, line_guess as line_guess_of, line_of};
ghost use Rattle.ec_list.specs.declared.line.Line.{Line as SpecLine};

use crate::reading::read_instruction;
use crate::texts::push_instruction;
use ec_hex::{digit_number, digit_of};
use ec_isa::{Instr, encode};
use ec_space::{NoMemory, Seq};
use std::alloc::Global;

/// What a line lists.
#[derive(Clone, Copy)]
pub enum Item {
    /// A byte that is listed as such.
    Byte(u8),
    Instruction(Instr),
}

impl Item {
    ghost use Rattle.std.specs.Prelude.{◌≡◌, length};
    ghost use Rattle.ec_list.specs.Lines.{item_bytes, IsInRange};

    /// How many bytes it takes, 1, 2 or 4.
    pub fn size(self) -> usize
        requires { IsInRange self }
        ensures { result ≡ length (item_bytes self) }
    {
        match self {
            Item::Byte(_) => 1,
            Item::Instruction(i) => match encode(i).second {
                Some(_) => 4,
                None => 2,
            },
        }
    }
}

/// An item, and the byte address at which it stands.
#[derive(Clone, Copy)]
pub struct Line {
    pub at: u32,
    pub item: Item,
}

/// The digit of the lowest four bits.
fn last_digit(n: u32) -> u8
    ensures { result ≡ digit (n % 16) }
{
    digit_of((n % 16) as u8)
}

fn push_address(out: &mut Seq<u8>, at: u32) -> Result<(), NoMemory>
    ensures { OnOk result (out.new.items ≡ out.old.items ++ address_text at) }
{
    out.extend_from_slice(&[
        last_digit(at / 65536),
        last_digit(at / 4096),
        last_digit(at / 256),
        last_digit(at / 16),
        last_digit(at),
    ])
}

fn push_item(out: &mut Seq<u8>, item: Item) -> Result<(), NoMemory>
    ensures { OnOk result (out.new.items ≡ out.old.items ++ item_text item) }
{
    match item {
        Item::Byte(b) => {
            out.extend_from_slice(b".byte ")?;
            out.extend_from_slice(&[digit_of(b / 16), digit_of(b % 16)])
        }
        Item::Instruction(i) => push_instruction(out, i),
    }
}

/// Appends a line without its end.
pub fn push_line(out: &mut Seq<u8>, line: Line) -> Result<(), NoMemory>
    ensures { OnOk result (out.new.items ≡ out.old.items ++ line_text line) }
{
    push_address(out, line.at)?;
    out.extend_from_slice(b": ")?;
    push_item(out, line.item)
}

/// The number of a hexadecimal digit, or 0.
fn digit_guess(c: u8) -> u8
    ensures value { result ≡ digit_guess_of c }
    ensures small { result < 16 }
{
    digit_number(c).unwrap_or(0)
}

/// The number of the digit at a place, or 0.
fn digit_in(text: &[u8], k: usize) -> u8
    ensures value { result ≡ digit_in_of text.now k }
    ensures small { result < 16 }
{
    let c = text.get(k).copied().unwrap_or(0);
    digit_guess(c)
}

/// The address at the front of a line.
fn address_guess(text: &[u8]) -> u32
    ensures { result ≡ address_guess_of text.now }
{
    65536 * digit_in(text, 0) as u32
        + 4096 * digit_in(text, 1) as u32
        + 256 * digit_in(text, 2) as u32
        + 16 * digit_in(text, 3) as u32
        + digit_in(text, 4) as u32
}

/// The item that a text may be of.
fn item_guess(alloc: Global, text: &[u8]) -> Result<Item, NoMemory>
    ensures { IfOk result (λ item. item ≡ item_guess_of text.now) }
{
    match read_instruction(alloc, text)? {
        Some(i) => Ok(Item::Instruction(i)),
        None => Ok(Item::Byte(16 * digit_in(text, 6) + digit_in(text, 7))),
    }
}

/// What stands behind the address, the colon and the space.
fn behind_address(text: &[u8]) -> &[u8]
    ensures { result.now ≡ drop 7 text.now }
{
    text.get(7..).unwrap_or(&[])
}

/// The line that a text may be.
fn line_guess(alloc: Global, text: &[u8]) -> Result<Line, NoMemory>
    ensures { IfOk result (λ l. l ≡ line_guess_of text.now) }
{
    let item = item_guess(alloc, behind_address(text))?;
    Ok(Line {
        at: address_guess(text),
        item,
    })
}

/// Whether a line has this text.
fn has_text(alloc: Global, line: Line, text: &[u8]) -> Result<bool, NoMemory>
    ensures { IfOk result (λ has. has ≡ bytes_eq (line_text line) text.now) }
{
    let mut again = Seq::new(alloc);
    push_line(&mut again, line)?;
    Ok(again.as_slice() == text)
}

/// The line that a text without its end is. `None` says that it has not the form of a line with operands in range.
pub fn read_line(alloc: Global, text: &[u8]) -> Result<Option<Line>, NoMemory>
    ensures value { IfOk result (λ o. o ≡ line_of text.now) }
{
    let line = line_guess(alloc, text)?;
    if has_text(alloc, line, text)? {
        Ok(Some(line))
    } else {
        Ok(None)
    }
}
