//! The listing of an image.
ghost use Rattle.std.specs.Prelude.{◌≡◌, ◌≤◌, ◌<◌, ◌+◌, ◌*◌, ◌^◌, ◌%◌, ◌++◌};
ghost use Rattle.std.specs.Prelude.{◌∷◌, [], IsTrue, OnOk, IfOk, IfSome, length, drop};
ghost use Rattle.std.specs.Prelude.{unwrap_or, slice_get, false};
ghost use Rattle.ec_isa.specs.Table.{in_table};
ghost use Rattle.ec_avr.specs.Flash.{flash_size};
ghost use Rattle.ec_hex.specs.Text.{contents};
ghost use Rattle.ec_list.specs.Lines.{line_text, item_bytes, IsInRange};
ghost use Rattle.ec_list.specs.Lists.{Lists, listing};
ghost use Rattle.ec_list.specs.Walking.{byte_in as byte_in_of, word_in as word_in_of, whole as whole_of};
ghost use Rattle.ec_list.specs.Walking.{instruction_of_word as instruction_of_word_of, instruction_in as instruction_in_of};
ghost use Rattle.ec_list.specs.Walking.{item_in as item_in_of};

use crate::line::{Item, Line, push_line};
use ec_avr::Image;
use ec_isa::{Instr, decode, encode};
use ec_space::{NoMemory, Seq};
use std::alloc::Global;

/// What stands from a place on.
fn behind<T>(items: &[T], at: usize) -> &[T]
    ensures { result.now ≡ drop at items.now }
{
    items.get(at..).unwrap_or(&[])
}

/// Whether the byte at a place is written.
fn is_written(written: &[bool], k: usize) -> bool
    ensures { result ≡ unwrap_or (slice_get written.now k) false }
{
    written.get(k).copied().unwrap_or(false)
}

/// The byte at a place.
fn byte_at(bytes: &[u8], k: usize) -> Option<u8>
    ensures { result ≡ slice_get bytes.now k }
{
    bytes.get(k).copied()
}

/// The byte at a place, where it is written.
fn byte_in(bytes: &[u8], written: &[bool], k: usize) -> Option<u8>
    ensures { result ≡ byte_in_of (contents bytes.now written.now) k }
{
    let byte = byte_at(bytes, k);
    if is_written(written, k) { byte } else { None }
}

/// The word at the front, where both of its bytes are written.
fn word_in(bytes: &[u8], written: &[bool]) -> Option<u16>
    ensures { result ≡ word_in_of (contents bytes.now written.now) }
{
    let low = byte_in(bytes, written, 0)?;
    let high = byte_in(bytes, written, 1)?;
    Some(u16::from_le_bytes([low, high]))
}

/// The word behind the one at the front.
fn next_word(bytes: &[u8], written: &[bool]) -> Option<u16>
    ensures { result ≡ word_in_of (drop 2 (contents bytes.now written.now)) }
{
    word_in(behind(bytes, 2), behind(written, 2))
}

/// The instruction, where its second word, if it has one, is written.
fn whole(i: Instr, next: Option<u16>) -> Option<Instr>
    requires { IsTrue (in_table i) }
    ensures value { result ≡ whole_of i next }
    ensures range { IfSome result (λ i. IsTrue (in_table i)) }
{
    if encode(i).second.is_none() || next.is_some() {
        Some(i)
    } else {
        None
    }
}

/// The instruction of a word, and of the next one where it has two.
fn instruction_of_word(word: u16, next: Option<u16>) -> Option<Instr>
    ensures value { result ≡ instruction_of_word_of word next }
    ensures range { IfSome result (λ i. IsTrue (in_table i)) }
{
    let i = decode(word, next.unwrap_or(0))?;
    whole(i, next)
}

/// The instruction at an address, from which on stand these bytes.
fn instruction_in(at: u32, bytes: &[u8], written: &[bool]) -> Option<Instr>
    ensures value { result ≡ instruction_in_of at (contents bytes.now written.now) }
    ensures range { IfSome result (λ i. IsTrue (in_table i)) }
{
    if at % 2 == 0 {
        let word = word_in(bytes, written)?;
        instruction_of_word(word, next_word(bytes, written))
    } else {
        None
    }
}

/// The item at an address, from which on stand these bytes, where the first is written.
fn item_in(at: u32, bytes: &[u8], written: &[bool]) -> Option<Item>
    ensures value { result ≡ item_in_of at (contents bytes.now written.now) }
    ensures range { IfSome result IsInRange }
{
    let byte = byte_in(bytes, written, 0)?;
    match instruction_in(at, bytes, written) {
        Some(i) => Some(Item::Instruction(i)),
        None => Some(Item::Byte(byte)),
    }
}

/// The item at an address of a flash, where the byte there is written.
fn item_at(bytes: &[u8], written: &[bool], at: u32) -> Option<Item>
    ensures value { result ≡ item_in_of at (drop at (contents bytes.now written.now)) }
    ensures range { IfSome result IsInRange }
{
    item_in(at, behind(bytes, at as usize), behind(written, at as usize))
}

/// Appends a line with its end.
fn put_line(out: &mut Seq<u8>, line: Line) -> Result<(), NoMemory>
    ensures { OnOk result (out.new.items ≡ out.old.items ++ line_text line ++ 10 ∷ []) }
{
    push_line(out, line)?;
    out.push(b'\n')
}

/// The listing of a flash.
fn list_bytes(alloc: Global, bytes: &[u8], written: &[bool]) -> Result<Seq<u8>, NoMemory>
    requires few { length bytes.now < 2 ^ 32 }
    requires flagged { length written.now ≡ length bytes.now }
    ensures { IfOk result (λ text. text.items ≡ listing bytes.now written.now) }
{
    let mut out = Seq::new(alloc);
    let mut at = 0usize;
    'items: while at < bytes.len() {
        match item_at(bytes, written, at as u32) {
            Some(item) => {
                let line = Line {
                    at: at as u32,
                    item,
                };
                put_line(&mut out, line)?;
                at += item.size();
            }
            None => at += 1,
        }
    }
    Ok(out)
}

/// The listing of an image. From address 0 on, an even address whose two bytes are written has the line of the
/// instruction that they begin, where there is one and its second word, if it has one, is written, and the listing goes
/// on behind it. Another written byte has a line of its own, and a byte that is not written has none.
pub fn list(alloc: Global, image: &Image) -> Result<Seq<u8>, NoMemory>
    ensures listing { IfOk result (λ text. text.items ≡ listing image.now.bytes.items image.now.written.items) }

    // The text lists the image, and no other.
    ensures lists { IfOk result (λ text.
        Lists image.now.core text.items image.now.bytes.items image.now.written.items) }
    ensures short { IfOk result (λ text. length text.items ≤ 16 * flash_size image.now.core) }
{
    let bytes = image.bytes.as_slice();
    let written = image.written.as_slice();
    list_bytes(alloc, bytes, written)
}
