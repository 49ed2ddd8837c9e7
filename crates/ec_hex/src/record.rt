//! The records of a text's lines.
ghost use Rattle.std.specs.Prelude.{◌≡◌, ◌+◌, ◌-◌, ◌%◌, ◌<◌, ◌≤◌, ◌^◌, ◌==◌, ◌&&◌, MatchBool};
ghost use Rattle.std.specs.Prelude.{◌*◌, IfOk, option_map};
ghost use Rattle.ec_hex.specs.Bytes.{bytes_of};
ghost use Rattle.ec_hex.specs.Record.{reading_of_bytes, record_of};
ghost use Rattle.ec_hex.specs.Views.{record_view, reading_view};

use crate::line::sum;
use crate::text::digit_number;
use ec_space::{NoMemory, Seq};
use std::alloc::Global;

/// The byte that makes a sum 0 modulo 256: the checksum of bytes that have this sum modulo 256.
pub fn checksum_of(sum: u8) -> u8
    ensures { result ≡ (256 - sum) % 256 }
{
    0u8.wrapping_sub(sum)
}

/// Whether a record of this type, 0 to 255, and so many data bytes is the end record: type 01, with no data.
pub fn is_end(kind: u8, count: usize) -> bool
    ensures { result ≡ ((kind == 1) && (count == 0)) }
{
    kind == 1 && count == 0
}

/// Whether bytes from an address on end past a flash of so many bytes.
pub fn is_past(at: u64, count: usize, size: u64) -> bool
    requires at { at < 2 ^ 33 }
    requires count { count < 2 ^ 63 }
    ensures { MatchBool result (size < at + count) (at + count ≤ size) }
{
    size < at + count as u64
}

/// What a line of a text tells.
#[derive(Clone, Copy)]
pub enum Record<'a> {
    /// Type 00: these bytes stand from this offset on.
    Data { offset: u16, bytes: &'a [u8] },
    /// Type 01: the file ends.
    EndOfFile,
    /// Types 02 and 04: from here on, this is added to the offsets of data.
    Base(u32),
    /// Types 03 and 05: where a program starts.
    Start,
}

/// How a line of a text reads.
#[derive(Clone, Copy)]
pub enum Reading<'a> {
    /// It does not have the form of a record.
    NoRecord,
    /// It has that form, but its bytes do not sum to 0 modulo 256.
    WrongSum,
    Sound(Record<'a>),
}

/// The bytes that digits stand for, two for each. None where a character is no digit or a digit is left over.
pub fn bytes_of(alloc: Global, digits: &[u8]) -> Result<Option<Seq<u8>>, NoMemory>
    ensures { IfOk result (λ bytes. option_map (λ seq. seq.items) bytes ≡ bytes_of digits.now) }
{
    let mut bytes = Seq::new(alloc);
    let mut rest = digits;
    'pairs: while let [high, low, more @ ..] = rest {
        let (Some(high), Some(low)) = (digit_number(*high), digit_number(*low)) else {
            return Ok(None);
        };
        bytes.push(16 * high + low)?;
        rest = more;
    }
    Ok(if rest.is_empty() { Some(bytes) } else { None })
}

/// Two bytes as a number, the higher first.
fn word(high: u8, low: u8) -> u16
    ensures { result ≡ 256 * high + low }
{
    u16::from_be_bytes([high, low])
}

/// The record of a type, an offset and data, or None where the type is none or has other data.
fn record_of<'a>(kind: u8, offset: u16, bytes: &'a [u8]) -> Option<Record<'a>>
    ensures { option_map record_view result ≡ record_of kind offset bytes.now }
{
    match (kind, bytes) {
        (0, _) => Some(Record::Data { offset, bytes }),
        _ if is_end(kind, bytes.len()) => Some(Record::EndOfFile),
        (2, [high, low]) => Some(Record::Base(16 * u32::from(word(*high, *low)))),
        (4, [high, low]) => Some(Record::Base(65_536 * u32::from(word(*high, *low)))),
        (3, [_, _, _, _]) | (5, [_, _, _, _]) => Some(Record::Start),
        _ => None,
    }
}

/// How a line of these bytes reads.
pub fn reading_of<'a>(bytes: &'a [u8]) -> Reading<'a>
    ensures { reading_view result ≡ reading_of_bytes bytes.now }
{
    let [count, high, low, kind, more @ ..] = bytes else {
        return Reading::NoRecord;
    };
    let count = usize::from(*count);
    let offset = word(*high, *low);
    if more.len() != count + 1 || usize::from(offset) + count > 65_536 {
        return Reading::NoRecord;
    }
    match record_of(*kind, offset, &more[..count]) {
        None => Reading::NoRecord,
        Some(_) if sum(bytes) != 0 => Reading::WrongSum,
        Some(record) => Reading::Sound(record),
    }
}
