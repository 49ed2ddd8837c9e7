//! The line of a record.
ghost use Rattle.std.specs.Prelude.{◌≡◌, ◌<◌, ◌≤◌, ◌+◌, ◌*◌, ◌%◌, ◌^◌, ◌++◌, ◌∷◌, [], length};
ghost use Rattle.ec_hex.specs.Bytes.{digits_of, total};
ghost use Rattle.ec_hex.specs.Text.{base_line, checksum, code_of, record_line};

use crate::record::checksum_of;
use crate::text::digit_of;
use std::marker::Model;

/// The record types that are written, of those of the Intel HEX format.
#[derive(Clone, Copy)]
pub enum RecordType {
    /// Type 00, bytes of an image.
    Data,
    /// Type 01, the end of the file.
    EndOfFile,
    /// Type 04, the upper half of the addresses of the data behind it.
    LinearBase,
}

// The characters of a line with up to 16 data bytes and its LF.
const SIZE: usize = 44;

/// The characters of one line, at most 44.
#[derive(Drop)]
pub struct Line {
    buf: [u8; SIZE],
    len: usize,
}

impl Model for Line {
    ghost use Rattle.std.specs.Prelude.{◌≤◌, ℕ, List, take};

    ghost Value = { List ℕ };

    ghost view = { λ s. take s.len s.buf };

    ghost invariant = { λ s. s.len ≤ 44 };
}

impl Line {
    fn new() -> Line
        ensures { result ≡ [] }
    {
        Line {
            buf: [0; SIZE],
            len: 0,
        }
    }

    fn push(&mut self, c: u8)
        requires { length self.old < 44 }
        ensures { self.new ≡ self.old ++ c ∷ [] }
    {
        self.buf[self.len] = c;
        self.len += 1;
    }

    // Appends each byte as two digits.
    fn push_bytes(&mut self, bytes: &[u8])
        requires { length self.old + 2 * length bytes.now ≤ 44 }
        ensures { self.new ≡ self.old ++ digits_of bytes.now }
    {
        for byte in bytes {
            self.push(digit_of(*byte / 16));
            self.push(digit_of(*byte % 16));
        }
    }

    /// The characters.
    pub fn as_slice(&self) -> &[u8]
        ensures { result.now ≡ self.now }
    {
        &self.buf[..self.len]
    }
}

fn code(kind: RecordType) -> u8
    ensures { result ≡ code_of kind }
{
    match kind {
        RecordType::Data => 0,
        RecordType::EndOfFile => 1,
        RecordType::LinearBase => 4,
    }
}

/// The sum of bytes modulo 256.
pub fn sum(bytes: &[u8]) -> u8
    ensures { result ≡ total bytes.now % 256 }
{
    let mut sum = 0u8;
    for byte in bytes {
        sum = sum.wrapping_add(*byte);
    }
    sum
}

// The byte that makes the sum of all 0 modulo 256.
fn checksum(head: &[u8], bytes: &[u8]) -> u8
    ensures { result ≡ checksum (head.now ++ bytes.now) }
{
    checksum_of(sum(head).wrapping_add(sum(bytes)))
}

/// The line of a record with up to 16 data bytes, with its LF.
pub fn record_line(kind: RecordType, offset: u16, bytes: &[u8]) -> Line
    requires { length bytes.now ≤ 16 }
    ensures { result ≡ record_line kind offset bytes.now }
{
    let head = [
        bytes.len() as u8,
        (offset / 256) as u8,
        (offset % 256) as u8,
        code(kind),
    ];
    let mut line = Line::new();
    line.push(b':');
    line.push_bytes(&head);
    line.push_bytes(bytes);
    line.push_bytes(&[checksum(&head, bytes)]);
    line.push(b'\n');
    line
}

/// The line that makes the upper half of an address the base of the records behind it. It is empty where that base is in
/// force.
pub fn base_line(base: usize, at: usize) -> Line
    requires { at < 2 ^ 32 }
    ensures { result ≡ base_line base at }
{
    let half = at / 65_536;
    if half == base {
        Line::new()
    } else {
        record_line(
            RecordType::LinearBase,
            0,
            &[(half / 256) as u8, (half % 256) as u8],
        )
    }
}
