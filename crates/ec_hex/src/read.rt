//! Reading Intel HEX.
ghost use Rattle.std.specs.Prelude.{◌≡◌, ◌≢◌, ◌<◌, ◌+◌, ◌++◌, ◌^◌, ◌⊎◌, ℕ, Bool, List, Some, length, take, MatchResult};
ghost use Rattle.std.specs.Prelude.{IfOk, IfErr, IsErrOf, IsOkUnless};
ghost use Rattle.ec_hex.specs.declared.read.HexStop.{HexStop};
ghost use Rattle.ec_hex.specs.declared.read.HexStop.TheVariants.{NoMemory as OutOfMemory};
ghost use Rattle.ec_hex.specs.Denotes.{Denotes, addressed};
ghost use Rattle.ec_hex.specs.Reading.{Holds, Misfit};
ghost use Rattle.ec_hex.specs.Stops.{HasStop};

use crate::record::{Reading, Record, bytes_of, is_past, reading_of};
use crate::text::first_line;
use ec_avr::Image;
use ec_space::{Core, NoMemory, Seq};
use std::alloc::Global;
use thiserror::Error;

/// Why a text denotes no image. The first line that has a fault is told, by its number from 1, and of its faults the
/// first in this order.
#[derive(Clone, Copy, Debug, PartialEq, Eq, Error)]
pub enum HexStop {
    /// A line that is neither empty nor of the form of a record.
    #[error("line {0}: bad record")]
    BadRecord(u32),
    /// A record whose bytes do not sum to 0 modulo 256.
    #[error("line {0}: bad sum")]
    BadSum(u32),
    /// A data record with a byte past the core's flash.
    #[error("line {0}: out of flash")]
    OutOfFlash(u32),
    /// A data record with a byte at an address that occurred before.
    #[error("line {0}: twice")]
    Twice(u32),
    /// The lines have no fault, but none is the end record.
    #[error("no end")]
    NoEnd,
    #[error("no memory")]
    NoMemory,
}

impl From<NoMemory> for HexStop {
    ghost from_gives = { λ _ e. e ≡ OutOfMemory };

    fn from(_e: NoMemory) -> HexStop {
        HexStop::NoMemory
    }
}

/// What the lines so far have told.
#[derive(Drop)]
struct Reader {
    image: Image,
    /// What is added to the offsets of data.
    base: u32,
}

impl Reader {
    ghost use Rattle.std.specs.Prelude.{◌≡◌};
    ghost use Rattle.ec_hex.specs.Record.{reading_of};
    ghost use Rattle.ec_hex.specs.Reading.{ReadsOn};
    ghost use Rattle.ec_hex.specs.Views.{sound_view};

    /// Takes the record of a line, and tells whether it is the end record.
    fn take(&mut self, what: Record<'_>, line: u32) -> Result<bool, HexStop>
        ensures core { self.new.image.core ≡ self.old.image.core }
        ensures reads { ReadsOn (sound_view what.entry) line self.old result self.new }
    {
        match what {
            Record::Data { offset, bytes } => {
                let at = u64::from(self.base) + u64::from(offset);
                match put_bytes(&mut self.image, at, bytes, line) {
                    Ok(()) => Ok(false),
                    Err(stop) => Err(stop),
                }
            }
            Record::EndOfFile => Ok(true),
            Record::Base(base) => {
                self.base = base;
                Ok(false)
            }
            Record::Start => Ok(false),
        }
    }

    /// Reads a line, and tells whether it is the end record.
    fn read_line(&mut self, alloc: Global, text: &[u8], line: u32) -> Result<bool, HexStop>
        ensures core { self.new.image.core ≡ self.old.image.core }
        ensures reads { ReadsOn (reading_of text.now) line self.old result self.new }
    {
        let digits = match text {
            [] => return Ok(false),
            [b':', digits @ ..] => digits,
            _ => return Err(HexStop::BadRecord(line)),
        };
        let Some(bytes) = bytes_of(alloc, digits)? else {
            return Err(HexStop::BadRecord(line));
        };
        match reading_of(bytes.as_slice()) {
            Reading::NoRecord => Err(HexStop::BadRecord(line)),
            Reading::WrongSum => Err(HexStop::BadSum(line)),
            Reading::Sound(what) => self.take(what, line),
        }
    }
}

/// Puts the data bytes of a line into an image, from an address on.
fn put_bytes(image: &mut Image, at: u64, bytes: &[u8], line: u32) -> Result<(), HexStop>
    requires { at < 2 ^ 33 }
    ensures core { image.new.core ≡ image.old.core }
    ensures puts { (cells : List (ℕ × ℕ)) → Holds image.old cells
        → MatchResult result (λ _. Holds image.new (cells ++ addressed at bytes.now))
        (Misfit image.old.core (cells ++ addressed at bytes.now) line) }
{
    let size = u64::from(image.core.flash_size());
    if !bytes.is_empty() && is_past(at, bytes.len(), size) {
        return Err(HexStop::OutOfFlash(line));
    }
    for (i, byte) in bytes.iter().enumerate() {
        let place = at as usize + i;
        if image.written.as_slice()[place] {
            return Err(HexStop::Twice(line));
        }
        image.write(place, *byte);
    }
    Ok(())
}

/// The image that a text denotes for a core, or why it denotes none.
///
/// Digits stand in either case. Lines end with LF or CRLF, the last may stand without an end, and empty lines are
/// passed over, but all are counted. What follows the end record is not looked at.
pub fn read_hex(alloc: Global, core: Core, bytes: &Seq<u8>) -> Result<Image, HexStop>
    requires few { length bytes.now.items < 2 ^ 32 }
    ensures core { IfOk result (λ image. image.core ≡ core) }
    ensures denoted { IfOk result (λ image. Denotes core bytes.now.items image.bytes.items image.written.items) }
    ensures stopped { IfErr result (HasStop core bytes.now.items) }

    // Where the text denotes an image, or stops in some way, no other answer comes but out of memory.
    ensures image { (image : List ℕ) (written : List Bool) → Denotes core bytes.now.items image written
        → IsOkUnless result HexStop.NoMemory }
    ensures stop { (stop : HexStop) → HasStop core bytes.now.items stop → stop ≢ HexStop.NoMemory
        → IsErrOf result stop ⊎ IsErrOf result HexStop.NoMemory }
{
    let mut reader = Reader {
        image: Image::new(alloc, core)?,
        base: 0,
    };
    let mut rest = bytes.as_slice();
    let mut line = 0u32;
    'lines: while !rest.is_empty() {
        let (text, more) = first_line(rest);
        line += 1;
        match reader.read_line(alloc, text, line) {
            Ok(true) => return Ok(reader.image),
            Ok(false) => rest = more,
            Err(stop) => return Err(stop),
        }
    }
    Err(HexStop::NoEnd)
}
