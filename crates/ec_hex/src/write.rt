//! Writing an image as Intel HEX.
ghost use Rattle.std.specs.Prelude.{◌≡◌, ◌+◌, ◌-◌, ◌^◌, ◌<◌, ◌≤◌, ℕ, suc, length, drop};
ghost use Rattle.ec_io.specs.Causes.{HasCause, Went};
ghost use Rattle.ec_io.specs.Written.{WritesAll};
ghost use Rattle.ec_hex.specs.Denotes.{Denotes};
ghost use Rattle.ec_hex.specs.Steps.{WritesOn, base_behind, run_lines};
ghost use Rattle.ec_hex.specs.Text.{contents, hex_text, image_text, more_at, run};

use crate::line::{RecordType, base_line, record_line};
use ec_avr::Image;
use ec_io::{Sink, Written, write_all};

// How many bytes a record may have that begins at an address: up to 16, and none past the next multiple of 65,536.
fn room_at(at: usize) -> usize
    ensures { result ≡ suc (more_at at) }
{
    (65_535 - at % 65_536).min(15) + 1
}

// The written bytes from an address on, at most 16, and none past the next multiple of 65,536.
fn run_at<'a>(bytes: &'a [u8], written: &[bool], at: usize) -> &'a [u8]
    requires within { at ≤ length bytes.now }
    requires flagged { length written.now ≡ length bytes.now }
    ensures { result.now ≡ run (suc (more_at at)) (drop at (contents bytes.now written.now)) }
{
    let room = room_at(at);
    let most = (bytes.len() - at).min(room);
    for n in 0..most {
        if !written[at + n] {
            return &bytes[at..at + n];
        }
    }
    &bytes[at..at + most]
}

// Writes a line after so many bytes of a text, and tells how many bytes went out in all.
fn put_line<O: Sink>(sink: &mut O, line: &[u8], done: u64) -> Result<u64, Written>
    requires few { done + length line.now < 2 ^ 64 }
    ensures written { WritesOn done (O.written sink.old) (O.written sink.new) result line.now }
    ensures rest { O.rest sink.new ≡ O.rest sink.old }
    ensures cause { HasCause (O.faults sink.old) (O.faults sink.new) result }
    ensures calm { (room : ℕ) → O.calm sink.old room → length line.now ≤ room
        → Went (O.faults sink.old) (O.faults sink.new) result × O.calm sink.new (room - length line.now) }
{
    match write_all(sink, line) {
        Ok(()) => Ok(done + line.len() as u64),
        Err(Written(n)) => Err(Written(done + n)),
    }
}

// Writes the lines of a run, if it has bytes.
fn put_run<O: Sink>(
    sink: &mut O,
    base: usize,
    at: usize,
    run: &[u8],
    done: u64,
) -> Result<u64, Written>
    requires short { length run.now ≤ 16 }
    requires within { at < 2 ^ 32 }
    requires few { done < 2 ^ 32 }
    ensures written { WritesOn done (O.written sink.old) (O.written sink.new) result (run_lines base at run.now) }
    ensures rest { O.rest sink.new ≡ O.rest sink.old }
    ensures cause { HasCause (O.faults sink.old) (O.faults sink.new) result }
    ensures calm { (room : ℕ) → O.calm sink.old room → length (run_lines base at run.now) ≤ room
        → Went (O.faults sink.old) (O.faults sink.new) result
        × O.calm sink.new (room - length (run_lines base at run.now)) }
{
    if run.is_empty() {
        return Ok(done);
    }
    let first = base_line(base, at);
    let line = record_line(RecordType::Data, (at % 65_536) as u16, run);
    match put_line(sink, first.as_slice(), done) {
        Ok(after) => put_line(sink, line.as_slice(), after),
        Err(e) => Err(e),
    }
}

// The base behind the lines of a run.
fn base_behind(base: usize, at: usize, run: &[u8]) -> usize
    ensures { result ≡ base_behind base at run.now }
{
    if run.is_empty() { base } else { at / 65_536 }
}

// Writes the text of a flash.
fn put_text<O: Sink>(sink: &mut O, bytes: &[u8], written: &[bool]) -> Result<(), Written>
    requires few { length bytes.now ≤ 2 ^ 17 }
    requires flagged { length written.now ≡ length bytes.now }
    ensures written { WritesAll (O.written sink.old) (O.written sink.new) result (hex_text bytes.now written.now) }
    ensures rest { O.rest sink.new ≡ O.rest sink.old }
    ensures cause { HasCause (O.faults sink.old) (O.faults sink.new) result }
    ensures calm { (room : ℕ) → O.calm sink.old room → length (hex_text bytes.now written.now) ≤ room
        → Went (O.faults sink.old) (O.faults sink.new) result
        × O.calm sink.new (room - length (hex_text bytes.now written.now)) }
{
    let mut at = 0usize;
    let mut base = 0usize;
    let mut done = 0u64;
    'runs: while at < bytes.len() {
        let run = run_at(bytes, written, at);
        match put_run(sink, base, at, run, done) {
            Ok(after) => done = after,
            Err(e) => return Err(e),
        }
        base = base_behind(base, at, run);
        at += run.len().max(1);
    }
    let line = record_line(RecordType::EndOfFile, 0, &[]);
    match put_line(sink, line.as_slice(), done) {
        Ok(_) => Ok(()),
        Err(e) => Err(e),
    }
}

/// Writes the Intel HEX text of an image: in upper case with LF, by rising addresses, each record with up to 16 bytes
/// that stand one behind the other, and then the end record. No record passes a multiple of 65,536. Past the first one
/// a record of type 04 gives the upper half of the addresses. It hands the sink each line with its LF as one piece, and
/// takes no memory.
///
/// It fails only where the sink does, and tells how many bytes of the text went out.
pub fn write_hex<O: Sink>(sink: &mut O, image: &Image) -> Result<(), Written>
    ensures written { WritesAll (O.written sink.old) (O.written sink.new) result (image_text image.now) }

    // What is written for an image denotes it.
    ensures denotes { Denotes image.now.core (image_text image.now) image.now.bytes.items image.now.written.items }
    ensures rest { O.rest sink.new ≡ O.rest sink.old }
    ensures cause { HasCause (O.faults sink.old) (O.faults sink.new) result }
    ensures calm { (room : ℕ) → O.calm sink.old room → length (image_text image.now) ≤ room
        → Went (O.faults sink.old) (O.faults sink.new) result
        × O.calm sink.new (room - length (image_text image.now)) }
{
    let bytes = image.bytes.as_slice();
    let written = image.written.as_slice();
    put_text(sink, bytes, written)
}
