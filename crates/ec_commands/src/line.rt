//! Lines in parts, and the line of each stop.
ghost use Rattle.std.specs.Prelude.{◌≡◌, ◌≤◌, ◌-◌, ◌++◌, ◌<◌, ◌∷◌, [], ℕ, length, codes};
ghost use Rattle.std.specs.Fmt.{decimal};
ghost use Rattle.ec_io.specs.Causes.{HasCause, Went};
ghost use Rattle.ec_io.specs.Written.{WritesAll};
ghost use Rattle.ec_commands.specs.Runs.{end_line, WritesEnd};
ghost use Rattle.ec_commands.specs.Counts.{counts_of, WritesCounts};
ghost use Rattle.ec_commands.specs.Stops.{line_of, fault_name, four_digits, IsNamed};
ghost use Rattle.ec_commands.specs.Lines.{bytes_of, line};
ghost use Rattle.ec_commands.specs.Tells.{WritesPrefix, Tells};
ghost use Rattle.ec_commands.specs.Stops.{text_of};

use crate::line::Part::{Hex, Long, Number, Signed, Text, Wide};
use crate::stop::{CommandError, text_of};
use crate::words::word_at;
use ec_avr::FaultKind;
use ec_emu::EmuEnd;
use ec_hex::digit_of;
use ec_io::{Failed, Sink, Written, write_all};
use itoa::Buffer;

/// A part of a line.
#[derive(Clone, Copy, Debug, PartialEq, Eq)]
pub enum Part<'a> {
    Text(&'a [u8]),
    /// A number in decimal digits.
    Number(u32),
    /// A number of up to 64 bits in decimal digits.
    Long(u64),
    /// A number in decimal digits, with a sign where it is below 0.
    Signed(i16),
    /// A number of up to 128 bits in decimal digits, with a sign where it is below 0.
    Wide(i128),
    /// A number in four hexadecimal digits in upper case.
    Hex(u16),
}

fn write_part<O: Sink>(out: &mut O, part: &Part<'_>) -> Result<(), Written>
    ensures written { WritesAll (O.written out.old) (O.written out.new) result (bytes_of part.now) }
    ensures rest { O.rest out.new ≡ O.rest out.old }
    ensures cause { HasCause (O.faults out.old) (O.faults out.new) result }
    ensures calm { (room : ℕ) → O.calm out.old room → length (bytes_of part.now) ≤ room
        → Went (O.faults out.old) (O.faults out.new) result × O.calm out.new (room - length (bytes_of part.now)) }
{
    match *part {
        Text(bytes) => write_all(out, bytes),
        Number(n) => {
            let mut digits = Buffer::new();
            write_all(out, digits.format(n).as_bytes())
        }
        Long(n) => {
            let mut digits = Buffer::new();
            write_all(out, digits.format(n).as_bytes())
        }
        Signed(n) => {
            let mut digits = Buffer::new();
            write_all(out, digits.format(n).as_bytes())
        }
        Wide(n) => {
            let mut digits = Buffer::new();
            write_all(out, digits.format(n).as_bytes())
        }
        Hex(n) => write_all(out, &digits_of(n)),
    }
}

/// Writes parts one behind the other, up to the first write that fails.
pub fn write_parts<O: Sink>(out: &mut O, parts: &[Part<'_>]) -> Result<(), Failed>
    ensures written { WritesPrefix (O.written out.old) (O.written out.new) result (line parts.now) }
    ensures rest { O.rest out.new ≡ O.rest out.old }
    ensures cause { HasCause (O.faults out.old) (O.faults out.new) result }
    ensures calm { (room : ℕ) → O.calm out.old room → length (line parts.now) ≤ room
        → Went (O.faults out.old) (O.faults out.new) result }
{
    for part in parts {
        match write_part(out, part) {
            Ok(()) => {}
            Err(_) => return Err(Failed),
        }
    }
    Ok(())
}

/// Writes a line in parts. That a write failed is not told.
pub fn write_line<E: Sink>(err: &mut E, parts: &[Part<'_>])
    ensures told { Tells (E.written err.old) (E.written err.new) (E.faults err.old) (E.faults err.new)
        (line parts.now) }
    ensures rest { E.rest err.new ≡ E.rest err.old }
    ensures calm { (room : ℕ) → E.calm err.old room → length (line parts.now) ≤ room
        → E.faults err.new ≡ E.faults err.old }
{
    match write_parts(err, parts) {
        Ok(()) | Err(_) => {}
    }
}

/// Writes what a run prints at its end: the line of the result, where it ended.
pub fn write_end<O: Sink>(out: &mut O, end: EmuEnd) -> Result<(), Failed>
    ensures written { WritesEnd (O.written out.old) (O.written out.new) end result }
    ensures rest { O.rest out.new ≡ O.rest out.old }
    ensures cause { HasCause (O.faults out.old) (O.faults out.new) result }
    ensures calm { (room : ℕ) → O.calm out.old room → length (end_line end) ≤ room
        → Went (O.faults out.old) (O.faults out.new) result }
{
    match end {
        EmuEnd::Ended(n) => write_parts(out, &[Text(b"result "), Signed(n), Text(b"\n")]),
        EmuEnd::StepsOut | EmuEnd::Fault(_, _) | EmuEnd::WriteFault => Ok(()),
    }
}

/// Writes the result of a run and how often it wrote ports, where it ended.
pub fn write_counts<O: Sink>(out: &mut O, end: EmuEnd, writes: u32) -> Result<(), Failed>
    ensures written { WritesCounts (O.written out.old) (O.written out.new) end writes result }
    ensures rest { O.rest out.new ≡ O.rest out.old }
    ensures cause { HasCause (O.faults out.old) (O.faults out.new) result }
    ensures calm { (room : ℕ) → O.calm out.old room → length (counts_of end writes) ≤ room
        → Went (O.faults out.old) (O.faults out.new) result }
{
    match end {
        EmuEnd::Ended(n) => write_parts(
            out,
            &[
                Text(b"result "),
                Signed(n),
                Text(b"\nwrites "),
                Number(writes),
                Text(b"\n"),
            ],
        ),
        EmuEnd::StepsOut | EmuEnd::Fault(_, _) | EmuEnd::WriteFault => Ok(()),
    }
}

/// The name of a fault.
fn name_of(kind: FaultKind) -> &'static [u8]
    ensures { result.now ≡ fault_name kind }
{
    match kind {
        FaultKind::Unsupported => b"unsupported",
        FaultKind::PcOut => b"pc",
        FaultKind::DataOut => b"data",
        FaultKind::StackOut => b"stack",
    }
}

/// Four hexadecimal digits in upper case.
fn digits_of(n: u16) -> [u8; 4]
    ensures { result ≡ four_digits n }
{
    let high = (n / 256) as u8;
    let low = (n % 256) as u8;
    [
        digit_of(high / 16),
        digit_of(high % 16),
        digit_of(low / 16),
        digit_of(low % 16),
    ]
}

/// Writes a line with two numbers in it.
fn write_numbers<'a, E: Sink>(err: &mut E, before: &'a [u8], n: u32, between: &'a [u8], m: u32)
    ensures told { Tells (E.written err.old) (E.written err.new) (E.faults err.old) (E.faults err.new)
        (before.now ++ decimal n ++ between.now ++ decimal m ++ codes "\n") }
    ensures rest { E.rest err.new ≡ E.rest err.old }
    ensures calm { (room : ℕ) → E.calm err.old room
        → length (before.now ++ decimal n ++ between.now ++ decimal m ++ codes "\n") ≤ room
        → E.faults err.new ≡ E.faults err.old }
{
    write_line(
        err,
        &[
            Text(before),
            Number(n),
            Text(between),
            Number(m),
            Text(b"\n"),
        ],
    );
}

/// Writes the line of a stop that is told without a name or a number.
fn tell_text<E: Sink>(err: &mut E, stop: CommandError)
    ensures told { Tells (E.written err.old) (E.written err.new) (E.faults err.old) (E.faults err.new) (text_of stop) }
    ensures rest { E.rest err.new ≡ E.rest err.old }
    ensures calm { (room : ℕ) → E.calm err.old room → length (text_of stop) ≤ room
        → E.faults err.new ≡ E.faults err.old }
{
    let text = text_of(stop);
    write_line(err, &[Text(text)]);
}

/// Writes the line of words that name no number: the word of the name, and the one of the leaf.
fn tell_no_number<E: Sink>(err: &mut E, words: &Vec<String>)
    requires { 5 < length words.now.items }
    ensures told { Tells (E.written err.old) (E.written err.new) (E.faults err.old) (E.faults err.new)
        (line_of words.now.items CommandError.NoNumber) }
    ensures rest { E.rest err.new ≡ E.rest err.old }
    ensures calm { (room : ℕ) → E.calm err.old room → length (line_of words.now.items CommandError.NoNumber) ≤ room
        → E.faults err.new ≡ E.faults err.old }
{
    let name = word_at(words, 4).as_bytes();
    let leaf = word_at(words, 5).as_bytes();
    write_line(
        err,
        &[
            Text(b"no number "),
            Text(name),
            Text(b" "),
            Text(leaf),
            Text(b"\n"),
        ],
    );
}

/// Writes the line of a stop.
pub fn tell<E: Sink>(err: &mut E, words: &Vec<String>, stop: CommandError)
    requires { IsNamed words.now.items stop }
    ensures told { Tells (E.written err.old) (E.written err.new) (E.faults err.old) (E.faults err.new)
        (line_of words.now.items stop) }
    ensures rest { E.rest err.new ≡ E.rest err.old }
    ensures calm { (room : ℕ) → E.calm err.old room → length (line_of words.now.items stop) ≤ room
        → E.faults err.new ≡ E.faults err.old }
{
    match stop {
        CommandError::Usage => tell_text(err, stop),
        CommandError::CannotRead(i) => {
            let name = word_at(words, i).as_bytes();
            write_line(err, &[Text(b"cannot read "), Text(name), Text(b"\n")])
        }
        CommandError::CannotWrite => tell_text(err, stop),
        CommandError::TooMany(limit) => write_numbers(
            err,
            b"limit ",
            limit.number(),
            b" ",
            limit.most(),
        ),
        CommandError::NoMemory => tell_text(err, stop),
        CommandError::BadRecord(line) => write_line(
            err,
            &[Text(b"hex line "), Number(line), Text(b": bad record\n")],
        ),
        CommandError::BadSum(line) => write_line(
            err,
            &[Text(b"hex line "), Number(line), Text(b": bad sum\n")],
        ),
        CommandError::OutOfFlash(line) => write_line(
            err,
            &[Text(b"hex line "), Number(line), Text(b": out of flash\n")],
        ),
        CommandError::Twice(line) => write_line(
            err,
            &[Text(b"hex line "), Number(line), Text(b": twice\n")],
        ),
        CommandError::NoEnd => tell_text(err, stop),
        CommandError::ScriptLine(line, rule) => write_numbers(
            err,
            b"script line ",
            line,
            b": rule ",
            rule as u32,
        ),
        CommandError::AsmLine(line, rule) => {
            write_numbers(err, b"asm line ", line, b": rule ", rule as u32)
        }
        CommandError::Fault(kind, pc) => {
            let name = name_of(kind);
            write_line(
                err,
                &[
                    Text(b"fault "),
                    Text(name),
                    Text(b" at "),
                    Hex(pc),
                    Text(b"\n"),
                ],
            )
        }
        CommandError::StepsOut => tell_text(err, stop),
        CommandError::NoNumber => tell_no_number(err, words),
    }
}
