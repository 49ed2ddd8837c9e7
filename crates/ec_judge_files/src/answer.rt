//! The status of an answer, and its line.
ghost use Rattle.std.specs.Prelude.{◌≡◌, ◌≤◌, ◌∷◌, [], ℕ, IfErr, OnOk, length};
ghost use Rattle.ec_commands.specs.Answers.{IsTold};
ghost use Rattle.ec_commands.specs.Tells.{Tells};
ghost use Rattle.ec_commands_compile.specs.Stops.{unit_name};
ghost use Rattle.ec_core.specs.Meaning.{number_of_point};
ghost use Rattle.ec_hex.specs.Bytes.{digits_of};
ghost use Rattle.ec_io.specs.Views.{sink_call};
ghost use Rattle.ec_judge_files.specs.Stops.{IsNamed, line_of, run_line, status_of, undefined_line};

use crate::stop::{JudgeStop, run_status};
use ec_commands::Part::{Number, Text};
use ec_commands::{CommandError, tell, write_line};
use ec_core::Undefined;
use ec_hex::digit_of;
use ec_io::Sink;
use ec_judge_runs::RunStop;

/// The place of the first source among the words of an exec.
const FIRST_SOURCE: usize = 4;

/// The number of an undefined point in the language's list of them.
fn number_of(point: Undefined) -> u32
    ensures { result ≡ number_of_point point }
{
    match point {
        Undefined::ZeroDivisor => 1,
        Undefined::ShiftCount => 2,
        Undefined::FixedOverflow => 3,
        Undefined::WholePart => 4,
        Undefined::Access => 5,
        Undefined::Unset => 6,
        Undefined::ConstWrite => 7,
        Undefined::Narrowing => 8,
        Undefined::Unrelated => 9,
        Undefined::PointerUse => 10,
        Undefined::PointerRange => 11,
        Undefined::ClosedPort => 12,
        Undefined::BufferIndex => 13,
        Undefined::NoResult => 14,
        Undefined::UnboundGroup => 15,
        Undefined::Invalid => 16,
    }
}

/// The name of the source of a unit.
fn source_name(words: &Vec<String>, unit: u8) -> &[u8]
    ensures { result.now ≡ unit_name words.now.items 4 unit }
{
    match words.get(FIRST_SOURCE + usize::from(unit)) {
        Some(name) => name.as_bytes(),
        None => b"",
    }
}

/// A byte as two digits.
fn digits_of(byte: u8) -> [u8; 2]
    ensures { result ≡ digits_of (byte ∷ []) }
{
    [digit_of(byte / 16), digit_of(byte % 16)]
}

/// Writes the line of an undefined point, which is met in a source with this name.
fn tell_undefined<E: Sink>(err: &mut E, name: &[u8], token: u32, point: u32)
    ensures told { Tells (E.written err.old) (E.written err.new) (E.faults err.old) (E.faults err.new)
        (undefined_line name.now token point) }
    ensures rest { E.rest err.new ≡ E.rest err.old }
    ensures calm { (room : ℕ) → E.calm err.old room → length (undefined_line name.now token point) ≤ room
        → E.faults err.new ≡ E.faults err.old }
{
    write_line(
        err,
        &[
            Text(name),
            Text(b" token "),
            Number(token),
            Text(b": undefined "),
            Number(point),
            Text(b"\n"),
        ],
    );
}

/// Writes the line of a stop in the run.
fn tell_run<E: Sink>(err: &mut E, words: &Vec<String>, stop: RunStop)
    ensures told { Tells (E.written err.old) (E.written err.new) (E.faults err.old) (E.faults err.new)
        (run_line words.now.items stop) }
    ensures rest { E.rest err.new ≡ E.rest err.old }
    ensures calm { (room : ℕ) → E.calm err.old room → length (run_line words.now.items stop) ≤ room
        → E.faults err.new ≡ E.faults err.old }
{
    match stop {
        RunStop::NoMemory => tell(err, words, CommandError::NoMemory),
        RunStop::CannotWrite => tell(err, words, CommandError::CannotWrite),
        RunStop::Hooked(port) => {
            let digits = digits_of(port);
            write_line(
                err,
                &[Text(b"script port "), Text(&digits), Text(b": hooked\n")],
            )
        }
        RunStop::TurnsOut => write_line(err, &[Text(b"turns out\n")]),
        RunStop::Undefined { unit, at, point } => {
            let name = source_name(words, unit);
            let number = number_of(point);
            tell_undefined(err, name, at, number)
        }
    }
}

/// The status of an answer. The line of a stop goes to `err`.
pub fn conclude<E: Sink>(err: &mut E, words: &Vec<String>, answer: Result<(), JudgeStop>) -> u8
    requires { IfErr answer (IsNamed words.now.items) }
    ensures done { OnOk answer ((result ≡ 0) × (err.new ≡ err.old)) }
    ensures told { IfErr answer (λ stop. IsTold (status_of stop) (line_of words.now.items stop)
        (sink_call (E.written err.old) (E.written err.new) (E.faults err.old) (E.faults err.new))
        (E.calm err.old) result) }
    ensures rest { E.rest err.new ≡ E.rest err.old }
{
    match answer {
        Ok(()) => 0,
        Err(JudgeStop::Compile(stop)) => {
            ec_commands_compile::conclude(err, words, FIRST_SOURCE, Err(stop))
        }
        Err(JudgeStop::Run(stop)) => {
            tell_run(err, words, stop);
            run_status(stop)
        }
    }
}
