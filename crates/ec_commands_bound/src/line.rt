//! The line of each stop.
ghost use Rattle.std.specs.Prelude.{◌≡◌, ◌≤◌, ℕ, length};
ghost use Rattle.ec_commands.specs.Tells.{Tells};
ghost use Rattle.ec_commands_bound.specs.Stops.{loop_line, bound_line, line_of, IsNamed};

use crate::stop::StepsStop;
use ec_commands::Part::{Number, Text};
use ec_commands::{CommandError, tell, write_line};
use ec_commands_compile::{name_at, tell_stop};
use ec_io::Sink;
use ec_steps::BoundStop;

/// Writes the line of a loop that is not counted, in a text with this name.
fn tell_loop<E: Sink>(err: &mut E, name: &[u8], token: u32)
    ensures told { Tells (E.written err.old) (E.written err.new) (E.faults err.old) (E.faults err.new)
        (loop_line name.now token) }
    ensures rest { E.rest err.new ≡ E.rest err.old }
    ensures calm { (room : ℕ) → E.calm err.old room → length (loop_line name.now token) ≤ room
        → E.faults err.new ≡ E.faults err.old }
{
    write_line(
        err,
        &[
            Text(name),
            Text(b" token "),
            Number(token),
            Text(b": loop not counted\n"),
        ],
    );
}

/// Writes the line of a program of which no number is told, whose sources are named from the word at `first` on.
fn tell_bound<E: Sink>(err: &mut E, words: &Vec<String>, first: usize, stop: &BoundStop)
    requires { first ≤ 4 }
    ensures told { Tells (E.written err.old) (E.written err.new) (E.faults err.old) (E.faults err.new)
        (bound_line words.now.items first stop.now) }
    ensures rest { E.rest err.new ≡ E.rest err.old }
    ensures calm { (room : ℕ) → E.calm err.old room → length (bound_line words.now.items first stop.now) ≤ room
        → E.faults err.new ≡ E.faults err.old }
{
    match stop {
        BoundStop::LoopNotCounted { unit, token } => {
            let name = name_at(words, first + *unit as usize);
            tell_loop(err, name, *token)
        }
        BoundStop::BoundTooLarge => write_line(err, &[Text(b"bound too large\n")]),
        BoundStop::NoMemory => tell(err, words, CommandError::NoMemory),
    }
}

/// Writes the line of a stop, where the sources are named from the word at `first` on.
pub fn tell_steps<E: Sink>(err: &mut E, words: &Vec<String>, first: usize, stop: &StepsStop)
    requires first { first ≤ 4 }
    requires named { IsNamed words.now.items stop.now }
    ensures told { Tells (E.written err.old) (E.written err.new) (E.faults err.old) (E.faults err.new)
        (line_of words.now.items first stop.now) }
    ensures rest { E.rest err.new ≡ E.rest err.old }
    ensures calm { (room : ℕ) → E.calm err.old room → length (line_of words.now.items first stop.now) ≤ room
        → E.faults err.new ≡ E.faults err.old }
{
    match stop {
        StepsStop::Compile(stop) => tell_stop(err, words, first, stop),
        StepsStop::Bound(stop) => tell_bound(err, words, first, stop),
    }
}
