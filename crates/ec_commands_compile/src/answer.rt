//! The status of an answer, and its line.
ghost use Rattle.std.specs.Prelude.{◌≡◌, ◌≤◌, IfErr, OnOk};
ghost use Rattle.ec_io.specs.Views.{sink_call};
ghost use Rattle.ec_commands.specs.Answers.{IsTold};
ghost use Rattle.ec_commands_compile.specs.Stops.{IsNamed, status_of, line_of};

use crate::line::tell_stop;
use crate::stop::{CompileStop, status};
use ec_io::Sink;

/// The status of an answer. The line of a stop goes to `err`; the sources are named from the word at `first` on.
pub fn conclude<E: Sink>(
    err: &mut E,
    words: &Vec<String>,
    first: usize,
    answer: Result<(), CompileStop>,
) -> u8
    requires first { first ≤ 8 }
    requires named { IfErr answer (IsNamed words.now.items) }
    ensures done { OnOk answer ((result ≡ 0) × (err.new ≡ err.old)) }
    ensures told { IfErr answer (λ stop. IsTold (status_of stop) (line_of words.now.items first stop)
        (sink_call (E.written err.old) (E.written err.new) (E.faults err.old) (E.faults err.new))
        (E.calm err.old) result) }
    ensures rest { E.rest err.new ≡ E.rest err.old }
{
    match answer {
        Ok(()) => 0,
        Err(stop) => {
            tell_stop(err, words, first, &stop);
            status(&stop)
        }
    }
}
