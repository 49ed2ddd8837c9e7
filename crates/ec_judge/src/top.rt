//! The top call.
ghost use Rattle.std.specs.Prelude.{◌≡◌, ◌≤◌, IfSome};
ghost use Rattle.ec_io.specs.Views.{store_view, sink_call};
ghost use Rattle.ec_commands.specs.Command.{command_of};
ghost use Rattle.ec_commands.specs.Words.{IsExecRow};
ghost use Rattle.ec_judge.specs.Checks.{Does, turns_of};

use ec_commands::{Command, CommandError, command_of};
use ec_commands_compile::CompileStop;
use ec_io::{Sink, Store};
use ec_judge_files::{JudgeStop, conclude, judge};
use std::alloc::Global;

/// TURNS of the words `exec MAP SCRIPT TURNS SRC...`, none where the words are no such.
fn turns_of(words: &Vec<String>) -> Option<u32>
    ensures value { result ≡ turns_of (command_of words.now.items) }
    ensures row { IfSome result (IsExecRow words.now.items) }
{
    match command_of(words) {
        Command::Exec { steps } => Some(steps),
        Command::Build
        | Command::Run { .. }
        | Command::Gen { .. }
        | Command::List { .. }
        | Command::Assemble { .. }
        | Command::Bound
        | Command::Watch { .. }
        | Command::NoCommand => None,
    }
}

/// Finds undefined points, with the words of an exec, `exec MAP SCRIPT TURNS SRC...`, and answers the status.
///
/// The sources are built as by an exec, with the same stops, and the program that was built is interpreted, with at most
/// TURNS turns of each execution of a loop and the ports as the script says. Each access of a port is printed on `out`,
/// and the result. A stop is told on `err` by one line, and a failed write there does not change the status. Any other
/// words are no call.
pub fn check<S: Store, O: Sink, E: Sink>(
    alloc: Global,
    words: &Vec<String>,
    store: &mut S,
    out: &mut O,
    err: &mut E,
) -> u8
    ensures done { let before = store_view
        (S.disk store.old) (S.read_faults store.old) (S.write_faults store.old) (S.received store.old) (S.missed store.old) in
        let after = store_view
        (S.disk store.new) (S.read_faults store.new) (S.write_faults store.new) (S.received store.new) (S.missed store.new) in
        let printed = sink_call (O.written out.old) (O.written out.new) (O.faults out.old) (O.faults out.new) in
        let told = sink_call (E.written err.old) (E.written err.new) (E.faults err.old) (E.faults err.new) in
        Does (turns_of (command_of words.now.items)) words.now.items before after printed told (S.calm store.old)
        (O.calm out.old) (E.calm err.old) result }
    ensures later { (S.read_faults store.old ≤ S.read_faults store.new) × (O.faults out.old ≤ O.faults out.new) }
    ensures rest { (E.rest err.new ≡ E.rest err.old) × (O.rest out.new ≡ O.rest out.old) }
{
    match turns_of(words) {
        Some(turns) => {
            let judged = judge(alloc, words, turns, store, out);
            conclude(err, words, judged)
        }
        None => {
            let usage = CompileStop::Command(CommandError::Usage);
            conclude(err, words, Err(JudgeStop::Compile(usage)))
        }
    }
}
