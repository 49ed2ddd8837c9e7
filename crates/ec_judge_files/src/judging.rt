//! The program of files, judged.
ghost use Rattle.std.specs.Prelude.{◌≡◌, ◌≤◌, ◌<◌, ℕ, List, None, IfErr, OnOk, IsErrOf, length};
ghost use Rattle.ec_io.specs.Causes.{Rose};
ghost use Rattle.ec_io.specs.Views.{store_view, sink_call};
ghost use Rattle.ec_commands.specs.Shown.{KeepsAll};
ghost use Rattle.ec_commands.specs.Words.{words_from};
ghost use Rattle.ec_commands.specs.declared.stop.Limit.TheVariants.{Sources};
ghost use Rattle.ec_commands.specs.declared.stop.CommandError.TheVariants.{TooMany as TooManyStop};
ghost use Rattle.ec_commands_compile.specs.Inputs.{exec_inputs};
ghost use Rattle.ec_commands_compile.specs.Execs.{AcceptsExec};
ghost use Rattle.ec_commands_compile.specs.declared.stop.CompileStop.TheVariants.{Command};
ghost use Rattle.ec_judge_files.specs.Judgements.{Judged, JudgeStops, FitsJudged, IsJudgedStatus};
ghost use Rattle.ec_judge_files.specs.Stops.{IsNamed, status_of};
ghost use Rattle.ec_judge_files.specs.declared.stop.JudgeStop.TheVariants.{Compile};

use crate::stop::JudgeStop;
use ec_build::discard;
use ec_commands::{CommandError, Limit};
use ec_commands_compile::{CompileStop, ExecRead, read_exec};
use ec_io::{Sink, Store};
use ec_judge_runs::judge_run;
use std::alloc::Global;

/// The greatest number of words, with 16 sources.
const MOST_WORDS: usize = 20;

/// Judges the program of at most 16 sources.
fn judge_few<S: Store, O: Sink>(
    alloc: Global,
    words: &Vec<String>,
    turns: u32,
    store: &mut S,
    out: &mut O,
) -> Result<(), JudgeStop>
    requires five { 5 ≤ length words.now.items }
    requires few { words_from words.now.items 4 ≤ 16 }
    ensures files { KeepsAll (S.disk store.old) (S.disk store.new) }
    ensures judged { OnOk result (Judged words.now.items turns (S.disk store.old)
        (sink_call (O.written out.old) (O.written out.new) (O.faults out.old) (O.faults out.new)) None) }
    ensures stopped { IfErr result (JudgeStops words.now.items turns
        (store_view (S.disk store.old) (S.read_faults store.old) (S.write_faults store.old) (S.received store.old) (S.missed store.old))
        (store_view (S.disk store.new) (S.read_faults store.new) (S.write_faults store.new) (S.received store.new) (S.missed store.new))
        (sink_call (O.written out.old) (O.written out.new) (O.faults out.old) (O.faults out.new))) }
    ensures named { IfErr result (IsNamed words.now.items) }
    ensures complete { AcceptsExec words.now.items 4 (S.disk store.old)
        → ¬ (Rose (S.read_faults store.old) (S.read_faults store.new))
        → ¬ (Rose (O.faults out.old) (O.faults out.new))
        → IfErr result (λ stop. IsJudgedStatus (status_of stop)) }
    ensures later { (S.read_faults store.old ≤ S.read_faults store.new) × (O.faults out.old ≤ O.faults out.new) }
    ensures write_faults { S.write_faults store.new ≡ S.write_faults store.old }
    ensures calm { (made : List ℕ) (room : ℕ) → S.calm store.old (exec_inputs words.now.items 4) made room
        → S.read_faults store.new ≡ S.read_faults store.old }
    ensures out_calm { (room : ℕ) → O.calm out.old room → FitsJudged words.now.items turns (S.disk store.old) room
        → O.faults out.new ≡ O.faults out.old }
    ensures rest { O.rest out.new ≡ O.rest out.old }
{
    let ExecRead { built, script } = match read_exec(alloc, words, 4, store) {
        Ok(read) => read,
        Err(stop) => return Err(JudgeStop::Compile(stop)),
    };
    let judged = judge_run(alloc, &built.program, &built.map.io, &script, turns, out);
    discard(built);
    match judged {
        Ok(()) => Ok(()),
        Err(stop) => Err(JudgeStop::Run(stop)),
    }
}

/// Builds the sources that the words of an `exec` name, and interprets the program, with at most `turns` turns of each
/// execution of a loop and the ports as the script says: prints each access of a port, and the result.
///
/// The answer is the program's meaning under these inputs, both ways: it is Ok exactly where `main` returns, an undefined
/// point exactly where the program meets that one, at the innermost statement under execution, and the end of the turns
/// exactly where a loop is out of them.
pub fn judge<S: Store, O: Sink>(
    alloc: Global,
    words: &Vec<String>,
    turns: u32,
    store: &mut S,
    out: &mut O,
) -> Result<(), JudgeStop>
    requires { 5 ≤ length words.now.items }
    ensures sources { 16 < words_from words.now.items 4
        → IsErrOf result (Compile (Command (TooManyStop Sources))) }
    ensures files { KeepsAll (S.disk store.old) (S.disk store.new) }
    ensures judged { OnOk result (Judged words.now.items turns (S.disk store.old)
        (sink_call (O.written out.old) (O.written out.new) (O.faults out.old) (O.faults out.new)) None) }
    ensures stopped { IfErr result (JudgeStops words.now.items turns
        (store_view (S.disk store.old) (S.read_faults store.old) (S.write_faults store.old) (S.received store.old) (S.missed store.old))
        (store_view (S.disk store.new) (S.read_faults store.new) (S.write_faults store.new) (S.received store.new) (S.missed store.new))
        (sink_call (O.written out.old) (O.written out.new) (O.faults out.old) (O.faults out.new))) }
    ensures named { IfErr result (IsNamed words.now.items) }
    ensures complete { (words_from words.now.items 4 ≤ 16) → AcceptsExec words.now.items 4 (S.disk store.old)
        → ¬ (Rose (S.read_faults store.old) (S.read_faults store.new))
        → ¬ (Rose (O.faults out.old) (O.faults out.new))
        → IfErr result (λ stop. IsJudgedStatus (status_of stop)) }
    ensures later { (S.read_faults store.old ≤ S.read_faults store.new) × (O.faults out.old ≤ O.faults out.new) }
    ensures write_faults { S.write_faults store.new ≡ S.write_faults store.old }
    ensures calm { (made : List ℕ) (room : ℕ) → S.calm store.old (exec_inputs words.now.items 4) made room
        → S.read_faults store.new ≡ S.read_faults store.old }
    ensures out_calm { (room : ℕ) → O.calm out.old room → FitsJudged words.now.items turns (S.disk store.old) room
        → O.faults out.new ≡ O.faults out.old }
    ensures rest { O.rest out.new ≡ O.rest out.old }
{
    if words.len() > MOST_WORDS {
        return Err(JudgeStop::Compile(CompileStop::Command(CommandError::TooMany(Limit::Sources))));
    }
    judge_few(alloc, words, turns, store, out)
}
