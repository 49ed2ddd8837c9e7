//! The run of a program, judged.
ghost use Rattle.std.specs.Prelude.{◌≡◌, ◌≤◌, ℕ, map, IfOk};
ghost use Rattle.ec_core.specs.Plain.{plain_program};
ghost use Rattle.ec_core.specs.Valid.{Valid};
ghost use Rattle.ec_emu.specs.Script.{entry_of};
ghost use Rattle.ec_io.specs.Views.{sink_call};
ghost use Rattle.ec_judge_runs.specs.Judged.{Judges, FitsRun, Tells, printed, run_of, setting_by, stop_at, stop_of};

use crate::inputs::{first_hooked, port_inputs};
use crate::printing::text_of;
use crate::stop::RunStop;
use ec_core::Program;
use ec_emu::{Script, ScriptLine};
use ec_interp::{Behaviour, interpret};
use ec_io::{Sink, write_all};
use ec_iohw::IoTable;
use ec_space::{NoMemory, Seq};
use std::alloc::Global;

/// What is printed of a run, and the answer that tells how it came out.
#[derive(Drop)]
struct Judgement {
    text: Seq<u8>,
    answer: Result<(), RunStop>,
}

/// The answer that tells how a run came out.
fn answer(behaviour: &Behaviour) -> Result<(), RunStop>
    ensures { stop_of result ≡ stop_at behaviour.now }
{
    match behaviour {
        Behaviour::Ended { .. } => Ok(()),
        Behaviour::Running { .. } => Err(RunStop::TurnsOut),
        Behaviour::MeetsUndefined {
            point,
            unit,
            at,
            ..
        } => Err(RunStop::Undefined {
            unit: *unit,
            at: *at,
            point: *point,
        }),
    }
}

/// Interprets a program, with what its ports give by the lines of a script.
fn interpreted(
    alloc: Global,
    program: &Program,
    io: &IoTable,
    lines: &[ScriptLine],
    turns: u32,
) -> Result<Judgement, NoMemory>
    requires { Valid (plain_program program.now) io.now }
    ensures { IfOk result (λ j. let w = setting_by program.now io.now (map entry_of lines.now) in
        (j.text.items ≡ printed (run_of w turns)) × Tells w turns (run_of w turns) (stop_of j.answer)) }
{
    let inputs = port_inputs(alloc, lines)?;
    let run = match interpret(alloc, program, io, &inputs, turns) {
        Ok(run) => run,
        Err(_) => return Err(NoMemory),
    };
    let text = text_of(alloc, &run.behaviour)?;
    Ok(Judgement {
        text,
        answer: answer(&run.behaviour),
    })
}

/// Interprets a program, where each execution of a loop has at most `turns` turns and the ports give what a script says,
/// and prints a line for each access of a port, and the result.
///
/// An answer that is not Ok tells that no result came: a loop is out of turns, or an undefined point is met, at the
/// innermost statement under execution; what is printed then are the accesses up to there. A script with a hooked line
/// is refused.
pub fn judge_run<O: Sink>(
    alloc: Global,
    program: &Program,
    io: &IoTable,
    script: &Script,
    turns: u32,
    out: &mut O,
) -> Result<(), RunStop>
    requires { Valid (plain_program program.now) io.now }
    ensures judged { Judges program.now io.now (map entry_of script.now.lines.items) turns
        (sink_call (O.written out.old) (O.written out.new) (O.faults out.old) (O.faults out.new)) (stop_of result) }
    ensures later { O.faults out.old ≤ O.faults out.new }
    ensures calm { (room : ℕ) → O.calm out.old room
        → FitsRun program.now io.now (map entry_of script.now.lines.items) turns room
        → O.faults out.new ≡ O.faults out.old }
    ensures rest { O.rest out.new ≡ O.rest out.old }
{
    let lines = script.lines.as_slice();
    if let Some(port) = first_hooked(lines) {
        return Err(RunStop::Hooked(port));
    }
    let judged = interpreted(alloc, program, io, lines, turns)?;
    match write_all(out, judged.text.as_slice()) {
        Ok(()) => judged.answer,
        Err(_) => Err(RunStop::CannotWrite),
    }
}
