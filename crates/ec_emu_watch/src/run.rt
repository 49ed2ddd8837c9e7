//! Runs with a watch.
ghost use Rattle.std.specs.Prelude.{◌≡◌, ◌+◌, ◌≤◌, ◌↔◌, ℕ, List, length, unwrap_or, pos};
ghost use Rattle.ec_avr.specs.declared.machine.Access.{Access};
ghost use Rattle.ec_emu.specs.declared.ask.Ask.{Ask};
ghost use Rattle.ec_emu.specs.Answers.{WereAsked, asks_of};
ghost use Rattle.ec_emu.specs.Emulation.{IsPrinted, SinkCalm, RunCause};
ghost use Rattle.ec_emu.specs.Lines.{port_lines};
ghost use Rattle.ec_emu_watch.specs.Hits.{IsWatched, emulated, end_by};
ghost use Rattle.ec_emu_watch.specs.Points.{IsWidth, value_at};
ghost use Rattle.ec_emu_watch.specs.Sound.{IsSound, point_of, rule_of};

use crate::compare::ValueRule;
use crate::watch::Watch;
use ec_avr::{FaultKind, Machine};
use ec_emu::{EmuEnd, Ports, UntilReport, emulate_until};
use ec_io::Sink;

/// How a run with a watch ended.
#[derive(Clone, Copy, Debug, PartialEq, Eq)]
pub enum WatchEnd {
    /// A step wrote the last byte of the number, which then had this watched value.
    Hit(i128),
    /// At BREAK, with R25:R24 as the result.
    Ended(i16),
    /// All steps were made and their lines written, and the machine still runs.
    StepsOut,
    /// At a step that cannot be made, with the program counter.
    Fault(FaultKind, u16),
    /// The line of the last step was not written whole.
    WriteFault,
}

/// What a run with a watch did.
#[derive(Clone, Copy, Debug, PartialEq, Eq)]
pub struct WatchReport {
    pub end: WatchEnd,
    /// How often ports were read, also by a step whose line was not written whole.
    pub reads: u32,
    /// How often ports were written, also by such a step.
    pub writes: u32,
}

/// How a run ended that may have been stopped at a number.
fn end_of(run: &UntilReport, value: Option<i128>) -> WatchEnd
    ensures { result ≡ end_by run.now.stopped (unwrap_or value (pos 0)) run.now.report.end }
{
    if run.stopped {
        return WatchEnd::Hit(value.unwrap_or(0));
    }
    match run.report.end {
        EmuEnd::Ended(result) => WatchEnd::Ended(result),
        EmuEnd::StepsOut => WatchEnd::StepsOut,
        EmuEnd::Fault(kind, pc) => WatchEnd::Fault(kind, pc),
        EmuEnd::WriteFault => WatchEnd::WriteFault,
    }
}

/// Runs the machine as `emulate` does, but for a run that a watch stops: behind the first step that pushes or pops, at
/// the first step that writes the last byte of the number and leaves a watched value there. It takes no memory.
pub fn run_watched<F: Fn(i128) -> bool, R: ValueRule, P: Ports, O: Sink>(
    machine: &mut Machine,
    stop: &Watch<F, R>,
    ports: &mut P,
    steps: u32,
    sink: &mut O,
) -> WatchReport
    requires asked { P.can_ask ports.old }
    requires sound { IsSound F.pre F.post R.holds stop.now }
    requires width { IsWidth (point_of stop.now).bytes }
    requires within { (point_of stop.now).place.offset + (point_of stop.now).bytes ≤ 65536 }
    ensures can { P.can_ask ports.new }
    ensures run { (trace : List Access)
        × (IsWatched (point_of stop.now) (R.holds (rule_of stop.now)) (P.gives ports.old) steps machine.old machine.new result trace
        × (length trace ≤ steps
        × (IsPrinted (O.written sink.old) (O.written sink.new) (emulated result.end) trace
        × (((room : ℕ) → O.calm sink.old room → length (port_lines trace) ≤ room
        → SinkCalm (O.faults sink.old) (O.faults sink.new) (O.calm sink.new) room (emulated result.end) trace)
        × WereAsked (P.asked ports.old) (P.asked ports.new) (asks_of trace))))) }
    ensures cause { RunCause (O.faults sink.old) (O.faults sink.new) (emulated result.end) }
    ensures rest { O.rest sink.new ≡ O.rest sink.old }
    ensures stays { (ask : Ask) (byte : ℕ) → P.gives ports.new ask byte ↔ P.gives ports.old ask byte }
    ensures passed_on { (ask : Ask) (byte : ℕ) → P.passed_on ports.new ask byte ↔ P.passed_on ports.old ask byte }
    ensures held { P.held ports.new ≡ P.held ports.old }
{
    let run = emulate_until(machine, ports, steps, sink, stop);
    WatchReport {
        end: end_of(&run, stop.point().value(machine.memory())),
        reads: run.report.reads,
        writes: run.report.writes,
    }
}
