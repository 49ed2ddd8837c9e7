//! Runs with a watch.
ghost use Rattle.std.specs.Prelude.{◌≡◌, ◌≤◌, ◌↔◌, ℕ, List, length};
ghost use Rattle.ec_avr.specs.declared.machine.Access.{Access};
ghost use Rattle.ec_avr.specs.Machine.{IsReset};
ghost use Rattle.ec_emu.specs.declared.ask.Ask.{Ask};
ghost use Rattle.ec_emu.specs.Answers.{WereAsked, asks_of};
ghost use Rattle.ec_emu.specs.Emulation.{IsPrinted, SinkCalm, RunCause};
ghost use Rattle.ec_emu.specs.Lines.{port_lines};
ghost use Rattle.ec_emu_watch.specs.Hits.{IsWatched, emulated};
ghost use Rattle.ec_emu_watch.specs.Points.{IsWidth};
ghost use Rattle.ec_emu_watch.specs.Sound.{IsSound, point_of, rule_of};
ghost use Rattle.ec_watch.specs.Watches.{IsPlaced, HasPoint, KeepsSource};

use ec_avr::Machine;
use ec_build::Built;
use ec_core::leaves_fill_their_types;
use ec_emu::Ports;
use ec_emu_watch::{ValueRule, Watch, WatchReport, run_watched};
use ec_io::Sink;
use ec_watch_laws::{placed_have_places, watched_runs_keep_sources};

/// Runs the machine of a built program, as `emulate` does, but for a run that a watch stops: behind the call of `main`, at
/// the first step that writes the last byte of the watched number and leaves a watched value there.
///
/// Where the source is defined on inputs that begin with the bytes that were read, the value is the one of the first write
/// of this number of which the rule holds, and the run made all that the source does up to this write, and with it; a run
/// that ended or made all its steps has no such write, and no run ends in a fault. It takes no memory.
pub fn watch<F: Fn(i128) -> bool, R: ValueRule, P: Ports, O: Sink>(
    built: &Built,
    machine: &mut Machine,
    stop: &Watch<F, R>,
    ports: &mut P,
    steps: u32,
    sink: &mut O,
) -> WatchReport
    requires asked { P.can_ask ports.old }
    requires sound { IsSound F.pre F.post R.holds stop.now }
    requires placed { IsPlaced built.now }
    requires point { HasPoint built.now (point_of stop.now) }
    requires reset { IsReset built.now.located.image.core built.now.located.image.bytes.items machine.old }
    ensures can { P.can_ask ports.new }
    ensures run { (trace : List Access)
        × (IsWatched (point_of stop.now) (R.holds (rule_of stop.now)) (P.gives ports.old) steps machine.old machine.new result trace
        × (length trace ≤ steps
        × (IsPrinted (O.written sink.old) (O.written sink.new) (emulated result.end) trace
        × (((room : ℕ) → O.calm sink.old room → length (port_lines trace) ≤ room
        → SinkCalm (O.faults sink.old) (O.faults sink.new) (O.calm sink.new) room (emulated result.end) trace)
        × (WereAsked (P.asked ports.old) (P.asked ports.new) (asks_of trace)
        × KeepsSource built.now (point_of stop.now) (R.holds (rule_of stop.now)) steps trace result.end))))) }
    ensures cause { RunCause (O.faults sink.old) (O.faults sink.new) (emulated result.end) }
    ensures rest { O.rest sink.new ≡ O.rest sink.old }
    ensures stays { (ask : Ask) (byte : ℕ) → P.gives ports.new ask byte ↔ P.gives ports.old ask byte }
    ensures passed_on { (ask : Ask) (byte : ℕ) → P.passed_on ports.new ask byte ↔ P.passed_on ports.old ask byte }
    ensures held { P.held ports.new ≡ P.held ports.old }
{
    leaves_fill_their_types();
    placed_have_places();
    watched_runs_keep_sources();
    run_watched(machine, stop, ports, steps, sink)
}
