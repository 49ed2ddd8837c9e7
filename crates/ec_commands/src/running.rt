//! The command `run`.
ghost use Rattle.std.specs.Prelude.{◌≡◌, ◌≤◌, ◌↔◌, ◌∷◌, [], ℕ, List, length, None, IfErr, OnOk, IsErrOf};
ghost use Rattle.ec_io.specs.Causes.{Rose};
ghost use Rattle.ec_avr.specs.declared.machine.Access.{Access};
ghost use Rattle.ec_emu.specs.declared.ask.Ask.{Ask};
ghost use Rattle.ec_emu.specs.declared.run.EmuReport.{EmuReport};
ghost use Rattle.ec_emu.specs.Emulation.{IsRun as IsRunOf};
ghost use Rattle.ec_emu.specs.Scripted.{IsScripted};
ghost use Rattle.ec_io.specs.Views.{sink_call, store_view};
ghost use Rattle.ec_commands.specs.Runs.{Ran, RunStops, printed, Shows, Fits, stop_at, stop_of};
ghost use Rattle.ec_commands.specs.Shown.{KeepsAll};
ghost use Rattle.ec_commands.specs.Words.{hex_name, script_name};

use crate::line::write_end;
use crate::load::{Loaded, load};
use crate::stop::CommandError;
use ec_emu::{EmuEnd, Ports, Scripted, emulate};
use ec_io::{Sink, Store};
use std::alloc::Global;

/// The answer that tells how a run ended.
pub(crate) fn answer(end: EmuEnd) -> Result<(), CommandError>
    ensures { stop_of result ≡ stop_at end }
{
    match end {
        EmuEnd::Ended(_) => Ok(()),
        EmuEnd::StepsOut => Err(CommandError::StepsOut),
        EmuEnd::Fault(kind, pc) => Err(CommandError::Fault(kind, pc)),
        EmuEnd::WriteFault => Err(CommandError::CannotWrite),
    }
}

/// Makes the run, and prints its lines and its result.
pub fn print_run<O: Sink, H: Ports>(
    loaded: &mut Loaded,
    hooks: &mut H,
    steps: u32,
    out: &mut O,
) -> Result<(), CommandError>
    requires { H.can_ask hooks.old }
    ensures shown { (report : EmuReport) × ((trace : List Access)
        × (IsRunOf
        (IsScripted
        (H.gives hooks.old) loaded.old.script.lines.items) steps loaded.old.machine loaded.new.machine report trace
        × (Shows (O.written out.old) (O.written out.new) report.end trace (stop_of result)
        × ((room : ℕ) → O.calm out.old room → length (printed report.end trace) ≤ room
        → O.faults out.new ≡ O.faults out.old)))) }
    ensures later { O.faults out.old ≤ O.faults out.new }
    ensures failed { IsErrOf result CommandError.CannotWrite → Rose (O.faults out.old) (O.faults out.new) }
    ensures rest { O.rest out.new ≡ O.rest out.old }
    ensures can { H.can_ask hooks.new }
    ensures stays { (ask : Ask) (byte : ℕ) → H.gives hooks.new ask byte ↔ H.gives hooks.old ask byte }
{
    let report = {
        let mut ports = Scripted {
            script: &loaded.script,
            hooks,
        };
        emulate(&mut loaded.machine, &mut ports, steps, out)
    };
    match write_end(out, report.end) {
        Ok(()) => answer(report.end),
        Err(_) => Err(CommandError::CannotWrite),
    }
}

/// Runs the image of a HEX file with a script, and prints each access of a port and the result.
pub fn run<S: Store, O: Sink, H: Ports>(
    alloc: Global,
    words: &Vec<String>,
    steps: u32,
    fill: u8,
    store: &mut S,
    out: &mut O,
    hooks: &mut H,
) -> Result<(), CommandError>
    requires five { length words.now.items ≡ 5 }
    requires asked { H.can_ask hooks.old }
    ensures files { KeepsAll (S.disk store.old) (S.disk store.new) }
    ensures ran { OnOk result (Ran words.now.items steps fill (H.gives hooks.old) (S.disk store.old)
        (sink_call (O.written out.old) (O.written out.new) (O.faults out.old) (O.faults out.new)) None) }
    ensures stopped { IfErr result (RunStops words.now.items steps fill (H.gives hooks.old)
        (store_view (S.disk store.old) (S.read_faults store.old) (S.write_faults store.old) (S.received store.old) (S.missed store.old))
        (store_view (S.disk store.new) (S.read_faults store.new) (S.write_faults store.new) (S.received store.new) (S.missed store.new))
        (sink_call (O.written out.old) (O.written out.new) (O.faults out.old) (O.faults out.new))) }
    ensures later { (S.read_faults store.old ≤ S.read_faults store.new) × (O.faults out.old ≤ O.faults out.new) }
    ensures write_faults { S.write_faults store.new ≡ S.write_faults store.old }
    ensures calm { (made : List ℕ) (room : ℕ)
        → S.calm store.old (hex_name words.now.items ∷ script_name words.now.items ∷ []) made room
        → S.read_faults store.new ≡ S.read_faults store.old }
    ensures out_calm { (room : ℕ) → O.calm out.old room
        → Fits words.now.items steps fill (H.gives hooks.old) (S.disk store.old) room
        → O.faults out.new ≡ O.faults out.old }
    ensures rest { O.rest out.new ≡ O.rest out.old }
    ensures can { H.can_ask hooks.new }
    ensures stays { (ask : Ask) (byte : ℕ) → H.gives hooks.new ask byte ↔ H.gives hooks.old ask byte }
{
    let mut loaded = match load(alloc, words, store, fill) {
        Ok(loaded) => loaded,
        Err(stop) => return Err(stop),
    };
    print_run(&mut loaded, hooks, steps, out)
}
