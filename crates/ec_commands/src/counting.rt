//! A run of which the result and the number of writes are printed.
ghost use Rattle.std.specs.Prelude.{◌≡◌, ◌≢◌, ◌≤◌, ◌↔◌, ℕ, List, length, IsErrOf};
ghost use Rattle.ec_io.specs.Causes.{Rose};
ghost use Rattle.ec_avr.specs.declared.machine.Access.{Access};
ghost use Rattle.ec_emu.specs.declared.ask.Ask.{Ask};
ghost use Rattle.ec_emu.specs.declared.run.EmuReport.{EmuReport};
ghost use Rattle.ec_emu.specs.Emulation.{IsRun as IsRunOf};
ghost use Rattle.ec_emu.specs.Scripted.{IsScripted};
ghost use Rattle.ec_commands.specs.Counts.{counts_of, ShowsCounts};
ghost use Rattle.ec_commands.specs.Runs.{stop_of};

use crate::line::write_counts;
use crate::load::Loaded;
use crate::running::answer;
use crate::stop::CommandError;
use ec_emu::{EmuEnd, EmuReport, Ports, Scripted, emulate};
use ec_io::{Quiet, Sink};

/// Makes the run without printing its lines.
fn run_quietly<H: Ports>(loaded: &mut Loaded, hooks: &mut H, steps: u32) -> EmuReport
    requires { H.can_ask hooks.old }
    ensures run { (trace : List Access) × IsRunOf (IsScripted (H.gives hooks.old) loaded.old.script.lines.items) steps
        loaded.old.machine loaded.new.machine result trace }
    ensures unfailing { result.end ≢ EmuEnd.WriteFault }
    ensures can { H.can_ask hooks.new }
    ensures stays { (ask : Ask) (byte : ℕ) → H.gives hooks.new ask byte ↔ H.gives hooks.old ask byte }
{
    let mut ports = Scripted {
        script: &loaded.script,
        hooks,
    };
    emulate(&mut loaded.machine, &mut ports, steps, &mut Quiet)
}

/// Makes the run, and prints its result and how often it wrote ports.
pub fn print_counts<O: Sink, H: Ports>(
    loaded: &mut Loaded,
    hooks: &mut H,
    steps: u32,
    out: &mut O,
) -> Result<(), CommandError>
    requires { H.can_ask hooks.old }
    ensures shown { (report : EmuReport) × ((trace : List Access)
        × (IsRunOf
        (IsScripted
        (H.gives hooks.old) loaded.old.script.lines.items) steps loaded.old.machine loaded.new.machine report trace
        × (ShowsCounts (O.written out.old) (O.written out.new) report.end report.writes (stop_of result)
        × ((room : ℕ) → O.calm out.old room → length (counts_of report.end report.writes) ≤ room
        → O.faults out.new ≡ O.faults out.old)))) }
    ensures later { O.faults out.old ≤ O.faults out.new }
    ensures failed { IsErrOf result CommandError.CannotWrite → Rose (O.faults out.old) (O.faults out.new) }
    ensures rest { O.rest out.new ≡ O.rest out.old }
    ensures can { H.can_ask hooks.new }
    ensures stays { (ask : Ask) (byte : ℕ) → H.gives hooks.new ask byte ↔ H.gives hooks.old ask byte }
{
    let report = run_quietly(loaded, hooks, steps);
    match write_counts(out, report.end, report.writes) {
        Ok(()) => answer(report.end),
        Err(_) => Err(CommandError::CannotWrite),
    }
}
