//! What a watched run prints at its end.
ghost use Rattle.std.specs.Prelude.{◌≡◌, ◌≤◌, ℕ, length};
ghost use Rattle.ec_io.specs.Causes.{HasCause, Went};
ghost use Rattle.ec_commands.specs.Runs.{stop_of};
ghost use Rattle.ec_commands_watch.specs.Printed.{end_line, WritesEnd, stop_at};

use ec_commands::Part::{Signed, Text, Wide};
use ec_commands::{CommandError, write_parts};
use ec_io::{Failed, Sink};
use ec_watch::WatchEnd;

/// Writes the value of a hit, or the result of a run that ended.
pub(crate) fn write_end<O: Sink>(out: &mut O, end: WatchEnd) -> Result<(), Failed>
    ensures written { WritesEnd (O.written out.old) (O.written out.new) end result }
    ensures rest { O.rest out.new ≡ O.rest out.old }
    ensures cause { HasCause (O.faults out.old) (O.faults out.new) result }
    ensures calm { (room : ℕ) → O.calm out.old room → length (end_line end) ≤ room
        → Went (O.faults out.old) (O.faults out.new) result }
{
    match end {
        WatchEnd::Hit(value) => write_parts(out, &[Text(b"hit "), Wide(value), Text(b"\n")]),
        WatchEnd::Ended(n) => write_parts(out, &[Text(b"result "), Signed(n), Text(b"\n")]),
        WatchEnd::StepsOut | WatchEnd::Fault(_, _) | WatchEnd::WriteFault => Ok(()),
    }
}

/// The answer that tells how a watched run ended.
pub(crate) fn answer(end: WatchEnd) -> Result<(), CommandError>
    ensures { stop_of result ≡ stop_at end }
{
    match end {
        WatchEnd::Hit(_) | WatchEnd::Ended(_) => Ok(()),
        WatchEnd::StepsOut => Err(CommandError::StepsOut),
        WatchEnd::Fault(kind, pc) => Err(CommandError::Fault(kind, pc)),
        WatchEnd::WriteFault => Err(CommandError::CannotWrite),
    }
}
