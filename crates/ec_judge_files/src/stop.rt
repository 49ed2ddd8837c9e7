//! Why the program of files has no result, and its status.
ghost use Rattle.std.specs.Prelude.{◌≡◌};
ghost use Rattle.ec_judge_files.specs.Stops.{run_status, status_of};

use ec_commands_compile::CompileStop;
use ec_judge_runs::RunStop;

/// Why the program of files has no result.
#[derive(Debug, Drop)]
pub enum JudgeStop {
    /// It is not run: as an exec stops.
    Compile(CompileStop),
    /// For how its run came out.
    Run(RunStop),
}

/// The status of a stop in the run.
pub(crate) fn run_status(stop: RunStop) -> u8
    ensures { result ≡ run_status stop }
{
    match stop {
        RunStop::NoMemory => 11,
        RunStop::CannotWrite => 4,
        RunStop::Hooked(_) => 12,
        RunStop::TurnsOut => 14,
        RunStop::Undefined { .. } => 20,
    }
}

/// The status with which the program ends.
pub fn status(stop: &JudgeStop) -> u8
    ensures { result ≡ status_of stop.now }
{
    match stop {
        JudgeStop::Compile(stop) => ec_commands_compile::status(stop),
        JudgeStop::Run(stop) => run_status(*stop),
    }
}
