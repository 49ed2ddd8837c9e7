//! Why no number of steps is printed.
ghost use Rattle.std.specs.Prelude.{◌≡◌};
ghost use Rattle.ec_commands_bound.specs.Stops.{bound_status, status_of};

use ec_commands_compile::CompileStop;
use ec_steps::BoundStop;

/// Why no number of steps is printed.
#[derive(Debug, Drop)]
pub enum StepsStop {
    /// For its words, in reading or printing, or for what its map and its sources say.
    Compile(CompileStop),
    /// For the loops of its program.
    Bound(BoundStop),
}

fn bound_status(stop: &BoundStop) -> u8
    ensures { result ≡ bound_status stop.now }
{
    match stop {
        BoundStop::LoopNotCounted { .. } => 16,
        BoundStop::BoundTooLarge => 17,
        BoundStop::NoMemory => 11,
    }
}

/// The status with which the program ends.
pub fn status(stop: &StepsStop) -> u8
    ensures { result ≡ status_of stop.now }
{
    match stop {
        StepsStop::Compile(stop) => ec_commands_compile::status(stop),
        StepsStop::Bound(stop) => bound_status(stop),
    }
}
