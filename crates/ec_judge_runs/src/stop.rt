//! Why the run of a program has no result.
ghost use Rattle.std.specs.Prelude.{◌≡◌};
ghost use Rattle.ec_judge_runs.specs.declared.stop.RunStop.TheVariants.{NoMemory as Full};

use ec_core::Undefined;
use ec_space::NoMemory;

/// Why the run of a program has no result, or was not made.
#[derive(Clone, Copy, Debug, PartialEq, Eq)]
pub enum RunStop {
    /// Memory ran out, or a count of the run passed what it may be.
    NoMemory,
    /// What is printed was not wholly written.
    CannotWrite,
    /// The script has a hooked line, the first of them for the port at this data address.
    Hooked(u8),
    /// A loop is out of turns.
    TurnsOut,
    /// An undefined point is met, in this unit at the statement that begins with this token, both counted from 0.
    Undefined { unit: u8, at: u32, point: Undefined },
}

impl From<NoMemory> for RunStop {
    ghost from_gives = { λ _ stop. stop ≡ Full };

    fn from(_: NoMemory) -> RunStop {
        RunStop::NoMemory
    }
}
