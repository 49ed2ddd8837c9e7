//! A sink of bytes.
ghost use Rattle.std.specs.Prelude.{◌≡◌, ◌≤◌, ◌<◌, ◌-◌, ℕ, List, Option, IfOk, length};
ghost use Rattle.std.specs.Io.KnownBytes.{WriteAppends};
ghost use Rattle.ec_io.specs.Causes.{HasCause, Went, greatest};
ghost use Rattle.ec_io.specs.Calls.{IsTaken};
ghost use Rattle.ec_io.specs.Rest.{Rest, no_rest};

use crate::store::Failed;

/// Takes bytes.
///
/// A write that fails takes none. It fails only where the count of faults rose in that call or stands at its greatest
/// value.
pub trait Sink {
    /// What was written, where the sink tells it.
    ghost written: { Self → Option (List ℕ) };

    /// What stands beside it and stays.
    ghost rest: { Self → Rest } = { λ _. no_rest };

    /// How many faults there were. It never falls, and stands still at its greatest value.
    ghost faults: { Self → ℕ };

    /// No write fails, as long as the written pieces have at most so many bytes in all.
    ghost calm: { Self → ℕ → Type 0 };

    /// Appends a prefix of the bytes, and tells its length, which is at least 1 where there are bytes.
    fn write(&mut self, bytes: &[u8]) -> Result<usize, Failed>
        ensures taken { IfOk result (λ n. IsTaken n bytes.now) }
        ensures written { WriteAppends (written self.old) (written self.new) result bytes.now }
        ensures rest { rest self.new ≡ rest self.old }
        ensures cause { HasCause (faults self.old) (faults self.new) result }
        ensures calm { (room : ℕ) → calm self.old room → length bytes.now ≤ room
            → Went (faults self.old) (faults self.new) result × IfOk result (λ n. calm self.new (room - n)) };

    /// A calm sink's count is below its greatest value.
    ghost below: { (s : Self) (room : ℕ) → calm s room → faults s < greatest };
}
