//! Which calls of a store or a sink in memory fail.
ghost use Rattle.std.specs.Prelude.{◌≡◌, ◌+◌, ◌≤◌, min};
ghost use Rattle.ec_io.specs.Causes.{Rose, greatest};
ghost use Rattle.ec_io.specs.Memory.{next_call as call_after, is_due};

use crate::counts::next_call;
use crate::store::Failed;
use ec_space::Seq;

/// Counts a fault. The count stays at its greatest value once it is reached.
pub fn fault(faults: &mut u64) -> Failed
    ensures new { faults.new ≡ call_after faults.old }
    ensures later { faults.old ≤ faults.new }
    ensures rose { Rose faults.old faults.new }
{
    *faults = next_call(*faults);
    Failed
}

/// Calls are numbered from 1, and those of a list fail. The number stays at its greatest value once it is reached.
#[derive(Drop)]
pub struct Schedule {
    pub fail: Seq<u64>,
    pub calls: u64,
}

impl Schedule {
    /// Before the first call.
    pub fn new(fail: Seq<u64>) -> Schedule
        ensures { result ≡ record { fail = fail; calls = 0 } }
    {
        Schedule { fail, calls: 0 }
    }

    /// Counts a call, and tells whether it fails by the list.
    pub fn next(&mut self) -> bool
        ensures due { result ≡ is_due self.old.fail.items self.old.calls }
        ensures new { self.new ≡ record self.old { calls = call_after self.old.calls } }
    {
        self.calls = next_call(self.calls);
        self.fail.as_slice().contains(&self.calls)
    }
}
