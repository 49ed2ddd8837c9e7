//! The labels of loops.
ghost use Rattle.std.specs.Prelude.{◌≡◌, ◌+◌, IfOk};

use crate::emit::behind;
use ec_space::NoMemory;

/// Where a `continue` goes in the loop whose labels are `l`, for the test, to `l + 4`: to the last part.
pub fn continue_label(l: u64) -> Result<u64, NoMemory>
    ensures { IfOk result (λ on. on ≡ l + 2) }
{
    behind(l, 2)
}
