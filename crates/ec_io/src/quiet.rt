//! A sink that takes all.
ghost use Rattle.std.specs.Prelude.{None};

use crate::sink::Sink;
use crate::store::Failed;

/// Takes all that is written, and keeps none of it. It never fails, and is calm for every room.
#[derive(Clone, Copy, Debug)]
pub struct Quiet;

impl Sink for Quiet {
    ghost written = { λ _. None };

    ghost faults = { λ _. 0 };

    ghost calm = { λ _ _. Unit {0} };

    ghost use Rattle.std.proofs.Common.{arith};

    ghost below = { λ _ _ _. Prim.omega arith };

    fn write(&mut self, bytes: &[u8]) -> Result<usize, Failed> {
        Ok(bytes.len())
    }
}
