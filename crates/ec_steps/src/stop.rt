//! Why no number of steps is told.
ghost use Rattle.ec_steps.specs.declared.stop.BoundStop.TheVariants.{NoMemory as OutOfMemory};
ghost use Rattle.std.specs.Prelude.{◌≡◌};

use ec_space::NoMemory;
use thiserror::Error;

/// Why no number of steps is told. The first cause in this order is told.
#[derive(Debug, Drop, Error)]
pub enum BoundStop {
    /// A function that main reaches has a loop that is not counted. The first is told, by its unit and the index of its
    /// first token there.
    #[error("unit {unit}, token {token}: loop not counted")]
    LoopNotCounted { unit: u8, token: u32 },
    /// The number passes 18,446,744,073,709,551,615.
    #[error("bound too large")]
    BoundTooLarge,
    /// Memory ran out.
    #[error("no memory")]
    NoMemory,
}

impl From<NoMemory> for BoundStop {
    ghost from_gives = { λ _ e. e ≡ OutOfMemory };

    fn from(_e: NoMemory) -> BoundStop {
        BoundStop::NoMemory
    }
}
