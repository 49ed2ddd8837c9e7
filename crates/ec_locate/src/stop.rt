//! Why a program is not placed.
ghost use Rattle.std.specs.Prelude.{◌≡◌};

use ec_space::{Name, NoMemory};
use thiserror::Error;

/// A region of a map.
#[derive(Clone, Copy, Debug, PartialEq, Eq)]
pub enum RegionName {
    Code,
    Tables,
    Far,
    Data,
    Stack,
}

/// Why a program is not placed. The needs of tables, far, data, stack and code are judged in this order, then whether each
/// name of the map has an object, by rising bytes, and then whether each has a place of its own.
#[derive(Drop, Debug, Error)]
pub enum PlaceStop {
    /// A region is too small. `needed` past 4,294,967,295 is told as that number.
    #[error("a region is too small")]
    TooSmall {
        region: RegionName,
        needed: u32,
        available: u32,
    },
    /// The map places an object that is no external static object.
    #[error("no such object")]
    NoSuchObject(Name),
    /// An object that the map places does not lie in its bank (`bank`), or meets a region or a later object.
    #[error("clash")]
    Clash(Name, Name),
    #[error("no memory")]
    NoMemory,
}

impl From<NoMemory> for PlaceStop {
    ghost use Rattle.ec_locate.specs.declared.stop.PlaceStop.TheVariants.{NoMemory as OutOfMemory};

    ghost from_gives = { λ _ e. e ≡ OutOfMemory };

    fn from(_e: NoMemory) -> PlaceStop {
        PlaceStop::NoMemory
    }
}
