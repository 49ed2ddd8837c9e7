//! Why there is no build.
ghost use Rattle.ec_build.specs.declared.stop.BuildStop.TheVariants.{NoMemory as OutOfMemory};
ghost use Rattle.std.specs.Prelude.{◌≡◌};

use ec_check::CheckStop;
use ec_lex::LexStop;
use ec_locate::PlaceStop;
use ec_map::MapStop;
use ec_parse::ParseStop;
use ec_space::NoMemory;
use thiserror::Error;

/// Why there is no build. The first cause in this order is told.
#[derive(Debug, Drop, Error)]
pub enum BuildStop {
    /// The text is no map.
    #[error("map: {0}")]
    Map(MapStop),
    /// The text of a unit has a fault.
    #[error("unit {unit}: {stop}")]
    Lex { unit: u8, stop: LexStop },
    /// The tokens of a unit are no program, or are nested too deep.
    #[error("unit {unit}: {stop}")]
    Parse { unit: u8, stop: ParseStop },
    /// A limit is passed, a constraint is broken, or a function reaches itself by calls.
    #[error("{0}")]
    Check(CheckStop),
    /// A region of the map is too small, or an object that the map places is not there or clashes.
    #[error("{0}")]
    Place(PlaceStop),
    /// Memory ran out.
    #[error("no memory")]
    NoMemory,
}

impl From<NoMemory> for BuildStop {
    ghost from_gives = { λ _ e. e ≡ OutOfMemory };

    fn from(_e: NoMemory) -> BuildStop {
        BuildStop::NoMemory
    }
}
