//! Why sources have no trees.
ghost use Rattle.std.specs.Prelude.{◌≡◌};
ghost use Rattle.ec_parse_sources.specs.declared.stop.UnitStop.TheVariants.{NoMemory as OutOfMemory};

use ec_lex::LexStop;
use ec_parse::ParseStop;
use ec_space::NoMemory;
use thiserror::Error;

/// Why sources have no trees. Units are counted from 0.
#[derive(Debug, Drop, Error)]
pub enum UnitStop {
    /// The text of a unit has a fault.
    #[error("unit {unit}: {stop}")]
    Lex { unit: u8, stop: LexStop },
    /// The tokens of a unit are no program, or are nested too deep.
    #[error("unit {unit}: {stop}")]
    Parse { unit: u8, stop: ParseStop },
    /// Memory ran out.
    #[error("no memory")]
    NoMemory,
}

impl From<NoMemory> for UnitStop {
    ghost from_gives = { λ _ e. e ≡ OutOfMemory };

    fn from(_e: NoMemory) -> UnitStop {
        UnitStop::NoMemory
    }
}
