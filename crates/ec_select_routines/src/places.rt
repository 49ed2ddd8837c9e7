//! Where a routine works, finds its operands and leaves its result.
ghost use Rattle.std.specs.Prelude.{◌≡◌};
ghost use Rattle.ec_select_routines.specs.Codes.{work_place, answer_place, first_place, second_place};

use ec_asm::Location;

/// The bytes that it works in.
pub(crate) fn work_place() -> Location
    ensures { result ≡ work_place }
{
    Location::InMemory {
        object: 1280,
        offset: 0,
    }
}

pub(crate) fn answer_place() -> Location
    ensures { result ≡ answer_place }
{
    Location::InMemory {
        object: 1280,
        offset: 40,
    }
}

pub(crate) fn first_place() -> Location
    ensures { result ≡ first_place }
{
    Location::InMemory {
        object: 1280,
        offset: 48,
    }
}

pub(crate) fn second_place() -> Location
    ensures { result ≡ second_place }
{
    Location::InMemory {
        object: 1280,
        offset: 56,
    }
}
