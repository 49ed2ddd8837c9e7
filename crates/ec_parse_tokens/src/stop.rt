//! Why reading stops.
ghost use Rattle.std.specs.Prelude.{◌≡◌};
ghost use Rattle.ec_parse_tokens.specs.declared.stop.ReadError.TheVariants.{NoMemory as OutOfMemory};

use ec_space::NoMemory;
use std::alloc::{AllocError, AllocFailed};

/// Why reading stops, with the number of tokens from the one that it tells to the end of the list.
#[derive(Clone, Copy)]
pub enum ReadError {
    NoMemory,
    /// No tree begins with the tokens before this one and this one.
    Syntax(usize),
    /// At this token the limit of nesting is passed.
    TooDeep(usize),
}

impl From<NoMemory> for ReadError {
    ghost from_gives = { λ _ e. e ≡ OutOfMemory };

    fn from(_e: NoMemory) -> ReadError {
        ReadError::NoMemory
    }
}

impl From<AllocError> for ReadError {
    ghost from_gives = { λ _ e. e ≡ OutOfMemory };

    fn from(_e: AllocError) -> ReadError {
        ReadError::NoMemory
    }
}

impl<T: Drop> From<AllocFailed<T>> for ReadError {
    ghost from_gives = { λ _ e. e ≡ OutOfMemory };

    fn from(_e: AllocFailed<T>) -> ReadError {
        ReadError::NoMemory
    }
}
