//! Why a text has no tokens.
ghost use Rattle.std.specs.Prelude.{◌≡◌};
ghost use Rattle.ec_lex.specs.declared.stop.Refusal.TheVariants.{NoMemory as OutOfMemory};

use ec_space::NoMemory;
use thiserror::Error;

/// Why a text has no tokens, with the offset of the byte where the fault begins. The fault with the least offset is
/// told.
#[derive(Clone, Copy, Debug, PartialEq, Eq, Error)]
pub enum LexStop {
    /// A byte that begins nothing, or a character constant of no known form.
    #[error("byte {0}: bad byte")]
    BadByte(u32),
    /// A number that is no constant, or whose value no type holds.
    #[error("byte {0}: bad number")]
    BadNumber(u32),
    /// A comment or a character constant without its end.
    #[error("byte {0}: unclosed")]
    Unclosed(u32),
    /// A line that begins with `#` and is no directive.
    #[error("byte {0}: bad directive")]
    BadDirective(u32),
    /// There are more than 65,535 tokens before the end.
    #[error("more than 65535 tokens")]
    TooManyTokens,
    #[error("no memory")]
    NoMemory,
}

/// What is wrong at a place of the text.
#[derive(Clone, Copy, Debug, PartialEq, Eq)]
pub enum Cause {
    BadByte,
    BadNumber,
    Unclosed,
    BadDirective,
}

/// A header that can be included.
#[derive(Clone, Copy, Debug, PartialEq, Eq)]
pub enum Header {
    /// `<stdint.h>`
    Stdint,
    /// `<stdfix.h>`
    Stdfix,
    /// `<iohw.h>`
    Iohw,
}

/// Why the piece at a place gives nothing.
#[derive(Clone, Copy)]
pub enum Refusal {
    NoMemory,
    Fault(Cause),
}

impl From<NoMemory> for Refusal {
    ghost from_gives = { λ _ e. e ≡ OutOfMemory };

    fn from(_e: NoMemory) -> Refusal {
        Refusal::NoMemory
    }
}
