//! The rule of the program's own hooks.
use ec_emu::{Ask, Rule};

/// A hooked port reads as the byte that was written to it last, or 0.
#[derive(Clone, Copy)]
pub struct LastWritten;

impl Rule for LastWritten {
    ghost use Rattle.std.specs.Prelude.{◌==◌};

    ghost allows = { λ _ ask byte. byte == ask.last };

    fn allows(&self, ask: Ask, byte: u8) -> bool {
        byte == ask.last
    }
}
