//! What is answered where a port is read, and what a script's line says of it.
ghost use Rattle.std.specs.Prelude.{◌≡◌, ◌↔◌, ℕ, slice_index};
ghost use Rattle.ec_emu.specs.declared.ask.Ask.{Ask};
ghost use Rattle.ec_emu.specs.Answers.{AnswersAsk, IsListed};

use crate::ask::{Ask, Ports};

/// The byte that ports answer at an ask. Without an ask there is none, and they are not asked.
pub fn answer<P: Ports>(ports: &mut P, ask: Option<Ask>) -> Option<u8>
    requires { P.can_ask ports.old }
    ensures can { P.can_ask ports.new }
    ensures answered { AnswersAsk (P.gives ports.old) (P.asked ports.old) (P.asked ports.new) ask result }
    ensures stays { (a : Ask) (byte : ℕ) → P.gives ports.new a byte ↔ P.gives ports.old a byte }
    ensures passed_on { (a : Ask) (byte : ℕ) → P.passed_on ports.new a byte ↔ P.passed_on ports.old a byte }
    ensures held { P.held ports.new ≡ P.held ports.old }
{
    match ask {
        Some(ask) => Some(ports.ask(ask)),
        None => None,
    }
}

/// What a script's line says of the ask at an index, counted from 0: the byte at that place of its list, 0 past its
/// end, or nothing where its port is hooked.
pub fn listed_byte(hook: bool, bytes: &[u8], index: u32) -> Option<u8>
    ensures { IsListed hook bytes.now index result }
{
    if hook {
        None
    } else {
        Some(byte_at(bytes, index))
    }
}

/// The byte at a place of a list, 0 past its end.
fn byte_at(bytes: &[u8], index: u32) -> u8
    ensures { result ≡ slice_index bytes.now index }
{
    bytes.get(index as usize).copied().unwrap_or(0)
}
