//! Ports that answer by a function, under a rule.
ghost use Rattle.std.specs.Prelude.{◌≡◌, ℕ, IsTrue};
ghost use Rattle.ec_emu.specs.declared.ask.Ask.{Ask};
ghost use Rattle.ec_emu.specs.Answers.{IsAsk};
ghost use Rattle.ec_emu.specs.Hooks.{IsSound, IsHooked, function_of, rule_of};

use crate::ask::{Ask, Ports, Rule};

/// A function that answers each ask with a byte that a rule allows.
///
/// A hook that `Hook::new` made is sound: its function can be called at each ask, and its rule allows the answer.
#[derive(Drop)]
pub struct Hook<F: Fn(Ask) -> u8, R: Rule> {
    f: F,
    rule: R,
}

impl<F: Fn(Ask) -> u8, R: Rule> Hook<F, R> {
    /// A hook. The function has to be callable at each ask, with an answer that the rule allows.
    pub fn new(f: F, rule: R) -> Hook<F, R>
        requires callable { (ask : Ask) → IsAsk ask → F.pre f ask }
        requires allowed { (ask : Ask) (byte : ℕ) → IsAsk ask → F.post f ask byte → IsTrue (R.allows rule ask byte) }
        ensures sound { IsSound F.pre F.post R.allows result }
        ensures function { function_of result ≡ f }
        ensures rule { rule_of result ≡ rule }
    {
        Hook { f, rule }
    }
}

/// Ports that answer each ask by a hook: what its function answers, which its rule allows.
#[derive(Drop)]
pub struct Hooked<F: Fn(Ask) -> u8, R: Rule> {
    pub hook: Hook<F, R>,
}

impl<F: Fn(Ask) -> u8, R: Rule> Ports for Hooked<F, R> {
    ghost can_ask = { λ s. IsSound F.pre F.post R.allows s.hook };

    ghost gives = { λ s. IsHooked F.post R.allows s.hook };

    fn ask(&mut self, ask: Ask) -> u8 {
        (self.hook.f)(ask)
    }
}
