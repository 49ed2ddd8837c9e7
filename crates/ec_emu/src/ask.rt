//! What a port is asked for a byte with, and who answers.
ghost use Rattle.std.specs.Prelude.{◌≡◌, ◌↔◌, ℕ, Bool, Option, None, List, [], ◌∷◌};
ghost use Rattle.std.specs.Borrow.{GName};
ghost use Rattle.ec_emu.specs.declared.ask.Ask.{Ask};
ghost use Rattle.ec_emu.specs.Answers.{Answered, answered, WereAsked};

/// A read of a port.
#[derive(Clone, Copy, Debug, PartialEq, Eq)]
pub struct Ask {
    /// The data address of the port.
    pub port: u8,
    /// The number of earlier reads of this port in the run.
    pub index: u32,
    /// The byte that was written to this port last in the run, or 0.
    pub last: u8,
}

/// Which bytes may be answered.
pub trait Rule {
    ghost allows: { Self → Ask → ℕ → Bool };

    /// Whether a byte may be answered at an ask.
    fn allows(&self, ask: Ask, byte: u8) -> bool
        ensures { result ≡ allows self.now ask byte };
}

/// Answers the reads of ports.
///
/// It has no fault. What it is asked with tells all that an answer may depend on, so that most keep no history.
pub trait Ports {
    /// The states in which it may be asked. A call leaves it in one of them.
    ghost can_ask: { Self → Type 0 } = { λ _. Unit {0} };

    /// The bytes that may be answered at an ask. No call changes them.
    ghost gives: { Self → Ask → ℕ → Type 0 };

    /// What it was asked and answered so far, in order, if it tells. An ask adds itself and nothing else, or it is the
    /// last to be told.
    ghost asked: { Self → Option (List Answered) } = { λ _. None };

    /// What other ports, to which it passes asks on, may answer. No call changes it.
    ghost passed_on: { Self → Ask → ℕ → Type 0 } = { λ _ _ _. Unit {0} };

    /// The reference through which it answers, where it has one.
    ghost held: { Self → Option GName } = { λ _. None };

    /// The byte that is read.
    fn ask(&mut self, ask: Ask) -> u8
        requires { can_ask self.old }
        ensures can { can_ask self.new }
        ensures given { gives self.old ask result }
        ensures asked { WereAsked (asked self.old) (asked self.new) (answered ask result ∷ []) }
        ensures stays { (a : Ask) (byte : ℕ) → gives self.new a byte ↔ gives self.old a byte }
        ensures passed_on { (a : Ask) (byte : ℕ) → passed_on self.new a byte ↔ passed_on self.old a byte }
        ensures held { held self.new ≡ held self.old };
}
