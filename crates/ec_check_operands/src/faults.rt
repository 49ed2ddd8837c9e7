//! Broken rules of a unit, told at tokens, and the least of them.
ghost use Rattle.std.specs.Prelude.{◌≡◌, None};
ghost use Rattle.ec_check_operands.specs.Faults.{lesser, judged};
ghost use Rattle.ec_check_operands.specs.Laws.{LeastIsKept, JudgementsAddUp};

/// A broken rule, by its number from 1 to 40, and the index of the token where it is told.
#[derive(Clone, Copy, Debug, PartialEq, Eq)]
pub struct Fault {
    pub at: u32,
    pub rule: u8,
}

/// What was judged so far of a unit: the least fault, by token and then by rule, or None where no rule was broken.
#[derive(Clone, Copy)]
pub struct Faults {
    pub least: Option<Fault>,
}

impl Faults {
    /// Nothing was judged yet.
    pub fn new() -> Faults
        ensures { result.least ≡ None }
    {
        Faults { least: None }
    }

    /// Takes note of a fault.
    pub fn note(&mut self, fault: Fault)
        ensures { self.new.least ≡ lesser self.old.least fault }
    {
        match self.least {
            None => self.least = Some(fault),
            Some(old) => {
                if fault.at < old.at || fault.at == old.at && fault.rule < old.rule {
                    self.least = Some(fault);
                }
            }
        }
    }

    /// Judges a rule, which is told at the token `at` where it is broken.
    pub fn judge(&mut self, rule: u8, broken: bool, at: u32)
        ensures { self.new.least ≡ judged self.old.least (record { rule = rule; broken = broken; at = at }) }
    {
        if broken {
            self.note(Fault { at, rule });
        }
    }
}

/// What is kept of judgements is the least fault that they tell, and none exactly where they tell none.
pub fn the_least_is_kept()
    ensures { LeastIsKept }
{}

/// Judgements may be made in parts: the first ones, and then the others.
pub fn judgements_add_up()
    ensures { JudgementsAddUp }
{}
