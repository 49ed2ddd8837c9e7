//! Rules on numbers.
ghost use Rattle.std.specs.Prelude.{◌≡◌, Bool, ℤ};
ghost use Rattle.ec_emu_watch.specs.Compares.{compares};

/// Which numbers are watched for.
pub trait ValueRule {
    ghost holds: { Self → ℤ → Bool };

    /// Whether the rule holds of a number.
    fn holds(&self, value: i128) -> bool
        ensures { result ≡ holds self.now value };
}

/// How a number stands to another.
#[derive(Clone, Copy, Debug, PartialEq, Eq)]
pub enum CompareOp {
    /// It is equal.
    Eq,
    /// It is not.
    Ne,
    /// It is less.
    Lt,
    /// It is greater.
    Gt,
    /// It is less or equal.
    Le,
    /// It is greater or equal.
    Ge,
}

/// The rule that a number stands so to this value.
#[derive(Clone, Copy, Debug, PartialEq, Eq)]
pub struct Compare {
    pub op: CompareOp,
    pub value: i128,
}

impl ValueRule for Compare {
    ghost holds = { λ rule value. compares rule.op value rule.value };

    fn holds(&self, value: i128) -> bool {
        match self.op {
            CompareOp::Eq => value == self.value,
            CompareOp::Ne => value != self.value,
            CompareOp::Lt => value < self.value,
            CompareOp::Gt => value > self.value,
            CompareOp::Le => value <= self.value,
            CompareOp::Ge => value >= self.value,
        }
    }
}
