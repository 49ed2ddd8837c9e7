//! Where a run stops before its end.
ghost use Rattle.std.specs.Prelude.{◌≡◌, Bool};
ghost use Rattle.ec_avr.specs.declared.machine.Access.{Access};
ghost use Rattle.ec_avr.specs.State.{State};

use ec_avr::{Access, Machine};

/// Tells after which steps a run stops.
pub trait Stop {
    /// The states in which it may be asked.
    ghost can_stop: { Self → Type 0 } = { λ _. Unit {0} };

    /// Whether a run stops after a step with an access, where the machine then stands so.
    ghost stops: { Self → Access → State → Bool };

    /// Whether a run stops here, after a step with this access.
    fn stops(&self, access: Access, machine: &Machine) -> bool
        requires { can_stop self.now }
        ensures { result ≡ stops self.now access machine.now };
}
