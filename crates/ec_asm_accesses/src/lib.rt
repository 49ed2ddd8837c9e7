//! What the accesses of a machine are of, where the run of its view is safe.
//!
//! `specs/Allowed.antt` tells which accesses are allowed: those of ports, of the stack where there is one, and of bytes
//! which are code's own or an object's.
#![tactic(auto)]

ghost use Rattle.ec_asm_accesses.specs.Allowed.{AccessesAreAllowed, AccessesAreInMemory};

use ec_asm::laws::machine_runs_as_view;
use ec_avr::steps_are_of_instructions;

/// Where the run of the view is safe, each access that the machine makes is one of a port, of the stack where an address
/// is the stack's, or of a byte which is code's own or an object's.
pub fn accesses_are_allowed()
    ensures { AccessesAreAllowed }
{
    machine_runs_as_view();
    steps_are_of_instructions();
}

/// Each read and write of the machine, whatever it runs, is of an address in its memory, above the ports.
pub fn accesses_are_in_memory()
    ensures { AccessesAreInMemory }
{
    steps_are_of_instructions();
}
