//! Steps that access no port, made many at a time.
use super::{Machine, Stepped};
use ec_isa::Instr;

impl Machine {
    ghost use Rattle.std.specs.Prelude.{◌≡◌, ◌≤◌, ◌<◌, false, IsTrue, IfSome, if◌then◌else◌};
    ghost use Rattle.ec_isa.specs.Table.{in_table};
    ghost use Rattle.ec_avr.specs.Machine.{step, effect};
    ghost use Rattle.ec_avr.specs.Quiet.{RunsQuietly, is_quiet_next, has_run, quiet_instruction, accesses_port, is_at_port};

    /// Makes steps that access no port, at most so many: up to the first that accesses one, ends or cannot be made. The
    /// answer is how many it made.
    pub fn run_quietly(&mut self, most: u32) -> u32
        ensures run { RunsQuietly result self.old self.new }
        ensures within { result ≤ most }
        ensures stopped { result < most → is_quiet_next self.new ≡ false }
    {
        for made in 0..most {
            if !self.step_quietly() {
                return made;
            }
        }
        most
    }

    /// Makes the next step if it runs and accesses no port, and tells whether it did.
    #[inline(always)]
    fn step_quietly(&mut self) -> bool
        ensures made { result ≡ is_quiet_next self.old }
        ensures state { self.new ≡ (if result then (step 0 self.old).state else self.old) }
    {
        match self.quiet_instruction() {
            Some(instruction) => self.performs(instruction),
            None => false,
        }
    }

    /// The instruction of the next step, where all its words lie in flash and it accesses no port.
    #[inline(always)]
    fn quiet_instruction(&self) -> Option<Instr>
        ensures value { result ≡ quiet_instruction self.now }
        ensures in_table { IfSome result (λ i. IsTrue (in_table i)) }
    {
        let found = self.instruction_at(self.pc as u32);
        if self.is_whole(found) && !self.accesses_port(found?) {
            found
        } else {
            None
        }
    }

    /// Whether an instruction of the table loads from a port or stores to one.
    #[inline(always)]
    fn accesses_port(&self, instruction: Instr) -> bool
        requires { IsTrue (in_table instruction) }
        ensures { result ≡ accesses_port (Some instruction) self.now }
    {
        self.is_at_port(self.load_address(instruction))
            || self.is_at_port(self.store_address(instruction))
    }

    /// Whether there is an address, and it is that of a port.
    #[inline(always)]
    fn is_at_port(&self, at: Option<u16>) -> bool
        ensures { result ≡ is_at_port self.now at }
    {
        match at {
            Some(at) => self.port_at(at).is_some(),
            None => false,
        }
    }

    /// Performs an instruction of the table that reads no port, and tells whether it ran.
    #[inline(always)]
    fn performs(&mut self, instruction: Instr) -> bool
        requires { IsTrue (in_table instruction) }
        ensures ran { result ≡ has_run (effect (Some instruction) 0 self.old).stepped }
        ensures state { self.new ≡ (effect (Some instruction) 0 self.old).state }
    {
        match self.perform(instruction, 0) {
            Stepped::Ran(_) => true,
            Stepped::Ended | Stepped::Fault(..) => false,
        }
    }
}
