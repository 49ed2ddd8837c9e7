//! What a run has read from each port and written to it.
use crate::ask::Ask;
use ec_avr::Access;

/// The reads and writes of a run so far.
#[derive(Drop)]
pub struct PortHistory {
    /// How often each port was read.
    pub reads: [u32; 256],
    /// The byte that was written to each port last, or 0.
    pub last: [u8; 256],
    /// How often ports were read.
    pub all_reads: u32,
    /// How often ports were written.
    pub all_writes: u32,
}

impl PortHistory {
    ghost use Rattle.std.specs.Prelude.{◌≡◌, List, [], ◌∷◌, ◌++◌, ◌+◌, ◌<◌, ◌^◌, length, option_map};
    ghost use Rattle.ec_avr.specs.declared.machine.Access.{Access};
    ghost use Rattle.ec_emu.specs.History.{IsHistory, ask_of};

    /// Before the first step.
    pub fn new() -> PortHistory
        ensures { IsHistory [] result }
    {
        PortHistory {
            reads: [0; 256],
            last: [0; 256],
            all_reads: 0,
            all_writes: 0,
        }
    }

    /// The ask of a read that comes next.
    pub fn ask(&self, port: u8) -> Ask
        ensures { result ≡ ask_of self.now port }
    {
        Ask {
            port,
            index: self.reads[usize::from(port)],
            last: self.last[usize::from(port)],
        }
    }

    /// The ask of the next step, where it reads this port.
    pub fn next_ask(&self, port: Option<u8>) -> Option<Ask>
        ensures { result ≡ option_map (ask_of self.now) port }
    {
        match port {
            Some(port) => Some(self.ask(port)),
            None => None,
        }
    }

    /// Notes an access.
    pub fn note(&mut self, access: Access)
        ensures { (trace : List Access) → IsHistory trace self.old → length trace + 1 < 2 ^ 32
            → IsHistory (trace ++ access ∷ []) self.new }
    {
        match access {
            Access::In { port, .. } => {
                let port = usize::from(port);
                self.reads[port] = self.reads[port].saturating_add(1);
                self.all_reads = self.all_reads.saturating_add(1);
            }
            Access::Out { port, byte } => {
                self.last[usize::from(port)] = byte;
                self.all_writes = self.all_writes.saturating_add(1);
            }
            _ => {}
        }
    }
}
