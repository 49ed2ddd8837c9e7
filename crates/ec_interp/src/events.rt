//! The events of a run so far.
ghost use Rattle.std.specs.Prelude.{◌≡◌, map, replicate};
ghost use Rattle.ec_core.specs.State.{reads_of};
ghost use Rattle.ec_interp.specs.Events.{seen_event};

use crate::behaviour::Event;
use ec_space::{NoMemory, push};
use std::alloc::Global;
use std::marker::Model;

/// The port addresses whose reads are counted: all that ports of the machine have.
const ADDRESSES: usize = 256;

/// The events of a run so far, in order, and how many bytes of each port address they read.
#[derive(Drop)]
pub struct Events {
    all: Vec<Event>,
    reads: [usize; ADDRESSES],
}

impl Model for Events {
    ghost use Rattle.std.specs.Prelude.{List, map};
    ghost use Rattle.ec_core.specs.State.{Event};
    ghost use Rattle.ec_interp.specs.Events.{seen_event, AreCounted};

    ghost Value = { List Event };

    ghost view = { λ e. map seen_event e.all.items };

    ghost invariant = { λ e. AreCounted e.reads (map seen_event e.all.items) };
}

/// No reads of any port address.
fn no_reads() -> [usize; ADDRESSES]
    ensures { result ≡ replicate 256 0 }
{
    [0; ADDRESSES]
}

/// How many bytes of a port some events read.
fn reads_of(port: u32, events: &[Event]) -> usize
    ensures { result ≡ reads_of port (map seen_event events.now) }
{
    let mut reads = 0;
    for event in events {
        if let Event::In { port: read, .. } = event
            && *read == port
        {
            reads += 1;
        }
    }
    reads
}

impl Events {
    ghost use Rattle.std.specs.Prelude.{◌≡◌, ◌<◌, ◌++◌, ◌∷◌, [], ℕ, map, OnOk};
    ghost use Rattle.ec_core.specs.State.{In as InOf, reads_of};
    ghost use Rattle.ec_interp.specs.Events.{seen_event};

    /// No events.
    pub fn new(alloc: Global) -> Events
        ensures { result ≡ [] }
    {
        Events {
            all: Vec::new(alloc),
            reads: no_reads(),
        }
    }

    /// All events, in order.
    pub fn as_slice(&self) -> &[Event]
        ensures { map seen_event result.now ≡ self.now }
    {
        self.all.as_slice()
    }

    /// How many bytes of a port they read.
    pub fn reads(&self, port: u32) -> usize
        ensures { result ≡ reads_of port self.now }
    {
        match self.reads.get(port as usize) {
            Some(count) => *count,
            None => reads_of(port, self.all.as_slice()),
        }
    }

    /// An event more that reads no byte of a port address below 256.
    fn push_uncounted(&mut self, event: Event) -> Result<(), NoMemory>
        requires { (port : ℕ) → port < 256 → reads_of port (seen_event event ∷ []) ≡ 0 }
        ensures { OnOk result (self.new ≡ self.old ++ seen_event event ∷ []) }
    {
        push(&mut self.all, event)?;
        Ok(())
    }

    /// A byte more that is read from a port address below 256.
    fn push_counted(&mut self, port: u32, byte: u8) -> Result<(), NoMemory>
        requires { port < 256 }
        ensures { OnOk result (self.new ≡ self.old ++ InOf port byte ∷ []) }
    {
        let Some(count) = self.reads[port as usize].checked_add(1) else {
            return Err(NoMemory);
        };
        push(&mut self.all, Event::In { port, byte })?;
        self.reads[port as usize] = count;
        Ok(())
    }

    /// A byte more that is read from a port address.
    fn push_read(&mut self, port: u32, byte: u8) -> Result<(), NoMemory>
        ensures { OnOk result (self.new ≡ self.old ++ InOf port byte ∷ []) }
    {
        if port < 256 {
            self.push_counted(port, byte)
        } else {
            self.push_uncounted(Event::In { port, byte })
        }
    }

    /// An event more.
    pub fn push(&mut self, event: Event) -> Result<(), NoMemory>
        ensures { OnOk result (self.new ≡ self.old ++ seen_event event ∷ []) }
    {
        match event {
            Event::In { port, byte } => self.push_read(port, byte),
            Event::Out { .. } => self.push_uncounted(event),
            Event::Read { .. } => self.push_uncounted(event),
            Event::Write { .. } => self.push_uncounted(event),
        }
    }
}
