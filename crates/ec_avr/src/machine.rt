//! The machine, which makes the steps of the core.
ghost use Rattle.std.specs.Prelude.{◌≡◌, EachIndex, slice_index, if◌then◌else◌};
ghost use Rattle.ec_avr.specs.State.{is_port};

mod arithmetic;
mod flags;
mod jumps;
mod places;
mod quiet;
mod table;
mod transfers;

use crate::image::Image;
use ec_isa::{Instr, is_port};
use ec_space::{Bank, Core, Mem, NoMemory, Seq};
pub(crate) use jumps::is_of_two_words;
use std::alloc::Global;
use std::marker::Model;

/// What a step accessed, besides the instruction itself.
#[derive(Clone, Copy, Debug, PartialEq, Eq)]
pub enum Access {
    /// Nothing but registers, SP, SREG and RAMPZ.
    Silent,
    /// A byte was read from a port.
    In { port: u8, byte: u8 },
    /// A byte was written to a port.
    Out { port: u8, byte: u8 },
    /// A byte was loaded from flash or SRAM.
    Read { bank: Bank, at: u32, byte: u8 },
    /// A byte was stored to SRAM.
    Write { at: u32, byte: u8 },
    /// Bytes of the stack were pushed or popped.
    Stack,
}

/// Why a step cannot be made.
#[derive(Clone, Copy, Debug, PartialEq, Eq)]
pub enum FaultKind {
    /// The instruction table has no such instruction, or the core has not.
    Unsupported,
    /// A word of the instruction lies past the flash.
    PcOut,
    /// A load or store lies past the SRAM, or past the flash.
    DataOut,
    /// A push or pop lies outside the SRAM.
    StackOut,
}

/// What a step did.
#[derive(Clone, Copy, Debug, PartialEq, Eq)]
pub enum Stepped {
    /// It ran.
    Ran(Access),
    /// It was BREAK, at which the machine stays.
    Ended,
    /// It cannot be made at this program counter, and nothing changed.
    Fault(FaultKind, u16),
}

/// What the outside gives to a step.
#[derive(Clone, Copy, Debug, PartialEq, Eq)]
pub enum PortAnswer {
    /// The step reads no port.
    Nothing,
    /// The byte that the port answers.
    Byte(u8),
}

impl PortAnswer {
    ghost use Rattle.std.specs.Prelude.{◌≡◌};
    ghost use Rattle.ec_avr.specs.Machine.{byte_of};

    fn byte(self) -> u8
        ensures { result ≡ byte_of self }
    {
        match self {
            PortAnswer::Nothing => 0,
            PortAnswer::Byte(byte) => byte,
        }
    }
}

/// The core with its flash, its data memory and its program counter.
///
/// Contracts see it as a `State`: the core, the memory, and the program counter, which counts words.
#[derive(Drop)]
pub struct Machine {
    core: Core,
    memory: Mem,
    pc: u16,

    /// What stands in flash at each word address, decoded once; past its end the flash is decoded as it is reached.
    decoded: Seq<Option<Instr>>,
}

impl Model for Machine {
    ghost use Rattle.ec_avr.specs.State.{State};
    ghost use Rattle.ec_avr.specs.Decoded.{IsMade};

    ghost Value = { State };

    ghost view = { λ m. record { core = m.core; mem = m.memory; pc = m.pc } };

    ghost invariant = { λ m. IsMade m.core m.memory m.decoded.items };
}

impl Machine {
    ghost use Rattle.std.specs.Prelude.{◌≡◌, ◌↔◌, ℕ, IsTrue, IsSome, IfOk};
    ghost use Rattle.ec_avr.specs.Machine.{State, step, needs_port, port_at, port_read, StaysUnlessRan, Keeps, byte_of};
    ghost use Rattle.ec_avr.specs.Machine.{is_byte, machine_result, is_whole, instruction_at, IsReset, reset_with};

    /// The machine after a reset: the program counter is 0, the core and the flash are the image's, and the registers, SP,
    /// SREG, RAMPZ and the SRAM hold `fill`. No other call takes memory.
    pub fn boot(alloc: Global, image: &Image, fill: u8) -> Result<Machine, NoMemory>
        ensures reset { IfOk result (λ s. IsReset image.now.core image.now.bytes.items s) }
        ensures value { IfOk result (λ s. s ≡ reset_with image.now.core image.now.bytes.items fill) }
    {
        let mut machine = Machine::with_image(alloc, image, fill)?;
        machine.decode_ahead()?;
        Ok(machine)
    }

    /// The same, with nothing decoded ahead.
    fn with_image(alloc: Global, image: &Image, fill: u8) -> Result<Machine, NoMemory>
        ensures reset { IfOk result (λ s. IsReset image.now.core image.now.bytes.items s) }
        ensures value { IfOk result (λ s. s ≡ reset_with image.now.core image.now.bytes.items fill) }
    {
        let core = image.core;
        let mut memory = Mem::new(alloc, core)?;
        memory
            .window_mut(Bank::Flash, 0, core.flash_size())
            .copy_from_slice(image.bytes.as_slice());
        fill_memory(
            core,
            memory.window_mut(Bank::Data, 0, core.data_size()),
            fill,
        );
        Ok(Machine {
            core,
            memory,
            pc: 0,
            decoded: Seq::new(alloc),
        })
    }

    /// Decodes the flash.
    fn decode_ahead(&mut self) -> Result<(), NoMemory>
        ensures { self.new ≡ self.old }
    {
        for _word in 0..self.core.flash_size() / 2 {
            self.decode_next()?;
        }
        Ok(())
    }

    /// Decodes the word after those that are decoded.
    fn decode_next(&mut self) -> Result<(), NoMemory>
        ensures { self.new ≡ self.old }
    {
        let at = self.decoded.len();
        if at < 0x1_0000 {
            let found = self.decode_at(at as u32);
            self.decoded.push(found)?;
        }
        Ok(())
    }

    /// The data address of the port that the next step reads, or None where it reads none.
    pub fn needs_port(&self) -> Option<u8>
        ensures value { result ≡ needs_port self.now }
        ensures exact { (answer : ℕ) → port_read (step answer self.now).stepped ≡ result }
    {
        self.next_port()
    }

    /// Makes one step. `answer` is the byte of the port that the step reads, if it reads one.
    #[tactic(auto, unfolding(crate::specs::Machine::step, crate::specs::Effects::effect))]
    pub fn step(&mut self, answer: PortAnswer) -> Stepped
        requires { IsTrue (is_byte answer) ↔ IsSome (needs_port self.old) }
        ensures stepped { result ≡ (step (byte_of answer) self.old).stepped }
        ensures state { self.new ≡ (step (byte_of answer) self.old).state }
        ensures stays { StaysUnlessRan result self.old self.new }
        ensures keeps { Keeps self.old self.new }
    {
        let found = self.instruction_at(self.pc as u32);
        if !self.is_whole(found) {
            return Stepped::Fault(FaultKind::PcOut, self.pc);
        }
        match found {
            Some(instruction) => self.perform(instruction, answer.byte()),
            None => Stepped::Fault(FaultKind::Unsupported, self.pc),
        }
    }

    /// R25:R24 as a signed number, which is the result of a program that has ended.
    pub fn result(&self) -> i16
        ensures { result ≡ machine_result self.now }
    {
        self.pair(24).cast_signed()
    }

    /// The memory as it stands. The bytes at the addresses of ports are 0, and say nothing.
    pub fn memory(&self) -> &Mem
        ensures { result.now ≡ self.now.mem }
    {
        &self.memory
    }

    /// The port that the next step reads.
    fn next_port(&self) -> Option<u8>
        ensures { result ≡ needs_port self.now }
    {
        let found = self.instruction_at(self.pc as u32);
        let at = self.load_address(found?)?;
        if self.is_whole(found) {
            self.port_at(at)
        } else {
            None
        }
    }

    /// The address, if it is that of a port.
    fn port_at(&self, at: u16) -> Option<u8>
        ensures { result ≡ port_at self.now at }
    {
        if is_port(self.core, at) && self.has_data(at) {
            Some(at as u8)
        } else {
            None
        }
    }

    /// Whether every word of the instruction that was found at the program counter lies in flash.
    fn is_whole(&self, found: Option<Instr>) -> bool
        requires { found ≡ instruction_at self.now self.now.pc }
        ensures { result ≡ is_whole self.now }
    {
        let pc = self.pc as u32;
        self.is_in_flash(pc + 1) || self.is_in_flash(pc) && !is_of_two_words(found)
    }
}

/// Fills all data bytes but those of ports.
fn fill_memory(core: Core, bytes: &mut [u8], fill: u8)
    ensures { EachIndex bytes.new (λ at. slice_index bytes.new at
        ≡ (if is_port core at then slice_index bytes.old at else fill)) }
{
    for (at, byte) in bytes.iter_mut().enumerate() {
        if 255 < at || !is_port(core, at as u16) {
            *byte = fill;
        }
    }
}
