//! The steps that load and store, and those of the stack.
ghost use Rattle.std.specs.Prelude.{◌≡◌};
ghost use Rattle.ec_avr.specs.Effects.{load_access as access_of_load, store_access as access_of_store};

use super::places::*;
use super::{Access, FaultKind, Machine, Stepped};
use ec_isa::{
    has_rampz, is_core_register, is_kept, is_port, lowered, post_increment, raised, return_address,
};
use ec_space::{Bank, Core};

impl Machine {
    ghost use Rattle.std.specs.Prelude.{◌≡◌, ◌<◌, length};
    ghost use Rattle.ec_avr.specs.Effects.{faulted, loaded, stored, load, load_and_raise, lower_and_load, store};
    ghost use Rattle.ec_avr.specs.Effects.{store_and_raise, lower_and_store, load_flash, load_flash_and_raise, push};
    ghost use Rattle.ec_avr.specs.Effects.{if_rampz, load_far, load_far_and_raise};
    ghost use Rattle.ec_avr.specs.Effects.{pop, call, return_from_call};

    /// The step cannot be made.
    pub(super) fn faulted(&self, kind: FaultKind) -> Stepped
        ensures { result ≡ (faulted kind self.now).stepped }
    {
        Stepped::Fault(kind, self.pc)
    }

    /// The byte that a load gives.
    fn loaded(&self, at: u16, answer: u8) -> u8
        requires { at < length self.now.mem.data }
        ensures { result ≡ loaded self.now at answer }
    {
        if is_port(self.core, at) {
            answer
        } else {
            self.byte_at(at)
        }
    }

    /// Stores a byte, unless a port is there.
    fn put(&mut self, at: u16, byte: u8)
        requires { at < length self.old.mem.data }
        ensures { self.new ≡ stored self.old at byte }
    {
        if is_kept(self.core, at) {
            self.set_byte(at, byte);
        }
    }

    pub(super) fn load(&mut self, d: u8, at: u16, answer: u8, words: u8) -> Stepped
        ensures stepped { result ≡ (load d at answer words self.old).stepped }
        ensures state { self.new ≡ (load d at answer words self.old).state }
    {
        if !self.has_data(at) {
            return self.faulted(FaultKind::DataOut);
        }
        let byte = self.loaded(at, answer);
        self.set_register(d, byte);
        self.pass(words);
        Stepped::Ran(load_access(self.core, at, byte))
    }

    pub(super) fn load_and_raise(&mut self, d: u8, pointer: u8, answer: u8) -> Stepped
        requires { pointer < 255 }
        ensures stepped { result ≡ (load_and_raise d pointer answer self.old).stepped }
        ensures state { self.new ≡ (load_and_raise d pointer answer self.old).state }
    {
        let (at, next) = post_increment(self.pair(pointer));
        if !self.has_data(at) {
            return self.faulted(FaultKind::DataOut);
        }
        let byte = self.loaded(at, answer);
        self.set_register(d, byte);
        self.set_pair(pointer, next);
        self.pass(1);
        Stepped::Ran(load_access(self.core, at, byte))
    }

    pub(super) fn lower_and_load(&mut self, d: u8, pointer: u8, answer: u8) -> Stepped
        requires { pointer < 255 }
        ensures stepped { result ≡ (lower_and_load d pointer answer self.old).stepped }
        ensures state { self.new ≡ (lower_and_load d pointer answer self.old).state }
    {
        let at = lowered(self.pair(pointer));
        if !self.has_data(at) {
            return self.faulted(FaultKind::DataOut);
        }
        self.set_pair(pointer, at);
        let byte = self.loaded(at, answer);
        self.set_register(d, byte);
        self.pass(1);
        Stepped::Ran(load_access(self.core, at, byte))
    }

    pub(super) fn store(&mut self, at: u16, byte: u8, words: u8) -> Stepped
        ensures stepped { result ≡ (store at byte words self.old).stepped }
        ensures state { self.new ≡ (store at byte words self.old).state }
    {
        if !self.has_data(at) {
            return self.faulted(FaultKind::DataOut);
        }
        self.put(at, byte);
        self.pass(words);
        Stepped::Ran(store_access(self.core, at, byte))
    }

    pub(super) fn store_and_raise(&mut self, pointer: u8, byte: u8) -> Stepped
        requires { pointer < 255 }
        ensures stepped { result ≡ (store_and_raise pointer byte self.old).stepped }
        ensures state { self.new ≡ (store_and_raise pointer byte self.old).state }
    {
        let (at, next) = post_increment(self.pair(pointer));
        if !self.has_data(at) {
            return self.faulted(FaultKind::DataOut);
        }
        self.put(at, byte);
        self.set_pair(pointer, next);
        self.pass(1);
        Stepped::Ran(store_access(self.core, at, byte))
    }

    pub(super) fn lower_and_store(&mut self, pointer: u8, byte: u8) -> Stepped
        requires { pointer < 255 }
        ensures stepped { result ≡ (lower_and_store pointer byte self.old).stepped }
        ensures state { self.new ≡ (lower_and_store pointer byte self.old).state }
    {
        let to = lowered(self.pair(pointer));
        if !self.has_data(to) {
            return self.faulted(FaultKind::DataOut);
        }
        self.set_pair(pointer, to);
        self.put(to, byte);
        self.pass(1);
        Stepped::Ran(store_access(self.core, to, byte))
    }

    pub(super) fn load_flash(&mut self, d: u8) -> Stepped
        ensures stepped { result ≡ (load_flash d self.old).stepped }
        ensures state { self.new ≡ (load_flash d self.old).state }
    {
        let at = self.pair(Z) as u32;
        if !self.has_flash(at) {
            return self.faulted(FaultKind::DataOut);
        }
        let byte = self.flash_byte(at);
        self.set_register(d, byte);
        self.pass(1);
        Stepped::Ran(flash_access(at, byte))
    }

    pub(super) fn load_flash_and_raise(&mut self, d: u8) -> Stepped
        ensures stepped { result ≡ (load_flash_and_raise d self.old).stepped }
        ensures state { self.new ≡ (load_flash_and_raise d self.old).state }
    {
        let (pointer, next) = post_increment(self.pair(Z));
        let at = pointer as u32;
        if !self.has_flash(at) {
            return self.faulted(FaultKind::DataOut);
        }
        let byte = self.flash_byte(at);
        self.set_register(d, byte);
        self.set_pair(Z, next);
        self.pass(1);
        Stepped::Ran(flash_access(at, byte))
    }

    /// Loads by RAMPZ:Z, where the core has RAMPZ.
    pub(super) fn load_far(&mut self, d: u8) -> Stepped
        ensures stepped { result ≡ (if_rampz (load_far d) self.old).stepped }
        ensures state { self.new ≡ (if_rampz (load_far d) self.old).state }
    {
        if !has_rampz(self.core) {
            return self.faulted(FaultKind::Unsupported);
        }
        let at = self.far_pointer();
        if !self.has_flash(at) {
            return self.faulted(FaultKind::DataOut);
        }
        let byte = self.flash_byte(at);
        self.set_register(d, byte);
        self.pass(1);
        Stepped::Ran(flash_access(at, byte))
    }

    /// The same, after which RAMPZ:Z is one more.
    pub(super) fn load_far_and_raise(&mut self, d: u8) -> Stepped
        ensures stepped { result ≡ (if_rampz (load_far_and_raise d) self.old).stepped }
        ensures state { self.new ≡ (if_rampz (load_far_and_raise d) self.old).state }
    {
        if !has_rampz(self.core) {
            return self.faulted(FaultKind::Unsupported);
        }
        let at = self.far_pointer();
        if !self.has_flash(at) {
            return self.faulted(FaultKind::DataOut);
        }
        let byte = self.flash_byte(at);
        self.set_register(d, byte);
        self.set_far_pointer((at + 1) % 16777216);
        self.pass(1);
        Stepped::Ran(flash_access(at, byte))
    }

    pub(super) fn push(&mut self, byte: u8) -> Stepped
        ensures stepped { result ≡ (push byte self.old).stepped }
        ensures state { self.new ≡ (push byte self.old).state }
    {
        let at = self.stack_pointer();
        if !self.is_sram(at) {
            return self.faulted(FaultKind::StackOut);
        }
        self.set_byte(at, byte);
        self.set_stack_pointer(lowered(at));
        self.pass(1);
        Stepped::Ran(Access::Stack)
    }

    pub(super) fn pop(&mut self, d: u8) -> Stepped
        ensures stepped { result ≡ (pop d self.old).stepped }
        ensures state { self.new ≡ (pop d self.old).state }
    {
        let at = raised(self.stack_pointer());
        if !self.is_sram(at) {
            return self.faulted(FaultKind::StackOut);
        }
        let byte = self.byte_at(at);
        self.set_register(d, byte);
        self.set_stack_pointer(at);
        self.pass(1);
        Stepped::Ran(Access::Stack)
    }

    /// Calls the word address `to`. `back` is the address to return to.
    pub(super) fn call(&mut self, to: u32, back: u32) -> Stepped
        ensures stepped { result ≡ (call to back self.old).stepped }
        ensures state { self.new ≡ (call to back self.old).state }
    {
        let first = self.stack_pointer();
        let second = lowered(first);
        if !(self.is_sram(first) && self.is_sram(second)) {
            return self.faulted(FaultKind::StackOut);
        }
        self.set_byte(first, (back % 256) as u8);
        self.set_byte(second, (back / 256 % 256) as u8);
        self.set_stack_pointer(lowered(second));
        self.set_pc(to);
        Stepped::Ran(Access::Stack)
    }

    pub(super) fn return_from_call(&mut self) -> Stepped
        ensures stepped { result ≡ (return_from_call self.old).stepped }
        ensures state { self.new ≡ (return_from_call self.old).state }
    {
        let first = raised(self.stack_pointer());
        let second = raised(first);
        if !(self.is_sram(first) && self.is_sram(second)) {
            return self.faulted(FaultKind::StackOut);
        }
        let to = return_address(self.byte_at(first), self.byte_at(second));
        self.set_stack_pointer(second);
        self.set_pc(to);
        Stepped::Ran(Access::Stack)
    }
}

fn load_access(core: Core, at: u16, byte: u8) -> Access
    ensures { result ≡ access_of_load core at byte }
{
    if is_core_register(core, at) {
        Access::Silent
    } else if at < 256 {
        Access::In {
            port: at as u8,
            byte,
        }
    } else {
        Access::Read {
            bank: Bank::Data,
            at: at as u32,
            byte,
        }
    }
}

fn store_access(core: Core, at: u16, byte: u8) -> Access
    ensures { result ≡ access_of_store core at byte }
{
    if is_core_register(core, at) {
        Access::Silent
    } else if at < 256 {
        Access::Out {
            port: at as u8,
            byte,
        }
    } else {
        Access::Write {
            at: at as u32,
            byte,
        }
    }
}

fn flash_access(at: u32, byte: u8) -> Access
    ensures { result ≡ Access.Read Bank.Flash at byte }
{
    Access::Read {
        bank: Bank::Flash,
        at,
        byte,
    }
}
