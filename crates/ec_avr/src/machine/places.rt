//! The places of the machine: bytes, registers, pointers, flags and words of flash.
use super::Machine;
use ec_isa::is_past_ports;
use ec_space::Bank;

/// The lower register of the pointer X.
pub(super) const X: u8 = 26;

/// The lower register of the pointer Y.
pub(super) const Y: u8 = 28;

/// The lower register of the pointer Z.
pub(super) const Z: u8 = 30;

/// The data address of SPL, which SPH follows.
pub(super) const SP: u8 = 0x5D;

/// The data address of RAMPZ.
pub(super) const RAMPZ: u8 = 0x5B;

/// The data address of SREG.
pub(super) const SREG: u8 = 0x5F;

impl Machine {
    ghost use Rattle.std.specs.Prelude.{◌≡◌, ◌+◌, ◌%◌, ◌<◌, ◌≤◌, nat_lt, length, slice_index};
    ghost use Rattle.ec_avr.specs.State.{byte_at, with_byte, register, with_register, pair, with_pair, stack_pointer};
    ghost use Rattle.ec_avr.specs.State.{with_stack_pointer, sreg, with_sreg, flag, is_sram, is_in_flash, word_at};
    ghost use Rattle.ec_avr.specs.State.{with_pc, passed, far_pointer, with_far_pointer};

    /// The byte at a data address below 0x0100.
    pub(super) fn low_byte(&self, at: u8) -> u8
        ensures { result ≡ byte_at self.now at }
    {
        self.memory.window(Bank::Data, at as u32, 1)[0]
    }

    pub(super) fn set_low_byte(&mut self, at: u8, byte: u8)
        ensures { self.new ≡ with_byte self.old at byte }
    {
        self.memory.window_mut(Bank::Data, at as u32, 1)[0] = byte;
    }

    /// The byte at a data address.
    pub(super) fn byte_at(&self, at: u16) -> u8
        requires { at < length self.now.mem.data }
        ensures { result ≡ byte_at self.now at }
    {
        self.memory.window(Bank::Data, at as u32, 1)[0]
    }

    pub(super) fn set_byte(&mut self, at: u16, byte: u8)
        requires { at < length self.old.mem.data }
        ensures { self.new ≡ with_byte self.old at byte }
    {
        self.memory.window_mut(Bank::Data, at as u32, 1)[0] = byte;
    }

    /// Whether the core has the data address.
    pub(super) fn has_data(&self, at: u16) -> bool
        ensures { result ≡ nat_lt at (length self.now.mem.data) }
    {
        (at as u32) < self.core.data_size()
    }

    pub(super) fn is_sram(&self, at: u16) -> bool
        ensures { result ≡ is_sram self.now at }
    {
        is_past_ports(at) && self.has_data(at)
    }

    /// Whether the core has the flash address.
    pub(super) fn has_flash(&self, at: u32) -> bool
        ensures { result ≡ nat_lt at (length self.now.mem.flash) }
    {
        at < self.core.flash_size()
    }

    /// The byte of flash at an address, 0 past the flash.
    pub(super) fn flash_byte(&self, at: u32) -> u8
        ensures { result ≡ slice_index self.now.mem.flash at }
    {
        if self.has_flash(at) {
            self.memory.window(Bank::Flash, at, 1)[0]
        } else {
            0
        }
    }

    /// Whether the word of flash at a word address lies in flash.
    pub(super) fn is_in_flash(&self, at: u32) -> bool
        requires { at ≤ 0x1_0000 }
        ensures { result ≡ is_in_flash self.now at }
    {
        self.has_flash(2 * at + 1)
    }

    /// The word of flash at a word address.
    pub(super) fn word_at(&self, at: u32) -> u16
        requires { at ≤ 0x1_0001 }
        ensures { result ≡ word_at self.now at }
    {
        self.flash_byte(2 * at) as u16 + 256 * self.flash_byte(2 * at + 1) as u16
    }

    pub(super) fn register(&self, d: u8) -> u8
        ensures { result ≡ register self.now d }
    {
        self.low_byte(d)
    }

    pub(super) fn set_register(&mut self, d: u8, byte: u8)
        ensures { self.new ≡ with_register self.old d byte }
    {
        self.set_low_byte(d, byte);
    }

    /// The number in two neighbouring bytes, the low one first.
    pub(super) fn pair(&self, at: u8) -> u16
        requires { at < 255 }
        ensures { result ≡ pair self.now at }
    {
        self.low_byte(at) as u16 + 256 * self.low_byte(at + 1) as u16
    }

    pub(super) fn set_pair(&mut self, at: u8, n: u16)
        requires { at < 255 }
        ensures { self.new ≡ with_pair self.old at n }
    {
        self.set_low_byte(at, (n % 256) as u8);
        self.set_low_byte(at + 1, (n / 256) as u8);
    }

    /// The address at a displacement from a pointer.
    pub(super) fn displaced(&self, pointer: u8, q: u8) -> u16
        requires { pointer < 255 }
        ensures { result ≡ (pair self.now pointer + q) % 65536 }
    {
        self.pair(pointer).wrapping_add(q as u16)
    }

    /// The number in RAMPZ:Z.
    pub(super) fn far_pointer(&self) -> u32
        ensures { result ≡ far_pointer self.now }
    {
        65536 * self.low_byte(RAMPZ) as u32 + self.pair(Z) as u32
    }

    pub(super) fn set_far_pointer(&mut self, n: u32)
        requires { n < 16777216 }
        ensures { self.new ≡ with_far_pointer self.old n }
    {
        self.set_pair(Z, (n % 65536) as u16);
        self.set_low_byte(RAMPZ, (n / 65536) as u8);
    }

    pub(super) fn stack_pointer(&self) -> u16
        ensures { result ≡ stack_pointer self.now }
    {
        self.pair(SP)
    }

    pub(super) fn set_stack_pointer(&mut self, n: u16)
        ensures { self.new ≡ with_stack_pointer self.old n }
    {
        self.set_pair(SP, n);
    }

    pub(super) fn sreg(&self) -> u8
        ensures { result ≡ sreg self.now }
    {
        self.low_byte(SREG)
    }

    pub(super) fn set_sreg(&mut self, byte: u8)
        ensures { self.new ≡ with_sreg self.old byte }
    {
        self.set_low_byte(SREG, byte);
    }

    /// A flag of SREG by its bit: 0 or 1.
    pub(super) fn flag(&self, number: u8) -> u8
        requires { number < 8 }
        ensures { result ≡ flag self.now number }
    {
        self.sreg() >> number & 1
    }

    pub(super) fn set_pc(&mut self, to: u32)
        ensures { self.new ≡ with_pc self.old to }
    {
        self.pc = (to % 65536) as u16;
    }

    /// Lets the program counter go on by so many words.
    pub(super) fn pass(&mut self, words: u8)
        ensures { self.new ≡ passed self.old words }
    {
        self.set_pc(self.pc as u32 + words as u32);
    }
}
