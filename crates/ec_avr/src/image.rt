//! The contents of a flash.
ghost use Rattle.std.specs.Prelude.{◌≡◌, ◌<◌, length, true, false, replicate, IfOk, slice_set};
ghost use Rattle.ec_avr.specs.Flash.{flash_size, IsBlankElsewhere};

use ec_space::{Core, NoMemory, Seq};
use std::alloc::Global;

/// The bytes of a flash and which of them are written. A byte that is not written is 0xFF, as an erased flash has it.
#[derive(Drop)]
pub struct Image {
    pub core: Core,
    pub bytes: Seq<u8>,
    pub written: Seq<bool>,
    ghost sized: { length bytes.items ≡ flash_size core },
    ghost flagged: { length written.items ≡ flash_size core },
    ghost blank: { IsBlankElsewhere bytes.items written.items },
}

impl Image {
    /// An image with nothing written.
    pub fn new(alloc: Global, core: Core) -> Result<Image, NoMemory>
        ensures core { IfOk result (λ i. i.core ≡ core) }
        ensures bytes { IfOk result (λ i. i.bytes.items ≡ replicate (flash_size core) 255) }
        ensures written { IfOk result (λ i. i.written.items ≡ replicate (flash_size core) false) }
    {
        let size = core.flash_size() as usize;
        Ok(Image {
            core,
            bytes: Seq::filled(alloc, size, 0xFF)?,
            written: Seq::filled(alloc, size, false)?,
        })
    }

    /// Writes the byte at `at`.
    pub fn write(&mut self, at: usize, byte: u8)
        requires { at < flash_size self.old.core }
        ensures core { self.new.core ≡ self.old.core }
        ensures bytes { self.new.bytes.items ≡ slice_set self.old.bytes.items at byte }
        ensures written { self.new.written.items ≡ slice_set self.old.written.items at true }
    {
        self.written.put(at, true);
        self.bytes.put(at, byte);
    }
}
