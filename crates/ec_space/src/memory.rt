//! The memory of a core.
ghost use Rattle.std.specs.Prelude.{◌≡◌, ◌+◌, ◌≤◌, ◌↔◌, IsTrue, IfOk, IfSome, length, slice_range};
ghost use Rattle.std.specs.Bool.{OnTrue, OnFalse};
ghost use Rattle.std.specs.Borrow.{sem};
ghost use Rattle.std.specs.Option.{SomeIff};
ghost use Rattle.ec_space.specs.Memory.{IsFilled};

use crate::Core;
use crate::cell::Cell;
use crate::seq::NoMemory;
use crate::space::{Bank, Place};
use crate::spaces::Space;
use std::alloc::Global;
use std::marker::Model;

/// The bytes of a core's two banks.
///
/// Contracts see it as two lists, `flash` and `data`.
#[derive(Drop)]
pub struct Mem {
    flash_bytes: Vec<u8>,
    data_bytes: Vec<u8>,
}

impl Model for Mem {
    ghost use Rattle.ec_space.specs.Memory.{Memory};

    ghost Value = { Memory };

    ghost view = { λ m. record { flash = m.flash_bytes.items; «data» = m.data_bytes.items } };
}

impl Core {
    ghost use Rattle.ec_space.specs.Memory.{flash_size, data_size};

    /// How many bytes of flash the core has.
    pub fn flash_size(self) -> u32
        ensures { result ≡ flash_size self }
    {
        match self {
            Core::Small => 32_768,
            Core::Large => 131_072,
        }
    }

    /// How many data addresses the core has, from 0 on: registers, ports and SRAM.
    pub fn data_size(self) -> u32
        ensures { result ≡ data_size self }
    {
        match self {
            Core::Small => 2_304,
            Core::Large => 16_640,
        }
    }
}

fn filled(alloc: Global, n: u32, x: u8) -> Result<Vec<u8>, NoMemory>
    ensures { IfOk result (λ bytes. IsFilled n x bytes.items) }
{
    match vec![in alloc; x; n as usize] {
        Ok(bytes) => Ok(bytes),
        Err(_) => Err(NoMemory),
    }
}

impl Mem {
    ghost use Rattle.ec_space.specs.Lending.{LendsWindow};
    ghost use Rattle.ec_space.specs.Memory.{Memory, flash_size, data_size, IsFilled, bank_bytes, HasCell, number_at};
    ghost use Rattle.ec_space.specs.Memory.{with_number_at, SameSizes, SameOutside};

    /// The memory of a core, with flash all 0xFF and data bytes all 0.
    pub fn new(alloc: Global, core: Core) -> Result<Mem, NoMemory>
        ensures flash { IfOk result (λ m. IsFilled (flash_size core) 0xFF m.flash) }
        ensures data { IfOk result (λ m. IsFilled (data_size core) 0 m.data) }
    {
        Ok(Mem {
            flash_bytes: filled(alloc, core.flash_size(), 0xFF)?,
            data_bytes: filled(alloc, core.data_size(), 0)?,
        })
    }

    /// The value at a place, read through a space. None where the bank is not in the space, or a byte of the value
    /// falls outside the bank.
    pub fn load<S: Space, T: Cell>(&self, at: Place) -> Option<T>
        ensures value { SomeIff result (HasCell S.space self.now at T.SIZE)
            (T.of_bits (number_at self.now at T.SIZE)) }
        ensures fits { IfSome result T.fits }
    {
        if !S::id().reaches(at.bank) {
            return None;
        }
        let from = at.offset as usize;
        let size = T::SIZE as usize;
        let cell = self.bank(at.bank).get(from..from + size)?;
        let mut bytes = [0; 8];
        bytes[..size].copy_from_slice(cell);
        Some(T::from_bytes(bytes))
    }

    /// Writes a value at a place, through a space. False, with nothing changed, where the bank is flash or is not in
    /// the space, or a byte of the value falls outside the bank.
    pub fn store<S: Space, T: Cell>(&mut self, at: Place, v: T) -> bool
        ensures stored { IsTrue result ↔ (HasCell S.space self.old at T.SIZE × (at.bank ≡ Bank.Data)) }
        ensures written { OnTrue result (self.new ≡ with_number_at self.old at T.SIZE (T.bits v)) }

        // A load of the same type from the same place then gives the value, and every other byte stays.
        ensures loads_back { OnTrue result (HasCell S.space self.new at T.SIZE
            × (T.of_bits (number_at self.new at T.SIZE) ≡ v)) }
        ensures others { OnTrue result (SameOutside self.old self.new at T.SIZE) }
        ensures unchanged { OnFalse result (self.new ≡ self.old) }
        ensures sizes { SameSizes self.old self.new }
    {
        let bytes = v.to_bytes();
        let from = at.offset as usize;
        let size = T::SIZE as usize;
        if at.bank == Bank::Flash
            || !S::id().reaches(at.bank)
            || self.data_bytes.len() < from + size
        {
            return false;
        }
        self.data_bytes[from..from + size].copy_from_slice(&bytes[..size]);
        true
    }

    /// The bytes of a bank.
    fn bank(&self, bank: Bank) -> &[u8]
        ensures { result.now ≡ bank_bytes self.now bank }
    {
        match bank {
            Bank::Flash => self.flash_bytes.as_slice(),
            Bank::Data => self.data_bytes.as_slice(),
        }
    }

    /// The `len` bytes of a bank from an offset on.
    pub fn window(&self, bank: Bank, from: u32, len: u32) -> &[u8]
        requires { from + len ≤ length (bank_bytes self.now bank) }
        ensures value { result.now ≡ slice_range (bank_bytes self.now bank) from (from + len) }
        ensures len { length result.now ≡ len }
    {
        let from = from as usize;
        &self.bank(bank)[from..from + len as usize]
    }

    /// The same bytes, to be written.
    pub fn window_mut(&mut self, bank: Bank, from: u32, len: u32) -> &mut [u8]
        requires { from + len ≤ length (bank_bytes self.old bank) }
        ensures* writes_back { sem 𝓛 (LendsWindow self.entry bank from result) }
        ensures value { result.now ≡ slice_range (bank_bytes self.old bank) from (from + len) }
        ensures len { length result.now ≡ len }
    {
        let from = from as usize;
        let end = from + len as usize;
        match bank {
            Bank::Flash => self.flash_bytes.slice_mut(from..end),
            Bank::Data => self.data_bytes.slice_mut(from..end),
        }
    }
}
