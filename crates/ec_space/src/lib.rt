//! Lists, names, address spaces and the memory of a core.
#![tactic(auto)]

mod cell;
mod impls;
mod memory;
mod seq;
mod space;
mod spaces;

pub use cell::Cell;
pub use memory::Mem;
pub use seq::{Name, NoMemory, Seq, push};
pub use space::{Bank, Home, Place, Pointer, SpaceId};
pub use spaces::{Data, FarFlash, Flash, Generic, Space, Within};

/// A core that code is made for.
#[derive(Clone, Copy, Debug, PartialEq, Eq)]
pub enum Core {
    /// 32,768 bytes of flash and 2,048 bytes of SRAM, as the ATmega328P has them.
    Small,
    /// 131,072 bytes of flash and 16,384 bytes of SRAM, as the ATmega1284P has them.
    Large,
}
