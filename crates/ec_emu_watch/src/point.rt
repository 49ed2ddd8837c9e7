//! Numbers in the data memory.
ghost use Rattle.std.specs.Prelude.{◌≡◌, ◌+◌, ◌≤◌, IfSome};
ghost use Rattle.ec_emu_watch.specs.Points.{IsWidth, value_at, writes_last};
ghost use Rattle.ec_emu_watch.specs.Sound.{IsWatchable};

use ec_avr::Access;
use ec_space::{Data, Mem, Place};

/// A number of an object, and where it stands.
#[derive(Clone, Copy, Debug, PartialEq, Eq)]
pub struct WatchPoint {
    /// The number of the object in its program.
    pub object: u16,
    /// The number of the leaf in the object.
    pub leaf: u32,
    /// Where the leaf begins.
    pub place: Place,
    /// Whether the number is signed, in two's complement.
    pub signed: bool,
    /// How many bytes the number has: 1, 2, 4 or 8.
    pub bytes: u8,
}

impl WatchPoint {
    /// The number that a memory holds there. None where a byte of it falls outside the data memory.
    pub fn value(&self, memory: &Mem) -> Option<i128>
        requires { IsWidth self.now.bytes }
        ensures value { result ≡ value_at self.now memory.now }
        ensures fits { IfSome result IsWatchable }
    {
        match (self.signed, self.bytes) {
            (true, 1) => memory.load::<Data, i8>(self.place).map(i128::from),
            (true, 2) => memory.load::<Data, i16>(self.place).map(i128::from),
            (true, 4) => memory.load::<Data, i32>(self.place).map(i128::from),
            (true, _) => memory.load::<Data, i64>(self.place).map(i128::from),
            (false, 1) => memory.load::<Data, u8>(self.place).map(i128::from),
            (false, 2) => memory.load::<Data, u16>(self.place).map(i128::from),
            (false, 4) => memory.load::<Data, u32>(self.place).map(i128::from),
            (false, _) => memory.load::<Data, u64>(self.place).map(i128::from),
        }
    }

    /// Whether an access writes the last byte of the number.
    pub fn is_written_by(&self, access: Access) -> bool
        requires width { IsWidth self.now.bytes }
        requires within { self.now.place.offset + self.now.bytes ≤ 65536 }
        ensures { result ≡ writes_last self.now access }
    {
        match access {
            Access::Write { at, .. } => u64::from(at) + 1
                == u64::from(self.place.offset) + u64::from(self.bytes),
            _ => false,
        }
    }
}
