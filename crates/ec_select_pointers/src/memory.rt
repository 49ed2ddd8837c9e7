//! Items for one byte of memory.
ghost use Rattle.std.specs.Prelude.{◌≡◌, ◌+◌, ◌<◌, ◌^◌};

use ec_asm::AsmItem;

/// A load of a register from byte `i` after an offset.
pub fn load(d: u8, object: u16, offset: u32, i: u8) -> AsmItem
    requires { offset + i < 2 ^ 32 }
    ensures { result ≡ AsmItem.LoadObj d object (offset + i) }
{
    AsmItem::LoadObj {
        d,
        object,
        offset: offset + u32::from(i),
    }
}

/// A store of a register to byte `i` after an offset.
pub fn store(object: u16, offset: u32, i: u8, r: u8) -> AsmItem
    requires { offset + i < 2 ^ 32 }
    ensures { result ≡ AsmItem.StoreObj object (offset + i) r }
{
    AsmItem::StoreObj {
        object,
        offset: offset + u32::from(i),
        r,
    }
}
