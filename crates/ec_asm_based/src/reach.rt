//! Which bytes of objects are near a base.
ghost use Rattle.std.specs.Prelude.{◌≡◌, ◌≤◌};
ghost use Rattle.ec_asm_based.specs.Based.{distance_in, distance_of, is_reached, based_item};

use ec_asm::AsmItem;
use ec_isa::Instr;

/// Where an object stands in data memory: the address of its first byte, and its bytes. An object that is not to be
/// reached by Y has none.
#[derive(Clone, Copy)]
pub struct Reach {
    pub first: u16,
    pub bytes: u16,
}

/// The greatest displacement of LDD and STD, and one more.
const DISPLACEMENTS: u32 = 64;

/// The distance from a base to a byte of an object, where it is one of its bytes and less than 64 bytes away.
fn distance_in(base: u32, offset: u32, reach: Reach) -> Option<u8>
    requires { base ≤ 65536 }
    ensures { result ≡ distance_in base offset reach }
{
    if offset < u32::from(reach.bytes) {
        let at = u32::from(reach.first) + offset;
        if base <= at && at < base + DISPLACEMENTS {
            return Some((at - base) as u8);
        }
    }
    None
}

/// So of an object by its number.
fn distance_of(reaches: &[Reach], base: u32, object: u16, offset: u32) -> Option<u8>
    requires { base ≤ 65536 }
    ensures { result ≡ distance_of reaches.now base object offset }
{
    match reaches.get(usize::from(object)) {
        Some(reach) => distance_in(base, offset, *reach),
        None => None,
    }
}

/// Whether an item is a load or a store of a byte that is near the base.
pub(crate) fn is_reached(reaches: &[Reach], base: u32, item: AsmItem) -> bool
    requires { base ≤ 65536 }
    ensures { result ≡ is_reached reaches.now base item }
{
    match item {
        AsmItem::LoadObj { object, offset, .. } | AsmItem::StoreObj { object, offset, .. } => {
            distance_of(reaches, base, object, offset).is_some()
        }
        _ => false,
    }
}

/// An item, by Y where it loads or stores a byte that is near the base.
pub(crate) fn based_item(reaches: &[Reach], base: u32, item: AsmItem) -> AsmItem
    requires { base ≤ 65536 }
    ensures { result ≡ based_item reaches.now base item }
{
    match item {
        AsmItem::LoadObj { d, object, offset } => {
            match distance_of(reaches, base, object, offset) {
                Some(q) => AsmItem::Plain(Instr::LddY { d, q }),
                None => item,
            }
        }
        AsmItem::StoreObj { object, offset, r } => {
            match distance_of(reaches, base, object, offset) {
                Some(q) => AsmItem::Plain(Instr::StdY { q, r }),
                None => item,
            }
        }
        _ => item,
    }
}
