//! The bytes of pointers in each named address space.
ghost use Rattle.std.specs.Prelude.{◌≡◌, ℕ, ◌+◌, ◌-◌, ◌*◌, ◌<◌, ◌↔◌, List, length, drop, replicate, refl, Some, MatchOption};
ghost use Rattle.ec_space.specs.Bytes.{AreBytes};
ghost use Rattle.ec_space.specs.Spaces.{Encloses, IsPointerOf, Denotes, width, encoded, pointer_in, pointer_of};
ghost use Rattle.ec_space.specs.Spaces.{denoted, converted, embedded};
ghost use Rattle.ec_space.specs.SpaceLaws.{denoted-encoded, converted-embedded, IsPointerOf-Encloses, flash_is_far};
ghost use Rattle.ec_space.specs.declared.space.Pointer.{Pointer};
ghost use Rattle.ec_space.specs.declared.space.SpaceId.{SpaceId};

use crate::space::{Bank, Place, Pointer, SpaceId};

/// Bytes that denote nothing in any space.
const NOTHING: [u8; 3] = [0, 0, 0xFF];

/// A named address space, with the bytes of its pointers.
///
/// Three bytes denote null, a place, or nothing. All zero bytes denote null. In `__flash` and `__data` the first two
/// bytes are the offset, the lowest first. In `__farflash` a third byte, 0 or 1, is the offset's highest. So it is in
/// a generic pointer to flash, and one to data has the third byte 0x80.
pub trait Space {
    /// How many of the three bytes a pointer takes. Those past it are 0.
    const WIDTH: u8;

    ghost WIDTH: { ℕ };

    ghost space: { SpaceId };

    /// The space's name.
    fn id() -> SpaceId
        ensures { result ≡ space };

    /// The bytes that denote null or a place that they can tell. `Pointer::is_in` is the test.
    fn encode(p: Pointer) -> [u8; 3]
        requires { IsPointerOf space p }
        ensures value { result ≡ encoded space p }
        ensures denotes { Denotes space result p }
        ensures past_width { drop WIDTH result ≡ replicate (3 - WIDTH) 0 };

    /// The pointer that the bytes denote, or None where they denote nothing.
    fn denote(b: [u8; 3]) -> Option<Pointer>
        ensures value { result ≡ denoted space b }
        ensures exact { MatchOption result ((p : Pointer) → ¬ Denotes space b p) (Denotes space b) };

    ghost width_of_space: { WIDTH ≡ width space };

    // What `denote` makes of what `encode` gives.
    ghost reads_back: { (p : Pointer) → IsPointerOf space p → denoted space (encoded space p) ≡ Some p };
}

/// A space that an outer one encloses: its pointers have bytes in both.
pub trait Within<Outer: Space>: Space {
    /// The bytes in the outer space of what the bytes denote in this one, null included. They denote nothing there
    /// where the bytes denote nothing here.
    fn embed(b: [u8; 3]) -> [u8; 3]
        ensures value { result ≡ embedded Self.space Outer.space b }
        ensures keeps { (p : Pointer) → (Denotes Self.space b p) ↔ (Denotes Outer.space result p) }
    {
        match Self::denote(b) {
            Some(p) => Outer::encode(p),
            None => NOTHING,
        }
    }

    /// The bytes in this space of what the bytes denote in the outer one. None where they denote nothing there, or a
    /// place that is not in this space.
    fn project(b: [u8; 3]) -> Option<[u8; 3]>
        ensures value { result ≡ converted Outer.space Self.space b }
        ensures exact { MatchOption result
            ((p : Pointer) → Denotes Outer.space b p → ¬ IsPointerOf Self.space p)
            (λ new. (p : Pointer) × Denotes Outer.space b p × Denotes Self.space new p) }
    {
        let p = Outer::denote(b)?;
        if p.is_in(Self::id()) {
            Some(Self::encode(p))
        } else {
            None
        }
    }

    ghost enclosed: { Encloses Outer.space Self.space };

    // A pointer of this space is one of the outer one.
    ghost points: { (p : Pointer) → IsPointerOf Self.space p → IsPointerOf Outer.space p };

    // What `project` makes of what `embed` gives.
    ghost projects_back: { (b : List ℕ) (p : Pointer) → length b ≡ 3 → AreBytes b → Denotes Self.space b p
        → converted Outer.space Self.space (embedded Self.space Outer.space b) ≡ Some b };
}

/// The space `__flash`.
pub struct Flash;

/// The space `__farflash`.
pub struct FarFlash;

/// The space `__data`.
pub struct Data;

/// The unnamed space.
pub struct Generic;

/// The bytes of a pointer's offset, all zero for null.
fn offset_bytes(p: Pointer) -> [u8; 3]
    ensures { result ≡ encoded SpaceId.FarFlash p }
{
    match p {
        Pointer::Null => [0; 3],
        Pointer::At(place) => [
            (place.offset % 256) as u8,
            (place.offset / 256 % 256) as u8,
            (place.offset / 256 / 256 % 256) as u8,
        ],
    }
}

/// The pointer into a bank at an offset, null at 0.
fn pointer_in(bank: Bank, offset: u32) -> Pointer
    ensures { (end : ℕ) → offset < end → Some result ≡ pointer_in bank end offset }
{
    match offset {
        0 => Pointer::Null,
        offset => Pointer::At(Place { bank, offset }),
    }
}

/// The offset of two bytes, the low one first.
fn offset_of(low: u8, high: u8) -> u32
    ensures { result ≡ low + 256 * high }
{
    low as u32 + 256 * high as u32
}

impl Space for Flash {
    const WIDTH: u8 = 2;

    ghost WIDTH = { 2 };

    ghost space = { SpaceId.Flash };

    ghost width_of_space = { refl };

    ghost reads_back = { denoted-encoded SpaceId.Flash };

    fn id() -> SpaceId {
        SpaceId::Flash
    }

    fn encode(p: Pointer) -> [u8; 3] {
        offset_bytes(p)
    }

    fn denote(b: [u8; 3]) -> Option<Pointer> {
        match b {
            [low, high, 0] => Some(pointer_in(Bank::Flash, offset_of(low, high))),
            _ => None,
        }
    }
}

impl Space for FarFlash {
    const WIDTH: u8 = 3;

    ghost WIDTH = { 3 };

    ghost space = { SpaceId.FarFlash };

    ghost width_of_space = { refl };

    ghost reads_back = { denoted-encoded SpaceId.FarFlash };

    fn id() -> SpaceId {
        SpaceId::FarFlash
    }

    fn encode(p: Pointer) -> [u8; 3] {
        offset_bytes(p)
    }

    fn denote(b: [u8; 3]) -> Option<Pointer> {
        match b {
            [low, high, 0] => Some(pointer_in(Bank::Flash, offset_of(low, high))),
            [low, high, 1] => Some(pointer_in(Bank::Flash, 65_536 + offset_of(low, high))),
            _ => None,
        }
    }
}

impl Space for Data {
    const WIDTH: u8 = 2;

    ghost WIDTH = { 2 };

    ghost space = { SpaceId.Data };

    ghost width_of_space = { refl };

    ghost reads_back = { denoted-encoded SpaceId.Data };

    fn id() -> SpaceId {
        SpaceId::Data
    }

    fn encode(p: Pointer) -> [u8; 3] {
        offset_bytes(p)
    }

    fn denote(b: [u8; 3]) -> Option<Pointer> {
        match b {
            [low, high, 0] => Some(pointer_in(Bank::Data, offset_of(low, high))),
            _ => None,
        }
    }
}

impl Space for Generic {
    const WIDTH: u8 = 3;

    ghost WIDTH = { 3 };

    ghost space = { SpaceId.Generic };

    ghost width_of_space = { refl };

    ghost reads_back = { denoted-encoded SpaceId.Generic };

    fn id() -> SpaceId {
        SpaceId::Generic
    }

    fn encode(p: Pointer) -> [u8; 3] {
        let [low, high, page] = offset_bytes(p);
        match p {
            Pointer::At(place) if place.bank == Bank::Data => [low, high, 0x80],
            _ => [low, high, page],
        }
    }

    fn denote(b: [u8; 3]) -> Option<Pointer> {
        match b {
            [0, 0, 0x80] => None,
            [low, high, 0x00] => Some(pointer_in(Bank::Flash, offset_of(low, high))),
            [low, high, 0x01] => Some(pointer_in(Bank::Flash, 65_536 + offset_of(low, high))),
            [low, high, 0x80] => Some(pointer_in(Bank::Data, offset_of(low, high))),
            _ => None,
        }
    }
}

impl Within<FarFlash> for Flash {
    ghost enclosed = { flash_is_far };

    ghost points = { λ p. IsPointerOf-Encloses SpaceId.FarFlash SpaceId.Flash p flash_is_far };

    ghost projects_back = { converted-embedded SpaceId.Flash SpaceId.FarFlash flash_is_far };
}

impl Within<Generic> for Flash {
    ghost enclosed = { λ home h. refl };

    ghost points = { λ p. IsPointerOf-Encloses SpaceId.Generic SpaceId.Flash p (λ home h. refl) };

    ghost projects_back = { converted-embedded SpaceId.Flash SpaceId.Generic (λ home h. refl) };
}

impl Within<Generic> for FarFlash {
    ghost enclosed = { λ home h. refl };

    ghost points = { λ p. IsPointerOf-Encloses SpaceId.Generic SpaceId.FarFlash p (λ home h. refl) };

    ghost projects_back = { converted-embedded SpaceId.FarFlash SpaceId.Generic (λ home h. refl) };
}

impl Within<Generic> for Data {
    ghost enclosed = { λ bank h. refl };

    ghost points = { λ p. IsPointerOf-Encloses SpaceId.Generic SpaceId.Data p (λ bank h. refl) };

    ghost projects_back = { converted-embedded SpaceId.Data SpaceId.Generic (λ bank h. refl) };
}

impl<S: Space> Within<S> for S {
    ghost enclosed = { λ bank h. h };

    ghost points = { λ p h. h };

    ghost projects_back = { converted-embedded S.space S.space (λ bank h. h) };
}
