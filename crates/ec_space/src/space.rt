//! Named address spaces, banks and the places in them (ISO/IEC TR 18037:2008, chapter 5).
ghost use Rattle.std.specs.Prelude.{◌≡◌, ◌⊎◌, ◌↔◌, IsTrue, MatchOption};
ghost use Rattle.ec_space.specs.Spaces.{end_in as end_in_of, encloses as encloses_of};

/// A memory of the core with addresses of its own.
#[derive(Clone, Copy, Debug, PartialEq, Eq)]
pub enum Bank {
    /// The program memory.
    Flash,
    /// The data memory: registers, ports and SRAM.
    Data,
}

/// What an object is kept in by its declaration: the flash that short pointers reach, all of the flash, or the data
/// memory.
#[derive(Clone, Copy, Debug, PartialEq, Eq)]
pub enum Home {
    Flash,
    Far,
    Data,
}

impl Home {
    ghost use Rattle.ec_space.specs.Spaces.{bank_of};

    /// The bank that the objects of the home stand in.
    pub fn bank(self) -> Bank
        ensures { result ≡ bank_of self }
    {
        match self {
            Home::Flash | Home::Far => Bank::Flash,
            Home::Data => Bank::Data,
        }
    }
}

/// A byte of a bank.
#[derive(Clone, Copy, Debug, PartialEq, Eq)]
pub struct Place {
    pub bank: Bank,
    /// The byte's address in the bank.
    pub offset: u32,
}

/// The value of a pointer.
#[derive(Clone, Copy, Debug, PartialEq, Eq)]
pub enum Pointer {
    Null,
    At(Place),
}

/// A named address space of the language: a set of homes.
#[derive(Clone, Copy, Debug, PartialEq, Eq)]
pub enum SpaceId {
    /// `__flash`, the home flash.
    Flash,
    /// `__farflash`, the homes flash and far.
    FarFlash,
    /// `__data`, the home data.
    Data,
    /// The unnamed space, all homes.
    Generic,
}

impl SpaceId {
    ghost use Rattle.ec_space.specs.Spaces.{holds, reaches, Encloses, encloses, join, IsJoin};

    /// Whether the space holds a home.
    pub fn holds(self, home: Home) -> bool
        ensures { result ≡ holds self home }
    {
        match self {
            SpaceId::Flash => home == Home::Flash,
            SpaceId::FarFlash => home != Home::Data,
            SpaceId::Data => home == Home::Data,
            SpaceId::Generic => true,
        }
    }

    /// Whether objects of the space can stand in a bank.
    pub fn reaches(self, bank: Bank) -> bool
        ensures { result ≡ reaches self bank }
    {
        match self {
            SpaceId::Flash | SpaceId::FarFlash => bank == Bank::Flash,
            SpaceId::Data => bank == Bank::Data,
            SpaceId::Generic => true,
        }
    }

    /// Whether each home of the inner space is one of this space.
    pub fn encloses(self, inner: SpaceId) -> bool
        ensures value { result ≡ encloses self inner }
        ensures inclusion { IsTrue result ↔ Encloses self inner }
    {
        has_all(self, inner)
    }

    /// The one of the two spaces that encloses the other, or None where neither does.
    pub fn join(self, other: SpaceId) -> Option<SpaceId>
        ensures value { result ≡ join self other }
        ensures exact { MatchOption result (¬ Encloses self other × ¬ Encloses other self) (IsJoin self other) }
    {
        if self.encloses(other) {
            Some(self)
        } else if other.encloses(self) {
            Some(other)
        } else {
            None
        }
    }
}

/// Whether each home of the inner space is one of the outer.
fn has_all(outer: SpaceId, inner: SpaceId) -> bool
    ensures { result ≡ encloses_of outer inner }
{
    match outer {
        SpaceId::Flash => inner == SpaceId::Flash,
        SpaceId::FarFlash => inner == SpaceId::Flash || inner == SpaceId::FarFlash,
        SpaceId::Data => inner == SpaceId::Data,
        SpaceId::Generic => true,
    }
}

impl Pointer {
    ghost use Rattle.ec_space.specs.Spaces.{IsPointerOf, is_pointer_of};

    /// Whether a space has bytes for the pointer: it is null, or its place is at an offset from 1 up to what the space's
    /// bytes can tell in its bank.
    pub fn is_in(self, space: SpaceId) -> bool
        ensures value { result ≡ is_pointer_of space self }
        ensures fact { IsTrue result ↔ IsPointerOf space self }
    {
        match self {
            Pointer::Null => true,
            Pointer::At(place) => { 0 < place.offset && place.offset < end_in(space, place.bank) }
        }
    }
}

/// One past the greatest offset that pointers of a space can tell in a bank, 0 where they tell none.
fn end_in(space: SpaceId, bank: Bank) -> u32
    ensures { result ≡ end_in_of space bank }
{
    match (space, bank) {
        (SpaceId::Flash, Bank::Flash) => 0x1_0000,
        (SpaceId::FarFlash | SpaceId::Generic, Bank::Flash) => 0x2_0000,
        (SpaceId::Data | SpaceId::Generic, Bank::Data) => 0x1_0000,
        _ => 0,
    }
}
