//! What a program does, as an answer tells it.
use ec_core::Undefined;
use ec_space::{NoMemory, Seq, SpaceId};

/// Why there is no answer.
#[derive(Clone, Copy, Debug, PartialEq, Eq)]
pub enum Unanswered {
    /// Memory ran out, or a count passed 2^64 - 1, for which no more of it is set aside.
    NoMemory,
    /// The program does not keep the rules of types: a type has no layout, an operand does not suit its
    /// operator, or a port has more than 8 bytes.
    Unsuited,
}

impl From<NoMemory> for Unanswered {
    ghost use Rattle.std.specs.Prelude.{◌≡◌};
    ghost use Rattle.ec_interp.specs.declared.behaviour.Unanswered.TheVariants.{NoMemory as Full};

    ghost from_gives = { λ _ r. r ≡ Full };

    fn from(_: NoMemory) -> Unanswered {
        Unanswered::NoMemory
    }
}

/// The value of an access: of a pointer the object and the offset, and not which of the object's
/// instances it points into.
#[derive(Clone, Copy, Debug, PartialEq, Eq)]
pub enum Told {
    Number(i128),
    Null,
    Address { object: u16, offset: u32 },
}

/// What a run does that can be observed.
#[derive(Clone, Copy, Debug, PartialEq, Eq)]
pub enum Event {
    /// A byte is read from a port address.
    In {
        port: u32,
        byte: u8,
    },
    /// A byte is written to a port address.
    Out {
        port: u32,
        byte: u8,
    },
    /// A leaf of an object is read, through a place in a space.
    Read {
        object: u16,
        leaf: usize,
        space: SpaceId,
        value: Told,
    },
    /// A leaf of an object is written.
    Write {
        object: u16,
        leaf: usize,
        space: SpaceId,
        value: Told,
    },
}

/// How a run with a greatest number of turns comes out.
#[derive(Drop)]
pub enum Behaviour {
    /// `main` returned this number.
    Ended {
        events: Seq<Event>,
        result: i128,
    },
    /// A loop is out of turns.
    Running {
        events: Seq<Event>,
    },
    /// An undefined point was met, at the statement with this unit and first token: the innermost one under
    /// execution, and the body of a function whose end was reached without a result.
    MeetsUndefined {
        point: Undefined,
        unit: u8,
        at: u32,
        events: Seq<Event>,
    },
}

/// An answer.
#[derive(Drop)]
pub struct Run {
    pub behaviour: Behaviour,
    /// The bound on the machine's steps so far.
    pub work: u64,
}

/// The bytes that a port address gives, one after the other. Past their end it gives 0.
#[derive(Drop)]
pub struct PortInput {
    pub port: u8,
    pub bytes: Seq<u8>,
}
