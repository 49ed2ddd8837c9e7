//! Places of a source.
ghost use Rattle.std.specs.Prelude.{◌≡◌};
ghost use Rattle.ec_where.specs.Located.{place_of};

use ec_where_lines::Fault;

/// A place of a source.
#[derive(Clone, Copy)]
pub enum Place {
    /// The byte at this offset.
    Byte(u32),
    /// The token of this index, counted from 0.
    Token(u32),
}

/// Where a fault stands.
pub fn place_of(fault: Fault) -> Place
    ensures { result ≡ place_of fault }
{
    match fault {
        Fault::Byte(offset, _) => Place::Byte(offset),
        Fault::Token(index, _) => Place::Token(index),
    }
}
