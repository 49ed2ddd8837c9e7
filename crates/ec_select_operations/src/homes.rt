//! Where the temporaries of a function stand.
ghost use Rattle.std.specs.Prelude.{◌≡◌, option_map};
ghost use Rattle.ec_asm.specs.Pieces.{HasBytes};
ghost use Rattle.ec_select_operations.specs.Emitted.{HasIndexByte, IndexHasByte};
ghost use Rattle.ec_select_operations.specs.Homes.{home};

use ec_asm::Location;
use ec_ir::Temp;
use ec_select_bytes::home_of_place;

/// The homes of a function's temporaries. The first places stand in registers, from R25 down, where a temporary has at
/// most `width` bytes; all others stand in scratch memory.
#[derive(Clone, Copy)]
pub struct Homes {
    /// The bytes of a place in registers, from 1 to 12: 2 where no temporary has more, else 4.
    pub width: u8,
    /// The object that is the function's scratch memory, by the numbers of [`ec_asm::AsmItem`].
    pub scratch: u16,
}

/// The home of a temporary.
pub fn home(homes: Homes, t: Temp) -> Location
    ensures value { result ≡ home homes t }
    ensures bytes { HasBytes result t.bytes }
{
    home_of_place(homes.width, homes.scratch, t.at, t.bytes)
}

/// Where the index of a port stands, if there is one.
pub fn index_place(homes: Homes, index: Option<Temp>) -> Option<Location>
    requires { IndexHasByte index }
    ensures value { result ≡ option_map (home homes) index }
    ensures byte { HasIndexByte result }
{
    match index {
        None => None,
        Some(t) => Some(home(homes, t)),
    }
}
