//! Where the temporaries of a function stand, by the numbers of their places.
ghost use Rattle.std.specs.Prelude.{◌≡◌};
ghost use Rattle.ec_asm.specs.Pieces.{HasBytes};
ghost use Rattle.ec_select_bytes.specs.Homes.{home_of_place};

use ec_asm::Location;

/// Where a temporary of so many bytes at a place stands: in registers, from R25 down, where it has at most `width` bytes
/// and its place ends above R13, and else in scratch memory, an object by the numbers of [`ec_asm::AsmItem`], where each
/// place has 16 bytes.
pub fn home_of_place(width: u8, scratch: u16, place: u16, bytes: u8) -> Location
    ensures value { result ≡ home_of_place width scratch place bytes }
    ensures bytes { HasBytes result bytes }
{
    let depth = u32::from(width) * (u32::from(place) + 1);
    if bytes <= width && depth <= 12 {
        Location::InRegisters(26 - depth as u8)
    } else {
        Location::InMemory {
            object: scratch,
            offset: 16 * u32::from(place),
        }
    }
}
