//! The values of pointers and of leaves.
ghost use Rattle.std.specs.Prelude.{◌≡◌, slice_get};
ghost use Rattle.std.specs.Option.{option_copied};
ghost use Rattle.ec_locate.specs.Pointers.{pointer_to};

use ec_space::{Bank, Place, SpaceId};

/// The number that the bytes of a pointer of a space make, the lowest byte first (ISO/IEC TR 18037:2008, 5.1, which leaves
/// it to the implementation): the address of the byte at an offset from a place, with 0x80_0000 more where a pointer
/// without a space is to the data bank. It is 0, that of the null pointer, where there is no place.
pub fn pointer_to(space: SpaceId, place: Option<Place>, offset: u32) -> u128
    ensures { result ≡ pointer_to space place offset }
{
    match place {
        None => 0,
        Some(place) => {
            let address = u128::from(place.offset) + u128::from(offset);
            match (space, place.bank) {
                (SpaceId::Generic, Bank::Data) => 0x80_0000 + address,
                _ => address,
            }
        }
    }
}

/// The initial value of the leaf with a number from 0, where the values stand in the order of the leaves (ISO/IEC
/// 9899:1999, 6.7.8). None where there is no such value.
pub fn init_at<T>(inits: &[T], i: usize) -> Option<&T>
    ensures { option_copied result ≡ slice_get inits.now i }
{
    inits.get(i)
}
