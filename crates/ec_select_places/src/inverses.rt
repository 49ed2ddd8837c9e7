//! The odd part of a number, and its inverse modulo 65,536.
ghost use Rattle.std.specs.Prelude.{◌≡◌, ◌+◌, ◌*◌, ◌%◌, ◌^◌, ◌<◌, ◌≤◌};
ghost use Rattle.ec_select_places.specs.Distances.{twos_of, odd_of, refined, inverse_of};

/// Newton's step: an inverse modulo twice as many bits, at most 16.
fn refine(odd: u64, found: u64) -> u64
    requires odd { odd < 65536 }
    requires found { found < 65536 }
    ensures { result ≡ refined odd found }
{
    found * (2 + 65535 * (odd * found)) % 65536
}

/// The number whose product with an odd number is 1 modulo 65,536.
pub fn inverse(odd: u16) -> u16
    requires { odd % 2 ≡ 1 }
    ensures value { result ≡ inverse_of odd }
    ensures product { odd * result % 65536 ≡ 1 }
{
    // An odd number is its own inverse modulo 8.
    let odd = u64::from(odd);
    refine(odd, refine(odd, refine(odd, odd))) as u16
}

/// A number as an odd number times a power of two.
#[derive(Clone, Copy)]
pub struct OddPart {
    pub odd: u16,
    /// The exponent of the power.
    pub twos: u8,
}

/// The odd part of a number.
pub fn odd_part(size: u16) -> OddPart
    requires { 0 < size }
    ensures odd { result.odd % 2 ≡ 1 }
    ensures product { result.odd * 2 ^ result.twos ≡ size }
    ensures value { result.odd ≡ odd_of size }
    ensures twos { result.twos ≡ twos_of size }
{
    if size % 2 == 1 {
        return OddPart { odd: size, twos: 0 };
    }
    let half = odd_part(size / 2);
    OddPart {
        odd: half.odd,
        twos: half.twos + 1,
    }
}
