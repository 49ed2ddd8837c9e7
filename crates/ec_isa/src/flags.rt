//! Flags of SREG after a sum or a difference (Microchip AVR Instruction Set Manual, "Status Register and Boolean
//! Formula").
ghost use Rattle.std.specs.Prelude.{◌≡◌, ◌≤◌, ◌+◌, ◌*◌, ◌/◌, ◌%◌, ◌==◌};
ghost use Rattle.std.specs.Int.{from_bool};

/// The flag H of a sum of two bytes and a carry, 0 or 1: the carry out of bit 3.
pub fn half_carry(x: u8, y: u8, carry: u8) -> u8
    requires { carry ≤ 1 }
    ensures value { result ≡ (x % 16 + y % 16 + carry) / 16 }
    ensures bit { result ≤ 1 }
{
    (x % 16 + y % 16 + carry) / 16
}

/// The flag Z of a difference `r`, 0 or 1: it is 1 where `r` is 0 and `zero_before` is 1, which is the old Z in SBC and
/// CPC, and 1 in SUB, CP and NEG.
pub fn zero_of_difference(r: u8, zero_before: u8) -> u8
    requires { zero_before ≤ 1 }
    ensures value { result ≡ from_bool (r == 0) * zero_before }
    ensures bit { result ≤ 1 }
{
    u8::from(r == 0) * zero_before
}
