//! The status register after an operation, and the results of the operations.
ghost use Rattle.std.specs.Prelude.{◌≡◌, ◌<◌, ◌≤◌};
ghost use Rattle.std.specs.Int.{bit_at};
ghost use Rattle.ec_avr.specs.Flags.{with_bit as bit_set, with_flags as flags_set};
ghost use Rattle.ec_avr.specs.Flags.{with_flags_but_half as flags_but_half_set};
ghost use Rattle.ec_avr.specs.Flags.{with_flags_but_carries as flags_but_carries_set, sum_overflow as overflow_of_sum};
ghost use Rattle.ec_avr.specs.Flags.{difference_overflow as overflow_of_difference, byte_sum as sum_of};
ghost use Rattle.ec_avr.specs.Flags.{sum_flags as flags_of_sum};
ghost use Rattle.ec_avr.specs.Flags.{byte_difference as difference_of, difference_flags as flags_of_difference};
ghost use Rattle.ec_avr.specs.Flags.{logic_flags as flags_of_logic, complement_flags as flags_of_complement};
ghost use Rattle.ec_avr.specs.Flags.{count_flags as flags_of_count, shifted as shift_of, shift_flags as flags_of_shift};
ghost use Rattle.ec_avr.specs.Flags.{pair_sum as sum_of_pair, pair_sum_flags as flags_of_pair_sum};
ghost use Rattle.ec_avr.specs.Flags.{pair_difference as difference_of_pair};
ghost use Rattle.ec_avr.specs.Flags.{pair_difference_flags as flags_of_pair_difference};
ghost use Rattle.ec_avr.specs.Flags.{product_flags as flags_of_product};

use ec_isa::{half_carry, zero_of_difference};

/// Bit `n` of a byte: 0 or 1.
pub fn bit(byte: u8, n: u8) -> u8
    requires { n < 8 }
    ensures { result ≡ bit_at byte n }
{
    byte >> n & 1
}

/// The byte with its bit `n` set to `value`.
pub fn with_bit(byte: u8, n: u8, value: u8) -> u8
    requires eighth { n < 8 }
    requires bit { value ≤ 1 }
    ensures { result ≡ bit_set byte n value }
{
    let worth = 1u8 << n;
    byte - bit(byte, n) * worth + value * worth
}

/// SREG with C, Z, N, V and H, each 0 or 1.
fn with_flags(sreg: u8, c: u8, z: u8, n: u8, v: u8, h: u8) -> u8
    requires c { c ≤ 1 }
    requires z { z ≤ 1 }
    requires n { n ≤ 1 }
    requires v { v ≤ 1 }
    requires h { h ≤ 1 }
    ensures { result ≡ flags_set sreg c z n v h }
{
    sreg / 64 * 64 + h * 32 + (n + v) % 2 * 16 + v * 8 + n * 4 + z * 2 + c
}

fn with_flags_but_half(sreg: u8, c: u8, z: u8, n: u8, v: u8) -> u8
    requires c { c ≤ 1 }
    requires z { z ≤ 1 }
    requires n { n ≤ 1 }
    requires v { v ≤ 1 }
    ensures { result ≡ flags_but_half_set sreg c z n v }
{
    with_flags(sreg, c, z, n, v, bit(sreg, 5))
}

fn with_flags_but_carries(sreg: u8, z: u8, n: u8, v: u8) -> u8
    requires z { z ≤ 1 }
    requires n { n ≤ 1 }
    requires v { v ≤ 1 }
    ensures { result ≡ flags_but_carries_set sreg z n v }
{
    with_flags_but_half(sreg, bit(sreg, 0), z, n, v)
}

/// Whether the signed sum overflows, as 0 or 1. `top` is the worth of the top bit.
fn sum_overflow(top: u16, x: u16, y: u16, r: u16) -> u8
    requires { 0 < top }
    ensures value { result ≡ overflow_of_sum top x y r }
    ensures bit { result ≤ 1 }
{
    u8::from(x / top == y / top && x / top != r / top)
}

/// Whether the signed difference overflows, as 0 or 1.
fn difference_overflow(top: u16, x: u16, y: u16, r: u16) -> u8
    requires { 0 < top }
    ensures value { result ≡ overflow_of_difference top x y r }
    ensures bit { result ≤ 1 }
{
    u8::from(x / top != y / top && x / top != r / top)
}

pub fn byte_sum(x: u8, y: u8, carry: u8) -> u8
    requires { carry ≤ 1 }
    ensures { result ≡ sum_of x y carry }
{
    ((x as u16 + y as u16 + carry as u16) % 256) as u8
}

pub fn sum_flags(sreg: u8, x: u8, y: u8, carry: u8) -> u8
    requires { carry ≤ 1 }
    ensures { result ≡ flags_of_sum sreg x y carry }
{
    let r = byte_sum(x, y, carry);
    let c = ((x as u16 + y as u16 + carry as u16) / 256) as u8;
    let v = sum_overflow(128, x as u16, y as u16, r as u16);
    let h = half_carry(x, y, carry);
    with_flags(sreg, c, u8::from(r == 0), r / 128, v, h)
}

pub fn byte_difference(x: u8, y: u8, borrow: u8) -> u8
    requires { borrow ≤ 1 }
    ensures { result ≡ difference_of x y borrow }
{
    ((x as u16 + 256 - (y as u16 + borrow as u16)) % 256) as u8
}

pub fn difference_flags(sreg: u8, x: u8, y: u8, borrow: u8, zero_before: u8) -> u8
    requires borrow { borrow ≤ 1 }
    requires zero { zero_before ≤ 1 }
    ensures { result ≡ flags_of_difference sreg x y borrow zero_before }
{
    let r = byte_difference(x, y, borrow);
    let c = u8::from((x as u16) < y as u16 + borrow as u16);
    let z = zero_of_difference(r, zero_before);
    let v = difference_overflow(128, x as u16, y as u16, r as u16);
    let h = u8::from(x % 16 < y % 16 + borrow);
    with_flags(sreg, c, z, r / 128, v, h)
}

pub fn logic_flags(sreg: u8, r: u8) -> u8
    ensures { result ≡ flags_of_logic sreg r }
{
    with_flags_but_carries(sreg, u8::from(r == 0), r / 128, 0)
}

pub fn complement_flags(sreg: u8, r: u8) -> u8
    ensures { result ≡ flags_of_complement sreg r }
{
    with_flags_but_half(sreg, 1, u8::from(r == 0), r / 128, 0)
}

pub fn count_flags(sreg: u8, r: u8, past: u8) -> u8
    ensures { result ≡ flags_of_count sreg r past }
{
    with_flags_but_carries(sreg, u8::from(r == 0), r / 128, u8::from(r == past))
}

pub fn shifted(x: u8, top: u8) -> u8
    requires { top ≤ 1 }
    ensures { result ≡ shift_of x top }
{
    x / 2 + 128 * top
}

pub fn shift_flags(sreg: u8, x: u8, top: u8) -> u8
    requires { top ≤ 1 }
    ensures { result ≡ flags_of_shift sreg x top }
{
    let r = shifted(x, top);
    with_flags_but_half(
        sreg,
        x % 2,
        u8::from(r == 0),
        r / 128,
        (r / 128 + x % 2) % 2,
    )
}

pub fn pair_sum(x: u16, k: u16) -> u16
    ensures { result ≡ sum_of_pair x k }
{
    x.wrapping_add(k)
}

pub fn pair_sum_flags(sreg: u8, x: u16, k: u16) -> u8
    ensures { result ≡ flags_of_pair_sum sreg x k }
{
    let r = pair_sum(x, k);
    let c = ((x as u32 + k as u32) / 65536) as u8;
    let v = sum_overflow(32768, x, k, r);
    with_flags_but_half(sreg, c, u8::from(r == 0), (r / 32768) as u8, v)
}

pub fn pair_difference(x: u16, k: u16) -> u16
    ensures { result ≡ difference_of_pair x k }
{
    x.wrapping_sub(k)
}

pub fn pair_difference_flags(sreg: u8, x: u16, k: u16) -> u8
    ensures { result ≡ flags_of_pair_difference sreg x k }
{
    let r = pair_difference(x, k);
    let v = difference_overflow(32768, x, k, r);
    with_flags_but_half(
        sreg,
        u8::from(x < k),
        u8::from(r == 0),
        (r / 32768) as u8,
        v,
    )
}

pub fn product_flags(sreg: u8, product: u16) -> u8
    ensures { result ≡ flags_of_product sreg product }
{
    let carry = with_bit(sreg, 0, (product / 32768) as u8);
    with_bit(carry, 1, u8::from(product == 0))
}
