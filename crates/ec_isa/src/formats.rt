//! The words of each format. A function takes the opcode of a row and the values of its fields, and
//! answers `None` where these are not in the format's ranges. The bits that a comment shows stand from
//! 15 to 0, and a dot is a bit of the opcode.
ghost use Rattle.std.specs.Prelude.{◌≡◌, ◌<◌, ◌≤◌, ◌*◌, IsTrue};
ghost use Rattle.ec_isa.specs.Formats.{words_of, is_signed as is_signed_by, twos_complement as twos_complement_of};
ghost use Rattle.ec_isa.specs.Formats.{bare as bare_row, register_pairs as register_pairs_row};
ghost use Rattle.ec_isa.specs.Formats.{two_registers as two_registers_row};
ghost use Rattle.ec_isa.specs.Formats.{immediate as immediate_row, displacement as displacement_row};
ghost use Rattle.ec_isa.specs.Formats.{register as register_row};
ghost use Rattle.ec_isa.specs.Formats.{register_beside as register_beside_row};
ghost use Rattle.ec_isa.specs.Formats.{register_and_address as register_and_address_row};
ghost use Rattle.ec_isa.specs.Formats.{flag as flag_row, address as address_row, pair_immediate as pair_immediate_row};
ghost use Rattle.ec_isa.specs.Formats.{port as port_row, relative as relative_row, branch as branch_row};
ghost use Rattle.ec_isa.specs.Formats.{register_bit as register_bit_row};

use crate::instructions::Words;
use crate::words::{is_apart, two_registers_word};

/// No fields.
pub fn bare(opcode: u16) -> Option<Words>
    ensures { result ≡ words_of (bare_row opcode) }
{
    Some(Words {
        first: opcode,
        second: None,
    })
}

/// `.... .... dddd rrrr`, at even registers, halved.
pub fn register_pairs(opcode: u16, d: u8, r: u8) -> Option<Words>
    requires { opcode ≤ 0x0100 }
    ensures { result ≡ words_of (register_pairs_row opcode d r) }
{
    if d < 32 && r < 32 && d % 2 == 0 && r % 2 == 0 {
        bare(opcode + d as u16 / 2 * 16 + r as u16 / 2)
    } else {
        None
    }
}

/// `.... ..rd dddd rrrr`
pub fn two_registers(opcode: u16, d: u8, r: u8) -> Option<Words>
    requires { opcode ≤ 0x9C00 }
    ensures { result ≡ words_of (two_registers_row opcode d r) }
{
    if d < 32 && r < 32 {
        bare(two_registers_word(opcode, d, r))
    } else {
        None
    }
}

/// `.... KKKK dddd KKKK`, at R16 to R31, less 16.
pub fn immediate(opcode: u16, d: u8, k: u8) -> Option<Words>
    requires { opcode ≤ 0xE000 }
    ensures { result ≡ words_of (immediate_row opcode d k) }
{
    if 16 <= d && d < 32 {
        bare(opcode + k as u16 / 16 * 256 + (d - 16) as u16 * 16 + k as u16 % 16)
    } else {
        None
    }
}

/// `..q. qq.d dddd .qqq`
pub fn displacement(opcode: u16, d: u8, q: u8) -> Option<Words>
    requires { opcode ≤ 0x8208 }
    ensures { result ≡ words_of (displacement_row opcode d q) }
{
    if d < 32 && q < 64 {
        let high = q as u16 / 32 * 8192 + q as u16 / 8 % 4 * 1024;
        bare(opcode + high + d as u16 * 16 + q as u16 % 8)
    } else {
        None
    }
}

/// `.... ...d dddd ....`
pub fn register(opcode: u16, d: u8) -> Option<Words>
    requires { opcode ≤ 0x940A }
    ensures { result ≡ words_of (register_row opcode d) }
{
    if d < 32 {
        bare(opcode + d as u16 * 16)
    } else {
        None
    }
}

/// `.... ...d dddd ....` beside a pointer that changes: `d` is none of the pointer's two registers.
pub fn register_beside(pointer: u8, opcode: u16, d: u8) -> Option<Words>
    requires low { pointer ≤ 30 }
    requires room { opcode ≤ 0x920E }
    ensures { result ≡ words_of (register_beside_row pointer opcode d) }
{
    if d < 32 && is_apart(pointer, d) {
        bare(opcode + d as u16 * 16)
    } else {
        None
    }
}

/// `.... ...d dddd ....`, and then a word.
pub fn register_and_address(opcode: u16, d: u8, k: u16) -> Option<Words>
    requires { opcode ≤ 0x9200 }
    ensures { result ≡ words_of (register_and_address_row opcode d k) }
{
    if d < 32 {
        address(opcode + d as u16 * 16, k)
    } else {
        None
    }
}

/// `.... .... .sss ....`
pub fn flag(opcode: u16, s: u8) -> Option<Words>
    requires { opcode ≤ 0x9488 }
    ensures { result ≡ words_of (flag_row opcode s) }
{
    if s < 8 {
        bare(opcode + s as u16 * 16)
    } else {
        None
    }
}

/// No fields, and then a word.
pub fn address(opcode: u16, k: u16) -> Option<Words>
    ensures { result ≡ words_of (address_row opcode k) }
{
    Some(Words {
        first: opcode,
        second: Some(k),
    })
}

/// `.... .... KKdd KKKK`, at 24, 26, 28 and 30, as 0 to 3.
pub fn pair_immediate(opcode: u16, d: u8, k: u8) -> Option<Words>
    requires { opcode ≤ 0x9700 }
    ensures { result ≡ words_of (pair_immediate_row opcode d k) }
{
    if 24 <= d && d < 31 && d % 2 == 0 && k < 64 {
        bare(opcode + k as u16 / 16 * 64 + (d - 24) as u16 / 2 * 16 + k as u16 % 16)
    } else {
        None
    }
}

/// `.... .AAd dddd AAAA`
pub fn port(opcode: u16, d: u8, a: u8) -> Option<Words>
    requires { opcode ≤ 0xB800 }
    ensures { result ≡ words_of (port_row opcode d a) }
{
    if d < 32 && a < 64 {
        bare(opcode + a as u16 / 16 * 512 + d as u16 * 16 + a as u16 % 16)
    } else {
        None
    }
}

/// `.... kkkk kkkk kkkk`
pub fn relative(opcode: u16, k: i16) -> Option<Words>
    requires { opcode ≤ 0xD000 }
    ensures { result ≡ words_of (relative_row opcode k) }
{
    if is_signed(2048, k) {
        bare(opcode + twos_complement(2048, k))
    } else {
        None
    }
}

/// `.... ..kk kkkk ksss`
pub fn branch(opcode: u16, s: u8, k: i16) -> Option<Words>
    requires { opcode ≤ 0xF400 }
    ensures { result ≡ words_of (branch_row opcode s k) }
{
    if s < 8 && is_signed(64, k) {
        bare(opcode + twos_complement(64, k) * 8 + s as u16)
    } else {
        None
    }
}

/// `.... ...d dddd .bbb`
pub fn register_bit(opcode: u16, d: u8, b: u8) -> Option<Words>
    requires { opcode ≤ 0xFE00 }
    ensures { result ≡ words_of (register_bit_row opcode d b) }
{
    if d < 32 && b < 8 {
        bare(opcode + d as u16 * 16 + b as u16)
    } else {
        None
    }
}

/// Whether `k` is from `-half` to `half - 1`.
fn is_signed(half: u16, k: i16) -> bool
    requires { half ≤ 2048 }
    ensures { result ≡ is_signed_by half k }
{
    k < half as i16 && k >= -(half as i16)
}

/// `k` as a field of `2 * half` values holds it.
fn twos_complement(half: u16, k: i16) -> u16
    requires room { half ≤ 2048 }
    requires fits { IsTrue (is_signed_by half k) }
    ensures value { result ≡ twos_complement_of (2 * half) k }
    ensures below { result < 2 * half }
{
    if k < 0 {
        (k + 2 * half as i16) as u16
    } else {
        k as u16
    }
}
