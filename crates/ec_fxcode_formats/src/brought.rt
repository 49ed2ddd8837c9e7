//! A number is brought from one number of bits behind the point to another.
ghost use Rattle.std.specs.Prelude.{◌≡◌, ◌-◌, ◌≤◌, ◌<◌, ◌++◌, true, OnOk, OnErr};
ghost use Rattle.ec_runs.specs.Behaviours.{BeginWith};
ghost use Rattle.ec_asm.specs.Pieces.{HasBytes, HasByte};
ghost use Rattle.ec_fxcode_formats.specs.Brought.{is_step, can_cut, can_raise, can_bring, bring_code};

use crate::cuts::{bytes_below, cut};
use crate::raises::{raise, spare};
use ec_asm::{AsmItem, Location};
use ec_space::{NoMemory, Seq};

/// Whole bytes, or 7 bits more.
fn is_step(bits: u8) -> bool
    ensures { result ≡ is_step bits }
{
    bits % 8 == 0 || bits % 8 == 7
}

fn can_cut(m: u8, n: u8, bits: u8) -> bool
    requires { bits < 64 }
    ensures { result ≡ can_cut m n bits }
{
    is_step(bits) && (m <= 6 && u16::from(bytes_below(bits)) + u16::from(n) <= 6)
}

fn can_raise(n: u8, bits: u8) -> bool
    requires { bits < 64 }
    ensures { result ≡ can_raise n bits }
{
    is_step(bits) && (bits / 8 < n && u16::from(spare(bits)) + u16::from(n - bits / 8) <= 6)
}

/// The bytes and the bits behind the point of a number.
#[derive(Clone, Copy)]
pub struct Digits {
    pub bytes: u8,
    pub fraction: u8,
}

/// Whether there is code that brings numbers from the first form to the second one.
pub fn can_bring(from: Digits, to: Digits) -> bool
    requires from { from.fraction < 64 }
    requires to { to.fraction < 64 }
    ensures { result ≡ can_bring from.bytes to.bytes from.fraction to.fraction }
{
    if from.fraction < to.fraction {
        can_raise(to.bytes, to.fraction - from.fraction)
    } else {
        can_cut(from.bytes, to.bytes, from.fraction - to.fraction)
    }
}

/// Appends code that brings a number to another form at another place, rounded toward zero. No result is promised where
/// it has no room there. Where memory runs out, a part of the code is appended.
pub fn bring(
    out: &mut Seq<AsmItem>,
    signed: bool,
    from: Location,
    to: Location,
    given: Digits,
    wanted: Digits,
) -> Result<(), NoMemory>
    requires from { HasBytes from given.bytes }
    requires top { HasByte from (given.bytes - 1) }
    requires to { HasBytes to wanted.bytes }
    requires some { 1 ≤ given.bytes }
    requires given { given.fraction < 64 }
    requires wanted { wanted.fraction < 64 }
    requires can { can_bring given.bytes wanted.bytes given.fraction wanted.fraction ≡ true }
    ensures ok { OnOk result (out.new.items ≡ out.old.items
        ++ bring_code signed from to given.bytes wanted.bytes given.fraction wanted.fraction) }
    ensures err { OnErr result (BeginWith out.old.items out.new.items) }
{
    if given.fraction < wanted.fraction {
        let bits = wanted.fraction - given.fraction;
        raise(out, signed, from, to, given.bytes, wanted.bytes, bits)
    } else {
        let bits = given.fraction - wanted.fraction;
        cut(out, signed, from, to, given.bytes, wanted.bytes, bits)
    }
}
