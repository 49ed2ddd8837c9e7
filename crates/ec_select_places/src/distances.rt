//! The difference of two pointers in elements.
ghost use Rattle.std.specs.Prelude.{◌≡◌, ◌<◌, ◌++◌, OnOk, OnErr};
ghost use Rattle.ec_runs.specs.Behaviours.{BeginWith};
ghost use Rattle.ec_asm.specs.Pieces.{HasBytes, copy_code};
ghost use Rattle.ec_select_places.specs.Steps.{z_pair, scale_code};
ghost use Rattle.ec_select_places.specs.Distances.{halve_z, halvings_code, distance_code};
ghost use Rattle.ec_select_places.specs.Distances.{divisor_of, elements_code};

use crate::inverses::{inverse, odd_part};
use crate::steps::{scale, z_pair};
use ec_asm::{AsmItem, Location, Operator, copy, operate};
use ec_isa::Instr;
use ec_space::{NoMemory, Seq};

/// Appends code that halves R31:R30, in two's complement.
fn halve(out: &mut Seq<AsmItem>) -> Result<(), NoMemory>
    ensures ok { OnOk result (out.new.items ≡ out.old.items ++ halve_z) }
    ensures err { OnErr result (out.new.items ≡ out.old.items) }
{
    out.extend_from_slice(&[
        AsmItem::Plain(Instr::Asr { d: 31 }),
        AsmItem::Plain(Instr::Ror { d: 30 }),
    ])
}

/// Appends code that halves R31:R30 so often.
fn halvings(out: &mut Seq<AsmItem>, count: u8) -> Result<(), NoMemory>
    ensures ok { OnOk result (out.new.items ≡ out.old.items ++ halvings_code count) }
    ensures err { OnErr result (BeginWith out.old.items out.new.items) }
{
    for i in 0..count {
        halve(out)?;
    }
    Ok(())
}

/// Appends code that divides R31:R30, and puts it to its place.
fn divide(out: &mut Seq<AsmItem>, to: Location, twos: u8, inverse: u16) -> Result<(), NoMemory>
    requires { HasBytes to 2 }
    ensures ok { OnOk result (out.new.items
        ≡ out.old.items ++ (halvings_code twos ++ (scale_code inverse ++ copy_code z_pair to 2))) }
    ensures err { OnErr result (BeginWith out.old.items out.new.items) }
{
    halvings(out, twos)?;
    scale(out, inverse)?;
    copy(out, z_pair(), to, 2)
}

/// Appends code that puts the elements between two offsets to two bytes, in two's complement: the offset at `from` less
/// that at `other`. An element has an odd number of bytes times a power of two, `twos` is the power's exponent, and
/// `inverse` is that of the odd number modulo 65,536. Where memory runs out, a part of the code is appended.
pub fn distance(
    out: &mut Seq<AsmItem>,
    from: Location,
    other: Location,
    to: Location,
    twos: u8,
    inverse: u16,
) -> Result<(), NoMemory>
    requires from { HasBytes from 2 }
    requires other { HasBytes other 2 }
    requires to { HasBytes to 2 }
    ensures ok { OnOk result (out.new.items ≡ out.old.items ++ distance_code from other to twos inverse) }
    ensures err { OnErr result (BeginWith out.old.items out.new.items) }
{
    copy(out, from, z_pair(), 2)?;
    operate(out, Operator::Difference, other, z_pair(), 2)?;
    divide(out, to, twos, inverse)
}

/// The size that is divided by. 1 serves for 65,536 or more, as offsets within 32,768 of one
/// another that are a multiple of such a size apart are equal.
fn divisor(size: u32) -> u16
    ensures value { result ≡ divisor_of size }
    ensures some { 0 < result }
{
    if 0 < size && size < 65536 {
        size as u16
    } else {
        1
    }
}

/// Appends code that puts the elements of so many bytes between two offsets to two bytes, in two's
/// complement: the offset at `left` less that at `right`. Where memory runs out, a part of the code
/// is appended.
pub fn elements(
    out: &mut Seq<AsmItem>,
    left: Location,
    right: Location,
    to: Location,
    size: u32,
) -> Result<(), NoMemory>
    requires left { HasBytes left 2 }
    requires right { HasBytes right 2 }
    requires to { HasBytes to 2 }
    ensures ok { OnOk result (out.new.items ≡ out.old.items ++ elements_code left right to size) }
    ensures err { OnErr result (BeginWith out.old.items out.new.items) }
{
    let part = odd_part(divisor(size));
    distance(out, left, right, to, part.twos, inverse(part.odd))
}
