//! Products of two bytes.
ghost use Rattle.std.specs.Prelude.{◌≡◌, ◌++◌, OnOk, OnErr};
ghost use Rattle.ec_runs.specs.Behaviours.{BeginWith};
ghost use Rattle.ec_asm.specs.Pieces.{HasBytes, HasByte};
ghost use Rattle.ec_select_products.specs.Products.{less_code, factors_code, corrected_code, multiply_code};
ghost use Rattle.ec_select_products.specs.Products.{put_byte, puts_code, product_code};

use ec_asm::{AsmItem, Location, copy};
use ec_isa::Instr;
use ec_space::{NoMemory, Seq};

/// A byte that is multiplied.
#[derive(Clone, Copy)]
pub struct Factor {
    pub signed: bool,
    pub at: Location,
}

/// Appends code that takes the byte of `other` from the high byte of a product where the byte of `factor` is negative.
fn less(out: &mut Seq<AsmItem>, signed: bool, factor: u8, other: u8) -> Result<(), NoMemory>
    ensures ok { OnOk result (out.new.items ≡ out.old.items ++ less_code signed factor other) }
    ensures err { OnErr result (out.new.items ≡ out.old.items) }
{
    if signed {
        out.extend_from_slice(&[
            AsmItem::Plain(Instr::Sbrc { r: factor, b: 7 }),
            AsmItem::Plain(Instr::Sub { d: 1, r: other }),
        ])
    } else {
        Ok(())
    }
}

fn corrected(out: &mut Seq<AsmItem>, left: bool, right: bool) -> Result<(), NoMemory>
    ensures ok { OnOk result (out.new.items ≡ out.old.items ++ corrected_code left right) }
    ensures err { OnErr result (BeginWith out.old.items out.new.items) }
{
    less(out, left, 30, 31)?;
    less(out, right, 31, 30)
}

fn factors(out: &mut Seq<AsmItem>, left: Location, right: Location) -> Result<(), NoMemory>
    requires left { HasBytes left 1 }
    requires right { HasBytes right 1 }
    ensures ok { OnOk result (out.new.items ≡ out.old.items ++ factors_code left right) }
    ensures err { OnErr result (BeginWith out.old.items out.new.items) }
{
    copy(out, left, Location::InRegisters(30), 1)?;
    copy(out, right, Location::InRegisters(31), 1)?;
    out.extend_from_slice(&[AsmItem::Plain(Instr::Mul { d: 30, r: 31 })])
}

/// Appends code that leaves the product of two bytes in R1:R0.
fn multiplied(out: &mut Seq<AsmItem>, left: Factor, right: Factor) -> Result<(), NoMemory>
    requires left { HasBytes left.at 1 }
    requires right { HasBytes right.at 1 }
    ensures ok { OnOk result (out.new.items ≡ out.old.items
        ++ multiply_code left.signed right.signed left.at right.at) }
    ensures err { OnErr result (BeginWith out.old.items out.new.items) }
{
    factors(out, left.at, right.at)?;
    corrected(out, left.signed, right.signed)
}

/// Appends code that puts the byte of register `i` to byte `i` of a place.
fn put_byte(out: &mut Seq<AsmItem>, to: Location, i: u8) -> Result<(), NoMemory>
    requires { HasByte to i }
    ensures ok { OnOk result (out.new.items ≡ out.old.items ++ put_byte to i) }
    ensures err { OnErr result (out.new.items ≡ out.old.items) }
{
    match to {
        Location::InRegisters(r) => {
            out.extend_from_slice(&[AsmItem::Plain(Instr::Mov { d: r + i, r: i })])
        }
        Location::InMemory { object, offset } => {
            let offset = offset + u32::from(i);
            out.extend_from_slice(&[AsmItem::StoreObj {
                object,
                offset,
                r: i,
            }])
        }
    }
}

fn puts(out: &mut Seq<AsmItem>, to: Location, bytes: u8) -> Result<(), NoMemory>
    requires { HasBytes to bytes }
    ensures ok { OnOk result (out.new.items ≡ out.old.items ++ puts_code to bytes) }
    ensures err { OnErr result (BeginWith out.old.items out.new.items) }
{
    for i in 0..bytes {
        put_byte(out, to, i)?;
    }
    Ok(())
}

/// Appends code that puts the low bytes of the product of two bytes to a place. Where memory runs out, a part of the
/// code is appended.
pub fn multiply(
    out: &mut Seq<AsmItem>,
    left: Factor,
    right: Factor,
    to: Location,
    bytes: u8,
) -> Result<(), NoMemory>
    requires left { HasBytes left.at 1 }
    requires right { HasBytes right.at 1 }
    requires to { HasBytes to bytes }
    ensures ok { OnOk result (out.new.items ≡ out.old.items
        ++ product_code left.signed right.signed left.at right.at to bytes) }
    ensures err { OnErr result (BeginWith out.old.items out.new.items) }
{
    multiplied(out, left, right)?;
    puts(out, to, bytes)
}
