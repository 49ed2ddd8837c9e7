//! Products of numbers of one byte.
ghost use Rattle.std.specs.Prelude.{◌≡◌, ℕ, ◌+◌, ◌-◌, ◌||◌, ◌≤◌, ◌<◌, ◌++◌, OnOk, OnErr};
ghost use Rattle.ec_runs.specs.Behaviours.{BeginWith};
ghost use Rattle.ec_asm.specs.Pieces.{HasBytes, HasByte};
ghost use Rattle.ec_select_products.specs.Products.{product_code};
ghost use Rattle.ec_fxcode_quotients.specs.Quotients.{further};
ghost use Rattle.ec_fxcode_conversions.specs.Conversions.{scaled_bytes, units_code};
ghost use Rattle.ec_fxcode_conversions.specs.Products.{exact_code, multiply_code};
ghost use Rattle.ec_fxcode_conversions.specs.ProductLaws.{AreFactors};

use crate::conversions::{Number, units};
use ec_asm::{AsmItem, Location};
use ec_fx::Mode;
use ec_fxcode::clamp;
use ec_select_products::Factor;
use ec_space::{NoMemory, Seq};

/// A place two bytes further up.
fn above_product(at: Location) -> Location
    requires { HasBytes at 5 }
    ensures place { result ≡ further at 2 }
    ensures bytes { HasBytes result 3 }
    ensures byte { (i : ℕ) → i < 3 → HasByte result i }
{
    match at {
        Location::InRegisters(r) => Location::InRegisters(r + 2),
        Location::InMemory { object, offset } => Location::InMemory {
            object,
            offset: offset + 2,
        },
    }
}

/// Appends code that leaves the product of two bytes, without the lowest bits, in three work bytes.
fn exact(
    out: &mut Seq<AsmItem>,
    left: Number,
    right: Number,
    down: u8,
    work: Location,
) -> Result<(), NoMemory>
    requires left { HasBytes left.at 1 }
    requires right { HasBytes right.at 1 }
    requires down { down ≤ 8 }
    requires work { HasBytes work 5 }
    ensures ok { OnOk result (out.new.items ≡ out.old.items
        ++ (product_code left.format.signed right.format.signed left.at right.at work 2
        ++ units_code (left.format.signed || right.format.signed) work (further work 2) 2 0 down)) }
    ensures err { OnErr result (BeginWith out.old.items out.new.items) }
{
    let (x, y) = (left.format.signed, right.format.signed);
    let left = Factor {
        signed: x,
        at: left.at,
    };
    let right = Factor {
        signed: y,
        at: right.at,
    };
    ec_select_products::multiply(out, left, right, work, 2)?;
    units(out, x || y, work, 2, above_product(work), 0, down)
}

/// Appends code that multiplies two numbers of one byte, of which one is fixed-point at least, and puts the exact
/// product, rounded toward zero, to `to` in its format, by 40 work bytes: where it is out of the range of that format
/// and the mode saturates, the nearer end of the range. Where memory runs out, a part of the code is appended.
pub fn multiply(
    out: &mut Seq<AsmItem>,
    left: Number,
    right: Number,
    to: Number,
    mode: Mode,
    work: Location,
) -> Result<(), NoMemory>
    requires formats { AreFactors left.format right.format to.format }
    requires left { HasBytes left.at 1 }
    requires right { HasBytes right.at 1 }
    requires to { HasBytes to.at 1 }
    requires work { HasBytes work 40 }
    ensures ok { OnOk result (out.new.items ≡ out.old.items
        ++ multiply_code left.format right.format to.format mode left.at right.at to.at work) }
    ensures err { OnErr result (BeginWith out.old.items out.new.items) }
{
    let down = left.format.frac + right.format.frac - to.format.frac;
    exact(out, left, right, down, work)?;
    clamp(out, above_product(work), 3, to.at, to.format, mode)
}
