//! Numbers brought into another format, or into an integer.
ghost use Rattle.std.specs.Prelude.{◌≡◌, ◌≢◌, ℕ, zero, ◌+◌, ◌-◌, ◌*◌, ◌/◌, ◌≤◌, ◌<◌, ◌++◌, OnOk, OnErr};
ghost use Rattle.ec_runs.specs.Behaviours.{BeginWith};
ghost use Rattle.ec_asm.specs.Pieces.{HasBytes, HasByte};
ghost use Rattle.ec_fx.specs.Conversions.{IsIntegerWidth};
ghost use Rattle.ec_fx.specs.Formats.{IsFormat};
ghost use Rattle.ec_fxcode_quotients.specs.QuotientLaws.{IsOperandFormat};
ghost use Rattle.ec_fxcode_conversions.specs.Conversions.{scaled_bytes, cut_some, units_code, convert_code, container};
ghost use Rattle.ec_fxcode_conversions.specs.Conversions.{wrapping, whole_code};

use ec_asm::{AsmItem, Location};
use ec_fx::{Format, Mode};
use ec_fxcode::clamp;
use ec_fxcode_scales::{cut, scale};
use ec_space::{NoMemory, Seq};

/// Where a number stands, and the format that it has: its bytes are an eighth of the bits of the format.
#[derive(Clone, Copy)]
pub struct Number {
    pub at: Location,
    pub format: Format,
}

/// The bytes of a number that is scaled up by so many bits, with one for its sign.
fn scaled_bytes(bytes: u8, up: u8) -> u8
    requires bytes { bytes ≤ 16 }
    requires up { up ≤ 128 }
    ensures { result ≡ scaled_bytes bytes up }
{
    bytes + (up + 7) / 8 + 1
}

/// Appends code that cuts off so many bits of a number, and none where there are none to be cut off.
fn cut_some(out: &mut Seq<AsmItem>, at: Location, wide: u8, down: u8) -> Result<(), NoMemory>
    requires at { HasBytes at wide }
    requires some { 1 ≤ wide }
    requires most { wide ≤ 16 }
    requires room { (down + 7) / 8 ≤ wide }
    ensures ok { OnOk result (out.new.items ≡ out.old.items ++ cut_some at wide down) }
    ensures err { OnErr result (BeginWith out.old.items out.new.items) }
{
    if down == 0 {
        Ok(())
    } else {
        cut(out, at, wide, down)
    }
}

/// Appends code that scales a number up, cuts bits off, and leaves it in work bytes.
pub(crate) fn units(
    out: &mut Seq<AsmItem>,
    signed: bool,
    from: Location,
    bytes: u8,
    work: Location,
    up: u8,
    down: u8,
) -> Result<(), NoMemory>
    requires some { 1 ≤ bytes }
    requires from { HasBytes from bytes }
    requires work { HasBytes work (scaled_bytes bytes up) }
    requires most { scaled_bytes bytes up ≤ 16 }
    requires room { (down + 7) / 8 ≤ scaled_bytes bytes up }
    ensures ok { OnOk result (out.new.items ≡ out.old.items ++ units_code signed from work bytes up down) }
    ensures err { OnErr result (BeginWith out.old.items out.new.items) }
{
    let wide = scaled_bytes(bytes, up);
    scale(out, signed, from, work, bytes, wide, up)?;
    cut_some(out, work, wide, down)
}

/// Appends code that brings the number at `from` into the format of `to`, by 40 work bytes: the value itself, rounded
/// toward zero to the units of the format, and, where it is out of the range of the format and the mode saturates, the
/// nearer end of that range. Where memory runs out, a part of the code is appended.
pub fn convert(
    out: &mut Seq<AsmItem>,
    from: Number,
    to: Number,
    mode: Mode,
    work: Location,
) -> Result<(), NoMemory>
    requires from_format { IsOperandFormat from.format }
    requires from { HasBytes from.at (from.format.bits / 8) }
    requires to_format { IsFormat to.format }
    requires to { HasBytes to.at (to.format.bits / 8) }
    requires work { HasBytes work 40 }
    ensures ok { OnOk result (out.new.items ≡ out.old.items
        ++ convert_code from.format to.format mode from.at to.at work (from.format.bits / 8) (to.format.bits / 8)) }
    ensures err { OnErr result (BeginWith out.old.items out.new.items) }
{
    let bytes = from.format.bits / 8;
    let up = to.format.frac.saturating_sub(from.format.frac);
    let down = from.format.frac.saturating_sub(to.format.frac);
    units(out, from.format.signed, from.at, bytes, work, up, down)?;
    clamp(out, work, scaled_bytes(bytes, up), to.at, to.format, mode)
}

/// A format of so many bytes.
fn container(bytes: u8) -> Format
    requires some { 1 ≤ bytes }
    requires most { bytes ≤ 4 }
    ensures { result ≡ container bytes }
{
    Format {
        signed: true,
        bits: 8 * bytes,
        frac: 8 * bytes - 1,
    }
}

/// Appends code that puts the number at `from` without what stands behind the point, rounded toward zero, to so many
/// bytes at `to`, by 40 work bytes: as an integer with a sign, or without one, wherever a type of so many bytes holds
/// it. Where memory runs out, a part of the code is appended.
pub fn whole(
    out: &mut Seq<AsmItem>,
    from: Number,
    to: Location,
    bytes: u8,
    work: Location,
) -> Result<(), NoMemory>
    requires from_format { IsFormat from.format }
    requires from { HasBytes from.at (from.format.bits / 8) }
    requires width { IsIntegerWidth (8 * bytes) }
    requires to { HasBytes to bytes }
    requires work { HasBytes work 40 }
    ensures ok { OnOk result (out.new.items ≡ out.old.items
        ++ whole_code from.format from.at to work (from.format.bits / 8) bytes) }
    ensures err { OnErr result (BeginWith out.old.items out.new.items) }
{
    let wide = scaled_bytes(from.format.bits / 8, 0);
    units(
        out,
        from.format.signed,
        from.at,
        from.format.bits / 8,
        work,
        0,
        from.format.frac,
    )?;
    clamp(
        out,
        work,
        wide,
        to,
        container(bytes),
        Mode { saturate: false },
    )
}
