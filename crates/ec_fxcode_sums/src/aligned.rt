//! Operands scaled to the greater count of fraction bits.
ghost use Rattle.std.specs.Prelude.{◌≡◌, ◌+◌, ◌*◌, ◌/◌, ◌≤◌, ◌++◌, max, OnOk, OnErr};
ghost use Rattle.ec_runs.specs.Behaviours.{BeginWith};
ghost use Rattle.ec_asm.specs.Pieces.{HasBytes};
ghost use Rattle.ec_fxcode_quotients.specs.QuotientLaws.{IsOperandFormat};
ghost use Rattle.ec_fxcode_sums.specs.Sums.{raised, raised_bytes, aligned_bytes, second_at, align_code};
ghost use Rattle.ec_fxcode_sums.specs.Operands.{IsOperand};

use ec_asm::{AsmItem, Location};
use ec_fx::Format;
use ec_fxcode_scales::scale;
use ec_space::{NoMemory, Seq};

/// A number, or the place of a result: its format, and where its bytes stand.
#[derive(Clone, Copy)]
pub struct Operand {
    pub at: Location,
    pub format: Format,
    /// The bytes of the format: 1, 2, 4 or 8.
    pub bytes: u8,
}

/// Where the second operand is scaled to: 16 bytes further up.
pub(crate) fn second_at(work: Location) -> Location
    requires { HasBytes work 40 }
    ensures { result ≡ second_at work }
{
    match work {
        Location::InRegisters(r) => Location::InRegisters(r + 16),
        Location::InMemory { object, offset } => Location::InMemory {
            object,
            offset: offset + 16,
        },
    }
}

/// The bits by which a number is scaled beside another one.
fn raised(format: Format, beside: Format) -> u8
    ensures { result ≡ raised format beside }
{
    beside.frac.saturating_sub(format.frac)
}

/// The bytes of a number of so many bytes, scaled by so many bits.
fn raised_bytes(bytes: u8, bits: u8) -> u8
    requires bytes { bytes ≤ 8 }
    requires bits { bits ≤ 32 }
    ensures { result ≡ raised_bytes bytes bits }
{
    bytes + (bits + 7) / 8
}

/// The bytes that either scaled operand has room in, with its sign.
pub(crate) fn aligned_bytes(first: Operand, second: Operand) -> u8
    requires first_format { IsOperandFormat first.format }
    requires first { IsOperand first }
    requires second_format { IsOperandFormat second.format }
    requires second { IsOperand second }
    ensures value { result ≡ aligned_bytes first.format second.format first.bytes second.bytes }
    ensures few { result ≤ 10 }
    ensures fraction { max first.format.frac second.format.frac + 8 ≤ 8 * result }
{
    let first_bytes = raised_bytes(first.bytes, raised(first.format, second.format));
    let second_bytes = raised_bytes(second.bytes, raised(second.format, first.format));
    first_bytes.max(second_bytes) + 1
}

/// Appends code that scales both operands into so many bytes: at the work bytes, and 16 bytes further up.
pub(crate) fn align(
    out: &mut Seq<AsmItem>,
    first: Operand,
    second: Operand,
    work: Location,
    wide: u8,
) -> Result<(), NoMemory>
    requires first_format { IsOperandFormat first.format }
    requires first { IsOperand first }
    requires second_format { IsOperandFormat second.format }
    requires second { IsOperand second }
    requires work { HasBytes work 40 }
    requires room { aligned_bytes first.format second.format first.bytes second.bytes ≤ wide }
    requires most { wide ≤ 16 }
    ensures ok { OnOk result (out.new.items ≡ out.old.items
        ++ align_code first.format second.format first.at second.at work first.bytes second.bytes wide) }
    ensures err { OnErr result (BeginWith out.old.items out.new.items) }
{
    let (up, other_up) = (
        raised(first.format, second.format),
        raised(second.format, first.format),
    );
    let other = second_at(work);
    scale(
        out,
        first.format.signed,
        first.at,
        work,
        first.bytes,
        wide,
        up,
    )?;
    scale(
        out,
        second.format.signed,
        second.at,
        other,
        second.bytes,
        wide,
        other_up,
    )
}
