//! Sums, differences and negations of fixed-point numbers.
ghost use Rattle.std.specs.Prelude.{◌≡◌, suc, ◌+◌, ◌*◌, ◌/◌, ◌≤◌, ◌++◌, max, OnOk, OnErr};
ghost use Rattle.ec_runs.specs.Behaviours.{BeginWith};
ghost use Rattle.ec_fx.specs.Formats.{IsFormat};
ghost use Rattle.ec_asm.specs.Pieces.{HasBytes};
ghost use Rattle.ec_fxcode_quotients.specs.QuotientLaws.{IsOperandFormat};
ghost use Rattle.ec_fxcode_sums.specs.Sums.{surplus, cut_if, settle_code, operator_of, combine_code, sum_code};
ghost use Rattle.ec_fxcode_sums.specs.Sums.{aligned_bytes, negate_code};
ghost use Rattle.ec_fxcode_sums.specs.Operands.{IsOperand};

use crate::aligned::{Operand, align, aligned_bytes, second_at};
use ec_asm::{AsmItem, Location, Operator, operate};
use ec_fx::{Format, Mode};
use ec_fxcode::clamp;
use ec_fxcode_scales::{cut, scale};
use ec_select_bytes::negate as negate_bytes;
use ec_space::{NoMemory, Seq};

/// The bits by which the sum of two scaled operands is cut.
fn surplus(first: Format, second: Format, to: Format) -> u8
    ensures { result ≡ surplus first second to }
{
    first.frac.max(second.frac).saturating_sub(to.frac)
}

fn operator_of(minus: bool) -> Operator
    ensures { result ≡ operator_of minus }
{
    if minus {
        Operator::Difference
    } else {
        Operator::Sum
    }
}

/// Appends code that cuts a number by so many bits, if any.
fn cut_if(out: &mut Seq<AsmItem>, at: Location, wide: u8, bits: u8) -> Result<(), NoMemory>
    requires at { HasBytes at wide }
    requires some { 1 ≤ wide }
    requires most { wide ≤ 16 }
    requires room { (bits + 7) / 8 ≤ wide }
    ensures ok { OnOk result (out.new.items ≡ out.old.items ++ cut_if at wide bits) }
    ensures err { OnErr result (BeginWith out.old.items out.new.items) }
{
    if bits == 0 {
        Ok(())
    } else {
        cut(out, at, wide, bits)
    }
}

/// Appends code that cuts the number in the work bytes, and brings it into the format of the result.
fn settle(
    out: &mut Seq<AsmItem>,
    to: Operand,
    mode: Mode,
    work: Location,
    wide: u8,
    bits: u8,
) -> Result<(), NoMemory>
    requires format { IsFormat to.format }
    requires to { IsOperand to }
    requires work { HasBytes work wide }
    requires some { 1 ≤ wide }
    requires most { wide ≤ 16 }
    requires room { (bits + 7) / 8 ≤ wide }
    ensures ok { OnOk result (out.new.items ≡ out.old.items
        ++ settle_code to.format mode work to.at wide to.bytes bits) }
    ensures err { OnErr result (BeginWith out.old.items out.new.items) }
{
    cut_if(out, work, wide, bits)?;
    clamp(out, work, wide, to.at, to.format, mode)
}

/// Appends code that adds or subtracts the scaled operands, and brings the result into its format.
fn combine(
    out: &mut Seq<AsmItem>,
    minus: bool,
    to: Operand,
    mode: Mode,
    work: Location,
    wide: u8,
    bits: u8,
) -> Result<(), NoMemory>
    requires format { IsFormat to.format }
    requires to { IsOperand to }
    requires work { HasBytes work 40 }
    requires some { 1 ≤ wide }
    requires most { wide ≤ 16 }
    requires room { (bits + 7) / 8 ≤ wide }
    ensures ok { OnOk result (out.new.items ≡ out.old.items
        ++ combine_code minus to.format mode work to.at wide to.bytes bits) }
    ensures err { OnErr result (BeginWith out.old.items out.new.items) }
{
    operate(out, operator_of(minus), second_at(work), work, wide)?;
    settle(out, to, mode, work, wide, bits)
}

/// The bytes of a sum of two operands: one more than both have room in.
fn sum_bytes(first: Operand, second: Operand) -> u8
    requires first_format { IsOperandFormat first.format }
    requires first { IsOperand first }
    requires second_format { IsOperandFormat second.format }
    requires second { IsOperand second }
    ensures value { result ≡ suc (aligned_bytes first.format second.format first.bytes second.bytes) }
    ensures few { result ≤ 11 }
    ensures fraction { max first.format.frac second.format.frac + 16 ≤ 8 * result }
{
    aligned_bytes(first, second) + 1
}

/// Appends code that puts the exact sum of two operands, or the first one less the second, rounded toward zero, to the
/// place of the result, in its format: where it is out of the range of that format and the mode saturates, the nearer
/// end of the range. It needs no label, and at most 27 of the 40 work bytes. Where memory runs out, a part of the code
/// is appended.
pub fn sum(
    out: &mut Seq<AsmItem>,
    minus: bool,
    first: Operand,
    second: Operand,
    to: Operand,
    mode: Mode,
    work: Location,
) -> Result<(), NoMemory>
    requires first_format { IsOperandFormat first.format }
    requires first { IsOperand first }
    requires second_format { IsOperandFormat second.format }
    requires second { IsOperand second }
    requires to_format { IsFormat to.format }
    requires to { IsOperand to }
    requires work { HasBytes work 40 }
    ensures ok { OnOk result (out.new.items ≡ out.old.items
        ++ sum_code minus first.format second.format to.format mode first.at second.at to.at work first.bytes
        second.bytes to.bytes) }
    ensures err { OnErr result (BeginWith out.old.items out.new.items) }
{
    let wide = sum_bytes(first, second);
    let bits = surplus(first.format, second.format, to.format);
    align(out, first, second, work, wide)?;
    combine(out, minus, to, mode, work, wide, bits)
}

/// Appends code that puts a number of a format, negated, to the place of the result: where it is out of the range of
/// the format and the mode saturates, the nearer end of the range. It needs no label, and at most 9 of the 40 work
/// bytes. Where memory runs out, a part of the code is appended.
pub fn negate(
    out: &mut Seq<AsmItem>,
    of: Operand,
    to: Location,
    mode: Mode,
    work: Location,
) -> Result<(), NoMemory>
    requires format { IsFormat of.format }
    requires of { IsOperand of }
    requires to { HasBytes to of.bytes }
    requires work { HasBytes work 40 }
    ensures ok { OnOk result (out.new.items ≡ out.old.items
        ++ negate_code of.format mode of.at to work of.bytes) }
    ensures err { OnErr result (BeginWith out.old.items out.new.items) }
{
    let wide = of.bytes + 1;
    scale(out, of.format.signed, of.at, work, of.bytes, wide, 0)?;
    negate_bytes(out, work, wide)?;
    clamp(out, work, wide, to, of.format, mode)
}
