//! Operations with a fixed-point operand or result.
ghost use Rattle.std.specs.Prelude.{◌≡◌, ◌*◌, ◌/◌, ◌≤◌, ◌++◌, OnOk, OnErr};
ghost use Rattle.ec_runs.specs.Behaviours.{BeginWith};
ghost use Rattle.ec_fx.specs.Formats.{IsFormat};
ghost use Rattle.ec_asm.specs.Pieces.{HasBytes};
ghost use Rattle.ec_core.specs.Layout.{scalar_size};
ghost use Rattle.ec_core.specs.Plain.{plain_type};
ghost use Rattle.ec_fxcode_shifts.specs.Shifts.{shift_code};
ghost use Rattle.ec_fxcode_quotients.specs.Quotients.{divide_code};
ghost use Rattle.ec_fxcode_quotients.specs.QuotientLaws.{IsOperandFormat};
ghost use Rattle.ec_fxcode_sums.specs.Operands.{IsOperand};
ghost use Rattle.ec_fxcode_sums.specs.Sums.{sum_code};
ghost use Rattle.ec_fxcode_conversions.specs.Products.{multiply_code};
ghost use Rattle.ec_select_fixed.specs.Types.{IsNumberType, format_in, family_of, FormatsSuit, OperatorSuits};
ghost use Rattle.ec_select_fixed.specs.Types.{AreFixedOperands, IsFixedOperand, AreFixedConverted};
ghost use Rattle.ec_select_fixed.specs.Codes.{truth_code, compared_code, family_code, operator_code, fixed_binary_code};
ghost use Rattle.ec_select_fixed.specs.Codes.{fixed_unary_code, converted_code, fixed_conversion_code};

use crate::families::{FixedFamily, family_of};
use ec_asm::{AsmItem, Location, copy};
use ec_core::{BinOp, CType, UnOp};
use ec_fx::{Format, Mode};
use ec_fxcode_conversions::{convert, multiply, whole};
use ec_fxcode_quotients::{divide_numbers, whole_format};
use ec_fxcode_shifts::shift_number;
use ec_fxcode_sums::{Operand, negate, order, sum};
use ec_select_bytes::extend;
use ec_select_order::Relation;
use ec_space::{NoMemory, Seq};

/// Where the operands and the result of an operation stand, and 40 work bytes.
#[derive(Clone, Copy)]
pub struct Places {
    pub left: Location,
    pub right: Location,
    pub to: Location,
    pub work: Location,
}

/// The formats of operands and result.
#[derive(Clone, Copy)]
struct Formats {
    left: Format,
    right: Format,
    to: Format,
}

/// How the numbers of a type are kept.
fn format_in(ty: &CType) -> Format
    requires { IsNumberType (plain_type ty.now) }
    ensures value { result ≡ format_in (plain_type ty.now) }
    ensures bytes { result.bits / 8 ≡ scalar_size (plain_type ty.now) }
{
    match ty {
        CType::Int { signed, bytes } => whole_format(*signed, *bytes),
        CType::Fx { kind, .. } => kind.format(),
        _ => Format {
            signed: false,
            bits: 0,
            frac: 0,
        },
    }
}

fn operand(at: Location, format: Format) -> Operand
    ensures at { result.at ≡ at }
    ensures format { result.format ≡ format }
    ensures bytes { result.bytes ≡ format.bits / 8 }
{
    Operand {
        at,
        format,
        bytes: format.bits / 8,
    }
}

fn conversion_number(at: Location, format: Format) -> ec_fxcode_conversions::Number
    ensures at { result.at ≡ at }
    ensures format { result.format ≡ format }
{
    ec_fxcode_conversions::Number { at, format }
}

fn quotient_term(at: Location, format: Format) -> ec_fxcode_quotients::Term
    ensures at { result.at ≡ at }
    ensures format { result.format ≡ format }
{
    ec_fxcode_quotients::Term { at, format }
}

/// Appends code that makes the truth value in R30 an int.
fn truth(out: &mut Seq<AsmItem>, to: Location) -> Result<(), NoMemory>
    requires { HasBytes to 2 }
    ensures ok { OnOk result (out.new.items ≡ out.old.items ++ truth_code to) }
    ensures err { OnErr result (BeginWith out.old.items out.new.items) }
{
    copy(out, Location::InRegisters(30), to, 1)?;
    extend(out, false, to, 1, 2)
}

/// Appends code that tells as an int whether the first operand stands in a relation to the second one.
fn compared(
    out: &mut Seq<AsmItem>,
    relation: Relation,
    first: Operand,
    second: Operand,
    to: Location,
    work: Location,
) -> Result<(), NoMemory>
    requires first_format { IsOperandFormat first.format }
    requires first { IsOperand first }
    requires second_format { IsOperandFormat second.format }
    requires second { IsOperand second }
    requires to { HasBytes to 2 }
    requires work { HasBytes work 40 }
    ensures ok { OnOk result (out.new.items ≡ out.old.items
        ++ compared_code relation first.format second.format first.at second.at to work first.bytes second.bytes) }
    ensures err { OnErr result (BeginWith out.old.items out.new.items) }
{
    order(out, relation, first, second, work)?;
    truth(out, to)
}

/// Appends the code of a sum or a difference.
fn added(
    out: &mut Seq<AsmItem>,
    minus: bool,
    formats: Formats,
    mode: Mode,
    places: Places,
) -> Result<(), NoMemory>
    requires formats { FormatsSuit (FixedFamily.Added minus) formats.left formats.right formats.to }
    requires left { HasBytes places.left (formats.left.bits / 8) }
    requires right { HasBytes places.right (formats.right.bits / 8) }
    requires to { HasBytes places.to (formats.to.bits / 8) }
    requires work { HasBytes places.work 40 }
    ensures ok { OnOk result (out.new.items ≡ out.old.items
        ++ sum_code minus formats.left formats.right formats.to mode places.left places.right places.to places.work
        (formats.left.bits / 8) (formats.right.bits / 8) (formats.to.bits / 8)) }
    ensures err { OnErr result (BeginWith out.old.items out.new.items) }
{
    let left = operand(places.left, formats.left);
    let right = operand(places.right, formats.right);
    let to = operand(places.to, formats.to);
    sum(out, minus, left, right, to, mode, places.work)
}

/// Appends the code of a product of two bytes.
fn multiplied(
    out: &mut Seq<AsmItem>,
    formats: Formats,
    mode: Mode,
    places: Places,
) -> Result<(), NoMemory>
    requires formats { FormatsSuit FixedFamily.Multiplied formats.left formats.right formats.to }
    requires left { HasBytes places.left (formats.left.bits / 8) }
    requires right { HasBytes places.right (formats.right.bits / 8) }
    requires to { HasBytes places.to (formats.to.bits / 8) }
    requires work { HasBytes places.work 40 }
    ensures ok { OnOk result (out.new.items ≡ out.old.items
        ++ multiply_code formats.left formats.right formats.to mode places.left places.right places.to places.work) }
    ensures err { OnErr result (BeginWith out.old.items out.new.items) }
{
    let left = conversion_number(places.left, formats.left);
    let right = conversion_number(places.right, formats.right);
    let to = conversion_number(places.to, formats.to);
    multiply(out, left, right, to, mode, places.work)
}

/// Appends the code of a quotient.
fn divided(
    out: &mut Seq<AsmItem>,
    formats: Formats,
    mode: Mode,
    places: Places,
) -> Result<(), NoMemory>
    requires formats { FormatsSuit FixedFamily.Divided formats.left formats.right formats.to }
    requires left { HasBytes places.left (formats.left.bits / 8) }
    requires right { HasBytes places.right (formats.right.bits / 8) }
    requires to { HasBytes places.to (formats.to.bits / 8) }
    requires work { HasBytes places.work 40 }
    ensures ok { OnOk result (out.new.items ≡ out.old.items
        ++ divide_code formats.left formats.right formats.to mode places.left places.right places.to places.work
        (formats.left.bits / 8) (formats.right.bits / 8) (formats.to.bits / 8)) }
    ensures err { OnErr result (BeginWith out.old.items out.new.items) }
{
    let left = quotient_term(places.left, formats.left);
    let right = quotient_term(places.right, formats.right);
    let to = quotient_term(places.to, formats.to);
    divide_numbers(out, left, right, to, mode, places.work)
}

/// Appends the code of a shift.
fn shifted(
    out: &mut Seq<AsmItem>,
    left: bool,
    formats: Formats,
    mode: Mode,
    places: Places,
) -> Result<(), NoMemory>
    requires formats { FormatsSuit (FixedFamily.Shifted left) formats.left formats.right formats.to }
    requires left { HasBytes places.left (formats.left.bits / 8) }
    requires right { HasBytes places.right (formats.right.bits / 8) }
    requires to { HasBytes places.to (formats.to.bits / 8) }
    requires work { HasBytes places.work 40 }
    ensures ok { OnOk result (out.new.items ≡ out.old.items
        ++ shift_code formats.left left mode places.left places.right places.to places.work (formats.left.bits / 8)) }
    ensures err { OnErr result (BeginWith out.old.items out.new.items) }
{
    shift_number(
        out,
        formats.left,
        left,
        mode,
        places.left,
        places.right,
        places.to,
        places.work,
    )
}

/// Appends the code of a comparison, with the operands as they stand or exchanged.
fn related(
    out: &mut Seq<AsmItem>,
    relation: Relation,
    exchanged: bool,
    formats: Formats,
    mode: Mode,
    places: Places,
) -> Result<(), NoMemory>
    requires formats { FormatsSuit (FixedFamily.Compared relation exchanged) formats.left formats.right formats.to }
    requires left { HasBytes places.left (formats.left.bits / 8) }
    requires right { HasBytes places.right (formats.right.bits / 8) }
    requires to { HasBytes places.to (formats.to.bits / 8) }
    requires work { HasBytes places.work 40 }
    ensures ok { OnOk result (out.new.items ≡ out.old.items
        ++ family_code (FixedFamily.Compared relation exchanged) formats.left formats.right formats.to mode places.left
        places.right places.to places.work (formats.left.bits / 8) (formats.right.bits / 8) (formats.to.bits / 8)) }
    ensures err { OnErr result (BeginWith out.old.items out.new.items) }
{
    let left = operand(places.left, formats.left);
    let right = operand(places.right, formats.right);
    if exchanged {
        compared(out, relation, right, left, places.to, places.work)
    } else {
        compared(out, relation, left, right, places.to, places.work)
    }
}

/// Appends the code of an operator of some family.
fn computed(
    out: &mut Seq<AsmItem>,
    family: FixedFamily,
    formats: Formats,
    mode: Mode,
    places: Places,
) -> Result<(), NoMemory>
    requires formats { FormatsSuit family formats.left formats.right formats.to }
    requires left { HasBytes places.left (formats.left.bits / 8) }
    requires right { HasBytes places.right (formats.right.bits / 8) }
    requires to { HasBytes places.to (formats.to.bits / 8) }
    requires work { HasBytes places.work 40 }
    ensures ok { OnOk result (out.new.items ≡ out.old.items
        ++ family_code family formats.left formats.right formats.to mode places.left places.right places.to places.work
        (formats.left.bits / 8) (formats.right.bits / 8) (formats.to.bits / 8)) }
    ensures err { OnErr result (BeginWith out.old.items out.new.items) }
{
    match family {
        FixedFamily::Added { minus } => added(out, minus, formats, mode, places),
        FixedFamily::Multiplied => multiplied(out, formats, mode, places),
        FixedFamily::Divided => divided(out, formats, mode, places),
        FixedFamily::Shifted { left } => shifted(out, left, formats, mode, places),
        FixedFamily::Compared {
            relation,
            exchanged,
        } => related(out, relation, exchanged, formats, mode, places),
    }
}

/// Appends code for a binary operator on operands of types `aty` and `bty`, of which one is fixed-point at least: the
/// result, of type `ty`, stands at its place, where there is one. The code needs no label. Where memory runs out, a
/// part of it is appended.
pub fn fixed_binary(
    out: &mut Seq<AsmItem>,
    op: BinOp,
    ty: &CType,
    aty: &CType,
    bty: &CType,
    mode: Mode,
    places: Places,
) -> Result<(), NoMemory>
    requires types { AreFixedOperands op (plain_type ty.now) (plain_type aty.now) (plain_type bty.now) }
    requires left { HasBytes places.left (scalar_size (plain_type aty.now)) }
    requires right { HasBytes places.right (scalar_size (plain_type bty.now)) }
    requires to { HasBytes places.to (scalar_size (plain_type ty.now)) }
    requires work { HasBytes places.work 40 }
    ensures ok { OnOk result (out.new.items ≡ out.old.items
        ++ fixed_binary_code op (plain_type ty.now) (plain_type aty.now) (plain_type bty.now) mode places.left
        places.right places.to places.work) }
    ensures err { OnErr result (BeginWith out.old.items out.new.items) }
{
    let formats = Formats {
        left: format_in(aty),
        right: format_in(bty),
        to: format_in(ty),
    };
    match family_of(op) {
        Some(family) => computed(out, family, formats, mode, places),
        None => Ok(()),
    }
}

/// Appends code for a unary operator on an operand of a fixed-point type, which is that of the result: the result
/// stands at its place, where there is one. The code needs no label. Where memory runs out, a part of it is appended.
pub fn fixed_unary(
    out: &mut Seq<AsmItem>,
    op: UnOp,
    ty: &CType,
    mode: Mode,
    from: Location,
    to: Location,
    work: Location,
) -> Result<(), NoMemory>
    requires types { IsFixedOperand op (plain_type ty.now) }
    requires from { HasBytes from (scalar_size (plain_type ty.now)) }
    requires to { HasBytes to (scalar_size (plain_type ty.now)) }
    requires work { HasBytes work 40 }
    ensures ok { OnOk result (out.new.items ≡ out.old.items
        ++ fixed_unary_code op (plain_type ty.now) mode from to work) }
    ensures err { OnErr result (BeginWith out.old.items out.new.items) }
{
    match op {
        UnOp::Minus => {
            let of = operand(from, format_in(ty));
            negate(out, of, to, mode, work)
        }
        UnOp::Invert => Ok(()),
    }
}

/// Appends code that brings a value into another type.
fn converted(
    out: &mut Seq<AsmItem>,
    ty: &CType,
    aty: &CType,
    mode: Mode,
    from: Location,
    to: Location,
    work: Location,
) -> Result<(), NoMemory>
    requires types { AreFixedConverted (plain_type ty.now) (plain_type aty.now) }
    requires from { HasBytes from (scalar_size (plain_type aty.now)) }
    requires to { HasBytes to (scalar_size (plain_type ty.now)) }
    requires work { HasBytes work 40 }
    ensures ok { OnOk result (out.new.items ≡ out.old.items
        ++ converted_code (plain_type ty.now) (plain_type aty.now) mode from to work) }
    ensures err { OnErr result (BeginWith out.old.items out.new.items) }
{
    let number = conversion_number(from, format_in(aty));
    match ty {
        CType::Int { bytes, .. } => whole(out, number, to, *bytes, work),
        CType::Fx { kind, .. } => {
            let result = conversion_number(to, kind.format());
            convert(out, number, result, mode, work)
        }
        _ => Ok(()),
    }
}

/// Appends code that gives a value of the type `aty` the type `ty`, of which one is fixed-point at least: the result
/// stands at its place, where there is one. The code needs no label. Where memory runs out, a part of it is appended.
pub fn fixed_conversion(
    out: &mut Seq<AsmItem>,
    ty: &CType,
    aty: &CType,
    mode: Mode,
    from: Location,
    to: Location,
    work: Location,
) -> Result<(), NoMemory>
    requires types { AreFixedConverted (plain_type ty.now) (plain_type aty.now) }
    requires from { HasBytes from (scalar_size (plain_type aty.now)) }
    requires to { HasBytes to (scalar_size (plain_type ty.now)) }
    requires work { HasBytes work 40 }
    ensures ok { OnOk result (out.new.items ≡ out.old.items
        ++ fixed_conversion_code (plain_type ty.now) (plain_type aty.now) mode from to work) }
    ensures err { OnErr result (BeginWith out.old.items out.new.items) }
{
    if ty.is_same(aty) {
        let bytes = format_in(ty).bits / 8;
        copy(out, from, to, bytes)
    } else {
        converted(out, ty, aty, mode, from, to, work)
    }
}
