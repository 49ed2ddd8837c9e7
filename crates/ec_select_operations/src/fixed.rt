//! Operations with a fixed-point type: they are those of integers where both give the same, a sum or a difference that
//! saturates is one of integers that is stopped at the ends of its range, and most shifts are made in the place of the
//! result. Else they compute in the work bytes, and their result is brought from there to its place.
ghost use Rattle.std.specs.Prelude.{◌≡◌, ◌-◌, ◌≤◌, ◌<◌, ◌++◌, suc, true, not, ◌&&◌, Some, None, OnOk, OnErr};
ghost use Rattle.ec_runs.specs.Behaviours.{BeginWith};
ghost use Rattle.ec_asm.specs.Pieces.{HasBytes, operate_code};
ghost use Rattle.ec_fxcode_limits.specs.Limits.{operator_of, limited_code};
ghost use Rattle.ec_fxcode_placed.specs.Shifts.{placed_code};
ghost use Rattle.ec_fxcode_placed.specs.Counts.{placed_by_code};
ghost use Rattle.ec_core.specs.Layout.{scalar_size};
ghost use Rattle.ec_core.specs.Plain.{plain_type};
ghost use Rattle.ec_fxcode_formats.specs.Brought.{can_bring};
ghost use Rattle.ec_select_fixed.specs.Types.{format_in};
ghost use Rattle.ec_ir.specs.Operations.{plain_ir};
ghost use Rattle.ec_select_operations.specs.Needs.{is_fixed, is_shift, is_counted, takes_count};
ghost use Rattle.ec_select_operations.specs.Code.{takes_place, is_placed, stopped_code, placed_shift, placed_whole};
ghost use Rattle.ec_select_operations.specs.Code.{move_code, placed_binary};
ghost use Rattle.ec_select_operations.specs.Emitted.{second_bytes};
ghost use Rattle.ec_select_operations.specs.Code.{work_location, answer_location, fixed_binary, fixed_unary};
ghost use Rattle.ec_select_operations.specs.Code.{fixed_conversion, keeps_number, family_of, is_as_exact, is_on_integers, is_apart};
ghost use Rattle.ec_select_operations.specs.Code.{is_untold};
ghost use Rattle.ec_select_operations.specs.Code.{brought_code, aside_location, from_zero_code, negated_code, negated_unary};
ghost use Rattle.ec_select_operations.specs.Emitted.{FixedHasBytes, FixedOperandHasBytes, FixedConversionHasBytes};
ghost use Rattle.ec_select_operations.specs.Homes.{home};

use crate::families::{
    BinaryOperation, Family, Told, convert, family_of, is_same, move_number, unary,
};
use crate::homes::{Homes, home};
use crate::numbers::{bits_of, integer_binary, number_known};
use crate::pointers::is_difference;
use crate::types::{has_one_format, has_one_fraction, is_fixed, is_pointer, is_signed, is_whole};
use ec_asm::{AsmItem, Location, Operator, copy, operate};
use ec_core::{BinOp, CType, UnOp};
use ec_fx::Mode;
use ec_fxcode_formats::{Digits, bring, can_bring};
use ec_fxcode_limits::{limit, negate_byte};
use ec_fxcode_placed::{shift_in_place, shift_in_place_by};
use ec_ir::{Ir, Temp, scalar_size};
use ec_ir_known::RightNumber;
use ec_select_bytes::constant;
use ec_select_fixed::Places;
use ec_space::{NoMemory, Seq};

/// The work bytes.
fn work_location() -> Location
    ensures { result ≡ work_location }
{
    Location::InMemory {
        object: 1280,
        offset: 0,
    }
}

/// Where an operation leaves its result.
pub(crate) fn answer_location() -> Location
    ensures { result ≡ answer_location }
{
    Location::InMemory {
        object: 1280,
        offset: 40,
    }
}

/// Whether an operator gives for numbers of one format what it gives for the integers that their bytes stand for, where
/// its result is in that format or not.
fn is_as_exact(family: Family, mode: Mode, in_format: bool) -> bool
    ensures { result ≡ is_as_exact family mode in_format }
{
    match family {
        Family::Combined(_) => in_format && !mode.saturate,
        Family::Compared { .. } => true,
        _ => false,
    }
}

/// Whether an operator with these types of its result and its operands does to them what it does to the integers that
/// their bytes stand for.
fn is_on_integers(family: Family, mode: Mode, ty: &CType, aty: &CType, bty: &CType) -> bool
    ensures { result ≡ is_on_integers family mode (plain_type ty.now) (plain_type aty.now) (plain_type bty.now) }
{
    has_one_format(aty, bty) && is_as_exact(family, mode, has_one_format(ty, aty))
}

/// Whether an operator has a fixed-point operand or a pointer, and does not do to it what it does to the integer of its
/// bytes.
pub fn is_apart(family: Family, mode: Mode, ty: &CType, aty: &CType, bty: &CType) -> bool
    ensures { result ≡ is_apart family mode (plain_type ty.now) (plain_type aty.now) (plain_type bty.now) }
{
    (is_whole(aty) || is_whole(bty)) && !is_on_integers(family, mode, ty, aty, bty)
}

/// Whether an operator apart leaves nothing in a flag: any but a comparison of two pointers.
pub(crate) fn is_untold(family: Family, mode: Mode, ty: &CType, aty: &CType, bty: &CType) -> bool
    ensures { result ≡ is_untold family mode (plain_type ty.now) (plain_type aty.now) (plain_type bty.now) }
{
    !(is_pointer(aty) && is_pointer(bty)) && is_apart(family, mode, ty, aty, bty)
}

/// Whether an operator computes its result, which is of the format of its first operand, in its place.
fn takes_place(op: BinOp, mode: Mode, in_one_format: bool) -> bool
    ensures { result ≡ takes_place op mode in_one_format }
{
    match op {
        BinOp::Add | BinOp::Sub => in_one_format && mode.saturate,
        BinOp::Shl => !mode.saturate,
        BinOp::Shr => true,
        _ => false,
    }
}

/// Whether an operator with these types of its result and its operands does so.
fn is_placed(op: BinOp, mode: Mode, ty: &CType, aty: &CType, bty: &CType) -> bool
    ensures { result ≡ is_placed op mode (plain_type ty.now) (plain_type aty.now) (plain_type bty.now) }
{
    has_one_format(ty, aty) && takes_place(op, mode, has_one_format(aty, bty))
}

fn is_shift(op: BinOp) -> bool
    ensures { result ≡ is_shift op }
{
    matches!(op, BinOp::Shl | BinOp::Shr)
}

/// Whether a fixed-point number is shifted in the place of the result, and its count is at another place.
pub fn is_counted(
    op: BinOp,
    mode: Mode,
    ty: &CType,
    aty: &CType,
    bty: &CType,
    to: Temp,
    b: Temp,
) -> bool
    ensures { result ≡ is_counted op mode (plain_type ty.now) (plain_type aty.now) (plain_type bty.now) to b }
{
    is_shift(op) && is_placed(op, mode, ty, aty, bty) && b.at != to.at
}

/// Whether an operation, whose second operand may be known to hold a number, takes it as the count of such a shift.
pub fn takes_count(known: Option<RightNumber>, i: &Ir) -> bool
    ensures { result ≡ takes_count known (plain_ir i.now) }
{
    match i {
        Ir::Bin {
            op,
            ty,
            mode,
            to,
            aty,
            b,
            bty,
            ..
        } => number_known(known).is_some() && is_counted(*op, *mode, ty, aty, bty, *to, *b),
        _ => false,
    }
}

/// Where two operands stand, and whether the first one has a sign.
#[derive(Clone, Copy)]
struct Operands {
    signed: bool,
    left: Location,
    right: Location,
}

/// Appends code that adds a number of so many bytes to another one, or takes it from that.
fn add(
    out: &mut Seq<AsmItem>,
    minus: bool,
    right: Location,
    to: Location,
    bytes: u8,
) -> Result<(), NoMemory>
    requires right { HasBytes right bytes }
    requires to { HasBytes to bytes }
    ensures ok { OnOk result (out.new.items ≡ out.old.items ++ operate_code (operator_of minus) right to bytes) }
    ensures err { OnErr result (BeginWith out.old.items out.new.items) }
{
    if minus {
        operate(out, Operator::Difference, right, to, bytes)
    } else {
        operate(out, Operator::Sum, right, to, bytes)
    }
}

/// Appends code that adds the second number, or takes it, where the first one stands, and stops there at the ends of the
/// range of numbers of `top + 1` bytes.
#[tactic(auto, using(crate::proofs::Emits::fewer_bytes, crate::proofs::Emits::byte_there))]
fn limited(
    out: &mut Seq<AsmItem>,
    minus: bool,
    of: Operands,
    to: Location,
    top: u8,
) -> Result<(), NoMemory>
    requires right { HasBytes of.right (suc top) }
    requires to { HasBytes to (suc top) }
    requires few { top < 255 }
    ensures ok { OnOk result (out.new.items ≡ out.old.items ++ limited_code minus of.signed of.right to top) }
    ensures err { OnErr result (BeginWith out.old.items out.new.items) }
{
    add(out, minus, of.right, to, top + 1)?;
    limit(out, minus, of.signed, to, top)
}

/// Appends code that puts the sum or the difference of two numbers of `top + 1` bytes to another place, or where it is
/// out of range the nearer end.
fn stopped(
    out: &mut Seq<AsmItem>,
    minus: bool,
    of: Operands,
    to: Location,
    top: u8,
) -> Result<(), NoMemory>
    requires left { HasBytes of.left (suc top) }
    requires right { HasBytes of.right (suc top) }
    requires to { HasBytes to (suc top) }
    requires few { top < 255 }
    ensures ok { OnOk result (out.new.items ≡ out.old.items
        ++ stopped_code minus of.signed of.left of.right to top) }
    ensures err { OnErr result (BeginWith out.old.items out.new.items) }
{
    move_number(out, of.left, to, top + 1)?;
    limited(out, minus, of, to, top)
}

/// Appends code that puts a number of so many bytes to another place and shifts it there by the count in R30.
#[tactic(auto, using(crate::proofs::Emits::byte_there))]
fn shifted(
    out: &mut Seq<AsmItem>,
    left: bool,
    of: Operands,
    to: Location,
    bytes: u8,
) -> Result<(), NoMemory>
    requires left { HasBytes of.left bytes }
    requires to { HasBytes to bytes }
    requires some { 1 ≤ bytes }
    ensures ok { OnOk result (out.new.items ≡ out.old.items
        ++ (move_code of.left to bytes ++ placed_code left of.signed to bytes)) }
    ensures err { OnErr result (BeginWith out.old.items out.new.items) }
{
    move_number(out, of.left, to, bytes)?;
    shift_in_place(out, left, of.signed, to, bytes)
}

/// Appends code that puts a number of so many bytes to another place and shifts it there by a known count.
#[tactic(auto, using(crate::proofs::Emits::byte_there))]
fn shifted_by(
    out: &mut Seq<AsmItem>,
    left: bool,
    of: Operands,
    to: Location,
    bytes: u8,
    count: u8,
) -> Result<(), NoMemory>
    requires left { HasBytes of.left bytes }
    requires to { HasBytes to bytes }
    requires some { 1 ≤ bytes }
    ensures ok { OnOk result (out.new.items ≡ out.old.items
        ++ (move_code of.left to bytes ++ placed_by_code left of.signed to bytes count)) }
    ensures err { OnErr result (BeginWith out.old.items out.new.items) }
{
    move_number(out, of.left, to, bytes)?;
    shift_in_place_by(out, left, of.signed, to, bytes, count)
}

/// Appends code that puts a number of `top + 1` bytes, shifted by the lowest byte of another one, to another place.
fn shift_by_count(
    out: &mut Seq<AsmItem>,
    left: bool,
    of: Operands,
    to: Location,
    top: u8,
) -> Result<(), NoMemory>
    requires left { HasBytes of.left (suc top) }
    requires right { HasBytes of.right 1 }
    requires to { HasBytes to (suc top) }
    requires few { top < 255 }
    ensures ok { OnOk result (out.new.items ≡ out.old.items
        ++ placed_shift None left of.signed of.left of.right to top) }
    ensures err { OnErr result (BeginWith out.old.items out.new.items) }
{
    move_number(out, of.right, Location::InRegisters(30), 1)?;
    shifted(out, left, of, to, top + 1)
}

/// The same, where the other number is known.
fn shift_by_number(
    out: &mut Seq<AsmItem>,
    number: i128,
    left: bool,
    of: Operands,
    to: Location,
    top: u8,
) -> Result<(), NoMemory>
    requires left { HasBytes of.left (suc top) }
    requires to { HasBytes to (suc top) }
    requires few { top < 255 }
    ensures ok { OnOk result (out.new.items ≡ out.old.items
        ++ placed_shift (Some number) left of.signed of.left of.right to top) }
    ensures err { OnErr result (BeginWith out.old.items out.new.items) }
{
    let count = (bits_of(number) % 256) as u8;
    shifted_by(out, left, of, to, top + 1, count)
}

/// Either of them.
fn shift(
    out: &mut Seq<AsmItem>,
    known: Option<i128>,
    left: bool,
    of: Operands,
    to: Location,
    top: u8,
) -> Result<(), NoMemory>
    requires left { HasBytes of.left (suc top) }
    requires right { HasBytes of.right 1 }
    requires to { HasBytes to (suc top) }
    requires few { top < 255 }
    ensures ok { OnOk result (out.new.items ≡ out.old.items
        ++ placed_shift known left of.signed of.left of.right to top) }
    ensures err { OnErr result (BeginWith out.old.items out.new.items) }
{
    match known {
        Some(number) => shift_by_number(out, number, left, of, to, top),
        None => shift_by_count(out, left, of, to, top),
    }
}

/// Appends the code of an operator that computes its result, of `top + 1` bytes, in its place.
#[tactic(auto, using(crate::proofs::Emits::fewer_bytes))]
fn placed_whole(
    out: &mut Seq<AsmItem>,
    known: Option<RightNumber>,
    op: BinOp,
    of: Operands,
    to: Location,
    top: u8,
) -> Result<(), NoMemory>
    requires left { HasBytes of.left (suc top) }
    requires right { HasBytes of.right (second_bytes op (suc top)) }
    requires to { HasBytes to (suc top) }
    requires few { top < 255 }
    ensures ok { OnOk result (out.new.items ≡ out.old.items
        ++ placed_whole known op of.signed of.left of.right to top) }
    ensures err { OnErr result (BeginWith out.old.items out.new.items) }
{
    match op {
        BinOp::Shl => shift(out, number_known(known), true, of, to, top),
        BinOp::Shr => shift(out, number_known(known), false, of, to, top),
        _ => stopped(out, is_difference(op), of, to, top),
    }
}

/// The same of a first operand of so many bytes, where so many bytes of the result are wanted.
fn placed(
    out: &mut Seq<AsmItem>,
    known: Option<RightNumber>,
    op: BinOp,
    of: Operands,
    to: Location,
    bytes: u8,
    wanted: u8,
) -> Result<(), NoMemory>
    requires left { HasBytes of.left bytes }
    requires right { HasBytes of.right (second_bytes op bytes) }
    requires to { HasBytes to bytes }
    requires some { 1 ≤ bytes }
    ensures ok { OnOk result (out.new.items ≡ out.old.items
        ++ placed_binary known op of.signed of.left of.right to bytes wanted) }
    ensures err { OnErr result (BeginWith out.old.items out.new.items) }
{
    if wanted == 0 {
        return Ok(());
    }
    placed_whole(out, known, op, of, to, bytes - 1)
}

/// Appends the code of a binary operator on operands of which one is fixed-point at least, of whose result so many
/// bytes are wanted, or where it tells something by a flag, of the comparison alone. Where memory runs out, a part of
/// the code is appended.
#[tactic(auto, using(crate::proofs::Emits::fewer_bytes, crate::proofs::OneFormat::integer_bytes, crate::proofs::OneFormat::integer_numbers, crate::proofs::OneFormat::placed_bytes))]
pub fn fixed_binary(
    out: &mut Seq<AsmItem>,
    homes: Homes,
    known: Option<RightNumber>,
    telling: Option<Told>,
    op: BinOp,
    ty: &CType,
    mode: Mode,
    to: Temp,
    a: Temp,
    aty: &CType,
    b: Temp,
    bty: &CType,
    wanted: u8,
) -> Result<(), NoMemory>
    requires { FixedHasBytes op wanted to a b (plain_type ty.now) (plain_type aty.now) (plain_type bty.now) }
    ensures ok { OnOk result (out.new.items ≡ out.old.items
        ++ fixed_binary known telling op (plain_type ty.now) (plain_type aty.now) (plain_type bty.now) mode (home homes a)
        (home homes b) (home homes to) a.bytes wanted) }
    ensures err { OnErr result (BeginWith out.old.items out.new.items) }
{
    if is_on_integers(family_of(op), mode, ty, aty, bty) {
        let of = BinaryOperation {
            to,
            a,
            b,
            left_signed: is_signed(aty),
            right_signed: is_signed(bty),
        };
        return integer_binary(out, homes, known, telling, op, of, wanted);
    }
    let (left, right, place) = (home(homes, a), home(homes, b), home(homes, to));
    if is_placed(op, mode, ty, aty, bty) && !is_same(right, place) {
        let of = Operands {
            signed: is_signed(aty),
            left,
            right,
        };
        return placed(out, known, op, of, place, a.bytes, wanted);
    }
    if wanted == 0 {
        return Ok(());
    }
    let places = Places {
        left,
        right,
        to: answer_location(),
        work: work_location(),
    };
    ec_select_fixed::fixed_binary(out, op, ty, aty, bty, mode, places)?;
    copy(out, answer_location(), place, wanted)
}

/// Where a number of up to 6 bytes waits while its place gets a result.
fn aside_location() -> Location
    ensures { result ≡ aside_location }
{
    Location::InRegisters(8)
}

/// Appends code that puts a number aside, and takes it from 0 at another place, stopped at the ends of its range.
#[tactic(auto, using(crate::proofs::Emits::fewer_bytes))]
fn from_zero(
    out: &mut Seq<AsmItem>,
    signed: bool,
    from: Location,
    to: Location,
    bytes: u8,
) -> Result<(), NoMemory>
    requires from { HasBytes from bytes }
    requires to { HasBytes to bytes }
    requires some { 1 ≤ bytes }
    requires few { bytes ≤ 6 }
    ensures ok { OnOk result (out.new.items ≡ out.old.items ++ from_zero_code signed from to bytes) }
    ensures err { OnErr result (BeginWith out.old.items out.new.items) }
{
    let right = aside_location();
    copy(out, from, right, bytes)?;
    constant(out, 0, to, bytes)?;
    let of = Operands {
        signed,
        left: from,
        right,
    };
    limited(out, true, of, to, bytes - 1)
}

/// Appends code that negates a number, stopped at the ends of its range: one byte with a sign in the register of the result.
fn negated(
    out: &mut Seq<AsmItem>,
    signed: bool,
    from: Location,
    to: Location,
    bytes: u8,
) -> Result<(), NoMemory>
    requires from { HasBytes from bytes }
    requires to { HasBytes to bytes }
    requires some { 1 ≤ bytes }
    requires few { bytes ≤ 6 }
    ensures ok { OnOk result (out.new.items ≡ out.old.items ++ negated_code signed from to bytes) }
    ensures err { OnErr result (BeginWith out.old.items out.new.items) }
{
    match to {
        Location::InRegisters(register) if signed && bytes == 1 => {
            move_number(out, from, to, 1)?;
            negate_byte(out, register)
        }
        _ => from_zero(out, signed, from, to, bytes),
    }
}

/// The same where so many bytes of the result are wanted.
fn negated_unary(
    out: &mut Seq<AsmItem>,
    signed: bool,
    from: Location,
    to: Location,
    bytes: u8,
    wanted: u8,
) -> Result<(), NoMemory>
    requires from { HasBytes from bytes }
    requires to { HasBytes to bytes }
    requires some { 1 ≤ bytes }
    requires few { bytes ≤ 6 }
    ensures ok { OnOk result (out.new.items ≡ out.old.items ++ negated_unary signed from to bytes wanted) }
    ensures err { OnErr result (BeginWith out.old.items out.new.items) }
{
    if wanted == 0 {
        return Ok(());
    }
    negated(out, signed, from, to, bytes)
}

/// Appends the code of a unary operator on an operand of a fixed-point type, of whose result so many bytes are wanted.
/// Where memory runs out, a part of the code is appended.
#[tactic(auto, using(crate::proofs::Emits::fewer_bytes, crate::proofs::OneFormat::some_negated))]
pub fn fixed_unary(
    out: &mut Seq<AsmItem>,
    homes: Homes,
    op: UnOp,
    ty: &CType,
    mode: Mode,
    to: Temp,
    a: Temp,
    wanted: u8,
) -> Result<(), NoMemory>
    requires { FixedOperandHasBytes op wanted to a (plain_type ty.now) }
    ensures ok { OnOk result (out.new.items ≡ out.old.items
        ++ fixed_unary op (plain_type ty.now) mode (home homes a) (home homes to) wanted) }
    ensures err { OnErr result (BeginWith out.old.items out.new.items) }
{
    if !mode.saturate {
        return unary(out, op, home(homes, a), home(homes, to), wanted);
    }
    let bytes = scalar_size(ty);
    if bytes <= 6 {
        let (from, place) = (home(homes, a), home(homes, to));
        return negated_unary(out, is_signed(ty), from, place, bytes, wanted);
    }
    if wanted == 0 {
        return Ok(());
    }
    let (from, work) = (home(homes, a), work_location());
    ec_select_fixed::fixed_unary(out, op, ty, mode, from, answer_location(), work)?;
    copy(out, answer_location(), home(homes, to), wanted)
}

/// Whether a conversion gives the same number: to the same format, and where it does not saturate, to one with as many
/// bits behind the point.
fn keeps_number(ty: &CType, aty: &CType, mode: Mode) -> bool
    ensures { result ≡ keeps_number (plain_type ty.now) (plain_type aty.now) mode }
{
    has_one_format(ty, aty) || (has_one_fraction(ty, aty) && !mode.saturate)
}

/// The bits behind the point of the numbers of a type.
#[tactic(auto, using(crate::proofs::OneFormat::few_bits))]
fn fraction(ty: &CType) -> u8
    ensures value { result ≡ (format_in (plain_type ty.now)).frac }
    ensures few { result < 64 }
{
    match ty {
        CType::Fx { kind, .. } => kind.format().frac,
        _ => 0,
    }
}

fn digits(ty: &CType) -> Digits
    ensures bytes { result.bytes ≡ scalar_size (plain_type ty.now) }
    ensures fraction { result.fraction ≡ (format_in (plain_type ty.now)).frac }
    ensures few { result.fraction < 64 }
{
    Digits {
        bytes: scalar_size(ty),
        fraction: fraction(ty),
    }
}

/// Whether a conversion brings numbers from the first form to the second one by registers: one to a fixed-point type
/// does not saturate.
fn is_brought(ty: &CType, mode: Mode, from: Digits, to: Digits) -> bool
    requires from { from.fraction < 64 }
    requires to { to.fraction < 64 }
    ensures { result ≡ (not (is_fixed (plain_type ty.now) && mode.saturate)
        && can_bring from.bytes to.bytes from.fraction to.fraction) }
{
    !(is_fixed(ty) && mode.saturate) && can_bring(from, to)
}

/// A number and where it is to stand in another form.
#[derive(Clone, Copy)]
struct Conversion {
    signed: bool,
    given: Digits,
    needed: Digits,
}

/// Appends code that does so, where so many bytes of the result are wanted.
#[tactic(auto, using(crate::proofs::Emits::byte_there))]
fn brought(
    out: &mut Seq<AsmItem>,
    of: Conversion,
    from: Location,
    to: Location,
    wanted: u8,
) -> Result<(), NoMemory>
    requires from { HasBytes from of.given.bytes }
    requires to { HasBytes to of.needed.bytes }
    requires some { 1 ≤ of.given.bytes }
    requires given { of.given.fraction < 64 }
    requires needed { of.needed.fraction < 64 }
    requires can { can_bring of.given.bytes of.needed.bytes of.given.fraction of.needed.fraction ≡ true }
    ensures ok { OnOk result (out.new.items ≡ out.old.items
        ++ brought_code of.signed from to of.given.bytes of.needed.bytes of.given.fraction of.needed.fraction wanted) }
    ensures err { OnErr result (BeginWith out.old.items out.new.items) }
{
    if wanted == 0 {
        return Ok(());
    }
    bring(out, of.signed, from, to, of.given, of.needed)
}

/// Appends the code of a conversion from or to a fixed-point type, of whose result so many bytes are wanted. Where
/// memory runs out, a part of the code is appended.
#[tactic(auto, using(crate::proofs::Emits::fewer_bytes, crate::proofs::OneFormat::some_bytes))]
pub fn fixed_conversion(
    out: &mut Seq<AsmItem>,
    homes: Homes,
    to: Temp,
    ty: &CType,
    mode: Mode,
    a: Temp,
    aty: &CType,
    wanted: u8,
) -> Result<(), NoMemory>
    requires { FixedConversionHasBytes wanted to a (plain_type ty.now) (plain_type aty.now) }
    ensures ok { OnOk result (out.new.items ≡ out.old.items
        ++ fixed_conversion (plain_type ty.now) (plain_type aty.now) mode (home homes a) (home homes to) a.bytes wanted) }
    ensures err { OnErr result (BeginWith out.old.items out.new.items) }
{
    if keeps_number(ty, aty, mode) {
        let (from, to) = (home(homes, a), home(homes, to));
        return convert(out, is_signed(aty), from, to, a.bytes, wanted);
    }
    let (given, needed) = (digits(aty), digits(ty));
    if is_brought(ty, mode, given, needed) {
        let of = Conversion {
            signed: is_signed(aty),
            given,
            needed,
        };
        return brought(out, of, home(homes, a), home(homes, to), wanted);
    }
    if wanted == 0 {
        return Ok(());
    }
    let (from, work) = (home(homes, a), work_location());
    ec_select_fixed::fixed_conversion(out, ty, aty, mode, from, answer_location(), work)?;
    copy(out, answer_location(), home(homes, to), wanted)
}
