//! Operators whose second operand is a known number.
ghost use Rattle.std.specs.Prelude.{◌≡◌, ◌≤◌, ◌++◌, true, false, get_or, max, Some, None, OnOk, OnErr};
ghost use Rattle.ec_runs.specs.Behaviours.{BeginWith};
ghost use Rattle.ec_asm.specs.Pieces.{HasBytes};
ghost use Rattle.ec_core.specs.Plain.{plain_type};
ghost use Rattle.ec_ir.specs.Temporaries.{low_bytes};
ghost use Rattle.ec_select_operations.specs.Code.{family_of, changed_by_code, counted_by_code, by_number_code, integer_binary};
ghost use Rattle.ec_select_operations.specs.Code.{compared_signed, is_mask, is_masked, told_taking, masked_code};
ghost use Rattle.ec_select_operations.specs.Code.{told_number_code, low_code, joined_code, bytes_code, known_code, family_with};
ghost use Rattle.ec_select_operations.specs.Code.{leaves_bit, top_bit_code};
ghost use Rattle.ec_select_operations.specs.Code.{signed_with, family_taking, signed_taking, masks_low, low_mask_code, combined_by_code};
ghost use Rattle.ec_select_operations.specs.Emitted.{BinaryHasBytes, TakesNumbers};
ghost use Rattle.ec_select_operations.specs.Homes.{home};
ghost use Rattle.ec_ir_known.specs.declared.known.RightNumber.{RightNumber};
ghost use Rattle.ec_select_operations.specs.Needs.{takes_number, number_taken, right_taken, compared_bytes};
ghost use Rattle.ec_select_operations.specs.Needs.{moves_pointer, takes_whole, number_known, takes_known, numbered};
ghost use Rattle.ec_select_operations.specs.Needs.{is_low_mask, masked_bytes, joined_bytes};

use crate::bounds::{bound_of, bounded, truth_by};
use crate::families::{
    BinaryOperation, Family, Operands, Told, family_of, is_same, move_number, operator, put_truth,
    shift_of, tell, told_by, truth_register, turn_by_number,
};
use crate::fixed::is_counted;
use crate::homes::{Homes, home};
use crate::types::{is_pointer, is_whole};
use ec_asm::{AsmItem, Location, Operator, compare, operate};
use ec_core::{BinOp, CType, is_comparison};
use ec_fx::Mode;
use ec_ir::Temp;
use ec_ir_known::RightNumber;
use ec_isa::Instr;
use ec_select_bytes::extend;
use ec_select_numbers::{ByNumber, add_number, change_by};
use ec_select_order::Relation;
use ec_space::{NoMemory, Seq};

/// A number in two's complement of 16 bytes.
pub(crate) fn bits_of(n: i128) -> u128
    ensures { result ≡ low_bytes 16 n }
{
    let size = n.unsigned_abs();
    if n >= 0 { size } else { u128::MAX - (size - 1) }
}

/// Whether an operator of integers takes a known number as its second operand.
fn takes_number(op: BinOp) -> bool
    ensures { result ≡ takes_number op }
{
    matches!(
        op,
        BinOp::Add
            | BinOp::Sub
            | BinOp::And
            | BinOp::Or
            | BinOp::Lt
            | BinOp::Gt
            | BinOp::Le
            | BinOp::Ge
            | BinOp::Eq
            | BinOp::Ne
            | BinOp::Shl
            | BinOp::Shr
    )
}

/// The number that a second operand is known to hold.
pub(crate) fn number_known(known: Option<RightNumber>) -> Option<i128>
    ensures { result ≡ number_known known }
{
    match known {
        Some(n) => n.number,
        None => None,
    }
}

/// Whether an operator of integers takes a known number, or where there is none, that both operands are below 256, or the
/// second one alone.
fn takes_known(number: Option<i128>, in_byte: bool, op: BinOp) -> bool
    ensures { result ≡ takes_known number in_byte op }
{
    match number {
        Some(_) => takes_number(op),
        None if in_byte => is_comparison(op),
        None => matches!(op, BinOp::Or | BinOp::Xor),
    }
}

/// What an operator on integers takes of what is known of its second operand: nothing where it is apart.
pub fn number_taken(known: Option<RightNumber>, apart: bool, op: BinOp) -> Option<RightNumber>
    ensures value { result ≡ number_taken known apart op }
    ensures taken { (n : RightNumber) → result ≡ Some n → takes_known n.number n.in_byte op ≡ true }
{
    match known {
        Some(n) if !apart && takes_known(n.number, n.in_byte, op) => Some(n),
        _ => None,
    }
}

/// What is known of a second operand, where that is a number.
pub fn numbered(known: Option<RightNumber>) -> Option<RightNumber>
    ensures { result ≡ numbered known }
{
    match known {
        Some(n) if n.number.is_some() => Some(n),
        _ => None,
    }
}

/// Whether an operator moves a pointer by a number of elements.
pub fn moves_pointer(op: BinOp, aty: &CType, bty: &CType) -> bool
    ensures { result ≡ moves_pointer op (plain_type aty.now) (plain_type bty.now) }
{
    is_pointer(aty) && !is_whole(bty) && matches!(op, BinOp::Add | BinOp::Sub)
}

/// Whether an operator with a fixed-point type or a pointer takes a number in place of its second operand: one that shifts
/// where the result stands, or moves a pointer.
pub fn takes_whole(
    op: BinOp,
    mode: Mode,
    ty: &CType,
    aty: &CType,
    bty: &CType,
    to: Temp,
    b: Temp,
) -> bool
    ensures { result ≡ takes_whole op mode (plain_type ty.now) (plain_type aty.now) (plain_type bty.now) to b }
{
    moves_pointer(op, aty, bty) || is_counted(op, mode, ty, aty, bty, to, b)
}

/// The number that any operator takes in place of its second operand, which is known to hold it; `takes` tells that one
/// with a fixed-point type or a pointer does so.
pub fn right_taken(
    known: Option<RightNumber>,
    takes: bool,
    apart: bool,
    op: BinOp,
) -> Option<RightNumber>
    ensures { result ≡ right_taken known takes apart op }
{
    match known {
        Some(n) if takes => numbered(Some(n)),
        _ => numbered(number_taken(known, apart, op)),
    }
}

/// How many bytes of an operand are compared or shifted to the right, which has so many: one where both operands are below
/// 256.
pub fn compared_bytes(taken: Option<RightNumber>, bytes: u8) -> u8
    ensures value { result ≡ compared_bytes taken bytes }
    ensures few { result ≤ bytes }
    ensures some { 1 ≤ bytes → 1 ≤ result }
{
    match taken {
        Some(k) if k.in_byte => bytes.min(1),
        _ => bytes,
    }
}

/// Whether an operator with a known number is AND with one below 256, which gives one byte.
fn is_low_mask(number: Option<i128>, op: BinOp) -> bool
    ensures { result ≡ is_low_mask number op }
{
    match (number, op) {
        (Some(n), BinOp::And) => bits_of(n) < 256,
        _ => false,
    }
}

/// How many bytes of a result, of which so many are wanted, tell what is needed of the first operand: one of those that are
/// masked by a number below 256.
pub fn masked_bytes(taken: Option<RightNumber>, op: BinOp, wanted: u8) -> u8
    ensures { result ≡ masked_bytes taken op wanted }
{
    match taken {
        Some(k) if is_low_mask(k.number, op) => wanted.min(1),
        _ => wanted,
    }
}

/// How many bytes of a result, of which so many are wanted, tell what is needed of the second operand: one where it alone
/// is below 256.
pub fn joined_bytes(taken: Option<RightNumber>, wanted: u8) -> u8
    ensures { result ≡ joined_bytes taken wanted }
{
    match taken {
        Some(k) if k.number.is_none() && !k.in_byte => wanted.min(1),
        _ => wanted,
    }
}

/// Whether a comparison minds signs: bytes have none.
pub(crate) fn compared_signed(taken: Option<RightNumber>, signed: bool) -> bool
    ensures { result ≡ compared_signed taken signed }
{
    match taken {
        Some(k) if k.in_byte => false,
        _ => signed,
    }
}

/// What is compared where so many bytes of a first operand are, and a number is taken that is known.
fn family_with(number: Option<i128>, family: Family, signed: bool, compared: u8) -> Family
    ensures { result ≡ family_with number family signed compared }
{
    match (number, family) {
        (
            Some(n),
            Family::Compared {
                relation,
                exchanged,
            },
        ) => Family::Compared {
            relation: bound_of(relation, exchanged, signed, compared, bits_of(n)).relation,
            exchanged: false,
        },
        _ => family,
    }
}

/// Whether it is compared with signs.
fn signed_with(number: Option<i128>, family: Family, signed: bool, compared: u8) -> bool
    ensures { result ≡ signed_with number family signed compared }
{
    match (number, family) {
        (
            Some(n),
            Family::Compared {
                relation,
                exchanged,
            },
        ) => bound_of(relation, exchanged, signed, compared, bits_of(n)).signed,
        _ => signed,
    }
}

/// What is compared of a first operand of so many bytes, where so much is taken.
fn family_taking(taken: Option<RightNumber>, family: Family, signed: bool, bytes: u8) -> Family
    ensures { result ≡ family_taking taken family signed bytes }
{
    family_with(
        number_known(taken),
        family,
        compared_signed(taken, signed),
        compared_bytes(taken, bytes),
    )
}

/// Whether it is compared with signs.
fn signed_taking(taken: Option<RightNumber>, family: Family, signed: bool, bytes: u8) -> bool
    ensures { result ≡ signed_taking taken family signed bytes }
{
    signed_with(
        number_known(taken),
        family,
        compared_signed(taken, signed),
        compared_bytes(taken, bytes),
    )
}

/// Whether a number is known, and below 255.
fn is_mask(number: Option<i128>) -> bool
    ensures { result ≡ is_mask number }
{
    match number {
        Some(n) => !(n < 0) && n < 255,
        None => false,
    }
}

/// Whether an operator is an AND with a known number below 255.
fn is_masked(taken: Option<RightNumber>, op: BinOp) -> bool
    ensures { result ≡ is_masked taken op }
{
    match (taken, op) {
        (Some(k), BinOp::And) => is_mask(k.number),
        _ => false,
    }
}

/// What an operator on a first operand of so many bytes leaves in a flag that takes so much: an AND with such a number
/// tells whether its result is not 0.
pub(crate) fn told_taking(
    taken: Option<RightNumber>,
    untold: bool,
    op: BinOp,
    signed: bool,
    bytes: u8,
) -> Option<Told>
    ensures { result ≡ told_taking taken untold op signed bytes }
{
    if is_masked(taken, op) {
        Some(Told::Operands {
            relation: Relation::NotEqual,
            signed: false,
        })
    } else {
        let family = family_of(op);
        told_by(
            untold,
            family_taking(taken, family, signed, bytes),
            signed_taking(taken, family, signed, bytes),
        )
    }
}

/// The number that the second operand of the operation with a number is known to hold.
pub fn number_at(known: &[Option<RightNumber>], k: usize) -> Option<RightNumber>
    ensures { result ≡ get_or known.now k None }
{
    match known.get(k) {
        Some(n) => *n,
        None => None,
    }
}

/// Appends code that changes so many bytes by a known number where they stand. Where memory runs out, a part of the code
/// is appended.
fn change(
    out: &mut Seq<AsmItem>,
    op: Operator,
    to: Location,
    number: u128,
    bytes: u8,
) -> Result<(), NoMemory>
    requires to { HasBytes to bytes }
    requires most { bytes ≤ 16 }
    ensures ok { OnOk result (out.new.items ≡ out.old.items ++ changed_by_code op to number bytes) }
    ensures err { OnErr result (BeginWith out.old.items out.new.items) }
{
    match op {
        Operator::Sum => add_number(out, to, number, bytes),
        Operator::Difference => change_by(out, ByNumber::Subtract, to, number, bytes),
        Operator::BitAnd => change_by(out, ByNumber::Mask, to, number, bytes),
        Operator::BitOr => change_by(out, ByNumber::Set, to, number, bytes),
        Operator::BitXor => Ok(()),
    }
}

/// Whether an operator leaves one byte of a number alone.
fn masks_low(op: Operator, number: u128) -> bool
    ensures { result ≡ masks_low op number }
{
    match op {
        Operator::BitAnd => number < 256,
        _ => false,
    }
}

/// Appends code that brings the lowest byte of a number to another place, and leaves there so many bytes of what a number
/// below 256 masks of it. Where memory runs out, a part of the code is appended.
#[tactic(auto, using(crate::proofs::Emits::fewer_bytes))]
fn mask_low(
    out: &mut Seq<AsmItem>,
    from: Location,
    to: Location,
    number: u128,
    wanted: u8,
) -> Result<(), NoMemory>
    requires from { HasBytes from wanted }
    requires to { HasBytes to wanted }
    ensures ok { OnOk result (out.new.items ≡ out.old.items ++ low_mask_code from to number wanted) }
    ensures err { OnErr result (BeginWith out.old.items out.new.items) }
{
    let bytes = wanted.min(1);
    move_number(out, from, to, bytes)?;
    change(out, Operator::BitAnd, to, number, bytes)?;
    extend(out, false, to, 1, wanted)
}

/// Appends code that brings a number to another place, and combines it there with a known number. Where memory runs out, a
/// part of the code is appended.
fn combine_by(
    out: &mut Seq<AsmItem>,
    op: Operator,
    from: Location,
    to: Location,
    number: u128,
    wanted: u8,
) -> Result<(), NoMemory>
    requires from { HasBytes from wanted }
    requires to { HasBytes to wanted }
    requires most { wanted ≤ 16 }
    ensures ok { OnOk result (out.new.items ≡ out.old.items ++ combined_by_code op from to number wanted) }
    ensures err { OnErr result (BeginWith out.old.items out.new.items) }
{
    if masks_low(op, number) {
        return mask_low(out, from, to, number, wanted);
    }
    move_number(out, from, to, wanted)?;
    change(out, op, to, number, wanted)
}

/// Whether one byte is wanted of several in registers, of which a shift to the right leaves the highest bit alone, and no sign.
fn leaves_bit(signed: bool, to: Location, bytes: u8, wanted: u8, count: u8) -> bool
    ensures { result ≡ leaves_bit signed to bytes wanted count }
{
    match to {
        Location::InRegisters(_) => {
            1 < bytes && !signed && wanted == 1 && u16::from(count) + 1 == 8 * u16::from(bytes)
        }
        Location::InMemory { .. } => false,
    }
}

/// Appends code that brings the highest bit of so many bytes to the lowest one, which it leaves as a number. Where memory runs
/// out, nothing is appended.
fn top_bit(out: &mut Seq<AsmItem>, to: Location, bytes: u8) -> Result<(), NoMemory>
    requires to { HasBytes to bytes }
    requires some { 1 ≤ bytes }
    ensures ok { OnOk result (out.new.items ≡ out.old.items ++ top_bit_code to bytes) }
    ensures err { OnErr result (out.new.items ≡ out.old.items) }
{
    match to {
        Location::InRegisters(r) => {
            let top = r + (bytes - 1);
            out.extend_from_slice(&[
                AsmItem::Plain(Instr::Add { d: top, r: top }),
                AsmItem::Plain(Instr::Eor { d: r, r }),
                AsmItem::Plain(Instr::Adc { d: r, r }),
            ])
        }
        Location::InMemory { .. } => Ok(()),
    }
}

/// Appends code that shifts a number by a known count, at another place: to the right so many bytes of it, with a sign or
/// without, and where more are wanted these become 0. Where memory runs out, a part of the code is appended.
#[tactic(auto, using(crate::proofs::Emits::fewer_bytes))]
fn counted(
    out: &mut Seq<AsmItem>,
    left: bool,
    signed: bool,
    from: Location,
    to: Location,
    bytes: u8,
    wanted: u8,
    count: u8,
) -> Result<(), NoMemory>
    requires from { HasBytes from (max bytes wanted) }
    requires to { HasBytes to (max bytes wanted) }
    requires some { 1 ≤ bytes }
    ensures ok { OnOk result (out.new.items
        ≡ out.old.items ++ counted_by_code left signed from to bytes wanted count) }
    ensures err { OnErr result (BeginWith out.old.items out.new.items) }
{
    let by = shift_of(left, signed);
    if left {
        turn_by_number(out, by, from, to, wanted, count)
    } else if leaves_bit(signed, to, bytes, wanted, count) {
        move_number(out, from, to, bytes)?;
        top_bit(out, to, bytes)
    } else {
        turn_by_number(out, by, from, to, bytes, count)?;
        extend(out, false, to, bytes, wanted)
    }
}

/// Appends code for an operator with a known number: so many bytes of the result stand at the result's place. So many
/// bytes of the first operand are compared, or shifted to the right. Where memory runs out, a part of the code is
/// appended.
#[tactic(auto, using(crate::proofs::Emits::fewer_bytes))]
fn by_number(
    out: &mut Seq<AsmItem>,
    homes: Homes,
    op: BinOp,
    of: BinaryOperation,
    signed: bool,
    compared: u8,
    number: u128,
    wanted: u8,
) -> Result<(), NoMemory>
    requires bytes { BinaryHasBytes (family_of op) wanted of.to of.a of.b }
    requires most { of.a.bytes ≤ 16 }
    requires few { compared ≤ of.a.bytes }
    requires some { 1 ≤ of.a.bytes → 1 ≤ compared }
    ensures ok { OnOk result (out.new.items ≡ out.old.items
        ++ by_number_code (family_of op) signed (home homes of.a) (home homes of.to) compared number wanted) }
    ensures err { OnErr result (BeginWith out.old.items out.new.items) }
{
    let to = home(homes, of.to);
    match family_of(op) {
        Family::Combined(op) => combine_by(out, op, home(homes, of.a), to, number, wanted),
        Family::Compared {
            relation,
            exchanged,
        } => {
            if wanted == 0 {
                return Ok(());
            }
            let bound = bound_of(relation, exchanged, signed, compared, number);
            truth_by(out, truth_register(to), bound, home(homes, of.a), compared)?;
            put_truth(out, to, wanted)
        }
        Family::Shifted { left } => {
            if wanted == 0 {
                return Ok(());
            }
            let count = (number % 256) as u8;
            counted(
                out,
                left,
                signed,
                home(homes, of.a),
                to,
                compared,
                wanted,
                count,
            )
        }
        _ => Ok(()),
    }
}

/// Appends code that tells by the flag of zero whether a byte has some of the bits of a number. Where memory runs out,
/// nothing is appended.
fn mask(out: &mut Seq<AsmItem>, from: Location, to: Location, k: u8) -> Result<(), NoMemory>
    ensures ok { OnOk result (out.new.items ≡ out.old.items ++ masked_code from to k) }
    ensures err { OnErr result (out.new.items ≡ out.old.items) }
{
    match from {
        Location::InRegisters(r) if r >= 16 && is_same(from, to) => {
            out.extend_from_slice(&[AsmItem::Plain(Instr::Andi { d: r, k })])
        }
        Location::InRegisters(r) => out.extend_from_slice(&[
            AsmItem::Plain(Instr::Mov { d: 30, r }),
            AsmItem::Plain(Instr::Andi { d: 30, k }),
        ]),
        Location::InMemory { object, offset } => out.extend_from_slice(&[
            AsmItem::LoadObj {
                d: 30,
                object,
                offset,
            },
            AsmItem::Plain(Instr::Andi { d: 30, k }),
        ]),
    }
}

/// Appends code that leaves in a flag what an operator with a known number tells; a comparison is of so many bytes, which are
/// free where they stand at the place of the result. Where memory runs out, a part of the code is appended.
fn tell_by_number(
    out: &mut Seq<AsmItem>,
    op: BinOp,
    signed: bool,
    from: Location,
    to: Location,
    number: u128,
    compared: u8,
) -> Result<(), NoMemory>
    requires from { HasBytes from compared }
    requires most { compared ≤ 16 }
    ensures ok { OnOk result (out.new.items
        ≡ out.old.items ++ told_number_code (family_of op) signed from to number compared) }
    ensures err { OnErr result (BeginWith out.old.items out.new.items) }
{
    match family_of(op) {
        Family::Combined(_) => mask(out, from, to, (number % 256) as u8),
        Family::Compared {
            relation,
            exchanged,
        } => {
            let bound = bound_of(relation, exchanged, signed, compared, number);
            bounded(out, is_same(from, to), bound, from, compared)
        }
        _ => Ok(()),
    }
}

/// Appends code that compares so many low bytes of two numbers: their truth value stands at `to`, or where this is told by
/// a flag, in the flag alone. Where memory runs out, a part of the code is appended.
fn compare_low(
    out: &mut Seq<AsmItem>,
    telling: Option<Told>,
    relation: Relation,
    operands: Operands,
    to: Location,
    wanted: u8,
) -> Result<(), NoMemory>
    requires left { HasBytes operands.left operands.bytes }
    requires right { HasBytes operands.right operands.bytes }
    requires to { HasBytes to wanted }
    requires unsigned { operands.signed ≡ false }
    ensures ok { OnOk result (out.new.items ≡ out.old.items
        ++ low_code telling relation operands.left operands.right to operands.bytes wanted) }
    ensures err { OnErr result (BeginWith out.old.items out.new.items) }
{
    match telling {
        None => tell(out, relation, operands, to, wanted),
        Some(_) => compare(out, operands.right, operands.left, operands.bytes),
    }
}

/// Appends code that brings a number to another place, and combines it there with the lowest byte of a number below 256.
/// Where memory runs out, a part of the code is appended.
#[tactic(auto, using(crate::proofs::Emits::fewer_bytes))]
fn join(
    out: &mut Seq<AsmItem>,
    op: Operator,
    a: Location,
    b: Location,
    to: Location,
    wanted: u8,
) -> Result<(), NoMemory>
    requires a { HasBytes a wanted }
    requires b { HasBytes b wanted }
    requires to { HasBytes to wanted }
    ensures ok { OnOk result (out.new.items ≡ out.old.items ++ joined_code op a b to wanted) }
    ensures err { OnErr result (BeginWith out.old.items out.new.items) }
{
    move_number(out, a, to, wanted)?;
    operate(out, op, b, to, wanted.min(1))
}

/// Where both operands are below 256, appends the code of a comparison of so many bytes, and where the second one is alone,
/// that of another operator.
#[tactic(auto, using(crate::proofs::Emits::fewer_bytes))]
fn by_bytes(
    out: &mut Seq<AsmItem>,
    homes: Homes,
    telling: Option<Told>,
    op: BinOp,
    of: BinaryOperation,
    bytes: u8,
    wanted: u8,
) -> Result<(), NoMemory>
    requires bytes { BinaryHasBytes (family_of op) wanted of.to of.a of.b }
    requires few { bytes ≤ of.a.bytes }
    ensures ok { OnOk result (out.new.items ≡ out.old.items
        ++ bytes_code telling (family_of op) (home homes of.a) (home homes of.b) (home homes of.to) bytes wanted) }
    ensures err { OnErr result (BeginWith out.old.items out.new.items) }
{
    let (a, b, to) = (home(homes, of.a), home(homes, of.b), home(homes, of.to));
    match family_of(op) {
        Family::Compared {
            relation,
            exchanged,
        } => {
            let (left, right) = if exchanged { (b, a) } else { (a, b) };
            let operands = Operands {
                signed: false,
                bytes,
                left,
                right,
            };
            compare_low(out, telling, relation, operands, to, wanted)
        }
        Family::Combined(op) => join(out, op, a, b, to, wanted),
        _ => Ok(()),
    }
}

/// Appends the code of an operator of integers that takes what is known of its second operand. Where memory runs out, a part
/// of the code is appended.
#[tactic(auto, using(crate::proofs::Emits::fewer_bytes))]
fn by_known(
    out: &mut Seq<AsmItem>,
    homes: Homes,
    known: RightNumber,
    telling: Option<Told>,
    op: BinOp,
    of: BinaryOperation,
    wanted: u8,
) -> Result<(), NoMemory>
    requires bytes { BinaryHasBytes (family_of op) wanted of.to of.a of.b }
    requires numbers { TakesNumbers op of.a of.b }
    requires taken { takes_known known.number known.in_byte op ≡ true }
    ensures ok { OnOk result (out.new.items ≡ out.old.items
        ++ known_code known.number telling (family_of op) (compared_signed (Some known) of.left_signed)
        (home homes of.a) (home homes of.b) (home homes of.to) (compared_bytes (Some known) of.a.bytes) wanted) }
    ensures err { OnErr result (BeginWith out.old.items out.new.items) }
{
    let bytes = compared_bytes(Some(known), of.a.bytes);
    let signed = compared_signed(Some(known), of.left_signed);
    match (known.number, telling) {
        (None, _) => by_bytes(out, homes, telling, op, of, bytes, wanted),
        (Some(n), None) => by_number(out, homes, op, of, signed, bytes, bits_of(n), wanted),
        (Some(n), Some(_)) => {
            let (from, to) = (home(homes, of.a), home(homes, of.to));
            tell_by_number(out, op, signed, from, to, bits_of(n), bytes)
        }
    }
}

/// Appends the code of an operator of integers, which may take what is known of its second operand, or where it tells
/// something by a flag, of the comparison alone. Where memory runs out, a part of the code is appended.
#[tactic(auto, using(crate::proofs::Emits::fewer_bytes))]
pub fn integer_binary(
    out: &mut Seq<AsmItem>,
    homes: Homes,
    known: Option<RightNumber>,
    telling: Option<Told>,
    op: BinOp,
    of: BinaryOperation,
    wanted: u8,
) -> Result<(), NoMemory>
    requires bytes { BinaryHasBytes (family_of op) wanted of.to of.a of.b }
    requires numbers { TakesNumbers op of.a of.b }
    ensures ok { OnOk result (out.new.items ≡ out.old.items
        ++ integer_binary known telling op of.left_signed of.right_signed (home homes of.a) (home homes of.b)
        (home homes of.to) of.a.bytes wanted) }
    ensures err { OnErr result (BeginWith out.old.items out.new.items) }
{
    match number_taken(known, false, op) {
        Some(k) => by_known(out, homes, k, telling, op, of, wanted),
        None => operator(out, homes, telling, op, of, wanted),
    }
}
