//! The code of each family of operations.
ghost use Rattle.std.specs.Prelude.{◌≡◌, ◌≤◌, ◌<◌, ◌++◌, suc, true, false, OnOk, OnErr, min};
ghost use Rattle.ec_runs.specs.Behaviours.{BeginWith};
ghost use Rattle.ec_asm.specs.Pieces.{HasBytes};
ghost use Rattle.ec_select_operations.specs.Code.{same_location, move_code, family_of, compared_code, binary_code};
ghost use Rattle.ec_select_operations.specs.Code.{combined_code, conversion_code, turn_code, unary_code, multiplied_code};
ghost use Rattle.ec_select_operations.specs.Code.{shift_of, turned_code, counted_code, shifted_code, long_code, divided_code};
ghost use Rattle.ec_select_operations.specs.Emitted.{BinaryHasBytes};
ghost use Rattle.ec_select_operations.specs.Code.{told_by, branch_code, told_of, flag_code, operator_code, tested_code};
ghost use Rattle.ec_select_operations.specs.Code.{turned, jump_code, is_index, truth_register, truth_at_code};
ghost use Rattle.ec_select_operations.specs.Homes.{home};

use crate::bounds::opposite;
use crate::homes::{Homes, home};
use crate::tests::test_number;
use crate::transfers::transfer;
use ec_asm::{AsmItem, Location, Operator, compare, operate};
use ec_core::{BinOp, UnOp};
use ec_ir::Temp;
use ec_select_bytes::{combine_before, complement, extend, jump, negate};
use ec_select_order::{Relation, branch_unless, relate_in};
use ec_select_products::{Factor, multiply};
use ec_select_quotients::{Division, quotient};
use ec_select_shifts::{Direction, shift, shift_by};
use ec_space::{NoMemory, Seq};

pub(crate) fn is_same(p: Location, q: Location) -> bool
    ensures { result ≡ same_location p q }
{
    match (p, q) {
        (Location::InRegisters(a), Location::InRegisters(b)) => a == b,
        (
            Location::InMemory {
                object: a,
                offset: j,
            },
            Location::InMemory {
                object: b,
                offset: k,
            },
        ) => a == b && j == k,
        _ => false,
    }
}

/// Appends code that brings a number to another place; none where it stands there already. Where memory runs out, a
/// part of the code is appended.
pub fn move_number(
    out: &mut Seq<AsmItem>,
    from: Location,
    to: Location,
    bytes: u8,
) -> Result<(), NoMemory>
    requires from { HasBytes from bytes }
    requires to { HasBytes to bytes }
    ensures ok { OnOk result (out.new.items ≡ out.old.items ++ move_code from to bytes) }
    ensures err { OnErr result (BeginWith out.old.items out.new.items) }
{
    if is_same(from, to) {
        return Ok(());
    }
    transfer(out, from, to, bytes)
}

/// How the result of a binary operator is computed.
#[derive(Clone, Copy)]
pub enum Family {
    /// The first operand is combined with the second one, byte by byte.
    Combined(Operator),
    /// Whether the operands, or where they are exchanged the second and the first one, stand in a relation.
    Compared { relation: Relation, exchanged: bool },
    /// The product of two bytes.
    Multiplied,
    /// The first operand is shifted by the second one, to the left or to the right.
    Shifted { left: bool },
    /// The quotient or the remainder.
    Divided { remainder: bool },
}

/// How the result of an operator is computed.
pub fn family_of(op: BinOp) -> Family
    ensures { result ≡ family_of op }
{
    let (relation, exchanged) = match op {
        BinOp::Add => return Family::Combined(Operator::Sum),
        BinOp::Sub => return Family::Combined(Operator::Difference),
        BinOp::And => return Family::Combined(Operator::BitAnd),
        BinOp::Or => return Family::Combined(Operator::BitOr),
        BinOp::Xor => return Family::Combined(Operator::BitXor),
        BinOp::Mul => return Family::Multiplied,
        BinOp::Div => return Family::Divided { remainder: false },
        BinOp::Rem => return Family::Divided { remainder: true },
        BinOp::Shl => return Family::Shifted { left: true },
        BinOp::Shr => return Family::Shifted { left: false },
        BinOp::Lt => (Relation::Less, false),
        BinOp::Gt => (Relation::Less, true),
        BinOp::Le => (Relation::NotLess, true),
        BinOp::Ge => (Relation::NotLess, false),
        BinOp::Eq => (Relation::Equal, false),
        BinOp::Ne => (Relation::NotEqual, false),
    };
    Family::Compared {
        relation,
        exchanged,
    }
}

/// Appends code for an operator: the low bytes of the result stand at `to`. Where memory runs out, a part of the code
/// is appended.
pub fn combine(
    out: &mut Seq<AsmItem>,
    op: Operator,
    a: Location,
    b: Location,
    to: Location,
    bytes: u8,
) -> Result<(), NoMemory>
    requires a { HasBytes a bytes }
    requires b { HasBytes b bytes }
    requires to { HasBytes to bytes }
    ensures ok { OnOk result (out.new.items ≡ out.old.items ++ combined_code op a b to bytes) }
    ensures err { OnErr result (BeginWith out.old.items out.new.items) }
{
    if is_same(b, to) {
        return combine_before(out, op, a, to, bytes);
    }
    move_number(out, a, to, bytes)?;
    operate(out, op, b, to, bytes)
}

/// Appends code that gives the integer of `bytes` bytes at `from` the bytes that are wanted, at `to`: its low bytes,
/// and above them its sign or 0. Where memory runs out, a part of the code is appended.
pub fn convert(
    out: &mut Seq<AsmItem>,
    signed: bool,
    from: Location,
    to: Location,
    bytes: u8,
    wanted: u8,
) -> Result<(), NoMemory>
    requires from { HasBytes from bytes }
    requires to { HasBytes to wanted }
    requires some { 1 ≤ bytes }
    ensures ok { OnOk result (out.new.items ≡ out.old.items ++ conversion_code signed from to bytes wanted) }
    ensures err { OnErr result (BeginWith out.old.items out.new.items) }
{
    move_number(out, from, to, wanted.min(bytes))?;
    extend(out, signed, to, bytes, wanted)
}

/// The register in which a truth value is made: that of the result from R16 on, which LDI reaches, and else R30.
pub(crate) fn truth_register(to: Location) -> u8
    ensures { result ≡ truth_register to }
{
    match to {
        Location::InRegisters(register) if register >= 16 => register,
        _ => 30,
    }
}

/// Appends code that brings a truth value from there to its place, where so many bytes of it are wanted. Where memory runs
/// out, a part of the code is appended.
#[tactic(auto, using(crate::proofs::Emits::truth_there))]
pub(crate) fn put_truth(out: &mut Seq<AsmItem>, to: Location, wanted: u8) -> Result<(), NoMemory>
    requires to { HasBytes to wanted }
    requires some { 1 ≤ wanted }
    ensures ok { OnOk result (out.new.items ≡ out.old.items ++ truth_at_code to wanted) }
    ensures err { OnErr result (BeginWith out.old.items out.new.items) }
{
    convert(
        out,
        false,
        Location::InRegisters(truth_register(to)),
        to,
        1,
        wanted,
    )
}

/// Two numbers of so many bytes.
#[derive(Clone, Copy)]
pub struct Operands {
    pub signed: bool,
    pub bytes: u8,
    pub left: Location,
    pub right: Location,
}

/// Appends code that puts 1 to so many bytes of `to` where the left operand stands in the relation to the right one,
/// and else 0. Where memory runs out, a part of the code is appended.
pub fn tell(
    out: &mut Seq<AsmItem>,
    relation: Relation,
    operands: Operands,
    to: Location,
    wanted: u8,
) -> Result<(), NoMemory>
    requires left { HasBytes operands.left operands.bytes }
    requires right { HasBytes operands.right operands.bytes }
    requires to { HasBytes to wanted }
    ensures ok { OnOk result (out.new.items ≡ out.old.items
        ++ compared_code relation operands.signed operands.left operands.right to operands.bytes wanted) }
    ensures err { OnErr result (BeginWith out.old.items out.new.items) }
{
    if wanted == 0 {
        return Ok(());
    }
    relate_in(
        out,
        truth_register(to),
        relation,
        operands.signed,
        operands.left,
        operands.right,
        operands.bytes,
    )?;
    put_truth(out, to, wanted)
}

/// Appends code that puts so many bytes of the product of two bytes to `to`. Where memory runs out, a part of the code
/// is appended.
pub fn multiply_bytes(
    out: &mut Seq<AsmItem>,
    left: Factor,
    right: Factor,
    to: Location,
    wanted: u8,
) -> Result<(), NoMemory>
    requires left { HasBytes left.at 1 }
    requires right { HasBytes right.at 1 }
    requires to { HasBytes to wanted }
    ensures ok { OnOk result (out.new.items ≡ out.old.items
        ++ multiplied_code left.signed right.signed left.at right.at to wanted) }
    ensures err { OnErr result (BeginWith out.old.items out.new.items) }
{
    if wanted == 0 {
        return Ok(());
    }
    multiply(out, left, right, to, wanted)
}

pub(crate) fn shift_of(left: bool, signed: bool) -> Direction
    ensures { result ≡ shift_of left signed }
{
    if left {
        Direction::Left
    } else {
        Direction::Right { signed }
    }
}

fn turn_by_count(
    out: &mut Seq<AsmItem>,
    by: Direction,
    a: Location,
    b: Location,
    to: Location,
    bytes: u8,
) -> Result<(), NoMemory>
    requires a { HasBytes a bytes }
    requires b { HasBytes b 1 }
    requires to { HasBytes to bytes }
    ensures ok { OnOk result (out.new.items ≡ out.old.items ++ turned_code by a b to bytes) }
    ensures err { OnErr result (BeginWith out.old.items out.new.items) }
{
    move_number(out, a, to, bytes)?;
    move_number(out, b, Location::InRegisters(30), 1)?;
    shift(out, by, to, bytes)
}

/// Appends code that brings a number of so many bytes to another place, and shifts it there by a known count. Where memory
/// runs out, a part of the code is appended.
pub(crate) fn turn_by_number(
    out: &mut Seq<AsmItem>,
    by: Direction,
    a: Location,
    to: Location,
    bytes: u8,
    count: u8,
) -> Result<(), NoMemory>
    requires a { HasBytes a bytes }
    requires to { HasBytes to bytes }
    ensures ok { OnOk result (out.new.items ≡ out.old.items ++ counted_code by a to bytes count) }
    ensures err { OnErr result (BeginWith out.old.items out.new.items) }
{
    move_number(out, a, to, bytes)?;
    shift_by(out, by, to, bytes, count)
}

/// Appends code that shifts the left operand by the lowest byte of the right one: so many low bytes of the result stand
/// at `to`, and all bytes of a shift to the right. Where memory runs out, a part of the code is appended.
#[tactic(auto, using(crate::proofs::Emits::fewer_bytes))]
pub fn shift_by_count(
    out: &mut Seq<AsmItem>,
    left: bool,
    operands: Operands,
    to: Location,
    wanted: u8,
) -> Result<(), NoMemory>
    requires left { HasBytes operands.left operands.bytes }
    requires right { HasBytes operands.right 1 }
    requires to { HasBytes to operands.bytes }
    requires most { wanted ≤ operands.bytes }
    ensures ok { OnOk result (out.new.items ≡ out.old.items
        ++ shifted_code left operands.signed operands.left operands.right to operands.bytes wanted) }
    ensures err { OnErr result (BeginWith out.old.items out.new.items) }
{
    if wanted == 0 {
        return Ok(());
    }
    let bytes = if left { wanted } else { operands.bytes };
    let by = shift_of(left, operands.signed);
    turn_by_count(out, by, operands.left, operands.right, to, bytes)
}

/// Appends code that divides a number of `top + 1` bytes at the place of the result.
#[tactic(auto, using(crate::proofs::Emits::fewer_bytes, crate::proofs::Emits::byte_there))]
fn divide_long(
    out: &mut Seq<AsmItem>,
    of: Division,
    a: Location,
    b: Location,
    to: Location,
    top: u8,
) -> Result<(), NoMemory>
    requires a { HasBytes a (suc top) }
    requires b { HasBytes b (suc top) }
    requires to { HasBytes to (suc top) }
    requires most { top < 4 }
    ensures ok { OnOk result (out.new.items ≡ out.old.items ++ long_code of.remainder of.signed a b to top) }
    ensures err { OnErr result (BeginWith out.old.items out.new.items) }
{
    move_number(out, a, to, top + 1)?;
    quotient(out, of, to, b, top)
}

/// Appends code that puts the quotient or the remainder of two numbers of up to four bytes to `to`. Where memory runs
/// out, a part of the code is appended.
#[tactic(auto, using(crate::proofs::Emits::fewer_bytes))]
pub fn divide_numbers(
    out: &mut Seq<AsmItem>,
    remainder: bool,
    operands: Operands,
    to: Location,
    wanted: u8,
) -> Result<(), NoMemory>
    requires left { HasBytes operands.left operands.bytes }
    requires right { HasBytes operands.right operands.bytes }
    requires to { HasBytes to operands.bytes }
    requires some { 1 ≤ operands.bytes }
    requires most { operands.bytes ≤ 4 }
    ensures ok { OnOk result (out.new.items ≡ out.old.items
        ++ divided_code remainder operands.signed operands.left operands.right to operands.bytes wanted) }
    ensures err { OnErr result (BeginWith out.old.items out.new.items) }
{
    if wanted == 0 {
        return Ok(());
    }
    let of = Division {
        remainder,
        signed: operands.signed,
    };
    divide_long(
        out,
        of,
        operands.left,
        operands.right,
        to,
        operands.bytes - 1,
    )
}

/// The temporaries of a binary operator, and whether its operands are signed.
#[derive(Clone, Copy)]
pub struct BinaryOperation {
    pub to: Temp,
    pub a: Temp,
    pub b: Temp,
    pub left_signed: bool,
    pub right_signed: bool,
}

/// Appends the code of a binary operator. Where memory runs out, a part of the code is appended.
#[tactic(auto, using(crate::proofs::Emits::fewer_bytes))]
pub fn binary(
    out: &mut Seq<AsmItem>,
    homes: Homes,
    op: BinOp,
    of: BinaryOperation,
    wanted: u8,
) -> Result<(), NoMemory>
    requires { BinaryHasBytes (family_of op) wanted of.to of.a of.b }
    ensures ok { OnOk result (out.new.items ≡ out.old.items
        ++ binary_code (family_of op) of.left_signed of.right_signed (home homes of.a) (home homes of.b)
        (home homes of.to) of.a.bytes wanted) }
    ensures err { OnErr result (BeginWith out.old.items out.new.items) }
{
    let (a, b, to) = (home(homes, of.a), home(homes, of.b), home(homes, of.to));
    match family_of(op) {
        Family::Combined(op) => combine(out, op, a, b, to, wanted),
        Family::Compared {
            relation,
            exchanged,
        } => tell(out, relation, operands_of(of, a, b, exchanged), to, wanted),
        Family::Multiplied => {
            let left = Factor {
                signed: of.left_signed,
                at: a,
            };
            let right = Factor {
                signed: of.right_signed,
                at: b,
            };
            multiply_bytes(out, left, right, to, wanted)
        }
        Family::Shifted { left } => {
            shift_by_count(out, left, operands_of(of, a, b, false), to, wanted)
        }
        Family::Divided { remainder } => {
            divide_numbers(out, remainder, operands_of(of, a, b, false), to, wanted)
        }
    }
}

/// The operands at two places, or where they are exchanged at the other ones.
fn operands_of(of: BinaryOperation, a: Location, b: Location, exchanged: bool) -> Operands
    ensures signed { result.signed ≡ of.left_signed }
    ensures bytes { result.bytes ≡ of.a.bytes }
    ensures straight { exchanged ≡ false → (result.left ≡ a) × (result.right ≡ b) }
    ensures turned { exchanged ≡ true → (result.left ≡ b) × (result.right ≡ a) }
{
    let (left, right) = if exchanged { (b, a) } else { (a, b) };
    Operands {
        signed: of.left_signed,
        bytes: of.a.bytes,
        left,
        right,
    }
}

fn turn(out: &mut Seq<AsmItem>, op: UnOp, at: Location, bytes: u8) -> Result<(), NoMemory>
    requires { HasBytes at bytes }
    ensures ok { OnOk result (out.new.items ≡ out.old.items ++ turn_code op at bytes) }
    ensures err { OnErr result (BeginWith out.old.items out.new.items) }
{
    match op {
        UnOp::Minus => negate(out, at, bytes),
        UnOp::Invert => complement(out, at, bytes),
    }
}

/// Appends code for a unary operator: the low bytes of the result stand at `to`. Where memory runs out, a part of the
/// code is appended.
pub fn unary(
    out: &mut Seq<AsmItem>,
    op: UnOp,
    from: Location,
    to: Location,
    bytes: u8,
) -> Result<(), NoMemory>
    requires from { HasBytes from bytes }
    requires to { HasBytes to bytes }
    ensures ok { OnOk result (out.new.items ≡ out.old.items ++ unary_code op from to bytes) }
    ensures err { OnErr result (BeginWith out.old.items out.new.items) }
{
    move_number(out, from, to, bytes)?;
    turn(out, op, to, bytes)
}

/// Appends code that jumps to a label where all bytes of a number, which may be free, are 0. Where memory runs out, a part of
/// the code is appended.
pub fn branch(
    out: &mut Seq<AsmItem>,
    is_free: bool,
    at: Location,
    bytes: u8,
    label: u64,
) -> Result<(), NoMemory>
    requires { HasBytes at bytes }
    ensures ok { OnOk result (out.new.items ≡ out.old.items ++ branch_code is_free at bytes label) }
    ensures err { OnErr result (BeginWith out.old.items out.new.items) }
{
    test_number(out, is_free, at, bytes)?;
    out.extend_from_slice(&[AsmItem::BranchTo {
        set: true,
        flag: 1,
        label,
    }])
}

/// What an operation tells the next one in place of its result.
#[derive(Clone, Copy)]
pub enum Told {
    /// By a flag: how the operands of a comparison stand, in two's complement or without signs.
    Operands { relation: Relation, signed: bool },
    /// The address in a pointer: it is so far from Z, in bytes. The place of the pointer does not hold it. A third byte that
    /// was read with it stands in R0.
    InZ { offset: u16 },
    /// The index of one or two bytes that is loaded: it stands in R30, or in R31:R30.
    Index,
}

/// What an operator tells by a flag, where it is a comparison.
fn told_of(family: Family, signed: bool) -> Option<Told>
    ensures { result ≡ told_of family signed }
{
    match family {
        Family::Compared { relation, .. } => Some(Told::Operands { relation, signed }),
        _ => None,
    }
}

/// Whether an index of so many bytes is told.
pub(crate) fn is_index(told: Option<Told>, bytes: u8) -> bool
    ensures { result ≡ is_index told bytes }
{
    match told {
        Some(Told::Index) => bytes <= 2,
        _ => false,
    }
}

/// The same, but of an operator that may tell nothing.
pub(crate) fn told_by(is_untold: bool, family: Family, signed: bool) -> Option<Told>
    ensures { result ≡ told_by is_untold family signed }
{
    if is_untold {
        None
    } else {
        told_of(family, signed)
    }
}

/// Appends code that leaves in a flag what a comparison tells. Where memory runs out, a part of the code is appended.
#[tactic(auto, using(crate::proofs::Emits::fewer_bytes))]
fn compare_only(
    out: &mut Seq<AsmItem>,
    homes: Homes,
    op: BinOp,
    of: BinaryOperation,
    wanted: u8,
) -> Result<(), NoMemory>
    requires { BinaryHasBytes (family_of op) wanted of.to of.a of.b }
    ensures ok { OnOk result (out.new.items ≡ out.old.items
        ++ flag_code (family_of op) (home homes of.a) (home homes of.b) of.a.bytes) }
    ensures err { OnErr result (BeginWith out.old.items out.new.items) }
{
    let (a, b) = (home(homes, of.a), home(homes, of.b));
    match family_of(op) {
        Family::Compared { exchanged, .. } => {
            let (left, right) = if exchanged { (b, a) } else { (a, b) };
            compare(out, right, left, of.a.bytes)
        }
        _ => Ok(()),
    }
}

/// Appends the code of a binary operator, or where it tells something by a flag, of the comparison alone. Where memory
/// runs out, a part of the code is appended.
pub fn operator(
    out: &mut Seq<AsmItem>,
    homes: Homes,
    telling: Option<Told>,
    op: BinOp,
    of: BinaryOperation,
    wanted: u8,
) -> Result<(), NoMemory>
    requires { BinaryHasBytes (family_of op) wanted of.to of.a of.b }
    ensures ok { OnOk result (out.new.items ≡ out.old.items
        ++ operator_code telling (family_of op) of.left_signed of.right_signed (home homes of.a) (home homes of.b)
        (home homes of.to) of.a.bytes wanted) }
    ensures err { OnErr result (BeginWith out.old.items out.new.items) }
{
    match telling {
        None => binary(out, homes, op, of, wanted),
        Some(_) => compare_only(out, homes, op, of, wanted),
    }
}

/// What a branch over a jump, which has been told so much or tests a number, tells the jump: like a branch, the jump is
/// made where operands do not stand so.
pub(crate) fn turned(told: Option<Told>) -> Told
    ensures { result ≡ turned told }
{
    match told {
        Some(Told::Operands { relation, signed }) => Told::Operands {
            relation: opposite(relation),
            signed,
        },
        _ => Told::Operands {
            relation: Relation::Equal,
            signed: false,
        },
    }
}

/// Appends code that jumps to a label: where the operands of the comparison before it do not stand so, or where all
/// bytes of a number, which may be free, are 0. Where it tells a jump of this, the code only tests the number. Where memory
/// runs out, a part of the code is appended.
pub fn branch_on(
    out: &mut Seq<AsmItem>,
    told: Option<Told>,
    telling: Option<Told>,
    is_free: bool,
    at: Location,
    bytes: u8,
    label: u64,
) -> Result<(), NoMemory>
    requires { HasBytes at bytes }
    ensures ok { OnOk result (out.new.items ≡ out.old.items ++ tested_code told telling is_free at bytes label) }
    ensures err { OnErr result (BeginWith out.old.items out.new.items) }
{
    match (told, telling) {
        (Some(Told::Operands { relation, signed }), None) => {
            branch_unless(out, relation, signed, label)
        }
        (Some(Told::Operands { .. }), Some(_)) => Ok(()),
        (_, None) => branch(out, is_free, at, bytes, label),
        (_, Some(_)) => test_number(out, is_free, at, bytes),
    }
}

/// Appends a jump to a label, or where the branch before it told it something, one that is made only where operands do
/// not stand so. Where memory runs out, nothing is appended.
pub fn jump_on(out: &mut Seq<AsmItem>, told: Option<Told>, label: u64) -> Result<(), NoMemory>
    ensures ok { OnOk result (out.new.items ≡ out.old.items ++ jump_code told label) }
    ensures err { OnErr result (BeginWith out.old.items out.new.items) }
{
    match told {
        Some(Told::Operands { relation, signed }) => branch_unless(out, relation, signed, label),
        _ => jump(out, label),
    }
}
