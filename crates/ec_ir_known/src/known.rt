//! What is known of the places of temporaries, from operation to operation.
ghost use Rattle.std.specs.Prelude.{◌≡◌, ℕ, ◌++◌, ◌∷◌, [], ◌<◌, if◌then◌else◌, length};
ghost use Rattle.std.specs.Prelude.{map, replicate, Some, None, OnOk, IfOk, true};
ghost use Rattle.ec_core.specs.Integers.{IsInteger};
ghost use Rattle.ec_core.specs.Layout.{IsIntegerSize};
ghost use Rattle.ec_core.specs.Plain.{plain_type};
ghost use Rattle.ec_ir.specs.Operations.{plain_ir};
ghost use Rattle.ec_ir_known.specs.Known.{known_of, number_in, is_integer_size, brought, converted, operand_number};
ghost use Rattle.ec_ir_known.specs.Known.{converted_by, integer_of, numbers_from, keeps_bytes, bytes_left, is_byte};
ghost use Rattle.ec_ir_known.specs.Known.{is_byte_of, right_of, is_wide, is_small, is_below, is_low, is_low_result};
ghost use Rattle.ec_ir_known.specs.Known.{is_wide_type, leaves_byte, byte_where, fits_byte, fits_second, top_count};
ghost use Rattle.ec_ir_known.specs.Known.{is_count_from, is_filled, is_filled_type, leaves_top, takes_alone};
ghost use Rattle.ec_ir_known.specs.Known.{is_set, result_of, number_left, known_after, right_number, right_numbers};
ghost use Rattle.ec_ir_known.specs.Known.{HasResultPlace, HaveResultPlaces};

use ec_core::{BinOp, CType, IntegerType, is_comparison};
use ec_ir::{Ir, Temp};
use ec_space::{NoMemory, Seq};
use std::alloc::Global;
use std::marker::Model;

/// What a place of temporaries holds, in so many bytes: the lowest ones of a number, or where this is not known, any
/// number that the lowest `width` of them are enough for.
#[derive(Clone, Copy, Debug, PartialEq, Eq)]
pub struct KnownNumber {
    pub bytes: u8,
    pub number: Option<i128>,
    pub width: u8,
}

/// The number that the second operand of a binary operator or the operand of a store holds, where it is known. It is in a
/// byte where it is below 256, and the first operand, which has more bytes, is too. Where neither is so, the second operand
/// alone is below 256.
#[derive(Clone, Copy, Debug, PartialEq, Eq)]
pub struct RightNumber {
    pub number: Option<i128>,
    pub in_byte: bool,
}

/// What is known of each place of a function's temporaries where an operation stands.
///
/// Contracts see a row with what is known of the first places.
#[derive(Drop)]
pub struct KnownNumbers {
    row: Vec<Option<KnownNumber>>,
}

impl Model for KnownNumbers {
    ghost use Rattle.std.specs.Prelude.{List, Option};
    ghost use Rattle.ec_ir_known.specs.declared.known.KnownNumber.{KnownNumber};

    ghost Value = { List (Option KnownNumber) };

    ghost view = { λ k. k.row.items };
}

fn is_integer_size(bytes: u8) -> bool
    ensures value { result ≡ is_integer_size bytes }
    ensures size { result ≡ true → IsIntegerSize bytes }
{
    bytes == 1 || bytes == 2 || bytes == 4
}

/// A number as an operand of an integer type, in another integer type.
fn brought(ty: IntegerType, from: IntegerType, number: i128) -> i128
    requires result { IsInteger ty }
    requires operand { IsInteger from }
    ensures { result ≡ brought ty from number }
{
    ty.wrapped(from.wrapped(number))
}

/// What any operation leaves in a temporary: a number of its bytes.
fn bytes_left(to: Temp) -> Option<KnownNumber>
    ensures { result ≡ bytes_left to }
{
    Some(KnownNumber {
        bytes: to.bytes,
        number: None,
        width: to.bytes,
    })
}

/// What is known of a temporary, which gets a number of an integer type from one of another integer type.
fn known_as(
    to: Temp,
    ty: IntegerType,
    from: IntegerType,
    number: i128,
    byte: bool,
) -> Option<KnownNumber>
    ensures { result ≡ converted_by to (Some ty) (Some from) (Some number) byte }
{
    if is_integer_size(ty.bytes) && is_integer_size(from.bytes) {
        let number = brought(ty, from, number);
        Some(KnownNumber {
            bytes: to.bytes,
            number: Some(number),
            width: to.bytes,
        })
    } else {
        bytes_left(to)
    }
}

/// Whether an integer type of so many bytes has more than one.
fn is_wide(bytes: u8) -> bool
    ensures { result ≡ is_wide bytes }
{
    bytes == 2 || bytes == 4
}

/// Whether a type is an integer type of more bytes than one.
fn is_wide_type(ty: &CType) -> bool
    ensures { result ≡ is_wide_type (plain_type ty.now) }
{
    match ty {
        CType::Int { bytes, .. } => is_wide(*bytes),
        _ => false,
    }
}

/// Whether numbers below 256 of one integer type are the same in the other.
fn keeps_bytes(ty: IntegerType, from: IntegerType) -> bool
    ensures { result ≡ keeps_bytes ty from }
{
    is_wide(ty.bytes) && (is_wide(from.bytes) || (!from.signed && from.bytes == 1))
}

/// What is known of a temporary that gets a number below 256, or of which this is not known.
fn byte_where(to: Temp, byte: bool) -> Option<KnownNumber>
    ensures { result ≡ byte_where to byte }
{
    if byte {
        Some(KnownNumber {
            bytes: to.bytes,
            number: None,
            width: 1,
        })
    } else {
        bytes_left(to)
    }
}

/// What is known of a temporary, which gets a number of an integer type from one of another integer type that may be
/// known to be below 256.
fn byte_as(to: Temp, ty: IntegerType, from: IntegerType, byte: bool) -> Option<KnownNumber>
    ensures { result ≡ converted_by to (Some ty) (Some from) None byte }
{
    byte_where(to, byte && keeps_bytes(ty, from))
}

/// Whether a number is below 256, and not below 0.
fn is_byte(n: i128) -> bool
    ensures { result ≡ is_byte n }
{
    !(n < 0) && n < 256
}

/// Whether any number below 256 is meant, or one that is.
fn is_small(number: Option<i128>, width: u8) -> bool
    ensures { result ≡ is_small number width }
{
    match number {
        None => width == 1,
        Some(n) => is_byte(n),
    }
}

/// What a number without a sign, of two or four bytes, is shifted by to the right at least, so that its top byte is left.
fn top_count(bytes: u8) -> u8
    ensures { result ≡ top_count bytes }
{
    if bytes == 2 { 8 } else { 24 }
}

/// Whether a count is known, and at least so much.
fn is_count_from(least: u8, count: Option<i128>) -> bool
    ensures { result ≡ is_count_from least count }
{
    match count {
        None => false,
        Some(n) => is_byte(n) && !(n < i128::from(least)),
    }
}

/// Whether a result of an integer type with more bytes than one is below 256, where operands are, or where only the top
/// byte of a number is left.
fn is_low_result(op: BinOp, left: bool, right: bool, top: bool) -> bool
    ensures { result ≡ is_low_result op left right top }
{
    match op {
        BinOp::And => left || right,
        BinOp::Or | BinOp::Xor => left && right,
        BinOp::Shr => left || top,
        _ => false,
    }
}

/// Whether a binary operator leaves a number below 256, where operands are, or where only a top byte is left.
fn leaves_byte(op: BinOp, ty: &CType, left: bool, right: bool, top: bool) -> bool
    ensures { result ≡ leaves_byte op (plain_type ty.now) left right top }
{
    is_comparison(op) || (is_wide_type(ty) && is_low_result(op, left, right, top))
}

/// An integer type with so many bytes.
fn integer(ty: &CType) -> Option<IntegerType>
    ensures { result ≡ integer_of (plain_type ty.now) }
{
    match ty {
        CType::Int { signed, bytes } => Some(IntegerType {
            signed: *signed,
            bytes: *bytes,
        }),
        _ => None,
    }
}

/// The number that a conversion to a temporary leaves, of an operand that may be known to hold a number, or one below 256.
fn converted(
    to: Temp,
    ty: &CType,
    aty: &CType,
    number: Option<i128>,
    byte: bool,
) -> Option<KnownNumber>
    ensures { result ≡ converted to (plain_type ty.now) (plain_type aty.now) number byte }
{
    match (integer(ty), integer(aty), number) {
        (Some(to_type), Some(from), Some(n)) => known_as(to, to_type, from, n, byte),
        (Some(to_type), Some(from), None) => byte_as(to, to_type, from, byte),
        _ => bytes_left(to),
    }
}

/// The temporary that an operation sets.
fn result_of(i: &Ir) -> Option<Temp>
    ensures { result ≡ result_of (plain_ir i.now) }
{
    match i {
        Ir::Const(to, _)
        | Ir::Copy(to, _)
        | Ir::Addr(to, _, _)
        | Ir::Field { ptr: to, .. }
        | Ir::Load { to, .. }
        | Ir::LoadObj(to, _, _)
        | Ir::Bin { to, .. }
        | Ir::Un { to, .. }
        | Ir::Conv { to, .. }
        | Ir::PortIn { to, .. }
        | Ir::LoadCell(to, _)
        | Ir::CellPort {
            read: true,
            temp: to,
            ..
        } => Some(*to),
        Ir::Call(_, to) => *to,
        _ => None,
    }
}

/// Of no place anything is known.
fn forget(row: &mut [Option<KnownNumber>])
    ensures length { length row.new ≡ length row.old }
    ensures nothing { (place : ℕ) → known_of row.new place ≡ None }
{
    for known in row.iter_mut() {
        *known = None;
    }
}

/// Of a place this is known.
fn set(row: &mut [Option<KnownNumber>], t: Temp, known: Option<KnownNumber>)
    requires { t.at < length row.old }
    ensures length { length row.new ≡ length row.old }
    ensures known { (place : ℕ)
        → known_of row.new place ≡ (if is_set (Some t) place then known else known_of row.old place) }
{
    row[usize::from(t.at)] = known;
}

impl KnownNumbers {
    /// Of so many places nothing is known.
    pub fn new(alloc: Global, slots: usize) -> Result<KnownNumbers, NoMemory>
        ensures { IfOk result (λ known. known ≡ replicate slots None) }
    {
        match vec![in alloc; None; slots] {
            Ok(row) => Ok(KnownNumbers { row }),
            Err(_) => Err(NoMemory),
        }
    }

    /// The number that a temporary is known to hold.
    pub fn number(&self, t: Temp) -> Option<i128>
        ensures { result ≡ number_in (known_of self.now) t }
    {
        match self.row.get(usize::from(t.at)) {
            Some(Some(k)) if k.bytes == t.bytes => k.number,
            _ => None,
        }
    }

    /// Whether a place is known to hold a number below 256, of so many bytes, and not which.
    fn is_byte(&self, at: u16, bytes: u8) -> bool
        ensures { result ≡ is_byte_of bytes (known_of self.now at) }
    {
        match self.row.get(usize::from(at)) {
            Some(Some(k)) => k.bytes == bytes && k.number.is_none() && k.width == 1,
            _ => false,
        }
    }

    /// Whether so many bytes of a place are known to be below 256.
    fn is_below(&self, at: u16, bytes: u8) -> bool
        ensures { result ≡ is_below bytes (known_of self.now at) }
    {
        match self.row.get(usize::from(at)) {
            Some(Some(k)) => k.bytes == bytes && is_small(k.number, k.width),
            _ => false,
        }
    }

    /// Whether a place is known to hold a number of so many bytes, and not which.
    fn is_filled(&self, at: u16, bytes: u8) -> bool
        ensures { result ≡ is_filled bytes (known_of self.now at) }
    {
        match self.row.get(usize::from(at)) {
            Some(Some(k)) => k.bytes == bytes && k.number.is_none() && k.width == bytes,
            _ => false,
        }
    }

    /// Whether an operand is a number of all bytes of its type, which has no sign and more bytes than one.
    fn is_filled_type(&self, t: Temp, ty: &CType) -> bool
        ensures { result ≡ is_filled_type (known_of self.now) t (plain_type ty.now) }
    {
        match ty {
            CType::Int {
                signed: false,
                bytes,
            } => is_wide(*bytes) && t.bytes == *bytes && self.is_filled(t.at, *bytes),
            _ => false,
        }
    }

    /// Whether a shift to the right leaves only the top byte of a number.
    fn leaves_top(&self, a: Temp, aty: &CType, b: Temp, bty: &CType) -> bool
        ensures { result ≡ leaves_top (known_of self.now) a (plain_type aty.now) b (plain_type bty.now) }
    {
        self.is_filled_type(a, aty)
            && is_wide_type(bty)
            && is_count_from(top_count(a.bytes), self.operand(b, bty))
    }

    /// Whether an operand of an integer type with more bytes than one is known to be below 256.
    fn is_low(&self, t: Temp, ty: &CType) -> bool
        ensures { result ≡ is_low (known_of self.now) t (plain_type ty.now) }
    {
        is_wide_type(ty) && self.is_below(t.at, t.bytes)
    }

    /// Whether a temporary of more bytes than one is known to be below 256.
    fn fits_byte(&self, t: Temp) -> bool
        ensures { result ≡ fits_byte (known_of self.now) t }
    {
        1 < t.bytes && self.is_byte(t.at, t.bytes)
    }

    /// And so is a second operand of an integer type.
    fn fits_second(&self, t: Temp, ty: &CType) -> bool
        ensures { result ≡ fits_second (known_of self.now) t (plain_type ty.now) }
    {
        is_wide_type(ty) && self.fits_byte(t)
    }

    /// The number of an integer operand, whose temporary has as many bytes as its type.
    fn operand(&self, t: Temp, ty: &CType) -> Option<i128>
        ensures { result ≡ operand_number (known_of self.now) t (plain_type ty.now) }
    {
        match ty {
            CType::Int { bytes, .. } if t.bytes == *bytes => self.number(t),
            _ => None,
        }
    }

    /// The number that an operation leaves in what it sets.
    fn left(&self, i: &Ir) -> Option<KnownNumber>
        ensures { result ≡ number_left (plain_ir i.now) (known_of self.now) }
    {
        match i {
            Ir::Const(t, n) => Some(KnownNumber {
                bytes: t.bytes,
                number: Some(*n),
                width: t.bytes,
            }),
            Ir::Conv { to, ty, a, aty, .. } => {
                let number = self.operand(*a, aty);
                converted(*to, ty, aty, number, self.is_byte(a.at, a.bytes))
            }
            Ir::Bin {
                op,
                ty,
                to,
                a,
                aty,
                b,
                bty,
                ..
            } => {
                let (left, right) = (self.is_low(*a, aty), self.is_low(*b, bty));
                let top = self.leaves_top(*a, aty, *b, bty);
                byte_where(*to, leaves_byte(*op, ty, left, right, top))
            }
            Ir::LoadObj(to, _, _)
            | Ir::Load { to, .. }
            | Ir::Un { to, .. }
            | Ir::PortIn { to, .. }
            | Ir::LoadCell(to, _)
            | Ir::CellPort {
                read: true,
                temp: to,
                ..
            } => bytes_left(*to),
            _ => None,
        }
    }

    /// An operation is passed: what was known before it becomes what is known behind it.
    pub fn pass(&mut self, i: &Ir)
        requires { HasResultPlace (length self.old) (plain_ir i.now) }
        ensures length { length self.new ≡ length self.old }
        ensures known { (place : ℕ)
            → known_of self.new place ≡ known_after (plain_ir i.now) (known_of self.old) place }
    {
        match i {
            Ir::Label(_) => forget(&mut self.row),
            _ => {
                if let Some(t) = result_of(i) {
                    let left = self.left(i);
                    set(&mut self.row, t, left);
                }
            }
        }
    }

    /// What the second operand of a binary operator is known to hold, or what a store takes; a branch tests against 0.
    pub fn right(&self, i: &Ir) -> Option<RightNumber>
        ensures { result ≡ right_number (known_of self.now) (plain_ir i.now) }
    {
        match i {
            Ir::Bin {
                op,
                to,
                a,
                b,
                bty,
                ..
            } => {
                let alone = takes_alone(*op, *to, *b);
                let right = self.fits_second(*b, bty);
                right_of(alone, self.fits_byte(*a), right, self.number(*b))
            }
            Ir::BranchZero(t, _) => right_of(false, self.fits_byte(*t), false, Some(0)),
            Ir::StoreObj(_, _, t) => right_of(false, false, false, self.number(*t)),
            _ => None,
        }
    }
}

/// Whether an operator changes one byte alone of its first operand, where the second one is below 256: OR and exclusive OR
/// do, and take it so where it does not stand at the place of the result.
fn takes_alone(op: BinOp, to: Temp, b: Temp) -> bool
    ensures { result ≡ takes_alone op to b }
{
    matches!(op, BinOp::Or | BinOp::Xor) && b.at != to.at
}

/// What is known of a second operand, which may be known to hold a number, where the operands are below 256, or not, and
/// where the second one is so alone.
fn right_of(alone: bool, left: bool, right: bool, number: Option<i128>) -> Option<RightNumber>
    ensures { result ≡ right_of alone left right number }
{
    match number {
        Some(n) => {
            let in_byte = left && is_byte(n);
            Some(RightNumber { number, in_byte })
        }
        None if (alone || left) && right => {
            Some(RightNumber {
                number,
                in_byte: !alone,
            })
        }
        None => None,
    }
}

fn push(numbers: &mut Vec<Option<RightNumber>>, n: Option<RightNumber>) -> Result<(), NoMemory>
    ensures { OnOk result (numbers.new.items ≡ numbers.old.items ++ n ∷ []) }
{
    match numbers.push(n) {
        Ok(()) => Ok(()),
        Err(_) => Err(NoMemory),
    }
}

fn push_numbers(
    known: &mut KnownNumbers,
    code: &[Ir],
    numbers: &mut Vec<Option<RightNumber>>,
) -> Result<(), NoMemory>
    requires { HaveResultPlaces (length known.old) (map plain_ir code.now) }
    ensures { OnOk result (numbers.new.items
        ≡ numbers.old.items ++ numbers_from (known_of known.old) (map plain_ir code.now)) }
{
    for k in 0..code.len() {
        let i = &code[k];
        push(numbers, known.right(i))?;
        known.pass(i);
    }
    Ok(())
}

/// For each operation of a function what the second operand of a binary operator or the operand of a store is known to
/// hold, and 0 for that which a branch tests against.
///
/// The operations set places below `slots` alone.
#[tactic(auto, using(crate::proofs::Rows::all_numbers))]
pub fn right_numbers(
    alloc: Global,
    code: &Seq<Ir>,
    slots: u16,
) -> Result<Vec<Option<RightNumber>>, NoMemory>
    requires { HaveResultPlaces slots (map plain_ir code.now.items) }
    ensures { IfOk result (λ numbers. numbers.items ≡ right_numbers (map plain_ir code.now.items)) }
{
    let mut known = KnownNumbers::new(alloc, usize::from(slots))?;
    let mut numbers = Vec::new(alloc);
    push_numbers(&mut known, code.as_slice(), &mut numbers)?;
    Ok(numbers)
}
