//! Pointers moved by so many elements, and pointers compared.
ghost use Rattle.std.specs.Prelude.{◌≡◌, ◌<◌, ◌≤◌, ◌++◌, OnOk, OnErr};
ghost use Rattle.ec_runs.specs.Behaviours.{BeginWith};
ghost use Rattle.ec_asm.specs.Pieces.{HasBytes};
ghost use Rattle.ec_select_places.specs.Steps.{z_pair, is_in_z, to_z_code, index_code, product_code, scale_code, scale_index_code};
ghost use Rattle.ec_select_places.specs.Steps.{byte_product_code, double_z, doublings_code, doublings_of, multiply_code};
ghost use Rattle.ec_select_places.specs.Steps.{advance_code, compared_bytes, order_code};

use ec_asm::{AsmItem, Location, Operator, copy, operate};
use ec_isa::Instr;
use ec_select_bytes::extend;
use ec_select_order::{Relation, relate};
use ec_select_pointers::point;
use ec_space::{NoMemory, Seq};

/// R31:R30.
pub(crate) fn z_pair() -> Location
    ensures { result ≡ z_pair }
{
    Location::InRegisters(30)
}

/// Whether a number stands from R30 on.
fn is_in_z(at: Location) -> bool
    ensures { result ≡ is_in_z at }
{
    match at {
        Location::InRegisters(r) => r == 30,
        Location::InMemory { .. } => false,
    }
}

/// Appends code that brings one byte or two to R30 and R31; none where they stand there already.
fn bring_to_z(out: &mut Seq<AsmItem>, from: Location, bytes: u8) -> Result<(), NoMemory>
    requires from { HasBytes from bytes }
    requires some { 1 ≤ bytes }
    requires most { bytes ≤ 2 }
    ensures ok { OnOk result (out.new.items ≡ out.old.items ++ to_z_code from bytes) }
    ensures err { OnErr result (BeginWith out.old.items out.new.items) }
{
    if is_in_z(from) {
        return Ok(());
    }
    if bytes == 1 {
        copy(out, from, z_pair(), 1)
    } else {
        point(out, from)
    }
}

/// Appends code that loads R31:R30 with a number of so many bytes, modulo 65,536.
fn load_index(
    out: &mut Seq<AsmItem>,
    from: Location,
    signed: bool,
    bytes: u8,
) -> Result<(), NoMemory>
    requires from { HasBytes from bytes }
    requires some { 1 ≤ bytes }
    ensures ok { OnOk result (out.new.items ≡ out.old.items ++ index_code from signed bytes) }
    ensures err { OnErr result (BeginWith out.old.items out.new.items) }
{
    if bytes == 1 {
        bring_to_z(out, from, 1)?;
        extend(out, signed, z_pair(), 1, 2)
    } else {
        bring_to_z(out, from, 2)
    }
}

/// Appends code that multiplies R31:R30 by a constant, modulo 65,536.
fn multiply_word(out: &mut Seq<AsmItem>, size: u16) -> Result<(), NoMemory>
    ensures ok { OnOk result (out.new.items ≡ out.old.items ++ product_code size) }
    ensures err { OnErr result (out.new.items ≡ out.old.items) }
{
    out.extend_from_slice(&[
        AsmItem::Plain(Instr::Movw { d: 8, r: 30 }),
        AsmItem::Plain(Instr::Ldi {
            d: 30,
            k: (size % 256) as u8,
        }),
        AsmItem::Plain(Instr::Ldi {
            d: 31,
            k: (size / 256) as u8,
        }),
        AsmItem::Plain(Instr::Mul { d: 8, r: 30 }),
        AsmItem::Plain(Instr::Movw { d: 10, r: 0 }),
        AsmItem::Plain(Instr::Mul { d: 8, r: 31 }),
        AsmItem::Plain(Instr::Add { d: 11, r: 0 }),
        AsmItem::Plain(Instr::Mul { d: 9, r: 30 }),
        AsmItem::Plain(Instr::Add { d: 11, r: 0 }),
        AsmItem::Plain(Instr::Movw { d: 30, r: 10 }),
    ])
}

/// Appends code that multiplies R31:R30 by a constant of one byte, modulo 65,536.
fn multiply_byte(out: &mut Seq<AsmItem>, size: u8) -> Result<(), NoMemory>
    ensures ok { OnOk result (out.new.items ≡ out.old.items ++ byte_product_code size) }
    ensures err { OnErr result (out.new.items ≡ out.old.items) }
{
    out.extend_from_slice(&[
        AsmItem::Plain(Instr::Movw { d: 8, r: 30 }),
        AsmItem::Plain(Instr::Ldi { d: 30, k: size }),
        AsmItem::Plain(Instr::Mul { d: 8, r: 30 }),
        AsmItem::Plain(Instr::Movw { d: 10, r: 0 }),
        AsmItem::Plain(Instr::Mul { d: 9, r: 30 }),
        AsmItem::Plain(Instr::Add { d: 11, r: 0 }),
        AsmItem::Plain(Instr::Movw { d: 30, r: 10 }),
    ])
}

fn multiply(out: &mut Seq<AsmItem>, size: u16) -> Result<(), NoMemory>
    ensures ok { OnOk result (out.new.items ≡ out.old.items ++ multiply_code size) }
    ensures err { OnErr result (out.new.items ≡ out.old.items) }
{
    if size < 256 {
        return multiply_byte(out, size as u8);
    }
    multiply_word(out, size)
}

/// Appends code that doubles R31:R30, modulo 65,536.
fn double(out: &mut Seq<AsmItem>) -> Result<(), NoMemory>
    ensures ok { OnOk result (out.new.items ≡ out.old.items ++ double_z) }
    ensures err { OnErr result (out.new.items ≡ out.old.items) }
{
    out.extend_from_slice(&[
        AsmItem::Plain(Instr::Add { d: 30, r: 30 }),
        AsmItem::Plain(Instr::Adc { d: 31, r: 31 }),
    ])
}

/// Appends code that doubles R31:R30 so often.
fn doublings(out: &mut Seq<AsmItem>, count: u8) -> Result<(), NoMemory>
    ensures ok { OnOk result (out.new.items ≡ out.old.items ++ doublings_code count) }
    ensures err { OnErr result (BeginWith out.old.items out.new.items) }
{
    for i in 0..count {
        double(out)?;
    }
    Ok(())
}

/// How often 1 is doubled to give the size, if that is 1, 2, 4 or 8.
fn doublings_of(size: u16) -> Option<u8>
    ensures { result ≡ doublings_of size }
{
    match size {
        1 => Some(0),
        2 => Some(1),
        4 => Some(2),
        8 => Some(3),
        _ => None,
    }
}

/// Appends code that brings R31:R30 from elements of so many bytes to bytes. Where memory runs out, a part of the code
/// is appended.
pub(crate) fn scale(out: &mut Seq<AsmItem>, size: u16) -> Result<(), NoMemory>
    ensures ok { OnOk result (out.new.items ≡ out.old.items ++ scale_code size) }
    ensures err { OnErr result (BeginWith out.old.items out.new.items) }
{
    match doublings_of(size) {
        Some(count) => doublings(out, count),
        None => multiply(out, size),
    }
}

/// Appends code that leaves in R31:R30 a number of elements of so many bytes each (`size`) in bytes, modulo 65,536: the
/// number of `bytes` bytes at `from`, in two's complement where it is `signed`. Where memory runs out, a part of the
/// code is appended.
pub fn scale_index(
    out: &mut Seq<AsmItem>,
    from: Location,
    signed: bool,
    bytes: u8,
    size: u16,
) -> Result<(), NoMemory>
    requires from { HasBytes from bytes }
    requires some { 1 ≤ bytes }
    ensures ok { OnOk result (out.new.items ≡ out.old.items ++ scale_index_code from signed bytes size) }
    ensures err { OnErr result (BeginWith out.old.items out.new.items) }
{
    load_index(out, from, signed, bytes)?;
    scale(out, size)
}

/// Appends code that adds R31:R30 to the offset in a pointer, or subtracts it where `minus` is set, modulo 65,536. A
/// third byte stays. Where memory runs out, a part of the code is appended.
pub fn advance(out: &mut Seq<AsmItem>, minus: bool, pointer: Location) -> Result<(), NoMemory>
    requires { HasBytes pointer 2 }
    ensures ok { OnOk result (out.new.items ≡ out.old.items ++ advance_code minus pointer) }
    ensures err { OnErr result (BeginWith out.old.items out.new.items) }
{
    let op = if minus {
        Operator::Difference
    } else {
        Operator::Sum
    };
    operate(out, op, z_pair(), pointer, 2)
}

/// The bytes of pointers that tell a relation: all for equality, and the offset for order.
fn compared_bytes(relation: Relation, bytes: u8) -> u8
    ensures { result ≡ compared_bytes relation bytes }
{
    match relation {
        Relation::Less | Relation::NotLess => 2,
        Relation::Equal | Relation::NotEqual => bytes,
    }
}

/// Appends code that leaves 1 in R30 where the pointer at `left` stands in the relation to that at `right`, both of so
/// many bytes, and else 0. Where memory runs out, a part of the code is appended.
pub fn order(
    out: &mut Seq<AsmItem>,
    relation: Relation,
    left: Location,
    right: Location,
    bytes: u8,
) -> Result<(), NoMemory>
    requires left { HasBytes left bytes }
    requires right { HasBytes right bytes }
    requires two { 2 ≤ bytes }
    ensures ok { OnOk result (out.new.items ≡ out.old.items ++ order_code relation left right bytes) }
    ensures err { OnErr result (BeginWith out.old.items out.new.items) }
{
    relate(
        out,
        relation,
        false,
        left,
        right,
        compared_bytes(relation, bytes),
    )
}
