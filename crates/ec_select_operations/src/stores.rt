//! Stores to named objects.
ghost use Rattle.std.specs.Prelude.{◌≡◌, ◌≤◌, ◌<◌, ◌++◌, OnOk, OnErr};
ghost use Rattle.ec_runs.specs.Behaviours.{BeginWith};
ghost use Rattle.ec_asm.specs.Pieces.{HasByte, HasBytes};
ghost use Rattle.ec_select_bytes.specs.Values.{byte_of};
ghost use Rattle.ec_select_operations.specs.Stores.{is_repeated, work_stored, number_byte_code, store_number_code};
ghost use Rattle.ec_select_operations.specs.Stores.{store_object_code};

use crate::numbers::bits_of;
use ec_asm::{AsmItem, Location, copy};
use ec_isa::Instr;
use ec_space::{NoMemory, Seq};

/// Byte `i` of a number.
fn byte_of(number: u128, i: u8) -> u8
    requires { i < 16 }
    ensures { result ≡ byte_of number i }
{
    (number / 256u128.pow(u32::from(i)) % 256) as u8
}

/// Whether byte `i` of a number is the one before it.
fn is_repeated(number: u128, i: u8) -> bool
    requires { i < 16 }
    ensures { result ≡ is_repeated number i }
{
    0 < i && byte_of(number, i - 1) == byte_of(number, i)
}

/// The item by which R30 goes to byte `i` of a place.
fn work_stored(to: Location, i: u8) -> AsmItem
    requires { HasByte to i }
    ensures { result ≡ work_stored to i }
{
    match to {
        Location::InRegisters(r) => AsmItem::Plain(Instr::Mov { d: r + i, r: 30 }),
        Location::InMemory { object, offset } => AsmItem::StoreObj {
            object,
            offset: offset + u32::from(i),
            r: 30,
        },
    }
}

/// Appends code that stores byte `i` of a number by R30, where the one before it was stored so.
fn store_byte(out: &mut Seq<AsmItem>, number: u128, to: Location, i: u8) -> Result<(), NoMemory>
    requires to { HasByte to i }
    requires most { i < 16 }
    ensures ok { OnOk result (out.new.items ≡ out.old.items ++ number_byte_code to number i) }
    ensures err { OnErr result (out.new.items ≡ out.old.items) }
{
    let store = work_stored(to, i);
    if is_repeated(number, i) {
        return out.extend_from_slice(&[store]);
    }
    let make = AsmItem::Plain(Instr::Ldi {
        d: 30,
        k: byte_of(number, i),
    });
    out.extend_from_slice(&[make, store])
}

/// Appends code that stores the lowest bytes of a known number, one after another, by R30. Where memory runs out, a part of
/// the code is appended.
fn store_number(
    out: &mut Seq<AsmItem>,
    number: u128,
    to: Location,
    bytes: u8,
) -> Result<(), NoMemory>
    requires to { HasBytes to bytes }
    requires most { bytes ≤ 16 }
    ensures ok { OnOk result (out.new.items ≡ out.old.items ++ store_number_code to number bytes) }
    ensures err { OnErr result (BeginWith out.old.items out.new.items) }
{
    for i in 0..bytes {
        store_byte(out, number, to, i)?;
    }
    Ok(())
}

/// Appends code that stores so many bytes of a temporary to an object, which may be known to hold a number. Where memory
/// runs out, a part of the code is appended.
pub fn store_object(
    out: &mut Seq<AsmItem>,
    number: Option<i128>,
    from: Location,
    to: Location,
    bytes: u8,
) -> Result<(), NoMemory>
    requires from { HasBytes from bytes }
    requires to { HasBytes to bytes }
    requires most { bytes ≤ 16 }
    ensures ok { OnOk result (out.new.items ≡ out.old.items ++ store_object_code number from to bytes) }
    ensures err { OnErr result (BeginWith out.old.items out.new.items) }
{
    match number {
        None => copy(out, from, to, bytes),
        Some(n) => store_number(out, bits_of(n), to, bytes),
    }
}
