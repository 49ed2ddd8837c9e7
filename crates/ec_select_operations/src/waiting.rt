//! Pointers that wait in Z for a store.
ghost use Rattle.std.specs.Prelude.{◌≡◌, ◌<◌, ◌+◌, ◌^◌, ◌==◌, ◌&&◌, ◌||◌, not, length, map, option_map, slice_get};
ghost use Rattle.std.specs.Option.{option_copied};
ghost use Rattle.ec_core.specs.Plain.{plain_type};
ghost use Rattle.ec_ir.specs.Operations.{plain_ir};
ghost use Rattle.ec_select_operations.specs.Code.{look, adds_number, is_in_high, leaves_z, is_store_by_z, waits, waits_for};
ghost use Rattle.ec_select_operations.specs.Code.{is_waiting};
ghost use Rattle.ec_select_operations.specs.Emitted.{declarations};
ghost use Rattle.ec_select_operations.specs.Homes.{home};
ghost use Rattle.ec_select_operations.specs.Needs.{is_whole};

use crate::families::Told;
use crate::homes::{Homes, home};
use crate::in_z::{is_from_data, is_in_reach, told_offset};
use crate::numbers::number_at;
use crate::operations::{operation_at, wanted_at};
use crate::pointers::{is_table, kept_in};
use crate::types::is_whole;
use ec_asm::Location;
use ec_core::{BinOp, CType};
use ec_ir::{Ir, IrProgram, Temp};
use ec_ir_known::RightNumber;

/// Whether a known number is added or subtracted.
fn adds_number(known: Option<RightNumber>, op: BinOp) -> bool
    ensures { result ≡ adds_number known op }
{
    match known {
        None => false,
        Some(n) => n.number.is_some() && matches!(op, BinOp::Add | BinOp::Sub),
    }
}

/// Whether a number stands in registers that an immediate reaches.
fn is_in_high(at: Location) -> bool
    ensures { result ≡ is_in_high at }
{
    match at {
        Location::InRegisters(r) => r >= 16,
        Location::InMemory { .. } => false,
    }
}

/// Whether a result and an operand stand at other places than this one.
fn are_apart(place: u16, to: Temp, a: Temp) -> bool
    ensures { result ≡ (not (to.at == place) && not (a.at == place)) }
{
    to.at != place && a.at != place
}

/// Whether neither of two types is that of fixed-point numbers or of pointers.
fn are_plain(a: &CType, b: &CType) -> bool
    ensures { result ≡ not (is_whole (plain_type a.now) || is_whole (plain_type b.now)) }
{
    !(is_whole(a) || is_whole(b))
}

/// Whether the code of an operation leaves Z and a place alone, of whose result so many bytes are wanted, and whose second
/// operand may be known to hold a number. A load may be through the pointer of this place, which is so far from Z.
fn leaves_z(
    program: &IrProgram,
    homes: Homes,
    place: u16,
    offset: u64,
    known: Option<RightNumber>,
    wanted: u8,
    i: Option<&Ir>,
) -> bool
    requires { offset < 2 ^ 60 }
    ensures { result ≡ leaves_z (declarations program.now) (home homes) place offset known wanted
        (option_map plain_ir (option_copied i.entry)) }
{
    match i {
        Some(Ir::LoadObj(t, o, _)) => t.at != place && !is_table(kept_in(program, *o)),
        Some(Ir::Load { to, ptr, space }) => {
            let own = ptr.at == place && to.at != place;
            own && is_from_data(program, *space) && is_in_reach(offset, to.bytes)
        }
        Some(Ir::Const(t, _)) => t.at != place && wanted == 0,
        Some(Ir::Conv { to, ty, a, aty, .. }) => {
            are_apart(place, *to, *a) && are_plain(ty, aty) && wanted <= a.bytes
        }
        Some(
            Ir::Bin {
                op,
                to,
                a,
                aty,
                bty,
                ..
            },
        ) => {
            let sum = adds_number(known, *op) && is_in_high(home(homes, *to));
            are_apart(place, *to, *a) && are_plain(aty, bty) && sum
        }
        _ => false,
    }
}

/// Whether an operation stores another temporary through the pointer of a place, of which so much is needed behind it.
fn is_store_by_z(place: u16, offset: u64, wanted: u8, i: Option<&Ir>) -> bool
    requires { offset < 2 ^ 60 }
    ensures { result ≡ is_store_by_z place offset wanted (option_map plain_ir (option_copied i.entry)) }
{
    match i {
        Some(Ir::Store { ptr, from, .. }) => {
            let own = ptr.at == place && from.at != place;
            own && wanted == 0 && is_in_reach(offset, from.bytes)
        }
        _ => false,
    }
}

/// Whether an operation stores so, or leaves Z and the place alone for a later one that does.
fn stores_or_leaves(
    program: &IrProgram,
    homes: Homes,
    place: u16,
    offset: u64,
    known: Option<RightNumber>,
    wanted: u8,
    i: Option<&Ir>,
    later: bool,
) -> bool
    requires { offset < 2 ^ 60 }
    ensures { result ≡ (is_store_by_z place offset wanted (option_map plain_ir (option_copied i.entry))
        || (leaves_z (declarations program.now) (home homes) place offset known wanted
        (option_map plain_ir (option_copied i.entry)) && later)) }
{
    is_store_by_z(place, offset, wanted, i)
        || (leaves_z(program, homes, place, offset, known, wanted, i) && later)
}

/// Whether one of the next operations, from one on, stores through the pointer of a place that waits so far from Z, and those
/// before it leave Z and the place alone.
fn waits(
    program: &IrProgram,
    homes: Homes,
    wanted: &[u8],
    known: &[Option<RightNumber>],
    code: &[Ir],
    place: u16,
    offset: u64,
    k: usize,
) -> bool
    requires offset { offset < 2 ^ 60 }
    requires inside { k < length code.now + 8 }
    ensures { result ≡ waits (declarations program.now) (home homes) place offset
        (look 8 (map plain_ir code.now) wanted.now known.now k) }
{
    let mut later = false;
    for n in 0..8usize {
        let j = k + (7 - n);
        later = stores_or_leaves(
            program,
            homes,
            place,
            offset,
            number_at(known, j),
            wanted_at(wanted, j),
            operation_at(code, j),
            later,
        );
    }
    later
}

/// Whether the pointer waits in Z that an operation, which has been told so much, has read or moved. The next operation is at
/// a place.
pub(crate) fn is_waiting(
    program: &IrProgram,
    homes: Homes,
    wanted: &[u8],
    known: &[Option<RightNumber>],
    code: &[Ir],
    told: Option<Told>,
    i: &Ir,
    k: usize,
) -> bool
    requires inside { k < length code.now + 4 }
    ensures { result ≡ is_waiting (declarations program.now) (home homes) told (plain_ir i.now)
        (slice_get (map plain_ir code.now) k) (look 8 (map plain_ir code.now) wanted.now known.now k)
        (look 8 (map plain_ir code.now) wanted.now known.now (k + 1)) }
{
    match i {
        Ir::LoadObj(t, _, _) => match operation_at(code, k) {
            Some(Ir::Field { ptr, offset, .. }) => {
                let by = u64::from(*offset);
                let is_own = ptr.at == t.at && is_in_reach(by, 0);
                is_own && waits(program, homes, wanted, known, code, t.at, by, k + 1)
            }
            _ => waits(program, homes, wanted, known, code, t.at, 0, k),
        },
        Ir::Field { ptr, offset, .. } => {
            let further = u64::from(told_offset(told)) + u64::from(*offset);
            waits(program, homes, wanted, known, code, ptr.at, further, k)
        }
        _ => false,
    }
}
