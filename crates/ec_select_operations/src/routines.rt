//! Operations whose code stands once, and calls of it.
ghost use Rattle.std.specs.Prelude.{◌≡◌, ◌≤◌, ◌++◌, OnOk, OnErr};
ghost use Rattle.ec_runs.specs.Behaviours.{BeginWith};
ghost use Rattle.ec_asm.specs.Pieces.{HasBytes};
ghost use Rattle.ec_ir.specs.Operations.{plain_ir};
ghost use Rattle.ec_core.specs.Layout.{scalar_size};
ghost use Rattle.ec_core.specs.Plain.{plain_type};
ghost use Rattle.ec_select_operations.specs.Code.{answer_code, called_code, family_of, is_signed};
ghost use Rattle.ec_select_operations.specs.Emitted.{CanBeCalled};
ghost use Rattle.ec_select_operations.specs.Homes.{home};
ghost use Rattle.ec_select_operations.specs.Routines.{CanBeRoutine, CanBeDivided, division_body, routine_with, routine_for};
ghost use Rattle.ec_select_routines.specs.Codes.{call_with_one, call_with_two};

use crate::families::{Family, family_of};
use crate::fixed::answer_location;
use crate::homes::{Homes, home};
use crate::types::{is_fixed, is_signed};
use ec_asm::{AsmItem, Location, copy};
use ec_core::{BinOp, CType};
use ec_ir::{Ir, Temp, scalar_size};
use ec_select_quotients::Division;
use ec_select_routines as routines;
use ec_space::{NoMemory, Seq};

/// Appends a call of the routine with a label, of an operation with two operands, and code that brings so many bytes of
/// its result to their place. Where memory runs out, a part of it is appended.
#[tactic(auto, using(crate::proofs::Emits::fewer_bytes))]
fn call_with_two(
    out: &mut Seq<AsmItem>,
    homes: Homes,
    label: u64,
    to: Temp,
    a: Temp,
    b: Temp,
    wanted: u8,
) -> Result<(), NoMemory>
    requires most { wanted ≤ to.bytes }
    requires left { a.bytes ≤ 8 }
    requires right { b.bytes ≤ 8 }
    ensures ok { OnOk result (out.new.items ≡ out.old.items
        ++ answer_code (call_with_two (home homes a) (home homes b) a.bytes b.bytes label) (home homes to) wanted) }
    ensures err { OnErr result (BeginWith out.old.items out.new.items) }
{
    if wanted == 0 {
        return Ok(());
    }
    let (left, right) = (home(homes, a), home(homes, b));
    routines::call_with_two(out, left, right, a.bytes, b.bytes, label)?;
    copy(out, answer_location(), home(homes, to), wanted)
}

/// The same of an operation with one operand.
#[tactic(auto, using(crate::proofs::Emits::fewer_bytes))]
fn call_with_one(
    out: &mut Seq<AsmItem>,
    homes: Homes,
    label: u64,
    to: Temp,
    a: Temp,
    wanted: u8,
) -> Result<(), NoMemory>
    requires most { wanted ≤ to.bytes }
    requires operand { a.bytes ≤ 8 }
    ensures ok { OnOk result (out.new.items ≡ out.old.items
        ++ answer_code (call_with_one (home homes a) a.bytes label) (home homes to) wanted) }
    ensures err { OnErr result (BeginWith out.old.items out.new.items) }
{
    if wanted == 0 {
        return Ok(());
    }
    routines::call_with_one(out, home(homes, a), a.bytes, label)?;
    copy(out, answer_location(), home(homes, to), wanted)
}

/// Appends code that calls the routine with a label for an operation, of whose result so many bytes are wanted. Where
/// memory runs out, a part of it is appended.
pub fn called(
    out: &mut Seq<AsmItem>,
    homes: Homes,
    label: u64,
    wanted: u8,
    i: &Ir,
) -> Result<(), NoMemory>
    requires { CanBeCalled wanted (plain_ir i.now) }
    ensures ok { OnOk result (out.new.items ≡ out.old.items
        ++ called_code (home homes) label wanted (plain_ir i.now)) }
    ensures err { OnErr result (BeginWith out.old.items out.new.items) }
{
    match i {
        Ir::Bin { to, a, b, .. } => call_with_two(out, homes, label, *to, *a, *b, wanted),
        Ir::Un { to, a, .. } | Ir::Conv { to, a, .. } => {
            call_with_one(out, homes, label, *to, *a, wanted)
        }
        _ => Ok(()),
    }
}

/// Appends the routine of a quotient or a remainder of integers.
fn division_routine(
    out: &mut Seq<AsmItem>,
    label: u64,
    op: BinOp,
    aty: &CType,
) -> Result<(), NoMemory>
    requires { CanBeDivided (family_of op) (scalar_size (plain_type aty.now)) }
    ensures ok { OnOk result (out.new.items ≡ out.old.items ++ routine_with label
        (division_body (family_of op) (is_signed (plain_type aty.now)) (scalar_size (plain_type aty.now)))) }
    ensures err { OnErr result (BeginWith out.old.items out.new.items) }
{
    match family_of(op) {
        Family::Divided { remainder } => {
            let of = Division {
                remainder,
                signed: is_signed(aty),
            };
            routines::quotient_routine(out, label, of, scalar_size(aty) - 1)
        }
        _ => Ok(()),
    }
}

/// Appends the routine of an operation, with a label; none where the operation has none. Where memory runs out, a part of
/// it is appended.
pub fn routine(out: &mut Seq<AsmItem>, label: u64, i: &Ir) -> Result<(), NoMemory>
    requires { CanBeRoutine (plain_ir i.now) }
    ensures ok { OnOk result (out.new.items ≡ out.old.items ++ routine_for label (plain_ir i.now)) }
    ensures err { OnErr result (BeginWith out.old.items out.new.items) }
{
    match i {
        Ir::Bin {
            op,
            ty,
            mode,
            aty,
            bty,
            ..
        } => {
            if is_fixed(aty) || is_fixed(bty) {
                return routines::binary_routine(out, label, *op, ty, aty, bty, *mode);
            }
            division_routine(out, label, *op, aty)
        }
        Ir::Un { op, ty, mode, .. } if is_fixed(ty) => {
            routines::unary_routine(out, label, *op, ty, *mode)
        }
        Ir::Conv { ty, mode, aty, .. } if is_fixed(ty) || is_fixed(aty) => {
            routines::conversion_routine(out, label, ty, aty, *mode)
        }
        _ => Ok(()),
    }
}
