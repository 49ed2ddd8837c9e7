//! What is needed before operations.
ghost use Rattle.std.specs.Prelude.{◌≡◌, ◌<◌, length};
ghost use Rattle.ec_ir.specs.Operations.{plain_ir};
ghost use Rattle.ec_select_operations.specs.Needs.{before, either, at_least, without, wanted, index_needed};
ghost use Rattle.ec_select_operations.specs.Needs.{returned_need, without_result, first_wanted, second_wanted};
ghost use Rattle.ec_select_operations.specs.Needs.{only_wanted, right_needed, numbered, compared_bytes, masked_bytes, joined_bytes};
ghost use Rattle.ec_select_operations.specs.Needs.{moved_wanted, loaded_bytes, narrowed};
ghost use Rattle.ec_select_live.specs.Places.{MayHavePlace, HasPlaces};
ghost use Rattle.ec_select_live.specs.Tables.{need_of, needs_of, AreSame};

use crate::rows::{
    clear, first_wanted, forget, keep, moved_wanted, only_wanted, second_wanted, wanted_of,
};
use crate::table::{LabelNeeds, zeros};
use ec_core::BinOp;
use ec_ir::{Ir, Temp};
use ec_ir_known::RightNumber;
use ec_select_operations::{
    compared_bytes, family_of, is_apart, is_fixed, is_whole, joined_bytes, masked_bytes,
    moves_pointer, number_taken, numbered, right_taken, takes_whole,
};
use ec_space::{NoMemory, Seq, SpaceId};
use std::alloc::Global;

/// As many bytes of an operand are needed as of the result, or all.
fn pass_on(need: &mut [u8], whole: bool, to: Temp, from: Temp)
    requires to { to.at < length need.old }
    requires from { from.at < length need.old }
    ensures { AreSame (length need.old) (need_of need.new)
        (at_least from.at (only_wanted whole from.bytes (wanted (need_of need.old) to))
        (without to.at (need_of need.old))) }
{
    let n = wanted_of(need, to);
    forget(need, to);
    keep(need, from, only_wanted(whole, from.bytes, n));
}

/// So many bytes of a second operand are needed, but none where it is taken as a number.
fn keep_right(need: &mut [u8], taken: Option<RightNumber>, b: Temp, n: u8)
    requires { b.at < length need.old }
    ensures { AreSame (length need.old) (need_of need.new) (right_needed taken b.at n (need_of need.old)) }
{
    match taken {
        None => keep(need, b, n),
        Some(_) => {}
    }
}

/// Whether an operator moves its first operand, or its second one.
#[derive(Clone, Copy)]
struct Moves {
    first: bool,
    second: bool,
}

/// The operands of a binary operator. An operator on integers takes what is known of the second operand as `taken`, and any
/// operator takes the number `right` in place of it.
fn pass_operands(
    need: &mut [u8],
    whole: bool,
    moves: Moves,
    taken: Option<RightNumber>,
    right: Option<RightNumber>,
    op: BinOp,
    to: Temp,
    a: Temp,
    b: Temp,
)
    requires to { to.at < length need.old }
    requires left { a.at < length need.old }
    requires right { b.at < length need.old }
    ensures { AreSame (length need.old) (need_of need.new)
        (at_least a.at (moved_wanted moves.first (wanted (need_of need.old) to)
        (first_wanted whole op (compared_bytes taken a.bytes) (masked_bytes taken op (wanted (need_of need.old) to))))
        (right_needed right b.at (moved_wanted moves.second (wanted (need_of need.old) to)
        (second_wanted whole op (compared_bytes taken b.bytes) (joined_bytes taken (wanted (need_of need.old) to))))
        (without to.at (need_of need.old)))) }
{
    let n = wanted_of(need, to);
    forget(need, to);
    let bytes = compared_bytes(taken, b.bytes);
    let joined = joined_bytes(taken, n);
    let second = moved_wanted(moves.second, n, second_wanted(whole, op, bytes, joined));
    keep_right(need, right, b, second);
    let bytes = compared_bytes(taken, a.bytes);
    let masked = masked_bytes(taken, op, n);
    let first = moved_wanted(moves.first, n, first_wanted(whole, op, bytes, masked));
    keep(need, a, first);
}

/// What is needed at a label.
fn at_label(table: &LabelNeeds, l: u64, need: &mut [u8])
    ensures { AreSame (length need.old) (need_of need.new) (needs_of table.now l) }
{
    for place in 0..need.len() {
        need[place] = table.need(l, place);
    }
}

/// What is needed at a label, and what was needed.
fn or_at_label(table: &LabelNeeds, l: u64, need: &mut [u8])
    ensures { AreSame (length need.old) (need_of need.new) (either (need_of need.old) (needs_of table.now l)) }
{
    for place in 0..need.len() {
        need[place] = need[place].max(table.need(l, place));
    }
}

/// What is needed before the end of a function.
fn at_return(need: &mut [u8], from: Option<Temp>)
    requires { MayHavePlace (length need.old) from }
    ensures { AreSame (length need.old) (need_of need.new) (returned_need from) }
{
    clear(need);
    if let Some(t) = from {
        keep(need, t, t.bytes);
    }
}

/// What is needed before a call: all but its result.
fn at_call(need: &mut [u8], to: Option<Temp>)
    requires { MayHavePlace (length need.old) to }
    ensures { AreSame (length need.old) (need_of need.new) (without_result to (need_of need.old)) }
{
    if let Some(t) = to {
        forget(need, t);
    }
}

/// The bytes of a pointer that a load takes: where no object is kept in flash, of one into the unnamed space the two of an
/// address.
fn loaded_bytes(space: SpaceId, in_flash: bool, bytes: u8) -> u8
    ensures { result ≡ loaded_bytes space in_flash bytes }
{
    match space {
        SpaceId::Generic => { if in_flash { bytes } else { 2 } }
        SpaceId::Flash | SpaceId::FarFlash | SpaceId::Data => bytes,
    }
}

/// What is needed before a load through a pointer, of which it takes so many bytes.
fn at_load(need: &mut [u8], to: Temp, ptr: Temp, bytes: u8)
    requires to { to.at < length need.old }
    requires pointer { ptr.at < length need.old }
    ensures { AreSame (length need.old) (need_of need.new)
        (at_least ptr.at bytes (without to.at (need_of need.old))) }
{
    forget(need, to);
    keep(need, ptr, bytes);
}

/// What is needed before a store through a pointer.
fn at_store(need: &mut [u8], ptr: Temp, from: Temp)
    requires pointer { ptr.at < length need.old }
    requires from { from.at < length need.old }
    ensures { AreSame (length need.old) (need_of need.new)
        (at_least from.at from.bytes (at_least ptr.at 2 (need_of need.old))) }
{
    keep(need, ptr, 2);
    keep(need, from, from.bytes);
}

/// What is needed before a branch to a label where a temporary is 0, of which so many bytes are tested.
fn at_branch(table: &LabelNeeds, t: Temp, bytes: u8, l: u64, need: &mut [u8])
    requires { t.at < length need.old }
    ensures { AreSame (length need.old) (need_of need.new)
        (at_least t.at bytes (either (need_of need.old) (needs_of table.now l))) }
{
    or_at_label(table, l, need);
    keep(need, t, bytes);
}

/// Of the index of a port the low byte is needed.
fn keep_index(need: &mut [u8], index: Option<Temp>)
    requires { MayHavePlace (length need.old) index }
    ensures { AreSame (length need.old) (need_of need.new) (index_needed index (need_of need.old)) }
{
    if let Some(t) = index {
        keep(need, t, 1);
    }
}

/// What is needed before a port is read.
fn at_read(need: &mut [u8], to: Temp, index: Option<Temp>)
    requires to { to.at < length need.old }
    requires index { MayHavePlace (length need.old) index }
    ensures { AreSame (length need.old) (need_of need.new) (index_needed index (without to.at (need_of need.old))) }
{
    forget(need, to);
    keep_index(need, index);
}

/// What is needed before a port of some width is written.
fn at_write(need: &mut [u8], from: Temp, index: Option<Temp>, width: u8)
    requires from { from.at < length need.old }
    requires index { MayHavePlace (length need.old) index }
    ensures { AreSame (length need.old) (need_of need.new)
        (at_least from.at width (index_needed index (need_of need.old))) }
{
    keep_index(need, index);
    keep(need, from, width);
}

/// What is needed before an operation, in place of what is needed after it: `need` has a byte for each of the first
/// places. Its second operand may be known to hold a number; `in_flash` tells whether some object is kept in flash.
pub fn before(
    table: &LabelNeeds,
    in_flash: bool,
    known: Option<RightNumber>,
    i: &Ir,
    need: &mut [u8],
)
    requires { HasPlaces (length need.old) (plain_ir i.now) }
    ensures { AreSame (length need.old) (need_of need.new)
        (before (needs_of table.now) known (narrowed (plain_ir i.now) in_flash) (need_of need.old)) }
{
    match i {
        Ir::Const(t, _) | Ir::Addr(t, _, _) | Ir::LoadObj(t, _, _) => forget(need, *t),
        Ir::Field { ptr, .. } => keep(need, *ptr, 2),
        Ir::Load { to, ptr, space } => {
            at_load(need, *to, *ptr, loaded_bytes(*space, in_flash, ptr.bytes))
        }
        Ir::Store { ptr, from, .. } => at_store(need, *ptr, *from),
        Ir::StoreObj(_, _, t) => keep_right(need, numbered(known), *t, t.bytes),
        Ir::Copy(to, a) => pass_on(need, false, *to, *a),
        Ir::Un { ty, to, a, .. } => pass_on(need, is_whole(ty), *to, *a),
        Ir::Conv { to, ty, a, aty, .. } => { pass_on(need, is_fixed(ty) || is_fixed(aty), *to, *a) }
        Ir::Bin {
            op,
            ty,
            mode,
            to,
            a,
            aty,
            b,
            bty,
        } => {
            let apart = is_apart(family_of(*op), *mode, ty, aty, bty);
            let takes = takes_whole(*op, *mode, ty, aty, bty, *to, *b);
            let taken = number_taken(known, apart, *op);
            let right = right_taken(known, takes, apart, *op);
            let moves = Moves {
                first: moves_pointer(*op, aty, bty),
                second: moves_pointer(*op, bty, aty),
            };
            pass_operands(need, apart, moves, taken, right, *op, *to, *a, *b)
        }
        Ir::Label(l) | Ir::Jump(l) => at_label(table, *l, need),
        Ir::BranchZero(t, l) => at_branch(table, *t, compared_bytes(known, t.bytes), *l, need),
        Ir::Call(_, to) => at_call(need, *to),
        Ir::Return(from) => at_return(need, *from),
        Ir::PortIn { to, index, .. } => at_read(need, *to, *index),
        Ir::PortOut {
            from,
            index,
            width,
            ..
        } => at_write(need, *from, *index, *width),
        Ir::LoadCell(to, _) => forget(need, *to),
        Ir::StoreCell(_, from) => keep(need, *from, from.bytes),
        Ir::CellPort {
            read: true,
            temp,
            index,
            ..
        } => at_read(need, *temp, *index),
        Ir::CellPort {
            read: false,
            temp,
            index,
            width,
            ..
        } => at_write(need, *temp, *index, *width),
    }
}
