//! The code of operations, one after another.
ghost use Rattle.std.specs.Prelude.{◌≡◌, ◌≤◌, ◌++◌, ◌+◌, ◌^◌, ◌<◌, suc, OnOk, OnErr, map, length, option_map};
ghost use Rattle.std.specs.Prelude.{slice_get, slice_index, get_or, []};
ghost use Rattle.std.specs.Option.{option_copied};
ghost use Rattle.ec_runs.specs.Behaviours.{BeginWith};
ghost use Rattle.ec_ir.specs.Operations.{plain_ir};
ghost use Rattle.ec_select_operations.specs.Code.{operation_code, is_only_tested, is_over_jump, tells, called_code};
ghost use Rattle.ec_select_operations.specs.Code.{linked_code, routine_used, tells_any, is_waiting, look, is_index_alone};
ghost use Rattle.ec_select_operations.specs.Emitted.{declarations, linkage, IsLabel, CanBeEmitted, CanBeLinked};
ghost use Rattle.ec_select_operations.specs.Homes.{home};
ghost use Rattle.ec_select_operations.specs.Written.{need_in, CanBeWritten, index_in, told_at, written_code};
ghost use Rattle.ec_select_operations.specs.Written.{written_function};

use crate::calls::{Linking, call, finish};
use crate::families::{
    BinaryOperation, Told, branch_on, convert, family_of, is_index, jump_on, move_number, turned,
    unary,
};
use crate::fixed::{fixed_binary, fixed_conversion, fixed_unary, is_apart, is_untold, takes_count};
use crate::homes::{Homes, home, index_place};
use crate::in_z::{go_to_member, load_by, load_or_fetch, own_telling, store_by, tells_in_z};
use crate::numbers::{
    bits_of, compared_bytes, integer_binary, moves_pointer, number_at, number_known, number_taken,
    told_taking,
};
use crate::pointers::{
    load_index, move_by_told, object_location, pointer_binary, pointer_conversion, put_address,
};
use crate::routines::called;
use crate::stores::store_object;
use crate::types::{is_fixed, is_pointer, is_signed};
use crate::waiting::is_waiting;
use ec_asm::{AsmItem, Location};
use ec_ir::{Ir, IrProgram, Temp};
use ec_ir_known::RightNumber;
use ec_select_bytes::{
    CellAccess, PortAccess, load_cell, read_cell_port, read_port, store_cell, write_cell_port,
    write_port,
};
use ec_select_numbers::put_number;
use ec_space::{Core, NoMemory, Seq};

/// What an operation has been told by the one before it, and what it tells the next one.
#[derive(Clone, Copy)]
pub struct Flags {
    pub told: Option<Told>,
    pub telling: Option<Told>,
}

/// Whether the next operation branches on the result, of which nothing is needed afterwards.
fn is_only_tested(to: Temp, next: Option<&Ir>, needed: u8) -> bool
    ensures { result ≡ is_only_tested to (option_map plain_ir (option_copied next.entry)) needed }
{
    match next {
        Some(Ir::BranchZero(t, _)) => needed == 0 && t.at == to.at && t.bytes == to.bytes,
        _ => false,
    }
}

/// Whether the next operation is a jump, and the one behind it the label of a branch that stands over it.
fn is_over_jump(label: u64, next: Option<&Ir>, behind: Option<&Ir>) -> bool
    ensures { result ≡ is_over_jump label (option_map plain_ir (option_copied next.entry))
        (option_map plain_ir (option_copied behind.entry)) }
{
    match (next, behind) {
        (Some(Ir::Jump(_)), Some(Ir::Label(l))) => *l == label,
        _ => false,
    }
}

/// Whether the next operation moves a pointer by an integer of one or two bytes that is loaded. Behind it so many bytes of
/// the place of the integer are needed.
fn is_index_alone(t: Temp, next: Option<&Ir>, behind: u8) -> bool
    ensures { result ≡ is_index_alone t (option_map plain_ir (option_copied next.entry)) behind }
{
    match next {
        Some(
            Ir::Bin {
                op,
                a,
                aty,
                b,
                bty,
                ..
            },
        ) => {
            let is_free = behind == 0 && b.bytes <= 2;
            let is_loaded = b.at == t.at && b.bytes == t.bytes;
            is_free && is_loaded && b.at != a.at && moves_pointer(*op, aty, bty)
        }
        _ => false,
    }
}

/// What an operation, whose second operand may be known to hold a number, and which has been told so much, tells the next
/// one: by a flag a comparison or an AND in place of its result, and a branch over a jump in place of the branch; and a load
/// of an index in place of its result, where behind the next one so many bytes of the place of its second operand are
/// needed.
fn tells(
    known: Option<RightNumber>,
    told: Option<Told>,
    i: &Ir,
    next: Option<&Ir>,
    behind: Option<&Ir>,
    needed: u8,
    index: u8,
) -> Option<Told>
    ensures { result ≡ tells known told (plain_ir i.now) (option_map plain_ir (option_copied next.entry))
        (option_map plain_ir (option_copied behind.entry)) needed index }
{
    match i {
        Ir::Bin {
            op,
            ty,
            mode,
            to,
            a,
            aty,
            bty,
            ..
        } => {
            if is_only_tested(*to, next, needed) {
                let family = family_of(*op);
                let taken = number_taken(known, is_apart(family, *mode, ty, aty, bty), *op);
                let untold = is_untold(family, *mode, ty, aty, bty);
                told_taking(taken, untold, *op, is_signed(aty), a.bytes)
            } else {
                None
            }
        }
        Ir::BranchZero(_, l) if is_over_jump(*l, next, behind) => Some(turned(told)),
        Ir::LoadObj(t, _, _) if is_index_alone(*t, next, index) => Some(Told::Index),
        _ => None,
    }
}

/// What an operation tells the next one by Z, or else by a flag.
fn tells_any(
    core: Core,
    program: &IrProgram,
    known: Option<RightNumber>,
    told: Option<Told>,
    i: &Ir,
    next: Option<&Ir>,
    behind: Option<&Ir>,
    needed: u8,
    index: u8,
    waiting: bool,
) -> Option<Told>
    ensures { result ≡ tells_any core (declarations program.now) known told (plain_ir i.now)
        (option_map plain_ir (option_copied next.entry)) (option_map plain_ir (option_copied behind.entry)) needed index
        waiting }
{
    match tells_in_z(core, program, told, i, next, behind, waiting) {
        None => tells(known, told, i, next, behind, needed, index),
        in_z => in_z,
    }
}

/// The item at a place.
pub(crate) fn at<T>(items: &[T], k: usize) -> Option<&T>
    ensures { option_copied result ≡ slice_get items.now k }
{
    items.get(k)
}

/// The operation at a place.
pub(crate) fn operation_at(code: &[Ir], k: usize) -> Option<&Ir>
    ensures { option_map plain_ir (option_copied result) ≡ slice_get (map plain_ir code.now) k }
{
    at(code, k)
}

/// The number of bytes that are wanted at a place.
pub(crate) fn wanted_at(wanted: &[u8], k: usize) -> u8
    ensures { result ≡ slice_index wanted.now k }
{
    match wanted.get(k) {
        Some(n) => *n,
        None => 0,
    }
}

/// The first number of the row at a place.
fn first_at(kept: &[Vec<u8>], k: usize) -> u8
    ensures { result ≡ get_or (get_or (map (λ row. row.items) kept.now) k []) 0 0 }
{
    match kept.get(k) {
        Some(row) => match row.get(0) {
            Some(n) => *n,
            None => 0,
        },
        None => 0,
    }
}

/// What the row at a place tells of the place of an index.
fn index_at(kept: &[Vec<u8>], i: Option<&Ir>, k: usize) -> u8
    ensures { result ≡ index_in (option_map plain_ir (option_copied i.entry)) (get_or (map (λ row. row.items) kept.now) k []) }
{
    match i {
        Some(Ir::Call(..)) => 0,
        _ => first_at(kept, k),
    }
}

/// What the operation at a place, which has been told so much, tells the next one.
fn told_behind(
    core: Core,
    program: &IrProgram,
    homes: Homes,
    wanted: &[u8],
    kept: &[Vec<u8>],
    known: &[Option<RightNumber>],
    code: &[Ir],
    told: Option<Told>,
    k: usize,
) -> Option<Told>
    requires inside { k < length code.now }
    requires told { told ≡ told_at core (declarations program.now) (home homes) wanted.now (map (λ row. row.items) kept.now)
        known.now (map plain_ir code.now) k }
    ensures { result ≡ told_at core (declarations program.now) (home homes) wanted.now (map (λ row. row.items) kept.now)
        known.now (map plain_ir code.now) (suc k) }
{
    let i = &code[k];
    let next = operation_at(code, k + 1);
    let waiting = is_waiting(program, homes, wanted, known, code, told, i, k + 1);
    tells_any(
        core,
        program,
        number_at(known, k),
        told,
        i,
        next,
        operation_at(code, k + 2),
        wanted_at(wanted, k + 1),
        index_at(kept, next, k + 1),
        waiting,
    )
}

/// Appends the code of an operation of a function. Of its result, or of what a branch tests, so many bytes are wanted, and
/// no more than its temporary has; after a call so many of the first places, as a row tells. It has been told something by
/// the operation before it, and is telling the next one something; its second operand, or what it stores, may be known to
/// hold a number. Where memory runs out, a part of the code is appended.
#[tactic(auto, using(crate::proofs::Emits::fewer_bytes))]
pub fn operation(
    out: &mut Seq<AsmItem>,
    program: &IrProgram,
    of: Linking,
    flags: Flags,
    known: Option<RightNumber>,
    wanted: u8,
    kept: &[u8],
    i: &Ir,
) -> Result<(), NoMemory>
    requires { CanBeEmitted (declarations program.now) of wanted (plain_ir i.now) }
    ensures ok { OnOk result (out.new.items ≡ out.old.items
        ++ operation_code (declarations program.now) (home of.homes) (linkage of) flags.told flags.telling known wanted
        (need_in kept.now) (plain_ir i.now)) }
    ensures err { OnErr result (BeginWith out.old.items out.new.items) }
{
    let (core, homes) = (of.core, of.homes);
    match i {
        Ir::Const(t, n) => put_number(out, bits_of(*n), home(homes, *t), wanted),
        Ir::Copy(to, from) => move_number(out, home(homes, *from), home(homes, *to), wanted),
        Ir::Addr(t, o, offset) => {
            put_address(
                out,
                core,
                program,
                *o,
                *offset,
                home(homes, *t),
                wanted.max(2),
                wanted,
            )
        }
        Ir::Field { ptr, offset, .. } => {
            let (told, telling) = (flags.told, flags.telling);
            go_to_member(
                out,
                core,
                told,
                telling,
                home(homes, *ptr),
                ptr.bytes,
                *offset,
            )
        }
        Ir::Load { to, ptr, space } => {
            load_by(
                out,
                core,
                flags.told,
                program,
                *space,
                home(homes, *ptr),
                home(homes, *to),
                to.bytes,
            )
        }
        Ir::Store { ptr, from, .. } => {
            store_by(
                out,
                flags.told,
                home(homes, *from),
                home(homes, *ptr),
                from.bytes,
            )
        }
        Ir::LoadObj(t, o, offset) => {
            if is_index(flags.telling, t.bytes) {
                return load_index(out, core, program, *o, *offset, t.bytes);
            }
            load_or_fetch(
                out,
                core,
                own_telling(flags.told, flags.telling),
                program,
                *o,
                *offset,
                home(homes, *t),
                t.bytes,
            )
        }
        Ir::StoreObj(o, offset, t) => store_object(
            out,
            number_known(known),
            home(homes, *t),
            object_location(program.objs.as_slice(), *o, *offset, t.bytes),
            t.bytes,
        ),
        Ir::Bin {
            op,
            ty,
            mode,
            to,
            a,
            aty,
            b,
            bty,
        } => {
            if is_index(flags.told, b.bytes) && moves_pointer(*op, aty, bty) {
                return move_by_told(
                    out, core, homes, program, *op, ty, *to, *a, aty, *b, bty, wanted,
                );
            }
            if is_fixed(aty) || is_fixed(bty) {
                let telling = own_telling(flags.told, flags.telling);
                return fixed_binary(
                    out, homes, known, telling, *op, ty, *mode, *to, *a, aty, *b, bty, wanted,
                );
            }
            if is_pointer(aty) || is_pointer(bty) {
                return pointer_binary(
                    out,
                    known,
                    own_telling(flags.told, flags.telling),
                    core,
                    homes,
                    program,
                    *op,
                    ty,
                    *to,
                    *a,
                    aty,
                    *b,
                    bty,
                    wanted,
                );
            }
            let binary_operation = BinaryOperation {
                to: *to,
                a: *a,
                b: *b,
                left_signed: is_signed(aty),
                right_signed: is_signed(bty),
            };
            integer_binary(
                out,
                homes,
                known,
                own_telling(flags.told, flags.telling),
                *op,
                binary_operation,
                wanted,
            )
        }
        Ir::Un {
            op,
            ty,
            mode,
            to,
            a,
        } => {
            if is_fixed(ty) {
                return fixed_unary(out, homes, *op, ty, *mode, *to, *a, wanted);
            }
            unary(out, *op, home(homes, *a), home(homes, *to), wanted)
        }
        Ir::Conv {
            to,
            ty,
            mode,
            a,
            aty,
        } => {
            if is_fixed(ty) || is_fixed(aty) {
                return fixed_conversion(out, homes, *to, ty, *mode, *a, aty, wanted);
            }
            if is_pointer(aty) {
                return pointer_conversion(out, homes, *to, ty, *a, aty, wanted);
            }
            convert(
                out,
                is_signed(aty),
                home(homes, *a),
                home(homes, *to),
                a.bytes,
                wanted,
            )
        }
        Ir::Label(l) => out.extend_from_slice(&[AsmItem::Label(of.first_label + *l)]),
        Ir::Jump(l) => jump_on(out, flags.told, of.first_label + *l),
        Ir::BranchZero(t, l) => branch_on(
            out,
            flags.told,
            flags.telling,
            wanted == 0,
            home(homes, *t),
            compared_bytes(known, t.bytes),
            of.first_label + *l,
        ),
        Ir::Call(f, to) => call(out, of, *f, *to, wanted, kept),
        Ir::Return(from) => finish(out, homes, of.is_main, *from),
        Ir::PortIn {
            to,
            address,
            index,
            width,
        } => {
            let of = PortAccess {
                port: *address,
                width: *width,
                index: index_place(homes, *index),
            };
            read_port(out, of, home(homes, *to), wanted)
        }
        Ir::PortOut {
            from,
            address,
            index,
            width,
        } => {
            let of = PortAccess {
                port: *address,
                width: *width,
                index: index_place(homes, *index),
            };
            write_port(out, of, home(homes, *from))
        }
        Ir::LoadCell(to, cell) => load_cell(out, *cell, home(homes, *to), to.bytes),
        Ir::StoreCell(cell, from) => store_cell(out, *cell, home(homes, *from), from.bytes),
        Ir::CellPort {
            read: true,
            temp,
            cell,
            offset,
            index,
            width,
        } => {
            let of = CellAccess {
                cell: *cell,
                offset: *offset,
                width: *width,
                index: index_place(homes, *index),
            };
            read_cell_port(out, of, home(homes, *temp), wanted)
        }
        Ir::CellPort {
            read: false,
            temp,
            cell,
            offset,
            index,
            width,
        } => {
            let of = CellAccess {
                cell: *cell,
                offset: *offset,
                width: *width,
                index: index_place(homes, *index),
            };
            write_cell_port(out, of, home(homes, *temp))
        }
    }
}

/// Appends the code of an operation, as `operation` does, or a call of the routine with a label, where the operation takes
/// no known count.
fn linked_operation(
    out: &mut Seq<AsmItem>,
    program: &IrProgram,
    of: Linking,
    flags: Flags,
    known: Option<RightNumber>,
    routine: Option<u64>,
    wanted: u8,
    kept: &[u8],
    i: &Ir,
) -> Result<(), NoMemory>
    requires { CanBeLinked (routine_used known (plain_ir i.now) routine) (declarations program.now) of wanted
        (plain_ir i.now) }
    ensures ok { OnOk result (out.new.items ≡ out.old.items
        ++ linked_code (routine_used known (plain_ir i.now) routine)
        (λ label. called_code (home of.homes) label wanted (plain_ir i.now))
        (operation_code (declarations program.now) (home of.homes) (linkage of) flags.told flags.telling known wanted
        (need_in kept.now) (plain_ir i.now))) }
    ensures err { OnErr result (BeginWith out.old.items out.new.items) }
{
    match routine {
        Some(label) if !takes_count(known, i) => called(out, of.homes, label, wanted, i),
        _ => operation(out, program, of, flags, known, wanted, kept, i),
    }
}

/// Appends the code of a function's operations, one after another: behind each so many bytes are needed as the number
/// at its place tells, of its result or of what it has tested, a call keeps what the row at its place tells, a second
/// operand is known to hold the number at its place, and the routine with the label at its place is called. Where memory
/// runs out, a part of the code is appended.
pub fn all_operations(
    out: &mut Seq<AsmItem>,
    program: &IrProgram,
    of: Linking,
    code: &[Ir],
    wanted: &[u8],
    kept: &[Vec<u8>],
    known: &[Option<RightNumber>],
    routines: &[Option<u64>],
) -> Result<(), NoMemory>
    requires numbers { length code.now ≡ length wanted.now }
    requires rows { length code.now ≡ length kept.now }
    requires known { length code.now ≡ length known.now }
    requires routines { length code.now ≡ length routines.now }
    requires each { CanBeWritten (declarations program.now) of wanted.now known.now routines.now (map plain_ir code.now) }
    ensures ok { OnOk result (out.new.items ≡ out.old.items
        ++ written_code (declarations program.now) (home of.homes) (linkage of) wanted.now
        (map (λ row. row.items) kept.now) known.now routines.now (map plain_ir code.now) (length code.now)) }
    ensures err { OnErr result (BeginWith out.old.items out.new.items) }
{
    let mut told = None;
    for k in 0..code.len() {
        let telling = told_behind(
            of.core, program, of.homes, wanted, kept, known, code, told, k,
        );
        let flags = Flags { told, telling };
        let number = number_at(known, k);
        linked_operation(
            out,
            program,
            of,
            flags,
            number,
            routines[k],
            wanted[k],
            kept[k].as_slice(),
            &code[k],
        )?;
        told = telling;
    }
    Ok(())
}

/// Appends the code of the function with a number: the label at which it begins, and that of its operations. Where
/// memory runs out, a part of the code is appended.
pub fn function(
    out: &mut Seq<AsmItem>,
    program: &IrProgram,
    of: Linking,
    f: u16,
    code: &[Ir],
    wanted: &[u8],
    kept: &[Vec<u8>],
    known: &[Option<RightNumber>],
    routines: &[Option<u64>],
) -> Result<(), NoMemory>
    requires label { IsLabel (of.first_entry + f) }
    requires numbers { length code.now ≡ length wanted.now }
    requires rows { length code.now ≡ length kept.now }
    requires known { length code.now ≡ length known.now }
    requires routines { length code.now ≡ length routines.now }
    requires each { CanBeWritten (declarations program.now) of wanted.now known.now routines.now (map plain_ir code.now) }
    ensures ok { OnOk result (out.new.items ≡ out.old.items
        ++ written_function (declarations program.now) (linkage of) f wanted.now
        (map (λ row. row.items) kept.now) known.now routines.now (map plain_ir code.now)) }
    ensures err { OnErr result (BeginWith out.old.items out.new.items) }
{
    out.extend_from_slice(&[AsmItem::Label(of.first_entry + u64::from(f))])?;
    all_operations(out, program, of, code, wanted, kept, known, routines)
}
