//! The operations on ports, and what the numbers of a table are.
ghost use Rattle.std.specs.Prelude.{◌≡◌, ◌+◌, ◌∷◌, None, pos, map, slice_get, OnOk, IfOk};
ghost use Rattle.ec_core.specs.Plain.{plain_type};
ghost use Rattle.ec_core.specs.PortAccesses.{pairs_of};
ghost use Rattle.ec_core.specs.PortOperations.{updates};
ghost use Rattle.ec_core.specs.PortTable.{plain_port, plain_group, plain_table};
ghost use Rattle.ec_ir.specs.Operations.{constant, port_out, cell_port};
ghost use Rattle.ec_lower.specs.Emits.{Emits};
ghost use Rattle.ec_lower_code.specs.Code.{temp, read_from, write_to, port_code, byte_type, pairs_code, group_code};
ghost use Rattle.std.specs.List.{AllByRecursion};
ghost use Rattle.std.specs.Option.{option_copied};
ghost use Rattle.ec_lower.specs.Emits.{plain_action, plain_operand};
ghost use Rattle.ec_lower_code.specs.Code.{access_code};
ghost use Rattle.ec_lower_code.specs.Correct.{IsBytePair, HasBytePairs, HasByteBase, HasByteBases, GroupsHaveBytes};

use crate::emit::{above, put, put_binary, temp};
use crate::port_operations::{
    Action, action_of, operand_temp, operator_of, place_behind, value_type,
};
use ec_core::{BinOp, CType, Expr};
use ec_fx::Mode;
use ec_iohw::{Choice, Dynamic, IoOp, IoTable, Pair, Port, PortGroup};
use ec_ir::{Ir, Temp};
use ec_space::{NoMemory, Seq};
use std::alloc::Global;

// ---- ports

/// The cell of a dynamic group. There are fewer than 256.
pub fn cell_of(dynamic: u16) -> Result<u8, NoMemory>
    ensures { IfOk result (λ cell. cell ≡ dynamic) }
{
    if dynamic < 256 {
        Ok(dynamic as u8)
    } else {
        Err(NoMemory)
    }
}

/// A read or a write of a port's bytes so far behind what a cell holds, with the index in its temporary.
fn put_cell_port(
    code: &mut Seq<Ir>,
    read: bool,
    temp: Temp,
    cell: u8,
    offset: u8,
    index: Option<Temp>,
    width: u8,
) -> Result<(), NoMemory>
    ensures { OnOk result (Emits code.old.items code.new.items
        (λ rest. cell_port read temp cell offset index width ∷ rest)) }
{
    put(
        code,
        Ir::CellPort {
            read,
            temp,
            cell,
            offset,
            index,
            width,
        },
    )
}

/// A read of a port's bytes, with the index in its temporary.
pub fn put_in(
    code: &mut Seq<Ir>,
    to: Temp,
    port: &Port,
    index: Option<Temp>,
) -> Result<(), NoMemory>
    ensures { OnOk result (Emits code.old.items code.new.items (λ rest. let port = plain_port port.now in
        read_from port.dynamic to port.address index port.width ∷ rest)) }
{
    let (address, width) = (port.address, port.width);
    match port.dynamic {
        None => put(
            code,
            Ir::PortIn {
                to,
                address,
                index,
                width,
            },
        ),
        Some(d) => {
            let cell = cell_of(d)?;
            put_cell_port(code, true, to, cell, address, index, width)
        }
    }
}

/// A write of a port's bytes, with the index in its temporary.
pub fn put_out(
    code: &mut Seq<Ir>,
    from: Temp,
    port: &Port,
    index: Option<Temp>,
) -> Result<(), NoMemory>
    ensures { OnOk result (Emits code.old.items code.new.items (λ rest. let port = plain_port port.now in
        write_to port.dynamic from port.address index port.width ∷ rest)) }
{
    let (address, width) = (port.address, port.width);
    match port.dynamic {
        None => put(
            code,
            Ir::PortOut {
                from,
                address,
                index,
                width,
            },
        ),
        Some(d) => {
            let cell = cell_of(d)?;
            put_cell_port(code, false, from, cell, address, index, width)
        }
    }
}

/// A read of a port's bytes to the place above the value at `v`, the operation on both, and a write of its result.
pub fn put_update(
    code: &mut Seq<Ir>,
    alloc: Global,
    op: BinOp,
    ty: &CType,
    mode: Mode,
    port: &Port,
    index: Option<Temp>,
    t: u16,
    v: u16,
) -> Result<(), NoMemory>
    ensures { OnOk result (Emits code.old.items code.new.items
        (port_code updates op (plain_type ty.now) mode (plain_port port.now) index t v)) }
{
    let u = above(v)?;
    let at = temp(u, ty);
    put_in(code, at, port, index)?;
    put_binary(code, alloc, op, ty, mode, u, u, ty, v, ty)?;
    put_out(code, at, port, index)?;
    Ok(())
}

// ---- groups

/// A byte is written to a port.
fn put_pair(code: &mut Seq<Ir>, pair: &Pair, t: u16) -> Result<(), NoMemory>
    ensures { OnOk result (Emits code.old.items code.new.items (λ rest.
        constant (temp t byte_type) (pos pair.now.byte)
        ∷ port_out (temp t byte_type) pair.now.port None 1 ∷ rest)) }
{
    let at = Temp { at: t, bytes: 1 };
    put(code, Ir::Const(at, pair.byte as i128))?;
    put(
        code,
        Ir::PortOut {
            from: at,
            address: pair.port,
            index: None,
            width: 1,
        },
    )?;
    Ok(())
}

fn put_pairs(code: &mut Seq<Ir>, pairs: &[Pair], t: u16) -> Result<(), NoMemory>
    ensures { OnOk result (Emits code.old.items code.new.items (pairs_code pairs.now t)) }
{
    for pair in pairs {
        put_pair(code, pair, t)?;
    }
    Ok(())
}

/// What is written to acquire or to release a group.
fn pairs(acquire: bool, group: &PortGroup) -> &[Pair]
    ensures { result.now ≡ pairs_of acquire (plain_group group.now) }
{
    if acquire {
        group.acquire.as_slice()
    } else {
        group.release.as_slice()
    }
}

/// Those of the acquire or of the release of a group.
pub fn put_group(
    code: &mut Seq<Ir>,
    io: &IoTable,
    acquire: bool,
    group: u16,
    t: u16,
) -> Result<(), NoMemory>
    ensures { OnOk result (Emits code.old.items code.new.items
        (group_code acquire (slice_get (plain_table io.now).groups group) t)) }
{
    match io.groups.get(group as usize) {
        None => Ok(()),
        Some(g) => put_pairs(code, pairs(acquire, g), t),
    }
}

/// An access of a port's bytes, with the index in its temporary, and the value at `v`.
fn put_port(
    code: &mut Seq<Ir>,
    alloc: Global,
    action: Action,
    op: BinOp,
    ty: &CType,
    mode: Mode,
    port: &Port,
    index: Option<Temp>,
    t: u16,
    v: u16,
) -> Result<(), NoMemory>
    ensures { OnOk result (Emits code.old.items code.new.items
        (port_code (plain_action action) op (plain_type ty.now) mode (plain_port port.now) index t v)) }
{
    match action {
        Action::Reads => put_in(code, temp(t, ty), port, index),
        Action::Writes => put_out(code, temp(v, ty), port, index),
        Action::Updates => put_update(code, alloc, op, ty, mode, port, index, t, v),
    }
}

/// Those of an operation on a port, from its operands on: the index at `t`, and the value behind it.
pub fn put_access(
    code: &mut Seq<Ir>,
    alloc: Global,
    io: &IoTable,
    op: IoOp,
    mode: Mode,
    port: u16,
    index: Option<&Expr>,
    t: u16,
) -> Result<(), NoMemory>
    ensures { OnOk result (Emits code.old.items code.new.items (access_code op mode
        (slice_get (plain_table io.now).ports port) (plain_operand (option_copied index.entry)) t)) }
{
    match io.ports.get(port as usize) {
        None => Ok(()),
        Some(p) => {
            let v = place_behind(index, t)?;
            let at = operand_temp(index, t);
            let ty = value_type(op);
            put_port(
                code,
                alloc,
                action_of(op),
                operator_of(op),
                &ty,
                mode,
                p,
                at,
                t,
                v,
            )
        }
    }
}

// ---- the numbers of pairs, and the bases of choices, are bytes

fn read_pair(pair: &Pair)
    ensures { IsBytePair pair.now }
{
    let _port = pair.port;
    let _byte = pair.byte;
}

fn read_pairs(pairs: &[Pair])
    ensures { AllByRecursion IsBytePair pairs.now }
{
    for pair in pairs {
        read_pair(pair);
    }
}

fn read_group(group: &PortGroup)
    ensures { HasBytePairs group.now }
{
    read_pairs(group.acquire.as_slice());
    read_pairs(group.release.as_slice());
}

fn read_all_pairs(groups: &[PortGroup])
    ensures { AllByRecursion HasBytePairs groups.now }
{
    for group in groups {
        read_group(group);
    }
}

fn read_choice(choice: &Choice)
    ensures { HasByteBase choice.now }
{
    let _base = choice.base;
}

fn read_choices(choices: &[Choice])
    ensures { AllByRecursion HasByteBase choices.now }
{
    for choice in choices {
        read_choice(choice);
    }
}

fn read_all_bases(dynamics: &[Dynamic])
    ensures { AllByRecursion HasByteBases dynamics.now }
{
    for dynamic in dynamics {
        read_choices(dynamic.choices.as_slice());
    }
}

/// Reads all pairs and all choices of a table, whose numbers are bytes, and does nothing with them.
pub fn read_groups(io: &IoTable)
    ensures { GroupsHaveBytes io.now }
{
    read_all_pairs(io.groups.as_slice());
    read_all_bases(io.dynamics.as_slice());
}
