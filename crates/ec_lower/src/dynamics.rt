//! Dynamic groups: how they are bound, and how what they are bound to is acquired or released.
ghost use Rattle.std.specs.Prelude.{◌≡◌, ◌+◌, ◌∷◌, pos, slice_get, OnOk, IfOk};
ghost use Rattle.ec_core.specs.Plain.{PlainProgram, PlainType, plain_node};
ghost use Rattle.ec_core.specs.PortTable.{choices_of, plain_table};
ghost use Rattle.ec_lower.specs.Emits.{Emits};
ghost use Rattle.ec_ir.specs.Operations.{constant};
ghost use Rattle.ec_lower_code.specs.Code.{node_labels, node_code, temp, byte_type, bind_code, base_test, choices_code};

use crate::emit::{above, behind, put, put_binary, put_turn};
use crate::ports::{cell_of, put_group};
use ec_core::{BinOp, CType, Node};
use ec_fx::Mode;
use ec_iohw::{Choice, IoTable};
use ec_ir::{Ir, Temp};
use ec_space::{NoMemory, Seq};
use std::alloc::Global;

/// The choices of a dynamic group of the table.
fn choices(io: &IoTable, dynamic: u16) -> &[Choice]
    ensures { result.now ≡ choices_of (plain_table io.now) dynamic }
{
    match io.dynamics.get(dynamic as usize) {
        None => &[],
        Some(d) => d.choices.as_slice(),
    }
}

/// A base to a temporary.
fn put_base(code: &mut Seq<Ir>, base: u8, t: u16) -> Result<(), NoMemory>
    ensures { OnOk result (Emits code.old.items code.new.items
        (λ rest. constant (temp t byte_type) (pos base) ∷ rest)) }
{
    put(code, Ir::Const(Temp { at: t, bytes: 1 }, base as i128))
}

/// The cell of a dynamic group gets the base of one of its choices.
fn put_bind(
    code: &mut Seq<Ir>,
    io: &IoTable,
    dynamic: u16,
    choice: u16,
    t: u16,
) -> Result<(), NoMemory>
    ensures { OnOk result (Emits code.old.items code.new.items
        (bind_code dynamic (slice_get (choices_of (plain_table io.now) dynamic) choice) t)) }
{
    match choices(io, dynamic).get(choice as usize) {
        None => Ok(()),
        Some(c) => {
            let cell = cell_of(dynamic)?;
            put_base(code, c.base, t)?;
            put(code, Ir::StoreCell(cell, Temp { at: t, bytes: 1 }))
        }
    }
}

/// A branch to the label `l` where a cell holds a base.
fn put_test(
    code: &mut Seq<Ir>,
    alloc: Global,
    mode: Mode,
    cell: u8,
    base: u8,
    l: u64,
    t: u16,
) -> Result<(), NoMemory>
    ensures { OnOk result (Emits code.old.items code.new.items (base_test mode cell base l t)) }
{
    let byte = CType::Int {
        signed: false,
        bytes: 1,
    };
    let u = above(t)?;
    let at = Temp { at: t, bytes: 1 };
    put(code, Ir::LoadCell(at, cell))?;
    put_base(code, base, u)?;
    put_binary(code, alloc, BinOp::Xor, &byte, mode, t, t, &byte, u, &byte)?;
    put(code, Ir::BranchZero(at, l))
}

/// Those of the acquire or of the release of the group of that choice whose base the cell holds. The last choice needs
/// no test.
fn put_choices(
    code: &mut Seq<Ir>,
    alloc: Global,
    io: &IoTable,
    acquire: bool,
    mode: Mode,
    cell: u8,
    choices: &[Choice],
    l: u64,
    t: u16,
) -> Result<(), NoMemory>
    ensures { OnOk result (Emits code.old.items code.new.items
        (choices_code acquire (plain_table io.now) mode cell choices.now l t)) }
{
    match choices.split_first() {
        None => Ok(()),
        Some((c, others)) => {
            if others.is_empty() {
                return put_group(code, io, acquire, c.group, t);
            }
            let end = behind(l, 1)?;
            let next = behind(l, 2)?;
            put_test(code, alloc, mode, cell, c.base, l, t)?;
            put_choices(code, alloc, io, acquire, mode, cell, others, next, t)?;
            put_turn(code, end, l)?;
            put_group(code, io, acquire, c.group, t)?;
            put(code, Ir::Label(end))
        }
    }
}

/// Those of a node that binds a dynamic group, or acquires or releases what it is bound to, with labels from `l` on. There
/// is no other form. Answers the first label that is free.
pub fn lower_dynamic(
    code: &mut Seq<Ir>,
    alloc: Global,
    io: &IoTable,
    mode: Mode,
    node: &Node,
    l: u64,
    t: u16,
) -> Result<u64, NoMemory>
    ensures next { IfOk result (λ m. m ≡ l + node_labels (plain_node node.now)) }
    ensures code { OnOk result ((program : PlainProgram) (ty : PlainType) → Emits code.old.items code.new.items
        (node_code program (plain_table io.now) ty mode (plain_node node.now) l t)) }
{
    match node {
        Node::Bind { dynamic, choice } => {
            put_bind(code, io, *dynamic, *choice, t)?;
            Ok(l)
        }
        Node::DynGroup { acquire, dynamic } => {
            let m = behind(l, 16)?;
            let cell = cell_of(*dynamic)?;
            let all = choices(io, *dynamic);
            put_choices(code, alloc, io, *acquire, mode, cell, all, l, t)?;
            Ok(m)
        }
        _ => Err(NoMemory),
    }
}
