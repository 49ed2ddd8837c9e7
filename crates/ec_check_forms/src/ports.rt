//! Operations on ports and groups (ISO/IEC TR 18037:2008, 6.2).
ghost use Rattle.std.specs.Prelude.{◌≡◌, IfOk, option_map};
ghost use Rattle.ec_core.specs.Plain.{void, io as io_of, plain_type, plain_expr, plain_node};
ghost use Rattle.ec_core.specs.PortOperations.{port_operation, takes_value};
ghost use Rattle.ec_core.specs.Typing.{port_value, port_result};
ghost use Rattle.ec_check_operands.specs.Faults.{all_judged};
ghost use Rattle.ec_iohw.specs.Valid.{ValidIo};
ghost use Rattle.ec_check_operands.specs.Operands.{plain_operand, valued as valued_of, made as made_of, with_one};
ghost use Rattle.ec_check_forms.specs.Calls.{port_named, operand_count, operand_type, is_too_wide, too_wide, port_rules};
ghost use Rattle.ec_check_forms.specs.Calls.{fits, accessed, optional, group_named, group_rules, group_node, group_operation};
ghost use Rattle.ec_check_forms.specs.Calls.{choice_of, bound_to, binding_named, binding_rules, binding_operation};

use ec_check_operands::{Faults, Modes, Operand, boxed, made, valued};
use ec_core::{CType, Expr, Node};
use ec_iohw::{Choice, Designator, IoOp, IoTable};
use ec_space::{Name, NoMemory};
use std::alloc::Global;

/// A port that an operation names.
#[derive(Clone, Copy)]
pub struct NamedPort {
    /// Its place in the table.
    pub number: u16,
    /// 1, 2 or 4 bytes.
    pub width: u8,
}

/// What an acquire or a release names, by its place in the table.
#[derive(Clone, Copy)]
pub enum NamedGroup {
    Group(u16),
    Dynamic(u16),
}

/// What `iogroup_map` binds.
#[derive(Clone, Copy)]
pub struct Binding {
    /// The place of the dynamic group in the table.
    pub dynamic: u16,
    /// The place of the group among its choices.
    pub choice: u16,
}

// ---- the operations by what they take

/// Whether an operation takes the index of an element of its port.
pub fn is_indexed(op: IoOp) -> bool
    ensures { result ≡ (port_operation op).indexed }
{
    match op {
        IoOp::ReadBuffer
        | IoOp::ReadBufferLong
        | IoOp::WriteBuffer
        | IoOp::WriteBufferLong
        | IoOp::OrBuffer
        | IoOp::OrBufferLong
        | IoOp::AndBuffer
        | IoOp::AndBufferLong
        | IoOp::XorBuffer
        | IoOp::XorBufferLong => true,
        IoOp::Read
        | IoOp::ReadLong
        | IoOp::Write
        | IoOp::WriteLong
        | IoOp::Or
        | IoOp::OrLong
        | IoOp::And
        | IoOp::AndLong
        | IoOp::Xor
        | IoOp::XorLong => false,
    }
}

fn is_long(op: IoOp) -> bool
    ensures { result ≡ (port_operation op).long }
{
    match op {
        IoOp::ReadLong
        | IoOp::ReadBufferLong
        | IoOp::WriteLong
        | IoOp::WriteBufferLong
        | IoOp::OrLong
        | IoOp::OrBufferLong
        | IoOp::AndLong
        | IoOp::AndBufferLong
        | IoOp::XorLong
        | IoOp::XorBufferLong => true,
        IoOp::Read
        | IoOp::ReadBuffer
        | IoOp::Write
        | IoOp::WriteBuffer
        | IoOp::Or
        | IoOp::OrBuffer
        | IoOp::And
        | IoOp::AndBuffer
        | IoOp::Xor
        | IoOp::XorBuffer => false,
    }
}

fn takes_value(op: IoOp) -> bool
    ensures { result ≡ takes_value (port_operation op) }
{
    match op {
        IoOp::Read | IoOp::ReadLong | IoOp::ReadBuffer | IoOp::ReadBufferLong => false,
        IoOp::Write
        | IoOp::WriteLong
        | IoOp::WriteBuffer
        | IoOp::WriteBufferLong
        | IoOp::Or
        | IoOp::OrLong
        | IoOp::OrBuffer
        | IoOp::OrBufferLong
        | IoOp::And
        | IoOp::AndLong
        | IoOp::AndBuffer
        | IoOp::AndBufferLong
        | IoOp::Xor
        | IoOp::XorLong
        | IoOp::XorBuffer
        | IoOp::XorBufferLong => true,
    }
}

fn value_type(op: IoOp) -> CType
    ensures { plain_type result ≡ port_value (port_operation op) }
{
    let bytes = if is_long(op) { 4 } else { 2 };
    CType::Int {
        signed: false,
        bytes,
    }
}

fn result_type(op: IoOp) -> CType
    ensures { plain_type result ≡ port_result (port_operation op).action (port_value (port_operation op)) }
{
    match op {
        IoOp::Read | IoOp::ReadLong | IoOp::ReadBuffer | IoOp::ReadBufferLong => value_type(op),
        IoOp::Write
        | IoOp::WriteLong
        | IoOp::WriteBuffer
        | IoOp::WriteBufferLong
        | IoOp::Or
        | IoOp::OrLong
        | IoOp::OrBuffer
        | IoOp::OrBufferLong
        | IoOp::And
        | IoOp::AndLong
        | IoOp::AndBuffer
        | IoOp::AndBufferLong
        | IoOp::Xor
        | IoOp::XorLong
        | IoOp::XorBuffer
        | IoOp::XorBufferLong => CType::Void,
    }
}

/// How many operands an operation has besides its port.
pub fn operand_count(op: IoOp) -> usize
    ensures { result ≡ operand_count (port_operation op) }
{
    let index = if is_indexed(op) { 1 } else { 0 };
    let value = if takes_value(op) { 1 } else { 0 };
    index + value
}

/// The type to which the operand with a number is brought, which counts the operands behind the port from 0.
pub fn operand_type(op: IoOp, k: usize) -> Option<CType>
    ensures { option_map plain_type result ≡ operand_type (port_operation op) k }
{
    if is_indexed(op) && k == 0 {
        return Some(CType::Int {
            signed: false,
            bytes: 2,
        });
    }
    let here = if is_indexed(op) { k == 1 } else { k == 0 };
    if here && takes_value(op) {
        Some(value_type(op))
    } else {
        None
    }
}

// ---- ports

/// The port with a name.
pub fn port_named(io: &IoTable, name: &Name) -> Option<NamedPort>
    requires { ValidIo io.now }
    ensures { result ≡ port_named io.now name.now.items }
{
    let Some(Designator::Port(number)) = io.designator(name, false) else {
        return None;
    };
    match io.ports.get(number as usize) {
        None => None,
        Some(port) => Some(NamedPort {
            number,
            width: port.width,
        }),
    }
}

fn is_too_wide(op: IoOp, port: NamedPort) -> bool
    ensures { result ≡ is_too_wide (port_operation op) port }
{
    port.width == 4 && !is_long(op)
}

fn too_wide(op: IoOp, port: Option<NamedPort>) -> bool
    ensures { result ≡ too_wide (port_operation op) port }
{
    match port {
        None => false,
        Some(port) => is_too_wide(op, port),
    }
}

/// Judges an operation on a port with so many operands behind the port, which is told at the operation's name.
pub fn judge_port(faults: &mut Faults, op: IoOp, port: Option<NamedPort>, count: usize, at: u32)
    ensures { faults.new.least ≡ all_judged faults.old.least (port_rules op port count at) }
{
    faults.judge(36, port.is_none() || count != operand_count(op), at);
    faults.judge(37, too_wide(op, port), at);
}

fn fits(taken: bool, e: &Option<Expr>) -> bool
    ensures { result ≡ fits taken (option_map plain_expr e.now) }
{
    match e {
        None => !taken,
        Some(_) => taken,
    }
}

fn boxed_if(alloc: Global, e: Option<Expr>) -> Result<Option<Box<Expr>>, NoMemory>
    ensures { IfOk result (λ b. option_map (λ b. b.value) b ≡ e) }
{
    match e {
        None => Ok(None),
        Some(e) => {
            let e = boxed(alloc, e)?;
            Ok(Some(e))
        }
    }
}

fn operation_on(
    alloc: Global,
    modes: Modes,
    op: IoOp,
    port: u16,
    index: Option<Expr>,
    value: Option<Expr>,
) -> Result<Option<Operand>, NoMemory>
    ensures { let form = port_operation op in IfOk result (λ x. option_map plain_operand x
        ≡ valued_of (made_of modes (port_result form.action (port_value form))
        (io_of op port (optional (option_map plain_expr index)) (optional (option_map plain_expr value))))) }
{
    let index = boxed_if(alloc, index);
    let value = boxed_if(alloc, value)?;
    let node = Node::Io {
        op,
        port,
        index: index?,
        value,
    };
    Ok(valued(Some(made(modes, result_type(op), node))))
}

/// What an operation on a port makes of operands that were brought to their types, or None where there is no such port,
/// the operands are not those that it takes, or the port is too wide.
pub fn access(
    alloc: Global,
    modes: Modes,
    op: IoOp,
    port: Option<NamedPort>,
    index: Option<Expr>,
    value: Option<Expr>,
) -> Result<Option<Operand>, NoMemory>
    ensures { IfOk result (λ x. option_map plain_operand x
        ≡ with_one port (accessed modes op (option_map plain_expr index) (option_map plain_expr value))) }
{
    let Some(port) = port else {
        drop((index, value));
        return Ok(None);
    };
    if is_too_wide(op, port) || !(fits(is_indexed(op), &index) && fits(takes_value(op), &value)) {
        drop((index, value));
        return Ok(None);
    }
    operation_on(alloc, modes, op, port.number, index, value)
}

// ---- groups

/// The group or the dynamic group with a name.
pub fn group_named(io: &IoTable, name: &Name) -> Option<NamedGroup>
    requires { ValidIo io.now }
    ensures { result ≡ group_named io.now name.now.items }
{
    match io.designator(name, true) {
        Some(Designator::Group(number)) => Some(NamedGroup::Group(number)),
        Some(Designator::Dynamic(number)) => Some(NamedGroup::Dynamic(number)),
        Some(Designator::Port(_)) | None => None,
    }
}

/// Judges an acquire or a release with so many operands behind the group, which is told at the operation's name.
pub fn judge_group(faults: &mut Faults, group: Option<NamedGroup>, count: usize, at: u32)
    ensures { faults.new.least ≡ all_judged faults.old.least (group_rules group count at) }
{
    faults.judge(36, group.is_none() || count != 0, at);
}

fn group_node(acquire: bool, group: NamedGroup) -> Node
    ensures { plain_node result ≡ group_node acquire group }
{
    match group {
        NamedGroup::Group(group) => Node::Group { acquire, group },
        NamedGroup::Dynamic(dynamic) => Node::DynGroup { acquire, dynamic },
    }
}

/// What an acquire or a release makes, or None where it breaks a rule.
pub fn group_operation(
    modes: Modes,
    acquire: bool,
    group: Option<NamedGroup>,
    count: usize,
) -> Option<Operand>
    ensures { option_map plain_operand result ≡ group_operation modes acquire group count }
{
    let Some(group) = group else {
        return None;
    };
    if count != 0 {
        return None;
    }
    valued(Some(made(modes, CType::Void, group_node(acquire, group))))
}

// ---- bindings

fn choice_of(choices: &[Choice], group: u16) -> Option<usize>
    ensures { result ≡ choice_of choices.now group }
{
    choices.iter().position(|choice| choice.group == group)
}

fn bound_to(io: &IoTable, dynamic: NamedGroup, group: NamedGroup) -> Option<Binding>
    requires { ValidIo io.now }
    ensures { result ≡ bound_to io.now dynamic group }
{
    let (NamedGroup::Dynamic(dynamic), NamedGroup::Group(group)) = (dynamic, group) else {
        return None;
    };
    let choices = &io.dynamics.get(dynamic as usize)?.choices;
    let choice = choice_of(choices.as_slice(), group)?;
    Some(Binding {
        dynamic,
        choice: choice as u16,
    })
}

/// What is bound where a dynamic group with a name is mapped to the group with another: the first choice that is of it.
pub fn binding_named(io: &IoTable, dynamic: &Name, group: &Name) -> Option<Binding>
    requires { ValidIo io.now }
    ensures { result ≡ binding_named io.now dynamic.now.items group.now.items }
{
    let dynamic = group_named(io, dynamic)?;
    let group = group_named(io, group)?;
    bound_to(io, dynamic, group)
}

/// Judges a mapping, which is told at the operation's name.
pub fn judge_binding(faults: &mut Faults, binding: Option<Binding>, at: u32)
    ensures { faults.new.least ≡ all_judged faults.old.least (binding_rules binding at) }
{
    faults.judge(36, binding.is_none(), at);
}

/// What a mapping makes, or None where it breaks a rule.
pub fn binding_operation(modes: Modes, binding: Option<Binding>) -> Option<Operand>
    ensures { option_map plain_operand result ≡ binding_operation modes binding }
{
    let Some(binding) = binding else {
        return None;
    };
    let node = Node::Bind {
        dynamic: binding.dynamic,
        choice: binding.choice,
    };
    valued(Some(made(modes, CType::Void, node)))
}
