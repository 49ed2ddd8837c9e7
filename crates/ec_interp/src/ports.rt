//! Operations on ports and groups of ports.
ghost use Rattle.std.specs.Prelude.{◌≡◌, ◌+◌, ◌*◌, ◌^◌, ◌<◌};
ghost use Rattle.std.specs.Prelude.{◌≤◌, nat_lt, map, option_map, slice_get, slice_index};
ghost use Rattle.std.specs.Prelude.{IfOk, IfSome, OnOk};
ghost use Rattle.std.specs.Option.{option_copied};
ghost use Rattle.ec_core.specs.PortAccesses.{next_byte, byte_read, bytes_read, number_read, bytes_written, updated};
ghost use Rattle.ec_core.specs.PortAccesses.{no_value, unsigned, port_accessed, is_open, within, opened, port_effect};
ghost use Rattle.ec_core.specs.PortAccesses.{bound, standing_port, accessed, pairs_written, pairs_of, group_effect};
ghost use Rattle.ec_core.specs.PortAccesses.{bind_effect, dynamic_effect};
ghost use Rattle.ec_core.specs.PortOperations.{port_operation};
ghost use Rattle.ec_core.specs.PortTable.{plain_port, plain_group, plain_table, choices_of};
ghost use Rattle.ec_core.specs.State.{Out as OutOf, with_event, with_group, with_choice, chosen};
ghost use Rattle.ec_interp.specs.Shows.{Shows, ShowsMemory};
ghost use Rattle.ec_interp.specs.Suits.{IsGiven, IsAnswered};
ghost use Rattle.ec_interp.specs.Actions.{seen_action, seen_port};
ghost use Rattle.ec_interp.specs.Views.{seen, inputs_of};

use crate::accesses::is_open;
use crate::behaviour::{Event, PortInput, Unanswered};
use crate::state::{Context, RunError, State, at};
use ec_core::{Undefined, Value};
use ec_iohw::{Choice, IoOp, IoTable, Pair, Port, PortGroup};
use ec_space::NoMemory;

// ---- the table

/// The port with a number.
pub fn port_at(io: &IoTable, port: u16) -> Option<&Port>
    ensures { option_map plain_port (option_copied result) ≡ slice_get (map plain_port io.now.ports.items) port }
{
    at(io.ports.as_slice(), port as usize)
}

/// The group with a number.
pub fn group_at(io: &IoTable, group: u16) -> Option<&PortGroup>
    ensures { option_map plain_group (option_copied result) ≡ slice_get (map plain_group io.now.groups.items) group }
{
    at(io.groups.as_slice(), group as usize)
}

/// What is written to acquire or to release a group.
pub fn pairs(acquire: bool, group: &PortGroup) -> &[Pair]
    ensures { result.now ≡ pairs_of acquire (plain_group group.now) }
{
    if acquire {
        group.acquire.as_slice()
    } else {
        group.release.as_slice()
    }
}

/// The choices of a dynamic group.
pub fn choices_of(io: &IoTable, dynamic: u16) -> &[Choice]
    ensures { result.now ≡ choices_of (plain_table io.now) dynamic }
{
    match at(io.dynamics.as_slice(), dynamic as usize) {
        Some(dynamic) => dynamic.choices.as_slice(),
        None => &[],
    }
}

/// The number of the choice that a dynamic group is bound to.
fn chosen(s: &State, dynamic: u16) -> Option<u16>
    ensures { result ≡ chosen dynamic (seen s.now) }
{
    match at(s.choices.as_slice(), dynamic as usize) {
        Some(choice) => *choice,
        None => None,
    }
}

/// What a dynamic group is bound to.
fn bound(f: &Context, s: &State, dynamic: u16) -> Option<Choice>
    ensures { result ≡ bound (plain_table f.now.io.now) dynamic (seen s.now) }
{
    match chosen(s, dynamic) {
        Some(k) => choices_of(f.io, dynamic).get(k as usize).copied(),
        None => None,
    }
}

/// A port as it stands in a state: the address of its first byte, and its group.
#[derive(Clone, Copy)]
pub struct Standing {
    pub address: u32,
    pub width: u8,
    pub count: u8,
    pub group: Option<u16>,
}

/// A port as it stands; none where its dynamic group is not bound.
fn standing_port(f: &Context, s: &State, port: &Port) -> Option<Standing>
    ensures shows { option_map seen_port result
        ≡ standing_port (plain_table f.now.io.now) (plain_port port.now) port.now.dynamic (seen s.now) }
    ensures near { IfSome result (λ x. x.address < 2 ^ 10) }
    ensures width { IfSome result (λ x. x.width ≡ port.now.width) }
{
    let (base, group) = match port.dynamic {
        None => (0, port.group),
        Some(d) => {
            let choice = bound(f, s, d)?;
            (choice.base, Some(choice.group))
        }
    };
    Some(Standing {
        address: base as u32 + port.address as u32,
        width: port.width,
        count: port.count,
        group,
    })
}

/// What an operation does with the bytes of its port.
#[derive(Clone, Copy)]
pub enum Action {
    Reads,
    Writes,
    Updates,
}

pub fn action_of(op: IoOp) -> Action
    ensures { seen_action result ≡ (port_operation op).action }
{
    match op {
        IoOp::Read | IoOp::ReadLong | IoOp::ReadBuffer | IoOp::ReadBufferLong => Action::Reads,
        IoOp::Write | IoOp::WriteLong | IoOp::WriteBuffer | IoOp::WriteBufferLong => Action::Writes,
        _ => Action::Updates,
    }
}

// ---- bytes of ports

/// The bytes that a port address gives.
fn inputs_of(inputs: &[PortInput], port: u32) -> &[u8]
    ensures { result.now ≡ inputs_of inputs.now port }
{
    for input in inputs {
        if input.port as u32 == port {
            return input.bytes.as_slice();
        }
    }
    &[]
}

/// The next byte of a port address is read.
fn read_byte(f: &Context, s: &mut State, port: u32) -> Result<u8, NoMemory>
    ensures byte { IfOk result (λ byte. byte ≡ next_byte (inputs_of f.now.inputs.now) port (seen s.old)) }
    ensures state { OnOk result (seen s.new ≡ byte_read (inputs_of f.now.inputs.now) port (seen s.old)) }
{
    let byte = next_byte(f, s, port);
    s.record(Event::In { port, byte })?;
    Ok(byte)
}

fn next_byte(f: &Context, s: &State, port: u32) -> u8
    ensures { result ≡ next_byte (inputs_of f.now.inputs.now) port (seen s.now) }
{
    let bytes = inputs_of(f.inputs, port);
    let place = s.events.reads(port);
    if place < bytes.len() { bytes[place] } else { 0 }
}

/// The number whose lowest byte is this one, with so many bytes above it, which make this number.
fn number_of(byte: u8, bytes: u8, above: u64) -> u64
    requires few { bytes < 8 }
    requires above { above < 256 ^ bytes }
    ensures number { result ≡ byte + 256 * above }
    ensures bound { result < 256 ^ (bytes + 1) }
{
    byte as u64 + 256 * above
}

/// The number that at most 8 bytes from an address on make, the lowest first.
fn read_number(f: &Context, s: &mut State, width: u8, port: u32) -> Result<u64, NoMemory>
    requires few { width ≤ 8 }
    requires port { port + width < 2 ^ 32 }
    ensures number { IfOk result (λ n. n ≡ number_read (inputs_of f.now.inputs.now) width port (seen s.old)) }
    ensures bound { IfOk result (λ n. n < 256 ^ width) }
    ensures state { OnOk result (seen s.new ≡ bytes_read (inputs_of f.now.inputs.now) width port (seen s.old)) }
{
    if width == 0 {
        return Ok(0);
    }
    let byte = read_byte(f, s, port)?;
    let above = read_number(f, s, width - 1, port + 1)?;
    Ok(number_of(byte, width - 1, above))
}

fn write_byte(s: &mut State, port: u32, byte: u8) -> Result<(), NoMemory>
    ensures { OnOk result (seen s.new ≡ with_event (OutOf port byte) (seen s.old)) }
{
    s.record(Event::Out { port, byte })
}

/// The lowest bytes of a number are written from an address on, the highest address first.
fn write_number(s: &mut State, width: u8, port: u32, v: u128) -> Result<(), NoMemory>
    requires { port + width < 2 ^ 32 }
    ensures { OnOk result (seen s.new ≡ bytes_written width port v (seen s.old)) }
{
    if width == 0 {
        return Ok(());
    }
    write_number(s, width - 1, port + 1, v / 256)?;
    write_byte(s, port, (v % 256) as u8)
}

// ---- operations

/// What an update makes of the number that it reads and its operand.
fn updated(op: IoOp, old: u64, v: u128) -> u128
    ensures { result ≡ updated op old v }
{
    let old = old as u128;
    match op {
        IoOp::Or | IoOp::OrLong | IoOp::OrBuffer | IoOp::OrBufferLong => old | v,
        IoOp::And | IoOp::AndLong | IoOp::AndBuffer | IoOp::AndBufferLong => old & v,
        _ => old ^ v,
    }
}

/// What stands for the value of a void expression.
pub fn no_value() -> Value
    ensures { result ≡ no_value }
{
    Value::Number(0)
}

fn unsigned(v: Value) -> u128
    ensures { result ≡ unsigned v }
{
    match v {
        Value::Number(n) => n.unsigned_abs(),
        Value::Pointer(_) => 0,
    }
}

fn access_port(
    f: &Context,
    s: &mut State,
    op: IoOp,
    width: u8,
    port: u32,
    v: u128,
) -> Result<Value, NoMemory>
    requires few { width ≤ 8 }
    requires port { port + width < 2 ^ 32 }
    ensures { ShowsMemory result (seen s.new)
        (port_accessed (inputs_of f.now.inputs.now) (port_operation op).action op width port v (seen s.old)) }
{
    match action_of(op) {
        Action::Reads => {
            let n = read_number(f, s, width, port)?;
            Ok(Value::Number(n as i128))
        }
        Action::Writes => {
            write_number(s, width, port, v)?;
            Ok(no_value())
        }
        Action::Updates => {
            let old = read_number(f, s, width, port)?;
            write_number(s, width, port, updated(op, old, v))?;
            Ok(no_value())
        }
    }
}

fn open_port(
    f: &Context,
    s: &mut State,
    op: IoOp,
    port: Standing,
    i: u128,
    v: u128,
) -> Result<Value, RunError>
    requires { port.address < 2 ^ 10 }
    ensures shows { Shows result (seen s.new)
        (opened (inputs_of f.now.inputs.now) (is_open port.group (seen s.old)) op (seen_port port) i v (seen s.old)) }
    ensures answered { port.width ≤ 8 → IsAnswered result }
{
    if !is_open(port.group, s) {
        return Err(RunError::Undefined(Undefined::ClosedPort));
    }
    if i >= port.count as u128 {
        return Err(RunError::Undefined(Undefined::BufferIndex));
    }
    if port.width > 8 {
        return Err(RunError::Unanswered(Unanswered::Unsuited));
    }
    let address = port.address + i as u32 * port.width as u32;
    let x = access_port(f, s, op, port.width, address, v)?;
    Ok(x)
}

fn operate_on(
    f: &Context,
    s: &mut State,
    op: IoOp,
    port: &Port,
    i: u128,
    v: u128,
) -> Result<Value, RunError>
    ensures shows { Shows result (seen s.new)
        (accessed (inputs_of f.now.inputs.now) op
        (standing_port (plain_table f.now.io.now) (plain_port port.now) port.now.dynamic (seen s.old)) i v
        (seen s.old)) }
    ensures answered { port.now.width ≤ 8 → IsAnswered result }
{
    match standing_port(f, s, port) {
        None => Err(RunError::Undefined(Undefined::UnboundGroup)),
        Some(p) => open_port(f, s, op, p, i, v),
    }
}

/// An operation on a port, with its index and its operand.
pub fn operate(
    f: &Context,
    s: &mut State,
    op: IoOp,
    port: u16,
    i: Value,
    v: Value,
) -> Result<Value, RunError>
    ensures shows { Shows result (seen s.new)
        (port_effect (inputs_of f.now.inputs.now) (plain_table f.now.io.now) op
        (slice_get (map plain_port f.now.io.now.ports.items) port) i v (seen s.old)) }
    ensures answered { IsGiven f.now → IsAnswered result }
{
    match port_at(f.io, port) {
        None => Err(RunError::Undefined(Undefined::Invalid)),
        Some(p) => operate_on(f, s, op, p, unsigned(i), unsigned(v)),
    }
}

// ---- groups

fn write_pairs(s: &mut State, pairs: &[Pair]) -> Result<(), NoMemory>
    ensures { OnOk result (seen s.new ≡ pairs_written pairs.now (seen s.old)) }
{
    for pair in pairs {
        write_byte(s, pair.port as u32, pair.byte)?;
    }
    Ok(())
}

fn set_group(s: &mut State, g: u16, acquired: bool)
    ensures { seen s.new ≡ with_group g acquired (seen s.old) }
{
    if (g as usize) < s.acquired.len() {
        s.acquired[g as usize] = acquired;
    }
}

/// A group is acquired or released.
pub fn operate_group(f: &Context, s: &mut State, acquire: bool, g: u16) -> Result<Value, RunError>
    ensures shows { Shows result (seen s.new)
        (group_effect acquire g (slice_get (map plain_group f.now.io.now.groups.items) g) (seen s.old)) }
    ensures answered { IsAnswered result }
{
    match group_at(f.io, g) {
        None => Err(RunError::Undefined(Undefined::Invalid)),
        Some(group) => {
            write_pairs(s, pairs(acquire, group))?;
            set_group(s, g, acquire);
            Ok(no_value())
        }
    }
}

// ---- dynamic groups

fn set_choice(s: &mut State, d: u16, choice: u16)
    ensures { seen s.new ≡ with_choice d choice (seen s.old) }
{
    if (d as usize) < s.choices.len() {
        s.choices[d as usize] = Some(choice);
    }
}

/// A dynamic group is bound to one of its choices.
pub fn bind_group(s: &mut State, d: u16, choice: u16) -> Result<Value, RunError>
    ensures shows { Shows result (seen s.new) (bind_effect d choice (seen s.old)) }
    ensures answered { IsAnswered result }
{
    set_choice(s, d, choice);
    Ok(no_value())
}

/// The group that a dynamic group is bound to is acquired or released.
pub fn operate_dynamic(f: &Context, s: &mut State, acquire: bool, d: u16) -> Result<Value, RunError>
    ensures shows { Shows result (seen s.new) (dynamic_effect acquire (plain_table f.now.io.now) d (seen s.old)) }
    ensures answered { IsAnswered result }
{
    match bound(f, s, d) {
        None => Err(RunError::Undefined(Undefined::UnboundGroup)),
        Some(choice) => operate_group(f, s, acquire, choice.group),
    }
}
