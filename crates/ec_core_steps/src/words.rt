//! The work of the parts of a program, in words.
ghost use Rattle.std.specs.Prelude.{◌≡◌, ◌<◌, ◌+◌, ◌*◌, ◌^◌, max, map, length, option_map, unwrap_or, slice_get};
ghost use Rattle.ec_core.specs.Layout.{scalar_size};
ghost use Rattle.ec_core.specs.Plain.{plain_type, plain_node, plain_place, plain_expr, plain_exprs};
ghost use Rattle.ec_core.specs.PortAccesses.{pairs_of};
ghost use Rattle.ec_core.specs.PortOperations.{port_operation};
ghost use Rattle.ec_core.specs.PortTable.{plain_table, plain_port, plain_group, choices_of};
ghost use Rattle.ec_core.specs.Words.{simple_words, operation_words, update_words, choice_words, return_words};
ghost use Rattle.ec_core.specs.Words.{port_words, group_words, dynamic_words, node_words, total_size};
ghost use Rattle.ec_core.specs.Words.{return_of, leaf_words};
ghost use Rattle.ec_core_steps.specs.Costs.{widest_from};

use ec_core::{CType, Expr, Node, PlaceExpr};
use ec_iohw::{Choice, IoOp, IoTable, Pair, PortGroup};
use ec_space::SpaceId;

// ---- bytes of types

fn scalar_size(ty: &CType) -> u8
    ensures { result ≡ scalar_size (plain_type ty.now) }
{
    match ty {
        CType::Int { bytes, .. } => *bytes,
        CType::Fx { kind, .. } => kind.format().bits / 8,
        CType::Ptr { space, .. } => match space {
            SpaceId::Flash | SpaceId::Data => 2,
            SpaceId::FarFlash | SpaceId::Generic => 3,
        },
        CType::Void | CType::Array { .. } | CType::Struct { .. } => 0,
    }
}

/// The bytes of a type, or these where they are more.
fn wider(ty: &CType, rest: u8) -> u8
    ensures { result ≡ max (scalar_size (plain_type ty.now)) rest }
{
    scalar_size(ty).max(rest)
}

/// The bytes of the widest pointer in a place, or these where they are more.
fn widest_from(place: &PlaceExpr, rest: u8) -> u8
    ensures { result ≡ widest_from (plain_place place.now) rest }
{
    match place {
        PlaceExpr::Object(_) => rest,
        PlaceExpr::Deref(e) => wider(&e.ty, rest),
        PlaceExpr::Member(place, _) => widest_from(place, rest),
    }
}

/// The bytes of some values together.
fn total_size(es: &[Expr]) -> u128
    ensures value { result ≡ total_size (plain_exprs es.now) }
    ensures few { result < 2 ^ 72 }
{
    let mut bytes = 0;
    for e in es {
        bytes += scalar_size(&e.ty) as u128;
    }
    bytes
}

// ---- rows, for so many bytes

fn simple_words(bytes: u8) -> u128
    ensures { result ≡ simple_words bytes }
{
    30 + 10 * bytes as u128
}

fn operation_words(bytes: u8) -> u128
    ensures { result ≡ operation_words bytes }
{
    150 + 40 * bytes as u128 + 40 * (bytes as u128 * bytes as u128)
}

fn update_words(bytes: u8) -> u128
    ensures { result ≡ update_words bytes }
{
    360 + 100 * bytes as u128 + 80 * (bytes as u128 * bytes as u128)
}

fn choice_words(bytes: u8) -> u128
    ensures { result ≡ choice_words bytes }
{
    60 + 10 * bytes as u128
}

fn port_words(op: IoOp, width: u8) -> u128
    ensures { result ≡ port_words (port_operation op).action width }
{
    let bytes = width as u128;
    match op {
        IoOp::Read | IoOp::ReadLong | IoOp::ReadBuffer | IoOp::ReadBufferLong => 80 + 40 * bytes,
        IoOp::Write | IoOp::WriteLong | IoOp::WriteBuffer | IoOp::WriteBufferLong => 80
            + 40 * bytes,
        _ => 160 + 80 * bytes,
    }
}

// ---- parts of expressions and statements

fn call_words(args: &[Expr], ty: &CType) -> u128
    ensures { result ≡ 60 + 10 * (total_size (plain_exprs args.now) + scalar_size (plain_type ty.now)) }
{
    60 + 10 * (total_size(args) + scalar_size(ty) as u128)
}

fn port_width(io: &IoTable, port: u16) -> u8
    ensures { result ≡ unwrap_or (option_map (λ p. p.width) (slice_get (map plain_port io.now.ports.items) port)) 0 }
{
    match io.ports.as_slice().get(port as usize) {
        Some(port) => port.width,
        None => 0,
    }
}

fn pairs_of(group: &PortGroup, acquire: bool) -> &[Pair]
    ensures { result.now ≡ pairs_of acquire (plain_group group.now) }
{
    if acquire {
        group.acquire.as_slice()
    } else {
        group.release.as_slice()
    }
}

fn pair_count(io: &IoTable, acquire: bool, group: u16) -> usize
    ensures value { result ≡ unwrap_or (option_map (λ x. length (pairs_of acquire x))
        (slice_get (map plain_group io.now.groups.items) group)) 0 }
    ensures few { result < 2 ^ 62 }
{
    match io.groups.as_slice().get(group as usize) {
        Some(group) => pairs_of(group, acquire).len(),
        None => 0,
    }
}

/// The work of an acquire or release of a dynamic group with these choices.
fn choices_words(io: &IoTable, acquire: bool, choices: &[Choice]) -> u128
    ensures { result ≡ dynamic_words (plain_table io.now) acquire choices.now }
{
    let mut words = 0;
    for choice in choices {
        words += 40 + 10 * pair_count(io, acquire, choice.group) as u128;
    }
    words
}

fn dynamic_words(io: &IoTable, acquire: bool, dynamic: u16) -> u128
    ensures { result ≡ dynamic_words (plain_table io.now) acquire (choices_of (plain_table io.now) dynamic) }
{
    match io.dynamics.as_slice().get(dynamic as usize) {
        Some(dynamic) => choices_words(io, acquire, dynamic.choices.as_slice()),
        None => 0,
    }
}

/// The work of a node of this type.
pub(crate) fn node_words(io: &IoTable, ty: &CType, node: &Node) -> u128
    ensures { result ≡ node_words (plain_table io.now) (plain_type ty.now) (plain_node node.now) }
{
    match node {
        Node::Number(_) => simple_words(wider(ty, 1)),
        Node::Null => simple_words(wider(ty, 1)),
        Node::Load(place) => simple_words(wider(ty, widest_from(place, 1))),
        Node::AddressOf(place) => simple_words(wider(ty, widest_from(place, 1))),
        Node::Unary(_, e) => operation_words(wider(ty, wider(&e.ty, 1))),
        Node::Binary(_, a, b) => operation_words(wider(ty, wider(&a.ty, wider(&b.ty, 1)))),
        Node::Convert(e) => operation_words(wider(ty, wider(&e.ty, 1))),
        Node::Assign(place, e) => simple_words(wider(ty, widest_from(place, wider(&e.ty, 1)))),
        Node::Compound(_, _, place, e) => update_words(wider(
            ty,
            widest_from(place, wider(&e.ty, 1)),
        )),
        Node::Step { place, .. } => update_words(wider(ty, widest_from(place, 1))),
        Node::Not(e) => choice_words(wider(ty, wider(&e.ty, 1))),
        Node::And(a, b) => choice_words(wider(ty, wider(&a.ty, wider(&b.ty, 1)))),
        Node::Or(a, b) => choice_words(wider(ty, wider(&a.ty, wider(&b.ty, 1)))),
        Node::Cond(c, a, b) => {
            choice_words(wider(ty, wider(&c.ty, wider(&a.ty, wider(&b.ty, 1)))))
        }
        Node::Comma(_, _) => 0,
        Node::Call(_, args) => call_words(args.as_slice(), ty),
        Node::Io { op, port, .. } => port_words(*op, port_width(io, *port)),
        Node::Group { acquire, group } => 20 + 10 * pair_count(io, *acquire, *group) as u128,
        Node::Bind { .. } => 20,
        Node::DynGroup { acquire, dynamic } => dynamic_words(io, *acquire, *dynamic),
    }
}

/// The work of a return with a value or without one.
pub(crate) fn return_of(e: &Option<Expr>) -> u128
    ensures { result ≡ return_of (option_map plain_expr e.now) }
{
    match e {
        None => 50,
        Some(e) => 40 + 10 * wider(&e.ty, 1) as u128,
    }
}

/// The work of the initialisation of a leaf.
pub(crate) fn leaf_words(e: &Expr) -> u128
    ensures { result ≡ leaf_words (plain_expr e.now) }
{
    simple_words(wider(&e.ty, 1))
}
