//! The work of the parts of a program, in words.
ghost use Rattle.std.specs.Prelude.{◌≡◌, ◌+◌, ◌*◌, max, map, length, option_map, unwrap_or, slice_get, IfOk};
ghost use Rattle.ec_core.specs.Layout.{scalar_size};
ghost use Rattle.ec_core.specs.Plain.{plain_type, plain_node, plain_place, plain_expr, plain_exprs};
ghost use Rattle.ec_core.specs.PortAccesses.{pairs_of};
ghost use Rattle.ec_core.specs.PortOperations.{port_operation};
ghost use Rattle.ec_core.specs.PortTable.{plain_table, plain_port, plain_group, choices_of};
ghost use Rattle.ec_core.specs.Words.{simple_words, operation_words, update_words, choice_words, return_words};
ghost use Rattle.ec_core.specs.Words.{port_words, group_words, pair_count, dynamic_words, node_words, total_size};
ghost use Rattle.ec_core.specs.Words.{return_of, leaf_words};
ghost use Rattle.ec_interp.specs.Lookups.{widest_from};
ghost use Rattle.ec_interp.specs.Actions.{seen_action};

use crate::ports::{Action, action_of, choices_of, group_at, pairs, port_at};
use ec_core::{CType, Expr, Node, PlaceExpr};
use ec_iohw::{Choice, IoTable};
use ec_space::{NoMemory, SpaceId};

// ---- bytes of types

fn scalar_size(ty: &CType) -> u8
    ensures { result ≡ scalar_size (plain_type ty.now) }
{
    match ty {
        CType::Int { bytes, .. } => *bytes,
        CType::Fx { kind, .. } => kind.format().bits / 8,
        CType::Ptr { space, .. } => match space {
            SpaceId::Flash | SpaceId::Data => 2,
            SpaceId::FarFlash | SpaceId::Generic => 3,
        },
        CType::Void | CType::Array { .. } | CType::Struct { .. } => 0,
    }
}

/// The bytes of a type, or these where they are more.
fn wider(ty: &CType, rest: u8) -> u8
    ensures { result ≡ max (scalar_size (plain_type ty.now)) rest }
{
    scalar_size(ty).max(rest)
}

/// The bytes of the widest pointer in a place, or these where they are more.
fn widest_from(p: &PlaceExpr, rest: u8) -> u8
    ensures { result ≡ widest_from (plain_place p.now) rest }
{
    match p {
        PlaceExpr::Object(_) => rest,
        PlaceExpr::Deref(e) => wider(&e.ty, rest),
        PlaceExpr::Member(q, _) => widest_from(q, rest),
    }
}

fn sum(a: u64, b: u64) -> Result<u64, NoMemory>
    ensures { IfOk result (λ c. c ≡ a + b) }
{
    match a.checked_add(b) {
        Some(c) => Ok(c),
        None => Err(NoMemory),
    }
}

fn product(a: u64, b: u64) -> Result<u64, NoMemory>
    ensures { IfOk result (λ c. c ≡ a * b) }
{
    match a.checked_mul(b) {
        Some(c) => Ok(c),
        None => Err(NoMemory),
    }
}

/// The bytes of some values together.
fn total_size(es: &[Expr]) -> Result<u64, NoMemory>
    ensures { IfOk result (λ bytes. bytes ≡ total_size (plain_exprs es.now)) }
{
    let mut bytes = 0;
    for e in es {
        bytes = sum(bytes, scalar_size(&e.ty) as u64)?;
    }
    Ok(bytes)
}

// ---- rows, for so many bytes

fn simple_words(bytes: u8) -> u64
    ensures { result ≡ simple_words bytes }
{
    30 + 10 * bytes as u64
}

fn operation_words(bytes: u8) -> u64
    ensures { result ≡ operation_words bytes }
{
    150 + 40 * bytes as u64 + 40 * (bytes as u64 * bytes as u64)
}

fn update_words(bytes: u8) -> u64
    ensures { result ≡ update_words bytes }
{
    360 + 100 * bytes as u64 + 80 * (bytes as u64 * bytes as u64)
}

fn choice_words(bytes: u8) -> u64
    ensures { result ≡ choice_words bytes }
{
    60 + 10 * bytes as u64
}

fn return_words(bytes: u8) -> u64
    ensures { result ≡ return_words bytes }
{
    40 + 10 * bytes as u64
}

fn port_words(action: Action, width: u8) -> u64
    ensures { result ≡ port_words (seen_action action) width }
{
    match action {
        Action::Reads | Action::Writes => 80 + 40 * width as u64,
        Action::Updates => 160 + 80 * width as u64,
    }
}

fn group_words(pairs: u64) -> Result<u64, NoMemory>
    ensures { IfOk result (λ words. words ≡ group_words pairs) }
{
    let bytes = product(10, pairs)?;
    sum(20, bytes)
}

// ---- parts of expressions and statements

fn call_words(args: &[Expr], ty: &CType) -> Result<u64, NoMemory>
    ensures { IfOk result (λ words. words
        ≡ 60 + 10 * (total_size (plain_exprs args.now) + scalar_size (plain_type ty.now))) }
{
    let given = total_size(args)?;
    let bytes = sum(given, scalar_size(ty) as u64)?;
    let words = product(10, bytes)?;
    sum(60, words)
}

fn port_width(io: &IoTable, port: u16) -> u8
    ensures { result ≡ unwrap_or (option_map (λ p. p.width) (slice_get (map plain_port io.now.ports.items) port)) 0 }
{
    match port_at(io, port) {
        Some(p) => p.width,
        None => 0,
    }
}

fn pair_count(io: &IoTable, acquire: bool, group: u16) -> usize
    ensures { result ≡ unwrap_or (option_map (λ x. length (pairs_of acquire x))
        (slice_get (map plain_group io.now.groups.items) group)) 0 }
{
    match group_at(io, group) {
        Some(g) => pairs(acquire, g).len(),
        None => 0,
    }
}

/// The work of an acquire or release of a dynamic group, for one of its choices.
fn one_choice_words(io: &IoTable, acquire: bool, group: u16) -> Result<u64, NoMemory>
    ensures { IfOk result (λ words. words ≡ 40 + 10 * pair_count (plain_table io.now) acquire group) }
{
    let bytes = product(10, pair_count(io, acquire, group) as u64)?;
    sum(40, bytes)
}

fn dynamic_words(io: &IoTable, acquire: bool, choices: &[Choice]) -> Result<u64, NoMemory>
    ensures { IfOk result (λ words. words ≡ dynamic_words (plain_table io.now) acquire choices.now) }
{
    let mut words = 0;
    for choice in choices {
        let one = one_choice_words(io, acquire, choice.group)?;
        words = sum(words, one)?;
    }
    Ok(words)
}

/// The work of a node of this type.
pub fn node_words(io: &IoTable, ty: &CType, node: &Node) -> Result<u64, NoMemory>
    ensures { IfOk result (λ words. words ≡ node_words (plain_table io.now) (plain_type ty.now) (plain_node node.now)) }
{
    match node {
        Node::Number(_) => Ok(simple_words(wider(ty, 1))),
        Node::Null => Ok(simple_words(wider(ty, 1))),
        Node::Load(p) => Ok(simple_words(wider(ty, widest_from(p, 1)))),
        Node::AddressOf(p) => Ok(simple_words(wider(ty, widest_from(p, 1)))),
        Node::Unary(_, e) => Ok(operation_words(wider(ty, wider(&e.ty, 1)))),
        Node::Binary(_, a, b) => Ok(operation_words(wider(ty, wider(&a.ty, wider(&b.ty, 1))))),
        Node::Convert(e) => Ok(operation_words(wider(ty, wider(&e.ty, 1)))),
        Node::Assign(p, e) => Ok(simple_words(wider(ty, widest_from(p, wider(&e.ty, 1))))),
        Node::Compound(_, _, p, e) => Ok(update_words(wider(ty, widest_from(p, wider(&e.ty, 1))))),
        Node::Step { place, .. } => Ok(update_words(wider(ty, widest_from(place, 1)))),
        Node::Not(e) => Ok(choice_words(wider(ty, wider(&e.ty, 1)))),
        Node::And(a, b) => Ok(choice_words(wider(ty, wider(&a.ty, wider(&b.ty, 1))))),
        Node::Or(a, b) => Ok(choice_words(wider(ty, wider(&a.ty, wider(&b.ty, 1))))),
        Node::Cond(c, a, b) => Ok(choice_words(wider(
            ty,
            wider(&c.ty, wider(&a.ty, wider(&b.ty, 1))),
        ))),
        Node::Comma(_, _) => Ok(0),
        Node::Call(_, args) => call_words(args.as_slice(), ty),
        Node::Io { op, port, .. } => Ok(port_words(action_of(*op), port_width(io, *port))),
        Node::Group { acquire, group } => group_words(pair_count(io, *acquire, *group) as u64),
        Node::Bind { .. } => Ok(20),
        Node::DynGroup { acquire, dynamic } => {
            dynamic_words(io, *acquire, choices_of(io, *dynamic))
        }
    }
}

/// The work of a return with a value or without one.
pub fn return_of(e: &Option<Expr>) -> u64
    ensures { result ≡ return_of (option_map plain_expr e.now) }
{
    match e {
        None => return_words(1),
        Some(e) => return_words(wider(&e.ty, 1)),
    }
}

/// The work of the initialisation of a leaf.
pub fn leaf_words(e: &Expr) -> u64
    ensures { result ≡ leaf_words (plain_expr e.now) }
{
    simple_words(wider(&e.ty, 1))
}
