//! The most work of the parts of a program, in words, where that of each call is known. A number that 64 bits do not
//! hold is the greatest that they do.
ghost use Rattle.std.specs.Prelude.{◌≡◌, option_map, unwrap_or};
ghost use Rattle.ec_core.specs.Plain.{plain_expr, plain_exprs, plain_node, plain_place, plain_stmt, plain_stmts};
ghost use Rattle.ec_core.specs.Plain.{plain_kind, plain_program};
ghost use Rattle.ec_core.specs.PortTable.{plain_table};
ghost use Rattle.ec_core_steps.specs.Boxed.{boxed_expr, boxed_stmt};
ghost use Rattle.ec_core_steps.specs.Counted.{turns_of};
ghost use Rattle.ec_core_steps.specs.Costs.{capped, call_cost, expr_cost, node_cost, place_cost, option_cost};
ghost use Rattle.ec_core_steps.specs.Costs.{exprs_cost, optional_cost, leaf_cost, leaves_cost, loop_cost, stmt_cost, sum_of};
ghost use Rattle.ec_core_steps.specs.Costs.{kind_cost, option_stmt_cost, stmts_cost};

use crate::counted::{Within, turns_of};
use crate::words::{leaf_words, node_words, return_of};
use ec_core::{Expr, Node, PlaceExpr, Stmt, StmtKind};
use ec_iohw::IoTable;

/// What the work of a part depends on besides its text: the ports, and the most work of a call of each function.
#[derive(Clone, Copy)]
pub(crate) struct Rates<'a> {
    pub(crate) io: &'a IoTable,
    pub(crate) costs: &'a [u64],
}

/// A number of words with 64 bits.
fn capped(words: u128) -> u64
    ensures { result ≡ capped words }
{
    words.min(u64::MAX as u128) as u64
}

// ---- expressions

/// The most work of a call of a function, by its number.
pub(crate) fn call_cost(costs: &[u64], function: u16) -> u64
    ensures { result ≡ call_cost costs.now function }
{
    match costs.get(function as usize) {
        Some(cost) => *cost,
        None => 0,
    }
}

/// The most work of an expression.
#[cycle(expressions)]
fn expr_cost(rates: &Rates, e: &Expr) -> u64
    ensures { result ≡ expr_cost (plain_table rates.now.io.now) rates.now.costs.now (plain_expr e.now) }
{
    capped(node_words(rates.io, &e.ty, &e.node)).saturating_add(node_cost(rates, &e.node))
}

#[cycle(expressions)]
fn node_cost(rates: &Rates, node: &Node) -> u64
    ensures { result ≡ node_cost (plain_table rates.now.io.now) rates.now.costs.now (plain_node node.now) }
{
    match node {
        Node::Number(_) => 0,
        Node::Null => 0,
        Node::Load(place) => place_cost(rates, place),
        Node::AddressOf(place) => place_cost(rates, place),
        Node::Unary(_, a) => expr_cost(rates, a),
        Node::Binary(_, a, b) => expr_cost(rates, a).saturating_add(expr_cost(rates, b)),
        Node::Convert(a) => expr_cost(rates, a),
        Node::Assign(place, a) => place_cost(rates, place).saturating_add(expr_cost(rates, a)),
        Node::Compound(_, _, place, a) => place_cost(rates, place).saturating_add(expr_cost(
            rates, a,
        )),
        Node::Step { place, .. } => place_cost(rates, place),
        Node::Not(a) => expr_cost(rates, a),
        Node::And(a, b) => expr_cost(rates, a).saturating_add(expr_cost(rates, b)),
        Node::Or(a, b) => expr_cost(rates, a).saturating_add(expr_cost(rates, b)),
        Node::Cond(c, a, b) => {
            expr_cost(rates, c).saturating_add(expr_cost(rates, a).max(expr_cost(rates, b)))
        }
        Node::Comma(a, b) => expr_cost(rates, a).saturating_add(expr_cost(rates, b)),
        Node::Call(function, args) => {
            exprs_cost(rates, args.as_slice()).saturating_add(call_cost(rates.costs, *function))
        }
        Node::Io { index, value, .. } => {
            option_cost(rates, index).saturating_add(option_cost(rates, value))
        }
        Node::Group { .. } => 0,
        Node::Bind { .. } => 0,
        Node::DynGroup { .. } => 0,
    }
}

#[cycle(expressions)]
fn place_cost(rates: &Rates, place: &PlaceExpr) -> u64
    ensures { result ≡ place_cost (plain_table rates.now.io.now) rates.now.costs.now (plain_place place.now) }
{
    match place {
        PlaceExpr::Object(_) => 0,
        PlaceExpr::Deref(pointer) => expr_cost(rates, pointer),
        PlaceExpr::Member(place, _) => 30u64.saturating_add(place_cost(rates, place)),
    }
}

/// The same of an operand that may be left out.
#[cycle(expressions)]
fn option_cost(rates: &Rates, e: &Option<Box<Expr>>) -> u64
    ensures { result ≡ option_cost (plain_table rates.now.io.now) rates.now.costs.now (boxed_expr e.now) }
{
    match e {
        Some(e) => expr_cost(rates, e),
        None => 0,
    }
}

#[cycle(expressions)]
fn exprs_cost(rates: &Rates, es: &[Expr]) -> u64
    ensures { result ≡ exprs_cost (plain_table rates.now.io.now) rates.now.costs.now (plain_exprs es.now) }
{
    let mut cost = 0u64;
    for e in es {
        cost = cost.saturating_add(expr_cost(rates, e));
    }
    cost
}

/// The same of an expression that may be left out.
fn optional_cost(rates: &Rates, e: &Option<Expr>) -> u64
    ensures { result ≡ optional_cost (plain_table rates.now.io.now) rates.now.costs.now (option_map plain_expr e.now) }
{
    match e {
        Some(e) => expr_cost(rates, e),
        None => 0,
    }
}

/// The most work of the initialisation of a leaf.
fn leaf_cost(rates: &Rates, e: &Expr) -> u64
    ensures { result ≡ leaf_cost (plain_table rates.now.io.now) rates.now.costs.now (plain_expr e.now) }
{
    capped(leaf_words(e)).saturating_add(expr_cost(rates, e))
}

/// The most work of a declaration.
fn leaves_cost(rates: &Rates, es: &[Expr]) -> u64
    ensures { result ≡ leaves_cost (plain_table rates.now.io.now) rates.now.costs.now (plain_exprs es.now) }
{
    let mut cost = 0u64;
    for e in es {
        cost = cost.saturating_add(leaf_cost(rates, e));
    }
    cost
}

// ---- statements

/// The most work of a loop of so many turns.
fn loop_cost(turns: u32, first: u64, condition: u64, last: u64, body: u64) -> u64
    ensures { result ≡ loop_cost turns first condition last body }
{
    let turns = turns as u64;
    let tests = (turns + 1).saturating_mul(condition.saturating_add(60));
    first.saturating_add(tests.saturating_add(turns.saturating_mul(body.saturating_add(last))))
}

/// The turns of a loop; none of one that is not counted.
fn turns_or_none(
    within: &Within,
    first: &Option<Box<Stmt>>,
    condition: &Option<Expr>,
    last: &Option<Expr>,
    body: &Stmt,
) -> u32
    ensures { result ≡ unwrap_or (turns_of (plain_program within.now.program.now) within.now.function
        (plain_stmt within.now.body.now) (boxed_stmt first.now) (option_map plain_expr condition.now)
        (option_map plain_expr last.now) (plain_stmt body.now)) 0 }
{
    match turns_of(within, first, condition, last, body) {
        Some(turns) => turns,
        None => 0,
    }
}

/// The most work of a statement of a function.
#[cycle(statements)]
pub(crate) fn stmt_cost(rates: &Rates, within: &Within, stmt: &Stmt) -> u64
    ensures { result ≡ stmt_cost (plain_table rates.now.io.now) rates.now.costs.now (plain_program within.now.program.now)
        within.now.function (plain_stmt within.now.body.now) (plain_stmt stmt.now) }
{
    kind_cost(rates, within, &stmt.kind)
}

#[cycle(statements)]
fn kind_cost(rates: &Rates, within: &Within, kind: &StmtKind) -> u64
    ensures { result ≡ kind_cost (plain_table rates.now.io.now) rates.now.costs.now (plain_program within.now.program.now)
        within.now.function (plain_stmt within.now.body.now) (plain_kind kind.now) }
{
    match kind {
        StmtKind::Empty => 0,
        StmtKind::Do1(e) => expr_cost(rates, e),
        StmtKind::Block(stmts) => stmts_cost(rates, within, stmts.as_slice()),
        StmtKind::Local(_, values) => leaves_cost(rates, values.as_slice()),
        StmtKind::If(condition, stmt, other) => {
            let greater = stmt_cost(rates, within, stmt).max(other_cost(rates, within, other));
            40u64
                .saturating_add(expr_cost(rates, condition))
                .saturating_add(greater)
        }
        StmtKind::While(condition, stmt) => {
            loop_cost(
                0,
                0,
                expr_cost(rates, condition),
                0,
                stmt_cost(rates, within, stmt),
            )
        }
        StmtKind::DoWhile(stmt, condition) => {
            loop_cost(
                0,
                0,
                expr_cost(rates, condition),
                0,
                stmt_cost(rates, within, stmt),
            )
        }
        StmtKind::For(first, condition, last, stmt) => loop_cost(
            turns_or_none(within, first, condition, last, stmt),
            other_cost(rates, within, first),
            optional_cost(rates, condition),
            optional_cost(rates, last),
            stmt_cost(rates, within, stmt),
        ),
        StmtKind::Break => 10,
        StmtKind::Continue => 10,
        StmtKind::Return(e) => capped(return_of(e)).saturating_add(optional_cost(rates, e)),
    }
}

/// The same of a statement that may be left out.
#[cycle(statements)]
fn other_cost(rates: &Rates, within: &Within, stmt: &Option<Box<Stmt>>) -> u64
    ensures { result ≡ option_stmt_cost (plain_table rates.now.io.now) rates.now.costs.now
        (plain_program within.now.program.now) within.now.function (plain_stmt within.now.body.now) (boxed_stmt stmt.now) }
{
    match stmt {
        Some(stmt) => stmt_cost(rates, within, stmt),
        None => 0,
    }
}

#[cycle(statements)]
fn stmts_cost(rates: &Rates, within: &Within, stmts: &[Stmt]) -> u64
    ensures { result ≡ stmts_cost (plain_table rates.now.io.now) rates.now.costs.now (plain_program within.now.program.now)
        within.now.function (plain_stmt within.now.body.now) (plain_stmts stmts.now) }
{
    let mut cost = 0u64;
    for stmt in stmts {
        cost = cost.saturating_add(stmt_cost(rates, within, stmt));
    }
    cost
}
