//! Which functions a statement calls, in the order of its text.
ghost use Rattle.std.specs.Prelude.{◌≡◌, ℕ, List, [], ◌++◌, map, option_map, OnOk, IfOk};
ghost use Rattle.ec_core.specs.Needs.{expr_calls, node_calls, place_calls, option_calls, exprs_calls};
ghost use Rattle.ec_core.specs.Needs.{optional_calls, stmt_calls, kind_calls, option_stmt_calls, stmts_calls};
ghost use Rattle.ec_core.specs.Plain.{plain_expr, plain_exprs, plain_node, plain_place, plain_stmt, plain_stmts};
ghost use Rattle.ec_core.specs.Plain.{plain_kind, plain_program};
ghost use Rattle.ec_check_recursion.specs.Boxed.{boxed_expr_calls, boxed_stmt_calls};
ghost use Rattle.ec_check_recursion.specs.Rows.{plain_rows, rows_of_program};

use ec_core::{Expr, Node, PlaceExpr, Program, Stmt, StmtKind};
use ec_space::{NoMemory, Seq};
use std::alloc::Global;

/// Appends the functions that an expression calls.
#[cycle(calls)]
fn in_expr(out: &mut Seq<u16>, expr: &Expr) -> Result<(), NoMemory>
    ensures { OnOk result ((rest : List ℕ) → out.new.items ++ rest
        ≡ out.old.items ++ expr_calls (plain_expr expr.now) rest) }
{
    in_node(out, &expr.node)
}

#[cycle(calls)]
fn in_node(out: &mut Seq<u16>, node: &Node) -> Result<(), NoMemory>
    ensures { OnOk result ((rest : List ℕ) → out.new.items ++ rest
        ≡ out.old.items ++ node_calls (plain_node node.now) rest) }
{
    match node {
        Node::Number(_) => Ok(()),
        Node::Null => Ok(()),
        Node::Load(place) => in_place(out, place),
        Node::AddressOf(place) => in_place(out, place),
        Node::Unary(_, a) => in_expr(out, a),
        Node::Binary(_, a, b) => {
            in_expr(out, a)?;
            in_expr(out, b)
        }
        Node::Convert(a) => in_expr(out, a),
        Node::Assign(place, a) => {
            in_place(out, place)?;
            in_expr(out, a)
        }
        Node::Compound(_, _, place, a) => {
            in_place(out, place)?;
            in_expr(out, a)
        }
        Node::Step { place, .. } => in_place(out, place),
        Node::Not(a) => in_expr(out, a),
        Node::And(a, b) => {
            in_expr(out, a)?;
            in_expr(out, b)
        }
        Node::Or(a, b) => {
            in_expr(out, a)?;
            in_expr(out, b)
        }
        Node::Cond(c, a, b) => {
            in_expr(out, c)?;
            in_expr(out, a)?;
            in_expr(out, b)
        }
        Node::Comma(a, b) => {
            in_expr(out, a)?;
            in_expr(out, b)
        }
        Node::Call(function, args) => {
            out.push(*function)?;
            in_exprs(out, args.as_slice())
        }
        Node::Io { index, value, .. } => {
            in_option(out, index)?;
            in_option(out, value)
        }
        Node::Group { .. } | Node::Bind { .. } | Node::DynGroup { .. } => Ok(()),
    }
}

#[cycle(calls)]
fn in_place(out: &mut Seq<u16>, place: &PlaceExpr) -> Result<(), NoMemory>
    ensures { OnOk result ((rest : List ℕ) → out.new.items ++ rest
        ≡ out.old.items ++ place_calls (plain_place place.now) rest) }
{
    match place {
        PlaceExpr::Object(_) => Ok(()),
        PlaceExpr::Deref(pointer) => in_expr(out, pointer),
        PlaceExpr::Member(place, _) => in_place(out, place),
    }
}

#[cycle(calls)]
fn in_exprs(out: &mut Seq<u16>, exprs: &[Expr]) -> Result<(), NoMemory>
    ensures { OnOk result ((rest : List ℕ) → out.new.items ++ rest
        ≡ out.old.items ++ exprs_calls (plain_exprs exprs.now) rest) }
{
    for expr in exprs {
        in_expr(out, expr)?;
    }
    Ok(())
}

/// The same of an operand that may be left out.
#[cycle(calls)]
fn in_option(out: &mut Seq<u16>, expr: &Option<Box<Expr>>) -> Result<(), NoMemory>
    ensures { OnOk result ((rest : List ℕ) → out.new.items ++ rest
        ≡ out.old.items ++ boxed_expr_calls expr.now rest) }
{
    match expr {
        Some(expr) => in_expr(out, expr),
        None => Ok(()),
    }
}

/// The same of an expression that may be left out.
fn in_optional(out: &mut Seq<u16>, expr: &Option<Expr>) -> Result<(), NoMemory>
    ensures { OnOk result ((rest : List ℕ) → out.new.items ++ rest
        ≡ out.old.items ++ optional_calls (option_map plain_expr expr.now) rest) }
{
    match expr {
        Some(expr) => in_expr(out, expr),
        None => Ok(()),
    }
}

/// The same of a statement.
#[cycle(statements)]
fn in_stmt(out: &mut Seq<u16>, stmt: &Stmt) -> Result<(), NoMemory>
    ensures { OnOk result ((rest : List ℕ) → out.new.items ++ rest
        ≡ out.old.items ++ stmt_calls (plain_stmt stmt.now) rest) }
{
    in_kind(out, &stmt.kind)
}

#[cycle(statements)]
fn in_kind(out: &mut Seq<u16>, kind: &StmtKind) -> Result<(), NoMemory>
    ensures { OnOk result ((rest : List ℕ) → out.new.items ++ rest
        ≡ out.old.items ++ kind_calls (plain_kind kind.now) rest) }
{
    match kind {
        StmtKind::Empty => Ok(()),
        StmtKind::Do1(expr) => in_expr(out, expr),
        StmtKind::Block(stmts) => in_stmts(out, stmts.as_slice()),
        StmtKind::Local(_, exprs) => in_exprs(out, exprs.as_slice()),
        StmtKind::If(condition, stmt, other) => {
            in_expr(out, condition)?;
            in_stmt(out, stmt)?;
            in_other(out, other)
        }
        StmtKind::While(condition, stmt) => {
            in_expr(out, condition)?;
            in_stmt(out, stmt)
        }
        StmtKind::DoWhile(stmt, condition) => {
            in_stmt(out, stmt)?;
            in_expr(out, condition)
        }
        StmtKind::For(first, condition, last, stmt) => {
            in_other(out, first)?;
            in_optional(out, condition)?;
            in_optional(out, last)?;
            in_stmt(out, stmt)
        }
        StmtKind::Break => Ok(()),
        StmtKind::Continue => Ok(()),
        StmtKind::Return(expr) => in_optional(out, expr),
    }
}

/// The same of a statement that may be left out.
#[cycle(statements)]
fn in_other(out: &mut Seq<u16>, stmt: &Option<Box<Stmt>>) -> Result<(), NoMemory>
    ensures { OnOk result ((rest : List ℕ) → out.new.items ++ rest
        ≡ out.old.items ++ boxed_stmt_calls stmt.now rest) }
{
    match stmt {
        Some(stmt) => in_stmt(out, stmt),
        None => Ok(()),
    }
}

#[cycle(statements)]
fn in_stmts(out: &mut Seq<u16>, stmts: &[Stmt]) -> Result<(), NoMemory>
    ensures { OnOk result ((rest : List ℕ) → out.new.items ++ rest
        ≡ out.old.items ++ stmts_calls (plain_stmts stmts.now) rest) }
{
    for stmt in stmts {
        in_stmt(out, stmt)?;
    }
    Ok(())
}

/// The functions that a statement calls, each as often and in the order as they stand in its text.
pub fn calls_of(alloc: Global, stmt: &Stmt) -> Result<Seq<u16>, NoMemory>
    ensures { IfOk result (λ calls. calls.items ≡ stmt_calls (plain_stmt stmt.now) []) }
{
    let mut calls = Seq::new(alloc);
    in_stmt(&mut calls, stmt)?;
    Ok(calls)
}

/// The calls of each function of a program.
pub fn rows_of(alloc: Global, program: &Program) -> Result<Seq<Seq<u16>>, NoMemory>
    ensures { IfOk result (λ rows. plain_rows rows.items ≡ rows_of_program (plain_program program.now)) }
{
    let mut rows = Seq::new(alloc);
    for func in program.funcs.as_slice() {
        let calls = calls_of(alloc, &func.body)?;
        rows.push(calls)?;
    }
    Ok(rows)
}
