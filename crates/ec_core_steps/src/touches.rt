//! What a part of a function does to an object.
ghost use Rattle.std.specs.Prelude.{◌≡◌, option_map};
ghost use Rattle.ec_core.specs.Plain.{plain_expr, plain_exprs, plain_node, plain_place, plain_stmt, plain_stmts};
ghost use Rattle.ec_core.specs.Plain.{plain_kind};
ghost use Rattle.ec_core_steps.specs.Boxed.{boxed_expr, boxed_stmt};
ghost use Rattle.ec_core_steps.specs.Touches.{is_address, is_change, lies_in, touches, node_touches, place_touches};
ghost use Rattle.ec_core_steps.specs.Touches.{option_touches, exprs_touch, optional_touches, stmt_touches};
ghost use Rattle.ec_core_steps.specs.Touches.{kind_touches, option_stmt_touches, stmts_touch};

use ec_core::{Expr, Node, PlaceExpr, Stmt, StmtKind};

/// How a part of a function may touch an object (ISO/IEC 9899:1999, 6.5.3.2, 6.5.16, 6.5.2.4, 6.7).
#[derive(Clone, Copy)]
pub enum Touch {
    /// It applies `&` to the object, or to a part of it.
    Address,
    /// It assigns, steps or declares the object.
    Change,
}

impl Touch {
    fn is_address(self) -> bool
        ensures { result ≡ is_address self }
    {
        match self {
            Touch::Address => true,
            Touch::Change => false,
        }
    }

    fn is_change(self) -> bool
        ensures { result ≡ is_change self }
    {
        match self {
            Touch::Address => false,
            Touch::Change => true,
        }
    }
}

/// Whether a place is that of the object, or of a part of it, by its name.
fn lies_in(object: u16, place: &PlaceExpr) -> bool
    ensures { result ≡ lies_in object (plain_place place.now) }
{
    match place {
        PlaceExpr::Object(named) => *named == object,
        PlaceExpr::Deref(_) => false,
        PlaceExpr::Member(place, _) => lies_in(object, place),
    }
}

/// Whether an expression touches the object so.
#[cycle(touches)]
pub(crate) fn in_expr(touch: Touch, object: u16, e: &Expr) -> bool
    ensures { result ≡ touches touch object (plain_expr e.now) }
{
    in_node(touch, object, &e.node)
}

#[cycle(touches)]
fn in_node(touch: Touch, object: u16, node: &Node) -> bool
    ensures { result ≡ node_touches touch object (plain_node node.now) }
{
    match node {
        Node::Number(_) => false,
        Node::Null => false,
        Node::Load(place) => in_place(touch, object, place),
        Node::AddressOf(place) => {
            (touch.is_address() && lies_in(object, place)) || in_place(touch, object, place)
        }
        Node::Unary(_, a) => in_expr(touch, object, a),
        Node::Binary(_, a, b) => in_expr(touch, object, a) || in_expr(touch, object, b),
        Node::Convert(a) => in_expr(touch, object, a),
        Node::Assign(place, a) => {
            (touch.is_change() && lies_in(object, place))
                || (in_place(touch, object, place) || in_expr(touch, object, a))
        }
        Node::Compound(_, _, place, a) => {
            (touch.is_change() && lies_in(object, place))
                || (in_place(touch, object, place) || in_expr(touch, object, a))
        }
        Node::Step { place, .. } => {
            (touch.is_change() && lies_in(object, place)) || in_place(touch, object, place)
        }
        Node::Not(a) => in_expr(touch, object, a),
        Node::And(a, b) => in_expr(touch, object, a) || in_expr(touch, object, b),
        Node::Or(a, b) => in_expr(touch, object, a) || in_expr(touch, object, b),
        Node::Cond(c, a, b) => {
            in_expr(touch, object, c) || (in_expr(touch, object, a) || in_expr(touch, object, b))
        }
        Node::Comma(a, b) => in_expr(touch, object, a) || in_expr(touch, object, b),
        Node::Call(_, args) => in_exprs(touch, object, args.as_slice()),
        Node::Io { index, value, .. } => {
            in_option(touch, object, index) || in_option(touch, object, value)
        }
        Node::Group { .. } => false,
        Node::Bind { .. } => false,
        Node::DynGroup { .. } => false,
    }
}

#[cycle(touches)]
fn in_place(touch: Touch, object: u16, place: &PlaceExpr) -> bool
    ensures { result ≡ place_touches touch object (plain_place place.now) }
{
    match place {
        PlaceExpr::Object(_) => false,
        PlaceExpr::Deref(pointer) => in_expr(touch, object, pointer),
        PlaceExpr::Member(place, _) => in_place(touch, object, place),
    }
}

/// The same of an operand that may be left out.
#[cycle(touches)]
fn in_option(touch: Touch, object: u16, e: &Option<Box<Expr>>) -> bool
    ensures { result ≡ option_touches touch object (boxed_expr e.now) }
{
    match e {
        Some(e) => in_expr(touch, object, e),
        None => false,
    }
}

#[cycle(touches)]
fn in_exprs(touch: Touch, object: u16, exprs: &[Expr]) -> bool
    ensures { result ≡ exprs_touch touch object (plain_exprs exprs.now) }
{
    for e in exprs {
        if in_expr(touch, object, e) {
            return true;
        }
    }
    false
}

/// The same of an expression that may be left out.
pub(crate) fn in_optional(touch: Touch, object: u16, e: &Option<Expr>) -> bool
    ensures { result ≡ optional_touches touch object (option_map plain_expr e.now) }
{
    match e {
        Some(e) => in_expr(touch, object, e),
        None => false,
    }
}

/// The same of a statement.
#[cycle(statements)]
pub(crate) fn in_stmt(touch: Touch, object: u16, stmt: &Stmt) -> bool
    ensures { result ≡ stmt_touches touch object (plain_stmt stmt.now) }
{
    in_kind(touch, object, &stmt.kind)
}

#[cycle(statements)]
fn in_kind(touch: Touch, object: u16, kind: &StmtKind) -> bool
    ensures { result ≡ kind_touches touch object (plain_kind kind.now) }
{
    match kind {
        StmtKind::Empty => false,
        StmtKind::Do1(e) => in_expr(touch, object, e),
        StmtKind::Block(stmts) => in_stmts(touch, object, stmts.as_slice()),
        StmtKind::Local(declared, values) => {
            (touch.is_change() && *declared == object) || in_exprs(touch, object, values.as_slice())
        }
        StmtKind::If(condition, stmt, other) => {
            in_expr(touch, object, condition)
                || (in_stmt(touch, object, stmt) || in_other(touch, object, other))
        }
        StmtKind::While(condition, stmt) => {
            in_expr(touch, object, condition) || in_stmt(touch, object, stmt)
        }
        StmtKind::DoWhile(stmt, condition) => {
            in_stmt(touch, object, stmt) || in_expr(touch, object, condition)
        }
        StmtKind::For(first, condition, last, stmt) => {
            in_other(touch, object, first)
                || (in_optional(touch, object, condition)
                    || (in_optional(touch, object, last) || in_stmt(touch, object, stmt)))
        }
        StmtKind::Break => false,
        StmtKind::Continue => false,
        StmtKind::Return(e) => in_optional(touch, object, e),
    }
}

/// The same of a statement that may be left out.
#[cycle(statements)]
fn in_other(touch: Touch, object: u16, stmt: &Option<Box<Stmt>>) -> bool
    ensures { result ≡ option_stmt_touches touch object (boxed_stmt stmt.now) }
{
    match stmt {
        Some(stmt) => in_stmt(touch, object, stmt),
        None => false,
    }
}

/// The same of several statements.
#[cycle(statements)]
pub(crate) fn in_stmts(touch: Touch, object: u16, stmts: &[Stmt]) -> bool
    ensures { result ≡ stmts_touch touch object (plain_stmts stmts.now) }
{
    for stmt in stmts {
        if in_stmt(touch, object, stmt) {
            return true;
        }
    }
    false
}
