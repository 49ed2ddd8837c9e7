//! How many labels the operations of a part have, and how many places its temporaries take.
ghost use Rattle.std.specs.Prelude.{◌≡◌, ℕ, ◌+◌, max, if◌then◌else◌, List, [], ◌∷◌, option_map, IfOk};
ghost use Rattle.std.specs.Option.{option_copied};
ghost use Rattle.ec_core.specs.Needs.{greatest_from, expr_need, place_needs, node_need, operand_needs, option_needs, exprs_needs};
ghost use Rattle.ec_core.specs.Needs.{most, option_need};
ghost use Rattle.ec_core.specs.PortOperations.{is_update, port_operation};
ghost use Rattle.ec_core.specs.Needs.{stmt_need, stmts_need};
ghost use Rattle.ec_core.specs.Plain.{branch, plain_expr, plain_exprs, plain_node, plain_place, plain_stmt, plain_stmts};
ghost use Rattle.ec_lower.specs.Emits.{before, plain_operand, plain_other};
ghost use Rattle.ec_core.specs.Needs.{kind_need, option_stmt_need};
ghost use Rattle.ec_lower_code.specs.Code.{expr_labels, node_labels, place_labels, option_labels, exprs_labels, optional_labels};

use crate::emit::{above, behind};
use crate::port_operations::is_update;
use ec_core::{Expr, Node, PlaceExpr, Stmt, StmtKind};
use ec_iohw::IoOp;
use ec_space::NoMemory;

/// The numbers of labels and of places for temporaries.
#[derive(Clone, Copy)]
pub struct Extent {
    pub labels: u64,
    pub places: u16,
}

/// That of a node with an operand and so many labels of its own.
fn alone(a: Extent, own: u64) -> Result<Extent, NoMemory>
    ensures labels { IfOk result (λ x. x.labels ≡ own + a.labels) }
    ensures places { IfOk result (λ x. x.places ≡ node_need (a.places ∷ [])) }
{
    let labels = behind(own, a.labels)?;
    Ok(Extent {
        labels,
        places: a.places.max(1),
    })
}

/// That of a node with two operands, of which the first is kept while the second is worked out.
fn beside(a: Extent, b: Extent, own: u64) -> Result<Extent, NoMemory>
    ensures labels { IfOk result (λ x. x.labels ≡ own + a.labels + b.labels) }
    ensures places { IfOk result (λ x. x.places ≡ node_need (a.places ∷ b.places ∷ [])) }
{
    let first = behind(own, a.labels)?;
    let labels = behind(first, b.labels)?;
    let second = above(b.places)?;
    Ok(Extent {
        labels,
        places: a.places.max(second).max(1),
    })
}

/// That of a node with three operands.
fn between(a: Extent, b: Extent, c: Extent, own: u64) -> Result<Extent, NoMemory>
    ensures labels { IfOk result (λ x. x.labels ≡ own + a.labels + b.labels + c.labels) }
    ensures places { IfOk result (λ x. x.places ≡ node_need (a.places ∷ b.places ∷ c.places ∷ [])) }
{
    let first = beside(a, b, own)?;
    let labels = behind(first.labels, c.labels)?;
    let second = above(c.places)?;
    let third = above(second)?;
    Ok(Extent {
        labels,
        places: first.places.max(third),
    })
}

/// The labels of the pointer to a place, and how many places it takes, where there is a pointer.
#[derive(Clone, Copy)]
struct Reach {
    labels: u64,
    places: Option<u16>,
}

/// That of a node with a place and no operands.
fn reached(x: Reach) -> Extent
    ensures labels { result.labels ≡ x.labels }
    ensures places { result.places ≡ node_need (before x.places []) }
{
    let places = match x.places {
        None => 1,
        Some(n) => n.max(1),
    };
    Extent {
        labels: x.labels,
        places,
    }
}

/// That of an assignment of the value of an expression to a place.
fn assigned(x: Reach, y: Extent) -> Result<Extent, NoMemory>
    ensures labels { IfOk result (λ z. z.labels ≡ x.labels + y.labels) }
    ensures places { IfOk result (λ z. z.places ≡ node_need (before x.places (y.places ∷ []))) }
{
    let labels = behind(x.labels, y.labels)?;
    let second = above(y.places)?;
    let places = match x.places {
        None => y.places.max(1),
        Some(n) => n.max(second),
    };
    Ok(Extent { labels, places })
}

/// That of a compound assignment, whose old value is kept too.
fn updated(x: Reach, y: Extent) -> Result<Extent, NoMemory>
    ensures labels { IfOk result (λ z. z.labels ≡ x.labels + y.labels) }
    ensures places { IfOk result (λ z. z.places ≡ node_need (before x.places (1 ∷ y.places ∷ []))) }
{
    let labels = behind(x.labels, y.labels)?;
    let second = above(y.places)?;
    let third = above(second)?;
    let places = match x.places {
        None => second.max(1),
        Some(n) => n.max(third).max(2),
    };
    Ok(Extent { labels, places })
}

/// That of a step, with its old value and the 1.
fn stepped(x: Reach) -> Extent
    ensures labels { result.labels ≡ x.labels }
    ensures places { result.places ≡ node_need (before x.places (1 ∷ 1 ∷ [])) }
{
    let places = match x.places {
        None => 2,
        Some(n) => n.max(3),
    };
    Extent {
        labels: x.labels,
        places,
    }
}

/// That of the pointer to a place.
#[cycle(extents)]
fn place_extent(p: &PlaceExpr) -> Result<Reach, NoMemory>
    ensures labels { IfOk result (λ x. x.labels ≡ place_labels (plain_place p.now)) }
    ensures places { IfOk result (λ x. (rest : List ℕ) → place_needs (plain_place p.now) rest
        ≡ before x.places rest) }
{
    match p {
        PlaceExpr::Object(_) => Ok(Reach {
            labels: 0,
            places: None,
        }),
        PlaceExpr::Deref(e) => {
            let x = expr_extent(e)?;
            Ok(Reach {
                labels: x.labels,
                places: Some(x.places),
            })
        }
        PlaceExpr::Member(q, _) => place_extent(q),
    }
}

/// That of an expression.
#[cycle(extents)]
pub fn expr_extent(e: &Expr) -> Result<Extent, NoMemory>
    ensures labels { IfOk result (λ x. x.labels ≡ expr_labels (plain_expr e.now)) }
    ensures places { IfOk result (λ x. x.places ≡ expr_need (plain_expr e.now)) }
{
    match &e.node {
        Node::Number(_) | Node::Null => Ok(Extent {
            labels: 0,
            places: 1,
        }),
        Node::Load(p) => {
            let x = place_extent(p)?;
            Ok(reached(x))
        }
        Node::AddressOf(p) => {
            let x = place_extent(p)?;
            Ok(reached(x))
        }
        Node::Unary(_, a) => {
            let x = expr_extent(a)?;
            alone(x, 0)
        }
        Node::Convert(a) => {
            let x = expr_extent(a)?;
            alone(x, 0)
        }
        node => change_extent(node),
    }
}

/// That of a node that changes a place.
#[cycle(extents)]
fn change_extent(node: &Node) -> Result<Extent, NoMemory>
    ensures labels { IfOk result (λ x. x.labels ≡ node_labels (plain_node node.now)) }
    ensures places { IfOk result (λ x. x.places ≡ node_need (operand_needs (plain_node node.now))) }
{
    match node {
        Node::Assign(p, a) => {
            let x = place_extent(p)?;
            let y = expr_extent(a)?;
            assigned(x, y)
        }
        Node::Compound(_, _, p, a) => {
            let x = place_extent(p)?;
            let y = expr_extent(a)?;
            updated(x, y)
        }
        Node::Step { place, .. } => {
            let x = place_extent(place)?;
            Ok(stepped(x))
        }
        node => choice_extent(node),
    }
}

/// That of a node with several operands or with labels of its own.
#[cycle(extents)]
fn choice_extent(node: &Node) -> Result<Extent, NoMemory>
    ensures labels { IfOk result (λ x. x.labels ≡ node_labels (plain_node node.now)) }
    ensures places { IfOk result (λ x. x.places ≡ node_need (operand_needs (plain_node node.now))) }
{
    match node {
        Node::Not(a) => {
            let x = expr_extent(a)?;
            alone(x, 2)
        }
        Node::Binary(_, a, b) => pair_extent(a, b, 0),
        Node::And(a, b) => pair_extent(a, b, 2),
        Node::Or(a, b) => pair_extent(a, b, 4),
        Node::Comma(a, b) => pair_extent(a, b, 0),
        Node::Cond(c, a, b) => {
            let x = expr_extent(c)?;
            let y = expr_extent(a)?;
            let z = expr_extent(b)?;
            between(x, y, z, 2)
        }
        Node::Call(_, args) => args_extent(args.as_slice()),
        node => port_extent(node),
    }
}

/// That of an operation on a port, a group or a dynamic group. There is no other form.
#[cycle(extents)]
fn port_extent(node: &Node) -> Result<Extent, NoMemory>
    ensures labels { IfOk result (λ x. x.labels ≡ node_labels (plain_node node.now)) }
    ensures places { IfOk result (λ x. x.places ≡ node_need (operand_needs (plain_node node.now))) }
{
    match node {
        Node::Io {
            op,
            index,
            value,
            ..
        } => match index {
            None => match value {
                None => io_extent(*op, None, None),
                Some(v) => io_extent(*op, None, Some(v)),
            },
            Some(i) => match value {
                None => io_extent(*op, Some(i), None),
                Some(v) => io_extent(*op, Some(i), Some(v)),
            },
        },
        Node::Group { .. } | Node::Bind { .. } => Ok(Extent {
            labels: 0,
            places: 1,
        }),
        Node::DynGroup { .. } => Ok(Extent {
            labels: 16,
            places: 2,
        }),
        _ => Err(NoMemory),
    }
}

/// That of an operation on a port with these operands.
#[cycle(extents)]
fn io_extent(op: IoOp, index: Option<&Expr>, value: Option<&Expr>) -> Result<Extent, NoMemory>
    ensures labels { IfOk result (λ x. x.labels ≡ option_labels (plain_operand (option_copied index.entry))
        + option_labels (plain_operand (option_copied value.entry))) }
    ensures places { IfOk result (λ x. x.places ≡ node_need (option_needs (plain_operand (option_copied index.entry))
        (option_needs (plain_operand (option_copied value.entry))
        (if is_update (port_operation op).action then 1 ∷ [] else [])))) }
{
    match index {
        None => {
            let y = value_extent(op, value, 0)?;
            Ok(Extent {
                labels: y.labels,
                places: y.places.max(1),
            })
        }
        Some(e) => {
            let x = expr_extent(e)?;
            let y = value_extent(op, value, 1)?;
            let labels = behind(x.labels, y.labels)?;
            Ok(Extent {
                labels,
                places: x.places.max(y.places).max(1),
            })
        }
    }
}

/// That of the value of an operation on a port, and of what an update reads, above so many places that are kept.
#[cycle(extents)]
fn value_extent(op: IoOp, value: Option<&Expr>, kept: u16) -> Result<Extent, NoMemory>
    ensures labels { IfOk result (λ x. x.labels ≡ option_labels (plain_operand (option_copied value.entry))) }
    ensures places { IfOk result (λ x. x.places ≡ greatest_from kept (option_needs
        (plain_operand (option_copied value.entry)) (if is_update (port_operation op).action then 1 ∷ [] else []))) }
{
    match value {
        None => {
            let places = read_places(op, kept)?;
            Ok(Extent { labels: 0, places })
        }
        Some(e) => {
            let x = expr_extent(e)?;
            let u = above(kept)?;
            let last = read_places(op, u)?;
            let places = kept_beside(last, x.places, kept)?;
            Ok(Extent {
                labels: x.labels,
                places,
            })
        }
    }
}

/// The places up to what an update reads.
fn read_places(op: IoOp, kept: u16) -> Result<u16, NoMemory>
    ensures { IfOk result (λ n. n ≡ greatest_from kept
        (if is_update (port_operation op).action then 1 ∷ [] else [])) }
{
    if is_update(op) { above(kept) } else { Ok(0) }
}

/// That of two operands.
#[cycle(extents)]
fn pair_extent(a: &Expr, b: &Expr, own: u64) -> Result<Extent, NoMemory>
    ensures labels { IfOk result (λ x. x.labels
        ≡ own + expr_labels (plain_expr a.now) + expr_labels (plain_expr b.now)) }
    ensures places { IfOk result (λ x. x.places
        ≡ node_need (expr_need (plain_expr a.now) ∷ expr_need (plain_expr b.now) ∷ [])) }
{
    let x = expr_extent(a)?;
    let y = expr_extent(b)?;
    beside(x, y, own)
}

/// That of arguments, which are kept while the next ones are worked out.
#[cycle(extents)]
fn args_extent(args: &[Expr]) -> Result<Extent, NoMemory>
    ensures labels { IfOk result (λ x. x.labels ≡ exprs_labels (plain_exprs args.now)) }
    ensures places { IfOk result (λ x. x.places ≡ node_need (exprs_needs (plain_exprs args.now))) }
{
    let mut labels = 0;
    let mut places = 1;
    let mut kept = 0;
    for e in args {
        let x = expr_extent(e)?;
        labels = behind(labels, x.labels)?;
        places = kept_beside(places, x.places, kept)?;
        kept = above(kept)?;
    }
    Ok(Extent { labels, places })
}

/// The most of some places and of others above so many that are kept.
fn kept_beside(places: u16, more: u16, kept: u16) -> Result<u16, NoMemory>
    ensures { IfOk result (λ n. n ≡ max places (more + kept)) }
{
    match more.checked_add(kept) {
        Some(n) => Ok(places.max(n)),
        None => Err(NoMemory),
    }
}

/// The labels of an expression that may be absent.
pub fn optional_labels(e: Option<&Expr>) -> Result<u64, NoMemory>
    ensures { IfOk result (λ n. n ≡ optional_labels (option_map plain_expr (option_copied e.entry))) }
{
    match e {
        None => Ok(0),
        Some(e) => {
            let x = expr_extent(e)?;
            Ok(x.labels)
        }
    }
}

fn expr_places(e: &Expr) -> Result<u16, NoMemory>
    ensures { IfOk result (λ n. n ≡ expr_need (plain_expr e.now)) }
{
    let x = expr_extent(e)?;
    Ok(x.places)
}

fn optional_places(e: Option<&Expr>) -> Result<u16, NoMemory>
    ensures { IfOk result (λ n. n ≡ option_need (option_map plain_expr (option_copied e.entry))) }
{
    match e {
        None => Ok(0),
        Some(e) => expr_places(e),
    }
}

/// The most places that one of these takes.
fn most_places(es: &[Expr]) -> Result<u16, NoMemory>
    ensures { IfOk result (λ n. n ≡ most (exprs_needs (plain_exprs es.now))) }
{
    let mut most = 0;
    for e in es {
        let n = expr_places(e)?;
        most = n.max(most);
    }
    Ok(most)
}

/// The most places that an expression of a statement takes.
#[cycle(places)]
pub fn stmt_places(s: &Stmt) -> Result<u16, NoMemory>
    ensures { IfOk result (λ n. n ≡ stmt_need (plain_stmt s.now)) }
{
    match &s.kind {
        StmtKind::Empty | StmtKind::Break | StmtKind::Continue => Ok(0),
        StmtKind::Do1(e) => expr_places(e),
        StmtKind::Block(ss) => stmts_places(ss.as_slice()),
        StmtKind::Local(_, values) => most_places(values.as_slice()),
        StmtKind::If(c, a, b) => match b {
            None => branch_places(c, a, None),
            Some(b) => branch_places(c, a, Some(b)),
        },
        StmtKind::While(c, body) => loop_places(Some(c), None, body),
        StmtKind::DoWhile(body, c) => loop_places(Some(c), None, body),
        StmtKind::For(first, c, last, body) => match first {
            None => loop_places(c.as_ref(), last.as_ref(), body),
            Some(first) => for_places(first, c.as_ref(), last.as_ref(), body),
        },
        StmtKind::Return(e) => optional_places(e.as_ref()),
    }
}

/// That of an `if`, of which the second statement need not be there.
#[cycle(places)]
fn branch_places(c: &Expr, a: &Stmt, b: Option<&Stmt>) -> Result<u16, NoMemory>
    ensures { IfOk result (λ n. n ≡ kind_need (branch (plain_expr c.now) (plain_stmt a.now)
        (plain_other (option_copied b.entry)))) }
{
    let x = expr_places(c)?;
    let y = stmt_places(a)?;
    let z = other_places(b)?;
    Ok(x.max(y.max(z)))
}

/// That of a loop.
#[cycle(places)]
fn loop_places(c: Option<&Expr>, last: Option<&Expr>, body: &Stmt) -> Result<u16, NoMemory>
    ensures { IfOk result (λ n. n ≡ max (option_need (option_map plain_expr (option_copied c.entry)))
        (max (option_need (option_map plain_expr (option_copied last.entry))) (stmt_need (plain_stmt body.now)))) }
{
    let x = optional_places(c)?;
    let y = optional_places(last)?;
    let z = stmt_places(body)?;
    Ok(x.max(y.max(z)))
}

/// That of a `for` with a first part.
#[cycle(places)]
fn for_places(
    first: &Stmt,
    c: Option<&Expr>,
    last: Option<&Expr>,
    body: &Stmt,
) -> Result<u16, NoMemory>
    ensures { IfOk result (λ n. n ≡ max (stmt_need (plain_stmt first.now))
        (max (option_need (option_map plain_expr (option_copied c.entry)))
        (max (option_need (option_map plain_expr (option_copied last.entry))) (stmt_need (plain_stmt body.now))))) }
{
    let x = stmt_places(first)?;
    let y = loop_places(c, last, body)?;
    Ok(x.max(y))
}

#[cycle(places)]
fn other_places(s: Option<&Stmt>) -> Result<u16, NoMemory>
    ensures { IfOk result (λ n. n ≡ option_stmt_need (plain_other (option_copied s.entry))) }
{
    match s {
        None => Ok(0),
        Some(s) => stmt_places(s),
    }
}

#[cycle(places)]
fn stmts_places(ss: &[Stmt]) -> Result<u16, NoMemory>
    ensures { IfOk result (λ n. n ≡ stmts_need (plain_stmts ss.now)) }
{
    let mut most = 0;
    for s in ss {
        let n = stmt_places(s)?;
        most = n.max(most);
    }
    Ok(most)
}
