//! The first loop that is not counted.
ghost use Rattle.std.specs.Prelude.{◌≡◌, option_and_then};
ghost use Rattle.ec_core.specs.Plain.{plain_kind, plain_program, plain_stmt, plain_stmts};
ghost use Rattle.ec_core_steps.specs.Boxed.{boxed_stmt};
ghost use Rattle.ec_core_steps.specs.Laws.{comes_before, first_of, first_site, unless_counted, uncounted, kind_uncounted};
ghost use Rattle.ec_core_steps.specs.Laws.{option_uncounted, stmts_uncounted};

use crate::counted::{Within, turns_of};
use ec_core::{Stmt, StmtKind};

/// Where a statement stands.
#[derive(Clone, Copy, Debug, PartialEq, Eq)]
pub struct Site {
    /// The place of its unit among the sources.
    pub unit: u8,
    /// The index of its first token there.
    pub at: u32,
}

/// Whether a statement comes before another, by unit and token.
fn comes_before(x: Site, y: Site) -> bool
    ensures { result ≡ comes_before x y }
{
    x.unit < y.unit || (x.unit == y.unit && x.at < y.at)
}

/// The first of two statements.
fn first_of(x: Site, y: Site) -> Site
    ensures { result ≡ first_of x y }
{
    if comes_before(y, x) { y } else { x }
}

/// The first of two that may not be there.
pub(crate) fn first_site(x: Option<Site>, y: Option<Site>) -> Option<Site>
    ensures { result ≡ first_site x y }
{
    match (x, y) {
        (None, y) => y,
        (Some(x), None) => Some(x),
        (Some(x), Some(y)) => Some(first_of(x, y)),
    }
}

/// A loop, where it has no number of turns.
fn unless_counted(turns: Option<u32>, site: Site) -> Option<Site>
    ensures { result ≡ unless_counted turns site }
{
    match turns {
        None => Some(site),
        Some(_) => None,
    }
}

/// The first loop of a statement that is not counted.
#[cycle(statements)]
pub(crate) fn in_stmt(within: &Within, stmt: &Stmt) -> Option<Site>
    ensures { result ≡ uncounted (plain_program within.now.program.now) within.now.function
        (plain_stmt within.now.body.now) (plain_stmt stmt.now) }
{
    let site = Site {
        unit: stmt.unit,
        at: stmt.at,
    };
    in_kind(within, site, &stmt.kind)
}

#[cycle(statements)]
fn in_kind(within: &Within, site: Site, kind: &StmtKind) -> Option<Site>
    ensures { result ≡ kind_uncounted (plain_program within.now.program.now) within.now.function
        (plain_stmt within.now.body.now) site (plain_kind kind.now) }
{
    match kind {
        StmtKind::Empty => None,
        StmtKind::Do1(_) => None,
        StmtKind::Block(stmts) => in_stmts(within, stmts.as_slice()),
        StmtKind::Local(_, _) => None,
        StmtKind::If(_, stmt, other) => first_site(in_stmt(within, stmt), in_other(within, other)),
        StmtKind::While(_, stmt) => first_site(Some(site), in_stmt(within, stmt)),
        StmtKind::DoWhile(stmt, _) => first_site(Some(site), in_stmt(within, stmt)),
        StmtKind::For(first, condition, last, stmt) => {
            let own = unless_counted(turns_of(within, first, condition, last, stmt), site);
            first_site(
                own,
                first_site(in_other(within, first), in_stmt(within, stmt)),
            )
        }
        StmtKind::Break => None,
        StmtKind::Continue => None,
        StmtKind::Return(_) => None,
    }
}

/// The same of a statement that may be left out.
#[cycle(statements)]
fn in_other(within: &Within, stmt: &Option<Box<Stmt>>) -> Option<Site>
    ensures { result ≡ option_uncounted (plain_program within.now.program.now) within.now.function
        (plain_stmt within.now.body.now) (boxed_stmt stmt.now) }
{
    match stmt {
        Some(stmt) => in_stmt(within, stmt),
        None => None,
    }
}

/// The same of several statements.
#[cycle(statements)]
fn in_stmts(within: &Within, stmts: &[Stmt]) -> Option<Site>
    ensures { result ≡ stmts_uncounted (plain_program within.now.program.now) within.now.function
        (plain_stmt within.now.body.now) (plain_stmts stmts.now) }
{
    let mut first = None;
    for stmt in stmts {
        first = first_site(first, in_stmt(within, stmt));
    }
    first
}
