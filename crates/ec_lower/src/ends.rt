//! The ends of bodies.
ghost use Rattle.std.specs.Prelude.{◌≡◌};
ghost use Rattle.ec_core.specs.Plain.{plain_kind, plain_stmt, plain_stmts};
ghost use Rattle.ec_lower_code.specs.Code.{body_returns, have_return, is_return};

use ec_core::{Stmt, StmtKind};

/// Whether a statement is a return.
fn is_return(kind: &StmtKind) -> bool
    ensures { result ≡ is_return (plain_kind kind.now) }
{
    match kind {
        StmtKind::Return(_) => true,
        _ => false,
    }
}

/// Whether one of these statements is a return.
fn have_return(ss: &[Stmt]) -> bool
    ensures { result ≡ have_return (plain_stmts ss.now) }
{
    for s in ss {
        if is_return(&s.kind) {
            return true;
        }
    }
    false
}

/// Whether a return stands directly in a body, which is not left at its end then.
pub fn body_returns(body: &Stmt) -> bool
    ensures { result ≡ body_returns (plain_stmt body.now) }
{
    match &body.kind {
        StmtKind::Block(ss) => have_return(ss.as_slice()),
        StmtKind::Empty
        | StmtKind::Do1(_)
        | StmtKind::Local(..)
        | StmtKind::If(..)
        | StmtKind::While(..)
        | StmtKind::DoWhile(..)
        | StmtKind::For(..)
        | StmtKind::Break
        | StmtKind::Continue
        | StmtKind::Return(_) => false,
    }
}
