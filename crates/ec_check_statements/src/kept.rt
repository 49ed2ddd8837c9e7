//! Parts that are kept while others are walked, and statements one after another.
ghost use Rattle.std.specs.Prelude.{◌≡◌, IfOk, OnOk, Option, Some, option_map};
ghost use Rattle.ec_core.specs.Plain.{plain_expr, plain_stmt, plain_kind, PlainStmts, block, last_stmt, statement};
ghost use Rattle.ec_check_statements.specs.Walks.{plain_kept, before, followed};

use crate::kinds::{KeptExpr, KeptStmt};
use ec_check_operands::boxed;
use ec_core::{Expr, Stmt, StmtKind};
use ec_space::{NoMemory, Seq};
use std::alloc::Global;

/// Statements one after another, or None where one of them breaks a rule.
pub(crate) type Stmts = Option<Seq<Stmt>>;

pub(crate) fn kept_expr(alloc: Global, e: Option<Expr>) -> Result<KeptExpr, NoMemory>
    ensures { IfOk result (λ b. option_map (λ b. plain_expr b.value) b ≡ option_map plain_expr e) }
{
    let Some(e) = e else {
        return Ok(None);
    };
    let b = boxed(alloc, e)?;
    Ok(Some(b))
}

/// A statement whose first token stands at `at`.
pub(crate) fn stated(unit: u8, at: u32, kind: Option<StmtKind>) -> Option<Stmt>
    ensures { option_map plain_stmt result ≡ option_map (statement unit at) (option_map plain_kind kind) }
{
    match kind {
        None => None,
        Some(kind) => Some(Stmt { unit, at, kind }),
    }
}

pub(crate) fn kept_stmt(alloc: Global, s: Option<Stmt>) -> Result<KeptStmt, NoMemory>
    ensures { IfOk result (λ b. option_map (λ b. plain_stmt b.value) b ≡ option_map plain_stmt s) }
{
    let Some(s) = s else {
        return Ok(None);
    };
    let b = boxed(alloc, s)?;
    Ok(Some(b))
}

// ---- statements one after another

/// Puts a statement behind others.
pub(crate) fn keep(stmts: &mut Stmts, s: Option<Stmt>) -> Result<(), NoMemory>
    ensures { OnOk result ((rest : Option PlainStmts) → before (plain_kept stmts.new) rest
        ≡ before (plain_kept stmts.old) (followed (option_map plain_stmt s) rest)) }
{
    let Some(s) = s else {
        *stmts = None;
        return Ok(());
    };
    match stmts {
        None => {
            drop(s);
            Ok(())
        }
        Some(all) => {
            all.push(s)?;
            Ok(())
        }
    }
}

/// A block of statements.
pub(crate) fn block_of(stmts: Stmts) -> Option<StmtKind>
    ensures { option_map plain_kind result ≡ option_map block (before (plain_kept stmts) (Some last_stmt)) }
{
    match stmts {
        None => None,
        Some(stmts) => Some(StmtKind::Block(stmts)),
    }
}
