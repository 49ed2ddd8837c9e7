//! Statements that are made of their parts, where none of these breaks a rule.
ghost use Rattle.std.specs.Prelude.{◌≡◌, List, option_map};
ghost use Rattle.ec_core.specs.Plain.{plain_expr, plain_stmt, plain_kind};
ghost use Rattle.ec_check_declarations.specs.Sites.{Site, told};
ghost use Rattle.ec_check_statements.specs.Around.{plain_around};
ghost use Rattle.ec_check_statements.specs.Kinds.{one_branch, branches, while_of, do_of, left, left_sites};

use crate::around::Around;
use ec_check_operands::Faults;
use ec_core::{Expr, Stmt, StmtKind};

/// An expression that is kept while other parts are walked, or None where a rule is broken.
pub type KeptExpr = Option<Box<Expr>>;

/// A statement that is kept so.
pub type KeptStmt = Option<Box<Stmt>>;

// ---- branches and loops

/// `if` without `else` (6.8.4.1).
pub fn one_branch(x: KeptExpr, a: KeptStmt) -> Option<StmtKind>
    ensures { option_map plain_kind result ≡ one_branch (option_map (λ b. plain_expr b.value) x)
        (option_map (λ b. plain_stmt b.value) a) }
{
    let Some(x) = x else {
        return None;
    };
    let Some(a) = a else {
        return None;
    };
    Some(StmtKind::If(Box::into_inner(x), a, None))
}

/// `if` with `else` (6.8.4.1).
pub fn branches(x: KeptExpr, a: KeptStmt, b: KeptStmt) -> Option<StmtKind>
    ensures { option_map plain_kind result ≡ branches (option_map (λ b. plain_expr b.value) x)
        (option_map (λ b. plain_stmt b.value) a) (option_map (λ b. plain_stmt b.value) b) }
{
    let Some(x) = x else {
        return None;
    };
    let Some(a) = a else {
        return None;
    };
    let Some(b) = b else {
        return None;
    };
    Some(StmtKind::If(Box::into_inner(x), a, Some(b)))
}

/// `while` (6.8.5.1).
pub fn while_of(x: KeptExpr, a: KeptStmt) -> Option<StmtKind>
    ensures { option_map plain_kind result ≡ while_of (option_map (λ b. plain_expr b.value) x)
        (option_map (λ b. plain_stmt b.value) a) }
{
    let Some(x) = x else {
        return None;
    };
    let Some(a) = a else {
        return None;
    };
    Some(StmtKind::While(Box::into_inner(x), a))
}

/// `do` (6.8.5.2).
pub fn do_of(a: KeptStmt, x: KeptExpr) -> Option<StmtKind>
    ensures { option_map plain_kind result ≡ do_of (option_map (λ b. plain_stmt b.value) a)
        (option_map (λ b. plain_expr b.value) x) }
{
    let Some(a) = a else {
        return None;
    };
    let Some(x) = x else {
        return None;
    };
    Some(StmtKind::DoWhile(a, Box::into_inner(x)))
}

// ---- what leaves a loop or its turn

/// `break` or `continue`, which stands at `at`, or None where no loop stands around (rule 38).
pub fn left(faults: &mut Faults, around: &Around, kind: StmtKind, at: u32) -> Option<StmtKind>
    ensures kind { option_map plain_kind result ≡ left (plain_around around.now) (plain_kind kind) }
    ensures noted { (rest : List Site) → told faults.new.least rest
        ≡ told faults.old.least (left_sites (plain_around around.now) at rest) }
{
    let inside = around.in_loop;
    faults.judge(38, !inside, at);
    Some(kind).filter(|_| inside)
}
