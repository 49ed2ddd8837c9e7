//! The walk over the statements of a body.
ghost use Rattle.std.specs.Prelude.{◌≡◌, IfOk, OnOk, List, Some, None, option_map};
ghost use Rattle.ec_core.specs.Plain.{plain_expr, plain_kind, plain_stmt, block, last_stmt, evaluate};
ghost use Rattle.ec_grammar.specs.Views.{view_optional, view_heading, view_compound, views_items};
ghost use Rattle.ec_grammar.specs.Views.{view_item, view_statement};
ghost use Rattle.ec_check_names.specs.Names.{plain_names};
ghost use Rattle.ec_check_declarations.specs.Scopes.{IsSoundContext, plain_context, plain_scope};
ghost use Rattle.ec_check_declarations.specs.Sites.{Site, told, Walked};
ghost use Rattle.ec_check_statements.specs.Around.{plain_around, looping, within, ended, under};
ghost use Rattle.ec_check_statements.specs.Kinds.{left, left_sites};
ghost use Rattle.ec_check_statements.specs.Headings.{plain_heading, for_heading, after_heading, heading_sites};
ghost use Rattle.ec_check_statements.specs.Parts.{optional_evaluation_sites};
ghost use Rattle.ec_check_statements.specs.Statements.{stated, evaluation, for_of, after, after_item};
ghost use Rattle.ec_check_statements.specs.Statements.{after_items, kind_of, item_before, items_of, statement_sites};
ghost use Rattle.ec_check_statements.specs.Statements.{item_sites, items_sites, body_of, after_body, body_sites};
ghost use Rattle.ec_check_statements.specs.Walks.{plain_kept, before, followed, WalkedThrough, WalkedOn};

use crate::around::{Around, under};
use crate::headings::{for_of, heading};
use crate::kept::{Stmts, block_of, keep, kept_stmt, stated};
use crate::kinds::{KeptExpr, KeptStmt, branches, do_of, left, one_branch, while_of};
use crate::locals::keep_declaration;
use crate::parts::{evaluated, returned, test};
use ec_check_declarations::{Context, Scope};
use ec_check_names::{Names, first_statement};
use ec_check_operands::Faults;
use ec_core::{Stmt, StmtKind};
use ec_grammar::{Compound, Expression, Heading, Item, Pragma, Statement};
use ec_space::{NoMemory, Seq};
use std::alloc::Global;

// ---- statements without others in them

fn evaluating(e: KeptExpr) -> Option<StmtKind>
    ensures { option_map plain_kind result ≡ option_map evaluate (option_map (λ b. plain_expr b.value) e) }
{
    match e {
        None => None,
        Some(e) => Some(StmtKind::Do1(Box::into_inner(e))),
    }
}

/// An expression statement, or the empty one.
#[tactic(auto, unfolding(crate::specs::Statements::evaluation, crate::specs::Parts::optional_evaluation_sites))]
fn evaluation(
    alloc: Global,
    context: &Context,
    names: &Names,
    faults: &mut Faults,
    x: &Option<Box<Expression>>,
) -> Result<Option<StmtKind>, NoMemory>
    requires { IsSoundContext (plain_context context.now) }
    ensures { let c = plain_context context.now in let n = plain_names names.now in
        let t = view_optional x.now in
        IfOk result (λ k. Walked faults.old.least faults.new.least (optional_evaluation_sites c n t)
        (option_map plain_kind k) (evaluation c n t)) }
{
    let Some(x) = x else {
        return Ok(Some(StmtKind::Empty));
    };
    let e = evaluated(alloc, context, names, faults, x)?;
    Ok(evaluating(e))
}

// ---- all statements

/// What a statement does, or None where it breaks a rule. Judges the rules of its parts in their order in the text.
#[cycle(walk)]
fn kind(
    alloc: Global,
    context: &Context,
    around: &Around,
    scope: &mut Scope,
    faults: &mut Faults,
    x: &Statement,
) -> Result<Option<StmtKind>, NoMemory>
    requires { IsSoundContext (plain_context context.now) }
    ensures { let c = plain_context context.now in let r = plain_around around.now in
        let s = plain_scope scope.old in let t = view_statement x.now in
        IfOk result (λ k. WalkedThrough faults.old.least faults.new.least (statement_sites c r t s)
        (option_map plain_kind k) (kind_of c r t s) (plain_scope scope.new) (after c r t s)) }
{
    match x {
        Statement::Compound(b) => {
            let inner = around.within(&scope.names);
            compound(alloc, context, &inner, scope, faults, &b.pragmas, &b.items)
        }
        Statement::Simple(x, _) => evaluation(alloc, context, &scope.names, faults, x),
        Statement::If(at, x, a) => {
            let x = test(alloc, context, &scope.names, faults, &x.value, at.index)?;
            let a = part(alloc, context, around, scope, faults, a)?;
            Ok(one_branch(x, a))
        }
        Statement::IfElse(at, x, a, _, b) => {
            let x = test(alloc, context, &scope.names, faults, &x.value, at.index)?;
            let a = part(alloc, context, around, scope, faults, a)?;
            let b = part(alloc, context, around, scope, faults, b)?;
            Ok(branches(x, a, b))
        }
        Statement::While(at, x, a) => {
            let x = test(alloc, context, &scope.names, faults, &x.value, at.index)?;
            let a = part(alloc, context, &around.looping(), scope, faults, a)?;
            Ok(while_of(x, a))
        }
        Statement::Do(_, a, w, x, _) => {
            let a = part(alloc, context, &around.looping(), scope, faults, a)?;
            let x = test(alloc, context, &scope.names, faults, &x.value, w.index)?;
            Ok(do_of(a, x))
        }
        Statement::For(at, h, a) => {
            let inner = around.within(&scope.names);
            for_loop(alloc, context, &inner, scope, faults, h, at.index, a)
        }
        Statement::Break(at, _) => Ok(left(faults, around, StmtKind::Break, at.index)),
        Statement::Continue(at, _) => Ok(left(faults, around, StmtKind::Continue, at.index)),
        Statement::Return(at, x, _) => {
            returned(alloc, context, around, &scope.names, faults, x, at.index)
        }
    }
}

/// A statement that is part of another one.
#[cycle(walk)]
fn part(
    alloc: Global,
    context: &Context,
    around: &Around,
    scope: &mut Scope,
    faults: &mut Faults,
    x: &Statement,
) -> Result<KeptStmt, NoMemory>
    requires { IsSoundContext (plain_context context.now) }
    ensures { let c = plain_context context.now in let r = plain_around around.now in
        let s = plain_scope scope.old in let t = view_statement x.now in
        IfOk result (λ b. WalkedThrough faults.old.least faults.new.least (statement_sites c r t s)
        (option_map (λ b. plain_stmt b.value) b) (stated r t (kind_of c r t s))
        (plain_scope scope.new) (after c r t s)) }
{
    let k = kind(alloc, context, around, scope, faults, x)?;
    let s = stated(around.unit, first_statement(x), k);
    kept_stmt(alloc, s)
}

/// A `for`, which stands at `at`, in the scope that begins with its first part.
#[cycle(walk)]
fn for_loop(
    alloc: Global,
    context: &Context,
    around: &Around,
    scope: &mut Scope,
    faults: &mut Faults,
    h: &Heading,
    at: u32,
    a: &Statement,
) -> Result<Option<StmtKind>, NoMemory>
    requires { IsSoundContext (plain_context context.now) }
    ensures { let c = plain_context context.now in let r = plain_around around.now in
        let s = plain_scope scope.old in let g = view_heading h.now in let t = view_statement a.now in
        IfOk result (λ k. WalkedThrough faults.old.least faults.new.least
        (λ rest. heading_sites c r g at s (statement_sites c (looping r) t (after_heading c r g s) rest))
        (option_map plain_kind k)
        (for_of (for_heading c r g s) (stated r t (kind_of c (looping r) t (after_heading c r g s))))
        (plain_scope scope.new) (ended r.first (after c (looping r) t (after_heading c r g s)))) }
{
    let h = heading(alloc, context, around, scope, faults, h, at)?;
    let a = part(alloc, context, &around.looping(), scope, faults, a)?;
    scope.names.close(around.first);
    Ok(for_of(h, a))
}

/// A compound statement whose pragmas and items are these, in the scope that begins with `around.first`.
#[cycle(walk)]
fn compound(
    alloc: Global,
    context: &Context,
    around: &Around,
    scope: &mut Scope,
    faults: &mut Faults,
    pragmas: &[Pragma],
    xs: &[Item],
) -> Result<Option<StmtKind>, NoMemory>
    requires { IsSoundContext (plain_context context.now) }
    ensures { let c = under pragmas.now (plain_context context.now) in let r = plain_around around.now in
        let s = plain_scope scope.old in let t = views_items xs.now in
        IfOk result (λ k. WalkedThrough faults.old.least faults.new.least (items_sites c r t s)
        (option_map plain_kind k) (option_map block (items_of c r t s))
        (plain_scope scope.new) (ended r.first (after_items c r t s))) }
{
    let inner = under(pragmas, context);
    let stmts = items(alloc, &inner, around, scope, faults, xs)?;
    scope.names.close(around.first);
    Ok(block_of(stmts))
}

#[cycle(walk)]
fn items(
    alloc: Global,
    context: &Context,
    around: &Around,
    scope: &mut Scope,
    faults: &mut Faults,
    xs: &[Item],
) -> Result<Stmts, NoMemory>
    requires { IsSoundContext (plain_context context.now) }
    ensures { let c = plain_context context.now in let r = plain_around around.now in
        let s = plain_scope scope.old in let t = views_items xs.now in
        IfOk result (λ ss. WalkedThrough faults.old.least faults.new.least (items_sites c r t s)
        (before (plain_kept ss) (Some last_stmt)) (items_of c r t s)
        (plain_scope scope.new) (after_items c r t s)) }
{
    let empty = Seq::new(alloc);
    let mut stmts = Some(empty);
    for x in xs {
        item(alloc, context, around, scope, faults, x, &mut stmts)?;
    }
    Ok(stmts)
}

/// Puts the statements of a declaration, or a statement, behind others.
#[cycle(walk)]
fn item(
    alloc: Global,
    context: &Context,
    around: &Around,
    scope: &mut Scope,
    faults: &mut Faults,
    x: &Item,
    stmts: &mut Stmts,
) -> Result<(), NoMemory>
    requires { IsSoundContext (plain_context context.now) }
    ensures { let c = plain_context context.now in let r = plain_around around.now in
        let s = plain_scope scope.old in let t = view_item x.now in
        OnOk result (WalkedOn faults.old.least faults.new.least (item_sites c r t s)
        (plain_kept stmts.old) (plain_kept stmts.new) (item_before c r t s)
        (plain_scope scope.new) (after_item c r t s)) }
{
    match x {
        Item::Declaration(d) => keep_declaration(alloc, context, around, scope, faults, d, stmts),
        Item::Statement(x) => {
            let k = kind(alloc, context, around, scope, faults, x)?;
            keep(stmts, stated(around.unit, first_statement(x), k))
        }
    }
}

// ---- bodies

/// The body of a function, which is one scope with its parameters: these are the names from `around.first` on. It
/// forgets the names of that scope. None where the body breaks a rule; judges the rules of all its parts.
#[tactic(auto, unfolding(crate::specs::Statements::body_of, crate::specs::Statements::after_body, crate::specs::Statements::body_sites))]
pub fn body(
    alloc: Global,
    context: &Context,
    around: &Around,
    scope: &mut Scope,
    faults: &mut Faults,
    c: &Compound,
) -> Result<Option<Stmt>, NoMemory>
    requires { IsSoundContext (plain_context context.now) }
    ensures { let k = plain_context context.now in let r = plain_around around.now in
        let s = plain_scope scope.old in let t = view_compound c.now in
        IfOk result (λ x. WalkedThrough faults.old.least faults.new.least (body_sites k r t s)
        (option_map plain_stmt x) (body_of k r t s) (plain_scope scope.new) (after_body k r t s)) }
{
    let k = compound(alloc, context, around, scope, faults, &c.pragmas, &c.items)?;
    Ok(stated(around.unit, c.opening.index, k))
}
