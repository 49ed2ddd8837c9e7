//! The parts of a `for` in its parentheses (ISO/IEC 9899:1999, 6.8.5.3).
ghost use Rattle.std.specs.Prelude.{◌≡◌, IfOk, OnOk, Some, [], option_map};
ghost use Rattle.ec_core.specs.Plain.{plain_expr, plain_kind, plain_stmt, statement, evaluate, block, last_stmt};
ghost use Rattle.ec_grammar.specs.Views.{view_declaration, view_expression, view_first, view_heading};
ghost use Rattle.ec_check_names.specs.Firsts.{first_declaration, first_expression};
ghost use Rattle.ec_check_names.specs.Names.{plain_names};
ghost use Rattle.ec_check_declarations.specs.Scopes.{IsSoundContext, plain_context, plain_scope};
ghost use Rattle.ec_check_declarations.specs.Sites.{Walked};
ghost use Rattle.ec_check_statements.specs.Around.{plain_around};
ghost use Rattle.ec_check_statements.specs.Headings.{plain_heading, heading_of, declared_first, first_part, after_first};
ghost use Rattle.ec_check_statements.specs.Headings.{first_sites, for_heading, after_heading, heading_sites};
ghost use Rattle.ec_check_statements.specs.Locals.{after_declaration, declaration_before, declaration_sites};
ghost use Rattle.ec_check_statements.specs.Parts.{evaluated, evaluation_sites};
ghost use Rattle.ec_check_statements.specs.Statements.{for_of};
ghost use Rattle.ec_check_statements.specs.Walks.{plain_kept, before, WalkedThrough};

use crate::around::Around;
use crate::kept::{block_of, kept_stmt, stated};
use crate::kinds::{KeptExpr, KeptStmt};
use crate::locals::{judge_specifiers, keep_declaration, local};
use crate::parts::{Optional, evaluated, optional_evaluation, optional_test};
use ec_check_declarations::{Context, Scope};
use ec_check_names::{Names, first_expression, first_specs};
use ec_check_operands::{Faults, boxed};
use ec_core::{Expr, Stmt, StmtKind};
use ec_grammar::{Declaration, Expression, First, Heading};
use ec_space::{NoMemory, Seq};
use std::alloc::Global;

/// The first part of a `for`, its condition and its last part.
#[derive(Drop)]
pub(crate) struct ForHeading {
    pub first: KeptStmt,
    pub condition: Option<Expr>,
    pub last: Option<Expr>,
}

// ---- the first part

/// The block of the objects that a declaration declares.
fn declared_block(
    alloc: Global,
    context: &Context,
    around: &Around,
    scope: &mut Scope,
    faults: &mut Faults,
    d: &Declaration,
) -> Result<Option<Stmt>, NoMemory>
    requires { IsSoundContext (plain_context context.now) }
    ensures { let c = plain_context context.now in let r = plain_around around.now in
        let s = plain_scope scope.old in let t = view_declaration d.now in
        IfOk result (λ x. WalkedThrough faults.old.least faults.new.least (declaration_sites c r t s)
        (option_map plain_stmt x) (option_map (λ all. statement r.unit (first_declaration t) (block all))
        (declaration_before c r t s (Some last_stmt))) (plain_scope scope.new) (after_declaration c r t s)) }
{
    let empty = Seq::new(alloc);
    let mut stmts = Some(empty);
    keep_declaration(alloc, context, around, scope, faults, d, &mut stmts)?;
    let at = first_specs(&d.specs);
    Ok(stated(around.unit, at, block_of(stmts)))
}

/// The declaration of one object.
fn declared_alone(
    alloc: Global,
    context: &Context,
    around: &Around,
    scope: &mut Scope,
    faults: &mut Faults,
    d: &Declaration,
) -> Result<Option<Stmt>, NoMemory>
    requires sound { IsSoundContext (plain_context context.now) }
    requires alone { d.now.more.items ≡ [] }
    ensures { let c = plain_context context.now in let r = plain_around around.now in
        let s = plain_scope scope.old in let t = view_declaration d.now in
        IfOk result (λ x. WalkedThrough faults.old.least faults.new.least (declaration_sites c r t s)
        (option_map plain_stmt x) (declared_first c r t s) (plain_scope scope.new) (after_declaration c r t s)) }
{
    let said = judge_specifiers(faults, context, d);
    local(alloc, context, around, scope, faults, said, &d.first)
}

#[tactic(auto, unfolding(crate::specs::Headings::declared_first))]
fn declared_first(
    alloc: Global,
    context: &Context,
    around: &Around,
    scope: &mut Scope,
    faults: &mut Faults,
    d: &Declaration,
) -> Result<Option<Stmt>, NoMemory>
    requires { IsSoundContext (plain_context context.now) }
    ensures { let c = plain_context context.now in let r = plain_around around.now in
        let s = plain_scope scope.old in let t = view_declaration d.now in
        IfOk result (λ x. WalkedThrough faults.old.least faults.new.least (declaration_sites c r t s)
        (option_map plain_stmt x) (declared_first c r t s) (plain_scope scope.new) (after_declaration c r t s)) }
{
    match d.more.as_slice() {
        [] => declared_alone(alloc, context, around, scope, faults, d),
        [_, ..] => declared_block(alloc, context, around, scope, faults, d),
    }
}

fn evaluation(unit: u8, at: u32, e: KeptExpr) -> Option<Stmt>
    ensures { option_map plain_stmt result ≡ option_map (λ v. statement unit at (evaluate v))
        (option_map (λ b. plain_expr b.value) e) }
{
    match e {
        None => None,
        Some(e) => Some(Stmt {
            unit,
            at,
            kind: StmtKind::Do1(Box::into_inner(e)),
        }),
    }
}

/// A first part that is an expression.
fn evaluated_first(
    alloc: Global,
    context: &Context,
    around: &Around,
    names: &Names,
    faults: &mut Faults,
    x: &Expression,
) -> Result<Option<Stmt>, NoMemory>
    requires { IsSoundContext (plain_context context.now) }
    ensures { let c = plain_context context.now in let r = plain_around around.now in let n = plain_names names.now in
        let t = view_expression x.now in
        IfOk result (λ x. Walked faults.old.least faults.new.least (evaluation_sites c n t)
        (option_map plain_stmt x) (option_map (λ v. statement r.unit (first_expression t) (evaluate v))
        (evaluated c n t))) }
{
    let e = evaluated(alloc, context, names, faults, x)?;
    Ok(evaluation(around.unit, first_expression(x), e))
}

/// A part that is not left out.
fn some_stmt(alloc: Global, s: Option<Stmt>) -> Result<Option<KeptStmt>, NoMemory>
    ensures { IfOk result (λ b. option_map (option_map (λ b. plain_stmt b.value)) b
        ≡ option_map Some (option_map plain_stmt s)) }
{
    let s = kept_stmt(alloc, s)?;
    match s {
        None => Ok(None),
        Some(s) => Ok(Some(Some(s))),
    }
}

/// The first part: None where it breaks a rule, and Some of None where it is left out.
#[tactic(auto, unfolding(crate::specs::Headings::first_part, crate::specs::Headings::after_first, crate::specs::Headings::first_sites, crate::specs::Parts::optional_evaluation_sites))]
fn first_part(
    alloc: Global,
    context: &Context,
    around: &Around,
    scope: &mut Scope,
    faults: &mut Faults,
    first: &First,
) -> Result<Option<KeptStmt>, NoMemory>
    requires { IsSoundContext (plain_context context.now) }
    ensures { let c = plain_context context.now in let r = plain_around around.now in
        let s = plain_scope scope.old in let t = view_first first.now in
        IfOk result (λ x. WalkedThrough faults.old.least faults.new.least (first_sites c r t s)
        (option_map (option_map (λ b. plain_stmt b.value)) x) (first_part c r t s)
        (plain_scope scope.new) (after_first c r t s)) }
{
    match first {
        First::Declared(d) => {
            let s = declared_first(alloc, context, around, scope, faults, d)?;
            some_stmt(alloc, s)
        }
        First::Evaluated(None, _) => Ok(Some(None)),
        First::Evaluated(Some(x), _) => {
            let s = evaluated_first(alloc, context, around, &scope.names, faults, x)?;
            some_stmt(alloc, s)
        }
    }
}

// ---- all parts

fn unboxed(e: KeptExpr) -> Option<Expr>
    ensures { option_map plain_expr result ≡ option_map (λ b. plain_expr b.value) e }
{
    match e {
        None => None,
        Some(e) => Some(Box::into_inner(e)),
    }
}

fn heading_of(
    alloc: Global,
    first: Option<KeptStmt>,
    condition: Optional,
    last: Optional,
) -> Result<Option<Box<ForHeading>>, NoMemory>
    ensures { IfOk result (λ h. option_map (λ b. plain_heading b.value) h
        ≡ heading_of (option_map (option_map (λ b. plain_stmt b.value)) first)
        (option_map (option_map (λ b. plain_expr b.value)) condition)
        (option_map (option_map (λ b. plain_expr b.value)) last)) }
{
    let Some(first) = first else {
        return Ok(None);
    };
    let Some(condition) = condition else {
        return Ok(None);
    };
    let Some(last) = last else {
        return Ok(None);
    };
    let h = ForHeading {
        first,
        condition: unboxed(condition),
        last: unboxed(last),
    };
    let b = boxed(alloc, h)?;
    Ok(Some(b))
}

/// The parts of a `for`, which stands at `at`. What the first part declares stays declared behind it.
pub(crate) fn heading(
    alloc: Global,
    context: &Context,
    around: &Around,
    scope: &mut Scope,
    faults: &mut Faults,
    h: &Heading,
    at: u32,
) -> Result<Option<Box<ForHeading>>, NoMemory>
    requires { IsSoundContext (plain_context context.now) }
    ensures { let c = plain_context context.now in let r = plain_around around.now in
        let s = plain_scope scope.old in let t = view_heading h.now in
        IfOk result (λ x. WalkedThrough faults.old.least faults.new.least (heading_sites c r t at s)
        (option_map (λ b. plain_heading b.value) x) (for_heading c r t s)
        (plain_scope scope.new) (after_heading c r t s)) }
{
    let first = first_part(alloc, context, around, scope, faults, &h.first)?;
    let condition = optional_test(alloc, context, &scope.names, faults, &h.condition, at)?;
    let last = optional_evaluation(alloc, context, &scope.names, faults, &h.last)?;
    heading_of(alloc, first, condition, last)
}

/// `for`, where none of its parts breaks a rule.
pub(crate) fn for_of(h: Option<Box<ForHeading>>, a: KeptStmt) -> Option<StmtKind>
    ensures { option_map plain_kind result ≡ for_of (option_map (λ b. plain_heading b.value) h)
        (option_map (λ b. plain_stmt b.value) a) }
{
    let Some(h) = h else {
        return None;
    };
    let Some(a) = a else {
        return None;
    };
    let h = Box::into_inner(h);
    Some(StmtKind::For(h.first, h.condition, h.last, a))
}
