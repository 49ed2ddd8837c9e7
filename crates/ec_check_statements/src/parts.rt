//! Expressions in statements: conditions, expressions whose value is not used, and values that are returned (ISO/IEC
//! 9899:1999, 6.8.3 to 6.8.6).
ghost use Rattle.std.specs.Prelude.{◌≡◌, IfOk, OnOk, List, ◌∷◌, [], Some, None, option_map};
ghost use Rattle.ec_core.specs.Plain.{plain_expr, plain_kind, return_value};
ghost use Rattle.ec_grammar.specs.Views.{view_optional, view_expression};
ghost use Rattle.ec_check_names.specs.Names.{plain_names};
ghost use Rattle.ec_check_operands.specs.Operands.{plain_operand, as_value};
ghost use Rattle.ec_check_operands.specs.Passing.{passed, passing_rules};
ghost use Rattle.ec_check_expressions.specs.Expressions.{of_expression, expression_sites};
ghost use Rattle.ec_check_expressions.specs.Known.{IsSound, plain_known};
ghost use Rattle.ec_check_expressions.specs.Sites.{Walked as WalkedExpression};
ghost use Rattle.ec_check_declarations.specs.Scopes.{IsSoundContext, plain_context, known_in};
ghost use Rattle.ec_check_declarations.specs.Sites.{Walked};
ghost use Rattle.ec_check_statements.specs.Around.{plain_around};
ghost use Rattle.ec_check_statements.specs.Results.{returned_type, has_no_result, has_result};
ghost use Rattle.ec_check_statements.specs.Parts.{tested, test_sites, optional_test, optional_test_sites, evaluated};
ghost use Rattle.ec_check_statements.specs.Parts.{evaluation_sites, optional_evaluation, optional_evaluation_sites};
ghost use Rattle.ec_check_statements.specs.Parts.{returned, return_sites};

use crate::around::Around;
use crate::kept::kept_expr;
use crate::kinds::KeptExpr;
use crate::results::{has_no_result, has_result, judge_value, returned_type};
use ec_check_declarations::Context;
use ec_check_expressions::{Known, expression};
use ec_check_forms::{condition, judge_condition, take, take_part};
use ec_check_names::{Names, first_expression};
use ec_check_operands::{Faults, Modes, Operand, as_value, judge_conversion, pass};
use ec_core::{Expr, StmtKind};
use ec_grammar::Expression;
use ec_space::NoMemory;
use std::alloc::Global;

/// A part that may be left out: None where it breaks a rule, and Some of None where it is left out.
pub(crate) type Optional = Option<KeptExpr>;

/// What an expression knows.
pub(crate) fn known_in<'a>(context: &Context<'a>, names: &'a Names) -> Known<'a>
    requires { IsSoundContext (plain_context context.now) }
    ensures known { plain_known result ≡ known_in (plain_context context.now) (plain_names names.now) }
    ensures structs { result.structs.now ≡ context.now.structs.now }
    ensures sound { IsSound (plain_known result) }
{
    Known {
        names,
        tags: context.tags,
        structs: context.structs,
        ports: context.ports,
        modes: context.modes,
    }
}

// ---- conditions

/// The value of a condition. Judges rule 40 at its first token, and rule 25 at `at`.
pub(crate) fn test(
    alloc: Global,
    context: &Context,
    names: &Names,
    faults: &mut Faults,
    x: &Expression,
    at: u32,
) -> Result<KeptExpr, NoMemory>
    requires { IsSoundContext (plain_context context.now) }
    ensures { let c = plain_context context.now in let n = plain_names names.now in let t = view_expression x.now in
        IfOk result (λ e. Walked faults.old.least faults.new.least (test_sites c n t at)
        (option_map (λ b. plain_expr b.value) e) (tested c n t)) }
{
    let known = known_in(context, names);
    let v = expression(alloc, &known, faults, x)?;
    let first = first_expression(x);
    let v = take(faults, v, first);
    judge_condition(faults, &v, at);
    kept_expr(alloc, condition(context.modes, v))
}

/// The same, where it may be left out.
#[tactic(auto, unfolding(crate::specs::Parts::optional_test, crate::specs::Parts::optional_test_sites))]
pub(crate) fn optional_test(
    alloc: Global,
    context: &Context,
    names: &Names,
    faults: &mut Faults,
    x: &Option<Box<Expression>>,
    at: u32,
) -> Result<Optional, NoMemory>
    requires { IsSoundContext (plain_context context.now) }
    ensures { let c = plain_context context.now in let n = plain_names names.now in
        let t = view_optional x.now in
        IfOk result (λ e. Walked faults.old.least faults.new.least (optional_test_sites c n t at)
        (option_map (λ e. option_map (λ b. plain_expr b.value) e) e) (optional_test c n t)) }
{
    let Some(x) = x else {
        return Ok(Some(None));
    };
    let e = test(alloc, context, names, faults, x, at)?;
    match e {
        None => Ok(None),
        Some(e) => Ok(Some(Some(e))),
    }
}

// ---- expressions whose value is not used

fn unused(modes: Modes, v: Option<Operand>) -> Option<Expr>
    ensures { option_map plain_expr result ≡ option_map (as_value modes) (option_map plain_operand v) }
{
    match v {
        None => None,
        Some(v) => Some(as_value(modes, v)),
    }
}

/// The value of an expression, which is not used. Judges rule 40 at its first token.
pub(crate) fn evaluated(
    alloc: Global,
    context: &Context,
    names: &Names,
    faults: &mut Faults,
    x: &Expression,
) -> Result<KeptExpr, NoMemory>
    requires { IsSoundContext (plain_context context.now) }
    ensures { let c = plain_context context.now in let n = plain_names names.now in let t = view_expression x.now in
        IfOk result (λ e. Walked faults.old.least faults.new.least (evaluation_sites c n t)
        (option_map (λ b. plain_expr b.value) e) (evaluated c n t)) }
{
    let known = known_in(context, names);
    let v = expression(alloc, &known, faults, x)?;
    let first = first_expression(x);
    let v = take_part(faults, v, first);
    kept_expr(alloc, unused(context.modes, v))
}

/// The same, where it may be left out.
#[tactic(auto, unfolding(crate::specs::Parts::optional_evaluation, crate::specs::Parts::optional_evaluation_sites))]
pub(crate) fn optional_evaluation(
    alloc: Global,
    context: &Context,
    names: &Names,
    faults: &mut Faults,
    x: &Option<Box<Expression>>,
) -> Result<Optional, NoMemory>
    requires { IsSoundContext (plain_context context.now) }
    ensures { let c = plain_context context.now in let n = plain_names names.now in
        let t = view_optional x.now in
        IfOk result (λ e. Walked faults.old.least faults.new.least (optional_evaluation_sites c n t)
        (option_map (λ e. option_map (λ b. plain_expr b.value) e) e) (optional_evaluation c n t)) }
{
    let Some(x) = x else {
        return Ok(Some(None));
    };
    let e = evaluated(alloc, context, names, faults, x)?;
    match e {
        None => Ok(None),
        Some(e) => Ok(Some(Some(e))),
    }
}

// ---- `return`

/// A value that is returned, brought to the type of the result.
fn returned_value(
    alloc: Global,
    context: &Context,
    around: &Around,
    names: &Names,
    faults: &mut Faults,
    x: &Expression,
    at: u32,
) -> Result<Option<Expr>, NoMemory>
    requires { IsSoundContext (plain_context context.now) }
    ensures { let c = plain_context context.now in let r = plain_around around.now in let n = plain_names names.now in
        let t = view_expression x.now in
        IfOk result (λ e. Walked faults.old.least faults.new.least (return_sites c r n (Some t) at)
        (option_map plain_expr e) (passed c.modes (returned_type r.result) (of_expression (known_in c n) t))) }
{
    let known = known_in(context, names);
    let v = expression(alloc, &known, faults, x)?;
    judge_value(faults, around.result, at);
    let to = returned_type(around.result);
    judge_conversion(faults, &v, to, at);
    pass(alloc, context.modes, to, v)
}

fn returning(e: Option<Expr>) -> Option<StmtKind>
    ensures { option_map plain_kind result ≡ option_map (λ e. return_value (Some e)) (option_map plain_expr e) }
{
    match e {
        None => None,
        Some(e) => Some(StmtKind::Return(Some(e))),
    }
}

/// `return`, which stands at `at`. Judges there rule 39 and, of a value in a function with a result, rules 28 to 30.
#[tactic(auto, unfolding(crate::specs::Parts::returned, crate::specs::Parts::return_sites))]
pub(crate) fn returned(
    alloc: Global,
    context: &Context,
    around: &Around,
    names: &Names,
    faults: &mut Faults,
    x: &Option<Box<Expression>>,
    at: u32,
) -> Result<Option<StmtKind>, NoMemory>
    requires { IsSoundContext (plain_context context.now) }
    ensures { let c = plain_context context.now in let r = plain_around around.now in let n = plain_names names.now in
        let t = view_optional x.now in
        IfOk result (λ s. Walked faults.old.least faults.new.least (return_sites c r n t at)
        (option_map plain_kind s) (returned c r n t)) }
{
    match x {
        None => {
            faults.judge(39, has_result(around.result), at);
            if has_no_result(around.result) {
                Ok(Some(StmtKind::Return(None)))
            } else {
                Ok(None)
            }
        }
        Some(x) => {
            let e = returned_value(alloc, context, around, names, faults, x, at)?;
            Ok(returning(e))
        }
    }
}
