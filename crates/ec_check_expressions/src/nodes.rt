//! Forms of expressions whose operands were walked: they are judged, and what the form means is made.
//!
//! Each function takes the last of its operands as the walk gives it, before it is used.
//! Operands that are not used are dropped by a call: a drop in place at each exit would cost the proof its variants.
ghost use Rattle.std.specs.Prelude.{◌≡◌, IfOk, OnOk, List, ◌∷◌, option_map};
ghost use Rattle.ec_core.specs.Plain.{plain_type};
ghost use Rattle.ec_grammar.specs.Views.{view_type_name};
ghost use Rattle.ec_check_names.specs.Tags.{plain_tags};
ghost use Rattle.ec_check_forms.specs.Nodes.{used, used_part, condition, prefixed, stepped};
ghost use Rattle.ec_check_forms.specs.Accesses.{indexed};
ghost use Rattle.ec_check_forms.specs.Choices.{sequence, chosen};
ghost use Rattle.ec_check_forms.specs.Accesses.{member_of};
ghost use Rattle.ec_check_forms.specs.Choices.{cast};
ghost use Rattle.ec_check_operands.specs.Operands.{plain_operand, with_one, with_both};
ghost use Rattle.ec_check_forms.specs.Sites.{a_use, a_part, a_prefix, a_step, an_index, a_member, a_choice, a_cast};
ghost use Rattle.ec_check_expressions.specs.Tokens.{operator_of, is_and, compound_operator, prefix_operator, is_up, is_arrow};
ghost use Rattle.ec_check_expressions.specs.Types.{meant_type};
ghost use Rattle.ec_check_expressions.specs.Known.{IsSound, plain_known};
ghost use Rattle.ec_check_expressions.specs.Sites.{Site, on, a_type_name, told, Walked};
ghost use Rattle.ec_check_expressions.specs.Tokens.{joined, a_join, stored, a_storing};
ghost use Rattle.ec_check_expressions.specs.TypeNames.{said_type, void_said, size_of_type_name};

use crate::known::Known;
use crate::subscripts::take_index;
use crate::tokens::{compound_operator, is_and, is_arrow, is_up, operator_of, prefix_operator};
use crate::type_names::{TypeNamed, type_named};
use crate::types::{is_sized, meant_type};
use ec_check_forms::{
    assign, cast, choose, compound, index, judge_assignment, judge_cast, judge_choice,
    judge_compound, judge_logical, judge_member, judge_prefix, judge_step, logical, member, prefix,
    sequence, size_value, step, take, take_part,
};
use ec_check_names::Tags;
use ec_check_operands::{Faults, Modes, Operand, judge_operation, operate};
use ec_core::CType;
use ec_grammar::{Identifier, PunctKind, TypeName};
use ec_space::NoMemory;
use std::alloc::Global;

// ---- operands before the last

/// Takes an operand for use (rule 40).
pub(crate) fn take_first(faults: &mut Faults, x: Option<Operand>, at: u32) -> Option<Operand>
    ensures { let v = option_map plain_operand x in
        Walked faults.old.least faults.new.least (λ rest. on (a_use v at) ∷ rest)
        (option_map plain_operand result) (used v) }
{
    take(faults, x, at)
}

/// Takes the first operand of a comma (rule 40).
pub(crate) fn take_first_part(faults: &mut Faults, x: Option<Operand>, at: u32) -> Option<Operand>
    ensures { let v = option_map plain_operand x in
        Walked faults.old.least faults.new.least (λ rest. on (a_use v at) ∷ on (a_part (used v) at) ∷ rest)
        (option_map plain_operand result) (used_part (used v)) }
{
    let x = take(faults, x, at);
    take_part(faults, x, at)
}

// ---- forms of two operands

/// The comma.
pub(crate) fn sequenced(
    alloc: Global,
    modes: Modes,
    faults: &mut Faults,
    x: Option<Operand>,
    y: Option<Operand>,
    second: u32,
) -> Result<Option<Operand>, NoMemory>
    ensures { let a = option_map plain_operand x in let b = option_map plain_operand y in
        IfOk result (λ z. Walked faults.old.least faults.new.least
        (λ rest. on (a_use b second) ∷ on (a_part (used b) second) ∷ rest)
        (option_map plain_operand z) (with_both a (used_part (used b)) (sequence modes))) }
{
    let y = take(faults, y, second);
    let y = take_part(faults, y, second);
    sequence(alloc, modes, x, y)
}

fn store(
    alloc: Global,
    modes: Modes,
    op: PunctKind,
    x: Option<Operand>,
    y: Option<Operand>,
) -> Result<Option<Operand>, NoMemory>
    ensures { IfOk result (λ z. option_map plain_operand z
        ≡ stored modes op (option_map plain_operand x) (option_map plain_operand y)) }
{
    match compound_operator(op) {
        Some(op) => compound(alloc, modes, op, x, y),
        None => assign(alloc, modes, x, y),
    }
}

fn judge_storing(
    faults: &mut Faults,
    op: PunctKind,
    x: &Option<Operand>,
    y: &Option<Operand>,
    at: u32,
)
    ensures { (rest : List Site) → told faults.new.least rest ≡ told faults.old.least
        (a_storing op (option_map plain_operand x.now) (option_map plain_operand y.now) at ∷ rest) }
{
    match compound_operator(op) {
        Some(op) => judge_compound(faults, op, x, y, at),
        None => judge_assignment(faults, x, y, at),
    }
}

/// An assignment.
pub(crate) fn storing(
    alloc: Global,
    modes: Modes,
    faults: &mut Faults,
    op: PunctKind,
    x: Option<Operand>,
    y: Option<Operand>,
    second: u32,
    at: u32,
) -> Result<Option<Operand>, NoMemory>
    ensures { let a = option_map plain_operand x in let b = option_map plain_operand y in
        IfOk result (λ z. Walked faults.old.least faults.new.least
        (λ rest. on (a_use b second) ∷ a_storing op a (used b) at ∷ rest)
        (option_map plain_operand z) (stored modes op a (used b))) }
{
    let y = take(faults, y, second);
    judge_storing(faults, op, &x, &y, at);
    store(alloc, modes, op, x, y)
}

fn join(
    alloc: Global,
    modes: Modes,
    op: PunctKind,
    x: Option<Operand>,
    y: Option<Operand>,
) -> Result<Option<Operand>, NoMemory>
    ensures { IfOk result (λ z. option_map plain_operand z
        ≡ joined modes op (option_map plain_operand x) (option_map plain_operand y)) }
{
    match operator_of(op) {
        Some(op) => operate(alloc, modes, op, x, y),
        None => logical(alloc, modes, is_and(op), x, y),
    }
}

fn judge_join(faults: &mut Faults, op: PunctKind, x: &Option<Operand>, y: &Option<Operand>, at: u32)
    ensures { (rest : List Site) → told faults.new.least rest ≡ told faults.old.least
        (a_join op (option_map plain_operand x.now) (option_map plain_operand y.now) at ∷ rest) }
{
    match operator_of(op) {
        Some(op) => judge_operation(faults, op, x, y, at),
        None => judge_logical(faults, x, y, at),
    }
}

/// A binary operator.
pub(crate) fn joining(
    alloc: Global,
    modes: Modes,
    faults: &mut Faults,
    op: PunctKind,
    x: Option<Operand>,
    y: Option<Operand>,
    second: u32,
    at: u32,
) -> Result<Option<Operand>, NoMemory>
    ensures { let a = option_map plain_operand x in let b = option_map plain_operand y in
        IfOk result (λ z. Walked faults.old.least faults.new.least
        (λ rest. on (a_use b second) ∷ a_join op a (used b) at ∷ rest)
        (option_map plain_operand z) (joined modes op a (used b))) }
{
    let y = take(faults, y, second);
    judge_join(faults, op, &x, &y, at);
    join(alloc, modes, op, x, y)
}

/// A subscript.
pub(crate) fn indexing(
    alloc: Global,
    modes: Modes,
    faults: &mut Faults,
    x: Option<Operand>,
    y: Option<Operand>,
    second: u32,
    at: u32,
) -> Result<Option<Operand>, NoMemory>
    ensures { let a = option_map plain_operand x in let b = option_map plain_operand y in
        IfOk result (λ z. Walked faults.old.least faults.new.least
        (λ rest. on (a_use b second) ∷ on (an_index a (used b) at) ∷ rest)
        (option_map plain_operand z) (with_both a (used b) (indexed modes))) }
{
    let y = take_index(faults, &x, y, second, at);
    index(alloc, modes, x, y)
}

/// The operator `?:`, whose second and third operands may be void.
pub(crate) fn choosing(
    alloc: Global,
    modes: Modes,
    faults: &mut Faults,
    c: Option<Operand>,
    x: Option<Operand>,
    y: Option<Operand>,
    at: u32,
) -> Result<Option<Operand>, NoMemory>
    ensures { let w = option_map plain_operand c in let a = option_map plain_operand x in
        let b = option_map plain_operand y in
        IfOk result (λ z. Walked faults.old.least faults.new.least (λ rest. on (a_choice w a b at) ∷ rest)
        (option_map plain_operand z)
        (with_both a b (λ p q. with_one (condition modes w) (λ e. chosen modes e p q)))) }
{
    judge_choice(faults, &c, &x, &y, at);
    let z = choose(alloc, modes, c, x, y)?;
    Ok(z)
}

// ---- forms of one operand

/// A prefix operator other than `++` and `--`.
pub(crate) fn prefixing(
    alloc: Global,
    modes: Modes,
    faults: &mut Faults,
    op: PunctKind,
    x: Option<Operand>,
    first: u32,
    at: u32,
) -> Result<Option<Operand>, NoMemory>
    ensures { let a = option_map plain_operand x in
        IfOk result (λ z. Walked faults.old.least faults.new.least
        (λ rest. on (a_use a first) ∷ on (a_prefix (prefix_operator op) (used a) at) ∷ rest)
        (option_map plain_operand z) (with_one (used a) (prefixed modes (prefix_operator op)))) }
{
    let x = take(faults, x, first);
    let op = prefix_operator(op);
    judge_prefix(faults, op, &x, at);
    prefix(alloc, modes, op, x)
}

/// `++` or `--`, before its operand where `before` holds.
pub(crate) fn stepping(
    modes: Modes,
    faults: &mut Faults,
    op: PunctKind,
    before: bool,
    x: Option<Operand>,
    first: u32,
    at: u32,
) -> Option<Operand>
    ensures { let a = option_map plain_operand x in
        Walked faults.old.least faults.new.least
        (λ rest. on (a_use a first) ∷ on (a_step (used a) at) ∷ rest)
        (option_map plain_operand result) (with_one (used a) (stepped modes (is_up op) before)) }
{
    let x = take(faults, x, first);
    judge_step(faults, &x, at);
    step(modes, is_up(op), before, x)
}

/// `.` or `->` and the name of a member.
pub(crate) fn reaching(
    alloc: Global,
    known: &Known,
    faults: &mut Faults,
    op: PunctKind,
    name: &Identifier,
    x: Option<Operand>,
    first: u32,
    at: u32,
) -> Result<Option<Operand>, NoMemory>
    requires { IsSound (plain_known known.now) }
    ensures { let k = plain_known known.now in let a = option_map plain_operand x in
        IfOk result (λ z. Walked faults.old.least faults.new.least
        (λ rest. on (a_use a first)
        ∷ on (a_member k.structs name.now.name.items (is_arrow op) (used a) at name.now.spot.index) ∷ rest)
        (option_map plain_operand z)
        (with_one (used a) (member_of k.modes k.structs name.now.name.items (is_arrow op)))) }
{
    let x = take(faults, x, first);
    let arrow = is_arrow(op);
    judge_member(
        faults,
        known.structs,
        &name.name,
        arrow,
        &x,
        at,
        name.spot.index,
    );
    member(alloc, known.modes, known.structs, &name.name, arrow, x)
}

// ---- forms with a type name

fn judged_type(
    alloc: Global,
    faults: &mut Faults,
    tags: &Tags,
    name: &TypeName,
) -> Result<TypeNamed, NoMemory>
    ensures ty { IfOk result (λ n. option_map plain_type n.ty
        ≡ said_type (plain_tags tags.now) (view_type_name name.now)) }
    ensures void { IfOk result (λ n. n.void_at ≡ void_said (plain_tags tags.now) (view_type_name name.now)) }
    ensures judged { OnOk result ((rest : List Site) → told faults.new.least rest
        ≡ told faults.old.least (a_type_name (plain_tags tags.now) (view_type_name name.now) ∷ rest)) }
{
    type_named(alloc, faults, tags, name)
}

fn cast_as(
    alloc: Global,
    modes: Modes,
    n: TypeNamed,
    x: Option<Operand>,
) -> Result<Option<Operand>, NoMemory>
    ensures { IfOk result (λ z. option_map plain_operand z
        ≡ with_both (meant_type n.void_at (option_map plain_type n.ty)) (option_map plain_operand x) (cast modes)) }
{
    let to = meant_type(n.void_at, n.ty);
    cast(alloc, modes, &to, x)
}

/// A cast.
pub(crate) fn casting(
    alloc: Global,
    known: &Known,
    faults: &mut Faults,
    name: &TypeName,
    x: Option<Operand>,
    at: u32,
) -> Result<Option<Operand>, NoMemory>
    ensures { let k = plain_known known.now in let n = view_type_name name.now in
        let a = option_map plain_operand x in
        IfOk result (λ z. Walked faults.old.least faults.new.least
        (λ rest. a_type_name k.tags n ∷ on (a_cast (said_type k.tags n) a at) ∷ rest)
        (option_map plain_operand z)
        (with_both (meant_type (void_said k.tags n) (said_type k.tags n)) a (cast k.modes))) }
{
    let n = match judged_type(alloc, faults, known.tags, name) {
        Ok(n) => n,
        Err(error) => {
            drop(x);
            return Err(error);
        }
    };
    judge_cast(faults, &n.ty, &x, at);
    let z = cast_as(alloc, known.modes, n, x)?;
    Ok(z)
}

fn size_of_type(known: &Known, ty: &Option<CType>) -> Option<Operand>
    requires { IsSound (plain_known known.now) }
    ensures { option_map plain_operand result ≡ size_of_type_name (plain_known known.now).modes
        (plain_known known.now).structs (option_map plain_type ty.now) }
{
    match ty {
        None => None,
        Some(ty) => {
            if is_sized(known.structs.len(), ty) {
                Some(size_value(known.modes, known.structs, ty))
            } else {
                None
            }
        }
    }
}

/// `sizeof` of a type name.
pub(crate) fn sizing(
    alloc: Global,
    known: &Known,
    faults: &mut Faults,
    name: &TypeName,
) -> Result<Option<Operand>, NoMemory>
    requires { IsSound (plain_known known.now) }
    ensures { let k = plain_known known.now in let n = view_type_name name.now in
        IfOk result (λ z. Walked faults.old.least faults.new.least (λ rest. a_type_name k.tags n ∷ rest)
        (option_map plain_operand z)
        (size_of_type_name k.modes k.structs (meant_type (void_said k.tags n) (said_type k.tags n)))) }
{
    let n = judged_type(alloc, faults, known.tags, name)?;
    let ty = meant_type(n.void_at, n.ty);
    Ok(size_of_type(known, &ty))
}
