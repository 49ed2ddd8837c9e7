//! What stands behind specifiers and stars, and the rules of both (ISO/IEC 9899:1999, 6.7.5.1; ISO/IEC TR 18037:2008,
//! 5.1.2).
ghost use Rattle.std.specs.Prelude.{◌≡◌, IfOk, OnOk, List, map, option_map};
ghost use Rattle.ec_core.specs.Plain.{plain_type};
ghost use Rattle.ec_check_operands.specs.Faults.{Judgement, all_judged};
ghost use Rattle.ec_grammar.specs.Views.{view_star, view_shape};
ghost use Rattle.ec_check_names.specs.Stars.{plain_declared};
ghost use Rattle.ec_check_expressions.specs.TypeNames.{meant_type, void_rules};
ghost use Rattle.ec_check_declarations.specs.Declarators.{head_of, head_rules, misused_in_result, misused_in};

use ec_check_names::{Declared, Specified, pointed};
use ec_check_operands::Faults;
use ec_core::CType;
use ec_grammar::{Shape, Star};
use ec_space::NoMemory;
use std::alloc::Global;

/// The type, where the word `void` is not misused in it.
pub(crate) fn meant_type(misused: Option<u32>, ty: Option<CType>) -> Option<CType>
    ensures { option_map plain_type result ≡ meant_type misused (option_map plain_type ty) }
{
    let void = misused.is_some();
    ty.filter(|_| !void)
}

/// Where the word `void` is misused in the type of a result.
pub(crate) fn misused_in_result(void_at: Option<u32>, stars: &[Star]) -> Option<u32>
    ensures { result ≡ misused_in_result void_at (map view_star stars.now) }
{
    match stars {
        [] => None,
        [_, ..] => void_at,
    }
}

/// Where the word `void` is misused in a declarator.
pub(crate) fn misused_in(shape: &Shape, void_at: Option<u32>, stars: &[Star]) -> Option<u32>
    ensures { result ≡ misused_in (view_shape shape.now) void_at (map view_star stars.now) }
{
    match shape {
        Shape::Object | Shape::Array(_, _, _) => void_at,
        Shape::Function(_, _, _) => misused_in_result(void_at, stars),
    }
}

fn judge_void(faults: &mut Faults, misused: Option<u32>)
    ensures { (rest : List Judgement) → all_judged faults.new.least rest
        ≡ all_judged faults.old.least (void_rules misused rest) }
{
    match misused {
        None => {}
        Some(at) => faults.judge(7, true, at),
    }
}

/// What stands behind specifiers and stars. Judges rules 2 and 4 of the stars, rule 3 of a space of what is declared
/// itself, and rule 7 where the word `void` is misused.
pub(crate) fn head(
    alloc: Global,
    faults: &mut Faults,
    may_have_space: bool,
    misused: Option<u32>,
    said: Specified,
    stars: &[Star],
) -> Result<Declared, NoMemory>
    ensures value { IfOk result (λ d. plain_declared d ≡ head_of said (map view_star stars.now)) }
    ensures judged { OnOk result (faults.new.least ≡ all_judged faults.old.least
        (head_rules may_have_space misused said (map view_star stars.now))) }
{
    let d = pointed(alloc, faults, said.declared(), stars)?;
    d.qualities.judge_own_space(faults, may_have_space);
    judge_void(faults, misused);
    Ok(d)
}
