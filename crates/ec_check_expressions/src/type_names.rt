//! Type names (ISO/IEC 9899:1999, 6.7.6).
ghost use Rattle.std.specs.Prelude.{◌≡◌, IfOk, OnOk, List, option_map};
ghost use Rattle.ec_core.specs.Plain.{plain_type};
ghost use Rattle.ec_check_operands.specs.Faults.{Judgement, all_judged};
ghost use Rattle.ec_grammar.specs.Views.{view_type_name};
ghost use Rattle.ec_check_names.specs.Tags.{plain_tags};
ghost use Rattle.ec_check_expressions.specs.TypeNames.{said_type, void_said, void_rules, type_name_rules};

use ec_check_names::{Tags, judge_specs, pointed};
use ec_check_operands::Faults;
use ec_core::CType;
use ec_grammar::TypeName;
use ec_space::NoMemory;
use std::alloc::Global;

/// What a type name says.
#[derive(Drop)]
pub struct TypeNamed {
    /// None where its words name no type, or a struct that is not defined or breaks a rule.
    pub ty: Option<CType>,
    /// The index of the word `void`, where that is the type that it names, or the one behind its stars.
    pub void_at: Option<u32>,
}

fn judge_void(faults: &mut Faults, void_at: Option<u32>)
    ensures { (rest : List Judgement) → all_judged faults.new.least rest
        ≡ all_judged faults.old.least (void_rules void_at rest) }
{
    match void_at {
        None => {}
        Some(at) => faults.judge(7, true, at),
    }
}

/// What a type name says, and judges it: rules 1, 2, 4 and 10, and rule 7 at the word `void`.
#[tactic(auto, unfolding(crate::specs::TypeNames::said_type, crate::specs::TypeNames::void_said, crate::specs::TypeNames::type_name_rules))]
pub fn type_named(
    alloc: Global,
    faults: &mut Faults,
    tags: &Tags,
    name: &TypeName,
) -> Result<TypeNamed, NoMemory>
    ensures ty { IfOk result (λ n. option_map plain_type n.ty
        ≡ said_type (plain_tags tags.now) (view_type_name name.now)) }
    ensures void { IfOk result (λ n. n.void_at ≡ void_said (plain_tags tags.now) (view_type_name name.now)) }
    ensures judged { OnOk result ((rest : List Judgement) → all_judged faults.new.least rest
        ≡ all_judged faults.old.least (type_name_rules (plain_tags tags.now) (view_type_name name.now) rest)) }
{
    let said = judge_specs(faults, tags, false, &name.specs);
    let void_at = said.types.void_at();
    let declared = pointed(alloc, faults, said.declared(), &name.stars)?;
    judge_void(faults, void_at);
    Ok(TypeNamed {
        ty: declared.ty,
        void_at,
    })
}
