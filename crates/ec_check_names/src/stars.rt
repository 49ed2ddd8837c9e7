//! The types that stars make (ISO/IEC 9899:1999, 6.7.5.1; ISO/IEC TR 18037:2008, 5.1.2).
ghost use Rattle.std.specs.Prelude.{◌≡◌, IfOk, OnOk, List, map, option_map};
ghost use Rattle.ec_core.specs.Plain.{plain_type};
ghost use Rattle.ec_check_operands.specs.Faults.{Judgement, all_judged};
ghost use Rattle.ec_grammar.specs.Views.{view_star};
ghost use Rattle.ec_check_names.specs.Stars.{plain_declared, declared_by, pointer_to, behind, star_rules};

use crate::qualifiers::{Qualities, judge_qualifiers};
use crate::specifiers::Specified;
use ec_check_operands::Faults;
use ec_core::CType;
use ec_grammar::Star;
use ec_space::NoMemory;
use std::alloc::Global;

/// The type that is declared, and what qualifies it itself.
#[derive(Drop)]
pub struct Declared {
    /// None where the specifiers give no type.
    pub ty: Option<CType>,
    pub qualities: Qualities,
}

impl Specified {
    /// What the specifiers declare, before stars.
    pub fn declared(self) -> Declared
        ensures { plain_declared result ≡ declared_by self }
    {
        let ty = match self.types.base() {
            None => None,
            Some(base) => Some(base.to_type()),
        };
        Declared {
            ty,
            qualities: self.qualities,
        }
    }
}

fn boxed(alloc: Global, ty: CType) -> Result<Box<CType>, NoMemory>
    ensures { IfOk result (λ b. b.value ≡ ty) }
{
    match Box::new(alloc, ty) {
        Ok(b) => Ok(b),
        Err(_) => Err(NoMemory),
    }
}

fn pointer_to(
    alloc: Global,
    ty: Option<CType>,
    qualities: Qualities,
) -> Result<Option<CType>, NoMemory>
    ensures { IfOk result (λ p. option_map plain_type p
        ≡ pointer_to (record { ty = option_map plain_type ty; qualities = qualities })) }
{
    let Some(ty) = ty else {
        return Ok(None);
    };
    let to = boxed(alloc, ty)?;
    Ok(Some(CType::Ptr {
        space: qualities.space_id(),
        konst: qualities.konst,
        to,
    }))
}

/// What is declared behind stars: each makes a pointer to what was declared so far. Judges the qualifiers of each star
/// (rules 2 and 4, at the space).
pub fn pointed(
    alloc: Global,
    faults: &mut Faults,
    declared: Declared,
    stars: &[Star],
) -> Result<Declared, NoMemory>
    ensures value { IfOk result (λ d. plain_declared d ≡ behind (plain_declared declared) (map view_star stars.now)) }
    ensures judged { OnOk result ((rest : List Judgement) → all_judged faults.new.least rest
        ≡ all_judged faults.old.least (star_rules (map view_star stars.now) rest)) }
{
    let mut ty = declared.ty;
    let mut qualities = declared.qualities;
    for star in stars {
        ty = pointer_to(alloc, ty, qualities)?;
        qualities = judge_qualifiers(faults, &star.qualifiers);
    }
    Ok(Declared { ty, qualities })
}
