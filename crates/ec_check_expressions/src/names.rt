//! Names and constants.
ghost use Rattle.std.specs.Prelude.{◌≡◌, option_map};
ghost use Rattle.std.specs.Option.{option_copied};
ghost use Rattle.ec_check_names.specs.Names.{plain_named};
ghost use Rattle.ec_check_expressions.specs.Names.{what_is_meant};
ghost use Rattle.std.specs.Prelude.{IfOk, ◌∷◌};
ghost use Rattle.ec_core.specs.Plain.{plain_type};
ghost use Rattle.ec_check_operands.specs.Faults.{all_judged};
ghost use Rattle.ec_check_names.specs.Names.{found};
ghost use Rattle.ec_check_forms.specs.Calls.{name_rules};
ghost use Rattle.ec_check_operands.specs.Operands.{plain_operand};
ghost use Rattle.ec_check_forms.specs.Sites.{a_name};
ghost use Rattle.ec_check_expressions.specs.Known.{plain_known};
ghost use Rattle.ec_check_expressions.specs.Sites.{on, Walked};
ghost use Rattle.ec_check_expressions.specs.Names.{object_place, named, constant_value};

use crate::known::Known;
use ec_check_forms::{Meant, fixed_constant, judge_name, whole_constant};
use ec_check_names::Named;
use ec_check_operands::{Faults, Modes, Operand};
use ec_core::{CType, PlaceExpr};
use ec_grammar::{Constant, Identifier};
use ec_space::{NoMemory, SpaceId};
use std::alloc::Global;

/// What stands behind a name where no call is.
pub fn what_is_meant(what: Option<&Named>) -> Meant
    ensures { result ≡ what_is_meant (option_map plain_named (option_copied what.entry)) }
{
    match what {
        None => Meant::Undeclared,
        Some(Named::Object { number: None, .. }) => Meant::Undefined,
        Some(
            Named::Object {
                number: Some(_),
                ..
            },
        ) => Meant::Object,
        Some(Named::Function { .. }) => Meant::Function,
    }
}

/// Judges the use of a name where no call is, which is told at the name: rules 19, 20 and 21.
pub fn judge_named(faults: &mut Faults, what: Option<&Named>, at: u32)
    ensures { faults.new.least ≡ all_judged faults.old.least
        (name_rules (what_is_meant (option_map plain_named (option_copied what.entry))) at) }
{
    judge_name(faults, what_is_meant(what), at);
}

fn object_place(
    alloc: Global,
    number: Option<u16>,
    ty: &Option<CType>,
    konst: bool,
    space: SpaceId,
    register: bool,
) -> Result<Option<Operand>, NoMemory>
    ensures { IfOk result (λ x. option_map plain_operand x
        ≡ object_place number (option_map plain_type ty.now) konst space register) }
{
    let Some(number) = number else {
        return Ok(None);
    };
    let Some(ty) = ty else {
        return Ok(None);
    };
    let ty = ty.copied(alloc)?;
    Ok(Some(Operand::Place {
        ty,
        konst,
        space,
        register,
        place: PlaceExpr::Object(number),
    }))
}

/// The place of a name: an object that a unit defines, or None.
pub fn named(alloc: Global, what: Option<&Named>) -> Result<Option<Operand>, NoMemory>
    ensures { IfOk result (λ x. option_map plain_operand x
        ≡ named (option_map plain_named (option_copied what.entry))) }
{
    match what {
        None | Some(Named::Function { .. }) => Ok(None),
        Some(
            Named::Object {
                number,
                ty,
                konst,
                space,
                register,
            },
        ) => object_place(alloc, *number, ty, *konst, *space, *register),
    }
}

/// The value of a constant.
pub fn constant(modes: Modes, constant: Constant) -> Operand
    ensures { plain_operand result ≡ constant_value modes constant }
{
    match constant {
        Constant::Whole {
            value,
            signed,
            bytes,
        } => whole_constant(modes, signed, bytes, value),
        Constant::Fixed { kind, n } => fixed_constant(modes, kind, n),
    }
}

/// A name that stands where no call is: rules 19, 20 and 21 at the name.
pub(crate) fn naming(
    alloc: Global,
    known: &Known,
    faults: &mut Faults,
    n: &Identifier,
) -> Result<Option<Operand>, NoMemory>
    ensures { let what = found n.now.name.items (plain_known known.now).names in
        IfOk result (λ x. Walked faults.old.least faults.new.least
        (λ rest. on (a_name (what_is_meant what) n.now.spot.index) ∷ rest)
        (option_map plain_operand x) (named what)) }
{
    let what = known.names.find(&n.name);
    judge_named(faults, what, n.spot.index);
    named(alloc, what)
}
