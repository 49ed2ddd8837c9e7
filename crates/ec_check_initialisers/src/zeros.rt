//! What an initialiser leaves out: zeros.
ghost use Rattle.std.specs.Prelude.{◌≡◌, ◌++◌, map, length, IfOk, OnOk};
ghost use Rattle.ec_core.specs.Layout.{plain_leaf, IsObjectType, AreStructs};
ghost use Rattle.ec_core.specs.Plain.{plain_type, plain_expr, plain_struct};
ghost use Rattle.ec_check_initialisers.specs.Parts.{zero_of, filled};

use crate::parts::rest_of;
use ec_check_operands::{Modes, made, type_sort};
use ec_core::{CType, Expr, Leaf, Node, StructDef, leaves};
use ec_space::{NoMemory, Seq, push};
use std::alloc::Global;

fn zero_of(alloc: Global, modes: Modes, ty: &CType) -> Result<Expr, NoMemory>
    ensures { IfOk result (λ e. plain_expr e ≡ zero_of modes (plain_type ty.now)) }
{
    let to = ty.copied(alloc)?;
    if type_sort(ty).is_pointer() {
        Ok(made(modes, to, Node::Null))
    } else {
        Ok(made(modes, to, Node::Number(0)))
    }
}

fn push_zeros(
    alloc: Global,
    modes: Modes,
    rest: &[Leaf],
    es: &mut Vec<Expr>,
) -> Result<(), NoMemory>
    ensures { OnOk result (map plain_expr es.new.items
        ≡ map plain_expr es.old.items ++ map (λ leaf. zero_of modes leaf.ty) (map plain_leaf rest.now)) }
{
    for leaf in rest {
        let e = zero_of(alloc, modes, &leaf.ty)?;
        push(es, e)?;
    }
    Ok(())
}

fn count(es: &[Expr]) -> usize
    ensures { result ≡ length es.now }
{
    es.len()
}

/// Puts zeros behind the values of the first leaves of a type, so that each leaf has one.
pub(crate) fn fill(
    alloc: Global,
    modes: Modes,
    structs: &Seq<StructDef>,
    ty: &CType,
    es: &mut Vec<Expr>,
) -> Result<(), NoMemory>
    requires structs { AreStructs (map plain_struct structs.now.items) }
    requires object { IsObjectType (length structs.now.items) (plain_type ty.now) }
    ensures { OnOk result (map plain_expr es.new.items
        ≡ filled modes (map plain_struct structs.now.items) (plain_type ty.now) (map plain_expr es.old.items)) }
{
    let all = leaves(alloc, structs, ty)?;
    let values = es.as_slice();
    let given = count(values);
    let whole = all.as_slice();
    let rest = rest_of(whole, given);
    push_zeros(alloc, modes, rest, es)?;
    Ok(())
}
