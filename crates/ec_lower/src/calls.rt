//! Arguments and results.
ghost use Rattle.std.specs.Prelude.{◌≡◌, ◌∷◌, Some, OnOk};
ghost use Rattle.ec_core.specs.Plain.{plain_type, plain_exprs, plain_program};
ghost use Rattle.ec_ir.specs.Operations.{return_from};
ghost use Rattle.ec_lower.specs.Emits.{Emits};
ghost use Rattle.ec_lower_code.specs.Code.{temp, params_code, params_of};

use crate::emit::{above, put, put_object_store, temp};
use ec_core::{CType, Expr, Program};
use ec_ir::Ir;
use ec_space::{NoMemory, Seq};

/// The stores of arguments from `t` on to the parameters.
fn store_args(code: &mut Seq<Ir>, params: &[u16], args: &[Expr], t: u16) -> Result<(), NoMemory>
    ensures { OnOk result (Emits code.old.items code.new.items (params_code params.now (plain_exprs args.now) t)) }
{
    let mut u = t;
    for (i, o) in params.iter().enumerate() {
        match args.get(i) {
            None => return Ok(()),
            Some(e) => {
                put_object_store(code, *o, 0, &e.ty, u)?;
                u = above(u)?;
            }
        }
    }
    Ok(())
}

/// Those of a call, from its arguments on.
pub fn store_call(
    code: &mut Seq<Ir>,
    program: &Program,
    f: u16,
    args: &[Expr],
    t: u16,
) -> Result<(), NoMemory>
    ensures { OnOk result (Emits code.old.items code.new.items
        (params_code (params_of (plain_program program.now) f) (plain_exprs args.now) t)) }
{
    match program.funcs.get(f as usize) {
        None => Ok(()),
        Some(g) => store_args(code, g.params.as_slice(), args, t),
    }
}

/// A return of the value of a type that stands at the first place.
pub fn put_return(code: &mut Seq<Ir>, ty: &CType) -> Result<(), NoMemory>
    ensures { OnOk result (Emits code.old.items code.new.items
        (λ rest. return_from (Some (temp 0 (plain_type ty.now))) ∷ rest)) }
{
    put(code, Ir::Return(Some(temp(0, ty))))
}
