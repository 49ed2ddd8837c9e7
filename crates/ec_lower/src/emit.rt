//! Single operations. Each function here appends to the operations before.
ghost use Rattle.std.specs.Prelude.{◌≡◌, ◌+◌, ◌∷◌, pos, OnOk, IfOk};
ghost use Rattle.ec_core.specs.Integers.{truth};
ghost use Rattle.ec_core.specs.Plain.{plain_type};
ghost use Rattle.ec_ir.specs.Operations.{plain_ir, constant, store_object, binary_op, unary_op, conversion, label, jump};
ghost use Rattle.ec_lower.specs.Emits.{Emits};
ghost use Rattle.ec_lower_code.specs.Code.{temp, result_temp, truth_code};

use ec_core::{BinOp, CType, UnOp};
use ec_fx::Mode;
use ec_ir::{Ir, Temp, scalar_size};
use ec_space::{NoMemory, Seq};
use std::alloc::Global;

/// The temporary of a type at a place.
pub fn temp(at: u16, ty: &CType) -> Temp
    ensures { result ≡ temp at (plain_type ty.now) }
{
    Temp {
        at,
        bytes: scalar_size(ty),
    }
}

/// The same, where the type is not void.
pub fn result_temp(at: u16, ty: &CType) -> Option<Temp>
    ensures { result ≡ result_temp at (plain_type ty.now) }
{
    match ty {
        CType::Void => None,
        _ => Some(temp(at, ty)),
    }
}

/// The place behind one. There are fewer than 65,536.
pub fn above(t: u16) -> Result<u16, NoMemory>
    ensures { IfOk result (λ u. u ≡ t + 1) }
{
    match t.checked_add(1) {
        Some(u) => Ok(u),
        None => Err(NoMemory),
    }
}

/// The label behind `n` labels from `l` on.
pub fn behind(l: u64, n: u64) -> Result<u64, NoMemory>
    ensures { IfOk result (λ m. m ≡ l + n) }
{
    match l.checked_add(n) {
        Some(m) => Ok(m),
        None => Err(NoMemory),
    }
}

pub fn put(code: &mut Seq<Ir>, op: Ir) -> Result<(), NoMemory>
    ensures { OnOk result (Emits code.old.items code.new.items (λ rest. plain_ir op ∷ rest)) }
{
    code.push(op)
}

pub fn put_unary(
    code: &mut Seq<Ir>,
    alloc: Global,
    op: UnOp,
    ty: &CType,
    mode: Mode,
    t: u16,
) -> Result<(), NoMemory>
    ensures { OnOk result (Emits code.old.items code.new.items (λ rest. let ty = plain_type ty.now in
        unary_op op ty mode (temp t ty) (temp t ty) ∷ rest)) }
{
    let at = temp(t, ty);
    let ty = ty.copied(alloc)?;
    put(
        code,
        Ir::Un {
            op,
            ty,
            mode,
            to: at,
            a: at,
        },
    )
}

pub fn put_conversion(
    code: &mut Seq<Ir>,
    alloc: Global,
    t: u16,
    ty: &CType,
    mode: Mode,
    from: &CType,
) -> Result<(), NoMemory>
    ensures { OnOk result (Emits code.old.items code.new.items (λ rest. let ty = plain_type ty.now in
        let from = plain_type from.now in conversion (temp t ty) ty mode (temp t from) from ∷ rest)) }
{
    let to = temp(t, ty);
    let a = temp(t, from);
    let ty = ty.copied(alloc)?;
    let aty = from.copied(alloc)?;
    put(
        code,
        Ir::Conv {
            to,
            ty,
            mode,
            a,
            aty,
        },
    )
}

/// A binary operation on what stands at `t` and `u`, whose result goes to `q`.
pub fn put_binary(
    code: &mut Seq<Ir>,
    alloc: Global,
    op: BinOp,
    ty: &CType,
    mode: Mode,
    q: u16,
    t: u16,
    aty: &CType,
    u: u16,
    bty: &CType,
) -> Result<(), NoMemory>
    ensures { OnOk result (Emits code.old.items code.new.items (λ rest. let ty = plain_type ty.now in
        let aty = plain_type aty.now in let bty = plain_type bty.now in
        binary_op op ty mode (temp q ty) (temp t aty) aty (temp u bty) bty ∷ rest)) }
{
    let to = temp(q, ty);
    let a = temp(t, aty);
    let b = temp(u, bty);
    let ty = ty.copied(alloc)?;
    let aty = aty.copied(alloc)?;
    let bty = bty.copied(alloc)?;
    put(
        code,
        Ir::Bin {
            op,
            ty,
            mode,
            to,
            a,
            aty,
            b,
            bty,
        },
    )
}

/// A number to a temporary.
fn number(to: Temp, n: &i128) -> Ir
    ensures { plain_ir result ≡ constant to n.now }
{
    Ir::Const(to, *n)
}

pub fn put_number(code: &mut Seq<Ir>, n: &i128, ty: &CType, t: u16) -> Result<(), NoMemory>
    ensures { OnOk result (Emits code.old.items code.new.items (λ rest.
        constant (temp t (plain_type ty.now)) n.now ∷ rest)) }
{
    put(code, number(temp(t, ty), n))
}

/// Null in a pointer's type.
pub fn put_null(code: &mut Seq<Ir>, ty: &CType, t: u16) -> Result<(), NoMemory>
    ensures { OnOk result (Emits code.old.items code.new.items
        (λ rest. constant (temp t (plain_type ty.now)) (pos 0) ∷ rest)) }
{
    put(code, Ir::Const(temp(t, ty), 0))
}

/// A store to the part of an object at an offset in bytes.
pub fn put_object_store(
    code: &mut Seq<Ir>,
    o: u16,
    offset: u32,
    ty: &CType,
    t: u16,
) -> Result<(), NoMemory>
    ensures { OnOk result (Emits code.old.items code.new.items (λ rest.
        store_object o offset (temp t (plain_type ty.now)) ∷ rest)) }
{
    put(code, Ir::StoreObj(o, offset, temp(t, ty)))
}

/// A truth value to a temporary.
fn truth_constant(to: Temp, holds: bool) -> Ir
    ensures { plain_ir result ≡ constant to (truth holds) }
{
    if holds {
        Ir::Const(to, 1)
    } else {
        Ir::Const(to, 0)
    }
}

/// A jump over what follows, and the label of that.
pub fn put_turn(code: &mut Seq<Ir>, end: u64, l: u64) -> Result<(), NoMemory>
    ensures { OnOk result (Emits code.old.items code.new.items (λ rest. jump end ∷ label l ∷ rest)) }
{
    put(code, Ir::Jump(end))?;
    put(code, Ir::Label(l))
}

/// One truth value where the branch to `l` was not taken, and the other where it was.
pub fn truth(code: &mut Seq<Ir>, holds: bool, ty: &CType, l: u64, t: u16) -> Result<(), NoMemory>
    ensures { OnOk result (Emits code.old.items code.new.items (truth_code holds (plain_type ty.now) l t)) }
{
    let end = behind(l, 1)?;
    put(code, truth_constant(temp(t, ty), holds))?;
    put_turn(code, end, l)?;
    put(code, truth_constant(temp(t, ty), !holds))?;
    put(code, Ir::Label(end))
}
