//! Compound assignments and steps.
ghost use Rattle.std.specs.Prelude.{◌≡◌, ◌∷◌, OnOk};
ghost use Rattle.ec_core.specs.Operators.{number_type, step_operator};
ghost use Rattle.ec_core.specs.Plain.{plain_type};
ghost use Rattle.ec_core.specs.Typing.{int};
ghost use Rattle.ec_lower.specs.Emits.{Emits};
ghost use Rattle.ec_lower.specs.Sites.{plain_site};
ghost use Rattle.ec_ir.specs.Operations.{conversion, binary_op};
ghost use Rattle.ec_core.specs.ArithmeticTypes.{type_of};
ghost use Rattle.ec_lower_code.specs.Code.{temp, store_to, update_types, update_code, keeping_code};
ghost use Rattle.ec_lower_code.specs.Code.{moving_code, change_code, postfix_code, step_code};

use crate::emit::{above, put_binary, put_conversion};
use crate::places::{Site, advance, advance_behind, put_store};
use ec_core::{Arithmetic, BinOp, CType, IntegerType};
use ec_fx::Mode;
use ec_ir::Ir;
use ec_space::{NoMemory, Seq};
use std::alloc::Global;

fn number_type(ty: &CType) -> Arithmetic
    ensures { result ≡ number_type (plain_type ty.now) }
{
    match ty.arithmetic() {
        Some(t) => t,
        None => Arithmetic::Integer(IntegerType {
            signed: true,
            bytes: 2,
        }),
    }
}

/// The types of an operation: those that its operands are brought to, and that of its result.
#[derive(Clone, Copy)]
struct Types {
    left: Arithmetic,
    right: Arithmetic,
    result: Arithmetic,
}

fn update_types(op: BinOp, x: Arithmetic, y: Arithmetic) -> Types
    ensures left { result.left ≡ (update_types op x y).left }
    ensures right { result.right ≡ (update_types op x y).right }
    ensures value { result.result ≡ (update_types op x y).result }
{
    match op {
        BinOp::Mul => Types {
            left: x.factor_beside(y),
            right: y.factor_beside(x),
            result: x.common(y),
        },
        BinOp::Shl | BinOp::Shr => Types {
            left: x.promoted(),
            right: y,
            result: x.promoted(),
        },
        _ => Types {
            left: x.converted_beside(y),
            right: y.converted_beside(x),
            result: x.common(y),
        },
    }
}

/// What stands at `t` is brought to a type of numbers.
fn bring(
    code: &mut Seq<Ir>,
    alloc: Global,
    t: u16,
    to: Arithmetic,
    mode: Mode,
    from: &CType,
) -> Result<(), NoMemory>
    ensures { OnOk result (Emits code.old.items code.new.items (λ rest. let from = plain_type from.now in
        let to = type_of to in conversion (temp t to) to mode (temp t from) from ∷ rest)) }
{
    let to = to.to_type();
    put_conversion(code, alloc, t, &to, mode, from)
}

/// The number at `t` is brought back to the place's type.
fn bring_back(
    code: &mut Seq<Ir>,
    alloc: Global,
    t: u16,
    ty: &CType,
    mode: Mode,
    from: Arithmetic,
) -> Result<(), NoMemory>
    ensures { OnOk result (Emits code.old.items code.new.items (λ rest. let ty = plain_type ty.now in
        let from = type_of from in conversion (temp t ty) ty mode (temp t from) from ∷ rest)) }
{
    let from = from.to_type();
    put_conversion(code, alloc, t, ty, mode, &from)
}

/// An operation on what stands at `t` and `up` in an operation's types, whose result goes to `q`.
fn put_operation(
    code: &mut Seq<Ir>,
    alloc: Global,
    op: BinOp,
    types: Types,
    own: Mode,
    q: u16,
    t: u16,
    up: u16,
) -> Result<(), NoMemory>
    ensures { OnOk result (Emits code.old.items code.new.items (λ rest.
        let x = type_of types.left in let y = type_of types.right in let z = type_of types.result in
        binary_op op z own (temp q z) (temp t x) x (temp up y) y ∷ rest)) }
{
    let x = types.left.to_type();
    let y = types.right.to_type();
    let z = types.result.to_type();
    put_binary(code, alloc, op, &z, own, q, t, &x, up, &y)
}

/// The operands at `t` and `up` are brought to an operation's types, and its result goes to `q`.
fn operate(
    code: &mut Seq<Ir>,
    alloc: Global,
    op: BinOp,
    own: Mode,
    q: u16,
    t: u16,
    ty: &CType,
    up: u16,
    right: &CType,
) -> Result<(), NoMemory>
    ensures { OnOk result (Emits code.old.items code.new.items (λ rest. let ty = plain_type ty.now in
        let right = plain_type right.now in let types = update_types op (number_type ty) (number_type right) in
        let x = type_of types.left in let y = type_of types.right in let z = type_of types.result in
        conversion (temp t x) x own (temp t ty) ty ∷ conversion (temp up y) y own (temp up right) right
        ∷ binary_op op z own (temp q z) (temp t x) x (temp up y) y ∷ rest)) }
{
    let types = update_types(op, number_type(ty), number_type(right));
    bring(code, alloc, t, types.left, own, ty)?;
    bring(code, alloc, up, types.right, own, right)?;
    put_operation(code, alloc, op, types, own, q, t, up)
}

/// The result at `q` is brought to the place's type and stored to it.
fn give(
    code: &mut Seq<Ir>,
    alloc: Global,
    op: BinOp,
    mode: Mode,
    ty: &CType,
    site: Site,
    q: u16,
    right: &CType,
) -> Result<(), NoMemory>
    ensures { OnOk result (Emits code.old.items code.new.items (λ rest. let ty = plain_type ty.now in
        let right = plain_type right.now in let types = update_types op (number_type ty) (number_type right) in
        let z = type_of types.result in conversion (temp q ty) ty mode (temp q z) z
        ∷ store_to (plain_site site) (temp q ty) ∷ rest)) }
{
    let types = update_types(op, number_type(ty), number_type(right));
    bring_back(code, alloc, q, ty, mode, types.result)?;
    put_store(code, ty, site, q)
}

/// A compound assignment of numbers, from the old value at `t` and the right side above it.
fn update(
    code: &mut Seq<Ir>,
    alloc: Global,
    op: BinOp,
    own: Mode,
    mode: Mode,
    ty: &CType,
    site: Site,
    t: u16,
    right: &CType,
) -> Result<(), NoMemory>
    ensures { OnOk result (Emits code.old.items code.new.items (let ty = plain_type ty.now in
        let right = plain_type right.now in
        update_code op (update_types op (number_type ty) (number_type right)) own mode ty (plain_site site) t right)) }
{
    let up = above(t)?;
    operate(code, alloc, op, own, t, t, ty, up, right)?;
    give(code, alloc, op, mode, ty, site, t, right)
}

/// The same, where the old value is kept at `t`.
fn keep(
    code: &mut Seq<Ir>,
    alloc: Global,
    op: BinOp,
    mode: Mode,
    ty: &CType,
    site: Site,
    t: u16,
    right: &CType,
) -> Result<(), NoMemory>
    ensures { OnOk result (Emits code.old.items code.new.items (let ty = plain_type ty.now in
        let right = plain_type right.now in
        keeping_code op (update_types op (number_type ty) (number_type right)) mode ty (plain_site site) t right)) }
{
    let up = above(t)?;
    operate(code, alloc, op, mode, up, t, ty, up, right)?;
    give(code, alloc, op, mode, ty, site, up, right)?;
    let types = update_types(op, number_type(ty), number_type(right));
    bring_back(code, alloc, t, ty, mode, types.left)
}

/// A compound assignment to a place of a type, from its old value at `t` and the right side above it.
pub fn change(
    code: &mut Seq<Ir>,
    alloc: Global,
    op: BinOp,
    own: Mode,
    mode: Mode,
    ty: &CType,
    site: Site,
    t: u16,
    right: &CType,
) -> Result<(), NoMemory>
    ensures { OnOk result (Emits code.old.items code.new.items
        (change_code op own mode (plain_type ty.now) (plain_site site) t (plain_type right.now))) }
{
    match ty {
        CType::Ptr { .. } => advance(code, alloc, op, own, ty, site, t, t, right),
        CType::Void => update(code, alloc, op, own, mode, ty, site, t, right),
        CType::Int { .. } => update(code, alloc, op, own, mode, ty, site, t, right),
        CType::Fx { .. } => update(code, alloc, op, own, mode, ty, site, t, right),
        CType::Array { .. } => update(code, alloc, op, own, mode, ty, site, t, right),
        CType::Struct { .. } => update(code, alloc, op, own, mode, ty, site, t, right),
    }
}

/// A postfix step by the 1 above the old value at `t`.
fn postfix(
    code: &mut Seq<Ir>,
    alloc: Global,
    op: BinOp,
    mode: Mode,
    ty: &CType,
    site: Site,
    t: u16,
    one: &CType,
) -> Result<(), NoMemory>
    requires { plain_type one.now ≡ int }
    ensures { OnOk result (Emits code.old.items code.new.items
        (postfix_code op mode (plain_type ty.now) (plain_site site) t)) }
{
    match ty {
        CType::Ptr { .. } => advance_behind(code, alloc, op, mode, ty, site, t, one),
        CType::Void => keep(code, alloc, op, mode, ty, site, t, one),
        CType::Int { .. } => keep(code, alloc, op, mode, ty, site, t, one),
        CType::Fx { .. } => keep(code, alloc, op, mode, ty, site, t, one),
        CType::Array { .. } => keep(code, alloc, op, mode, ty, site, t, one),
        CType::Struct { .. } => keep(code, alloc, op, mode, ty, site, t, one),
    }
}

/// A step of a place by the 1 above its old value at `t`.
pub fn step(
    code: &mut Seq<Ir>,
    alloc: Global,
    prefix: bool,
    up: bool,
    mode: Mode,
    ty: &CType,
    site: Site,
    t: u16,
) -> Result<(), NoMemory>
    ensures { OnOk result (Emits code.old.items code.new.items
        (step_code prefix (step_operator up) mode (plain_type ty.now) (plain_site site) t)) }
{
    let op = if up { BinOp::Add } else { BinOp::Sub };
    let one = CType::Int {
        signed: true,
        bytes: 2,
    };
    if prefix {
        change(code, alloc, op, mode, mode, ty, site, t, &one)
    } else {
        postfix(code, alloc, op, mode, ty, site, t, &one)
    }
}
