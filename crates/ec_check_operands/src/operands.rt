//! Operands: places and values.
ghost use Rattle.std.specs.Prelude.{◌≡◌, IfOk, option_map};
ghost use Rattle.ec_core.specs.Plain.{plain_type, plain_expr, plain_node, pointer};
ghost use Rattle.ec_check_operands.specs.declared.operands.Operand.TheVariants.{Place};
ghost use Rattle.ec_check_operands.specs.Operands.{plain_operand, mode_of, made as made_of, as_value, converted, is_null};
ghost use Rattle.ec_check_operands.specs.Operands.{valued as valued_of, with_one};

use crate::conversions::is_converted;
use crate::operators::family_state;
use ec_core::{CType, Expr, Node, PlaceExpr};
use ec_fx::Mode;
use ec_space::{NoMemory, SpaceId};
use std::alloc::Global;

/// The overflow states that hold at a place: whether results of each family of fixed-point types saturate
/// (ISO/IEC TR 18037:2008, 4.1.3).
#[derive(Clone, Copy)]
pub struct Modes {
    pub fract: bool,
    pub accum: bool,
}

/// What an expression means before it is used.
#[derive(Drop)]
pub enum Operand {
    Place {
        ty: CType,
        konst: bool,
        space: SpaceId,
        /// Whether it is an object in a named register, which has no address.
        register: bool,
        place: PlaceExpr,
    },
    Value {
        value: Expr,
        /// Whether it is the null pointer constant.
        null: bool,
    },
}

/// A value in a box.
pub fn boxed<T: Drop>(alloc: Global, x: T) -> Result<Box<T>, NoMemory>
    ensures { IfOk result (λ b. b.value ≡ x) }
{
    match Box::new(alloc, x) {
        Ok(b) => Ok(b),
        Err(_) => Err(NoMemory),
    }
}

/// What an operation of a type does with a result out of range: a fixed-point result saturates where its type or the state
/// of its family says so.
pub fn mode_of(modes: Modes, ty: &CType) -> Mode
    ensures { result ≡ mode_of modes (plain_type ty.now) }
{
    match ty {
        CType::Fx { kind, sat } => Mode {
            saturate: *sat || family_state(*kind, modes.fract, modes.accum),
        },
        CType::Void
        | CType::Int { .. }
        | CType::Ptr { .. }
        | CType::Array { .. }
        | CType::Struct { .. } => Mode { saturate: false },
    }
}

/// An expression with the mode of its type.
pub fn made(modes: Modes, ty: CType, node: Node) -> Expr
    ensures { plain_expr result ≡ made_of modes (plain_type ty) (plain_node node) }
{
    let mode = mode_of(modes, &ty);
    Expr { ty, mode, node }
}

/// The value of an operand.
pub fn as_value(modes: Modes, x: Operand) -> Expr
    ensures { plain_expr result ≡ as_value modes (plain_operand x) }
{
    match x {
        Operand::Value { value, .. } => value,
        Operand::Place {
            ty,
            konst,
            space,
            place,
            ..
        } => value_at(modes, ty, konst, space, place),
    }
}

fn value_at(modes: Modes, ty: CType, konst: bool, space: SpaceId, place: PlaceExpr) -> Expr
    ensures { (register : _) → plain_expr result
        ≡ as_value modes (plain_operand (Place ty konst space register place)) }
{
    let node = match &ty {
        CType::Array { .. } => Node::AddressOf(place),
        _ => Node::Load(place),
    };
    made(modes, ty.of_value(space, konst), node)
}

/// The value in a type: converted where that is another one.
pub fn convert(alloc: Global, modes: Modes, ty: &CType, e: Expr) -> Result<Expr, NoMemory>
    ensures { IfOk result (λ x. plain_expr x ≡ converted modes (plain_type ty.now) (plain_expr e)) }
{
    if !is_converted(&e.ty, ty) {
        return Ok(e);
    }
    let e = boxed(alloc, e)?;
    let to = ty.copied(alloc)?;
    Ok(made(modes, to, Node::Convert(e)))
}

/// The same, of a value that is in a box.
pub(crate) fn convert_boxed(
    alloc: Global,
    modes: Modes,
    ty: &CType,
    e: Box<Expr>,
) -> Result<Box<Expr>, NoMemory>
    ensures { IfOk result (λ b. plain_expr b.value ≡ converted modes (plain_type ty.now) (plain_expr e.value)) }
{
    if !is_converted(&e.ty, ty) {
        return Ok(e);
    }
    let to = ty.copied(alloc)?;
    boxed(alloc, made(modes, to, Node::Convert(e)))
}

/// The same, in a box.
pub fn boxed_in(alloc: Global, modes: Modes, ty: &CType, e: Expr) -> Result<Box<Expr>, NoMemory>
    ensures { IfOk result (λ b. plain_expr b.value ≡ converted modes (plain_type ty.now) (plain_expr e)) }
{
    let e = boxed(alloc, e)?;
    convert_boxed(alloc, modes, ty, e)
}

/// Whether it is the null pointer constant.
pub fn is_null(x: &Operand) -> bool
    ensures { result ≡ is_null (plain_operand x.now) }
{
    match x {
        Operand::Place { .. } => false,
        Operand::Value { null, .. } => *null,
    }
}

/// A form with a value, which is no null constant, or None where it has no value.
pub fn valued(e: Option<Expr>) -> Option<Operand>
    ensures { option_map plain_operand result ≡ with_one (option_map plain_expr e) valued_of }
{
    match e {
        None => None,
        Some(value) => Some(Operand::Value { value, null: false }),
    }
}
