//! Operations whose code may stand once, and the shapes that they have.
ghost use Rattle.std.specs.Prelude.{◌≡◌, ◌∷◌, [], true};
ghost use Rattle.ec_core.specs.Plain.{plain_type};
ghost use Rattle.ec_core_shapes.specs.Shapes.{binary_number, same_mode, same_shape, unary_number};
ghost use Rattle.ec_ir.specs.Operations.{plain_ir};
ghost use Rattle.ec_ir_shapes.specs.Costs.{are_exact, has_one_format, is_as_exact, is_fixed, is_pointer};
ghost use Rattle.ec_select.specs.Sharing.{is_shaped, shape_of};

use ec_core::{BinOp, CType, UnOp};
use ec_fx::Mode;
use ec_ir::Ir;

fn is_fixed(ty: &CType) -> bool
    ensures { result ≡ is_fixed (plain_type ty.now) }
{
    matches!(ty, CType::Fx { .. })
}

fn is_pointer(ty: &CType) -> bool
    ensures { result ≡ is_pointer (plain_type ty.now) }
{
    matches!(ty, CType::Ptr { .. })
}

/// Whether two fixed-point types have numbers of one format.
fn has_one_format(ty: &CType, other: &CType) -> bool
    ensures { result ≡ has_one_format (plain_type ty.now) (plain_type other.now) }
{
    match (ty, other) {
        (CType::Fx { kind, .. }, CType::Fx { kind: also, .. }) => *kind == *also,
        _ => false,
    }
}

/// Whether an operator gives for numbers of one format what it gives for the integers that their bytes stand for.
fn is_as_exact(op: BinOp, mode: Mode, in_format: bool) -> bool
    ensures { result ≡ is_as_exact op mode in_format }
{
    match op {
        BinOp::Add | BinOp::Sub => in_format && !mode.saturate,
        BinOp::Lt | BinOp::Gt | BinOp::Le | BinOp::Ge | BinOp::Eq | BinOp::Ne => true,
        _ => false,
    }
}

fn are_exact(op: BinOp, mode: Mode, ty: &CType, aty: &CType, bty: &CType) -> bool
    ensures { result ≡ are_exact op mode (plain_type ty.now)
        (plain_type aty.now ∷ plain_type bty.now ∷ []) }
{
    has_one_format(aty, bty) && is_as_exact(op, mode, has_one_format(ty, aty))
}

/// Whether the code of an operation may stand once.
pub(crate) fn is_shaped(i: &Ir) -> bool
    ensures { result ≡ is_shaped (plain_ir i.now) }
{
    match i {
        Ir::Bin {
            op,
            ty,
            mode,
            aty,
            bty,
            ..
        } => {
            if are_exact(*op, *mode, ty, aty, bty) {
                return false;
            }
            if is_fixed(ty) || is_fixed(aty) || is_fixed(bty) {
                return true;
            }
            if is_pointer(ty) || is_pointer(aty) || is_pointer(bty) {
                return false;
            }
            matches!(*op, BinOp::Div | BinOp::Rem)
        }
        Ir::Un { ty, .. } => is_fixed(ty),
        Ir::Conv { ty, aty, .. } => (is_fixed(ty) || is_fixed(aty)) && !ty.is_same(aty),
        _ => false,
    }
}

fn unary_number(op: UnOp) -> u8
    ensures { result ≡ unary_number op }
{
    match op {
        UnOp::Minus => 0,
        UnOp::Invert => 1,
    }
}

fn binary_number(op: BinOp) -> u8
    ensures { result ≡ binary_number op }
{
    match op {
        BinOp::Add => 0,
        BinOp::Sub => 1,
        BinOp::Mul => 2,
        BinOp::Div => 3,
        BinOp::Rem => 4,
        BinOp::Shl => 5,
        BinOp::Shr => 6,
        BinOp::And => 7,
        BinOp::Or => 8,
        BinOp::Xor => 9,
        BinOp::Lt => 10,
        BinOp::Gt => 11,
        BinOp::Le => 12,
        BinOp::Ge => 13,
        BinOp::Eq => 14,
        BinOp::Ne => 15,
    }
}

fn same_mode(m: Mode, n: Mode) -> bool
    ensures { result ≡ same_mode m n }
{
    m.saturate == n.saturate
}

/// Whether two operations, whose code may stand once, have one shape.
pub(crate) fn same_shape(i: &Ir, j: &Ir) -> bool
    requires one { is_shaped (plain_ir i.now) ≡ true }
    requires other { is_shaped (plain_ir j.now) ≡ true }
    ensures { result ≡ same_shape (shape_of (plain_ir i.now)) (shape_of (plain_ir j.now)) }
{
    match i {
        Ir::Bin {
            op,
            ty,
            mode,
            aty,
            bty,
            ..
        } => match j {
            Ir::Bin {
                op: operator,
                ty: result,
                mode: also,
                aty: left,
                bty: right,
                ..
            } => {
                let types = ty.is_same(result) & aty.is_same(left) & bty.is_same(right);
                (binary_number(*op) == binary_number(*operator)) & types & same_mode(*mode, *also)
            }
            _ => false,
        },
        Ir::Un { op, ty, mode, .. } => match j {
            Ir::Un {
                op: operator,
                ty: result,
                mode: also,
                ..
            } => {
                let operators = unary_number(*op) == unary_number(*operator);
                operators & ty.is_same(result) & same_mode(*mode, *also)
            }
            _ => false,
        },
        Ir::Conv { ty, mode, aty, .. } => match j {
            Ir::Conv {
                ty: result,
                mode: also,
                aty: from,
                ..
            } => ty.is_same(result) & aty.is_same(from) & same_mode(*mode, *also),
            _ => false,
        },
        _ => false,
    }
}
