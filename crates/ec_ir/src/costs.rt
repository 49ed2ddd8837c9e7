//! What an operation may cost.
ghost use Rattle.std.specs.Prelude.{◌≡◌, ◌≤◌, max};
ghost use Rattle.ec_core.specs.Layout.{scalar_size};
ghost use Rattle.ec_core.specs.Plain.{plain_type};
ghost use Rattle.ec_core.specs.Words.{operation_words, simple_words};
ghost use Rattle.ec_space.specs.Spaces.{width};
ghost use Rattle.ec_ir.specs.Costs.{is_integer, is_bitwise, conversion_words, binary_words, index_words, temp_bytes};
ghost use Rattle.ec_ir.specs.Costs.{op_words, op_steps};
ghost use Rattle.ec_ir.specs.Operations.{plain_ir};

use crate::operations::{Ir, Temp};
use ec_core::{BinOp, CType};
use ec_space::SpaceId;

/// The bytes of a scalar type; 0 for any other.
pub fn scalar_size(ty: &CType) -> u8
    ensures { result ≡ scalar_size (plain_type ty.now) }
{
    match ty {
        CType::Int { bytes, .. } => *bytes,
        CType::Fx { kind, .. } => kind.format().bits / 8,
        CType::Ptr { space, .. } => match space {
            SpaceId::Flash | SpaceId::Data => 2,
            SpaceId::FarFlash | SpaceId::Generic => 3,
        },
        CType::Void | CType::Array { .. } | CType::Struct { .. } => 0,
    }
}

fn width(space: SpaceId) -> u8
    ensures { result ≡ width space }
{
    match space {
        SpaceId::Flash | SpaceId::Data => 2,
        SpaceId::FarFlash | SpaceId::Generic => 3,
    }
}

/// The bytes of a type, or these where they are more.
fn wider(ty: &CType, rest: u8) -> u8
    ensures { result ≡ max (scalar_size (plain_type ty.now)) rest }
{
    scalar_size(ty).max(rest)
}

fn operation_words(bytes: u8) -> u32
    ensures value { result ≡ operation_words bytes }
    ensures bound { result ≤ 2_700_000 }
{
    150 + 40 * bytes as u32 + 40 * (bytes as u32 * bytes as u32)
}

fn simple_words(bytes: u8) -> u32
    ensures value { result ≡ simple_words bytes }
    ensures bound { result ≤ 10_000 }
{
    30 + 10 * bytes as u32
}

fn is_integer(ty: &CType) -> bool
    ensures { result ≡ is_integer (plain_type ty.now) }
{
    matches!(ty, CType::Int { .. })
}

fn is_bitwise(op: BinOp) -> bool
    ensures { result ≡ is_bitwise op }
{
    matches!(op, BinOp::And | BinOp::Or | BinOp::Xor)
}

fn conversion_words(ty: &CType, from: &CType) -> u32
    ensures value { result ≡ conversion_words (plain_type ty.now) (plain_type from.now) }
    ensures bound { result ≤ 20_000 }
{
    let bytes = wider(ty, wider(from, 1)) as u32;
    if ty.is_same(from) || (is_integer(ty) && is_integer(from)) {
        10 * bytes
    } else {
        100 + 40 * bytes
    }
}

fn binary_words(op: BinOp, ty: &CType, aty: &CType, bty: &CType) -> u32
    ensures value { result ≡ binary_words op (plain_type ty.now) (plain_type aty.now) (plain_type bty.now) }
    ensures bound { result ≤ 2_700_000 }
{
    let bytes = wider(ty, wider(aty, wider(bty, 1)));
    if is_bitwise(op) && is_integer(ty) {
        10 * bytes as u32
    } else {
        operation_words(bytes)
    }
}

fn index_words(index: Option<Temp>) -> u32
    ensures value { result ≡ index_words index }
    ensures bound { result ≤ 40 }
{
    match index {
        None => 0,
        Some(_) => 40,
    }
}

fn temp_bytes(t: Option<Temp>) -> u32
    ensures value { result ≡ temp_bytes t }
    ensures bound { result ≤ 255 }
{
    match t {
        None => 0,
        Some(t) => t.bytes as u32,
    }
}

/// The words of code that an operation may take.
pub fn op_words(i: &Ir) -> u32
    ensures value { result ≡ op_words (plain_ir i.now) }
    ensures bound { result ≤ 2_700_000 }
{
    match i {
        Ir::Const(t, _) | Ir::Addr(t, _, _) | Ir::StoreObj(_, _, t) => 5 * t.bytes as u32,
        Ir::Copy(to, _) => 5 * to.bytes as u32,
        Ir::LoadObj(t, _, _) => 2 + 5 * t.bytes as u32,
        Ir::Field { .. } => 30,
        Ir::Load { to, space, .. } => simple_words(to.bytes.max(width(*space))),
        Ir::Store { from, space, .. } => 30 + 5 * from.bytes.max(width(*space)) as u32,
        Ir::Bin {
            op,
            ty,
            aty,
            bty,
            ..
        } => binary_words(*op, ty, aty, bty),
        Ir::Un { ty, .. } => 60 + 40 * scalar_size(ty) as u32,
        Ir::Conv { ty, aty, .. } => conversion_words(ty, aty),
        Ir::Label(_) => 0,
        Ir::Jump(_) => 5,
        Ir::BranchZero(t, _) => 6 + 3 * t.bytes as u32,
        Ir::Call(_, to) => 60 + 5 * temp_bytes(*to),
        Ir::Return(from) => 40 + 5 * temp_bytes(*from),
        Ir::PortIn {
            to,
            index,
            width,
            ..
        } => index_words(*index) + 10 * *width as u32 + 5 * to.bytes as u32,
        Ir::PortOut { index, width, .. } => index_words(*index) + 5 * *width as u32,
        Ir::LoadCell(t, _) | Ir::StoreCell(_, t) => 5 * t.bytes as u32,
        Ir::CellPort { temp, width, .. } => 40 + 10 * *width as u32 + 5 * temp.bytes as u32,
    }
}

/// The steps that an operation may take.
pub fn op_steps(i: &Ir) -> u32
    ensures { result ≡ op_steps (plain_ir i.now) }
{
    64 * op_words(i)
}
