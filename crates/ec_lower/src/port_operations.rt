//! What the operations on ports do, and where their operands stand.
ghost use Rattle.std.specs.Prelude.{◌≡◌, IfOk};
ghost use Rattle.std.specs.Option.{option_copied};
ghost use Rattle.ec_core.specs.Plain.{plain_type};
ghost use Rattle.ec_core.specs.PortOperations.{is_update, port_operation};
ghost use Rattle.ec_core.specs.Typing.{port_value};
ghost use Rattle.ec_lower.specs.Emits.{plain_action, plain_operand};
ghost use Rattle.ec_lower_code.specs.Code.{place_behind, operand_temp, port_operator};

use crate::emit::{above, temp};
use ec_core::{BinOp, CType, Expr};
use ec_iohw::IoOp;
use ec_ir::Temp;
use ec_space::NoMemory;

/// What an operation does with the bytes of its port.
#[derive(Clone, Copy)]
pub enum Action {
    Reads,
    Writes,
    Updates,
}

/// What this operation does with them.
pub fn action_of(op: IoOp) -> Action
    ensures { plain_action result ≡ (port_operation op).action }
{
    match op {
        IoOp::Read | IoOp::ReadLong | IoOp::ReadBuffer | IoOp::ReadBufferLong => Action::Reads,
        IoOp::Write | IoOp::WriteLong | IoOp::WriteBuffer | IoOp::WriteBufferLong => Action::Writes,
        _ => Action::Updates,
    }
}

/// Whether an operation reads the bytes of its port and writes them again.
pub fn is_update(op: IoOp) -> bool
    ensures { result ≡ is_update (port_operation op).action }
{
    match action_of(op) {
        Action::Reads | Action::Writes => false,
        Action::Updates => true,
    }
}

/// The operator of an update.
pub fn operator_of(op: IoOp) -> BinOp
    ensures { result ≡ port_operator op }
{
    match op {
        IoOp::Or | IoOp::OrLong | IoOp::OrBuffer | IoOp::OrBufferLong => BinOp::Or,
        IoOp::And | IoOp::AndLong | IoOp::AndBuffer | IoOp::AndBufferLong => BinOp::And,
        _ => BinOp::Xor,
    }
}

fn is_long(op: IoOp) -> bool
    ensures { result ≡ (port_operation op).long }
{
    match op {
        IoOp::Read | IoOp::ReadBuffer | IoOp::Write | IoOp::WriteBuffer => false,
        IoOp::Or | IoOp::OrBuffer | IoOp::And | IoOp::AndBuffer | IoOp::Xor | IoOp::XorBuffer =>
            false,
        _ => true,
    }
}

/// The type of the values of an operation.
pub fn value_type(op: IoOp) -> CType
    ensures { plain_type result ≡ port_value (port_operation op) }
{
    if is_long(op) {
        CType::Int {
            signed: false,
            bytes: 4,
        }
    } else {
        CType::Int {
            signed: false,
            bytes: 2,
        }
    }
}

/// The place behind an operand that may be absent.
pub fn place_behind(e: Option<&Expr>, t: u16) -> Result<u16, NoMemory>
    ensures { IfOk result (λ u. u ≡ place_behind (plain_operand (option_copied e.entry)) t) }
{
    match e {
        None => Ok(t),
        Some(_) => above(t),
    }
}

/// The temporary of an operand that may be absent.
pub fn operand_temp(e: Option<&Expr>, t: u16) -> Option<Temp>
    ensures { result ≡ operand_temp (plain_operand (option_copied e.entry)) t }
{
    match e {
        None => None,
        Some(e) => Some(temp(t, &e.ty)),
    }
}
