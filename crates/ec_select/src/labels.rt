//! The homes of a function's temporaries, and its labels.
ghost use Rattle.std.specs.Prelude.{◌≡◌, ◌≤◌, map, IfOk};
ghost use Rattle.ec_ir.specs.Costs.{temp_bytes};
ghost use Rattle.ec_ir.specs.Operations.{plain_ir};
ghost use Rattle.ec_select.specs.Labels.{widest_temp, widest_temps, homes_of, label_bound, label_count};

use ec_ir::{Ir, Temp};
use ec_select_operations::Homes;
use ec_space::NoMemory;

fn temp_bytes(t: Option<Temp>) -> u8
    ensures { result ≡ temp_bytes t }
{
    match t {
        None => 0,
        Some(t) => t.bytes,
    }
}

/// The bytes of the widest temporary of an operation.
fn widest_temp(i: &Ir) -> u8
    ensures { result ≡ widest_temp (plain_ir i.now) }
{
    match i {
        Ir::Const(t, _)
        | Ir::Addr(t, _, _)
        | Ir::LoadObj(t, _, _)
        | Ir::StoreObj(_, _, t)
        | Ir::BranchZero(t, _)
        | Ir::LoadCell(t, _)
        | Ir::StoreCell(_, t) => t.bytes,
        Ir::Field { ptr, .. } => ptr.bytes,
        Ir::Copy(to, from) => to.bytes.max(from.bytes),
        Ir::Load { to, ptr, .. } => to.bytes.max(ptr.bytes),
        Ir::Store { ptr, from, .. } => ptr.bytes.max(from.bytes),
        Ir::Bin { to, a, b, .. } => to.bytes.max(a.bytes.max(b.bytes)),
        Ir::Un { to, a, .. } | Ir::Conv { to, a, .. } => to.bytes.max(a.bytes),
        Ir::Label(_) | Ir::Jump(_) => 0,
        Ir::Call(_, t) | Ir::Return(t) => temp_bytes(*t),
        Ir::PortIn { to, index, .. } => to.bytes.max(temp_bytes(*index)),
        Ir::PortOut { from, index, .. } => from.bytes.max(temp_bytes(*index)),
        Ir::CellPort { temp, index, .. } => temp.bytes.max(temp_bytes(*index)),
    }
}

fn widest_temps(code: &[Ir]) -> u8
    ensures { result ≡ widest_temps (map plain_ir code.now) }
{
    let mut bytes = 0;
    for k in (0..code.len()).rev() {
        bytes = widest_temp(&code[k]).max(bytes);
    }
    bytes
}

/// The homes of the temporaries of the function with number `f`, from 0 to 255.
pub(crate) fn homes_of(f: u16, code: &[Ir]) -> Homes
    requires { f ≤ 255 }
    ensures { result ≡ homes_of f (map plain_ir code.now) }
{
    Homes {
        width: if widest_temps(code) <= 2 { 2 } else { 4 },
        scratch: 1024 + f,
    }
}

/// A number above the label that an operation names, 0 where it names none.
fn label_bound(i: &Ir) -> Result<u64, NoMemory>
    ensures { IfOk result (λ n. n ≡ label_bound (plain_ir i.now)) }
{
    match i {
        Ir::Label(l) | Ir::Jump(l) | Ir::BranchZero(_, l) => match (*l).checked_add(1) {
            Some(n) => Ok(n),
            None => Err(NoMemory),
        },
        _ => Ok(0),
    }
}

/// A number above all labels that the operations name.
pub(crate) fn label_count(code: &[Ir]) -> Result<u64, NoMemory>
    ensures { IfOk result (λ n. n ≡ label_count (map plain_ir code.now)) }
{
    let mut count = 0u64;
    for k in (0..code.len()).rev() {
        let n = label_bound(&code[k])?;
        count = n.max(count);
    }
    Ok(count)
}
