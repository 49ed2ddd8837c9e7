//! The code of an operator whose second operand stands at the place of the result.
ghost use Rattle.std.specs.Prelude.{◌≡◌, ◌++◌, OnOk, OnErr};
ghost use Rattle.ec_runs.specs.Behaviours.{BeginWith};
ghost use Rattle.ec_asm.specs.Pieces.{HasBytes};
ghost use Rattle.ec_select_bytes.specs.Operators.{reversed_code};

use crate::complements::negate;
use ec_asm::{AsmItem, Location, Operator, operate};
use ec_space::{NoMemory, Seq};

/// Appends code that combines the number at `to` with the one at `a` before it, both of so many bytes. Where memory runs
/// out, a part of the code is appended.
pub fn combine_before(
    out: &mut Seq<AsmItem>,
    op: Operator,
    a: Location,
    to: Location,
    bytes: u8,
) -> Result<(), NoMemory>
    requires a { HasBytes a bytes }
    requires to { HasBytes to bytes }
    ensures ok { OnOk result (out.new.items ≡ out.old.items ++ reversed_code op a to bytes) }
    ensures err { OnErr result (BeginWith out.old.items out.new.items) }
{
    match op {
        Operator::Difference => {
            operate(out, op, a, to, bytes)?;
            negate(out, to, bytes)
        }
        _ => operate(out, op, a, to, bytes),
    }
}
