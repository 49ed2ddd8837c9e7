//! Comparisons of fixed-point numbers.
ghost use Rattle.std.specs.Prelude.{◌≡◌, ◌++◌, OnOk, OnErr};
ghost use Rattle.ec_runs.specs.Behaviours.{BeginWith};
ghost use Rattle.ec_asm.specs.Pieces.{HasBytes};
ghost use Rattle.ec_fxcode_quotients.specs.QuotientLaws.{IsOperandFormat};
ghost use Rattle.ec_fxcode_sums.specs.Orders.{order_code};
ghost use Rattle.ec_fxcode_sums.specs.Operands.{IsOperand};

use crate::aligned::{Operand, align, aligned_bytes, second_at};
use ec_asm::{AsmItem, Location};
use ec_select_order::{Relation, relate};
use ec_space::{NoMemory, Seq};

/// Appends code that leaves 1 in R30 where the exact value of the first operand stands in the relation to that of the
/// second one, and else 0. It needs no label, and at most 26 of the 40 work bytes. Where memory runs out, a part of the
/// code is appended.
pub fn order(
    out: &mut Seq<AsmItem>,
    relation: Relation,
    first: Operand,
    second: Operand,
    work: Location,
) -> Result<(), NoMemory>
    requires first_format { IsOperandFormat first.format }
    requires first { IsOperand first }
    requires second_format { IsOperandFormat second.format }
    requires second { IsOperand second }
    requires work { HasBytes work 40 }
    ensures ok { OnOk result (out.new.items ≡ out.old.items
        ++ order_code relation first.format second.format first.at second.at work first.bytes second.bytes) }
    ensures err { OnErr result (BeginWith out.old.items out.new.items) }
{
    let wide = aligned_bytes(first, second);
    let other = second_at(work);
    align(out, first, second, work, wide)?;
    relate(out, relation, true, work, other, wide)
}
