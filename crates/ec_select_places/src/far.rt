//! Pointers of three bytes with whole addresses: moved by so many elements, and compared.
ghost use Rattle.std.specs.Prelude.{◌≡◌, ◌≤◌, ◌++◌, OnOk, OnErr};
ghost use Rattle.ec_runs.specs.Behaviours.{BeginWith};
ghost use Rattle.ec_asm.specs.Pieces.{HasBytes};
ghost use Rattle.ec_select_places.specs.Far.{extend_z, advance_far_code, order_far_code};

use ec_asm::{AsmItem, Location, Operator, operate};
use ec_isa::Instr;
use ec_select_order::{Relation, relate};
use ec_space::{NoMemory, Seq};

/// Appends code that extends R31:R30 by its sign to R10:R9:R8.
fn extend(out: &mut Seq<AsmItem>) -> Result<(), NoMemory>
    ensures ok { OnOk result (out.new.items ≡ out.old.items ++ extend_z) }
    ensures err { OnErr result (out.new.items ≡ out.old.items) }
{
    out.extend_from_slice(&[
        AsmItem::Plain(Instr::Movw { d: 8, r: 30 }),
        AsmItem::Plain(Instr::Mov { d: 10, r: 31 }),
        AsmItem::Plain(Instr::Add { d: 10, r: 10 }),
        AsmItem::Plain(Instr::Sbc { d: 10, r: 10 }),
    ])
}

/// Appends code that adds R31:R30, extended by its sign, to all three bytes of a pointer, or subtracts it where `minus`
/// is set, modulo 2 to the power of 24. Where memory runs out, a part of the code is appended.
pub fn advance_far(out: &mut Seq<AsmItem>, minus: bool, pointer: Location) -> Result<(), NoMemory>
    requires { HasBytes pointer 3 }
    ensures ok { OnOk result (out.new.items ≡ out.old.items ++ advance_far_code minus pointer) }
    ensures err { OnErr result (BeginWith out.old.items out.new.items) }
{
    let op = if minus {
        Operator::Difference
    } else {
        Operator::Sum
    };
    extend(out)?;
    operate(out, op, Location::InRegisters(8), pointer, 3)
}

/// Appends code that leaves 1 in R30 where the pointer at `left` stands in the relation to that at `right`, both of so
/// many bytes, by all of these, and else 0. Where memory runs out, a part of the code is appended.
pub fn order_far(
    out: &mut Seq<AsmItem>,
    relation: Relation,
    left: Location,
    right: Location,
    bytes: u8,
) -> Result<(), NoMemory>
    requires left { HasBytes left bytes }
    requires right { HasBytes right bytes }
    ensures ok { OnOk result (out.new.items
        ≡ out.old.items ++ order_far_code relation left right bytes) }
    ensures err { OnErr result (BeginWith out.old.items out.new.items) }
{
    relate(out, relation, false, left, right, bytes)
}
