//! Calls of routines.
ghost use Rattle.std.specs.Prelude.{◌≡◌, ◌≤◌, ◌++◌, OnOk, OnErr};
ghost use Rattle.ec_runs.specs.Behaviours.{BeginWith};
ghost use Rattle.ec_asm.specs.Pieces.{HasBytes};
ghost use Rattle.ec_select_routines.specs.Codes.{call_with_one, call_with_two};

use crate::places::{first_place, second_place};
use ec_asm::{AsmItem, Location, copy};
use ec_space::{NoMemory, Seq};

/// Appends code that brings an operand of so many bytes to its place and calls the routine with a label. Where memory
/// runs out, a part of it is appended.
pub fn call_with_one(
    out: &mut Seq<AsmItem>,
    from: Location,
    bytes: u8,
    label: u64,
) -> Result<(), NoMemory>
    requires from { HasBytes from bytes }
    requires few { bytes ≤ 8 }
    ensures ok { OnOk result (out.new.items ≡ out.old.items ++ call_with_one from bytes label) }
    ensures err { OnErr result (BeginWith out.old.items out.new.items) }
{
    copy(out, from, first_place(), bytes)?;
    out.push(AsmItem::CallTo(label))
}

/// Appends code that brings two operands of so many bytes to their places and calls the routine with a label. Where
/// memory runs out, a part of it is appended.
pub fn call_with_two(
    out: &mut Seq<AsmItem>,
    left: Location,
    right: Location,
    left_bytes: u8,
    right_bytes: u8,
    label: u64,
) -> Result<(), NoMemory>
    requires left { HasBytes left left_bytes }
    requires right { HasBytes right right_bytes }
    requires few_left { left_bytes ≤ 8 }
    requires few_right { right_bytes ≤ 8 }
    ensures ok { OnOk result (out.new.items ≡ out.old.items
        ++ call_with_two left right left_bytes right_bytes label) }
    ensures err { OnErr result (BeginWith out.old.items out.new.items) }
{
    copy(out, left, first_place(), left_bytes)?;
    copy(out, right, second_place(), right_bytes)?;
    out.push(AsmItem::CallTo(label))
}
