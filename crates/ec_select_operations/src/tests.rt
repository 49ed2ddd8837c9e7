//! Tests whether a number is 0.
ghost use Rattle.std.specs.Prelude.{◌≡◌, ◌≤◌, ◌<◌, ◌+◌, ◌++◌, OnOk, OnErr};
ghost use Rattle.ec_runs.specs.Behaviours.{BeginWith};
ghost use Rattle.ec_asm.specs.Pieces.{HasBytes};
ghost use Rattle.ec_select_operations.specs.Tests.{joined_there_code, number_test};

use ec_asm::{AsmItem, Location};
use ec_isa::Instr;
use ec_select_bytes::test;
use ec_space::{NoMemory, Seq};

/// Appends code that joins so many bytes behind the first one of a number in registers to that one. Where memory runs out,
/// a part of the code is appended.
fn join_there(out: &mut Seq<AsmItem>, first: u8, count: u8) -> Result<(), NoMemory>
    requires some { count < 255 }
    requires there { first + (count + 1) ≤ 32 }
    ensures ok { OnOk result (out.new.items ≡ out.old.items ++ joined_there_code first count) }
    ensures err { OnErr result (BeginWith out.old.items out.new.items) }
{
    for i in 0..count {
        out.extend_from_slice(&[AsmItem::Plain(Instr::Or {
            d: first,
            r: first + (1 + i),
        })])?;
    }
    Ok(())
}

/// Appends code that leaves in Z whether a number of so many bytes is 0: in its first register, where it is free, which is
/// where nothing is needed of it any more. Where memory runs out, a part of the code is appended.
pub(crate) fn test_number(
    out: &mut Seq<AsmItem>,
    is_free: bool,
    at: Location,
    bytes: u8,
) -> Result<(), NoMemory>
    requires { HasBytes at bytes }
    ensures ok { OnOk result (out.new.items ≡ out.old.items ++ number_test is_free at bytes) }
    ensures err { OnErr result (BeginWith out.old.items out.new.items) }
{
    if !is_free {
        return test(out, at, bytes);
    }
    match at {
        Location::InRegisters(first) if bytes >= 2 => join_there(out, first, bytes - 1),
        _ => test(out, at, bytes),
    }
}
