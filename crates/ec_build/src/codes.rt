//! The code of a program.
ghost use Rattle.std.specs.Prelude.{◌≡◌, ◌<◌, ◌^◌, IfOk, IfErr, length};
ghost use Rattle.ec_core.specs.Plain.{plain_program};
ghost use Rattle.ec_core.specs.Valid.{Valid};
ghost use Rattle.ec_space.specs.declared.Core.{Core};
ghost use Rattle.ec_iohw.specs.declared.table.IoTable.{IoTable};
ghost use Rattle.ec_core.specs.Plain.{PlainProgram};
ghost use Rattle.ec_build.specs.Code.{IsCodeOf, IsShortCodeOf, IsOutlineOf};

use crate::stop::BuildStop;
use ec_asm::{AsmItem, AsmProgram};
use ec_asm_based::{Reach, based};
use ec_asm_near::near;
use ec_build_laws::{lowered_programs_have_code, shortened_code_is_valid};
use ec_core::Program;
use ec_lower::{lower, read_groups};
use ec_map::Map;
use ec_select::select;
use ec_space::{NoMemory, Seq};
use std::alloc::Global;

/// The greatest number of items of code that can be placed.
const MOST_ITEMS: usize = 4_294_967_295;

/// The code of a program for the core of a map, in its long form.
pub(crate) fn code_of(alloc: Global, program: &Program, map: &Map) -> Result<AsmProgram, BuildStop>
    requires valid { Valid (plain_program program.now) map.now.io }
    ensures code { IfOk result (IsCodeOf map.now.core (plain_program program.now) map.now.io) }
    ensures stopped { IfErr result (λ stop. stop ≡ BuildStop.NoMemory) }
{
    lowered_programs_have_code();
    read_groups(&map.io);
    let ir = lower(alloc, program, &map.io)?;
    let asm = select(alloc, &ir, map.core)?;
    Ok(asm)
}

/// No more of some code than the label where it begins, with its scratch memory.
pub(crate) fn outline_of(alloc: Global, asm: &AsmProgram) -> Result<AsmProgram, NoMemory>
    ensures { IfOk result (IsOutlineOf asm.now) }
{
    let mut items = Seq::new(alloc);
    items.push(AsmItem::Label(asm.entry))?;
    let mut frames = Seq::new(alloc);
    frames.extend_from_slice(asm.frames.as_slice())?;
    Ok(AsmProgram {
        items,
        frames,
        entry: asm.entry,
    })
}

/// Code with bytes that stand near the base by Y, with near jumps, calls and branches in one word, and with branches to
/// other labels that RJMP reaches in two. `NoMemory` also for code of more than 4,294,967,295 items.
pub(crate) fn shortened(
    alloc: Global,
    reaches: &[Reach],
    long: AsmProgram,
) -> Result<AsmProgram, BuildStop>
    ensures code { (core : Core) (p : PlainProgram) (io : IoTable) → IsCodeOf core p io long
        → IfOk result (IsShortCodeOf core p io reaches.now) }
    ensures few { IfOk result (λ asm. length asm.items.items < 2 ^ 32) }
    ensures stopped { IfErr result (λ stop. stop ≡ BuildStop.NoMemory) }
{
    shortened_code_is_valid();
    let AsmProgram {
        items: long_items,
        frames,
        entry,
    } = long;
    let middle = based(alloc, reaches, &long_items)?;
    drop(long_items);
    let items = near(alloc, &middle)?;
    if items.len() > MOST_ITEMS {
        return Err(BuildStop::NoMemory);
    }
    Ok(AsmProgram {
        items,
        frames,
        entry,
    })
}
