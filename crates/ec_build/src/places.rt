//! Where a program stands.
ghost use Rattle.std.specs.Prelude.{◌≡◌, ◌<◌, ◌^◌, IfOk, IfErr, length};
ghost use Rattle.ec_space.specs.Bytes.{AreBytes};
ghost use Rattle.ec_asm.specs.Valid.{ValidAsm};
ghost use Rattle.ec_core.specs.Plain.{plain_program};
ghost use Rattle.ec_core.specs.Valid.{Valid};
ghost use Rattle.ec_map.specs.Maps.{ValidMap};
ghost use Rattle.ec_locate.specs.Entries.{work_size};
ghost use Rattle.ec_locate.specs.Placing.{object_sizes, scratch_needs, IsLocated};
ghost use Rattle.ec_build.specs.Places.{StopsPlacing};

use crate::stop::BuildStop;
use ec_asm::AsmProgram;
use ec_build_laws::image_holds_bytes;
use ec_core::Program;
use ec_locate::{Located, PlaceStop, place};
use ec_map::Map;
use std::alloc::Global;

/// A program and its code, or no more than a label of it, placed by a map.
pub(crate) fn placed(
    alloc: Global,
    program: &Program,
    asm: &AsmProgram,
    map: &Map,
) -> Result<Located, BuildStop>
    requires valid { Valid (plain_program program.now) map.now.io }
    requires map { ValidMap map.now }
    requires frames { asm.now.frames.items ≡ scratch_needs (plain_program program.now) }
    requires code { ValidAsm (object_sizes (plain_program program.now)) (work_size map.now.io) asm.now }
    requires few { length asm.now.items.items < 2 ^ 32 }
    ensures located { IfOk result (λ l. IsLocated (plain_program program.now) map.now asm.now l
        × AreBytes l.image.bytes.items) }
    ensures stopped { IfErr result (StopsPlacing (plain_program program.now) map.now asm.now) }
{
    match place(alloc, program, asm, map) {
        Ok(located) => {
            image_holds_bytes(&located.image);
            Ok(located)
        }
        Err(PlaceStop::NoMemory) => Err(BuildStop::NoMemory),
        Err(stop) => Err(BuildStop::Place(stop)),
    }
}
