//! From sources and a map to a placed image.
ghost use Rattle.std.specs.Prelude.{◌≡◌, ◌<◌, ◌≤◌, ◌^◌, All, IfOk, IfErr, length, map as each};
ghost use Rattle.ec_build.specs.Accepted.{IsAccepted};
ghost use Rattle.ec_asm.specs.declared.items.AsmProgram.{AsmProgram};
ghost use Rattle.ec_core.specs.Plain.{plain_program};
ghost use Rattle.ec_core.specs.Valid.{Valid};
ghost use Rattle.ec_map.specs.Maps.{ValidMap};
ghost use Rattle.ec_build.specs.Builds.{IsBuilt, IsImageOf};
ghost use Rattle.ec_build.specs.Causes.{HasCause};
ghost use Rattle.ec_build.specs.Placing.{HasCauseOfPlacing};

use crate::codes::{code_of, shortened};
use crate::maps::map_of;
use crate::places::placed;
use crate::programs::program_of;
use crate::reaches::reaches_by;
use crate::stop::BuildStop;
use crate::units::units_of;
use ec_build_laws::programs_show_their_sources;
use ec_core::Program;
use ec_lex_laws::texts_hold_numbers;
use ec_locate::Located;
use ec_map::Map;
use ec_space::Seq;
use std::alloc::Global;

/// A program, the map by which it was placed, and where it stands.
#[derive(Drop)]
pub struct Built {
    pub program: Program,
    pub map: Map,
    pub located: Located,
}

/// Takes what was built and is needed no more.
pub fn discard(built: Built) {
    ec_check::discard(built.program);
}

/// Where a program stands by a map, with its code shortened by the places of its objects.
fn located_by(alloc: Global, program: &Program, map: &Map) -> Result<Located, BuildStop>
    requires valid { Valid (plain_program program.now) map.now.io }
    requires map { ValidMap map.now }
    ensures image { IfOk result (λ l. (asm : AsmProgram) × IsImageOf (plain_program program.now) map.now asm l) }
    ensures stopped { IfErr result (HasCauseOfPlacing (plain_program program.now) map.now) }
{
    programs_show_their_sources();
    let long = code_of(alloc, program, map)?;
    let reaches = reaches_by(alloc, program, &long, map)?;
    let asm = shortened(alloc, reaches.as_slice(), long)?;
    placed(alloc, program, &asm, map)
}

/// What `build` answers.
fn answer(alloc: Global, sources: &Seq<Seq<u8>>, map: &Seq<u8>) -> Result<Built, BuildStop>
    requires some { 1 ≤ length sources.now.items }
    requires most { length sources.now.items ≤ 16 }
    requires short { All (λ s. length s.items < 2 ^ 32) sources.now.items }
    ensures built { IfOk result (IsBuilt (each (λ s. s.items) sources.now.items) map.now.items) }
    ensures stopped { IfErr result (HasCause (each (λ s. s.items) sources.now.items) map.now.items) }
{
    let map = map_of(alloc, map)?;
    let units = match units_of(alloc, sources) {
        Ok(units) => units,
        Err(stop) => {
            drop(map);
            return Err(stop);
        }
    };
    texts_hold_numbers();
    let checked = program_of(alloc, &units, &map);
    ec_parse_sources::discard(units);
    let program = match checked {
        Ok(program) => program,
        Err(stop) => {
            drop(map);
            return Err(stop);
        }
    };
    match located_by(alloc, &program, &map) {
        Ok(located) => Ok(Built {
            program,
            map,
            located,
        }),
        Err(stop) => {
            drop(map);
            ec_check::discard(program);
            Err(stop)
        }
    }
}

/// Compiles the sources and places their program by a map.
///
/// The answer is the program of the sources with its image, or the first cause why there is none: the map; the first
/// unit whose text has a fault; the first whose tokens have no tree; a limit, a constraint or recursion; the places.
/// Where nothing stands against the sources and the map, only running out of memory keeps it from an answer.
///
/// `NoMemory` also where the code has more than 4,294,967,295 items.
pub fn build(alloc: Global, sources: &Seq<Seq<u8>>, map: &Seq<u8>) -> Result<Built, BuildStop>
    requires some { 1 ≤ length sources.now.items }
    requires most { length sources.now.items ≤ 16 }
    requires short { All (λ s. length s.items < 2 ^ 32) sources.now.items }
    ensures built { IfOk result (IsBuilt (each (λ s. s.items) sources.now.items) map.now.items) }
    ensures stopped { IfErr result (HasCause (each (λ s. s.items) sources.now.items) map.now.items) }
    ensures complete { IsAccepted (each (λ s. s.items) sources.now.items) map.now.items
        → IfErr result (λ stop. stop ≡ BuildStop.NoMemory) }
{
    answer(alloc, sources, map)
}
