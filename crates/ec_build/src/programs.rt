//! The typed program of a build.
ghost use Rattle.std.specs.Prelude.{◌≤◌, IfOk, IfErr, length, map as each};
ghost use Rattle.ec_core.specs.Plain.{plain_program};
ghost use Rattle.ec_core.specs.Valid.{Valid};
ghost use Rattle.ec_grammar.specs.Views.{view_tree};
ghost use Rattle.ec_iohw.specs.Valid.{ValidIo};
ghost use Rattle.ec_check.specs.Laws.{AreShort};
ghost use Rattle.ec_check.specs.Validity.{HoldNumbers};
ghost use Rattle.ec_build.specs.Builds.{IsProgram};
ghost use Rattle.ec_build.specs.Causes.{StopsChecking};

use crate::stop::BuildStop;
use ec_check::{CheckStop, check};
use ec_core::Program;
use ec_map::Map;
use ec_parse::Tree;
use ec_space::Seq;
use std::alloc::Global;

/// The typed program of the units.
pub(crate) fn program_of(alloc: Global, units: &Seq<Tree>, map: &Map) -> Result<Program, BuildStop>
    requires io { ValidIo map.now.io }
    requires some { 1 ≤ length units.now.items }
    requires most { length units.now.items ≤ 16 }
    ensures program { IfOk result (λ p. IsProgram (each view_tree units.now.items) map.now.io (plain_program p)) }
    ensures valid { HoldNumbers (each view_tree units.now.items) → AreShort (each view_tree units.now.items)
        → IfOk result (λ p. Valid (plain_program p) map.now.io) }
    ensures stopped { IfErr result (StopsChecking (each view_tree units.now.items) map.now.io) }
{
    match check(alloc, units, &map.io) {
        Ok(program) => Ok(program),
        Err(CheckStop::NoMemory) => Err(BuildStop::NoMemory),
        Err(stop) => Err(BuildStop::Check(stop)),
    }
}
