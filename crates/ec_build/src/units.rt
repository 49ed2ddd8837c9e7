//! The units of a build.
ghost use Rattle.std.specs.Prelude.{◌≡◌, List, ◌≤◌, ◌<◌, ◌^◌, All, IfOk, IfErr, length, map};
ghost use Rattle.ec_grammar.specs.Trees as t;
ghost use Rattle.ec_grammar.specs.Views.{view_tree};
ghost use Rattle.ec_parse_sources.specs.Units.{AreUnits};
ghost use Rattle.ec_build.specs.Stops.{StopsReading};

use crate::stop::BuildStop;
use ec_parse_sources::{Tree, UnitStop};
use ec_space::Seq;
use std::alloc::Global;

/// The trees of the sources.
pub(crate) fn units_of(alloc: Global, sources: &Seq<Seq<u8>>) -> Result<Seq<Tree>, BuildStop>
    requires few { length sources.now.items ≤ 16 }
    requires short { All (λ s. length s.items < 2 ^ 32) sources.now.items }
    ensures units { IfOk result (λ trees. AreUnits (map (λ s. s.items) sources.now.items)
        (map view_tree trees.items)) }
    ensures only { IfOk result (λ trees. (others : List t.Tree)
        → AreUnits (map (λ s. s.items) sources.now.items) others → others ≡ map view_tree trees.items) }
    ensures stopped { IfErr result (StopsReading (map (λ s. s.items) sources.now.items)) }
{
    match ec_parse_sources::units_of(alloc, sources) {
        Ok(units) => Ok(units),
        Err(UnitStop::Lex { unit, stop }) => Err(BuildStop::Lex { unit, stop }),
        Err(UnitStop::Parse { unit, stop }) => Err(BuildStop::Parse { unit, stop }),
        Err(UnitStop::NoMemory) => Err(BuildStop::NoMemory),
    }
}
