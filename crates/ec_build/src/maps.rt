//! The map of a build.
ghost use Rattle.std.specs.Prelude.{IfOk, IfErr};
ghost use Rattle.ec_build.specs.MapTexts.{IsMapText, StopsMap};

use crate::stop::BuildStop;
use ec_map::{Map, MapStop, read_map};
use ec_space::Seq;
use std::alloc::Global;

/// The map of a text.
pub(crate) fn map_of(alloc: Global, text: &Seq<u8>) -> Result<Map, BuildStop>
    ensures read { IfOk result (IsMapText text.now.items) }
    ensures stopped { IfErr result (StopsMap text.now.items) }
{
    match read_map(alloc, text) {
        Ok(map) => Ok(map),
        Err(MapStop::NoMemory) => Err(BuildStop::NoMemory),
        Err(stop) => Err(BuildStop::Map(stop)),
    }
}
