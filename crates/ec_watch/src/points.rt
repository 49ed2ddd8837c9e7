//! The numbers that can be watched.
ghost use Rattle.std.specs.Prelude.{IfOk};
ghost use Rattle.ec_core.specs.Plain.{plain_program};
ghost use Rattle.ec_watch_points.specs.Numbers.{IsPoint};
ghost use Rattle.ec_watch.specs.Watches.{IsPlaced};

use ec_build::Built;
use ec_emu_watch::WatchPoint;
use ec_space::{Name, NoMemory};
use ec_watch_laws::placed_have_places;
use ec_watch_points::point_at;
use std::alloc::Global;

/// The number of a built program that a name and the number of a leaf stand for: the leaf of the external static object
/// of that name in the data bank, if it is of integer or fixed-point type. None where there is no such number.
pub fn point(
    alloc: Global,
    built: &Built,
    name: &Name,
    leaf: u32,
) -> Result<Option<WatchPoint>, NoMemory>
    requires { IsPlaced built.now }
    ensures { IfOk result (IsPoint (plain_program built.now.program) built.now.located.places.items name.now.items leaf) }
{
    placed_have_places();
    point_at(alloc, &built.program, &built.located.places, name, leaf)
}
