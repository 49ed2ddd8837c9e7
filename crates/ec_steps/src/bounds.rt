//! A number of steps within which a built program ends.
ghost use Rattle.std.specs.Prelude.{◌≡◌, ◌<◌, ◌+◌, ◌-◌, ◌^◌, ◌⊎◌, IfOk, IfErr, option_and_then};
ghost use Rattle.ec_core.specs.Plain.{plain_program};
ghost use Rattle.ec_core.specs.Valid.{Valid};
ghost use Rattle.ec_core_steps.specs.Costs.{held};
ghost use Rattle.ec_core_steps.specs.Laws.{LoopsAreCounted};
ghost use Rattle.ec_steps.specs.Bounds.{EndsInTime, StopsBound};
ghost use Rattle.ec_steps.specs.Ends.{most_steps};

use crate::laws::counted_programs_end_in_time;
use crate::starts::start_steps;
use crate::stop::BoundStop;
use ec_build::Built;
use ec_core::Program;
use ec_core_steps::{first_uncounted, most_work};
use ec_map::Map;
use std::alloc::Global;

/// The steps before `main` and those of the most work together, where 64 bits hold them.
fn sum_of(start: u64, work: Option<u64>) -> Option<u64>
    ensures { result ≡ option_and_then (λ words. held (start + words)) work }
{
    match work {
        Some(words) => start.checked_add(words),
        None => None,
    }
}

/// The number of steps of a program whose loops are counted.
fn steps_of(alloc: Global, program: &Program, map: &Map) -> Result<u64, BoundStop>
    requires { Valid (plain_program program.now) map.now.io }
    ensures number { IfOk result (λ n. n ≡ most_steps (plain_program program.now) map.now) }
    ensures stopped { IfErr result (λ stop. (stop ≡ BoundStop.NoMemory)
        ⊎ ((stop ≡ BoundStop.BoundTooLarge) × (2 ^ 64 - 1 < most_steps (plain_program program.now) map.now))) }
{
    let start = start_steps(program);
    let work = most_work(alloc, program, &map.io)?;
    match sum_of(start, work) {
        Some(steps) => Ok(steps),
        None => Err(BoundStop::BoundTooLarge),
    }
}

/// A number of steps within which the machine of a built program ends, from every reset state and for all inputs under
/// which the source is defined, with the result of the source: the steps before `main` and the most work of the program.
/// It is so for every image of the program by its map.
///
/// It is told where all loops of the functions that `main` reaches are counted and the number is at most
/// 18,446,744,073,709,551,615. Its time is about that of as many passes over the program as this has functions.
pub fn bound(alloc: Global, built: &Built) -> Result<u64, BoundStop>
    requires { Valid (plain_program built.now.program) built.now.map.io }
    ensures number { IfOk result (λ n. n ≡ most_steps (plain_program built.now.program) built.now.map) }
    ensures counted { IfOk result (λ _. LoopsAreCounted (plain_program built.now.program)) }
    ensures ends { IfOk result (EndsInTime (plain_program built.now.program) built.now.map) }
    ensures stopped { IfErr result (StopsBound (plain_program built.now.program) built.now.map) }
{
    counted_programs_end_in_time();
    let first = first_uncounted(alloc, &built.program)?;
    match first {
        Some(site) => Err(BoundStop::LoopNotCounted {
            unit: site.unit,
            token: site.at,
        }),
        None => steps_of(alloc, &built.program, &built.map),
    }
}
