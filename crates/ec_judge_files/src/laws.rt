//! The law of judged runs: it is proved by a function that does nothing.
ghost use Rattle.ec_judge_files.specs.Machines.{JudgedRunsAreTheMachines};

use ec_build_laws::images_show_their_sources;

/// Where a run meets no undefined point, the machine of the build does the same from every reset state: it ends with the
/// same result, or goes on where a loop is out of turns, in at most as many steps as those before `main` and the work of
/// the run, and its accesses of ports print the same lines.
pub fn judged_runs_are_the_machines()
    ensures { JudgedRunsAreTheMachines }
{
    images_show_their_sources();
}
