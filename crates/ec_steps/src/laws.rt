//! The law of machines that end in time. The function proves it, and does nothing.
ghost use Rattle.ec_steps.specs.Ends.{CountedProgramsEndInTime};

use ec_build_laws::programs_show_their_sources;
use ec_core_steps::counted_programs_are_bounded;

/// Where all loops of the functions that main reaches are counted, the source ends for all inputs under which it is
/// defined. The machine of the placed program then ends with its result from every reset state, within the steps before
/// main and the most work of the program.
pub fn counted_programs_end_in_time()
    ensures { CountedProgramsEndInTime }
{
    programs_show_their_sources();
    counted_programs_are_bounded();
}
