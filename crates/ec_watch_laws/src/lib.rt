//! What a watch finds in the run of a placed program is what its source writes.
//!
//! `specs/Watched.antt` says how a run with a watch stands to the source. Each function proves a law, and does nothing.
#![tactic(auto)]

ghost use Rattle.ec_watch_laws.specs.Laws.{PlacedHavePlaces, WatchedRunsKeepSources};

use ec_avr::steps_are_of_instructions;
use ec_avr_accesses::runs_change_as_told;
use ec_build_laws::{programs_show_their_sources, shortened_code_is_valid};
use ec_core::leaves_fill_their_types;
use ec_core_numbers::writes_hold_numbers;
use ec_locate::data_stands_apart;
use ec_lower_code::lowered_is_made_of_its_program;
use ec_select::selections_are_valid;

/// Each object of a placed program has a place, and the static objects of the data bank lie below address 65,536. So
/// `ec_watch_points::point_at` can be called with them.
pub fn placed_have_places()
    ensures { PlacedHavePlaces }
{
    data_stands_apart();
    lowered_is_made_of_its_program();
    selections_are_valid();
    shortened_code_is_valid();
}

/// A run of a placed program that stops at a number has made all that its source does up to the first write of this
/// number of which the rule holds, and with it; the value is the one that the source writes. A run that ended or made
/// all its steps has no such write. So it is from every reset state, on all inputs that begin with the bytes that were
/// read and under which the source is defined; then no run ends in a fault.
pub fn watched_runs_keep_sources()
    ensures { WatchedRunsKeepSources }
{
    data_stands_apart();
    leaves_fill_their_types();
    lowered_is_made_of_its_program();
    programs_show_their_sources();
    runs_change_as_told();
    selections_are_valid();
    shortened_code_is_valid();
    steps_are_of_instructions();
    writes_hold_numbers();
}
