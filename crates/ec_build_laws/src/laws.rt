//! The law of lowered programs: the function proves it, and does nothing.
ghost use Rattle.ec_build_laws.specs.Laws.{KindsAreTold, KindsFit, PlacedAreLaidOut};
ghost use Rattle.ec_build_laws.specs.Runs.{ImagesRun, ImagesRunAsSources};
ghost use Rattle.ec_build_laws.specs.Shortened.{ShortenedIsValid};
ghost use Rattle.ec_build_laws.specs.Shown.{ImagesShowTheirSources};
ghost use Rattle.ec_build_laws.specs.Spaces.{NotedAreOfObjects, EventsStayInSpaces};
ghost use Rattle.ec_build_laws.specs.Whole.{ProgramsShowTheirSources};
ghost use Rattle.ec_build_laws.specs.Laws.{LoweredProgramsHaveCode};

use ec_asm::laws::{machine_runs_as_view, placed_items_stand, stack_stays_inside};
use ec_asm_accesses::accesses_are_allowed;
use ec_asm_based::laws::{based_code_stands, based_items_are_short, based_items_are_valid};
use ec_asm_near::laws::{near_code_stands, near_items_are_short, near_items_are_valid};
use ec_avr::{runs_are_steps, steps_are_of_instructions};
use ec_core::{events_are_at_home, more_turns_only_add, parts_only_add};
use ec_core_accesses::{accesses_are_live, port_bytes_pass, sources_access_ports};
use ec_locate::{
    code_stands, data_stands_apart, flash_stands_apart, initial_values_stand, placed_stand_apart,
};
use ec_lower_code::{lowered_follows, lowered_is_made_of_its_program, operations_stay_on_ports};
use ec_select::{operations_have_code, selections_are_valid, selections_run};

/// Code that can be placed can be placed shortened, and has no more words then.
pub fn shortened_code_is_valid()
    ensures { ShortenedIsValid }
{
    based_items_are_short();
    based_items_are_valid();
    near_items_are_short();
    near_items_are_valid();
}

/// What stands at each data address of a placed program: registers but Y's, scratch memory and work bytes are code's own, the
/// bytes of region `stack` are the stack's, and the bytes of objects are told to be such. No other bytes are told to be
/// any of these, and RAMPZ is told where the core has it. All of it suits the data addresses and the flash of the map's
/// core.
pub fn kinds_are_told()
    ensures told { KindsAreTold }
    ensures fit { KindsFit }
{
    data_stands_apart();
}

/// The code of a placed program, its objects and its stack stand as the code asks, behind what sets Y where that holds a
/// base.
pub fn placed_are_laid_out()
    ensures { PlacedAreLaidOut }
{
    based_code_stands();
    based_items_are_valid();
    near_code_stands();
    shortened_code_is_valid();
    code_stands();
    data_stands_apart();
    flash_stands_apart();
    initial_values_stand();
    lowered_is_made_of_its_program();
    placed_items_stand();
    placed_stand_apart();
    selections_are_valid();
}

/// From every reset state a placed program does what its operations do: the machine comes to where `main` begins, and
/// from there on shows all that the operations do, within the steps that they may take, and never more, as long as they
/// access none but ports of the machine.
pub fn images_run()
    ensures { ImagesRun }
{
    kinds_are_told();
    placed_are_laid_out();
    lowered_is_made_of_its_program();
    machine_runs_as_view();
    selections_run();
    stack_stays_inside();
    steps_are_of_instructions();
}

/// From every reset state a placed program does what its source does: from `main` on the machine shows all that the
/// source shows, within its work, and never more.
pub fn images_run_as_sources()
    ensures { ImagesRunAsSources }
{
    images_run();
    kinds_are_told();
    lowered_follows();
    lowered_is_made_of_its_program();
    port_bytes_pass();
    runs_are_steps();
    selections_are_valid();
    shortened_code_is_valid();
    sources_access_ports();
    stack_stays_inside();
}

/// From every reset state the machine of a placed program comes to `main` in a few steps. Before the call of `main` it
/// accesses nothing but registers, the initial bytes, which it copies, and objects of zeros, which it clears. Then it
/// comes to each part of what the source shows, within its work, and each of its steps stays within the source; what it
/// pushes and pops are bytes of region `stack`, up to `main` in any case, and from there on where the source has a
/// meaning.
pub fn images_show_their_sources()
    ensures { ImagesShowTheirSources }
{
    images_run_as_sources();
    kinds_are_told();
    lowered_is_made_of_its_program();
    more_turns_only_add();
    runs_are_steps();
    selections_are_valid();
    shortened_code_is_valid();
    stack_stays_inside();
}

/// Each access that is noted of the machine is one of a port, or of a byte of an object in the bank where that is kept.
/// The accesses of an event are those of the bytes of its leaf, and the home of its object is in its space.
pub fn accesses_stay_in_spaces()
    ensures noted { NotedAreOfObjects }
    ensures events { EventsStayInSpaces }
{
    kinds_are_told();
    lowered_is_made_of_its_program();
    selections_are_valid();
    shortened_code_is_valid();
    events_are_at_home();
}

/// From every reset state the machine of a placed program comes to `main` in a few steps. Before the call of `main`,
/// which is its first access of the stack, it accesses nothing but registers, the initial bytes, which it copies, and
/// objects of zeros, which it clears. From `main` on all that is kept of its trace, where code's scratch memory and work
/// bytes and what is pushed and popped count for nothing, is what the source shows: each part of it is reached within its
/// work, and each step stays within it. Each of these accesses is of a byte of its event's object, in the bank that is its
/// home. Wherever the source reads or writes an object, it is live in the state of that moment. What is pushed and popped
/// are bytes of region `stack`, up to `main` in any case, and from there on where the source has a meaning.
pub fn programs_show_their_sources()
    ensures { ProgramsShowTheirSources }
{
    accesses_are_allowed();
    accesses_are_live();
    based_code_stands();
    based_items_are_valid();
    code_stands();
    data_stands_apart();
    events_are_at_home();
    flash_stands_apart();
    initial_values_stand();
    lowered_follows();
    lowered_is_made_of_its_program();
    machine_runs_as_view();
    more_turns_only_add();
    near_code_stands();
    placed_items_stand();
    placed_stand_apart();
    port_bytes_pass();
    parts_only_add();
    runs_are_steps();
    selections_are_valid();
    selections_run();
    shortened_code_is_valid();
    sources_access_ports();
    stack_stays_inside();
    steps_are_of_instructions();
}

/// The operations of a valid program have code, and put the result of a bitwise operator to the place of its first
/// operand. Then `ec_select::select` can be called with them.
pub fn lowered_programs_have_code()
    ensures { LoweredProgramsHaveCode }
{
    lowered_is_made_of_its_program();
    operations_stay_on_ports();
    operations_have_code();
}
