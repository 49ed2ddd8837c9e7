//! The law of whole programs.
ghost use Rattle.ec_select_reset.specs.Laws.{ProgramsShowTheirOperations};

use ec_asm::laws::machine_runs_as_view;
use ec_asm_accesses::accesses_are_allowed;
use ec_avr::steps_are_of_instructions;
use ec_select_functions::code_follows_operations;
use ec_select_startup::laws::startup_is_right;

/// A machine that stands at the first word of the startup code of a valid program comes in at most so many steps to
/// where `main` begins. Before the call of `main` it accesses nothing but registers, the initial bytes, which it copies,
/// and the bytes that it clears; no step before the call pushes or pops. From there on it shows all that the operations
/// do, within the steps that they may take, and never more; it ends where `main` returns, with its result. Nothing rests
/// on what memory held before.
pub fn programs_show_their_operations()
    ensures { ProgramsShowTheirOperations }
{
    accesses_are_allowed();
    startup_is_right();
    steps_are_of_instructions();
    machine_runs_as_view();
    code_follows_operations();
}
