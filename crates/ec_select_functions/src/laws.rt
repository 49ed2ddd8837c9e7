//! The laws of the code of operations: each function proves one, and does nothing.
ghost use Rattle.ec_select_functions.specs.Laws.{CodeFollowsOperations, HomesAreLaidOut};

use ec_asm::laws::{machine_runs_as_view, noted_runs_are_runs};
use ec_core::{bytes_are_taken_in_order, leaves_fill_their_types};
use ec_ir_known::known_numbers_are_held;
use ec_select_fixed::laws::{
    fixed_binaries_are_right, fixed_conversions_are_right, fixed_unaries_are_right,
};
use ec_select_numbers::laws::numbers_are_operands;
use ec_select_places::laws::{
    elements_are_formed, elements_are_right, far_elements_are_right, far_places_are_formed,
    far_places_are_numbers, far_pointers_are_advanced, far_pointers_are_compared,
    indexes_are_added, indexes_are_formed, indexes_are_scaled, places_are_numbers,
    places_are_short, pointers_are_advanced, pointers_are_compared, pointers_are_converted,
};
use ec_select_pointers::laws::{
    addresses_are_right, far_addresses_are_right, far_loads_are_right, far_loads_by_top_are_right,
    far_pointers_are_straight, fields_are_right, loads_are_right, loads_by_tag_are_right,
    loads_from_z_by_tag_are_right, pointers_are_straight, stores_are_right, tables_are_formed,
    tables_are_loaded,
};
use ec_select_routines::laws::{
    binary_routines_are_right, conversion_routines_are_right, quotient_routines_are_right,
    unary_routines_are_right,
};

/// A machine that stands where `main` begins, called from before a BREAK, with the objects' initial values in its
/// memory, comes to all that the operations do, in no more steps than they may take; it never runs ahead of them, ends
/// only where they end, and never fails, as long as they access none but ports of the machine. The functions are those
/// of a valid program, wherever their code, their scratch memory, the objects and the stack stand. The code of an
/// operation stands at its use, or calls a routine that stands once. Objects that are never live at one moment may share
/// bytes. It holds of the code for each core.
pub fn code_follows_operations()
    ensures { CodeFollowsOperations }
{
    machine_runs_as_view();
    noted_runs_are_runs();
    leaves_fill_their_types();
    bytes_are_taken_in_order();
    fixed_binaries_are_right();
    fixed_unaries_are_right();
    fixed_conversions_are_right();
    binary_routines_are_right();
    unary_routines_are_right();
    conversion_routines_are_right();
    quotient_routines_are_right();
    addresses_are_right();
    fields_are_right();
    loads_are_right();
    loads_by_tag_are_right();
    loads_from_z_by_tag_are_right();
    tables_are_loaded();
    tables_are_formed();
    stores_are_right();
    pointers_are_straight();
    indexes_are_scaled();
    indexes_are_added();
    indexes_are_formed();
    pointers_are_advanced();
    elements_are_right();
    elements_are_formed();
    places_are_numbers();
    pointers_are_compared();
    pointers_are_converted();
    places_are_short();
    far_addresses_are_right();
    far_loads_are_right();
    far_loads_by_top_are_right();
    far_pointers_are_straight();
    far_pointers_are_advanced();
    far_elements_are_right();
    far_places_are_numbers();
    far_pointers_are_compared();
    far_places_are_formed();
    numbers_are_operands();
    known_numbers_are_held();
}

/// In a valid program the homes of temporaries stand apart, and so do the leaves of objects that can be live at one
/// moment, wherever scratch memory and objects stand.
pub fn homes_are_laid_out()
    ensures { HomesAreLaidOut }
{
    leaves_fill_their_types();
}
