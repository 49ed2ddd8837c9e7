//! The laws of the code of programs: each function proves one, and does nothing.
ghost use Rattle.ec_select.specs.Laws.{OperationsHaveCode, SelectionsAreValid, SelectionsHaveWords};
ghost use Rattle.ec_select.specs.Laws.{SelectionsRun};

use ec_asm::laws::parts_stand;
use ec_core::leaves_fill_their_types;
use ec_select_bytes::laws::{complements_are_straight, values_are_straight};
use ec_select_fixed::laws::{
    fixed_binaries_are_plain, fixed_binaries_are_short, fixed_conversions_are_plain,
    fixed_conversions_are_short, fixed_unaries_are_plain, fixed_unaries_are_short,
};
use ec_select_numbers::laws::numbers_are_operands;
use ec_select_order::laws::relations_have_words;
use ec_select_places::laws::{
    elements_are_formed, far_places_are_formed, indexes_are_formed, places_are_short,
    places_are_valid,
};
use ec_select_pointers::laws::{
    far_pointers_are_straight, far_pointers_are_valid, pointers_are_straight, pointers_are_valid,
    tables_are_formed,
};
use ec_select_products::laws::products_have_words;
use ec_select_reset::programs_show_their_operations;
use ec_select_routines::laws::routines_have_words;
use ec_select_shifts::laws::shifts_have_words;
use ec_select_startup::laws::{startup_has_words, startup_is_valid};

/// The operations of a valid program have code where no temporary has more than 8 bytes, the result of an operator on
/// integers is put to the place of its first operand, fixed-point operands have two places, and the bytes of ports are
/// at 0xFF or below. Then `select` can be called.
pub fn operations_have_code()
    ensures { OperationsHaveCode }
{
    leaves_fill_their_types();
}

/// The code of a program for a core can be placed, with the sizes of its objects and 64 work bytes, behind which is one for
/// each cell.
pub fn selections_are_valid()
    ensures { SelectionsAreValid }
{
    startup_is_valid();
    leaves_fill_their_types();
    fixed_binaries_are_plain();
    fixed_unaries_are_plain();
    fixed_conversions_are_plain();
    pointers_are_valid();
    tables_are_formed();
    far_pointers_are_valid();
    places_are_valid();
    indexes_are_formed();
    elements_are_formed();
    far_places_are_formed();
}

/// The code of a program whose operators have their results in place has at most the words of the rows of the program and
/// of its objects, and those that its operations may take, counted by shapes; and never more than where each counts by
/// itself.
pub fn selections_have_words()
    ensures { SelectionsHaveWords }
{
    values_are_straight();
    complements_are_straight();
    relations_have_words();
    products_have_words();
    shifts_have_words();
    fixed_binaries_are_short();
    fixed_unaries_are_short();
    fixed_conversions_are_short();
    pointers_are_straight();
    tables_are_formed();
    far_pointers_are_straight();
    places_are_short();
    indexes_are_formed();
    elements_are_formed();
    far_places_are_formed();
    numbers_are_operands();
    startup_has_words();
    routines_have_words();
}

/// A machine that begins at the first word of a program's code for its core shows what its operations do, wherever code, objects
/// and stack stand, and whatever memory holds: it comes to `main` with no accesses but those that copy initial bytes,
/// and from there on shows all that the operations do, within the steps that they may take, and never more, as long as
/// they access none but ports of the machine.
pub fn selections_run()
    ensures { SelectionsRun }
{
    startup_is_valid();
    leaves_fill_their_types();
    fixed_binaries_are_plain();
    fixed_unaries_are_plain();
    fixed_conversions_are_plain();
    pointers_are_valid();
    tables_are_formed();
    far_pointers_are_valid();
    places_are_valid();
    indexes_are_formed();
    elements_are_formed();
    far_places_are_formed();
    parts_stand();
    programs_show_their_operations();
}
