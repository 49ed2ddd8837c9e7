//! What the pieces of code do.
ghost use Rattle.ec_select_places.specs.Numbers.{PlacesAreNumbers, OffsetsAreLow};
ghost use Rattle.ec_select_places.specs.StepLaws.{IndexesAreScaled, PointersAreAdvanced, PointersAreCompared};
ghost use Rattle.ec_select_places.specs.IndexLaws.{IndexesAreAdded, IndexesAreShort, IndexesAreValid, IndexesHaveNoLabel};
ghost use Rattle.ec_select_places.specs.ConversionLaws.{PointersAreEmbedded, PointersAreNarrowed, EmbeddingsKeepPlaces};
ghost use Rattle.ec_select_places.specs.Form.{StepsAreShort, ConversionsAreShort, OrdersHaveWords};
ghost use Rattle.ec_select_places.specs.Form.{StepsAreValid, OrdersAreValid, ConversionsAreValid, PlacesHaveNoLabel};
ghost use Rattle.ec_select_places.specs.DistanceLaws.{DistancesAreRight, ElementsAreRight};
ghost use Rattle.ec_select_places.specs.Form.{DistancesAreShort, DistancesAreValid, DistancesHaveNoLabel};
ghost use Rattle.ec_select_places.specs.Form.{ElementsAreShort, ElementsAreValid};
ghost use Rattle.ec_select_places.specs.Form.{ElementsHaveNoLabel};
ghost use Rattle.ec_select_places.specs.FarLaws.{FarPlacesFit, FarPlacesAreNumbers, FarPlacesAreInOrder};
ghost use Rattle.ec_select_places.specs.FarLaws.{FarPointersAreAdvanced, FarElementsAreRight, FarPointersAreCompared};
ghost use Rattle.ec_select_places.specs.FarForm.{FarStepsAreShort, FarOrdersHaveWords, FarStepsAreValid};
ghost use Rattle.ec_select_places.specs.FarForm.{FarOrdersAreValid, FarPlacesHaveNoLabel};

use ec_asm::laws::{copies_are_right, numbers_are_their_bytes, operators_are_right};
use ec_select_bytes::laws::extensions_are_right;
use ec_select_order::laws::{relations_are_told, relations_have_words};

/// Pointers are equal where their numbers are, and have their offsets in the low two bytes. A pointer of two bytes and
/// the one of three bytes that it becomes point to the same place.
pub fn places_are_numbers()
    ensures equal { PlacesAreNumbers }
    ensures order { OffsetsAreLow }
    ensures embedded { EmbeddingsKeepPlaces }
{}

/// The code of `scale_index` leaves in R31:R30 a number of elements in bytes, modulo 65,536, and keeps all else but R0,
/// R1, R8 to R11 and the flags.
pub fn indexes_are_scaled()
    ensures { IndexesAreScaled }
{
    copies_are_right();
    extensions_are_right();
    numbers_are_their_bytes();
}

/// The code of `add_index` adds an index to the offset in a pointer, or subtracts it, modulo 65,536, where `can_add` holds,
/// and keeps all else but R0, R1, R26 and the flags.
pub fn indexes_are_added()
    ensures { IndexesAreAdded }
{
    numbers_are_their_bytes();
}

/// It is straight, and has so many steps and words. Its items can be placed, and have no labels.
pub fn indexes_are_formed()
    ensures short { IndexesAreShort }
    ensures valid { IndexesAreValid }
    ensures labels { IndexesHaveNoLabel }
{}

/// The code of `advance` adds R31:R30 to the offset in a pointer, or subtracts it, modulo 65,536, and keeps all else
/// but R0, R1 and the flags.
pub fn pointers_are_advanced()
    ensures { PointersAreAdvanced }
{
    operators_are_right();
}

/// The code of `distance` puts the elements between two offsets to two bytes, in two's complement, where `inverse` is
/// that of the odd part of an element's size, modulo 65,536. All else is kept but R0, R1, R8 to R11, R30, R31 and the
/// flags.
pub fn distances_are_right()
    ensures { DistancesAreRight }
{
    copies_are_right();
    operators_are_right();
}

/// Its items are straight and can be placed, and have no labels.
pub fn distances_are_formed()
    ensures short { DistancesAreShort }
    ensures valid { DistancesAreValid }
    ensures labels { DistancesHaveNoLabel }
{}

/// The code of `elements` puts the elements between two offsets to two bytes, in two's complement,
/// for elements of any size. All else is kept but R0, R1, R8 to R11, R30, R31 and the flags.
pub fn elements_are_right()
    ensures { ElementsAreRight }
{
    distances_are_right();
}

/// Its items are straight and can be placed, and have no labels.
pub fn elements_are_formed()
    ensures short { ElementsAreShort }
    ensures valid { ElementsAreValid }
    ensures labels { ElementsHaveNoLabel }
{}

/// From its first word to its end the code of `order` takes at most so many steps, and leaves in R30 whether the
/// relation holds of two pointers. All else is kept but the flags, R0 and R1.
pub fn pointers_are_compared()
    ensures { PointersAreCompared }
{
    numbers_are_their_bytes();
    relations_are_told();
}

/// The code of `embed` puts the tag of its bank behind a pointer of two bytes where it is not null, and 0 where it is, and
/// that of `narrow` puts the low two bytes of three. All else is kept but R0, R1, R30, R31 and the flags.
pub fn pointers_are_converted()
    ensures embedded { PointersAreEmbedded }
    ensures narrowed { PointersAreNarrowed }
{
    copies_are_right();
}

/// The code is straight but for that of `order`. It has at least and at most so many steps, and at most so many words.
pub fn places_are_short()
    ensures steps { StepsAreShort }
    ensures conversions { ConversionsAreShort }
    ensures orders { OrdersHaveWords }
{
    relations_have_words();
}

/// Its items can be placed, and have no labels.
pub fn places_are_valid()
    ensures steps { StepsAreValid }
    ensures orders { OrdersAreValid }
    ensures conversions { ConversionsAreValid }
    ensures labels { PlacesHaveNoLabel }
{}

/// Pointers of three bytes with whole addresses fit into these, are equal where their numbers are, and those of one bank
/// are in order where their numbers are.
pub fn far_places_are_numbers()
    ensures fit { FarPlacesFit }
    ensures equal { FarPlacesAreNumbers }
    ensures order { FarPlacesAreInOrder }
{}

/// The code of `advance_far` adds R31:R30, extended by its sign, to all three bytes of a pointer, or subtracts it, modulo
/// 2 to the power of 24, and keeps all else but R0, R1, R8 to R11 and the flags.
pub fn far_pointers_are_advanced()
    ensures { FarPointersAreAdvanced }
{
    operators_are_right();
}

/// The code of `elements` puts the elements between two whole addresses to two bytes, in two's complement: it looks at
/// the low two bytes of both. All else is kept but R0, R1, R8 to R11, R30, R31 and the flags.
pub fn far_elements_are_right()
    ensures { FarElementsAreRight }
{
    copies_are_right();
    operators_are_right();
}

/// From its first word to its end the code of `order_far` takes at most so many steps, and leaves in R30 whether the
/// relation holds of two pointers, by all their bytes. All else is kept but the flags, R0 and R1.
pub fn far_pointers_are_compared()
    ensures { FarPointersAreCompared }
{
    relations_are_told();
}

/// The code of `advance_far` is straight. Both have at most so many words, their items can be placed, and have no labels.
pub fn far_places_are_formed()
    ensures steps { FarStepsAreShort }
    ensures words { FarOrdersHaveWords }
    ensures valid_steps { FarStepsAreValid }
    ensures valid_orders { FarOrdersAreValid }
    ensures labels { FarPlacesHaveNoLabel }
{
    relations_have_words();
}
