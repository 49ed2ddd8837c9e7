//! What the code of conversions and of products does.
ghost use Rattle.ec_fxcode_conversions.specs.ConversionLaws.{ConversionsAreRight, ConversionsHave, ConversionsAreValid};
ghost use Rattle.ec_fxcode_conversions.specs.ConversionLaws.{ConversionsUseNoLabel, ConversionsPlaceNoLabel};
ghost use Rattle.ec_fxcode_conversions.specs.ConversionLaws.{WholesAreRight, WholesHave, WholesAreValid};
ghost use Rattle.ec_fxcode_conversions.specs.ConversionLaws.{WholesUseNoLabel, WholesPlaceNoLabel};
ghost use Rattle.ec_fxcode_conversions.specs.ProductLaws.{ProductsAreRight, ProductsHave, ProductsAreValid};
ghost use Rattle.ec_fxcode_conversions.specs.ProductLaws.{ProductsUseNoLabel, ProductsPlaceNoLabel};

use ec_fxcode::laws::{clamps_are_right, clamps_are_valid, clamps_have_no_labels};
use ec_fxcode_scales::laws::{
    clamps_are_words_short, cuts_are_right, cuts_are_short, cuts_are_valid, cuts_have_no_labels,
    scales_are_right, scales_are_short, scales_are_valid, scales_have_no_labels,
};
use ec_select_products::laws::products_have_words;

// ---- into a format

/// From its first word to its end the code takes at most so many steps, and leaves the value of the operand in the
/// format of the result: rounded toward zero, and brought into its range. All else is kept but the work bytes, the
/// flags and the work registers.
pub fn conversions_are_right()
    ensures { ConversionsAreRight }
{
    scales_are_right();
    cuts_are_right();
    clamps_are_right();
}

/// It has at most so many words.
pub fn conversions_are_short()
    ensures { ConversionsHave }
{
    scales_are_short();
    cuts_are_short();
    clamps_are_words_short();
}

/// The fields of its items are in range where the places of the bytes are.
pub fn conversions_are_valid()
    ensures { ConversionsAreValid }
{
    scales_are_valid();
    cuts_are_valid();
    clamps_are_valid();
}

/// Its items refer to no label, and are the place of none.
pub fn conversions_have_no_labels()
    ensures uses { ConversionsUseNoLabel }
    ensures places { ConversionsPlaceNoLabel }
{
    scales_have_no_labels();
    cuts_have_no_labels();
    clamps_have_no_labels();
}

// ---- into an integer

/// The code leaves the value of the operand without what stands behind the point, as an integer with a sign and as one
/// without, wherever a type of so many bytes holds it.
pub fn wholes_are_right()
    ensures { WholesAreRight }
{
    scales_are_right();
    cuts_are_right();
}

/// It has at most so many words.
pub fn wholes_are_short()
    ensures { WholesHave }
{
    scales_are_short();
    cuts_are_short();
    clamps_are_words_short();
}

/// The fields of its items are in range where the places of the bytes are.
pub fn wholes_are_valid()
    ensures { WholesAreValid }
{
    scales_are_valid();
    cuts_are_valid();
    clamps_are_valid();
}

/// Its items refer to no label, and are the place of none.
pub fn wholes_have_no_labels()
    ensures uses { WholesUseNoLabel }
    ensures places { WholesPlaceNoLabel }
{
    scales_have_no_labels();
    cuts_have_no_labels();
    clamps_have_no_labels();
}

// ---- products

/// The code leaves the exact product of two operands of one byte, rounded toward zero and brought into the format of
/// the result.
pub fn products_are_right()
    ensures { ProductsAreRight }
{
    ec_select_products::laws::products_are_right();
    scales_are_right();
    cuts_are_right();
    clamps_are_right();
}

/// It has at most so many words.
pub fn products_are_short()
    ensures { ProductsHave }
{
    products_have_words();
    scales_are_short();
    cuts_are_short();
    clamps_are_words_short();
}

/// The fields of its items are in range where the places of the bytes are.
pub fn products_are_valid()
    ensures { ProductsAreValid }
{
    scales_are_valid();
    cuts_are_valid();
    clamps_are_valid();
}

/// Its items refer to no label, and are the place of none.
pub fn products_have_no_labels()
    ensures uses { ProductsUseNoLabel }
    ensures places { ProductsPlaceNoLabel }
{
    scales_have_no_labels();
    cuts_have_no_labels();
    clamps_have_no_labels();
}
