//! What the code of products does.
ghost use Rattle.ec_select_products.specs.Laws.{ProductsAreRight, ProductsHaveWords};

/// From its first word to its end the code takes at most so many steps, and leaves up to two bytes of the product. All
/// else is kept but the flags, R0, R1, R30 and R31.
pub fn products_are_right()
    ensures { ProductsAreRight }
{}

/// It has at most so many words.
pub fn products_have_words()
    ensures { ProductsHaveWords }
{}
