//! The laws of the numbers of definitions and of structs: each function proves one, and does nothing.
ghost use Rattle.ec_check_names.specs.Laws.{InnerNamesHide, OuterNamesAreKnown, BlocksEnd};
ghost use Rattle.ec_check_names.specs.Laws.{DefinitionsAreNumbered, DefinitionsAreFound, EqualStructsAreOne};

/// A name that is declared in a block hides what the name stood for, and no other name.
pub fn inner_names_hide()
    ensures { InnerNamesHide }
{}

/// A name that is declared at file scope is known there, where no block is open, and hides no other name.
pub fn outer_names_are_known()
    ensures { OuterNamesAreKnown }
{}

/// Behind a block everything is known that was known before it, and nothing else.
pub fn blocks_end()
    ensures { BlocksEnd }
{}

/// No two objects have one number, nor have two functions: the numbers of objects rise, up to the number of objects
/// that the units declare, and those of functions are one after the other.
pub fn definitions_are_numbered()
    ensures { DefinitionsAreNumbered }
{}

/// Two struct definitions are told to be the same exactly where their tags are equal, and the names and types of their
/// members.
pub fn equal_structs_are_one()
    ensures { EqualStructsAreOne }
{}

/// A name has the number of one of its definitions, and has none exactly where nothing defines it.
pub fn definitions_are_found()
    ensures { DefinitionsAreFound }
{}
