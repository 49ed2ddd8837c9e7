//! Each function proves a law, and does nothing.
ghost use Rattle.ec_check_tokens.specs.Laws.{TokensSayStates, TokensSayModes};
ghost use Rattle.ec_check_tokens.specs.FirstTokens.{PartsBeginAtFirstTokens};
ghost use Rattle.ec_check_tokens.specs.Definers.{DefinersDefine, DefinersAreInOrder, FunctionsAreInOrder};
ghost use Rattle.ec_check_tokens.specs.Objects.{ObjectsAreInOrder, StructsAreInOrder};
ghost use Rattle.ec_check_tokens.specs.Shared.{SharedWordsAreSaid};

use ec_check::programs_are_typed;
use ec_check_meanings::{modes_are_said, walk_gives_meanings};
use ec_check_names::equal_structs_are_one;
use ec_check_parts::{structs_are_declared, there_is_one_reading};

/// The overflow states that are known at each expression of a unit are those that the pragmas and braces before its first
/// token say (ISO/IEC TR 18037:2008, 4.1.3).
pub fn tokens_say_states()
    ensures { TokensSayStates }
{
    there_is_one_reading();
}

/// Each node of an expression in the program of units has the mode that the pragmas and braces before its statement say of
/// its type (ISO/IEC TR 18037:2008, 4.1.3).
pub fn tokens_say_modes()
    ensures { TokensSayModes }
{
    programs_are_typed();
    walk_gives_meanings();
    modes_are_said();
}

/// The first token of a part is the first of the tokens that spell it: so the place where a constraint on an expression, on
/// specifiers or on an initialiser is told, and that of each statement and each local object of a program.
pub fn parts_begin_at_first_tokens()
    ensures { PartsBeginAtFirstTokens }
{}

/// The definitions of all units by name are those of the declarators that define, in order (ISO/IEC 9899:1999, 6.9).
pub fn definers_define()
    ensures { DefinersDefine }
{}

/// The names of the declarators of a unit that define stand among its tokens, in order, at indices that rise.
pub fn definers_are_in_order()
    ensures { DefinersAreInOrder }
{}

/// The functions of the program of units stand in the order of their definitions, by unit and by token.
pub fn functions_are_in_order()
    ensures { FunctionsAreInOrder }
{
    programs_are_typed();
}

/// The objects of the program of units stand in the order of the declarators that they are declared by, by unit and by token;
/// one in named registers stands at the first declaration of its name in all units.
pub fn objects_are_in_order()
    ensures { ObjectsAreInOrder }
{
    there_is_one_reading();
}

/// The structs of the program of units stand in the order of their definitions, by unit and by token, and one that later
/// units define again stands once (ISO/IEC 9899:1999, 6.2.7).
pub fn structs_are_in_order()
    ensures { StructsAreInOrder }
{
    programs_are_typed();
    equal_structs_are_one();
    structs_are_declared();
}

/// What the walk and the relations share says what the words for it say: the operators of tokens, what names mean, the types
/// of type names, where parameters are told and their storage words, what is kept of declarations at file scope, the parts of
/// objects and their addresses, and the operands of ports.
pub fn shared_words_are_said()
    ensures { SharedWordsAreSaid }
{}
