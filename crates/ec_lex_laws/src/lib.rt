//! The law of the numbers in a text: each constant is a number of its type (ISO/IEC 9899:1999, 6.4.4).
#![tactic(auto)]

ghost use Rattle.ec_lex_laws.specs.Laws.{TextsHoldNumbers};

/// Each constant among the tokens of a text stands for a number of its type. It does nothing.
pub fn texts_hold_numbers()
    ensures { TextsHoldNumbers }
{}
