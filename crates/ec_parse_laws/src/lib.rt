//! The laws of reading the grammar, apart from any parser: each function proves one, and does nothing.
//!
//! The readers stand in `specs/Reading.antt`. Each looks at one token to decide what to do; at `(`, `void`, `struct`
//! and the comma between initialisers alone it looks at one or two more, and takes that token whichever way they
//! decide. A reader faults at the first token that it cannot go on with, and nothing behind that token matters to its
//! answer. A parser whose functions answer what these readers answer needs no further law: what it answers is a
//! derivation, every derivation within the limit of nesting is its answer, and it is the only one. What it answers
//! keeps the limit, and a token of a program at which nesting passes the limit is told no later.
#![tactic(auto)]

ghost use Rattle.ec_parse_laws.specs.Laws.{ReadsDerivationsAlone, ReadsEveryDerivation, DerivesOneTree};
ghost use Rattle.ec_parse_laws.specs.Limits.{ReadsWithinTheLimit, TellsNoLater};
ghost use Rattle.ec_parse_laws.specs.Prefixes.{BeginsBeforeSyntax, PassesWhereTold};
ghost use Rattle.ec_parse_laws.specs.Refusals.{EndsOnce, NamesToken, NoProgramGoesOn, TreeExactly, SyntaxExactly};
ghost use Rattle.ec_parse_laws.specs.Refusals.{TooDeepExactly};

/// What is read from a list of tokens is a derivation of it.
pub fn reads_derivations_alone()
    ensures { ReadsDerivationsAlone }
{}

/// Every derivation of a list, of any depth, is read whole from it; or it is told too deep, and then it nests deeper
/// than the limit.
pub fn reads_every_derivation()
    ensures { ReadsEveryDerivation }
{}

/// No list of tokens has two derivations.
pub fn derives_one_tree()
    ensures { DerivesOneTree }
{}

/// What is read nests no deeper than the limit.
pub fn reads_within_the_limit()
    ensures { ReadsWithinTheLimit }
{}

/// Where nesting passes the limit at a token of a program, a token is told too deep, and it is that one or one before
/// it.
pub fn tells_no_later()
    ensures { TellsNoLater }
{}

/// Where a token cannot be gone on with, the tokens before it begin a program.
pub fn begins_before_syntax()
    ensures { BeginsBeforeSyntax }
{}

/// A token that is told too deep passes the limit in the tree of some program that begins with the tokens up to it.
pub fn passes_where_told()
    ensures { PassesWhereTold }
{}

/// Nothing follows the end in the list of a program.
pub fn ends_once()
    ensures { EndsOnce }
{}

/// Where a list ends with its end, a fault names a token of it.
pub fn names_token()
    ensures { NamesToken }
{}

/// No program begins with the tokens up to one that cannot be gone on with, and with it.
pub fn no_program_goes_on()
    ensures { NoProgramGoesOn }
{}

/// A tree is read from a list exactly where it is a derivation of it and keeps the limit of nesting.
pub fn tree_exactly()
    ensures { TreeExactly }
{}

/// A token is one that cannot be gone on with exactly where the tokens before it begin a program, with it they begin
/// none, and none of those before it passes the limit of nesting in a program.
pub fn syntax_exactly()
    ensures { SyntaxExactly }
{}

/// A token is told too deep exactly where it passes the limit of nesting in some program that begins with the tokens up
/// to it, and none before it does.
pub fn too_deep_exactly()
    ensures { TooDeepExactly }
{}
