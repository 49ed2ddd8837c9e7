//! The units of a build: texts, their tokens and their trees.
ghost use Rattle.std.specs.Prelude.{◌≡◌, List, [], ◌≤◌, ◌<◌, ◌^◌, All, IfOk, IfErr, length, map};
ghost use Rattle.ec_grammar.specs.Trees as t;
ghost use Rattle.ec_grammar.specs.Tokens.{view_tokens};
ghost use Rattle.ec_grammar.specs.Views.{view_tree};
ghost use Rattle.ec_parse_sources.specs.Units.{AreUnits, AreReadable, HasTokens, HaveTokens, HasTree, HaveTrees};
ghost use Rattle.ec_parse_sources.specs.Stops.{StopsReading, StopsLexing, StopsLexingAll, StopsParsing, StopsParsingAll};

use crate::stop::UnitStop;
use ec_lex::{LexStop, Token, lex};
use ec_parse::{ParseStop, Tree, append, discard, parse};
use ec_space::Seq;
use std::alloc::Global;

/// The tokens of the text of a unit.
fn tokens_of(alloc: Global, unit: u8, source: &Seq<u8>) -> Result<Seq<Token>, UnitStop>
    requires { length source.now.items < 2 ^ 32 }
    ensures lexed { IfOk result (λ list. HasTokens source.now.items (view_tokens list.items)) }
    ensures stopped { IfErr result (StopsLexing unit source.now.items) }
{
    match lex(alloc, source) {
        Ok(tokens) => Ok(tokens),
        Err(LexStop::NoMemory) => Err(UnitStop::NoMemory),
        Err(stop) => Err(UnitStop::Lex { unit, stop }),
    }
}

/// The tokens of all texts, or the first text that has a fault.
fn lex_units(alloc: Global, sources: &[Seq<u8>]) -> Result<Seq<Seq<Token>>, UnitStop>
    requires few { length sources.now ≤ 16 }
    requires short { All (λ s. length s.items < 2 ^ 32) sources.now }
    ensures lexed { IfOk result (λ lists. HaveTokens sources.now lists.items) }
    ensures stopped { IfErr result (StopsLexingAll (map (λ s. s.items) sources.now)) }
{
    let mut lists = Seq::new(alloc);
    for (i, source) in sources.iter().enumerate() {
        let tokens = tokens_of(alloc, i as u8, source)?;
        lists.push(tokens)?;
    }
    Ok(lists)
}

/// The tree of the tokens of a unit.
fn tree_of(alloc: Global, unit: u8, tokens: &Seq<Token>) -> Result<Tree, UnitStop>
    requires { AreReadable (view_tokens tokens.now.items) }
    ensures parsed { IfOk result (λ u. HasTree (view_tokens tokens.now.items) (view_tree u)) }
    ensures stopped { IfErr result (StopsParsing unit (view_tokens tokens.now.items)) }
{
    match parse(alloc, tokens) {
        Ok(tree) => Ok(tree),
        Err(ParseStop::NoMemory) => Err(UnitStop::NoMemory),
        Err(stop) => Err(UnitStop::Parse { unit, stop }),
    }
}

/// Appends the trees of the tokens of all texts to none, or tells the first that have none.
fn append_units(alloc: Global, lists: &[Seq<Token>], trees: &mut Seq<Tree>) -> Result<(), UnitStop>
    requires few { length lists.now ≤ 16 }
    requires readable { All (λ l. AreReadable (view_tokens l.items)) lists.now }
    requires empty { trees.old.items ≡ [] }
    ensures parsed { IfOk result (λ _. HaveTrees lists.now trees.new.items) }
    ensures stopped { IfErr result (StopsParsingAll lists.now) }
{
    for (i, tokens) in lists.iter().enumerate() {
        let tree = tree_of(alloc, i as u8, tokens)?;
        append(trees, tree)?;
    }
    Ok(())
}

/// The trees of the tokens of all texts, or the first that have none.
fn parse_units(alloc: Global, lists: &[Seq<Token>]) -> Result<Seq<Tree>, UnitStop>
    requires few { length lists.now ≤ 16 }
    requires readable { All (λ l. AreReadable (view_tokens l.items)) lists.now }
    ensures parsed { IfOk result (λ trees. HaveTrees lists.now trees.items) }
    ensures stopped { IfErr result (StopsParsingAll lists.now) }
{
    let mut trees = Seq::new(alloc);
    match append_units(alloc, lists, &mut trees) {
        Ok(()) => Ok(trees),
        Err(stop) => {
            discard(trees);
            Err(stop)
        }
    }
}

/// The trees of at most 16 sources, each shorter than 2^32 bytes: all are lexed before any is parsed. The sources have no
/// other trees. Else the first text that has a fault, or the first whose tokens have no tree, or memory ran out.
pub fn units_of(alloc: Global, sources: &Seq<Seq<u8>>) -> Result<Seq<Tree>, UnitStop>
    requires few { length sources.now.items ≤ 16 }
    requires short { All (λ s. length s.items < 2 ^ 32) sources.now.items }
    ensures units { IfOk result (λ trees. AreUnits (map (λ s. s.items) sources.now.items)
        (map view_tree trees.items)) }
    ensures only { IfOk result (λ trees. (others : List t.Tree)
        → AreUnits (map (λ s. s.items) sources.now.items) others → others ≡ map view_tree trees.items) }
    ensures stopped { IfErr result (StopsReading (map (λ s. s.items) sources.now.items)) }
{
    let lists = lex_units(alloc, sources.as_slice())?;
    let trees = parse_units(alloc, lists.as_slice())?;
    Ok(trees)
}
