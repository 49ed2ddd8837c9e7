//! The tree of a list of tokens.
ghost use Rattle.std.specs.Prelude.{◌≡◌, ◌<◌, ◌^◌, ◌⊎◌, length, Err, IfOk, IfErr};
ghost use Rattle.ec_grammar.specs.Tokens.{view_tokens};
ghost use Rattle.ec_grammar.specs.Trees as t;
ghost use Rattle.ec_grammar.specs.Grammar.{Derives};
ghost use Rattle.ec_grammar.specs.Nesting.{Nests};
ghost use Rattle.ec_grammar.specs.Views.{view_tree};
ghost use Rattle.ec_parse_laws.specs.Refusals.{EndsWithEnd};
ghost use Rattle.ec_parse.specs.Parse.{IsTold, IsRead, IsOnly, IsRefused, IsBadAt};

use crate::stop::ParseStop;
use crate::units::read;
use ec_grammar::{Token, Tree};
use ec_parse_tokens::{ReadError, Source};
use ec_space::Seq;
use std::alloc::Global;

/// The stop where so many tokens, of a list of `count`, are left.
fn told(count: u32, stop: ReadError) -> ParseStop
    ensures { IsTold count stop result }
{
    match stop {
        ReadError::NoMemory => ParseStop::NoMemory,
        ReadError::Syntax(left) => ParseStop::Syntax((count as usize).saturating_sub(left) as u32),
        ReadError::TooDeep(left) => ParseStop::TooDeep(
            (count as usize).saturating_sub(left) as u32,
        ),
    }
}

/// What reading answers for the tokens.
fn answer(alloc: Global, tokens: &[Token]) -> Result<Tree, ParseStop>
    requires fits { length tokens.now < 2 ^ 32 }
    requires ended { EndsWithEnd (view_tokens tokens.now) }
    ensures { IsRead (view_tokens tokens.now) result }
{
    let count = tokens.len() as u32;
    match read(Source { alloc, count }, tokens) {
        Ok(tree) => Ok(tree),
        Err(stop) => Err(told(count, stop)),
    }
}

/// The tree of the tokens, the last of which is `TokenKind::End`; or the first token that cannot be gone on with, or at
/// which nesting passes the limit.
pub fn parse(alloc: Global, tokens: &Seq<Token>) -> Result<Tree, ParseStop>
    requires fits { length tokens.now.items < 2 ^ 32 }
    requires ended { EndsWithEnd (view_tokens tokens.now.items) }
    ensures read { IsRead (view_tokens tokens.now.items) result }

    // A tree is answered only where the list derives it and the limit of nesting is kept.
    ensures found { IfOk result (λ u. Derives (view_tokens tokens.now.items) (view_tree u) × Nests (view_tree u)) }

    // A derivation that keeps the limit is the answer, unless memory runs out; and there is no other than the one
    // answered.
    ensures only { (u : t.Tree) → Derives (view_tokens tokens.now.items) u → Nests u → IsOnly u result }
    ensures alone { (u : t.Tree) → Derives (view_tokens tokens.now.items) u → IfOk result (λ v. view_tree v ≡ u) }

    // A token is told only where it is the first bad one, or the first at which nesting passes the limit; and there it
    // is told, unless memory runs out.
    ensures refused { IfErr result (IsRefused (view_tokens tokens.now.items)) }
    ensures told { (stop : ParseStop) → IsBadAt (view_tokens tokens.now.items) stop
        → (result ≡ Err stop) ⊎ (result ≡ Err ParseStop.NoMemory) }
{
    answer(alloc, tokens.as_slice())
}
