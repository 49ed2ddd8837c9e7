//! Which kinds of tokens may stand at a place.
ghost use Rattle.std.specs.Prelude.{◌≡◌, ◌<◌, ◌+◌, ◌^◌, ◌↔◌, suc, true, map, slice_get, take, length, IfOk};
ghost use Rattle.ec_grammar.specs.Tokens.{view_tokens};
ghost use Rattle.ec_parse_laws.specs.Passing.{BeginsProgram};
ghost use Rattle.ec_parse_laws.specs.Refusals.{EndsWithEnd, StopsBehind};
ghost use Rattle.ec_where_expected.specs.Expected.{AreStanding, IsGoodFront, candidate_at};

use crate::candidates::{Candidate, Classes, ROWS, token_of};
use ec_grammar::{Token, TokenKind};
use ec_parse::{ParseStop, discard_tree, parse};
use ec_space::{NoMemory, Seq};
use std::alloc::Global;

fn candidate_in(rows: &[(Candidate, &str, Classes)], i: usize) -> Option<Candidate>
    ensures { result ≡ slice_get (map (λ row. row.0) rows.now) i }
{
    match rows.get(i) {
        Some((candidate, _, _)) => Some(*candidate),
        None => None,
    }
}

/// The kind of a row.
#[tactic(auto, unfolding(crate::specs::Expected::candidate_at))]
fn candidate_at(i: usize) -> Option<Candidate>
    ensures { result ≡ candidate_at i }
{
    candidate_in(&ROWS, i)
}

/// Whether the first `k` tokens and the next one begin a program, where the first `k` do.
fn stands(alloc: Global, tokens: &Seq<Token>, k: u32) -> Result<bool, NoMemory>
    requires fits { length tokens.now.items < 2 ^ 32 }
    requires ended { EndsWithEnd (view_tokens tokens.now.items) }
    requires good { IsGoodFront k (view_tokens tokens.now.items) }
    ensures { IfOk result (λ b. (b ≡ true) ↔ BeginsProgram (take (suc k) (view_tokens tokens.now.items))) }
{
    match parse(alloc, tokens) {
        Ok(tree) => {
            discard_tree(tree);
            Ok(true)
        }
        Err(ParseStop::Syntax(at)) => Ok(at != k),
        Err(ParseStop::TooDeep(_)) => Ok(true),
        Err(ParseStop::NoMemory) => Err(NoMemory),
    }
}

/// Which kinds of tokens may stand at the first bad token of a source, behind the `k` tokens before it: one flag for each
/// row of `ROWS`.
pub fn standing(alloc: Global, tokens: Seq<Token>, k: u32) -> Result<Seq<bool>, NoMemory>
    requires fits { length tokens.items + 1 < 2 ^ 32 }
    requires stops { StopsBehind 64 k (view_tokens tokens.items) }
    ensures { IfOk result (λ flags. AreStanding (take k (view_tokens tokens.items)) flags.items) }
{
    let mut tried = tokens;
    let mut flags = Seq::new(alloc);
    let end = Token {
        at: 0,
        kind: TokenKind::End,
    };
    tried.push(end)?;
    'kinds: for i in 0..85 {
        let mut stand = false;
        if let Some(candidate) = candidate_at(i) {
            let token = Token {
                at: 0,
                kind: token_of(alloc, candidate),
            };
            tried.put(k as usize, token);
            stand = stands(alloc, &tried, k)?;
        }
        flags.push(stand)?;
    }
    Ok(flags)
}
