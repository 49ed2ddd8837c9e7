//! The offset of a place of a source.
ghost use Rattle.std.specs.Prelude.{◌≡◌, ◌≤◌, ◌<◌, ◌^◌, ◌⊎◌, ℕ, List, IfOk, MatchResult, length};
ghost use Rattle.ec_grammar.specs.Tokens.{Placed, view_tokens};
ghost use Rattle.ec_lex.specs.Text.{Tokens};
ghost use Rattle.ec_where.specs.Located.{BeginsAt, IsIn, offset_in};

use crate::place::Place;
use ec_lex::{LexStop, Token, lex};
use ec_space::Seq;
use std::alloc::Global;

/// Why a place has no offset.
#[derive(Clone, Copy)]
pub enum NotFound {
    NoMemory,
    /// The text has no such place.
    NoSuchPlace,
}

/// The offset at which the token of this index begins, if there is one.
fn offset_in(tokens: &Seq<Token>, index: u32) -> Option<u32>
    ensures { result ≡ offset_in (view_tokens tokens.now.items) index }
{
    match tokens.get(index as usize) {
        Some(token) => Some(token.at),
        None => None,
    }
}

/// The tokens of a text.
pub fn tokens_of(alloc: Global, text: &Seq<u8>) -> Result<Seq<Token>, NotFound>
    requires { length text.now.items < 2 ^ 32 }
    ensures tokens { IfOk result (λ tokens. Tokens text.now.items (view_tokens tokens.items)
        × (length tokens.items ≤ 65_536)) }
    ensures only { (list : List Placed) → Tokens text.now.items list → length list ≤ 65_536
        → MatchResult result (λ tokens. view_tokens tokens.items ≡ list) (λ e. e ≡ NotFound.NoMemory) }
{
    match lex(alloc, text) {
        Ok(tokens) => Ok(tokens),
        Err(LexStop::NoMemory) => Err(NotFound::NoMemory),
        Err(_) => Err(NotFound::NoSuchPlace),
    }
}

/// The offset at which the token of this index begins.
fn token_offset(alloc: Global, text: &Seq<u8>, index: u32) -> Result<u32, NotFound>
    requires { length text.now.items < 2 ^ 32 }
    ensures found { IfOk result (BeginsAt text.now.items index) }
    ensures absent { (at : ℕ) → BeginsAt text.now.items index at → (result ≡ Ok at) ⊎ (result ≡ Err NotFound.NoMemory) }
{
    let tokens = tokens_of(alloc, text)?;
    match offset_in(&tokens, index) {
        Some(at) => Ok(at),
        None => Err(NotFound::NoSuchPlace),
    }
}

/// The offset that a place of a text names, which is in the text or at its end.
pub fn offset_of(alloc: Global, text: &Seq<u8>, place: Place) -> Result<usize, NotFound>
    requires { length text.now.items < 2 ^ 32 }
    ensures found { IfOk result (IsIn text.now.items place) }
    ensures absent { (at : ℕ) → IsIn text.now.items place at → (result ≡ Ok at) ⊎ (result ≡ Err NotFound.NoMemory) }
{
    let at = match place {
        Place::Byte(offset) => offset,
        Place::Token(index) => token_offset(alloc, text, index)?,
    };
    if at as usize > text.len() {
        return Err(NotFound::NoSuchPlace);
    }
    Ok(at as usize)
}
