//! The text, piece by piece.
ghost use Rattle.std.specs.Prelude.{◌≡◌, ◌==◌, ◌+◌, ◌<◌, ◌≤◌, ◌^◌, ◌++◌, ◌⊎◌, List, length, IfOk, IfErr, OnOk, Ok, Err};
ghost use Rattle.std.specs.Prelude.{IsSome, if◌then◌else◌};
ghost use Rattle.std.specs.List.{list_any};
ghost use Rattle.ec_grammar.specs.Tokens.{view_kind, view_tokens, Placed};
ghost use Rattle.ec_lex.specs.Bytes.{is_newline};
ghost use Rattle.ec_lex.specs.Reading.{does, step, Gives, told, IsAt};
ghost use Rattle.ec_lex.specs.Text.{after_blank, after_token, taken, effect_of, line_of, Tokens, IsRefused, Shows};
ghost use Rattle.ec_lex.specs.Text.{IsFound};
ghost use Rattle.ec_lex.specs.Views.{view_directed, view_scope};

use crate::bytes::line_len;
use crate::constants::{character_constant, read_constant};
use crate::directives::{Directed, directive};
use crate::pieces::{Form, offset, piece};
use crate::scope::{Define, Scope, name_of};
use crate::stop::{Cause, Header, LexStop, Refusal};
use ec_grammar::{Token, TokenKind};
use ec_space::{NoMemory, Seq};
use std::alloc::Global;

/// The greatest number of tokens before the end.
const MOST_TOKENS: usize = 65_535;

/// Notes white space: behind a newline a line starts.
fn note_blank(scope: &mut Scope, text: &[u8])
    ensures { view_scope scope.new ≡ after_blank text.now (view_scope scope.old) }
{
    if text.contains(&b'\n') {
        scope.line_start = true;
    }
}

/// Notes what a directive says. A pragma is a token.
fn note_directive(
    scope: &mut Scope,
    alloc: Global,
    directed: Directed<'_>,
) -> Result<Option<TokenKind>, Refusal>
    ensures { Gives result (view_scope scope.new) (effect_of (view_directed directed.entry) (view_scope scope.old)) }
{
    match directed {
        Directed::Include(header) => {
            match header {
                Header::Stdint => scope.stdint = true,
                Header::Stdfix => scope.stdfix = true,
                Header::Iohw => scope.iohw = true,
            }
            Ok(None)
        }
        Directed::Define(name, constant) => {
            let name = name_of(alloc, name)?;
            scope.defines.push(Define { name, constant })?;
            Ok(None)
        }
        Directed::Set(which, state) => Ok(Some(TokenKind::Pragma { which, state })),
        Directed::Ignored => Ok(None),
    }
}

/// What is wrong with a `'` that begins no character constant, by what follows it.
fn quote_cause(rest: &[u8]) -> Cause
    ensures { result ≡ (if list_any (λ b. b == 39) (line_of rest.now) then Cause.BadByte else Cause.Unclosed) }
{
    if rest[..line_len(rest)].contains(&b'\'') {
        Cause::BadByte
    } else {
        Cause::Unclosed
    }
}

/// A token, after which its line has more than white space.
fn taken(scope: &mut Scope, kind: TokenKind) -> Result<Option<TokenKind>, Refusal>
    ensures { Gives result (view_scope scope.new) (taken (view_kind kind) (after_token (view_scope scope.old))) }
{
    scope.line_start = false;
    Ok(Some(kind))
}

/// Takes a piece of this form and these bytes, which the rest follows.
#[tactic(auto, unfolding(crate::specs::Reading::does))]
fn take(
    scope: &mut Scope,
    alloc: Global,
    form: Form,
    text: &[u8],
    rest: &[u8],
) -> Result<Option<TokenKind>, Refusal>
    requires { 0 < length text.now }
    ensures { Gives result (view_scope scope.new) (does (view_scope scope.old) form text.now rest.now) }
{
    match form {
        Form::Space | Form::Comment => {
            note_blank(scope, text);
            Ok(None)
        }
        Form::LineComment => Ok(None),
        Form::OpenComment => Err(Refusal::Fault(Cause::Unclosed)),
        Form::Identifier => {
            let kind = scope.meaning(alloc, text)?;
            taken(scope, kind)
        }
        Form::Number => match read_constant(text) {
            Some(constant) => taken(scope, constant.token()),
            None => Err(Refusal::Fault(Cause::BadNumber)),
        },
        Form::Character(value) => taken(scope, character_constant(value).token()),
        Form::Quote => Err(Refusal::Fault(quote_cause(rest))),
        Form::Punctuator(kind) => taken(scope, TokenKind::Punct(kind)),
        Form::Directive => match directive(scope, &text[1..]) {
            Some(directed) => note_directive(scope, alloc, directed),
            None => Err(Refusal::Fault(Cause::BadDirective)),
        },
    }
}

/// Takes the piece at the front. The token, where it is one, and what follows it.
#[tactic(auto, unfolding(crate::specs::Reading::step))]
fn step<'a>(
    scope: &mut Scope,
    alloc: Global,
    bytes: &'a [u8],
) -> Result<(Option<TokenKind>, &'a [u8]), Refusal>
    ensures effect { IfOk result (λ x.
        Gives (Ok x.0) (view_scope scope.new) (step (view_scope scope.old) bytes.now).0) }
    ensures rest { IfOk result (λ x. (step (view_scope scope.old) bytes.now).1 ≡ x.1.now) }
    ensures shorter { IfOk result (λ x. length x.1.now < length bytes.now) }
    ensures fault { IfErr result (λ stop.
        Gives (Err stop) (view_scope scope.new) (step (view_scope scope.old) bytes.now).0) }
{
    let Some((form, rest)) = piece(scope.line_start, bytes) else {
        return Err(Refusal::Fault(Cause::BadByte));
    };
    let kind = take(scope, alloc, form, &bytes[..bytes.len() - rest.len()], rest)?;
    Ok((kind, rest))
}

/// Appends the token, where there is one.
fn note_token(tokens: &mut Seq<Token>, at: u32, kind: Option<TokenKind>) -> Result<(), LexStop>
    requires { length tokens.old.items ≤ MOST_TOKENS }
    ensures ok { OnOk result (view_tokens tokens.new.items ≡ view_tokens tokens.old.items ++ told at kind) }
    ensures few { OnOk result (length tokens.new.items ≤ MOST_TOKENS) }
    ensures err { IfErr result (λ stop. (stop ≡ LexStop.NoMemory)
        ⊎ ((stop ≡ LexStop.TooManyTokens) × IsSome kind × (length tokens.old.items ≡ MOST_TOKENS))) }
{
    if let Some(kind) = kind {
        if tokens.len() == MOST_TOKENS {
            return Err(LexStop::TooManyTokens);
        }
        if tokens.push(Token { at, kind }).is_err() {
            return Err(LexStop::NoMemory);
        }
    }
    Ok(())
}

fn stop_at(stop: Refusal, at: u32) -> LexStop
    ensures { IsAt stop at result }
{
    match stop {
        Refusal::NoMemory => LexStop::NoMemory,
        Refusal::Fault(Cause::BadByte) => LexStop::BadByte(at),
        Refusal::Fault(Cause::BadNumber) => LexStop::BadNumber(at),
        Refusal::Fault(Cause::Unclosed) => LexStop::Unclosed(at),
        Refusal::Fault(Cause::BadDirective) => LexStop::BadDirective(at),
    }
}

fn tokens_of(alloc: Global, text: &[u8]) -> Result<Seq<Token>, LexStop>
    requires { length text.now < 2 ^ 32 }
    ensures { IsFound text.now result }
{
    let mut tokens = Seq::new(alloc);
    let mut scope = Scope::new(alloc);
    let mut rest = text;
    while !rest.is_empty() {
        let at = offset(text, rest);
        match step(&mut scope, alloc, rest) {
            Ok((kind, more)) => match note_token(&mut tokens, at, kind) {
                Ok(()) => rest = more,
                Err(stop) => return Err(stop),
            },
            Err(stop) => return Err(stop_at(stop, at)),
        }
    }
    let end = Token {
        at: text.len() as u32,
        kind: TokenKind::End,
    };
    match tokens.push(end) {
        Ok(()) => Ok(tokens),
        Err(NoMemory) => Err(LexStop::NoMemory),
    }
}

/// The tokens of the text, the last of which is `TokenKind::End`, or the fault with the least place.
pub fn lex(alloc: Global, bytes: &Seq<u8>) -> Result<Seq<Token>, LexStop>
    requires { length bytes.now.items < 2 ^ 32 }
    ensures tokens { IfOk result (λ list. Tokens bytes.now.items (view_tokens list.items)
        × (length list.items ≤ 65_536)) }
    ensures refused { IfErr result (λ stop. (stop ≡ LexStop.NoMemory) ⊎ IsRefused bytes.now.items stop) }

    // A text that is these tokens gives them, and one that is refused for a cause is refused for it, where memory
    // suffices.
    ensures only_tokens { (list : List Placed) → Tokens bytes.now.items list → length list ≤ 65_536
        → Shows list result }
    ensures only_refused { (stop : LexStop) → IsRefused bytes.now.items stop
        → (result ≡ Err stop) ⊎ (result ≡ Err LexStop.NoMemory) }
{
    tokens_of(alloc, bytes.as_slice())
}
