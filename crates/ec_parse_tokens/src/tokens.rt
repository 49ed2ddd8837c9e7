//! The tokens that are still to be read, and tests of the first of them.
ghost use Rattle.std.specs.Prelude.{◌≡◌, ◌==◌, ◌-◌, suc, length, option_map, IsTrue, IfOk};
ghost use Rattle.ec_grammar.specs.Grammar.{is_qualifier, is_spec_word, is_assign, is_step, is_prefix, is_access};
ghost use Rattle.ec_grammar.specs.Tokens.{view_kind};
ghost use Rattle.ec_grammar.specs.Views.{view_identifier};
ghost use Rattle.ec_parse_laws.specs.Codes.{same_punct, same_word};
ghost use Rattle.ec_parse_laws.specs.Reading.{leaf_if, punct_if, word_if, name_of, constant_of, operation_of, end_of};
ghost use Rattle.ec_parse_laws.specs.Reading.{keyword_of, taken, taken_word, needed, expected, expected_word, identifier};
ghost use Rattle.ec_parse_laws.specs.Reading.{at_level, starts_specs, first_is, starts_punct, starts_lexeme};
ghost use Rattle.ec_parse_laws.specs.Reading.{starts_statement_punct, starts_statement, is_brace, cast_at, void_at};
ghost use Rattle.ec_parse_laws.specs.Reading.{pragma_of, keyword_of_word, is_some};
ghost use Rattle.ec_parse_tokens.specs.Reads.{leaves_of, Gives, GivesFirst, view_keyword, pragma_at_spot, IsThere};
ghost use Rattle.ec_parse_tokens.specs.Reads.{IsUnexpected};

use crate::punctuators::{is_access, is_assign, is_prefix, is_step, level};
use crate::stop::ReadError;
use crate::words::{is_qualifier, is_spec_word};
use ec_grammar::{
    Constant, Identifier, Operation, Pragma, PunctKind, Spot, Token, TokenKind, WordKind,
};
use ec_space::{Name, NoMemory, Seq};
use std::alloc::Global;

/// What stays the same while a list is read.
#[derive(Clone, Copy)]
pub struct Source {
    /// Where trees are made.
    pub alloc: Global,
    /// The number of tokens in the whole list.
    pub count: u32,
}

/// Where a token stands that the rest follows.
fn spot(source: Source, at: u32, rest: &[Token]) -> Spot
    ensures { result ≡ record { index = source.count - suc (length rest.now); at = at } }
{
    let index = (source.count as usize)
        .saturating_sub(rest.len())
        .saturating_sub(1);
    Spot {
        index: index as u32,
        at,
    }
}

/// The first of these tokens cannot be gone on with.
#[tactic(auto, using(crate::proofs::Leaves::length_leaves))]
pub fn unexpected(source: Source, tokens: &[Token]) -> ReadError
    ensures { IsUnexpected result (leaves_of source.count tokens.now) }
{
    ReadError::Syntax(tokens.len())
}

// Punctuators.

fn is_punct(found: PunctKind, wanted: PunctKind) -> bool
    ensures same { result ≡ same_punct found wanted }
    ensures kind { IsTrue result → found ≡ wanted }
{
    found == wanted
}

/// This punctuator, where it stands first, and the tokens after it.
#[tactic(auto, unfolding(ec_parse_laws::specs::Reading::leaf_if))]
pub fn take(source: Source, tokens: &[Token], wanted: PunctKind) -> Option<(Spot, &[Token])>
    ensures { option_map (λ x. (x.0, wanted, leaves_of source.count x.1.now)) result
        ≡ taken wanted (leaves_of source.count tokens.now) }
{
    match tokens {
        [
            Token {
                at,
                kind: TokenKind::Punct(punct),
            },
            rest @ ..,
        ] if is_punct(*punct, wanted) => Some((spot(source, *at, rest), rest)),
        _ => None,
    }
}

/// This punctuator and the tokens after it; another token cannot stand here.
pub fn expect(
    source: Source,
    tokens: &[Token],
    wanted: PunctKind,
) -> Result<(Spot, &[Token]), ReadError>
    ensures { Gives (λ x. (x.0, leaves_of source.count x.1.now)) result
        (expected wanted (leaves_of source.count tokens.now)) }
{
    match take(source, tokens, wanted) {
        Some(taken) => Ok(taken),
        None => Err(unexpected(source, tokens)),
    }
}

/// An operator before a cast expression.
#[tactic(auto, unfolding(ec_parse_laws::specs::Reading::leaf_if))]
pub fn take_prefix(source: Source, tokens: &[Token]) -> Option<(Spot, PunctKind, &[Token])>
    ensures { option_map (λ x. (x.0, x.1, leaves_of source.count x.2.now)) result
        ≡ leaf_if (punct_if is_prefix) (leaves_of source.count tokens.now) }
{
    match tokens {
        [
            Token {
                at,
                kind: TokenKind::Punct(punct),
            },
            rest @ ..,
        ] if is_prefix(*punct) => Some((spot(source, *at, rest), *punct, rest)),
        _ => None,
    }
}

/// `++` or `--`.
#[tactic(auto, unfolding(ec_parse_laws::specs::Reading::leaf_if))]
pub fn take_step(source: Source, tokens: &[Token]) -> Option<(Spot, PunctKind, &[Token])>
    ensures { option_map (λ x. (x.0, x.1, leaves_of source.count x.2.now)) result
        ≡ leaf_if (punct_if is_step) (leaves_of source.count tokens.now) }
{
    match tokens {
        [
            Token {
                at,
                kind: TokenKind::Punct(punct),
            },
            rest @ ..,
        ] if is_step(*punct) => Some((spot(source, *at, rest), *punct, rest)),
        _ => None,
    }
}

/// `.` or `->`.
#[tactic(auto, unfolding(ec_parse_laws::specs::Reading::leaf_if))]
pub fn take_access(source: Source, tokens: &[Token]) -> Option<(Spot, PunctKind, &[Token])>
    ensures { option_map (λ x. (x.0, x.1, leaves_of source.count x.2.now)) result
        ≡ leaf_if (punct_if is_access) (leaves_of source.count tokens.now) }
{
    match tokens {
        [
            Token {
                at,
                kind: TokenKind::Punct(punct),
            },
            rest @ ..,
        ] if is_access(*punct) => Some((spot(source, *at, rest), *punct, rest)),
        _ => None,
    }
}

/// An assignment operator.
#[tactic(auto, unfolding(ec_parse_laws::specs::Reading::leaf_if))]
pub fn take_assign(source: Source, tokens: &[Token]) -> Option<(Spot, PunctKind, &[Token])>
    ensures { option_map (λ x. (x.0, x.1, leaves_of source.count x.2.now)) result
        ≡ leaf_if (punct_if is_assign) (leaves_of source.count tokens.now) }
{
    match tokens {
        [
            Token {
                at,
                kind: TokenKind::Punct(punct),
            },
            rest @ ..,
        ] if is_assign(*punct) => Some((spot(source, *at, rest), *punct, rest)),
        _ => None,
    }
}

/// A binary operator of this level.
#[tactic(auto, unfolding(ec_parse_laws::specs::Reading::leaf_if))]
pub fn take_level(
    source: Source,
    tokens: &[Token],
    wanted: u8,
) -> Option<(Spot, PunctKind, &[Token])>
    ensures { option_map (λ x. (x.0, x.1, leaves_of source.count x.2.now)) result
        ≡ leaf_if (punct_if (at_level wanted)) (leaves_of source.count tokens.now) }
{
    match tokens {
        [
            Token {
                at,
                kind: TokenKind::Punct(punct),
            },
            rest @ ..,
        ] if level(*punct) == wanted => Some((spot(source, *at, rest), *punct, rest)),
        _ => None,
    }
}

// Words.

fn is_word(found: WordKind, wanted: WordKind) -> bool
    ensures same { result ≡ same_word found wanted }
    ensures kind { IsTrue result → found ≡ wanted }
{
    found == wanted
}

/// This word, where it stands first, and the tokens after it.
#[tactic(auto, unfolding(ec_parse_laws::specs::Reading::leaf_if))]
pub fn take_word(source: Source, tokens: &[Token], wanted: WordKind) -> Option<(Spot, &[Token])>
    ensures { option_map (λ x. (x.0, wanted, leaves_of source.count x.1.now)) result
        ≡ taken_word wanted (leaves_of source.count tokens.now) }
{
    match tokens {
        [
            Token {
                at,
                kind: TokenKind::Word(word),
            },
            rest @ ..,
        ] if is_word(*word, wanted) => Some((spot(source, *at, rest), rest)),
        _ => None,
    }
}

/// This word and the tokens after it; another token cannot stand here.
pub fn expect_word(
    source: Source,
    tokens: &[Token],
    wanted: WordKind,
) -> Result<(Spot, &[Token]), ReadError>
    ensures { Gives (λ x. (x.0, leaves_of source.count x.1.now)) result
        (expected_word wanted (leaves_of source.count tokens.now)) }
{
    match take_word(source, tokens, wanted) {
        Some(taken) => Ok(taken),
        None => Err(unexpected(source, tokens)),
    }
}

/// A qualifier.
#[tactic(auto, unfolding(ec_parse_laws::specs::Reading::leaf_if))]
pub fn take_qualifier(source: Source, tokens: &[Token]) -> Option<(Spot, WordKind, &[Token])>
    ensures { option_map (λ x. (x.0, x.1, leaves_of source.count x.2.now)) result
        ≡ leaf_if (word_if is_qualifier) (leaves_of source.count tokens.now) }
{
    match tokens {
        [
            Token {
                at,
                kind: TokenKind::Word(word),
            },
            rest @ ..,
        ] if is_qualifier(*word) => Some((spot(source, *at, rest), *word, rest)),
        _ => None,
    }
}

/// A specifier but for `struct`.
#[tactic(auto, unfolding(ec_parse_laws::specs::Reading::leaf_if))]
pub fn take_spec_word(source: Source, tokens: &[Token]) -> Option<(Spot, WordKind, &[Token])>
    ensures { option_map (λ x. (x.0, x.1, leaves_of source.count x.2.now)) result
        ≡ leaf_if (word_if is_spec_word) (leaves_of source.count tokens.now) }
{
    match tokens {
        [
            Token {
                at,
                kind: TokenKind::Word(word),
            },
            rest @ ..,
        ] if is_spec_word(*word) => Some((spot(source, *at, rest), *word, rest)),
        _ => None,
    }
}

fn starts_specs(word: WordKind) -> bool
    ensures { result ≡ starts_specs word }
{
    is_spec_word(word) || is_word(word, WordKind::Struct)
}

/// Whether specifiers begin here.
#[tactic(auto, unfolding(ec_parse_laws::specs::Reading::leaf_if))]
pub fn begins_specs(source: Source, tokens: &[Token]) -> bool
    ensures { IsThere result (leaf_if (word_if starts_specs) (leaves_of source.count tokens.now)) }
{
    match tokens {
        [
            Token {
                kind: TokenKind::Word(word),
                ..
            },
            ..
        ] => starts_specs(*word),
        _ => false,
    }
}

/// The words that begin a statement (6.8).
#[derive(Clone, Copy)]
pub enum Keyword {
    If,
    While,
    Do,
    For,
    Jump(Jump),
}

/// The words of jump statements (6.8.6).
#[derive(Clone, Copy)]
pub enum Jump {
    Break,
    Continue,
    Return,
}

fn keyword_of(word: WordKind) -> Option<Keyword>
    ensures { option_map view_keyword result ≡ keyword_of_word word }
{
    match word {
        WordKind::If => Some(Keyword::If),
        WordKind::While => Some(Keyword::While),
        WordKind::Do => Some(Keyword::Do),
        WordKind::For => Some(Keyword::For),
        WordKind::Break => Some(Keyword::Jump(Jump::Break)),
        WordKind::Continue => Some(Keyword::Jump(Jump::Continue)),
        WordKind::Return => Some(Keyword::Jump(Jump::Return)),
        _ => None,
    }
}

/// A word that begins a statement.
#[tactic(auto, unfolding(ec_parse_laws::specs::Reading::leaf_if))]
pub fn take_keyword(source: Source, tokens: &[Token]) -> Option<(Spot, Keyword, &[Token])>
    ensures { option_map (λ x. (x.0, view_keyword x.1, leaves_of source.count x.2.now)) result
        ≡ leaf_if keyword_of (leaves_of source.count tokens.now) }
{
    let [
        Token {
            at,
            kind: TokenKind::Word(word),
        },
        rest @ ..,
    ] = tokens
    else {
        return None;
    };
    let keyword = keyword_of(*word)?;
    Some((spot(source, *at, rest), keyword, rest))
}

// Other tokens.

fn copied(alloc: Global, name: &Name) -> Result<Name, NoMemory>
    ensures { IfOk result (λ copy. copy.items ≡ name.now.items) }
{
    let mut copy = Seq::new(alloc);
    copy.extend_from_slice(name.as_slice())?;
    Ok(copy)
}

/// An identifier (6.4.2.1).
#[tactic(auto, unfolding(ec_parse_laws::specs::Reading::leaf_if))]
pub fn take_name(
    source: Source,
    tokens: &[Token],
) -> Result<Option<(Identifier, &[Token])>, NoMemory>
    ensures { GivesFirst (λ x. (x.0.spot, x.0.name.items, leaves_of source.count x.1.now)) result
        (leaf_if name_of (leaves_of source.count tokens.now)) }
{
    match tokens {
        [
            Token {
                at,
                kind: TokenKind::Name(name),
            },
            rest @ ..,
        ] => {
            let name = copied(source.alloc, name)?;
            let spot = spot(source, *at, rest);
            Ok(Some((Identifier { spot, name }, rest)))
        }
        _ => Ok(None),
    }
}

/// An identifier and the tokens after it; another token cannot stand here.
pub fn expect_name(source: Source, tokens: &[Token]) -> Result<(Identifier, &[Token]), ReadError>
    ensures { Gives (λ x. (view_identifier x.0, leaves_of source.count x.1.now)) result
        (identifier (leaves_of source.count tokens.now)) }
{
    match take_name(source, tokens)? {
        Some(taken) => Ok(taken),
        None => Err(unexpected(source, tokens)),
    }
}

/// A constant (6.4.4; TR 18037, 4.1.5).
#[tactic(auto, unfolding(ec_parse_laws::specs::Reading::leaf_if))]
pub fn take_constant(source: Source, tokens: &[Token]) -> Option<(Spot, Constant, &[Token])>
    ensures { option_map (λ x. (x.0, x.1, leaves_of source.count x.2.now)) result
        ≡ leaf_if constant_of (leaves_of source.count tokens.now) }
{
    match tokens {
        [
            Token {
                at,
                kind: TokenKind::Whole {
                    value,
                    signed,
                    bytes,
                },
            },
            rest @ ..,
        ] => {
            let constant = Constant::Whole {
                value: *value,
                signed: *signed,
                bytes: *bytes,
            };
            Some((spot(source, *at, rest), constant, rest))
        }
        [
            Token {
                at,
                kind: TokenKind::FixedConst { kind, n },
            },
            rest @ ..,
        ] => {
            let constant = Constant::Fixed { kind: *kind, n: *n };
            Some((spot(source, *at, rest), constant, rest))
        }
        _ => None,
    }
}

/// The name of an operation of `<iohw.h>` (TR 18037, 6).
#[tactic(auto, unfolding(ec_parse_laws::specs::Reading::leaf_if))]
pub fn take_operation(source: Source, tokens: &[Token]) -> Option<(Spot, Operation, &[Token])>
    ensures { option_map (λ x. (x.0, x.1, leaves_of source.count x.2.now)) result
        ≡ leaf_if operation_of (leaves_of source.count tokens.now) }
{
    match tokens {
        [
            Token {
                at,
                kind: TokenKind::IoName(op),
            },
            rest @ ..,
        ] => Some((spot(source, *at, rest), Operation::Port(*op), rest)),
        [
            Token {
                at,
                kind: TokenKind::GroupName(op),
            },
            rest @ ..,
        ] => Some((spot(source, *at, rest), Operation::Group(*op), rest)),
        _ => None,
    }
}

/// A pragma (TR 18037, 4.1.3 and 4.1.7).
#[tactic(auto, unfolding(ec_parse_laws::specs::Reading::leaf_if))]
pub fn take_pragma(source: Source, tokens: &[Token]) -> Option<(Pragma, &[Token])>
    ensures { option_map (λ x. (x.0.spot, pragma_at_spot x.0.which x.0.state, leaves_of source.count x.1.now)) result
        ≡ leaf_if pragma_of (leaves_of source.count tokens.now) }
{
    match tokens {
        [
            Token {
                at,
                kind: TokenKind::Pragma { which, state },
            },
            rest @ ..,
        ] => {
            let pragma = Pragma {
                spot: spot(source, *at, rest),
                which: *which,
                state: *state,
            };
            Some((pragma, rest))
        }
        _ => None,
    }
}

/// The end of the text; another token cannot stand here.
#[tactic(auto, unfolding(ec_parse_laws::specs::Reading::leaf_if))]
pub fn expect_end(source: Source, tokens: &[Token]) -> Result<(Spot, &[Token]), ReadError>
    ensures { Gives (λ x. (x.0, leaves_of source.count x.1.now)) result
        (needed (leaf_if end_of (leaves_of source.count tokens.now)) (leaves_of source.count tokens.now)) }
{
    match tokens {
        [
            Token {
                at,
                kind: TokenKind::End,
            },
            rest @ ..,
        ] => Ok((spot(source, *at, rest), rest)),
        _ => Err(unexpected(source, tokens)),
    }
}

// Tests of two tokens.

/// The parenthesis of a cast, which specifiers follow.
#[tactic(auto, unfolding(ec_parse_laws::specs::Reading::cast_at))]
pub fn take_cast(source: Source, tokens: &[Token]) -> Option<(Spot, &[Token])>
    ensures { option_map (λ x. (x.0, PunctKind.LeftParenthesis, leaves_of source.count x.1.now)) result
        ≡ cast_at (leaves_of source.count tokens.now) }
{
    let (opening, rest) = take(source, tokens, PunctKind::LeftParenthesis)?;
    if begins_specs(source, rest) {
        Some((opening, rest))
    } else {
        None
    }
}

/// `void` before a parenthesis that closes.
#[tactic(auto, unfolding(ec_parse_laws::specs::Reading::void_at))]
pub fn take_void(source: Source, tokens: &[Token]) -> Option<(Spot, &[Token])>
    ensures { option_map (λ x. (x.0, WordKind.Void, leaves_of source.count x.1.now)) result
        ≡ void_at (leaves_of source.count tokens.now) }
{
    let (word, rest) = take_word(source, tokens, WordKind::Void)?;
    take(source, rest, PunctKind::RightParenthesis)?;
    Some((word, rest))
}

// How constructs begin.

fn starts_punct(punct: PunctKind) -> bool
    ensures { result ≡ starts_punct punct }
{
    matches!(punct, PunctKind::LeftParenthesis) || is_prefix(punct) || is_step(punct)
}

/// Whether an expression can begin here.
pub fn begins_expression(source: Source, tokens: &[Token]) -> bool
    ensures { result ≡ first_is starts_lexeme (leaves_of source.count tokens.now) }
{
    match tokens {
        [Token { kind, .. }, ..] => starts_expression(kind),
        [] => false,
    }
}

fn starts_expression(kind: &TokenKind) -> bool
    ensures { result ≡ starts_lexeme (view_kind kind.now) }
{
    match kind {
        TokenKind::Word(word) => is_word(*word, WordKind::Sizeof),
        TokenKind::Punct(punct) => starts_punct(*punct),
        TokenKind::Name(_)
        | TokenKind::Whole { .. }
        | TokenKind::FixedConst { .. }
        | TokenKind::IoName(_)
        | TokenKind::GroupName(_) => true,
        _ => false,
    }
}

fn starts_statement_punct(punct: PunctKind) -> bool
    ensures { result ≡ starts_statement_punct punct }
{
    is_punct(punct, PunctKind::LeftBrace)
        || is_punct(punct, PunctKind::Semicolon)
        || starts_punct(punct)
}

fn starts_statement(kind: &TokenKind) -> bool
    ensures { result ≡ starts_statement (view_kind kind.now) }
{
    match kind {
        TokenKind::Punct(punct) => starts_statement_punct(*punct),
        TokenKind::Word(word) => keyword_of(*word).is_some() || is_word(*word, WordKind::Sizeof),
        other => starts_expression(other),
    }
}

/// Whether a statement can begin here.
pub fn begins_statement(source: Source, tokens: &[Token]) -> bool
    ensures { result ≡ first_is starts_statement (leaves_of source.count tokens.now) }
{
    match tokens {
        [Token { kind, .. }, ..] => starts_statement(kind),
        [] => false,
    }
}

/// Whether the body of a function can begin here.
pub fn begins_body(source: Source, tokens: &[Token]) -> bool
    ensures { result ≡ first_is is_brace (leaves_of source.count tokens.now) }
{
    match tokens {
        [
            Token {
                kind: TokenKind::Punct(punct),
                ..
            },
            ..
        ] => is_punct(*punct, PunctKind::LeftBrace),
        _ => false,
    }
}
