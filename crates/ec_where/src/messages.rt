//! What is told of a fault in a source.
ghost use Rattle.std.specs.Prelude.{◌≡◌, ◌<◌, ◌+◌, ◌^◌, ◌↔◌, ℕ};
ghost use Rattle.std.specs.Prelude.{true, IfErr, IfOk, MatchResult, length, option_map};
ghost use Rattle.ec_grammar.specs.Tokens.{view_kind, view_tokens};
ghost use Rattle.ec_parse_laws.specs.Refusals.{EndsWithEnd, StopsBehind};
ghost use Rattle.ec_where.specs.Messages.{IsExpected, IsSyntaxMessage, Says, SaysAt, known_text, known_word, message_text};
ghost use Rattle.ec_where.specs.Messages.{bytes_from, or_constraint, undeclared_at};
ghost use Rattle.ec_where.specs.Located.{BeginsAt, IsIn, place_of};

use crate::locate::{NotFound, tokens_of};
use ec_lex::{PunctKind, Token, TokenKind, WordKind};
use ec_parse::{ParseStop, discard_tree, parse};
use ec_space::Seq;
use ec_where_expected::{listed, standing};
use ec_where_lines::{
    CONSTRAINTS, Fault, NAMES, POINTS, RESERVED, SYNTAX, TokenFault, UNCOUNTED, byte_message,
    look_up, row, undeclared, word_run,
};
use std::alloc::Global;

/// What is told of a fault.
#[derive(Drop)]
pub enum Message {
    /// A row of a table.
    Fixed(&'static str),
    /// A text that was made for the place.
    Made(String),
}

impl Message {
    /// The text.
    pub fn as_str(&self) -> &str
        ensures { result.now ≡ message_text self.now }
    {
        match self {
            Message::Fixed(text) => text,
            Message::Made(text) => text.as_str(),
        }
    }
}

/// The bytes of a text from an offset on.
fn bytes_from(text: &Seq<u8>, at: u32) -> &[u8]
    ensures { result.now ≡ bytes_from text.now.items at }
{
    let bytes = text.as_slice();
    &bytes[bytes.len().min(at as usize)..]
}

/// The row for a word that the language leaves out, or that nothing has made known.
fn word_message(kind: &TokenKind, word: &[u8]) -> Option<&'static str>
    ensures { option_map (λ x. x.now) result ≡ known_word (view_kind kind.now) word.now }
{
    match kind {
        TokenKind::Reserved => look_up(word, &RESERVED),
        TokenKind::Name(_) => look_up(word, &NAMES),
        _ => None,
    }
}

/// A row that is known, or else that of the constraint.
fn or_constraint(known: Option<&'static str>, rule: u32) -> Option<&'static str>
    ensures { option_map (λ x. x.now) result ≡ or_constraint (option_map (λ x. x.now) known.entry) rule }
{
    match known {
        Some(message) => Some(message),
        None => row(&CONSTRAINTS, rule),
    }
}

/// What is told of a name that is not declared before its use, constraint 20, where more is known of it.
fn undeclared_message(rule: u32, kind: &TokenKind, word: &[u8]) -> Option<&'static str>
    ensures { option_map (λ x. x.now) result ≡ undeclared_at rule (view_kind kind.now) word.now }
{
    match kind {
        TokenKind::Name(_) if rule == 20 => undeclared(word),
        _ => None,
    }
}

/// The row for a fault at a token, where there is one.
fn fixed_message(fault: TokenFault, kind: &TokenKind, word: &[u8]) -> Option<&'static str>
    ensures { option_map (λ x. x.now) result ≡ known_text fault (view_kind kind.now) word.now }
{
    match fault {
        TokenFault::Syntax => word_message(kind, word),
        TokenFault::Constraint(rule) => or_constraint(undeclared_message(rule, kind, word), rule),
        TokenFault::Uncounted => Some(UNCOUNTED),
        TokenFault::Undefined(point) => row(&POINTS, point),
    }
}

/// The kind of the token that stands so many tokens before an index.
fn kind_before(tokens: &Seq<Token>, index: u32, back: u32) -> Option<&TokenKind> {
    let token = tokens.get(index.checked_sub(back)? as usize)?;
    Some(&token.kind)
}

/// What is told before the list, by the tokens before the place and the one that stands there.
fn hint(tokens: &Seq<Token>, index: u32) -> &'static str {
    match (
        kind_before(tokens, index, 0),
        kind_before(tokens, index, 1),
        kind_before(tokens, index, 2),
    ) {
        (_, Some(TokenKind::Word(WordKind::Sizeof)), _)
        | (
            _,
            Some(TokenKind::Punct(PunctKind::LeftParenthesis)),
            Some(TokenKind::Word(WordKind::Sizeof)),
        ) => "`sizeof` takes a type in parentheses; ",
        (
            Some(TokenKind::Punct(PunctKind::LeftBracket)),
            Some(TokenKind::Punct(PunctKind::LeftBrace | PunctKind::Comma)),
            _,
        ) => "there are no designated initialisers; ",
        _ => "",
    }
}

/// What may stand at the first bad token of a source, in words.
fn expected_message(alloc: Global, tokens: Seq<Token>, index: u32) -> Result<Message, NotFound>
    requires fits { length tokens.items + 1 < 2 ^ 32 }
    requires stops { StopsBehind 64 index (view_tokens tokens.items) }
    ensures expected { IfOk result (λ m. IsExpected (view_tokens tokens.items) index (message_text m)) }
    ensures fails { IfErr result (λ e. e ≡ NotFound.NoMemory) }
{
    let hint = hint(&tokens, index);
    let Ok(flags) = standing(alloc, tokens, index) else {
        return Err(NotFound::NoMemory);
    };
    let Ok(names) = listed(alloc, flags.as_slice()) else {
        return Err(NotFound::NoMemory);
    };
    match format!(in alloc; "{hint}this cannot stand here; what can: {names} (C99 6.5 to 6.9)") {
        Ok(text) => Ok(Message::Made(text)),
        Err(_) => Err(NotFound::NoMemory),
    }
}

/// Whether the token of this index is the first with which no program goes on.
fn is_first_bad(alloc: Global, tokens: &Seq<Token>, index: u32) -> Result<bool, NotFound>
    requires fits { length tokens.now.items + 1 < 2 ^ 32 }
    requires ended { EndsWithEnd (view_tokens tokens.now.items) }
    ensures { MatchResult result (λ b. (b ≡ true) ↔ StopsBehind 64 index (view_tokens tokens.now.items))
        (λ e. e ≡ NotFound.NoMemory) }
{
    match parse(alloc, tokens) {
        Ok(tree) => {
            discard_tree(tree);
            Ok(false)
        }
        Err(ParseStop::Syntax(at)) => Ok(at == index),
        Err(ParseStop::TooDeep(_)) => Ok(false),
        Err(ParseStop::NoMemory) => Err(NotFound::NoMemory),
    }
}

/// What is told of a token with which no program goes on.
fn syntax_message(alloc: Global, tokens: Seq<Token>, index: u32) -> Result<Message, NotFound>
    requires fits { length tokens.items + 1 < 2 ^ 32 }
    requires ended { EndsWithEnd (view_tokens tokens.items) }
    ensures says { IfOk result (λ m. IsSyntaxMessage (view_tokens tokens.items) index (message_text m)) }
    ensures fails { IfErr result (λ e. e ≡ NotFound.NoMemory) }
{
    if is_first_bad(alloc, &tokens, index)? {
        expected_message(alloc, tokens, index)
    } else {
        Ok(Message::Fixed(SYNTAX))
    }
}

/// What is told of a fault at a token.
fn token_message(
    alloc: Global,
    text: &Seq<u8>,
    index: u32,
    fault: TokenFault,
) -> Result<Message, NotFound>
    requires { length text.now.items < 2 ^ 32 }
    ensures says { IfOk result (λ m. SaysAt text.now.items index fault (message_text m)) }
    ensures absent { (at : ℕ) → BeginsAt text.now.items index at → IfErr result (λ e. e ≡ NotFound.NoMemory) }
{
    let tokens = tokens_of(alloc, text)?;
    let Some(token) = tokens.get(index as usize) else {
        return Err(NotFound::NoSuchPlace);
    };
    let word = word_run(bytes_from(text, token.at));
    match fixed_message(fault, &token.kind, word) {
        Some(message) => Ok(Message::Fixed(message)),
        None => syntax_message(alloc, tokens, index),
    }
}

/// What is told of a fault in a source.
pub fn message_of(alloc: Global, text: &Seq<u8>, fault: Fault) -> Result<Message, NotFound>
    requires { length text.now.items < 2 ^ 32 }
    ensures says { IfOk result (λ m. Says text.now.items fault (message_text m)) }
    ensures absent { (at : ℕ) → IsIn text.now.items (place_of fault) at → IfErr result (λ e. e ≡ NotFound.NoMemory) }
{
    match fault {
        Fault::Byte(offset, what) => Ok(Message::Fixed(byte_message(
            what,
            bytes_from(text, offset),
        ))),
        Fault::Token(index, what) => token_message(alloc, text, index, what),
    }
}
