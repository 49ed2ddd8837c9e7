//! Directives (ISO/IEC 9899:1999, 6.10).
ghost use Rattle.std.specs.Prelude.{◌≡◌, ◌<◌, ◌≤◌, length, map, option_map, IfSome};
ghost use Rattle.ec_lex.specs.Reading.{after_blank_at, after_byte_at, skip, is_quiet, is_end, identifier_at, header_at};
ghost use Rattle.ec_lex.specs.Reading.{pragma_named, state_named, value_at, include_of, define_of, set_of, pragma_of};
ghost use Rattle.ec_lex.specs.Reading.{directive_of};
ghost use Rattle.ec_lex.specs.Views.{view_constant, view_directed, view_scope};

use crate::bytes::{is_letter, is_space, word_len};
use crate::constants::{Constant, character_constant, read_constant};
use crate::pieces::{Form, comment_end, first_prefix, is_taken, piece};
use crate::scope::Scope;
use crate::stop::Header;
use crate::words::look_up;
use ec_grammar::{PragmaKind, PragmaState};

/// What a directive says.
#[derive(Clone, Copy)]
pub enum Directed<'a> {
    Include(Header),
    Define(&'a [u8], Constant),
    Set(PragmaKind, PragmaState),
    Ignored,
}

static HEADERS: [(&[u8], Header); 3] = [
    (b"<stdint.h>", Header::Stdint),
    (b"<stdfix.h>", Header::Stdfix),
    (b"<iohw.h>", Header::Iohw),
];

static PRAGMAS: [(&[u8], PragmaKind); 3] = [
    (b"FX_FULL_PRECISION", PragmaKind::Precision),
    (b"FX_FRACT_OVERFLOW", PragmaKind::Fract),
    (b"FX_ACCUM_OVERFLOW", PragmaKind::Accum),
];

static PRECISION_STATES: [(&[u8], PragmaState); 3] = [
    (b"ON", PragmaState::On),
    (b"OFF", PragmaState::Off),
    (b"DEFAULT", PragmaState::Default),
];

static OVERFLOW_STATES: [(&[u8], PragmaState); 2] = [
    (b"SAT", PragmaState::Sat),
    (b"DEFAULT", PragmaState::Default),
];

/// What follows the white space or the comment at the front.
fn after_blank(bytes: &[u8]) -> Option<&[u8]>
    ensures value { option_map (λ x. x.now) result ≡ after_blank_at bytes.now }
    ensures shorter { IfSome result (λ x. length x.now < length bytes.now) }
{
    match bytes {
        [first, more @ ..] if is_space(*first) => Some(more),
        [b'/', b'*', inside @ ..] => match comment_end(inside) {
            Some(len) => Some(&inside[len..]),
            None => None,
        },
        _ => None,
    }
}

/// What follows the byte or the comment at the front. None where that comment does not end.
fn after_byte(bytes: &[u8]) -> Option<&[u8]>
    ensures value { option_map (λ x. x.now) result ≡ after_byte_at bytes.now }
    ensures shorter { IfSome result (λ x. length x.now < length bytes.now) }
{
    match bytes {
        [b'/', b'*', inside @ ..] => match comment_end(inside) {
            Some(len) => Some(&inside[len..]),
            None => None,
        },
        [_, more @ ..] => Some(more),
        [] => None,
    }
}

/// The bytes without the white space and the comments at the front.
fn skip(bytes: &[u8]) -> &[u8]
    ensures value { result.now ≡ skip bytes.now }
    ensures bound { length result.now ≤ length bytes.now }
{
    let mut rest = bytes;
    loop {
        match after_blank(rest) {
            Some(more) => rest = more,
            None => return rest,
        }
    }
}

/// Whether each `/*` ends.
fn is_quiet(bytes: &[u8]) -> bool
    ensures { result ≡ is_quiet bytes.now }
{
    let mut rest = bytes;
    while !is_end(rest) {
        match after_byte(rest) {
            Some(more) => rest = more,
            None => return false,
        }
    }
    true
}

/// Whether the bytes are at their end, or at a line comment.
fn is_end(bytes: &[u8]) -> bool
    ensures { result ≡ is_end bytes.now }
{
    match bytes {
        [] => true,
        [b'/', b'/', ..] => true,
        _ => false,
    }
}

/// Whether nothing but white space and comments follows.
fn ends(bytes: &[u8]) -> bool
    ensures { result ≡ is_end (skip bytes.now) }
{
    is_end(skip(bytes))
}

/// The identifier at the front, and what follows it.
fn identifier(bytes: &[u8]) -> Option<(&[u8], &[u8])>
    ensures { option_map (λ x. (x.0.now, x.1.now)) result ≡ identifier_at bytes.now }
{
    match bytes {
        [first, more @ ..] if is_letter(*first) => {
            let len = word_len(more);
            Some((&bytes[..len + 1], &more[len..]))
        }
        _ => None,
    }
}

#[tactic(auto, unfolding(crate::specs::Reading::header_at))]
fn header(bytes: &[u8]) -> Option<(Header, &[u8])>
    ensures { option_map (λ x. (x.0, x.1.now)) result ≡ header_at bytes.now }
{
    first_prefix(bytes, &HEADERS)
}

#[tactic(auto, unfolding(crate::specs::Reading::pragma_named))]
fn pragma_named(name: &[u8]) -> Option<PragmaKind>
    ensures { result ≡ pragma_named name.now }
{
    look_up(name, &PRAGMAS)
}

#[tactic(auto, unfolding(crate::specs::Reading::state_named))]
fn state_named(which: PragmaKind, name: &[u8]) -> Option<PragmaState>
    ensures { result ≡ state_named which name.now }
{
    match which {
        PragmaKind::Precision => look_up(name, &PRECISION_STATES),
        PragmaKind::Fract => look_up(name, &OVERFLOW_STATES),
        PragmaKind::Accum => look_up(name, &OVERFLOW_STATES),
    }
}

/// The constant at the front, a number or a character constant, and what follows it.
#[tactic(auto, unfolding(crate::specs::Reading::value_at))]
fn value(bytes: &[u8]) -> Option<(Constant, &[u8])>
    ensures { option_map (λ x. (view_constant x.0, x.1.now)) result ≡ value_at bytes.now }
{
    let (form, rest) = piece(false, bytes)?;
    match form {
        Form::Number => {
            let constant = read_constant(&bytes[..bytes.len() - rest.len()])?;
            Some((constant, rest))
        }
        Form::Character(value) => Some((character_constant(value), rest)),
        _ => None,
    }
}

#[tactic(auto, unfolding(crate::specs::Reading::include_of))]
fn include(bytes: &[u8]) -> Option<Directed<'_>>
    ensures { option_map view_directed result ≡ include_of bytes.now }
{
    let (header, rest) = header(skip(bytes))?;
    if ends(rest) {
        Some(Directed::Include(header))
    } else {
        None
    }
}

#[tactic(auto, unfolding(crate::specs::Reading::define_of))]
fn define<'a>(scope: &Scope, bytes: &'a [u8]) -> Option<Directed<'a>>
    ensures { option_map view_directed result ≡ define_of (view_scope scope.now) bytes.now }
{
    let (name, more) = identifier(skip(bytes))?;
    if is_taken(
        scope.known_word(name).is_some(),
        scope.defined(name).is_some(),
    ) {
        return None;
    }
    let (constant, rest) = value(skip(more))?;
    if ends(rest) {
        Some(Directed::Define(name, constant))
    } else {
        None
    }
}

#[tactic(auto, unfolding(crate::specs::Reading::set_of))]
fn set(bytes: &[u8]) -> Option<Directed<'_>>
    ensures { option_map view_directed result ≡ set_of bytes.now }
{
    let (name, more) = identifier(skip(bytes))?;
    let which = pragma_named(name)?;
    let (name, rest) = identifier(skip(more))?;
    let state = state_named(which, name)?;
    if ends(rest) {
        Some(Directed::Set(which, state))
    } else {
        None
    }
}

#[tactic(auto, unfolding(crate::specs::Reading::pragma_of))]
fn pragma(bytes: &[u8]) -> Option<Directed<'_>>
    ensures { option_map view_directed result ≡ pragma_of bytes.now }
{
    if let Some((name, more)) = identifier(skip(bytes)) {
        if name == b"STDC".as_slice() {
            return set(more);
        }
    }
    if is_quiet(bytes) {
        Some(Directed::Ignored)
    } else {
        None
    }
}

/// What the rest of a line after `#` says, or None where it is no directive.
#[tactic(auto, unfolding(crate::specs::Reading::directive_of))]
pub fn directive<'a>(scope: &Scope, line: &'a [u8]) -> Option<Directed<'a>>
    ensures { option_map view_directed result ≡ directive_of (view_scope scope.now) line.now }
{
    let (name, more) = identifier(skip(line))?;
    if name == b"include".as_slice() {
        return include(more);
    }
    if name == b"define".as_slice() {
        return define(scope, more);
    }
    if name == b"pragma".as_slice() {
        return pragma(more);
    }
    None
}
