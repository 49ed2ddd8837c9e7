//! The pieces of a text: what stands at its front.
ghost use Rattle.std.specs.Prelude.{◌≡◌, ◌-◌, ◌^◌, ◌<◌, ◌≤◌, ◌||◌, length, IfSome};
ghost use Rattle.ec_lex.specs.Comments.{comment_end};
ghost use Rattle.std.specs.Prelude.{map, option_map};
ghost use Rattle.ec_lex.specs.Pieces.{punctuators, escaped, is_plain};
ghost use Rattle.ec_lex.specs.Reading.{first_prefix, character_at, punctuator_at, piece_at};

use crate::bytes::{is_digit, is_letter, is_space, line_len, run_len, word_len};
use ec_grammar::PunctKind;

/// How many bytes there are up to the end of the first `*/` (ISO/IEC 9899:1999, 6.4.9). None where no `*/` stands.
pub fn comment_end(bytes: &[u8]) -> Option<usize>
    ensures value { result ≡ comment_end bytes.now }
    ensures bound { IfSome result (λ n. n ≤ length bytes.now) }
{
    let mut rest = bytes;
    loop {
        match rest {
            [b'*', b'/', ..] => return Some(bytes.len() - rest.len() + 2),
            [_, more @ ..] => rest = more,
            [] => return None,
        }
    }
}

/// Whether a name may not be defined as a macro: it is a word, or it is defined already. Each macro is defined once,
/// where ISO/IEC 9899:1999, 6.10.3, would allow the same definition again.
pub fn is_taken(word: bool, defined: bool) -> bool
    ensures { result ≡ (word || defined) }
{
    word || defined
}

/// The offset, in bytes from 0, of what is left of a text.
pub fn offset(text: &[u8], rest: &[u8]) -> u32
    requires within { length rest.now ≤ length text.now }
    requires size { length text.now < 2 ^ 32 }
    ensures { result ≡ length text.now - length rest.now }
{
    (text.len() - rest.len()) as u32
}

/// What the bytes of a piece form.
#[derive(Clone, Copy, Debug, PartialEq, Eq)]
pub enum Form {
    /// One byte of white space.
    Space,
    /// `//` up to the line's end.
    LineComment,
    /// `/*` up to the first `*/`.
    Comment,
    /// `/*` that no `*/` follows.
    OpenComment,
    Identifier,
    /// A digit, or `.` and a digit, and the letters, digits, `_` and `.` that follow.
    Number,
    /// A character constant, with its value.
    Character(u8),
    /// A `'` that begins no character constant.
    Quote,
    Punctuator(PunctKind),
    /// `#` up to the line's end.
    Directive,
}

static PUNCTUATORS: [(&[u8], PunctKind); 45] = [
    (b"<<=", PunctKind::ShiftLeftAssign),
    (b">>=", PunctKind::ShiftRightAssign),
    (b"->", PunctKind::Arrow),
    (b"++", PunctKind::Increment),
    (b"--", PunctKind::Decrement),
    (b"<<", PunctKind::ShiftLeft),
    (b">>", PunctKind::ShiftRight),
    (b"<=", PunctKind::LessEqual),
    (b">=", PunctKind::GreaterEqual),
    (b"==", PunctKind::Equal),
    (b"!=", PunctKind::NotEqual),
    (b"&&", PunctKind::AndAnd),
    (b"||", PunctKind::OrOr),
    (b"*=", PunctKind::StarAssign),
    (b"/=", PunctKind::SlashAssign),
    (b"%=", PunctKind::PercentAssign),
    (b"+=", PunctKind::PlusAssign),
    (b"-=", PunctKind::MinusAssign),
    (b"&=", PunctKind::AmpersandAssign),
    (b"^=", PunctKind::CaretAssign),
    (b"|=", PunctKind::BarAssign),
    (b"{", PunctKind::LeftBrace),
    (b"}", PunctKind::RightBrace),
    (b"(", PunctKind::LeftParenthesis),
    (b")", PunctKind::RightParenthesis),
    (b"[", PunctKind::LeftBracket),
    (b"]", PunctKind::RightBracket),
    (b";", PunctKind::Semicolon),
    (b",", PunctKind::Comma),
    (b".", PunctKind::Dot),
    (b"&", PunctKind::Ampersand),
    (b"*", PunctKind::Star),
    (b"+", PunctKind::Plus),
    (b"-", PunctKind::Minus),
    (b"~", PunctKind::Tilde),
    (b"!", PunctKind::Not),
    (b"/", PunctKind::Slash),
    (b"%", PunctKind::Percent),
    (b"<", PunctKind::Less),
    (b">", PunctKind::Greater),
    (b"^", PunctKind::Caret),
    (b"|", PunctKind::Bar),
    (b"?", PunctKind::Question),
    (b":", PunctKind::Colon),
    (b"=", PunctKind::Assign),
];

/// The first entry of the table that the bytes begin with, and what follows it.
pub fn first_prefix<'a, K: Copy>(bytes: &'a [u8], table: &[(&[u8], K)]) -> Option<(K, &'a [u8])>
    ensures value { option_map (λ x. (x.0, x.1.now)) result
        ≡ first_prefix bytes.now (map (λ x. (x.0.now, x.1)) table.now) }
    ensures bound { IfSome result (λ x. length x.1.now ≤ length bytes.now) }
{
    for (spelling, kind) in table {
        if bytes.starts_with(*spelling) {
            return Some((*kind, &bytes[spelling.len()..]));
        }
    }
    None
}

#[tactic(auto, unfolding(crate::specs::Reading::punctuator_at))]
fn punctuator(bytes: &[u8]) -> Option<(PunctKind, &[u8])>
    ensures value { option_map (λ x. (x.0, x.1.now)) result ≡ punctuator_at bytes.now }
    ensures bound { IfSome result (λ x. length x.1.now ≤ length bytes.now) }
{
    first_prefix(bytes, &PUNCTUATORS)
}

fn escaped(letter: u8) -> Option<u8>
    ensures { result ≡ escaped letter }
{
    match letter {
        b'n' => Some(10),
        b'r' => Some(13),
        b't' => Some(9),
        b'0' => Some(0),
        b'\\' => Some(b'\\'),
        b'\'' => Some(b'\''),
        _ => None,
    }
}

fn is_plain(b: u8) -> bool
    ensures { result ≡ is_plain b }
{
    0x20 <= b && b <= 0x7E && b != b'\'' && b != b'\\'
}

/// The value of the character constant whose first `'` stands before the bytes, and what follows it.
fn character(bytes: &[u8]) -> Option<(u8, &[u8])>
    ensures value { option_map (λ x. (x.0, x.1.now)) result ≡ character_at bytes.now }
    ensures bound { IfSome result (λ x. length x.1.now ≤ length bytes.now) }
{
    match bytes {
        [b'\\', letter, b'\'', rest @ ..] => match escaped(*letter) {
            Some(value) => Some((value, rest)),
            None => None,
        },
        [value, b'\'', rest @ ..] if is_plain(*value) => Some((*value, rest)),
        _ => None,
    }
}

/// The piece at the front, and what follows it. None where the first byte begins nothing.
#[tactic(auto, unfolding(crate::specs::Reading::piece_at))]
pub fn piece(line_start: bool, bytes: &[u8]) -> Option<(Form, &[u8])>
    ensures value { option_map (λ x. (x.0, x.1.now)) result ≡ piece_at line_start bytes.now }
    ensures shorter { IfSome result (λ x. length x.1.now < length bytes.now) }
{
    let [first, more @ ..] = bytes else {
        return None;
    };
    if is_space(*first) {
        return Some((Form::Space, more));
    }
    if is_letter(*first) {
        return Some((Form::Identifier, &more[word_len(more)..]));
    }
    if is_digit(*first) {
        return Some((Form::Number, &more[run_len(more)..]));
    }
    match bytes {
        [b'.', digit, ..] if is_digit(*digit) => Some((Form::Number, &more[run_len(more)..])),
        [b'\'', ..] => match character(more) {
            Some((value, rest)) => Some((Form::Character(value), rest)),
            None => Some((Form::Quote, more)),
        },
        [b'#', ..] if line_start => Some((Form::Directive, &more[line_len(more)..])),
        [b'#', ..] => None,
        [b'/', b'/', ..] => Some((Form::LineComment, &more[line_len(more)..])),
        [b'/', b'*', inside @ ..] => match comment_end(inside) {
            Some(len) => Some((Form::Comment, &inside[len..])),
            None => Some((Form::OpenComment, &inside[inside.len()..])),
        },
        _ => match punctuator(bytes) {
            Some((kind, rest)) => Some((Form::Punctuator(kind), rest)),
            None => None,
        },
    }
}
