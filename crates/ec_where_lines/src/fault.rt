//! Lines of the tool that name a place of a source.
ghost use Rattle.std.specs.Prelude.{◌≡◌, ℕ, List, IfSome, IsSomeAnd, option_map};
ghost use Rattle.ec_where_lines.specs.Fault.{AreTokenWords, IsNowhere, Marks, Names, byte_words, marked_of};

use crate::parts::{around_last, behind, number};

/// What is wrong at a byte of a source.
#[derive(Clone, Copy)]
pub enum ByteFault {
    /// The byte begins no token.
    BadByte,
    /// The letters and digits from here on are no constant.
    BadNumber,
    /// The comment or character constant that begins here has no end.
    Unclosed,
    /// The directive that begins here is none of the language.
    BadDirective,
}

/// What is wrong at a token of a source.
#[derive(Clone, Copy)]
pub enum TokenFault {
    /// With this token no program goes on.
    Syntax,
    /// The constraint of this number, from 1 to 40, is broken.
    Constraint(u32),
    /// The text does not tell how many turns the loop that begins here makes.
    Uncounted,
    /// The statement that begins here met the undefined point of this number, from 1 to 15.
    Undefined(u32),
}

/// What is wrong in a source, and where.
#[derive(Clone, Copy)]
pub enum Fault {
    /// At the byte of this offset.
    Byte(u32, ByteFault),
    /// At the token of this index, counted from 0.
    Token(u32, TokenFault),
}

/// The name of a source, and what is wrong in it.
#[derive(Clone, Copy)]
pub struct SourceFault<'a> {
    pub name: &'a str,
    pub fault: Fault,
}

/// A name, a number and a fault: `NAME MARK NUMBER: FAULT`.
fn marked<'a>(line: &'a str, mark: &str) -> Option<(&'a str, u32, &'a str)>
    ensures { option_map (λ x. (x.0.now, x.1, x.2.now)) result ≡ marked_of mark.now line.now }
{
    let (head, fault) = around_last(line, ':')?;
    let fault = behind(fault, " ")?;
    let (front, digits) = around_last(head, ' ')?;
    let (name, word) = around_last(front, ' ')?;
    if word == mark {
        Some((name, number(digits)?, fault))
    } else {
        None
    }
}

/// The same, where the parts are the only ones that the line has.
fn only_marked<'a>(line: &'a str, mark: &str) -> Option<(&'a str, u32, &'a str)>
    requires { IsNowhere 32 mark.now }
    ensures found { IfSome result (λ x. Marks mark.now line.now x.0.now x.1 x.2.now) }
    ensures all { (name : List ℕ) (n : ℕ) (fault : List ℕ) → Marks mark.now line.now name n fault
        → IsSomeAnd result (λ x. (x.0.now ≡ name) × (x.1 ≡ n) × (x.2.now ≡ fault)) }
{
    marked(line, mark)
}

/// The fault at a byte that these words tell.
fn byte_fault(words: &str) -> Option<ByteFault>
    ensures found { IfSome result (λ fault. words.now ≡ byte_words fault) }
    ensures all { (fault : ByteFault) → words.now ≡ byte_words fault → result ≡ Some fault }
{
    match words {
        "bad byte" => Some(ByteFault::BadByte),
        "bad number" => Some(ByteFault::BadNumber),
        "unclosed" => Some(ByteFault::Unclosed),
        "bad directive" => Some(ByteFault::BadDirective),
        _ => None,
    }
}

/// The constraint that these words tell.
fn constraint(words: &str) -> Option<TokenFault>
    ensures found { IfSome result (AreTokenWords words.now) }
    ensures all { (rule : ℕ) → AreTokenWords words.now (TokenFault.Constraint rule)
        → result ≡ Some (TokenFault.Constraint rule) }
{
    let rule = number(behind(words, "constraint ")?)?;
    if 1 <= rule && rule <= 40 {
        Some(TokenFault::Constraint(rule))
    } else {
        None
    }
}

/// The undefined point that these words tell.
fn undefined(words: &str) -> Option<TokenFault>
    ensures found { IfSome result (AreTokenWords words.now) }
    ensures all { (point : ℕ) → AreTokenWords words.now (TokenFault.Undefined point)
        → result ≡ Some (TokenFault.Undefined point) }
{
    let point = number(behind(words, "undefined ")?)?;
    if 1 <= point && point <= 15 {
        Some(TokenFault::Undefined(point))
    } else {
        None
    }
}

/// The fault at a token that these words tell.
fn token_fault(words: &str) -> Option<TokenFault>
    ensures found { IfSome result (AreTokenWords words.now) }
    ensures all { (fault : TokenFault) → AreTokenWords words.now fault → result ≡ Some fault }
{
    if words == "syntax" {
        Some(TokenFault::Syntax)
    } else if words == "loop not counted" {
        Some(TokenFault::Uncounted)
    } else {
        constraint(words).or(undefined(words))
    }
}

/// `NAME byte N: FAULT`.
fn at_byte(line: &str) -> Option<(&str, u32, ByteFault)>
    ensures found { IfSome result (λ x. Names line.now x.0.now (Fault.Byte x.1 x.2)) }
    ensures all { (name : List ℕ) (n : ℕ) (fault : ByteFault) → Names line.now name (Fault.Byte n fault)
        → IsSomeAnd result (λ x. (x.0.now ≡ name) × (x.1 ≡ n) × (x.2 ≡ fault)) }
{
    let (name, offset, words) = only_marked(line, "byte")?;
    Some((name, offset, byte_fault(words)?))
}

/// `NAME token K: FAULT`.
fn at_token(line: &str) -> Option<(&str, u32, TokenFault)>
    ensures found { IfSome result (λ x. Names line.now x.0.now (Fault.Token x.1 x.2)) }
    ensures all { (name : List ℕ) (n : ℕ) (fault : TokenFault) → Names line.now name (Fault.Token n fault)
        → IsSomeAnd result (λ x. (x.0.now ≡ name) × (x.1 ≡ n) × (x.2 ≡ fault)) }
{
    let (name, index, words) = only_marked(line, "token")?;
    Some((name, index, token_fault(words)?))
}

/// The source that a line, without its LF, names, and what is wrong in it; none exactly where the line names none.
pub fn source_fault(line: &str) -> Option<SourceFault<'_>>
    ensures found { IfSome result (λ x. Names line.now x.name.now x.fault) }
    ensures all { (name : List ℕ) (fault : Fault) → Names line.now name fault
        → IsSomeAnd result (λ x. (x.name.now ≡ name) × (x.fault ≡ fault)) }
{
    if let Some((name, offset, fault)) = at_byte(line) {
        return Some(SourceFault {
            name,
            fault: Fault::Byte(offset, fault),
        });
    }
    let (name, index, fault) = at_token(line)?;
    Some(SourceFault {
        name,
        fault: Fault::Token(index, fault),
    })
}
