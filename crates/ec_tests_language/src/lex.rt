//! What no clause says: that calls succeed, and that the definitions are those of the standard, on values worked out
//! apart.
use ec_fx::FxKind;
use ec_lex::{
    GroupOp, IoOp, LexStop, PragmaKind, PragmaState, PunctKind, Token, TokenKind, WordKind, lex,
};
use ec_space::{NoMemory, Seq};
use std::alloc::Global;

/// The tokens of the bytes, or why they are refused. A text of 100,000 bytes or more is no test.
fn read(alloc: Global, bytes: &Seq<u8>) -> Result<Seq<Token>, LexStop> {
    if bytes.len() >= 100_000 {
        return Err(LexStop::TooManyTokens);
    }
    lex(alloc, bytes)
}

fn bytes_of(alloc: Global, text: &str) -> Result<Seq<u8>, NoMemory> {
    let mut bytes = Seq::new(alloc);
    bytes.extend_from_slice(text.as_bytes())?;
    Ok(bytes)
}

fn lexed(alloc: Global, text: &str) -> Result<Seq<Token>, LexStop> {
    match bytes_of(alloc, text) {
        Ok(bytes) => read(alloc, &bytes),
        Err(_) => Err(LexStop::NoMemory),
    }
}

/// What stands for a token but a name and the end. A whole number has its value, whether its type is signed, and the bytes of
/// that.
#[derive(Clone, Copy)]
enum Kind {
    Word(WordKind),
    Punct(PunctKind),
    Io(IoOp),
    Group(GroupOp),
    Pragma(PragmaKind, PragmaState),
    Whole(u32, bool, u8),
    Fixed(FxKind, i128),
    Reserved,
}

fn is_whole(token: &Token, number: u32, sign: bool, count: u8) -> bool {
    match &token.kind {
        TokenKind::Whole {
            value,
            signed,
            bytes,
        } => *value == number && *signed == sign && *bytes == count,
        _ => false,
    }
}

fn is_fixed(token: &Token, format: FxKind, number: i128) -> bool {
    match &token.kind {
        TokenKind::FixedConst { kind, n } => *kind == format && *n == number,
        _ => false,
    }
}

fn is_pragma(token: &Token, pragma: PragmaKind, set: PragmaState) -> bool {
    match &token.kind {
        TokenKind::Pragma { which, state } => *which == pragma && *state == set,
        _ => false,
    }
}

fn is_word(token: &Token, want: WordKind) -> bool {
    match &token.kind {
        TokenKind::Word(word) => *word == want,
        _ => false,
    }
}

fn is_punct(token: &Token, want: PunctKind) -> bool {
    match &token.kind {
        TokenKind::Punct(punct) => *punct == want,
        _ => false,
    }
}

fn is_io(token: &Token, want: IoOp) -> bool {
    match &token.kind {
        TokenKind::IoName(op) => *op == want,
        _ => false,
    }
}

fn is_group(token: &Token, want: GroupOp) -> bool {
    match &token.kind {
        TokenKind::GroupName(op) => *op == want,
        _ => false,
    }
}

fn is_kind(token: &Token, kind: Kind) -> bool {
    match kind {
        Kind::Word(word) => is_word(token, word),
        Kind::Punct(punct) => is_punct(token, punct),
        Kind::Io(op) => is_io(token, op),
        Kind::Group(op) => is_group(token, op),
        Kind::Pragma(which, state) => is_pragma(token, which, state),
        Kind::Whole(value, signed, bytes) => is_whole(token, value, signed, bytes),
        Kind::Fixed(kind, n) => is_fixed(token, kind, n),
        Kind::Reserved => is_reserved(token),
    }
}

fn is_reserved(token: &Token) -> bool {
    matches!(&token.kind, TokenKind::Reserved)
}

fn is_end(token: &Token, at: usize) -> bool {
    matches!(&token.kind, TokenKind::End) && token.at as usize == at
}

/// Whether these are the tokens and the end, at this place.
fn are_tokens(tokens: &[Token], kinds: &[Kind], end: usize) -> bool {
    for (token, kind) in tokens.iter().zip(kinds) {
        if !is_kind(token, *kind) {
            return false;
        }
    }
    match tokens.last() {
        Some(last) => tokens.len() == kinds.len() + 1 && is_end(last, end),
        None => false,
    }
}

/// Whether the text is these tokens and the end.
fn is_read_as(alloc: Global, text: &str, kinds: &[Kind]) -> bool {
    match lexed(alloc, text) {
        Ok(tokens) => are_tokens(tokens.as_slice(), kinds, text.len()),
        Err(_) => false,
    }
}

/// Whether the text is refused so.
fn is_refused(alloc: Global, text: &str, stop: LexStop) -> bool {
    match lexed(alloc, text) {
        Ok(_) => false,
        Err(told) => told == stop,
    }
}

/// Constants: a whole number, whether its type is signed, and the bytes of the type.
static WHOLE: [(&str, u32, bool, u8); 31] = [
    ("0", 0, true, 2),
    ("32767", 32767, true, 2),
    ("32768", 32768, true, 4),
    ("2147483647", 2147483647, true, 4),
    ("0u", 0, false, 2),
    ("65535u", 65535, false, 2),
    ("65536U", 65536, false, 4),
    ("4294967295u", 4294967295, false, 4),
    ("1l", 1, true, 4),
    ("2147483647L", 2147483647, true, 4),
    ("1ul", 1, false, 4),
    ("4294967295Lu", 4294967295, false, 4),
    ("0x7fff", 32767, true, 2),
    ("0x8000", 32768, false, 2),
    ("0xFFFF", 65535, false, 2),
    ("0X10000", 65536, true, 4),
    ("0x7fffffff", 2147483647, true, 4),
    ("0x80000000", 2147483648, false, 4),
    ("0xFFFFFFFF", 4294967295, false, 4),
    ("077777", 32767, true, 2),
    ("0100000", 32768, false, 2),
    ("0177777", 65535, false, 2),
    ("0200000", 65536, true, 4),
    ("017777777777", 2147483647, true, 4),
    ("020000000000", 2147483648, false, 4),
    ("037777777777", 4294967295, false, 4),
    ("0x8000l", 32768, true, 4),
    ("0x80000000l", 2147483648, false, 4),
    ("0xffffu", 65535, false, 2),
    ("0x10000u", 65536, false, 4),
    ("00000000000000000000000000012", 10, true, 2),
];

/// Constants: a kind and a number of it.
static FIXED: [(&str, FxKind, i128); 19] = [
    ("0.5hr", FxKind::ShortFract, 64),
    ("1.0hr", FxKind::ShortFract, 127),
    ("0.99609375hr", FxKind::ShortFract, 127),
    ("0.01r", FxKind::Fract, 327),
    ("1.0r", FxKind::Fract, 32767),
    (".5R", FxKind::Fract, 16384),
    ("5.lk", FxKind::LongAccum, 10737418240),
    ("0.999999999999lr", FxKind::LongFract, 2147483647),
    ("255.99hk", FxKind::ShortAccum, 32766),
    ("65535.99k", FxKind::Accum, 2147483320),
    (
        "4294967295.9999999lk",
        FxKind::LongAccum,
        9223372036854775593,
    ),
    ("1.0uhr", FxKind::UnsignedShortFract, 255),
    ("0.998uHR", FxKind::UnsignedShortFract, 255),
    ("1.UR", FxKind::UnsignedFract, 65535),
    ("0.1ulr", FxKind::UnsignedLongFract, 429496729),
    ("255.999uhk", FxKind::UnsignedShortAccum, 65535),
    ("65535.99999uk", FxKind::UnsignedAccum, 4294967295),
    (
        "4294967295.5ulk",
        FxKind::UnsignedLongAccum,
        18446744071562067968,
    ),
    ("0.12345678901234567890123r", FxKind::Fract, 4045),
];

/// Runs that are no constant.
static NO_CONSTANT: [&str; 25] = [
    "2147483648",
    "4294967296u",
    "2147483648l",
    "4294967296lU",
    "0x100000000",
    "040000000000",
    "1.000001hr",
    "256.0hk",
    "65536.k",
    "4294967296.0lk",
    "256.0uhk",
    "65536.0uk",
    "0.123456789012345678901234r",
    "1.5r",
    "08",
    "0x",
    "0xg",
    "1.5",
    "1e5",
    "0x1.8r",
    "1..2r",
    "5rl",
    "1uu",
    "1ll",
    "12ab",
];

#[test]
fn reads_constants(rt: HostRuntime) {
    for &(text, value, signed, bytes) in &WHOLE {
        let kind = Kind::Whole(value, signed, bytes);
        assert!(rt; is_read_as(rt.alloc(), text, &[kind]), "{text}");
    }
    for &(text, kind, n) in &FIXED {
        assert!(rt;
            is_read_as(rt.alloc(), text, &[Kind::Fixed(kind, n)]),
            "{text}"
        );
    }
}

/// Texts and why they are refused. The fault with the least place is told.
static REFUSED: [(&str, LexStop); 33] = [
    ("int main(void){return @;}", LexStop::BadByte(22)),
    ("_Fract x = 1.5r;", LexStop::BadNumber(11)),
    ("@ @", LexStop::BadByte(0)),
    ("int x = 08 @", LexStop::BadNumber(8)),
    ("x /* y", LexStop::Unclosed(2)),
    ("/*/", LexStop::Unclosed(0)),
    ("x = 'a;\n'", LexStop::Unclosed(4)),
    ("x = 'ab'", LexStop::BadByte(4)),
    ("''", LexStop::BadByte(0)),
    ("'\\'", LexStop::BadByte(0)),
    ("'\\q'", LexStop::BadByte(0)),
    ("'\t'", LexStop::BadByte(0)),
    ("x # y", LexStop::BadByte(2)),
    ("\"x\"", LexStop::BadByte(0)),
    ("\n #\nx", LexStop::BadDirective(2)),
    ("#include <stdio.h>", LexStop::BadDirective(0)),
    ("#include < stdint.h>", LexStop::BadDirective(0)),
    ("#include <stdint.h> x", LexStop::BadDirective(0)),
    ("#include /* \n */ <stdint.h>", LexStop::BadDirective(0)),
    ("#define int 1", LexStop::BadDirective(0)),
    ("#define X", LexStop::BadDirective(0)),
    ("#define X1", LexStop::BadDirective(0)),
    ("#define X 08", LexStop::BadDirective(0)),
    ("#define X 1 2", LexStop::BadDirective(0)),
    ("#define X -1", LexStop::BadDirective(0)),
    ("#define X 1\n#define X 1", LexStop::BadDirective(12)),
    ("#define X 1\n#define Y X", LexStop::BadDirective(12)),
    (
        "#include <stdfix.h>\n#define sat 1",
        LexStop::BadDirective(20),
    ),
    (
        "#include <iohw.h>\n#define iord 1",
        LexStop::BadDirective(18),
    ),
    ("#pragma STDC", LexStop::BadDirective(0)),
    (
        "#pragma STDC FX_FRACT_OVERFLOW ON",
        LexStop::BadDirective(0),
    ),
    ("#pragma STDC FP_CONTRACT ON", LexStop::BadDirective(0)),
    ("#pragma once /* x\n*/", LexStop::BadDirective(0)),
];

#[test]
fn tells_the_first_fault(rt: HostRuntime) {
    for text in &NO_CONSTANT {
        assert!(rt;
            is_refused(rt.alloc(), *text, LexStop::BadNumber(0)),
            "{text}"
        );
    }
    for &(text, stop) in &REFUSED {
        assert!(rt; is_refused(rt.alloc(), text, stop), "{text}");
    }
}

/// Texts with words, directives and comments, and their tokens.
static READ: [(&str, &[Kind]); 9] = [
    (
        "#include <iohw.h>\niordbufl iogroup_map",
        &[Kind::Io(IoOp::ReadBufferLong), Kind::Group(GroupOp::Map)],
    ),
    (
        "#include <stdint.h>\nuint16_t __flash __farflash goto",
        &[
            Kind::Word(WordKind::Uint16),
            Kind::Word(WordKind::Flash),
            Kind::Word(WordKind::FarFlash),
            Kind::Reserved,
        ],
    ),
    (
        "#define fract 7\nfract\n#include <stdfix.h>\nfract accum",
        &[
            Kind::Whole(7, true, 2),
            Kind::Whole(7, true, 2),
            Kind::Word(WordKind::Accum),
        ],
    ),
    (
        "#pragma STDC FX_ACCUM_OVERFLOW SAT",
        &[Kind::Pragma(PragmaKind::Accum, PragmaState::Sat)],
    ),
    ("#pragma GCC 'x @ /* y */ // /* z\n", &[]),
    ("#define goto '\\n'\ngoto", &[Kind::Whole(10, true, 2)]),
    (
        "/*a\n*/ # /*b*/ define/*c*/X/*d*/1/*e*/ // f\n\
        /**/#/**/pragma/**/STDC/**/FX_FULL_PRECISION/**/OFF//\n\
        /***/X//**/\n/**/X/**//**/",
        &[
            Kind::Pragma(PragmaKind::Precision, PragmaState::Off),
            Kind::Whole(1, true, 2),
            Kind::Whole(1, true, 2),
        ],
    ),
    (
        ">>=/* >> */>",
        &[
            Kind::Punct(PunctKind::ShiftRightAssign),
            Kind::Punct(PunctKind::Greater),
        ],
    ),
    (
        "+++ / *",
        &[
            Kind::Punct(PunctKind::Increment),
            Kind::Punct(PunctKind::Plus),
            Kind::Punct(PunctKind::Slash),
            Kind::Punct(PunctKind::Star),
        ],
    ),
];

#[test]
fn reads_words_directives_and_comments(rt: HostRuntime) {
    for &(text, kinds) in &READ {
        assert!(rt; is_read_as(rt.alloc(), text, kinds), "{text}");
    }
}

/// Whether the token is this name at this place.
fn is_name(token: &Token, at: u32, name: &[u8]) -> bool {
    match &token.kind {
        TokenKind::Name(bytes) => token.at == at && bytes.as_slice() == name,
        _ => false,
    }
}

fn are_two_names(tokens: &[Token]) -> bool {
    match tokens {
        [x, y, end] => is_name(x, 0, b"x") && is_name(y, 2, b"_y9") && is_end(end, 5),
        _ => false,
    }
}

fn keeps_names(alloc: Global) -> bool {
    match lexed(alloc, "x _y9") {
        Ok(tokens) => are_two_names(tokens.as_slice()),
        Err(_) => false,
    }
}

/// Whether the bytes are so many tokens.
fn are_counted(alloc: Global, bytes: &Seq<u8>, count: usize) -> bool {
    match read(alloc, bytes) {
        Ok(tokens) => tokens.len() == count,
        Err(_) => false,
    }
}

/// Whether the bytes are too many tokens.
fn are_too_many(alloc: Global, bytes: &Seq<u8>) -> bool {
    match read(alloc, bytes) {
        Ok(_) => false,
        Err(stop) => stop == LexStop::TooManyTokens,
    }
}

/// Whether 65,535 semicolons and the end are 65,536 tokens, and one more is too many.
fn counts_tokens(alloc: Global) -> Result<bool, NoMemory> {
    let mut bytes = Seq::filled(alloc, 65_535, b';')?;
    let counted = are_counted(alloc, &bytes, 65_536);
    bytes.push(b';')?;
    Ok(counted && are_too_many(alloc, &bytes))
}

fn is_long_name(tokens: &[Token], name: &[u8]) -> bool {
    match tokens {
        [only, end] => is_name(only, 0, name) && is_end(end, name.len()),
        _ => false,
    }
}

fn is_kept(alloc: Global, name: &Seq<u8>) -> bool {
    match read(alloc, name) {
        Ok(tokens) => is_long_name(tokens.as_slice(), name.as_slice()),
        Err(_) => false,
    }
}

/// Whether a name of 65,000 bytes is kept.
fn keeps_a_long_name(alloc: Global) -> Result<bool, NoMemory> {
    let name = Seq::filled(alloc, 65_000, b'x')?;
    Ok(is_kept(alloc, &name))
}

#[test]
fn keeps_names_and_counts_tokens(rt: HostRuntime) {
    let alloc = rt.alloc();
    assert!(rt; keeps_names(alloc));
    assert!(rt; matches!(keeps_a_long_name(alloc), Ok(true)));
    assert!(rt; matches!(counts_tokens(alloc), Ok(true)));
}

fn letter(number: u32) -> u8 {
    b'a' + (number % 26) as u8
}

/// The line that defines a name of three letters.
fn definition(number: u32) -> [u8; 15] {
    let mut line = *b"#define Xaaa 7\n";
    line[9] = letter(number / 676);
    line[10] = letter(number / 26);
    line[11] = letter(number);
    line
}

/// 3,000 definitions, from `Xaaa` to `Xelj`, and the first and the last name.
fn many_definitions(alloc: Global) -> Result<Seq<u8>, NoMemory> {
    let mut text = Seq::new(alloc);
    for number in 0u32..3_000 {
        text.extend_from_slice(&definition(number))?;
    }
    text.extend_from_slice(b"Xaaa Xelj")?;
    Ok(text)
}

fn are_two_sevens(alloc: Global, text: &Seq<u8>) -> bool {
    match read(alloc, text) {
        Ok(tokens) => are_tokens(
            tokens.as_slice(),
            &[Kind::Whole(7, true, 2), Kind::Whole(7, true, 2)],
            45_009,
        ),
        Err(_) => false,
    }
}

fn takes_many_definitions(alloc: Global) -> Result<bool, NoMemory> {
    let text = many_definitions(alloc)?;
    Ok(are_two_sevens(alloc, &text))
}

#[test]
fn replaces_many_names(rt: HostRuntime) {
    assert!(rt; matches!(takes_many_definitions(rt.alloc()), Ok(true)));
}
