//! Identifiers and words (ISO/IEC 9899:1999, 6.4.1 and 6.4.2).
ghost use Rattle.std.specs.Prelude.{◌≡◌, map, option_map};
ghost use Rattle.std.specs.List.{list_any};
ghost use Rattle.ec_grammar.specs.Tokens.{view_kind};
ghost use Rattle.ec_lex.specs.Words.{same, look_up, plain_word, stdint_word, stdfix_word, io_word, is_reserved};

use ec_grammar::{GroupOp, IoOp, TokenKind, WordKind};

static WORDS: [(&[u8], WordKind); 27] = [
    (b"break", WordKind::Break),
    (b"char", WordKind::Char),
    (b"const", WordKind::Const),
    (b"continue", WordKind::Continue),
    (b"do", WordKind::Do),
    (b"else", WordKind::Else),
    (b"extern", WordKind::Extern),
    (b"for", WordKind::For),
    (b"if", WordKind::If),
    (b"int", WordKind::Int),
    (b"long", WordKind::Long),
    (b"register", WordKind::Register),
    (b"return", WordKind::Return),
    (b"short", WordKind::Short),
    (b"signed", WordKind::Signed),
    (b"sizeof", WordKind::Sizeof),
    (b"static", WordKind::Static),
    (b"struct", WordKind::Struct),
    (b"unsigned", WordKind::Unsigned),
    (b"void", WordKind::Void),
    (b"while", WordKind::While),
    (b"_Fract", WordKind::Fract),
    (b"_Accum", WordKind::Accum),
    (b"_Sat", WordKind::Sat),
    (b"__flash", WordKind::Flash),
    (b"__farflash", WordKind::FarFlash),
    (b"__data", WordKind::Data),
];

static STDINT_WORDS: [(&[u8], WordKind); 6] = [
    (b"int8_t", WordKind::Int8),
    (b"uint8_t", WordKind::Uint8),
    (b"int16_t", WordKind::Int16),
    (b"uint16_t", WordKind::Uint16),
    (b"int32_t", WordKind::Int32),
    (b"uint32_t", WordKind::Uint32),
];

static STDFIX_WORDS: [(&[u8], WordKind); 3] = [
    (b"fract", WordKind::Fract),
    (b"accum", WordKind::Accum),
    (b"sat", WordKind::Sat),
];

static IO_NAMES: [(&[u8], IoOp); 20] = [
    (b"iord", IoOp::Read),
    (b"iordl", IoOp::ReadLong),
    (b"iordbuf", IoOp::ReadBuffer),
    (b"iordbufl", IoOp::ReadBufferLong),
    (b"iowr", IoOp::Write),
    (b"iowrl", IoOp::WriteLong),
    (b"iowrbuf", IoOp::WriteBuffer),
    (b"iowrbufl", IoOp::WriteBufferLong),
    (b"ioor", IoOp::Or),
    (b"ioorl", IoOp::OrLong),
    (b"ioorbuf", IoOp::OrBuffer),
    (b"ioorbufl", IoOp::OrBufferLong),
    (b"ioand", IoOp::And),
    (b"ioandl", IoOp::AndLong),
    (b"ioandbuf", IoOp::AndBuffer),
    (b"ioandbufl", IoOp::AndBufferLong),
    (b"ioxor", IoOp::Xor),
    (b"ioxorl", IoOp::XorLong),
    (b"ioxorbuf", IoOp::XorBuffer),
    (b"ioxorbufl", IoOp::XorBufferLong),
];

static GROUP_NAMES: [(&[u8], GroupOp); 3] = [
    (b"iogroup_acquire", GroupOp::Acquire),
    (b"iogroup_release", GroupOp::Release),
    (b"iogroup_map", GroupOp::Map),
];

static RESERVED: [&[u8]; 16] = [
    b"auto",
    b"case",
    b"default",
    b"double",
    b"enum",
    b"float",
    b"goto",
    b"inline",
    b"restrict",
    b"switch",
    b"typedef",
    b"union",
    b"volatile",
    b"_Bool",
    b"_Complex",
    b"_Imaginary",
];

/// What the table's first entry with these bytes has.
pub fn look_up<K: Copy>(name: &[u8], table: &[(&[u8], K)]) -> Option<K>
    ensures { result ≡ look_up name.now (map (λ x. (x.0.now, x.1)) table.now) }
{
    for (spelling, kind) in table {
        if name == *spelling {
            return Some(*kind);
        }
    }
    None
}

fn is_listed(name: &[u8], words: &[&[u8]]) -> bool
    ensures { result ≡ list_any (λ other. same name.now other) (map (λ x. x.now) words.now) }
{
    for word in words {
        if name == *word {
            return true;
        }
    }
    false
}

/// A word that needs no header.
#[tactic(auto, unfolding(crate::specs::Words::plain_word))]
pub fn plain_word(name: &[u8]) -> Option<TokenKind>
    ensures { option_map view_kind result ≡ plain_word name.now }
{
    look_up(name, &WORDS).map(TokenKind::Word)
}

/// A word of `<stdint.h>`.
#[tactic(auto, unfolding(crate::specs::Words::stdint_word))]
pub fn stdint_word(name: &[u8]) -> Option<TokenKind>
    ensures { option_map view_kind result ≡ stdint_word name.now }
{
    look_up(name, &STDINT_WORDS).map(TokenKind::Word)
}

/// A word of `<stdfix.h>`.
#[tactic(auto, unfolding(crate::specs::Words::stdfix_word))]
pub fn stdfix_word(name: &[u8]) -> Option<TokenKind>
    ensures { option_map view_kind result ≡ stdfix_word name.now }
{
    look_up(name, &STDFIX_WORDS).map(TokenKind::Word)
}

/// A name of `<iohw.h>`.
#[tactic(auto, unfolding(crate::specs::Words::io_word))]
pub fn io_word(name: &[u8]) -> Option<TokenKind>
    ensures { option_map view_kind result ≡ io_word name.now }
{
    match look_up(name, &IO_NAMES) {
        Some(op) => Some(TokenKind::IoName(op)),
        None => look_up(name, &GROUP_NAMES).map(TokenKind::GroupName),
    }
}

/// Whether the name is reserved: a word without a place in the grammar.
#[tactic(auto, unfolding(crate::specs::Words::is_reserved))]
pub fn is_reserved(name: &[u8]) -> bool
    ensures { result ≡ is_reserved name.now }
{
    is_listed(name, &RESERVED)
}
