//! Words of specifiers.
ghost use Rattle.std.specs.Prelude.{◌≡◌};
ghost use Rattle.ec_grammar.specs.Grammar.{is_qualifier, is_spec_word};

use ec_grammar::WordKind;

/// Whether it is a qualifier (6.7.3; the names of spaces: TR 18037, 5.1.2).
pub fn is_qualifier(word: WordKind) -> bool
    ensures { result ≡ is_qualifier word }
{
    matches!(
        word,
        WordKind::Const | WordKind::Flash | WordKind::FarFlash | WordKind::Data
    )
}

/// Whether it is a storage word, a qualifier or a type word (6.7.1 to 6.7.3; TR 18037, 4.1.1 and 5.1.2).
pub fn is_spec_word(word: WordKind) -> bool
    ensures { result ≡ is_spec_word word }
{
    matches!(
        word,
        WordKind::Extern
            | WordKind::Static
            | WordKind::Const
            | WordKind::Flash
            | WordKind::FarFlash
            | WordKind::Data
            | WordKind::Char
            | WordKind::Int
            | WordKind::Long
            | WordKind::Short
            | WordKind::Signed
            | WordKind::Unsigned
            | WordKind::Void
            | WordKind::Fract
            | WordKind::Accum
            | WordKind::Sat
            | WordKind::Int8
            | WordKind::Uint8
            | WordKind::Int16
            | WordKind::Uint16
            | WordKind::Int32
            | WordKind::Uint32
    )
}
