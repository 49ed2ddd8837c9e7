//! Operators among the punctuators.
ghost use Rattle.std.specs.Prelude.{◌≡◌};
ghost use Rattle.ec_grammar.specs.Grammar.{is_prefix, is_step, is_access, is_assign, level_of};

use ec_grammar::PunctKind;

/// Whether it stands before a cast expression (6.5.3).
pub fn is_prefix(punct: PunctKind) -> bool
    ensures { result ≡ is_prefix punct }
{
    matches!(
        punct,
        PunctKind::Ampersand
            | PunctKind::Star
            | PunctKind::Plus
            | PunctKind::Minus
            | PunctKind::Tilde
            | PunctKind::Not
    )
}

/// Whether it is `++` or `--` (6.5.2.4 and 6.5.3.1).
pub fn is_step(punct: PunctKind) -> bool
    ensures { result ≡ is_step punct }
{
    matches!(punct, PunctKind::Increment | PunctKind::Decrement)
}

/// Whether it is `.` or `->` (6.5.2.3).
pub fn is_access(punct: PunctKind) -> bool
    ensures { result ≡ is_access punct }
{
    matches!(punct, PunctKind::Dot | PunctKind::Arrow)
}

/// Whether it assigns (6.5.16).
pub fn is_assign(punct: PunctKind) -> bool
    ensures { result ≡ is_assign punct }
{
    matches!(
        punct,
        PunctKind::Assign
            | PunctKind::StarAssign
            | PunctKind::SlashAssign
            | PunctKind::PercentAssign
            | PunctKind::PlusAssign
            | PunctKind::MinusAssign
            | PunctKind::ShiftLeftAssign
            | PunctKind::ShiftRightAssign
            | PunctKind::AmpersandAssign
            | PunctKind::CaretAssign
            | PunctKind::BarAssign
    )
}

/// The level of a binary operator, the tightest being 1; 0 for another punctuator (6.5.5 to 6.5.14).
pub fn level(punct: PunctKind) -> u8
    ensures { result ≡ level_of punct }
{
    match punct {
        PunctKind::Star | PunctKind::Slash | PunctKind::Percent => 1,
        PunctKind::Plus | PunctKind::Minus => 2,
        PunctKind::ShiftLeft | PunctKind::ShiftRight => 3,
        PunctKind::Less | PunctKind::Greater | PunctKind::LessEqual | PunctKind::GreaterEqual => 4,
        PunctKind::Equal | PunctKind::NotEqual => 5,
        PunctKind::Ampersand => 6,
        PunctKind::Caret => 7,
        PunctKind::Bar => 8,
        PunctKind::AndAnd => 9,
        PunctKind::OrOr => 10,
        _ => 0,
    }
}
