//! Operators by their tokens (ISO/IEC 9899:1999, 6.5).
ghost use Rattle.std.specs.Prelude.{◌≡◌};
ghost use Rattle.ec_check_expressions.specs.Tokens.{operator_of, is_and, compound_operator, prefix_operator, is_up, is_arrow};

use ec_check_forms::PrefixOp;
use ec_core::BinOp;
use ec_grammar::PunctKind;

/// The operator on values of a token; the other binary operators are `&&` and `||`.
pub fn operator_of(op: PunctKind) -> Option<BinOp>
    ensures { result ≡ operator_of op }
{
    match op {
        PunctKind::Plus => Some(BinOp::Add),
        PunctKind::Minus => Some(BinOp::Sub),
        PunctKind::Star => Some(BinOp::Mul),
        PunctKind::Slash => Some(BinOp::Div),
        PunctKind::Percent => Some(BinOp::Rem),
        PunctKind::ShiftLeft => Some(BinOp::Shl),
        PunctKind::ShiftRight => Some(BinOp::Shr),
        PunctKind::Ampersand => Some(BinOp::And),
        PunctKind::Bar => Some(BinOp::Or),
        PunctKind::Caret => Some(BinOp::Xor),
        PunctKind::Less => Some(BinOp::Lt),
        PunctKind::Greater => Some(BinOp::Gt),
        PunctKind::LessEqual => Some(BinOp::Le),
        PunctKind::GreaterEqual => Some(BinOp::Ge),
        PunctKind::Equal => Some(BinOp::Eq),
        PunctKind::NotEqual => Some(BinOp::Ne),
        _ => None,
    }
}

/// Whether it is `&&`, and not `||`.
pub fn is_and(op: PunctKind) -> bool
    ensures { result ≡ is_and op }
{
    match op {
        PunctKind::AndAnd => true,
        _ => false,
    }
}

/// The operator of a compound assignment; the other assignment is `=`.
pub fn compound_operator(op: PunctKind) -> Option<BinOp>
    ensures { result ≡ compound_operator op }
{
    match op {
        PunctKind::StarAssign => Some(BinOp::Mul),
        PunctKind::SlashAssign => Some(BinOp::Div),
        PunctKind::PercentAssign => Some(BinOp::Rem),
        PunctKind::PlusAssign => Some(BinOp::Add),
        PunctKind::MinusAssign => Some(BinOp::Sub),
        PunctKind::ShiftLeftAssign => Some(BinOp::Shl),
        PunctKind::ShiftRightAssign => Some(BinOp::Shr),
        PunctKind::AmpersandAssign => Some(BinOp::And),
        PunctKind::CaretAssign => Some(BinOp::Xor),
        PunctKind::BarAssign => Some(BinOp::Or),
        _ => None,
    }
}

/// The operator of a token before an operand, other than `++` and `--`.
pub fn prefix_operator(op: PunctKind) -> PrefixOp
    ensures { result ≡ prefix_operator op }
{
    match op {
        PunctKind::Ampersand => PrefixOp::Address,
        PunctKind::Star => PrefixOp::Deref,
        PunctKind::Plus => PrefixOp::Plus,
        PunctKind::Minus => PrefixOp::Minus,
        PunctKind::Tilde => PrefixOp::Invert,
        _ => PrefixOp::Not,
    }
}

/// Whether it is `++`, and not `--`.
pub fn is_up(op: PunctKind) -> bool
    ensures { result ≡ is_up op }
{
    match op {
        PunctKind::Increment => true,
        _ => false,
    }
}

/// Whether it is `->`, and not `.`.
pub fn is_arrow(op: PunctKind) -> bool
    ensures { result ≡ is_arrow op }
{
    match op {
        PunctKind::Arrow => true,
        _ => false,
    }
}
