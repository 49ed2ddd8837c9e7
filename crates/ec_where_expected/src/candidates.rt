//! The kinds of tokens.
ghost use Rattle.std.specs.Prelude.{◌≡◌};
ghost use Rattle.ec_grammar.specs.Tokens.{view_kind};
ghost use Rattle.ec_where_expected.specs.Expected.{lexeme_of};

use ec_fx::FxKind;
use ec_grammar::{GroupOp, IoOp, PragmaKind, PragmaState, PunctKind, TokenKind, WordKind};
use ec_space::Seq;
use std::alloc::Global;

/// A kind of token, of which the grammar reads each the same. Reserved words have no place in the grammar.
#[derive(Clone, Copy)]
pub enum Candidate {
    Word(WordKind),
    Punct(PunctKind),
    Name,
    Integer,
    FixedPoint,
    PortOperation,
    GroupOperation,
    Pragma,
    End,
}

/// Kinds that are told by one name where all of them may stand.
#[derive(Clone, Copy)]
pub enum Class {
    Operand,
    Operator,
    Assignment,
    Specifier,
    Statement,
}

/// Which classes a kind is of.
#[derive(Clone, Copy)]
pub struct Classes {
    pub operand: bool,
    pub operator: bool,
    pub assignment: bool,
    pub specifier: bool,
    pub statement: bool,
}

const NO_CLASS: Classes = Classes {
    operand: false,
    operator: false,
    assignment: false,
    specifier: false,
    statement: false,
};

const OPERAND: Classes = Classes {
    operand: true,
    ..NO_CLASS
};

const OPERATOR: Classes = Classes {
    operator: true,
    ..NO_CLASS
};

const SIGN: Classes = Classes {
    operand: true,
    ..OPERATOR
};

const ASSIGNMENT: Classes = Classes {
    assignment: true,
    ..NO_CLASS
};

const SPECIFIER: Classes = Classes {
    specifier: true,
    ..NO_CLASS
};

const STATEMENT: Classes = Classes {
    statement: true,
    ..NO_CLASS
};

/// The classes, and how each is told where all its kinds may stand.
pub static CLASSES: [(Class, &str); 5] = [
    (Class::Operand, "an operand"),
    (Class::Operator, "a binary operator"),
    (Class::Assignment, "an assignment operator"),
    (
        Class::Specifier,
        "a word of a type (as `int`, `void`, `const`, `static`)",
    ),
    (
        Class::Statement,
        "a word of a statement (as `if`, `while`, `return`)",
    ),
];

/// A token of this kind. What it carries plays no part in reading.
pub fn token_of(alloc: Global, candidate: Candidate) -> TokenKind
    ensures { view_kind result ≡ lexeme_of candidate }
{
    match candidate {
        Candidate::Word(word) => TokenKind::Word(word),
        Candidate::Punct(punct) => TokenKind::Punct(punct),
        Candidate::Name => TokenKind::Name(Seq::new(alloc)),
        Candidate::Integer => TokenKind::Whole {
            value: 1,
            signed: true,
            bytes: 2,
        },
        Candidate::FixedPoint => TokenKind::FixedConst {
            kind: FxKind::Fract,
            n: 1,
        },
        Candidate::PortOperation => TokenKind::IoName(IoOp::Read),
        Candidate::GroupOperation => TokenKind::GroupName(GroupOp::Acquire),
        Candidate::Pragma => TokenKind::Pragma {
            which: PragmaKind::Precision,
            state: PragmaState::On,
        },
        Candidate::End => TokenKind::End,
    }
}

/// All kinds, in the order in which they are told: how each is told, and the classes that it is of.
pub static ROWS: [(Candidate, &str, Classes); 85] = [
    (Candidate::Punct(PunctKind::Semicolon), "`;`", NO_CLASS),
    (Candidate::Punct(PunctKind::Comma), "`,`", NO_CLASS),
    (
        Candidate::Punct(PunctKind::RightParenthesis),
        "`)`",
        NO_CLASS,
    ),
    (Candidate::Punct(PunctKind::RightBracket), "`]`", NO_CLASS),
    (Candidate::Punct(PunctKind::LeftBrace), "`{`", NO_CLASS),
    (Candidate::Punct(PunctKind::RightBrace), "`}`", NO_CLASS),
    (Candidate::Punct(PunctKind::LeftParenthesis), "`(`", OPERAND),
    (Candidate::Punct(PunctKind::LeftBracket), "`[`", NO_CLASS),
    (Candidate::Punct(PunctKind::Dot), "`.`", NO_CLASS),
    (Candidate::Punct(PunctKind::Arrow), "`->`", NO_CLASS),
    (Candidate::Punct(PunctKind::Increment), "`++`", OPERAND),
    (Candidate::Punct(PunctKind::Decrement), "`--`", OPERAND),
    (Candidate::Punct(PunctKind::Question), "`?`", NO_CLASS),
    (Candidate::Punct(PunctKind::Colon), "`:`", NO_CLASS),
    (Candidate::Punct(PunctKind::Ampersand), "`&`", SIGN),
    (Candidate::Punct(PunctKind::Star), "`*`", SIGN),
    (Candidate::Punct(PunctKind::Plus), "`+`", SIGN),
    (Candidate::Punct(PunctKind::Minus), "`-`", SIGN),
    (Candidate::Punct(PunctKind::Tilde), "`~`", OPERAND),
    (Candidate::Punct(PunctKind::Not), "`!`", OPERAND),
    (Candidate::Punct(PunctKind::Slash), "`/`", OPERATOR),
    (Candidate::Punct(PunctKind::Percent), "`%`", OPERATOR),
    (Candidate::Punct(PunctKind::ShiftLeft), "`<<`", OPERATOR),
    (Candidate::Punct(PunctKind::ShiftRight), "`>>`", OPERATOR),
    (Candidate::Punct(PunctKind::Less), "`<`", OPERATOR),
    (Candidate::Punct(PunctKind::Greater), "`>`", OPERATOR),
    (Candidate::Punct(PunctKind::LessEqual), "`<=`", OPERATOR),
    (Candidate::Punct(PunctKind::GreaterEqual), "`>=`", OPERATOR),
    (Candidate::Punct(PunctKind::Equal), "`==`", OPERATOR),
    (Candidate::Punct(PunctKind::NotEqual), "`!=`", OPERATOR),
    (Candidate::Punct(PunctKind::Caret), "`^`", OPERATOR),
    (Candidate::Punct(PunctKind::Bar), "`|`", OPERATOR),
    (Candidate::Punct(PunctKind::AndAnd), "`&&`", OPERATOR),
    (Candidate::Punct(PunctKind::OrOr), "`||`", OPERATOR),
    (Candidate::Punct(PunctKind::Assign), "`=`", ASSIGNMENT),
    (Candidate::Punct(PunctKind::StarAssign), "`*=`", ASSIGNMENT),
    (Candidate::Punct(PunctKind::SlashAssign), "`/=`", ASSIGNMENT),
    (
        Candidate::Punct(PunctKind::PercentAssign),
        "`%=`",
        ASSIGNMENT,
    ),
    (Candidate::Punct(PunctKind::PlusAssign), "`+=`", ASSIGNMENT),
    (Candidate::Punct(PunctKind::MinusAssign), "`-=`", ASSIGNMENT),
    (
        Candidate::Punct(PunctKind::ShiftLeftAssign),
        "`<<=`",
        ASSIGNMENT,
    ),
    (
        Candidate::Punct(PunctKind::ShiftRightAssign),
        "`>>=`",
        ASSIGNMENT,
    ),
    (
        Candidate::Punct(PunctKind::AmpersandAssign),
        "`&=`",
        ASSIGNMENT,
    ),
    (Candidate::Punct(PunctKind::CaretAssign), "`^=`", ASSIGNMENT),
    (Candidate::Punct(PunctKind::BarAssign), "`|=`", ASSIGNMENT),
    (Candidate::Word(WordKind::Break), "`break`", STATEMENT),
    (Candidate::Word(WordKind::Char), "`char`", SPECIFIER),
    (Candidate::Word(WordKind::Const), "`const`", SPECIFIER),
    (Candidate::Word(WordKind::Continue), "`continue`", STATEMENT),
    (Candidate::Word(WordKind::Do), "`do`", STATEMENT),
    (Candidate::Word(WordKind::Else), "`else`", NO_CLASS),
    (Candidate::Word(WordKind::Extern), "`extern`", SPECIFIER),
    (Candidate::Word(WordKind::For), "`for`", STATEMENT),
    (Candidate::Word(WordKind::If), "`if`", STATEMENT),
    (Candidate::Word(WordKind::Int), "`int`", SPECIFIER),
    (Candidate::Word(WordKind::Long), "`long`", SPECIFIER),
    (Candidate::Word(WordKind::Register), "`register`", NO_CLASS),
    (Candidate::Word(WordKind::Return), "`return`", STATEMENT),
    (Candidate::Word(WordKind::Short), "`short`", SPECIFIER),
    (Candidate::Word(WordKind::Signed), "`signed`", SPECIFIER),
    (Candidate::Word(WordKind::Sizeof), "`sizeof`", OPERAND),
    (Candidate::Word(WordKind::Static), "`static`", SPECIFIER),
    (Candidate::Word(WordKind::Struct), "`struct`", SPECIFIER),
    (Candidate::Word(WordKind::Unsigned), "`unsigned`", SPECIFIER),
    (Candidate::Word(WordKind::Void), "`void`", SPECIFIER),
    (Candidate::Word(WordKind::While), "`while`", STATEMENT),
    (Candidate::Word(WordKind::Fract), "`_Fract`", SPECIFIER),
    (Candidate::Word(WordKind::Accum), "`_Accum`", SPECIFIER),
    (Candidate::Word(WordKind::Sat), "`_Sat`", SPECIFIER),
    (Candidate::Word(WordKind::Flash), "`__flash`", SPECIFIER),
    (
        Candidate::Word(WordKind::FarFlash),
        "`__farflash`",
        SPECIFIER,
    ),
    (Candidate::Word(WordKind::Data), "`__data`", SPECIFIER),
    (Candidate::Word(WordKind::Int8), "`int8_t`", SPECIFIER),
    (Candidate::Word(WordKind::Uint8), "`uint8_t`", SPECIFIER),
    (Candidate::Word(WordKind::Int16), "`int16_t`", SPECIFIER),
    (Candidate::Word(WordKind::Uint16), "`uint16_t`", SPECIFIER),
    (Candidate::Word(WordKind::Int32), "`int32_t`", SPECIFIER),
    (Candidate::Word(WordKind::Uint32), "`uint32_t`", SPECIFIER),
    (Candidate::Name, "a name", OPERAND),
    (Candidate::Integer, "an integer constant", OPERAND),
    (Candidate::FixedPoint, "a fixed-point constant", OPERAND),
    (Candidate::PortOperation, "a port operation", OPERAND),
    (
        Candidate::GroupOperation,
        "an operation on a group of ports",
        OPERAND,
    ),
    (Candidate::Pragma, "a pragma", NO_CLASS),
    (Candidate::End, "the end of the text", NO_CLASS),
];
