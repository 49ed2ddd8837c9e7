//! Tokens (ISO/IEC 9899:1999, 6.4; ISO/IEC TR 18037:2008).
use ec_fx::FxKind;
pub use ec_iohw::IoOp;
use ec_space::Name;

/// A word with a place in the grammar.
#[derive(Clone, Copy, Debug, PartialEq, Eq)]
pub enum WordKind {
    Break,
    Char,
    Const,
    Continue,
    Do,
    Else,
    Extern,
    For,
    If,
    Int,
    Long,
    Register,
    Return,
    Short,
    Signed,
    Sizeof,
    Static,
    Struct,
    Unsigned,
    Void,
    While,
    /// `_Fract`, and `fract` of `<stdfix.h>`
    Fract,
    /// `_Accum`, and `accum` of `<stdfix.h>`
    Accum,
    /// `_Sat`, and `sat` of `<stdfix.h>`
    Sat,
    /// `__flash`
    Flash,
    /// `__farflash`
    FarFlash,
    /// `__data`
    Data,
    /// `int8_t` of `<stdint.h>`
    Int8,
    /// `uint8_t` of `<stdint.h>`
    Uint8,
    /// `int16_t` of `<stdint.h>`
    Int16,
    /// `uint16_t` of `<stdint.h>`
    Uint16,
    /// `int32_t` of `<stdint.h>`
    Int32,
    /// `uint32_t` of `<stdint.h>`
    Uint32,
}

/// A punctuator (ISO/IEC 9899:1999, 6.4.6).
#[derive(Clone, Copy, Debug, PartialEq, Eq)]
pub enum PunctKind {
    /// `{`
    LeftBrace,
    /// `}`
    RightBrace,
    /// `(`
    LeftParenthesis,
    /// `)`
    RightParenthesis,
    /// `[`
    LeftBracket,
    /// `]`
    RightBracket,
    /// `;`
    Semicolon,
    /// `,`
    Comma,
    /// `.`
    Dot,
    /// `->`
    Arrow,
    /// `++`
    Increment,
    /// `--`
    Decrement,
    /// `&`
    Ampersand,
    /// `*`
    Star,
    /// `+`
    Plus,
    /// `-`
    Minus,
    /// `~`
    Tilde,
    /// `!`
    Not,
    /// `/`
    Slash,
    /// `%`
    Percent,
    /// `<<`
    ShiftLeft,
    /// `>>`
    ShiftRight,
    /// `<`
    Less,
    /// `>`
    Greater,
    /// `<=`
    LessEqual,
    /// `>=`
    GreaterEqual,
    /// `==`
    Equal,
    /// `!=`
    NotEqual,
    /// `^`
    Caret,
    /// `|`
    Bar,
    /// `&&`
    AndAnd,
    /// `||`
    OrOr,
    /// `?`
    Question,
    /// `:`
    Colon,
    /// `=`
    Assign,
    /// `*=`
    StarAssign,
    /// `/=`
    SlashAssign,
    /// `%=`
    PercentAssign,
    /// `+=`
    PlusAssign,
    /// `-=`
    MinusAssign,
    /// `<<=`
    ShiftLeftAssign,
    /// `>>=`
    ShiftRightAssign,
    /// `&=`
    AmpersandAssign,
    /// `^=`
    CaretAssign,
    /// `|=`
    BarAssign,
}

/// An operation on a group of ports (ISO/IEC TR 18037:2008, 6.3).
#[derive(Clone, Copy, Debug, PartialEq, Eq)]
pub enum GroupOp {
    /// `iogroup_acquire`
    Acquire,
    /// `iogroup_release`
    Release,
    /// `iogroup_map`
    Map,
}

/// What a pragma sets (ISO/IEC TR 18037:2008, 4.1.3 and 4.1.7).
#[derive(Clone, Copy, Debug, PartialEq, Eq)]
pub enum PragmaKind {
    /// `FX_FULL_PRECISION`
    Precision,
    /// `FX_FRACT_OVERFLOW`
    Fract,
    /// `FX_ACCUM_OVERFLOW`
    Accum,
}

/// What a pragma sets it to: `On`, `Off` or `Default` for the precision, `Sat` or `Default` for overflow.
#[derive(Clone, Copy, Debug, PartialEq, Eq)]
pub enum PragmaState {
    On,
    Off,
    Sat,
    Default,
}

/// A token without its place.
#[derive(Debug, Drop, PartialEq, Eq)]
pub enum TokenKind {
    Word(WordKind),
    /// An identifier that is no word.
    Name(Name),
    Punct(PunctKind),
    /// An integer or character constant of an integer type of `bytes` bytes, 2 or 4.
    Whole {
        value: u32,
        signed: bool,
        bytes: u8,
    },
    /// A fixed-point constant, `n` in units of its kind's format.
    FixedConst {
        kind: FxKind,
        n: i128,
    },
    /// The name of a port operation of `<iohw.h>`.
    IoName(IoOp),
    /// The name of a group operation of `<iohw.h>`.
    GroupName(GroupOp),
    /// A pragma that begins with `STDC`.
    Pragma {
        which: PragmaKind,
        state: PragmaState,
    },
    /// A reserved word without a place in the grammar.
    Reserved,
    /// The end of the text.
    End,
}

/// A token and its place.
#[derive(Debug, Drop, PartialEq, Eq)]
pub struct Token {
    /// The byte of the text at which it begins: the name, where it replaces a defined one, and the text's length for
    /// the end.
    pub at: u32,
    pub kind: TokenKind,
}
