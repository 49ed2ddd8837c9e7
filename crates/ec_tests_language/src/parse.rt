//! What no clause says: that calls succeed where memory suffices, and which token is told.
use ec_fx::FxKind;
use ec_grammar::{GroupOp, IoOp, PragmaKind, PragmaState, PunctKind, Token, TokenKind, WordKind};
use ec_parse::{ParseStop, Tree, discard_tree, parse};
use ec_space::{NoMemory, Seq};
use std::alloc::Global;

static WORDS: [(&str, WordKind); 26] = [
    ("break", WordKind::Break),
    ("char", WordKind::Char),
    ("const", WordKind::Const),
    ("continue", WordKind::Continue),
    ("do", WordKind::Do),
    ("else", WordKind::Else),
    ("extern", WordKind::Extern),
    ("for", WordKind::For),
    ("if", WordKind::If),
    ("int", WordKind::Int),
    ("long", WordKind::Long),
    ("register", WordKind::Register),
    ("return", WordKind::Return),
    ("short", WordKind::Short),
    ("sizeof", WordKind::Sizeof),
    ("static", WordKind::Static),
    ("struct", WordKind::Struct),
    ("unsigned", WordKind::Unsigned),
    ("void", WordKind::Void),
    ("while", WordKind::While),
    ("_Fract", WordKind::Fract),
    ("_Sat", WordKind::Sat),
    ("__flash", WordKind::Flash),
    ("__farflash", WordKind::FarFlash),
    ("__data", WordKind::Data),
    ("uint8_t", WordKind::Uint8),
];

static PUNCTS: [(&str, PunctKind); 45] = [
    ("{", PunctKind::LeftBrace),
    ("}", PunctKind::RightBrace),
    ("(", PunctKind::LeftParenthesis),
    (")", PunctKind::RightParenthesis),
    ("[", PunctKind::LeftBracket),
    ("]", PunctKind::RightBracket),
    (";", PunctKind::Semicolon),
    (",", PunctKind::Comma),
    (".", PunctKind::Dot),
    ("->", PunctKind::Arrow),
    ("++", PunctKind::Increment),
    ("--", PunctKind::Decrement),
    ("&", PunctKind::Ampersand),
    ("*", PunctKind::Star),
    ("+", PunctKind::Plus),
    ("-", PunctKind::Minus),
    ("~", PunctKind::Tilde),
    ("!", PunctKind::Not),
    ("/", PunctKind::Slash),
    ("%", PunctKind::Percent),
    ("<<", PunctKind::ShiftLeft),
    (">>", PunctKind::ShiftRight),
    ("<", PunctKind::Less),
    (">", PunctKind::Greater),
    ("<=", PunctKind::LessEqual),
    (">=", PunctKind::GreaterEqual),
    ("==", PunctKind::Equal),
    ("!=", PunctKind::NotEqual),
    ("^", PunctKind::Caret),
    ("|", PunctKind::Bar),
    ("&&", PunctKind::AndAnd),
    ("||", PunctKind::OrOr),
    ("?", PunctKind::Question),
    (":", PunctKind::Colon),
    ("=", PunctKind::Assign),
    ("*=", PunctKind::StarAssign),
    ("/=", PunctKind::SlashAssign),
    ("%=", PunctKind::PercentAssign),
    ("+=", PunctKind::PlusAssign),
    ("-=", PunctKind::MinusAssign),
    ("<<=", PunctKind::ShiftLeftAssign),
    (">>=", PunctKind::ShiftRightAssign),
    ("&=", PunctKind::AmpersandAssign),
    ("^=", PunctKind::CaretAssign),
    ("|=", PunctKind::BarAssign),
];

fn word_of(text: &str) -> Option<WordKind> {
    for &(word, kind) in &WORDS {
        if word == text {
            return Some(kind);
        }
    }
    None
}

fn punct_of(text: &str) -> Option<PunctKind> {
    for &(punct, kind) in &PUNCTS {
        if punct == text {
            return Some(kind);
        }
    }
    None
}

/// The constant of type int or the name that is written so.
fn number_or_name(alloc: Global, text: &str) -> Result<TokenKind, NoMemory> {
    match text.parse::<u16>() {
        Ok(value) => Ok(TokenKind::Whole {
            value: value as u32,
            signed: true,
            bytes: 2,
        }),
        Err(_) => {
            let mut name = Seq::new(alloc);
            name.extend_from_slice(text.as_bytes())?;
            Ok(TokenKind::Name(name))
        }
    }
}

/// The name or the constant that is written so.
fn other_kind(alloc: Global, text: &str) -> Result<TokenKind, NoMemory> {
    match text {
        "0.5r" => Ok(TokenKind::FixedConst {
            kind: FxKind::Fract,
            n: 16384,
        }),
        "iowr" => Ok(TokenKind::IoName(IoOp::Write)),
        "iogroup_acquire" => Ok(TokenKind::GroupName(GroupOp::Acquire)),
        "#pragma" => Ok(TokenKind::Pragma {
            which: PragmaKind::Fract,
            state: PragmaState::Sat,
        }),
        "goto" => Ok(TokenKind::Reserved),
        _ => number_or_name(alloc, text),
    }
}

/// The token that is written so in the tests.
fn kind_of(alloc: Global, text: &str) -> Result<TokenKind, NoMemory> {
    match (word_of(text), punct_of(text)) {
        (Some(kind), _) => Ok(TokenKind::Word(kind)),
        (_, Some(kind)) => Ok(TokenKind::Punct(kind)),
        _ => other_kind(alloc, text),
    }
}

fn push(alloc: Global, tokens: &mut Seq<Token>, text: &str) -> Result<(), NoMemory> {
    let kind = kind_of(alloc, text)?;
    tokens.push(Token { at: 7, kind })
}

/// Appends the tokens of a text in which blanks stand between them, so many times.
fn add(alloc: Global, tokens: &mut Seq<Token>, text: &str, times: u32) -> Result<(), NoMemory> {
    for _ in 0..times {
        for word in text.split(' ') {
            push(alloc, tokens, word)?;
        }
    }
    Ok(())
}

/// The tree of the tokens and the end, or why there is none. A list of 100,000 tokens or more is no test.
fn parsed(alloc: Global, tokens: &mut Seq<Token>) -> Result<Result<Tree, ParseStop>, NoMemory> {
    let kind = TokenKind::End;
    tokens.push(Token { at: 7, kind })?;
    if tokens.len() >= 100_000 {
        return Err(NoMemory);
    }
    Ok(parse(alloc, tokens))
}

/// The tree of a text in which blanks stand between the tokens.
pub fn tree_of(alloc: Global, text: &str) -> Result<Result<Tree, ParseStop>, NoMemory> {
    let mut tokens = Seq::new(alloc);
    add(alloc, &mut tokens, text, 1)?;
    parsed(alloc, &mut tokens)
}

/// A text, and how often it stands.
type Piece = (&'static str, u32);

/// Whether the pieces have a tree, or why not.
fn read(alloc: Global, pieces: &[Piece]) -> Result<Result<(), ParseStop>, NoMemory> {
    let mut tokens = Seq::new(alloc);
    for &(text, times) in pieces {
        add(alloc, &mut tokens, text, times)?;
    }
    match parsed(alloc, &mut tokens)? {
        Ok(tree) => {
            discard_tree(tree);
            Ok(Ok(()))
        }
        Err(stop) => Ok(Err(stop)),
    }
}

/// Whether that is told of the pieces.
fn is(alloc: Global, pieces: &[Piece], want: Result<(), ParseStop>) -> bool {
    match read(alloc, pieces) {
        Ok(told) => told == want,
        Err(_) => false,
    }
}

/// Units with each production.
static READ: [&str; 24] = [
    "#pragma",
    "int a ;",
    "extern static const __flash _Sat short _Fract a , * const b , * * c ;",
    "const __farflash int a , * __farflash const b ; int f ( const __farflash int * a ) ;",
    "struct s a = 1 , b = { 1 , { a } , 1 } , c [ 1 ] = { 1 , } , d [ ] = { 1 } ;",
    "int f ( void ) , g ( int , struct s * a , void * ) ;",
    "struct s { int a ; char * b , c [ 1 ] ; struct t d ; } ;",
    "register r unsigned char a ;",
    "int f ( void ) { }",
    "void f ( int a ) { #pragma #pragma int a ; ; int b ; { } }",
    "int f ( void ) { if ( a ) if ( a ) ; else ; if ( a ) { } else if ( a ) ; }",
    "int f ( void ) { while ( a , a ) while ( a ) ; do do ; while ( a ) ; while ( a ) ; }",
    "int f ( void ) { for ( ; ; ) break ; for ( a ; a ; a ) continue ; for ( int a = 1 ; ; ) ; }",
    "int f ( void ) { return ; return a ; }",
    "int f ( void ) { a = a *= a /= a %= a += a -= a <<= a >>= a &= a ^= a |= a ; }",
    "int f ( void ) { a ? a , a : a ? a : a ; }",
    "int f ( void ) { a || a && a | a ^ a & a == a != a < a > a <= a >= a << a >> a + a - a * a / a % a ; }",
    "int f ( void ) { a * a - a - a * a || a - a ; }",
    "int f ( void ) { ( int ) ( struct s * ) ( static int ) - a , ( a ) - a ; }",
    "int f ( void ) { & * + - ~ ! ++ -- a , sizeof ( int * const ) ; }",
    "int f ( void ) { a [ 1 ] ( ) ( a , a = a , 1 ) . a -> a ++ -- = a ; }",
    "int f ( void ) { 0.5r , ( ( a ) ) , iowr ( a , a , a ) , iogroup_acquire ( a ) ; }",
    "int f ( void ) { iowr ( a ) [ a ] ++ ; } int a ;",
    "struct s f ( void ) ; struct s { int a ; } ; #pragma int a ;",
];

/// Units that are no derivation, and the first bad token.
static BAD: [(&str, u32); 22] = [
    ("int a", 2),
    ("int ;", 1),
    ("a ;", 0),
    ("int a ; }", 3),
    ("struct s { } ;", 3),
    ("struct s { int a ; }", 7),
    ("register int a ;", 1),
    ("register r a ;", 2),
    ("int f ( int , void ) ;", 6),
    ("int f ( void , int ) ;", 4),
    ("int a = { } ;", 4),
    ("int a = { 1 , , } ;", 6),
    ("int a { }", 2),
    ("int f ( void ) { #pragma int a ; #pragma }", 10),
    ("int f ( void ) { a + a = a ; }", 9),
    ("int f ( void ) { ( int ) a = a ; }", 10),
    ("int f ( void ) { if ( a ) int a ; }", 10),
    ("int f ( void ) { else ; }", 6),
    ("int f ( void ) { do ; while ( a ) }", 12),
    ("int f ( void ) { a ? : a ; }", 8),
    ("int f ( void ) { iowr a ; }", 7),
    ("int f ( void ) { goto a ; }", 6),
];

/// Lists as long as the lexer makes them: 65,535 tokens with the end, nearly all of declarations, and a call with 30,000
/// arguments; and parentheses, operators, blocks and initialisers within the limit of nesting and beyond it.
static LONG: [(&[Piece], Result<(), ParseStop>); 12] = [
    (&[("int a ;", 21_844), ("#pragma", 2)], Ok(())),
    (
        &[("int f ( void ) { a ( 1", 1), (", 1", 29_999), (") ; }", 1)],
        Ok(()),
    ),
    (
        &[
            ("int f ( void ) { return", 1),
            ("(", 61),
            ("a", 1),
            (")", 61),
            ("; }", 1),
        ],
        Ok(()),
    ),
    (
        &[
            ("int f ( void ) { return", 1),
            ("(", 62),
            ("a", 1),
            (")", 62),
            ("; }", 1),
        ],
        Err(ParseStop::TooDeep(133)),
    ),
    (
        &[
            ("int f ( void ) { return", 1),
            ("(", 63),
            ("a", 1),
            (")", 63),
            ("; }", 1),
        ],
        Err(ParseStop::TooDeep(69)),
    ),
    (
        &[
            ("int f ( void ) { return a", 1),
            ("+ a", 61),
            (";", 1),
            ("}", 1),
        ],
        Ok(()),
    ),
    (
        &[
            ("int f ( void ) { return a", 1),
            ("+ a", 62),
            (";", 1),
            ("}", 1),
        ],
        Err(ParseStop::TooDeep(133)),
    ),
    (
        &[
            ("int f ( void ) {", 1),
            ("{", 62),
            ("{ }", 1),
            ("}", 62),
            ("}", 1),
        ],
        Ok(()),
    ),
    (
        &[
            ("int f ( void ) {", 1),
            ("{", 63),
            ("{ }", 1),
            ("}", 63),
            ("}", 1),
        ],
        Err(ParseStop::TooDeep(69)),
    ),
    (
        &[("int a =", 1), ("{", 63), ("1", 1), ("}", 63), (";", 1)],
        Ok(()),
    ),
    (
        &[("int a =", 1), ("{", 64), ("1", 1), ("}", 64), (";", 1)],
        Err(ParseStop::TooDeep(131)),
    ),
    (
        &[("int a =", 1), ("{", 65), ("1", 1), ("}", 65), (";", 1)],
        Err(ParseStop::TooDeep(67)),
    ),
];

#[test]
fn reads_units(rt: HostRuntime) {
    for text in &READ {
        assert!(rt; is(rt.alloc(), &[(*text, 1)], Ok(())), "{text}");
    }
    for &(text, index) in &BAD {
        assert!(rt;
            is(rt.alloc(), &[(text, 1)], Err(ParseStop::Syntax(index))),
            "{text}"
        );
    }
    for (k, &(pieces, want)) in LONG.iter().enumerate() {
        assert!(rt; is(rt.alloc(), pieces, want), "row {k}");
    }
}
