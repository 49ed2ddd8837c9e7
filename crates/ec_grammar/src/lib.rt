//! The tokens of C for embedded systems, and the trees of the grammar over them: one type for each nonterminal and one
//! variant for each production (ISO/IEC 9899:1999, 6.5 to 6.9; ISO/IEC TR 18037:2008). The leaves are the tokens
//! themselves, each with its index in the list.
//!
//! Where a production fixes what its token is, the leaf is a `Spot`; where it leaves a choice, the choice stands after
//! the spot. Lists of more than one item keep each comma with the item that follows it.
//!
//! The types of trees stand at the root of the crate: the proofs of all crates over trees look them up by their paths.
#![tactic(auto)]

mod token;

use ec_fx::FxKind;
use ec_space::Name;
pub use token::{GroupOp, IoOp, PragmaKind, PragmaState, PunctKind, Token, TokenKind, WordKind};

/// Where a token stands.
#[derive(Clone, Copy)]
pub struct Spot {
    /// Its index in the list of tokens, from 0.
    pub index: u32,
    /// The byte of the text at which it begins.
    pub at: u32,
}

/// An identifier.
#[derive(Drop)]
pub struct Identifier {
    pub spot: Spot,
    pub name: Name,
}

/// A constant (6.4.4; fixed-point constants: TR 18037, 4.1.5).
#[derive(Clone, Copy)]
pub enum Constant {
    /// An integer or character constant of an integer type of `bytes` bytes, 2 or 4.
    Whole { value: u32, signed: bool, bytes: u8 },
    /// A fixed-point constant, `n` in units of its kind's format.
    Fixed { kind: FxKind, n: i128 },
}

/// The name of an operation of `<iohw.h>` (TR 18037, 6).
#[derive(Clone, Copy)]
pub enum Operation {
    Port(IoOp),
    Group(GroupOp),
}

/// A pragma that begins with `STDC`.
#[derive(Clone, Copy)]
pub struct Pragma {
    pub spot: Spot,
    pub which: PragmaKind,
    pub state: PragmaState,
}

/// A qualifier (6.7.3; the names of spaces: TR 18037, 5.1.2).
#[derive(Clone, Copy)]
pub struct Qualifier {
    pub spot: Spot,
    pub word: WordKind,
}

/// A `*` of a declarator, with the qualifiers of the pointer (6.7.5.1).
#[derive(Drop)]
pub struct Star {
    pub spot: Spot,
    pub qualifiers: Vec<Qualifier>,
}

/// A specifier of a declaration (6.7).
#[derive(Drop)]
pub enum Spec {
    /// A storage word, a qualifier or a type word.
    Word(Spot, WordKind),
    /// `struct` and a tag.
    Struct(Spot, Identifier),
}

/// The specifiers of a declaration, of which there is one at least.
#[derive(Drop)]
pub struct Specs {
    pub first: Spec,
    pub more: Vec<Spec>,
}

/// A type name: specifiers and stars (6.7.6).
#[derive(Drop)]
pub struct TypeName {
    pub specs: Specs,
    pub stars: Vec<Star>,
}

/// An expression (6.5.17).
#[derive(Drop)]
#[cycle(expression)]
pub enum Expression {
    Single(Assignment),
    /// Two expressions joined by a comma.
    Comma(Box<Expression>, Spot, Box<Assignment>),
}

/// An assignment expression (6.5.16).
#[derive(Drop)]
#[cycle(expression)]
pub enum Assignment {
    Value(Conditional),
    /// The place, the operator and the value.
    Assign(Unary, Spot, PunctKind, Box<Assignment>),
}

/// A conditional expression (6.5.15).
#[derive(Drop)]
#[cycle(expression)]
pub enum Conditional {
    Plain(Binary),
    /// The condition, `?`, the second operand, `:` and the third.
    Choose(Binary, Spot, Box<Expression>, Spot, Box<Conditional>),
}

/// Casts joined by binary operators (6.5.5 to 6.5.14).
#[derive(Drop)]
#[cycle(expression)]
pub enum Binary {
    Operand(Cast),
    Join(Box<Binary>, Spot, PunctKind, Box<Binary>),
}

/// A cast expression (6.5.4).
#[derive(Drop)]
#[cycle(expression)]
pub enum Cast {
    Uncast(Unary),
    /// `(`, the type name, `)` and the operand.
    Convert(Spot, Box<TypeName>, Spot, Box<Cast>),
}

/// A unary expression (6.5.3).
#[derive(Drop)]
#[cycle(expression)]
pub enum Unary {
    Postfix(Postfix),
    /// `++` or `--` before a unary expression.
    Step(Spot, PunctKind, Box<Unary>),
    /// Another operator before a cast expression.
    Prefix(Spot, PunctKind, Box<Cast>),
    /// `sizeof`, `(`, the type name and `)`.
    Size(Spot, Spot, Box<TypeName>, Spot),
}

/// A postfix expression (6.5.2).
#[derive(Drop)]
#[cycle(expression)]
pub enum Postfix {
    Primary(Primary),
    /// The array, `[`, the index and `]`.
    Index(Box<Postfix>, Spot, Box<Expression>, Spot),
    /// The function, `(`, the arguments and `)`.
    Call(Box<Postfix>, Spot, Box<Arguments>, Spot),
    /// The struct, or the pointer to one, `.` or `->`, and the member.
    Member(Box<Postfix>, Spot, PunctKind, Identifier),
    /// `++` or `--` after a postfix expression.
    Stepped(Box<Postfix>, Spot, PunctKind),
}

/// The arguments of a call (6.5.2).
#[derive(Drop)]
#[cycle(expression)]
pub enum Arguments {
    None,
    Some(Assignment, Vec<Argument>),
}

/// An argument that follows another one, or the name of a port.
#[derive(Drop)]
#[cycle(expression)]
pub struct Argument {
    pub comma: Spot,
    pub value: Assignment,
}

/// A primary expression (6.5.1), or an operation of `<iohw.h>`.
#[derive(Drop)]
#[cycle(expression)]
pub enum Primary {
    Name(Identifier),
    Constant(Spot, Box<Constant>),
    Parenthesised(Spot, Box<Expression>, Spot),
    /// The operation, `(`, the name of the port or group, the further arguments and `)`.
    Operation(Spot, Operation, Spot, Box<Identifier>, Vec<Argument>, Spot),
}

/// A parameter (6.7.5), whose name may be left out where no function is defined.
#[derive(Drop)]
pub struct Param {
    pub ty: TypeName,
    pub name: Option<Identifier>,
}

/// A parameter that follows another one.
#[derive(Drop)]
pub struct NextParam {
    pub comma: Spot,
    pub param: Param,
}

/// The parameters of a function (6.7.5.3).
#[derive(Drop)]
pub enum Params {
    /// `void` alone: there are none.
    Void(Spot),
    Some(Param, Vec<NextParam>),
}

/// What a declarator declares its identifier as (6.7.5).
#[derive(Drop)]
pub enum Shape {
    Object,
    /// `[`, the size where it is given, and `]`.
    Array(Spot, Option<Conditional>, Spot),
    /// `(`, the parameters and `)`.
    Function(Spot, Params, Spot),
}

/// A declarator (6.7.5).
#[derive(Drop)]
pub struct Declarator {
    pub stars: Vec<Star>,
    pub name: Identifier,
    pub shape: Shape,
}

/// An initialiser (6.7.8).
#[derive(Drop)]
#[cycle(initialiser)]
pub enum Initialiser {
    Value(Assignment),
    /// `{`, the items, the comma after the last where one stands there, and `}`.
    Braces(Spot, Box<Initialiser>, Vec<NextInitialiser>, Option<Spot>, Spot),
}

/// An initialiser that follows another one.
#[derive(Drop)]
#[cycle(initialiser)]
pub struct NextInitialiser {
    pub comma: Spot,
    pub value: Initialiser,
}

/// The `=` of a declarator, and its initialiser.
#[derive(Drop)]
pub struct Start {
    pub equals: Spot,
    pub value: Initialiser,
}

/// A declarator with its initialiser, where it has one (6.7).
#[derive(Drop)]
pub struct InitDeclarator {
    pub declarator: Declarator,
    pub start: Option<Start>,
}

/// A declarator of a declaration that follows another one.
#[derive(Drop)]
pub struct NextInitDeclarator {
    pub comma: Spot,
    pub declarator: InitDeclarator,
}

/// A declaration (6.7).
#[derive(Drop)]
pub struct Declaration {
    pub specs: Specs,
    pub first: InitDeclarator,
    pub more: Vec<NextInitDeclarator>,
    pub semicolon: Spot,
}

/// A declarator of a member declaration that follows another one.
#[derive(Drop)]
pub struct NextDeclarator {
    pub comma: Spot,
    pub declarator: Declarator,
}

/// A declaration of members of a struct (6.7.2.1).
#[derive(Drop)]
pub struct Member {
    pub specs: Specs,
    pub first: Declarator,
    pub more: Vec<NextDeclarator>,
    pub semicolon: Spot,
}

/// The definition of a struct (6.7.2.1): `struct`, the tag, `{`, the members, of which there is one at least, `}` and
/// `;`.
#[derive(Drop)]
pub struct Structure {
    pub word: Spot,
    pub tag: Identifier,
    pub opening: Spot,
    pub first: Member,
    pub more: Vec<Member>,
    pub closing: Spot,
    pub semicolon: Spot,
}

/// The declaration of an object in a named register (TR 18037, 5.2.2): `register`, the register's name, the specifiers,
/// the object's name and `;`.
#[derive(Drop)]
pub struct RegisterObject {
    pub word: Spot,
    pub register: Identifier,
    pub specs: Specs,
    pub name: Identifier,
    pub semicolon: Spot,
}

/// An expression in parentheses after a word of a statement.
#[derive(Drop)]
pub struct Condition {
    pub opening: Spot,
    pub value: Expression,
    pub closing: Spot,
}

/// The first part of a `for` (6.8.5).
#[derive(Drop)]
pub enum First {
    Declared(Box<Declaration>),
    /// The expression, where it is given, and `;`.
    Evaluated(Option<Box<Expression>>, Spot),
}

/// The parts of a `for` in its parentheses: `(`, the first part, the condition, `;`, the last part and `)`.
#[derive(Drop)]
pub struct Heading {
    pub opening: Spot,
    pub first: First,
    pub condition: Option<Box<Expression>>,
    pub semicolon: Spot,
    pub last: Option<Box<Expression>>,
    pub closing: Spot,
}

/// A compound statement (6.8.2): `{`, the pragmas, the declarations and statements, and `}`.
#[derive(Drop)]
#[cycle(statement)]
pub struct Compound {
    pub opening: Spot,
    pub pragmas: Vec<Pragma>,
    pub items: Vec<Item>,
    pub closing: Spot,
}

/// A declaration or a statement of a compound statement (6.8.2).
#[derive(Drop)]
#[cycle(statement)]
pub enum Item {
    Declaration(Box<Declaration>),
    Statement(Statement),
}

/// A statement (6.8).
#[derive(Drop)]
#[cycle(statement)]
pub enum Statement {
    Compound(Compound),
    /// The expression, where it is given, and `;`.
    Simple(Option<Box<Expression>>, Spot),
    If(Spot, Box<Condition>, Box<Statement>),
    /// `if`, the condition, the statement, `else` and the other statement.
    IfElse(Spot, Box<Condition>, Box<Statement>, Spot, Box<Statement>),
    While(Spot, Box<Condition>, Box<Statement>),
    /// `do`, the statement, `while`, the condition and `;`.
    Do(Spot, Box<Statement>, Spot, Box<Condition>, Spot),
    For(Spot, Box<Heading>, Box<Statement>),
    Break(Spot, Spot),
    Continue(Spot, Spot),
    /// `return`, the expression, where it is given, and `;`.
    Return(Spot, Option<Box<Expression>>, Spot),
}

/// The definition of a function (6.9.1): its result, name, `(`, parameters, `)` and body.
#[derive(Drop)]
pub struct Function {
    pub result: TypeName,
    pub name: Identifier,
    pub opening: Spot,
    pub params: Params,
    pub closing: Spot,
    pub body: Compound,
}

/// A part of a unit (6.9).
#[derive(Drop)]
pub enum External {
    Pragma(Pragma),
    Structure(Structure),
    Register(RegisterObject),
    Declaration(Declaration),
    Function(Function),
}

/// The tree of a unit (6.9), with its end.
#[derive(Drop)]
pub struct Tree {
    pub items: Vec<External>,
    pub end: Spot,
}
