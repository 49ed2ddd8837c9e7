//! Statements (ISO/IEC 9899:1999, 6.8).
use crate::expressions::Expr;
use ec_space::Seq;

/// A statement, with the unit and the index of its first token there.
#[cycle(statement)]
#[derive(Drop)]
pub struct Stmt {
    pub unit: u8,
    pub at: u32,
    pub kind: StmtKind,
}

/// What a statement does.
#[cycle(statement)]
#[derive(Drop)]
pub enum StmtKind {
    /// `;`
    Empty,
    /// An expression statement.
    Do1(Expr),
    /// A compound statement.
    Block(Seq<Stmt>),
    /// The declaration of a local object, with one expression for each leaf, or none at all.
    Local(u16, Seq<Expr>),
    If(Expr, Box<Stmt>, Option<Box<Stmt>>),
    While(Expr, Box<Stmt>),
    DoWhile(Box<Stmt>, Expr),
    /// The first part, the condition, the last part and the body.
    For(Option<Box<Stmt>>, Option<Expr>, Option<Expr>, Box<Stmt>),
    Break,
    Continue,
    Return(Option<Expr>),
}
