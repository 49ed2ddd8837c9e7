//! Typed expressions (ISO/IEC 9899:1999, 6.5).
use crate::types::CType;
use ec_fx::Mode;
use ec_iohw::IoOp;
use ec_space::Seq;

/// A unary operator with a value of its operand's type.
#[derive(Clone, Copy, Debug, PartialEq, Eq)]
pub enum UnOp {
    /// `-`
    Minus,
    /// `~`
    Invert,
}

/// A binary operator. Addition and subtraction of pointers are told by the operands' types.
#[derive(Clone, Copy, Debug, PartialEq, Eq)]
pub enum BinOp {
    /// `+`
    Add,
    /// `-`
    Sub,
    /// `*`
    Mul,
    /// `/`
    Div,
    /// `%`
    Rem,
    /// `<<`
    Shl,
    /// `>>`
    Shr,
    /// `&`
    And,
    /// `|`
    Or,
    /// `^`
    Xor,
    /// `<`
    Lt,
    /// `>`
    Gt,
    /// `<=`
    Le,
    /// `>=`
    Ge,
    /// `==`
    Eq,
    /// `!=`
    Ne,
}

/// An expression with the type of its value. `mode` says what its operation does where a fixed-point
/// result is out of range.
#[cycle(expression)]
#[derive(Drop)]
pub struct Expr {
    pub ty: CType,
    pub mode: Mode,
    pub node: Node,
}

/// What an expression does. Each conversion is a `Convert` of its own.
#[cycle(expression)]
#[derive(Drop)]
pub enum Node {
    /// A constant: the whole number, or that of the fixed-point format.
    Number(i128),
    /// The null pointer.
    Null,
    /// The value of a scalar place.
    Load(PlaceExpr),
    /// A pointer to a place. An array's name as a value is one too.
    AddressOf(PlaceExpr),
    Unary(UnOp, Box<Expr>),
    Binary(BinOp, Box<Expr>, Box<Expr>),
    /// The operand's value in this expression's type.
    Convert(Box<Expr>),
    /// `=`
    Assign(PlaceExpr, Box<Expr>),
    /// A compound assignment. The mode is that of the operation, and the expression's own mode that of
    /// the conversion to the place's type.
    Compound(BinOp, Mode, PlaceExpr, Box<Expr>),
    /// `++` or `--`
    Step {
        up: bool,
        prefix: bool,
        place: PlaceExpr,
    },
    /// `!`
    Not(Box<Expr>),
    /// `&&`
    And(Box<Expr>, Box<Expr>),
    /// `||`
    Or(Box<Expr>, Box<Expr>),
    /// `?:`
    Cond(Box<Expr>, Box<Expr>, Box<Expr>),
    /// `,`
    Comma(Box<Expr>, Box<Expr>),
    /// A call of the function with this place in the program's list.
    Call(u16, Seq<Expr>),
    /// An operation on a port of the table.
    Io {
        op: IoOp,
        port: u16,
        index: Option<Box<Expr>>,
        value: Option<Box<Expr>>,
    },
    /// `iogroup_acquire` or `iogroup_release` of a group of the table.
    Group {
        acquire: bool,
        group: u16,
    },
    /// `iogroup_map`: a dynamic group of the table is bound to one of its choices.
    Bind {
        dynamic: u16,
        choice: u16,
    },
    /// `iogroup_acquire` or `iogroup_release` of the group of a dynamic group's choice.
    DynGroup {
        acquire: bool,
        dynamic: u16,
    },
}

/// A place: an object or a part of one. A subscript is a `Deref` of a sum.
#[cycle(expression)]
#[derive(Drop)]
pub enum PlaceExpr {
    /// The object with this place in the program's list.
    Object(u16),
    /// What a pointer points to.
    Deref(Box<Expr>),
    /// The member with this place in its struct.
    Member(Box<PlaceExpr>, u16),
}
