//! The operations of a program.
use ec_core::{BinOp, CType, Obj, StructDef, UnOp};
use ec_fx::Mode;
use ec_space::{Seq, SpaceId};

/// A temporary of a function: its place among those of the function, and its bytes, from 1 to 16. A place has room for
/// 16 bytes. A temporary is read with as many bytes as were last written at its place.
#[derive(Clone, Copy, Debug, PartialEq, Eq)]
pub struct Temp {
    pub at: u16,
    pub bytes: u8,
}

/// An operation. Where it names a type of a temporary, the temporary has that type's bytes.
#[derive(Drop)]
pub enum Ir {
    /// The lowest bytes of a number, as many as the temporary has. 0 is null where it is used as a pointer.
    Const(Temp, i128),
    /// The first gets what the second holds, of as many bytes.
    Copy(Temp, Temp),
    /// A pointer to an object at a byte offset from 0 to its size.
    Addr(Temp, u16, u32),
    /// The pointer in a temporary is moved by so many bytes.
    Field {
        ptr: Temp,
        space: SpaceId,
        offset: u32,
    },
    /// The leaf that a pointer into a space points to is read.
    Load {
        to: Temp,
        ptr: Temp,
        space: SpaceId,
    },
    /// The leaf that a pointer into a space points to is written.
    Store {
        ptr: Temp,
        space: SpaceId,
        from: Temp,
    },
    /// The leaf that begins at a byte offset in an object is read.
    LoadObj(Temp, u16, u32),
    /// The leaf that begins at a byte offset in an object is written; this initialises const objects too.
    StoreObj(u16, u32, Temp),
    /// A binary operator with a result of type `ty`, on operands of types `aty` and `bty`.
    Bin {
        op: BinOp,
        ty: CType,
        mode: Mode,
        to: Temp,
        a: Temp,
        aty: CType,
        b: Temp,
        bty: CType,
    },
    /// A unary operator, whose operand has the type of its result.
    Un {
        op: UnOp,
        ty: CType,
        mode: Mode,
        to: Temp,
        a: Temp,
    },
    /// The value of type `aty` in the type `ty`.
    Conv {
        to: Temp,
        ty: CType,
        mode: Mode,
        a: Temp,
        aty: CType,
    },
    /// A place to jump to; it does nothing.
    Label(u64),
    Jump(u64),
    /// Jumps where all bytes of the temporary are 0.
    BranchZero(Temp, u64),
    /// A call of the function with this place in the program's list. The temporary gets its result.
    Call(u16, Option<Temp>),
    /// The end of the function, with a result. Without one `main` gives 0.
    Return(Option<Temp>),
    /// `width` bytes are read from a port: from its address on, or with an index i from i * `width` further on.
    PortIn {
        to: Temp,
        address: u8,
        index: Option<Temp>,
        width: u8,
    },
    /// The lowest `width` bytes of the temporary are written to a port.
    PortOut {
        from: Temp,
        address: u8,
        index: Option<Temp>,
        width: u8,
    },
    /// What a cell holds is read: the base to which a dynamic group is bound.
    LoadCell(Temp, u8),
    /// A cell gets what a temporary holds.
    StoreCell(u8, Temp),
    /// As `PortIn` where `read` holds, and else as `PortOut`, from an address that is `offset` behind what a cell holds.
    CellPort {
        read: bool,
        temp: Temp,
        cell: u8,
        offset: u8,
        index: Option<Temp>,
        width: u8,
    },
}

/// The operations of a function, and how many places its temporaries take.
#[derive(Drop)]
pub struct IrFunc {
    pub code: Seq<Ir>,
    pub slots: u16,
}

/// The operations of a program's functions, with its objects and structs.
#[derive(Drop)]
pub struct IrProgram {
    pub funcs: Seq<IrFunc>,
    pub objs: Seq<Obj>,
    pub structs: Seq<StructDef>,
    /// The place of `main` among the functions.
    pub main: u16,
}
