//! Programs: structs, objects and functions.
use crate::statements::Stmt;
use crate::types::{CType, StructDef};
use ec_space::{Home, Name, Seq, SpaceId};

/// The initial value of a leaf of a static object.
#[derive(Drop)]
pub enum LeafInit {
    /// The whole number, or that of the fixed-point format.
    Number(i128),
    /// The null pointer.
    Null,
    /// A pointer to a static object at a byte offset from 0 to its size.
    Address { object: u16, offset: u32 },
}

/// How long an object lives, and where it is kept (ISO/IEC 9899:1999, 6.2.4).
#[derive(Drop)]
pub enum Storage {
    /// For the whole run, with the initial value of each leaf.
    Static(Seq<LeafInit>),
    /// A local object of the function with this place in the program's list.
    Local(u16),
    /// A parameter of that function.
    Param(u16),
    /// In the registers of the core from this one on (ISO/IEC TR 18037:2008, 5.2).
    Register(u8),
}

/// A declared object.
#[derive(Drop)]
pub struct Obj {
    pub name: Name,
    /// The unit that defines it.
    pub unit: u8,
    /// Whether other units see its name.
    pub external: bool,
    pub ty: CType,
    /// The space of its declaration.
    pub space: SpaceId,
    /// What it is kept in, by its declaration.
    pub home: Home,
    pub konst: bool,
    pub storage: Storage,
}

/// A function definition.
#[derive(Drop)]
pub struct Func {
    pub name: Name,
    pub unit: u8,
    pub result: CType,
    /// The places of its parameters in the program's list of objects.
    pub params: Seq<u16>,
    pub body: Stmt,
}

/// A whole program.
#[derive(Drop)]
pub struct Program {
    pub structs: Seq<StructDef>,
    pub objs: Seq<Obj>,
    pub funcs: Seq<Func>,
    /// The place of `main` among the functions.
    pub main: u16,
}
