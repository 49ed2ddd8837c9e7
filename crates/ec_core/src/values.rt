//! Values of a running program, and the points at which it is undefined.
use ec_space::Home;

/// Why a program is undefined, in the order of the language's list of such points. The last one stands
/// outside that list: no valid program meets it.
#[derive(Clone, Copy, Debug, PartialEq, Eq)]
pub enum Undefined {
    /// A zero divisor.
    ZeroDivisor = 1,
    /// A shift count that is negative or not below the promoted left operand's width in bits.
    ShiftCount,
    /// A fixed-point result out of range that does not saturate.
    FixedOverflow,
    /// A fixed-point value whose part before the point does not fit the integer type.
    WholePart,
    /// An access outside the object, through null, of an object that is not live, or where no leaf of
    /// that type begins.
    Access,
    /// A read of a leaf or named register without a value, or of a leaf that holds a pointer to an
    /// object that is not live.
    Unset,
    /// A write of a const or flash object after its initialisation.
    ConstWrite,
    /// A pointer narrowed to a space that lacks its object.
    Narrowing,
    /// Pointers that are ordered or subtracted and are not into one object, or whose difference is no
    /// multiple of the element's size.
    Unrelated,
    /// A use of a pointer to an object that is not live, or the comparison of a pointer past its object's
    /// end with a pointer into another object.
    PointerUse,
    /// Pointer arithmetic that leaves the object, or starts from null.
    PointerRange,
    /// An access of a port whose group is not acquired, or whose dynamic group is bound to one that is not.
    ClosedPort,
    /// A buffer index not below the port's count.
    BufferIndex,
    /// The end of a function with a result, other than `main`.
    NoResult,
    /// An access of a port of a dynamic group that is not bound, or an acquire or release of such a group.
    UnboundGroup,
    /// What no valid program has: operands that do not suit their operator, a number without an object,
    /// port or function, an argument too few, calls nested deeper than there are functions.
    Invalid,
}

/// A pointer that is not null: an instance of an object, and an offset in bytes from 0 to its size.
#[derive(Clone, Copy, Debug, PartialEq, Eq)]
pub struct ObjectPointer {
    /// The object's place in the program's list.
    pub object: u16,
    /// Which of the object's instances it points into, counted as their declaration is reached.
    pub instance: u64,
    pub offset: u32,
}

/// The value of a scalar.
#[derive(Clone, Copy, Debug, PartialEq, Eq)]
pub enum Value {
    /// A whole number, or that of the fixed-point format of its type.
    Number(i128),
    /// A pointer, None where it is null.
    Pointer(Option<ObjectPointer>),
}

/// The instance that a pointer points into.
#[derive(Clone, Copy, Debug, PartialEq, Eq)]
pub struct Referent {
    pub live: bool,
    /// In bytes.
    pub size: u32,
    /// What it is kept in.
    pub home: Home,
}
