//! The operations on ports.
/// An operation on a port (ISO/IEC TR 18037:2008, 6.2). The names are `iord`, `iowr`, `ioor`, `ioand` and `ioxor`, with
/// the ending `l` where the value is an `unsigned long`, and with `buf` before it where an index is given.
#[derive(Clone, Copy, Debug, PartialEq, Eq)]
pub enum IoOp {
    /// `iord`
    Read,
    /// `iordl`
    ReadLong,
    /// `iordbuf`
    ReadBuffer,
    /// `iordbufl`
    ReadBufferLong,
    /// `iowr`
    Write,
    /// `iowrl`
    WriteLong,
    /// `iowrbuf`
    WriteBuffer,
    /// `iowrbufl`
    WriteBufferLong,
    /// `ioor`
    Or,
    /// `ioorl`
    OrLong,
    /// `ioorbuf`
    OrBuffer,
    /// `ioorbufl`
    OrBufferLong,
    /// `ioand`
    And,
    /// `ioandl`
    AndLong,
    /// `ioandbuf`
    AndBuffer,
    /// `ioandbufl`
    AndBufferLong,
    /// `ioxor`
    Xor,
    /// `ioxorl`
    XorLong,
    /// `ioxorbuf`
    XorBuffer,
    /// `ioxorbufl`
    XorBufferLong,
}
