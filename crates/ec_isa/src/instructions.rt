//! The instructions, as the Microchip AVR Instruction Set Manual names them.
/// An instruction of the core, with its fields.
///
/// A field has the letter that the manual gives its bits, in lower case. A register field holds the
/// register's own number.
///
/// - `d`: the register Rd, which is read, written or both;
/// - `r`: the register Rr, which is read;
/// - `k`: in `Cpi`, `Sbci`, `Subi`, `Ori`, `Andi`, `Ldi`, `Adiw` and `Sbiw` the manual's K, a constant;
///   in `Lds` and `Sts` its k, a data address; in `Jmp` and `Call` its k, a program address in words;
///   in `Rjmp`, `Rcall`, `Brbs` and `Brbc` its k, a distance in words, counted from the next word;
/// - `q`: a displacement, which is added to the pointer;
/// - `a`: the manual's A, an I/O address, which is 0x20 below the data address;
/// - `b`: the number of a bit of a register, 0 to 7;
/// - `s`: the number of a flag of SREG, 0 to 7.
///
/// The pointers are X = R27:R26, Y = R29:R28 and Z = R31:R30. In the name of a form `Plus` after the
/// pointer is the manual's `+` (post-increment), and `Minus` before it is its `-` (pre-decrement).
///
/// A value is an instruction of the table only where its fields are in range and the form is not left
/// out: `is_in_table` tells.
#[derive(Clone, Copy)]
pub enum Instr {
    Nop,
    /// Copies the pair Rr+1:Rr to Rd+1:Rd. Both numbers are even.
    Movw { d: u8, r: u8 },
    Cpc { d: u8, r: u8 },
    Sbc { d: u8, r: u8 },
    Add { d: u8, r: u8 },
    Cpse { d: u8, r: u8 },
    Cp { d: u8, r: u8 },
    Sub { d: u8, r: u8 },
    Adc { d: u8, r: u8 },
    And { d: u8, r: u8 },
    Eor { d: u8, r: u8 },
    Or { d: u8, r: u8 },
    Mov { d: u8, r: u8 },
    Mul { d: u8, r: u8 },
    /// `d` is from 16 to 31, here and in the five that follow.
    Cpi { d: u8, k: u8 },
    Sbci { d: u8, k: u8 },
    Subi { d: u8, k: u8 },
    Ori { d: u8, k: u8 },
    Andi { d: u8, k: u8 },
    Ldi { d: u8, k: u8 },
    /// `LDD Rd, Z+q`, with `q` from 0 to 63. `LD Rd, Z` is the one with `q` 0.
    LddZ { d: u8, q: u8 },
    LddY { d: u8, q: u8 },
    StdZ { q: u8, r: u8 },
    StdY { q: u8, r: u8 },
    Lds { d: u8, k: u16 },
    Sts { k: u16, r: u8 },
    /// `LD Rd, Z+`. A form that changes its pointer does not load one of the pointer's two registers.
    LdZPlus { d: u8 },
    LdMinusZ { d: u8 },
    LdYPlus { d: u8 },
    LdMinusY { d: u8 },
    LdX { d: u8 },
    LdXPlus { d: u8 },
    LdMinusX { d: u8 },
    /// `ST Z+, Rr`. A form that changes its pointer does not store one of the pointer's two registers.
    StZPlus { r: u8 },
    StMinusZ { r: u8 },
    StYPlus { r: u8 },
    StMinusY { r: u8 },
    StX { r: u8 },
    StXPlus { r: u8 },
    StMinusX { r: u8 },
    LpmZ { d: u8 },
    LpmZPlus { d: u8 },
    /// `ELPM Rd, Z`, which loads from the flash at RAMPZ:Z. Cores with more than 64 KiB of flash have it and the next.
    Elpm { d: u8 },
    /// `ELPM Rd, Z+`, after which RAMPZ:Z is one more.
    ElpmInc { d: u8 },
    Pop { d: u8 },
    Push { r: u8 },
    Com { d: u8 },
    Neg { d: u8 },
    Swap { d: u8 },
    Inc { d: u8 },
    Asr { d: u8 },
    Lsr { d: u8 },
    Ror { d: u8 },
    Dec { d: u8 },
    Bset { s: u8 },
    Bclr { s: u8 },
    Ijmp,
    Icall,
    Ret,
    Break,
    Jmp { k: u16 },
    Call { k: u16 },
    /// Adds `k`, from 0 to 63, to the pair Rd+1:Rd, where `d` is 24, 26, 28 or 30.
    Adiw { d: u8, k: u8 },
    Sbiw { d: u8, k: u8 },
    /// `IN Rd, A`, with `a` from 0 to 63.
    In { d: u8, a: u8 },
    Out { a: u8, r: u8 },
    /// `k` is from -2048 to 2047.
    Rjmp { k: i16 },
    Rcall { k: i16 },
    /// `k` is from -64 to 63.
    Brbs { s: u8, k: i16 },
    Brbc { s: u8, k: i16 },
    Bld { d: u8, b: u8 },
    Bst { d: u8, b: u8 },
    Sbrc { r: u8, b: u8 },
    Sbrs { r: u8, b: u8 },
}

/// The words of an instruction: one, or two for `Lds`, `Sts`, `Jmp` and `Call`.
#[derive(Clone, Copy)]
pub struct Words {
    pub first: u16,
    pub second: Option<u16>,
}
