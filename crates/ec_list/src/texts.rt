//! The table of the texts of instructions.
ghost use Rattle.std.specs.Prelude.{◌≡◌, ◌++◌, OnOk};
ghost use Rattle.std.specs.Fmt.{decimal};
ghost use Rattle.ec_list.specs.Texts.{bare as bare_of, one as one_of, two as two_of, relative as relative_of, branch as branch_of};
ghost use Rattle.ec_list.specs.Texts.{text, filled, instruction_text};
ghost use Rattle.ec_list.specs.Views.{text_view};

use ec_isa::Instr;
use ec_space::{NoMemory, Seq};
use itoa::Buffer;

/// Where the numbers of a text stand in the words of the instruction, as the formats of the decode table.
#[derive(Clone, Copy)]
pub enum Format {
    /// No numbers.
    Bare,
    /// Two even registers, halved.
    Pairs,
    /// Two registers.
    Two,
    /// A register from R16 on and a byte.
    Immediate,
    /// A register and a displacement from 0 to 63.
    LoadDisplaced,
    /// The same, the displacement first.
    StoreDisplaced,
    /// A register and a data address, which is the second word.
    LoadDirect,
    /// The same, the address first.
    StoreDirect,
    /// A register or a flag.
    One,
    /// A program address, which is the second word.
    Direct,
    /// R24, R26, R28 or R30 and a number from 0 to 63.
    PairImmediate,
    /// A register and an I/O address from 0 to 63.
    In,
    /// The same, the address first.
    Out,
    /// A distance of 0 or more.
    Relative,
    /// A negative distance, without its sign.
    RelativeBack,
    /// A flag and a distance of 0 or more.
    Branch,
    /// A flag and a negative distance, without its sign.
    BranchBack,
    /// A register and a bit.
    Bit,
}

/// The text of an instruction: a pattern, in which `#` stands for a number, and its numbers in order, 0 where there are
/// fewer than two.
#[derive(Clone, Copy)]
pub struct Text {
    pub format: Format,
    pub pattern: &'static [u8],
    pub first: u16,
    pub second: u16,
}

fn bare(pattern: &'static [u8]) -> Text
    ensures { text_view result ≡ bare_of pattern.now }
{
    Text {
        format: Format::Bare,
        pattern,
        first: 0,
        second: 0,
    }
}

fn one(format: Format, pattern: &'static [u8], first: u16) -> Text
    ensures { text_view result ≡ one_of format pattern.now first }
{
    Text {
        format,
        pattern,
        first,
        second: 0,
    }
}

fn two(format: Format, pattern: &'static [u8], first: u16, second: u16) -> Text
    ensures { text_view result ≡ two_of format pattern.now first second }
{
    Text {
        format,
        pattern,
        first,
        second,
    }
}

fn relative(ahead: &'static [u8], back: &'static [u8], k: i16) -> Text
    ensures { text_view result ≡ relative_of ahead.now back.now k }
{
    if k < 0 {
        one(Format::RelativeBack, back, k.unsigned_abs())
    } else {
        one(Format::Relative, ahead, k as u16)
    }
}

fn branch(ahead: &'static [u8], back: &'static [u8], s: u16, k: i16) -> Text
    ensures { text_view result ≡ branch_of ahead.now back.now s k }
{
    if k < 0 {
        two(Format::BranchBack, back, s, k.unsigned_abs())
    } else {
        two(Format::Branch, ahead, s, k as u16)
    }
}

/// The text of an instruction. This is the table, a line for each instruction.
pub fn text_of(i: Instr) -> Text
    ensures { text_view result ≡ text i }
{
    match i {
        Instr::Nop => bare(b"NOP"),
        Instr::Movw { d, r } => two(Format::Pairs, b"MOVW R#, R#", d as u16, r as u16),
        Instr::Cpc { d, r } => two(Format::Two, b"CPC R#, R#", d as u16, r as u16),
        Instr::Sbc { d, r } => two(Format::Two, b"SBC R#, R#", d as u16, r as u16),
        Instr::Add { d, r } => two(Format::Two, b"ADD R#, R#", d as u16, r as u16),
        Instr::Cpse { d, r } => two(Format::Two, b"CPSE R#, R#", d as u16, r as u16),
        Instr::Cp { d, r } => two(Format::Two, b"CP R#, R#", d as u16, r as u16),
        Instr::Sub { d, r } => two(Format::Two, b"SUB R#, R#", d as u16, r as u16),
        Instr::Adc { d, r } => two(Format::Two, b"ADC R#, R#", d as u16, r as u16),
        Instr::And { d, r } => two(Format::Two, b"AND R#, R#", d as u16, r as u16),
        Instr::Eor { d, r } => two(Format::Two, b"EOR R#, R#", d as u16, r as u16),
        Instr::Or { d, r } => two(Format::Two, b"OR R#, R#", d as u16, r as u16),
        Instr::Mov { d, r } => two(Format::Two, b"MOV R#, R#", d as u16, r as u16),
        Instr::Mul { d, r } => two(Format::Two, b"MUL R#, R#", d as u16, r as u16),
        Instr::Cpi { d, k } => two(Format::Immediate, b"CPI R#, #", d as u16, k as u16),
        Instr::Sbci { d, k } => two(Format::Immediate, b"SBCI R#, #", d as u16, k as u16),
        Instr::Subi { d, k } => two(Format::Immediate, b"SUBI R#, #", d as u16, k as u16),
        Instr::Ori { d, k } => two(Format::Immediate, b"ORI R#, #", d as u16, k as u16),
        Instr::Andi { d, k } => two(Format::Immediate, b"ANDI R#, #", d as u16, k as u16),
        Instr::Ldi { d, k } => two(Format::Immediate, b"LDI R#, #", d as u16, k as u16),
        Instr::LddZ { d, q } => two(Format::LoadDisplaced, b"LDD R#, Z+#", d as u16, q as u16),
        Instr::LddY { d, q } => two(Format::LoadDisplaced, b"LDD R#, Y+#", d as u16, q as u16),
        Instr::StdZ { q, r } => two(Format::StoreDisplaced, b"STD Z+#, R#", q as u16, r as u16),
        Instr::StdY { q, r } => two(Format::StoreDisplaced, b"STD Y+#, R#", q as u16, r as u16),
        Instr::Lds { d, k } => two(Format::LoadDirect, b"LDS R#, #", d as u16, k),
        Instr::Sts { k, r } => two(Format::StoreDirect, b"STS #, R#", k, r as u16),
        Instr::LdZPlus { d } => one(Format::One, b"LD R#, Z+", d as u16),
        Instr::LdMinusZ { d } => one(Format::One, b"LD R#, -Z", d as u16),
        Instr::LdYPlus { d } => one(Format::One, b"LD R#, Y+", d as u16),
        Instr::LdMinusY { d } => one(Format::One, b"LD R#, -Y", d as u16),
        Instr::LdX { d } => one(Format::One, b"LD R#, X", d as u16),
        Instr::LdXPlus { d } => one(Format::One, b"LD R#, X+", d as u16),
        Instr::LdMinusX { d } => one(Format::One, b"LD R#, -X", d as u16),
        Instr::StZPlus { r } => one(Format::One, b"ST Z+, R#", r as u16),
        Instr::StMinusZ { r } => one(Format::One, b"ST -Z, R#", r as u16),
        Instr::StYPlus { r } => one(Format::One, b"ST Y+, R#", r as u16),
        Instr::StMinusY { r } => one(Format::One, b"ST -Y, R#", r as u16),
        Instr::StX { r } => one(Format::One, b"ST X, R#", r as u16),
        Instr::StXPlus { r } => one(Format::One, b"ST X+, R#", r as u16),
        Instr::StMinusX { r } => one(Format::One, b"ST -X, R#", r as u16),
        Instr::LpmZ { d } => one(Format::One, b"LPM R#, Z", d as u16),
        Instr::LpmZPlus { d } => one(Format::One, b"LPM R#, Z+", d as u16),
        Instr::Elpm { d } => one(Format::One, b"ELPM R#, Z", d as u16),
        Instr::ElpmInc { d } => one(Format::One, b"ELPM R#, Z+", d as u16),
        Instr::Pop { d } => one(Format::One, b"POP R#", d as u16),
        Instr::Push { r } => one(Format::One, b"PUSH R#", r as u16),
        Instr::Com { d } => one(Format::One, b"COM R#", d as u16),
        Instr::Neg { d } => one(Format::One, b"NEG R#", d as u16),
        Instr::Swap { d } => one(Format::One, b"SWAP R#", d as u16),
        Instr::Inc { d } => one(Format::One, b"INC R#", d as u16),
        Instr::Asr { d } => one(Format::One, b"ASR R#", d as u16),
        Instr::Lsr { d } => one(Format::One, b"LSR R#", d as u16),
        Instr::Ror { d } => one(Format::One, b"ROR R#", d as u16),
        Instr::Dec { d } => one(Format::One, b"DEC R#", d as u16),
        Instr::Bset { s } => one(Format::One, b"BSET #", s as u16),
        Instr::Bclr { s } => one(Format::One, b"BCLR #", s as u16),
        Instr::Ijmp => bare(b"IJMP"),
        Instr::Icall => bare(b"ICALL"),
        Instr::Ret => bare(b"RET"),
        Instr::Break => bare(b"BREAK"),
        Instr::Jmp { k } => one(Format::Direct, b"JMP #", k),
        Instr::Call { k } => one(Format::Direct, b"CALL #", k),
        Instr::Adiw { d, k } => two(Format::PairImmediate, b"ADIW R#, #", d as u16, k as u16),
        Instr::Sbiw { d, k } => two(Format::PairImmediate, b"SBIW R#, #", d as u16, k as u16),
        Instr::In { d, a } => two(Format::In, b"IN R#, #", d as u16, a as u16),
        Instr::Out { a, r } => two(Format::Out, b"OUT #, R#", a as u16, r as u16),
        Instr::Rjmp { k } => relative(b"RJMP #", b"RJMP -#", k),
        Instr::Rcall { k } => relative(b"RCALL #", b"RCALL -#", k),
        Instr::Brbs { s, k } => branch(b"BRBS #, #", b"BRBS #, -#", s as u16, k),
        Instr::Brbc { s, k } => branch(b"BRBC #, #", b"BRBC #, -#", s as u16, k),
        Instr::Bld { d, b } => two(Format::Bit, b"BLD R#, #", d as u16, b as u16),
        Instr::Bst { d, b } => two(Format::Bit, b"BST R#, #", d as u16, b as u16),
        Instr::Sbrc { r, b } => two(Format::Bit, b"SBRC R#, #", r as u16, b as u16),
        Instr::Sbrs { r, b } => two(Format::Bit, b"SBRS R#, #", r as u16, b as u16),
    }
}

/// Appends a number in decimal.
fn push_number(out: &mut Seq<u8>, n: u16) -> Result<(), NoMemory>
    ensures { OnOk result (out.new.items ≡ out.old.items ++ decimal n) }
{
    let mut digits = Buffer::new();
    out.extend_from_slice(digits.format(n).as_bytes())
}

/// Appends a pattern with its numbers.
fn push_filled(out: &mut Seq<u8>, pattern: &[u8], first: u16, second: u16) -> Result<(), NoMemory>
    ensures { OnOk result (out.new.items ≡ out.old.items ++ filled pattern.now first second) }
{
    let mut next = first;
    let mut later = second;
    for c in pattern {
        if *c == b'#' {
            push_number(out, next)?;
            next = later;
            later = 0;
        } else {
            out.push(*c)?;
        }
    }
    Ok(())
}

/// Appends the text of an instruction.
pub fn push_instruction(out: &mut Seq<u8>, i: Instr) -> Result<(), NoMemory>
    ensures { OnOk result (out.new.items ≡ out.old.items ++ instruction_text i) }
{
    let text = text_of(i);
    push_filled(out, text.pattern, text.first, text.second)
}
