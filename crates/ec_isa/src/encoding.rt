//! The words of an instruction.
ghost use Rattle.std.specs.Prelude.{◌≡◌, ℕ, IsTrue};
ghost use Rattle.ec_isa.specs.Formats.{words_of};
ghost use Rattle.ec_isa.specs.Table.{row, in_table, first_word, second_word, SecondIs, Decodes};
ghost use Rattle.ec_isa.specs.Reading.{instruction_at};

use crate::formats::*;
use crate::instructions::{Instr, Words};

/// The words of an instruction, if the table has it. This is the decode table, a line for each row.
pub(crate) fn words(i: Instr) -> Option<Words>
    ensures { result ≡ words_of (row i) }
{
    match i {
        Instr::Nop => bare(0x0000),
        Instr::Movw { d, r } => register_pairs(0x0100, d, r),
        Instr::Cpc { d, r } => two_registers(0x0400, d, r),
        Instr::Sbc { d, r } => two_registers(0x0800, d, r),
        Instr::Add { d, r } => two_registers(0x0C00, d, r),
        Instr::Cpse { d, r } => two_registers(0x1000, d, r),
        Instr::Cp { d, r } => two_registers(0x1400, d, r),
        Instr::Sub { d, r } => two_registers(0x1800, d, r),
        Instr::Adc { d, r } => two_registers(0x1C00, d, r),
        Instr::And { d, r } => two_registers(0x2000, d, r),
        Instr::Eor { d, r } => two_registers(0x2400, d, r),
        Instr::Or { d, r } => two_registers(0x2800, d, r),
        Instr::Mov { d, r } => two_registers(0x2C00, d, r),
        Instr::Mul { d, r } => two_registers(0x9C00, d, r),
        Instr::Cpi { d, k } => immediate(0x3000, d, k),
        Instr::Sbci { d, k } => immediate(0x4000, d, k),
        Instr::Subi { d, k } => immediate(0x5000, d, k),
        Instr::Ori { d, k } => immediate(0x6000, d, k),
        Instr::Andi { d, k } => immediate(0x7000, d, k),
        Instr::Ldi { d, k } => immediate(0xE000, d, k),
        Instr::LddZ { d, q } => displacement(0x8000, d, q),
        Instr::LddY { d, q } => displacement(0x8008, d, q),
        Instr::StdZ { q, r } => displacement(0x8200, r, q),
        Instr::StdY { q, r } => displacement(0x8208, r, q),
        Instr::Lds { d, k } => register_and_address(0x9000, d, k),
        Instr::Sts { k, r } => register_and_address(0x9200, r, k),
        Instr::LdZPlus { d } => register_beside(30, 0x9001, d),
        Instr::LdMinusZ { d } => register_beside(30, 0x9002, d),
        Instr::LdYPlus { d } => register_beside(28, 0x9009, d),
        Instr::LdMinusY { d } => register_beside(28, 0x900A, d),
        Instr::LdX { d } => register(0x900C, d),
        Instr::LdXPlus { d } => register_beside(26, 0x900D, d),
        Instr::LdMinusX { d } => register_beside(26, 0x900E, d),
        Instr::StZPlus { r } => register_beside(30, 0x9201, r),
        Instr::StMinusZ { r } => register_beside(30, 0x9202, r),
        Instr::StYPlus { r } => register_beside(28, 0x9209, r),
        Instr::StMinusY { r } => register_beside(28, 0x920A, r),
        Instr::StX { r } => register(0x920C, r),
        Instr::StXPlus { r } => register_beside(26, 0x920D, r),
        Instr::StMinusX { r } => register_beside(26, 0x920E, r),
        Instr::LpmZ { d } => register(0x9004, d),
        Instr::LpmZPlus { d } => register_beside(30, 0x9005, d),
        Instr::Elpm { d } => register(0x9006, d),
        Instr::ElpmInc { d } => register_beside(30, 0x9007, d),
        Instr::Pop { d } => register(0x900F, d),
        Instr::Push { r } => register(0x920F, r),
        Instr::Com { d } => register(0x9400, d),
        Instr::Neg { d } => register(0x9401, d),
        Instr::Swap { d } => register(0x9402, d),
        Instr::Inc { d } => register(0x9403, d),
        Instr::Asr { d } => register(0x9405, d),
        Instr::Lsr { d } => register(0x9406, d),
        Instr::Ror { d } => register(0x9407, d),
        Instr::Dec { d } => register(0x940A, d),
        Instr::Bset { s } => flag(0x9408, s),
        Instr::Bclr { s } => flag(0x9488, s),
        Instr::Ijmp => bare(0x9409),
        Instr::Icall => bare(0x9509),
        Instr::Ret => bare(0x9508),
        Instr::Break => bare(0x9598),
        Instr::Jmp { k } => address(0x940C, k),
        Instr::Call { k } => address(0x940E, k),
        Instr::Adiw { d, k } => pair_immediate(0x9600, d, k),
        Instr::Sbiw { d, k } => pair_immediate(0x9700, d, k),
        Instr::In { d, a } => port(0xB000, d, a),
        Instr::Out { a, r } => port(0xB800, r, a),
        Instr::Rjmp { k } => relative(0xC000, k),
        Instr::Rcall { k } => relative(0xD000, k),
        Instr::Brbs { s, k } => branch(0xF000, s, k),
        Instr::Brbc { s, k } => branch(0xF400, s, k),
        Instr::Bld { d, b } => register_bit(0xF800, d, b),
        Instr::Bst { d, b } => register_bit(0xFA00, d, b),
        Instr::Sbrc { r, b } => register_bit(0xFC00, r, b),
        Instr::Sbrs { r, b } => register_bit(0xFE00, r, b),
    }
}

/// Whether the fields are in the row's ranges and the table has the instruction.
pub fn is_in_table(i: Instr) -> bool
    ensures { result ≡ in_table i }
{
    words(i).is_some()
}

/// The words of an instruction of the table.
pub fn encode(i: Instr) -> Words
    requires { IsTrue (in_table i) }
    ensures first { result.first ≡ first_word i }
    ensures second { result.second ≡ second_word i }
    ensures related { (w1 : ℕ) → SecondIs result.second w1 → Decodes result.first w1 i }

    // What `decode` gives at these words, where any word follows an instruction of one word.
    ensures decodes { (w1 : ℕ) → SecondIs result.second w1 → instruction_at result.first w1 ≡ Some i }
{
    match words(i) {
        Some(words) => words,
        None => unreachable!(),
    }
}
