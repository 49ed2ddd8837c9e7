//! The effect of each instruction.
use super::flags::bit;
use super::jumps::relative;
use super::places::*;
use super::{Machine, Stepped};
use ec_isa::{Instr, lowered};

/// The flag C.
const CARRY: u8 = 0;

/// The flag Z.
const ZERO: u8 = 1;

/// The flag T.
const TRANSFER: u8 = 6;

impl Machine {
    ghost use Rattle.std.specs.Prelude.{◌≡◌, IsTrue, Some};
    ghost use Rattle.ec_isa.specs.Table.{in_table};
    ghost use Rattle.ec_avr.specs.Effects.{effect, load_address};
    ghost use Rattle.ec_avr.specs.Quiet.{store_address};

    /// Performs an instruction of the table, where the port that it reads answers a byte.
    #[inline(always)]
    #[tactic(auto, unfolding(crate::specs::Effects::effect))]
    pub(super) fn perform(&mut self, instruction: Instr, answer: u8) -> Stepped
        requires { IsTrue (in_table instruction) }
        ensures stepped { result ≡ (effect (Some instruction) answer self.old).stepped }
        ensures state { self.new ≡ (effect (Some instruction) answer self.old).state }
    {
        match instruction {
            Instr::Nop => self.silent(),
            Instr::Movw { d, r } => {
                self.set_pair(d, self.pair(r));
                self.silent()
            }
            Instr::Mov { d, r } => {
                self.set_register(d, self.register(r));
                self.silent()
            }
            Instr::Ldi { d, k } => {
                self.set_register(d, k);
                self.silent()
            }
            Instr::Add { d, r } => self.sum_into(d, self.register(r), 0),
            Instr::Adc { d, r } => self.sum_into(d, self.register(r), self.flag(CARRY)),
            Instr::Sub { d, r } => self.difference_into(
                d,
                self.register(d),
                self.register(r),
                0,
                1,
            ),
            Instr::Sbc { d, r } => self.difference_into(
                d,
                self.register(d),
                self.register(r),
                self.flag(CARRY),
                self.flag(ZERO),
            ),
            Instr::Subi { d, k } => self.difference_into(d, self.register(d), k, 0, 1),
            Instr::Sbci { d, k } => self.difference_into(
                d,
                self.register(d),
                k,
                self.flag(CARRY),
                self.flag(ZERO),
            ),
            Instr::Neg { d } => self.difference_into(d, 0, self.register(d), 0, 1),
            Instr::Cp { d, r } => self.compare(self.register(d), self.register(r), 0, 1),
            Instr::Cpc { d, r } => self.compare(
                self.register(d),
                self.register(r),
                self.flag(CARRY),
                self.flag(ZERO),
            ),
            Instr::Cpi { d, k } => self.compare(self.register(d), k, 0, 1),
            Instr::And { d, r } => self.logic_into(d, self.register(d) & self.register(r)),
            Instr::Andi { d, k } => self.logic_into(d, self.register(d) & k),
            Instr::Or { d, r } => self.logic_into(d, self.register(d) | self.register(r)),
            Instr::Ori { d, k } => self.logic_into(d, self.register(d) | k),
            Instr::Eor { d, r } => self.logic_into(d, self.register(d) ^ self.register(r)),
            Instr::Com { d } => self.complement(d),
            Instr::Inc { d } => self.count_to(d, self.register(d).wrapping_add(1), 0x80),
            Instr::Dec { d } => self.count_to(d, self.register(d).wrapping_sub(1), 0x7F),
            Instr::Asr { d } => self.shift(d, self.register(d) / 128),
            Instr::Lsr { d } => self.shift(d, 0),
            Instr::Ror { d } => self.shift(d, self.flag(CARRY)),
            Instr::Swap { d } => self.swap(d),
            Instr::Adiw { d, k } => self.add_to_pair(d, k),
            Instr::Sbiw { d, k } => self.subtract_from_pair(d, k),
            Instr::Mul { d, r } => self.multiply(self.register(d), self.register(r)),
            Instr::Bset { s } => self.set_flag(s, 1),
            Instr::Bclr { s } => self.set_flag(s, 0),
            Instr::Bst { d, b } => self.set_flag(TRANSFER, bit(self.register(d), b)),
            Instr::Bld { d, b } => self.set_bit(d, b, self.flag(TRANSFER)),
            Instr::LddZ { d, q } => self.load(d, self.displaced(Z, q), answer, 1),
            Instr::LddY { d, q } => self.load(d, self.displaced(Y, q), answer, 1),
            Instr::LdX { d } => self.load(d, self.pair(X), answer, 1),
            Instr::Lds { d, k } => self.load(d, k, answer, 2),
            Instr::In { d, a } => self.load(d, a as u16 + 0x20, answer, 1),
            Instr::LdZPlus { d } => self.load_and_raise(d, Z, answer),
            Instr::LdYPlus { d } => self.load_and_raise(d, Y, answer),
            Instr::LdXPlus { d } => self.load_and_raise(d, X, answer),
            Instr::LdMinusZ { d } => self.lower_and_load(d, Z, answer),
            Instr::LdMinusY { d } => self.lower_and_load(d, Y, answer),
            Instr::LdMinusX { d } => self.lower_and_load(d, X, answer),
            Instr::StdZ { q, r } => self.store(self.displaced(Z, q), self.register(r), 1),
            Instr::StdY { q, r } => self.store(self.displaced(Y, q), self.register(r), 1),
            Instr::StX { r } => self.store(self.pair(X), self.register(r), 1),
            Instr::Sts { k, r } => self.store(k, self.register(r), 2),
            Instr::Out { a, r } => self.store(a as u16 + 0x20, self.register(r), 1),
            Instr::StZPlus { r } => self.store_and_raise(Z, self.register(r)),
            Instr::StYPlus { r } => self.store_and_raise(Y, self.register(r)),
            Instr::StXPlus { r } => self.store_and_raise(X, self.register(r)),
            Instr::StMinusZ { r } => self.lower_and_store(Z, self.register(r)),
            Instr::StMinusY { r } => self.lower_and_store(Y, self.register(r)),
            Instr::StMinusX { r } => self.lower_and_store(X, self.register(r)),
            Instr::LpmZ { d } => self.load_flash(d),
            Instr::LpmZPlus { d } => self.load_flash_and_raise(d),
            Instr::Elpm { d } => self.load_far(d),
            Instr::ElpmInc { d } => self.load_far_and_raise(d),
            Instr::Push { r } => self.push(self.register(r)),
            Instr::Pop { d } => self.pop(d),
            Instr::Call { k } => self.call(k as u32, self.pc as u32 + 2),
            Instr::Rcall { k } => self.call(relative(self.pc, k), self.pc as u32 + 1),
            Instr::Icall => self.call(self.pair(Z) as u32, self.pc as u32 + 1),
            Instr::Ret => self.return_from_call(),
            Instr::Jmp { k } => self.jump(k as u32),
            Instr::Rjmp { k } => self.jump(relative(self.pc, k)),
            Instr::Ijmp => self.jump(self.pair(Z) as u32),
            Instr::Brbs { s, k } => self.branch(self.flag(s) == 1, k),
            Instr::Brbc { s, k } => self.branch(self.flag(s) == 0, k),
            Instr::Cpse { d, r } => self.skip(self.register(d) == self.register(r)),
            Instr::Sbrc { r, b } => self.skip(bit(self.register(r), b) == 0),
            Instr::Sbrs { r, b } => self.skip(bit(self.register(r), b) == 1),
            Instr::Break => Stepped::Ended,
        }
    }

    /// The data address that an instruction loads from, if it loads a data byte.
    #[inline(always)]
    pub(super) fn load_address(&self, instruction: Instr) -> Option<u16>
        requires { IsTrue (in_table instruction) }
        ensures { result ≡ load_address (Some instruction) self.now }
    {
        Some(match instruction {
            Instr::LddZ { q, .. } => self.displaced(Z, q),
            Instr::LddY { q, .. } => self.displaced(Y, q),
            Instr::LdX { .. } | Instr::LdXPlus { .. } => self.pair(X),
            Instr::LdZPlus { .. } => self.pair(Z),
            Instr::LdYPlus { .. } => self.pair(Y),
            Instr::LdMinusX { .. } => lowered(self.pair(X)),
            Instr::LdMinusY { .. } => lowered(self.pair(Y)),
            Instr::LdMinusZ { .. } => lowered(self.pair(Z)),
            Instr::Lds { k, .. } => k,
            Instr::In { a, .. } => a as u16 + 0x20,
            _ => return None,
        })
    }

    /// The data address that an instruction stores to, if it stores a data byte.
    #[inline(always)]
    pub(super) fn store_address(&self, instruction: Instr) -> Option<u16>
        requires { IsTrue (in_table instruction) }
        ensures { result ≡ store_address (Some instruction) self.now }
    {
        Some(match instruction {
            Instr::StdZ { q, .. } => self.displaced(Z, q),
            Instr::StdY { q, .. } => self.displaced(Y, q),
            Instr::StX { .. } | Instr::StXPlus { .. } => self.pair(X),
            Instr::StZPlus { .. } => self.pair(Z),
            Instr::StYPlus { .. } => self.pair(Y),
            Instr::StMinusX { .. } => lowered(self.pair(X)),
            Instr::StMinusY { .. } => lowered(self.pair(Y)),
            Instr::StMinusZ { .. } => lowered(self.pair(Z)),
            Instr::Sts { k, .. } => k,
            Instr::Out { a, .. } => a as u16 + 0x20,
            _ => return None,
        })
    }
}
