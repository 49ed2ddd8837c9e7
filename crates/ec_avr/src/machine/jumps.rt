//! Where the program counter goes.
ghost use Rattle.std.specs.Prelude.{◌≡◌, Some};
ghost use Rattle.ec_avr.specs.Effects.{relative as relative_of, has_two_words as has_two_words_of};

use super::{Access, Machine, Stepped};
use ec_isa::{Instr, decode, skipped_words};

impl Machine {
    ghost use Rattle.std.specs.Prelude.{◌≡◌, ◌≤◌, IsTrue, IfSome};
    ghost use Rattle.ec_isa.specs.Table.{in_table};
    ghost use Rattle.ec_avr.specs.Effects.{instruction_at, jump, branch, skip};

    /// The instruction at a word address, by the table.
    pub(super) fn instruction_at(&self, at: u32) -> Option<Instr>
        requires { at ≤ 0x1_0000 }
        ensures value { result ≡ instruction_at self.now at }
        ensures in_table { IfSome result (λ i. IsTrue (in_table i)) }
    {
        match self.decoded.get(at as usize) {
            Some(found) => *found,
            None => self.decode_at(at),
        }
    }

    /// The same, by decoding the words there.
    pub(super) fn decode_at(&self, at: u32) -> Option<Instr>
        requires { at ≤ 0x1_0000 }
        ensures value { result ≡ instruction_at self.now at }
        ensures in_table { IfSome result (λ i. IsTrue (in_table i)) }
    {
        decode(self.word_at(at), self.word_at(at + 1))
    }

    pub(super) fn jump(&mut self, to: u32) -> Stepped
        ensures stepped { result ≡ (jump to self.old).stepped }
        ensures state { self.new ≡ (jump to self.old).state }
    {
        self.set_pc(to);
        Stepped::Ran(Access::Silent)
    }

    pub(super) fn branch(&mut self, taken: bool, k: i16) -> Stepped
        ensures stepped { result ≡ (branch taken k self.old).stepped }
        ensures state { self.new ≡ (branch taken k self.old).state }
    {
        if taken {
            self.jump(relative(self.pc, k))
        } else {
            self.silent()
        }
    }

    /// Passes the next instruction where `taken` says so.
    pub(super) fn skip(&mut self, taken: bool) -> Stepped
        ensures stepped { result ≡ (skip taken self.old).stepped }
        ensures state { self.new ≡ (skip taken self.old).state }
    {
        let next = self.pc as u32 + 1;
        let two_words = is_of_two_words(self.instruction_at(next));
        self.jump(next + skipped_words(taken, two_words))
    }
}

/// The word address at a distance from the word after `pc`.
pub(super) fn relative(pc: u16, k: i16) -> u32
    ensures { result ≡ relative_of pc k }
{
    if k < 0 {
        (pc as i32 + 65537 + k as i32) as u32
    } else {
        pc as u32 + 1 + k as u32
    }
}

/// Whether an instruction of the table has two words.
fn has_second_word(instruction: Instr) -> bool
    ensures { result ≡ has_two_words_of (Some instruction) }
{
    match instruction {
        Instr::Lds { .. } | Instr::Sts { .. } | Instr::Jmp { .. } | Instr::Call { .. } => true,
        _ => false,
    }
}

/// Whether an instruction has two words.
pub(crate) fn is_of_two_words(instruction: Option<Instr>) -> bool
    ensures { result ≡ has_two_words_of instruction }
{
    match instruction {
        Some(instruction) => has_second_word(instruction),
        None => false,
    }
}
