//! Small parts of code for numbers of several bytes: the instruction for a byte, the words of instructions, and counts.
ghost use Rattle.std.specs.Prelude.{◌≡◌, ◌-◌, ◌<◌, ◌==◌};
ghost use Rattle.ec_asm.specs.Bytes.{words as words_of, sums as sum_of, compares as comparison_of};

use ec_isa::Instr;

/// The words of an instruction, 1 or 2 (Microchip AVR Instruction Set Manual).
pub fn words(instr: Instr) -> u8
    ensures { result ≡ words_of instr }
{
    match instr {
        Instr::Lds { .. } | Instr::Sts { .. } | Instr::Jmp { .. } | Instr::Call { .. } => 2,
        _ => 1,
    }
}

/// The instruction that adds byte `i` of a number, counted from 0 as the lowest: the lowest byte takes no carry.
pub fn sums(i: u8, d: u8, r: u8) -> Instr
    ensures { result ≡ sum_of i d r }
{
    if i == 0 {
        Instr::Add { d, r }
    } else {
        Instr::Adc { d, r }
    }
}

/// The instruction that compares byte `i` of a number, counted from 0 as the lowest: the lowest byte takes no borrow.
pub fn compares(i: u8, d: u8, r: u8) -> Instr
    ensures { result ≡ comparison_of i d r }
{
    if i == 0 {
        Instr::Cp { d, r }
    } else {
        Instr::Cpc { d, r }
    }
}

/// The place of the `k`-th byte from the top of a number of so many bytes, both counted from 0: the lowest byte has
/// place 0.
pub fn from_top(bytes: u8, k: u8) -> u8
    requires { k < bytes }
    ensures { result ≡ bytes - 1 - k }
{
    bytes - 1 - k
}

/// Whether what was counted so often stands once.
pub fn is_once(count: usize) -> bool
    ensures { result ≡ (count == 1) }
{
    count == 1
}
