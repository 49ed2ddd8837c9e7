//! The words of instructions, and word addresses (Microchip AVR Instruction Set Manual).
ghost use Rattle.std.specs.Prelude.{◌≡◌, ◌<◌, ◌≤◌, ◌+◌, ◌*◌, ◌/◌, ◌%◌, ◌==◌, ◌&&◌, not, if◌then◌else◌};

/// `.... ..rd dddd rrrr`: the word of an opcode with two registers, each from 0 to 31.
pub fn two_registers_word(opcode: u16, d: u8, r: u8) -> u16
    requires opcode { opcode ≤ 0x9C00 }
    requires d { d < 32 }
    requires r { r < 32 }
    ensures { result ≡ opcode + r / 16 * 512 + d * 16 + r % 16 }
{
    opcode + r as u16 / 16 * 512 + d as u16 * 16 + r as u16 % 16
}

/// Whether a register is none of the two of a pointer, of which `pointer` is the lower one.
pub fn is_apart(pointer: u8, d: u8) -> bool
    requires { pointer ≤ 30 }
    ensures { result ≡ (not (d == pointer) && not (d == pointer + 1)) }
{
    d != pointer && d != pointer + 1
}

/// How many words a skip passes: none where it is not taken, and else those of the instruction that it passes, which
/// has one or two.
pub fn skipped_words(taken: bool, two_words: bool) -> u32
    ensures value { result ≡ (if taken then (if two_words then 2 else 1) else 0) }
    ensures most { result ≤ 2 }
{
    match (taken, two_words) {
        (false, _) => 0,
        (true, false) => 1,
        (true, true) => 2,
    }
}

/// The word address that a return goes to, by the bytes that it pops: the high one comes first.
pub fn return_address(first: u8, second: u8) -> u32
    ensures { result ≡ 256 * first + second }
{
    256 * first as u32 + second as u32
}
