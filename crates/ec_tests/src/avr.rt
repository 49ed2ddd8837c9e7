//! The machine on flags that were worked out apart from it, on whole small programs, and at each fault.
ghost use Rattle.std.specs.Prelude.{◌≤◌, ◌<◌};

use ec_avr::{Access, FaultKind, Image, Machine, PortAnswer, Stepped};
use ec_space::{Bank, Core, Data, NoMemory, Place};
use std::alloc::Global;

/// An image of a core with the words at the start of its flash.
pub(crate) fn image_of(alloc: Global, core: Core, words: &[u16]) -> Result<Image, NoMemory> {
    let mut image = Image::new(alloc, core)?;
    for (i, word) in words.iter().enumerate() {
        write_word(&mut image, i, *word);
    }
    Ok(image)
}

/// The machine after a reset with the words at the start of its flash.
fn booted(alloc: Global, words: &[u16], fill: u8) -> Result<Machine, NoMemory> {
    let image = image_of(alloc, Core::Small, words)?;
    Machine::boot(alloc, &image, fill)
}

/// Writes a word at a word address, if the flash has it.
fn write_word(image: &mut Image, at: usize, word: u16) {
    let size = image.core.flash_size() as usize;
    if at < size / 2 {
        image.write(2 * at, (word % 256) as u8);
        image.write(2 * at + 1, (word / 256) as u8);
    }
}

/// A step, where each port answers 0x2A.
pub(crate) fn stepped(machine: &mut Machine) -> Stepped {
    match machine.needs_port() {
        Some(_) => machine.step(PortAnswer::Byte(0x2A)),
        None => machine.step(PortAnswer::Nothing),
    }
}

/// Whether so many steps access nothing.
pub(crate) fn are_silent(machine: &mut Machine, count: u8) -> bool {
    for _ in 0..count {
        if stepped(machine) != Stepped::Ran(Access::Silent) {
            return false;
        }
    }
    true
}

/// Whether a byte stands at an address of the data bank.
pub(crate) fn holds(machine: &Machine, offset: u32, byte: u8) -> bool {
    let bank = Bank::Data;
    machine.memory().load::<Data, u8>(Place { bank, offset }) == Some(byte)
}

/// `LDI Rd, k`
pub(crate) fn ldi(d: u16, k: u16) -> u16
    requires upper { 16 ≤ d }
    requires register { d < 32 }
{
    0xE000 + k / 16 % 16 * 256 + (d - 16) * 16 + k % 16
}

/// A word of code; the operands x, of which R16 has the low byte and R25:R24 both, and y, which R17 has; SREG before;
/// the lower register of the pair where the result stands; that pair after the step, and SREG after it. The results and
/// the flags were worked out bit by bit from the Boolean formulas of the instruction set manual.
type Operation = (u16, u16, u8, u8, u8, u16, u8);

static OPERATIONS: [Operation; 73] = [
    (0x0F01, 0x007F, 0x01, 0x00, 16, 0x0180, 0x2C), // ADD
    (0x0F01, 0x0080, 0x80, 0x00, 16, 0x8000, 0x1B), // ADD
    (0x0F01, 0x00FF, 0x01, 0xC0, 16, 0x0100, 0xE3), // ADD
    (0x0F01, 0x000F, 0x01, 0xFF, 16, 0x0110, 0xE0), // ADD
    (0x0F01, 0x0000, 0x00, 0x3D, 16, 0x0000, 0x02), // ADD
    (0x0F01, 0x0080, 0x7F, 0x02, 16, 0x7FFF, 0x14), // ADD
    (0x1F01, 0x007F, 0x00, 0x01, 16, 0x0080, 0x2C), // ADC
    (0x1F01, 0x00FF, 0x00, 0x01, 16, 0x0000, 0x23), // ADC
    (0x1F01, 0x000F, 0x00, 0x41, 16, 0x0010, 0x60), // ADC
    (0x1F01, 0x00FF, 0xFF, 0x01, 16, 0xFFFF, 0x35), // ADC
    (0x1F01, 0x0080, 0x7F, 0x00, 16, 0x7FFF, 0x14), // ADC
    (0x1F01, 0x0000, 0x00, 0x02, 16, 0x0000, 0x02), // ADC
    (0x1B01, 0x0080, 0x01, 0x00, 16, 0x017F, 0x38), // SUB
    (0x1B01, 0x0000, 0x01, 0xC0, 16, 0x01FF, 0xF5), // SUB
    (0x1B01, 0x0010, 0x01, 0xFF, 16, 0x010F, 0xE0), // SUB
    (0x1701, 0x007F, 0xFF, 0x00, 16, 0xFF7F, 0x0D), // CP
    (0x1701, 0x0042, 0x42, 0x00, 16, 0x4242, 0x02), // CP
    (0x5800, 0x0000, 0x80, 0x02, 16, 0x8080, 0x0D), // SUBI
    (0x370F, 0x0080, 0x7F, 0x00, 16, 0x7F80, 0x38), // CPI
    (0x1701, 0x000F, 0x10, 0x01, 16, 0x100F, 0x15), // CP
    (0x0B01, 0x0080, 0x00, 0x01, 16, 0x007F, 0x38), // SBC
    (0x0B01, 0x0001, 0x00, 0x03, 16, 0x0000, 0x02), // SBC
    (0x0B01, 0x0001, 0x00, 0x01, 16, 0x0000, 0x00), // SBC
    (0x0701, 0x0042, 0x42, 0x02, 16, 0x4242, 0x02), // CPC
    (0x0701, 0x0042, 0x42, 0x00, 16, 0x4242, 0x00), // CPC
    (0x4F0F, 0x0000, 0xFF, 0x01, 16, 0xFF00, 0x21), // SBCI
    (0x0701, 0x0010, 0x0F, 0x03, 16, 0x0F10, 0x22), // CPC
    (0x4000, 0x0000, 0x00, 0xC1, 16, 0x00FF, 0xF5), // SBCI
    (0x2301, 0x00F0, 0x0F, 0x3D, 16, 0x0F00, 0x23), // AND
    (0x2301, 0x0080, 0xFF, 0x00, 16, 0xFF80, 0x14), // AND
    (0x2B01, 0x0000, 0x00, 0xFD, 16, 0x0000, 0xE3), // OR
    (0x6800, 0x0001, 0x80, 0x2B, 16, 0x8081, 0x35), // ORI
    (0x2701, 0x0055, 0x55, 0x00, 16, 0x5500, 0x02), // EOR
    (0x2701, 0x00FF, 0x7F, 0x0A, 16, 0x7F80, 0x14), // EOR
    (0x730F, 0x007F, 0x3F, 0xFF, 16, 0x3F3F, 0xE1), // ANDI
    (0x9500, 0x00FF, 0x99, 0x00, 16, 0x9900, 0x03), // COM
    (0x9500, 0x0000, 0x99, 0x2A, 16, 0x99FF, 0x35), // COM
    (0x9500, 0x0080, 0x99, 0xFF, 16, 0x997F, 0xE1), // COM
    (0x9501, 0x0080, 0x99, 0x00, 16, 0x9980, 0x0D), // NEG
    (0x9501, 0x0000, 0x99, 0xFF, 16, 0x9900, 0xC2), // NEG
    (0x9501, 0x0001, 0x99, 0x02, 16, 0x99FF, 0x35), // NEG
    (0x9501, 0x0010, 0x99, 0x20, 16, 0x99F0, 0x15), // NEG
    (0x9501, 0x00FF, 0x99, 0x00, 16, 0x9901, 0x21), // NEG
    (0x9503, 0x007F, 0x99, 0x00, 16, 0x9980, 0x0C), // INC
    (0x9503, 0x00FF, 0x99, 0x21, 16, 0x9900, 0x23), // INC
    (0x9503, 0x0080, 0x99, 0x08, 16, 0x9981, 0x14), // INC
    (0x950A, 0x0080, 0x99, 0x00, 16, 0x997F, 0x18), // DEC
    (0x950A, 0x0001, 0x99, 0x21, 16, 0x9900, 0x23), // DEC
    (0x950A, 0x0000, 0x99, 0xC0, 16, 0x99FF, 0xD4), // DEC
    (0x9505, 0x0081, 0x99, 0x00, 16, 0x99C0, 0x15), // ASR
    (0x9505, 0x0001, 0x99, 0x20, 16, 0x9900, 0x3B), // ASR
    (0x9505, 0x0080, 0x99, 0x01, 16, 0x99C0, 0x0C), // ASR
    (0x9506, 0x0001, 0x99, 0x00, 16, 0x9900, 0x1B), // LSR
    (0x9506, 0x0080, 0x99, 0xE4, 16, 0x9940, 0xE0), // LSR
    (0x9507, 0x0000, 0x99, 0x01, 16, 0x9980, 0x0C), // ROR
    (0x9507, 0x0001, 0x99, 0x00, 16, 0x9900, 0x1B), // ROR
    (0x9507, 0x00FF, 0x99, 0x00, 16, 0x997F, 0x19), // ROR
    (0x9507, 0x0002, 0x99, 0xC3, 16, 0x9981, 0xCC), // ROR
    (0x9601, 0x7FFF, 0x55, 0x00, 24, 0x8000, 0x0C), // ADIW
    (0x9601, 0xFFFF, 0x55, 0x20, 24, 0x0000, 0x23), // ADIW
    (0x9601, 0x00FF, 0x55, 0x01, 24, 0x0100, 0x00), // ADIW
    (0x96CF, 0xFFC1, 0x55, 0xDF, 24, 0x0000, 0xC3), // ADIW
    (0x9701, 0x8000, 0x55, 0x00, 24, 0x7FFF, 0x18), // SBIW
    (0x9701, 0x0000, 0x55, 0x20, 24, 0xFFFF, 0x35), // SBIW
    (0x9701, 0x0100, 0x55, 0x01, 24, 0x00FF, 0x00), // SBIW
    (0x97CF, 0x003F, 0x55, 0xC0, 24, 0x0000, 0xC2), // SBIW
    (0x97CF, 0x0001, 0x55, 0x00, 24, 0xFFC2, 0x15), // SBIW
    (0x9F01, 0x00FF, 0xFF, 0x00, 0, 0xFE01, 0x01), // MUL
    (0x9F01, 0x0000, 0x7B, 0xFC, 0, 0x0000, 0xFE), // MUL
    (0x9F01, 0x0080, 0xFF, 0x02, 0, 0x7F80, 0x00), // MUL
    (0x9F01, 0x0010, 0x10, 0xFF, 0, 0x0100, 0xFC), // MUL
    (0x9F01, 0x00B5, 0x01, 0x03, 0, 0x00B5, 0x00), // MUL
    (0x9F01, 0x0080, 0x02, 0x00, 0, 0x0100, 0x00), // MUL
];

/// Whether seven silent steps lead to a BREAK with that pair of registers at `at`, and that SREG.
fn ends_with(machine: &mut Machine, at: u8, pair: u16, after: u8) -> bool {
    are_silent(machine, 7)
        && stepped(machine) == Stepped::Ended
        && holds(machine, at as u32, (pair % 256) as u8)
        && holds(machine, at as u32 + 1, (pair / 256) as u8)
        && holds(machine, 0x5F, after)
}

/// Whether an operation on its operands does so.
fn operates(alloc: Global, words: &[u16], at: u8, pair: u16, after: u8) -> Result<bool, NoMemory> {
    let mut machine = booted(alloc, words, 0)?;
    Ok(ends_with(&mut machine, at, pair, after))
}

#[test]
fn operations(rt: HostRuntime) {
    for &(word, x, y, before, at, result, after) in &OPERATIONS {
        let words = [
            ldi(18, before as u16),
            0xBF2F,
            ldi(16, x % 256),
            ldi(24, x % 256),
            ldi(25, x / 256),
            ldi(17, y as u16),
            word,
            0x9598,
        ];
        let done = operates(rt.alloc(), &words, at, result, after);
        assert!(rt;
            matches!(done, Ok(true)),
            "{word:04X} {x:04X} {y:02X} {before:02X}"
        );
    }
}

/// A program that runs to BREAK where each port answers 0x2A.
struct Program {
    words: &'static [u16],
    /// The accesses that are not silent, with the number of silent ones before them.
    trace: &'static [(u8, Access)],
    /// The silent accesses after those.
    rest: u8,
    result: i16,
    /// Data bytes afterwards, by their addresses.
    bytes: &'static [(u32, u8)],
}

static PROGRAMS: [Program; 9] = [
    // LDI R26,0x00; LDI R27,0x01; LDI R16,0x2A; ST X+,R16; LD R17,-X; STS 0x0102,R17; LDI R28,0x00; LDI R29,0x01;
    // LDD R24,Y+2; LDI R25,0; BREAK
    Program {
        words: &[
            0xE0A0, 0xE0B1, 0xE20A, 0x930D, 0x911E, 0x9310, 0x0102, 0xE0C0, 0xE0D1, 0x818A, 0xE090,
            0x9598,
        ],
        trace: &[
            (
                3,
                Access::Write {
                    at: 0x0100,
                    byte: 0x2A,
                },
            ),
            (
                0,
                Access::Read {
                    bank: Bank::Data,
                    at: 0x0100,
                    byte: 0x2A,
                },
            ),
            (
                0,
                Access::Write {
                    at: 0x0102,
                    byte: 0x2A,
                },
            ),
            (
                2,
                Access::Read {
                    bank: Bank::Data,
                    at: 0x0102,
                    byte: 0x2A,
                },
            ),
        ],
        rest: 1,
        result: 42,
        bytes: &[
            (0x0100, 0x2A),
            (0x0101, 0xA5),
            (0x0102, 0x2A),
            (26, 0x00),
            (27, 0x01),
            (17, 0x2A),
        ],
    },
    // Z points at itself. LDI R30,0x1E; LDI R31,0; LDI R16,0x77; ST Z+,R16; MOV R24,R30; LD R25,-Z; BREAK
    Program {
        words: &[0xE1EE, 0xE0F0, 0xE707, 0x9301, 0x2F8E, 0x9192, 0x9598],
        trace: &[],
        rest: 6,
        result: 0x1E1F,
        bytes: &[(30, 0x1E), (31, 0x00)],
    },
    // LDI R16,0xFF; OUT SPL,R16; LDI R16,0x08; OUT SPH,R16; LDI R24,0x12; LDI R25,0x34; PUSH R24; PUSH R25; POP R24;
    // POP R25; BREAK
    Program {
        words: &[
            0xEF0F, 0xBF0D, 0xE008, 0xBF0E, 0xE182, 0xE394, 0x938F, 0x939F, 0x918F, 0x919F, 0x9598,
        ],
        trace: &[
            (6, Access::Stack),
            (0, Access::Stack),
            (0, Access::Stack),
            (0, Access::Stack),
        ],
        rest: 0,
        result: 0x1234,
        bytes: &[(0x08FF, 0x12), (0x08FE, 0x34), (0x5D, 0xFF), (0x5E, 0x08)],
    },
    // LDI R16,0xFF; OUT SPL,R16; LDI R16,0x08; OUT SPH,R16; CALL 9; LDI R25,0; BREAK; NOP; at 9: LDI R24,5; RCALL 12;
    // RET; at 12: INC R24; RET
    Program {
        words: &[
            0xEF0F, 0xBF0D, 0xE008, 0xBF0E, 0x940E, 0x0009, 0xE090, 0x9598, 0x0000, 0xE085, 0xD001,
            0x9508, 0x9583, 0x9508,
        ],
        trace: &[
            (4, Access::Stack),
            (1, Access::Stack),
            (1, Access::Stack),
            (0, Access::Stack),
        ],
        rest: 1,
        result: 6,
        bytes: &[
            (0x08FF, 6),
            (0x08FE, 0),
            (0x08FD, 11),
            (0x08FC, 0),
            (0x5D, 0xFF),
            (0x5E, 0x08),
        ],
    },
    // LDI R24,0; LDI R25,0; LDI R16,1; SBRC R16,0; INC R24; SBRS R16,0; LDS R24,0x0100; INC R24; CPSE R16,R16;
    // LDI R24,0x63; CPSE R16,R24; INC R24; BREAK
    Program {
        words: &[
            0xE080, 0xE090, 0xE001, 0xFD00, 0x9583, 0xFF00, 0x9180, 0x0100, 0x9583, 0x1300, 0xE683,
            0x1308, 0x9583, 0x9598,
        ],
        trace: &[],
        rest: 10,
        result: 3,
        bytes: &[],
    },
    // LDI R30,0x0A; LDI R31,0; LPM R24,Z+; LPM R25,Z; BREAK; then 34 56
    Program {
        words: &[0xE0EA, 0xE0F0, 0x9185, 0x9194, 0x9598, 0x5634],
        trace: &[
            (
                2,
                Access::Read {
                    bank: Bank::Flash,
                    at: 0x0A,
                    byte: 0x34,
                },
            ),
            (
                0,
                Access::Read {
                    bank: Bank::Flash,
                    at: 0x0B,
                    byte: 0x56,
                },
            ),
        ],
        rest: 0,
        result: 0x5634,
        bytes: &[(30, 0x0B), (31, 0x00)],
    },
    // LDS R24,0x25; OUT 0x05,R24; STS 0x79,R24; IN R25,0x05; IN R16,SPL; LDI R25,0; BREAK
    Program {
        words: &[
            0x9180, 0x0025, 0xB985, 0x9380, 0x0079, 0xB195, 0xB70D, 0xE090, 0x9598,
        ],
        trace: &[
            (
                0,
                Access::In {
                    port: 0x25,
                    byte: 0x2A,
                },
            ),
            (
                0,
                Access::Out {
                    port: 0x25,
                    byte: 0x2A,
                },
            ),
            (
                0,
                Access::Out {
                    port: 0x79,
                    byte: 0x2A,
                },
            ),
            (
                0,
                Access::In {
                    port: 0x25,
                    byte: 0x2A,
                },
            ),
        ],
        rest: 2,
        result: 42,
        bytes: &[(0x25, 0), (0x79, 0), (16, 0xA5)],
    },
    // LDI R16,3; at 1: DEC R16; BRNE 1; JMP 6; at 5: BREAK; at 6: LDI R24,9; LDI R25,0; RJMP 5
    Program {
        words: &[
            0xE003, 0x950A, 0xF7F1, 0x940C, 0x0006, 0x9598, 0xE089, 0xE090, 0xCFFC,
        ],
        trace: &[],
        rest: 11,
        result: 9,
        bytes: &[(16, 0)],
    },
    // LDI R16,0x81; BST R16,7; LDI R24,0; BLD R24,3; SWAP R24; LDI R25,0x01; MOVW R18,R24; CLZ; LDI R24,0xFF;
    // MOVW R24,R18; BREAK
    Program {
        words: &[
            0xE801, 0xFB07, 0xE080, 0xF983, 0x9582, 0xE091, 0x019C, 0x9498, 0xEF8F, 0x01C9, 0x9598,
        ],
        trace: &[],
        rest: 10,
        result: 0x0180,
        bytes: &[(18, 0x80), (19, 0x01), (0x5F, 0xE5)],
    },
];

/// Whether the accesses are these, each behind so many silent steps.
fn accesses(machine: &mut Machine, trace: &[(u8, Access)]) -> bool {
    for (silent, access) in trace {
        if !are_silent(machine, *silent) || stepped(machine) != Stepped::Ran(*access) {
            return false;
        }
    }
    true
}

/// Whether a machine does what is told of a program, and then stays where it ended.
fn does(machine: &mut Machine, program: &Program) -> bool {
    accesses(machine, program.trace)
        && are_silent(machine, program.rest)
        && stepped(machine) == Stepped::Ended
        && stepped(machine) == Stepped::Ended
        && machine.result() == program.result
}

fn holds_all(machine: &Machine, bytes: &[(u32, u8)]) -> bool {
    for &(at, byte) in bytes {
        if !holds(machine, at, byte) {
            return false;
        }
    }
    true
}

fn runs(alloc: Global, program: &Program) -> Result<bool, NoMemory> {
    let mut machine = booted(alloc, program.words, 0xA5)?;
    Ok(does(&mut machine, program) && holds_all(&machine, program.bytes))
}

#[test]
fn programs(rt: HostRuntime) {
    for (k, program) in PROGRAMS.iter().enumerate() {
        assert!(rt;
            matches!(runs(rt.alloc(), program), Ok(true)),
            "program {k}"
        );
    }
}

/// The words, the byte that memory holds, the silent steps before the fault, the fault and its program counter.
type Stop = (&'static [u16], u8, u8, FaultKind, u16);

static STOPS: [Stop; 10] = [
    // erased flash
    (&[], 0xA5, 0, FaultKind::Unsupported, 0),
    // what would be JMP with bit 0 set is no instruction, whatever follows
    (&[0x940D, 0x0000], 0xA5, 0, FaultKind::Unsupported, 0),
    // JMP 0x4000
    (&[0x940C, 0x4000], 0xA5, 1, FaultKind::PcOut, 0x4000),
    // LDI R30,0x00; LDI R31,0x09; LD R0,Z
    (&[0xE0E0, 0xE0F9, 0x8000], 0xA5, 2, FaultKind::DataOut, 2),
    // LDI R26,0; LDI R27,0; LD R0,-X
    (&[0xE0A0, 0xE0B0, 0x900E], 0xA5, 2, FaultKind::DataOut, 2),
    // LDI R31,0x80; LPM R0,Z
    (&[0xE8F0, 0x9004], 0x00, 1, FaultKind::DataOut, 1),
    // SP is 0. PUSH R0, POP R0 and RET
    (&[0x920F], 0x00, 0, FaultKind::StackOut, 0),
    (&[0x900F], 0x00, 0, FaultKind::StackOut, 0),
    (&[0x9508], 0x00, 0, FaultKind::StackOut, 0),
    // SP is 0x0100: the second byte has no room. RCALL
    (&[0xE001, 0xBF0E, 0xD000], 0x00, 2, FaultKind::StackOut, 2),
];

/// Whether so many silent steps lead to a stop, at which the machine stays.
fn stops(machine: &mut Machine, before: u8, stop: Stepped) -> bool {
    are_silent(machine, before) && stepped(machine) == stop && stepped(machine) == stop
}

fn faults_so(
    alloc: Global,
    words: &[u16],
    fill: u8,
    before: u8,
    stop: Stepped,
) -> Result<bool, NoMemory> {
    let mut machine = booted(alloc, words, fill)?;
    Ok(stops(&mut machine, before, stop))
}

/// Whether JMP 0x3FFF to a word that stands there, at the end of the flash, leads to a stop.
fn last_word_stops(alloc: Global, word: u16, stop: Stepped) -> Result<bool, NoMemory> {
    let mut image = Image::new(alloc, Core::Small)?;
    write_word(&mut image, 0, 0x940C);
    write_word(&mut image, 1, 0x3FFF);
    write_word(&mut image, 0x3FFF, word);
    let mut machine = Machine::boot(alloc, &image, 0xFF)?;
    Ok(stops(&mut machine, 1, stop))
}

/// At the last word LDS R0 lacks its second word, LD R0,Z does not, and 0x940D has none.
static LAST_WORDS: [(u16, FaultKind); 3] = [
    (0x9000, FaultKind::PcOut),
    (0x8000, FaultKind::DataOut),
    (0x940D, FaultKind::Unsupported),
];

#[test]
fn faults(rt: HostRuntime) {
    for &(words, fill, before, kind, pc) in &STOPS {
        let done = faults_so(rt.alloc(), words, fill, before, Stepped::Fault(kind, pc));
        assert!(rt; matches!(done, Ok(true)), "{kind:?} at {pc}");
    }
    for &(word, kind) in &LAST_WORDS {
        let done = last_word_stops(rt.alloc(), word, Stepped::Fault(kind, 0x3FFF));
        assert!(rt; matches!(done, Ok(true)), "{word:04X}");
    }
}
