//! What the machine does on a core of 128 KiB that it does not on one of 32 KiB, and which core a script is for. The
//! steps were worked out from the instruction set manual and the data sheet of the ATmega1284P.
use crate::avr::{are_silent, holds, image_of, ldi, stepped};
use ec_avr::{Access, FaultKind, Image, Machine, Stepped};
use ec_emu::{ScriptStop, read_script, script_core};
use ec_space::{Bank, Core, NoMemory, Seq};
use std::alloc::Global;

/// `OUT 0x3B, R16`, at the data address 0x5B.
const OUT_RAMPZ: u16 = 0xBF0B;

/// `LDI R16, page; OUT 0x3B, R16; LDI R30, low; LDI R31, high; ELPM R0, Z+`
fn far_load(page: u8, z: u16) -> [u16; 5] {
    [
        ldi(16, page as u16),
        OUT_RAMPZ,
        ldi(30, z % 256),
        ldi(31, z / 256),
        0x9007,
    ]
}

fn put(image: &mut Image, at: usize, byte: u8) {
    if at < image.core.flash_size() as usize {
        image.write(at, byte);
    }
}

/// The machine with that load, and with bytes that differ by 0x10000 in their addresses.
fn with_load(alloc: Global, page: u8, z: u16) -> Result<Machine, NoMemory> {
    let mut image = image_of(alloc, Core::Large, &far_load(page, z))?;
    for &(at, byte) in &FAR_BYTES {
        put(&mut image, at, byte);
    }
    Machine::boot(alloc, &image, 0)
}

static FAR_BYTES: [(usize, u8); 4] = [
    (0x00100, 0x31),
    (0x10100, 0x32),
    (0x0FFFF, 0x33),
    (0x1FFFF, 0x34),
];

/// RAMPZ and Z, the address and the byte that are read, and RAMPZ and Z after the load.
static FAR_LOADS: [(u8, u16, u32, u8, u8, u16); 4] = [
    (0, 0x0100, 0x00100, 0x31, 0, 0x0101),
    (1, 0x0100, 0x10100, 0x32, 1, 0x0101),
    (0, 0xFFFF, 0x0FFFF, 0x33, 1, 0x0000),
    (1, 0xFFFF, 0x1FFFF, 0x34, 2, 0x0000),
];

/// Whether the step reads a byte of flash at an address into R0 and leaves RAMPZ and Z so.
fn loads(machine: &mut Machine, at: u32, byte: u8, page: u8, z: u16) -> bool {
    let bank = Bank::Flash;
    are_silent(machine, 4)
        && stepped(machine) == Stepped::Ran(Access::Read { bank, at, byte })
        && holds(machine, 0, byte)
        && holds(machine, 30, (z % 256) as u8)
        && holds(machine, 31, (z / 256) as u8)
        && holds(machine, 0x5B, page)
}

/// Whether a load with RAMPZ 2 is past the flash, where nothing changes.
fn is_out(machine: &mut Machine) -> bool {
    are_silent(machine, 4)
        && stepped(machine) == Stepped::Fault(FaultKind::DataOut, 4)
        && holds(machine, 30, 0)
        && holds(machine, 0x5B, 2)
}

#[test]
fn loads_by_rampz(rt: HostRuntime) {
    for &(page, z, at, byte, next_page, next_z) in &FAR_LOADS {
        let done = match with_load(rt.alloc(), page, z) {
            Ok(mut machine) => loads(&mut machine, at, byte, next_page, next_z),
            Err(_) => false,
        };
        assert!(rt; done, "{at:05X}");
    }
    let out = match with_load(rt.alloc(), 2, 0) {
        Ok(mut machine) => is_out(&mut machine),
        Err(_) => false,
    };
    assert!(rt; out);
}

/// Words, the core, how many silent steps come first, and what the step after them does.
type First = (&'static [u16], Core, u8, Stepped);

static FIRSTS: [First; 12] = [
    // ELPM R0, Z and ELPM R0, Z+
    (
        &[0x9006],
        Core::Small,
        0,
        Stepped::Fault(FaultKind::Unsupported, 0),
    ),
    (
        &[0x9007],
        Core::Small,
        0,
        Stepped::Fault(FaultKind::Unsupported, 0),
    ),
    // CPSE R0, R0; ELPM R0, Z; BREAK: the one word of ELPM is passed.
    (&[0x1000, 0x9006, 0x9598], Core::Small, 1, Stepped::Ended),
    (&[0x1000, 0x9006, 0x9598], Core::Large, 1, Stepped::Ended),
    // OUT 0x3B, R16 is to a port of the small core, and to RAMPZ of the large one. So is LDS R1, 0x5B.
    (
        &[OUT_RAMPZ],
        Core::Small,
        0,
        Stepped::Ran(Access::Out {
            port: 0x5B,
            byte: 0,
        }),
    ),
    (&[OUT_RAMPZ], Core::Large, 0, Stepped::Ran(Access::Silent)),
    (
        &[0x9010, 0x005B],
        Core::Small,
        0,
        Stepped::Ran(Access::In {
            port: 0x5B,
            byte: 0x2A,
        }),
    ),
    (
        &[0x9010, 0x005B],
        Core::Large,
        0,
        Stepped::Ran(Access::Silent),
    ),
    // LDS R1, 0x08FF, 0x0900, 0x40FF and 0x4100: the last address of the SRAM, and one past it.
    (
        &[0x9010, 0x0900],
        Core::Small,
        0,
        Stepped::Fault(FaultKind::DataOut, 0),
    ),
    (
        &[0x9010, 0x40FF],
        Core::Large,
        0,
        Stepped::Ran(Access::Read {
            bank: Bank::Data,
            at: 0x40FF,
            byte: 0,
        }),
    ),
    (
        &[0x9010, 0x4100],
        Core::Large,
        0,
        Stepped::Fault(FaultKind::DataOut, 0),
    ),
    // JMP 0xFFFF, the last word of the large flash, which is erased.
    (
        &[0x940C, 0xFFFF],
        Core::Large,
        1,
        Stepped::Fault(FaultKind::Unsupported, 0xFFFF),
    ),
];

fn does(
    alloc: Global,
    words: &[u16],
    core: Core,
    before: u8,
    step: Stepped,
) -> Result<bool, NoMemory> {
    let image = image_of(alloc, core, words)?;
    let mut machine = Machine::boot(alloc, &image, 0)?;
    Ok(are_silent(&mut machine, before) && stepped(&mut machine) == step)
}

#[test]
fn both_cores(rt: HostRuntime) {
    for &(words, core, before, step) in &FIRSTS {
        let done = does(rt.alloc(), words, core, before, step);
        assert!(rt; matches!(done, Ok(true)), "{words:?} {core:?}");
    }
}

/// A script, its core, and the rule that its line breaks for each core.
type Named = (&'static [u8], Core, Option<(u32, u8)>, Option<(u32, u8)>);

static SCRIPTS: [Named; 9] = [
    (b"", Core::Small, None, None),
    (b"core small", Core::Small, None, Some((1, 4))),
    (b"core large", Core::Large, Some((1, 4)), None),
    (
        b"# large\n\ncore large\r\n25: 1F",
        Core::Large,
        Some((3, 4)),
        None,
    ),
    (b"core large ", Core::Small, Some((1, 1)), Some((1, 1))),
    (b"25:\ncore large", Core::Small, Some((2, 1)), Some((2, 1))),
    (
        b"core small\ncore large",
        Core::Small,
        Some((2, 1)),
        Some((1, 4)),
    ),
    (b"5B: 00", Core::Small, None, Some((1, 2))),
    (
        b"core large\n5B: 00",
        Core::Large,
        Some((1, 4)),
        Some((2, 2)),
    ),
];

/// The rule that the first line of a text breaks that breaks one for a core.
fn broken(alloc: Global, core: Core, text: &Seq<u8>) -> Option<(u32, u8)> {
    if text.len() >= 1_000 {
        return None;
    }
    match read_script(alloc, core, text) {
        Err(ScriptStop::Line { line, rule }) => Some((line, rule)),
        _ => None,
    }
}

fn is_so(alloc: Global, script: Named) -> Result<bool, NoMemory> {
    let (text, core, small, large) = script;
    let mut bytes = Seq::new(alloc);
    bytes.extend_from_slice(text)?;
    Ok(
        script_core(&bytes) == core
            && broken(alloc, Core::Small, &bytes) == small
            && broken(alloc, Core::Large, &bytes) == large,
    )
}

#[test]
fn scripts_name_cores(rt: HostRuntime) {
    for script in &SCRIPTS {
        let done = is_so(rt.alloc(), *script);
        assert!(rt; matches!(done, Ok(true)), "{script:?}");
    }
}
