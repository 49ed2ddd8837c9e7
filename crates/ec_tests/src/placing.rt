//! Places of objects and refusals, by the rules of a map and the needs of a program: the scratch memory of `main` has
//! 16 bytes, there are 64 work bytes and one for each dynamic group, and a stack needs 16 bytes and two for each function of
//! a chain of calls.
ghost use Rattle.std.specs.Prelude.{◌≡◌, ◌≤◌, IfOk, length};
ghost use Rattle.ec_locate.specs.Entries.{work_size};
ghost use Rattle.ec_map.specs.Maps.{ValidMap};

use crate::programs::{code, far_program, far_sizes, program, sizes};
use Want::{Clashes, Fits, Lacks, Needs, Puts};
use ec_asm::is_valid_asm;
use ec_avr::Image;
use ec_iohw::IoTable;
use ec_locate::{Located, Map, PlaceStop, RegionName, place, read_map};
use ec_map::MapStop;
use ec_space::{NoMemory, Place, Seq};
use std::alloc::Global;

/// How a program is placed.
enum Want {
    /// The addresses of its objects, of the scratch memory of `main` and of the work bytes.
    Fits(&'static [u32], u32, u32),
    /// Its code of 12 bytes and its initial values stand in the flash.
    Puts,
    /// A region, the bytes that it has to have, and those that it has.
    Needs(RegionName, u32, u32),
    /// There is no object of a name.
    Lacks(&'static str),
    /// A name, and the bank, region or name that it clashes with.
    Clashes(&'static str, &'static str),
}

/// Whether there are variables, the regions code, tables, data and stack, what the map places, and what comes of it.
type Row = (bool, [&'static str; 4], &'static str, Want);

const CODE: &str = "[0, 28672]";

const TABLES: &str = "[28672, 4096]";

const DATA: &str = "[256, 1792]";

/// Data that ends where the address 0x500 begins.
const LOW: &str = "[256, 1024]";

const STACK: &str = "[2048, 256]";

/// Behind the places: a group, and a dynamic group that has it as its choice.
const DYNAMIC: &str =
    "[[group]]\nname = \"U0\"\nacquire = []\nrelease = []\n[[dynamic]]\nname = \"UART\"\nchoices = [[\"U0\", 0x90]]\n";

static ROWS: [Row; 30] = [
    (true, [CODE, TABLES, LOW, STACK], "q = 0x500", Puts),
    (
        false,
        [CODE, TABLES, "[256, 80]", STACK],
        "",
        Fits(&[], 256, 272),
    ),
    (
        false,
        [CODE, TABLES, "[256, 79]", STACK],
        "",
        Needs(RegionName::Data, 80, 79),
    ),
    (
        false,
        [CODE, TABLES, "[256, 80]", STACK],
        DYNAMIC,
        Needs(RegionName::Data, 81, 80),
    ),
    (
        false,
        [CODE, TABLES, "[256, 81]", STACK],
        DYNAMIC,
        Fits(&[], 256, 272),
    ),
    (
        false,
        [CODE, TABLES, "[256, 79]", STACK],
        "q = 0x500",
        Needs(RegionName::Data, 80, 79),
    ),
    (false, [CODE, TABLES, LOW, STACK], "q = 0x500", Lacks("q")),
    (
        false,
        [CODE, TABLES, DATA, "[2048, 17]"],
        "",
        Needs(RegionName::Stack, 18, 17),
    ),
    (
        true,
        [CODE, TABLES, LOW, STACK],
        "q = 0x500",
        Fits(&[1280, 256, 28672, 258], 260, 276),
    ),
    (
        true,
        [CODE, TABLES, DATA, STACK],
        "q = 0x500",
        Clashes("q", "data"),
    ),
    (
        true,
        [CODE, TABLES, DATA, STACK],
        "",
        Fits(&[256, 258, 28672, 260], 262, 278),
    ),
    (
        true,
        ["[0, 12]", "[28672, 8]", "[256, 86]", "[2048, 18]"],
        "",
        Fits(&[256, 258, 28672, 260], 262, 278),
    ),
    (
        true,
        [CODE, "[28672, 7]", "[256, 85]", "[2048, 17]"],
        "",
        Needs(RegionName::Tables, 8, 7),
    ),
    (
        true,
        [CODE, "[28672, 7]", LOW, STACK],
        "q = 0x500",
        Needs(RegionName::Tables, 8, 7),
    ),
    (
        true,
        [CODE, "[28672, 6]", DATA, STACK],
        "t = 0x7800",
        Fits(&[256, 258, 30720, 260], 262, 278),
    ),
    (
        true,
        ["[0, 10]", TABLES, "[256, 85]", "[2048, 17]"],
        "",
        Needs(RegionName::Data, 86, 85),
    ),
    (
        true,
        ["[0, 10]", TABLES, DATA, "[2048, 17]"],
        "",
        Needs(RegionName::Stack, 18, 17),
    ),
    (
        true,
        ["[0, 10]", TABLES, DATA, STACK],
        "",
        Needs(RegionName::Code, 12, 10),
    ),
    (true, [CODE, TABLES, LOW, STACK], "s = 0x500", Lacks("s")),
    (
        true,
        [CODE, TABLES, DATA, STACK],
        "z = 0x500\nq = 0x500\na = 0x500",
        Lacks("a"),
    ),
    (
        true,
        [CODE, TABLES, LOW, STACK],
        "q = 0x8FF",
        Clashes("q", "bank"),
    ),
    (
        true,
        [CODE, TABLES, LOW, STACK],
        "q = 0xFF",
        Clashes("q", "bank"),
    ),
    (
        true,
        [CODE, TABLES, LOW, STACK],
        "q = 0x7FF",
        Clashes("q", "stack"),
    ),
    (
        true,
        [CODE, TABLES, "[256, 1792]", STACK],
        "q = 0x7FF",
        Clashes("q", "data"),
    ),
    (
        true,
        [CODE, TABLES, DATA, STACK],
        "t = 0x6FFF",
        Clashes("t", "code"),
    ),
    (
        true,
        [CODE, TABLES, DATA, STACK],
        "t = 0x7000",
        Clashes("t", "tables"),
    ),
    (
        true,
        [CODE, TABLES, DATA, STACK],
        "t = 0x7FFF",
        Clashes("t", "bank"),
    ),
    (
        true,
        [CODE, TABLES, LOW, STACK],
        "r = 0x501\nq = 0x500",
        Clashes("q", "r"),
    ),
    (
        true,
        [CODE, TABLES, LOW, STACK],
        "r = 0x502\nq = 0x500",
        Fits(&[1280, 1282, 28672, 256], 258, 274),
    ),
    (
        true,
        ["[0, 1024]", TABLES, LOW, STACK],
        "q = 0x600\nt = 0x600",
        Fits(&[1536, 256, 1536, 258], 260, 276),
    ),
];

/// The regions code, tables, data and stack, where the map places f, and what comes of it. The core has no region for
/// objects of the home far, so f needs a place in the flash, which ends at 0x8000.
static FAR_ROWS: [([&str; 4], &str, Want); 7] = [
    (
        [CODE, TABLES, DATA, STACK],
        "",
        Needs(RegionName::Far, 2, 0),
    ),
    (
        [CODE, TABLES, "[256, 79]", STACK],
        "",
        Needs(RegionName::Far, 2, 0),
    ),
    (
        ["[0, 1024]", TABLES, DATA, STACK],
        "f = 0x6FFE",
        Fits(&[0x6FFE], 256, 272),
    ),
    (
        ["[0, 1024]", TABLES, "[256, 79]", STACK],
        "f = 0x6FFE",
        Needs(RegionName::Data, 80, 79),
    ),
    (
        ["[0, 1024]", TABLES, DATA, STACK],
        "f = 0x6FFF",
        Clashes("f", "tables"),
    ),
    (
        ["[0, 1024]", "[1024, 1024]", DATA, STACK],
        "f = 0x7FFE",
        Fits(&[0x7FFE], 256, 272),
    ),
    (
        ["[0, 1024]", TABLES, DATA, STACK],
        "f = 0x7FFF",
        Clashes("f", "bank"),
    ),
];

/// JMP 5; LDS R24, 0x0501; LDI R30, 0x03; BREAK, by the instruction set manual, with q at 0x0500 and its initial value
/// behind t at 0x7000.
static CODE_BYTES: [u8; 12] = [
    0x0C, 0x94, 0x05, 0x00, 0x80, 0x91, 0x01, 0x05, 0xE3, 0xE0, 0x98, 0x95,
];

/// The initial values of t, q, r and s.
static TABLE_BYTES: [u8; 8] = [9, 0, 7, 0, 8, 0, 5, 0];

/// The map with these regions and places.
fn map(alloc: Global, regions: &[&str; 4], places: &str) -> Result<Map, MapStop>
    ensures { IfOk result ValidMap }
{
    let mut text = Seq::new(alloc);
    let [code, tables, vars, stack] = regions;
    for piece in [
        "core = \"small\"\n[region]\ncode = ",
        code,
        "\ntables = ",
        tables,
        "\ndata = ",
        vars,
        "\nstack = ",
        stack,
        "\n[place]\n",
        places,
    ] {
        text.extend_from_slice(piece.as_bytes())?;
    }
    read_map(alloc, &text)
}

fn are_offsets(places: &[Place], offsets: &[u32]) -> bool {
    for (place, offset) in places.iter().zip(offsets) {
        if place.offset != *offset {
            return false;
        }
    }
    places.len() == offsets.len()
}

fn count_written(image: &Image) -> u32 {
    let mut count: u32 = 0;
    for written in image.written.as_slice() {
        if *written {
            count = count.saturating_add(1);
        }
    }
    count
}

/// Whether the code and the initial values stand in the flash, and nothing else.
fn holds_code_and_tables(image: &Image) -> bool {
    let bytes = image.bytes.as_slice();
    bytes.starts_with(&CODE_BYTES)
        && bytes.get(0x7000..0x7008) == Some(TABLE_BYTES.as_slice())
        && count_written(image) == 20
}

fn fits(l: &Located, places: &[u32], frame: u32, work: u32) -> bool {
    are_offsets(l.places.as_slice(), places)
        && l.frames.as_slice() == [frame].as_slice()
        && l.work == work
}

fn is_told(got: &PlaceStop, want: &Want) -> bool {
    match (got, want) {
        (
            PlaceStop::TooSmall {
                region,
                needed,
                available,
            },
            Needs(name, wanted, there),
        ) => region == name && needed == wanted && available == there,
        (PlaceStop::NoSuchObject(name), Lacks(text)) => name.as_slice() == text.as_bytes(),
        (PlaceStop::Clash(name, other), Clashes(text, with)) => {
            name.as_slice() == text.as_bytes() && other.as_slice() == with.as_bytes()
        }
        _ => false,
    }
}

fn is_wanted(got: &Result<Located, PlaceStop>, want: &Want) -> bool {
    match (got, want) {
        (Ok(l), Fits(places, frame, work)) => fits(l, places, *frame, *work),
        (Ok(l), Puts) => l.code_bytes == 12 && holds_code_and_tables(&l.image),
        (Err(stop), want) => is_told(stop, want),
        _ => false,
    }
}

/// The work bytes of a map.
fn work_of(io: &IoTable) -> u32
    requires { length io.now.dynamics.items ≤ 8 }
    ensures { result ≡ work_size io.now }
{
    64 + io.dynamics.len() as u32
}

/// Whether the program with the variables, or the one without, is placed so by a map.
fn is_placed(alloc: Global, some: bool, map: &Map, want: &Want) -> Result<bool, NoMemory>
    requires { ValidMap map.now }
{
    let program = program(alloc, some)?;
    let asm = code(alloc, some)?;
    let is_code = is_valid_asm(&asm, sizes(some), work_of(&map.io)) && asm.items.len() < 100;
    let is_placed = is_code && is_wanted(&place(alloc, &program, &asm, map), want);
    Ok(is_placed)
}

/// Whether the program with a variable of the home far is placed so by a map.
fn is_far_placed(alloc: Global, map: &Map, want: &Want) -> Result<bool, NoMemory>
    requires { ValidMap map.now }
{
    let program = far_program(alloc)?;
    let asm = code(alloc, false)?;
    let is_code = is_valid_asm(&asm, far_sizes(), work_of(&map.io)) && asm.items.len() < 100;
    let is_placed = is_code && is_wanted(&place(alloc, &program, &asm, map), want);
    Ok(is_placed)
}

fn is_far_right(
    alloc: Global,
    regions: &[&str; 4],
    places: &str,
    want: &Want,
) -> Result<bool, NoMemory> {
    match map(alloc, regions, places) {
        Ok(map) => is_far_placed(alloc, &map, want),
        Err(_) => Err(NoMemory),
    }
}

/// Whether a row is right. A map that is none is no row.
fn is_right(alloc: Global, row: &Row) -> Result<bool, NoMemory> {
    let (some, regions, places, want) = row;
    match map(alloc, regions, *places) {
        Ok(map) => is_placed(alloc, *some, &map, want),
        Err(_) => Err(NoMemory),
    }
}

#[test]
fn places_or_tells_why_not(rt: HostRuntime) {
    for (k, row) in ROWS.iter().enumerate() {
        assert!(rt; matches!(is_right(rt.alloc(), row), Ok(true)), "row {k}");
    }
}

#[test]
fn far_objects_are_placed_or_told(rt: HostRuntime) {
    for (k, (regions, places, want)) in FAR_ROWS.iter().enumerate() {
        assert!(rt;
            matches!(is_far_right(rt.alloc(), regions, places, want), Ok(true)),
            "row {k}"
        );
    }
}
