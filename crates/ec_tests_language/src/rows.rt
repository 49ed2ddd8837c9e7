//! Tables of texts and of what is told of each.
ghost use Rattle.std.specs.Prelude.{◌<◌, ◌^◌, All, IfOk, length};
ghost use Rattle.ec_interp.specs.Views.{HasLayouts};
ghost use Rattle.ec_iohw.specs.Valid.{ValidIo};

use crate::parse::tree_of;
use crate::units::sources_of;
use crate::{expressions, runs};
use ec_check::{CheckStop, check, discard};
use ec_core::Program;
use ec_iohw::IoTable;
use ec_map::{Map, MapStop, read_map};
use ec_parse::append;
use ec_parse_sources::{Tree, units_of};
use ec_space::Seq;
use std::alloc::{AllocError, Global};
use std::process::Abort;

/// Ports of one byte, one of them in a group; a port of two bytes; buffers of three ports of two bytes, and of two ports of
/// four bytes.
pub static MAP: &str = "core = \"small\"
[region]
code = [0, 28672]
tables = [28672, 4096]
data = [256, 1792]
stack = [2048, 256]
[[port]]
name = \"LED\"
address = 0x25
width = 1
[[port]]
name = \"SAMPLE\"
address = 0x79
width = 1
group = \"ADC\"
[[port]]
name = \"T\"
address = 0x84
width = 2
[[port]]
name = \"B\"
address = 0x60
width = 2
count = 3
[[port]]
name = \"L\"
address = 0x90
width = 4
count = 2
[[group]]
name = \"ADC\"
acquire = [[0x7A, 0x80]]
release = [[0x7A, 0]]
";

/// What stands behind it in the map of statements and of runs: a port of one byte in a dynamic group, which can be bound to
/// two of three groups.
static DYNAMIC: &str = "[[port]]
name = \"DATA\"
address = 3
width = 1
group = \"LINE\"
[[group]]
name = \"SPI\"
acquire = [[0x4C, 0x50]]
release = [[0x4C, 0]]
[[group]]
name = \"TWI\"
acquire = [[0xBC, 0x04]]
release = [[0xBC, 0]]
[[dynamic]]
name = \"LINE\"
choices = [[\"TWI\", 0xB8], [\"ADC\", 0x76]]
";

fn map_bytes(alloc: Global) -> Result<Seq<u8>, MapStop> {
    let mut text = Seq::new(alloc);
    text.extend_from_slice(MAP.as_bytes())?;
    text.extend_from_slice(DYNAMIC.as_bytes())?;
    Ok(text)
}

pub fn map(alloc: Global) -> Result<Map, MapStop>
    ensures { IfOk result (λ m. ValidIo m.io) }
{
    let text = map_bytes(alloc)?;
    read_map(alloc, &text)
}

/// A text, and what is told of it.
pub type Row = (&'static str, &'static str);

/// What is told in words. No memory is left for the rows of a table only where the test fails.
pub type Told = Result<String, AllocError>;

/// What port addresses give.
pub type Inputs = &'static [(u8, &'static [u8])];

/// What is told of texts: what comes of a statement, what a program does, or what it does to ports with these inputs,
/// where each loop gets so many turns; and its work in steps, where that is not this.
#[derive(Clone, Copy)]
pub enum Shown {
    Statement,
    Run,
    Ports(Inputs, u32, Option<u64>),
}

fn of_program(alloc: Global, what: Shown, program: &Program, io: &IoTable) -> Told
    requires { HasLayouts program.now }
{
    match what {
        Shown::Statement => expressions::of_program(alloc, program),
        Shown::Run => runs::told(alloc, program, io),
        Shown::Ports(inputs, turns, work) => {
            runs::told_of_ports(alloc, program, io, inputs, turns, work)
        }
    }
}

fn of_stop(alloc: Global, what: Shown, stop: &CheckStop) -> Told {
    match what {
        Shown::Statement => expressions::of_stop(alloc, stop),
        Shown::Run | Shown::Ports(..) => runs::of_stop(alloc, stop),
    }
}

fn of_units(alloc: Global, what: Shown, units: &Seq<Tree>, io: &IoTable) -> Told
    requires { ValidIo io.now }
{
    if units.len() == 0 || units.len() > 16 {
        return Err(AllocError);
    }
    match check(alloc, units, io) {
        Ok(program) => {
            let told = of_program(alloc, what, &program, io);
            discard(program);
            told
        }
        Err(stop) => of_stop(alloc, what, &stop),
    }
}

/// What is told of a tree.
fn of_tree(alloc: Global, what: Shown, tree: Tree, io: &IoTable) -> Told
    requires { ValidIo io.now }
{
    let mut units = Seq::new(alloc);
    match append(&mut units, tree) {
        Ok(()) => {
            let told = of_units(alloc, what, &units, io);
            ec_parse_sources::discard(units);
            told
        }
        Err(_) => Err(AllocError),
    }
}

/// Whether this is told of a text in which blanks stand between the tokens.
pub fn is_told_of_tokens(alloc: Global, what: Shown, text: &str, io: &IoTable, want: &str) -> bool
    requires { ValidIo io.now }
{
    match tree_of(alloc, text) {
        Ok(Ok(tree)) => is(of_tree(alloc, what, tree, io), want),
        Ok(Err(_)) | Err(_) => false,
    }
}

fn of_sources(alloc: Global, what: Shown, sources: &Seq<Seq<u8>>, io: &IoTable) -> Told
    requires short { All (λ s. length s.items < 2 ^ 32) sources.now.items }
    requires table { ValidIo io.now }
{
    if sources.len() > 16 {
        return Err(AllocError);
    }
    match units_of(alloc, sources) {
        Ok(units) => {
            let told = of_units(alloc, what, &units, io);
            ec_parse_sources::discard(units);
            told
        }
        Err(_) => Err(AllocError),
    }
}

/// Whether this is told of the texts of units.
pub fn is_told(alloc: Global, what: Shown, texts: &[&str], io: &IoTable, want: &str) -> bool
    requires { ValidIo io.now }
{
    match sources_of(alloc, texts) {
        Ok(sources) => is(of_sources(alloc, what, &sources, io), want),
        Err(_) => false,
    }
}

fn is(told: Told, want: &str) -> bool {
    match told {
        Ok(words) => words.as_str() == want,
        Err(_) => false,
    }
}

/// Whether this is told of the program with a statement.
fn is_told_in_main(alloc: Global, statement: &str, io: &IoTable, want: &str) -> bool
    requires { ValidIo io.now }
{
    match expressions::text(alloc, statement) {
        Ok(text) => is_told(alloc, Shown::Statement, &[text.as_str()], io, want),
        Err(_) => false,
    }
}

fn compare_with(rt: &impl Abort, alloc: Global, what: Shown, rows: &[Row], io: &IoTable)
    requires { ValidIo io.now }
{
    for &(text, want) in rows {
        let told = match what {
            Shown::Statement => is_told_in_main(alloc, text, io, want),
            _ => is_told(alloc, what, &[text], io, want),
        };
        assert!(rt; told, "{text}");
    }
}

/// Compares what is told of each text of a table.
pub fn compare(rt: &impl Abort, alloc: Global, what: Shown, rows: &[Row]) {
    match map(alloc) {
        Ok(map) => compare_with(rt, alloc, what, rows, &map.io),
        Err(_) => panic!(rt; "no map"),
    }
}
