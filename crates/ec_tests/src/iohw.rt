//! What names designate in a table of ports.
ghost use Rattle.std.specs.Prelude.{IfOk};
ghost use Rattle.ec_iohw.specs.Valid.{ValidIo};
ghost use Rattle.ec_map.specs.Maps.{ValidMap};

use ec_iohw::{Designator, IoTable};
use ec_map::{Map, MapStop, read_map};
use ec_space::{Name, NoMemory, Seq};
use std::alloc::Global;

/// A map with the port `PORTB`, the group `timer` and the dynamic group `clock`.
static MAP: &str = "\
core = 'small'
dynamic = [{ name = 'clock', choices = [['timer', 0x25]] }]
group = [{ name = 'timer', acquire = [], release = [] }]
port = [{ name = 'PORTB', address = 0x25, width = 1 }]
[region]
code = [0, 28672]
tables = [28672, 4096]
data = [256, 1792]
stack = [2048, 256]
";

/// A name, whether it is looked up among the groups, and what it designates.
static DESIGNATORS: [(&str, bool, Option<Designator>); 9] = [
    ("PORTB", false, Some(Designator::Port(0))),
    ("PORTB", true, None),
    ("timer", true, Some(Designator::Group(0))),
    ("timer", false, None),
    ("clock", true, Some(Designator::Dynamic(0))),
    ("clock", false, None),
    ("PORT", false, None),
    ("PORTC", false, None),
    ("", true, None),
];

fn text(alloc: Global, text: &str) -> Result<Seq<u8>, NoMemory> {
    let mut bytes = Seq::new(alloc);
    bytes.extend_from_slice(text.as_bytes())?;
    Ok(bytes)
}

fn map(alloc: Global) -> Result<Map, MapStop>
    ensures { IfOk result ValidMap }
{
    read_map(alloc, &text(alloc, MAP)?)
}

fn found(
    alloc: Global,
    io: &IoTable,
    name: &str,
    group: bool,
) -> Result<Option<Designator>, NoMemory>
    requires { ValidIo io.now }
{
    let name: Name = text(alloc, name)?;
    Ok(io.designator(&name, group))
}

/// How many names designate what they should.
fn count(alloc: Global, io: &IoTable) -> Result<u32, NoMemory>
    requires { ValidIo io.now }
{
    let mut count: u32 = 0;
    for &(text, group, want) in &DESIGNATORS {
        if found(alloc, io, text, group)? == want {
            count = count.saturating_add(1);
        }
    }
    Ok(count)
}

fn count_in_map(alloc: Global) -> Result<u32, MapStop> {
    let map = map(alloc)?;
    Ok(count(alloc, &map.io)?)
}

#[test]
fn designators(rt: HostRuntime) {
    assert!(rt; matches!(count_in_map(rt.alloc()), Ok(9)));
}
