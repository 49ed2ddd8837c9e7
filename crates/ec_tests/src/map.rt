//! Maps that break one rule each, by the reading of the rules alone, and maps with ports, groups, dynamic groups and places.
use ec_iohw::{Choice, Dynamic, Port};
use ec_map::{Fixed1, Map, MapStop, read_map};
use ec_space::{NoMemory, Seq};
use std::alloc::Global;

const CORE: &str = "core = \"small\"\n";

const REGIONS: &str =
    "[region]\ncode = [0, 28672]\ntables = [28672, 4096]\ndata = [256, 1792]\nstack = [2048, 256]\n";

const PORT: &str = "[[port]]\nname = \"PORTB\"\naddress = 0x25\nwidth = 1\n";

const GROUP: &str = "[[group]]\nname = \"ADC\"\nrelease = [[0x7A, 0]]\n";

/// What stands above the regions, the regions, two pieces behind them, and the rule that the map breaks first, if any.
static MAPS: [(&str, &str, &str, &str, Option<u8>); 32] = [
    (CORE, REGIONS, "", "", None),
    (CORE, REGIONS, PORT, "count = 4\n", None),
    (
        CORE,
        REGIONS,
        GROUP,
        "acquire = [[0x7C, 64], [0x7A, 135]]\n",
        None,
    ),
    (CORE, REGIONS, "[place]\n", "calibration = 0x0700\n", None),
    (CORE, REGIONS, "clock = 16000000\n", "", Some(3)),
    (
        "core = \"small\"\nclock = 16000000\n",
        REGIONS,
        "",
        "",
        Some(1),
    ),
    (CORE, "", "", "", Some(1)),
    ("core = \"tiny\"\n", REGIONS, "", "", Some(2)),
    ("core = 7\n", REGIONS, "", "", Some(2)),
    (
        CORE,
        "[region]\ncode = [0, 28672]\ntables = [28672, 4096]\ndata = [256, 1792]\n",
        "",
        "",
        Some(3),
    ),
    (CORE, "region = 5\n", "", "", Some(3)),
    (
        CORE,
        "[region]\ncode = [0, 28672]\ntables = [28672, 4096]\ndata = [256, 1792]\n",
        "stack = [2048, 0]\n",
        "",
        Some(4),
    ),
    (
        CORE,
        "[region]\ncode = [0, 28672]\ntables = [28672, 4097]\ndata = [256, 1792]\n",
        "stack = [2048, 256]\n",
        "",
        Some(5),
    ),
    (
        CORE,
        "[region]\ncode = [0, 28672]\ntables = [28672, 4096]\nstack = [2048, 256]\n",
        "data = [256, 2304]\n",
        "",
        Some(5),
    ),
    (
        CORE,
        "[region]\ndata = [256, 1792]\ntables = [28672, 4096]\nstack = [2048, 256]\n",
        "code = [2, 28672]\n",
        "",
        Some(6),
    ),
    (
        CORE,
        "[region]\ndata = [256, 1792]\ntables = [28672, 4096]\nstack = [2048, 256]\n",
        "code = [0, 28671]\n",
        "",
        Some(6),
    ),
    (
        CORE,
        "[region]\ncode = [0, 28672]\ndata = [256, 1792]\nstack = [2048, 256]\n",
        "tables = [28671, 4096]\n",
        "",
        Some(7),
    ),
    (
        CORE,
        "[region]\ncode = [0, 28672]\ntables = [28672, 4096]\nstack = [2047, 256]\n",
        "data = [256, 1792]\n",
        "",
        Some(7),
    ),
    (CORE, REGIONS, PORT, "size = 1\n", Some(8)),
    (
        CORE,
        REGIONS,
        "[[port]]\nname = \"PORT-B\"\n",
        "address = 0x25\nwidth = 1\n",
        Some(9),
    ),
    (CORE, REGIONS, PORT, PORT, Some(9)),
    (
        CORE,
        REGIONS,
        "[[port]]\nname = \"PORTB\"\n",
        "address = 0x25\nwidth = 3\n",
        Some(10),
    ),
    (CORE, REGIONS, PORT, "count = 221\n", Some(10)),
    (
        CORE,
        REGIONS,
        "[[port]]\nname = \"SPL\"\n",
        "address = 0x5D\nwidth = 1\n",
        Some(11),
    ),
    (CORE, REGIONS, GROUP, "", Some(12)),
    (
        CORE,
        REGIONS,
        "[[group]]\nname = \"1\"\nrelease = []\n",
        "acquire = []\n",
        Some(13),
    ),
    (CORE, REGIONS, GROUP, "acquire = [0x7A, 0x80]\n", Some(14)),
    (CORE, REGIONS, GROUP, "acquire = [[0x7A, 256]]\n", Some(15)),
    (CORE, REGIONS, GROUP, "acquire = [[0x5E, 0]]\n", Some(15)),
    (CORE, REGIONS, PORT, "group = \"SPI\"\n", Some(16)),
    (
        "core = \"small\"\nplace = 0x0800\n",
        REGIONS,
        "",
        "",
        Some(17),
    ),
    (CORE, REGIONS, "[place]\n", "calibration = 0\n", Some(18)),
];

/// The map of the pieces.
fn told(alloc: Global, pieces: &[&str]) -> Result<Map, MapStop> {
    let mut text = Seq::new(alloc);
    for piece in pieces {
        text.extend_from_slice(piece.as_bytes())?;
    }
    read_map(alloc, &text)
}

/// Whether the pieces are a map, or break this rule first.
fn breaks(alloc: Global, pieces: &[&str], rule: Option<u8>) -> bool {
    match (told(alloc, pieces), rule) {
        (Ok(_), None) => true,
        (Err(MapStop::MapRule(told)), Some(rule)) => told == rule,
        _ => false,
    }
}

#[test]
fn tells_the_first_broken_rule(rt: HostRuntime) {
    for &(head, regions, third, last, rule) in &MAPS {
        assert!(rt;
            breaks(rt.alloc(), &[head, regions, third, last], rule),
            "{third}{last}"
        );
    }
}

/// Two groups, of which each is a choice.
const GROUPS: &str =
    "[[group]]\nname = \"U0\"\nacquire = [[0x7B, 1]]\nrelease = [[0x7B, 0]]\n[[group]]\nname = \"U1\"\nacquire = [[0x7B, 2]]\nrelease = [[0x7B, 0]]\n";

const UART: &str = "[[dynamic]]\nname = \"UART\"\nchoices = [[\"U0\", 0x90], [\"U1\", 0xA0]]\n";

/// A port that counts from the base of a choice.
const TX: &str = "[[port]]\nname = \"TX\"\naddress = 3\nwidth = 1\ngroup = \"UART\"\n";

/// A dynamic group and a port behind the two groups, and the rule that the map breaks first, if any.
static DYNAMIC_MAPS: [(&str, &str, Option<u8>); 34] = [
    (UART, TX, None),
    (UART, "", None),
    (UART, PORT, None),
    (
        "[[dynamic]]\nname = \"UART\"\nchoices = [[\"U1\", 0], [\"U0\", 0xFC]]\n",
        "[[port]]\nname = \"TX\"\naddress = 0x21\nwidth = 2\ncount = 2\ngroup = \"UART\"\n",
        Some(22),
    ),
    (
        "[[dynamic]]\nname = \"UART\"\nchoices = [[\"U1\", 0], [\"U0\", 0xDB]]\n",
        "[[port]]\nname = \"TX\"\naddress = 0x21\nwidth = 2\ncount = 2\ngroup = \"UART\"\n",
        None,
    ),
    (
        "[[dynamic]]\nname = \"UART\"\nchoices = [[\"U1\", 0], [\"U0\", 0xDC]]\n",
        "[[port]]\nname = \"TX\"\naddress = 0x21\nwidth = 2\ncount = 2\ngroup = \"UART\"\n",
        Some(22),
    ),
    (
        "[[dynamic]]\nname = \"UART\"\nchoices = [[\"U0\", 0x90], [\"U1\", 0xFD]]\n",
        TX,
        Some(22),
    ),
    (
        "[[dynamic]]\nname = \"UART\"\nchoices = [[\"U0\", 0x90], [\"U1\", 0xFC]]\n",
        TX,
        None,
    ),
    (
        "[[dynamic]]\nname = \"UART\"\nchoices = [[\"U0\", 0x1C]]\n",
        TX,
        Some(22),
    ),
    (
        "[[dynamic]]\nname = \"UART\"\nchoices = [[\"U0\", 0x5A]]\n",
        TX,
        Some(22),
    ),
    (
        UART,
        "[[port]]\nname = \"TX\"\naddress = 0x25\nwidth = 1\ngroup = \"U1\"\n",
        None,
    ),
    (
        UART,
        "[[port]]\nname = \"TX\"\naddress = 3\nwidth = 1\ngroup = \"U1\"\n",
        Some(11),
    ),
    (
        UART,
        "[[port]]\nname = \"TX\"\naddress = 256\nwidth = 1\ngroup = \"UART\"\n",
        Some(11),
    ),
    (
        UART,
        "[[port]]\nname = \"TX\"\naddress = \"3\"\nwidth = 1\ngroup = \"UART\"\n",
        Some(11),
    ),
    (
        UART,
        "[[port]]\nname = \"TX\"\naddress = 3\nwidth = 1\ngroup = \"USART\"\n",
        Some(11),
    ),
    (
        UART,
        "[[port]]\nname = \"TX\"\naddress = 0x25\nwidth = 1\ngroup = \"USART\"\n",
        Some(16),
    ),
    (
        "[dynamic]\nname = \"UART\"\nchoices = [[\"U0\", 0x90]]\n",
        TX,
        Some(11),
    ),
    (
        "[dynamic]\nname = \"UART\"\nchoices = [[\"U0\", 0x90]]\n",
        "[[port]]\nname = \"TX\"\naddress = 0x25\nwidth = 1\ngroup = \"UART\"\n",
        Some(16),
    ),
    (
        "[dynamic]\nname = \"UART\"\nchoices = [[\"U0\", 0x90]]\n",
        PORT,
        Some(19),
    ),
    ("[[dynamic]]\nname = \"UART\"\n", TX, Some(19)),
    ("[[dynamic]]\nchoices = [[\"U0\", 0x90]]\n", "", Some(19)),
    (
        "[[dynamic]]\nname = \"UART\"\nbase = 0\nchoices = [[\"U0\", 0x90]]\n",
        TX,
        Some(19),
    ),
    (
        "[[dynamic]]\nname = \"\"\nchoices = [[\"U0\", 0x90]]\n",
        "[[port]]\nname = \"TX\"\naddress = 3\nwidth = 1\ngroup = \"\"\n",
        Some(20),
    ),
    (
        "[[dynamic]]\nname = 7\nchoices = [[\"U0\", 0x90]]\n",
        "[[port]]\nname = \"TX\"\naddress = 3\nwidth = 1\ngroup = \"\"\n",
        Some(11),
    ),
    (
        "[[dynamic]]\nname = 7\nchoices = [[\"U0\", 0x90]]\n",
        PORT,
        Some(20),
    ),
    (
        "[[dynamic]]\nname = \"U0\"\nchoices = [[\"U1\", 0x90]]\n",
        "",
        Some(20),
    ),
    (UART, UART, Some(20)),
    ("[[dynamic]]\nname = \"UART\"\nchoices = []\n", TX, Some(21)),
    (
        "[[dynamic]]\nname = \"UART\"\nchoices = 0x90\n",
        TX,
        Some(21),
    ),
    (
        "[[dynamic]]\nname = \"UART\"\nchoices = [[\"U2\", 0x90]]\n",
        TX,
        Some(21),
    ),
    (
        "[[dynamic]]\nname = \"UART\"\nchoices = [[\"U0\", 256]]\n",
        TX,
        Some(21),
    ),
    (
        "[[dynamic]]\nname = \"UART\"\nchoices = [[0x90, \"U0\"]]\n",
        TX,
        Some(21),
    ),
    (
        "[[dynamic]]\nname = \"UART\"\nchoices = [[\"U0\", 0x90], [\"U0\", 0xA0]]\n",
        TX,
        Some(21),
    ),
    (
        "[[dynamic]]\nname = \"UART\"\nchoices = [[\"U0\", 0x90], [\"U1\", 0x90]]\n",
        TX,
        Some(21),
    ),
];

#[test]
fn tells_the_first_broken_rule_of_dynamic_groups(rt: HostRuntime) {
    for &(dynamic, port, rule) in &DYNAMIC_MAPS {
        assert!(rt;
            breaks(rt.alloc(), &[CORE, REGIONS, GROUPS, dynamic, port], rule),
            "{dynamic}{port}"
        );
    }
}

/// Bytes that are no TOML document.
static NO_TOML: [&[u8]; 3] = [b"=", b"core", b"\xff"];

fn is_no_toml(alloc: Global, bytes: &[u8]) -> Result<bool, NoMemory> {
    let mut text = Seq::new(alloc);
    text.extend_from_slice(bytes)?;
    match read_map(alloc, &text) {
        Err(MapStop::NotToml) => Ok(true),
        _ => Ok(false),
    }
}

#[test]
fn tells_what_is_no_toml(rt: HostRuntime) {
    for bytes in &NO_TOML {
        assert!(rt;
            matches!(is_no_toml(rt.alloc(), *bytes), Ok(true)),
            "{bytes:?}"
        );
    }
}

fn is_port(ports: &[Port]) -> bool {
    match ports {
        [port] => {
            let bytes = port.address == 0x25 && port.width == 1 && port.count == 4;
            bytes && port.group.is_none() && port.dynamic.is_none()
        }
        _ => false,
    }
}

/// Whether the one port counts from the base of the one dynamic group.
fn is_dynamic(ports: &[Port]) -> bool {
    match ports {
        [port] => port.address == 3 && port.group.is_none() && port.dynamic == Some(0),
        _ => false,
    }
}

/// Whether the one dynamic group has the second group at 0x90 and the first at 0xA0.
fn are_dynamics(dynamics: &[Dynamic]) -> bool {
    let second = Choice {
        group: 1,
        base: 0x90,
    };
    let first = Choice {
        group: 0,
        base: 0xA0,
    };
    match dynamics {
        [dynamic] => {
            dynamic.name.as_slice() == b"UART".as_slice()
                && dynamic.choices.as_slice() == [second, first].as_slice()
        }
        _ => false,
    }
}

fn are_places(places: &[Fixed1]) -> bool {
    match places {
        [first, last] => first.at == 0x0700 && last.at == 9,
        _ => false,
    }
}

/// Whether a map has the regions, the port and the two places, by their names.
fn says(map: &Map) -> bool {
    map.code.first == 0
        && map.code.size == 28_672
        && map.vars.first == 256
        && map.stack.size == 256
        && is_port(map.io.ports.as_slice())
        && are_places(map.places.as_slice())
}

fn is_said(alloc: Global) -> bool {
    let place = "[place]\nlast = 9\nfirst = 0x0700\n";
    match told(alloc, &[CORE, REGIONS, PORT, "count = 4\n", place]) {
        Ok(map) => says(&map),
        Err(_) => false,
    }
}

#[test]
fn reads_what_a_map_says(rt: HostRuntime) {
    assert!(rt; is_said(rt.alloc()));
}

fn are_dynamics_said(alloc: Global) -> bool {
    let dynamic = "[[dynamic]]\nname = \"UART\"\nchoices = [[\"U1\", 0x90], [\"U0\", 0xA0]]\n";
    match told(alloc, &[CORE, REGIONS, GROUPS, dynamic, TX]) {
        Ok(map) => is_dynamic(map.io.ports.as_slice()) && are_dynamics(map.io.dynamics.as_slice()),
        Err(_) => false,
    }
}

#[test]
fn reads_dynamic_groups(rt: HostRuntime) {
    assert!(rt; are_dynamics_said(rt.alloc()));
}
