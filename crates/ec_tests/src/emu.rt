//! Runs of small programs with scripts and hooks, and lines of scripts, on texts that were worked out apart.
use ec_avr::{Image, Machine};
use ec_emu::{
    Ask, EmuReport, Hook, Hooked, Ports, Rule, Script, ScriptLine, ScriptStop, Scripted, emulate,
    read_script,
};
use ec_hex::{HexStop, read_hex};
use ec_io::MemSink;
use ec_space::{Core, Seq};
use std::alloc::{AllocError, Global};

/// The byte that was written to the port last.
#[derive(Drop)]
struct Last;

impl Rule for Last {
    ghost use Rattle.std.specs.Prelude.{◌==◌};

    ghost allows = { λ _ ask byte. byte == ask.last };

    fn allows(&self, ask: Ask, byte: u8) -> bool {
        byte == ask.last
    }
}

/// Ports that answer the number of earlier reads of the port that is asked. They count the asks, and tell the first.
#[derive(Drop)]
struct Counted {
    asks: u32,
    first: Ask,
}

impl Ports for Counted {
    ghost use Rattle.std.specs.Prelude.{◌≡◌, ◌==◌, ◌%◌, if◌then◌else◌, Some, None, [], ◌∷◌};
    ghost use Rattle.ec_emu.specs.Answers.{answered};

    ghost gives = { λ _ ask byte. byte ≡ ask.index % 256 };

    ghost asked = { λ s. if s.asks == 0 then Some []
        else (if s.asks == 1 then Some (answered s.first (s.first.index % 256) ∷ []) else None) };

    fn ask(&mut self, ask: Ask) -> u8 {
        if self.asks == 0 {
            self.first = ask;
        }
        self.asks = self.asks.saturating_add(1);
        (ask.index % 256) as u8
    }
}

fn image(alloc: Global, text: &[u8]) -> Result<Image, HexStop> {
    let mut bytes = Seq::new(alloc);
    bytes.extend_from_slice(text)?;
    if bytes.len() < 1_000 {
        read_hex(alloc, Core::Small, &bytes)
    } else {
        Err(HexStop::NoMemory)
    }
}

fn script(alloc: Global, text: &[u8]) -> Result<Script, ScriptStop> {
    let mut bytes = Seq::new(alloc);
    bytes.extend_from_slice(text)?;
    if bytes.len() < 1_000 {
        read_script(alloc, Core::Small, &bytes)
    } else {
        Err(ScriptStop::NoMemory)
    }
}

// What comes of a run in words.
type Told = Result<String, AllocError>;

// Whether these words were told.
fn is(told: Told, want: &str) -> bool {
    match told {
        Ok(words) => words.as_str() == want,
        Err(_) => false,
    }
}

// What a sink received, and a report.
fn told(alloc: Global, text: &[u8], report: EmuReport) -> Told {
    let printed = String::from_utf8_lossy(alloc, text)?;
    let EmuReport { end, reads, writes } = report;
    format!(in alloc; "{printed}{end:?} {reads} {writes}")
}

fn booted(alloc: Global, hex: &[u8]) -> Result<Machine, HexStop> {
    let image = image(alloc, hex)?;
    match Machine::boot(alloc, &image, 165) {
        Ok(machine) => Ok(machine),
        Err(_) => Err(HexStop::NoMemory),
    }
}

// What a run prints to a sink with so much room, and its report.
fn emulated<P: Ports>(
    alloc: Global,
    machine: &mut Machine,
    ports: &mut P,
    steps: u32,
    room: u32,
) -> Told
    requires { P.can_ask ports.old }
{
    match MemSink::new(alloc, room, Seq::new(alloc)) {
        Ok(mut sink) => {
            let report = emulate(machine, ports, steps, &mut sink);
            told(alloc, sink.text().as_slice(), report)
        }
        Err(_) => Err(AllocError),
    }
}

// LDS R24, 0x25; LDI R25, 0; BREAK.
const LOADS: &[u8] = b":080000008091250090E0989525\n:00000001FF\n";

// LDI R24, 9; STS 0x25, R24; LDS R24, 0x25; LDI R25, 0; BREAK.
const STORES: &[u8] = b":0E00000089E0809325008091250090E098957E\n:00000001FF\n";

// A HEX text, a script, the steps, and what comes of it: the lines, the end, and how often ports are read and written.
static RUNS: [(&[u8], &[u8], u32, &str); 8] = [
    (LOADS, b"25: 2A", 3, "in 25 2A\nEnded(42) 1 0"),
    (LOADS, b"25: 2A", 2, "in 25 2A\nStepsOut 1 0"),
    (LOADS, b"25: 2A", 0, "StepsOut 0 0"),
    (LOADS, b"25: hook", 10, "in 25 00\nEnded(0) 1 0"),
    (LOADS, b"", 10, "in 25 00\nEnded(0) 1 0"),
    (STORES, b"25: hook", 10, "out 25 09\nin 25 09\nEnded(9) 1 1"),
    (
        STORES,
        b"25: ab cd",
        10,
        "out 25 09\nin 25 AB\nEnded(171) 1 1",
    ),
    (b":00000001FF", b"", 1, "Fault(Unsupported, 0) 0 0"),
];

fn run_with(alloc: Global, machine: &mut Machine, script: &Script, steps: u32) -> Told {
    let mut hooked = Hooked {
        hook: Hook::new(|ask: Ask| ask.last, Last),
    };
    let mut ports = Scripted {
        script,
        hooks: &mut hooked,
    };
    emulated(alloc, machine, &mut ports, steps, 1_000)
}

// What comes of a HEX text with a script.
fn run(alloc: Global, hex: &[u8], script: &Script, steps: u32) -> Told {
    match booted(alloc, hex) {
        Ok(mut machine) => run_with(alloc, &mut machine, script, steps),
        Err(_) => Err(AllocError),
    }
}

fn runs(alloc: Global, hex: &[u8], lines: &[u8], steps: u32, want: &str) -> bool {
    match script(alloc, lines) {
        Ok(script) => is(run(alloc, hex, &script, steps), want),
        Err(_) => false,
    }
}

#[test]
fn prints_and_ends(rt: HostRuntime) {
    for &(hex, lines, steps, want) in &RUNS {
        assert!(rt; runs(rt.alloc(), hex, lines, steps, want), "{want}");
    }
}

// LDS R24, 0x25; LDS R24, 0x26; LDS R25, 0x25; BREAK.
const TWO_PORTS: &[u8] = b":0E000000809125008091260090912500989512\n:00000001FF\n";

// What the text prints with these ports.
fn run_two<P: Ports>(alloc: Global, ports: &mut P) -> Told
    requires { P.can_ask ports.old }
{
    match booted(alloc, TWO_PORTS) {
        Ok(mut machine) => emulated(alloc, &mut machine, ports, 10, 100),
        Err(_) => Err(AllocError),
    }
}

#[test]
fn asks_once_a_read(rt: HostRuntime) {
    let first = Ask {
        port: 0x25,
        index: 0,
        last: 0,
    };
    let mut ports = Counted { asks: 0, first };
    let counted = run_two(rt.alloc(), &mut ports);
    let is_told = is(counted, "in 25 00\nin 26 00\nin 25 01\nEnded(256) 3 0");
    assert!(rt; is_told && ports.asks == 3 && ports.first == first);
}

// What `STORES` prints to a sink that takes 12 bytes.
fn cut_off(alloc: Global) -> Told {
    let mut ports = Hooked {
        hook: Hook::new(|ask: Ask| ask.last, Last),
    };
    match booted(alloc, STORES) {
        Ok(mut machine) => emulated(alloc, &mut machine, &mut ports, 10, 12),
        Err(_) => Err(AllocError),
    }
}

#[test]
fn counts_after_a_failed_write(rt: HostRuntime) {
    assert!(rt; is(cut_off(rt.alloc()), "out 25 09\ninWriteFault 1 1"));
}

fn run_hooked<H: Ports>(alloc: Global, hooks: &mut H) -> Told
    requires { H.can_ask hooks.old }
{
    match script(alloc, b"25: hook") {
        Ok(script) => {
            let mut ports = Scripted {
                script: &script,
                hooks,
            };
            match booted(alloc, LOADS) {
                Ok(mut machine) => emulated(alloc, &mut machine, &mut ports, 10, 100),
                Err(_) => Err(AllocError),
            }
        }
        Err(_) => Err(AllocError),
    }
}

#[test]
fn hooks_are_given_back(rt: HostRuntime) {
    let mut hooked = Hooked {
        hook: Hook::new(|ask: Ask| ask.last, Last),
    };
    assert!(rt;
        is(
            run_hooked(rt.alloc(), &mut hooked),
            "in 25 00\nEnded(0) 1 0"
        )
    );
    let ask = Ask {
        port: 0x25,
        index: 1,
        last: 9,
    };
    let byte = hooked.ask(ask);
    assert!(rt; byte == 9 && Last.allows(ask, byte));
}

// The lines of a script, each with its port, whether it is hooked, and its bytes.
fn shown(alloc: Global, lines: &[ScriptLine]) -> Told {
    let mut out = String::new(alloc);
    for line in lines {
        let (port, hook, bytes) = (line.port, line.hook, line.bytes.as_slice());
        out.push_str(format!(in alloc; "{port:02X} {hook} {bytes:?}\n")?.as_str())?;
    }
    Ok(out)
}

fn lines(alloc: Global, text: &[u8]) -> Told {
    match script(alloc, text) {
        Ok(script) => shown(alloc, script.lines.as_slice()),
        Err(_) => Err(AllocError),
    }
}

// Scripts that break a rule, with the first line that breaks one, and the rule.
static BROKEN: [(&[u8], u32, u8); 19] = [
    (b"   ", 1, 1),
    (b"core small ", 1, 1),
    (b"25: 00\ncore small", 2, 1),
    (b"core small\n\ncore small", 3, 1),
    (b"core large", 1, 4),
    (b"25:  hook", 1, 1),
    (b"25:hook", 1, 1),
    (b"25: hook 00", 1, 1),
    (b"25: 0", 1, 1),
    (b"25: 000", 1, 1),
    (b"25: 00\t01", 1, 1),
    (b"25:00", 1, 1),
    (b" 25: 00", 1, 1),
    (b"25 : 00", 1, 1),
    (b"5F: 00", 1, 2),
    (b"# x\n1F:", 2, 2),
    (b"5D: zz", 1, 1),
    (b"25: 00\n\n25: hook", 3, 3),
    (b"25:\n5E:\n25:", 2, 2),
];

fn stops(alloc: Global, text: &[u8], stop: ScriptStop) -> bool {
    match script(alloc, text) {
        Ok(_) => false,
        Err(told) => told == stop,
    }
}

#[test]
fn reads_scripts(rt: HostRuntime) {
    let text = b"# a comment\r\n\r\ncore small\r\n25: 2A  fF \n79:\n7a: hook  \nFF: 00";
    let want = "25 false [42, 255]\n79 false []\n7A true []\nFF false [0]\n";
    assert!(rt; is(lines(rt.alloc(), text), want));
    for &(text, line, rule) in &BROKEN {
        assert!(rt;
            stops(rt.alloc(), text, ScriptStop::Line { line, rule }),
            "{text:?}"
        );
    }
}
