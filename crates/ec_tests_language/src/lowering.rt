//! Programs with each kind of statement: the steps of their operations show what the interpreter tells, and end with a
//! result that is worked out by the rules of C.
ghost use Rattle.std.specs.Prelude.{◌≡◌, [], ◌∷◌, IfOk};
ghost use Rattle.ec_core.specs.Plain.{plain_program};
ghost use Rattle.ec_core.specs.Valid.{Valid};

use crate::stepper;
use ec_build::{build, discard};
use ec_core::Program;
use ec_interp::{Behaviour, PortInput, Run, interpret};
use ec_iohw::IoTable;
use ec_lower::lower;
use ec_space::{NoMemory, Seq};
use std::alloc::Global;

/// What stands before `main`.
static PRELUDE: &str = "#include <iohw.h>
struct s { int m; int n; };
int a;
int f(int d, int e);
int main(void) { ";

/// What stands in `main`, with a function behind it where that is called, but for the last brace; and the result.
static PROGRAMS: [(&str, i128); 32] = [
    ("return 3 - 5 - 4;", -6),
    ("; { ; } { int b = 7; a = b; } return a;", 7),
    ("int b = 300; a = (char)b; return a;", 44),
    ("int b = 5; if (b < 3) a = 1; return a;", 0),
    ("int b = 5; if (b == 5) a = 1; else a = 2; return a;", 1),
    (
        "int b = 3; while (b) { a += b; if (b == 2) break; b--; } return a;",
        5,
    ),
    (
        "int b = 0; do { b++; if (b == 2) continue; a += b; } while (b < 4); return a;",
        8,
    ),
    (
        "for (int b = 0; b < 5; b++) { if (b == 1) continue; if (b == 4) break; a += b; } return a;",
        5,
    ),
    ("int b = 1; for (;;) { if (b == 16) return b; b += b; }", 16),
    ("int b = 1; return b - (b = 5);", -4),
    ("int b = 1; b += (b = 5); return b;", 6),
    ("int b = 4; int c = b++; return c - ++b;", -2),
    ("int b = 0; return (b && 1 / b) + (b || ++b) + !b;", 1),
    ("int b = 3; return 2 < b ? (b = 7, b--) : 0;", 7),
    (
        "return f(1, 2) - f(3, a = 9); } int f(int d, int e) { a += d; return a - e;",
        -4,
    ),
    (
        "f(a, f(2, 3)); return a; } int f(int d, int e) { if (d < e) return a = e; a -= 1; return d;",
        3,
    ),
    ("a = 9;", 0),
    (
        "iogroup_acquire(G); a = iord(P); a += iord(P); iogroup_release(G); return a;",
        206,
    ),
    ("iowrbuf(B, 2, 515); return 1;", 1),
    (
        "iogroup_acquire(G); ioor(P, 7); ioand(P, 3); return iord(P);",
        0,
    ),
    (
        "iogroup_acquire(G); ioxorbuf(B, a = 1, iord(P)); return a;",
        1,
    ),
    ("iogroup_map(D, U1); return 2;", 2),
    (
        "iogroup_map(D, U1); iogroup_acquire(D); iowr(X, 5); iogroup_map(D, U0); iogroup_acquire(D); return iord(X);",
        77,
    ),
    (
        "iogroup_map(D, U2); iogroup_acquire(D); iowrbuf(Y, 1, 515); ioorbuf(Y, a = 2, 256); return iordbuf(Y, 0) + a;",
        1030,
    ),
    (
        "iogroup_map(D, U2); iogroup_acquire(D); ioxor(X, 12); iogroup_release(D); return 0;",
        0,
    ),
    (
        "iogroup_map(D, U1); iogroup_acquire(D); ioand(X, a = 6); iogroup_release(D); return a;",
        6,
    ),
    (
        "iogroup_map(E, U1); iogroup_map(D, U1); iogroup_acquire(E); iowr(X, iord(Z)); iogroup_release(D); return 1;",
        1,
    ),
    (
        "f(1, 2); iowr(X, a); return a; } int f(int d, int e) { iogroup_map(D, U2); iogroup_acquire(D); return a = d + e;",
        3,
    ),
    (
        "while (a < 2) { if (a) iogroup_map(D, U2); else iogroup_map(D, U0); iogroup_acquire(D); iowr(X, a++); } return a;",
        2,
    ),
    (
        "int v[3] = {5, 7, 9}; for (int b = 0; b < 3; b++) a += v[b]; return a;",
        21,
    ),
    (
        "struct s s = {3, 1000}; struct s *q = &s; q->n += q->m; a = q->m++; return s.n + a + q->m;",
        1010,
    ),
    (
        "int v[3] = {1, 1, 1}; int *p = v; *p++ = 4; a = *p++ = 6; *p = a + *v; return *v + v[1] + *p;",
        20,
    ),
];

/// A port of one byte in a group, and three ports of two bytes that follow one another; the same of a dynamic group with
/// three choices, and a port of another one with one choice.
static MAP: &str = "core = \"small\"
[region]
code = [0, 28672]
tables = [28672, 4096]
data = [256, 1792]
stack = [2048, 256]
[[port]]
name = \"P\"
address = 0x25
width = 1
group = \"G\"
[[port]]
name = \"B\"
address = 0x40
width = 2
count = 3
[[port]]
name = \"X\"
address = 3
width = 1
group = \"D\"
[[port]]
name = \"Y\"
address = 4
width = 2
count = 3
group = \"D\"
[[port]]
name = \"Z\"
address = 16
width = 1
group = \"E\"
[[group]]
name = \"U0\"
acquire = [[0x66, 1]]
release = [[0x66, 0]]
[[group]]
name = \"U1\"
acquire = [[0x66, 2], [0x68, 3]]
release = []
[[group]]
name = \"U2\"
acquire = [[0x66, 4]]
release = [[0x68, 9], [0x66, 0]]
[[dynamic]]
name = \"D\"
choices = [[\"U0\", 0x80], [\"U1\", 0xA0], [\"U2\", 0xC0]]
[[dynamic]]
name = \"E\"
choices = [[\"U1\", 0x60]]
[[group]]
name = \"G\"
acquire = [[0x24, 15], [0x64, 1]]
release = [[0x24, 0], [0x64, 1]]
";

/// What port addresses give: two bytes of the port of one byte, one of each byte of the second port of two bytes, and
/// some of the ports of dynamic groups.
static GIVEN: [(u8, &[u8]); 8] = [
    (0x25, &[200, 6]),
    (0x42, &[0x0F]),
    (0x43, &[0xA5]),
    (0x70, &[33]),
    (0x83, &[77]),
    (0xA3, &[5]),
    (0xC4, &[4]),
    (0xC5, &[4]),
];

fn bytes_of(alloc: Global, bytes: &[u8]) -> Result<Seq<u8>, NoMemory>
    ensures { IfOk result (λ seq. seq.items ≡ bytes.now) }
{
    let mut seq = Seq::new(alloc);
    seq.extend_from_slice(bytes)?;
    Ok(seq)
}

fn inputs(alloc: Global) -> Result<Seq<PortInput>, NoMemory> {
    let mut inputs = Seq::new(alloc);
    for &(port, list) in &GIVEN {
        let bytes = bytes_of(alloc, list)?;
        inputs.push(PortInput { port, bytes })?;
    }
    Ok(inputs)
}

/// Whether the operations of a program show what a run of it shows, and end as it does.
fn shows(
    alloc: Global,
    program: &Program,
    io: &IoTable,
    inputs: &Seq<PortInput>,
    run: &Run,
    want: i128,
) -> bool
    requires { Valid (plain_program program.now) io.now }
{
    match lower(alloc, program, io) {
        Ok(ir) => {
            let shown = match &run.behaviour {
                Behaviour::Ended { events, result } => {
                    *result == want && stepper::shows(alloc, &ir, inputs, events.as_slice(), want)
                }
                _ => false,
            };
            drop(ir);
            shown
        }
        Err(_) => false,
    }
}

/// Whether a program ends with this result, and its operations do what it does.
fn is_lowered(alloc: Global, program: &Program, io: &IoTable, want: i128) -> Result<bool, NoMemory>
    requires { Valid (plain_program program.now) io.now }
{
    let inputs = inputs(alloc)?;
    match interpret(alloc, program, io, &inputs, 20) {
        Ok(run) => Ok(shows(alloc, program, io, &inputs, &run, want)),
        Err(_) => Ok(false),
    }
}

/// A list of one text.
fn one(alloc: Global, text: Seq<u8>) -> Result<Seq<Seq<u8>>, NoMemory>
    ensures { IfOk result (λ list. list.items ≡ text ∷ []) }
{
    let mut list = Seq::new(alloc);
    list.push(text)?;
    Ok(list)
}

/// Whether the program of a text does.
fn is_right(alloc: Global, text: &[u8], want: i128) -> Result<bool, NoMemory> {
    if text.len() >= 100_000 {
        return Ok(false);
    }
    let (map, source) = (bytes_of(alloc, MAP.as_bytes())?, bytes_of(alloc, text)?);
    let sources = one(alloc, source)?;
    match build(alloc, &sources, &map) {
        Ok(built) => {
            let lowered = is_lowered(alloc, &built.program, &built.map.io, want);
            discard(built);
            lowered
        }
        Err(_) => Ok(false),
    }
}

fn is_right_in_main(alloc: Global, text: &str, want: i128) -> bool {
    match format!(in alloc; "{PRELUDE}{text} }}") {
        Ok(text) => matches!(is_right(alloc, text.as_bytes(), want), Ok(true)),
        Err(_) => false,
    }
}

#[test]
fn operations_do_what_programs_do(rt: HostRuntime) {
    for &(text, want) in &PROGRAMS {
        assert!(rt; is_right_in_main(rt.alloc(), text, want), "{text}");
    }
}
