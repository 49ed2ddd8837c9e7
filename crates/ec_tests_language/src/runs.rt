//! What programs do, in words: `a=5` where the first leaf of the object a is written, `b.1:7` where the second leaf of
//! b is read, with `/flash` or `/data` behind it where the place is in that space, `in:79:FF` and `out:25:01` for bytes
//! of ports, and how the run comes out. Objects are a, b and so on in the order of their declarations. Expected words are
//! worked out by the rules of the language, apart from its definitions.
ghost use Rattle.ec_interp.specs.Views.{HasLayouts};
ghost use Rattle.ec_iohw.specs.Valid.{ValidIo};

use crate::rows::{Inputs, Row, Shown, Told as Words, compare, is_told, map};
use ec_check::CheckStop;
use ec_core::Program;
use ec_interp::{Behaviour, Event, PortInput, Run, Told, interpret};
use ec_iohw::IoTable;
use ec_space::{NoMemory, Seq, SpaceId};
use std::alloc::{AllocError, Global};
use std::process::Abort;

/// Numbers; objects, pointers and spaces; calls and loops.
static RUNS: [Row; 39] = [
    (
        "int main(void) { return ((12 & 10) << 4) + ((12 | 10) ^ 5) - (char)(~7 >> 1) * (char)(7 > 3) + (1 < 2) \
        + ((2 <= 2) << 1) + ((1 >= 2) << 2) + ((3 != 4) << 3) + ((3 == 4) << 4); }",
        "ends 154",
    ),
    (
        "int main(void) { int a = -7; return a / 2 + a % 2; }",
        "a=-7 a:-7 a:-7 ends -4",
    ),
    (
        "int main(void) { short _Fract a = 0.25hr * (char)3; return (int)((short _Accum)a << 7); }",
        "a=96 a:96 ends 96",
    ),
    (
        "int main(void) { _Sat short _Fract a = -0.5hr - 0.5hr; _Sat short _Fract b = a * a; return (int)((short _Accum)b << 7); }",
        "a=-128 a:-128 a:-128 b=127 b:127 ends 127",
    ),
    (
        "int main(void) { short _Accum a = -1.0hk / 3.0hk; return (int)(a << 7); }",
        "a=-42 a:-42 ends -42",
    ),
    (
        "int main(void) { _Sat _Fract a = 0.5r; _Sat _Fract b = a / 0.25r; return (int)((_Accum)b << 15); }",
        "a=16384 a:16384 b=32767 b:32767 ends 32767",
    ),
    (
        "int main(void) { int a = 1; return a - (a = 5); }",
        "a=1 a:1 a=5 ends -4",
    ),
    (
        "int main(void) { int a = 1; a += (a = 5); return a; }",
        "a=1 a:1 a=5 a=6 a:6 ends 6",
    ),
    (
        "int main(void) { char a = 100; a += 100; return a; }",
        "a=100 a:100 a=-56 a:-56 ends -56",
    ),
    (
        "int main(void) { short _Fract a = 0.5hr; a *= (char)-2; return (int)((short _Accum)a << 7); }",
        "a=64 a:64 a=-128 a:-128 ends -128",
    ),
    (
        "int main(void) { unsigned char a = 255; a <<= 4; return a << 8; }",
        "a=255 a:255 a=240 a:240 ends -4096",
    ),
    (
        "int main(void) { int a = 0; return (a && 1 / a) + (a || ++a) + !a; }",
        "a=0 a:0 a:0 a:0 a=1 a:1 ends 1",
    ),
    (
        "int main(void) { int a = 3; return a > 2 ? (a = 7, a--) : 0; }",
        "a=3 a:3 a=7 a:7 a=6 ends 7",
    ),
    (
        "int main(void) { int a[3] = {1, 2}; int *b = a; return (char)*++b * (char)10 + *--b; }",
        "a=1 a.1=2 a.2=0 b=&a+0 b:&a+0 b=&a+2 a.1:2 b:&a+2 b=&a+0 a:1 ends 21",
    ),
    (
        "static int a; int main(void) { int b = 300; a = (char)b; return a; }",
        "b=300 b:300 a=44 a:44 ends 44",
    ),
    (
        "int main(void) { int a = 4; int b = a++; return b - ++a; }",
        "a=4 a:4 a=5 b=4 b:4 a:5 a=6 ends -2",
    ),
    (
        "int main(void) { __data int *a = 0; int *b = a; return b == 0; }",
        "a=null a:null b=null b:null ends 1",
    ),
    (
        "const __flash int a[2] = {11, 22}; int get(const int *c); int main(void) { int b = 5; return get(&a[1]) \
        - get(&b); } int get(const int *c) { return *c; }",
        "b=5 c=&a+2 c:&a+2 a.1:22 c=&b+0 c:&b+0 b:5 ends 17",
    ),
    (
        "__data int a = 7; const __flash int b = 9; int main(void) { return a + b; }",
        "a:7/data b:9/flash ends 16",
    ),
    (
        "static int a = 1; static int *b = &a; static int *c = 0; int main(void) { return *b + !c; }",
        "b:&a+0 a:1 c:null ends 2",
    ),
    (
        "struct s { char a; int b; }; int main(void) { struct s a; struct s *b = &a; a.a = 3; b->b = 500; return a.a + b->b; }",
        "b=&a+0 a=3 b:&a+0 a.1=500 a:3 b:&a+0 a.1:500 ends 503",
    ),
    (
        "register _R4 long a; int main(void) { int b; a = 100000; for (b = 0; b < 3; b = b + 1) a = a / 10; return (int)a; }",
        "b=0 b:0 b:0 b=1 b:1 b:1 b=2 b:2 b:2 b=3 b:3 ends 100",
    ),
    (
        "int main(void) { int a[3] = {1, 2}; return (a[0] << 8) + (a[1] << 4) + (&a[2] - &a[0]); }",
        "a=1 a.1=2 a.2=0 a:1 a.1:2 ends 290",
    ),
    (
        "static int a; int main(void) { int b[3] = {5, 7, 9}; for (int c = 0; c < 3; c++) a += b[c]; return a; }",
        "b=5 b.1=7 b.2=9 c=0 c:0 a:0 c:0 b:5 a=5 c:0 c=1 c:1 a:5 c:1 b.1:7 a=12 c:1 c=2 c:2 a:12 c:2 b.2:9 a=21 c:2 c=3 c:3 a:21 ends 21",
    ),
    (
        "struct s { int m; int n; }; static int a; int main(void) { struct s b = {3, 1000}; struct s *c = &b; \
        c->n += c->m; a = c->m++; return b.n + a + c->m; }",
        "b=3 b.1=1000 c=&b+0 c:&b+0 b.1:1000 c:&b+0 b:3 b.1=1003 c:&b+0 b:3 b=4 a=3 b.1:1003 a:3 c:&b+0 b:4 ends 1010",
    ),
    (
        "static int a; int main(void) { int b[3] = {1, 1, 1}; int *c = b; *c++ = 4; a = *c++ = 6; *c = a + *b; return *b + b[1] + *c; }",
        "b=1 b.1=1 b.2=1 c=&b+0 c:&b+0 c=&b+2 b=4 c:&b+2 c=&b+4 b.1=6 a=6 c:&b+4 a:6 b:4 b.2=10 b:4 b.1:6 c:&b+4 b.2:10 ends 20",
    ),
    ("char a = 300; int main(void) { return a; }", "a:44 ends 44"),
    (
        "_Fract a = 0.25r + 0.5r; int main(void) { return (int)((_Accum)a << 15); }",
        "a:24576 ends 24576",
    ),
    (
        "_Accum a = -1.5k; int main(void) { return (int)(a << 1); }",
        "a:-49152 ends -3",
    ),
    (
        "int a[3] = {7, 8}; int main(void) { return a[0] + a[1] + a[2]; }",
        "a:7 a.1:8 a.2:0 ends 15",
    ),
    (
        "static int a; int up(int b, int c); int main(void) { return up(2, 3) + up(4, 5); } int up(int b, int c) \
        { a = a + b; return a + c; }",
        "b=2 c=3 a:0 b:2 a=2 a:2 c:3 b=4 c=5 a:2 b:4 a=6 a:6 c:5 ends 16",
    ),
    (
        "void f(void); int main(void) { f(); } void f(void) { ; return; }",
        "ends 0",
    ),
    (
        "int main(void) { int a = 0; do { if (a++ == 1) continue; if (a > 2) break; } while (a < 9); return a; }",
        "a=0 a:0 a=1 a:1 a:1 a:1 a=2 a:2 a:2 a=3 a:3 a:3 ends 3",
    ),
    (
        "int main(void) { int a = 3; while (a) { if (a == 2) break; a--; } return a; }",
        "a=3 a:3 a:3 a:3 a=2 a:2 a:2 a:2 ends 2",
    ),
    (
        "int main(void) { int a = 1; for (;;) { if (a > 2) return a; else a += a; } }",
        "a=1 a:1 a:1 a:1 a=2 a:2 a:2 a:2 a=4 a:4 a:4 ends 4",
    ),
    (
        "static int a; int main(void) { ; { ; } { int b = 7; a = b; } return a; }",
        "b=7 b:7 a=7 a:7 ends 7",
    ),
    (
        "static int a; int main(void) { for (int b = 0; b < 5; b++) { if (b == 1) continue; if (b == 4) break; a += b; } return a; }",
        "b=0 b:0 b:0 b:0 a:0 b:0 a=0 b:0 b=1 b:1 b:1 b:1 b=2 b:2 b:2 b:2 a:0 b:2 a=2 b:2 b=3 b:3 b:3 b:3 a:2 b:3 \
        a=5 b:3 b=4 b:4 b:4 b:4 a:5 ends 5",
    ),
    (
        "static int a; int f(int b, int c); int main(void) { return f(1, 2) - f(3, a = 9); } int f(int b, int c) { a += b; return a - c; }",
        "b=1 c=2 a:0 b:1 a=1 a:1 c:2 a=9 b=3 c=9 a:9 b:3 a=12 a:12 c:9 ends -4",
    ),
    (
        "static int a; int f(int b, int c); int main(void) { f(a, f(2, 3)); return a; } int f(int b, int c) { if \
        (b < c) return a = c; a -= 1; return b; }",
        "a:0 b=2 c=3 b:2 c:3 c:3 a=3 b=0 c=3 b:0 c:3 c:3 a=3 a:3 ends 3",
    ),
];

/// Undefined points.
static UNDEFINED: [Row; 22] = [
    ("int main(void) { return 7 / 0; }", "meets ZeroDivisor at 6"),
    (
        "int main(void) { return 1 << 16; }",
        "meets ShiftCount at 6",
    ),
    (
        "int main(void) { 0.5hr + 0.5hr; }",
        "meets FixedOverflow at 6",
    ),
    ("int main(void) { (char)200.0hk; }", "meets WholePart at 6"),
    (
        "int main(void) { int *a = 0; return *a; }",
        "a=null a:null meets Access at 12",
    ),
    (
        "int *f(void); int main(void) { return *f(); } int *f(void) { int a; return &a; }",
        "meets Access at 13",
    ),
    ("int main(void) { int *a; return *a; }", "meets Unset at 10"),
    (
        "int main(void) { int *a; { int b = 1; a = &b; } return *a; }",
        "b=1 a=&b+0 meets Unset at 22",
    ),
    (
        "int main(void) { int *a; for (int b = 0; b < 1; b++) a = &b; return *a; }",
        "b=0 b:0 a=&b+0 b:0 b=1 b:1 meets Unset at 29",
    ),
    (
        "const int a = 1; int main(void) { *(int *)&a = 2; }",
        "meets ConstWrite at 12",
    ),
    (
        "static int a; int main(void) { (const __flash int *)&a; }",
        "meets Narrowing at 10",
    ),
    (
        "static int a, b; int main(void) { return &a < &b; }",
        "meets Unrelated at 12",
    ),
    (
        "static int a, b; int main(void) { return &a + 1 == &b; }",
        "meets PointerUse at 12",
    ),
    (
        "int *f(void); int main(void) { return f() == 0; } int *f(void) { int a; return &a; }",
        "meets PointerUse at 13",
    ),
    (
        "static int a; int main(void) { &a + 2; }",
        "meets PointerRange at 10",
    ),
    (
        "#include <iohw.h>\nint main(void) { iord(SAMPLE); }",
        "meets ClosedPort at 6",
    ),
    (
        "#include <iohw.h>\nint main(void) { iogroup_acquire(ADC); iord(SAMPLE); iogroup_release(ADC); iord(SAMPLE); }",
        "out:7A:80 in:79:00 out:7A:00 meets ClosedPort at 21",
    ),
    (
        "#include <iohw.h>\nint main(void) { iowrbuf(B, 3, 1); }",
        "meets BufferIndex at 6",
    ),
    (
        "int f(void); int main(void) { return f(); } int f(void) { }",
        "meets NoResult at 23",
    ),
    (
        "int a = 1; int main(void) { while (1 / a) a--; return 0; }",
        "a:1 a:1 a=0 a:0 meets ZeroDivisor at 11",
    ),
    (
        "int f(int a) { return 1; } int main(void) { int b = 0; return f(1) / b; }",
        "b=0 a=1 b:0 meets ZeroDivisor at 22",
    ),
    (
        "int f(int a) { if (a) return 1 / (a - 1); return 0; } int main(void) { return f(2) + f(1); }",
        "a=2 a:2 a:2 a=1 a:1 a:1 meets ZeroDivisor at 11",
    ),
];

/// A text, the bytes that port addresses give, the turns that each loop gets, what is read and written, and the work
/// in steps where that counts.
type PortRow = (&'static str, Inputs, u32, &'static str, Option<u64>);

const FOREVER: &str = "#include <iohw.h>\nint main(void) { for (;;) iowr(LED, 1); }";

const LEAVES: &str =
    "#include <iohw.h>\nint main(void) { int a = 0; do { iowr(LED, a); if (a++ == 1) continue; if (a > 2) break; \
    } while (iord(LED) < 9); return a; }";

const TWICE: &str =
    "#include <iohw.h>\nint main(void) { iowr(T, iord(T) + 1); return (int)iord(T); }";

static PORTS: [PortRow; 12] = [
    (
        TWICE,
        &[(0x84, &[0x34]), (0x85, &[0x12, 1])],
        20,
        "in:84:34 in:85:12 out:85:12 out:84:35 in:84:00 in:85:01 ends 256",
        None,
    ),
    (
        "#include <iohw.h>\nint main(void) { ioor(LED, 1); ioand(LED, 15); ioxor(LED, 255); ioorl(LED, 1); \
        ioandl(LED, 15); ioxorl(LED, 255); }",
        &[(0x25, &[0x80, 0x35, 0x0F, 0x40, 0x3A, 0x11])],
        20,
        "in:25:80 out:25:81 in:25:35 out:25:05 in:25:0F out:25:F0 in:25:40 out:25:41 in:25:3A out:25:0A in:25:11 out:25:EE ends 0",
        None,
    ),
    (
        "#include <iohw.h>\nint main(void) { iowrbuf(B, 2, 0x1234); iowrbuf(B, 0, iordbuf(B, 1)); ioorbuf(B, 0, \
        0x8001); ioandbuf(B, 1, 0xFF); ioxorbuf(B, 2, 0xFFFF); }",
        &[
            (0x60, &[0x10]),
            (0x61, &[0x20]),
            (0x62, &[0x78, 0xAA]),
            (0x63, &[0x56, 0xBB]),
            (0x64, &[0x0F]),
            (0x65, &[0xF0]),
        ],
        20,
        "out:65:12 out:64:34 in:62:78 in:63:56 out:61:56 out:60:78 in:60:10 in:61:20 out:61:A0 out:60:11 \
        in:62:AA in:63:BB out:63:00 out:62:AA in:64:0F in:65:F0 out:65:0F out:64:F0 ends 0",
        None,
    ),
    (
        "#include <iohw.h>\nint main(void) { iowrl(L, iordl(L) + 1); iowrbufl(L, 0, iordbufl(L, 1)); ioorbufl(L, \
        1, 0x80000001); ioandbufl(L, 1, 0xFF); ioxorbufl(L, 1, 0xFFFFFFFF); }",
        &[
            (0x90, &[0xFF]),
            (0x91, &[0xFF]),
            (0x93, &[0x80]),
            (0x94, &[1, 0x10, 0xAA, 0x0F]),
            (0x95, &[2, 0x20, 0xBB]),
            (0x96, &[3]),
            (0x97, &[4]),
        ],
        20,
        "in:90:FF in:91:FF in:92:00 in:93:80 out:93:80 out:92:01 out:91:00 out:90:00 in:94:01 in:95:02 in:96:03 \
        in:97:04 out:93:04 out:92:03 out:91:02 out:90:01 in:94:10 in:95:20 in:96:00 in:97:00 out:97:80 \
        out:96:00 out:95:20 out:94:11 in:94:AA in:95:BB in:96:00 in:97:00 out:97:00 out:96:00 out:95:00 \
        out:94:AA in:94:0F in:95:00 in:96:00 in:97:00 out:97:FF out:96:FF out:95:FF out:94:F0 ends 0",
        None,
    ),
    (
        "#include <iohw.h>\nconst __flash short _Fract a[4] = {0.5hr, 0.25hr, 0.125hr, 0.125hr}; __data short \
        _Fract b[4]; int main(void) { int c; int d; iogroup_acquire(ADC); for (c = 0; c < 8; c = c + 1) { _Sat \
        short _Fract e = 0.0hr; for (d = 3; d > 0; d = d - 1) b[d] = b[d - 1]; b[0] = (unsigned short \
        _Accum)iord(SAMPLE) >> 8; for (d = 0; d < 4; d = d + 1) e = e + a[d] * b[d]; iowr(LED, (unsigned \
        int)((short _Accum)e << 8)); } iogroup_release(ADC); return 0; }",
        &[(0x79, &[0x80, 0, 0, 0, 0xFF, 0xFF, 0xFF, 0xFF])],
        20,
        "out:7A:80 in:79:80 out:25:40 in:79:00 out:25:20 in:79:00 out:25:10 in:79:00 out:25:10 in:79:FF \
        out:25:7E in:79:FF out:25:BC in:79:FF out:25:DA in:79:FF out:25:F8 out:7A:00 ends 0",
        None,
    ),
    (
        "#include <iohw.h>\nstatic int a; int main(void) { iogroup_acquire(ADC); ioxorbuf(B, a = 1, iord(SAMPLE)); return a; }",
        &[(0x79, &[200]), (0x62, &[0x0F]), (0x63, &[0xA5])],
        20,
        "out:7A:80 in:79:C8 in:62:0F in:63:A5 out:63:A5 out:62:C7 ends 1",
        None,
    ),
    // A loop is out of turns before the turn that is one too many. The work in words is that of the parts: 200 of a
    // program, 40 of a call, and for two bytes 50 of a number, 60 of a return, 160 of an access of a port and 390 of an
    // operator.
    (
        "int main(void) { return 0; }",
        &[],
        0,
        "ends 0",
        Some(64 * (200 + 40 + 60 + 50)),
    ),
    (
        TWICE,
        &[],
        0,
        "in:84:00 in:85:00 out:85:00 out:84:01 in:84:00 in:85:00 ends 0",
        Some(64 * (240 + 160 + 390 + 160 + 390 + 50 + 60 + 390 + 160)),
    ),
    (FOREVER, &[], 0, "runs on", Some(64 * 240)),
    (
        FOREVER,
        &[],
        3,
        "out:25:01 out:25:01 out:25:01 runs on",
        Some(64 * (240 + 3 * 620)),
    ),
    (
        LEAVES,
        &[],
        2,
        "out:25:00 in:25:00 out:25:01 in:25:00 runs on",
        None,
    ),
    (
        LEAVES,
        &[],
        3,
        "out:25:00 in:25:00 out:25:01 in:25:00 out:25:02 ends 3",
        None,
    ),
];

// ---- runs in words

fn letter(object: u16) -> char {
    char::from(b'a' + (object % 26) as u8)
}

fn value_of(alloc: Global, value: Told) -> Words {
    match value {
        Told::Number(n) => format!(in alloc; "{n}"),
        Told::Null => String::from_str(alloc, "null"),
        Told::Address { object, offset } => {
            let letter = letter(object);
            format!(in alloc; "&{letter}+{offset}")
        }
    }
}

/// A leaf of an object; how it is accessed, and its value; and the space, where it is a named one.
fn access(
    alloc: Global,
    object: u16,
    leaf: usize,
    sign: &str,
    value: Told,
    space: SpaceId,
) -> Words {
    let letter = letter(object);
    let value = value_of(alloc, value)?;
    let end = match space {
        SpaceId::Generic => "",
        SpaceId::Flash => "/flash",
        SpaceId::FarFlash => "/farflash",
        SpaceId::Data => "/data",
    };
    if leaf == 0 {
        format!(in alloc; "{letter}{sign}{value}{end}")
    } else {
        format!(in alloc; "{letter}.{leaf}{sign}{value}{end}")
    }
}

fn event_of(alloc: Global, event: &Event) -> Words {
    match *event {
        Event::In { port, byte } => format!(in alloc; "in:{port:02X}:{byte:02X}"),
        Event::Out { port, byte } => format!(in alloc; "out:{port:02X}:{byte:02X}"),
        Event::Read {
            object,
            leaf,
            space,
            value,
        } => access(alloc, object, leaf, ":", value, space),
        Event::Write {
            object,
            leaf,
            space,
            value,
        } => access(alloc, object, leaf, "=", value, space),
    }
}

fn add(alloc: Global, out: &mut String, event: &Event) -> Result<(), AllocError> {
    let words = event_of(alloc, event)?;
    out.push_str(words.as_str())?;
    out.push(' ')
}

/// The events, of ports alone where `ports` holds, and the end.
fn line(alloc: Global, events: &[Event], ports: bool, end: &str) -> Words {
    let mut out = String::new(alloc);
    for e in events {
        if !ports || matches!(e, Event::In { .. } | Event::Out { .. }) {
            add(alloc, &mut out, e)?;
        }
    }
    out.push_str(end)?;
    Ok(out)
}

fn words_of(alloc: Global, run: &Run, ports: bool) -> Words {
    match &run.behaviour {
        Behaviour::Ended { events, result } => {
            let end = format!(in alloc; "ends {result}")?;
            line(alloc, events.as_slice(), ports, end.as_str())
        }
        Behaviour::Running { events } => line(alloc, events.as_slice(), ports, "runs on"),
        Behaviour::MeetsUndefined {
            point,
            at,
            events,
            ..
        } => {
            let end = format!(in alloc; "meets {point:?} at {at}")?;
            line(alloc, events.as_slice(), ports, end.as_str())
        }
    }
}

/// What it does to ports, and its work where it is not this.
fn words_of_ports(alloc: Global, run: &Run, work: Option<u64>) -> Words {
    let line = words_of(alloc, run, true)?;
    match work {
        Some(work) if work != run.work => {
            let work = run.work;
            format!(in alloc; "{line} in {work} steps")
        }
        _ => Ok(line),
    }
}

fn bytes_of(alloc: Global, list: &[u8]) -> Result<Seq<u8>, NoMemory> {
    let mut bytes = Seq::new(alloc);
    bytes.extend_from_slice(list)?;
    Ok(bytes)
}

fn given(alloc: Global, inputs: Inputs) -> Result<Seq<PortInput>, NoMemory> {
    let mut out = Seq::new(alloc);
    for &(port, list) in inputs {
        let bytes = bytes_of(alloc, list)?;
        out.push(PortInput { port, bytes })?;
    }
    Ok(out)
}

/// A run of a program.
fn run(
    alloc: Global,
    program: &Program,
    io: &IoTable,
    inputs: Inputs,
    turns: u32,
) -> Result<Run, AllocError>
    requires { HasLayouts program.now }
{
    match given(alloc, inputs) {
        Ok(inputs) => match interpret(alloc, program, io, &inputs, turns) {
            Ok(run) => Ok(run),
            Err(_) => Err(AllocError),
        },
        Err(_) => Err(AllocError),
    }
}

/// The constraint that a program breaks, and the token at which it is told.
pub fn of_stop(alloc: Global, stop: &CheckStop) -> Words {
    match stop {
        CheckStop::Constraint { token, rule, .. } => format!(in alloc; "{rule} at {token}"),
        _ => Err(AllocError),
    }
}

/// What a program does.
pub fn told(alloc: Global, program: &Program, io: &IoTable) -> Words
    requires { HasLayouts program.now }
{
    match run(alloc, program, io, &[], 20) {
        Ok(run) => words_of(alloc, &run, false),
        Err(_) => Err(AllocError),
    }
}

/// What a program does to ports with these inputs, where each loop gets so many turns; and its work in steps, where that
/// is not this.
pub fn told_of_ports(
    alloc: Global,
    program: &Program,
    io: &IoTable,
    inputs: Inputs,
    turns: u32,
    work: Option<u64>,
) -> Words
    requires { HasLayouts program.now }
{
    match run(alloc, program, io, inputs, turns) {
        Ok(run) => words_of_ports(alloc, &run, work),
        Err(_) => Err(AllocError),
    }
}

fn compare_ports(rt: &impl Abort, alloc: Global, rows: &[PortRow], io: &IoTable)
    requires { ValidIo io.now }
{
    for &(text, inputs, turns, want, work) in rows {
        let told = is_told(alloc, Shown::Ports(inputs, turns, work), &[text], io, want);
        assert!(rt; told, "{text}");
    }
}

#[test]
fn runs(rt: HostRuntime) {
    compare(&rt, rt.alloc(), Shown::Run, &RUNS);
}

#[test]
fn undefined_points(rt: HostRuntime) {
    compare(&rt, rt.alloc(), Shown::Run, &UNDEFINED);
}

#[test]
fn ports_turns_and_work(rt: HostRuntime) {
    match map(rt.alloc()) {
        Ok(map) => compare_ports(&rt, rt.alloc(), &PORTS, &map.io),
        Err(_) => panic!(rt; "no map"),
    }
}
