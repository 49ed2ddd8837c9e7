//! Builds and runs over memory, where one call of the store fails or `out` has no room: the status, what is printed, and
//! the line on `err`.
use crate::rows;
use crate::told::{Told, done, executed, is, store};
use ec_io::MemStore;
use ec_space::{NoMemory, Seq};
use std::alloc::{AllocError, Global};

// What a run over memory comes to, with the HEX text `h` and the script `s`, where the call of this number fails and
// `out` takes so many bytes.
fn ran(alloc: Global, hex: &str, script: &str, fail: u64, texts: &[&str], room: u32) -> Told {
    match store(alloc, &[("h", hex), ("s", script)], "o", 0, fail) {
        Ok(mut store) => done(alloc, texts, &mut store, room),
        Err(_) => Err(AllocError),
    }
}

// IN R24 from the port 0x25, LDI R25 with 0, BREAK.
const IN: &str = ":080000008091250090E0989525\n:00000001FF\n";

// Each file is opened, read and read to its end. What fails is told by the file's name, and nothing is printed.
static NOT_READ: [&str; 7] = [
    "3 / cannot read h\n",
    "3 / cannot read h\n",
    "3 / cannot read h\n",
    "3 / cannot read s\n",
    "3 / cannot read s\n",
    "3 / cannot read s\n",
    "0 in 25 2A\nresult 42\n/ ",
];

#[test]
fn tells_which_file_was_not_read(rt: HostRuntime) {
    for (k, want) in NOT_READ.iter().enumerate() {
        let texts = ["run", "h", "s", "10", "0000000255"];
        let ran = ran(rt.alloc(), IN, "25: 2A", k as u64 + 1, &texts, 1_000);
        assert!(rt; is(ran, *want), "behind call {k}");
    }
}

// What `out` has no room for is status 4, and what it received is a prefix of what is printed.
static ROOMS: [(u32, &str); 4] = [
    (0, "4 / cannot write\n"),
    (5, "4 in 25/ cannot write\n"),
    (9, "4 in 25 2A\n/ cannot write\n"),
    (18, "4 in 25 2A\nresult 42/ cannot write\n"),
];

#[test]
fn prints_a_prefix(rt: HostRuntime) {
    for &(room, want) in &ROOMS {
        let texts = ["run", "h", "s", "10", "165"];
        let ran = ran(rt.alloc(), IN, "25: 2A", 100, &texts, room);
        assert!(rt; is(ran, want), "{want}");
    }
}

static MAP: &str =
    "core = \"small\"\n[region]\ncode = [0, 28672]\ntables = [28672, 4096]\ndata = [256, 1792]\nstack = [2048, 256]\n";

// The map is opened, read and read to its end, and so is each source. Then the output is created.
static NOT_BUILT: [&str; 10] = [
    "3 / cannot read m\n",
    "3 / cannot read m\n",
    "3 / cannot read m\n",
    "3 / cannot read b.c\n",
    "3 / cannot read b.c\n",
    "3 / cannot read b.c\n",
    "3 / cannot read a.c\n",
    "3 / cannot read a.c\n",
    "3 / cannot read a.c\n",
    "4 / cannot write\n",
];

// Whether a build over a store tells this, and writes no file.
fn is_not_built(alloc: Global, texts: &[&str], store: &mut MemStore, want: &str) -> bool {
    is(done(alloc, texts, store, 100_000), want) && store.file("out").is_none()
}

// A store with a map and two sources, whose call of this number fails.
fn two_sources(alloc: Global, fail: u64) -> Result<MemStore, NoMemory> {
    let texts = [
        ("m", MAP),
        ("a.c", "int main(void){return 7;}"),
        ("b.c", "int twice(int x){return x + x;}"),
    ];
    store(alloc, &texts, "out", 100_000, fail)
}

// Whether a build whose call of this number fails tells this, and writes no file.
fn is_told_of_call(alloc: Global, fail: u64, want: &str) -> bool {
    let texts = ["build", "m", "out", "b.c", "a.c"];
    match two_sources(alloc, fail) {
        Ok(mut store) => is_not_built(alloc, &texts, &mut store, want),
        Err(_) => false,
    }
}

#[test]
fn tells_which_call_failed(rt: HostRuntime) {
    for (k, want) in NOT_BUILT.iter().enumerate() {
        assert!(rt;
            is_told_of_call(rt.alloc(), k as u64 + 1, *want),
            "behind call {k}"
        );
    }
}

// A filter: it writes the weighted sum of each sample and the three before it.
static FILTER: &str = "#include <iohw.h>
const __flash short _Fract c[4] = {0.5hr, 0.25hr, 0.125hr, 0.125hr};
__data short _Fract x[4];
int main(void) {
  int n; int k;
  iogroup_acquire(ADC);
  for (n = 0; n < 8; n = n + 1) {
    _Sat short _Fract y = 0.0hr;
    for (k = 3; k > 0; k = k - 1) x[k] = x[k - 1];
    x[0] = (unsigned short _Accum)iord(SAMPLE) >> 8;
    for (k = 0; k < 4; k = k + 1) y = y + c[k] * x[k];
    iowr(LED, (unsigned int)((short _Accum)y << 8));
  }
  iogroup_release(ADC);
  return 0;
}
";

// What the files take that are written whole.
const ROOM: u32 = 4_194_304;

// A store with a map and the filter, whose call of this number fails and whose file `out` takes so many bytes.
fn filter(alloc: Global, room: u32, fail: u64) -> Result<MemStore, NoMemory> {
    store(
        alloc,
        &[("m", rows::MAP), ("a.c", FILTER)],
        "out",
        room,
        fail,
    )
}

static BUILD_FILTER: [&str; 4] = ["build", "m", "out", "a.c"];

// The map is opened, read and read to its end, and so is the source. Then the output is created.
static NO_FILTER: [&str; 7] = [
    "3 / cannot read m\n",
    "3 / cannot read m\n",
    "3 / cannot read m\n",
    "3 / cannot read a.c\n",
    "3 / cannot read a.c\n",
    "3 / cannot read a.c\n",
    "4 / cannot write\n",
];

// Whether a build of the filter whose call of this number fails tells this, and writes no file.
fn is_no_filter(alloc: Global, fail: u64, want: &str) -> bool {
    match filter(alloc, ROOM, fail) {
        Ok(mut store) => is_not_built(alloc, &BUILD_FILTER, &mut store, want),
        Err(_) => false,
    }
}

#[test]
fn makes_no_file(rt: HostRuntime) {
    for (k, want) in NO_FILTER.iter().enumerate() {
        assert!(rt;
            is_no_filter(rt.alloc(), k as u64 + 1, *want),
            "behind call {k}"
        );
    }
}

// The store after a build of the filter that tells this, whose call of this number fails and whose writes take so many
// bytes.
fn after_build(alloc: Global, room: u32, fail: u64, want: &str) -> Option<MemStore> {
    match filter(alloc, room, fail) {
        Ok(mut store) => {
            if is(done(alloc, &BUILD_FILTER, &mut store, 100_000), want) {
                Some(store)
            } else {
                None
            }
        }
        Err(_) => None,
    }
}

fn lines(text: &Seq<u8>) -> usize {
    text.as_slice().iter().filter(|b| **b == b'\n').count()
}

// How many lines stand in `out` after a build of the filter.
fn all_lines(alloc: Global) -> usize {
    match after_build(alloc, ROOM, 0, "0 / ") {
        Some(store) => match store.file("out") {
            Some(text) => lines(text),
            None => 0,
        },
        None => 0,
    }
}

// How many bytes and lines a build of the filter leaves that could not write all of its text; none where it leaves no
// front of the text.
fn left(alloc: Global, room: u32, fail: u64) -> Option<(usize, usize)> {
    let whole = after_build(alloc, ROOM, 0, "0 / ");
    let left = after_build(alloc, room, fail, "4 / cannot write\n");
    let (Some(whole), Some(left)) = (whole, left) else {
        return None;
    };
    match (whole.file("out"), left.file("out")) {
        (Some(whole), Some(left)) if whole.as_slice().starts_with(left.as_slice()) => {
            Some((left.len(), lines(left)))
        }
        _ => None,
    }
}

// The eighth call writes the first line, of 44 bytes where a record has 16 data bytes. What a failed write left is not
// taken back.
static LEFT: [(u32, u64, (usize, usize)); 3] = [
    (ROOM, 8, (0, 0)),
    (ROOM, 9, (44, 1)),
    (100, 0, (100, 2)),
];

#[test]
fn leaves_what_went_out(rt: HostRuntime) {
    for &(room, fail, want) in &LEFT {
        assert!(rt; left(rt.alloc(), room, fail) == Some(want), "call {fail}");
    }
}

// Whether a build of the filter whose call of this number fails leaves so many lines.
fn leaves_lines(alloc: Global, fail: u64, want: usize) -> bool {
    match left(alloc, ROOM, fail) {
        Some((_, lines)) => lines == want,
        None => false,
    }
}

#[test]
fn leaves_the_lines_before_a_failed_call(rt: HostRuntime) {
    let all = all_lines(rt.alloc());
    assert!(rt; 20 < all && all < 200);
    for k in 0..200usize {
        if k < all {
            assert!(rt; leaves_lines(rt.alloc(), k as u64 + 8, k), "line {k}");
        }
    }
}

// What comes of an exec whose program writes a port, where the first call on `out` fails.
fn not_printed(alloc: Global) -> Told {
    let texts = [
        ("m", rows::MAP),
        ("s", ""),
        (
            "a.c",
            "#include <iohw.h>\nint main(void){iowr(LED, 1); return 0;}",
        ),
    ];
    let words = ["exec", "m", "s", "1000", "a.c"];
    match store(alloc, &texts, "o", 0, 0) {
        Ok(mut store) => executed(alloc, &words, 1_000, &mut store, 1),
        Err(_) => Err(AllocError),
    }
}

#[test]
fn tells_what_was_not_printed(rt: HostRuntime) {
    assert!(rt; is(not_printed(rt.alloc()), "4 / cannot write\n"));
}

// The map is opened, read and read to its end, and so is the source. The script has nothing to read before its end.
static NOT_EXECUTED: [&str; 8] = [
    "3 / cannot read m\n",
    "3 / cannot read m\n",
    "3 / cannot read m\n",
    "3 / cannot read s\n",
    "3 / cannot read s\n",
    "3 / cannot read a.c\n",
    "3 / cannot read a.c\n",
    "3 / cannot read a.c\n",
];

// Whether an exec of the filter whose call of this number fails tells this.
fn is_not_executed(alloc: Global, fail: u64, want: &str) -> bool {
    let texts = [("m", rows::MAP), ("s", ""), ("a.c", FILTER)];
    let words = ["exec", "m", "s", "1000", "a.c"];
    match store(alloc, &texts, "o", 0, fail) {
        Ok(mut store) => is(executed(alloc, &words, 1_000, &mut store, 0), want),
        Err(_) => false,
    }
}

#[test]
fn tells_which_file_was_not_executed(rt: HostRuntime) {
    for (k, want) in NOT_EXECUTED.iter().enumerate() {
        assert!(rt;
            is_not_executed(rt.alloc(), k as u64 + 1, *want),
            "behind call {k}"
        );
    }
}
