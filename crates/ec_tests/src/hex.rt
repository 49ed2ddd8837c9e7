//! Texts that are read and written, byte by byte.
ghost use Rattle.std.specs.Prelude.{None};

use ec_avr::Image;
use ec_hex::{HexStop, read_hex, write_hex};
use ec_io::{Failed, Sink, Written};
use ec_space::{Core, NoMemory, Seq};
use std::alloc::{AllocError, Global};

fn read(alloc: Global, core: Core, text: &[u8]) -> Result<Image, HexStop> {
    let mut bytes = Seq::new(alloc);
    bytes.extend_from_slice(text)?;
    if bytes.len() < 1_000_000 {
        read_hex(alloc, core, &bytes)
    } else {
        Err(HexStop::NoMemory)
    }
}

fn has_cell(image: &Image, at: usize, byte: u8, written: bool) -> bool {
    image.bytes.get(at).copied() == Some(byte) && image.written.get(at).copied() == Some(written)
}

// Forms of one image, whose first bytes are 98 95. The data lines are those of avr-objcopy for these bytes.
static FORMS: [&[u8]; 7] = [
    b":020000009895D1\n:00000001FF\n",
    b":020000009895d1\r\n\r\n:00000001ff\r\n",
    b"\n\n:020000009895D1\n:00000001FF",
    b":0400000500000000F7\n:0400000300003800C1\n:020000009895D1\n:00000001FF\n",
    b":020000020000FC\n:020000009895D1\n:020000040000FA\n:00000001FF\n",
    b":020000021000EC\n:020000020000FC\n:00F0000010\n:020000009895D1\n:00000001FF\n",
    // Nothing after the end record is looked at.
    b":020000009895D1\n:00000001FF\nzz\n:0100000000FF\n:0100000000FF\n",
];

// Whether a text is an image of those two bytes alone.
fn is_form(alloc: Global, text: &[u8]) -> bool {
    match read(alloc, Core::Small, text) {
        Ok(image) => {
            has_cell(&image, 0, 0x98, true)
                && has_cell(&image, 1, 0x95, true)
                && has_cell(&image, 2, 0xFF, false)
        }
        Err(_) => false,
    }
}

// Texts that are no image, and why.
static FAULTS: [(&[u8], HexStop); 12] = [
    (b":020000009895D2\n:00000001FF\n", HexStop::BadSum(1)),
    (b":020000009895D1\n", HexStop::NoEnd),
    (b"", HexStop::NoEnd),
    (b":01800000007F\n:00000001FF\n", HexStop::OutOfFlash(1)),
    (
        b":0100000000FF\n:0100000000FF\n:00000001FF\n",
        HexStop::Twice(2),
    ),
    (b"\r\n\n:020000009895D1F\n", HexStop::BadRecord(3)),
    (b":00000001FF\r", HexStop::BadRecord(1)),
    (b":00000006FB\n", HexStop::BadRecord(1)),
    // A wrong sum past the flash, and bytes that are both past the flash and there twice.
    (b":01800000007E\n:00000001FF\n", HexStop::BadSum(1)),
    (
        b":017FFF000081\n:027FFF00000080\n:00000001FF\n",
        HexStop::OutOfFlash(2),
    ),
    // The last byte of the address space, one past the last, and a wrapped segment address.
    (
        b":02000004FFFFFC\n:02FFFE00000001\n:00000001FF\n",
        HexStop::OutOfFlash(2),
    ),
    (
        b":02000004FFFFFC\n:02FFFF00000000\n:00000001FF\n",
        HexStop::BadRecord(2),
    ),
];

fn stops(alloc: Global, core: Core, text: &[u8], stop: HexStop) -> bool {
    match read(alloc, core, text) {
        Ok(_) => false,
        Err(told) => told == stop,
    }
}

#[test]
fn reads_texts(rt: HostRuntime) {
    for (k, text) in FORMS.iter().enumerate() {
        assert!(rt; is_form(rt.alloc(), *text), "form {k}");
    }
    for &(text, stop) in &FAULTS {
        assert!(rt; stops(rt.alloc(), Core::Small, text, stop), "{stop:?}");
    }
}

// Keeps each piece that it takes, with a bar behind it. A piece has at most `most` bytes, and after `limit` pieces
// each write fails.
#[derive(Drop)]
struct Pieces {
    text: Vec<u8>,
    most: usize,
    limit: usize,
    faults: u64,
}

fn keep(text: &mut Vec<u8>, piece: &[u8]) -> Result<(), AllocError> {
    text.extend_from_slice(piece)?;
    Ok(text.push(b'|')?)
}

impl Sink for Pieces {
    ghost written = { λ _. None };

    ghost faults = { λ s. s.faults };

    ghost calm = { λ _ _. ⊥ };

    ghost below = { λ _ _ h. absurd h };

    fn write(&mut self, bytes: &[u8]) -> Result<usize, Failed> {
        let n = bytes.len().min(self.most);
        if n > 0 && self.limit > 0 && keep(&mut self.text, &bytes[..n]).is_ok() {
            self.limit -= 1;
            return Ok(n);
        }
        self.faults = self.faults.saturating_add(1);
        Err(Failed)
    }
}

fn put(image: &mut Image, at: usize, bytes: &[u8]) {
    for (i, byte) in bytes.iter().enumerate() {
        let place = at.wrapping_add(i);
        if place < image.core.flash_size() as usize {
            image.write(place, *byte);
        }
    }
}

fn sink(alloc: Global, most: usize, limit: usize) -> Pieces {
    Pieces {
        text: Vec::new(alloc),
        most,
        limit,
        faults: 0,
    }
}

// Runs of bytes by their first addresses, and the lines that are written for them. The data lines are those of
// avr-objcopy for the same bytes.
static WRITTEN: [(&[(usize, &[u8])], &[u8]); 4] = [
    (&[], b":00000001FF\n|"),
    (
        &[(0, &[0x80, 0xE0, 0x90, 0xE0, 0x98, 0x95])],
        b":0600000080E090E09895FD\n|:00000001FF\n|",
    ),
    (
        &[(
            0x10,
            &[0, 1, 2, 3, 4, 5, 6, 7, 8, 9, 10, 11, 12, 13, 14, 15, 16],
        )],
        b":10001000000102030405060708090A0B0C0D0E0F68\n|:0100200010CF\n|:00000001FF\n|",
    ),
    (
        &[(0x20, &[1, 2]), (0x23, &[3]), (0x7FFF, &[0])],
        b":020020000102DB\n|:0100230003D9\n|:017FFF000081\n|:00000001FF\n|",
    ),
];

fn image(alloc: Global, core: Core, runs: &[(usize, &[u8])]) -> Result<Image, NoMemory> {
    let mut image = Image::new(alloc, core)?;
    for &(at, bytes) in runs {
        put(&mut image, at, bytes);
    }
    Ok(image)
}

fn is_written(alloc: Global, image: &Image, lines: &[u8]) -> bool {
    let mut sink = sink(alloc, 100, 100);
    write_hex(&mut sink, image) == Ok(()) && sink.text.as_slice() == lines
}

fn writes(alloc: Global, core: Core, runs: &[(usize, &[u8])], lines: &[u8]) -> bool {
    match image(alloc, core, runs) {
        Ok(image) => is_written(alloc, &image, lines),
        Err(_) => false,
    }
}

// How many bytes a sink takes at once, after how many pieces it fails, and what goes out of two lines of 16 and 12 bytes.
static SINKS: [(usize, usize, Result<(), Written>); 5] = [
    (100, 0, Err(Written(0))),
    (100, 1, Err(Written(16))),
    (10, 1, Err(Written(10))),
    (10, 3, Err(Written(26))),
    (10, 4, Ok(())),
];

fn go_out(alloc: Global, most: usize, limit: usize, want: Result<(), Written>) -> bool {
    match image(alloc, Core::Small, &[(0, &[0x98, 0x95])]) {
        Ok(image) => {
            let mut sink = sink(alloc, most, limit);
            write_hex(&mut sink, &image) == want
        }
        Err(_) => false,
    }
}

#[test]
fn writes_lines(rt: HostRuntime) {
    for &(runs, lines) in &WRITTEN {
        assert!(rt; writes(rt.alloc(), Core::Small, runs, lines), "{lines:?}");
    }
    for &(most, limit, want) in &SINKS {
        assert!(rt; go_out(rt.alloc(), most, limit, want), "{most} and {limit}");
    }
}

// A record ends at a multiple of 65,536, and one of type 04 stands before the first past it.
static WRITTEN_LARGE: [(&[(usize, &[u8])], &[u8]); 3] = [
    (
        &[(0xFFFF, &[1, 2])],
        b":01FFFF000100\n|:020000040001F9\n|:0100000002FD\n|:00000001FF\n|",
    ),
    (
        &[(0x1FFFF, &[3])],
        b":020000040001F9\n|:01FFFF0003FE\n|:00000001FF\n|",
    ),
    (
        &[(0, &[7]), (0x10000, &[8]), (0x10002, &[9])],
        b":0100000007F8\n|:020000040001F9\n|:0100000008F7\n|:0100020009F4\n|:00000001FF\n|",
    ),
];

// Whether the text of the first of these images is read as that image.
fn is_read_back(alloc: Global, text: &[u8]) -> bool {
    match read(alloc, Core::Large, text) {
        Ok(image) => {
            has_cell(&image, 0xFFFE, 0xFF, false)
                && has_cell(&image, 0xFFFF, 1, true)
                && has_cell(&image, 0x10000, 2, true)
                && has_cell(&image, 0x1FFFF, 0xFF, false)
        }
        Err(_) => false,
    }
}

#[test]
fn large_images(rt: HostRuntime) {
    for &(runs, lines) in &WRITTEN_LARGE {
        assert!(rt; writes(rt.alloc(), Core::Large, runs, lines), "{lines:?}");
    }
    let text = b":01FFFF000100\n:020000040001F9\n:0100000002FD\n:00000001FF\n";
    assert!(rt; is_read_back(rt.alloc(), text));
    assert!(rt; stops(rt.alloc(), Core::Small, text, HexStop::OutOfFlash(1)));

    // The last byte of the flash, and one past it.
    let past = b":020000040001F9\n:02FFFF000102FC\n";
    assert!(rt; stops(rt.alloc(), Core::Large, past, HexStop::BadRecord(2)));
    let over = b":020000040001F9\n:01FFFF0003FE\n:020000040002F8\n:0100000000FF\n:00000001FF\n";
    assert!(rt; stops(rt.alloc(), Core::Large, over, HexStop::OutOfFlash(4)));
}
