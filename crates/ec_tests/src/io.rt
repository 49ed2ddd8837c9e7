//! What no clause says: that memory suffices, and each call once over memory.
use ec_io::{
    Failed, MemFile, MemSink, MemStore, Quiet, ReadStop, Sink, Store, Written, read_file, write_all,
};
use ec_space::{NoMemory, Seq};
use std::alloc::Global;

fn bytes(alloc: Global, bytes: &[u8]) -> Result<Seq<u8>, NoMemory> {
    let mut seq = Seq::new(alloc);
    seq.extend_from_slice(bytes)?;
    Ok(seq)
}

fn listed(alloc: Global, number: u64) -> Result<Seq<u64>, NoMemory> {
    let mut list = Seq::new(alloc);
    list.push(number)?;
    Ok(list)
}

// The file `a` of five bytes.
fn files(alloc: Global) -> Result<Seq<MemFile>, NoMemory> {
    let (name, bytes) = (bytes(alloc, b"a")?, bytes(alloc, b"hello")?);
    let mut files = Seq::new(alloc);
    files.push(MemFile { name, bytes })?;
    Ok(files)
}

// A store with that file, which creates `b`.
fn store(alloc: Global, room: u32, fail: u64) -> Result<MemStore, NoMemory> {
    let (made, failing) = (bytes(alloc, b"b")?, listed(alloc, fail)?);
    MemStore::new(alloc, files(alloc)?, made, room, failing)
}

// The name of a file, the limit for its bytes, and what is read.
type ReadRow = (&'static str, u32, Result<&'static [u8], ReadStop>);

static READ: [ReadRow; 3] = [
    ("a", 5, Ok(b"hello")),
    ("a", 4, Err(ReadStop::TooLong(4))),
    ("c", 5, Err(ReadStop::ReadFault)),
];

// What is read where the second call fails.
static NOT_READ: [ReadRow; 1] = [("a", 5, Err(ReadStop::ReadFault))];

fn is_read(
    alloc: Global,
    files: &mut MemStore,
    name: &str,
    limit: u32,
    want: Result<&[u8], ReadStop>,
) -> bool {
    match (read_file(alloc, files, name, limit), want) {
        (Ok(read), Ok(bytes)) => read.as_slice() == bytes,
        (Err(told), Err(stop)) => told == stop,
        _ => false,
    }
}

fn are_read(alloc: Global, files: &mut MemStore, rows: &[ReadRow]) -> bool {
    for &(name, limit, want) in rows {
        if !is_read(alloc, files, name, limit, want) {
            return false;
        }
    }
    true
}

// Whether the rows are read from a store whose call of this number fails.
fn reads(alloc: Global, fail: u64, rows: &[ReadRow]) -> Result<bool, NoMemory> {
    let mut files = store(alloc, 0, fail)?;
    Ok(are_read(alloc, &mut files, rows))
}

fn keeps_what_it_has(files: &mut MemStore) -> bool {
    matches!(files.write(b"x"), Err(Failed))
        && matches!(files.create("a"), Err(Failed))
        && files.file("b").is_none()
}

fn takes_four_bytes(files: &mut MemStore) -> bool {
    files.create("b").is_ok()
        && matches!(files.write(b"abc"), Ok(3))
        && matches!(files.write(b"def"), Ok(1))
        && matches!(files.write(b"ef"), Err(Failed))
}

fn has_four_bytes(files: &MemStore) -> bool {
    match files.file("b") {
        Some(made) => made.as_slice() == b"abcd".as_slice(),
        None => false,
    }
}

fn gives_them_back(files: &mut MemStore) -> bool {
    let mut buf = [0; 3];
    files.open_file("b").is_ok()
        && matches!(files.read(&mut buf), Ok(3))
        && buf == *b"abc"
        && matches!(files.read(&mut buf), Ok(1))
        && matches!(files.read(&mut buf), Ok(0))
}

fn keeps_files(alloc: Global) -> Result<bool, NoMemory> {
    let mut files = store(alloc, 4, 100)?;
    Ok(
        keeps_what_it_has(&mut files)
            && takes_four_bytes(&mut files)
            && has_four_bytes(&files)
            && gives_them_back(&mut files),
    )
}

#[test]
fn stores(rt: HostRuntime) {
    assert!(rt; matches!(reads(rt.alloc(), 100, &READ), Ok(true)));
    assert!(rt; matches!(reads(rt.alloc(), 2, &NOT_READ), Ok(true)));
    assert!(rt; matches!(keeps_files(rt.alloc()), Ok(true)));
}

fn takes_seven_bytes(sink: &mut MemSink) -> bool {
    write_all(sink, b"abc") == Ok(())
        && write_all(sink, b"def") == Err(Written(0))
        && write_all(sink, b"ghijk") == Err(Written(4))
        && sink.text().as_slice() == b"abcghij".as_slice()
}

// Whether a sink takes seven bytes, where its second call fails.
fn writes(alloc: Global) -> Result<bool, NoMemory> {
    let failing = listed(alloc, 2)?;
    let mut sink = MemSink::new(alloc, 7, failing)?;
    Ok(takes_seven_bytes(&mut sink))
}

#[test]
fn sinks(rt: HostRuntime) {
    assert!(rt; matches!(writes(rt.alloc()), Ok(true)));
    assert!(rt; write_all(&mut Quiet, b"anything") == Ok(()));
}
