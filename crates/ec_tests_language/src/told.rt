//! Commands over memory: what is printed, the status and the line on `err`.
use ec_commands::{Command, CommandError, command_of, run, word_at};
use ec_commands_compile::{build, conclude, exec};
use ec_emu::{Ask, Hook, Hooked, Rule};
use ec_io::{MemFile, MemSink, MemStore};
use ec_space::{NoMemory, Seq};
use std::alloc::{AllocError, Global};

/// The byte that was written to the port last.
#[derive(Drop)]
pub struct Last;

impl Rule for Last {
    ghost use Rattle.std.specs.Prelude.{◌==◌};

    ghost allows = { λ _ ask byte. byte == ask.last };

    fn allows(&self, ask: Ask, byte: u8) -> bool {
        byte == ask.last
    }
}

/// What comes of a command: the status, what is printed, and the line, as `4 in 25/ cannot write`.
pub type Told = Result<String, AllocError>;

/// Whether this is told.
pub fn is(told: Told, want: &str) -> bool {
    match told {
        Ok(text) => text.as_str() == want,
        Err(_) => false,
    }
}

fn seq(alloc: Global, text: &str) -> Result<Seq<u8>, NoMemory> {
    let mut seq = Seq::new(alloc);
    seq.extend_from_slice(text.as_bytes())?;
    Ok(seq)
}

fn words(alloc: Global, texts: &[&str]) -> Result<Vec<String>, AllocError> {
    let mut words = Vec::new(alloc);
    for text in texts {
        words.push(String::from_str(alloc, text)?)?;
    }
    Ok(words)
}

fn file(alloc: Global, name: &str, text: &str) -> Result<MemFile, NoMemory> {
    let name = seq(alloc, name)?;
    let bytes = seq(alloc, text)?;
    Ok(MemFile { name, bytes })
}

fn files(alloc: Global, texts: &[(&str, &str)]) -> Result<Seq<MemFile>, NoMemory> {
    let mut files = Seq::new(alloc);
    for &(name, text) in texts {
        files.push(file(alloc, name, text)?)?;
    }
    Ok(files)
}

fn failing(alloc: Global, call: u64) -> Result<Seq<u64>, NoMemory> {
    let mut failing = Seq::new(alloc);
    failing.push(call)?;
    Ok(failing)
}

/// A store with these files, which creates the file `made` of so many bytes at most, and whose call of the number `fail`
/// fails.
pub fn store(
    alloc: Global,
    texts: &[(&str, &str)],
    made: &str,
    room: u32,
    fail: u64,
) -> Result<MemStore, NoMemory> {
    let (made, failing) = (seq(alloc, made)?, failing(alloc, fail)?);
    MemStore::new(alloc, files(alloc, texts)?, made, room, failing)
}

/// A sink that takes so many bytes.
pub fn sink(alloc: Global, room: u32) -> Result<MemSink, AllocError> {
    match MemSink::new(alloc, room, Seq::new(alloc)) {
        Ok(sink) => Ok(sink),
        Err(_) => Err(AllocError),
    }
}

// A sink whose call of the number `fail` fails.
fn failing_sink(alloc: Global, fail: u64) -> Result<MemSink, AllocError> {
    let failing = match failing(alloc, fail) {
        Ok(failing) => failing,
        Err(_) => return Err(AllocError),
    };
    match MemSink::new(alloc, 1_000, failing) {
        Ok(sink) => Ok(sink),
        Err(_) => Err(AllocError),
    }
}

/// The status of a build.
fn built(alloc: Global, words: &Vec<String>, store: &mut MemStore, err: &mut MemSink) -> u8 {
    let answer = build(alloc, words, store);
    conclude(err, words, 3, answer)
}

/// The status of a run of an image.
fn ran(
    alloc: Global,
    words: &Vec<String>,
    store: &mut MemStore,
    out: &mut MemSink,
    err: &mut MemSink,
) -> u8 {
    let mut hooks = Hooked {
        hook: Hook::new(|ask: Ask| ask.last, Last),
    };
    let answer = match command_of(words) {
        Command::Run { steps, fill } => run(alloc, words, steps, fill, store, out, &mut hooks),
        _ => Err(CommandError::Usage),
    };
    ec_commands::conclude(err, words, answer)
}

fn in_words(alloc: Global, status: u8, out: &MemSink, err: &MemSink) -> Told {
    let printed = str::from_utf8(out.text().as_slice());
    let line = str::from_utf8(err.text().as_slice());
    match (printed, line) {
        (Ok(printed), Ok(line)) => format!(in alloc; "{status} {printed}/ {line}"),
        _ => Err(AllocError),
    }
}

fn told(
    alloc: Global,
    words: &Vec<String>,
    store: &mut MemStore,
    out: &mut MemSink,
    err: &mut MemSink,
) -> Told {
    let status = if !words.is_empty() && word_at(words, 0) == "run" {
        ran(alloc, words, store, out, err)
    } else {
        built(alloc, words, store, err)
    };
    in_words(alloc, status, out, err)
}

// The status of an exec of so many steps; none of fewer words than an exec has.
fn exec_status(
    alloc: Global,
    words: &Vec<String>,
    steps: u32,
    store: &mut MemStore,
    out: &mut MemSink,
    err: &mut MemSink,
) -> Option<u8> {
    if words.len() < 5 {
        return None;
    }
    let mut hooks = Hooked {
        hook: Hook::new(|ask: Ask| ask.last, Last),
    };
    let answer = exec(alloc, words, steps, store, out, &mut hooks);
    Some(conclude(err, words, 4, answer))
}

/// What comes of an exec of so many steps over a store, where the call of this number on `out` fails.
pub fn executed(
    alloc: Global,
    texts: &[&str],
    steps: u32,
    store: &mut MemStore,
    fail: u64,
) -> Told {
    let words = words(alloc, texts)?;
    let mut out = failing_sink(alloc, fail)?;
    let mut err = sink(alloc, 1_000)?;
    match exec_status(alloc, &words, steps, store, &mut out, &mut err) {
        Some(status) => in_words(alloc, status, &out, &err),
        None => Err(AllocError),
    }
}

/// What comes of a command over a store, where `out` takes so many bytes.
pub fn done(alloc: Global, texts: &[&str], store: &mut MemStore, room: u32) -> Told {
    let words = words(alloc, texts)?;
    let mut out = sink(alloc, room)?;
    let mut err = sink(alloc, 1_000)?;
    told(alloc, &words, store, &mut out, &mut err)
}
