//! What is written for a line of the tool.
ghost use Rattle.std.specs.Prelude.{◌≡◌, ◌⊎◌, List, ℕ, Some, MatchResult, map, string_bytes};
ghost use Rattle.ec_io.specs.Written.{WritesAll};
ghost use Rattle.ec_where_lines.specs.Notices.{notice_of, texts_of};
ghost use Rattle.ec_where.specs.Told.{IsCause, IsExplanation, IsRecursionOf, IsTold, IsUnsaid};

use crate::explain::explain;
use crate::locate::NotFound;
use crate::position::first_line;
use crate::recursion::explain_recursion;
use ec_io::{Sink, Store, Written, write_all};
use ec_where_lines::{FileNames, notice, source_fault};
use std::alloc::Global;
use std::str;

/// Why a line is written as it came.
#[derive(Clone, Copy)]
pub enum Untold {
    NoMemory,
    /// It is no line of the tool.
    Unknown,
    /// The source that it names was not read, or has no such place.
    Absent,
}

/// Why a line was written as it came, where it was, and whether all was written.
pub struct Telling {
    pub untold: Option<Untold>,
    pub written: Result<(), Written>,
}

/// What is said of a line that names no place of a source.
fn noted(alloc: Global, names: &FileNames<'_>, line: &str) -> Result<Vec<u8>, Untold>
    ensures { MatchResult result (λ v. notice_of (texts_of names.now) line.now ≡ Some v.items)
        (λ why. IsUnsaid (texts_of names.now) line.now why) }
{
    match notice(alloc, names, line) {
        Ok(Some(text)) => Ok(text.into_bytes()),
        Ok(None) => Err(Untold::Unknown),
        Err(_) => Err(Untold::NoMemory),
    }
}

/// What is said of a line that names no place of a source, or where the function is defined that it tells of.
fn noted_or_defined<S: Store>(
    alloc: Global,
    store: &mut S,
    sources: &[String],
    names: &FileNames<'_>,
    line: &str,
) -> Result<Vec<u8>, Untold>
    ensures { MatchResult result
        (λ v. IsRecursionOf (S.disk store.old) (map string_bytes sources.now) line.now v.items
        ⊎ (notice_of (texts_of names.now) line.now ≡ Some v.items))
        (λ why. IsUnsaid (texts_of names.now) line.now why) }
{
    if let Some(name) = line.strip_prefix("recursion ") {
        if let Some(text) = explain_recursion(alloc, store, sources, name) {
            return Ok(text);
        }
    }
    noted(alloc, names, line)
}

/// What explains a line, without its LF.
fn explanation<S: Store>(
    alloc: Global,
    store: &mut S,
    sources: &[String],
    names: &FileNames<'_>,
    line: &[u8],
) -> Result<Vec<u8>, Untold>
    ensures { MatchResult result
        (λ v. IsExplanation (S.disk store.old) (map string_bytes sources.now) (texts_of names.now) line.now v.items)
        (λ why. IsCause (S.disk store.old) (S.read_faults store.old) (S.read_faults store.new) (texts_of names.now) line.now why) }
{
    let Ok(line) = str::from_utf8(line) else {
        return Err(Untold::Unknown);
    };
    let Some(fault) = source_fault(line) else {
        return noted_or_defined(alloc, store, sources, names, line);
    };
    match explain(alloc, store, &fault) {
        Ok(text) => Ok(text),
        Err(NotFound::NoMemory) => Err(Untold::NoMemory),
        Err(NotFound::NoSuchPlace) => Err(Untold::Absent),
    }
}

/// Writes what explains a line, which may end with an LF, or else the line as it came. The sources are those of the
/// tool's call, where a function is sought that a line tells of.
pub fn tell_line<S: Store, O: Sink>(
    alloc: Global,
    store: &mut S,
    out: &mut O,
    sources: &[String],
    names: &FileNames<'_>,
    line: &[u8],
) -> Telling
    ensures { (text : List ℕ) × IsTold (S.disk store.old) (S.read_faults store.old) (S.read_faults store.new)
        (map string_bytes sources.now) (texts_of names.now) line.now result.untold text
        × WritesAll (O.written out.old) (O.written out.new) result.written text }
{
    match explanation(alloc, store, sources, names, first_line(line)) {
        Ok(text) => Telling {
            untold: None,
            written: write_all(out, text.as_slice()),
        },
        Err(why) => Telling {
            untold: Some(why),
            written: write_all(out, line),
        },
    }
}
