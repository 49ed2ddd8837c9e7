//! A list of files, and which of them is read.
ghost use Rattle.std.specs.Prelude.{◌≡◌, ◌≤◌, None, IfOk, true, false, MatchOption, slice_get, option_map, is_some};
ghost use Rattle.std.specs.Prelude.{min, length, take, drop, ◌-◌};
ghost use Rattle.std.specs.FinMap.{get};
ghost use Rattle.ec_io.specs.Disk.{content};
ghost use Rattle.ec_io.specs.MemFiles.{files_of, told_files, IsFound, Names, name_of, bytes_of};

use ec_space::{Name, NoMemory, Seq};
use std::alloc::Global;

/// A file of a store in memory.
#[derive(Debug, Drop)]
pub struct MemFile {
    pub name: Name,
    pub bytes: Seq<u8>,
}

/// Which file is read: one of the list, or the one that was created.
#[derive(Clone, Copy)]
pub enum Source {
    Given(usize),
    Made,
}

/// The first file of a name in a list.
pub fn find(files: &[MemFile], name: &[u8]) -> Option<Source>
    ensures { MatchOption result (get (files_of files.now) name.now ≡ None) (IsFound files.now name.now) }
{
    for (i, file) in files.iter().enumerate() {
        if name == file.name.as_slice() {
            return Some(Source::Given(i));
        }
    }
    None
}

/// The file of a name among those of the list and, where it stands, the one that was created.
pub fn source_of(files: &[MemFile], made: &MemFile, stands: bool, name: &[u8]) -> Option<Source>
    requires { stands ≡ false → get (files_of files.now) made.now.name.items ≡ None }
    ensures { MatchOption result (get (told_files files.now made.now stands) name.now ≡ None)
        (Names files.now made.now stands name.now) }
{
    if !stands {
        return find(files, name);
    }
    if name == made.name.as_slice() {
        return Some(Source::Made);
    }
    find(files, name)
}

/// The name of a file.
pub fn source_name<'a>(files: &'a [MemFile], made: &'a MemFile, source: Source) -> Option<&'a Name>
    ensures { option_map (λ s. s.now.items) result ≡ name_of files.now made.now source }
{
    match source {
        Source::Made => Some(&made.name),
        Source::Given(i) => match files.get(i) {
            Some(file) => Some(&file.name),
            None => None,
        },
    }
}

/// The bytes of a file.
pub fn source_bytes<'a>(
    files: &'a [MemFile],
    made: &'a MemFile,
    source: Source,
) -> Option<&'a Seq<u8>>
    ensures { option_map (λ s. s.now.items) result ≡ bytes_of files.now made.now source }
{
    match source {
        Source::Made => Some(&made.bytes),
        Source::Given(i) => match files.get(i) {
            Some(file) => Some(&file.bytes),
            None => None,
        },
    }
}

/// Whether a list has a file of this name.
pub fn is_given(files: &[MemFile], name: &[u8]) -> bool
    ensures { result ≡ is_some (get (files_of files.now) name.now) }
{
    find(files, name).is_some()
}

/// The bytes of the named file of a list, none where there is no such file, with room for `room` bytes once it is
/// empty.
pub fn copied(
    alloc: Global,
    files: &[MemFile],
    name: &[u8],
    room: usize,
) -> Result<Seq<u8>, NoMemory>
    ensures bytes { IfOk result (λ s. s.items ≡ content (files_of files.now) name.now) }
    ensures room { IfOk result (λ s. room ≤ s.spare) }
{
    let mut bytes = Seq::new(alloc);
    if let Some(Source::Given(i)) = find(files, name)
        && let Some(file) = files.get(i)
    {
        bytes.extend_from_slice(file.bytes.as_slice())?;
    }
    bytes.reserve(room)?;
    Ok(bytes)
}

/// Puts the bytes from `at` on at the buffer's front, as many as fit, and tells their number.
pub fn put_next(buf: &mut [u8], bytes: &[u8], at: usize) -> usize
    ensures most { result ≡ min (length buf.new) (length bytes.now - at) }
    ensures bytes { take result buf.new ≡ take result (drop at bytes.now) }
{
    let start = at.min(bytes.len());
    let rest = &bytes[start..];
    let n = rest.len().min(buf.len());
    buf[..n].copy_from_slice(&rest[..n]);
    n
}
