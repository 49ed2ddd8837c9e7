//! A store in memory.
ghost use Rattle.std.specs.Prelude.{◌≡◌, ◌<◌, ◌≤◌, ◌-◌, ◌==◌, ◌&&◌, ◌||◌, ℕ, List, Some, None, IfOk, IfSome, OnOk};
ghost use Rattle.std.specs.Prelude.{is_err, is_none, is_some, not, true, min, length, nat_lt, bytes_eq, option_map};
ghost use Rattle.std.specs.Prelude.{Contains, MatchResult, IsSome};
ghost use Rattle.std.specs.Io.{ReadsAtMost};
ghost use Rattle.std.specs.FinMap.{get};
ghost use Rattle.ec_io.specs.Causes.{HasCause, Went};
ghost use Rattle.ec_io.specs.Disk.{content, known_name, input_name};
ghost use Rattle.ec_io.specs.Calls.{Opens, MissesOpened, Creates, Reads, MissesRead, Writes, Counts, IsTaken};
ghost use Rattle.ec_io.specs.InMemory.{input_of};
ghost use Rattle.ec_io.specs.KnownNames.{name_of};
ghost use Rattle.ec_io.specs.Memory.{IsCalmStore, IsCounted, fresh_store, is_due};
ghost use Rattle.ec_io.specs.MemFiles.{files_of};

use crate::known_name::{KnownName, known};
use crate::mem_file::{
    MemFile, Source, copied, is_given, put_next, source_bytes, source_name, source_of,
};
use crate::schedule::{Schedule, fault};
use crate::store::{Failed, Store};
use ec_space::{Name, NoMemory, Seq};
use std::alloc::Global;
use std::marker::Model;

/// Where the next read begins.
#[derive(Clone, Copy)]
pub struct Place {
    pub source: Source,
    pub at: usize,
}

/// The name of the file that is read, if one is.
fn name_read(files: &[MemFile], made: &MemFile, input: Option<Place>) -> Option<KnownName>
    ensures { option_map name_of result
        ≡ option_map (λ place. known_name place.0) (input_of files.now made.now input) }
{
    match input {
        Some(place) => match source_name(files, made, place.source) {
            Some(name) => Some(known(name.as_slice())),
            None => Some(known(b"")),
        },
        None => None,
    }
}

/// Files in memory. It creates one name alone, takes so many written bytes in all, and fails at the calls of a list.
#[derive(Drop)]
pub struct MemStore {
    files: Seq<MemFile>,
    made: MemFile,
    stands: bool,
    writing: bool,
    input: Option<Place>,
    room: u32,
    missed: Option<KnownName>,
    received: u64,
    read_faults: u64,
    write_faults: u64,
    schedule: Schedule,
}

impl Model for MemStore {
    ghost use Rattle.ec_io.specs.Memory.{Stored, stored_code};

    ghost Value = { Stored };

    ghost coded = { stored_code };

    ghost use Rattle.ec_io.specs.InMemory.{stored_of, IsKept};

    ghost view = { stored_of };

    ghost invariant = { IsKept };
}

impl MemStore {
    /// A store with these files, of which the first counts where two have one name. `made` is the one name that
    /// `create` accepts, and `room` the number of bytes that all writes take together, over every `create`. Calls are
    /// numbered from 1, and those of the list `fail` fail. It takes all its memory here.
    pub fn new(
        alloc: Global,
        files: Seq<MemFile>,
        made: Name,
        room: u32,
        fail: Seq<u64>,
    ) -> Result<MemStore, NoMemory>
        ensures { IfOk result (λ s. s ≡ fresh_store (files_of files.items) made.items room fail.items) }
    {
        let stands = is_given(files.as_slice(), made.as_slice());
        let bytes = copied(alloc, files.as_slice(), made.as_slice(), room as usize)?;
        Ok(MemStore {
            files,
            made: MemFile { name: made, bytes },
            stands,
            writing: false,
            input: None,
            room,
            missed: None,
            received: 0,
            read_faults: 0,
            write_faults: 0,
            schedule: Schedule::new(fail),
        })
    }

    /// The bytes of a file, or None where there is no such file.
    pub fn file(&self, name: &str) -> Option<&Seq<u8>>
        ensures { option_map (λ s. s.now.items) result ≡ get self.now.disk.files name.now }
    {
        match source_of(
            self.files.as_slice(),
            &self.made,
            self.stands,
            name.as_bytes(),
        ) {
            Some(source) => source_bytes(self.files.as_slice(), &self.made, source),
            None => None,
        }
    }
}

impl Store for MemStore {
    ghost disk = { λ s. Some s.disk };

    ghost reading = { λ s. input_name s.disk };

    ghost writing = { λ s. is_some s.disk.output };

    ghost read_faults = { λ s. s.read_faults };

    ghost write_faults = { λ s. s.write_faults };

    ghost received = { λ s. s.received };

    ghost missed = { λ s. s.missed };

    ghost calm = { IsCalmStore };

    ghost below = { λ s names made room calm. calm.counts };

    ghost use Rattle.ec_io.specs.Untold.{flags_told};

    ghost flagged = { λ s told h. flags_told h };

    /// Fails exactly where its number stands in the list or the file is absent.
    fn open_file(&mut self, name: &str) -> Result<(), Failed>
        ensures fails { is_err result ≡
            (is_due self.old.fail self.old.calls || is_none (get self.old.disk.files name.now)) }
        ensures counted { IsCounted self.old self.new }
        ensures room { self.new.room ≡ self.old.room }
        ensures disk { Opens name.now (Some self.old.disk) (Some self.new.disk) result }
        ensures reading { MatchResult result (λ _. input_name self.new.disk ≡ Some (known_name name.now))
            (λ _. input_name self.new.disk ≡ input_name self.old.disk) }
        ensures missed { MissesOpened name.now self.old.missed self.new.missed result }
        ensures writing { is_some self.new.disk.output ≡ is_some self.old.disk.output }
        ensures cause { HasCause self.old.read_faults self.new.read_faults result }
        ensures other_faults { self.new.write_faults ≡ self.old.write_faults }
        ensures received { self.new.received ≡ self.old.received }
        ensures calm { (names : List (List ℕ)) (made : List ℕ) (room : ℕ) → IsCalmStore self.old names made room
            → Contains names name.now
            → Went self.old.read_faults self.new.read_faults result × IsCalmStore self.new names made room }
    {
        if self.schedule.next() {
            self.missed = Some(known(name.as_bytes()));
            return Err(fault(&mut self.read_faults));
        }
        match source_of(
            self.files.as_slice(),
            &self.made,
            self.stands,
            name.as_bytes(),
        ) {
            Some(source) => {
                self.input = Some(Place { source, at: 0 });
                Ok(())
            }
            None => {
                self.missed = Some(known(name.as_bytes()));
                Err(fault(&mut self.read_faults))
            }
        }
    }

    /// Fails exactly where its number stands in the list or no file is opened for reading. Else it gives as many of the
    /// next bytes as fit the buffer.
    fn read(&mut self, buf: &mut [u8]) -> Result<usize, Failed>
        ensures fails { is_err result ≡ (is_due self.old.fail self.old.calls || is_none self.old.disk.input) }
        ensures most { IfOk result (λ n.
            IfSome self.old.disk.input (λ place. n
            ≡ min (length buf.new) (length (content self.old.disk.files place.0) - place.1))) }
        ensures counted { IsCounted self.old self.new }
        ensures room { self.new.room ≡ self.old.room }
        ensures bound { ReadsAtMost result buf.new }
        ensures disk { Reads (Some self.old.disk) (Some self.new.disk) result buf.new }
        ensures opened { OnOk result (IsSome (input_name self.old.disk)) }
        ensures reading { input_name self.new.disk ≡ input_name self.old.disk }
        ensures missed { MissesRead (input_name self.old.disk) self.old.missed self.new.missed result }
        ensures writing { is_some self.new.disk.output ≡ is_some self.old.disk.output }
        ensures cause { HasCause self.old.read_faults self.new.read_faults result }
        ensures other_faults { self.new.write_faults ≡ self.old.write_faults }
        ensures received { Counts self.old.received self.new.received result }
        ensures calm { (names : List (List ℕ)) (made : List ℕ) (room : ℕ) → IsCalmStore self.old names made room
            → IsSome (input_name self.old.disk)
            → Went self.old.read_faults self.new.read_faults result × IsCalmStore self.new names made room }
    {
        if self.schedule.next() {
            self.missed = name_read(self.files.as_slice(), &self.made, self.input);
            return Err(fault(&mut self.read_faults));
        }
        let Some(place) = self.input else {
            self.missed = None;
            return Err(fault(&mut self.read_faults));
        };
        let n = match source_bytes(self.files.as_slice(), &self.made, place.source) {
            Some(bytes) => put_next(buf, bytes.as_slice(), place.at),
            None => unreachable!(),
        };
        self.input = Some(Place {
            source: place.source,
            at: place.at + n,
        });
        self.received = self.received.saturating_add(n as u64);
        Ok(n)
    }

    /// Fails exactly where its number stands in the list or the name is another than the one that the store creates.
    fn create(&mut self, name: &str) -> Result<(), Failed>
        ensures fails { is_err result ≡ (is_due self.old.fail self.old.calls || not (bytes_eq name.now self.old.made)) }
        ensures counted { IsCounted self.old self.new }
        ensures room { self.new.room ≡ self.old.room }
        ensures disk { Creates name.now (Some self.old.disk) (Some self.new.disk) result }
        ensures writing { MatchResult result (λ _. is_some self.new.disk.output ≡ true)
            (λ _. is_some self.new.disk.output ≡ is_some self.old.disk.output) }
        ensures reading { input_name self.new.disk ≡ input_name self.old.disk }
        ensures missed { self.new.missed ≡ self.old.missed }
        ensures cause { HasCause self.old.write_faults self.new.write_faults result }
        ensures other_faults { self.new.read_faults ≡ self.old.read_faults }
        ensures received { self.new.received ≡ self.old.received }
        ensures calm { (names : List (List ℕ)) (room : ℕ) → IsCalmStore self.old names name.now room
            → Went self.old.write_faults self.new.write_faults result × IsCalmStore self.new names name.now room }
    {
        if self.schedule.next() {
            return Err(fault(&mut self.write_faults));
        }
        if name.as_bytes() != self.made.name.as_slice() {
            return Err(fault(&mut self.write_faults));
        }
        self.made.bytes.clear();
        self.stands = true;
        self.writing = true;
        Ok(())
    }

    /// Fails exactly where its number stands in the list, no file is created, or the bytes are some and no room is
    /// left. Else it takes as many of the bytes as there is room for.
    fn write(&mut self, bytes: &[u8]) -> Result<usize, Failed>
        ensures fails { is_err result ≡
            (is_due self.old.fail self.old.calls
            || (is_none self.old.disk.output || (self.old.room == 0 && nat_lt 0 (length bytes.now)))) }
        ensures most { IfOk result (λ n. n ≡ min (length bytes.now) self.old.room) }
        ensures counted { IsCounted self.old self.new }
        ensures room { MatchResult result (λ n. self.new.room ≡ self.old.room - n)
            (λ _. self.new.room ≡ self.old.room) }
        ensures taken { IfOk result (λ n. IsTaken n bytes.now) }
        ensures disk { Writes (Some self.old.disk) (Some self.new.disk) result bytes.now }
        ensures opened { OnOk result (is_some self.old.disk.output ≡ true) }
        ensures reading { input_name self.new.disk ≡ input_name self.old.disk }
        ensures missed { self.new.missed ≡ self.old.missed }
        ensures writing { is_some self.new.disk.output ≡ is_some self.old.disk.output }
        ensures cause { HasCause self.old.write_faults self.new.write_faults result }
        ensures other_faults { self.new.read_faults ≡ self.old.read_faults }
        ensures received { self.new.received ≡ self.old.received }
        ensures calm { (names : List (List ℕ)) (made : List ℕ) (room : ℕ) → IsCalmStore self.old names made room
            → is_some self.old.disk.output ≡ true
            → length bytes.now ≤ room
            → Went self.old.write_faults self.new.write_faults result
            × IfOk result (λ n. IsCalmStore self.new names made (room - n)) }
    {
        if self.schedule.next() {
            return Err(fault(&mut self.write_faults));
        }
        if !self.writing {
            return Err(fault(&mut self.write_faults));
        }
        if self.room == 0 && !bytes.is_empty() {
            return Err(fault(&mut self.write_faults));
        }
        let n = bytes.len().min(self.room as usize);
        match self.made.bytes.extend_from_slice(&bytes[..n]) {
            Ok(()) => {
                self.room -= n as u32;
                Ok(n)
            }
            Err(NoMemory) => unreachable!(),
        }
    }
}
