//! A store of named files.
ghost use Rattle.std.specs.Prelude.{◌≡◌, ◌≤◌, ◌<◌, ◌-◌, ℕ, List, Bool, true, Option, Some, IsSome, IfOk, OnOk, MatchResult};
ghost use Rattle.std.specs.Prelude.{Contains, length};
ghost use Rattle.std.specs.Io.{ReadsAtMost};
ghost use Rattle.ec_io.specs.Causes.{HasCause, Went, greatest};
ghost use Rattle.ec_io.specs.Disk.{Disk, known_name};
ghost use Rattle.ec_io.specs.Calls.{Opens, MissesOpened, Creates, Reads, MissesRead, Writes, Counts, IsTaken, IsFlagged};

use thiserror::Error;

/// A call on a store or a sink failed, and the count of its faults rose.
#[derive(Clone, Copy, Debug, PartialEq, Eq, Error)]
#[error("failed")]
pub struct Failed;

/// Named files, of which one is read and one is written at a time.
///
/// A call that fails changes no file. It fails only where a count of faults rose in that call or stands at its greatest
/// value: the one count by opening and reading, the other by creating and writing, and each by these alone.
pub trait Store {
    /// The files and the places of reading and writing, where the store tells them.
    ghost disk: { Self → Option Disk };

    /// The name of the file that is opened for reading, up to its first 4,096 bytes; none where none is.
    ghost reading: { Self → Option (List ℕ) };

    /// Whether a file is opened for writing.
    ghost writing: { Self → Bool };

    /// How often opening or reading failed. It never falls, and stands still at its greatest value.
    ghost read_faults: { Self → ℕ };

    /// The name of the file whose opening or reading failed last, up to its first 4,096 bytes; none where none failed, or
    /// a read failed since no file was opened.
    ghost missed: { Self → Option (List ℕ) };

    /// How often creating or writing failed. It never falls, and stands still at its greatest value.
    ghost write_faults: { Self → ℕ };

    /// How many bytes the reads gave. It never falls, and stands still at its greatest value.
    ghost received: { Self → ℕ };

    /// No call fails that opens one of these names, reads or writes with a file opened for it, or creates this file, as
    /// long as the written pieces have at most so many bytes in all.
    ghost calm: { Self → List (List ℕ) → List ℕ → ℕ → Type 0 };

    /// Makes the named file the one that is read, from its start. An absent file is a fault.
    fn open_file(&mut self, name: &str) -> Result<(), Failed>
        ensures disk { Opens name.now (disk self.old) (disk self.new) result }
        ensures reading { MatchResult result (λ _. reading self.new ≡ Some (known_name name.now))
            (λ _. reading self.new ≡ reading self.old) }
        ensures missed { MissesOpened name.now (missed self.old) (missed self.new) result }
        ensures writing { writing self.new ≡ writing self.old }
        ensures cause { HasCause (read_faults self.old) (read_faults self.new) result }
        ensures other_faults { write_faults self.new ≡ write_faults self.old }
        ensures received { received self.new ≡ received self.old }
        ensures calm { (names : List (List ℕ)) (made : List ℕ) (room : ℕ) → calm self.old names made room
            → Contains names name.now
            → Went (read_faults self.old) (read_faults self.new) result × calm self.new names made room };

    /// Puts the next bytes at the buffer's front, and tells their number. For a buffer that is not empty, `Ok(0)` is
    /// the end of the file. With no file opened for reading it is a fault.
    fn read(&mut self, buf: &mut [u8]) -> Result<usize, Failed>
        ensures bound { ReadsAtMost result buf.new }
        ensures disk { Reads (disk self.old) (disk self.new) result buf.new }
        ensures opened { OnOk result (IsSome (reading self.old)) }
        ensures reading { reading self.new ≡ reading self.old }
        ensures missed { MissesRead (reading self.old) (missed self.old) (missed self.new) result }
        ensures writing { writing self.new ≡ writing self.old }
        ensures cause { HasCause (read_faults self.old) (read_faults self.new) result }
        ensures other_faults { write_faults self.new ≡ write_faults self.old }
        ensures received { Counts (received self.old) (received self.new) result }
        ensures calm { (names : List (List ℕ)) (made : List ℕ) (room : ℕ) → calm self.old names made room
            → IsSome (reading self.old)
            → Went (read_faults self.old) (read_faults self.new) result × calm self.new names made room };

    /// Makes the named file empty and the one that is written.
    fn create(&mut self, name: &str) -> Result<(), Failed>
        ensures disk { Creates name.now (disk self.old) (disk self.new) result }
        ensures writing { MatchResult result (λ _. writing self.new ≡ true) (λ _. writing self.new ≡ writing self.old) }
        ensures reading { reading self.new ≡ reading self.old }
        ensures missed { missed self.new ≡ missed self.old }
        ensures cause { HasCause (write_faults self.old) (write_faults self.new) result }
        ensures other_faults { read_faults self.new ≡ read_faults self.old }
        ensures received { received self.new ≡ received self.old }
        ensures calm { (names : List (List ℕ)) (room : ℕ) → calm self.old names name.now room
            → Went (write_faults self.old) (write_faults self.new) result × calm self.new names name.now room };

    /// Appends a prefix of the bytes to the file that is written, and tells its length, which is at least 1 where there
    /// are bytes. With no file opened for writing it is a fault.
    fn write(&mut self, bytes: &[u8]) -> Result<usize, Failed>
        ensures taken { IfOk result (λ n. IsTaken n bytes.now) }
        ensures disk { Writes (disk self.old) (disk self.new) result bytes.now }
        ensures opened { OnOk result (writing self.old ≡ true) }
        ensures reading { reading self.new ≡ reading self.old }
        ensures missed { missed self.new ≡ missed self.old }
        ensures writing { writing self.new ≡ writing self.old }
        ensures cause { HasCause (write_faults self.old) (write_faults self.new) result }
        ensures other_faults { read_faults self.new ≡ read_faults self.old }
        ensures received { received self.new ≡ received self.old }
        ensures calm { (names : List (List ℕ)) (made : List ℕ) (room : ℕ) → calm self.old names made room
            → writing self.old ≡ true
            → length bytes.now ≤ room
            → Went (write_faults self.old) (write_faults self.new) result
            × IfOk result (λ n. calm self.new names made (room - n)) };

    /// A calm store's counts of faults are below their greatest value.
    ghost below: { (s : Self) (names : List (List ℕ)) (made : List ℕ) (room : ℕ) → calm s names made room
        → (read_faults s < greatest) × (write_faults s < greatest) };

    /// The name and the flag say what a store that tells its places tells.
    ghost flagged: { (s : Self) (told : Disk) → disk s ≡ Some told → IsFlagged told (reading s) (writing s) };
}
