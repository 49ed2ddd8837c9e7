//! Reading the files that the words name.
ghost use Rattle.std.specs.Prelude.{◌≡◌, ◌≤◌, ◌<◌, ℕ, List, IfOk, IfErr, Contains, length};
ghost use Rattle.ec_io.specs.Views.{store_view};
ghost use Rattle.ec_commands.specs.Shown.{KeepsAll, Reads, StopsReading};
ghost use Rattle.ec_commands.specs.Words.{word};

use crate::stop::{CommandError, Limit};
use crate::words::word_at;
use ec_io::{ReadStop, Store, read_file};
use ec_space::Seq;
use std::alloc::Global;

/// Reads the file that the word at `i` names, within a limit of its bytes.
pub fn read<S: Store>(
    alloc: Global,
    store: &mut S,
    words: &Vec<String>,
    i: usize,
    limit: Limit,
) -> Result<Seq<u8>, CommandError>
    requires { i < length words.now.items }
    ensures files { KeepsAll (S.disk store.old) (S.disk store.new) }
    ensures found { IfOk result (λ seq. Reads words.now.items i limit
        (store_view (S.disk store.old) (S.read_faults store.old) (S.write_faults store.old) (S.received store.old) (S.missed store.old))
        (store_view (S.disk store.new) (S.read_faults store.new) (S.write_faults store.new)
        (S.received store.new) (S.missed store.new)) seq.items) }
    ensures stopped { IfErr result (StopsReading words.now.items i limit
        (store_view (S.disk store.old) (S.read_faults store.old) (S.write_faults store.old) (S.received store.old) (S.missed store.old))
        (store_view (S.disk store.new) (S.read_faults store.new) (S.write_faults store.new) (S.received store.new) (S.missed store.new))) }
    ensures later { S.read_faults store.old ≤ S.read_faults store.new }
    ensures write_faults { S.write_faults store.new ≡ S.write_faults store.old }
    ensures writing { S.writing store.new ≡ S.writing store.old }
    ensures calm { (names : List (List ℕ)) (made : List ℕ) (room : ℕ) → S.calm store.old names made room
        → Contains names (word words.now.items i)
        → (S.read_faults store.new ≡ S.read_faults store.old) × S.calm store.new names made room }
{
    match read_file(alloc, store, word_at(words, i), limit.most()) {
        Ok(bytes) => Ok(bytes),
        Err(ReadStop::NoMemory) => Err(CommandError::NoMemory),
        Err(ReadStop::ReadFault) => Err(CommandError::CannotRead(i)),
        Err(ReadStop::TooLong(_)) => Err(CommandError::TooMany(limit)),
    }
}
