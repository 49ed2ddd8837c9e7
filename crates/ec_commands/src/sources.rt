//! Reading the sources that the words name.
ghost use Rattle.std.specs.Prelude.{◌≡◌, ◌≤◌, ◌<◌, ◌++◌, ◌∷◌, [], ℕ, List, IfOk, IfErr, OnOk, Contains, length, ⊤};
ghost use Rattle.ec_io.specs.Views.{store_view};
ghost use Rattle.ec_commands.specs.Shown.{KeepsAll, Reads, StopsReading};
ghost use Rattle.ec_commands.specs.Sources.{texts, ReadsSources, StopsReadingSources};
ghost use Rattle.ec_commands.specs.Words.{word, names_from};
ghost use Rattle.ec_commands.specs.declared.stop.Limit.TheVariants.{SourceBytes};

use crate::input::read;
use crate::stop::{CommandError, Limit};
use ec_io::Store;
use ec_space::Seq;
use std::alloc::Global;

/// Reads the source that the word at `i` names, behind those before it.
fn read_next<S: Store>(
    alloc: Global,
    store: &mut S,
    words: &Vec<String>,
    i: usize,
    sources: &mut Seq<Seq<u8>>,
) -> Result<(), CommandError>
    requires { i < length words.now.items }
    ensures files { KeepsAll (S.disk store.old) (S.disk store.new) }
    ensures found { OnOk result ((text : List ℕ) × ((texts sources.new.items ≡ texts sources.old.items ++ text ∷ [])
        × Reads words.now.items i SourceBytes
        (store_view (S.disk store.old) (S.read_faults store.old) (S.write_faults store.old) (S.received store.old) (S.missed store.old))
        (store_view (S.disk store.new) (S.read_faults store.new) (S.write_faults store.new) (S.received store.new) (S.missed store.new))
        text)) }
    ensures stopped { IfErr result (StopsReading words.now.items i SourceBytes
        (store_view (S.disk store.old) (S.read_faults store.old) (S.write_faults store.old) (S.received store.old) (S.missed store.old))
        (store_view (S.disk store.new) (S.read_faults store.new) (S.write_faults store.new) (S.received store.new) (S.missed store.new))) }
    ensures later { S.read_faults store.old ≤ S.read_faults store.new }
    ensures write_faults { S.write_faults store.new ≡ S.write_faults store.old }
    ensures writing { S.writing store.new ≡ S.writing store.old }
    ensures calm { (names : List (List ℕ)) (made : List ℕ) (room : ℕ) → S.calm store.old names made room
        → Contains names (word words.now.items i)
        → (S.read_faults store.new ≡ S.read_faults store.old) × S.calm store.new names made room }
{
    let source = match read(alloc, store, words, i, Limit::SourceBytes) {
        Ok(source) => source,
        Err(stop) => return Err(stop),
    };
    match sources.push(source) {
        Ok(()) => Ok(()),
        Err(_) => Err(CommandError::NoMemory),
    }
}

/// Reads the sources that the words from `first` on name, in order, each within its limit.
pub fn read_sources<S: Store>(
    alloc: Global,
    store: &mut S,
    words: &Vec<String>,
    first: usize,
) -> Result<Seq<Seq<u8>>, CommandError>
    requires { first ≤ length words.now.items }
    ensures files { KeepsAll (S.disk store.old) (S.disk store.new) }
    ensures found { IfOk result (λ seq. ReadsSources words.now.items first
        (store_view (S.disk store.old) (S.read_faults store.old) (S.write_faults store.old) (S.received store.old) (S.missed store.old))
        (texts seq.items)) }
    ensures stopped { IfErr result (StopsReadingSources words.now.items first (λ _. ⊤) 0
        (store_view (S.disk store.old) (S.read_faults store.old) (S.write_faults store.old) (S.received store.old) (S.missed store.old))
        (store_view (S.disk store.new) (S.read_faults store.new) (S.write_faults store.new) (S.received store.new) (S.missed store.new))) }
    ensures later { S.read_faults store.old ≤ S.read_faults store.new }
    ensures write_faults { S.write_faults store.new ≡ S.write_faults store.old }
    ensures writing { S.writing store.new ≡ S.writing store.old }
    ensures calm { (names : List (List ℕ)) (made : List ℕ) (room : ℕ) → S.calm store.old names made room
        → ((name : List ℕ) → Contains (names_from words.now.items first) name → Contains names name)
        → (S.read_faults store.new ≡ S.read_faults store.old) × S.calm store.new names made room }
{
    let mut sources = Seq::new(alloc);
    for i in first..words.len() {
        match read_next(alloc, store, words, i, &mut sources) {
            Ok(()) => {}
            Err(stop) => return Err(stop),
        }
    }
    Ok(sources)
}
