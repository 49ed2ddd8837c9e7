//! The command `build`.
ghost use Rattle.std.specs.Prelude.{◌≡◌, ◌≤◌, ◌<◌, ℕ, List, IfOk, IfErr, OnOk, IsErrOf, All, true, false, length};
ghost use Rattle.ec_io.specs.Causes.{Rose};
ghost use Rattle.ec_io.specs.Views.{store_view};
ghost use Rattle.ec_commands.specs.Shown.{KeepsAll, Told};
ghost use Rattle.ec_commands.specs.Sources.{texts};
ghost use Rattle.ec_commands.specs.Words.{is_build as is_build_row, IsBuild, out_name, words_from};
ghost use Rattle.ec_commands.specs.declared.stop.Limit.TheVariants.{Sources};
ghost use Rattle.ec_commands.specs.declared.stop.CommandError.TheVariants.{Usage as UsageStop, TooMany as TooManyStop};
ghost use Rattle.ec_commands_compile.specs.Inputs.{AreInputs, build_inputs, StopsReadingBuild};
ghost use Rattle.ec_build.specs.Builds.{IsBuilt};
ghost use Rattle.ec_build.specs.Accepted.{IsAccepted};
ghost use Rattle.ec_commands_compile.specs.Builds.{IsBuiltOf, Builds, StopsBuilding, BuildStops, Accepts, FitsText, RefusesBuild};
ghost use Rattle.ec_commands_compile.specs.Stops.{status_of, IsNamed};
ghost use Rattle.ec_commands_compile.specs.declared.stop.CompileStop.TheVariants.{Command};

use crate::laws::builds_have_one_text;
use crate::stop::CompileStop;
use ec_build::{Built, discard};
use ec_commands::{CommandError, Limit, is_build, read, read_sources, word_at, write_file};
use ec_io::Store;
use ec_space::Seq;
use std::alloc::Global;

/// The texts of the map and of the sources.
#[derive(Drop)]
pub struct Inputs {
    pub map: Seq<u8>,
    pub sources: Seq<Seq<u8>>,
}

/// Reads the map and the sources, which the words name from the one at `first` on.
fn read_inputs<S: Store>(
    alloc: Global,
    words: &Vec<String>,
    first: usize,
    store: &mut S,
) -> Result<Inputs, CommandError>
    requires map { 1 < length words.now.items }
    requires first { first ≤ length words.now.items }
    ensures files { KeepsAll (S.disk store.old) (S.disk store.new) }
    ensures found { IfOk result (λ r. Told (AreInputs words.now.items first r.map.items (texts r.sources.items))
        (S.disk store.old)) }
    ensures short { IfOk result (λ r. (length r.map.items ≤ 16384)
        × All (λ text. length text ≤ 65536) (texts r.sources.items)) }
    ensures many { IfOk result (λ r. length r.sources.items ≡ words_from words.now.items first) }
    ensures stopped { IfErr result (StopsReadingBuild words.now.items first
        (store_view (S.disk store.old) (S.read_faults store.old) (S.write_faults store.old) (S.received store.old) (S.missed store.old))
        (store_view (S.disk store.new) (S.read_faults store.new) (S.write_faults store.new) (S.received store.new) (S.missed store.new))) }
    ensures later { S.read_faults store.old ≤ S.read_faults store.new }
    ensures write_faults { S.write_faults store.new ≡ S.write_faults store.old }
    ensures calm { (made : List ℕ) (room : ℕ) → S.calm store.old (build_inputs words.now.items first) made room
        → (S.read_faults store.new ≡ S.read_faults store.old)
        × S.calm store.new (build_inputs words.now.items first) made room }
{
    let map = match read(alloc, store, words, 1, Limit::MapBytes) {
        Ok(map) => map,
        Err(stop) => return Err(stop),
    };
    match read_sources(alloc, store, words, first) {
        Ok(sources) => Ok(Inputs { map, sources }),
        Err(stop) => Err(stop),
    }
}

/// Builds what was read.
pub fn compile(alloc: Global, inputs: &Inputs) -> Result<Built, CompileStop>
    requires some { 1 ≤ length inputs.now.sources.items }
    requires few { length inputs.now.sources.items ≤ 16 }
    requires short { All (λ text. length text ≤ 65536) (texts inputs.now.sources.items) }
    requires short_map { length inputs.now.map.items ≤ 16384 }
    ensures built { IfOk result (IsBuilt (texts inputs.now.sources.items) inputs.now.map.items) }
    ensures stopped { IfErr result (RefusesBuild (texts inputs.now.sources.items) inputs.now.map.items) }
    ensures complete { IsAccepted (texts inputs.now.sources.items) inputs.now.map.items
        → IfErr result (λ stop. status_of stop ≡ 11) }
{
    match ec_build::build(alloc, &inputs.sources, &inputs.map) {
        Ok(built) => Ok(built),
        Err(stop) => Err(CompileStop::Build(stop)),
    }
}

/// Reads the map and the sources, which the words name from the one at `first` on, and builds them.
pub fn read_and_build<S: Store>(
    alloc: Global,
    words: &Vec<String>,
    first: usize,
    store: &mut S,
) -> Result<Built, CompileStop>
    requires map { 1 < length words.now.items }
    requires some { first < length words.now.items }
    requires few { words_from words.now.items first ≤ 16 }
    ensures files { KeepsAll (S.disk store.old) (S.disk store.new) }
    ensures found { IfOk result (IsBuiltOf words.now.items first (S.disk store.old)) }
    ensures stopped { IfErr result (StopsBuilding words.now.items first
        (store_view (S.disk store.old) (S.read_faults store.old) (S.write_faults store.old) (S.received store.old) (S.missed store.old))
        (store_view (S.disk store.new) (S.read_faults store.new) (S.write_faults store.new) (S.received store.new) (S.missed store.new))) }
    ensures named { IfErr result (IsNamed words.now.items) }
    ensures complete { Accepts words.now.items first (S.disk store.old)
        → ¬ (Rose (S.read_faults store.old) (S.read_faults store.new))
        → IfErr result (λ stop. status_of stop ≡ 11) }
    ensures later { S.read_faults store.old ≤ S.read_faults store.new }
    ensures write_faults { S.write_faults store.new ≡ S.write_faults store.old }
    ensures calm { (made : List ℕ) (room : ℕ) → S.calm store.old (build_inputs words.now.items first) made room
        → (S.read_faults store.new ≡ S.read_faults store.old)
        × S.calm store.new (build_inputs words.now.items first) made room }
{
    let inputs = match read_inputs(alloc, words, first, store) {
        Ok(inputs) => inputs,
        Err(stop) => return Err(CompileStop::Command(stop)),
    };
    compile(alloc, &inputs)
}

/// Builds at most 16 sources.
fn build_few<S: Store>(alloc: Global, words: &Vec<String>, store: &mut S) -> Result<(), CompileStop>
    requires { IsBuild words.now.items }
    ensures built { OnOk result (Builds words.now.items (S.disk store.old) (S.disk store.new)) }
    ensures stopped { IfErr result (BuildStops words.now.items
        (store_view (S.disk store.old) (S.read_faults store.old) (S.write_faults store.old) (S.received store.old) (S.missed store.old))
        (store_view (S.disk store.new) (S.read_faults store.new) (S.write_faults store.new) (S.received store.new) (S.missed store.new))) }
    ensures named { IfErr result (IsNamed words.now.items) }
    ensures complete { Accepts words.now.items 3 (S.disk store.old)
        → ¬ (Rose (S.read_faults store.old) (S.read_faults store.new))
        → ¬ (Rose (S.write_faults store.old) (S.write_faults store.new))
        → IfErr result (λ stop. status_of stop ≡ 11) }
    ensures later { (S.read_faults store.old ≤ S.read_faults store.new)
        × (S.write_faults store.old ≤ S.write_faults store.new) }
    ensures calm { (room : ℕ) → S.calm store.old (build_inputs words.now.items 3) (out_name words.now.items) room
        → FitsText words.now.items (S.disk store.old) room
        → (S.read_faults store.new ≡ S.read_faults store.old) × (S.write_faults store.new ≡ S.write_faults store.old) }
{
    let built = match read_and_build(alloc, words, 3, store) {
        Ok(built) => built,
        Err(stop) => return Err(stop),
    };
    builds_have_one_text();
    let written = write_file(store, word_at(words, 2), &built.located.image);
    discard(built);
    match written {
        Ok(()) => Ok(()),
        Err(_) => Err(CompileStop::Command(CommandError::CannotWrite)),
    }
}

/// Builds the sources that the words name, and writes the HEX text of their image to OUT.
pub fn build<S: Store>(alloc: Global, words: &Vec<String>, store: &mut S) -> Result<(), CompileStop>
    ensures usage { is_build_row words.now.items ≡ false
        → IsErrOf result (Command UsageStop) × (store.new ≡ store.old) }
    ensures sources { is_build_row words.now.items ≡ true → 16 < words_from words.now.items 3
        → IsErrOf result (Command (TooManyStop Sources)) }
    ensures built { OnOk result (Builds words.now.items (S.disk store.old) (S.disk store.new)) }
    ensures stopped { IfErr result (BuildStops words.now.items
        (store_view (S.disk store.old) (S.read_faults store.old) (S.write_faults store.old) (S.received store.old) (S.missed store.old))
        (store_view (S.disk store.new) (S.read_faults store.new) (S.write_faults store.new) (S.received store.new) (S.missed store.new))) }
    ensures named { IfErr result (IsNamed words.now.items) }
    ensures complete { IsBuild words.now.items → Accepts words.now.items 3 (S.disk store.old)
        → ¬ (Rose (S.read_faults store.old) (S.read_faults store.new))
        → ¬ (Rose (S.write_faults store.old) (S.write_faults store.new))
        → IfErr result (λ stop. status_of stop ≡ 11) }
    ensures later { (S.read_faults store.old ≤ S.read_faults store.new)
        × (S.write_faults store.old ≤ S.write_faults store.new) }
    ensures calm { (room : ℕ) → S.calm store.old (build_inputs words.now.items 3) (out_name words.now.items) room
        → FitsText words.now.items (S.disk store.old) room
        → (S.read_faults store.new ≡ S.read_faults store.old) × (S.write_faults store.new ≡ S.write_faults store.old) }
{
    if !is_build(words) {
        return Err(CompileStop::Command(CommandError::Usage));
    }
    if words.len() > 19 {
        return Err(CompileStop::Command(CommandError::TooMany(Limit::Sources)));
    }
    build_few(alloc, words, store)
}
