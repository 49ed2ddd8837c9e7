//! What a watched run needs.
ghost use Rattle.std.specs.Prelude.{◌≡◌, ◌≤◌, ◌<◌, ℕ, List, IfOk, IfErr, length};
ghost use Rattle.ec_io.specs.Causes.{Rose};
ghost use Rattle.ec_io.specs.Views.{store_view};
ghost use Rattle.ec_avr.specs.Machine.{IsReset, reset_with};
ghost use Rattle.ec_core.specs.Plain.{plain_program};
ghost use Rattle.ec_watch_points.specs.Numbers.{IsPointOf};
ghost use Rattle.ec_watch.specs.Watches.{IsPlaced};
ghost use Rattle.ec_commands.specs.Shown.{KeepsAll};
ghost use Rattle.ec_commands.specs.Words.{words_from};
ghost use Rattle.ec_commands_compile.specs.Execs.{AcceptsExec};
ghost use Rattle.ec_commands_compile.specs.Inputs.{exec_inputs};
ghost use Rattle.ec_commands_compile.specs.Stops.{status_of, IsNamed};
ghost use Rattle.ec_commands_watch.specs.Watches.{number_name, StopsNumber, IsWatchLoaded, StopsLoadingWatch, IsUnwatched};

use ec_avr::Machine;
use ec_build::{Built, discard as discard_built};
use ec_commands::{CommandError, word_at};
use ec_commands_compile::{CompileStop, ExecRead, booted, read_exec};
use ec_emu::Script;
use ec_io::Store;
use ec_space::{NoMemory, Seq};
use ec_watch::{WatchPoint, point};
use std::alloc::Global;

/// All that a watched run takes memory for.
#[derive(Drop)]
pub(crate) struct Loaded {
    pub(crate) built: Built,
    pub(crate) point: WatchPoint,
    pub(crate) machine: Machine,
    pub(crate) script: Script,
}

/// Takes what was loaded and is needed no more.
pub(crate) fn discard(loaded: Loaded) {
    let Loaded { built, .. } = loaded;
    discard_built(built);
}

/// A copy of the name of the object.
fn name_of(alloc: Global, words: &Vec<String>) -> Result<Seq<u8>, NoMemory>
    requires { 5 < length words.now.items }
    ensures { IfOk result (λ name. name.items ≡ number_name words.now.items) }
{
    let mut name = Seq::new(alloc);
    name.extend_from_slice(word_at(words, 4).as_bytes())?;
    Ok(name)
}

/// The point of the number that the words name.
fn number(
    alloc: Global,
    words: &Vec<String>,
    leaf: u64,
    built: &Built,
) -> Result<WatchPoint, CompileStop>
    requires named { 5 < length words.now.items }
    requires placed { IsPlaced built.now }
    ensures small { IfOk result (λ _. leaf ≤ 4294967295) }
    ensures point { IfOk result (IsPointOf (plain_program built.now.program) built.now.located.places.items
        (number_name words.now.items) leaf) }
    ensures stopped { IfErr result (StopsNumber words.now.items leaf (plain_program built.now.program)) }
{
    if leaf > u64::from(u32::MAX) {
        return Err(CompileStop::Command(CommandError::NoNumber));
    }
    let Ok(name) = name_of(alloc, words) else {
        return Err(CompileStop::Command(CommandError::NoMemory));
    };
    match point(alloc, built, &name, leaf as u32) {
        Ok(Some(point)) => Ok(point),
        Ok(None) => Err(CompileStop::Command(CommandError::NoNumber)),
        Err(_) => Err(CompileStop::Command(CommandError::NoMemory)),
    }
}

/// The point of the number that the words name, and the machine with the image that was built.
fn prepare(
    alloc: Global,
    words: &Vec<String>,
    leaf: u64,
    built: &Built,
) -> Result<(WatchPoint, Machine), CompileStop>
    requires named { 5 < length words.now.items }
    requires placed { IsPlaced built.now }
    ensures small { IfOk result (λ _. leaf ≤ 4294967295) }
    ensures point { IfOk result (λ r. IsPointOf (plain_program built.now.program) built.now.located.places.items
        (number_name words.now.items) leaf r.0) }
    ensures reset { IfOk result (λ r. r.1
        ≡ reset_with built.now.located.image.core built.now.located.image.bytes.items 165) }
    ensures is_reset { IfOk result (λ r.
        IsReset built.now.located.image.core built.now.located.image.bytes.items r.1) }
    ensures stopped { IfErr result (StopsNumber words.now.items leaf (plain_program built.now.program)) }
{
    let point = match number(alloc, words, leaf, built) {
        Ok(point) => point,
        Err(stop) => return Err(stop),
    };
    match booted(alloc, built) {
        Ok(machine) => Ok((point, machine)),
        Err(stop) => Err(stop),
    }
}

/// Reads what `watch MAP SCRIPT STEPS NAME LEAF OP VALUE SRC...` names, builds the sources, and loads what was built.
pub(crate) fn load<S: Store>(
    alloc: Global,
    words: &Vec<String>,
    leaf: u64,
    store: &mut S,
) -> Result<Loaded, CompileStop>
    requires nine { 9 ≤ length words.now.items }
    requires few { words_from words.now.items 8 ≤ 16 }
    ensures files { KeepsAll (S.disk store.old) (S.disk store.new) }
    ensures found { IfOk result (λ r. IsWatchLoaded words.now.items leaf (S.disk store.old) r.built r.point r.machine
        r.script.lines.items) }
    ensures stopped { IfErr result (StopsLoadingWatch words.now.items leaf
        (store_view (S.disk store.old) (S.read_faults store.old) (S.write_faults store.old) (S.received store.old) (S.missed store.old))
        (store_view (S.disk store.new) (S.read_faults store.new) (S.write_faults store.new) (S.received store.new) (S.missed store.new))) }
    ensures named { IfErr result (IsNamed words.now.items) }
    ensures complete { AcceptsExec words.now.items 8 (S.disk store.old)
        → ¬ (Rose (S.read_faults store.old) (S.read_faults store.new))
        → IfErr result (λ stop. IsUnwatched (status_of stop)) }
    ensures later { S.read_faults store.old ≤ S.read_faults store.new }
    ensures write_faults { S.write_faults store.new ≡ S.write_faults store.old }
    ensures calm { (made : List ℕ) (room : ℕ) → S.calm store.old (exec_inputs words.now.items 8) made room
        → S.read_faults store.new ≡ S.read_faults store.old }
{
    let ExecRead { built, script } = match read_exec(alloc, words, 8, store) {
        Ok(read) => read,
        Err(stop) => return Err(stop),
    };
    match prepare(alloc, words, leaf, &built) {
        Ok((point, machine)) => Ok(Loaded {
            built,
            point,
            machine,
            script,
        }),
        Err(stop) => {
            discard_built(built);
            Err(stop)
        }
    }
}
