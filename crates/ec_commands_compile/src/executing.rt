//! The command `exec`.
ghost use Rattle.std.specs.Prelude.{◌≡◌, ◌≤◌, ◌<◌, ◌↔◌, ℕ, List, None, IfOk, IfErr, OnOk, IsErrOf, All, length};
ghost use Rattle.ec_io.specs.Causes.{Rose};
ghost use Rattle.ec_io.specs.Views.{store_view, sink_call};
ghost use Rattle.ec_avr.specs.Machine.{IsReset, reset_with};
ghost use Rattle.ec_emu.specs.declared.ask.Ask.{Ask};
ghost use Rattle.ec_commands.specs.Shown.{KeepsAll, Told};
ghost use Rattle.ec_commands.specs.Sources.{texts};
ghost use Rattle.ec_commands.specs.Words.{words_from};
ghost use Rattle.ec_commands.specs.declared.stop.Limit.TheVariants.{Sources};
ghost use Rattle.ec_commands.specs.declared.stop.CommandError.TheVariants.{TooMany as TooManyStop};
ghost use Rattle.ec_commands.specs.Answers.{IsLeft};
ghost use Rattle.ec_commands_compile.specs.Inputs.{AreExecInputs, exec_inputs, StopsReadingExec};
ghost use Rattle.ec_commands_compile.specs.Execs.{IsExecRead, IsExecLoaded, Executed, FitsExec, StopsLoadingExec, ExecStops, AcceptsExec};
ghost use Rattle.ec_commands_compile.specs.Stops.{status_of, IsNamed};
ghost use Rattle.ec_commands_compile.specs.declared.stop.CompileStop.TheVariants.{Command};

use crate::building::{Inputs, compile};
use crate::stop::CompileStop;
use ec_avr::Machine;
use ec_build::{Built, discard};
use ec_commands::{CommandError, Limit, Loaded, load_script, print_run, read, read_sources};
use ec_emu::{Ports, Script};
use ec_io::{Sink, Store};
use ec_space::Seq;
use std::alloc::Global;

/// The byte that the registers and the memory of the machine hold at first.
pub(crate) const FILL: u8 = 165;

/// The texts of the map, of the sources and of the script.
#[derive(Drop)]
struct ExecInputs {
    inputs: Inputs,
    script: Seq<u8>,
}

/// Reads the map, the script and the sources, which the words name from the one at `first` on.
fn read_inputs<S: Store>(
    alloc: Global,
    words: &Vec<String>,
    first: usize,
    store: &mut S,
) -> Result<ExecInputs, CommandError>
    requires script { 2 < length words.now.items }
    requires first { first ≤ length words.now.items }
    ensures files { KeepsAll (S.disk store.old) (S.disk store.new) }
    ensures found { IfOk result (λ r. Told (AreExecInputs words.now.items first r.inputs.map.items r.script.items
        (texts r.inputs.sources.items)) (S.disk store.old)) }
    ensures short { IfOk result (λ r. (length r.inputs.map.items ≤ 16384) × (length r.script.items ≤ 65536)
        × All (λ text. length text ≤ 65536) (texts r.inputs.sources.items)) }
    ensures many { IfOk result (λ r. length r.inputs.sources.items ≡ words_from words.now.items first) }
    ensures stopped { IfErr result (StopsReadingExec words.now.items first
        (store_view (S.disk store.old) (S.read_faults store.old) (S.write_faults store.old) (S.received store.old) (S.missed store.old))
        (store_view (S.disk store.new) (S.read_faults store.new) (S.write_faults store.new) (S.received store.new) (S.missed store.new))) }
    ensures later { S.read_faults store.old ≤ S.read_faults store.new }
    ensures write_faults { S.write_faults store.new ≡ S.write_faults store.old }
    ensures calm { (made : List ℕ) (room : ℕ) → S.calm store.old (exec_inputs words.now.items first) made room
        → S.read_faults store.new ≡ S.read_faults store.old }
{
    let map = match read(alloc, store, words, 1, Limit::MapBytes) {
        Ok(map) => map,
        Err(stop) => return Err(stop),
    };
    let script = match read(alloc, store, words, 2, Limit::ScriptBytes) {
        Ok(script) => script,
        Err(stop) => return Err(stop),
    };
    match read_sources(alloc, store, words, first) {
        Ok(sources) => Ok(ExecInputs {
            inputs: Inputs { map, sources },
            script,
        }),
        Err(stop) => Err(stop),
    }
}

/// What was built of the sources that an exec or a watch names, and its script.
#[derive(Drop)]
pub struct ExecRead {
    pub built: Built,
    pub script: Script,
}

/// Reads the map, the script and the sources, which the words name from the one at `first` on, and builds the sources.
pub fn read_exec<S: Store>(
    alloc: Global,
    words: &Vec<String>,
    first: usize,
    store: &mut S,
) -> Result<ExecRead, CompileStop>
    requires script { 2 < length words.now.items }
    requires some { first < length words.now.items }
    requires few { words_from words.now.items first ≤ 16 }
    ensures files { KeepsAll (S.disk store.old) (S.disk store.new) }
    ensures found { IfOk result (λ r. IsExecRead words.now.items first (S.disk store.old) r.built r.script.lines.items) }
    ensures stopped { IfErr result (StopsLoadingExec words.now.items first
        (store_view (S.disk store.old) (S.read_faults store.old) (S.write_faults store.old) (S.received store.old) (S.missed store.old))
        (store_view (S.disk store.new) (S.read_faults store.new) (S.write_faults store.new) (S.received store.new) (S.missed store.new))) }
    ensures named { IfErr result (IsNamed words.now.items) }
    ensures complete { AcceptsExec words.now.items first (S.disk store.old)
        → ¬ (Rose (S.read_faults store.old) (S.read_faults store.new))
        → IfErr result (λ stop. status_of stop ≡ 11) }
    ensures later { S.read_faults store.old ≤ S.read_faults store.new }
    ensures write_faults { S.write_faults store.new ≡ S.write_faults store.old }
    ensures calm { (made : List ℕ) (room : ℕ) → S.calm store.old (exec_inputs words.now.items first) made room
        → S.read_faults store.new ≡ S.read_faults store.old }
{
    let inputs = match read_inputs(alloc, words, first, store) {
        Ok(inputs) => inputs,
        Err(stop) => return Err(CompileStop::Command(stop)),
    };
    let built = match compile(alloc, &inputs.inputs) {
        Ok(built) => built,
        Err(stop) => return Err(stop),
    };
    match load_script(alloc, built.map.core, &inputs.script) {
        Ok(script) => Ok(ExecRead { built, script }),
        Err(stop) => {
            discard(built);
            Err(CompileStop::Command(stop))
        }
    }
}

/// The machine with the image that was built, whose registers and memory hold 165.
pub fn booted(alloc: Global, built: &Built) -> Result<Machine, CompileStop>
    ensures reset { IfOk result (λ machine. machine
        ≡ reset_with built.now.located.image.core built.now.located.image.bytes.items 165) }
    ensures is_reset { IfOk result
        (IsReset built.now.located.image.core built.now.located.image.bytes.items) }
    ensures stopped { IfErr result (λ stop. stop ≡ Command CommandError.NoMemory) }
{
    match Machine::boot(alloc, &built.located.image, FILL) {
        Ok(machine) => Ok(machine),
        Err(_) => Err(CompileStop::Command(CommandError::NoMemory)),
    }
}

/// Reads what `exec MAP SCRIPT STEPS SRC...` names, builds the sources, and loads what was built.
fn load<S: Store>(alloc: Global, words: &Vec<String>, store: &mut S) -> Result<Loaded, CompileStop>
    requires five { 5 ≤ length words.now.items }
    requires few { words_from words.now.items 4 ≤ 16 }
    ensures files { KeepsAll (S.disk store.old) (S.disk store.new) }
    ensures found { IfOk result (λ r. IsExecLoaded words.now.items (S.disk store.old) r.machine r.script.lines.items) }
    ensures stopped { IfErr result (StopsLoadingExec words.now.items 4
        (store_view (S.disk store.old) (S.read_faults store.old) (S.write_faults store.old) (S.received store.old) (S.missed store.old))
        (store_view (S.disk store.new) (S.read_faults store.new) (S.write_faults store.new) (S.received store.new) (S.missed store.new))) }
    ensures named { IfErr result (IsNamed words.now.items) }
    ensures complete { AcceptsExec words.now.items 4 (S.disk store.old)
        → ¬ (Rose (S.read_faults store.old) (S.read_faults store.new))
        → IfErr result (λ stop. status_of stop ≡ 11) }
    ensures later { S.read_faults store.old ≤ S.read_faults store.new }
    ensures write_faults { S.write_faults store.new ≡ S.write_faults store.old }
    ensures calm { (made : List ℕ) (room : ℕ) → S.calm store.old (exec_inputs words.now.items 4) made room
        → S.read_faults store.new ≡ S.read_faults store.old }
{
    let ExecRead { built, script } = match read_exec(alloc, words, 4, store) {
        Ok(read) => read,
        Err(stop) => return Err(stop),
    };
    let machine = booted(alloc, &built);
    discard(built);
    match machine {
        Ok(machine) => Ok(Loaded { machine, script }),
        Err(stop) => Err(stop),
    }
}

/// Runs the image of at most 16 sources.
fn exec_few<S: Store, O: Sink, H: Ports>(
    alloc: Global,
    words: &Vec<String>,
    steps: u32,
    store: &mut S,
    out: &mut O,
    hooks: &mut H,
) -> Result<(), CompileStop>
    requires five { 5 ≤ length words.now.items }
    requires few { words_from words.now.items 4 ≤ 16 }
    requires asked { H.can_ask hooks.old }
    ensures files { KeepsAll (S.disk store.old) (S.disk store.new) }
    ensures ran { OnOk result (Executed words.now.items steps (H.gives hooks.old) (S.disk store.old)
        (sink_call (O.written out.old) (O.written out.new) (O.faults out.old) (O.faults out.new)) None) }
    ensures stopped { IfErr result (ExecStops words.now.items steps (H.gives hooks.old)
        (store_view (S.disk store.old) (S.read_faults store.old) (S.write_faults store.old) (S.received store.old) (S.missed store.old))
        (store_view (S.disk store.new) (S.read_faults store.new) (S.write_faults store.new) (S.received store.new) (S.missed store.new))
        (sink_call (O.written out.old) (O.written out.new) (O.faults out.old) (O.faults out.new))) }
    ensures named { IfErr result (IsNamed words.now.items) }
    ensures complete { AcceptsExec words.now.items 4 (S.disk store.old)
        → ¬ (Rose (S.read_faults store.old) (S.read_faults store.new))
        → ¬ (Rose (O.faults out.old) (O.faults out.new))
        → IfErr result (λ stop. IsLeft (status_of stop)) }
    ensures later { (S.read_faults store.old ≤ S.read_faults store.new) × (O.faults out.old ≤ O.faults out.new) }
    ensures write_faults { S.write_faults store.new ≡ S.write_faults store.old }
    ensures calm { (made : List ℕ) (room : ℕ) → S.calm store.old (exec_inputs words.now.items 4) made room
        → S.read_faults store.new ≡ S.read_faults store.old }
    ensures out_calm { (room : ℕ) → O.calm out.old room
        → FitsExec words.now.items steps (H.gives hooks.old) (S.disk store.old) room
        → O.faults out.new ≡ O.faults out.old }
    ensures rest { O.rest out.new ≡ O.rest out.old }
    ensures can { H.can_ask hooks.new }
    ensures stays { (ask : Ask) (byte : ℕ) → H.gives hooks.new ask byte ↔ H.gives hooks.old ask byte }
{
    let mut loaded = match load(alloc, words, store) {
        Ok(loaded) => loaded,
        Err(stop) => return Err(stop),
    };
    match print_run(&mut loaded, hooks, steps, out) {
        Ok(()) => Ok(()),
        Err(stop) => Err(CompileStop::Command(stop)),
    }
}

/// Builds the sources that the words name, runs the image with a script, and prints each access of a port and the
/// result.
pub fn exec<S: Store, O: Sink, H: Ports>(
    alloc: Global,
    words: &Vec<String>,
    steps: u32,
    store: &mut S,
    out: &mut O,
    hooks: &mut H,
) -> Result<(), CompileStop>
    requires five { 5 ≤ length words.now.items }
    requires asked { H.can_ask hooks.old }
    ensures sources { 16 < words_from words.now.items 4 → IsErrOf result (Command (TooManyStop Sources)) }
    ensures files { KeepsAll (S.disk store.old) (S.disk store.new) }
    ensures ran { OnOk result (Executed words.now.items steps (H.gives hooks.old) (S.disk store.old)
        (sink_call (O.written out.old) (O.written out.new) (O.faults out.old) (O.faults out.new)) None) }
    ensures stopped { IfErr result (ExecStops words.now.items steps (H.gives hooks.old)
        (store_view (S.disk store.old) (S.read_faults store.old) (S.write_faults store.old) (S.received store.old) (S.missed store.old))
        (store_view (S.disk store.new) (S.read_faults store.new) (S.write_faults store.new) (S.received store.new) (S.missed store.new))
        (sink_call (O.written out.old) (O.written out.new) (O.faults out.old) (O.faults out.new))) }
    ensures named { IfErr result (IsNamed words.now.items) }
    ensures complete { (words_from words.now.items 4 ≤ 16) → AcceptsExec words.now.items 4 (S.disk store.old)
        → ¬ (Rose (S.read_faults store.old) (S.read_faults store.new))
        → ¬ (Rose (O.faults out.old) (O.faults out.new))
        → IfErr result (λ stop. IsLeft (status_of stop)) }
    ensures later { (S.read_faults store.old ≤ S.read_faults store.new) × (O.faults out.old ≤ O.faults out.new) }
    ensures write_faults { S.write_faults store.new ≡ S.write_faults store.old }
    ensures calm { (made : List ℕ) (room : ℕ) → S.calm store.old (exec_inputs words.now.items 4) made room
        → S.read_faults store.new ≡ S.read_faults store.old }
    ensures out_calm { (room : ℕ) → O.calm out.old room
        → FitsExec words.now.items steps (H.gives hooks.old) (S.disk store.old) room
        → O.faults out.new ≡ O.faults out.old }
    ensures rest { O.rest out.new ≡ O.rest out.old }
    ensures can { H.can_ask hooks.new }
    ensures stays { (ask : Ask) (byte : ℕ) → H.gives hooks.new ask byte ↔ H.gives hooks.old ask byte }
{
    if words.len() > 20 {
        return Err(CompileStop::Command(CommandError::TooMany(Limit::Sources)));
    }
    exec_few(alloc, words, steps, store, out, hooks)
}
