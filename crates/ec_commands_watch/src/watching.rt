//! The command `watch`.
ghost use Rattle.std.specs.Prelude.{◌≡◌, ◌≤◌, ◌<◌, ◌↔◌, ℕ, List, None, IfErr, OnOk, IsErrOf, length};
ghost use Rattle.ec_io.specs.Causes.{Rose};
ghost use Rattle.ec_io.specs.Views.{store_view, sink_call};
ghost use Rattle.ec_avr.specs.declared.machine.Access.{Access};
ghost use Rattle.ec_avr.specs.Machine.{IsReset};
ghost use Rattle.ec_emu.specs.declared.ask.Ask.{Ask};
ghost use Rattle.ec_emu.specs.Emulation.{IsPrinted, SinkCalm, RunCause};
ghost use Rattle.ec_emu.specs.Lines.{port_lines};
ghost use Rattle.ec_emu.specs.Scripted.{IsScripted};
ghost use Rattle.ec_emu_watch.specs.Hits.{IsWatched, emulated};
ghost use Rattle.ec_emu_watch.specs.declared.run.WatchReport.{WatchReport};
ghost use Rattle.ec_commands.specs.Runs.{stop_of};
ghost use Rattle.ec_commands.specs.Shown.{KeepsAll};
ghost use Rattle.ec_commands.specs.Words.{words_from};
ghost use Rattle.ec_commands.specs.declared.stop.Limit.TheVariants.{Sources};
ghost use Rattle.ec_commands.specs.declared.stop.CommandError.TheVariants.{TooMany as TooManyStop};
ghost use Rattle.ec_commands_compile.specs.Execs.{AcceptsExec};
ghost use Rattle.ec_commands_compile.specs.Inputs.{exec_inputs};
ghost use Rattle.ec_commands_compile.specs.Stops.{status_of, IsNamed};
ghost use Rattle.ec_commands_compile.specs.declared.stop.CompileStop.TheVariants.{Command};
ghost use Rattle.ec_watch.specs.Watches.{IsPlaced, HasPoint};
ghost use Rattle.ec_commands_watch.specs.Kept.{Keeps};
ghost use Rattle.ec_commands_watch.specs.Printed.{printed, Shows};
ghost use Rattle.ec_commands_watch.specs.Watches.{watched_by, Watched, FitsWatch, WatchStops, IsUnwatched};

use crate::line::{answer, write_end};
use crate::load::{Loaded, discard, load};
use ec_commands::{CommandError, Limit};
use ec_commands_compile::CompileStop;
use ec_emu::{Ports, Scripted};
use ec_io::{Sink, Store};
use ec_watch::{Compare, ValueRule, Watch, WatchReport};
use std::alloc::Global;

/// Makes the run up to the first hit, and prints its lines.
fn run<O: Sink, H: Ports>(
    loaded: &mut Loaded,
    rule: Compare,
    steps: u32,
    out: &mut O,
    hooks: &mut H,
) -> WatchReport
    requires asked { H.can_ask hooks.old }
    requires placed { IsPlaced loaded.old.built }
    requires point { HasPoint loaded.old.built loaded.old.point }
    requires reset { IsReset loaded.old.built.located.image.core loaded.old.built.located.image.bytes.items loaded.old.machine }
    ensures ran { (trace : List Access)
        × (IsWatched loaded.old.point (watched_by rule) (IsScripted (H.gives hooks.old) loaded.old.script.lines.items) steps
        loaded.old.machine loaded.new.machine result trace
        × (IsPrinted (O.written out.old) (O.written out.new) (emulated result.end) trace
        × (((room : ℕ) → O.calm out.old room → length (port_lines trace) ≤ room
        → SinkCalm (O.faults out.old) (O.faults out.new) (O.calm out.new) room (emulated result.end) trace)
        × Keeps loaded.old.built loaded.old.point (watched_by rule) steps trace result.end))) }
    ensures cause { RunCause (O.faults out.old) (O.faults out.new) (emulated result.end) }
    ensures rest { O.rest out.new ≡ O.rest out.old }
    ensures can { H.can_ask hooks.new }
    ensures stays { (ask : Ask) (byte : ℕ) → H.gives hooks.new ask byte ↔ H.gives hooks.old ask byte }
{
    let stop = Watch::new(loaded.point, |value: i128| rule.holds(value), rule);
    let mut ports = Scripted {
        script: &loaded.script,
        hooks,
    };
    ec_watch::watch(
        &loaded.built,
        &mut loaded.machine,
        &stop,
        &mut ports,
        steps,
        out,
    )
}

/// Makes the run up to the first hit, and prints its lines with the value or the result.
fn print_watch<O: Sink, H: Ports>(
    loaded: &mut Loaded,
    rule: Compare,
    steps: u32,
    out: &mut O,
    hooks: &mut H,
) -> Result<(), CommandError>
    requires asked { H.can_ask hooks.old }
    requires placed { IsPlaced loaded.old.built }
    requires point { HasPoint loaded.old.built loaded.old.point }
    requires reset { IsReset loaded.old.built.located.image.core loaded.old.built.located.image.bytes.items loaded.old.machine }
    ensures shown { (report : WatchReport) × ((trace : List Access)
        × (IsWatched loaded.old.point (watched_by rule) (IsScripted (H.gives hooks.old) loaded.old.script.lines.items) steps
        loaded.old.machine loaded.new.machine report trace
        × (Shows (O.written out.old) (O.written out.new) report.end trace (stop_of result)
        × (((room : ℕ) → O.calm out.old room → length (printed report.end trace) ≤ room
        → O.faults out.new ≡ O.faults out.old)
        × Keeps loaded.old.built loaded.old.point (watched_by rule) steps trace report.end)))) }
    ensures later { O.faults out.old ≤ O.faults out.new }
    ensures failed { IsErrOf result CommandError.CannotWrite → Rose (O.faults out.old) (O.faults out.new) }
    ensures rest { O.rest out.new ≡ O.rest out.old }
    ensures can { H.can_ask hooks.new }
    ensures stays { (ask : Ask) (byte : ℕ) → H.gives hooks.new ask byte ↔ H.gives hooks.old ask byte }
{
    let report = run(loaded, rule, steps, out, hooks);
    match write_end(out, report.end) {
        Ok(()) => answer(report.end),
        Err(_) => Err(CommandError::CannotWrite),
    }
}

/// Watches the image of at most 16 sources.
fn watch_few<S: Store, O: Sink, H: Ports>(
    alloc: Global,
    words: &Vec<String>,
    steps: u32,
    leaf: u64,
    rule: Compare,
    store: &mut S,
    out: &mut O,
    hooks: &mut H,
) -> Result<(), CompileStop>
    requires nine { 9 ≤ length words.now.items }
    requires few { words_from words.now.items 8 ≤ 16 }
    requires asked { H.can_ask hooks.old }
    ensures files { KeepsAll (S.disk store.old) (S.disk store.new) }
    ensures ran { OnOk result (Watched words.now.items steps leaf rule (H.gives hooks.old) (S.disk store.old)
        (sink_call (O.written out.old) (O.written out.new) (O.faults out.old) (O.faults out.new)) None) }
    ensures stopped { IfErr result (WatchStops words.now.items steps leaf rule (H.gives hooks.old)
        (store_view (S.disk store.old) (S.read_faults store.old) (S.write_faults store.old) (S.received store.old) (S.missed store.old))
        (store_view (S.disk store.new) (S.read_faults store.new) (S.write_faults store.new) (S.received store.new) (S.missed store.new))
        (sink_call (O.written out.old) (O.written out.new) (O.faults out.old) (O.faults out.new))) }
    ensures named { IfErr result (IsNamed words.now.items) }
    ensures complete { AcceptsExec words.now.items 8 (S.disk store.old)
        → ¬ (Rose (S.read_faults store.old) (S.read_faults store.new))
        → ¬ (Rose (O.faults out.old) (O.faults out.new))
        → IfErr result (λ stop. IsUnwatched (status_of stop)) }
    ensures later { (S.read_faults store.old ≤ S.read_faults store.new) × (O.faults out.old ≤ O.faults out.new) }
    ensures write_faults { S.write_faults store.new ≡ S.write_faults store.old }
    ensures calm { (made : List ℕ) (room : ℕ) → S.calm store.old (exec_inputs words.now.items 8) made room
        → S.read_faults store.new ≡ S.read_faults store.old }
    ensures out_calm { (room : ℕ) → O.calm out.old room
        → FitsWatch words.now.items steps leaf rule (H.gives hooks.old) (S.disk store.old) room
        → O.faults out.new ≡ O.faults out.old }
    ensures rest { O.rest out.new ≡ O.rest out.old }
    ensures can { H.can_ask hooks.new }
    ensures stays { (ask : Ask) (byte : ℕ) → H.gives hooks.new ask byte ↔ H.gives hooks.old ask byte }
{
    let mut loaded = match load(alloc, words, leaf, store) {
        Ok(loaded) => loaded,
        Err(stop) => return Err(stop),
    };
    let shown = print_watch(&mut loaded, rule, steps, out, hooks);
    discard(loaded);
    match shown {
        Ok(()) => Ok(()),
        Err(stop) => Err(CompileStop::Command(stop)),
    }
}

/// Builds the sources that the words name, and runs the image with a script, up to the first write that gives the number
/// that NAME and LEAF name a value of which the rule holds. Prints each access of a port, and the value, or the result of
/// a run that ended without such a write.
///
/// Where the source is defined on inputs that begin with the bytes that were read, the value is the one of the source's
/// first such write, and the printed accesses are all those that the source makes before it.
pub fn watch<S: Store, O: Sink, H: Ports>(
    alloc: Global,
    words: &Vec<String>,
    steps: u32,
    leaf: u64,
    rule: Compare,
    store: &mut S,
    out: &mut O,
    hooks: &mut H,
) -> Result<(), CompileStop>
    requires nine { 9 ≤ length words.now.items }
    requires asked { H.can_ask hooks.old }
    ensures sources { 16 < words_from words.now.items 8 → IsErrOf result (Command (TooManyStop Sources)) }
    ensures files { KeepsAll (S.disk store.old) (S.disk store.new) }
    ensures ran { OnOk result (Watched words.now.items steps leaf rule (H.gives hooks.old) (S.disk store.old)
        (sink_call (O.written out.old) (O.written out.new) (O.faults out.old) (O.faults out.new)) None) }
    ensures stopped { IfErr result (WatchStops words.now.items steps leaf rule (H.gives hooks.old)
        (store_view (S.disk store.old) (S.read_faults store.old) (S.write_faults store.old) (S.received store.old) (S.missed store.old))
        (store_view (S.disk store.new) (S.read_faults store.new) (S.write_faults store.new) (S.received store.new) (S.missed store.new))
        (sink_call (O.written out.old) (O.written out.new) (O.faults out.old) (O.faults out.new))) }
    ensures named { IfErr result (IsNamed words.now.items) }
    ensures complete { (words_from words.now.items 8 ≤ 16) → AcceptsExec words.now.items 8 (S.disk store.old)
        → ¬ (Rose (S.read_faults store.old) (S.read_faults store.new))
        → ¬ (Rose (O.faults out.old) (O.faults out.new))
        → IfErr result (λ stop. IsUnwatched (status_of stop)) }
    ensures later { (S.read_faults store.old ≤ S.read_faults store.new) × (O.faults out.old ≤ O.faults out.new) }
    ensures write_faults { S.write_faults store.new ≡ S.write_faults store.old }
    ensures calm { (made : List ℕ) (room : ℕ) → S.calm store.old (exec_inputs words.now.items 8) made room
        → S.read_faults store.new ≡ S.read_faults store.old }
    ensures out_calm { (room : ℕ) → O.calm out.old room
        → FitsWatch words.now.items steps leaf rule (H.gives hooks.old) (S.disk store.old) room
        → O.faults out.new ≡ O.faults out.old }
    ensures rest { O.rest out.new ≡ O.rest out.old }
    ensures can { H.can_ask hooks.new }
    ensures stays { (ask : Ask) (byte : ℕ) → H.gives hooks.new ask byte ↔ H.gives hooks.old ask byte }
{
    if words.len() > 24 {
        return Err(CompileStop::Command(CommandError::TooMany(Limit::Sources)));
    }
    watch_few(alloc, words, steps, leaf, rule, store, out, hooks)
}
