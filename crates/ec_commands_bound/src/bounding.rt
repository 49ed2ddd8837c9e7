//! The command `bound`.
ghost use Rattle.std.specs.Prelude.{◌≡◌, ◌≤◌, ◌<◌, ℕ, List, IfOk, IfErr, OnOk, IsErrOf, length, true};
ghost use Rattle.ec_io.specs.Causes.{HasCause, Rose, Went};
ghost use Rattle.ec_io.specs.Views.{store_view, sink_call};
ghost use Rattle.ec_commands.specs.Shown.{KeepsAll};
ghost use Rattle.ec_commands.specs.Tells.{WritesPrefix};
ghost use Rattle.ec_commands.specs.Words.{is_bound, words_from};
ghost use Rattle.ec_commands.specs.declared.stop.Limit.TheVariants.{Sources};
ghost use Rattle.ec_commands.specs.declared.stop.CommandError.TheVariants.{TooMany as TooManyStop};
ghost use Rattle.ec_commands_compile.specs.Builds.{Accepts};
ghost use Rattle.ec_commands_compile.specs.Inputs.{build_inputs};
ghost use Rattle.ec_commands_compile.specs.declared.stop.CompileStop.TheVariants.{Command};
ghost use Rattle.ec_commands_bound.specs.Bounds.{steps_line, IsBound, Bounded, FitsSteps};
ghost use Rattle.ec_commands_bound.specs.Bounds.{StopsCounting, BoundStops, IsUnbounded};
ghost use Rattle.ec_commands_bound.specs.Stops.{status_of, IsNamed};
ghost use Rattle.ec_commands_bound.specs.declared.stop.StepsStop.TheVariants.{Compile};

use crate::stop::StepsStop;
use ec_build::{builds_have_one_image, discard};
use ec_commands::Part::{Long, Text};
use ec_commands::{CommandError, Limit, write_parts};
use ec_commands_compile::{CompileStop, read_and_build};
use ec_io::{Failed, Sink, Store};
use std::alloc::Global;

/// The number of steps of the program that the words name.
fn count<S: Store>(alloc: Global, words: &Vec<String>, store: &mut S) -> Result<u64, StepsStop>
    requires row { 3 ≤ length words.now.items }
    requires few { words_from words.now.items 2 ≤ 16 }
    ensures files { KeepsAll (S.disk store.old) (S.disk store.new) }
    ensures found { IfOk result (IsBound words.now.items (S.disk store.old)) }
    ensures stopped { IfErr result (StopsCounting words.now.items
        (store_view (S.disk store.old) (S.read_faults store.old) (S.write_faults store.old) (S.received store.old) (S.missed store.old))
        (store_view (S.disk store.new) (S.read_faults store.new) (S.write_faults store.new) (S.received store.new) (S.missed store.new))) }
    ensures named { IfErr result (IsNamed words.now.items) }
    ensures complete { Accepts words.now.items 2 (S.disk store.old)
        → ¬ (Rose (S.read_faults store.old) (S.read_faults store.new))
        → IfErr result (λ stop. IsUnbounded (status_of stop)) }
    ensures later { S.read_faults store.old ≤ S.read_faults store.new }
    ensures write_faults { S.write_faults store.new ≡ S.write_faults store.old }
    ensures calm { (made : List ℕ) (room : ℕ) → S.calm store.old (build_inputs words.now.items 2) made room
        → S.read_faults store.new ≡ S.read_faults store.old }
{
    let built = match read_and_build(alloc, words, 2, store) {
        Ok(built) => built,
        Err(stop) => return Err(StepsStop::Compile(stop)),
    };
    builds_have_one_image();
    let counted = ec_steps::bound(alloc, &built);
    discard(built);
    match counted {
        Ok(steps) => Ok(steps),
        Err(stop) => Err(StepsStop::Bound(stop)),
    }
}

/// Writes the line of a number of steps.
fn write_steps<O: Sink>(out: &mut O, steps: u64) -> Result<(), Failed>
    ensures written { WritesPrefix (O.written out.old) (O.written out.new) result (steps_line steps) }
    ensures rest { O.rest out.new ≡ O.rest out.old }
    ensures cause { HasCause (O.faults out.old) (O.faults out.new) result }
    ensures calm { (room : ℕ) → O.calm out.old room → length (steps_line steps) ≤ room
        → Went (O.faults out.old) (O.faults out.new) result }
{
    write_parts(out, &[Text(b"steps "), Long(steps), Text(b"\n")])
}

/// Prints the number of steps of the program of at most 16 sources.
fn bound_few<S: Store, O: Sink>(
    alloc: Global,
    words: &Vec<String>,
    store: &mut S,
    out: &mut O,
) -> Result<(), StepsStop>
    requires row { 3 ≤ length words.now.items }
    requires few { words_from words.now.items 2 ≤ 16 }
    ensures files { KeepsAll (S.disk store.old) (S.disk store.new) }
    ensures bounded { OnOk result (Bounded words.now.items (S.disk store.old)
        (sink_call (O.written out.old) (O.written out.new) (O.faults out.old) (O.faults out.new))) }
    ensures stopped { IfErr result (BoundStops words.now.items
        (store_view (S.disk store.old) (S.read_faults store.old) (S.write_faults store.old) (S.received store.old) (S.missed store.old))
        (store_view (S.disk store.new) (S.read_faults store.new) (S.write_faults store.new) (S.received store.new) (S.missed store.new))
        (sink_call (O.written out.old) (O.written out.new) (O.faults out.old) (O.faults out.new))) }
    ensures named { IfErr result (IsNamed words.now.items) }
    ensures complete { Accepts words.now.items 2 (S.disk store.old)
        → ¬ (Rose (S.read_faults store.old) (S.read_faults store.new))
        → ¬ (Rose (O.faults out.old) (O.faults out.new))
        → IfErr result (λ stop. IsUnbounded (status_of stop)) }
    ensures later { (S.read_faults store.old ≤ S.read_faults store.new) × (O.faults out.old ≤ O.faults out.new) }
    ensures write_faults { S.write_faults store.new ≡ S.write_faults store.old }
    ensures calm { (made : List ℕ) (room : ℕ) → S.calm store.old (build_inputs words.now.items 2) made room
        → S.read_faults store.new ≡ S.read_faults store.old }
    ensures out_calm { (room : ℕ) → O.calm out.old room → FitsSteps words.now.items (S.disk store.old) room
        → O.faults out.new ≡ O.faults out.old }
    ensures rest { O.rest out.new ≡ O.rest out.old }
{
    let steps = match count(alloc, words, store) {
        Ok(steps) => steps,
        Err(stop) => return Err(stop),
    };
    match write_steps(out, steps) {
        Ok(()) => Ok(()),
        Err(_) => Err(StepsStop::Compile(CompileStop::Command(CommandError::CannotWrite))),
    }
}

/// Builds the sources that the words name, and prints a number of steps within which the machine of their image ends.
///
/// The machine with any image that a build makes of these sources and this map ends within it, from every reset state and
/// for all inputs under which the source is defined.
pub fn bound<S: Store, O: Sink>(
    alloc: Global,
    words: &Vec<String>,
    store: &mut S,
    out: &mut O,
) -> Result<(), StepsStop>
    requires { is_bound words.now.items ≡ true }
    ensures sources { 16 < words_from words.now.items 2 → IsErrOf result (Compile (Command (TooManyStop Sources))) }
    ensures files { KeepsAll (S.disk store.old) (S.disk store.new) }
    ensures bounded { OnOk result (Bounded words.now.items (S.disk store.old)
        (sink_call (O.written out.old) (O.written out.new) (O.faults out.old) (O.faults out.new))) }
    ensures stopped { IfErr result (BoundStops words.now.items
        (store_view (S.disk store.old) (S.read_faults store.old) (S.write_faults store.old) (S.received store.old) (S.missed store.old))
        (store_view (S.disk store.new) (S.read_faults store.new) (S.write_faults store.new) (S.received store.new) (S.missed store.new))
        (sink_call (O.written out.old) (O.written out.new) (O.faults out.old) (O.faults out.new))) }
    ensures named { IfErr result (IsNamed words.now.items) }
    ensures complete { words_from words.now.items 2 ≤ 16 → Accepts words.now.items 2 (S.disk store.old)
        → ¬ (Rose (S.read_faults store.old) (S.read_faults store.new))
        → ¬ (Rose (O.faults out.old) (O.faults out.new))
        → IfErr result (λ stop. IsUnbounded (status_of stop)) }
    ensures later { (S.read_faults store.old ≤ S.read_faults store.new) × (O.faults out.old ≤ O.faults out.new) }
    ensures write_faults { S.write_faults store.new ≡ S.write_faults store.old }
    ensures calm { (made : List ℕ) (room : ℕ) → S.calm store.old (build_inputs words.now.items 2) made room
        → S.read_faults store.new ≡ S.read_faults store.old }
    ensures out_calm { (room : ℕ) → O.calm out.old room → FitsSteps words.now.items (S.disk store.old) room
        → O.faults out.new ≡ O.faults out.old }
    ensures rest { O.rest out.new ≡ O.rest out.old }
{
    if words.len() > 18 {
        return Err(StepsStop::Compile(CompileStop::Command(CommandError::TooMany(Limit::Sources))));
    }
    bound_few(alloc, words, store, out)
}
