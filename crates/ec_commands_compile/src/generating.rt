//! The command `gen`.
ghost use Rattle.std.specs.Prelude.{◌≡◌, ◌≤◌, ◌↔◌, ℕ, [], None, IfOk, IfErr, OnOk, length};
ghost use Rattle.ec_io.specs.Causes.{Rose};
ghost use Rattle.ec_io.specs.Views.{sink_call};
ghost use Rattle.ec_emu.specs.declared.ask.Ask.{Ask};
ghost use Rattle.ec_avr.specs.Machine.{IsReset, reset_with};
ghost use Rattle.ec_generate.specs.Generated.{generated, map_text};
ghost use Rattle.ec_commands.specs.Answers.{IsLeft};
ghost use Rattle.ec_commands.specs.Sources.{texts};
ghost use Rattle.ec_commands.specs.Words.{Words};
ghost use Rattle.ec_commands_compile.specs.Gens.{sources_for, IsGenLoaded, Generated, FitsGen, StopsGenerating, GenStops, AcceptsGen};
ghost use Rattle.ec_commands_compile.specs.Stops.{status_of, IsNamed};

use crate::building::{Inputs, compile};
use crate::executing::FILL;
use crate::stop::CompileStop;
use ec_avr::Machine;
use ec_build::{Built, discard};
use ec_commands::{CommandError, Loaded, print_counts};
use ec_emu::{Ports, Script};
use ec_generate::{generate, map_text};
use ec_io::Sink;
use ec_space::{NoMemory, Seq};
use std::alloc::Global;

/// The steps that the run makes at most.
const MOST_STEPS: u32 = u32::MAX;

/// The text of the generated program as the only source, and the map.
fn inputs_for(alloc: Global, n: u16) -> Result<Inputs, NoMemory>
    requires some { 1 ≤ n }
    requires most { n ≤ 2_000 }
    ensures sources { IfOk result (λ r. texts r.sources.items ≡ sources_for n) }
    ensures map { IfOk result (λ r. r.map.items ≡ map_text) }
    ensures short { IfOk result (λ _. length (generated n) ≤ 65_536) }
    ensures short_map { IfOk result (λ _. length map_text ≤ 16_384) }
{
    let map = map_text(alloc)?;
    let text = generate(alloc, n)?;
    let mut sources = Seq::new(alloc);
    sources.push(text)?;
    Ok(Inputs { map, sources })
}

/// The machine with the image that was built.
fn boot(alloc: Global, built: &Built) -> Result<Machine, NoMemory>
    ensures reset { IfOk result (λ m. m
        ≡ reset_with built.now.located.image.core built.now.located.image.bytes.items 165) }
    ensures is_reset { IfOk result (IsReset built.now.located.image.core built.now.located.image.bytes.items) }
{
    Machine::boot(alloc, &built.located.image, FILL)
}

/// Builds the generated program, and loads its image with an empty script.
fn load_generated(alloc: Global, n: u16) -> Result<Loaded, CompileStop>
    requires some { 1 ≤ n }
    requires most { n ≤ 2_000 }
    ensures found { IfOk result (λ r. IsGenLoaded n r.machine) }
    ensures script { IfOk result (λ r. r.script.lines.items ≡ []) }
    ensures stopped { IfErr result (StopsGenerating n) }
    ensures complete { AcceptsGen n → IfErr result (λ stop. status_of stop ≡ 11) }
{
    let inputs = match inputs_for(alloc, n) {
        Ok(inputs) => inputs,
        Err(_) => return Err(CompileStop::Command(CommandError::NoMemory)),
    };
    let built = match compile(alloc, &inputs) {
        Ok(built) => built,
        Err(stop) => return Err(stop),
    };
    let booted = boot(alloc, &built);
    discard(built);
    match booted {
        Ok(machine) => Ok(Loaded {
            machine,
            script: Script::new(Seq::new(alloc)),
        }),
        Err(_) => Err(CompileStop::Command(CommandError::NoMemory)),
    }
}

/// Builds the generated program for a number, runs its image, and prints the result and how often it wrote ports. The
/// hooks are not asked, since no port has a line of a script.
pub fn run_generated<O: Sink, H: Ports>(
    alloc: Global,
    n: u16,
    out: &mut O,
    hooks: &mut H,
) -> Result<(), CompileStop>
    requires some { 1 ≤ n }
    requires most { n ≤ 2_000 }
    requires asked { H.can_ask hooks.old }
    ensures ran { OnOk result (Generated n (H.gives hooks.old)
        (sink_call (O.written out.old) (O.written out.new) (O.faults out.old) (O.faults out.new)) None) }
    ensures stopped { IfErr result (GenStops n (H.gives hooks.old)
        (sink_call (O.written out.old) (O.written out.new) (O.faults out.old) (O.faults out.new))) }
    ensures named { (words : Words) → IfErr result (IsNamed words) }
    ensures complete { AcceptsGen n → ¬ (Rose (O.faults out.old) (O.faults out.new))
        → IfErr result (λ stop. IsLeft (status_of stop)) }
    ensures later { O.faults out.old ≤ O.faults out.new }
    ensures out_calm { (room : ℕ) → O.calm out.old room → FitsGen n (H.gives hooks.old) room
        → O.faults out.new ≡ O.faults out.old }
    ensures rest { O.rest out.new ≡ O.rest out.old }
    ensures can { H.can_ask hooks.new }
    ensures stays { (ask : Ask) (byte : ℕ) → H.gives hooks.new ask byte ↔ H.gives hooks.old ask byte }
{
    let mut loaded = match load_generated(alloc, n) {
        Ok(loaded) => loaded,
        Err(stop) => return Err(stop),
    };
    match print_counts(&mut loaded, hooks, MOST_STEPS, out) {
        Ok(()) => Ok(()),
        Err(stop) => Err(CompileStop::Command(stop)),
    }
}
