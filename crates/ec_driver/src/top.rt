//! The top call.
ghost use Rattle.std.specs.Prelude.{◌≡◌, ◌≤◌, ◌<◌, ◌↔◌, ℕ, false};
ghost use Rattle.ec_io.specs.Views.{store_view, sink_call};
ghost use Rattle.ec_emu.specs.declared.ask.Ask.{Ask};
ghost use Rattle.ec_commands.specs.Command.{command_of};
ghost use Rattle.ec_commands.specs.declared.words.Command.TheVariants.{NoCommand};
ghost use Rattle.ec_driver.specs.Commands.{Does, prints, asks, uses_files, sources_of};

use ec_commands::{Command, CommandError, Compiling, command_of, conclude, first_source, run};
use ec_commands_bound::{bound, conclude as conclude_bound};
use ec_commands_compile::{build, conclude as conclude_compiling, exec, run_generated};
use ec_commands_list::{assemble, list};
use ec_commands_watch::watch;
use ec_emu::Ports;
use ec_io::{Sink, Store};
use std::alloc::Global;

/// Does what the words say, over the store's files, and answers the status.
///
/// `build MAP OUT SRC...` compiles the sources, places their program by the map, and writes the Intel HEX text of its
/// image to OUT. `run HEX SCRIPT STEPS FILL` runs the image of a HEX file, for at most STEPS steps, from the state in
/// which its registers and its memory hold FILL; its ports answer by the script, and the hooked ones by `hooks`. Each
/// access of a port is printed on `out`, and at BREAK the result. `exec MAP SCRIPT STEPS SRC...` builds, and runs that
/// image with FILL 165. `gen N` builds and runs the generated program for N so, and prints its result and how often it
/// wrote ports. `list CORE HEX` prints the listing of the image of a HEX file, and `assemble CORE ASM OUT` writes the
/// Intel HEX text of the image that a listing lists to OUT. `bound MAP SRC...` builds, and prints a number of steps within
/// which the machine with that image ends. `watch MAP SCRIPT STEPS NAME LEAF OP VALUE SRC...` runs as `exec` does up to the
/// first write that gives the number LEAF of the object NAME a value that stands to VALUE as OP says, and prints that value.
/// A stop is told on `err` by one line, and a failed write there does not change the status.
pub fn tool<S: Store, O: Sink, E: Sink, H: Ports>(
    alloc: Global,
    words: &Vec<String>,
    store: &mut S,
    out: &mut O,
    err: &mut E,
    hooks: &mut H,
) -> u8
    requires { H.can_ask hooks.old }

    // What each command does: each answer has its cause, and the line of a stop goes to `err`; what is accepted is done
    // unless memory runs out, where no call failed; over a calm store and a calm `out` no call fails; and what stays.
    ensures done { let before = store_view
        (S.disk store.old) (S.read_faults store.old) (S.write_faults store.old) (S.received store.old) (S.missed store.old) in
        let after = store_view
        (S.disk store.new) (S.read_faults store.new) (S.write_faults store.new) (S.received store.new) (S.missed store.new) in
        let printed = sink_call (O.written out.old) (O.written out.new) (O.faults out.old) (O.faults out.new) in
        let told = sink_call (E.written err.old) (E.written err.new) (E.faults err.old) (E.faults err.new) in
        Does (command_of words.now.items) words.now.items (H.gives hooks.old) before after printed told (S.calm store.old)
        (O.calm out.old) (E.calm err.old) result }

    // Only some commands print, only some ask the hooks, and only some call the store. Where the work was done, `err`
    // received nothing.
    ensures unprinted { prints (command_of words.now.items) ≡ false → out.new ≡ out.old }
    ensures unasked { asks (command_of words.now.items) ≡ false → hooks.new ≡ hooks.old }
    ensures idle { uses_files (command_of words.now.items) ≡ false → store.new ≡ store.old }
    ensures quiet { result ≡ 0 → err.new ≡ err.old }

    // These are judged without memory.
    ensures usage { (result ≡ 2) ↔ (command_of words.now.items ≡ NoCommand) }
    ensures sources { 16 < sources_of (command_of words.now.items) words.now.items → result ≡ 10 }

    // No count falls. The hooks can be asked again and answer by the same rule.
    ensures later { (S.read_faults store.old ≤ S.read_faults store.new)
        × (S.write_faults store.old ≤ S.write_faults store.new)
        × (O.faults out.old ≤ O.faults out.new) }
    ensures rest { (E.rest err.new ≡ E.rest err.old) × (O.rest out.new ≡ O.rest out.old) }
    ensures can { H.can_ask hooks.new }
    ensures stays { (ask : Ask) (byte : ℕ) → H.gives hooks.new ask byte ↔ H.gives hooks.old ask byte }
{
    match command_of(words) {
        Command::Build => {
            let built = build(alloc, words, store);
            conclude_compiling(err, words, first_source(Compiling::Build), built)
        }
        Command::Run { steps, fill } => {
            let answer = run(alloc, words, steps, fill, store, out, hooks);
            conclude(err, words, answer)
        }
        Command::Exec { steps } => {
            let executed = exec(alloc, words, steps, store, out, hooks);
            conclude_compiling(err, words, first_source(Compiling::Exec), executed)
        }
        Command::Gen { n } => {
            let generated = run_generated(alloc, n, out, hooks);
            conclude_compiling(err, words, 0, generated)
        }
        Command::List { core } => {
            let listed = list(alloc, words, core, store, out);
            conclude(err, words, listed)
        }
        Command::Assemble { core } => {
            let assembled = assemble(alloc, words, core, store);
            conclude(err, words, assembled)
        }
        Command::Bound => {
            let bounded = bound(alloc, words, store, out);
            conclude_bound(err, words, first_source(Compiling::Bound), bounded)
        }
        Command::Watch { steps, leaf, rule } => {
            let watched = watch(alloc, words, steps, leaf, rule, store, out, hooks);
            conclude_compiling(err, words, first_source(Compiling::Watch), watched)
        }
        Command::NoCommand => conclude(err, words, Err(CommandError::Usage)),
    }
}
