//! The machine and the script of a run.
ghost use Rattle.std.specs.Prelude.{◌≡◌, ◌≤◌, ◌<◌, ◌^◌, ◌∷◌, [], ◌⊎◌, ℕ, List, Bool, IfOk, IfErr, length, map};
ghost use Rattle.ec_avr.specs.Machine.{reset_with};
ghost use Rattle.ec_hex.specs.Denotes.{Denotes};
ghost use Rattle.ec_emu.specs.Script.{AreKept, core_of_text, entries, entry_of, forms_of};
ghost use Rattle.ec_commands.specs.Runs.{AreInputs, IsLoaded, hex_stop, HasHexFault, HasScriptFault};
ghost use Rattle.ec_commands.specs.Runs.{StopsReadingInputs, StopsLoading};
ghost use Rattle.ec_io.specs.Views.{store_view};
ghost use Rattle.ec_commands.specs.Shown.{KeepsAll};
ghost use Rattle.ec_commands.specs.Words.{hex_name, script_name};

use crate::input::read;
use crate::stop::{CommandError, Limit};
use ec_avr::{Image, Machine};
use ec_emu::{Script, ScriptStop, read_script, script_core};
use ec_hex::{HexStop, read_hex};
use ec_io::Store;
use ec_space::{Core, Seq};
use std::alloc::Global;

/// The texts of the HEX file and of the script.
#[derive(Drop)]
struct Inputs {
    hex: Seq<u8>,
    script: Seq<u8>,
}

/// What a run needs: all that it takes memory for.
#[derive(Drop)]
pub struct Loaded {
    pub machine: Machine,
    pub script: Script,
}

/// Reads both files.
fn read_inputs<S: Store>(
    alloc: Global,
    words: &Vec<String>,
    store: &mut S,
) -> Result<Inputs, CommandError>
    requires { length words.now.items ≡ 5 }
    ensures files { KeepsAll (S.disk store.old) (S.disk store.new) }
    ensures found { IfOk result (λ r. AreInputs words.now.items (S.disk store.old) r.hex.items r.script.items) }
    ensures stopped { IfErr result (λ stop. (stop ≡ CommandError.NoMemory) ⊎ StopsReadingInputs words.now.items
        (store_view (S.disk store.old) (S.read_faults store.old) (S.write_faults store.old) (S.received store.old) (S.missed store.old))
        (store_view (S.disk store.new) (S.read_faults store.new) (S.write_faults store.new)
        (S.received store.new) (S.missed store.new)) stop) }
    ensures later { S.read_faults store.old ≤ S.read_faults store.new }
    ensures write_faults { S.write_faults store.new ≡ S.write_faults store.old }
    ensures calm { (made : List ℕ) (room : ℕ)
        → S.calm store.old (hex_name words.now.items ∷ script_name words.now.items ∷ []) made room
        → S.read_faults store.new ≡ S.read_faults store.old }
{
    let hex = match read(alloc, store, words, 1, Limit::HexBytes) {
        Ok(hex) => hex,
        Err(stop) => return Err(stop),
    };
    match read(alloc, store, words, 2, Limit::ScriptBytes) {
        Ok(script) => Ok(Inputs { hex, script }),
        Err(stop) => Err(stop),
    }
}

/// The stop of a text that denotes no image.
fn stop_of_hex(stop: HexStop) -> CommandError
    ensures { result ≡ hex_stop stop }
{
    match stop {
        HexStop::BadRecord(line) => CommandError::BadRecord(line),
        HexStop::BadSum(line) => CommandError::BadSum(line),
        HexStop::OutOfFlash(line) => CommandError::OutOfFlash(line),
        HexStop::Twice(line) => CommandError::Twice(line),
        HexStop::NoEnd => CommandError::NoEnd,
        HexStop::NoMemory => CommandError::NoMemory,
    }
}

/// The image of a core that a HEX text denotes.
pub fn load_image(alloc: Global, core: Core, hex: &Seq<u8>) -> Result<Image, CommandError>
    requires { length hex.now.items < 2 ^ 32 }
    ensures core { IfOk result (λ image. image.core ≡ core) }
    ensures denoted { IfOk result (λ image.
        Denotes core hex.now.items image.bytes.items image.written.items) }
    ensures stopped { IfErr result (λ stop. (stop ≡ CommandError.NoMemory) ⊎ HasHexFault core hex.now.items stop) }
{
    match read_hex(alloc, core, hex) {
        Ok(image) => Ok(image),
        Err(stop) => Err(stop_of_hex(stop)),
    }
}

/// The machine of a core after a reset, with the image that a HEX text denotes and `fill` in its registers and its memory.
fn load_machine(alloc: Global, core: Core, hex: &Seq<u8>, fill: u8) -> Result<Machine, CommandError>
    requires { length hex.now.items < 2 ^ 32 }
    ensures found { IfOk result (λ machine. (bytes : List ℕ) × ((written : List Bool)
        × (Denotes core hex.now.items bytes written × (machine ≡ reset_with core bytes fill)))) }
    ensures stopped { IfErr result (λ stop. (stop ≡ CommandError.NoMemory) ⊎ HasHexFault core hex.now.items stop) }
{
    let image = match load_image(alloc, core, hex) {
        Ok(image) => image,
        Err(stop) => return Err(stop),
    };
    match Machine::boot(alloc, &image, fill) {
        Ok(machine) => Ok(machine),
        Err(_) => Err(CommandError::NoMemory),
    }
}

/// The script for a core that a text is.
pub fn load_script(alloc: Global, core: Core, text: &Seq<u8>) -> Result<Script, CommandError>
    requires { length text.now.items < 2 ^ 32 }
    ensures kept { IfOk result (λ _. AreKept core (forms_of text.now.items)) }
    ensures lines { IfOk result (λ script. map entry_of script.lines.items ≡ entries (forms_of text.now.items)) }
    ensures stopped { IfErr result (λ stop. (stop ≡ CommandError.NoMemory) ⊎ HasScriptFault core text.now.items stop) }
{
    match read_script(alloc, core, text) {
        Ok(script) => Ok(script),
        Err(ScriptStop::Line { line, rule }) => Err(CommandError::ScriptLine(line, rule)),
        Err(ScriptStop::NoMemory) => Err(CommandError::NoMemory),
    }
}

/// Reads both files of `run HEX SCRIPT STEPS FILL` and loads what they hold, for the core that the script names.
pub fn load<S: Store>(
    alloc: Global,
    words: &Vec<String>,
    store: &mut S,
    fill: u8,
) -> Result<Loaded, CommandError>
    requires { length words.now.items ≡ 5 }
    ensures files { KeepsAll (S.disk store.old) (S.disk store.new) }
    ensures found { IfOk result (λ r. (text lines : List ℕ) × (AreInputs words.now.items (S.disk store.old) text lines
        × IsLoaded fill text lines r.machine r.script.lines.items)) }
    ensures stopped { IfErr result (StopsLoading words.now.items
        (store_view (S.disk store.old) (S.read_faults store.old) (S.write_faults store.old) (S.received store.old) (S.missed store.old))
        (store_view (S.disk store.new) (S.read_faults store.new) (S.write_faults store.new) (S.received store.new) (S.missed store.new))) }
    ensures later { S.read_faults store.old ≤ S.read_faults store.new }
    ensures write_faults { S.write_faults store.new ≡ S.write_faults store.old }
    ensures calm { (made : List ℕ) (room : ℕ)
        → S.calm store.old (hex_name words.now.items ∷ script_name words.now.items ∷ []) made room
        → S.read_faults store.new ≡ S.read_faults store.old }
{
    let inputs = match read_inputs(alloc, words, store) {
        Ok(inputs) => inputs,
        Err(stop) => return Err(stop),
    };
    let core = script_core(&inputs.script);
    let machine = match load_machine(alloc, core, &inputs.hex, fill) {
        Ok(machine) => machine,
        Err(stop) => return Err(stop),
    };
    match load_script(alloc, core, &inputs.script) {
        Ok(script) => Ok(Loaded { machine, script }),
        Err(stop) => Err(stop),
    }
}
