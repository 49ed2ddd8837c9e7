//! The command `assemble`.
ghost use Rattle.std.specs.Prelude.{◌≡◌, ◌≤◌, ℕ, List, Bool, length, IfOk, IfErr, OnOk};
ghost use Rattle.ec_io.specs.Views.{store_view};
ghost use Rattle.ec_list.specs.Lists.{Lists};
ghost use Rattle.ec_commands.specs.Shown.{KeepsAll, Told};
ghost use Rattle.ec_commands.specs.Stops.{status_of, IsNamed};
ghost use Rattle.ec_commands.specs.Words.{assembled_name, IsAssemble};
ghost use Rattle.ec_io.specs.Causes.{Rose};
ghost use Rattle.ec_commands_list.specs.Assemblies.{assemble_inputs, IsListedIn, Assembles, AssembleStops};
ghost use Rattle.ec_commands_list.specs.Assemblies.{CanAssemble, FitsHex, RefusesText};

use ec_avr::Image;
use ec_commands::{CommandError, Limit, read, word_at, write_file};
use ec_io::Store;
use ec_list::AsmStop;
use ec_space::{Core, Seq};
use std::alloc::Global;

/// The image that a text lists.
fn image_of(alloc: Global, core: Core, text: &Seq<u8>) -> Result<Image, CommandError>
    ensures core { IfOk result (λ image. image.core ≡ core) }
    ensures listed { IfOk result (λ image. Lists core text.now.items image.bytes.items image.written.items) }
    ensures stopped { IfErr result (RefusesText core text.now.items) }
    ensures complete { (bytes : List ℕ) (written : List Bool) → Lists core text.now.items bytes written
        → IfErr result (λ stop. status_of stop ≡ 11) }
{
    match ec_list::assemble(alloc, core, text) {
        Ok(image) => Ok(image),
        Err(AsmStop::Line { line, rule }) => Err(CommandError::AsmLine(line, rule)),
        Err(AsmStop::NoMemory) => Err(CommandError::NoMemory),
    }
}

/// Reads the listing of `assemble CORE ASM OUT`, and makes its image.
fn make_image<S: Store>(
    alloc: Global,
    words: &Vec<String>,
    core: Core,
    store: &mut S,
) -> Result<Image, CommandError>
    requires { IsAssemble words.now.items core }
    ensures files { KeepsAll (S.disk store.old) (S.disk store.new) }
    ensures core { IfOk result (λ image. image.core ≡ core) }
    ensures made { IfOk result (λ image. Told
        (IsListedIn words.now.items core image.bytes.items image.written.items) (S.disk store.old)) }
    ensures stopped { IfErr result (AssembleStops words.now.items core
        (store_view (S.disk store.old) (S.read_faults store.old) (S.write_faults store.old) (S.received store.old) (S.missed store.old))
        (store_view (S.disk store.new) (S.read_faults store.new) (S.write_faults store.new) (S.received store.new) (S.missed store.new))) }
    ensures named { IfErr result (IsNamed words.now.items) }
    ensures complete { CanAssemble words.now.items core (S.disk store.old)
        → ¬ (Rose (S.read_faults store.old) (S.read_faults store.new))
        → IfErr result (λ stop. status_of stop ≡ 11) }
    ensures later { S.read_faults store.old ≤ S.read_faults store.new }
    ensures write_faults { S.write_faults store.new ≡ S.write_faults store.old }
    ensures calm { (made : List ℕ) (room : ℕ) → S.calm store.old (assemble_inputs words.now.items) made room
        → (S.read_faults store.new ≡ S.read_faults store.old)
        × S.calm store.new (assemble_inputs words.now.items) made room }
{
    let text = match read(alloc, store, words, 2, Limit::ListingBytes) {
        Ok(text) => text,
        Err(stop) => return Err(stop),
    };
    image_of(alloc, core, &text)
}

/// Writes the HEX text of the image that a listing lists to OUT.
pub fn assemble<S: Store>(
    alloc: Global,
    words: &Vec<String>,
    core: Core,
    store: &mut S,
) -> Result<(), CommandError>
    requires { IsAssemble words.now.items core }
    ensures assembled { OnOk result (Assembles words.now.items core (S.disk store.old) (S.disk store.new)) }
    ensures stopped { IfErr result (AssembleStops words.now.items core
        (store_view (S.disk store.old) (S.read_faults store.old) (S.write_faults store.old) (S.received store.old) (S.missed store.old))
        (store_view (S.disk store.new) (S.read_faults store.new) (S.write_faults store.new) (S.received store.new) (S.missed store.new))) }
    ensures named { IfErr result (IsNamed words.now.items) }
    ensures complete { CanAssemble words.now.items core (S.disk store.old)
        → ¬ (Rose (S.read_faults store.old) (S.read_faults store.new))
        → ¬ (Rose (S.write_faults store.old) (S.write_faults store.new))
        → IfErr result (λ stop. status_of stop ≡ 11) }
    ensures later { (S.read_faults store.old ≤ S.read_faults store.new)
        × (S.write_faults store.old ≤ S.write_faults store.new) }
    ensures calm { (room : ℕ) → S.calm store.old (assemble_inputs words.now.items) (assembled_name words.now.items) room
        → FitsHex words.now.items core (S.disk store.old) room
        → (S.read_faults store.new ≡ S.read_faults store.old) × (S.write_faults store.new ≡ S.write_faults store.old) }
{
    let image = match make_image(alloc, words, core, store) {
        Ok(image) => image,
        Err(stop) => return Err(stop),
    };
    match write_file(store, word_at(words, 3), &image) {
        Ok(()) => Ok(()),
        Err(_) => Err(CommandError::CannotWrite),
    }
}
