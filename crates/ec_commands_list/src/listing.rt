//! The command `list`.
ghost use Rattle.std.specs.Prelude.{◌≡◌, ◌≤◌, ◌∷◌, [], ℕ, List, length, IfOk, IfErr, OnOk};
ghost use Rattle.ec_io.specs.Views.{store_view, sink_call};
ghost use Rattle.ec_list.specs.Lists.{listing, Lists};
ghost use Rattle.ec_io.specs.Causes.{Rose};
ghost use Rattle.ec_commands.specs.Shown.{KeepsAll};
ghost use Rattle.ec_commands.specs.Stops.{status_of, IsNamed};
ghost use Rattle.ec_commands.specs.Words.{listed_name, IsList};
ghost use Rattle.ec_commands_list.specs.Listings.{HexOf, Listed, StopsBefore, ListStops, CanList, FitsListing};

use ec_avr::Image;
use ec_commands::{CommandError, Limit, load_image, read};
use ec_io::{Sink, Store, write_all};
use ec_space::{Core, Seq};
use std::alloc::Global;

/// The listing of an image.
fn listing_of(alloc: Global, image: &Image) -> Result<Seq<u8>, CommandError>
    ensures value { IfOk result (λ text. text.items ≡ listing image.now.bytes.items image.now.written.items) }
    ensures lists { IfOk result (λ text.
        Lists image.now.core text.items image.now.bytes.items image.now.written.items) }
    ensures stopped { IfErr result (λ stop. stop ≡ CommandError.NoMemory) }
{
    match ec_list::list(alloc, image) {
        Ok(text) => Ok(text),
        Err(_) => Err(CommandError::NoMemory),
    }
}

/// Reads the HEX file of `list CORE HEX`, and makes the listing of its image.
fn make_listing<S: Store>(
    alloc: Global,
    words: &Vec<String>,
    core: Core,
    store: &mut S,
) -> Result<Seq<u8>, CommandError>
    requires { IsList words.now.items core }
    ensures files { KeepsAll (S.disk store.old) (S.disk store.new) }
    ensures made { IfOk result (λ text. (hex : HexOf words.now.items core (S.disk store.old))
        × ((text.items ≡ listing hex.bytes hex.written) × Lists core text.items hex.bytes hex.written)) }
    ensures stopped { IfErr result (StopsBefore words.now.items core
        (store_view (S.disk store.old) (S.read_faults store.old) (S.write_faults store.old) (S.received store.old) (S.missed store.old))
        (store_view (S.disk store.new) (S.read_faults store.new) (S.write_faults store.new) (S.received store.new) (S.missed store.new))) }
    ensures later { S.read_faults store.old ≤ S.read_faults store.new }
    ensures write_faults { S.write_faults store.new ≡ S.write_faults store.old }
    ensures calm { (made : List ℕ) (room : ℕ) → S.calm store.old (listed_name words.now.items ∷ []) made room
        → S.read_faults store.new ≡ S.read_faults store.old }
{
    let hex = match read(alloc, store, words, 2, Limit::HexBytes) {
        Ok(hex) => hex,
        Err(stop) => return Err(stop),
    };
    let image = match load_image(alloc, core, &hex) {
        Ok(image) => image,
        Err(stop) => return Err(stop),
    };
    listing_of(alloc, &image)
}

/// Prints the listing of the image that a HEX file denotes.
pub fn list<S: Store, O: Sink>(
    alloc: Global,
    words: &Vec<String>,
    core: Core,
    store: &mut S,
    out: &mut O,
) -> Result<(), CommandError>
    requires { IsList words.now.items core }
    ensures files { KeepsAll (S.disk store.old) (S.disk store.new) }
    ensures listed { OnOk result (Listed words.now.items core (S.disk store.old)
        (sink_call (O.written out.old) (O.written out.new) (O.faults out.old) (O.faults out.new))) }
    ensures stopped { IfErr result (ListStops words.now.items core
        (store_view (S.disk store.old) (S.read_faults store.old) (S.write_faults store.old) (S.received store.old) (S.missed store.old))
        (store_view (S.disk store.new) (S.read_faults store.new) (S.write_faults store.new) (S.received store.new) (S.missed store.new))
        (sink_call (O.written out.old) (O.written out.new) (O.faults out.old) (O.faults out.new))) }
    ensures named { IfErr result (IsNamed words.now.items) }
    ensures complete { CanList words.now.items core (S.disk store.old)
        → ¬ (Rose (S.read_faults store.old) (S.read_faults store.new))
        → ¬ (Rose (O.faults out.old) (O.faults out.new))
        → IfErr result (λ stop. status_of stop ≡ 11) }
    ensures later { (S.read_faults store.old ≤ S.read_faults store.new) × (O.faults out.old ≤ O.faults out.new) }
    ensures write_faults { S.write_faults store.new ≡ S.write_faults store.old }
    ensures calm { (made : List ℕ) (room : ℕ) → S.calm store.old (listed_name words.now.items ∷ []) made room
        → S.read_faults store.new ≡ S.read_faults store.old }
    ensures out_calm { (room : ℕ) → O.calm out.old room → FitsListing words.now.items core (S.disk store.old) room
        → O.faults out.new ≡ O.faults out.old }
    ensures rest { O.rest out.new ≡ O.rest out.old }
{
    let text = match make_listing(alloc, words, core, store) {
        Ok(text) => text,
        Err(stop) => return Err(stop),
    };
    match write_all(out, text.as_slice()) {
        Ok(()) => Ok(()),
        Err(_) => Err(CommandError::CannotWrite),
    }
}
