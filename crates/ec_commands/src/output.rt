//! Writing an image to a file.
ghost use Rattle.std.specs.Prelude.{◌≡◌, ◌≤◌, ℕ, List, true, OnOk, length};
ghost use Rattle.std.specs.Borrow.{GName};
ghost use Rattle.ec_io.specs.Causes.{HasCause};
ghost use Rattle.ec_io.specs.Rest.{written_of, rest_of};
ghost use Rattle.ec_io.specs.Written.{WritesAll};
ghost use Rattle.ec_hex.specs.Denotes.{Denotes};
ghost use Rattle.ec_hex.specs.Text.{image_text};
ghost use Rattle.ec_commands.specs.Shown.{WritesFile};

use ec_avr::Image;
use ec_hex::write_hex;
use ec_io::{Failed, FileSink, Store, Written};

/// Writes the HEX text of an image to the store's created file.
fn write_text<S: Store>(store: &mut S, image: &Image) -> Result<(), Written>
    ensures written { WritesAll (written_of (S.disk store.old)) (written_of (S.disk store.new)) result
        (image_text image.now) }
    ensures denotes { Denotes image.now.core (image_text image.now) image.now.bytes.items image.now.written.items }
    ensures beside { (held : GName) → rest_of (S.disk store.new) (S.read_faults store.new, S.received store.new) held
        ≡ rest_of (S.disk store.old) (S.read_faults store.old, S.received store.old) held }
    ensures cause { HasCause (S.write_faults store.old) (S.write_faults store.new) result }
    ensures calm { (names : List (List ℕ)) (made : List ℕ) (room : ℕ) → S.calm store.old names made room
        → S.writing store.old ≡ true
        → length (image_text image.now) ≤ room → S.write_faults store.new ≡ S.write_faults store.old }
{
    let mut sink = FileSink { store };
    write_hex(&mut sink, image)
}

/// Creates a file and writes the HEX text of an image to it.
pub fn write_file<S: Store>(store: &mut S, name: &str, image: &Image) -> Result<(), Failed>
    ensures written { WritesFile name.now (S.disk store.old) (S.disk store.new) result (image_text image.now) }
    ensures denotes { OnOk result (Denotes image.now.core
        (image_text image.now) image.now.bytes.items image.now.written.items) }
    ensures cause { HasCause (S.write_faults store.old) (S.write_faults store.new) result }
    ensures read_faults { S.read_faults store.new ≡ S.read_faults store.old }
    ensures received { S.received store.new ≡ S.received store.old }
    ensures calm { (names : List (List ℕ)) (room : ℕ) → S.calm store.old names name.now room
        → length (image_text image.now) ≤ room → S.write_faults store.new ≡ S.write_faults store.old }
{
    match store.create(name) {
        Ok(()) => {}
        Err(e) => return Err(e),
    }
    match write_text(store, image) {
        Ok(()) => Ok(()),
        Err(_) => Err(Failed),
    }
}
