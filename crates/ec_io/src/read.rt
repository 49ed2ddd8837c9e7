//! Reading a whole file.
ghost use Rattle.std.specs.Prelude.{◌≡◌, ◌≤◌, ◌<◌, ℕ, List, Some, IsErrOf, Contains};
ghost use Rattle.ec_io.specs.Causes.{Rose};
ghost use Rattle.ec_io.specs.Disk.{known_name};
ghost use Rattle.ec_io.specs.Read.{ReadsFile, Receives};

use crate::counts::is_too_long;
use crate::store::Store;
use ec_space::Seq;
use std::alloc::Global;
use thiserror::Error;

/// A file was not read.
#[derive(Clone, Copy, Debug, PartialEq, Eq, Error)]
pub enum ReadStop {
    /// Memory ran out.
    #[error("no memory")]
    NoMemory,
    /// The store failed in opening or reading the file.
    #[error("cannot read")]
    ReadFault,
    /// The file has more than so many bytes.
    #[error("more than {0} bytes")]
    TooLong(u32),
}

/// Reads the bytes of a file that has at most `limit` of them. It reads at most `limit + 1` bytes.
pub fn read_file<S: Store>(
    alloc: Global,
    store: &mut S,
    name: &str,
    limit: u32,
) -> Result<Seq<u8>, ReadStop>
    ensures told { ReadsFile name.now limit (S.disk store.old) (S.disk store.new) result }
    ensures received { Receives limit (S.received store.old) (S.received store.new) result }
    ensures later { S.read_faults store.old ≤ S.read_faults store.new }
    ensures fault { IsErrOf result ReadStop.ReadFault → Rose (S.read_faults store.old) (S.read_faults store.new) }
    ensures missed { IsErrOf result ReadStop.ReadFault → S.missed store.new ≡ Some (known_name name.now) }
    ensures write_faults { S.write_faults store.new ≡ S.write_faults store.old }
    ensures writing { S.writing store.new ≡ S.writing store.old }
    ensures calm { (names : List (List ℕ)) (made : List ℕ) (room : ℕ) → S.calm store.old names made room
        → Contains names name.now
        → (S.read_faults store.new ≡ S.read_faults store.old) × S.calm store.new names made room }
{
    if store.open_file(name).is_err() {
        return Err(ReadStop::ReadFault);
    }
    let mut bytes = Seq::new(alloc);
    let mut buf = [0u8; 512];
    let most = limit as usize + 1;
    'more: loop {
        let room = (most - bytes.len()).min(512);
        match store.read(&mut buf[..room]) {
            Err(_) => return Err(ReadStop::ReadFault),
            Ok(0) => return Ok(bytes),
            Ok(n) if is_too_long(bytes.len(), n, most) => return Err(ReadStop::TooLong(limit)),
            Ok(n) => match bytes.extend_from_slice(&buf[..n]) {
                Ok(()) => {}
                Err(_) => return Err(ReadStop::NoMemory),
            },
        }
    }
}
