//! Names that are kept without memory.
ghost use Rattle.std.specs.Prelude.{◌≡◌};
ghost use Rattle.ec_io.specs.Disk.{known_name};
ghost use Rattle.ec_io.specs.KnownNames.{name_of};

use crate::mem_file::put_next;

/// A name, up to its first 4,096 bytes.
#[derive(Clone, Copy)]
pub struct KnownName {
    pub bytes: [u8; 4_096],
    pub len: usize,
}

/// Keeps a name.
pub fn known(name: &[u8]) -> KnownName
    ensures { name_of result ≡ known_name name.now }
{
    let mut bytes = [0u8; 4_096];
    let len = put_next(&mut bytes, name, 0);
    KnownName { bytes, len }
}
