//! Linkages of names at file scope (ISO/IEC 9899:1999, 6.2.2).
ghost use Rattle.std.specs.Prelude.{◌≡◌};
ghost use Rattle.ec_check_names.specs.Linkage.{linkage_of};

use crate::specifiers::StorageWord;

/// Whether a name at file scope is known in its unit alone, or is one for all units.
#[derive(Clone, Copy, Debug, PartialEq, Eq)]
pub enum Linkage {
    Internal,
    External,
}

/// The linkage of a declaration at file scope, of a function or else of an object, where an earlier declaration of the
/// name in the unit has this linkage, or there is none.
pub fn linkage_of(storage: Option<StorageWord>, function: bool, earlier: Option<Linkage>) -> Linkage
    ensures { result ≡ linkage_of storage function earlier }
{
    match storage {
        Some(StorageWord::Static) => Linkage::Internal,
        Some(StorageWord::Extern) => earlier.unwrap_or(Linkage::External),
        None => {
            if function {
                earlier.unwrap_or(Linkage::External)
            } else {
                Linkage::External
            }
        }
    }
}
