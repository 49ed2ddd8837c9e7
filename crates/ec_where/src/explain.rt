//! What explains a fault in a source.
ghost use Rattle.std.specs.Prelude.{◌≡◌, ◌<◌, ◌^◌, ◌⊎◌, ℕ, IfOk, IsErrOf, IsOk, length};
ghost use Rattle.ec_io.specs.Causes.{Rose};
ghost use Rattle.ec_where.specs.Located.{IsExplained, IsIn, place_of};
ghost use Rattle.ec_where.specs.Told.{IsFound, IsToldIn, IsUnread};

use crate::locate::{NotFound, offset_of};
use crate::messages::message_of;
use crate::place::{Place, place_of};
use crate::pointed::pointed;
use ec_io::{ReadStop, Store, read_file};
use ec_space::Seq;
use ec_where_lines::SourceFault;
use std::alloc::Global;

/// The most bytes that a source has.
pub const SOURCE_BYTES: u32 = 65_536;

/// Explains a fault at a place of a source: `NAME:LINE:COLUMN: error: MESSAGE`, then the line, and a caret below the
/// column.
pub fn explain_place(
    alloc: Global,
    name: &str,
    source: &Seq<u8>,
    place: Place,
    message: &str,
) -> Result<Vec<u8>, NotFound>
    requires { length source.now.items < 2 ^ 32 }
    ensures explained { IfOk result (λ v. IsExplained name.now source.now.items place message.now v.items) }
    ensures absent { (at : ℕ) → IsIn source.now.items place at → (IsOk result) ⊎ (result ≡ Err NotFound.NoMemory) }
{
    let at = offset_of(alloc, source, place)?;
    match pointed(alloc, name, source.as_slice(), at, message) {
        Ok(text) => Ok(text),
        Err(_) => Err(NotFound::NoMemory),
    }
}

/// Explains the fault in a source that was read.
fn explain_in(alloc: Global, source: &Seq<u8>, fault: &SourceFault<'_>) -> Result<Vec<u8>, NotFound>
    requires { length source.now.items < 2 ^ 32 }
    ensures explained { IfOk result (λ v. IsToldIn source.now.items fault.now.name.now fault.now.fault v.items) }
    ensures absent { (at : ℕ) → IsIn source.now.items (place_of fault.now.fault) at
        → (IsOk result) ⊎ (result ≡ Err NotFound.NoMemory) }
{
    let message = message_of(alloc, source, fault.fault)?;
    explain_place(
        alloc,
        fault.name,
        source,
        place_of(fault.fault),
        message.as_str(),
    )
}

/// Explains the fault of the source that it names. It is not explained where the source was not read, or has no such
/// place, or memory ran out.
pub fn explain<S: Store>(
    alloc: Global,
    store: &mut S,
    fault: &SourceFault<'_>,
) -> Result<Vec<u8>, NotFound>
    ensures found { IfOk result (λ v. IsFound (S.disk store.old) fault.now.name.now fault.now.fault v.items) }
    ensures absent { IsErrOf result NotFound.NoSuchPlace → IsUnread (S.disk store.old) fault.now.name.now fault.now.fault
        ⊎ Rose (S.read_faults store.old) (S.read_faults store.new) }
{
    match read_file(alloc, store, fault.name, SOURCE_BYTES) {
        Ok(source) => explain_in(alloc, &source, fault),
        Err(ReadStop::NoMemory) => Err(NotFound::NoMemory),
        Err(ReadStop::ReadFault) => Err(NotFound::NoSuchPlace),
        Err(ReadStop::TooLong(_)) => Err(NotFound::NoSuchPlace),
    }
}
