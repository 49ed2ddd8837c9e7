//! The code of calls and returns.
ghost use Rattle.std.specs.Prelude.{◌≡◌, ◌≤◌, ◌<◌, ◌+◌, ◌++◌, OnOk, OnErr};
ghost use Rattle.ec_runs.specs.Behaviours.{BeginWith};
ghost use Rattle.ec_asm.specs.Pieces.{HasBytes};
ghost use Rattle.ec_select_operations.specs.Code.{place_register, kept_bytes, waiting_location, register_places};
ghost use Rattle.ec_select_operations.specs.Code.{save_place};
ghost use Rattle.ec_select_operations.specs.Code.{restore_place, save_code, restore_code};
ghost use Rattle.ec_select_operations.specs.Code.{taken_code, call_code, HasResult, result_code, return_code};
ghost use Rattle.ec_select_operations.specs.Emitted.{linkage, IsLabel, CanBeTaken};
ghost use Rattle.ec_select_operations.specs.Homes.{home, result_register, result_location};
ghost use Rattle.ec_select_operations.specs.Written.{need_in};

use crate::families::move_number;
use crate::homes::{Homes, home};
use ec_asm::{AsmItem, Location, copy};
use ec_ir::Temp;
use ec_isa::Instr;
use ec_select_bytes::constant;
use ec_space::{Core, NoMemory, Seq};

/// How the code of a function is put together with that of the others.
#[derive(Clone, Copy)]
pub struct Linking {
    /// The core that the code is for.
    pub core: Core,
    /// The label of items for the function's label 0. Those for its other labels follow.
    pub first_label: u64,
    /// The label of items at which function 0 begins. Those of the other functions follow.
    pub first_entry: u64,
    /// Where its temporaries stand.
    pub homes: Homes,
    /// How many places its temporaries have.
    pub slots: u16,
    /// Whether it is `main`, whose result is 0 where it gives none.
    pub is_main: bool,
}

/// The first register of a place.
fn place_register(homes: Homes, place: u8) -> u8
    ensures { result ≡ place_register homes place }
{
    let depth = u32::from(homes.width) * (u32::from(place) + 1);
    26u32.saturating_sub(depth) as u8
}

/// The bytes of its registers that a call keeps, where `n` bytes of the place are needed after it.
fn kept_bytes(homes: Homes, place: u8, n: u8) -> u8
    ensures { result ≡ kept_bytes homes place n }
{
    let depth = u32::from(homes.width) * (u32::from(place) + 1);
    if depth <= 12 { n.min(homes.width) } else { 0 }
}

/// Where they wait.
fn waiting_location(homes: Homes, place: u8) -> Location
    ensures { result ≡ waiting_location homes place }
{
    Location::InMemory {
        object: homes.scratch,
        offset: 16 * u32::from(place) + 8,
    }
}

/// Appends code that saves what is kept of a place.
fn save_place(out: &mut Seq<AsmItem>, homes: Homes, place: u8, n: u8) -> Result<(), NoMemory>
    ensures ok { OnOk result (out.new.items ≡ out.old.items ++ save_place homes place n) }
    ensures err { OnErr result (BeginWith out.old.items out.new.items) }
{
    let registers = Location::InRegisters(place_register(homes, place));
    copy(
        out,
        registers,
        waiting_location(homes, place),
        kept_bytes(homes, place, n),
    )
}

/// Appends code that loads it again.
fn restore_place(out: &mut Seq<AsmItem>, homes: Homes, place: u8, n: u8) -> Result<(), NoMemory>
    ensures ok { OnOk result (out.new.items ≡ out.old.items ++ restore_place homes place n) }
    ensures err { OnErr result (BeginWith out.old.items out.new.items) }
{
    let registers = Location::InRegisters(place_register(homes, place));
    copy(
        out,
        waiting_location(homes, place),
        registers,
        kept_bytes(homes, place, n),
    )
}

/// How many bytes of a place are needed, where a row tells it of the first places.
fn need_in(row: &[u8], place: u8) -> u8
    ensures { result ≡ need_in row.now place }
{
    match row.get(usize::from(place)) {
        Some(n) => *n,
        None => 0,
    }
}

/// The places that may have registers.
fn register_places(slots: u16) -> u8
    ensures { result ≡ register_places slots }
{
    if slots < 6 { slots as u8 } else { 6 }
}

/// Appends code that saves what is kept of all places.
fn save(out: &mut Seq<AsmItem>, of: Linking, kept: &[u8]) -> Result<(), NoMemory>
    ensures ok { OnOk result (out.new.items ≡ out.old.items ++ save_code (linkage of) (need_in kept.now)) }
    ensures err { OnErr result (BeginWith out.old.items out.new.items) }
{
    for place in 0..register_places(of.slots) {
        save_place(out, of.homes, place, need_in(kept, place))?;
    }
    Ok(())
}

/// Appends code that loads it again.
fn restore(out: &mut Seq<AsmItem>, of: Linking, kept: &[u8]) -> Result<(), NoMemory>
    ensures ok { OnOk result (out.new.items ≡ out.old.items ++ restore_code (linkage of) (need_in kept.now)) }
    ensures err { OnErr result (BeginWith out.old.items out.new.items) }
{
    for place in 0..register_places(of.slots) {
        restore_place(out, of.homes, place, need_in(kept, place))?;
    }
    Ok(())
}

/// The first register of a result of so many bytes.
fn result_register(bytes: u8) -> u8
    ensures { result ≡ result_register bytes }
{
    if bytes <= 2 {
        24
    } else if bytes <= 4 {
        22
    } else {
        18
    }
}

/// Appends code that brings a function's result to its place, as many bytes as are wanted of it.
fn take(out: &mut Seq<AsmItem>, homes: Homes, to: Option<Temp>, wanted: u8) -> Result<(), NoMemory>
    requires { CanBeTaken wanted to }
    ensures ok { OnOk result (out.new.items ≡ out.old.items ++ taken_code (home homes) to wanted) }
    ensures err { OnErr result (BeginWith out.old.items out.new.items) }
{
    match to {
        None => Ok(()),
        Some(t) => move_number(
            out,
            Location::InRegisters(result_register(t.bytes)),
            home(homes, t),
            wanted,
        ),
    }
}

/// Appends a call of a function: what is kept of the places in registers is saved, and loaded after it, when so many
/// bytes of the result have come to their place. Where memory runs out, a part of the code is appended.
pub fn call(
    out: &mut Seq<AsmItem>,
    of: Linking,
    f: u16,
    to: Option<Temp>,
    wanted: u8,
    kept: &[u8],
) -> Result<(), NoMemory>
    requires result { CanBeTaken wanted to }
    requires label { IsLabel (of.first_entry + f) }
    ensures ok { OnOk result (out.new.items ≡ out.old.items
        ++ call_code (home of.homes) (linkage of) f to wanted (need_in kept.now)) }
    ensures err { OnErr result (BeginWith out.old.items out.new.items) }
{
    save(out, of, kept)?;
    out.extend_from_slice(&[AsmItem::CallTo(of.first_entry + u64::from(f))])?;
    take(out, of.homes, to, wanted)?;
    restore(out, of, kept)
}

/// Appends the end of a function: the result in the registers up to R25, and RET. Where memory runs out, a part of the
/// code is appended.
pub fn finish(
    out: &mut Seq<AsmItem>,
    homes: Homes,
    is_main: bool,
    from: Option<Temp>,
) -> Result<(), NoMemory>
    requires { HasResult from }
    ensures ok { OnOk result (out.new.items ≡ out.old.items ++ return_code (home homes) is_main from) }
    ensures err { OnErr result (BeginWith out.old.items out.new.items) }
{
    bring_result(out, homes, is_main, from)?;
    out.extend_from_slice(&[AsmItem::Plain(Instr::Ret)])
}

fn bring_result(
    out: &mut Seq<AsmItem>,
    homes: Homes,
    is_main: bool,
    from: Option<Temp>,
) -> Result<(), NoMemory>
    requires { HasResult from }
    ensures ok { OnOk result (out.new.items ≡ out.old.items ++ result_code (home homes) is_main from) }
    ensures err { OnErr result (BeginWith out.old.items out.new.items) }
{
    match from {
        None if is_main => constant(out, 0, Location::InRegisters(24), 2),
        None => Ok(()),
        Some(t) => move_number(
            out,
            home(homes, t),
            Location::InRegisters(result_register(t.bytes)),
            t.bytes,
        ),
    }
}
