//! Pointers that stay in Z for a load or a store.
ghost use Rattle.std.specs.Prelude.{◌≡◌, ◌≤◌, ◌<◌, ◌+◌, ◌^◌, ◌++◌, true, OnOk, OnErr, IfSome, map, option_map};
ghost use Rattle.std.specs.Option.{option_copied};
ghost use Rattle.ec_runs.specs.Behaviours.{BeginWith};
ghost use Rattle.ec_asm.specs.Pieces.{HasBytes};
ghost use Rattle.ec_space.specs.Spaces.{width};
ghost use Rattle.ec_core.specs.Plain.{plain_object};
ghost use Rattle.ec_ir.specs.Operations.{plain_ir};
ghost use Rattle.ec_select_operations.specs.Code.{is_small, goes_by_z, is_from_data, is_in_reach, is_load_by_z, is_used_by_z};
ghost use Rattle.ec_select_operations.specs.Code.{told_offset, is_in_z, tells_in_z, further_code, displacement};
ghost use Rattle.ec_select_operations.specs.Code.{from_z_code, loaded_code, object_code, goes_on, goes_on_past};
ghost use Rattle.ec_select_operations.specs.Code.{own_telling, stored_code};
ghost use Rattle.ec_select_operations.specs.Emitted.{declarations};
ghost use Rattle.ec_select_operations.specs.Places.{object_location};
ghost use Rattle.ec_select_operations.specs.Pointers.{kept_in, has_tables};

use crate::families::Told;
use crate::pointers::{
    has_tables, is_table, kept_in, load_object, load_through, move_to_member, object_location,
};
use ec_asm::{AsmItem, Location};
use ec_ir::{Ir, IrProgram};
use ec_select_pointers::{
    fetch, load_further, load_member, load_tagged, point, store_data, store_member,
};
use ec_space::{Core, NoMemory, Seq, SpaceId};

/// Whether an address of flash has two bytes.
fn is_small(core: Core) -> bool
    ensures { result ≡ is_small core }
{
    match core {
        Core::Small => true,
        Core::Large => false,
    }
}

/// Whether a load through a pointer into a space is one from the data bank, wherever it points.
pub(crate) fn is_from_data(program: &IrProgram, space: SpaceId) -> bool
    ensures { result ≡ is_from_data (has_tables (declarations program.now).objects) space }
{
    match space {
        SpaceId::Data => true,
        SpaceId::Generic => !has_tables(program),
        _ => false,
    }
}

/// Whether a load through a pointer into a space, whose third byte may be a tag that stands in R0, can go by Z.
fn goes_by_z(core: Core, program: &IrProgram, tagged: bool, space: SpaceId) -> bool
    ensures { result ≡ goes_by_z core (has_tables (declarations program.now).objects) tagged space }
{
    match space {
        SpaceId::Data | SpaceId::Flash => true,
        SpaceId::FarFlash => is_small(core),
        SpaceId::Generic => !has_tables(program) || (tagged && is_small(core)),
    }
}

/// Whether a displacement reaches so many bytes at an offset.
pub(crate) fn is_in_reach(offset: u64, bytes: u8) -> bool
    requires { offset < 2 ^ 60 }
    ensures value { result ≡ is_in_reach offset bytes }
    ensures reach { result ≡ true → offset + bytes ≤ 64 }
{
    offset + u64::from(bytes) <= 64
}

/// Whether the next operation loads by Z what stands at an offset from the pointer at a place, and puts it there.
fn is_load_by_z(
    core: Core,
    program: &IrProgram,
    tagged: bool,
    place: u16,
    offset: u64,
    next: Option<&Ir>,
) -> bool
    requires { offset < 2 ^ 60 }
    ensures value { result ≡ is_load_by_z core (has_tables (declarations program.now).objects) tagged place offset
        (option_map plain_ir (option_copied next.entry)) }
    ensures reach { result ≡ true → offset ≤ 64 }
{
    match next {
        Some(Ir::Load { to, ptr, space }) => {
            ptr.at == place
                && to.at == place
                && goes_by_z(core, program, tagged, *space)
                && is_in_reach(offset, to.bytes)
        }
        _ => false,
    }
}

/// Whether it does so, or the one behind it loads a member so.
fn is_used_by_z(
    core: Core,
    program: &IrProgram,
    place: u16,
    next: Option<&Ir>,
    behind: Option<&Ir>,
) -> bool
    ensures { result ≡ is_used_by_z core (has_tables (declarations program.now).objects) place
        (option_map plain_ir (option_copied next.entry)) (option_map plain_ir (option_copied behind.entry)) }
{
    match next {
        Some(Ir::Field { ptr, offset, .. }) => {
            ptr.at == place && is_load_by_z(core, program, true, place, u64::from(*offset), behind)
        }
        _ => is_load_by_z(core, program, true, place, 0, next),
    }
}

/// How far what is meant stands from Z, in bytes.
pub(crate) fn told_offset(told: Option<Told>) -> u16
    ensures { result ≡ told_offset told }
{
    match told {
        Some(Told::InZ { offset }) => offset,
        _ => 0,
    }
}

/// Whether a pointer is in Z, and its third byte in R0.
fn is_in_z(told: Option<Told>) -> bool
    ensures { result ≡ is_in_z told }
{
    match told {
        Some(Told::InZ { .. }) => true,
        _ => false,
    }
}

/// A pointer that waits in Z goes on to wait, and else so much is told.
fn goes_on(told: Option<Told>, otherwise: Option<Told>) -> Option<Told>
    ensures { result ≡ goes_on told otherwise }
{
    match told {
        Some(Told::InZ { offset }) => Some(Told::InZ { offset }),
        _ => otherwise,
    }
}

/// It goes on to wait where it is not loaded over.
fn goes_on_past(told: Option<Told>, over: bool) -> Option<Told>
    ensures { result ≡ goes_on_past told over }
{
    match told {
        Some(Told::InZ { offset }) => {
            if over {
                None
            } else {
                Some(Told::InZ { offset })
            }
        }
        _ => None,
    }
}

/// What an operation tells in place of its own result: none does over which a pointer waits.
pub(crate) fn own_telling(told: Option<Told>, telling: Option<Told>) -> Option<Told>
    ensures { result ≡ own_telling told telling }
{
    match told {
        Some(Told::InZ { .. }) => None,
        _ => telling,
    }
}

/// What an operation that has been told so much leaves in Z in place of its result: a pointer that the next operations alone
/// use, or one that waits there. One that is read from an object leaves its third byte in R0.
pub(crate) fn tells_in_z(
    core: Core,
    program: &IrProgram,
    told: Option<Told>,
    i: &Ir,
    next: Option<&Ir>,
    behind: Option<&Ir>,
    waiting: bool,
) -> Option<Told>
    ensures { result ≡ tells_in_z core (declarations program.now) told (plain_ir i.now)
        (option_map plain_ir (option_copied next.entry)) (option_map plain_ir (option_copied behind.entry)) waiting }
{
    match i {
        Ir::LoadObj(t, o, _) => {
            let used = is_used_by_z(core, program, t.at, next, behind) || waiting;
            if !is_table(kept_in(program, *o)) && t.bytes >= 2 && used {
                goes_on(told, Some(Told::InZ { offset: 0 }))
            } else {
                goes_on(told, None)
            }
        }
        Ir::Field { ptr, offset, .. } => {
            let further = u64::from(told_offset(told)) + u64::from(*offset);
            let waits = is_in_reach(further, 0) && waiting;
            if is_load_by_z(core, program, is_in_z(told), ptr.at, further, next) || waits {
                Some(Told::InZ {
                    offset: further as u16,
                })
            } else {
                None
            }
        }
        Ir::Load { to, ptr, .. } => goes_on_past(told, to.at == ptr.at),
        Ir::Const(..) | Ir::Conv { .. } | Ir::Bin { .. } => goes_on(told, None),
        _ => None,
    }
}

/// Appends code that moves a pointer of so many bytes to a member at an offset: one that stays in Z is left as it is, and
/// one whose member is loaded next is brought there. Where memory runs out, a part of the code is appended.
#[tactic(auto, using(crate::proofs::Emits::fewer_bytes))]
pub fn go_to_member(
    out: &mut Seq<AsmItem>,
    core: Core,
    told: Option<Told>,
    telling: Option<Told>,
    pointer: Location,
    bytes: u8,
    offset: u32,
) -> Result<(), NoMemory>
    requires two { 2 ≤ bytes }
    requires pointer { HasBytes pointer bytes }
    ensures ok { OnOk result (out.new.items
        ≡ out.old.items ++ further_code told telling core bytes pointer offset) }
    ensures err { OnErr result (BeginWith out.old.items out.new.items) }
{
    match (told, telling) {
        (Some(_), _) => Ok(()),
        (None, Some(_)) => point(out, pointer),
        (None, None) => move_to_member(out, core, pointer, bytes, offset),
    }
}

/// The displacement from Z at which so many bytes are loaded, where the pointer stays there.
fn displacement(told: Option<Told>, bytes: u8) -> Option<u8>
    ensures value { result ≡ displacement told bytes }
    ensures reach { IfSome result (λ offset. offset + bytes ≤ 64) }
{
    match told {
        Some(Told::InZ { offset }) => {
            if is_in_reach(u64::from(offset), bytes) {
                Some(offset as u8)
            } else {
                None
            }
        }
        _ => None,
    }
}

/// Appends code that loads a number of so many bytes of what a pointer into a space points to, at an offset from Z. Where
/// memory runs out, a part of the code is appended.
fn load_from_z(
    out: &mut Seq<AsmItem>,
    program: &IrProgram,
    space: SpaceId,
    offset: u8,
    to: Location,
    bytes: u8,
) -> Result<(), NoMemory>
    requires to { HasBytes to bytes }
    requires reach { offset + bytes ≤ 64 }
    ensures ok { OnOk result (out.new.items ≡ out.old.items
        ++ from_z_code (has_tables (declarations program.now).objects) space offset to bytes) }
    ensures err { OnErr result (BeginWith out.old.items out.new.items) }
{
    match space {
        SpaceId::Data => load_member(out, offset, to, bytes),
        SpaceId::Flash | SpaceId::FarFlash => load_further(out, offset, to, bytes),
        SpaceId::Generic => {
            if has_tables(program) {
                load_tagged(out, offset, to, bytes)
            } else {
                load_member(out, offset, to, bytes)
            }
        }
    }
}

/// Appends code that loads a number of so many bytes through a pointer into a space, which may stay in Z. Where memory
/// runs out, a part of the code is appended.
pub fn load_by(
    out: &mut Seq<AsmItem>,
    core: Core,
    told: Option<Told>,
    program: &IrProgram,
    space: SpaceId,
    pointer: Location,
    to: Location,
    bytes: u8,
) -> Result<(), NoMemory>
    requires pointer { HasBytes pointer (width space) }
    requires to { HasBytes to bytes }
    ensures ok { OnOk result (out.new.items ≡ out.old.items
        ++ loaded_code (displacement told bytes) core (has_tables (declarations program.now).objects) space pointer to
        bytes) }
    ensures err { OnErr result (BeginWith out.old.items out.new.items) }
{
    match displacement(told, bytes) {
        None => load_through(out, core, program, space, pointer, to, bytes),
        Some(offset) => load_from_z(out, program, space, offset, to, bytes),
    }
}

/// Appends code that stores a number of so many bytes through a pointer, which may stay in Z. Where memory runs out, a part
/// of the code is appended.
pub fn store_by(
    out: &mut Seq<AsmItem>,
    told: Option<Told>,
    from: Location,
    pointer: Location,
    bytes: u8,
) -> Result<(), NoMemory>
    requires from { HasBytes from bytes }
    requires pointer { HasBytes pointer 2 }
    ensures ok { OnOk result (out.new.items ≡ out.old.items ++ stored_code (displacement told bytes) from pointer bytes) }
    ensures err { OnErr result (BeginWith out.old.items out.new.items) }
{
    match displacement(told, bytes) {
        None => store_data(out, from, pointer, bytes),
        Some(offset) => store_member(out, offset, from, bytes),
    }
}

/// Appends code that loads a number of so many bytes from an offset in an object, by the object's home; a pointer that
/// stays in Z is brought there. Where memory runs out, a part of the code is appended.
pub fn load_or_fetch(
    out: &mut Seq<AsmItem>,
    core: Core,
    telling: Option<Told>,
    program: &IrProgram,
    o: u16,
    offset: u32,
    to: Location,
    bytes: u8,
) -> Result<(), NoMemory>
    requires from { HasBytes (object_location (map plain_object program.now.objs.items) o offset) bytes }
    requires to { HasBytes to bytes }
    ensures ok { OnOk result (out.new.items ≡ out.old.items
        ++ object_code telling core (kept_in (declarations program.now) o) (map plain_object program.now.objs.items) o offset
        to bytes) }
    ensures err { OnErr result (BeginWith out.old.items out.new.items) }
{
    match telling {
        None => load_object(out, core, program, o, offset, to, bytes),
        Some(_) => fetch(
            out,
            object_location(program.objs.as_slice(), o, offset, bytes),
            bytes,
        ),
    }
}
