//! The code of operations with pointers, and of accesses to objects by the bank where they are kept.
ghost use Rattle.std.specs.Prelude.{◌≡◌, ◌<◌, ◌≤◌, ◌++◌, true, false, OnOk, OnErr, map, max};
ghost use Rattle.std.specs.List.{list_any};
ghost use Rattle.ec_runs.specs.Behaviours.{BeginWith};
ghost use Rattle.ec_asm.specs.Pieces.{HasBytes};
ghost use Rattle.ec_space.specs.Spaces.{width};
ghost use Rattle.ec_core.specs.Accesses.{element_size};
ghost use Rattle.ec_core.specs.Layout.{AreStructs};
ghost use Rattle.ec_core.specs.Plain.{plain_object, plain_type};
ghost use Rattle.ec_core.specs.Valid.{IsExprType};
ghost use Rattle.ec_select_places.specs.Steps.{compared_bytes, z_pair};
ghost use Rattle.ec_select_pointers.specs.Accesses.{load_flash_code, load_table_code};
ghost use Rattle.ec_select_pointers.specs.Far.{load_far_code, load_far_table_code};
ghost use Rattle.ec_select_operations.specs.Code.{family_of, is_signed, by_core, is_far, is_whole_address};
ghost use Rattle.ec_select_operations.specs.Code.{addressed_code, member_code, load_either_code, load_code, banked_code};
ghost use Rattle.ec_select_operations.specs.Code.{moved_code, takes_index, indexed_code, scaled_code, offset_code};
ghost use Rattle.ec_select_operations.specs.Code.{is_difference, related_bytes, load_index_code};
ghost use Rattle.ec_select_operations.specs.Code.{known_index, known_bytes, known_offset, known_offset_code, offset_by};
ghost use Rattle.ec_select_operations.specs.Code.{difference_code, ordered_code, pointers_code, pointer_binary, pointer_conversion};
ghost use Rattle.ec_select_operations.specs.Emitted.{declarations, PointersHaveBytes, PointerHasBytes};
ghost use Rattle.ec_select_operations.specs.Homes.{home};
ghost use Rattle.ec_select_operations.specs.Needs.{moves_pointer};
ghost use Rattle.ec_select_operations.specs.Places.{object_location};
ghost use Rattle.ec_select_operations.specs.Pointers.{is_pointer, home_of, kept_in, is_table, has_tables, tag_of, tag_in};
ghost use Rattle.ec_select_operations.specs.Pointers.{IsPointerSize};

use crate::families::{Family, Operands, Told, family_of, move_number, tell};
use crate::homes::{Homes, home};
use crate::numbers::{bits_of, number_known};
use crate::types::{is_into_data, is_pointer, is_signed};
use ec_asm::{AsmItem, Location, compare, copy};
use ec_core::{BinOp, CType, Obj, Storage, size_of};
use ec_ir::{IrProgram, Temp};
use ec_ir_known::RightNumber;
use ec_select_order::Relation;
use ec_select_places::{add_index, advance, advance_far, can_add, elements, embed, scale_index};
use ec_select_pointers::{
    address, far_address, far_field, field, load_any, load_any_far, load_data, load_far,
    load_far_table, load_flash, load_table,
};
use ec_space::{Bank, Core, Home, NoMemory, Seq, SpaceId};

/// The home of an object.
pub(crate) fn kept_in(program: &IrProgram, o: u16) -> Home
    ensures { result ≡ kept_in (declarations program.now) o }
{
    match program.objs.get(usize::from(o)) {
        None => Home::Data,
        Some(d) => d.home,
    }
}

/// The bank where an object is kept.
fn home_of(program: &IrProgram, o: u16) -> Bank
    ensures { result ≡ home_of (declarations program.now) o }
{
    match program.objs.get(usize::from(o)) {
        None => Bank::Data,
        Some(d) => d.home.bank(),
    }
}

/// Whether a pointer of so many bytes has whole addresses of flash.
fn is_far(core: Core, bytes: u8) -> bool
    ensures { result ≡ is_far core bytes }
{
    match core {
        Core::Small => false,
        Core::Large => bytes == 3,
    }
}

/// Whether what a pointer of so many bytes to a place in a bank has is the place's whole address.
fn is_whole_address(core: Core, bytes: u8, bank: Bank) -> bool
    ensures { result ≡ is_whole_address core bytes bank }
{
    match bank {
        Bank::Flash => is_far(core, bytes),
        Bank::Data => false,
    }
}

/// The third byte of a pointer into a bank.
fn tag_of(bank: Bank) -> u8
    ensures { result ≡ tag_of bank }
{
    match bank {
        Bank::Flash => 0x00,
        Bank::Data => 0x80,
    }
}

/// The tag in a pointer of so many bytes.
fn tag_in(bytes: u8, bank: Bank) -> Option<u8>
    ensures { result ≡ tag_in bytes bank }
{
    if bytes == 3 { Some(tag_of(bank)) } else { None }
}

/// Appends code that puts the address of a place to a pointer of so many bytes, where some of them are wanted. Where
/// memory runs out, a part of the code is appended.
#[tactic(auto, using(crate::proofs::Emits::tag_there, crate::proofs::Emits::whole_there))]
pub fn put_address(
    out: &mut Seq<AsmItem>,
    core: Core,
    program: &IrProgram,
    o: u16,
    offset: u32,
    to: Location,
    bytes: u8,
    wanted: u8,
) -> Result<(), NoMemory>
    requires size { IsPointerSize bytes }
    requires to { HasBytes to bytes }
    ensures ok { OnOk result (out.new.items ≡ out.old.items
        ++ addressed_code core (declarations program.now) o offset to bytes wanted) }
    ensures err { OnErr result (BeginWith out.old.items out.new.items) }
{
    if wanted == 0 {
        return Ok(());
    }
    let bank = home_of(program, o);
    if is_whole_address(core, bytes, bank) {
        return far_address(out, o, offset, to);
    }
    address(out, o, offset, tag_in(bytes, bank), to)
}

/// Appends code that moves a pointer of so many bytes to a member at an offset. Where memory runs out, a part of the
/// code is appended.
#[tactic(auto, using(crate::proofs::Emits::fewer_bytes, crate::proofs::Emits::far_there))]
pub fn move_to_member(
    out: &mut Seq<AsmItem>,
    core: Core,
    pointer: Location,
    bytes: u8,
    offset: u32,
) -> Result<(), NoMemory>
    requires two { 2 ≤ bytes }
    requires pointer { HasBytes pointer bytes }
    ensures ok { OnOk result (out.new.items ≡ out.old.items ++ member_code core bytes pointer offset) }
    ensures err { OnErr result (BeginWith out.old.items out.new.items) }
{
    if is_far(core, bytes) {
        return far_field(out, pointer, offset);
    }
    field(out, pointer, offset)
}

/// Appends code that loads a number of so many bytes through a pointer into `__farflash`.
#[tactic(auto, using(crate::proofs::Emits::fewer_bytes))]
fn load_through_far(
    out: &mut Seq<AsmItem>,
    core: Core,
    pointer: Location,
    to: Location,
    bytes: u8,
) -> Result<(), NoMemory>
    requires pointer { HasBytes pointer 3 }
    requires to { HasBytes to bytes }
    ensures ok { OnOk result (out.new.items ≡ out.old.items
        ++ by_core core (load_flash_code pointer to bytes) (load_far_code pointer to bytes)) }
    ensures err { OnErr result (BeginWith out.old.items out.new.items) }
{
    match core {
        Core::Small => load_flash(out, pointer, to, bytes),
        Core::Large => load_far(out, pointer, to, bytes),
    }
}

/// Whether an object of a home stands in the flash bank.
pub(crate) fn is_table(home: Home) -> bool
    ensures { result ≡ is_table home }
{
    match home {
        Home::Flash | Home::Far => true,
        Home::Data => false,
    }
}

/// Whether one of several objects stands in the flash bank.
fn include_table(objects: &[Obj]) -> bool
    ensures { result ≡ list_any (λ d. is_table d.home) objects.now }
{
    objects.iter().any(|d| is_table(d.home))
}

/// Whether some object of a program is kept in the flash bank.
#[tactic(auto, using(crate::proofs::Emits::tables_are))]
pub fn has_tables(program: &IrProgram) -> bool
    ensures { result ≡ has_tables (declarations program.now).objects }
{
    include_table(program.objs.as_slice())
}

/// Appends code that loads a number of so many bytes through a pointer into the unnamed space, which may point into
/// flash only if some object of the program stands there.
#[tactic(auto, using(crate::proofs::Emits::fewer_bytes))]
fn load_through_any(
    out: &mut Seq<AsmItem>,
    core: Core,
    program: &IrProgram,
    pointer: Location,
    to: Location,
    bytes: u8,
) -> Result<(), NoMemory>
    requires pointer { HasBytes pointer 3 }
    requires to { HasBytes to bytes }
    ensures ok { OnOk result (out.new.items ≡ out.old.items
        ++ load_either_code core (has_tables (declarations program.now).objects) pointer to bytes) }
    ensures err { OnErr result (BeginWith out.old.items out.new.items) }
{
    if !has_tables(program) {
        return load_data(out, pointer, to, bytes);
    }
    match core {
        Core::Small => load_any(out, pointer, to, bytes),
        Core::Large => load_any_far(out, pointer, to, bytes),
    }
}

/// Appends code that loads a number of so many bytes through a pointer into a space. Where memory runs out, a part of
/// the code is appended.
pub fn load_through(
    out: &mut Seq<AsmItem>,
    core: Core,
    program: &IrProgram,
    space: SpaceId,
    pointer: Location,
    to: Location,
    bytes: u8,
) -> Result<(), NoMemory>
    requires pointer { HasBytes pointer (width space) }
    requires to { HasBytes to bytes }
    ensures ok { OnOk result (out.new.items ≡ out.old.items
        ++ load_code core (has_tables (declarations program.now).objects) space pointer to bytes) }
    ensures err { OnErr result (BeginWith out.old.items out.new.items) }
{
    match space {
        SpaceId::Flash => load_flash(out, pointer, to, bytes),
        SpaceId::FarFlash => load_through_far(out, core, pointer, to, bytes),
        SpaceId::Data => load_data(out, pointer, to, bytes),
        SpaceId::Generic => load_through_any(out, core, program, pointer, to, bytes),
    }
}

/// Where the bytes of an object from an offset on stand, if it is kept in the data bank.
pub(crate) fn object_location(objects: &[Obj], o: u16, offset: u32, bytes: u8) -> Location
    requires { HasBytes (object_location (map plain_object objects.now) o offset) bytes }
    ensures { result ≡ object_location (map plain_object objects.now) o offset }
{
    match objects.get(usize::from(o)) {
        None => Location::InMemory { object: o, offset },
        Some(d) => match &d.storage {
            Storage::Register(first) => Location::InRegisters(*first + offset as u8),
            _ => Location::InMemory { object: o, offset },
        },
    }
}

/// Appends code that loads a number of so many bytes from an offset in an object with the home far.
fn load_far_object(
    out: &mut Seq<AsmItem>,
    core: Core,
    o: u16,
    offset: u32,
    to: Location,
    bytes: u8,
) -> Result<(), NoMemory>
    requires { HasBytes to bytes }
    ensures ok { OnOk result (out.new.items ≡ out.old.items
        ++ by_core core (load_table_code o offset to bytes) (load_far_table_code o offset to bytes)) }
    ensures err { OnErr result (BeginWith out.old.items out.new.items) }
{
    match core {
        Core::Small => load_table(out, o, offset, to, bytes),
        Core::Large => load_far_table(out, o, offset, to, bytes),
    }
}

/// Appends code that loads a number of so many bytes from an offset in an object, by the object's home. Where memory
/// runs out, a part of the code is appended.
pub fn load_object(
    out: &mut Seq<AsmItem>,
    core: Core,
    program: &IrProgram,
    o: u16,
    offset: u32,
    to: Location,
    bytes: u8,
) -> Result<(), NoMemory>
    requires from { HasBytes (object_location (map plain_object program.now.objs.items) o offset) bytes }
    requires to { HasBytes to bytes }
    ensures ok { OnOk result (out.new.items ≡ out.old.items
        ++ banked_code core (kept_in (declarations program.now) o) (map plain_object program.now.objs.items) o offset to
        bytes) }
    ensures err { OnErr result (BeginWith out.old.items out.new.items) }
{
    match kept_in(program, o) {
        Home::Flash => load_table(out, o, offset, to, bytes),
        Home::Far => load_far_object(out, core, o, offset, to, bytes),
        Home::Data => {
            let from = object_location(program.objs.as_slice(), o, offset, bytes);
            copy(out, from, to, bytes)
        }
    }
}

/// Appends code that loads one or two bytes of an object with a home to R30 and R31: at once from the data bank, and else
/// by R26 and R27. Where memory runs out, a part of the code is appended.
pub fn load_index(
    out: &mut Seq<AsmItem>,
    core: Core,
    program: &IrProgram,
    o: u16,
    offset: u32,
    bytes: u8,
) -> Result<(), NoMemory>
    requires from { HasBytes (object_location (map plain_object program.now.objs.items) o offset) bytes }
    requires few { bytes ≤ 2 }
    ensures ok { OnOk result (out.new.items ≡ out.old.items
        ++ load_index_code core (kept_in (declarations program.now) o) (map plain_object program.now.objs.items) o offset
        bytes) }
    ensures err { OnErr result (BeginWith out.old.items out.new.items) }
{
    let index = Location::InRegisters(30);
    match kept_in(program, o) {
        Home::Data => {
            let from = object_location(program.objs.as_slice(), o, offset, bytes);
            copy(out, from, index, bytes)
        }
        _ => {
            let by = Location::InRegisters(26);
            load_object(out, core, program, o, offset, by, bytes)?;
            copy(out, by, index, bytes)
        }
    }
}

/// The bytes of what a pointer points to.
fn element_size(program: &IrProgram, ty: &CType) -> u32
    requires structs { AreStructs (declarations program.now).structs }
    requires known { IsExprType (declarations program.now) (plain_type ty.now) }
    ensures { result ≡ element_size (declarations program.now) (plain_type ty.now) }
{
    match ty {
        CType::Ptr { to, .. } => size_of(&program.structs, to),
        _ => 0,
    }
}

/// Appends code that moves a pointer of so many bytes by the bytes in R31:R30, further or back.
#[tactic(auto, using(crate::proofs::Emits::fewer_bytes, crate::proofs::Emits::far_there))]
fn advance_by(
    out: &mut Seq<AsmItem>,
    core: Core,
    bytes: u8,
    minus: bool,
    pointer: Location,
) -> Result<(), NoMemory>
    requires two { 2 ≤ bytes }
    requires pointer { HasBytes pointer bytes }
    ensures ok { OnOk result (out.new.items ≡ out.old.items ++ moved_code core bytes minus pointer) }
    ensures err { OnErr result (BeginWith out.old.items out.new.items) }
{
    if is_far(core, bytes) {
        return advance_far(out, minus, pointer);
    }
    advance(out, minus, pointer)
}

/// A pointer, and a number of elements by which it is moved, further or back.
#[derive(Clone, Copy)]
pub struct Offset {
    pub minus: bool,
    pub from: Location,
    pub bytes: u8,
    pub signed: bool,
    pub index: Location,
    pub index_bytes: u8,
}

/// Whether the number of elements is added as it stands, to an address that is not whole.
fn takes_index(core: Core, of: Offset, to: Location, size: u16) -> bool
    ensures { result ≡ takes_index core of.signed of.index to of.bytes of.index_bytes size }
{
    !is_far(core, of.bytes) && can_add(of.signed, of.index, to, of.index_bytes, size)
}

/// Appends code that brings a pointer to `to`, and adds the number of elements there as it stands.
#[tactic(auto, using(crate::proofs::Emits::fewer_bytes))]
fn move_by_index(
    out: &mut Seq<AsmItem>,
    of: Offset,
    to: Location,
    size: u16,
) -> Result<(), NoMemory>
    requires from { HasBytes of.from of.bytes }
    requires index { HasBytes of.index of.index_bytes }
    requires to { HasBytes to of.bytes }
    requires two { 2 ≤ of.bytes }
    requires some { 1 ≤ of.index_bytes }
    requires few { size < 256 }
    ensures ok { OnOk result (out.new.items ≡ out.old.items
        ++ indexed_code of.minus of.from of.index to of.bytes of.index_bytes size) }
    ensures err { OnErr result (BeginWith out.old.items out.new.items) }
{
    move_number(out, of.from, to, of.bytes)?;
    add_index(out, of.minus, of.index, to, of.index_bytes, size)
}

/// Appends code that turns the number of elements into one of bytes in R31:R30, brings a pointer to `to`, and moves it there.
#[tactic(auto, using(crate::proofs::Emits::fewer_bytes))]
fn move_by_bytes(
    out: &mut Seq<AsmItem>,
    core: Core,
    of: Offset,
    to: Location,
    size: u16,
) -> Result<(), NoMemory>
    requires from { HasBytes of.from of.bytes }
    requires index { HasBytes of.index of.index_bytes }
    requires to { HasBytes to of.bytes }
    requires two { 2 ≤ of.bytes }
    requires some { 1 ≤ of.index_bytes }
    ensures ok { OnOk result (out.new.items ≡ out.old.items
        ++ scaled_code core of.minus of.signed of.from of.index to of.bytes of.index_bytes size) }
    ensures err { OnErr result (BeginWith out.old.items out.new.items) }
{
    scale_index(out, of.index, of.signed, of.index_bytes, size)?;
    move_number(out, of.from, to, of.bytes)?;
    advance_by(out, core, of.bytes, of.minus, to)
}

/// Appends code that puts the pointer at `of.from` so many elements further, or back, to `to`. Where memory runs out, a
/// part of the code is appended.
#[tactic(auto, using(crate::proofs::Emits::few_elements))]
pub fn move_pointer(
    out: &mut Seq<AsmItem>,
    core: Core,
    of: Offset,
    to: Location,
    size: u32,
    wanted: u8,
) -> Result<(), NoMemory>
    requires from { HasBytes of.from of.bytes }
    requires index { HasBytes of.index of.index_bytes }
    requires to { HasBytes to of.bytes }
    requires two { 2 ≤ of.bytes }
    requires some { 1 ≤ of.index_bytes }
    ensures ok { OnOk result (out.new.items ≡ out.old.items
        ++ offset_code core of.minus of.signed of.from of.index to of.bytes of.index_bytes size wanted) }
    ensures err { OnErr result (BeginWith out.old.items out.new.items) }
{
    if wanted == 0 {
        return Ok(());
    }
    let size = (size % 65536) as u16;
    if takes_index(core, of, to, size) {
        return move_by_index(out, of, to, size);
    }
    move_by_bytes(out, core, of, to, size)
}

/// A number modulo 65,536, which an index of so many bytes is known to hold.
fn known_index(signed: bool, index_bytes: u8, number: u128) -> u32
    ensures value { result ≡ known_index signed index_bytes number }
    ensures most { result < 65536 }
{
    if index_bytes != 1 {
        return (number % 65536) as u32;
    }
    let byte = (number % 256) as u32;
    if signed {
        byte + 256 * (255 * (byte / 128))
    } else {
        byte
    }
}

/// The bytes of a known number of elements, modulo 65,536.
fn known_bytes(signed: bool, index_bytes: u8, number: u128, size: u32) -> u32
    ensures value { result ≡ known_bytes signed index_bytes number size }
    ensures most { result < 65536 }
{
    known_index(signed, index_bytes, number) * (size % 65536) % 65536
}

/// The offset by so many bytes, which count by their sign, further or back, modulo 2 to the power of 24.
fn known_offset(minus: bool, bytes: u32) -> u32
    requires { bytes < 65536 }
    ensures { result ≡ known_offset minus bytes }
{
    let extended = if bytes < 32768 {
        bytes
    } else {
        bytes + 16_711_680
    };
    if minus {
        16_777_216 - extended
    } else {
        extended
    }
}

/// Appends code that puts the pointer at `of.from` a known number of elements further, or back, to `to`. Where memory runs
/// out, a part of the code is appended.
#[tactic(auto, using(crate::proofs::Emits::fewer_bytes))]
fn move_by_known(
    out: &mut Seq<AsmItem>,
    core: Core,
    of: Offset,
    number: u128,
    to: Location,
    size: u32,
    wanted: u8,
) -> Result<(), NoMemory>
    requires from { HasBytes of.from of.bytes }
    requires to { HasBytes to of.bytes }
    requires two { 2 ≤ of.bytes }
    ensures ok { OnOk result (out.new.items ≡ out.old.items
        ++ known_offset_code core of.minus of.signed of.from to of.bytes of.index_bytes number size wanted) }
    ensures err { OnErr result (BeginWith out.old.items out.new.items) }
{
    if wanted == 0 {
        return Ok(());
    }
    let bytes = known_bytes(of.signed, of.index_bytes, number, size);
    move_number(out, of.from, to, of.bytes)?;
    move_to_member(out, core, to, of.bytes, known_offset(of.minus, bytes))
}

/// Appends code that puts the pointer at `of.from` so many elements further, or back, to `to`, where their number may be
/// known. Where memory runs out, a part of the code is appended.
fn move_by(
    out: &mut Seq<AsmItem>,
    known: Option<i128>,
    core: Core,
    of: Offset,
    to: Location,
    size: u32,
    wanted: u8,
) -> Result<(), NoMemory>
    requires from { HasBytes of.from of.bytes }
    requires index { HasBytes of.index of.index_bytes }
    requires to { HasBytes to of.bytes }
    requires two { 2 ≤ of.bytes }
    requires some { 1 ≤ of.index_bytes }
    ensures ok { OnOk result (out.new.items ≡ out.old.items
        ++ offset_by known core of.minus of.signed of.from of.index to of.bytes of.index_bytes size wanted) }
    ensures err { OnErr result (BeginWith out.old.items out.new.items) }
{
    match known {
        None => move_pointer(out, core, of, to, size, wanted),
        Some(k) => move_by_known(out, core, of, bits_of(k), to, size, wanted),
    }
}

/// Appends code that puts the elements of so many bytes between two pointers to `to`.
fn subtract_pointers(
    out: &mut Seq<AsmItem>,
    a: Location,
    b: Location,
    to: Location,
    size: u32,
    wanted: u8,
) -> Result<(), NoMemory>
    requires a { HasBytes a 2 }
    requires b { HasBytes b 2 }
    requires to { HasBytes to 2 }
    ensures ok { OnOk result (out.new.items ≡ out.old.items ++ difference_code a b to size wanted) }
    ensures err { OnErr result (BeginWith out.old.items out.new.items) }
{
    if wanted == 0 {
        return Ok(());
    }
    elements(out, a, b, to, size)
}

/// The bytes of pointers that tell a relation where the flash does not go past two: all for equality, and those of the
/// address for order.
fn compared_bytes(relation: Relation, bytes: u8) -> u8
    ensures { result ≡ compared_bytes relation bytes }
{
    match relation {
        Relation::Less | Relation::NotLess => 2,
        Relation::Equal | Relation::NotEqual => bytes,
    }
}

/// What is compared of pointers of so many bytes: all where a third byte may have a part of the address.
fn related_bytes(core: Core, relation: Relation, bytes: u8) -> u8
    ensures { result ≡ related_bytes core relation bytes }
{
    match core {
        Core::Small => compared_bytes(relation, bytes),
        Core::Large => bytes,
    }
}

/// Two pointers of so many bytes, and the bytes of what they point to.
#[derive(Clone, Copy)]
pub struct Pointers {
    pub left: Location,
    pub right: Location,
    pub bytes: u8,
    pub size: u32,
}

/// Two pointers, or where they are exchanged the other way round, as operands of a relation.
fn operands_of(core: Core, relation: Relation, exchanged: bool, of: Pointers) -> Operands
    ensures signed { result.signed ≡ false }
    ensures bytes { result.bytes ≡ related_bytes core relation of.bytes }
    ensures straight { exchanged ≡ false → (result.left ≡ of.left) × (result.right ≡ of.right) }
    ensures turned { exchanged ≡ true → (result.left ≡ of.right) × (result.right ≡ of.left) }
{
    let (left, right) = if exchanged {
        (of.right, of.left)
    } else {
        (of.left, of.right)
    };
    Operands {
        signed: false,
        bytes: related_bytes(core, relation, of.bytes),
        left,
        right,
    }
}

/// Appends code that tells how operands stand, or where this is told by a flag, compares them alone. Where memory runs out,
/// a part of the code is appended.
#[tactic(auto, using(crate::proofs::Emits::fewer_bytes))]
fn order(
    out: &mut Seq<AsmItem>,
    telling: Option<Told>,
    relation: Relation,
    of: Operands,
    to: Location,
    wanted: u8,
) -> Result<(), NoMemory>
    requires left { HasBytes of.left of.bytes }
    requires right { HasBytes of.right of.bytes }
    requires to { HasBytes to wanted }
    requires signed { of.signed ≡ false }
    ensures ok { OnOk result (out.new.items ≡ out.old.items
        ++ ordered_code telling relation of.left of.right to of.bytes wanted) }
    ensures err { OnErr result (BeginWith out.old.items out.new.items) }
{
    match telling {
        None => tell(out, relation, of, to, wanted),
        Some(_) if wanted == 0 => Ok(()),
        Some(_) => compare(out, of.right, of.left, of.bytes),
    }
}

/// Appends the code of an operator on two pointers: their difference in elements, or a comparison, which may be told by a
/// flag. Where memory runs out, a part of the code is appended.
#[tactic(auto, using(crate::proofs::Emits::fewer_bytes, crate::proofs::Emits::fewer_related))]
pub fn combine_pointers(
    out: &mut Seq<AsmItem>,
    telling: Option<Told>,
    core: Core,
    family: Family,
    of: Pointers,
    to: Location,
    wanted: u8,
) -> Result<(), NoMemory>
    requires left { HasBytes of.left of.bytes }
    requires right { HasBytes of.right of.bytes }
    requires two { 2 ≤ of.bytes }
    requires to { HasBytes to 2 }
    requires most { wanted ≤ 2 }
    ensures ok { OnOk result (out.new.items ≡ out.old.items
        ++ pointers_code telling core family of.left of.right to of.bytes of.size wanted) }
    ensures err { OnErr result (BeginWith out.old.items out.new.items) }
{
    match family {
        Family::Combined(_) => subtract_pointers(out, of.left, of.right, to, of.size, wanted),
        Family::Compared {
            relation,
            exchanged,
        } => {
            let operands = operands_of(core, relation, exchanged, of);
            order(out, telling, relation, operands, to, wanted)
        }
        _ => Ok(()),
    }
}

pub(crate) fn is_difference(op: BinOp) -> bool
    ensures { result ≡ is_difference op }
{
    matches!(op, BinOp::Sub)
}

/// Appends the code of a difference or a comparison of the pointers in two temporaries.
#[tactic(auto, using(crate::proofs::Emits::fewer_bytes))]
fn two_pointers(
    out: &mut Seq<AsmItem>,
    telling: Option<Told>,
    core: Core,
    homes: Homes,
    program: &IrProgram,
    op: BinOp,
    to: Temp,
    a: Temp,
    aty: &CType,
    b: Temp,
    wanted: u8,
) -> Result<(), NoMemory>
    requires structs { AreStructs (declarations program.now).structs }
    requires known { IsExprType (declarations program.now) (plain_type aty.now) }
    requires two { 2 ≤ a.bytes }
    requires same { b.bytes ≡ a.bytes }
    requires result { to.bytes ≡ 2 }
    requires most { wanted ≤ to.bytes }
    ensures ok { OnOk result (out.new.items ≡ out.old.items
        ++ pointers_code telling core (family_of op) (home homes a) (home homes b) (home homes to) a.bytes
        (element_size (declarations program.now) (plain_type aty.now)) wanted) }
    ensures err { OnErr result (BeginWith out.old.items out.new.items) }
{
    let of = Pointers {
        left: home(homes, a),
        right: home(homes, b),
        bytes: a.bytes,
        size: element_size(program, aty),
    };
    let to = home(homes, to);
    combine_pointers(out, telling, core, family_of(op), of, to, wanted)
}

/// Appends the code of a pointer in a temporary plus a number of elements in another one, or less it, where their number may
/// be known.
#[tactic(auto, using(crate::proofs::Emits::fewer_bytes))]
fn pointer_and_number(
    out: &mut Seq<AsmItem>,
    known: Option<i128>,
    core: Core,
    homes: Homes,
    program: &IrProgram,
    minus: bool,
    to: Temp,
    pointer: Temp,
    pty: &CType,
    number: Temp,
    nty: &CType,
    wanted: u8,
) -> Result<(), NoMemory>
    requires structs { AreStructs (declarations program.now).structs }
    requires known { IsExprType (declarations program.now) (plain_type pty.now) }
    requires two { 2 ≤ pointer.bytes }
    requires some { 1 ≤ number.bytes }
    requires result { to.bytes ≡ pointer.bytes }
    requires most { wanted ≤ to.bytes }
    ensures ok { OnOk result (out.new.items ≡ out.old.items
        ++ offset_by known core minus (is_signed (plain_type nty.now)) (home homes pointer) (home homes number) (home homes to)
        (max 2 wanted) number.bytes (element_size (declarations program.now) (plain_type pty.now)) wanted) }
    ensures err { OnErr result (BeginWith out.old.items out.new.items) }
{
    let of = Offset {
        minus,
        from: home(homes, pointer),
        bytes: wanted.max(2),
        signed: is_signed(nty),
        index: home(homes, number),
        index_bytes: number.bytes,
    };
    let size = element_size(program, pty);
    move_by(out, known, core, of, home(homes, to), size, wanted)
}

/// Appends the code of a pointer in a temporary moved by an index that stands in R30, or in R31:R30. Where memory runs out,
/// a part of the code is appended.
pub fn move_by_told(
    out: &mut Seq<AsmItem>,
    core: Core,
    homes: Homes,
    program: &IrProgram,
    op: BinOp,
    ty: &CType,
    to: Temp,
    a: Temp,
    aty: &CType,
    b: Temp,
    bty: &CType,
    wanted: u8,
) -> Result<(), NoMemory>
    requires bytes { PointersHaveBytes (declarations program.now) op wanted to a b (plain_type ty.now) (plain_type aty.now)
        (plain_type bty.now) }
    requires few { b.bytes ≤ 2 }
    requires moves { moves_pointer op (plain_type aty.now) (plain_type bty.now) ≡ true }
    ensures ok { OnOk result (out.new.items ≡ out.old.items
        ++ offset_code core (is_difference op) (is_signed (plain_type bty.now)) (home homes a) z_pair (home homes to)
        (max 2 wanted) b.bytes (element_size (declarations program.now) (plain_type aty.now)) wanted) }
    ensures err { OnErr result (BeginWith out.old.items out.new.items) }
{
    let of = Offset {
        minus: is_difference(op),
        from: home(homes, a),
        bytes: wanted.max(2),
        signed: is_signed(bty),
        index: Location::InRegisters(30),
        index_bytes: b.bytes,
    };
    let size = element_size(program, aty);
    move_pointer(out, core, of, home(homes, to), size, wanted)
}

/// Appends the code of a binary operator on operands of which one is a pointer at least, of whose result so many bytes
/// are wanted, or where it tells something by a flag, of the comparison alone. The second operand may be known to hold a
/// number. Where memory runs out, a part of the code is appended.
pub fn pointer_binary(
    out: &mut Seq<AsmItem>,
    known: Option<RightNumber>,
    telling: Option<Told>,
    core: Core,
    homes: Homes,
    program: &IrProgram,
    op: BinOp,
    ty: &CType,
    to: Temp,
    a: Temp,
    aty: &CType,
    b: Temp,
    bty: &CType,
    wanted: u8,
) -> Result<(), NoMemory>
    requires { PointersHaveBytes (declarations program.now) op wanted to a b (plain_type ty.now) (plain_type aty.now)
        (plain_type bty.now) }
    ensures ok { OnOk result (out.new.items ≡ out.old.items
        ++ pointer_binary known telling core (is_pointer (plain_type aty.now)) (is_pointer (plain_type bty.now))
        (declarations program.now) op (plain_type aty.now) (plain_type bty.now) (home homes a) (home homes b) (home homes to)
        a.bytes b.bytes wanted) }
    ensures err { OnErr result (BeginWith out.old.items out.new.items) }
{
    match (is_pointer(aty), is_pointer(bty)) {
        (true, true) => two_pointers(
            out, telling, core, homes, program, op, to, a, aty, b, wanted,
        ),
        (true, false) => {
            let (known, minus) = (number_known(known), is_difference(op));
            pointer_and_number(
                out, known, core, homes, program, minus, to, a, aty, b, bty, wanted,
            )
        }
        (false, true) => {
            pointer_and_number(
                out, None, core, homes, program, false, to, b, bty, a, aty, wanted,
            )
        }
        (false, false) => Ok(()),
    }
}

/// Appends the code of a conversion of a pointer, of whose result so many bytes are wanted: to a pointer of three bytes
/// with its tag, or without one. Where memory runs out, a part of the code is appended.
#[tactic(auto, using(crate::proofs::Emits::fewer_bytes))]
pub fn pointer_conversion(
    out: &mut Seq<AsmItem>,
    homes: Homes,
    to: Temp,
    ty: &CType,
    a: Temp,
    aty: &CType,
    wanted: u8,
) -> Result<(), NoMemory>
    requires pointer { is_pointer (plain_type aty.now) ≡ true }
    requires bytes { PointerHasBytes wanted to a (plain_type ty.now) (plain_type aty.now) }
    ensures ok { OnOk result (out.new.items ≡ out.old.items
        ++ pointer_conversion (plain_type aty.now) (home homes a) (home homes to) a.bytes wanted) }
    ensures err { OnErr result (BeginWith out.old.items out.new.items) }
{
    move_number(out, home(homes, a), home(homes, to), wanted.min(a.bytes))?;
    if wanted <= a.bytes {
        return Ok(());
    }
    embed(out, is_into_data(aty), home(homes, to))
}
