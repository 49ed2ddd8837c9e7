//! Programs that can be placed.
ghost use Rattle.std.specs.Prelude.{◌≡◌, ◌↔◌, IsTrue};
ghost use Rattle.std.specs.List.{list_all};
ghost use Rattle.ec_asm.specs.Valid.{sizes_of, size_of, is_offset, is_valid_item, used_label, is_label, stands_once};
ghost use Rattle.ec_asm.specs.Valid.{is_placed, ValidAsm};

use crate::instructions::is_once;
use crate::items::{AsmItem, AsmProgram};
use ec_isa::is_in_table;

/// The bytes of what the number of an object names, or None where it names nothing. `objects` has the bytes of each
/// object, `frames` for each function the sixteenth part of the bytes of its scratch memory, and `work` is the number
/// of work bytes.
pub fn size_of(object: u16, objects: &[u32], frames: &[u16], work: u32) -> Option<u32>
    ensures { result ≡ size_of (sizes_of objects.now frames.now work) object }
{
    if object < 1024 {
        objects.get(usize::from(object)).copied()
    } else if object < 1280 {
        match frames.get(usize::from(object - 1024)) {
            Some(frame) => Some(16 * u32::from(*frame)),
            None => None,
        }
    } else if object == 1280 {
        Some(work)
    } else if object == 1281 {
        Some(1)
    } else if object < 2048 {
        None
    } else {
        objects.get(usize::from(object - 2048)).copied()
    }
}

/// Whether an offset is from 0 to the size of what the number of an object names.
fn is_offset(object: u16, offset: u32, objects: &[u32], frames: &[u16], work: u32) -> bool
    ensures { result ≡ is_offset (sizes_of objects.now frames.now work) object offset }
{
    match size_of(object, objects, frames, work) {
        Some(size) => offset <= size,
        None => false,
    }
}

/// Whether the fields of an item are in range.
pub fn is_valid_item(item: AsmItem, objects: &[u32], frames: &[u16], work: u32) -> bool
    ensures { result ≡ is_valid_item (sizes_of objects.now frames.now work) item }
{
    match item {
        AsmItem::Plain(instr) => is_in_table(instr),
        AsmItem::BranchTo { flag, .. } => flag < 8,
        AsmItem::LoadPart {
            d,
            object,
            offset,
            part,
        } => { 16 <= d && d < 32 && part <= 2 && is_offset(object, offset, objects, frames, work) }
        AsmItem::LoadObj { d, object, offset } => {
            d < 32 && is_offset(object, offset, objects, frames, work)
        }
        AsmItem::StoreObj { object, offset, r } => {
            r < 32 && is_offset(object, offset, objects, frames, work)
        }
        _ => true,
    }
}

/// The label that an item refers to.
pub fn used_label(item: AsmItem) -> Option<u64>
    ensures { result ≡ used_label item }
{
    match item {
        AsmItem::JumpTo(label) | AsmItem::CallTo(label) | AsmItem::BranchTo { label, .. } => {
            Some(label)
        }
        _ => None,
    }
}

/// Whether an item is the place of a label.
fn is_label(label: u64, item: AsmItem) -> bool
    ensures { result ≡ is_label label item }
{
    match item {
        AsmItem::Label(placed) => placed == label,
        _ => false,
    }
}

/// Whether a label stands exactly once among items.
pub fn stands_once(items: &[AsmItem], label: u64) -> bool
    ensures { result ≡ stands_once items.now label }
{
    is_once(items.iter().filter(|item| is_label(label, **item)).count())
}

/// Whether the label that an item refers to, if any, stands exactly once among items.
fn is_placed(items: &[AsmItem], label: Option<u64>) -> bool
    ensures { result ≡ is_placed items.now label }
{
    match label {
        Some(label) => stands_once(items, label),
        None => true,
    }
}

/// Whether the fields of all items are in range.
fn are_valid(items: &[AsmItem], objects: &[u32], frames: &[u16], work: u32) -> bool
    ensures { result ≡ list_all (is_valid_item (sizes_of objects.now frames.now work)) items.now }
{
    items
        .iter()
        .all(|item| is_valid_item(*item, objects, frames, work))
}

/// Whether each label that items refer to stands exactly once among them.
fn are_placed(items: &[AsmItem]) -> bool
    ensures { result ≡ list_all (λ item. is_placed items.now (used_label item)) items.now }
{
    items.iter().all(|item| is_placed(items, used_label(*item)))
}

/// Whether a program can be placed, for objects of these sizes and so many work bytes: the fields of all items are in
/// range, each label that is used, `entry` among them, stands exactly once, and there are at most 256 functions.
pub fn is_valid_asm(program: &AsmProgram, objects: &[u32], work: u32) -> bool
    ensures { IsTrue result ↔ ValidAsm objects.now work program.now }
{
    let items = program.items.as_slice();
    let frames = program.frames.as_slice();
    let valid = are_valid(items, objects, frames, work);
    let placed = are_placed(items) && stands_once(items, program.entry);
    valid && placed && frames.len() <= 256
}
