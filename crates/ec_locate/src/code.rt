//! The bytes of code, with its labels and the places of objects put in.
ghost use Rattle.std.specs.Prelude.{◌≡◌, ◌<◌, ◌≤◌, ◌^◌, ◌++◌, IsTrue, All, OnOk, IfOk, [], pos, length};
ghost use Rattle.std.specs.Prelude.{map, true, slice_index};
ghost use Rattle.std.specs.Prelude.{slice_set};
ghost use Rattle.ec_isa.specs.declared.instructions.Instr.TheVariants.{Jmp, Call};
ghost use Rattle.ec_isa.specs.Table.{in_table};
ghost use Rattle.ec_avr.specs.Placed.{code_bytes};
ghost use Rattle.ec_asm.specs.Items.{branch_unless, part_of, address_part, code_words};
ghost use Rattle.ec_asm.specs.Placed.{bytes_of_all, instructions, code_image};
ghost use Rattle.ec_locate.specs.Code.{layout_view, label_word, start_of, far_of, address_of, resolved, has_words};
ghost use Rattle.ec_locate.specs.Code.{overwritten};

use crate::labels::label_word;
use crate::layout::Layout;
use ec_asm::AsmItem;
use ec_avr::Image;
use ec_isa::{Instr, encode};
use ec_space::{NoMemory, Seq};
use std::alloc::Global;

/// The address of the first byte of what a number names.
fn start_of(layout: &Layout, last: u32, object: u16) -> u32
    ensures { result ≡ start_of (layout_view layout.now) last object }
{
    if object < 1024 {
        match layout.places.get(usize::from(object)) {
            Some(place) => place.offset,
            None => 0,
        }
    } else if object < 1280 {
        number_at(layout.frames.as_slice(), usize::from(object - 1024))
    } else if object == 1280 {
        layout.work
    } else if object == 1281 {
        last
    } else if object < 2048 {
        0
    } else {
        number_at(layout.initials.as_slice(), usize::from(object - 2048))
    }
}

/// A number of a list, 0 past its end.
pub(crate) fn number_at(numbers: &[u32], i: usize) -> u32
    ensures { result ≡ slice_index numbers.now i }
{
    match numbers.get(i) {
        Some(number) => *number,
        None => 0,
    }
}

/// The address of a byte of what a number names.
fn far_of(layout: &Layout, last: u32, object: u16, offset: u32) -> u64
    ensures { result ≡ far_of (layout_view layout.now) last object offset }
{
    u64::from(start_of(layout, last, object)) + u64::from(offset)
}

/// The same modulo 65,536.
fn address_of(layout: &Layout, last: u32, object: u16, offset: u32) -> u16
    ensures { result ≡ address_of (layout_view layout.now) last object offset }
{
    (far_of(layout, last, object, offset) % 65_536) as u16
}

/// A byte of an address, 0 the lowest.
fn part_of(address: u64, part: u8) -> u8
    requires { part ≤ 2 }
    ensures { result ≡ part_of address part }
{
    match part {
        0 => (address % 256) as u8,
        1 => (address / 256 % 256) as u8,
        _ => (address / 65_536 % 256) as u8,
    }
}

/// A byte of the address of a byte of what a number names: the lower two by modulo 65,536.
fn address_part(layout: &Layout, last: u32, object: u16, offset: u32, part: u8) -> u8
    requires { part ≤ 2 }
    ensures { result ≡ address_part (resolved [] (layout_view layout.now) last) object offset part }
{
    if part < 2 {
        part_of(u64::from(address_of(layout, last, object, offset)), part)
    } else {
        part_of(far_of(layout, last, object, offset), part)
    }
}

fn branch_unless(set: bool, flag: u8) -> Instr
    ensures { result ≡ branch_unless set flag (pos 2) }
{
    if set {
        Instr::Brbc { s: flag, k: 2 }
    } else {
        Instr::Brbs { s: flag, k: 2 }
    }
}

/// Appends the bytes of an instruction.
fn put_instr(out: &mut Seq<u8>, instr: Instr) -> Result<(), NoMemory>
    requires { IsTrue (in_table instr) }
    ensures { OnOk result (out.new.items ≡ out.old.items ++ code_bytes instr) }
{
    let words = encode(instr);
    let low = (words.first % 256) as u8;
    let high = (words.first / 256) as u8;
    match words.second {
        None => out.extend_from_slice(&[low, high]),
        Some(second) => {
            let second_low = (second % 256) as u8;
            let second_high = (second / 256) as u8;
            out.extend_from_slice(&[low, high, second_low, second_high])
        }
    }
}

/// The jump to a label.
fn jump_to(items: &[AsmItem], label: u64) -> Instr
    requires { code_words items.now < 2 ^ 16 }
    ensures { result ≡ Jmp (label_word items.now label) }
{
    Instr::Jmp {
        k: label_word(items, label),
    }
}

/// The call of a label.
fn call_of(items: &[AsmItem], label: u64) -> Instr
    requires { code_words items.now < 2 ^ 16 }
    ensures { result ≡ Call (label_word items.now label) }
{
    Instr::Call {
        k: label_word(items, label),
    }
}

/// Appends the bytes of an item.
fn put_item(
    out: &mut Seq<u8>,
    item: AsmItem,
    items: &[AsmItem],
    layout: &Layout,
    last: u32,
) -> Result<(), NoMemory>
    requires words { IsTrue (has_words item) }
    requires room { code_words items.now < 2 ^ 16 }
    ensures { OnOk result (out.new.items ≡ out.old.items
        ++ bytes_of_all (instructions (resolved items.now (layout_view layout.now) last) item)) }
{
    match item {
        AsmItem::Plain(instr) => put_instr(out, instr),
        AsmItem::Label(_) => Ok(()),
        AsmItem::JumpTo(label) => put_instr(out, jump_to(items, label)),
        AsmItem::CallTo(label) => put_instr(out, call_of(items, label)),
        AsmItem::BranchTo { set, flag, label } => {
            put_instr(out, branch_unless(set, flag))?;
            put_instr(out, jump_to(items, label))
        }
        AsmItem::LoadPart {
            d,
            object,
            offset,
            part,
        } => {
            let k = address_part(layout, last, object, offset, part);
            put_instr(out, Instr::Ldi { d, k })
        }
        AsmItem::LoadObj { d, object, offset } => {
            let k = address_of(layout, last, object, offset);
            put_instr(out, Instr::Lds { d, k })
        }
        AsmItem::StoreObj { object, offset, r } => {
            let k = address_of(layout, last, object, offset);
            put_instr(out, Instr::Sts { k, r })
        }
    }
}

/// The bytes of items.
pub(crate) fn code_of(
    alloc: Global,
    items: &[AsmItem],
    layout: &Layout,
    last: u32,
) -> Result<Seq<u8>, NoMemory>
    requires words { All (λ item. IsTrue (has_words item)) items.now }
    requires room { code_words items.now < 2 ^ 16 }
    ensures { IfOk result (λ out. out.items
        ≡ code_image (resolved items.now (layout_view layout.now) last) items.now) }
{
    let mut out = Seq::new(alloc);
    for item in items {
        put_item(&mut out, *item, items, layout, last)?;
    }
    Ok(out)
}

/// Writes a byte where the flash has one.
fn write_within(image: &mut Image, at: usize, byte: u8)
    ensures core { image.new.core ≡ image.old.core }
    ensures bytes { image.new.bytes.items ≡ slice_set image.old.bytes.items at byte }
    ensures written { image.new.written.items ≡ slice_set image.old.written.items at true }
{
    if at < image.bytes.len() {
        image.write(at, byte);
    }
}

/// Writes bytes from an address on, as far as the flash goes.
pub(crate) fn write_from(image: &mut Image, at: u32, bytes: &[u8])
    ensures core { image.new.core ≡ image.old.core }
    ensures bytes { image.new.bytes.items ≡ overwritten image.old.bytes.items at bytes.now }
    ensures written { image.new.written.items ≡ overwritten image.old.written.items at (map (λ byte. true) bytes.now) }
{
    let mut next = at as usize;
    for byte in bytes {
        write_within(image, next, *byte);
        next += 1;
    }
}
