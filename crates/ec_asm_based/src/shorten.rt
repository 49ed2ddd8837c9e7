//! Loads and stores near a base in one word.
ghost use Rattle.std.specs.Prelude.{◌≡◌, ◌≤◌, ◌<◌, ◌/◌, ◌%◌, ◌∷◌, [], map, count_by, IfOk, OnOk};
ghost use Rattle.ec_isa.specs.declared.instructions.Instr.TheVariants.{Ldi};
ghost use Rattle.ec_asm.specs.declared.items.AsmItem.TheVariants.{Plain};
ghost use Rattle.ec_asm_based.specs.Based.{is_reached, uses, better_base, chosen_base, with_base, based_items};

use crate::base::all_leave_base;
use crate::reach::{Reach, based_item, is_reached};
use ec_asm::AsmItem;
use ec_isa::Instr;
use ec_space::{NoMemory, Seq};
use std::alloc::Global;

/// No base: it is none of data memory's addresses.
const NO_BASE: u32 = 65_536;

/// How many items are near a base.
fn uses(reaches: &[Reach], base: u32, items: &[AsmItem]) -> usize
    requires { base ≤ 65536 }
    ensures { result ≡ uses reaches.now items.now base }
{
    items
        .iter()
        .filter(|item| is_reached(reaches, base, **item))
        .count()
}

/// The one of two bases to which more items are near, the first one where neither is.
fn better(reaches: &[Reach], items: &[AsmItem], base: u32, candidate: u32) -> u32
    requires base { base ≤ 65536 }
    requires candidate { candidate ≤ 65536 }
    ensures better { result ≡ better_base (uses reaches.now items.now) base candidate }
    ensures below { result ≤ 65536 }
{
    if uses(reaches, base, items) < uses(reaches, candidate, items) {
        candidate
    } else {
        base
    }
}

/// The address of the first byte of the object from which on the most items are near, and of the first such object.
fn chosen_base(reaches: &[Reach], items: &[AsmItem]) -> u32
    ensures base { result ≡ chosen_base reaches.now items.now }
    ensures below { result ≤ 65536 }
{
    let mut base = NO_BASE;
    for reach in reaches {
        base = better(reaches, items, base, u32::from(reach.first));
    }
    base
}

/// The items with the base: Y is set to it before them, and what is near it goes by Y.
fn with_base(
    alloc: Global,
    reaches: &[Reach],
    base: u32,
    items: &[AsmItem],
) -> Result<Seq<AsmItem>, NoMemory>
    requires { base < 65536 }
    ensures { IfOk result (λ out. out.items ≡ with_base reaches.now base items.now) }
{
    let mut out = Seq::new(alloc);
    out.push(AsmItem::Plain(Instr::Ldi {
        d: 28,
        k: (base % 256) as u8,
    }))?;
    out.push(AsmItem::Plain(Instr::Ldi {
        d: 29,
        k: (base / 256) as u8,
    }))?;
    for item in items {
        out.push(based_item(reaches, base, *item))?;
    }
    Ok(out)
}

/// The items, with each load and store of a byte that is near the base by Y, in one word. `reaches` tells of each
/// object, by its number, where it stands in data memory.
///
/// The base is the first byte of the object with the most such loads and stores. It is used where that saves more than the two
/// words that set it, and where no item changes Y; else the items stay as they are.
pub fn based(
    alloc: Global,
    reaches: &[Reach],
    items: &Seq<AsmItem>,
) -> Result<Seq<AsmItem>, NoMemory>
    ensures { IfOk result (λ out. out.items ≡ based_items reaches.now items.now.items) }
{
    let all = items.as_slice();
    let base = chosen_base(reaches, all);
    if base < NO_BASE && uses(reaches, base, all) > 2 && all_leave_base(all) {
        return with_base(alloc, reaches, base, all);
    }
    let mut out = Seq::new(alloc);
    out.extend_from_slice(all)?;
    Ok(out)
}
