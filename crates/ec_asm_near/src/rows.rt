//! What stands for one item: one item or two.
ghost use Rattle.std.specs.Prelude.{◌≡◌, ◌++◌, OnOk};
ghost use Rattle.ec_asm.specs.Items.{code_words};
ghost use Rattle.ec_asm_near.specs.Rows.{items_of};

use ec_asm::{AsmItem, item_words};
use ec_space::{NoMemory, Seq};

/// The items that stand for one.
#[derive(Clone, Copy)]
pub(crate) enum Row {
    One(AsmItem),
    Two(AsmItem, AsmItem),
}

/// The words of the items of a row.
pub(crate) fn row_words(row: Row) -> u16
    ensures { result ≡ code_words (items_of row) }
{
    match row {
        Row::One(item) => u16::from(item_words(item)),
        Row::Two(first, second) => u16::from(item_words(first)) + u16::from(item_words(second)),
    }
}

/// Appends the items of a row.
pub(crate) fn push_row(out: &mut Seq<AsmItem>, row: Row) -> Result<(), NoMemory>
    ensures { OnOk result (out.new.items ≡ out.old.items ++ items_of row) }
{
    match row {
        Row::One(item) => out.push(item),
        Row::Two(first, second) => out.extend_from_slice(&[first, second]),
    }
}
