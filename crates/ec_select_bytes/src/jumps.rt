//! The code of a jump.
ghost use Rattle.std.specs.Prelude.{◌≡◌, [], ◌∷◌, ◌++◌, OnOk, OnErr};

use ec_asm::AsmItem;
use ec_space::{NoMemory, Seq};

/// Appends a jump to a label. Where memory runs out, nothing is appended.
pub fn jump(out: &mut Seq<AsmItem>, label: u64) -> Result<(), NoMemory>
    ensures ok { OnOk result (out.new.items ≡ out.old.items ++ AsmItem.JumpTo label ∷ []) }
    ensures err { OnErr result (out.new.items ≡ out.old.items) }
{
    out.extend_from_slice(&[AsmItem::JumpTo(label)])
}
