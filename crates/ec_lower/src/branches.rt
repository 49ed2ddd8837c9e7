//! Branches on conditions.
ghost use Rattle.std.specs.Prelude.{◌≡◌, OnOk};
ghost use Rattle.ec_lower.specs.Branches.{plain_branch};
ghost use Rattle.ec_lower.specs.Emits.{Emits};
ghost use Rattle.ec_lower_code.specs.Code.{branch_to, opposite, zero_label, other_label, and_end, or_end};

use crate::emit::{put, put_turn};
use ec_ir::{Ir, Temp};
use ec_space::{NoMemory, Seq};

/// Where a condition leads to.
#[derive(Clone, Copy)]
pub enum Branch {
    /// To a label where it is 0, and else to what follows.
    WhereZero(u64),
    /// To the first label where it is not 0, and else past the second one to what follows.
    WhereNot(u64, u64),
}

/// That of the operand of `!`, which has a label for it.
pub fn opposite(to: Branch, l: u64) -> Branch
    ensures { plain_branch result ≡ opposite (plain_branch to) l }
{
    match to {
        Branch::WhereZero(label) => Branch::WhereNot(label, l),
        Branch::WhereNot(label, _) => Branch::WhereZero(label),
    }
}

/// Where the first operand of `&&` leads to if it is 0; `l` stands behind the second one.
pub fn zero_label(to: Branch, l: u64) -> u64
    ensures { result ≡ zero_label (plain_branch to) l }
{
    match to {
        Branch::WhereZero(label) => label,
        Branch::WhereNot(..) => l,
    }
}

/// Where the first operand of `||` leads to if it is not 0; `l` stands behind the second one.
pub fn other_label(to: Branch, l: u64) -> u64
    ensures { result ≡ other_label (plain_branch to) l }
{
    match to {
        Branch::WhereZero(_) => l,
        Branch::WhereNot(label, _) => label,
    }
}

/// A branch on what a temporary holds.
pub fn put_branch(code: &mut Seq<Ir>, to: Branch, at: Temp) -> Result<(), NoMemory>
    ensures { OnOk result (Emits code.old.items code.new.items (branch_to (plain_branch to) at)) }
{
    match to {
        Branch::WhereZero(label) => put(code, Ir::BranchZero(at, label)),
        Branch::WhereNot(label, past) => {
            put(code, Ir::BranchZero(at, past))?;
            put_turn(code, label, past)
        }
    }
}

/// What stands behind `&&` as a condition.
pub fn put_and_end(code: &mut Seq<Ir>, to: Branch, l: u64) -> Result<(), NoMemory>
    ensures { OnOk result (Emits code.old.items code.new.items (and_end (plain_branch to) l)) }
{
    match to {
        Branch::WhereZero(_) => Ok(()),
        Branch::WhereNot(..) => put(code, Ir::Label(l)),
    }
}

/// What stands behind `||` as a condition.
pub fn put_or_end(code: &mut Seq<Ir>, to: Branch, l: u64) -> Result<(), NoMemory>
    ensures { OnOk result (Emits code.old.items code.new.items (or_end (plain_branch to) l)) }
{
    match to {
        Branch::WhereZero(_) => put(code, Ir::Label(l)),
        Branch::WhereNot(..) => Ok(()),
    }
}
