//! Relations of two numbers of several bytes.
ghost use Rattle.std.specs.Prelude.{◌≡◌, ◌++◌, ◌∷◌, [], pos, OnOk, OnErr};
ghost use Rattle.ec_runs.specs.Behaviours.{BeginWith};
ghost use Rattle.ec_asm.specs.Items.{branch_if};
ghost use Rattle.ec_asm.specs.Pieces.{HasBytes};
ghost use Rattle.ec_select_order.specs.Relations.{flag_of, is_set, truth_in_code, relation_code, relation_in_code};
ghost use Rattle.ec_select_order.specs.Relations.{unless_code};

use ec_asm::{AsmItem, Location, compare};
use ec_isa::Instr;
use ec_space::{NoMemory, Seq};

/// How one number may stand to another one.
#[derive(Clone, Copy)]
pub enum Relation {
    Less,
    NotLess,
    Equal,
    NotEqual,
}

/// The flag that a comparison leaves for a relation: S for signed numbers and C for unsigned ones that are less, Z for
/// equal ones.
fn flag_of(relation: Relation, signed: bool) -> u8
    ensures { result ≡ flag_of relation signed }
{
    match relation {
        Relation::Less | Relation::NotLess => if signed { 4 } else { 0 },
        Relation::Equal | Relation::NotEqual => 1,
    }
}

/// Whether the relation holds where that flag is 1.
fn is_set(relation: Relation) -> bool
    ensures { result ≡ is_set relation }
{
    matches!(relation, Relation::Less | Relation::Equal)
}

/// A branch over one word, where a flag is 1 or where it is 0.
fn skip_if(set: bool, flag: u8) -> Instr
    ensures { result ≡ branch_if set flag (pos 1) }
{
    if set {
        Instr::Brbs { s: flag, k: 1 }
    } else {
        Instr::Brbc { s: flag, k: 1 }
    }
}

/// Appends code that leaves in a register what the flags tell of a relation: 1 where it holds, and else 0.
pub fn truth_in(
    out: &mut Seq<AsmItem>,
    register: u8,
    relation: Relation,
    signed: bool,
) -> Result<(), NoMemory>
    ensures ok { OnOk result (out.new.items ≡ out.old.items ++ truth_in_code register relation signed) }
    ensures err { OnErr result (out.new.items ≡ out.old.items) }
{
    out.extend_from_slice(&[
        AsmItem::Plain(Instr::Ldi { d: register, k: 1 }),
        AsmItem::Plain(skip_if(is_set(relation), flag_of(relation, signed))),
        AsmItem::Plain(Instr::Ldi { d: register, k: 0 }),
    ])
}

/// Appends code that leaves 1 in R30 where the number at `left` stands in the relation to that at `right`, and else 0.
/// Where memory runs out, a part of the code is appended.
pub fn relate(
    out: &mut Seq<AsmItem>,
    relation: Relation,
    signed: bool,
    left: Location,
    right: Location,
    bytes: u8,
) -> Result<(), NoMemory>
    requires left { HasBytes left bytes }
    requires right { HasBytes right bytes }
    ensures ok { OnOk result (out.new.items ≡ out.old.items ++ relation_code relation signed left right bytes) }
    ensures err { OnErr result (BeginWith out.old.items out.new.items) }
{
    relate_in(out, 30, relation, signed, left, right, bytes)
}

/// Appends such code that leaves it in a register, which may be one of an operand. Where memory runs out, a part of the code
/// is appended.
pub fn relate_in(
    out: &mut Seq<AsmItem>,
    register: u8,
    relation: Relation,
    signed: bool,
    left: Location,
    right: Location,
    bytes: u8,
) -> Result<(), NoMemory>
    requires left { HasBytes left bytes }
    requires right { HasBytes right bytes }
    ensures ok { OnOk result (out.new.items
        ≡ out.old.items ++ relation_in_code register relation signed left right bytes) }
    ensures err { OnErr result (BeginWith out.old.items out.new.items) }
{
    compare(out, right, left, bytes)?;
    truth_in(out, register, relation, signed)
}

/// Appends a branch to a label, which behind a comparison is taken where the relation does not hold.
pub fn branch_unless(
    out: &mut Seq<AsmItem>,
    relation: Relation,
    signed: bool,
    label: u64,
) -> Result<(), NoMemory>
    ensures ok { OnOk result (out.new.items ≡ out.old.items ++ unless_code relation signed label) }
    ensures err { OnErr result (out.new.items ≡ out.old.items) }
{
    out.extend_from_slice(&[AsmItem::BranchTo {
        set: !is_set(relation),
        flag: flag_of(relation, signed),
        label,
    }])
}
