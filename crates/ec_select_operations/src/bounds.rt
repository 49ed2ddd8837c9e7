//! Relations of a number to a known one.
ghost use Rattle.std.specs.Prelude.{◌≡◌, ◌≤◌, ◌^◌, ◌++◌, OnOk, OnErr};
ghost use Rattle.ec_runs.specs.Behaviours.{BeginWith};
ghost use Rattle.ec_asm.specs.Pieces.{HasBytes};
ghost use Rattle.ec_select_operations.specs.Bounds.{opposite, next_number, is_greatest, exchanged_bound, of_one, simplest};
ghost use Rattle.ec_select_operations.specs.Bounds.{bound_of, is_equality, bounded_code, truth_by_code};

use crate::tests::test_number;
use ec_asm::{AsmItem, Location};
use ec_select_numbers::compare_with;
use ec_select_order::{Relation, truth_in};
use ec_space::{NoMemory, Seq};

/// How a number may stand to a known one, in two's complement or without signs.
#[derive(Clone, Copy)]
pub struct Bound {
    pub relation: Relation,
    pub signed: bool,
    pub number: u128,
}

/// The relation that holds where another one does not.
pub(crate) fn opposite(relation: Relation) -> Relation
    ensures { result ≡ opposite relation }
{
    match relation {
        Relation::Less => Relation::NotLess,
        Relation::NotLess => Relation::Less,
        Relation::Equal => Relation::NotEqual,
        Relation::NotEqual => Relation::Equal,
    }
}

/// The next number of 16 bytes.
fn next_number(number: u128) -> u128
    ensures { result ≡ next_number number }
{
    if number == u128::MAX { 0 } else { number + 1 }
}

/// How many numbers so many bytes have.
#[tactic(auto, using(crate::proofs::Powers::power_some, crate::proofs::Powers::power_few))]
fn power(bytes: u8) -> u128
    requires { bytes ≤ 8 }
    ensures value { result ≡ 256 ^ bytes }
    ensures some { 1 ≤ result }
    ensures few { result ≤ 18446744073709551616 }
{
    256u128.pow(u32::from(bytes))
}

/// Whether a number is the greatest one of so many bytes.
fn is_greatest(signed: bool, bytes: u8, number: u128) -> bool
    ensures { result ≡ is_greatest signed bytes number }
{
    if bytes > 8 {
        return false;
    }
    let all = power(bytes);
    let end = if signed { all / 2 } else { all };
    number % all + 1 == end
}

/// How the second operand stands to a known first one of so many bytes.
fn exchanged_bound(relation: Relation, signed: bool, bytes: u8, number: u128) -> Bound
    ensures { result ≡ exchanged_bound relation signed bytes number }
{
    if is_greatest(signed, bytes, number) {
        Bound {
            relation,
            signed: false,
            number: 0,
        }
    } else {
        Bound {
            relation: opposite(relation),
            signed,
            number: next_number(number),
        }
    }
}

/// A relation to 1 of a number without a sign: x < 1 is x == 0, and 1 <= x is x != 0.
fn of_one(relation: Relation) -> Bound
    ensures { result ≡ of_one relation }
{
    let (relation, number) = match relation {
        Relation::Less => (Relation::Equal, 0),
        Relation::NotLess => (Relation::NotEqual, 0),
        Relation::Equal => (Relation::Equal, 1),
        Relation::NotEqual => (Relation::NotEqual, 1),
    };
    Bound {
        relation,
        signed: false,
        number,
    }
}

fn simplest(of: Bound) -> Bound
    ensures { result ≡ simplest of }
{
    if !of.signed && of.number == 1 {
        of_one(of.relation)
    } else {
        of
    }
}

/// How the first operand stands to a known second one of so many bytes, in a relation of the operands or of them
/// exchanged.
pub(crate) fn bound_of(
    relation: Relation,
    exchanged: bool,
    signed: bool,
    bytes: u8,
    number: u128,
) -> Bound
    ensures { result ≡ bound_of relation exchanged signed bytes number }
{
    if exchanged {
        simplest(exchanged_bound(relation, signed, bytes, number))
    } else {
        simplest(Bound {
            relation,
            signed,
            number,
        })
    }
}

fn is_equality(relation: Relation) -> bool
    ensures { result ≡ is_equality relation }
{
    matches!(relation, Relation::Equal | Relation::NotEqual)
}

/// Appends code that leaves in a flag of the relation whether so many bytes of a number, which may be free, stand so to
/// those of the known one. Where memory runs out, a part of the code is appended.
pub(crate) fn bounded(
    out: &mut Seq<AsmItem>,
    is_free: bool,
    of: Bound,
    at: Location,
    bytes: u8,
) -> Result<(), NoMemory>
    requires at { HasBytes at bytes }
    requires most { bytes ≤ 16 }
    ensures ok { OnOk result (out.new.items ≡ out.old.items ++ bounded_code is_free of at bytes) }
    ensures err { OnErr result (BeginWith out.old.items out.new.items) }
{
    if of.number == 0 && is_equality(of.relation) {
        test_number(out, is_free, at, bytes)
    } else {
        compare_with(out, at, of.number, bytes)
    }
}

/// Appends code that leaves 1 in a register where so many bytes of a number stand so to those of the known one, and else
/// 0. The register may be one of the number. Where memory runs out, a part of the code is appended.
pub(crate) fn truth_by(
    out: &mut Seq<AsmItem>,
    register: u8,
    of: Bound,
    at: Location,
    bytes: u8,
) -> Result<(), NoMemory>
    requires at { HasBytes at bytes }
    requires most { bytes ≤ 16 }
    ensures ok { OnOk result (out.new.items ≡ out.old.items ++ truth_by_code register of at bytes) }
    ensures err { OnErr result (BeginWith out.old.items out.new.items) }
{
    bounded(out, false, of, at, bytes)?;
    truth_in(out, register, of.relation, of.signed)
}
