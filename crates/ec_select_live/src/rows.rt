//! A row of bytes, which tells how many low bytes of each place are needed.
ghost use Rattle.std.specs.Prelude.{◌≡◌, ◌<◌, length};
ghost use Rattle.ec_select_operations.specs.Needs.{nothing, at_least, without, wanted, all_or_none};
ghost use Rattle.ec_select_operations.specs.Needs.{operand_wanted, first_wanted, second_wanted, only_wanted};
ghost use Rattle.ec_select_operations.specs.Needs.{pointer_wanted, moved_wanted};
ghost use Rattle.ec_select_operations.specs.Needs.{right_wanted, is_of_low_bytes};
ghost use Rattle.ec_select_live.specs.Tables.{need_of, AreSame};

use ec_core::BinOp;
use ec_ir::Temp;

/// The bytes of a temporary that are needed.
pub fn wanted_of(need: &[u8], t: Temp) -> u8
    requires { t.at < length need.now }
    ensures { result ≡ wanted (need_of need.now) t }
{
    need[usize::from(t.at)].min(t.bytes)
}

/// Of a temporary nothing is needed.
pub fn forget(need: &mut [u8], t: Temp)
    requires { t.at < length need.old }
    ensures { AreSame (length need.old) (need_of need.new) (without t.at (need_of need.old)) }
{
    need[usize::from(t.at)] = 0;
}

/// Of a temporary at least `n` bytes are needed.
pub fn keep(need: &mut [u8], t: Temp, n: u8)
    requires { t.at < length need.old }
    ensures { AreSame (length need.old) (need_of need.new) (at_least t.at n (need_of need.old)) }
{
    let at = usize::from(t.at);
    need[at] = need[at].max(n);
}

/// Of no place anything is needed.
pub fn clear(need: &mut [u8])
    ensures { AreSame (length need.old) (need_of need.new) nothing }
{
    for x in need.iter_mut() {
        *x = 0;
    }
}

fn is_of_low_bytes(op: BinOp) -> bool
    ensures { result ≡ is_of_low_bytes op }
{
    matches!(
        op,
        BinOp::Add | BinOp::Sub | BinOp::And | BinOp::Or | BinOp::Xor | BinOp::Shl
    )
}

fn all_or_none(bytes: u8, n: u8) -> u8
    ensures { result ≡ all_or_none bytes n }
{
    if n == 0 { 0 } else { bytes }
}

/// The bytes of the first operand that `n` bytes of an operator's result take.
fn operand_wanted(op: BinOp, bytes: u8, n: u8) -> u8
    ensures { result ≡ operand_wanted op bytes n }
{
    if is_of_low_bytes(op) {
        n
    } else {
        all_or_none(bytes, n)
    }
}

/// The same, or where all bytes are taken all of them.
pub fn first_wanted(whole: bool, op: BinOp, bytes: u8, n: u8) -> u8
    ensures { result ≡ first_wanted whole op bytes n }
{
    if whole {
        all_or_none(bytes, n)
    } else {
        operand_wanted(op, bytes, n)
    }
}

/// The bytes of the second one.
fn right_wanted(op: BinOp, bytes: u8, n: u8) -> u8
    ensures { result ≡ right_wanted op bytes n }
{
    match op {
        BinOp::Shl | BinOp::Shr => all_or_none(1, n),
        _ => operand_wanted(op, bytes, n),
    }
}

/// The same, or where all bytes are taken all of them.
pub fn second_wanted(whole: bool, op: BinOp, bytes: u8, n: u8) -> u8
    ensures { result ≡ second_wanted whole op bytes n }
{
    if whole {
        all_or_none(bytes, n)
    } else {
        right_wanted(op, bytes, n)
    }
}

/// As many bytes of a pointer as are needed, but at least the two of an address.
fn pointer_wanted(n: u8) -> u8
    ensures { result ≡ pointer_wanted n }
{
    if n == 0 { 0 } else { n.max(2) }
}

/// The bytes of an operand that n bytes of the result take: of a pointer that is moved as many, and of others so many.
pub fn moved_wanted(moved: bool, n: u8, others: u8) -> u8
    ensures { result ≡ moved_wanted moved n others }
{
    if moved { pointer_wanted(n) } else { others }
}

/// The bytes of the only operand that `n` bytes of a result take: as many, or where all bytes are taken all of them.
pub fn only_wanted(whole: bool, bytes: u8, n: u8) -> u8
    ensures { result ≡ only_wanted whole bytes n }
{
    if whole { all_or_none(bytes, n) } else { n }
}
