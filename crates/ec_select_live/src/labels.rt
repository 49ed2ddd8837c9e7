//! What is needed at the labels of a function, and of the results of its operations.
ghost use Rattle.std.specs.Prelude.{◌≡◌, ℕ, ◌<◌, length, map, IfOk, false, true};
ghost use Rattle.ec_ir.specs.Operations.{plain_ir};
ghost use Rattle.ec_ir_known.specs.Known.{right_numbers};
ghost use Rattle.ec_select_operations.specs.Code.{wanted_behind, wanted_bytes};
ghost use Rattle.ec_select_operations.specs.Needs.{Need, facts_of, IsLive};
ghost use Rattle.ec_select_live.specs.Places.{HasPlaces, HavePlaces};
ghost use Rattle.ec_select_live.specs.Tables.{need_of, needs_of, IsBounded, IsTable, IsJoined, TellNoMore, room};
ghost use Rattle.ec_select_live.specs.Least.{IsLeast, HasLabel, HaveLabels};

use crate::needs::before;
use crate::rows::{clear, wanted_of};
use crate::table::{LabelNeeds, zeros};
use ec_ir::Ir;
use ec_ir_known::RightNumber;
use ec_select_operations::number_at;
use ec_space::{NoMemory, Seq};
use std::alloc::Global;

/// At a label at least what is needed behind it is needed. Answers whether that is more than the table told.
fn join_label(table: &mut LabelNeeds, i: &Ir, need: &[u8]) -> bool
    requires { IsBounded (need_of need.now) }
    ensures kept { (slots : ℕ) → IsTable slots (needs_of table.old) → IsTable slots (needs_of table.new) }
    ensures same { result ≡ false → table.new ≡ table.old }
    ensures grown { result ≡ true → room table.new < room table.old }
    ensures joined { result ≡ false
        → IsJoined (length need.now) (needs_of table.new) (plain_ir i.now) (need_of need.now) }
    ensures least { (labels : ℕ) (other : ℕ → Need) → TellNoMore labels (length need.now) (needs_of table.old) other
        → IsJoined (length need.now) other (plain_ir i.now) (need_of need.now)
        → TellNoMore labels (length need.now) (needs_of table.new) other }
{
    match i {
        Ir::Label(l) => table.join(*l, need),
        _ => false,
    }
}

/// Goes over the operations from the last to the first. Answers whether more is needed at a label than the table told.
fn pass(
    table: &mut LabelNeeds,
    in_flash: bool,
    code: &[Ir],
    numbers: &[Option<RightNumber>],
    need: &mut [u8],
) -> bool
    requires numbers { numbers.now ≡ right_numbers (map plain_ir code.now) }
    requires places { HavePlaces (length need.old) (map plain_ir code.now) }
    requires known { IsTable (length need.old) (needs_of table.old) }
    ensures kept { IsTable (length need.old) (needs_of table.new) }
    ensures grown { result ≡ true → room table.new < room table.old }
    ensures same { result ≡ false → table.new ≡ table.old }
    ensures live { result ≡ false → IsLive in_flash (needs_of table.new) (map plain_ir code.now) }
    ensures least { (labels : ℕ) (other : ℕ → Need) → HaveLabels labels (map plain_ir code.now)
        → IsLive in_flash other (map plain_ir code.now) → TellNoMore labels (length need.old) (needs_of table.old) other
        → TellNoMore labels (length need.old) (needs_of table.new) other }
{
    clear(need);
    let mut grown = false;
    for k in (0..code.len()).rev() {
        let i = &code[k];
        let number = number_at(numbers, k);
        let more = join_label(table, i, need);
        before(table, in_flash, number, i, need);
        grown = grown || more;
    }
    grown
}

/// Passes over the operations until a table tells all that is needed.
fn settle(
    table: &mut LabelNeeds,
    in_flash: bool,
    code: &[Ir],
    numbers: &[Option<RightNumber>],
    need: &mut [u8],
)
    requires numbers { numbers.now ≡ right_numbers (map plain_ir code.now) }
    requires places { HavePlaces (length need.old) (map plain_ir code.now) }
    requires known { IsTable (length need.old) (needs_of table.old) }
    ensures live { IsLive in_flash (needs_of table.new) (map plain_ir code.now) }
    ensures least { (labels : ℕ) (other : ℕ → Need) → HaveLabels labels (map plain_ir code.now)
        → IsLive in_flash other (map plain_ir code.now) → TellNoMore labels (length need.old) (needs_of table.old) other
        → TellNoMore labels (length need.old) (needs_of table.new) other }
{
    let mut grown = true;
    while grown {
        grown = pass(table, in_flash, code, numbers, need);
    }
}

/// A number above the label that an operation names.
fn label_bound(i: &Ir) -> Result<usize, NoMemory>
    ensures { IfOk result (λ n. HasLabel n (plain_ir i.now)) }
{
    match i {
        Ir::Label(l) | Ir::Jump(l) | Ir::BranchZero(_, l) => match (*l as usize).checked_add(1) {
            Some(n) => Ok(n),
            None => Err(NoMemory),
        },
        _ => Ok(0),
    }
}

/// A number above all labels that the code names.
fn label_count(code: &[Ir]) -> Result<usize, NoMemory>
    ensures { IfOk result (λ n. HaveLabels n (map plain_ir code.now)) }
{
    let mut count = 0;
    for k in (0..code.len()).rev() {
        let n = label_bound(&code[k])?;
        count = count.max(n);
    }
    Ok(count)
}

/// The table of the labels of a function's code: at each label it tells how many low bytes of each place of temporaries
/// are needed behind it, where second operands are known to hold these numbers.
///
/// The labels are best numbered from 0 on, as the table has a row for each number up to the greatest.
pub fn live(
    alloc: Global,
    in_flash: bool,
    code: &Seq<Ir>,
    numbers: &[Option<RightNumber>],
    slots: u16,
) -> Result<LabelNeeds, NoMemory>
    requires places { HavePlaces slots (map plain_ir code.now.items) }
    requires numbers { numbers.now ≡ right_numbers (map plain_ir code.now.items) }
    ensures live { IfOk result (λ table. IsLive in_flash (needs_of table) (map plain_ir code.now.items)) }
    ensures least { IfOk result (λ table. IsLeast in_flash slots (needs_of table) (map plain_ir code.now.items)) }
{
    let places = usize::from(slots);
    let labels = label_count(code.as_slice())?;
    let mut need = zeros(alloc, places)?;
    let mut table = LabelNeeds::new(alloc, labels, places)?;
    settle(&mut table, in_flash, code.as_slice(), numbers, &mut need);
    Ok(table)
}

/// The bytes that are needed behind an operation, where so much is needed there: of its result, of what a branch has
/// tested, or of the pointer by which a store has stored.
fn wanted_behind(table: &LabelNeeds, need: &[u8], i: &Ir) -> u8
    requires { HasPlaces (length need.now) (plain_ir i.now) }
    ensures { result ≡ wanted_behind (needs_of table.now) (need_of need.now) (plain_ir i.now) }
{
    match i {
        Ir::Const(to, _)
        | Ir::Copy(to, _)
        | Ir::Addr(to, _, _)
        | Ir::Bin { to, .. }
        | Ir::Un { to, .. }
        | Ir::Conv { to, .. }
        | Ir::PortIn { to, .. }
        | Ir::CellPort {
            read: true,
            temp: to,
            ..
        }
        | Ir::Call(_, Some(to))
        | Ir::Store { ptr: to, .. } => wanted_of(need, *to),
        Ir::BranchZero(t, l) => {
            let place = usize::from(t.at);
            need[place].max(table.need(*l, place)).min(t.bytes)
        }
        _ => 0,
    }
}

fn want(
    table: &LabelNeeds,
    in_flash: bool,
    code: &[Ir],
    numbers: &[Option<RightNumber>],
    need: &mut [u8],
    wanted: &mut [u8],
)
    requires numbers { numbers.now ≡ right_numbers (map plain_ir code.now) }
    requires places { HavePlaces (length need.old) (map plain_ir code.now) }
    requires lengths { length wanted.old ≡ length code.now }
    ensures { wanted.new ≡ wanted_bytes (facts_of in_flash (needs_of table.now) (map plain_ir code.now)) (map plain_ir code.now) }
{
    clear(need);
    for k in (0..code.len()).rev() {
        let i = &code[k];
        let number = number_at(numbers, k);
        wanted[k] = wanted_behind(table, need, i);
        before(table, in_flash, number, i, need);
    }
}

/// For each operation how many low bytes are needed behind it, of its result or of what a branch has tested, where so
/// much is needed at the labels, and second operands are known to hold these numbers.
pub fn wanted(
    alloc: Global,
    table: &LabelNeeds,
    in_flash: bool,
    code: &Seq<Ir>,
    numbers: &[Option<RightNumber>],
    slots: u16,
) -> Result<Vec<u8>, NoMemory>
    requires places { HavePlaces slots (map plain_ir code.now.items) }
    requires numbers { numbers.now ≡ right_numbers (map plain_ir code.now.items) }
    ensures { IfOk result (λ bytes. bytes.items
        ≡ wanted_bytes (facts_of in_flash (needs_of table.now) (map plain_ir code.now.items)) (map plain_ir code.now.items)) }
{
    let mut need = zeros(alloc, usize::from(slots))?;
    let mut bytes = zeros(alloc, code.len())?;
    want(
        table,
        in_flash,
        code.as_slice(),
        numbers,
        &mut need,
        &mut bytes,
    );
    Ok(bytes)
}
