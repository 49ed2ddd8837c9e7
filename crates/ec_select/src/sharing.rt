//! Which shapes stand once.
ghost use Rattle.std.specs.Prelude.{◌≡◌, ◌+◌, true, List, map, IfOk, OnOk};
ghost use Rattle.std.specs.List.{AllByRecursion};
ghost use Rattle.ec_asm.specs.Items.{code_words};
ghost use Rattle.ec_core_shapes.specs.Shapes.{same_shape, Shape};
ghost use Rattle.ec_ir.specs.Operations.{plain_ir};
ghost use Rattle.ec_select.specs.Seen.{plain_row, plain_use, row_operation, HasRoutine};
ghost use Rattle.ec_select.specs.Sharing.{is_shaped, row_of, rows_of, shape_of, shape_routine, sizes, stands_once, with_shape};
ghost use Rattle.ec_select_operations.specs.Routines.{CanBeRoutine};
ghost use Rattle.ec_select_routines.specs.Sizes.{of_shape};
ghost use Rattle.ec_shapes.specs.Shapes.{has};

use crate::shapes::same_shape;
use crate::uses::{Use, words_of};
use ec_ir::Ir;
use ec_select_operations::routine;
use ec_space::{NoMemory, Seq, push};
use std::alloc::Global;

/// An operation of a shape, and whether the shape stands once.
#[derive(Clone, Copy)]
pub(crate) struct Row<'a> {
    pub operation: &'a Ir,
    pub once: bool,
}

/// The words of uses of a shape: of code of their own, and of calls.
#[derive(Clone, Copy)]
struct Words {
    own: u64,
    call: u64,
}

fn sum(a: u64, b: u64) -> Result<u64, NoMemory>
    ensures { IfOk result (λ n. n ≡ a + b) }
{
    match a.checked_add(b) {
        Some(n) => Ok(n),
        None => Err(NoMemory),
    }
}

/// The words of the uses of an operation's shape.
fn words_of_shape(uses: &[Use], i: &Ir) -> Result<Words, NoMemory>
    requires is { is_shaped (plain_ir i.now) ≡ true }
    requires each { AllByRecursion (λ u. HasRoutine u.operation) (map plain_use uses.now) }
    ensures own { IfOk result (λ w. w.own
        ≡ of_shape same_shape sizes.shape sizes.own (map plain_use uses.now) (shape_of (plain_ir i.now))) }
    ensures call { IfOk result (λ w. w.call
        ≡ of_shape same_shape sizes.shape sizes.call (map plain_use uses.now) (shape_of (plain_ir i.now))) }
{
    let mut words = Words { own: 0, call: 0 };
    for k in (0..uses.len()).rev() {
        let u = uses[k];
        if same_shape(u.operation, i) {
            words = Words {
                own: sum(u.own, words.own)?,
                call: sum(u.call, words.call)?,
            };
        }
    }
    Ok(words)
}

/// The words of the routine of an operation's shape.
fn routine_words(alloc: Global, i: &Ir) -> Result<u64, NoMemory>
    requires { HasRoutine (plain_ir i.now) }
    ensures { IfOk result (λ n. n ≡ code_words (shape_routine 0 (shape_of (plain_ir i.now)))) }
{
    let mut items = Seq::new(alloc);
    routine(&mut items, 0, i)?;
    words_of(&items)
}

/// Whether an operation's shape stands once.
fn stands_once(alloc: Global, uses: &[Use], i: &Ir) -> Result<bool, NoMemory>
    requires is { HasRoutine (plain_ir i.now) }
    requires each { AllByRecursion (λ u. HasRoutine u.operation) (map plain_use uses.now) }
    ensures { IfOk result (λ b. b ≡ stands_once (map plain_use uses.now) (shape_of (plain_ir i.now))) }
{
    let words = words_of_shape(uses, i)?;
    let routine = routine_words(alloc, i)?;
    Ok(sum(routine, words.call)? < words.own)
}

/// Whether one of some rows has an operation's shape.
fn has_shape(rows: &[Row], i: &Ir) -> bool
    requires is { is_shaped (plain_ir i.now) ≡ true }
    requires each { AllByRecursion HasRoutine (map row_operation rows.now) }
    ensures { result ≡ has same_shape (map (λ r. r.shape) (map plain_row rows.now)) (shape_of (plain_ir i.now)) }
{
    for row in rows {
        if same_shape(row.operation, i) {
            return true;
        }
    }
    false
}

/// Appends the row of an operation's shape, unless there is one.
fn add_row<'a>(
    alloc: Global,
    rows: &mut Vec<Row<'a>>,
    uses: &[Use<'a>],
    i: &'a Ir,
) -> Result<(), NoMemory>
    requires is { HasRoutine (plain_ir i.now) }
    requires uses { AllByRecursion (λ u. HasRoutine u.operation) (map plain_use uses.now) }
    requires each { AllByRecursion HasRoutine (map row_operation rows.old.items) }
    ensures rows { (shapes : List Shape) → map plain_row rows.old.items ≡ map (row_of (map plain_use uses.now)) shapes
        → OnOk result (map plain_row rows.new.items
        ≡ map (row_of (map plain_use uses.now)) (with_shape shapes (shape_of (plain_ir i.now)))) }
    ensures each { OnOk result (AllByRecursion HasRoutine (map row_operation rows.new.items)) }
{
    if has_shape(rows.as_slice(), i) {
        return Ok(());
    }
    let once = stands_once(alloc, uses, i)?;
    push(rows, Row { operation: i, once })?;
    Ok(())
}

/// The shapes of uses, each once, and whether it stands once.
pub(crate) fn rows_of<'a>(alloc: Global, uses: &[Use<'a>]) -> Result<Vec<Row<'a>>, NoMemory>
    requires { AllByRecursion (λ u. HasRoutine u.operation) (map plain_use uses.now) }
    ensures rows { IfOk result (λ rows. map plain_row rows.items ≡ rows_of (map plain_use uses.now)) }
    ensures each { IfOk result (λ rows. AllByRecursion HasRoutine (map row_operation rows.items)) }
{
    let mut rows = Vec::new(alloc);
    for k in (0..uses.len()).rev() {
        let u = uses[k];
        add_row(alloc, &mut rows, uses, u.operation)?;
    }
    Ok(rows)
}
