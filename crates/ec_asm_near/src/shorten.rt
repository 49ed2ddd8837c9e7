//! Near jumps, calls and branches in one word, and branches over RJMP.
ghost use Rattle.std.specs.Prelude.{◌≡◌, ◌≤◌, ◌<◌, ◌+◌, ◌^◌, IfOk};
ghost use Rattle.ec_asm.specs.Items.{branch_if, branch_unless};
ghost use Rattle.ec_asm_near.specs.Labels.{words_of};
ghost use Rattle.ec_asm_near.specs.Near.{reach, distance_within, reached, reached_over, draft_row, drafted, by_distance};
ghost use Rattle.ec_asm_near.specs.Near.{over_jump, near_row, near_from, near_items};
ghost use Rattle.ec_asm_near.specs.Rows.{items_of};

use crate::labels::{Labels, labels_of};
use crate::rows::{Row, push_row, row_words};
use ec_asm::{AsmItem, item_words, used_label};
use ec_isa::Instr;
use ec_space::{NoMemory, Seq};
use std::alloc::Global;

/// How far the form of an item in one word goes, in words counted from the one after it: so many back, and one less
/// forward.
fn reach(item: AsmItem) -> u16
    ensures { result ≡ reach item }
{
    match item {
        AsmItem::BranchTo { .. } => 64,
        _ => 2_048,
    }
}

/// The distance from the word after `pc` to another word, if it is within reach.
fn distance_within(reach: u16, pc: u64, to: u64) -> Option<i16>
    requires { reach ≤ 2048 }
    ensures { result ≡ distance_within reach pc to }
{
    if pc < to {
        let forward = to - pc - 1;
        if forward < u64::from(reach) {
            Some(forward as i16)
        } else {
            None
        }
    } else {
        let back = pc - to;
        if back < u64::from(reach) {
            Some(-1 - (back as i16))
        } else {
            None
        }
    }
}

/// The distance from an item at word `pc` to its label, if the label has a word and is within reach.
fn reached(labels: &Labels, pc: u64, item: AsmItem) -> Option<i16>
    ensures { result ≡ reached (words_of labels.now) pc item }
{
    let label = used_label(item)?;
    let to = labels.word_of(label)?;
    distance_within(reach(item), pc, to)
}

/// The distance from the second word of a branch at word `pc`, where RJMP can stand, to the label of the branch, if that
/// has a word and is within reach.
fn reached_over(labels: &Labels, pc: u64, item: AsmItem) -> Option<i16>
    requires { pc + 1 < 2 ^ 64 }
    ensures { result ≡ reached_over (words_of labels.now) pc item }
{
    match item {
        AsmItem::BranchTo { label, .. } => reached(labels, pc + 1, AsmItem::JumpTo(label)),
        _ => None,
    }
}

fn branch_if(set: bool, flag: u8, k: i16) -> Instr
    ensures { result ≡ branch_if set flag k }
{
    if set {
        Instr::Brbs { s: flag, k }
    } else {
        Instr::Brbc { s: flag, k }
    }
}

fn branch_unless(set: bool, flag: u8, k: i16) -> Instr
    ensures { result ≡ branch_unless set flag k }
{
    branch_if(!set, flag, k)
}

/// An item in one word, where its distance is given.
fn by_distance(item: AsmItem, distance: Option<i16>) -> AsmItem
    ensures { result ≡ by_distance item distance }
{
    match (item, distance) {
        (AsmItem::JumpTo(_), Some(k)) => AsmItem::Plain(Instr::Rjmp { k }),
        (AsmItem::CallTo(_), Some(k)) => AsmItem::Plain(Instr::Rcall { k }),
        (AsmItem::BranchTo { set, flag, .. }, Some(k)) => AsmItem::Plain(branch_if(set, flag, k)),
        _ => item,
    }
}

/// A branch over RJMP, where the distance of RJMP is given.
fn over_jump(item: AsmItem, distance: Option<i16>) -> Row
    ensures { items_of result ≡ over_jump item distance }
{
    match (item, distance) {
        (AsmItem::BranchTo { set, flag, .. }, Some(k)) => Row::Two(
            AsmItem::Plain(branch_unless(set, flag, 1)),
            AsmItem::Plain(Instr::Rjmp { k }),
        ),
        _ => Row::One(item),
    }
}

/// One word left free for an item at word `pc` that is near, two for a branch over RJMP, and any other item as it is.
fn draft_row(labels: &Labels, pc: u64, item: AsmItem) -> Row
    requires { pc + 1 < 2 ^ 64 }
    ensures { items_of result ≡ draft_row (words_of labels.now) pc item }
{
    let free = AsmItem::Plain(Instr::Nop);
    if reached(labels, pc, item).is_some() {
        Row::One(free)
    } else if reached_over(labels, pc, item).is_some() {
        Row::Two(free, free)
    } else {
        Row::One(item)
    }
}

/// The items, with one word left free for each that is near, and two for each branch over RJMP.
fn drafted(alloc: Global, items: &[AsmItem], labels: &Labels) -> Result<Seq<AsmItem>, NoMemory>
    ensures { IfOk result (λ out. out.items ≡ drafted (words_of labels.now) 0 items.now) }
{
    let mut out = Seq::new(alloc);
    let mut pc = 0u64;
    for item in items {
        push_row(&mut out, draft_row(labels, pc, *item))?;
        pc += u64::from(item_words(*item));
    }
    Ok(out)
}

/// What stands for an item that is at word `pc` where all are long, and at word `at` where those that are near are short:
/// it is short where it is near there, by its distance here.
fn near_row(long: &Labels, short: &Labels, pc: u64, at: u64, item: AsmItem) -> Row
    requires pc { pc + 1 < 2 ^ 64 }
    requires at { at + 1 < 2 ^ 64 }
    ensures { items_of result ≡ near_row (words_of long.now) (words_of short.now) pc at item }
{
    if reached(long, pc, item).is_some() {
        Row::One(by_distance(item, reached(short, at, item)))
    } else if reached_over(long, pc, item).is_some() {
        over_jump(item, reached_over(short, at, item))
    } else {
        Row::One(item)
    }
}

/// The items, in one word each that is near, and each branch over RJMP in two.
fn near_from(
    alloc: Global,
    items: &[AsmItem],
    long: &Labels,
    short: &Labels,
) -> Result<Seq<AsmItem>, NoMemory>
    ensures { IfOk result (λ out. out.items ≡ near_from (words_of long.now) (words_of short.now) 0 0 items.now) }
{
    let mut out = Seq::new(alloc);
    let mut pc = 0u64;
    let mut at = 0u64;
    for item in items {
        let row = near_row(long, short, pc, at, *item);
        push_row(&mut out, row)?;
        pc += u64::from(item_words(*item));
        at += u64::from(row_words(row));
    }
    Ok(out)
}

/// The items, with each jump, call and branch to a label that is near in one word: RJMP, RCALL, BRBS or BRBC. Each other
/// branch to a label that RJMP reaches takes two: the opposite branch over RJMP.
///
/// It is near where this form reaches the label with all items in their long forms, and the label stands exactly once. So
/// it is with RJMP. All other items stay as they are, and so do distances that instructions among them have already.
pub fn near(alloc: Global, items: &Seq<AsmItem>) -> Result<Seq<AsmItem>, NoMemory>
    ensures { IfOk result (λ out. out.items ≡ near_items items.now.items) }
{
    let long = labels_of(alloc, items.as_slice())?;
    let draft = drafted(alloc, items.as_slice(), &long)?;
    let short = labels_of(alloc, draft.as_slice())?;
    near_from(alloc, items.as_slice(), &long, &short)
}
