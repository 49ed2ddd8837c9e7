//! The kinds of tokens that may stand at a place, in words.
ghost use Rattle.ec_where_expected.specs.declared.candidates.Class.{Class};
ghost use Rattle.std.specs.Prelude.{◌≡◌, ◌&&◌, ℕ, List, IfOk, OnOk, map, option_map, slice_get, string_bytes};
ghost use Rattle.ec_where_expected.specs.Listed.{added, class_at, class_name, classes_at, classes_text, flag_at, is_covered};
ghost use Rattle.ec_where_expected.specs.Listed.{is_kept, is_of, is_whole, listed, name_at, row_name, rows_text};

use crate::candidates::{CLASSES, Candidate, Class, Classes, ROWS};
use std::alloc::{AllocError, Global};

fn is_of(classes: Classes, class: Class) -> bool
    ensures { result ≡ is_of classes class }
{
    match class {
        Class::Operand => classes.operand,
        Class::Operator => classes.operator,
        Class::Assignment => classes.assignment,
        Class::Specifier => classes.specifier,
        Class::Statement => classes.statement,
    }
}

fn flag_at(flags: &[bool], i: usize) -> bool
    ensures { result ≡ flag_at (slice_get flags.now i) }
{
    match flags.get(i) {
        Some(flag) => *flag,
        None => false,
    }
}

fn classes_in(rows: &[(Candidate, &str, Classes)], i: usize) -> Option<Classes>
    ensures { result ≡ slice_get (map (λ row. row.2) rows.now) i }
{
    match rows.get(i) {
        Some((_, _, classes)) => Some(*classes),
        None => None,
    }
}

/// The classes of a kind.
#[tactic(auto, unfolding(crate::specs::Listed::classes_at))]
fn classes_at(i: usize) -> Option<Classes>
    ensures { result ≡ classes_at i }
{
    classes_in(&ROWS, i)
}

fn name_in<'a>(rows: &[(Candidate, &'a str, Classes)], i: usize) -> Option<&'a str>
    ensures { option_map (λ x. x.now) result ≡ slice_get (map (λ row. row.1.now) rows.now) i }
{
    match rows.get(i) {
        Some((_, name, _)) => Some(*name),
        None => None,
    }
}

/// How a kind is told.
#[tactic(auto, unfolding(crate::specs::Listed::name_at))]
fn name_at(i: usize) -> Option<&'static str>
    ensures { option_map (λ x. x.now) result ≡ name_at i }
{
    name_in(&ROWS, i)
}

fn class_in<'a>(rows: &[(Class, &'a str)], i: usize) -> Option<(Class, &'a str)>
    ensures { option_map {U = Class × List ℕ} (λ x. (x.0, x.1.now)) result ≡
        slice_get (map {B = Class × List ℕ} (λ row. (row.0, row.1.now)) rows.now) i }
{
    match rows.get(i) {
        Some((class, name)) => Some((*class, *name)),
        None => None,
    }
}

/// A class, and how it is told.
#[tactic(auto, unfolding(crate::specs::Listed::class_at))]
fn class_at(i: usize) -> Option<(Class, &'static str)>
    ensures { option_map {U = Class × List ℕ} (λ x. (x.0, x.1.now)) result ≡ class_at i }
{
    class_in(&CLASSES, i)
}

/// Whether the kind of a row may stand, or is not of the class.
fn is_kept(flags: &[bool], class: Class, i: usize) -> bool
    ensures { result ≡ is_kept flags.now class i }
{
    match classes_at(i) {
        Some(classes) => flag_at(flags, i) || !is_of(classes, class),
        None => true,
    }
}

/// Whether all kinds of a class may stand.
#[tactic(auto, unfolding(crate::specs::Listed::whole_to))]
fn is_whole(flags: &[bool], class: Class) -> bool
    ensures { result ≡ is_whole flags.now class }
{
    let mut whole = true;
    'rows: for i in 0..85 {
        whole = whole && is_kept(flags, class, i);
    }
    whole
}

fn is_told(flags: &[bool], classes: Classes, class: Class) -> bool
    ensures { result ≡ (is_of classes class && is_whole flags.now class) }
{
    is_of(classes, class) && is_whole(flags, class)
}

/// Whether a kind is told by a class.
fn is_covered(flags: &[bool], classes: Classes) -> bool
    ensures { result ≡ is_covered flags.now classes }
{
    is_told(flags, classes, Class::Operand)
        || is_told(flags, classes, Class::Operator)
        || is_told(flags, classes, Class::Assignment)
        || is_told(flags, classes, Class::Specifier)
        || is_told(flags, classes, Class::Statement)
}

/// How a row is told, where its kind may stand and no class tells it.
fn row_name(flags: &[bool], i: usize) -> Option<&'static str>
    ensures { option_map (λ x. x.now) result ≡ row_name flags.now i }
{
    match classes_at(i) {
        Some(classes) => {
            if flag_at(flags, i) && !is_covered(flags, classes) {
                name_at(i)
            } else {
                None
            }
        }
        None => None,
    }
}

/// How a class is told, where all its kinds may stand.
fn class_name(flags: &[bool], i: usize) -> Option<&'static str>
    ensures { option_map (λ x. x.now) result ≡ class_name flags.now i }
{
    match class_at(i) {
        Some((class, name)) => {
            if is_whole(flags, class) {
                Some(name)
            } else {
                None
            }
        }
        None => None,
    }
}

/// Puts a name, where there is one, behind the names of a list.
fn add(text: &mut String, name: Option<&str>) -> Result<(), AllocError>
    ensures { OnOk result (string_bytes text.new ≡ added (option_map (λ x. x.now) name.entry) (string_bytes text.old)) }
{
    let Some(name) = name else {
        return Ok(());
    };
    if !text.is_empty() {
        text.push_str(", ")?;
    }
    text.push_str(name)
}

#[tactic(auto, unfolding(crate::specs::Listed::rows_text))]
fn put_rows(text: &mut String, flags: &[bool]) -> Result<(), AllocError>
    ensures { OnOk result (string_bytes text.new ≡ rows_text flags.now 85 (string_bytes text.old)) }
{
    'rows: for i in 0..85 {
        add(text, row_name(flags, i))?;
    }
    Ok(())
}

#[tactic(auto, unfolding(crate::specs::Listed::classes_text))]
fn put_classes(text: &mut String, flags: &[bool]) -> Result<(), AllocError>
    ensures { OnOk result (string_bytes text.new ≡ classes_text flags.now 5 (string_bytes text.old)) }
{
    'classes: for i in 0..5 {
        add(text, class_name(flags, i))?;
    }
    Ok(())
}

/// The kinds that the flags tell of, one flag for each row of `ROWS`: the single ones, and the classes of which all may
/// stand.
pub fn listed(alloc: Global, flags: &[bool]) -> Result<String, AllocError>
    ensures { IfOk result (λ s. string_bytes s ≡ listed flags.now) }
{
    let mut text = String::new(alloc);
    put_rows(&mut text, flags)?;
    put_classes(&mut text, flags)?;
    Ok(text)
}
