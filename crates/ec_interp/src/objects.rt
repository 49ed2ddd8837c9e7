//! The life of objects.
ghost use Rattle.std.specs.Prelude.{◌≡◌, None, replicate, map, option_map, unwrap_or, slice_get, IfErr, IfOk, OnOk};
ghost use Rattle.ec_core.specs.Accesses.{pointer_to, leaf_count, renewed, ended, begun, all_ended};
ghost use Rattle.ec_core.specs.Accesses.{frame_ended, with_leaf};
ghost use Rattle.ec_core.specs.Plain.{a_stmt, plain_object, plain_stmt, plain_stmts, plain_program};
ghost use Rattle.ec_core.specs.State.{with_object};
ghost use Rattle.ec_core.specs.Statements.{declared, declared_first};
ghost use Rattle.ec_interp.specs.Lookups.{ended_from};
ghost use Rattle.ec_interp.specs.Suits.{IsGiven, IsMemory};
ghost use Rattle.ec_interp.specs.Views.{seen, seen_object, HasLayouts};

use crate::accesses::belongs_to;
use crate::behaviour::Unanswered;
use crate::layouts::leaf_count;
use crate::state::{Context, ObjectState, State, object, object_state};
use ec_core::{Obj, ObjectPointer, Program, Stmt, StmtKind, Value};
use ec_space::NoMemory;
use std::alloc::Global;

/// A pointer to the newest instance of an object, at its beginning.
pub fn pointer_to(s: &State, o: u16) -> Option<ObjectPointer>
    ensures { result ≡ pointer_to o (seen s.now) }
{
    match object_state(s, o) {
        Some(x) => Some(ObjectPointer {
            object: o,
            instance: x.serial,
            offset: 0,
        }),
        None => None,
    }
}

/// So many leaves that are unset.
pub fn unset_leaves(alloc: Global, count: usize) -> Result<Vec<Option<Value>>, NoMemory>
    ensures { IfOk result (λ leaves. leaves.items ≡ replicate count None) }
{
    match vec![in alloc; None; count] {
        Ok(leaves) => Ok(leaves),
        Err(_) => Err(NoMemory),
    }
}

fn renew(alloc: Global, x: &mut ObjectState, count: usize) -> Result<(), NoMemory>
    ensures { OnOk result (seen_object x.new ≡ renewed count (seen_object x.old)) }
{
    let leaves = unset_leaves(alloc, count)?;
    match x.serial.checked_add(1) {
        Some(serial) => {
            x.serial = serial;
            x.live = true;
            x.leaves = leaves;
            Ok(())
        }
        None => Err(NoMemory),
    }
}

fn own_leaf_count(f: &Context, o: u16) -> Result<usize, Unanswered>
    requires { HasLayouts f.now.program.now }
    ensures count { IfOk result (λ n. n
        ≡ unwrap_or (option_map (λ x. leaf_count (plain_program f.now.program.now) x.ty)
        (slice_get (plain_program f.now.program.now).objects o)) 0) }
    ensures answered { IsGiven f.now → IfErr result IsMemory }
{
    match object(f.program, o) {
        Some(x) => leaf_count(f, &x.ty),
        None => Ok(0),
    }
}

/// The declaration of an object is reached.
pub fn begin(f: &Context, s: &mut State, o: u16) -> Result<(), Unanswered>
    requires { HasLayouts f.now.program.now }
    ensures begun { OnOk result (seen s.new ≡ begun (plain_program f.now.program.now) o (seen s.old)) }
    ensures answered { IsGiven f.now → IfErr result IsMemory }
{
    let count = own_leaf_count(f, o)?;
    if (o as usize) < s.objects.len() {
        renew(f.alloc, &mut s.objects[o as usize], count)?;
    }
    Ok(())
}

/// The newest instance of an object is no longer live.
fn end(s: &mut State, o: usize)
    ensures { seen s.new ≡ with_object o ended (seen s.old) }
{
    if o < s.objects.len() {
        s.objects[o].live = false;
    }
}

fn set_leaf_of(x: &mut ObjectState, k: usize, v: Value)
    ensures { seen_object x.new ≡ with_leaf k v (seen_object x.old) }
{
    if k < x.leaves.len() {
        x.leaves[k] = Some(v);
    }
}

/// A leaf of the newest instance of an object gets a value.
pub fn set_leaf(s: &mut State, o: u16, k: usize, v: Value)
    ensures { seen s.new ≡ with_object o (with_leaf k v) (seen s.old) }
{
    if (o as usize) < s.objects.len() {
        set_leaf_of(&mut s.objects[o as usize], k, v);
    }
}

/// The objects that are declared directly in a block are no longer live.
pub fn end_declared(s: &mut State, all: &[Stmt])
    ensures { seen s.new ≡ all_ended (declared (plain_stmts all.now)) (seen s.old) }
{
    for a in all {
        if let StmtKind::Local(o, _) = &a.kind {
            end(s, *o as usize);
        }
    }
}

/// The objects of the first part of a `for` are no longer live.
pub fn end_first(s: &mut State, first: &Stmt)
    ensures { seen s.new ≡ all_ended (declared_first (a_stmt (plain_stmt first.now))) (seen s.old) }
{
    match &first.kind {
        StmtKind::Block(all) => end_declared(s, all.as_slice()),
        StmtKind::Local(o, _) => end(s, *o as usize),
        _ => {}
    }
}

fn end_objects(s: &mut State, function: u16, objs: &[Obj])
    ensures { seen s.new ≡ ended_from function 0 (map plain_object objs.now) (seen s.old) }
{
    for (i, o) in objs.iter().enumerate() {
        if belongs_to(function, &o.storage) {
            end(s, i);
        }
    }
}

/// The body of a function ends: its parameters and locals are no longer live.
pub fn end_frame(program: &Program, s: &mut State, function: u16)
    ensures { seen s.new ≡ frame_ended (plain_program program.now) function (seen s.old) }
{
    end_objects(s, function, program.objs.as_slice());
}
