//! Accesses of the leaves of objects.
ghost use Rattle.std.specs.Prelude.{◌≡◌, option_and_then};
ghost use Rattle.ec_core.specs.Accesses.{belongs_to, own_access};
ghost use Rattle.ec_core.specs.Plain.{plain_program, plain_storage};
ghost use Rattle.ec_core.specs.PortAccesses.{is_open};
ghost use Rattle.ec_interp.specs.Accesses.{access_at};
ghost use Rattle.ec_interp.specs.Views.{seen};
ghost use Rattle.std.specs.Prelude.{◌==◌, ◌&&◌, Some, None, map, option_map, length, slice_get};
ghost use Rattle.std.specs.Prelude.{IfErr, IfOk, OnOk};
ghost use Rattle.std.specs.List.{position_from};
ghost use Rattle.ec_core.specs.Accesses.{access, leaf_at, leaf_of, is_readable, is_read_only, read, write, is_fixed, recorded};
ghost use Rattle.ec_core.specs.Accesses.{stored, first_write, initialised, with_leaf};
ghost use Rattle.ec_core.specs.Expressions.{accessed};
ghost use Rattle.ec_core.specs.Layout.{plain_leaf, IsObjectType};
ghost use Rattle.ec_core.specs.Operators.{same_type};
ghost use Rattle.ec_core.specs.Plain.{plain_type, plain_object, plain_place};
ghost use Rattle.ec_core.specs.State.{with_object, Write as WriteOf, told, got};
ghost use Rattle.ec_interp.specs.Shows.{Shows};
ghost use Rattle.ec_interp.specs.Suits.{IsGiven, IsMemory, IsAnswered};
ghost use Rattle.ec_interp.specs.Views.{seen_object, seen_event, HasLayouts, setting_of};

use crate::behaviour::{Event, Unanswered};
use crate::layouts::{leaves_in, place_space};
use crate::objects::set_leaf;
use crate::operators::{is_live_in, referent};
use crate::state::{Context, ObjectState, RunError, State, at, object, object_state, told};
use ec_core::{CType, Leaf, Obj, ObjectPointer, PlaceExpr, Program, Storage, Undefined, Value};
use ec_space::{Home, NoMemory, SpaceId};

/// A leaf that can be accessed.
#[derive(Clone, Copy)]
pub struct Found {
    pub object: u16,
    pub leaf: usize,
    pub space: SpaceId,
}

/// The leaf with a number of the newest instance of an object, in the space of its declaration.
pub fn own_access(program: &Program, s: &State, o: u16, k: usize) -> Option<Found>
    ensures { option_and_then (access_at (plain_program program.now) (seen s.now)) result
        ≡ own_access (plain_program program.now) o k (seen s.now) }
{
    let Some(d) = object(program, o) else {
        return None;
    };
    let Some(x) = object_state(s, o) else {
        return None;
    };
    if !x.live || !d.space.holds(d.home) {
        return None;
    }
    Some(Found {
        object: o,
        leaf: k,
        space: d.space,
    })
}

/// Whether an object is a parameter or a local of a function.
pub fn belongs_to(function: u16, storage: &Storage) -> bool
    ensures { result ≡ belongs_to function (plain_storage storage.now) }
{
    match storage {
        Storage::Local(g) | Storage::Param(g) => *g == function,
        Storage::Static(_) | Storage::Register(_) => false,
    }
}

/// Whether a port of this group can be accessed.
pub fn is_open(group: Option<u16>, s: &State) -> bool
    ensures { result ≡ is_open group (seen s.now) }
{
    match group {
        None => true,
        Some(g) => match at(s.acquired.as_slice(), g as usize) {
            Some(open) => *open,
            None => false,
        },
    }
}

/// The number of the leaf of a type that begins at an offset in an object.
fn leaf_at(f: &Context, o: &Obj, ty: &CType, offset: u32) -> Result<Option<usize>, Unanswered>
    requires { HasLayouts f.now.program.now }
    ensures answered { IsObjectType (length f.now.program.now.structs.items) (plain_object o.now).ty
        → IfErr result IsMemory }
    ensures leaf { IfOk result (λ k. k
        ≡ leaf_at (plain_program f.now.program.now) (plain_object o.now) (plain_type ty.now) offset) }
{
    let leaves = leaves_in(f, &o.ty)?;
    Ok(leaf_among(leaves.as_slice(), ty, offset))
}

fn leaf_among(leaves: &[Leaf], ty: &CType, offset: u32) -> Option<usize>
    ensures { result ≡ position_from (λ leaf. leaf.at == offset && same_type leaf.ty (plain_type ty.now)) 0
        (map plain_leaf leaves.now) }
{
    for (k, leaf) in leaves.iter().enumerate() {
        if leaf.at == offset && leaf.ty.is_same(ty) {
            return Some(k);
        }
    }
    None
}

/// An access of a scalar type at a place that lies at a pointer's target.
fn access(
    f: &Context,
    s: &State,
    ty: &CType,
    space: Option<SpaceId>,
    to: Option<ObjectPointer>,
) -> Result<Option<Found>, Unanswered>
    requires { HasLayouts f.now.program.now }
    ensures answered { IsGiven f.now → IfErr result IsMemory }
    ensures access { IfOk result (λ a. option_and_then (access_at (plain_program f.now.program.now) (seen s.now)) a
        ≡ access (plain_program f.now.program.now) (plain_type ty.now) space to (seen s.now)) }
{
    let Some(space) = space else {
        return Ok(None);
    };
    let Some(p) = to else {
        return Ok(None);
    };
    let Some(o) = object(f.program, p.object) else {
        return Ok(None);
    };
    let Some(x) = object_state(s, p.object) else {
        return Ok(None);
    };
    if !is_live_in(p, x) || !space.holds(o.home) {
        return Ok(None);
    }
    match leaf_at(f, o, ty, p.offset)? {
        Some(leaf) => Ok(Some(Found {
            object: p.object,
            leaf,
            space,
        })),
        None => Ok(None),
    }
}

/// Accesses of named registers are no events.
fn record_access(s: &mut State, storage: &Storage, event: Event) -> Result<(), NoMemory>
    ensures { OnOk result (seen s.new ≡ recorded (plain_storage storage.now) (seen_event event) (seen s.old)) }
{
    match storage {
        Storage::Register(_) => Ok(()),
        Storage::Static(_) | Storage::Local(_) | Storage::Param(_) => s.record(event),
    }
}

/// The value of a leaf, where it is set.
fn leaf_value(x: &ObjectState, k: usize) -> Option<Value>
    ensures { result ≡ leaf_of (seen_object x.now) k }
{
    match at(x.leaves.as_slice(), k) {
        Some(v) => *v,
        None => None,
    }
}

/// Whether a value can be read: it is no pointer to an object that is not live.
fn is_readable(f: &Context, s: &State, v: Value) -> Result<bool, Unanswered>
    requires { HasLayouts f.now.program.now }
    ensures answered { IsGiven f.now → IfErr result IsMemory }
    ensures readable { IfOk result (λ b. b ≡ is_readable (plain_program f.now.program.now) v (seen s.now)) }
{
    match v {
        Value::Number(_) => Ok(true),
        Value::Pointer(None) => Ok(true),
        Value::Pointer(Some(p)) => {
            let of = referent(f, s, Some(p))?;
            Ok(of.live)
        }
    }
}

fn read_at(f: &Context, s: &mut State, a: Found) -> Result<Value, RunError>
    requires { HasLayouts f.now.program.now }
    ensures answered { IsGiven f.now → IsAnswered result }
    ensures shows { Shows result (seen s.new)
        (read (plain_program f.now.program.now) (access_at (plain_program f.now.program.now) (seen s.old) a)
        (seen s.old)) }
{
    let Some(o) = object(f.program, a.object) else {
        return Err(RunError::Undefined(Undefined::Access));
    };
    let Some(x) = object_state(s, a.object) else {
        return Err(RunError::Undefined(Undefined::Access));
    };
    let Some(v) = leaf_value(x, a.leaf) else {
        return Err(RunError::Undefined(Undefined::Unset));
    };
    if !is_readable(f, s, v)? {
        return Err(RunError::Undefined(Undefined::Unset));
    }
    let event = Event::Read {
        object: a.object,
        leaf: a.leaf,
        space: a.space,
        value: told(v),
    };
    record_access(s, &o.storage, event)?;
    Ok(v)
}

/// One read of a place of a scalar type that lies at a pointer's target.
pub fn read(
    f: &Context,
    s: &mut State,
    ty: &CType,
    p: &PlaceExpr,
    to: Option<ObjectPointer>,
) -> Result<Value, RunError>
    requires { HasLayouts f.now.program.now }
    ensures answered { IsGiven f.now → IsAnswered result }
    ensures shows { Shows result (seen s.new)
        (read (plain_program f.now.program.now)
        (accessed (setting_of f.now.program.now f.now.io.now f.now.inputs.now) (plain_type ty.now)
        (plain_place p.now) to (seen s.old)) (seen s.old)) }
{
    let space = place_space(f.program, p);
    match access(f, s, ty, space, to)? {
        Some(a) => read_at(f, s, a),
        None => Err(RunError::Undefined(Undefined::Access)),
    }
}

/// A leaf gets a value.
fn store(s: &mut State, o: &Obj, a: Found, v: Value) -> Result<(), NoMemory>
    ensures { OnOk result (seen s.new
        ≡ recorded (plain_storage o.now.storage) (WriteOf a.object a.leaf a.space (told v))
        (with_object a.object (with_leaf a.leaf v) (seen s.old))) }
{
    set_leaf(s, a.object, a.leaf, v);
    let event = Event::Write {
        object: a.object,
        leaf: a.leaf,
        space: a.space,
        value: told(v),
    };
    record_access(s, &o.storage, event)
}

/// Whether what has a home is kept in flash, which is not written.
fn is_read_only(home: Home) -> bool
    ensures { result ≡ is_read_only home }
{
    match home {
        Home::Flash | Home::Far => true,
        Home::Data => false,
    }
}

/// Const objects and those kept in flash are not written.
fn is_fixed(o: &Obj) -> bool
    ensures { result ≡ is_fixed (plain_object o.now) }
{
    o.konst || is_read_only(o.home)
}

fn write_at(f: &Context, s: &mut State, a: Found, v: Value) -> Result<Value, RunError>
    ensures answered { IsAnswered result }
    ensures shows { Shows result (seen s.new)
        (write (access_at (plain_program f.now.program.now) (seen s.old) a) v (seen s.old)) }
{
    let Some(o) = object(f.program, a.object) else {
        return Err(RunError::Undefined(Undefined::Access));
    };
    if object_state(s, a.object).is_none() {
        return Err(RunError::Undefined(Undefined::Access));
    }
    if is_fixed(o) {
        return Err(RunError::Undefined(Undefined::ConstWrite));
    }
    store(s, o, a, v)?;
    Ok(v)
}

/// One write of a place of a scalar type that lies at a pointer's target.
pub fn write(
    f: &Context,
    s: &mut State,
    ty: &CType,
    p: &PlaceExpr,
    to: Option<ObjectPointer>,
    v: Value,
) -> Result<Value, RunError>
    requires { HasLayouts f.now.program.now }
    ensures answered { IsGiven f.now → IsAnswered result }
    ensures shows { Shows result (seen s.new)
        (write (accessed (setting_of f.now.program.now f.now.io.now f.now.inputs.now) (plain_type ty.now)
        (plain_place p.now) to (seen s.old)) v (seen s.old)) }
{
    let space = place_space(f.program, p);
    match access(f, s, ty, space, to)? {
        Some(a) => write_at(f, s, a, v),
        None => Err(RunError::Undefined(Undefined::Access)),
    }
}

/// The first write of a leaf: const objects are written too.
fn first_write(f: &Context, s: &mut State, a: Found, v: Value) -> Result<Value, RunError>
    ensures answered { IsAnswered result }
    ensures shows { Shows result (seen s.new)
        (first_write (access_at (plain_program f.now.program.now) (seen s.old) a) v (seen s.old)) }
{
    let Some(o) = object(f.program, a.object) else {
        return Err(RunError::Undefined(Undefined::Access));
    };
    if object_state(s, a.object).is_none() {
        return Err(RunError::Undefined(Undefined::Access));
    }
    store(s, o, a, v)?;
    Ok(v)
}

/// The initialisation of a leaf of the newest instance of an object: const objects are written too.
pub fn initialise(f: &Context, s: &mut State, o: u16, k: usize, v: Value) -> Result<Value, RunError>
    ensures answered { IsAnswered result }
    ensures shows { Shows result (seen s.new) (initialised (plain_program f.now.program.now) o k v (seen s.old)) }
{
    match own_access(f.program, s, o, k) {
        Some(a) => first_write(f, s, a, v),
        None => Err(RunError::Undefined(Undefined::Access)),
    }
}
