//! The state of a run.
ghost use Rattle.std.specs.Prelude.{◌≡◌, map, option_map, slice_get, OnOk};
ghost use Rattle.std.specs.Option.{option_copied};
ghost use Rattle.ec_core.specs.State.{told, with_event, worked};
ghost use Rattle.ec_core.specs.Plain.{plain_object, plain_function};
ghost use Rattle.ec_interp.specs.Places.{placed};
ghost use Rattle.ec_interp.specs.Views.{seen, seen_told, seen_event, seen_object};

use crate::behaviour::{Event, PortInput, Told, Unanswered};
use crate::events::Events;
use ec_core::{Func, Obj, Program, Undefined, Value};
use ec_iohw::IoTable;
use ec_space::NoMemory;
use std::alloc::Global;

/// What stays the same in a run.
#[derive(Clone, Copy, Drop)]
pub struct Context<'a> {
    pub alloc: Global,
    pub program: &'a Program,
    pub io: &'a IoTable,
    pub inputs: &'a [PortInput],
    pub turns: u32,
}

/// The newest instance of an object.
#[derive(Drop)]
pub struct ObjectState {
    /// How many instances there were before.
    pub serial: u64,
    pub live: bool,
    /// The values of its leaves, where they are set.
    pub leaves: Vec<Option<Value>>,
}

/// The objects in the program's order, which groups of ports are acquired, the choice of each dynamic group
/// that is bound, the events so far, and the work so far in words.
#[derive(Drop)]
pub struct State {
    pub objects: Vec<ObjectState>,
    pub acquired: Vec<bool>,
    pub choices: Vec<Option<u16>>,
    pub events: Events,
    pub work: u64,
}

/// Why a part of a run gives no value.
#[derive(Clone, Copy)]
pub enum RunError {
    Unanswered(Unanswered),
    OutOfTurns,
    Undefined(Undefined),
    /// An undefined point and the statement under execution where it was met, by its unit and first token.
    Met { point: Undefined, unit: u8, at: u32 },
}

/// How a statement was left.
#[derive(Clone, Copy)]
pub enum Exit {
    AtEnd,
    ByBreak,
    ByContinue,
    ByReturn(Option<Value>),
}

impl From<Unanswered> for RunError {
    ghost use Rattle.std.specs.Prelude.{◌≡◌};
    ghost use Rattle.ec_interp.specs.declared.state.RunError.TheVariants.{Unanswered as WithoutAnswer};

    ghost from_gives = { λ why r. r ≡ WithoutAnswer why };

    fn from(why: Unanswered) -> RunError {
        RunError::Unanswered(why)
    }
}

impl From<NoMemory> for RunError {
    ghost use Rattle.std.specs.Prelude.{◌≡◌};
    ghost use Rattle.ec_interp.specs.declared.behaviour.Unanswered.TheVariants.{NoMemory as Full};
    ghost use Rattle.ec_interp.specs.declared.state.RunError.TheVariants.{Unanswered as WithoutAnswer};

    ghost from_gives = { λ _ r. r ≡ WithoutAnswer Full };

    fn from(_: NoMemory) -> RunError {
        RunError::Unanswered(Unanswered::NoMemory)
    }
}

impl From<Undefined> for RunError {
    ghost use Rattle.std.specs.Prelude.{◌≡◌};
    ghost use Rattle.ec_interp.specs.declared.state.RunError.TheVariants.{Undefined as AtPoint};

    ghost from_gives = { λ point r. r ≡ AtPoint point };

    fn from(point: Undefined) -> RunError {
        RunError::Undefined(point)
    }
}

/// An error of a statement's own part: an undefined point that has no place yet is met there.
pub fn placed(unit: u8, at: u32, e: RunError) -> RunError
    ensures { result ≡ placed unit at e }
{
    match e {
        RunError::Undefined(point) => RunError::Met { point, unit, at },
        _ => e,
    }
}

/// The item at a place, if there is one.
pub fn at<T>(items: &[T], i: usize) -> Option<&T>
    ensures { option_copied result ≡ slice_get items.now i }
{
    items.get(i)
}

/// The declared object with a number.
pub fn object<'a>(program: &'a Program, o: u16) -> Option<&'a Obj>
    ensures { option_map plain_object (option_copied result) ≡ slice_get (map plain_object program.now.objs.items) o }
{
    at(program.objs.as_slice(), o as usize)
}

/// The state of the object with a number.
pub fn object_state(s: &State, o: u16) -> Option<&ObjectState>
    ensures { option_map seen_object (option_copied result) ≡ slice_get (map seen_object s.now.objects.items) o }
{
    at(s.objects.as_slice(), o as usize)
}

/// The function with a number.
pub fn function<'a>(program: &'a Program, f: u16) -> Option<&'a Func>
    ensures { option_map plain_function (option_copied result)
        ≡ slice_get (map plain_function program.now.funcs.items) f }
{
    at(program.funcs.as_slice(), f as usize)
}

/// What an event tells of a value.
pub fn told(v: Value) -> Told
    ensures { seen_told result ≡ told v }
{
    match v {
        Value::Number(n) => Told::Number(n),
        Value::Pointer(None) => Told::Null,
        Value::Pointer(Some(p)) => Told::Address {
            object: p.object,
            offset: p.offset,
        },
    }
}

impl State {
    /// An event more.
    pub fn record(&mut self, event: Event) -> Result<(), NoMemory>
        ensures { OnOk result (seen self.new ≡ with_event (seen_event event) (seen self.old)) }
    {
        self.events.push(event)
    }

    /// So many words more of work, of which 2^64 - 1 can be counted.
    pub fn work_more(&mut self, words: u64) -> Result<(), NoMemory>
        ensures { OnOk result (seen self.new ≡ worked words (seen self.old)) }
    {
        match self.work.checked_add(words) {
            Some(work) => {
                self.work = work;
                Ok(())
            }
            None => Err(NoMemory),
        }
    }
}
