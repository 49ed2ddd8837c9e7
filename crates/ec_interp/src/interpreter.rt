//! The run of a program.
ghost use Rattle.std.specs.Prelude.{◌≡◌, ◌*◌, false, Some, None, length, map, replicate, IfErr, IfOk};
ghost use Rattle.std.specs.List.{AllByRecursion};
ghost use Rattle.ec_core.specs.Accesses.{leaf_count};
ghost use Rattle.ec_core.specs.Layout.{IsObjectType};
ghost use Rattle.ec_core.specs.Meaning.{initial_value, initial_object, initial_state, number_of, run as run_of, source};
ghost use Rattle.ec_core.specs.Meaning.{work};
ghost use Rattle.ec_core.specs.Plain.{plain_object, plain_program};
ghost use Rattle.ec_core.specs.PortTable.{plain_table};
ghost use Rattle.ec_core.specs.Valid.{IsObject, Valid};
ghost use Rattle.ec_core.specs.ValueTypes.{GiveBytes};
ghost use Rattle.ec_interp.specs.declared.behaviour.Unanswered.TheVariants.{NoMemory as OutOfMemory};
ghost use Rattle.ec_interp.specs.Outcomes.{TellsOutcome, TellsPlace, TellsAnswer};
ghost use Rattle.ec_interp.specs.Suits.{IsGiven, IsMemory, IsAnswered};
ghost use Rattle.ec_interp.specs.Views.{seen, seen_object, seen_event, seen_behaviour, inputs_of, setting_of, HasLayouts};

use crate::behaviour::{Behaviour, Event, PortInput, Run, Unanswered};
use crate::events::Events;
use crate::layouts::leaf_count;
use crate::objects::unset_leaves;
use crate::run::call;
use crate::state::{Context, ObjectState, RunError, State};
use ec_core::{LeafInit, Obj, ObjectPointer, Program, Storage, Value, invalid_is_never_met};
use ec_iohw::IoTable;
use ec_space::{NoMemory, Seq, push};
use std::alloc::Global;

// ---- the beginning

fn initial_value(init: &LeafInit) -> Value
    ensures { result ≡ initial_value init.now }
{
    match init {
        LeafInit::Number(n) => Value::Number(*n),
        LeafInit::Null => Value::Pointer(None),
        LeafInit::Address { object, offset } => Value::Pointer(Some(ObjectPointer {
            object: *object,
            instance: 0,
            offset: *offset,
        })),
    }
}

fn initial_leaves(alloc: Global, inits: &[LeafInit]) -> Result<Vec<Option<Value>>, NoMemory>
    ensures { IfOk result (λ leaves. leaves.items ≡ map (λ init. Some (initial_value init)) inits.now) }
{
    let mut leaves = Vec::new(alloc);
    for init in inits {
        push(&mut leaves, Some(initial_value(init)))?;
    }
    Ok(leaves)
}

fn unset_object(f: &Context, o: &Obj, live: bool) -> Result<ObjectState, Unanswered>
    requires { HasLayouts f.now.program.now }
    ensures answered { IsObjectType (length f.now.program.now.structs.items) (plain_object o.now).ty
        → IfErr result IsMemory }
    ensures object { IfOk result (λ x. seen_object x
        ≡ record {
          serial = 0;
          live = live;
          leaves = replicate (leaf_count (plain_program f.now.program.now) (plain_object o.now).ty) None;
        }) }
{
    let count = leaf_count(f, &o.ty)?;
    let leaves = unset_leaves(f.alloc, count)?;
    Ok(ObjectState {
        serial: 0,
        live,
        leaves,
    })
}

fn initial_object(f: &Context, o: &Obj) -> Result<ObjectState, Unanswered>
    requires { HasLayouts f.now.program.now }
    ensures answered { IsObjectType (length f.now.program.now.structs.items) (plain_object o.now).ty
        → IfErr result IsMemory }
    ensures object { IfOk result (λ x. seen_object x
        ≡ initial_object (leaf_count (plain_program f.now.program.now) (plain_object o.now).ty)
        (plain_object o.now).storage) }
{
    match &o.storage {
        Storage::Static(inits) => {
            let leaves = initial_leaves(f.alloc, inits.as_slice())?;
            Ok(ObjectState {
                serial: 0,
                live: true,
                leaves,
            })
        }
        Storage::Local(_) | Storage::Param(_) => unset_object(f, o, false),
        Storage::Register(_) => unset_object(f, o, true),
    }
}

fn initial_objects(f: &Context, objs: &[Obj]) -> Result<Vec<ObjectState>, Unanswered>
    requires { HasLayouts f.now.program.now }
    ensures answered { AllByRecursion (IsObject (plain_program f.now.program.now)) (map plain_object objs.now)
        → IfErr result IsMemory }
    ensures objects { IfOk result (λ xs. map seen_object xs.items
        ≡ map (λ o. initial_object (leaf_count (plain_program f.now.program.now) o.ty) o.storage)
        (map plain_object objs.now)) }
{
    let mut objects = Vec::new(f.alloc);
    for o in objs {
        let x = initial_object(f, o)?;
        push(&mut objects, x)?;
    }
    Ok(objects)
}

fn closed(alloc: Global, count: usize) -> Result<Vec<bool>, NoMemory>
    ensures { IfOk result (λ acquired. acquired.items ≡ replicate count false) }
{
    match vec![in alloc; false; count] {
        Ok(acquired) => Ok(acquired),
        Err(_) => Err(NoMemory),
    }
}

fn none_acquired(f: &Context) -> Result<Vec<bool>, NoMemory>
    ensures { IfOk result (λ acquired. acquired.items ≡ map (λ g. false) (plain_table f.now.io.now).groups) }
{
    closed(f.alloc, f.io.groups.len())
}

fn unbound(alloc: Global, count: usize) -> Result<Vec<Option<u16>>, NoMemory>
    ensures { IfOk result (λ choices. choices.items ≡ replicate count None) }
{
    match vec![in alloc; None; count] {
        Ok(choices) => Ok(choices),
        Err(_) => Err(NoMemory),
    }
}

fn none_chosen(f: &Context) -> Result<Vec<Option<u16>>, NoMemory>
    ensures { IfOk result (λ choices. choices.items ≡ map (λ d. None) (plain_table f.now.io.now).dynamics) }
{
    unbound(f.alloc, f.io.dynamics.len())
}

fn initial_state(f: &Context) -> Result<State, Unanswered>
    requires { HasLayouts f.now.program.now }
    ensures answered { IsGiven f.now → IfErr result IsMemory }
    ensures state { IfOk result (λ s. seen s
        ≡ initial_state (plain_program f.now.program.now) (plain_table f.now.io.now)) }
{
    let objects = initial_objects(f, f.program.objs.as_slice())?;
    let acquired = none_acquired(f)?;
    let choices = none_chosen(f)?;
    Ok(State {
        objects,
        acquired,
        choices,
        events: Events::new(f.alloc),
        work: 200,
    })
}

// ---- the run

fn number_of(x: Value) -> i128
    ensures { result ≡ number_of x }
{
    match x {
        Value::Number(n) => n,
        Value::Pointer(_) => 0,
    }
}

/// All events, in order.
fn events_of(alloc: Global, s: &State) -> Result<Seq<Event>, NoMemory>
    ensures { IfOk result (λ events. map seen_event events.items ≡ s.now.events) }
{
    let mut events = Seq::new(alloc);
    events.extend_from_slice(s.events.as_slice())?;
    Ok(events)
}

fn behaviour_of(
    alloc: Global,
    outcome: Result<Value, RunError>,
    s: &State,
) -> Result<Behaviour, Unanswered>
    ensures answered { IsAnswered outcome → IfErr result IsMemory }
    ensures told { IfOk result (TellsAnswer outcome (seen s.now)) }
{
    match outcome {
        Ok(x) => Ok(Behaviour::Ended {
            events: events_of(alloc, s)?,
            result: number_of(x),
        }),
        Err(RunError::OutOfTurns) => Ok(Behaviour::Running {
            events: events_of(alloc, s)?,
        }),
        Err(RunError::Met { point, unit, at }) => Ok(Behaviour::MeetsUndefined {
            point,
            unit,
            at,
            events: events_of(alloc, s)?,
        }),
        // never: a call tells where each point was met
        Err(RunError::Undefined(_)) => Err(Unanswered::NoMemory),
        Err(RunError::Unanswered(why)) => Err(why),
    }
}

fn steps(words: u64) -> Result<u64, NoMemory>
    ensures { IfOk result (λ n. n ≡ 64 * words) }
{
    match words.checked_mul(64) {
        Some(n) => Ok(n),
        None => Err(NoMemory),
    }
}

/// What a program does with these inputs, where each execution of a loop has at most `turns` turns, and
/// the bound on the machine's steps that comes with it. For ports without an entry of their own there
/// is no input. Where an undefined point is met, the events up to it are told, and the innermost statement
/// under execution. Of a valid program only running out of memory keeps it from an answer.
pub fn interpret(
    alloc: Global,
    program: &Program,
    io: &IoTable,
    inputs: &Seq<PortInput>,
    turns: u32,
) -> Result<Run, Unanswered>
    requires { HasLayouts program.now }
    ensures outcome { let w = setting_of program.now io.now inputs.now.items in
        IfOk result (λ run. TellsOutcome w turns run.behaviour
        (run_of (plain_program program.now) (plain_table io.now) (inputs_of inputs.now.items) turns)) }
    ensures place { Valid (plain_program program.now) io.now → GiveBytes (inputs_of inputs.now.items)
        → (let w = setting_of program.now io.now inputs.now.items in
        IfOk result (λ run. TellsPlace w turns run.behaviour
        (run_of (plain_program program.now) (plain_table io.now) (inputs_of inputs.now.items) turns))) }
    ensures behaviour { IfOk result
        (λ run. seen_behaviour run.behaviour
        ≡ source (plain_program program.now) (plain_table io.now) (inputs_of inputs.now.items) turns) }
    ensures work { IfOk result (λ run. run.work
        ≡ work (plain_program program.now) (plain_table io.now) (inputs_of inputs.now.items) turns) }
    ensures answered { Valid (plain_program program.now) io.now → GiveBytes (inputs_of inputs.now.items)
        → IfErr result (λ why. why ≡ OutOfMemory) }
{
    invalid_is_never_met();
    let f = Context {
        alloc,
        program,
        io,
        inputs: inputs.as_slice(),
        turns,
    };
    let mut s = initial_state(&f)?;
    let outcome = call(&f, program.funcs.len(), &mut s, program.main, &[]);
    let behaviour = behaviour_of(alloc, outcome, &s)?;
    let work = steps(s.work)?;
    Ok(Run { behaviour, work })
}
