//! The most work of a program, and the first of its loops that is not counted.
ghost use Rattle.std.specs.Prelude.{◌≡◌, ◌≤◌, ◌<◌, ◌↔◌, ◌++◌, ◌∷◌, []};
ghost use Rattle.std.specs.Prelude.{None, Some, false, map, length, replicate, IfOk, OnOk};
ghost use Rattle.ec_check_recursion.specs.Rows.{plain_rows, rows_of_program};
ghost use Rattle.ec_core.specs.Plain.{plain_function, plain_program, plain_stmt};
ghost use Rattle.ec_core.specs.PortTable.{plain_table};
ghost use Rattle.ec_core_steps.specs.declared.uncounted.Site.{Site as Place};
ghost use Rattle.ec_core_steps.specs.Costs.{function_cost, costs_from, costs_within, held};
ghost use Rattle.ec_core_steps.specs.Laws.{LoopsAreCounted, IsFirstUncounted, uncounted_in};
ghost use Rattle.ec_core_steps.specs.Reached.{taken, IsFirstOf};
ghost use Rattle.ec_core_steps.specs.Work.{max_work};

use crate::costs::{Rates, call_cost, stmt_cost};
use crate::counted::Within;
use crate::reached::{mark_reached, unmarked};
use crate::uncounted::{Site, first_site, in_stmt};
use ec_check_recursion::rows_of;
use ec_core::{Func, Program};
use ec_iohw::IoTable;
use ec_space::{NoMemory, Seq};
use std::alloc::Global;

// ---- the most work

/// The most work of a call of a function.
fn function_cost(rates: &Rates, within: &Within) -> u64
    ensures { result ≡ function_cost (plain_table rates.now.io.now) rates.now.costs.now
        (plain_program within.now.program.now) within.now.function (plain_stmt within.now.body.now) }
{
    40u64.saturating_add(stmt_cost(rates, within, within.body))
}

/// Appends the most work of a call of the function at a place.
fn add_cost(
    costs: &mut Seq<u64>,
    program: &Program,
    rates: &Rates,
    place: usize,
    func: &Func,
) -> Result<(), NoMemory>
    requires { place < 65_536 }
    ensures { OnOk result (costs.new.items ≡ costs.old.items ++ function_cost (plain_table rates.now.io.now)
        rates.now.costs.now (plain_program program.now) place (plain_stmt func.now.body) ∷ []) }
{
    let within = Within {
        program,
        function: place as u16,
        body: &func.body,
    };
    costs.push(function_cost(rates, &within))
}

/// The most work of a call of each function, by that of the functions that they call.
fn costs_by(
    alloc: Global,
    program: &Program,
    io: &IoTable,
    inner: &[u64],
) -> Result<Seq<u64>, NoMemory>
    requires { length program.now.funcs.items ≤ 65_536 }
    ensures { IfOk result (λ costs. costs.items ≡ costs_from (plain_table io.now) inner.now (plain_program program.now) 0
        (map plain_function program.now.funcs.items)) }
{
    let rates = Rates { io, costs: inner };
    let mut costs = Seq::new(alloc);
    for (place, func) in program.funcs.as_slice().iter().enumerate() {
        add_cost(&mut costs, program, &rates, place, func)?;
    }
    Ok(costs)
}

/// The same where calls nest at most so deep.
fn costs_within(
    alloc: Global,
    program: &Program,
    io: &IoTable,
    depth: usize,
) -> Result<Seq<u64>, NoMemory>
    requires { length program.now.funcs.items ≤ 65_536 }
    ensures { IfOk result (λ costs. costs.items ≡ costs_within (plain_table io.now) (plain_program program.now) depth) }
{
    let mut costs = Seq::new(alloc);
    for _round in 0..depth {
        costs = costs_by(alloc, program, io, costs.as_slice())?;
    }
    Ok(costs)
}

/// A number, where 64 bits hold it.
fn held(n: u128) -> Option<u64>
    ensures { result ≡ held n }
{
    if n <= u64::MAX as u128 {
        Some(n as u64)
    } else {
        None
    }
}

/// The most work of a program, in words: no run does more where all loops of the functions that main reaches are
/// counted. None says that it passes 18,446,744,073,709,551,615.
///
/// The work of calls is taken in rounds, one for each function of the program, so that no chain of calls is followed more
/// than once in each.
pub fn most_work(alloc: Global, program: &Program, io: &IoTable) -> Result<Option<u64>, NoMemory>
    requires { length program.now.funcs.items ≤ 65_536 }
    ensures { IfOk result (λ work. work ≡ held (max_work (plain_program program.now) (plain_table io.now))) }
{
    let costs = costs_within(alloc, program, io, program.funcs.len())?;
    let words = call_cost(costs.as_slice(), program.main);
    Ok(held(64 * (200 + words as u128)))
}

// ---- loops that are not counted

/// The first loop of a function that is not counted.
fn function_uncounted(program: &Program, place: usize) -> Option<Site>
    requires { place < 65_536 }
    ensures { result ≡ uncounted_in (plain_program program.now) place }
{
    match program.funcs.as_slice().get(place) {
        Some(function) => {
            let within = Within {
                program,
                function: place as u16,
                body: &function.body,
            };
            in_stmt(&within, &function.body)
        }
        None => None,
    }
}

/// The first loop so far, or that of one more function where it is marked.
fn taken(program: &Program, marks: &[bool], first: Option<Site>, place: usize) -> Option<Site>
    requires within { place < length marks.now }
    requires few { length marks.now ≤ 65_536 }
    ensures { result ≡ taken (plain_program program.now) marks.now first place }
{
    if marks[place] {
        first_site(first, function_uncounted(program, place))
    } else {
        first
    }
}

/// The first loop that is not counted, of all functions that are marked.
fn first_marked(program: &Program, marks: &[bool]) -> Option<Site>
    requires { length marks.now ≤ 65_536 }
    ensures { IsFirstOf (plain_program program.now) marks.now (length marks.now) result }
{
    let mut first = None;
    for place in 0..marks.len() {
        first = taken(program, marks, first, place);
    }
    first
}

/// The same of all functions that main reaches, by the calls of all; none is marked yet.
fn first_reached(program: &Program, rows: &[Seq<u16>], marks: &mut [bool]) -> Option<Site>
    requires rows { plain_rows rows.now ≡ rows_of_program (plain_program program.now) }
    requires unmarked { marks.old ≡ replicate (length rows.now) false }
    requires few { length rows.now ≤ 65_536 }
    ensures found { (x : Place) → (result ≡ Some x) ↔ IsFirstUncounted (plain_program program.now) x }
    ensures none { (result ≡ None) ↔ LoopsAreCounted (plain_program program.now) }
{
    mark_reached(program.main, rows, marks);
    first_marked(program, marks)
}

/// The first loop that is not counted, of all functions that main reaches. None says that all their loops are counted.
pub fn first_uncounted(alloc: Global, program: &Program) -> Result<Option<Site>, NoMemory>
    requires { length program.now.funcs.items ≤ 65_536 }
    ensures found { IfOk result (λ r. (x : Place) → (r ≡ Some x) ↔ IsFirstUncounted (plain_program program.now) x) }
    ensures none { IfOk result (λ r. (r ≡ None) ↔ LoopsAreCounted (plain_program program.now)) }
{
    let rows = rows_of(alloc, program)?;
    let mut marks = unmarked(alloc, rows.len())?;
    Ok(first_reached(program, rows.as_slice(), &mut marks))
}
