//! The first function of a program that reaches itself.
ghost use Rattle.std.specs.Prelude.{◌≡◌, ℕ, ◌<◌, ◌≤◌, ◌↔◌, IfOk, IfSome, length};
ghost use Rattle.ec_core.specs.Plain.{plain_program};
ghost use Rattle.ec_check_recursion.specs.Recursion.{NothingRecurs, IsFirstRecursive};

use crate::calls::rows_of;
use crate::search::first_of;
use ec_core::Program;
use ec_space::NoMemory;
use std::alloc::Global;

/// A place among at most 65,536 as the number of a function.
fn number_of(place: Option<usize>) -> Option<u16>
    requires { IfSome place (λ f. f < 65_536) }
    ensures { result ≡ place }
{
    match place {
        Some(place) => Some(place as u16),
        None => None,
    }
}

/// The first function, by its place in the program's list, that reaches itself by calls. None says that there is no
/// such function, and so no recursion. It goes over all calls at most once for each function.
pub fn first_recursive(alloc: Global, program: &Program) -> Result<Option<u16>, NoMemory>
    requires { length program.now.funcs.items ≤ 65_536 }
    ensures found { IfOk result (λ r. (f : ℕ) → (r ≡ Some f) ↔ IsFirstRecursive (plain_program program.now) f) }
    ensures none { IfOk result (λ r. (r ≡ None) ↔ NothingRecurs (plain_program program.now)) }
{
    let rows = rows_of(alloc, program)?;
    let place = first_of(alloc, rows.as_slice())?;
    Ok(number_of(place))
}
