//! How statements are left.
ghost use Rattle.std.specs.Prelude.{◌≡◌, MatchOption};
ghost use Rattle.ec_core.specs.State.{State as StateOf, Outcome, got};
ghost use Rattle.ec_core.specs.Statements.{Exit as ExitOf, in_order, again};
ghost use Rattle.ec_interp.specs.Views.{seen_exit};

use crate::state::Exit;

/// How a row of statements is left one of which was left so, or None where it goes on.
pub fn early_exit(x: Exit) -> Option<Exit>
    ensures { MatchOption result ((s : StateOf) (go : StateOf → Outcome ExitOf) → in_order (seen_exit x) s go ≡ go s)
        (λ y. (s : StateOf) (go : StateOf → Outcome ExitOf) → in_order (seen_exit x) s go ≡ got (seen_exit y) s) }
{
    match x {
        Exit::AtEnd => None,
        Exit::ByBreak => Some(Exit::ByBreak),
        Exit::ByContinue => Some(Exit::ByContinue),
        Exit::ByReturn(v) => Some(Exit::ByReturn(v)),
    }
}

/// How a loop is left whose body was left so, or None where it goes on.
pub fn loop_exit(x: Exit) -> Option<Exit>
    ensures { MatchOption result ((s : StateOf) (go : StateOf → Outcome ExitOf) → again (seen_exit x) s go ≡ go s)
        (λ y. (s : StateOf) (go : StateOf → Outcome ExitOf) → again (seen_exit x) s go ≡ got (seen_exit y) s) }
{
    match x {
        Exit::AtEnd | Exit::ByContinue => None,
        Exit::ByBreak => Some(Exit::AtEnd),
        Exit::ByReturn(v) => Some(Exit::ByReturn(v)),
    }
}
