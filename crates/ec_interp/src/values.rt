//! What values become.
ghost use Rattle.std.specs.Prelude.{◌≡◌, not, pos};
ghost use Rattle.std.specs.Ordering.{int_eq};
ghost use Rattle.ec_core.specs.Expressions.{either};
ghost use Rattle.ec_core.specs.Operators.{as_pointer};
ghost use Rattle.ec_core.specs.Pointers.{pointer_in_space};
ghost use Rattle.ec_interp.specs.Shows.{Tells};
ghost use Rattle.ec_interp.specs.Suits.{IsAnswered};

use crate::state::RunError;
use ec_core::{ObjectPointer, Referent, Value, pointer_conversion};
use ec_space::SpaceId;

/// Whether a number holds as a condition.
pub fn is_not_zero(n: i128) -> bool
    ensures { result ≡ not (int_eq n (pos 0)) }
{
    n != 0
}

/// A pointer as a value in a space.
pub fn in_space(space: SpaceId, p: Option<ObjectPointer>, of: Referent) -> Result<Value, RunError>
    ensures tells { Tells result (as_pointer (pointer_in_space space p of)) }
    ensures answered { IsAnswered result }
{
    match pointer_conversion(space, p, of) {
        Ok(q) => Ok(Value::Pointer(q)),
        Err(point) => Err(RunError::Undefined(point)),
    }
}

/// The value of an update: the new one, or the old one.
pub fn updated_value(new: bool, v: Value, old: Value) -> Value
    ensures { result ≡ either new v old }
{
    if new { v } else { old }
}
