//! Values of leaves that are no initial values.
ghost use Rattle.std.specs.Prelude.{◌≡◌, ◌&&◌, is_none, is_some, option_map};
ghost use Rattle.ec_core.specs.Plain.{plain_expr};

use ec_core::{Expr, LeafInit};

/// Whether an item has a value of its leaf's type, and that gives no initial value, since it is undefined or not known
/// before a run (ISO/IEC 9899:1999, 6.6 and 6.7.8).
pub fn is_missing(e: &Option<Expr>, leaf: &Option<LeafInit>) -> bool
    ensures { result ≡ (is_some (option_map plain_expr e.now) && is_none leaf.now) }
{
    e.is_some() && leaf.is_none()
}
