//! What is judged of a subscript (ISO/IEC 9899:1999, 6.5.2.1).
ghost use Rattle.std.specs.Prelude.{◌≡◌, [], ◌∷◌, option_map};
ghost use Rattle.ec_check_forms.specs.Nodes.{used};
ghost use Rattle.ec_check_operands.specs.Operands.{plain_operand};
ghost use Rattle.ec_check_forms.specs.Sites.{a_use, an_index, told};

use ec_check_forms::{judge_index, take};
use ec_check_operands::{Faults, Operand};

/// Takes the index `y` of `x` for use. Judges rule 40 at its first token, `second`, and rule 34 at `at`, the token `[`.
pub fn take_index(
    faults: &mut Faults,
    x: &Option<Operand>,
    y: Option<Operand>,
    second: u32,
    at: u32,
) -> Option<Operand>
    ensures value { option_map plain_operand result ≡ used (option_map plain_operand y) }
    ensures judged { let a = option_map plain_operand x.now in let b = option_map plain_operand y in
        faults.new.least ≡ told faults.old.least (a_use b second ∷ an_index a (used b) at ∷ []) }
{
    let y = take(faults, y, second);
    judge_index(faults, x, &y, at);
    y
}
