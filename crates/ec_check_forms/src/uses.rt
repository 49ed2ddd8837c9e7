//! Where the value of an expression is used.
ghost use Rattle.std.specs.Prelude.{◌≡◌, option_map};
ghost use Rattle.ec_core.specs.Plain.{plain_expr};
ghost use Rattle.ec_check_operands.specs.Faults.{all_judged};
ghost use Rattle.ec_check_operands.specs.Operands.{plain_operand};
ghost use Rattle.ec_check_forms.specs.Nodes.{use_rules, used, part_rules, used_part, no_scalar, condition_rules};
ghost use Rattle.ec_check_forms.specs.Nodes.{condition};

use ec_check_operands::{Faults, Modes, Operand, as_value, sort_of};
use ec_core::Expr;

/// Takes a value for use. A void one is told at `at`, its first token, and has no type.
pub fn take(faults: &mut Faults, x: Option<Operand>, at: u32) -> Option<Operand>
    ensures value { option_map plain_operand result ≡ used (option_map plain_operand x) }
    ensures faults { faults.new.least ≡ all_judged faults.old.least
        (use_rules (option_map plain_operand x) at) }
{
    let Some(x) = x else {
        return None;
    };
    let void = sort_of(&x).is_void();
    faults.judge(40, void, at);
    Some(x).filter(|_| !void)
}

/// Takes a part of a comma, of an expression statement, or the first or last part of a `for`. A struct is told at `at`,
/// its first token, and has no type.
pub fn take_part(faults: &mut Faults, x: Option<Operand>, at: u32) -> Option<Operand>
    ensures value { option_map plain_operand result ≡ used_part (option_map plain_operand x) }
    ensures faults { faults.new.least ≡ all_judged faults.old.least
        (part_rules (option_map plain_operand x) at) }
{
    let Some(x) = x else {
        return None;
    };
    let whole = sort_of(&x).is_struct();
    faults.judge(40, whole, at);
    Some(x).filter(|_| !whole)
}

/// A value as a condition, or None where it has no type or is not scalar.
pub fn condition(modes: Modes, x: Option<Operand>) -> Option<Expr>
    ensures { option_map plain_expr result ≡ condition modes (option_map plain_operand x) }
{
    let x = x.filter(|x| sort_of(x).is_scalar())?;
    Some(as_value(modes, x))
}

/// Whether an operand has a type that is not scalar.
pub fn is_no_scalar(x: &Option<Operand>) -> bool
    ensures { result ≡ no_scalar (option_map plain_operand x.now) }
{
    match x {
        None => false,
        Some(x) => !sort_of(x).is_scalar(),
    }
}

/// Judges the condition of `if`, `while`, `do` or `for`, which is told at that word.
pub fn judge_condition(faults: &mut Faults, x: &Option<Operand>, at: u32)
    ensures { faults.new.least ≡ all_judged faults.old.least (condition_rules (option_map plain_operand x.now) at) }
{
    faults.judge(25, is_no_scalar(x), at);
}
