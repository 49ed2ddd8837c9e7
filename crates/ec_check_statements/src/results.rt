//! The result of a function, and the values that `return` gives it (ISO/IEC 9899:1999, 6.8.6.4).
ghost use Rattle.std.specs.Prelude.{◌≡◌, option_map};
ghost use Rattle.std.specs.Option.{option_copied};
ghost use Rattle.ec_core.specs.Plain.{plain_type};
ghost use Rattle.ec_check_operands.specs.Faults.{judged, rule};
ghost use Rattle.ec_check_operands.specs.Sorts.{is_void};
ghost use Rattle.ec_check_statements.specs.Results.{returned_type, has_no_result, has_result};

use ec_check_operands::Faults;
use ec_core::CType;

fn is_void(ty: &CType) -> bool
    ensures { result ≡ is_void (plain_type ty.now) }
{
    matches!(ty, CType::Void)
}

/// The type of the values that a function with a result returns, or None where it has none or its declaration breaks a
/// rule.
pub fn returned_type(ty: &Option<CType>) -> Option<&CType>
    ensures { option_map plain_type (option_copied result) ≡ returned_type (option_map plain_type ty.now) }
{
    match ty {
        None => None,
        Some(ty) => { if is_void(ty) { None } else { Some(ty) } }
    }
}

/// Whether a function returns no value, where its declaration breaks no rule.
pub fn has_no_result(ty: &Option<CType>) -> bool
    ensures { result ≡ has_no_result (option_map plain_type ty.now) }
{
    match ty {
        None => false,
        Some(ty) => is_void(ty),
    }
}

/// Whether a function returns a value, where its declaration breaks no rule.
pub fn has_result(ty: &Option<CType>) -> bool
    ensures { result ≡ has_result (option_map plain_type ty.now) }
{
    match ty {
        None => false,
        Some(ty) => !is_void(ty),
    }
}

/// Judges a `return` with a value in a function of this result, at its word `at` (rule 39).
pub fn judge_value(faults: &mut Faults, ty: &Option<CType>, at: u32)
    ensures { faults.new.least ≡ judged faults.old.least
        (rule 39 (has_no_result (option_map plain_type ty.now)) at) }
{
    faults.judge(39, has_no_result(ty), at);
}
