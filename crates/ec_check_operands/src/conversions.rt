//! Conversions from type to type (ISO/IEC 9899:1999, 6.3 and 6.5.16.1; ISO/IEC TR 18037:2008, 5.1.3).
ghost use Rattle.std.specs.Prelude.{◌≡◌, ◌&&◌, not};
ghost use Rattle.ec_core.specs.Operators.{same_type};
ghost use Rattle.ec_core.specs.Plain.{plain_type};
ghost use Rattle.ec_check_operands.specs.Faults.{all_judged};
ghost use Rattle.ec_check_operands.specs.Conversions.{passes, conversion_rules, into_space};
ghost use Rattle.ec_check_operands.specs.Sorts.{plain_sort, is_pointer, narrows, drops_const};

use crate::faults::Faults;
use crate::sorts::{Sort, same_pointee};
use ec_core::{Arithmetic, CType};
use ec_space::SpaceId;

/// Whether a conversion is made of a value of one type where one of the other is wanted: exactly where the types differ.
pub fn is_converted(from: &CType, to: &CType) -> bool
    ensures { result ≡ not (same_type (plain_type from.now) (plain_type to.now)) }
{
    !from.is_same(to)
}

/// Whether a value becomes a null pointer in a type: it is the null pointer constant, where `null` holds, and the type is a
/// pointer's (ISO/IEC 9899:1999, 6.3.2.3).
pub fn becomes_null(null: bool, to: Sort<'_>) -> bool
    ensures { result ≡ (null && is_pointer (plain_sort to.entry)) }
{
    null && to.is_pointer()
}

/// A pointer's type, of a pointer into another space, which keeps its const. Any other type stays as it is.
pub fn into_space(space: SpaceId, ty: Sort<'_>) -> Sort<'_>
    ensures { plain_sort result ≡ into_space space (plain_sort ty.entry) }
{
    match ty {
        Sort::Pointer { konst, to, .. } => Sort::Pointer { space, konst, to },
        Sort::Number(Arithmetic::Integer(_)) | Sort::Number(Arithmetic::Fixed(_)) => ty,
        Sort::Void | Sort::Array { .. } | Sort::Struct { .. } => ty,
    }
}

/// Whether a pointer would come into a space that does not enclose its own.
pub fn narrows(from: Sort<'_>, to: Sort<'_>) -> bool
    ensures { result ≡ narrows (plain_sort from.entry) (plain_sort to.entry) }
{
    match (from, to) {
        (Sort::Pointer { space, .. }, Sort::Pointer { space: outer, .. }) => !outer.encloses(space),
        _ => false,
    }
}

/// Whether a pointer to const would become one that is not.
pub fn drops_const(from: Sort<'_>, to: Sort<'_>) -> bool
    ensures { result ≡ drops_const (plain_sort from.entry) (plain_sort to.entry) }
{
    match (from, to) {
        (Sort::Pointer { konst, .. }, Sort::Pointer { konst: kept, .. }) => konst && !kept,
        _ => false,
    }
}

/// Whether a value passes from one type to another but for const and spaces: both are arithmetic, or both point to one type,
/// or it is the null pointer constant, where `null` holds, and becomes a pointer (ISO/IEC 9899:1999, 6.5.16.1).
pub fn passes(from: Sort<'_>, null: bool, to: Sort<'_>) -> bool
    ensures { result ≡ passes (plain_sort from.entry) null (plain_sort to.entry) }
{
    from.is_arithmetic() && to.is_arithmetic() || becomes_null(null, to) || same_pointee(from, to)
}

/// Judges the implicit conversion of a value from one type to another, which is told at the token `at`: rules 28 to 30. It
/// is the null pointer constant where `null` holds.
pub fn judge_types(faults: &mut Faults, from: Sort<'_>, null: bool, to: Sort<'_>, at: u32)
    ensures { faults.new.least ≡ all_judged faults.old.least
        (conversion_rules (plain_sort from.entry) null (plain_sort to.entry) at) }
{
    let pointers = same_pointee(from, to);
    faults.judge(28, !passes(from, null, to), at);
    faults.judge(29, pointers && narrows(from, to), at);
    faults.judge(30, pointers && drops_const(from, to), at);
}
