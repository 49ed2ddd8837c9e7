//! How values of two types meet in an operator (ISO/IEC 9899:1999, 6.3.1.8 and 6.5.15; ISO/IEC TR 18037:2008, 4.1.4 and 5.1).
ghost use Rattle.std.specs.Prelude.{◌≡◌, option_map};
ghost use Rattle.ec_core.specs.Typing.{points_to_const};
ghost use Rattle.ec_check_operands.specs.Meetings.{pointer_between, type_between};
ghost use Rattle.ec_check_operands.specs.Sorts.{plain_sort};

use crate::sorts::Sort;
use ec_core::Arithmetic;
use ec_space::SpaceId;

/// How two operands meet: as pointers, in the one of their spaces that encloses the other if there is one; as a
/// pointer, which is the left one or not, and no pointer; or as numbers.
#[derive(Clone, Copy)]
pub enum Meeting {
    Pointers(Option<SpaceId>),
    Mixed(bool),
    Numbers(Arithmetic, Arithmetic),
    Nothing,
}

fn is_to_const(ty: Sort<'_>) -> bool
    ensures { result ≡ points_to_const (plain_sort ty.entry) }
{
    match ty {
        Sort::Pointer { konst, .. } => konst,
        Sort::Number(Arithmetic::Integer(_)) | Sort::Number(Arithmetic::Fixed(_)) => false,
        Sort::Void | Sort::Array { .. } | Sort::Struct { .. } => false,
    }
}

/// The type of pointers into a space, to const where one of both is.
fn pointer_between<'a>(s: SpaceId, a: Sort<'a>, b: Sort<'_>) -> Option<Sort<'a>>
    ensures { option_map plain_sort result ≡ pointer_between s (plain_sort a.entry) (plain_sort b.entry) }
{
    match a {
        Sort::Pointer { konst, to, .. } => Some(Sort::Pointer {
            space: s,
            konst: konst || is_to_const(b),
            to,
        }),
        Sort::Number(Arithmetic::Integer(_)) | Sort::Number(Arithmetic::Fixed(_)) => None,
        Sort::Void | Sort::Array { .. } | Sort::Struct { .. } => None,
    }
}

/// The type to which the second and third operands of `?:` are converted, which have these types and meet so, or None where
/// they do not meet (ISO/IEC 9899:1999, 6.5.15).
pub fn type_between<'a>(how: Meeting, a: Sort<'a>, b: Sort<'a>) -> Option<Sort<'a>>
    ensures { option_map plain_sort result ≡ type_between how (plain_sort a.entry) (plain_sort b.entry) }
{
    match how {
        Meeting::Pointers(None) | Meeting::Nothing => None,
        Meeting::Pointers(Some(s)) => pointer_between(s, a, b),
        Meeting::Mixed(true) => Some(a),
        Meeting::Mixed(false) => Some(b),
        Meeting::Numbers(s, t) => Some(Sort::Number(s.common(t))),
    }
}
