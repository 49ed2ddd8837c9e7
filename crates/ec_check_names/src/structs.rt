//! The structs of several units (ISO/IEC 9899:1999, 6.2.7).
ghost use Rattle.std.specs.Prelude.{◌≡◌, map, option_map};
ghost use Rattle.std.specs.Option.{option_copied};
ghost use Rattle.ec_core.specs.Plain.{plain_member, plain_struct};
ghost use Rattle.ec_check_names.specs.Structs.{same_member, same_from, same_members, same_struct};

use ec_core::{Member, StructDef};
use ec_space::Seq;

fn same_member(a: &Member, b: Option<&Member>) -> bool
    ensures { result ≡ same_member (plain_member a.now) (option_map plain_member (option_copied b.entry)) }
{
    match b {
        None => false,
        Some(b) => a.name == b.name && a.ty.is_same(&b.ty),
    }
}

fn same_from_first(a: &[Member], b: &Seq<Member>) -> bool
    ensures { result ≡ same_from 0 (map plain_member a.now) (map plain_member b.now.items) }
{
    let mut place = 0;
    for x in a {
        if !same_member(x, b.get(place)) {
            return false;
        }
        place += 1;
    }
    true
}

/// Whether two struct definitions are one struct: they have the same tag, and the same members in the same order, with
/// the same names and types.
pub fn same_struct(a: &StructDef, b: &StructDef) -> bool
    ensures { result ≡ same_struct (plain_struct a.now) (plain_struct b.now) }
{
    a.tag == b.tag
        && a.members.len() == b.members.len()
        && same_from_first(a.members.as_slice(), &b.members)
}
