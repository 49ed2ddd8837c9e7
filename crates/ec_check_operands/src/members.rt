//! Members of structs by their names (ISO/IEC 9899:1999, 6.5.2.3).
ghost use Rattle.std.specs.Prelude.{◌≡◌, position};
ghost use Rattle.std.specs.Str.{bytes_eq};

use ec_core::Member;

/// The place, from 0, of the member with a name among the members of a struct, or None where none has it.
pub fn member_named(members: &[Member], name: &[u8]) -> Option<usize>
    ensures { result ≡ position (λ m. bytes_eq m.name.items name.now) members.now }
{
    members.iter().position(|m| m.name.as_slice() == name)
}
