//! Names that have a meaning of their own: those of registers (ISO/IEC TR 18037:2008, 5.2.2), and `main` (ISO/IEC
//! 9899:1999, 5.1.2.2.1).
ghost use Rattle.std.specs.Prelude.{◌≡◌};
ghost use Rattle.ec_check_names.specs.Spellings.{register_by, register_number, is_main};

use ec_space::Name;

fn register_by(a: u8, b: u8, c: u8) -> Option<u8>
    ensures { result ≡ register_by a b c }
{
    if a == b'_' && b == b'R' && b'2' <= c && c <= b'7' {
        Some(c - b'0')
    } else {
        None
    }
}

/// The number of the register that a name is, from 2 to 7 for `_R2` to `_R7`, or None for any other name.
pub fn register_number(name: &Name) -> Option<u8>
    ensures { result ≡ register_number name.now.items }
{
    match name.as_slice() {
        [a, b, c] => register_by(*a, *b, *c),
        _ => None,
    }
}

/// Whether a name is that of the function where a program begins.
pub fn is_main(name: &Name) -> bool
    ensures { result ≡ is_main name.now.items }
{
    name.as_slice() == b"main".as_slice()
}
