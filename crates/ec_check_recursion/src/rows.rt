//! What each function of a program calls, as rows: for each function, by its place in the program's list, the numbers of
//! those that it calls (ISO/IEC 9899:1999, 6.5.2.2).
ghost use Rattle.std.specs.Prelude.{◌≡◌};
ghost use Rattle.ec_check_recursion.specs.Rows.{plain_rows, row_at};

use ec_space::Seq;

/// What the function at a place calls; nothing where there is no such function.
pub fn calls_at(rows: &[Seq<u16>], place: usize) -> &[u16]
    ensures { result.now ≡ row_at (plain_rows rows.now) place }
{
    match rows.get(place) {
        Some(row) => row.as_slice(),
        None => &[],
    }
}

/// What a function calls, by its number as it stands in a row.
pub fn calls_by_number(rows: &[Seq<u16>], function: u16) -> &[u16]
    ensures { result.now ≡ row_at (plain_rows rows.now) function }
{
    calls_at(rows, usize::from(function))
}
