//! How many structs units define.
ghost use Rattle.std.specs.Prelude.{◌≡◌, ◌-◌, nat_lt, map};
ghost use Rattle.ec_grammar.specs.Views.{view_external, view_tree};
ghost use Rattle.ec_check.specs.Laws.{most_structs, structs_in_external, structs_in_externals, structs_defined};

use ec_grammar::{External, Tree};

fn less_external(left: usize, external: &External) -> usize
    ensures { result ≡ left - structs_in_external (view_external external.now) }
{
    match external {
        External::Pragma(_)
        | External::Register(_)
        | External::Declaration(_)
        | External::Function(_) => left,
        External::Structure(_) => left.saturating_sub(1),
    }
}

fn less_externals(left: usize, externals: &[External]) -> usize
    ensures { result ≡ left - structs_in_externals (map view_external externals.now) }
{
    let mut rest = left;
    for external in externals {
        rest = less_external(rest, external);
    }
    rest
}

/// Whether the units define more structs than there are numbers of 32 bits.
pub(crate) fn has_too_many_structs(units: &[Tree]) -> bool
    ensures { result ≡ nat_lt most_structs (structs_defined (map view_tree units.now)) }
{
    let mut rest = 4_294_967_297;
    for unit in units {
        rest = less_externals(rest, &unit.items);
    }
    rest == 0
}
