//! How many arguments a call has (ISO/IEC 9899:1999, 6.5.2.2).
ghost use Rattle.std.specs.Prelude.{◌≡◌, ◌+◌};
ghost use Rattle.ec_grammar.specs.Views.{view_arguments, views_further};
ghost use Rattle.ec_check_expressions.specs.Counts.{further_count, argument_count};

use ec_grammar::{Argument, Arguments};

/// How many arguments there are behind the first one, or behind the name of a port.
pub fn further_count(more: &[Argument]) -> usize
    ensures { result ≡ further_count (views_further more.now) }
{
    more.len()
}

fn count_with_first(more: &[Argument]) -> usize
    ensures { result ≡ further_count (views_further more.now) + 1 }
{
    more.len() + 1
}

/// How many arguments stand there.
pub fn argument_count(a: &Arguments) -> usize
    ensures { result ≡ argument_count (view_arguments a.now) }
{
    match a {
        Arguments::None => 0,
        Arguments::Some(_, more) => count_with_first(more),
    }
}
