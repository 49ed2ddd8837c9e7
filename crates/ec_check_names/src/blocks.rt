//! The names of blocks (ISO/IEC 9899:1999, 6.2.1).
ghost use Rattle.std.specs.Prelude.{◌≡◌, Some, if◌then◌else◌, take};

/// What a name stands for behind a declaration of it or of another name: a newer declaration hides an older one.
pub fn newer<'a, T>(before: Option<&'a T>, named: bool, what: &'a T) -> Option<&'a T>
    ensures { result ≡ (if named then Some what.entry else before.entry) }
{
    if named { Some(what) } else { before }
}

/// Forgets what a block declared: all of a list behind its first entries, which were there when the block began.
pub fn keep_first<T: Drop>(list: &mut Vec<T>, count: usize)
    ensures { list.new.items ≡ take count list.old.items }
{
    list.truncate(count);
}
