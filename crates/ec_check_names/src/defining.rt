//! Which declarations define objects, and how many objects and functions are defined, by which definitions are numbered
//! (ISO/IEC 9899:1999, 6.9).
ghost use Rattle.std.specs.Prelude.{◌≡◌, ◌+◌, ◌≤◌, ◌<◌, ◌&&◌, not};

/// Whether a declaration at file scope, of a function or else of an object, that has `extern` or not, defines the object
/// that it declares. It does without `extern`: of the tentative definitions of ISO/IEC 9899:1999, 6.9.2, there are none.
pub fn defines_object(function: bool, external: bool) -> bool
    ensures { result ≡ (not function && not external) }
{
    !function && !external
}

/// How many objects and functions are defined so far, in all units: the numbers of the next ones, which have 16 bits.
#[derive(Clone, Copy)]
pub struct Counts {
    /// Parameters and the objects of blocks are included.
    pub objects: usize,
    pub functions: usize,
}

impl Counts {
    /// Nothing is defined.
    pub fn none() -> Counts
        ensures objects { result.objects ≡ 0 }
        ensures functions { result.functions ≡ 0 }
    {
        Counts {
            objects: 0,
            functions: 0,
        }
    }

    /// With one more object.
    pub fn with_object(self) -> Counts
        requires { self.objects < 65_536 }
        ensures objects { result.objects ≡ self.objects + 1 }
        ensures functions { result.functions ≡ self.functions }
    {
        Counts {
            objects: self.objects + 1,
            functions: self.functions,
        }
    }

    /// With one more function, which has so many objects.
    pub fn with_function(self, objects: usize) -> Counts
        requires functions { self.functions < 65_536 }
        requires objects { self.objects + objects ≤ 65_536 }
        ensures objects { result.objects ≡ self.objects + objects }
        ensures functions { result.functions ≡ self.functions + 1 }
    {
        Counts {
            objects: self.objects + objects,
            functions: self.functions + 1,
        }
    }
}
