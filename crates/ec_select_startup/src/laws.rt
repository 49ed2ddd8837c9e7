//! What the code before `main` does.
ghost use Rattle.ec_select_startup.specs.Laws.{StartupIsRight, StartupHasWords, StartupIsValid};
ghost use Rattle.ec_select_startup.specs.Laws.{StartupUsesMain, StartupPlacesNoLabel};

/// In at most so many steps the code sets the stack pointer, copies or clears the bytes of each span, and comes to the
/// call of `main`, behind which BREAK stands. Nothing rests on what memory held at reset, no port is accessed, and all
/// other bytes are kept but those of the work registers.
pub fn startup_is_right()
    ensures { StartupIsRight }
{}

/// It has at most so many words.
pub fn startup_has_words()
    ensures { StartupHasWords }
{}

/// Its items can be placed where the numbers of all spans name something and `main` has a place.
pub fn startup_is_valid()
    ensures items { StartupIsValid }
    ensures used { StartupUsesMain }
    ensures placed { StartupPlacesNoLabel }
{}
