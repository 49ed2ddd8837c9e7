//! The law of what is known: the function proves it, and does nothing.
ghost use Rattle.ec_ir_known.specs.Laws.{KnownNumbersAreHeld};

/// Where an operation is reached in a run, each temporary holds the number that it is known to hold.
pub fn known_numbers_are_held()
    ensures { KnownNumbersAreHeld }
{}
