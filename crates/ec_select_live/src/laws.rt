//! The laws of needs: each function proves one, and does nothing.
ghost use Rattle.ec_select_live.specs.Laws.{ValidOperationsHavePlaces};

/// The temporaries of a valid function's operations stand at its places.
pub fn valid_operations_have_places()
    ensures { ValidOperationsHavePlaces }
{}
