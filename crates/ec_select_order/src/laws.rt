//! What the code of relations does.
ghost use Rattle.ec_select_order.specs.Laws.{TruthsAreTold, RelationsAreTold, RelationsHaveWords};
ghost use Rattle.ec_select_order.specs.Laws.{TruthsAreToldIn, RelationsAreToldIn};

/// Where a flag tells whether a relation holds, the code of a truth value leaves this in R30, and keeps all else.
pub fn truths_are_told()
    ensures { TruthsAreTold }
{}

/// From its first word to its end the code takes at most so many steps, and leaves in R30 whether the relation holds.
/// All else is kept but the flags, R0 and R1.
pub fn relations_are_told()
    ensures { RelationsAreTold }
{}

/// The code of `truth_in` leaves in its register whether a relation holds, and keeps all else.
pub fn truths_are_told_in()
    ensures { TruthsAreToldIn }
{}

/// And the code of `relate_in`: it keeps all else but the flags, R0 and R1.
pub fn relations_are_told_in()
    ensures { RelationsAreToldIn }
{}

/// It has at most so many words.
pub fn relations_have_words()
    ensures { RelationsHaveWords }
{}
