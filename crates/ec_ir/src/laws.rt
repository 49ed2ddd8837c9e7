//! The laws of the meaning of operations: each function proves one, and does nothing.
ghost use Rattle.ec_ir.specs.Laws.{OperationsAreRuns, StepsNeverFall};

/// More operations only add events to a run, and leave one as it is that ended or failed.
pub fn operations_are_runs()
    ensures { OperationsAreRuns }
{}

/// More operations may take no fewer steps.
pub fn steps_never_fall()
    ensures { StepsNeverFall }
{}
