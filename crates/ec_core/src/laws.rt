//! The laws of the meaning of programs: each function proves one, and does nothing.
//!
//! The meaning stands in `specs/Meaning.antt` and the files that it names. A run depends on a number of turns, which no
//! execution of a loop passes. These laws say that it is one run all the same, of which more turns only show more.
ghost use Rattle.ec_core.specs.Depth.{InvalidIsNeverMet, CallsNestNoDeeper};
ghost use Rattle.ec_core.specs.Suited.{OperandsSuit};
ghost use Rattle.ec_core.specs.ValueTypes.{TypesAreKept};
ghost use Rattle.ec_core.specs.Laws.{RunsBySteps, EventsAreAtHome, RegistersAreSilent, MoreTurnsOnlyAdd};
ghost use Rattle.ec_core.specs.Laws.{WorkNeverFalls, DependsOnBytesRead, PartsOnlyAdd, TurnsAreWork};
ghost use Rattle.ec_core.specs.Laws.{BytesAreTakenInOrder, TypesAreTold};

/// A run goes from state to state by steps. Where a step reads or writes a leaf, the object is live in the state before
/// it and its home is in the space of the access. Where it reads a byte of a port, it is the next one that the port
/// gives.
pub fn runs_by_steps()
    ensures { RunsBySteps }
{}

/// The home of each object that a run reads or writes is in the space of the access.
pub fn events_are_at_home()
    ensures { EventsAreAtHome }
{}

/// Reads and writes of named registers are no events.
pub fn registers_are_silent()
    ensures { RegistersAreSilent }
{}

/// More turns only add events to a run, and leave one as it is that ended or met an undefined point.
pub fn more_turns_only_add()
    ensures { MoreTurnsOnlyAdd }
{}

/// More turns are no less work.
pub fn work_never_falls()
    ensures { WorkNeverFalls }
{}

/// Each part of a run, be it an expression, a place, a statement or a call, leads on by steps: it only adds to the
/// events, and its work is no less than that before it.
pub fn parts_only_add()
    ensures { PartsOnlyAdd }
{}

/// A run in which a loop is out of n turns has done the work of n turns.
pub fn turns_are_work()
    ensures { TurnsAreWork }
{}

/// A read of a port takes the first of the bytes that its list still has, and leaves those of other ports.
pub fn bytes_are_taken_in_order()
    ensures { BytesAreTakenInOrder }
{}

/// A run is the same for inputs that agree on the bytes that it reads.
pub fn depends_on_bytes_read()
    ensures { DependsOnBytesRead }
{}

/// Types are told to be the same exactly where they are equal.
pub fn types_are_told()
    ensures { TypesAreTold }
{}

/// In a valid program the value of each expression, of each leaf and of each return statement has its type, and the
/// pointer of each place is in its object and in the space of the place, at every moment of a run.
pub fn types_are_kept()
    ensures { TypesAreKept }
{}

/// Operands that have their types suit their operators.
pub fn operands_suit()
    ensures { OperandsSuit }
{}

/// A valid program never meets what no valid program has.
pub fn invalid_is_never_met()
    ensures { InvalidIsNeverMet }
{}

/// The calls of a valid program nest no deeper than it has functions.
pub fn calls_nest_no_deeper()
    ensures { CallsNestNoDeeper }
{}
