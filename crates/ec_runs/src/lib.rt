//! Runs, whatever makes them: a program by its turns of loops, intermediate code by its operations, a machine by its
//! steps.
//!
//! A run is seen as a behaviour after each number of steps (`specs/Behaviours.antt`). The functions here prove what
//! holds of every run, each one law, and do nothing.
#![tactic(auto)]

ghost use Rattle.ec_runs.specs.Laws.{StepsAreRuns, StepsJoin, ManyJoin, RunsHaveOneEnd, WhatReachesStaysWithin};
ghost use Rattle.ec_runs.specs.Laws.{ReachesThrough, SeenRunsAreRuns, ReachesAsSeen};

/// More steps of a step function only add events, and an end or a failure stays.
pub fn steps_are_runs<S, E, R, F>()
    ensures { StepsAreRuns S E R F }
{}

/// More steps of a step function are the first of them, and then the others from the state after those.
pub fn steps_join<S, E, R, F>()
    ensures steps { StepsJoin S E R F }
    ensures many { ManyJoin S E R F }
{}

/// Two ends of a run are one.
pub fn runs_have_one_end<E, R, F>()
    ensures { RunsHaveOneEnd E R F }
{}

/// A run that reaches all that another one shows stays within it.
pub fn what_reaches_stays_within<E, R, F, G>()
    ensures { WhatReachesStaysWithin E R F G }
{}

/// What reaches a run that reaches another one reaches that one.
pub fn reaches_through<E, R, F, G, H>()
    ensures { ReachesThrough E R F G H }
{}

/// A run stays one where its events are seen in another way.
pub fn seen_runs_are_runs<D, E, R, F>()
    ensures { SeenRunsAreRuns D E R F }
{}

/// A run reaches what it reached where the events of both are seen in another way.
pub fn reaches_as_seen<D, E, R, F, G>()
    ensures { ReachesAsSeen D E R F G }
{}
