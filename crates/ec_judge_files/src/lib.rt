//! Undefined points of the programs of files: the sources that the words of an `exec` name are built, and what was built
//! is interpreted and not run.
//!
//! `specs/Judgements.antt` says what is printed and when each stop comes, `specs/Stops.antt` how it is told, and
//! `specs/Machines.antt` what the machine does where no point is met.
#![tactic(auto)]

mod answer;
mod judging;
mod laws;
mod stop;

pub use answer::conclude;
pub use judging::judge;
pub use laws::judged_runs_are_the_machines;
pub use stop::{JudgeStop, status};
