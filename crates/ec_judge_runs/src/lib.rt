//! The run of a program by its meaning, on the bytes that a script gives: what is printed of it, and the undefined point
//! that it meets.
//!
//! `specs/Judged.antt` says what is printed of a run and which stop tells how it came out.
#![tactic(auto)]

mod inputs;
mod judging;
mod printing;
mod stop;

pub use judging::judge_run;
pub use stop::RunStop;
