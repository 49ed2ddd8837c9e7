//! The intermediate program: for each function a list of operations on temporaries, what they may cost, and what a run
//! of them does.
//!
//! A temporary has a place among those of its function and so many bytes. Operations that only compute change
//! temporaries; others read and write objects and ports, jump, call and return. The meaning stands in
//! `specs/Meaning.antt`, over the states, values and operators of the typed program. `specs/Valid.antt` says which
//! intermediate programs are well formed.
#![tactic(auto)]

mod costs;
mod laws;
mod operations;

pub use costs::{op_steps, op_words, scalar_size};
pub use laws::{operations_are_runs, steps_never_fall};
pub use operations::{Ir, IrFunc, IrProgram, Temp};
