//! An interpreter of the source language, slow and simple: its answer is the definition of what a
//! program does. It is a reference to test a compiler and its definitions against, and is no part of
//! the compiler.
#![tactic(auto)]

mod accesses;
mod behaviour;
mod events;
mod exits;
mod interpreter;
mod layouts;
mod numbers;
mod objects;
mod operators;
mod ports;
mod run;
mod state;
mod values;
mod words;

pub use behaviour::{Behaviour, Event, PortInput, Run, Told, Unanswered};
pub use interpreter::interpret;
