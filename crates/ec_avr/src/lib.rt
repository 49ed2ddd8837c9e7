//! The AVR core: the image that its flash is loaded with, and the machine.
#![tactic(auto)]

mod image;
mod laws;
mod machine;

pub use image::Image;
pub use laws::{
    begins_two_words, bytes_stay_bytes, jumps_arrive, one_bit_is_set, run_as_far_as_read,
    runs_are_steps, runs_join, stack_bytes_are_told, step_reads_what_is_answered,
    steps_are_of_instructions,
};
pub use machine::{Access, FaultKind, Machine, PortAnswer, Stepped};
