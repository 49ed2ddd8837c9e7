//! What the commands share: their words, their answers with the lines that tell them, the reading of inputs, the
//! writing of an image, the running of a machine, and the command `run`.
#![tactic(auto)]

mod answer;
mod counting;
mod input;
mod laws;
mod line;
mod load;
mod output;
mod running;
mod sources;
mod stop;
mod words;

pub use answer::conclude;
pub use counting::print_counts;
pub use input::read;
pub use laws::rows_are_commands;
pub use line::{Part, tell, write_line, write_parts};
pub use load::{Loaded, load_image, load_script};
pub use output::write_file;
pub use running::{print_run, run};
pub use sources::read_sources;
pub use stop::{CommandError, Limit, status};
pub use words::{Command, Compiling, command_of, first_source, is_build, word_at};
