//! The commands `build`, `exec` and `gen`: from the named files or a generated program to a HEX text, or to a run; and why a
//! build or an exec stops, with the lines that tell it.
#![tactic(auto)]

mod answer;
mod building;
mod executing;
mod generating;
mod laws;
mod line;
mod stop;

pub use answer::conclude;
pub use building::{build, read_and_build};
pub use executing::{ExecRead, booted, exec, read_exec};
pub use generating::run_generated;
pub use laws::builds_have_one_text;
pub use line::{name_at, tell_stop};
pub use stop::{CompileStop, status};
