//! The emulator: runs of the AVR core with ports that answer from a script or from hooks.
//!
//! `specs/Hooks.antt` and `specs/Answers.antt` say what ports are asked and what they answer, `specs/Lines.antt` which lines
//! a run prints, `specs/Emulation.antt` what a run is, `specs/Stops.antt` where one
//! stops before its end, and `specs/Script.antt` what a script is.
#![tactic(auto)]

mod answers;
mod ask;
mod history;
mod hook;
mod print;
mod read;
mod run;
mod script;
mod stop;

pub use ask::{Ask, Ports, Rule};
pub use hook::{Hook, Hooked};
pub use read::{ScriptStop, read_script, script_core};
pub use run::{EmuEnd, EmuReport, UntilReport, emulate, emulate_until};
pub use script::{Script, ScriptLine, Scripted};
pub use stop::Stop;
