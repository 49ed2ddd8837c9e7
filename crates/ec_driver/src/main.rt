//! A compiler, locating linker and emulator for Embedded C on AVR.
#![tactic(auto)]

mod last;
mod top;

use crate::last::LastWritten;
use crate::top::tool;
use ec_commands::{CommandError, status, tell};
use ec_emu::{Ask, Hook, Hooked};
use ec_io::{RealSink, RealStore};
use std::process::ExitCode;
use std::{env, io};

/// The words of the command line, without the program's name.
fn given_words(rt: &HostRuntime) -> io::Result<Vec<String>> {
    let mut words = Vec::new(rt.alloc());
    for word in env::args(rt)?.skip(1) {
        words.push(word)?;
    }
    Ok(words)
}

fn main(rt: HostRuntime) -> ExitCode {
    let mut store = RealStore::new(&rt);
    let mut out = RealSink::new(rt.stdout());
    let mut err = RealSink::new(rt.stderr());
    let mut hooks = Hooked {
        hook: Hook::new(|ask: Ask| ask.last, LastWritten),
    };
    let stop = match given_words(&rt) {
        Ok(words) => {
            return ExitCode::from(tool(
                rt.alloc(),
                &words,
                &mut store,
                &mut out,
                &mut err,
                &mut hooks,
            ));
        }
        Err(e) if e.kind() == io::ErrorKind::OutOfMemory => CommandError::NoMemory,
        // A word is not UTF-8, so the words are no command.
        Err(_) => CommandError::Usage,
    };
    tell(&mut err, &Vec::new(rt.alloc()), stop);
    ExitCode::from(status(stop))
}
