//! What finds the undefined points of a program: the sources are built and interpreted, and not run.
#![tactic(auto)]

mod top;

use crate::top::check;
use ec_commands::{CommandError, status, tell};
use ec_io::{RealSink, RealStore};
use std::process::ExitCode;
use std::{env, io};

/// The words of the command line, without the program's name.
fn given_words(rt: &HostRuntime) -> io::Result<Vec<String>> {
    let mut words = Vec::new(rt.alloc());
    for word in env::args(rt)?.skip(1) {
        words.push(word)?;
    }
    Ok(words)
}

fn main(rt: HostRuntime) -> ExitCode {
    let mut store = RealStore::new(&rt);
    let mut out = RealSink::new(rt.stdout());
    let mut err = RealSink::new(rt.stderr());
    let stop = match given_words(&rt) {
        Ok(words) => {
            return ExitCode::from(check(rt.alloc(), &words, &mut store, &mut out, &mut err));
        }
        Err(e) if e.kind() == io::ErrorKind::OutOfMemory => CommandError::NoMemory,
        // A word is not UTF-8, so the words are none of an exec.
        Err(_) => CommandError::Usage,
    };
    tell(&mut err, &Vec::new(rt.alloc()), stop);
    ExitCode::from(status(stop))
}
