//! Explains what the tool says of a fault: where it stands, by line and column, and what the rule asks.
//!
//! It reads lines of the tool on standard input, and the sources that they name. The words of the tool's call, where
//! they are given, name the files that a line does not name. Whatever it cannot explain it writes unchanged, and its
//! status is 0; where memory ran out for a line, or standard input could not be read, it is 1.
#![tactic(auto)]

mod explain;
mod locate;
mod messages;
mod place;
mod pointed;
mod position;
mod recursion;
mod telling;

use crate::telling::{Telling, Untold, tell_line};
use ec_io::{RealSink, RealStore};
use ec_where_lines::FileNames;
use std::io::BufRead;
use std::process::ExitCode;
use std::{env, io};

/// The words of the command line, without the program's name.
fn given_words(rt: &HostRuntime) -> io::Result<Vec<String>> {
    let mut words = Vec::new(rt.alloc());
    for word in env::args(rt)?.skip(1) {
        words.push(word)?;
    }
    Ok(words)
}

/// The file names that the words of a call of the tool give.
fn names_of(words: &[String]) -> FileNames<'_> {
    let names = FileNames {
        map: "map",
        hex: "hex",
        script: "script",
        listing: "listing",
    };
    match words {
        [command, hex, script, ..] if command.as_str() == "run" => FileNames {
            hex: hex.as_str(),
            script: script.as_str(),
            ..names
        },
        [command, map, ..] if matches!(command.as_str(), "build" | "bound") => FileNames {
            map: map.as_str(),
            ..names
        },
        [command, _, hex] if command.as_str() == "list" => FileNames {
            hex: hex.as_str(),
            ..names
        },
        [command, _, listing, _] if command.as_str() == "assemble" => FileNames {
            listing: listing.as_str(),
            ..names
        },
        [command, map, script, ..] if matches!(command.as_str(), "exec" | "watch") => FileNames {
            map: map.as_str(),
            script: script.as_str(),
            ..names
        },
        _ => names,
    }
}

/// The names of the sources that the words of a call of the tool give.
fn sources_of(words: &[String]) -> &[String] {
    match words {
        [command, _, sources @ ..] if command.as_str() == "bound" => sources,
        [command, _, _, sources @ ..] if command.as_str() == "build" => sources,
        [command, _, _, _, sources @ ..] if command.as_str() == "exec" => sources,
        [command, _, _, _, _, _, _, _, sources @ ..] if command.as_str() == "watch" => sources,
        _ => &[],
    }
}

/// Explains each line of standard input, until its end or a failed write, by the words of the tool's call. Whether memory
/// sufficed for each.
fn tell_lines(rt: &HostRuntime, words: &[String]) -> io::Result<bool> {
    let alloc = rt.alloc();
    let names = names_of(words);
    let mut store = RealStore::new(rt);
    let mut out = RealSink::new(rt.stdout());
    let mut input = rt.reader();
    let mut line = Vec::new(alloc);
    let mut sufficed = true;
    for _ in 0..u64::MAX {
        line.clear();
        if input.read_until(b'\n', &mut line)? == 0 {
            break;
        }
        let Telling { untold, written } = tell_line(
            alloc,
            &mut store,
            &mut out,
            sources_of(words),
            &names,
            line.as_slice(),
        );
        if let Some(Untold::NoMemory) = untold {
            sufficed = false;
        }
        if written.is_err() {
            break;
        }
    }
    Ok(sufficed)
}

fn main(rt: HostRuntime) -> ExitCode {
    let words = given_words(&rt).unwrap_or(Vec::new(rt.alloc()));
    match tell_lines(&rt, words.as_slice()) {
        Ok(true) => ExitCode::from(0),
        _ => ExitCode::from(1),
    }
}
