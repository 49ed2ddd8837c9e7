//! The files and streams of the system. What they hold is told by no contract.
ghost use Rattle.std.specs.Prelude.{◌≡◌, ◌≤◌, None, Some, is_some, option_map};
ghost use Rattle.ec_io.specs.Causes.{Counted};
ghost use Rattle.ec_io.specs.KnownNames.{name_of};

use crate::known_name::{KnownName, known};
use crate::schedule::fault;
use crate::sink::Sink;
use crate::store::{Failed, Store};
use std::fs;
use std::io::{Read, Write};
use std::rt::Files;

// Counts received bytes.
fn count(received: &mut u64, n: usize)
    ensures { Counted received.old received.new n }
{
    *received = received.saturating_add(n as u64);
}

/// The file that is read, and its name.
#[derive(Drop)]
struct Input<F> {
    file: F,
    name: KnownName,
}

/// The files of a runtime. It tells nothing of their contents and is never calm.
pub struct RealStore<'r, R: Files> {
    rt: &'r R,
    input: Option<Input<R::File>>,
    output: Option<R::File>,
    missed: Option<KnownName>,
    read_faults: u64,
    write_faults: u64,
    received: u64,
}

impl<R: Files> Drop for RealStore<'_, R> {
    fn drop(self) {
        let RealStore {
            rt: _,
            input: _,
            output: _,
            missed: _,
            read_faults: _,
            write_faults: _,
            received: _,
        } = self;
    }
}

impl<'r, R: Files> RealStore<'r, R> {
    /// The files of `rt`, with none opened.
    pub fn new(rt: &'r R) -> RealStore<'r, R> {
        RealStore {
            rt,
            input: None,
            output: None,
            missed: None,
            read_faults: 0,
            write_faults: 0,
            received: 0,
        }
    }
}

impl<R: Files> Store for RealStore<'_, R> {
    ghost disk = { λ _. None };

    ghost reading = { λ s. option_map (λ i. name_of i.name) s.input };

    ghost writing = { λ s. is_some s.output };

    ghost read_faults = { λ s. s.read_faults };

    ghost write_faults = { λ s. s.write_faults };

    ghost received = { λ s. s.received };

    ghost missed = { λ s. option_map name_of s.missed };

    ghost calm = { λ _ _ _ _. ⊥ };

    ghost below = { λ _ _ _ _ h. absurd h };

    ghost use Rattle.ec_io.specs.Untold.{untold};

    ghost flagged = { λ s told h. untold h };

    fn open_file(&mut self, name: &str) -> Result<(), Failed> {
        match fs::open(self.rt, name) {
            Ok(file) => {
                self.input = Some(Input {
                    file,
                    name: known(name.as_bytes()),
                });
                Ok(())
            }
            Err(_) => {
                self.missed = Some(known(name.as_bytes()));
                Err(fault(&mut self.read_faults))
            }
        }
    }

    fn read(&mut self, buf: &mut [u8]) -> Result<usize, Failed> {
        match &mut self.input {
            Some(input) => match input.file.read(buf) {
                Ok(n) => {
                    count(&mut self.received, n);
                    return Ok(n);
                }
                Err(_) => self.missed = Some(input.name),
            },
            None => self.missed = None,
        }
        Err(fault(&mut self.read_faults))
    }

    fn create(&mut self, name: &str) -> Result<(), Failed> {
        match fs::create(self.rt, name) {
            Ok(file) => {
                self.output = Some(file);
                Ok(())
            }
            Err(_) => Err(fault(&mut self.write_faults)),
        }
    }

    fn write(&mut self, bytes: &[u8]) -> Result<usize, Failed> {
        if let Some(file) = &mut self.output
            && let Ok(n) = file.write(bytes)
            && (n > 0 || bytes.is_empty())
        {
            return Ok(n);
        }
        Err(fault(&mut self.write_faults))
    }
}

/// A writer of std, as standard output. It tells nothing of what it holds and is never calm.
#[derive(Drop)]
pub struct RealSink<W> {
    writer: W,
    faults: u64,
}

impl<W: Write> RealSink<W> {
    /// A sink that writes to `writer`.
    pub fn new(writer: W) -> RealSink<W> {
        RealSink { writer, faults: 0 }
    }
}

impl<W: Write> Sink for RealSink<W> {
    ghost written = { λ _. None };

    ghost faults = { λ s. s.faults };

    ghost calm = { λ _ _. ⊥ };

    ghost below = { λ _ _ h. absurd h };

    fn write(&mut self, bytes: &[u8]) -> Result<usize, Failed> {
        if let Ok(n) = self.writer.write(bytes)
            && (n > 0 || bytes.is_empty())
        {
            return Ok(n);
        }
        Err(fault(&mut self.faults))
    }
}
