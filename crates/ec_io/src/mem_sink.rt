//! A sink in memory.
ghost use Rattle.std.specs.Prelude.{◌≡◌, ◌<◌, ◌≤◌, ◌-◌, ◌==◌, ◌&&◌, ◌||◌, ℕ, [], Some, IfOk, MatchResult, is_err, min};
ghost use Rattle.std.specs.Prelude.{length, nat_lt};
ghost use Rattle.std.specs.Io.KnownBytes.{WriteAppends};
ghost use Rattle.ec_io.specs.Causes.{HasCause, Went, greatest};
ghost use Rattle.ec_io.specs.Calls.{IsTaken};
ghost use Rattle.ec_io.specs.Rest.{no_rest};
ghost use Rattle.ec_io.specs.Memory.{IsCalmSink, is_due, next_call};

use crate::schedule::{Schedule, fault};
use crate::sink::Sink;
use crate::store::Failed;
use ec_space::{NoMemory, Seq};
use std::alloc::Global;
use std::marker::Model;

/// Keeps what is written, up to some room, and fails at the calls of a list and where no room is left.
#[derive(Drop)]
pub struct MemSink {
    text: Seq<u8>,
    room: u32,
    faults: u64,
    schedule: Schedule,
}

impl Model for MemSink {
    ghost use Rattle.std.specs.Prelude.{◌≤◌};
    ghost use Rattle.ec_io.specs.Memory.{Kept, kept_code};

    ghost Value = { Kept };

    ghost coded = { kept_code };

    ghost view = { λ s. record {
      text = s.text.items;
      room = s.room;
      fail = s.schedule.fail.items;
      calls = s.schedule.calls;
      faults = s.faults;
    } };

    ghost invariant = { λ s. s.room ≤ s.text.spare };
}

impl MemSink {
    /// An empty sink that takes `room` bytes in all. Its calls are numbered from 1, and those of the list `fail` fail.
    /// It takes all its memory here.
    pub fn new(alloc: Global, room: u32, fail: Seq<u64>) -> Result<MemSink, NoMemory>
        ensures { IfOk result (λ s. s ≡ record { text = []; room = room; fail = fail.items; calls = 0; faults = 0 }) }
    {
        let mut text = Seq::new(alloc);
        text.reserve(room as usize)?;
        Ok(MemSink {
            text,
            room,
            faults: 0,
            schedule: Schedule::new(fail),
        })
    }

    /// What was written.
    pub fn text(&self) -> &Seq<u8>
        ensures { result.now.items ≡ self.now.text }
    {
        &self.text
    }
}

impl Sink for MemSink {
    ghost written = { λ s. Some s.text };

    ghost faults = { λ s. s.faults };

    ghost calm = { IsCalmSink };

    ghost below = { λ s room calm. calm.count };

    /// Fails exactly where its number stands in the list, or the bytes are some and no room is left. Else it takes as
    /// many of the bytes as there is room for.
    fn write(&mut self, bytes: &[u8]) -> Result<usize, Failed>
        ensures fails { is_err result ≡
            (is_due self.old.fail self.old.calls || (self.old.room == 0 && nat_lt 0 (length bytes.now))) }
        ensures most { IfOk result (λ n. n ≡ min (length bytes.now) self.old.room) }
        ensures room { MatchResult result (λ n. self.new.room ≡ self.old.room - n)
            (λ _. self.new.room ≡ self.old.room) }
        ensures calls { self.new.calls ≡ next_call self.old.calls }
        ensures fail { self.new.fail ≡ self.old.fail }
        ensures taken { IfOk result (λ n. IsTaken n bytes.now) }
        ensures written { WriteAppends (Some self.old.text) (Some self.new.text) result bytes.now }
        ensures cause { HasCause self.old.faults self.new.faults result }
        ensures calm { (room : ℕ) → IsCalmSink self.old room → length bytes.now ≤ room
            → Went self.old.faults self.new.faults result × IfOk result (λ n. IsCalmSink self.new (room - n)) }
    {
        if self.schedule.next() {
            return Err(fault(&mut self.faults));
        }
        if self.room == 0 && !bytes.is_empty() {
            return Err(fault(&mut self.faults));
        }
        let n = bytes.len().min(self.room as usize);
        match self.text.extend_from_slice(&bytes[..n]) {
            Ok(()) => {
                self.room -= n as u32;
                Ok(n)
            }
            Err(NoMemory) => unreachable!(),
        }
    }
}
