//! Writing all of some bytes.
ghost use Rattle.std.specs.Prelude.{◌≡◌, ◌≤◌, ◌-◌, ℕ, length};
ghost use Rattle.ec_io.specs.Causes.{HasCause, Went};
ghost use Rattle.ec_io.specs.Written.{WritesAll};

use crate::counts::is_left;
use crate::sink::Sink;
use thiserror::Error;

/// A write failed after so many bytes went out.
#[derive(Clone, Copy, Debug, PartialEq, Eq, Error)]
#[error("a write failed after {0} bytes")]
pub struct Written(pub u64);

/// Writes all of the bytes, or a prefix of them where the sink fails. It takes no memory.
pub fn write_all<O: Sink>(sink: &mut O, bytes: &[u8]) -> Result<(), Written>
    ensures written { WritesAll (O.written sink.old) (O.written sink.new) result bytes.now }
    ensures rest { O.rest sink.new ≡ O.rest sink.old }
    ensures cause { HasCause (O.faults sink.old) (O.faults sink.new) result }
    ensures calm { (room : ℕ) → O.calm sink.old room → length bytes.now ≤ room
        → Went (O.faults sink.old) (O.faults sink.new) result × O.calm sink.new (room - length bytes.now) }
{
    let mut done = 0usize;
    'left: while is_left(done, bytes.len()) {
        match sink.write(&bytes[done..]) {
            Ok(n) => done += n,
            Err(_) => return Err(Written(done as u64)),
        }
    }
    Ok(())
}
