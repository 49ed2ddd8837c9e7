//! Small parts of what files and sinks do: counts of calls and faults, and how far reading and writing have come.
ghost use Rattle.std.specs.Prelude.{◌≡◌, ◌<◌, ◌≤◌, ◌+◌, MatchBool, nat_lt};
ghost use Rattle.ec_io.specs.Counts.{next_call as call_after};

/// The number after that of a call, or of a fault, counted from 1. It stays at its greatest value once it is reached.
pub fn next_call(calls: u64) -> u64
    ensures { result ≡ call_after calls }
{
    calls.saturating_add(1)
}

/// Whether a file is too long, of which `came` bytes were read behind the `held` ones before them, `most` at most: it
/// has `most` bytes or more, and may have fewer alone.
pub fn is_too_long(held: usize, came: usize, most: usize) -> bool
    requires { held + came ≤ most }
    ensures { MatchBool result (held + came ≡ most) (held + came < most) }
{
    held + came == most
}

/// Whether some of so many bytes are left to be written, where `done` of them went out.
pub fn is_left(done: usize, bytes: usize) -> bool
    ensures { result ≡ nat_lt done bytes }
{
    done < bytes
}
