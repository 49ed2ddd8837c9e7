//! The lines that a run prints.
ghost use Rattle.std.specs.Prelude.{◌≡◌, ◌≤◌, ◌-◌, ℕ, [], ◌∷◌, length};
ghost use Rattle.ec_io.specs.Causes.{HasCause, Went};
ghost use Rattle.ec_io.specs.Written.{WritesAll};
ghost use Rattle.ec_hex.specs.Bytes.{digits_of};
ghost use Rattle.ec_emu.specs.Lines.{in_line, out_line, port_line};

use ec_avr::Access;
use ec_hex::digit_of;
use ec_io::{Sink, Written, write_all};

/// A byte as two digits.
fn digits(byte: u8) -> [u8; 2]
    ensures { result ≡ digits_of (byte ∷ []) }
{
    [digit_of(byte / 16), digit_of(byte % 16)]
}

fn in_line(port: u8, byte: u8) -> [u8; 9]
    ensures { result ≡ in_line port byte }
{
    let [high, low] = digits(port);
    let [b_high, b_low] = digits(byte);
    [b'i', b'n', b' ', high, low, b' ', b_high, b_low, b'\n']
}

fn out_line(port: u8, byte: u8) -> [u8; 10]
    ensures { result ≡ out_line port byte }
{
    let [high, low] = digits(port);
    let [b_high, b_low] = digits(byte);
    [
        b'o', b'u', b't', b' ', high, low, b' ', b_high, b_low, b'\n',
    ]
}

/// Writes the line of an access, if it is one of a port.
pub fn print<O: Sink>(sink: &mut O, access: Access) -> Result<(), Written>
    ensures written { WritesAll (O.written sink.old) (O.written sink.new) result (port_line access) }
    ensures rest { O.rest sink.new ≡ O.rest sink.old }
    ensures cause { HasCause (O.faults sink.old) (O.faults sink.new) result }
    ensures calm { (room : ℕ) → O.calm sink.old room → length (port_line access) ≤ room
        → Went (O.faults sink.old) (O.faults sink.new) result × O.calm sink.new (room - length (port_line access)) }
{
    match access {
        Access::In { port, byte } => write_all(sink, &in_line(port, byte)),
        Access::Out { port, byte } => write_all(sink, &out_line(port, byte)),
        _ => Ok(()),
    }
}
