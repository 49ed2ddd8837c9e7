//! The bytes of a script as the inputs of a run.
ghost use Rattle.std.specs.Prelude.{◌≡◌, map, IfOk};
ghost use Rattle.std.specs.List.{AllByRecursion};
ghost use Rattle.ec_space.specs.Bytes.{AreBytes};
ghost use Rattle.ec_core.specs.ValueTypes.{GiveBytes};
ghost use Rattle.ec_emu.specs.Script.{entry_of};
ghost use Rattle.ec_interp.specs.Views.{inputs_of};
ghost use Rattle.ec_judge_runs.specs.Inputs.{first_hooked, given_by_line, given_by_input, inputs_by};

use ec_emu::ScriptLine;
use ec_interp::PortInput;
use ec_space::{NoMemory, Seq};
use std::alloc::Global;

/// The port of the first line that is hooked.
pub fn first_hooked(lines: &[ScriptLine]) -> Option<u8>
    ensures { result ≡ first_hooked (map entry_of lines.now) }
{
    for line in lines {
        if line.hook {
            return Some(line.port);
        }
    }
    None
}

/// The items of a list of bytes are bytes; the function does nothing.
fn hold_bytes(bytes: &[u8])
    ensures { AreBytes bytes.now }
{
    let _many = bytes.len();
}

fn copied(alloc: Global, bytes: &[u8]) -> Result<Seq<u8>, NoMemory>
    ensures same { IfOk result (λ seq. seq.items ≡ bytes.now) }
    ensures bytes { IfOk result (λ seq. AreBytes seq.items) }
{
    let mut copy = Seq::new(alloc);
    copy.extend_from_slice(bytes)?;
    hold_bytes(bytes);
    Ok(copy)
}

/// The port and the bytes of each line.
fn given_by(alloc: Global, lines: &[ScriptLine]) -> Result<Seq<PortInput>, NoMemory>
    ensures given { IfOk result (λ inputs. map given_by_input inputs.items ≡ map given_by_line lines.now) }
    ensures bytes { IfOk result (λ inputs. AllByRecursion (λ input. AreBytes input.bytes.items) inputs.items) }
{
    let mut inputs = Seq::new(alloc);
    for line in lines {
        let bytes = copied(alloc, line.bytes.as_slice())?;
        inputs.push(PortInput {
            port: line.port,
            bytes,
        })?;
    }
    Ok(inputs)
}

/// What the ports give by the lines of a script, of which hooks count for nothing.
pub fn port_inputs(alloc: Global, lines: &[ScriptLine]) -> Result<Seq<PortInput>, NoMemory>
    ensures given { IfOk result (λ inputs. inputs_of inputs.items ≡ inputs_by (map entry_of lines.now)) }
    ensures bytes { IfOk result (λ inputs. GiveBytes (inputs_of inputs.items)) }
{
    given_by(alloc, lines)
}
