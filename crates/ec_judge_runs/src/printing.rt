//! What is printed of a run.
ghost use Rattle.std.specs.Prelude.{◌≡◌, ◌++◌, [], ◌∷◌, map, IfOk, OnOk};
ghost use Rattle.ec_commands.specs.Runs.{result_line};
ghost use Rattle.ec_hex.specs.Bytes.{digits_of};
ghost use Rattle.ec_interp.specs.Views.{seen_event};
ghost use Rattle.ec_judge_runs.specs.Judged.{event_line, event_lines, text_of};

use ec_hex::digit_of;
use ec_interp::{Behaviour, Event};
use ec_space::{NoMemory, Seq};
use itoa::Buffer;
use std::alloc::Global;

/// Appends a byte as two digits.
fn push_byte(text: &mut Seq<u8>, byte: u8) -> Result<(), NoMemory>
    ensures { OnOk result (text.new.items ≡ text.old.items ++ digits_of (byte ∷ [])) }
{
    text.extend_from_slice(&[digit_of(byte / 16), digit_of(byte % 16)])
}

/// The data address of a port, which is a byte by the rules of maps, so that this is never refused.
fn address_of(port: u32) -> Result<u8, NoMemory>
    ensures { IfOk result (λ address. address ≡ port) }
{
    if port < 256 {
        Ok(port as u8)
    } else {
        Err(NoMemory)
    }
}

/// Appends the line of an access of a port, which begins with this word.
fn push_access(text: &mut Seq<u8>, word: &[u8], port: u32, byte: u8) -> Result<(), NoMemory>
    ensures { OnOk result (text.new.items
        ≡ text.old.items ++ (word.now ++ digits_of (port ∷ []) ++ 32 ∷ digits_of (byte ∷ []) ++ 10 ∷ [])) }
{
    let address = address_of(port)?;
    text.extend_from_slice(word)?;
    push_byte(text, address)?;
    text.push(b' ')?;
    push_byte(text, byte)?;
    text.push(b'\n')
}

/// Appends the line of an event, if it is an access of a port.
fn push_event(text: &mut Seq<u8>, event: Event) -> Result<(), NoMemory>
    ensures { OnOk result (text.new.items ≡ text.old.items ++ event_line (seen_event event)) }
{
    match event {
        Event::In { port, byte } => push_access(text, b"in ", port, byte),
        Event::Out { port, byte } => push_access(text, b"out ", port, byte),
        Event::Read { .. } | Event::Write { .. } => Ok(()),
    }
}

/// The lines of the accesses of ports among some events.
fn lines_of(alloc: Global, events: &[Event]) -> Result<Seq<u8>, NoMemory>
    ensures { IfOk result (λ text. text.items ≡ event_lines (map seen_event events.now)) }
{
    let mut text = Seq::new(alloc);
    for event in events {
        push_event(&mut text, *event)?;
    }
    Ok(text)
}

/// Appends the line of a result.
fn push_result(text: &mut Seq<u8>, number: i128) -> Result<(), NoMemory>
    ensures { OnOk result (text.new.items ≡ text.old.items ++ result_line number) }
{
    let mut digits = Buffer::new();
    text.extend_from_slice(b"result ")?;
    text.extend_from_slice(digits.format(number).as_bytes())?;
    text.push(b'\n')
}

/// All that is printed of a run: a line for each access of a port, and the result of one that ended.
pub fn text_of(alloc: Global, behaviour: &Behaviour) -> Result<Seq<u8>, NoMemory>
    ensures { IfOk result (λ text. text.items ≡ text_of behaviour.now) }
{
    match behaviour {
        Behaviour::Ended { events, result } => {
            let mut text = lines_of(alloc, events.as_slice())?;
            push_result(&mut text, *result)?;
            Ok(text)
        }
        Behaviour::Running { events } | Behaviour::MeetsUndefined { events, .. } => {
            lines_of(alloc, events.as_slice())
        }
    }
}
