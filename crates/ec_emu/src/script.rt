//! Ports that answer from a script.
ghost use Rattle.std.specs.Prelude.{◌≡◌, ◌==◌, EachIndex, Some, option_map, position, slice_index};
ghost use Rattle.ec_emu.specs.Scripted.{ArePlaces, IsScripted, line_of, place_of};

use crate::answers::listed_byte;
use crate::ask::{Ask, Ports};
use ec_space::Seq;

/// What a port answers.
#[derive(Drop)]
pub struct ScriptLine {
    /// The data address of the port.
    pub port: u8,
    /// Whether the port is hooked: it is asked elsewhere, and its list counts for nothing.
    pub hook: bool,
    /// The bytes that it answers in turn, and then 0.
    pub bytes: Seq<u8>,
}

/// What ports answer. A port without a line answers 0.
///
/// It keeps where the line of each port stands, so that a read of a port does not search for it.
#[derive(Drop)]
pub struct Script {
    pub lines: Seq<ScriptLine>,
    /// How many lines stand before the line of each port, the first if it has several; all of them, where it has none.
    places: [usize; 256],
    ghost placed: { ArePlaces lines.items places },
}

impl Script {
    /// The script of these lines.
    pub fn new(lines: Seq<ScriptLine>) -> Script
        ensures { result.lines ≡ lines }
    {
        let places = places_of(lines.as_slice());
        Script { lines, places }
    }

    /// The line of a port, the first if it has several.
    fn line_of(&self, port: u8) -> Option<&ScriptLine>
        ensures { option_map (λ line. line.now) result ≡ line_of port self.now.lines.items }
    {
        self.lines.get(self.places[usize::from(port)])
    }
}

/// How many lines stand before the line of each port; all of them, where it has none.
fn places_of(lines: &[ScriptLine]) -> [usize; 256]
    ensures { EachIndex result (λ port. slice_index result port ≡ place_of port lines.now) }
{
    let mut places = [0; 256];
    for (port, place) in places.iter_mut().enumerate() {
        *place = place_of(lines, port);
    }
    places
}

/// The same of one port.
fn place_of(lines: &[ScriptLine], port: usize) -> usize
    ensures { result ≡ place_of port lines.now }
{
    first_place(lines, port).unwrap_or(lines.len())
}

/// Where the first line of a port stands.
fn first_place(lines: &[ScriptLine], port: usize) -> Option<usize>
    ensures { result ≡ position (λ line. line.port == port) lines.now }
{
    lines.iter().position(|line| usize::from(line.port) == port)
}

/// Ports that answer from a script. Asks on hooked ports are passed on.
#[derive(Drop)]
pub struct Scripted<'a, H: Ports> {
    pub script: &'a Script,
    pub hooks: &'a mut H,
}

impl<H: Ports> Ports for Scripted<'_, H> {
    ghost can_ask = { λ s. H.can_ask s.hooks.now };

    ghost gives = { λ s. IsScripted (H.gives s.hooks.now) s.script.now.lines.items };

    ghost passed_on = { λ s. H.gives s.hooks.now };

    ghost held = { λ s. Some s.hooks.ghost_name };

    fn ask(&mut self, ask: Ask) -> u8 {
        match self.script.line_of(ask.port) {
            Some(line) => match listed_byte(line.hook, line.bytes.as_slice(), ask.index) {
                Some(byte) => byte,
                None => self.hooks.ask(ask),
            },
            None => 0,
        }
    }
}
