//! Why a command stops, its status, and its line where that names nothing.
ghost use Rattle.std.specs.Prelude.{◌≡◌};
ghost use Rattle.ec_commands.specs.Stops.{number_of, most_of, status_of, text_of};

use ec_avr::FaultKind;

/// A greatest number of something that is taken.
#[derive(Clone, Copy, Debug, PartialEq, Eq)]
pub enum Limit {
    /// The sources of a build.
    Sources,
    /// The bytes of a source.
    SourceBytes,
    /// The bytes of a map.
    MapBytes,
    /// The bytes of a HEX file.
    HexBytes,
    /// The bytes of a script.
    ScriptBytes,
    /// The tokens of a unit before its end.
    Tokens,
    /// The constructs that are open at once in a unit, and the height of its nodes.
    Nesting,
    /// The objects of all units.
    Objects,
    /// The functions of all units.
    Functions,
    /// The bytes of a listing.
    ListingBytes,
}

impl Limit {
    /// The number by which the limit is told.
    pub fn number(self) -> u32
        ensures { result ≡ number_of self }
    {
        match self {
            Limit::Sources => 1,
            Limit::SourceBytes => 2,
            Limit::MapBytes => 3,
            Limit::HexBytes => 4,
            Limit::ScriptBytes => 5,
            Limit::Tokens => 6,
            Limit::Nesting => 7,
            Limit::Objects => 8,
            Limit::Functions => 9,
            Limit::ListingBytes => 10,
        }
    }

    /// The greatest number that is taken.
    pub fn most(self) -> u32
        ensures { result ≡ most_of self }
    {
        match self {
            Limit::Sources => 16,
            Limit::SourceBytes => 65_536,
            Limit::MapBytes => 16_384,
            Limit::HexBytes => 1_048_576,
            Limit::ScriptBytes => 65_536,
            Limit::Tokens => 65_535,
            Limit::Nesting => 64,
            Limit::Objects => 1_024,
            Limit::Functions => 256,
            Limit::ListingBytes => 4_194_304,
        }
    }
}

/// Why a command stops, besides what is told of the sources and the map of a build. A line is counted from 1.
#[derive(Clone, Copy, Debug, PartialEq, Eq)]
pub enum CommandError {
    /// The words are no command.
    Usage,
    /// The file that the word at this place names was not read.
    CannotRead(usize),
    /// The output was not created or not wholly written.
    CannotWrite,
    /// A limit is passed.
    TooMany(Limit),
    /// Memory ran out.
    NoMemory,
    /// A line of the HEX file is no record.
    BadRecord(u32),
    /// A record of the HEX file has a wrong sum.
    BadSum(u32),
    /// A record of the HEX file has a byte past the flash.
    OutOfFlash(u32),
    /// A record of the HEX file has a byte at an address that has one already.
    Twice(u32),
    /// The HEX file has no end record.
    NoEnd,
    /// A line of the script breaks a rule, by its number.
    ScriptLine(u32, u8),
    /// A line of a listing breaks a rule, by its number.
    AsmLine(u32, u8),
    /// The machine stopped at this program counter, in words.
    Fault(FaultKind, u16),
    /// The machine made all its steps and did not end.
    StepsOut,
    /// The words of a watch name no number that can be watched.
    NoNumber,
}

/// The status with which the program ends.
pub fn status(stop: CommandError) -> u8
    ensures { result ≡ status_of stop }
{
    match stop {
        CommandError::Usage => 2,
        CommandError::CannotRead(_) => 3,
        CommandError::CannotWrite => 4,
        CommandError::TooMany(_) => 10,
        CommandError::NoMemory => 11,
        CommandError::BadRecord(_)
        | CommandError::BadSum(_)
        | CommandError::OutOfFlash(_)
        | CommandError::Twice(_) => 12,
        CommandError::NoEnd | CommandError::ScriptLine(_, _) => 12,
        CommandError::Fault(_, _) => 13,
        CommandError::StepsOut => 14,
        CommandError::NoNumber => 15,
        CommandError::AsmLine(_, _) => 18,
    }
}

/// The line of a stop that is told without a name or a number, and nothing for any other stop.
pub fn text_of(stop: CommandError) -> &'static [u8]
    ensures { result.now ≡ text_of stop }
{
    match stop {
        CommandError::Usage => b"usage\n",
        CommandError::CannotWrite => b"cannot write\n",
        CommandError::NoMemory => b"no memory\n",
        CommandError::NoEnd => b"hex: no end\n",
        CommandError::StepsOut => b"steps out\n",
        _ => b"",
    }
}
