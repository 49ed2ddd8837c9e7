//! Why a build or an exec stops.
ghost use Rattle.std.specs.Prelude.{◌≡◌};
ghost use Rattle.ec_commands_compile.specs.Stops.{map_status, lex_status, parse_status, check_status, place_status};
ghost use Rattle.ec_commands_compile.specs.Stops.{build_status, status_of};

use ec_build::BuildStop;
use ec_check::CheckStop;
use ec_commands::CommandError;
use ec_lex::LexStop;
use ec_locate::PlaceStop;
use ec_map::MapStop;
use ec_parse::ParseStop;

/// Why a build or an exec stops.
#[derive(Debug, Drop)]
pub enum CompileStop {
    /// For its words, in reading or writing a file, or in running.
    Command(CommandError),
    /// For what its map and its sources say.
    Build(BuildStop),
}

fn map_status(stop: MapStop) -> u8
    ensures { result ≡ map_status stop }
{
    match stop {
        MapStop::NotToml | MapStop::MapRule(_) => 8,
        MapStop::NoMemory => 11,
    }
}

fn lex_status(stop: LexStop) -> u8
    ensures { result ≡ lex_status stop }
{
    match stop {
        LexStop::BadByte(_)
        | LexStop::BadNumber(_)
        | LexStop::Unclosed(_)
        | LexStop::BadDirective(_) => 5,
        LexStop::TooManyTokens => 10,
        LexStop::NoMemory => 11,
    }
}

fn parse_status(stop: ParseStop) -> u8
    ensures { result ≡ parse_status stop }
{
    match stop {
        ParseStop::Syntax(_) => 6,
        ParseStop::TooDeep(_) => 10,
        ParseStop::NoMemory => 11,
    }
}

fn check_status(stop: &CheckStop) -> u8
    ensures { result ≡ check_status stop.now }
{
    match stop {
        CheckStop::NoMemory => 11,
        CheckStop::TooManyObjects | CheckStop::TooManyFunctions => 10,
        CheckStop::Constraint { .. } | CheckStop::Recursion(_) => 7,
    }
}

fn place_status(stop: &PlaceStop) -> u8
    ensures { result ≡ place_status stop.now }
{
    match stop {
        PlaceStop::TooSmall { .. } | PlaceStop::NoSuchObject(_) | PlaceStop::Clash(_, _) => 9,
        PlaceStop::NoMemory => 11,
    }
}

fn build_status(stop: &BuildStop) -> u8
    ensures { result ≡ build_status stop.now }
{
    match stop {
        BuildStop::Map(stop) => map_status(*stop),
        BuildStop::Lex { stop, .. } => lex_status(*stop),
        BuildStop::Parse { stop, .. } => parse_status(*stop),
        BuildStop::Check(stop) => check_status(stop),
        BuildStop::Place(stop) => place_status(stop),
        BuildStop::NoMemory => 11,
    }
}

/// The status with which the program ends.
pub fn status(stop: &CompileStop) -> u8
    ensures { result ≡ status_of stop.now }
{
    match stop {
        CompileStop::Command(stop) => ec_commands::status(*stop),
        CompileStop::Build(stop) => build_status(stop),
    }
}
