//! The line of each stop.
ghost use Rattle.std.specs.Prelude.{◌≡◌, ◌≤◌, ◌++◌, ℕ, length, codes};
ghost use Rattle.std.specs.Fmt.{decimal};
ghost use Rattle.ec_commands.specs.Tells.{Tells};
ghost use Rattle.ec_commands.specs.Words.{word};
ghost use Rattle.ec_commands_compile.specs.Stops.{map_line, lex_line, parse_line, constraint_line, check_line};
ghost use Rattle.ec_commands_compile.specs.Stops.{region_text, place_line, build_line, line_of, IsNamed};

use crate::stop::CompileStop;
use ec_build::BuildStop;
use ec_check::CheckStop;
use ec_commands::Part::{Number, Text};
use ec_commands::{CommandError, Limit, tell, write_line};
use ec_io::Sink;
use ec_lex::LexStop;
use ec_locate::{PlaceStop, RegionName};
use ec_map::MapStop;
use ec_parse::ParseStop;

/// The bytes of the word at `i`, none past the last.
pub fn name_at(words: &Vec<String>, i: usize) -> &[u8]
    ensures { result.now ≡ word words.now.items i }
{
    match words.get(i) {
        Some(name) => name.as_bytes(),
        None => b"",
    }
}

/// Writes the line of a map that is none.
fn tell_map<E: Sink>(err: &mut E, words: &Vec<String>, stop: MapStop)
    ensures told { Tells (E.written err.old) (E.written err.new) (E.faults err.old) (E.faults err.new)
        (map_line stop) }
    ensures rest { E.rest err.new ≡ E.rest err.old }
    ensures calm { (room : ℕ) → E.calm err.old room → length (map_line stop) ≤ room
        → E.faults err.new ≡ E.faults err.old }
{
    match stop {
        MapStop::NotToml => write_line(err, &[Text(b"map: not TOML\n")]),
        MapStop::MapRule(rule) => write_line(
            err,
            &[Text(b"map: rule "), Number(rule as u32), Text(b"\n")],
        ),
        MapStop::NoMemory => tell(err, words, CommandError::NoMemory),
    }
}

/// Writes the line of a byte of a source.
fn tell_byte<'a, E: Sink>(err: &mut E, name: &'a [u8], at: u32, why: &'a [u8])
    ensures told { Tells (E.written err.old) (E.written err.new) (E.faults err.old) (E.faults err.new)
        (name.now ++ codes " byte " ++ decimal at ++ why.now) }
    ensures rest { E.rest err.new ≡ E.rest err.old }
    ensures calm { (room : ℕ) → E.calm err.old room
        → length (name.now ++ codes " byte " ++ decimal at ++ why.now) ≤ room
        → E.faults err.new ≡ E.faults err.old }
{
    write_line(err, &[Text(name), Text(b" byte "), Number(at), Text(why)]);
}

/// Writes the line of a text without tokens, which has this name.
fn tell_lex<E: Sink>(err: &mut E, words: &Vec<String>, name: &[u8], stop: LexStop)
    ensures told { Tells (E.written err.old) (E.written err.new) (E.faults err.old) (E.faults err.new)
        (lex_line name.now stop) }
    ensures rest { E.rest err.new ≡ E.rest err.old }
    ensures calm { (room : ℕ) → E.calm err.old room → length (lex_line name.now stop) ≤ room
        → E.faults err.new ≡ E.faults err.old }
{
    match stop {
        LexStop::BadByte(at) => tell_byte(err, name, at, b": bad byte\n"),
        LexStop::BadNumber(at) => tell_byte(err, name, at, b": bad number\n"),
        LexStop::Unclosed(at) => tell_byte(err, name, at, b": unclosed\n"),
        LexStop::BadDirective(at) => tell_byte(err, name, at, b": bad directive\n"),
        LexStop::TooManyTokens => tell(err, words, CommandError::TooMany(Limit::Tokens)),
        LexStop::NoMemory => tell(err, words, CommandError::NoMemory),
    }
}

/// Writes the line of a text without a tree, which has this name.
fn tell_parse<E: Sink>(err: &mut E, words: &Vec<String>, name: &[u8], stop: ParseStop)
    ensures told { Tells (E.written err.old) (E.written err.new) (E.faults err.old) (E.faults err.new)
        (parse_line name.now stop) }
    ensures rest { E.rest err.new ≡ E.rest err.old }
    ensures calm { (room : ℕ) → E.calm err.old room → length (parse_line name.now stop) ≤ room
        → E.faults err.new ≡ E.faults err.old }
{
    match stop {
        ParseStop::Syntax(token) => write_line(
            err,
            &[
                Text(name),
                Text(b" token "),
                Number(token),
                Text(b": syntax\n"),
            ],
        ),
        ParseStop::TooDeep(_) => tell(err, words, CommandError::TooMany(Limit::Nesting)),
        ParseStop::NoMemory => tell(err, words, CommandError::NoMemory),
    }
}

/// Writes the line of a broken constraint, in a text with this name.
fn tell_constraint<E: Sink>(err: &mut E, name: &[u8], token: u32, rule: u32)
    ensures told { Tells (E.written err.old) (E.written err.new) (E.faults err.old) (E.faults err.new)
        (constraint_line name.now token rule) }
    ensures rest { E.rest err.new ≡ E.rest err.old }
    ensures calm { (room : ℕ) → E.calm err.old room → length (constraint_line name.now token rule) ≤ room
        → E.faults err.new ≡ E.faults err.old }
{
    write_line(
        err,
        &[
            Text(name),
            Text(b" token "),
            Number(token),
            Text(b": constraint "),
            Number(rule),
            Text(b"\n"),
        ],
    );
}

/// Writes the line of units that are no program.
fn tell_check<E: Sink>(err: &mut E, words: &Vec<String>, first: usize, stop: &CheckStop)
    requires { first ≤ 8 }
    ensures told { Tells (E.written err.old) (E.written err.new) (E.faults err.old) (E.faults err.new)
        (check_line words.now.items first stop.now) }
    ensures rest { E.rest err.new ≡ E.rest err.old }
    ensures calm { (room : ℕ) → E.calm err.old room → length (check_line words.now.items first stop.now) ≤ room
        → E.faults err.new ≡ E.faults err.old }
{
    match stop {
        CheckStop::NoMemory => tell(err, words, CommandError::NoMemory),
        CheckStop::TooManyObjects => tell(err, words, CommandError::TooMany(Limit::Objects)),
        CheckStop::TooManyFunctions => tell(err, words, CommandError::TooMany(Limit::Functions)),
        CheckStop::Constraint { unit, token, rule } => {
            let name = name_at(words, first + *unit as usize);
            tell_constraint(err, name, *token, *rule as u32)
        }
        CheckStop::Recursion(name) => write_line(
            err,
            &[Text(b"recursion "), Text(name.as_slice()), Text(b"\n")],
        ),
    }
}

/// The name of a region.
fn region_text(region: RegionName) -> &'static [u8]
    ensures { result.now ≡ region_text region }
{
    match region {
        RegionName::Code => b"code",
        RegionName::Tables => b"tables",
        RegionName::Far => b"far",
        RegionName::Data => b"data",
        RegionName::Stack => b"stack",
    }
}

/// Writes the line of a program without a place.
fn tell_place<E: Sink>(err: &mut E, words: &Vec<String>, stop: &PlaceStop)
    ensures told { Tells (E.written err.old) (E.written err.new) (E.faults err.old) (E.faults err.new)
        (place_line stop.now) }
    ensures rest { E.rest err.new ≡ E.rest err.old }
    ensures calm { (room : ℕ) → E.calm err.old room → length (place_line stop.now) ≤ room
        → E.faults err.new ≡ E.faults err.old }
{
    match stop {
        PlaceStop::TooSmall {
            region,
            needed,
            available,
        } => {
            let name = region_text(*region);
            write_line(
                err,
                &[
                    Text(b"region "),
                    Text(name),
                    Text(b" needs "),
                    Number(*needed),
                    Text(b" has "),
                    Number(*available),
                    Text(b"\n"),
                ],
            )
        }
        PlaceStop::NoSuchObject(name) => write_line(
            err,
            &[Text(b"no object "), Text(name.as_slice()), Text(b"\n")],
        ),
        PlaceStop::Clash(name, other) => write_line(
            err,
            &[
                Text(b"clash "),
                Text(name.as_slice()),
                Text(b" "),
                Text(other.as_slice()),
                Text(b"\n"),
            ],
        ),
        PlaceStop::NoMemory => tell(err, words, CommandError::NoMemory),
    }
}

/// Writes the line of a build without a result, whose sources are named from the word at `first` on.
fn tell_build<E: Sink>(err: &mut E, words: &Vec<String>, first: usize, stop: &BuildStop)
    requires { first ≤ 8 }
    ensures told { Tells (E.written err.old) (E.written err.new) (E.faults err.old) (E.faults err.new)
        (build_line words.now.items first stop.now) }
    ensures rest { E.rest err.new ≡ E.rest err.old }
    ensures calm { (room : ℕ) → E.calm err.old room → length (build_line words.now.items first stop.now) ≤ room
        → E.faults err.new ≡ E.faults err.old }
{
    match stop {
        BuildStop::Map(stop) => tell_map(err, words, *stop),
        BuildStop::Lex { unit, stop } => {
            let name = name_at(words, first + *unit as usize);
            tell_lex(err, words, name, *stop)
        }
        BuildStop::Parse { unit, stop } => {
            let name = name_at(words, first + *unit as usize);
            tell_parse(err, words, name, *stop)
        }
        BuildStop::Check(stop) => tell_check(err, words, first, stop),
        BuildStop::Place(stop) => tell_place(err, words, stop),
        BuildStop::NoMemory => tell(err, words, CommandError::NoMemory),
    }
}

/// Writes the line of a stop, where the sources are named from the word at `first` on.
pub fn tell_stop<E: Sink>(err: &mut E, words: &Vec<String>, first: usize, stop: &CompileStop)
    requires first { first ≤ 8 }
    requires named { IsNamed words.now.items stop.now }
    ensures told { Tells (E.written err.old) (E.written err.new) (E.faults err.old) (E.faults err.new)
        (line_of words.now.items first stop.now) }
    ensures rest { E.rest err.new ≡ E.rest err.old }
    ensures calm { (room : ℕ) → E.calm err.old room → length (line_of words.now.items first stop.now) ≤ room
        → E.faults err.new ≡ E.faults err.old }
{
    match stop {
        CompileStop::Command(stop) => tell(err, words, *stop),
        CompileStop::Build(stop) => tell_build(err, words, first, stop),
    }
}
