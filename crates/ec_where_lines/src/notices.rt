//! What is said of a line that names no place of a source.
ghost use Rattle.std.specs.Prelude.{◌≡◌, Some, IfOk, map, option_map, string_bytes};
ghost use Rattle.ec_where_lines.specs.Notices.{clash_of, head_of, headed_text, limit_of, machine_of, notice_of};
ghost use Rattle.ec_where_lines.specs.Notices.{broken_of, plain_of, record_of, region_of, region_text, rule_of, said, said_at, said_of};
ghost use Rattle.ec_where_lines.specs.Notices.{hooked_of, limit_text, machine_text, texts_of};

use crate::parts::{around, behind, look_up, number, row};
use crate::rules::{
    COUNTED, HEADS, HEX_LINES, LISTING_RULES, MACHINE, MAP_LINES, MAP_RULES, RECORDS, SCRIPT_RULES,
    TOOL_LINES,
};
use std::alloc::{AllocError, Global};

/// How a line begins that goes on with names or numbers.
#[derive(Clone, Copy)]
pub enum Kind {
    CannotRead,
    Recursion,
    MapRule,
    Region,
    NoObject,
    NoNumber,
    Clash,
    Limit,
    HexLine,
    ScriptLine,
    ScriptPort,
    ListingLine,
    Fault,
}

/// The names of the files that the tool was given, for lines that do not name them.
#[derive(Clone, Copy)]
pub struct FileNames<'a> {
    pub map: &'a str,
    pub hex: &'a str,
    pub script: &'a str,
    pub listing: &'a str,
}

/// A message about a file, or of the tool.
fn said(alloc: Global, place: &str, message: &str) -> Result<Option<String>, AllocError>
    ensures { IfOk result (λ o. option_map string_bytes o ≡ Some (said place.now message.now)) }
{
    Ok(Some(format!(in alloc; "{place}: error: {message}\n")?))
}

/// A message about a file, or of the tool, that names a part of the program.
fn said_of(
    alloc: Global,
    place: &str,
    before: &str,
    name: &str,
    after: &str,
) -> Result<Option<String>, AllocError>
    ensures { IfOk result (λ o. option_map string_bytes o ≡
        Some (said_of place.now before.now name.now after.now)) }
{
    Ok(Some(format!(in alloc; "{place}: error: {before} `{name}`{after}\n")?))
}

/// A message about a line of a file.
fn said_at(
    alloc: Global,
    file: &str,
    line: u32,
    message: &str,
) -> Result<Option<String>, AllocError>
    ensures { IfOk result (λ o. option_map string_bytes o ≡ Some (said_at file.now line message.now)) }
{
    Ok(Some(format!(in alloc; "{file}:{line}:1: error: {message}\n")?))
}

/// `clash NAME OTHER`, behind the first word.
fn clash_notice(alloc: Global, map: &str, rest: &str) -> Result<Option<String>, AllocError>
    ensures { IfOk result (λ o. option_map string_bytes o ≡ clash_of map.now rest.now) }
{
    let Some((name, other)) = around(rest, " ") else {
        return Ok(None);
    };
    Ok(Some(format!(in alloc;
        "{map}: error: the place of `{name}` overlaps or leaves `{other}`\n"
    )?))
}

/// The region, what is needed of it and what it has: `R needs N has M`.
fn region_parts(rest: &str) -> Option<(&str, u32, u32)>
    ensures { option_map (λ x. (x.0.now, x.1, x.2)) result ≡ region_of rest.now }
{
    let (region, numbers) = around(rest, " needs ")?;
    let (needs, has) = around(numbers, " has ")?;
    Some((region, number(needs)?, number(has)?))
}

/// `region R needs N has M`, behind the first word.
fn region_notice(alloc: Global, map: &str, rest: &str) -> Result<Option<String>, AllocError>
    ensures { IfOk result (λ o. option_map string_bytes o ≡ option_map (region_text map.now) (region_of rest.now)) }
{
    let Some((region, needs, has)) = region_parts(rest) else {
        return Ok(None);
    };
    Ok(Some(format!(in alloc;
        "{map}: error: the region `{region}` has {has} bytes, and the program needs {needs}\n"
    )?))
}

/// A line and what is wrong there: `N: FAULT`.
fn record_parts(rest: &str) -> Option<(u32, &'static str)>
    ensures { option_map (λ x. (x.0, x.1.now)) result ≡ record_of rest.now }
{
    let (line, fault) = around(rest, ": ")?;
    Some((number(line)?, look_up(fault.as_bytes(), &RECORDS)?))
}

/// A line and the rule of a table that it breaks: `N: rule K`.
fn rule_parts(rest: &str, rules: &'static [&'static str]) -> Option<(u32, &'static str)>
    ensures { option_map (λ x. (x.0, x.1.now)) result ≡ broken_of (map (λ x. x.now) rules.now) rest.now }
{
    let (line, rule) = around(rest, ": rule ")?;
    Some((number(line)?, row(rules, number(rule)?)?))
}

/// What a limit counts, and the limit: `L M`.
fn limit_parts(rest: &str) -> Option<(&'static str, u32)>
    ensures { option_map (λ x. (x.0.now, x.1)) result ≡ limit_of rest.now }
{
    let (limit, most) = around(rest, " ")?;
    Some((row(&COUNTED, number(limit)?)?, number(most)?))
}

/// The place of an instruction, and why the machine stopped there: `KIND at PPPP`.
fn machine_parts(rest: &str) -> Option<(&str, &'static str)>
    ensures { option_map (λ x. (x.0.now, x.1.now)) result ≡ machine_of rest.now }
{
    let (kind, place) = around(rest, " at ")?;
    Some((place, look_up(kind.as_bytes(), &MACHINE)?))
}

/// A line of a file, where there is one, and what is wrong there.
fn line_notice(
    alloc: Global,
    file: &str,
    parts: Option<(u32, &'static str)>,
) -> Result<Option<String>, AllocError>
    ensures { IfOk result (λ o. option_map string_bytes o ≡
        option_map (λ x. said_at file.now x.0 x.1.now) parts.entry) }
{
    match parts {
        Some((line, message)) => said_at(alloc, file, line, message),
        None => Ok(None),
    }
}

/// `script port PP: hooked`, behind `port`.
fn hooked_notice(alloc: Global, script: &str, rest: &str) -> Result<Option<String>, AllocError>
    ensures { IfOk result (λ o. option_map string_bytes o ≡ hooked_of script.now rest.now) }
{
    match around(rest, ": ") {
        Some((port, "hooked")) => Ok(Some(format!(in alloc;
            "{script}: error: the port at 0x{port} is hooked: a check takes the bytes that a port gives from a list\n"
        )?)),
        _ => Ok(None),
    }
}

/// `limit L M`, behind the first word.
fn limit_notice(alloc: Global, rest: &str) -> Result<Option<String>, AllocError>
    ensures { IfOk result (λ o. option_map string_bytes o ≡ option_map limit_text (limit_of rest.now)) }
{
    let Some((what, most)) = limit_parts(rest) else {
        return Ok(None);
    };
    Ok(Some(format!(in alloc; "napledge: error: too many {what}: the limit is {most}\n")?))
}

/// `fault KIND at PPPP`, behind the first word.
fn machine_notice(alloc: Global, rest: &str) -> Result<Option<String>, AllocError>
    ensures { IfOk result (λ o. option_map string_bytes o ≡ option_map machine_text (machine_of rest.now)) }
{
    let Some((place, message)) = machine_parts(rest) else {
        return Ok(None);
    };
    Ok(Some(format!(in alloc; "napledge: error: the instruction at word 0x{place} {message}\n")?))
}

/// `map: rule K`, behind `rule`.
fn rule_notice(alloc: Global, map: &str, rest: &str) -> Result<Option<String>, AllocError>
    ensures { IfOk result (λ o. option_map string_bytes o ≡ option_map (said map.now) (rule_of rest.now)) }
{
    let Some(rule) = number(rest) else {
        return Ok(None);
    };
    match row(&MAP_RULES, rule) {
        Some(message) => said(alloc, map, message),
        None => Ok(None),
    }
}

/// What is said of a line of this kind that goes on so.
fn headed_notice(
    alloc: Global,
    names: &FileNames<'_>,
    kind: Kind,
    rest: &str,
) -> Result<Option<String>, AllocError>
    ensures { IfOk result (λ o. option_map string_bytes o ≡ headed_text (texts_of names.now) kind rest.now) }
{
    let FileNames {
        map,
        hex,
        script,
        listing,
    } = *names;
    match kind {
        Kind::CannotRead => said(alloc, rest, "this file could not be opened or read"),
        Kind::Recursion => {
            let after = " reaches itself by calls, and there is no recursion";
            said_of(alloc, "napledge", "the function", rest, after)
        }
        Kind::MapRule => rule_notice(alloc, map, rest),
        Kind::Region => region_notice(alloc, map, rest),
        Kind::NoObject => {
            let after = ", which is no external object of the program";
            said_of(alloc, map, "`place` names", rest, after)
        }
        Kind::NoNumber => {
            let after =
                " to watch: NAME is an external object in RAM, and LEAF one of its integers and fixed-point numbers, \
                counted from 0 with its pointers";
            said_of(alloc, "napledge", "there is no number", rest, after)
        }
        Kind::Clash => clash_notice(alloc, map, rest),
        Kind::Limit => limit_notice(alloc, rest),
        Kind::HexLine => line_notice(alloc, hex, record_parts(rest)),
        Kind::ScriptLine => line_notice(alloc, script, rule_parts(rest, &SCRIPT_RULES)),
        Kind::ScriptPort => hooked_notice(alloc, script, rest),
        Kind::ListingLine => line_notice(alloc, listing, rule_parts(rest, &LISTING_RULES)),
        Kind::Fault => machine_notice(alloc, rest),
    }
}

/// How a line begins, by the first head of a table that it begins with, and what follows.
fn head<'a>(line: &'a str, heads: &[(&str, Kind)]) -> Option<(Kind, &'a str)>
    ensures { option_map (λ x. (x.0, x.1.now)) result ≡ head_of line.now (map (λ x. (x.0.now, x.1)) heads.now) }
{
    for (head, kind) in heads {
        if let Some(rest) = behind(line, head) {
            return Some((*kind, rest));
        }
    }
    None
}

/// What is said of a line that is always the same, about this subject.
fn plain_notice(
    alloc: Global,
    subject: &str,
    table: &'static [(&'static str, &'static str)],
    line: &str,
) -> Result<Option<String>, AllocError>
    ensures { IfOk result (λ o. option_map string_bytes o
        ≡ plain_of subject.now (map (λ x. (x.0.now, x.1.now)) table.now) line.now) }
{
    match look_up(line.as_bytes(), table) {
        Some(message) => said(alloc, subject, message),
        None => Ok(None),
    }
}

/// What is said of a line, without its LF, that names no place of a source; none where it is no such line.
pub fn notice(
    alloc: Global,
    names: &FileNames<'_>,
    line: &str,
) -> Result<Option<String>, AllocError>
    ensures { IfOk result (λ o. option_map string_bytes o ≡ notice_of (texts_of names.now) line.now) }
{
    if let Some(text) = plain_notice(alloc, "napledge", &TOOL_LINES, line)? {
        return Ok(Some(text));
    }
    if let Some(text) = plain_notice(alloc, names.map, &MAP_LINES, line)? {
        return Ok(Some(text));
    }
    if let Some(text) = plain_notice(alloc, names.hex, &HEX_LINES, line)? {
        return Ok(Some(text));
    }
    match head(line, &HEADS) {
        Some((kind, rest)) => headed_notice(alloc, names, kind, rest),
        None => Ok(None),
    }
}
