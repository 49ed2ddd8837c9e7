//! The text that points at an offset.
ghost use Rattle.std.specs.Prelude.{◌≡◌, ◌≤◌, ◌<◌, ◌^◌, IfOk, map, take, length, string_bytes};
ghost use Rattle.ec_where.specs.Pointed.{blank_for, heading, pointed_text};

use crate::position::{indent, line_at, line_number};
use std::alloc::{AllocError, Global};

/// `NAME:LINE:COLUMN: error: MESSAGE`, as editors read it, and an LF. Lines and columns are counted from 1.
fn heading(
    alloc: Global,
    name: &str,
    line: usize,
    column: usize,
    message: &str,
) -> Result<String, AllocError>
    ensures { IfOk result (λ s. string_bytes s ≡ heading name.now line column message.now) }
{
    format!(in alloc; "{name}:{line}:{column}: error: {message}\n")
}

/// A tab for each tab, and a space for each other byte, of the first bytes of a line.
fn blanks(alloc: Global, line: &[u8], n: usize) -> Result<Vec<u8>, AllocError>
    ensures { IfOk result (λ v. v.items ≡ map blank_for (take n line.now)) }
{
    line.iter()
        .take(n)
        .map(|b| if *b == b'\t' { b'\t' } else { b' ' })
        .collect(alloc)
}

/// A message for an offset of a text, then the offset's line, and a caret below its column.
pub fn pointed(
    alloc: Global,
    name: &str,
    text: &[u8],
    at: usize,
    message: &str,
) -> Result<Vec<u8>, AllocError>
    requires small { length text.now < 2 ^ 32 }
    requires within { at ≤ length text.now }
    ensures { IfOk result (λ v. v.items ≡ pointed_text name.now text.now at message.now) }
{
    let before = indent(text, at);
    let line = line_at(text, at);
    let blanks = blanks(alloc, line, before)?;
    let heading = heading(alloc, name, line_number(text, at), before + 1, message)?;
    let mut out = heading.into_bytes();
    out.extend_from_slice(line)?;
    out.extend_from_slice(b"\n")?;
    out.extend_from_slice(blanks.as_slice())?;
    out.extend_from_slice(b"^\n")?;
    Ok(out)
}
