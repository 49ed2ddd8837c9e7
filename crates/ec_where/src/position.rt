//! Lines and columns.
ghost use Rattle.std.specs.Prelude.{◌≡◌, ◌≤◌, ◌<◌, ◌^◌, length};
ghost use Rattle.std.specs.List.{prefix_len};
ghost use Rattle.ec_lex.specs.Bytes.{is_in_line};
ghost use Rattle.ec_where.specs.Position.{line_number, indent, line_at, first_line};

/// The line of an offset, counted from 1. A line ends with LF alone.
pub fn line_number(text: &[u8], at: usize) -> usize
    requires small { length text.now < 2 ^ 32 }
    requires within { at ≤ length text.now }
    ensures { result ≡ line_number text.now at }
{
    text[..at].iter().filter(|b| **b == b'\n').count() + 1
}

/// How many bytes of its line stand before an offset. The column, counted from 1, is one more.
pub fn indent(text: &[u8], at: usize) -> usize
    requires { at ≤ length text.now }
    ensures value { result ≡ indent text.now at }
    ensures bound { result ≤ at }
{
    text[..at].iter().rev().take_while(|b| **b != b'\n').count()
}

/// How many bytes stand before the first LF.
fn line_len(bytes: &[u8]) -> usize
    ensures value { result ≡ prefix_len is_in_line bytes.now }
    ensures bound { result ≤ length bytes.now }
{
    bytes.iter().take_while(|b| **b != b'\n').count()
}

/// The first line of some bytes, without its LF.
pub fn first_line(bytes: &[u8]) -> &[u8]
    ensures { result.now ≡ first_line bytes.now }
{
    &bytes[..line_len(bytes)]
}

/// The line that an offset stands in, without its LF.
pub fn line_at(text: &[u8], at: usize) -> &[u8]
    requires { at ≤ length text.now }
    ensures { result.now ≡ line_at text.now at }
{
    first_line(&text[at - indent(text, at)..])
}
