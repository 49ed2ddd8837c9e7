//! Parts of a line.
ghost use Rattle.std.specs.Prelude.{◌≡◌, ◌<◌, map, option_map};
ghost use Rattle.ec_where_lines.specs.Parts.{around, around_last, behind, look_up, number_of, row_of};

/// What stands behind a text at the front of a line.
pub fn behind<'a>(line: &'a str, head: &str) -> Option<&'a str>
    ensures { option_map (λ x. x.now) result ≡ behind head.now line.now }
{
    line.strip_prefix(head)
}

/// What stands before the first place of a text in a line, and what behind it.
pub fn around<'a>(line: &'a str, mark: &str) -> Option<(&'a str, &'a str)>
    ensures { option_map (λ x. (x.0.now, x.1.now)) result ≡ around mark.now line.now }
{
    line.split_once(mark)
}

/// What stands before the last place of an ASCII character in a line, and what behind it.
pub fn around_last(line: &str, mark: char) -> Option<(&str, &str)>
    requires { mark < 128 }
    ensures { option_map (λ x. (x.0.now, x.1.now)) result ≡ around_last mark line.now }
{
    line.rsplit_once(mark)
}

/// The number below 2^32 that decimal digits write, without a sign.
pub fn number(digits: &str) -> Option<u32>
    ensures { result ≡ number_of digits.now }
{
    if digits.starts_with('+') {
        return None;
    }
    digits.parse::<u32>().ok()
}

/// The row of a table that has this number, counted from 1.
pub fn row(table: &'static [&'static str], number: u32) -> Option<&'static str>
    ensures { option_map (λ x. x.now) result ≡ row_of (map (λ x. x.now) table.now) number }
{
    table.get(number.checked_sub(1)? as usize).copied()
}

/// What the first row of a table for this text says.
pub fn look_up<'a>(text: &[u8], table: &[(&'a str, &'a str)]) -> Option<&'a str>
    ensures { option_map (λ x. x.now) result ≡ look_up text.now (map (λ x. (x.0.now, x.1.now)) table.now) }
{
    for (known, told) in table {
        if text == known.as_bytes() {
            return Some(*told);
        }
    }
    None
}
