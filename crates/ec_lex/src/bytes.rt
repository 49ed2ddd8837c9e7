//! The classes of bytes (ISO/IEC 9899:1999, 5.2.1 and 6.4).
ghost use Rattle.std.specs.Prelude.{◌≡◌, ◌≤◌, length};
ghost use Rattle.std.specs.List.{prefix_len};
ghost use Rattle.ec_lex.specs.Bytes.{is_space, is_in_line, is_letter, is_digit, is_word, is_run, is_octal};
ghost use Rattle.ec_lex.specs.Bytes.{is_hexadecimal};

/// Space, tab, LF, VT, FF and CR.
pub fn is_space(b: u8) -> bool
    ensures { result ≡ is_space b }
{
    b == b' ' || (9 <= b && b <= 13)
}

/// A letter or `_`.
pub fn is_letter(b: u8) -> bool
    ensures { result ≡ is_letter b }
{
    (b'a' <= b && b <= b'z') || (b'A' <= b && b <= b'Z') || b == b'_'
}

pub fn is_digit(b: u8) -> bool
    ensures { result ≡ is_digit b }
{
    b'0' <= b && b <= b'9'
}

/// What may follow the first letter of an identifier.
pub fn is_word(b: u8) -> bool
    ensures { result ≡ is_word b }
{
    is_letter(b) || is_digit(b)
}

/// What may follow the first digit of a number.
pub fn is_run(b: u8) -> bool
    ensures { result ≡ is_run b }
{
    is_word(b) || b == b'.'
}

pub fn is_octal(b: u8) -> bool
    ensures { result ≡ is_octal b }
{
    b'0' <= b && b <= b'7'
}

pub fn is_hexadecimal(b: u8) -> bool
    ensures { result ≡ is_hexadecimal b }
{
    is_digit(b) || (b'a' <= b && b <= b'f') || (b'A' <= b && b <= b'F')
}

/// How many letters and digits stand first.
pub fn word_len(bytes: &[u8]) -> usize
    ensures value { result ≡ prefix_len is_word bytes.now }
    ensures bound { result ≤ length bytes.now }
{
    bytes.iter().take_while(|b| is_word(**b)).count()
}

/// How many bytes of a number stand first.
pub fn run_len(bytes: &[u8]) -> usize
    ensures value { result ≡ prefix_len is_run bytes.now }
    ensures bound { result ≤ length bytes.now }
{
    bytes.iter().take_while(|b| is_run(**b)).count()
}

/// How many bytes stand before the line's end.
pub fn line_len(bytes: &[u8]) -> usize
    ensures value { result ≡ prefix_len is_in_line bytes.now }
    ensures bound { result ≤ length bytes.now }
{
    bytes.iter().take_while(|b| !(**b == b'\n')).count()
}

pub fn digits_len(bytes: &[u8]) -> usize
    ensures value { result ≡ prefix_len is_digit bytes.now }
    ensures bound { result ≤ length bytes.now }
{
    bytes.iter().take_while(|b| is_digit(**b)).count()
}

pub fn octal_len(bytes: &[u8]) -> usize
    ensures value { result ≡ prefix_len is_octal bytes.now }
    ensures bound { result ≤ length bytes.now }
{
    bytes.iter().take_while(|b| is_octal(**b)).count()
}

pub fn hexadecimal_len(bytes: &[u8]) -> usize
    ensures value { result ≡ prefix_len is_hexadecimal bytes.now }
    ensures bound { result ≤ length bytes.now }
{
    bytes.iter().take_while(|b| is_hexadecimal(**b)).count()
}
