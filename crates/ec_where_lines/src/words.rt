//! What to write in place of what the language leaves out, by the bytes that stand at a fault.
ghost use Rattle.std.specs.Prelude.{◌≡◌, ◌≤◌, ◌-◌, map, length, slice_get, option_map, unwrap_or};
ghost use Rattle.std.specs.List.{list_all, list_any, prefix_len};
ghost use Rattle.ec_where_lines.specs.Advice.{byte_message, directive_word, has_prefix, is_byte};
ghost use Rattle.ec_where_lines.specs.Advice.{is_blank, is_capital, is_fixed_end, is_digit, is_floating, is_number_byte, is_word_byte};
ghost use Rattle.ec_where_lines.specs.Parts.{look_up};
ghost use Rattle.ec_where_lines.specs.Advice.{kind_of, number_message, number_run, stray_message, undeclared, word_run};

use crate::fault::ByteFault;
use crate::parts::look_up;

/// What a run of letters, digits and dots that is no constant looks like.
#[derive(Clone, Copy)]
pub enum NumberKind {
    /// It begins with `0b`.
    Binary,
    /// It has a dot or an exponent, and no suffix of a fixed-point constant at its end.
    Floating,
    /// It has nothing but digits, the first of which is 0.
    Octal,
    /// It has nothing but digits.
    Decimal,
    Other,
}

/// What is told of each byte that begins no token.
pub static STRAYS: [(&str, &str); 5] = [
    (
        "\"",
        "there are no string literals: write an array of its characters, as `const __flash char t[] = {'h', 'i', 0};`",
    ),
    (
        "'",
        "a character constant is one character or escape between quotes, as `'a'` or `'\\n'` (C99 6.4.4.4)",
    ),
    (
        "\\",
        "lines are not joined by `\\`: write the directive in one line",
    ),
    (
        "@",
        "`@` begins no token: the map says where an object stands, by `place`",
    ),
    ("$", "`$` begins no token and stands in no name"),
];

/// What is told of any other byte that begins no token.
pub static STRAY: &str =
    "this byte begins no token: outside of comments a source is ASCII (C99 6.4)";

/// What is told of each look of what is no constant.
pub static BINARY: &str =
    "there are no binary constants: write it as a hexadecimal number that begins with `0x`";

pub static FLOATING: &str =
    "there is no `float` and no `double`, and a fixed-point constant has a suffix and no exponent: `1.5k` is an \
    `accum`, `0.5r` a `fract`, and `h`, `l` and `u` before the letter are as in the types (Embedded C 4.1.5)";

pub static OCTAL: &str =
    "a number that begins with 0 is octal and has no digit 8 or 9: leave the 0 out (C99 6.4.4.1)";

pub static DECIMAL: &str =
    "no type has a value as large as this, or only an unsigned one: write `u` or `ul` behind it (C99 6.4.4.1)";

pub static NUMBER: &str =
    "this is no constant, or its value is in the range of no type (C99 6.4.4.1, Embedded C 4.1.5)";

/// What is told of each directive that the language leaves out, by its word.
pub static DIRECTIVES: [(&str, &str); 10] = [
    (
        "include",
        "a source includes <stdint.h>, <stdfix.h> and <iohw.h>, and no other file: declare what it needs by `extern` and \
        prototypes, and give all sources in one call; ports come from the map",
    ),
    (
        "define",
        "a macro has no parameters, has a new name, and stands for one number or character constant in its line: write an \
        expression where it is used, or a function",
    ),
    ("if", CONDITIONAL),
    ("ifdef", CONDITIONAL),
    ("ifndef", CONDITIONAL),
    ("elif", CONDITIONAL),
    ("else", CONDITIONAL),
    ("endif", CONDITIONAL),
    (
        "undef",
        "a macro stays defined to the end of its source: there is no #undef",
    ),
    ("error", "there is no #error"),
];

/// What is told of a conditional directive.
const CONDITIONAL: &str =
    "there are no conditional directives as #if and #ifndef: a file is included once, since only the three headers \
    are, and what is not wanted is left out of the call";

/// What is told of any other directive.
pub static DIRECTIVE: &str =
    "a directive includes <stdint.h>, <stdfix.h> or <iohw.h>, defines a new name as one constant, or is a pragma (C99 6.10)";

/// What is told of a comment or a character constant without an end.
pub static UNCLOSED: &str = "this comment or character constant has no end (C99 6.4.4.4, 6.4.9)";

/// What is told of each reserved word of C that the language leaves out.
pub static RESERVED: [(&str, &str); 16] = [
    (
        "switch",
        "there is no `switch`: write `if (..) .. else if (..) .. else ..`",
    ),
    (
        "case",
        "there is no `case`: write `if (..) .. else if (..) .. else ..`",
    ),
    (
        "default",
        "there is no `default`: write `if (..) .. else if (..) .. else ..`",
    ),
    (
        "enum",
        "there is no `enum`: write `#define NAME 1` for each constant, and `uint8_t` or `int` as the type",
    ),
    (
        "typedef",
        "there is no `typedef`: write the type itself, the names of <stdint.h>, or `struct t`",
    ),
    (
        "volatile",
        "there is no `volatile`: leave it out, since every access of an object is made as it is written; the registers \
        of the chip are ports, read and written by `iord` and `iowr` of <iohw.h>",
    ),
    (
        "goto",
        "there is no `goto`: write a loop with `break` and `continue`, or a function with `return`",
    ),
    (
        "inline",
        "there is no `inline`: leave it out, and write `static` where the function is of this source alone",
    ),
    ("restrict", "there is no `restrict`: leave it out"),
    ("auto", "there is no `auto`: leave it out"),
    (
        "float",
        "there is no `float`: write `_Accum` or `_Fract`, or `accum` and `fract` of <stdfix.h>, with constants as `1.5k`",
    ),
    (
        "double",
        "there is no `double`: write `long _Accum` or `long _Fract`, with constants as `1.5lk`",
    ),
    (
        "union",
        "there is no `union`: write a `struct`, or shift and mask the bytes of a number",
    ),
    (
        "_Bool",
        "there is no `_Bool`: write `uint8_t`, with 0 and 1",
    ),
    (
        "_Complex",
        "there is no `_Complex`: write a struct of two numbers",
    ),
    (
        "_Imaginary",
        "there is no `_Imaginary`: write a struct of two numbers",
    ),
];

/// What is told of names that need an include or are of other compilers, where nothing has made them known.
pub static NAMES: [(&str, &str); 44] = [
    (
        "int8_t",
        "`int8_t` is known once the source has the line `#include <stdint.h>`",
    ),
    (
        "uint8_t",
        "`uint8_t` is known once the source has the line `#include <stdint.h>`",
    ),
    (
        "int16_t",
        "`int16_t` is known once the source has the line `#include <stdint.h>`",
    ),
    (
        "uint16_t",
        "`uint16_t` is known once the source has the line `#include <stdint.h>`",
    ),
    (
        "int32_t",
        "`int32_t` is known once the source has the line `#include <stdint.h>`",
    ),
    (
        "uint32_t",
        "`uint32_t` is known once the source has the line `#include <stdint.h>`",
    ),
    (
        "fract",
        "`fract` is known once the source has the line `#include <stdfix.h>`",
    ),
    (
        "accum",
        "`accum` is known once the source has the line `#include <stdfix.h>`",
    ),
    (
        "sat",
        "`sat` is known once the source has the line `#include <stdfix.h>`",
    ),
    (
        "iord",
        "`iord` is known once the source has the line `#include <iohw.h>`",
    ),
    (
        "iordl",
        "`iordl` is known once the source has the line `#include <iohw.h>`",
    ),
    (
        "iordbuf",
        "`iordbuf` is known once the source has the line `#include <iohw.h>`",
    ),
    (
        "iordbufl",
        "`iordbufl` is known once the source has the line `#include <iohw.h>`",
    ),
    (
        "iowr",
        "`iowr` is known once the source has the line `#include <iohw.h>`",
    ),
    (
        "iowrl",
        "`iowrl` is known once the source has the line `#include <iohw.h>`",
    ),
    (
        "iowrbuf",
        "`iowrbuf` is known once the source has the line `#include <iohw.h>`",
    ),
    (
        "iowrbufl",
        "`iowrbufl` is known once the source has the line `#include <iohw.h>`",
    ),
    (
        "ioor",
        "`ioor` is known once the source has the line `#include <iohw.h>`",
    ),
    (
        "ioorl",
        "`ioorl` is known once the source has the line `#include <iohw.h>`",
    ),
    (
        "ioorbuf",
        "`ioorbuf` is known once the source has the line `#include <iohw.h>`",
    ),
    (
        "ioorbufl",
        "`ioorbufl` is known once the source has the line `#include <iohw.h>`",
    ),
    (
        "ioand",
        "`ioand` is known once the source has the line `#include <iohw.h>`",
    ),
    (
        "ioandl",
        "`ioandl` is known once the source has the line `#include <iohw.h>`",
    ),
    (
        "ioandbuf",
        "`ioandbuf` is known once the source has the line `#include <iohw.h>`",
    ),
    (
        "ioandbufl",
        "`ioandbufl` is known once the source has the line `#include <iohw.h>`",
    ),
    (
        "ioxor",
        "`ioxor` is known once the source has the line `#include <iohw.h>`",
    ),
    (
        "ioxorl",
        "`ioxorl` is known once the source has the line `#include <iohw.h>`",
    ),
    (
        "ioxorbuf",
        "`ioxorbuf` is known once the source has the line `#include <iohw.h>`",
    ),
    (
        "ioxorbufl",
        "`ioxorbufl` is known once the source has the line `#include <iohw.h>`",
    ),
    (
        "iogroup_acquire",
        "`iogroup_acquire` is known once the source has the line `#include <iohw.h>`",
    ),
    (
        "iogroup_release",
        "`iogroup_release` is known once the source has the line `#include <iohw.h>`",
    ),
    (
        "iogroup_map",
        "`iogroup_map` is known once the source has the line `#include <iohw.h>`",
    ),
    (
        "PROGMEM",
        "`PROGMEM` is of another compiler: write `const __flash` before the type",
    ),
    (
        "pgm_read_byte",
        "`pgm_read_byte` is of another compiler: index or point to the `const __flash` object itself",
    ),
    (
        "ISR",
        "there are no interrupts: they stay off, and the program polls the ports",
    ),
    (
        "sei",
        "there are no interrupts: they stay off, and the program polls the ports",
    ),
    (
        "bool",
        "there is no `bool`: write `uint8_t` of <stdint.h>, with 0 and 1",
    ),
    ("true", "there is no `true`: write 1"),
    ("false", "there is no `false`: write 0"),
    (
        "NULL",
        "there is no `NULL`: write 0, which every pointer type takes",
    ),
    ("size_t", "there is no `size_t`: write `unsigned int`"),
    (
        "asm",
        "there is no assembly in a source: leave it out, and write ports by `iowr` of <iohw.h>",
    ),
    (
        "__attribute__",
        "there are no attributes: leave it out; `place` of the map puts an object at an address",
    ),
    (
        "_delay_ms",
        "there is no library: write a loop that counts, or poll a timer's port",
    ),
];

/// What is told of an undeclared name without small letters, as ports have them.
pub static CAPITALS: &str =
    "this name is not declared before its use; where it is the name of a port: a port is no object, and is read by \
    `iord(PORT)`, written by `iowr(PORT, value)` and changed by `ioor(PORT, bits)` of <iohw.h> (C99 6.5.1, Embedded C 6.3)";

/// What is told of a word by a table, or else this message.
fn advice_or(
    table: &'static [(&'static str, &'static str)],
    word: &[u8],
    other: &'static str,
) -> &'static str
    ensures { result.now ≡ unwrap_or (look_up word.now (map (λ x. (x.0.now, x.1.now)) table.now)) other.now }
{
    match look_up(word, table) {
        Some(message) => message,
        None => other,
    }
}

fn is_word_byte(b: u8) -> bool
    ensures { result ≡ is_word_byte b }
{
    b.is_ascii_alphanumeric() || b == b'_'
}

/// Whether a byte is a letter, digit or underscore, and no small letter.
fn is_capital(b: u8) -> bool
    ensures { result ≡ is_capital b }
{
    b.is_ascii_uppercase() || b.is_ascii_digit() || b == b'_'
}

fn is_number_byte(b: u8) -> bool
    ensures { result ≡ is_number_byte b }
{
    is_word_byte(b) || b == b'.'
}

fn is_blank(b: u8) -> bool
    ensures { result ≡ is_blank b }
{
    b == b' ' || b == b'\t'
}

fn is_digit(b: u8) -> bool
    ensures { result ≡ is_digit b }
{
    b.is_ascii_digit()
}

/// Whether a byte stands in a number with a dot or an exponent, and not in an integer.
fn is_floating(b: u8) -> bool
    ensures { result ≡ is_floating b }
{
    b == b'.' || b == b'e' || b == b'E'
}

fn word_len(bytes: &[u8]) -> usize
    ensures value { result ≡ prefix_len is_word_byte bytes.now }
    ensures bound { result ≤ length bytes.now }
{
    bytes.iter().take_while(|b| is_word_byte(**b)).count()
}

fn number_len(bytes: &[u8]) -> usize
    ensures value { result ≡ prefix_len is_number_byte bytes.now }
    ensures bound { result ≤ length bytes.now }
{
    bytes.iter().take_while(|b| is_number_byte(**b)).count()
}

fn blank_len(bytes: &[u8]) -> usize
    ensures value { result ≡ prefix_len is_blank bytes.now }
    ensures bound { result ≤ length bytes.now }
{
    bytes.iter().take_while(|b| is_blank(**b)).count()
}

/// The letters, digits and underscores at the front.
pub fn word_run(bytes: &[u8]) -> &[u8]
    ensures { result.now ≡ word_run bytes.now }
{
    &bytes[..word_len(bytes)]
}

fn number_run(bytes: &[u8]) -> &[u8]
    ensures { result.now ≡ number_run bytes.now }
{
    &bytes[..number_len(bytes)]
}

/// The word of a directive, behind its `#`.
fn directive_word(bytes: &[u8]) -> &[u8]
    ensures { result.now ≡ directive_word bytes.now }
{
    let rest = &bytes[bytes.len().min(1)..];
    word_run(&rest[blank_len(rest)..])
}

/// Whether this byte stands at an index.
fn is_at(bytes: &[u8], index: usize, wanted: u8) -> bool
    ensures { result ≡ is_byte wanted (slice_get bytes.now index) }
{
    match bytes.get(index) {
        Some(b) => *b == wanted,
        None => false,
    }
}

/// Whether a number begins with 0 and this letter, in lower or upper case.
fn has_prefix(run: &[u8], lower: u8, upper: u8) -> bool
    ensures { result ≡ has_prefix lower upper run.now }
{
    is_at(run, 0, b'0') && (is_at(run, 1, lower) || is_at(run, 1, upper))
}

/// Whether a number ends with the letter of a fixed-point type.
fn has_fixed_suffix(run: &[u8]) -> bool
    ensures { result ≡ is_fixed_end (slice_get run.now (length run.now - 1)) }
{
    match run.last() {
        Some(b) => *b == b'k' || *b == b'K' || *b == b'r' || *b == b'R',
        None => false,
    }
}

fn has_floating(run: &[u8]) -> bool
    ensures { result ≡ list_any is_floating run.now }
{
    run.iter().any(|b| is_floating(*b))
}

fn has_digits_alone(run: &[u8]) -> bool
    ensures { result ≡ list_all is_digit run.now }
{
    run.iter().all(|b| is_digit(*b))
}

fn has_capitals_alone(word: &[u8]) -> bool
    ensures { result ≡ list_all is_capital word.now }
{
    word.iter().all(|b| is_capital(*b))
}

/// What is told of a name that is not declared before its use, where more is known of it than that.
pub fn undeclared(word: &[u8]) -> Option<&'static str>
    ensures { option_map (λ x. x.now) result ≡ undeclared word.now }
{
    if let Some(message) = look_up(word, &NAMES) {
        Some(message)
    } else if has_capitals_alone(word) {
        Some(CAPITALS)
    } else {
        None
    }
}

/// What a run of letters, digits and dots that is no constant looks like.
fn kind_of(run: &[u8]) -> NumberKind
    ensures { result ≡ kind_of run.now }
{
    if has_prefix(run, b'b', b'B') {
        NumberKind::Binary
    } else if has_prefix(run, b'x', b'X') || has_fixed_suffix(run) {
        NumberKind::Other
    } else if has_floating(run) {
        NumberKind::Floating
    } else if !has_digits_alone(run) {
        NumberKind::Other
    } else if is_at(run, 0, b'0') {
        NumberKind::Octal
    } else {
        NumberKind::Decimal
    }
}

/// What is told of a run of letters, digits and dots that is no constant.
fn number_message(rest: &[u8]) -> &'static str
    ensures { result.now ≡ number_message (kind_of (number_run rest.now)) }
{
    match kind_of(number_run(rest)) {
        NumberKind::Binary => BINARY,
        NumberKind::Floating => FLOATING,
        NumberKind::Octal => OCTAL,
        NumberKind::Decimal => DECIMAL,
        NumberKind::Other => NUMBER,
    }
}

/// What is told of a byte that begins no token.
fn stray_message(rest: &[u8]) -> &'static str
    ensures { result.now ≡ stray_message (slice_get rest.now 0) }
{
    match rest.first() {
        Some(first) => advice_or(&STRAYS, &[*first], STRAY),
        None => STRAY,
    }
}

/// What is told of a fault at a byte, by the bytes from there on.
pub fn byte_message(fault: ByteFault, rest: &[u8]) -> &'static str
    ensures { result.now ≡ byte_message fault rest.now }
{
    match fault {
        ByteFault::BadByte => stray_message(rest),
        ByteFault::BadNumber => number_message(rest),
        ByteFault::Unclosed => UNCLOSED,
        ByteFault::BadDirective => advice_or(&DIRECTIVES, directive_word(rest), DIRECTIVE),
    }
}
