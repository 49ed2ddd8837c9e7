//! A text with its numbers taken out.
ghost use Rattle.std.specs.Prelude.{◌≡◌, ◌+◌, ◌*◌, ◌%◌, ◌<◌, IfOk};
ghost use Rattle.ec_list.specs.Scanning.{scanned, is_decimal as is_decimal_of};
ghost use Rattle.ec_list.specs.Views.{scan_view};

use ec_space::{NoMemory, Seq};
use std::alloc::Global;

/// A text so far, with its numbers taken out.
#[derive(Drop)]
pub struct Scanned {
    /// The text with `#` in the place of each run of digits.
    pub pattern: Seq<u8>,
    /// The number of the first run of digits, modulo 65,536.
    pub first: u16,
    /// The digits behind the first run as one number, modulo 65,536.
    pub second: u16,
    /// The first run has ended.
    later: bool,
    /// The last character was a digit.
    inside: bool,
}

/// Whether a character is a decimal digit.
fn is_decimal(c: u8) -> bool
    ensures { result ≡ is_decimal_of c }
{
    48 <= c && c < 58
}

/// A number with one more digit, modulo 65,536.
fn with_digit(n: u16, digit: u8) -> u16
    ensures { result ≡ (10 * n + digit) % 65536 }
{
    ((10 * n as u32 + digit as u32) % 65536) as u16
}

impl Scanned {
    ghost use Rattle.std.specs.Prelude.{◌≡◌, OnOk};
    ghost use Rattle.ec_list.specs.Scanning.{scan_one};
    ghost use Rattle.ec_list.specs.Views.{scan_view};

    /// Takes the next character.
    fn take(&mut self, c: u8) -> Result<(), NoMemory>
        ensures { OnOk result (scan_view self.new ≡ scan_one c (scan_view self.old)) }
    {
        if is_decimal(c) {
            if !self.inside {
                self.pattern.push(b'#')?;
            }
            if self.later {
                self.second = with_digit(self.second, c - b'0');
            } else {
                self.first = with_digit(self.first, c - b'0');
            }
            self.inside = true;
        } else {
            self.pattern.push(c)?;
            self.later = self.later || self.inside;
            self.inside = false;
        }
        Ok(())
    }
}

/// Takes the numbers out of a text.
pub fn scan(alloc: Global, text: &[u8]) -> Result<Scanned, NoMemory>
    ensures { IfOk result (λ s. scan_view s ≡ scanned text.now) }
{
    let mut scan = Scanned {
        pattern: Seq::new(alloc),
        first: 0,
        second: 0,
        later: false,
        inside: false,
    };
    for c in text {
        scan.take(*c)?;
    }
    Ok(scan)
}
