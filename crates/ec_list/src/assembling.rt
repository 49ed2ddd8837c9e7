//! The image of a listing.
ghost use Rattle.std.specs.Prelude.{◌≡◌, ◌≢◌, ◌<◌, ◌≤◌, ◌+◌, ◌/◌, ◌%◌, ◌++◌};
ghost use Rattle.std.specs.Prelude.{◌∷◌, [], ◌⊎◌, ◌↔◌, ℕ, List, Bool, true, length};
ghost use Rattle.std.specs.Prelude.{IfOk, IfErr, IfSome, IfNone, IsTrue, IsErrOf, IsOkUnless, MatchBool, MatchResult, position, ◌==◌};
ghost use Rattle.ec_avr.specs.Flash.{flash_size};
ghost use Rattle.ec_list.specs.Assembling.{has_no_end, put_over, all_true, Follows, StopsLine};
ghost use Rattle.ec_list.specs.Lines.{item_bytes, word_bytes, IsInRange, Suits};
ghost use Rattle.ec_list.specs.Lists.{Lists, HasStop};
ghost use Rattle.ec_list.specs.declared.assembling.AsmStop.{AsmStop};
ghost use Rattle.ec_list.specs.declared.assembling.AsmStop.TheVariants.{NoMemory as OutOfMemory};

use crate::line::{Item, Line, read_line};
use ec_avr::Image;
use ec_isa::encode;
use ec_space::{Core, NoMemory, Seq};
use std::alloc::Global;
use thiserror::Error;

/// Why a text lists no image.
#[derive(Clone, Copy, Debug, PartialEq, Eq, Error)]
pub enum AsmStop {
    /// This line, counted from 1, is the first that breaks a rule, and this rule the least that it breaks. 1: it has the
    /// form of a line, with operands in range, and ends with LF. 2: its bytes lie in flash, and an instruction's address
    /// is even. 3: it begins at or after the end of the line before.
    #[error("line {line}: rule {rule}")]
    Line { line: u32, rule: u8 },
    #[error("no memory")]
    NoMemory,
}

impl From<NoMemory> for AsmStop {
    ghost from_gives = { λ _ e. e ≡ OutOfMemory };

    fn from(_e: NoMemory) -> AsmStop {
        AsmStop::NoMemory
    }
}

/// Where the first line feed stands.
fn line_end(text: &[u8]) -> Option<usize>
    ensures { result ≡ position (λ c. c == 10) text.now }
{
    text.iter().position(|c| *c == b'\n')
}

/// The first line of a text without its LF, and what stands behind it. None where no LF is left.
fn first_line(text: &[u8]) -> Option<(&[u8], &[u8])>
    ensures some { IfSome result (λ p. (text.now ≡ p.0.now ++ 10 ∷ p.1.now) × (has_no_end p.0.now ≡ true)) }
    ensures none { IfNone result (has_no_end text.now ≡ true) }
    ensures shorter { IfSome result (λ p. length p.1.now < length text.now) }
{
    match line_end(text) {
        Some(end) => Some((&text[..end], &text[end + 1..])),
        None => None,
    }
}

/// Whether the bytes of a line lie in flash, and an instruction's address is even.
fn suits(core: Core, line: Line) -> bool
    requires range { IsInRange line.item }
    requires address { line.at < 1048576 }
    ensures { MatchBool result (Suits core line) (¬ (Suits core line)) }
{
    let aligned = match line.item {
        Item::Byte(_) => true,
        Item::Instruction(_) => line.at % 2 == 0,
    };
    aligned && line.at + line.item.size() as u32 <= core.flash_size()
}

/// The line of a text without its LF, where it may follow lines with an end, or why it may not. The line is told by its
/// number.
fn judge(alloc: Global, core: Core, number: u32, from: u32, text: &[u8]) -> Result<Line, AsmStop>
    ensures { MatchResult result (Follows core from text.now) (StopsLine core number from text.now) }
{
    let line = match read_line(alloc, text)? {
        Some(line) => line,
        None => return Err(AsmStop::Line {
            line: number,
            rule: 1,
        }),
    };
    if !suits(core, line) {
        return Err(AsmStop::Line {
            line: number,
            rule: 2,
        });
    }
    if line.at < from {
        return Err(AsmStop::Line {
            line: number,
            rule: 3,
        });
    }
    Ok(line)
}

/// Writes a word, the low byte first.
fn write_word(image: &mut Image, at: usize, word: u16)
    requires { at + 2 ≤ flash_size image.old.core }
    ensures core { image.new.core ≡ image.old.core }
    ensures bytes { image.new.bytes.items ≡ put_over image.old.bytes.items at (word_bytes word) }
    ensures written { image.new.written.items ≡ put_over image.old.written.items at (all_true 2) }
{
    image.write(at, (word % 256) as u8);
    image.write(at + 1, (word / 256) as u8);
}

/// Writes the bytes of an item.
fn write_item(image: &mut Image, at: usize, item: Item)
    requires range { IsInRange item }
    requires in_flash { at + length (item_bytes item) ≤ flash_size image.old.core }
    ensures core { image.new.core ≡ image.old.core }
    ensures bytes { image.new.bytes.items ≡ put_over image.old.bytes.items at (item_bytes item) }
    ensures written { image.new.written.items ≡ put_over image.old.written.items at (all_true (length (item_bytes item))) }
{
    match item {
        Item::Byte(b) => image.write(at, b),
        Item::Instruction(i) => {
            let words = encode(i);
            write_word(image, at, words.first);
            if let Some(second) = words.second {
                write_word(image, at + 2, second);
            }
        }
    }
}

/// What the lines so far have told.
#[derive(Drop)]
struct Assembler {
    image: Image,
    /// The number of the next line, from 1.
    line: u32,
    /// The address behind the last line, or 0.
    end: u32,
}

impl Assembler {
    ghost use Rattle.std.specs.Prelude.{◌≡◌, ◌≤◌, ◌+◌};
    ghost use Rattle.ec_list.specs.Assembling.{TakesLine};

    /// Takes the next line, without its LF.
    fn take(&mut self, alloc: Global, text: &[u8]) -> Result<(), AsmStop>
        requires few { self.old.line ≤ self.old.end + 1 }
        requires end { self.old.end ≤ 1048576 }
        ensures core { self.new.image.core ≡ self.old.image.core }
        ensures takes { TakesLine self.old text.now result self.new }
    {
        let line = match judge(alloc, self.image.core, self.line, self.end, text) {
            Ok(line) => line,
            Err(stop) => return Err(stop),
        };
        write_item(&mut self.image, line.at as usize, line.item);
        self.line += 1;
        self.end = line.at + line.item.size() as u32;
        Ok(())
    }
}

/// The image of a core that a text lists, or why it lists none.
pub fn assemble(alloc: Global, core: Core, bytes: &Seq<u8>) -> Result<Image, AsmStop>
    ensures core { IfOk result (λ image. image.core ≡ core) }
    ensures listed { IfOk result (λ image. Lists core bytes.now.items image.bytes.items image.written.items) }
    ensures stopped { IfErr result (HasStop core bytes.now.items) }

    // Where the text lists an image, or a line of it is the first to break a rule, no other answer comes but out of memory.
    ensures image { (image : List ℕ) (written : List Bool) → Lists core bytes.now.items image written
        → IsOkUnless result AsmStop.NoMemory
        × IfOk result (λ i. (i.bytes.items ≡ image) × (i.written.items ≡ written)) }
    ensures stop { (stop : AsmStop) → HasStop core bytes.now.items stop → stop ≢ AsmStop.NoMemory
        → IsErrOf result stop ⊎ IsErrOf result AsmStop.NoMemory }
{
    let mut assembler = Assembler {
        image: Image::new(alloc, core)?,
        line: 1,
        end: 0,
    };
    let mut rest = bytes.as_slice();
    'lines: while !rest.is_empty() {
        let (text, more) = match first_line(rest) {
            Some((text, more)) => (text, more),
            None => {
                return Err(AsmStop::Line {
                    line: assembler.line,
                    rule: 1,
                });
            }
        };
        match assembler.take(alloc, text) {
            Ok(()) => rest = more,
            Err(stop) => return Err(stop),
        }
    }
    Ok(assembler.image)
}
