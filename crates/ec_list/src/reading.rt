//! The instruction of a text.
ghost use Rattle.std.specs.Prelude.{◌≡◌, ◌↔◌, ◌%◌, IfOk, IsTrue, Some, bytes_eq};
ghost use Rattle.ec_isa.specs.declared.instructions.Instr.{Instr as Instruction};
ghost use Rattle.ec_isa.specs.Table.{in_table};
ghost use Rattle.ec_list.specs.Reading.{form_words, form_at as form_at_of, form_in as form_in_of, first_by, second_by};
ghost use Rattle.ec_list.specs.Reading.{guess as guess_of, instruction_of};
ghost use Rattle.ec_list.specs.Texts.{instruction_text};

use crate::scanning::scan;
use crate::texts::{Format, push_instruction, text_of};
use ec_isa::{Instr, decode};
use ec_space::{NoMemory, Seq};
use std::alloc::Global;

/// The instructions with one pattern of text: the first word of one of them, whose fields are 0 but for the sign bit of
/// a negative distance, and where the numbers of a text stand.
#[derive(Clone, Copy)]
struct Form {
    word: u16,
    format: Format,
}

/// Such a word for each pattern.
static FORM_WORDS: [u16; 78] = [
    0x0000, 0x0100, 0x0400, 0x0800, 0x0C00, 0x1000, 0x1400, 0x1800, 0x1C00, 0x2000, 0x2400, 0x2800,
    0x2C00, 0x9C00, 0x3000, 0x4000, 0x5000, 0x6000, 0x7000, 0xE000, 0x8000, 0x8008, 0x8200, 0x8208,
    0x9000, 0x9200, 0x9001, 0x9002, 0x9009, 0x900A, 0x900C, 0x900D, 0x900E, 0x9201, 0x9202, 0x9209,
    0x920A, 0x920C, 0x920D, 0x920E, 0x9004, 0x9005, 0x9006, 0x9007, 0x900F, 0x920F, 0x9400, 0x9401,
    0x9402, 0x9403, 0x9405, 0x9406, 0x9407, 0x940A, 0x9408, 0x9488, 0x9409, 0x9509, 0x9508, 0x9598,
    0x940C, 0x940E, 0x9600, 0x9700, 0xB000, 0xB800, 0xC000, 0xC800, 0xD000, 0xD800, 0xF000, 0xF200,
    0xF400, 0xF600, 0xF800, 0xFA00, 0xFC00, 0xFE00,
];

/// The form of an instruction with this first word, where it has the pattern.
fn form_at(pattern: &[u8], word: u16) -> Option<Form>
    ensures { result ≡ form_at_of pattern.now word }
{
    let i = decode(word, 0)?;
    let text = text_of(i);
    if text.pattern == pattern {
        Some(Form {
            word,
            format: text.format,
        })
    } else {
        None
    }
}

/// The form with a pattern, of those that these words are of.
fn form_in(pattern: &[u8], words: &[u16]) -> Option<Form>
    ensures { result ≡ form_in_of pattern.now words.now }
{
    for word in words {
        if let Some(form) = form_at(pattern, *word) {
            return Some(form);
        }
    }
    None
}

/// The form with a pattern.
#[tactic(auto, unfolding(crate::specs::Reading::form_words))]
fn form_of(pattern: &[u8]) -> Option<Form>
    ensures { result ≡ form_in_of pattern.now form_words }
{
    form_in(pattern, &FORM_WORDS)
}

/// The first word of a form, with the numbers of a text taken into their fields.
fn first_word(form: Form, first: u16, second: u16) -> u16
    ensures { result ≡ first_by form.format form.word first second % 65536 }
{
    let (w, n, m) = (form.word as u32, first as u32, second as u32);
    let word = match form.format {
        Format::Bare | Format::Direct => w,
        Format::Pairs => w + n / 2 % 16 * 16 + m / 2 % 16,
        Format::Two => w + m / 16 % 2 * 512 + n % 32 * 16 + m % 16,
        Format::Immediate => w + m / 16 % 16 * 256 + n % 16 * 16 + m % 16,
        Format::LoadDisplaced => w + m / 32 % 2 * 8192 + m / 8 % 4 * 1024 + n % 32 * 16 + m % 8,
        Format::StoreDisplaced => w + n / 32 % 2 * 8192 + n / 8 % 4 * 1024 + m % 32 * 16 + n % 8,
        Format::LoadDirect | Format::One => w + n % 32 * 16,
        Format::StoreDirect => w + m % 32 * 16,
        Format::PairImmediate => w + m / 16 % 4 * 64 + n % 8 / 2 * 16 + m % 16,
        Format::In => w + m / 16 % 4 * 512 + n % 32 * 16 + m % 16,
        Format::Out => w + n / 16 % 4 * 512 + m % 32 * 16 + n % 16,
        Format::Relative => w + n % 4096,
        Format::RelativeBack => w + (4096 - n % 4096) % 2048,
        Format::Branch => w + m % 128 * 8 + n % 8,
        Format::BranchBack => w + (128 - m % 128) % 64 * 8 + n % 8,
        Format::Bit => w + n % 32 * 16 + m % 8,
    };
    (word % 65536) as u16
}

/// The second word, where the form has one.
fn second_word(format: Format, first: u16, second: u16) -> u16
    ensures { result ≡ second_by format first second }
{
    match format {
        Format::LoadDirect => second,
        Format::StoreDirect | Format::Direct => first,
        _ => 0,
    }
}

/// The instruction that a text may be of.
fn guess(alloc: Global, line: &[u8]) -> Result<Option<Instr>, NoMemory>
    ensures { IfOk result (λ o. o ≡ guess_of line.now) }
{
    let scanned = scan(alloc, line)?;
    match form_of(scanned.pattern.as_slice()) {
        Some(form) => Ok(decode(
            first_word(form, scanned.first, scanned.second),
            second_word(form.format, scanned.first, scanned.second),
        )),
        None => Ok(None),
    }
}

/// Whether an instruction has this text.
fn has_text(alloc: Global, i: Instr, line: &[u8]) -> Result<bool, NoMemory>
    ensures { IfOk result (λ has. has ≡ bytes_eq (instruction_text i) line.now) }
{
    let mut text = Seq::new(alloc);
    push_instruction(&mut text, i)?;
    Ok(text.as_slice() == line)
}

/// What was guessed, where it has this text.
#[tactic(auto, unfolding(crate::specs::Reading::instruction_of))]
fn confirmed(alloc: Global, line: &[u8]) -> Result<Option<Instr>, NoMemory>
    ensures { IfOk result (λ o. o ≡ instruction_of line.now) }
{
    let Some(i) = guess(alloc, line)? else {
        return Ok(None);
    };
    if has_text(alloc, i, line)? {
        Ok(Some(i))
    } else {
        Ok(None)
    }
}

/// The instruction whose text this is. `None` says that it is the text of none.
pub fn read_instruction(alloc: Global, line: &[u8]) -> Result<Option<Instr>, NoMemory>
    ensures value { IfOk result (λ o. o ≡ instruction_of line.now) }
    ensures exact { IfOk result (λ o. (i : Instruction)
        → ((o ≡ Some i) ↔ (IsTrue (in_table i) × (line.now ≡ instruction_text i)))) }
{
    confirmed(alloc, line)
}
