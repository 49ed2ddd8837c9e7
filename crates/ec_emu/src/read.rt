//! Reading scripts.
ghost use Rattle.std.specs.Prelude.{◌≡◌, ◌≢◌, ◌<◌, ◌+◌, ◌^◌, ◌⊎◌, ◌==◌, ◌++◌, ◌∷◌, [], not, ◌||◌, List, position};
ghost use Rattle.std.specs.Prelude.{length, map, IfOk, IfErr, OnOk, IsErrOf, IsOkUnless, option_map, if◌then◌else◌};
ghost use Rattle.std.specs.Prelude.{Some, None};
ghost use Rattle.std.specs.List.{list_all, list_any};
ghost use Rattle.std.specs.Str.Lines.{lines};
ghost use Rattle.ec_avr.specs.State.{is_port};
ghost use Rattle.ec_emu.specs.declared.read.ScriptStop.{ScriptStop};
ghost use Rattle.ec_emu.specs.declared.read.ScriptStop.TheVariants.{NoMemory as OutOfMemory};
ghost use Rattle.ec_emu.specs.Forms.{Form as LineForm, byte_of, bytes_of, bytes_behind, is_hook, listed, port_form};
ghost use Rattle.ec_emu.specs.Forms.{core_line, counts_not, first_counting, form_of, words, PutsWord};
ghost use Rattle.ec_emu.specs.Script.{AreKept, IsNoScript, core_of_text, entries, entry_of, forms_of, broken, is_passed, is_same};
ghost use Rattle.ec_emu.specs.Views.{form_view};

use crate::script::{Script, ScriptLine};
use ec_hex::{digit_number, first_line};
use ec_space::{Core, NoMemory, Seq};
use std::alloc::Global;
use thiserror::Error;

/// Why a text is no script.
#[derive(Clone, Copy, Debug, PartialEq, Eq, Error)]
pub enum ScriptStop {
    /// The first line that breaks a rule, by its number from 1, with the least rule that it breaks:
    /// 1 for the form of the line, 2 for an address that is no port's, 3 for an address that stood in an earlier line, 4
    /// for the name of another core.
    #[error("line {line}: rule {rule}")]
    Line { line: u32, rule: u8 },
    #[error("no memory")]
    NoMemory,
}

impl From<NoMemory> for ScriptStop {
    ghost from_gives = { λ _ e. e ≡ OutOfMemory };

    fn from(_e: NoMemory) -> ScriptStop {
        ScriptStop::NoMemory
    }
}

/// The form of a line.
#[derive(Drop)]
pub enum Form {
    /// An empty line or a comment.
    Passed,
    /// The name of a core.
    CoreName(Core),
    /// What a port answers.
    Listed(ScriptLine),
    /// Any other line.
    NoForm,
}

/// The byte of two digits.
fn byte_of(word: &[u8]) -> Option<u8>
    ensures { result ≡ byte_of word.now }
{
    match word {
        [high, low] => Some(16 * digit_number(*high)? + digit_number(*low)?),
        _ => None,
    }
}

/// Where the first space stands.
fn word_end(text: &[u8]) -> Option<usize>
    ensures { result ≡ position (λ c. c == 32) text.now }
{
    text.iter().position(|c| *c == b' ')
}

/// Puts the byte of a word behind others, or none where the word is empty. Tells whether it is one of the two.
fn put_word(bytes: &mut Seq<u8>, word: &[u8]) -> Result<bool, NoMemory>
    ensures { IfOk result (PutsWord word.now bytes.old.items bytes.new.items) }
{
    if word.is_empty() {
        return Ok(true);
    }
    match byte_of(word) {
        Some(byte) => {
            bytes.push(byte)?;
            Ok(true)
        }
        None => Ok(false),
    }
}

/// The bytes of the words between spaces. None where a word is no byte.
fn bytes_of(alloc: Global, text: &[u8]) -> Result<Option<Seq<u8>>, NoMemory>
    ensures { IfOk result (λ bytes. option_map (λ seq. seq.items) bytes ≡ bytes_of (words text.now)) }
{
    let mut bytes = Seq::new(alloc);
    let mut rest = text;
    'words: while let Some(end) = word_end(rest) {
        if !put_word(&mut bytes, &rest[..end])? {
            return Ok(None);
        }
        rest = &rest[end + 1..];
    }
    Ok(if put_word(&mut bytes, rest)? {
        Some(bytes)
    } else {
        None
    })
}

/// The bytes behind a colon.
fn bytes_behind(alloc: Global, text: &[u8]) -> Result<Option<Seq<u8>>, NoMemory>
    ensures { IfOk result (λ bytes. option_map (λ seq. seq.items) bytes ≡ bytes_behind text.now) }
{
    match text {
        [] => Ok(Some(Seq::new(alloc))),
        [b' ', words @ ..] => bytes_of(alloc, words),
        _ => Ok(None),
    }
}

/// What stands behind the colon of a hooked port.
const HOOK: &[u8; 5] = b" hook";

/// Whether a text is ` hook`, with spaces behind it or none.
fn is_hook(text: &[u8]) -> bool
    ensures { result ≡ is_hook text.now }
{
    if text.len() < HOOK.len() {
        return false;
    }
    let (front, spaces) = text.split_at(HOOK.len());
    front == HOOK.as_slice() && are_spaces(spaces)
}

fn are_spaces(text: &[u8]) -> bool
    ensures { result ≡ list_all (λ c. c == 32) text.now }
{
    text.iter().all(|c| *c == b' ')
}

/// The form of a line of a port, by what stands behind the colon.
fn listed(alloc: Global, port: u8, text: &[u8]) -> Result<Form, NoMemory>
    ensures { IfOk result (λ form. form_view form ≡ listed port text.now) }
{
    let hook = is_hook(text);
    let bytes = if hook {
        Some(Seq::new(alloc))
    } else {
        bytes_behind(alloc, text)?
    };
    match bytes {
        Some(bytes) => Ok(Form::Listed(ScriptLine { port, hook, bytes })),
        None => Ok(Form::NoForm),
    }
}

/// The form of a line that has to be one of a port.
fn port_form(alloc: Global, text: &[u8]) -> Result<Form, NoMemory>
    ensures { IfOk result (λ form. form_view form ≡ port_form text.now) }
{
    let [high, low, b':', behind @ ..] = text else {
        return Ok(Form::NoForm);
    };
    match (digit_number(*high), digit_number(*low)) {
        (Some(high), Some(low)) => listed(alloc, 16 * high + low, behind),
        _ => Ok(Form::NoForm),
    }
}

/// The line that names a core.
fn core_line(core: Core) -> &'static [u8]
    ensures { result.now ≡ core_line core }
{
    match core {
        Core::Small => b"core small",
        Core::Large => b"core large",
    }
}

/// Whether a line is empty or a comment.
fn counts_not(text: &[u8]) -> bool
    ensures { result ≡ counts_not text.now }
{
    matches!(text, [] | [b'#', ..])
}

/// The form of a line.
fn form_of(alloc: Global, text: &[u8]) -> Result<Form, NoMemory>
    ensures { IfOk result (λ form. form_view form ≡ form_of text.now) }
{
    if counts_not(text) {
        Ok(Form::Passed)
    } else if text == core_line(Core::Small) {
        Ok(Form::CoreName(Core::Small))
    } else if text == core_line(Core::Large) {
        Ok(Form::CoreName(Core::Large))
    } else {
        port_form(alloc, text)
    }
}

/// Whether an address is that of a port of a core.
fn is_port(core: Core, address: u8) -> bool
    ensures { result ≡ is_port core address }
{
    ec_isa::is_port(core, address as u16)
}

/// Whether two cores are one.
fn is_same(named: Core, core: Core) -> bool
    ensures { result ≡ is_same named core }
{
    match (named, core) {
        (Core::Small, Core::Small) | (Core::Large, Core::Large) => true,
        (Core::Small, Core::Large) | (Core::Large, Core::Small) => false,
    }
}

/// Whether lines have one of a port.
fn has_line(lines: &[ScriptLine], port: u8) -> bool
    ensures { result ≡ list_any (λ line. line.port == port) lines.now }
{
    lines.iter().any(|line| line.port == port)
}

/// Whether a line was neither empty nor a comment, among lines that were looked at and one more.
fn begins(begun: bool, form: &Form) -> bool
    ensures { result ≡ (begun || not (is_passed (form_view form.now))) }
{
    begun || !matches!(form, Form::Passed)
}

/// Puts the line of a port behind others.
fn put(lines: &mut Seq<ScriptLine>, form: Form) -> Result<(), NoMemory>
    ensures { OnOk result (map entry_of lines.new.items
        ≡ map entry_of lines.old.items ++ entries (form_view form ∷ [])) }
{
    match form {
        Form::Listed(line) => lines.push(line),
        _ => Ok(()),
    }
}

/// The least rule that the name of a core breaks, where the script is for a core.
fn broken_by_name(core: Core, begun: bool, named: Core) -> Option<u8>
    ensures { result ≡ (if begun then Some 1 else (if is_same named core then None else Some 4)) }
{
    if begun {
        Some(1)
    } else if is_same(named, core) {
        None
    } else {
        Some(4)
    }
}

/// The least rule that a line of a script for a core breaks after lines that were kept, of which these are the ports'
/// lines. `begun` tells that one of them was neither empty nor a comment.
fn broken(core: Core, lines: &[ScriptLine], begun: bool, form: &Form) -> Option<u8>
    ensures { (before : List LineForm) → map entry_of lines.now ≡ entries before
        → begun ≡ not (list_all is_passed before)
        → result ≡ broken core before (form_view form.now) }
{
    match form {
        Form::Passed => None,
        Form::CoreName(named) => broken_by_name(core, begun, *named),
        Form::Listed(line) => {
            if !is_port(core, line.port) {
                Some(2)
            } else if has_line(lines, line.port) {
                Some(3)
            } else {
                None
            }
        }
        Form::NoForm => Some(1),
    }
}

/// The first line of a text that is neither empty nor a comment, and an empty one where there is none.
fn first_counting<'a>(text: &'a [u8]) -> &'a [u8]
    ensures { result.now ≡ first_counting (lines text.now) }
{
    let mut rest = text;
    'lines: while !rest.is_empty() {
        let (line, more) = first_line(rest);
        if !counts_not(line) {
            return line;
        }
        rest = more;
    }
    rest
}

/// The core that the text of a script is for: the one that its first line names, of those that are neither empty nor
/// comments, and the small one where that line names none. It takes no memory.
pub fn script_core(bytes: &Seq<u8>) -> Core
    ensures { result ≡ core_of_text bytes.now.items }
{
    if first_counting(bytes.as_slice()) == core_line(Core::Large) {
        Core::Large
    } else {
        Core::Small
    }
}

/// The script for a core that a text is, or the first rule that it breaks.
///
/// Lines end with LF or CRLF, and the last may stand without an end. All are counted.
pub fn read_script(alloc: Global, core: Core, bytes: &Seq<u8>) -> Result<Script, ScriptStop>
    requires few { length bytes.now.items < 2 ^ 32 }
    ensures kept { IfOk result (λ _. AreKept core (forms_of bytes.now.items)) }
    ensures lines { IfOk result (λ script. map entry_of script.lines.items ≡ entries (forms_of bytes.now.items)) }
    ensures stopped { IfErr result (IsNoScript core bytes.now.items) }

    // Where the text is a script, or breaks a rule first, no other answer comes but out of memory.
    ensures script { AreKept core (forms_of bytes.now.items) → IsOkUnless result ScriptStop.NoMemory }
    ensures stop { (stop : ScriptStop) → IsNoScript core bytes.now.items stop → stop ≢ ScriptStop.NoMemory
        → IsErrOf result stop ⊎ IsErrOf result ScriptStop.NoMemory }
{
    let mut lines = Seq::new(alloc);
    let mut begun = false;
    let mut rest = bytes.as_slice();
    let mut line = 0u32;
    'lines: while !rest.is_empty() {
        let (text, more) = first_line(rest);
        line += 1;
        let form = form_of(alloc, text)?;
        match broken(core, lines.as_slice(), begun, &form) {
            Some(rule) => return Err(ScriptStop::Line { line, rule }),
            None => {}
        }
        begun = begins(begun, &form);
        put(&mut lines, form)?;
        rest = more;
    }
    Ok(Script::new(lines))
}
