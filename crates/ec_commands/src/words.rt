//! The words of a command line.
ghost use Rattle.std.specs.Prelude.{◌≡◌, ◌<◌, ◌≤◌, ℕ, ℤ, true, false, length, IfSome, IfNone};
ghost use Rattle.ec_commands.specs.Command.{command_of, IsRowOf};
ghost use Rattle.ec_commands.specs.Words.{first_source, is_build as is_build_row, is_bound as is_bound_row, word};
ghost use Rattle.ec_commands.specs.Words.{core_named, compare_named};
ghost use Rattle.ec_commands.specs.Words.{IsNumber, IsValue, IsRun, IsExecRow, IsGen, IsList, IsAssemble, IsWatchRow};
ghost use Rattle.ec_emu_watch.specs.declared.compare.Compare.{Compare};
ghost use Rattle.ec_space.specs.declared.Core.{Core};

use ec_emu_watch::{Compare, CompareOp};
use ec_space::Core;

/// What a row of words is.
#[derive(Clone, Copy, Debug, PartialEq, Eq)]
pub enum Command {
    /// `build MAP OUT SRC...`
    Build,
    /// `run HEX SCRIPT STEPS FILL`
    Run {
        steps: u32,
        fill: u8,
    },
    /// `exec MAP SCRIPT STEPS SRC...`
    Exec {
        steps: u32,
    },
    /// `gen N`
    Gen {
        n: u16,
    },
    /// `list CORE HEX`
    List {
        core: Core,
    },
    /// `assemble CORE ASM OUT`
    Assemble {
        core: Core,
    },
    /// `bound MAP SRC...`
    Bound,
    /// `watch MAP SCRIPT STEPS NAME LEAF OP VALUE SRC...`: OP and VALUE are the rule. LEAF is at most 9,999,999,999.
    Watch {
        steps: u32,
        leaf: u64,
        rule: Compare,
    },
    /// Any other words.
    NoCommand,
}

/// A command that compiles the sources that its last words name.
#[derive(Clone, Copy)]
pub enum Compiling {
    /// `build MAP OUT SRC...`
    Build,
    /// `exec MAP SCRIPT STEPS SRC...`
    Exec,
    /// `bound MAP SRC...`
    Bound,
    /// `watch MAP SCRIPT STEPS NAME LEAF OP VALUE SRC...`
    Watch,
}

/// The place of the first source among the words, from 0.
pub fn first_source(command: Compiling) -> usize
    ensures { result ≡ first_source command }
{
    match command {
        Compiling::Build => 3,
        Compiling::Exec => 4,
        Compiling::Bound => 2,
        Compiling::Watch => 8,
    }
}

/// Whether the words are `build MAP OUT SRC...`.
pub fn is_build(words: &Vec<String>) -> bool
    ensures { result ≡ is_build_row words.now.items }
{
    words.len() >= 4 && words[0].as_str() == "build"
}

/// Whether the words are `bound MAP SRC...`.
fn is_bound(words: &Vec<String>) -> bool
    ensures { result ≡ is_bound_row words.now.items }
{
    words.len() >= 3 && words[0].as_str() == "bound"
}

/// The word at `i`.
pub fn word_at(words: &Vec<String>, i: usize) -> &str
    requires { i < length words.now.items }
    ensures { result.now ≡ word words.now.items i }
{
    words[i].as_str()
}

/// The number that 1 to 10 decimal digits stand for, leading zeros allowed, if it is at most `most`.
fn number(digits: &str, most: u64) -> Option<u64>
    ensures some { IfSome result (IsNumber digits.now most) }
    ensures none { IfNone result ((n : ℕ) → ¬ (IsNumber digits.now most n)) }
{
    if digits.len() > 10 || digits.as_bytes().first() == Some(&b'+') {
        return None;
    }
    match digits.parse::<u64>() {
        Ok(n) if n <= most => Some(n),
        _ => None,
    }
}

/// STEPS, from 0 to 4,294,967,295.
fn steps_of(digits: &str) -> Option<u32>
    ensures some { IfSome result (IsNumber digits.now 4294967295) }
    ensures none { IfNone result ((n : ℕ) → ¬ (IsNumber digits.now 4294967295 n)) }
{
    let steps = number(digits, 4_294_967_295)?;
    Some(steps as u32)
}

/// The number that an optional `-` and 1 to 20 decimal digits stand for, leading zeros allowed.
fn value(word: &str) -> Option<i128>
    ensures some { IfSome result (IsValue word.now) }
    ensures none { IfNone result ((v : ℤ) → ¬ (IsValue word.now v)) }
{
    let first = word.as_bytes().first();
    let most = if first == Some(&b'-') { 21 } else { 20 };
    if word.len() > most || first == Some(&b'+') {
        return None;
    }
    match word.parse::<i128>() {
        Ok(v) => Some(v),
        Err(_) => None,
    }
}

/// STEPS and FILL of `run HEX SCRIPT STEPS FILL`, if the words are such.
fn run_numbers(words: &Vec<String>) -> Option<(u32, u8)>
    ensures some { IfSome result (λ r. IsRun words.now.items r.0 r.1) }
    ensures none { IfNone result ((steps fill : ℕ) → ¬ (IsRun words.now.items steps fill)) }
{
    if words.len() != 5 || words[0].as_str() != "run" {
        return None;
    }
    let steps = steps_of(word_at(words, 3))?;
    let fill = number(word_at(words, 4), 255)?;
    Some((steps, fill as u8))
}

/// STEPS of `exec MAP SCRIPT STEPS SRC...`, if the words are such.
fn exec_steps(words: &Vec<String>) -> Option<u32>
    ensures some { IfSome result (IsExecRow words.now.items) }
    ensures none { IfNone result ((steps : ℕ) → ¬ (IsExecRow words.now.items steps)) }
{
    if words.len() < 5 || words[0].as_str() != "exec" {
        return None;
    }
    steps_of(word_at(words, 3))
}

/// The number of `gen N`, from 1 to 2,000, if the words are such.
fn gen_number(words: &Vec<String>) -> Option<u16>
    ensures some { IfSome result (IsGen words.now.items) }
    ensures none { IfNone result ((n : ℕ) → ¬ (IsGen words.now.items n)) }
{
    if words.len() != 2 || words[0].as_str() != "gen" {
        return None;
    }
    let n = number(word_at(words, 1), 2_000)?;
    if n == 0 { None } else { Some(n as u16) }
}

/// The core that is called so.
fn core_named(name: &str) -> Option<Core>
    ensures { result ≡ core_named name.now }
{
    if name == "small" {
        Some(Core::Small)
    } else if name == "large" {
        Some(Core::Large)
    } else {
        None
    }
}

/// The core of `list CORE HEX`, if the words are such.
fn list_core(words: &Vec<String>) -> Option<Core>
    ensures some { IfSome result (IsList words.now.items) }
    ensures none { IfNone result ((core : Core) → ¬ (IsList words.now.items core)) }
{
    if words.len() != 3 || words[0].as_str() != "list" {
        return None;
    }
    core_named(word_at(words, 1))
}

/// The core of `assemble CORE ASM OUT`, if the words are such.
fn assemble_core(words: &Vec<String>) -> Option<Core>
    ensures some { IfSome result (IsAssemble words.now.items) }
    ensures none { IfNone result ((core : Core) → ¬ (IsAssemble words.now.items core)) }
{
    if words.len() != 4 || words[0].as_str() != "assemble" {
        return None;
    }
    core_named(word_at(words, 1))
}

/// The comparison that is called so.
fn compare_named(name: &str) -> Option<CompareOp>
    ensures { result ≡ compare_named name.now }
{
    if name == "eq" {
        Some(CompareOp::Eq)
    } else if name == "ne" {
        Some(CompareOp::Ne)
    } else if name == "lt" {
        Some(CompareOp::Lt)
    } else if name == "gt" {
        Some(CompareOp::Gt)
    } else if name == "le" {
        Some(CompareOp::Le)
    } else if name == "ge" {
        Some(CompareOp::Ge)
    } else {
        None
    }
}

/// STEPS, LEAF and the rule of `watch MAP SCRIPT STEPS NAME LEAF OP VALUE SRC...`, if the words are such.
fn watched(words: &Vec<String>) -> Option<(u32, u64, Compare)>
    ensures some { IfSome result (λ r. IsWatchRow words.now.items r.0 r.1 r.2) }
    ensures none { IfNone result ((steps leaf : ℕ) (rule : Compare) → ¬ (IsWatchRow words.now.items steps leaf rule)) }
{
    if words.len() < 9 || words[0].as_str() != "watch" {
        return None;
    }
    let steps = steps_of(word_at(words, 3))?;
    let leaf = number(word_at(words, 5), 9_999_999_999)?;
    let op = compare_named(word_at(words, 6))?;
    let value = value(word_at(words, 7))?;
    Some((steps, leaf, Compare { op, value }))
}

/// The command that the words are.
pub fn command_of(words: &Vec<String>) -> Command
    ensures value { result ≡ command_of words.now.items }
    ensures row { IsRowOf result words.now.items }
{
    if is_build(words) {
        return Command::Build;
    }
    if let Some((steps, fill)) = run_numbers(words) {
        return Command::Run { steps, fill };
    }
    if let Some(steps) = exec_steps(words) {
        return Command::Exec { steps };
    }
    if let Some(n) = gen_number(words) {
        return Command::Gen { n };
    }
    if let Some(core) = list_core(words) {
        return Command::List { core };
    }
    if let Some(core) = assemble_core(words) {
        return Command::Assemble { core };
    }
    if is_bound(words) {
        return Command::Bound;
    }
    if let Some((steps, leaf, rule)) = watched(words) {
        return Command::Watch { steps, leaf, rule };
    }
    Command::NoCommand
}
