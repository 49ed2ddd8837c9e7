//! The stack pointer, the initial bytes of objects, and the call of `main`.
ghost use Rattle.std.specs.Prelude.{◌≡◌, ◌+◌, ◌++◌, ◌<◌, ◌≤◌, false, nat_le, OnOk, OnErr};
ghost use Rattle.ec_runs.specs.Behaviours.{BeginWith};
ghost use Rattle.ec_select_startup.specs.Startup.{address_code, stack_code, source_code, byte_code, stores_code, row_code};
ghost use Rattle.ec_select_startup.specs.Startup.{count_code, down, end_code, byte_words, loop_code, bytes_a_turn, turns_code};
ghost use Rattle.ec_select_startup.specs.Startup.{pointed_code, most_stores, span_code, is_cleared, spans_code, startup_code};

use ec_asm::AsmItem;
use ec_isa::Instr;
use ec_space::{NoMemory, Seq};

/// What the bytes of a span are set to.
#[derive(Clone, Copy)]
pub enum Filling {
    /// The initial bytes in flash.
    Copied,
    /// 0.
    Cleared,
}

/// Bytes of an object that have initial values.
///
/// `from` is the number of the initial bytes in flash and `to` that of the object, both by the numbers of [`AsmItem`].
/// The first `bytes` bytes of the object are set, from 0 to 65,535.
#[derive(Clone, Copy)]
pub struct Span {
    pub from: u16,
    pub to: u16,
    pub bytes: u16,
    pub filling: Filling,
}

/// Appends code that sets registers Rd + 1 and Rd to the address of an object.
fn address(out: &mut Seq<AsmItem>, d: u8, object: u16) -> Result<(), NoMemory>
    requires { d < 31 }
    ensures ok { OnOk result (out.new.items ≡ out.old.items ++ address_code d object) }
    ensures err { OnErr result (out.new.items ≡ out.old.items) }
{
    out.extend_from_slice(&[
        AsmItem::LoadPart {
            d,
            object,
            offset: 0,
            part: 0,
        },
        AsmItem::LoadPart {
            d: d + 1,
            object,
            offset: 0,
            part: 1,
        },
    ])
}

/// Appends code that sets the stack pointer to the last byte of the stack.
fn stack(out: &mut Seq<AsmItem>) -> Result<(), NoMemory>
    ensures ok { OnOk result (out.new.items ≡ out.old.items ++ stack_code) }
    ensures err { OnErr result (BeginWith out.old.items out.new.items) }
{
    address(out, 24, 1281)?;
    out.extend_from_slice(&[
        AsmItem::Plain(Instr::Out { a: 0x3E, r: 25 }),
        AsmItem::Plain(Instr::Out { a: 0x3D, r: 24 }),
    ])
}

/// Appends code that sets Z to the first initial byte, or clears R0 where it is not yet clear.
fn source(out: &mut Seq<AsmItem>, clear: bool, filling: Filling, from: u16) -> Result<(), NoMemory>
    ensures ok { OnOk result (out.new.items ≡ out.old.items ++ source_code clear filling from) }
    ensures err { OnErr result (BeginWith out.old.items out.new.items) }
{
    match filling {
        Filling::Copied => address(out, 30, from),
        Filling::Cleared if clear => Ok(()),
        Filling::Cleared => out.extend_from_slice(&[AsmItem::Plain(Instr::Eor { d: 0, r: 0 })]),
    }
}

/// Appends code that has the next byte in R0.
fn byte(out: &mut Seq<AsmItem>, filling: Filling) -> Result<(), NoMemory>
    ensures ok { OnOk result (out.new.items ≡ out.old.items ++ byte_code filling) }
    ensures err { OnErr result (BeginWith out.old.items out.new.items) }
{
    match filling {
        Filling::Copied => out.extend_from_slice(&[AsmItem::Plain(Instr::LpmZPlus { d: 0 })]),
        Filling::Cleared => Ok(()),
    }
}

/// Appends code that sets the first so many bytes of an object, each by its address.
fn stores(out: &mut Seq<AsmItem>, filling: Filling, object: u16, bytes: u16) -> Result<(), NoMemory>
    ensures ok { OnOk result (out.new.items ≡ out.old.items ++ stores_code filling object bytes) }
    ensures err { OnErr result (BeginWith out.old.items out.new.items) }
{
    for offset in 0..bytes {
        byte(out, filling)?;
        out.push(AsmItem::StoreObj {
            object,
            offset: offset as u32,
            r: 0,
        })?;
    }
    Ok(())
}

/// Appends code that sets so many bytes from X on, one after another.
fn row(out: &mut Seq<AsmItem>, filling: Filling, bytes: u16) -> Result<(), NoMemory>
    ensures ok { OnOk result (out.new.items ≡ out.old.items ++ row_code filling bytes) }
    ensures err { OnErr result (BeginWith out.old.items out.new.items) }
{
    for _ in 0..bytes {
        byte(out, filling)?;
        out.push(AsmItem::Plain(Instr::StXPlus { r: 0 }))?;
    }
    Ok(())
}

/// Appends code that sets R24, or R25:R24 where the number does not fit in a byte.
fn count(out: &mut Seq<AsmItem>, turns: u16) -> Result<(), NoMemory>
    ensures ok { OnOk result (out.new.items ≡ out.old.items ++ count_code (nat_le turns 255) turns) }
    ensures err { OnErr result (BeginWith out.old.items out.new.items) }
{
    if turns <= 255 {
        out.extend_from_slice(&[AsmItem::Plain(Instr::Ldi {
            d: 24,
            k: turns as u8,
        })])
    } else {
        let low = (turns % 256) as u8;
        let high = (turns / 256) as u8;
        out.extend_from_slice(&[
            AsmItem::Plain(Instr::Ldi { d: 24, k: low }),
            AsmItem::Plain(Instr::Ldi { d: 25, k: high }),
        ])
    }
}

/// The instruction that counts down.
fn down(small: bool) -> Instr
    ensures { result ≡ down small }
{
    if small {
        Instr::Dec { d: 24 }
    } else {
        Instr::Sbiw { d: 24, k: 1 }
    }
}

/// Appends the end of a turn: the count goes down, and where it is not yet 0 the code branches back over so many words.
fn end(out: &mut Seq<AsmItem>, small: bool, words: u16) -> Result<(), NoMemory>
    requires { words ≤ 8 }
    ensures ok { OnOk result (out.new.items ≡ out.old.items ++ end_code small words) }
    ensures err { OnErr result (out.new.items ≡ out.old.items) }
{
    let back = -2 - (words as i16);
    out.extend_from_slice(&[
        AsmItem::Plain(down(small)),
        AsmItem::Plain(Instr::Brbc { s: 1, k: back }),
    ])
}

/// The words of a byte, which are its steps.
fn byte_words(filling: Filling) -> u16
    ensures is { result ≡ byte_words filling }
    ensures few { result ≤ 2 }
{
    match filling {
        Filling::Copied => 2,
        Filling::Cleared => 1,
    }
}

/// Appends a loop of so many turns, at least one, each of which sets so many bytes.
fn repeated(
    out: &mut Seq<AsmItem>,
    filling: Filling,
    bytes: u16,
    turns: u16,
) -> Result<(), NoMemory>
    requires { bytes ≤ 4 }
    ensures ok { OnOk result (out.new.items ≡ out.old.items ++ loop_code filling (nat_le turns 255) bytes turns) }
    ensures err { OnErr result (BeginWith out.old.items out.new.items) }
{
    count(out, turns)?;
    row(out, filling, bytes)?;
    end(out, turns <= 255, byte_words(filling) * bytes)
}

/// How many bytes a turn of a loop over so many bytes sets. More would take fewer steps, but the code runs once, and each
/// byte of a turn takes words.
fn bytes_a_turn(filling: Filling, bytes: u16) -> u16
    ensures is { result ≡ bytes_a_turn filling bytes }
    ensures some { 1 ≤ result }
    ensures few { result ≤ 4 }
{
    match filling {
        Filling::Copied => 2,
        Filling::Cleared if bytes % 4 < bytes % 3 => 4,
        Filling::Cleared => 3,
    }
}

/// Appends code that sets so many bytes from X on in a loop, and what is left over one after another.
fn turns(out: &mut Seq<AsmItem>, filling: Filling, bytes: u16) -> Result<(), NoMemory>
    ensures ok { OnOk result (out.new.items ≡ out.old.items ++ turns_code filling (bytes_a_turn filling bytes) bytes) }
    ensures err { OnErr result (BeginWith out.old.items out.new.items) }
{
    let one = bytes_a_turn(filling, bytes);
    repeated(out, filling, one, bytes / one)?;
    row(out, filling, bytes % one)
}

/// Appends code that sets the first so many bytes of an object by X.
fn pointed(
    out: &mut Seq<AsmItem>,
    filling: Filling,
    object: u16,
    bytes: u16,
) -> Result<(), NoMemory>
    ensures ok { OnOk result (out.new.items ≡ out.old.items ++ pointed_code filling object bytes) }
    ensures err { OnErr result (BeginWith out.old.items out.new.items) }
{
    address(out, 26, object)?;
    turns(out, filling, bytes)
}

/// As many bytes are set by their addresses.
fn most_stores(filling: Filling) -> u16
    ensures { result ≡ most_stores filling }
{
    match filling {
        Filling::Copied => 3,
        Filling::Cleared => 8,
    }
}

/// Whether R0 is clear behind the code of a span.
fn is_cleared(filling: Filling) -> bool
    ensures { result ≡ is_cleared filling }
{
    match filling {
        Filling::Copied => false,
        Filling::Cleared => true,
    }
}

/// Appends code that sets the bytes of a span, before which R0 may be clear.
fn set_span(out: &mut Seq<AsmItem>, clear: bool, span: Span) -> Result<(), NoMemory>
    ensures ok { OnOk result (out.new.items ≡ out.old.items ++ span_code clear span) }
    ensures err { OnErr result (BeginWith out.old.items out.new.items) }
{
    source(out, clear, span.filling, span.from)?;
    if span.bytes <= most_stores(span.filling) {
        stores(out, span.filling, span.to, span.bytes)
    } else {
        pointed(out, span.filling, span.to, span.bytes)
    }
}

/// Appends code that sets the bytes of all spans. R0 is cleared where a span of zeros stands first or behind a copy.
fn set_spans(out: &mut Seq<AsmItem>, spans: &[Span]) -> Result<(), NoMemory>
    ensures ok { OnOk result (out.new.items ≡ out.old.items ++ spans_code false spans.now) }
    ensures err { OnErr result (BeginWith out.old.items out.new.items) }
{
    let mut clear = false;
    for span in spans {
        set_span(out, clear, *span)?;
        clear = is_cleared(span.filling);
    }
    Ok(())
}

/// Appends code that sets the stack pointer to the last byte of the stack and the bytes of each span to their initial
/// values, calls `main`, and ends with BREAK, behind which a jump to itself stands: where no debugger is attached, BREAK
/// is passed as NOP (Microchip AVR Instruction Set Manual). Where memory runs out, a part of the code is appended.
pub fn startup(out: &mut Seq<AsmItem>, spans: &[Span], main: u64) -> Result<(), NoMemory>
    ensures ok { OnOk result (out.new.items ≡ out.old.items ++ startup_code spans.now main) }
    ensures err { OnErr result (BeginWith out.old.items out.new.items) }
{
    stack(out)?;
    set_spans(out, spans)?;
    out.extend_from_slice(&[
        AsmItem::CallTo(main),
        AsmItem::Plain(Instr::Break),
        AsmItem::Plain(Instr::Rjmp { k: -1 }),
    ])
}
