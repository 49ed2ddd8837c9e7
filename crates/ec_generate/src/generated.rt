//! The text of a generated program, and the map by which it is placed.
ghost use Rattle.std.specs.Prelude.{◌≡◌, ◌≤◌, ◌%◌, ◌++◌, IfOk, OnOk, length};
ghost use Rattle.std.specs.Fmt.{decimal};
ghost use Rattle.ec_generate.specs.Generated.{comma_behind, table_values, table_line, loop_line, generated};
ghost use Rattle.ec_generate.specs.Generated.{table_name, table_start, table_end, loop_start, loop_end};
ghost use Rattle.ec_generate.specs.Generated.{include_line, first_lines, last_lines, map_text};

use ec_space::{NoMemory, Seq};
use itoa::Buffer;
use std::alloc::Global;

fn number(text: &mut Seq<u8>, n: u16) -> Result<(), NoMemory>
    ensures { OnOk result (text.new.items ≡ text.old.items ++ decimal n) }
{
    let mut digits = Buffer::new();
    text.extend_from_slice(digits.format(n).as_bytes())
}

fn value(text: &mut Seq<u8>, i: u16) -> Result<(), NoMemory>
    ensures { OnOk result (text.new.items ≡ text.old.items ++ (comma_behind i ++ decimal (i % 10))) }
{
    if i != 0 {
        text.push(b',')?;
    }
    number(text, i % 10)
}

fn values(text: &mut Seq<u8>, n: u16) -> Result<(), NoMemory>
    ensures { OnOk result (text.new.items ≡ text.old.items ++ table_values n) }
{
    for i in 0..n {
        value(text, i)?;
    }
    Ok(())
}

fn table_name(text: &mut Seq<u8>) -> Result<(), NoMemory>
    ensures { OnOk result (text.new.items ≡ text.old.items ++ table_name) }
{
    text.extend_from_slice(b"const __flash int t[")
}

fn table_start(text: &mut Seq<u8>) -> Result<(), NoMemory>
    ensures { OnOk result (text.new.items ≡ text.old.items ++ table_start) }
{
    text.extend_from_slice(b"] = {")
}

fn table_end(text: &mut Seq<u8>) -> Result<(), NoMemory>
    ensures { OnOk result (text.new.items ≡ text.old.items ++ table_end) }
{
    text.extend_from_slice(b"};\n")
}

fn table(text: &mut Seq<u8>, n: u16) -> Result<(), NoMemory>
    ensures { OnOk result (text.new.items ≡ text.old.items ++ table_line n) }
{
    table_name(text)?;
    number(text, n)?;
    table_start(text)?;
    values(text, n)?;
    table_end(text)
}

fn loop_start(text: &mut Seq<u8>) -> Result<(), NoMemory>
    ensures { OnOk result (text.new.items ≡ text.old.items ++ loop_start) }
{
    text.extend_from_slice(b"  for (i = 0; i < ")
}

fn loop_end(text: &mut Seq<u8>) -> Result<(), NoMemory>
    ensures { OnOk result (text.new.items ≡ text.old.items ++ loop_end) }
{
    text.extend_from_slice(b"; i = i + 1) {\n")
}

fn loop_head(text: &mut Seq<u8>, n: u16) -> Result<(), NoMemory>
    ensures { OnOk result (text.new.items ≡ text.old.items ++ loop_line n) }
{
    loop_start(text)?;
    number(text, n)?;
    loop_end(text)
}

fn include(text: &mut Seq<u8>) -> Result<(), NoMemory>
    ensures { OnOk result (text.new.items ≡ text.old.items ++ include_line) }
{
    text.extend_from_slice(b"#include <iohw.h>\n")
}

fn first(text: &mut Seq<u8>) -> Result<(), NoMemory>
    ensures { OnOk result (text.new.items ≡ text.old.items ++ first_lines) }
{
    text.extend_from_slice(b"int main(void) {\n  int i;\n  int s = 0;\n  _Sat _Fract f = 0.0r;\n")
}

fn last(text: &mut Seq<u8>) -> Result<(), NoMemory>
    ensures { OnOk result (text.new.items ≡ text.old.items ++ last_lines) }
{
    text.extend_from_slice(
        b"    s = s + t[i];\n    f = f + 0.01r;\n    iowr(LED, s);\n  }\n  return s + (int)((_Accum)f << 6);\n}\n",
    )
}

fn program(alloc: Global, n: u16) -> Result<Seq<u8>, NoMemory>
    ensures { IfOk result (λ text. text.items ≡ generated n) }
{
    let mut text = Seq::new(alloc);
    include(&mut text)?;
    table(&mut text, n)?;
    first(&mut text)?;
    loop_head(&mut text, n)?;
    last(&mut text)?;
    Ok(text)
}

/// The text of the generated program for a number of table entries: it adds them up, writes each sum to the port LED,
/// and returns the last one with 64 times the number of entries in hundredths, but at most 63, added.
pub fn generate(alloc: Global, n: u16) -> Result<Seq<u8>, NoMemory>
    requires some { 1 ≤ n }
    requires most { n ≤ 2_000 }
    ensures text { IfOk result (λ text. text.items ≡ generated n) }
    ensures short { IfOk result (λ text. length text.items ≤ 65_536) }
{
    let text = program(alloc, n)?;
    Ok(text)
}

fn map(alloc: Global) -> Result<Seq<u8>, NoMemory>
    ensures { IfOk result (λ text. text.items ≡ map_text) }
{
    let mut text = Seq::new(alloc);
    text.extend_from_slice(
        b"core = \"small\"\n[region]\ncode = [0, 28672]\ntables = [28672, 4096]\ndata = [256, 1792]\nstack = [2048, 256]\n",
    )?;
    text.extend_from_slice(b"[[port]]\nname = \"LED\"\naddress = 0x25\nwidth = 1\n")?;
    text.extend_from_slice(
        b"[[port]]\nname = \"SAMPLE\"\naddress = 0x79\nwidth = 1\ngroup = \"ADC\"\n",
    )?;
    text.extend_from_slice(b"[[port]]\nname = \"T\"\naddress = 0x84\nwidth = 2\n")?;
    text.extend_from_slice(
        b"[[group]]\nname = \"ADC\"\nacquire = [[0x7A, 0x80]]\nrelease = [[0x7A, 0x00]]\n",
    )?;
    Ok(text)
}

/// The text of the map by which generated programs are placed: the regions of an ATmega328P, the ports LED, SAMPLE and
/// T, and the group ADC.
pub fn map_text(alloc: Global) -> Result<Seq<u8>, NoMemory>
    ensures text { IfOk result (λ text. text.items ≡ map_text) }
    ensures short { IfOk result (λ text. length text.items ≤ 16_384) }
{
    let text = map(alloc)?;
    Ok(text)
}
