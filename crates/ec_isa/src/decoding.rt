//! The instruction of some words. The bits name the one instruction that the words may be. Whether the
//! table has it, with its fields in range and its form not left out, shows when it is encoded again.
ghost use Rattle.std.specs.Prelude.{◌≡◌, ◌↔◌, ◌<◌, ◌≤◌, ◌*◌, IsNone, IfSome};
ghost use Rattle.ec_isa.specs.declared.instructions.Instr.{Instr as Instruction};
ghost use Rattle.ec_isa.specs.Formats.{words_of};
ghost use Rattle.ec_isa.specs.Table.{row, Decodes};
ghost use Rattle.ec_isa.specs.Reading.{register as register_of, source as source_of};
ghost use Rattle.ec_isa.specs.Reading.{upper_register as upper_register_of};
ghost use Rattle.ec_isa.specs.Reading.{constant as constant_of, offset as offset_of, pair as pair_of};
ghost use Rattle.ec_isa.specs.Reading.{pair_constant as pair_constant_of, io_address as io_address_of};
ghost use Rattle.ec_isa.specs.Reading.{signed as signed_of};
ghost use Rattle.ec_isa.specs.Reading.{no_source as no_source_of, two_registers as two_registers_of};
ghost use Rattle.ec_isa.specs.Reading.{immediate as immediate_of};
ghost use Rattle.ec_isa.specs.Reading.{displacement as displacement_of, load as load_of, store as store_of};
ghost use Rattle.ec_isa.specs.Reading.{flag_or_return as flag_or_return_of, one_register as one_register_of};
ghost use Rattle.ec_isa.specs.Reading.{pair_immediate as pair_immediate_of, page_nine as page_nine_of, port as port_of};
ghost use Rattle.ec_isa.specs.Reading.{bit_or_branch as bit_or_branch_of, page_fifteen as page_fifteen_of};
ghost use Rattle.ec_isa.specs.Reading.{candidate as candidate_of};
ghost use Rattle.ec_isa.specs.Reading.{is_second as is_second_of, are_words as are_words_of, instruction_at};

use crate::encoding::words;
use crate::instructions::Instr;

/// `.... ...d dddd ....`
fn register(w: u16) -> u8
    ensures { result ≡ register_of w }
{
    (w / 16 % 32) as u8
}

/// `.... ..r. .... rrrr`
fn source(w: u16) -> u8
    ensures { result ≡ source_of w }
{
    (w / 512 % 2 * 16 + w % 16) as u8
}

/// `.... .... dddd ....`, as 16 to 31.
fn upper_register(w: u16) -> u8
    ensures { result ≡ upper_register_of w }
{
    (16 + w / 16 % 16) as u8
}

/// `.... KKKK .... KKKK`
fn constant(w: u16) -> u8
    ensures { result ≡ constant_of w }
{
    (w / 256 % 16 * 16 + w % 16) as u8
}

/// `..q. qq.. .... .qqq`
fn offset(w: u16) -> u8
    ensures { result ≡ offset_of w }
{
    (w / 8192 % 2 * 32 + w / 1024 % 4 * 8 + w % 8) as u8
}

/// `.... .... ..dd ....`, as 24, 26, 28 and 30.
fn pair(w: u16) -> u8
    ensures { result ≡ pair_of w }
{
    (24 + w / 16 % 4 * 2) as u8
}

/// `.... .... KK.. KKKK`
fn pair_constant(w: u16) -> u8
    ensures { result ≡ pair_constant_of w }
{
    (w / 64 % 4 * 16 + w % 16) as u8
}

/// `.... .AA. .... AAAA`
fn io_address(w: u16) -> u8
    ensures { result ≡ io_address_of w }
{
    (w / 512 % 4 * 16 + w % 16) as u8
}

/// The signed number that `x` stands for in a field of `2 * half` values.
fn signed(half: u16, x: u16) -> i16
    requires some { 0 < half }
    requires room { half ≤ 2048 }
    requires within { x < 2 * half }
    ensures { result ≡ signed_of half x }
{
    if x < half {
        x as i16
    } else {
        x as i16 - 2 * half as i16
    }
}

fn no_source(w: u16) -> Option<Instr>
    ensures { result ≡ no_source_of w }
{
    match w / 256 {
        0 => if w == 0 { Some(Instr::Nop) } else { None },
        _ => Some(Instr::Movw {
            d: (w / 16 % 16) as u8 * 2,
            r: (w % 16) as u8 * 2,
        }),
    }
}

fn two_registers(key: u16, d: u8, r: u8, w: u16) -> Option<Instr>
    ensures { result ≡ two_registers_of key d r w }
{
    match key {
        0 => no_source(w),
        1 => Some(Instr::Cpc { d, r }),
        2 => Some(Instr::Sbc { d, r }),
        3 => Some(Instr::Add { d, r }),
        4 => Some(Instr::Cpse { d, r }),
        5 => Some(Instr::Cp { d, r }),
        6 => Some(Instr::Sub { d, r }),
        7 => Some(Instr::Adc { d, r }),
        8 => Some(Instr::And { d, r }),
        9 => Some(Instr::Eor { d, r }),
        10 => Some(Instr::Or { d, r }),
        11 => Some(Instr::Mov { d, r }),
        _ => None,
    }
}

fn immediate(page: u16, d: u8, k: u8) -> Option<Instr>
    ensures { result ≡ immediate_of page d k }
{
    match page {
        3 => Some(Instr::Cpi { d, k }),
        4 => Some(Instr::Sbci { d, k }),
        5 => Some(Instr::Subi { d, k }),
        6 => Some(Instr::Ori { d, k }),
        7 => Some(Instr::Andi { d, k }),
        14 => Some(Instr::Ldi { d, k }),
        _ => None,
    }
}

fn displacement(store: u16, y: u16, d: u8, q: u8) -> Option<Instr>
    ensures { result ≡ displacement_of store y d q }
{
    Some(match (store, y) {
        (0, 0) => Instr::LddZ { d, q },
        (0, _) => Instr::LddY { d, q },
        (_, 0) => Instr::StdZ { q, r: d },
        (_, _) => Instr::StdY { q, r: d },
    })
}

fn load(form: u16, d: u8, next: u16) -> Option<Instr>
    ensures { result ≡ load_of form d next }
{
    match form {
        0 => Some(Instr::Lds { d, k: next }),
        1 => Some(Instr::LdZPlus { d }),
        2 => Some(Instr::LdMinusZ { d }),
        4 => Some(Instr::LpmZ { d }),
        5 => Some(Instr::LpmZPlus { d }),
        6 => Some(Instr::Elpm { d }),
        7 => Some(Instr::ElpmInc { d }),
        9 => Some(Instr::LdYPlus { d }),
        10 => Some(Instr::LdMinusY { d }),
        12 => Some(Instr::LdX { d }),
        13 => Some(Instr::LdXPlus { d }),
        14 => Some(Instr::LdMinusX { d }),
        15 => Some(Instr::Pop { d }),
        _ => None,
    }
}

fn store(form: u16, r: u8, next: u16) -> Option<Instr>
    ensures { result ≡ store_of form r next }
{
    match form {
        0 => Some(Instr::Sts { k: next, r }),
        1 => Some(Instr::StZPlus { r }),
        2 => Some(Instr::StMinusZ { r }),
        9 => Some(Instr::StYPlus { r }),
        10 => Some(Instr::StMinusY { r }),
        12 => Some(Instr::StX { r }),
        13 => Some(Instr::StXPlus { r }),
        14 => Some(Instr::StMinusX { r }),
        15 => Some(Instr::Push { r }),
        _ => None,
    }
}

/// `1001 010. .sss 1000`
fn flag_or_return(key: u16, s: u8) -> Option<Instr>
    ensures { result ≡ flag_or_return_of key s }
{
    match key {
        0 => Some(Instr::Bset { s }),
        1 => Some(Instr::Bclr { s }),
        2 => Some(Instr::Ret),
        _ => Some(Instr::Break),
    }
}

fn one_register(form: u16, d: u8, w: u16, next: u16) -> Option<Instr>
    ensures { result ≡ one_register_of form d w next }
{
    match form {
        0 => Some(Instr::Com { d }),
        1 => Some(Instr::Neg { d }),
        2 => Some(Instr::Swap { d }),
        3 => Some(Instr::Inc { d }),
        5 => Some(Instr::Asr { d }),
        6 => Some(Instr::Lsr { d }),
        7 => Some(Instr::Ror { d }),
        8 => flag_or_return(w / 128 % 4, (w / 16 % 8) as u8),
        9 => if w / 256 % 2 == 0 {
            Some(Instr::Ijmp)
        } else {
            Some(Instr::Icall)
        },
        10 => Some(Instr::Dec { d }),
        12 => Some(Instr::Jmp { k: next }),
        14 => Some(Instr::Call { k: next }),
        _ => None,
    }
}

fn pair_immediate(key: u16, d: u8, k: u8) -> Option<Instr>
    ensures { result ≡ pair_immediate_of key d k }
{
    match key {
        0 => Some(Instr::Adiw { d, k }),
        _ => Some(Instr::Sbiw { d, k }),
    }
}

/// `1001 ggg. .... ....` at the group `ggg`.
fn page_nine(group: u16, w: u16, next: u16) -> Option<Instr>
    ensures { result ≡ page_nine_of group w next }
{
    match group {
        0 => load(w % 16, register(w), next),
        1 => store(w % 16, register(w), next),
        2 => one_register(w % 16, register(w), w, next),
        3 => pair_immediate(w / 256 % 2, pair(w), pair_constant(w)),
        6.. => Some(Instr::Mul {
            d: register(w),
            r: source(w),
        }),
        _ => None,
    }
}

fn port(out: u16, d: u8, a: u8) -> Option<Instr>
    ensures { result ≡ port_of out d a }
{
    match out {
        0 => Some(Instr::In { d, a }),
        _ => Some(Instr::Out { a, r: d }),
    }
}

/// `1111 ggg. .... ....` at the group `ggg`.
fn bit_or_branch(group: u16, d: u8, b: u8, k: i16) -> Option<Instr>
    ensures { result ≡ bit_or_branch_of group d b k }
{
    match group {
        0..=1 => Some(Instr::Brbs { s: b, k }),
        2..=3 => Some(Instr::Brbc { s: b, k }),
        4 => Some(Instr::Bld { d, b }),
        5 => Some(Instr::Bst { d, b }),
        6 => Some(Instr::Sbrc { r: d, b }),
        _ => Some(Instr::Sbrs { r: d, b }),
    }
}

fn page_fifteen(w: u16) -> Option<Instr>
    ensures { result ≡ page_fifteen_of w }
{
    let k = signed(64, w / 8 % 128);
    bit_or_branch(w / 512 % 8, register(w), (w % 8) as u8, k)
}

/// The one instruction that the words may be.
fn candidate(w: u16, next: u16) -> Option<Instr>
    ensures { result ≡ candidate_of w next }
{
    let page = w / 4096;
    match page {
        0..=2 => two_registers(w / 1024, register(w), source(w), w),
        3..=7 => immediate(page, upper_register(w), constant(w)),
        8 => displacement(w / 512 % 2, w / 8 % 2, register(w), offset(w)),
        9 => page_nine(w / 512 % 8, w, next),
        10 => displacement(w / 512 % 2, w / 8 % 2, register(w), offset(w)),
        11 => port(w / 2048 % 2, register(w), io_address(w)),
        12 => Some(Instr::Rjmp {
            k: signed(2048, w % 4096),
        }),
        13 => Some(Instr::Rcall {
            k: signed(2048, w % 4096),
        }),
        14 => immediate(page, upper_register(w), constant(w)),
        15 => page_fifteen(w),
        _ => None,
    }
}

/// Whether the word is the second one of an instruction, if that has one.
fn is_second(second: Option<u16>, w1: u16) -> bool
    ensures { result ≡ is_second_of second w1 }
{
    match second {
        Some(word) => word == w1,
        None => true,
    }
}

/// Whether the table has these words for the instruction.
fn is_at(i: Instr, w0: u16, w1: u16) -> bool
    ensures { result ≡ are_words_of (words_of (row i)) w0 w1 }
{
    match words(i) {
        Some(words) => words.first == w0 && is_second(words.second, w1),
        None => false,
    }
}

/// The candidate, where the table has the words for it.
#[tactic(auto, unfolding(crate::specs::Reading::instruction_at))]
fn look_up(w0: u16, w1: u16) -> Option<Instr>
    ensures { result ≡ instruction_at w0 w1 }
{
    match candidate(w0, w1) {
        Some(i) => if is_at(i, w0, w1) { Some(i) } else { None },
        None => None,
    }
}

/// The instruction whose first word is `w0` and whose second word, if it has one, is `w1`. `None` says
/// that the table has none at these words.
pub fn decode(w0: u16, w1: u16) -> Option<Instr>
    ensures found { (i : Instruction) → ((result ≡ Some i) ↔ Decodes w0 w1 i) }
    ensures outside { IsNone result ↔ ((i : Instruction) → ¬ Decodes w0 w1 i) }
    ensures value { result ≡ instruction_at w0 w1 }

    // The fields are in range, so it may be encoded, and its words are these again.
    ensures words { IfSome result (Decodes w0 w1) }
{
    look_up(w0, w1)
}
