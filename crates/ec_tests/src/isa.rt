//! Instructions and words that no clause names: the words were worked out by hand from the bits that the
//! instruction set manual prints, and avr-objdump of GNU binutils prints these instructions for them.
use ec_isa::{Instr, decode, encode, is_in_table};

/// An instruction, its first word, and its second word or none: at least one for each row and form of
/// the table.
static ROWS: [(Instr, u16, Option<u16>); 84] = [
    (Instr::Nop, 0x0000, None),
    (Instr::Movw { d: 26, r: 8 }, 0x01D4, None),
    (Instr::Cpc { d: 5, r: 26 }, 0x065A, None),
    (Instr::Sbc { d: 26, r: 5 }, 0x09A5, None),
    (Instr::Add { d: 1, r: 18 }, 0x0E12, None),
    (Instr::Cpse { d: 18, r: 1 }, 0x1121, None),
    (Instr::Cp { d: 31, r: 8 }, 0x15F8, None),
    (Instr::Sub { d: 8, r: 31 }, 0x1A8F, None),
    (Instr::Adc { d: 21, r: 10 }, 0x1D5A, None),
    (Instr::And { d: 10, r: 21 }, 0x22A5, None),
    (Instr::Eor { d: 0, r: 16 }, 0x2600, None),
    (Instr::Or { d: 16, r: 0 }, 0x2900, None),
    (Instr::Mov { d: 2, r: 29 }, 0x2E2D, None),
    (Instr::Mul { d: 29, r: 2 }, 0x9DD2, None),
    (Instr::Mul { d: 3, r: 12 }, 0x9C3C, None),
    (Instr::Cpi { d: 17, k: 0x2D }, 0x321D, None),
    (Instr::Sbci { d: 30, k: 0xD2 }, 0x4DE2, None),
    (Instr::Subi { d: 22, k: 0x81 }, 0x5861, None),
    (Instr::Ori { d: 25, k: 0x7E }, 0x679E, None),
    (Instr::Andi { d: 16, k: 0xF0 }, 0x7F00, None),
    (Instr::Ldi { d: 31, k: 0x0F }, 0xE0FF, None),
    (Instr::Ldi { d: 24, k: 0x00 }, 0xE080, None),
    (Instr::Ldi { d: 25, k: 0x00 }, 0xE090, None),
    (Instr::LddZ { d: 19, q: 42 }, 0xA532, None),
    (Instr::LddZ { d: 12, q: 0 }, 0x80C0, None),
    (Instr::LddY { d: 6, q: 21 }, 0x886D, None),
    (Instr::StdZ { q: 53, r: 25 }, 0xAB95, None),
    (Instr::StdY { q: 10, r: 14 }, 0x86EA, None),
    (Instr::Lds { d: 20, k: 0x08FE }, 0x9140, Some(0x08FE)),
    (Instr::Sts { k: 0x0123, r: 11 }, 0x92B0, Some(0x0123)),
    (Instr::LdZPlus { d: 29 }, 0x91D1, None),
    (Instr::LdMinusZ { d: 26 }, 0x91A2, None),
    (Instr::LdYPlus { d: 31 }, 0x91F9, None),
    (Instr::LdMinusY { d: 27 }, 0x91BA, None),
    (Instr::LdX { d: 26 }, 0x91AC, None),
    (Instr::LdXPlus { d: 30 }, 0x91ED, None),
    (Instr::LdMinusX { d: 29 }, 0x91DE, None),
    (Instr::StZPlus { r: 28 }, 0x93C1, None),
    (Instr::StMinusZ { r: 27 }, 0x93B2, None),
    (Instr::StYPlus { r: 30 }, 0x93E9, None),
    (Instr::StMinusY { r: 26 }, 0x93AA, None),
    (Instr::StX { r: 27 }, 0x93BC, None),
    (Instr::StXPlus { r: 31 }, 0x93FD, None),
    (Instr::StMinusX { r: 28 }, 0x93CE, None),
    (Instr::LpmZ { d: 30 }, 0x91E4, None),
    (Instr::LpmZPlus { d: 29 }, 0x91D5, None),
    (Instr::Elpm { d: 30 }, 0x91E6, None),
    (Instr::ElpmInc { d: 29 }, 0x91D7, None),
    (Instr::Pop { d: 28 }, 0x91CF, None),
    (Instr::Push { r: 7 }, 0x927F, None),
    (Instr::Com { d: 24 }, 0x9580, None),
    (Instr::Neg { d: 9 }, 0x9491, None),
    (Instr::Swap { d: 18 }, 0x9522, None),
    (Instr::Inc { d: 23 }, 0x9573, None),
    (Instr::Asr { d: 4 }, 0x9445, None),
    (Instr::Lsr { d: 15 }, 0x94F6, None),
    (Instr::Ror { d: 27 }, 0x95B7, None),
    (Instr::Dec { d: 30 }, 0x95EA, None),
    (Instr::Bset { s: 6 }, 0x9468, None),
    (Instr::Bclr { s: 3 }, 0x94B8, None),
    (Instr::Ijmp, 0x9409, None),
    (Instr::Icall, 0x9509, None),
    (Instr::Ret, 0x9508, None),
    (Instr::Break, 0x9598, None),
    (Instr::Jmp { k: 0x3A5C }, 0x940C, Some(0x3A5C)),
    (Instr::Call { k: 0x1234 }, 0x940E, Some(0x1234)),
    (Instr::Adiw { d: 26, k: 37 }, 0x9695, None),
    (Instr::Sbiw { d: 30, k: 26 }, 0x977A, None),
    (Instr::Adiw { d: 24, k: 63 }, 0x96CF, None),
    (Instr::In { d: 13, a: 0x25 }, 0xB4D5, None),
    (Instr::Out { a: 0x1A, r: 22 }, 0xBB6A, None),
    (Instr::Rjmp { k: -2 }, 0xCFFE, None),
    (Instr::Rjmp { k: 2047 }, 0xC7FF, None),
    (Instr::Rjmp { k: -2048 }, 0xC800, None),
    (Instr::Rcall { k: 1000 }, 0xD3E8, None),
    (Instr::Rcall { k: -1 }, 0xDFFF, None),
    (Instr::Brbs { s: 1, k: -3 }, 0xF3E9, None),
    (Instr::Brbs { s: 6, k: 63 }, 0xF1FE, None),
    (Instr::Brbc { s: 4, k: -64 }, 0xF604, None),
    (Instr::Brbc { s: 0, k: 21 }, 0xF4A8, None),
    (Instr::Bld { d: 17, b: 5 }, 0xF915, None),
    (Instr::Bst { d: 8, b: 2 }, 0xFA82, None),
    (Instr::Sbrc { r: 25, b: 7 }, 0xFD97, None),
    (Instr::Sbrs { r: 3, b: 1 }, 0xFE31, None),
];

/// First words that the table does not have, whatever follows.
static OUTSIDE: [u16; 42] = [
    0x91E1, 0x91F1, // LD R30, Z+ and LD R31, Z+
    0x91E2, 0x91F2, // LD R30, -Z and LD R31, -Z
    0x91C9, 0x91D9, // LD R28, Y+ and LD R29, Y+
    0x91CA, 0x91DA, // LD R28, -Y and LD R29, -Y
    0x91AD, 0x91BD, // LD R26, X+ and LD R27, X+
    0x91AE, 0x91BE, // LD R26, -X and LD R27, -X
    0x93E1, 0x93F1, // ST Z+, R30 and ST Z+, R31
    0x93E2, 0x93F2, // ST -Z, R30 and ST -Z, R31
    0x93C9, 0x93D9, // ST Y+, R28 and ST Y+, R29
    0x93CA, 0x93DA, // ST -Y, R28 and ST -Y, R29
    0x93AD, 0x93BD, // ST X+, R26 and ST X+, R27
    0x93AE, 0x93BE, // ST -X, R26 and ST -X, R27
    0x91E5, 0x91F5, // LPM R30, Z+ and LPM R31, Z+
    0x91E7, 0x91F7, // ELPM R30, Z+ and ELPM R31, Z+
    0x940D, 0x940F, // JMP and CALL past 65,535 words
    0x0001, 0x0200, 0x0300, // no opcode, MULS, MULSU
    0x9419, 0x9518, 0x9588, 0x95A8, 0x95C8, // EIJMP, RETI, SLEEP, WDR, LPM with no register
    0x9A00, 0xFC08, 0xF808, 0xFFFF, // SBI, and opcodes that the manual reserves
];

/// Instructions with a field out of range.
static INVALID: [Instr; 12] = [
    Instr::Movw { d: 1, r: 0 },
    Instr::Movw { d: 0, r: 31 },
    Instr::Add { d: 32, r: 0 },
    Instr::Ldi { d: 15, k: 0 },
    Instr::LddY { d: 0, q: 64 },
    Instr::LdXPlus { d: 26 },
    Instr::Adiw { d: 25, k: 0 },
    Instr::In { d: 0, a: 64 },
    Instr::Rjmp { k: 2048 },
    Instr::Rcall { k: -2049 },
    Instr::Brbs { s: 0, k: 64 },
    Instr::Sbrs { r: 0, b: 8 },
];

/// Whether the words decode to an instruction that has them.
fn comes_back(first: u16, second: Option<u16>) -> bool {
    match decode(first, second.unwrap_or(0xFFFF)) {
        Some(i) => has_words(i, first, second),
        None => false,
    }
}

fn has_words(i: Instr, first: u16, second: Option<u16>) -> bool {
    if !is_in_table(i) {
        return false;
    }
    let words = encode(i);
    words.first == first && words.second == second
}

#[test]
fn encodes_and_decodes_each_row(rt: HostRuntime) {
    for (i, first, second) in &ROWS {
        let is_row = is_in_table(*i) && has_words(*i, *first, *second);
        assert!(rt;
            is_row && comes_back(*first, *second),
            "the row of {first:04X}"
        );
    }
}

#[test]
fn leaves_out_the_rest(rt: HostRuntime) {
    for w in &OUTSIDE {
        assert!(rt; decode(*w, 0).is_none(), "at {w:04X}");
    }
    for i in &INVALID {
        assert!(rt; !is_in_table(*i));
    }
}

#[test]
fn decodes_fields(rt: HostRuntime) {
    assert!(rt; matches!(decode(0xE090, 0), Some(Instr::Ldi { d: 25, k: 0 })));
    assert!(rt;
        matches!(
            decode(0x93B0, 0x0123),
            Some(Instr::Sts { k: 0x0123, r: 27 })
        )
    );
    assert!(rt; matches!(decode(0xCFFE, 0), Some(Instr::Rjmp { k: -2 })));
}
