//! Pointers in registers that are moved by a number of elements in others, which is added as it stands.
ghost use Rattle.std.specs.Prelude.{◌≡◌, ◌<◌, ◌≤◌, ◌+◌, ◌∷◌, ◌++◌, OnOk, OnErr};
ghost use Rattle.ec_runs.specs.Behaviours.{BeginWith};
ghost use Rattle.ec_asm.specs.Pieces.{HasBytes};
ghost use Rattle.ec_select_places.specs.Indexes.{is_addend, can_add, pair_code, add_product_code, byte_index_code, pairs_code};
ghost use Rattle.ec_select_places.specs.Indexes.{high_code, product_index_code, pair_index_code, add_index_code};

use ec_asm::{AsmItem, Location};
use ec_isa::Instr;
use ec_space::{NoMemory, Seq};

/// Whether an index of so many bytes is added as it stands, by its sign and the size of elements.
fn is_addend(signed: bool, bytes: u8, size: u16) -> bool
    ensures { result ≡ is_addend signed bytes size }
{
    !(bytes == 1 && signed) && 0 < size && size < 256
}

/// Whether [`add_index`] has code for an index of so many bytes, in two's complement where it is `signed`, and a pointer to
/// elements of so many bytes (`size`).
pub fn can_add(signed: bool, index: Location, pointer: Location, bytes: u8, size: u16) -> bool
    ensures { result ≡ can_add signed index pointer bytes size }
{
    match (index, pointer) {
        (Location::InRegisters(r), Location::InRegisters(d)) => {
            r != d && is_addend(signed, bytes, size)
        }
        _ => false,
    }
}

/// Appends code that adds two registers to the two bytes from register `d` on, or subtracts them.
fn add_pair(out: &mut Seq<AsmItem>, minus: bool, d: u8, low: u8, high: u8) -> Result<(), NoMemory>
    requires { d < 32 }
    ensures ok { OnOk result (out.new.items ≡ out.old.items ++ pair_code minus d low high) }
    ensures err { OnErr result (out.new.items ≡ out.old.items) }
{
    if minus {
        return out.extend_from_slice(&[
            AsmItem::Plain(Instr::Sub { d, r: low }),
            AsmItem::Plain(Instr::Sbc { d: d + 1, r: high }),
        ]);
    }
    out.extend_from_slice(&[
        AsmItem::Plain(Instr::Add { d, r: low }),
        AsmItem::Plain(Instr::Adc { d: d + 1, r: high }),
    ])
}

/// Appends code that adds the product of a register with a constant, or subtracts it.
fn add_product(out: &mut Seq<AsmItem>, minus: bool, r: u8, d: u8, size: u8) -> Result<(), NoMemory>
    requires { d < 32 }
    ensures ok { OnOk result (out.new.items ≡ out.old.items ++ add_product_code minus r d size) }
    ensures err { OnErr result (BeginWith out.old.items out.new.items) }
{
    out.extend_from_slice(&[
        AsmItem::Plain(Instr::Ldi { d: 26, k: size }),
        AsmItem::Plain(Instr::Mul { d: r, r: 26 }),
    ])?;
    add_pair(out, minus, d, 0, 1)
}

/// Appends code that adds an index of one byte, or subtracts it.
fn add_byte_index(
    out: &mut Seq<AsmItem>,
    minus: bool,
    r: u8,
    d: u8,
    size: u8,
) -> Result<(), NoMemory>
    requires { d < 32 }
    ensures ok { OnOk result (out.new.items ≡ out.old.items ++ byte_index_code minus r d size) }
    ensures err { OnErr result (BeginWith out.old.items out.new.items) }
{
    if size == 1 {
        out.extend_from_slice(&[AsmItem::Plain(Instr::Ldi { d: 26, k: 0 })])?;
        return add_pair(out, minus, d, r, 26);
    }
    add_product(out, minus, r, d, size)
}

/// Appends code that adds the low two bytes of an index so often, or subtracts them.
fn add_pairs(out: &mut Seq<AsmItem>, minus: bool, r: u8, d: u8, times: u8) -> Result<(), NoMemory>
    requires index { r < 32 }
    requires pointer { d < 32 }
    ensures ok { OnOk result (out.new.items ≡ out.old.items ++ pairs_code minus r d times) }
    ensures err { OnErr result (BeginWith out.old.items out.new.items) }
{
    for i in 0..times {
        add_pair(out, minus, d, r, r + 1)?;
    }
    Ok(())
}

/// Appends code that adds R0 to the byte above register `d`, or subtracts it, behind a product with a byte of an index.
fn add_high(out: &mut Seq<AsmItem>, minus: bool, r: u8, d: u8) -> Result<(), NoMemory>
    requires index { r < 32 }
    requires pointer { d < 32 }
    ensures ok { OnOk result (out.new.items
        ≡ out.old.items ++ (AsmItem.Plain (Instr.Mul (r + 1) 26) ∷ high_code minus d)) }
    ensures err { OnErr result (out.new.items ≡ out.old.items) }
{
    let product = AsmItem::Plain(Instr::Mul { d: r + 1, r: 26 });
    let last = if minus {
        Instr::Sub { d: d + 1, r: 0 }
    } else {
        Instr::Add { d: d + 1, r: 0 }
    };
    out.extend_from_slice(&[product, AsmItem::Plain(last)])
}

/// Appends code that adds the product of a size with the low two bytes of an index, or subtracts it.
fn add_product_index(
    out: &mut Seq<AsmItem>,
    minus: bool,
    r: u8,
    d: u8,
    size: u8,
) -> Result<(), NoMemory>
    requires index { r < 32 }
    requires pointer { d < 32 }
    ensures ok { OnOk result (out.new.items ≡ out.old.items ++ product_index_code minus r d size) }
    ensures err { OnErr result (BeginWith out.old.items out.new.items) }
{
    add_product(out, minus, r, d, size)?;
    add_high(out, minus, r, d)
}

/// Appends code that adds the low two bytes of an index, or subtracts them: once or twice, or their product with a size.
fn add_pair_index(
    out: &mut Seq<AsmItem>,
    minus: bool,
    r: u8,
    d: u8,
    size: u8,
) -> Result<(), NoMemory>
    requires index { r < 32 }
    requires pointer { d < 32 }
    ensures ok { OnOk result (out.new.items ≡ out.old.items ++ pair_index_code minus r d size) }
    ensures err { OnErr result (BeginWith out.old.items out.new.items) }
{
    if size < 3 {
        return add_pairs(out, minus, r, d, size);
    }
    add_product_index(out, minus, r, d, size)
}

/// Appends code that adds an index of so many bytes to the offset in a pointer to elements of so many bytes (`size`), or
/// subtracts it where `minus` is set, modulo 65,536, where [`can_add`] holds. A third byte stays. Where memory runs out, a
/// part of the code is appended.
pub fn add_index(
    out: &mut Seq<AsmItem>,
    minus: bool,
    index: Location,
    pointer: Location,
    bytes: u8,
    size: u16,
) -> Result<(), NoMemory>
    requires index { HasBytes index bytes }
    requires pointer { HasBytes pointer 2 }
    requires some { 1 ≤ bytes }
    requires few { size < 256 }
    ensures ok { OnOk result (out.new.items ≡ out.old.items ++ add_index_code minus index pointer bytes size) }
    ensures err { OnErr result (BeginWith out.old.items out.new.items) }
{
    match (index, pointer) {
        (Location::InRegisters(r), Location::InRegisters(d)) => {
            if bytes == 1 {
                add_byte_index(out, minus, r, d, size as u8)
            } else {
                add_pair_index(out, minus, r, d, size as u8)
            }
        }
        _ => Ok(()),
    }
}
