//! Items that leave Y as it is.
ghost use Rattle.std.specs.Prelude.{◌≡◌};
ghost use Rattle.std.specs.List.{list_all};
ghost use Rattle.ec_asm.specs.Base.{is_beside, are_beside, leaves_base};
ghost use Rattle.ec_asm_based.specs.Based.{item_leaves_base};

use ec_asm::AsmItem;
use ec_isa::Instr;

/// Whether a register is none of Y's.
fn is_beside(d: u8) -> bool
    ensures { result ≡ is_beside d }
{
    d < 28 || 30 <= d
}

/// Whether neither of two neighbouring registers is one of Y's.
fn are_beside(d: u8) -> bool
    ensures { result ≡ are_beside d }
{
    d < 27 || 30 <= d
}

/// Whether an instruction leaves Y as it is. Stores are not looked at.
fn leaves_base(instr: Instr) -> bool
    ensures { result ≡ leaves_base instr }
{
    match instr {
        Instr::Movw { d, .. } | Instr::Adiw { d, .. } | Instr::Sbiw { d, .. } => are_beside(d),
        Instr::Sbc { d, .. }
        | Instr::Add { d, .. }
        | Instr::Sub { d, .. }
        | Instr::Adc { d, .. }
        | Instr::And { d, .. }
        | Instr::Eor { d, .. }
        | Instr::Or { d, .. }
        | Instr::Mov { d, .. }
        | Instr::Sbci { d, .. }
        | Instr::Subi { d, .. }
        | Instr::Ori { d, .. }
        | Instr::Andi { d, .. }
        | Instr::Ldi { d, .. }
        | Instr::LddZ { d, .. }
        | Instr::LddY { d, .. }
        | Instr::Lds { d, .. }
        | Instr::LdZPlus { d }
        | Instr::LdMinusZ { d }
        | Instr::LdX { d }
        | Instr::LdXPlus { d }
        | Instr::LdMinusX { d }
        | Instr::LpmZ { d }
        | Instr::LpmZPlus { d }
        | Instr::Elpm { d }
        | Instr::ElpmInc { d }
        | Instr::Pop { d }
        | Instr::Com { d }
        | Instr::Neg { d }
        | Instr::Swap { d }
        | Instr::Inc { d }
        | Instr::Asr { d }
        | Instr::Lsr { d }
        | Instr::Ror { d }
        | Instr::Dec { d }
        | Instr::In { d, .. }
        | Instr::Bld { d, .. } => is_beside(d),
        Instr::LdYPlus { .. }
        | Instr::LdMinusY { .. }
        | Instr::StYPlus { .. }
        | Instr::StMinusY { .. } => false,
        // What compares, or multiplies into R1:R0.
        Instr::Cpc { .. }
        | Instr::Cpse { .. }
        | Instr::Cp { .. }
        | Instr::Mul { .. }
        | Instr::Cpi { .. } => true,
        // What stores.
        Instr::StdZ { .. }
        | Instr::StdY { .. }
        | Instr::Sts { .. }
        | Instr::StZPlus { .. }
        | Instr::StMinusZ { .. }
        | Instr::StX { .. }
        | Instr::StXPlus { .. }
        | Instr::StMinusX { .. }
        | Instr::Push { .. }
        | Instr::Out { .. } => true,
        // What changes flags, or looks at a bit.
        Instr::Bset { .. }
        | Instr::Bclr { .. }
        | Instr::Bst { .. }
        | Instr::Sbrc { .. }
        | Instr::Sbrs { .. } => true,
        // What goes elsewhere.
        Instr::Jmp { .. }
        | Instr::Call { .. }
        | Instr::Rjmp { .. }
        | Instr::Rcall { .. }
        | Instr::Brbs { .. }
        | Instr::Brbc { .. } => true,
        Instr::Nop | Instr::Ijmp | Instr::Icall | Instr::Ret | Instr::Break => true,
    }
}

/// Whether the instructions that an item stands for leave Y as it is.
pub(crate) fn item_leaves_base(item: AsmItem) -> bool
    ensures { result ≡ item_leaves_base item }
{
    match item {
        AsmItem::Plain(instr) => leaves_base(instr),
        AsmItem::LoadPart { d, .. } | AsmItem::LoadObj { d, .. } => is_beside(d),
        _ => true,
    }
}

/// Whether those of all items do.
pub(crate) fn all_leave_base(items: &[AsmItem]) -> bool
    ensures { result ≡ list_all item_leaves_base items.now }
{
    items.iter().all(|item| item_leaves_base(*item))
}
