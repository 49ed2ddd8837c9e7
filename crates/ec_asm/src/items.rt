//! Items of code, and the programs that they make.
ghost use Rattle.std.specs.Prelude.{◌≡◌, ◌<◌, ◌^◌, length};
ghost use Rattle.ec_asm.specs.Items.{item_words, code_words};

use crate::instructions::words;
use ec_isa::Instr;
use ec_space::Seq;

/// An item of code: an instruction, a label, or an instruction that refers to a label or to a byte of an object.
///
/// Labels and objects are numbers, and it is told later at which word a label stands and at which address an object. An
/// `object` below 1,024 is an object of the program. 1,024 + f is the scratch memory of function f. 1,280 is the work
/// bytes, and 1,281 is the last byte of the stack. 2,048 + o is the initial bytes of object o in flash, with the size
/// of o; for an o that has none it names the first byte of their region.
#[derive(Clone, Copy)]
pub enum AsmItem {
    /// An instruction as it stands.
    Plain(Instr),
    /// The place of a label. It has no words.
    Label(u64),
    /// JMP to a label, in two words.
    JumpTo(u64),
    /// CALL of a label, in two words.
    CallTo(u64),
    /// A jump to a label where a flag of SREG is 1 (`set`) or 0, in three words: the opposite branch over a JMP.
    BranchTo {
        set: bool,
        flag: u8,
        label: u64,
    },
    /// LDI of byte `part` of the address of a byte of an object, 0 the lowest. `d` is from 16 to 31, `part` from 0 to
    /// 2. Bytes 0 and 1 are those of the address modulo 65,536, and byte 2 is that of the whole address.
    LoadPart {
        d: u8,
        object: u16,
        offset: u32,
        part: u8,
    },
    /// LDS of a byte of an object, in two words. The address is taken modulo 65,536.
    LoadObj {
        d: u8,
        object: u16,
        offset: u32,
    },
    /// STS to a byte of an object, in two words. The address is taken modulo 65,536.
    StoreObj {
        object: u16,
        offset: u32,
        r: u8,
    },
}

/// The bytes from offset `at` of an object, by the numbers of [`AsmItem`].
#[derive(Clone, Copy)]
pub struct Slot {
    pub object: u16,
    pub at: u32,
    pub bytes: u8,
}

/// The code of a program.
#[derive(Drop)]
pub struct AsmProgram {
    pub items: Seq<AsmItem>,
    /// For each function the sixteenth part of the bytes of its scratch memory.
    pub frames: Seq<u16>,
    /// The label of the first instruction.
    pub entry: u64,
}

/// The words of an item, which do not depend on where it stands.
pub fn item_words(item: AsmItem) -> u8
    ensures { result ≡ item_words item }
{
    match item {
        AsmItem::Plain(instr) => words(instr),
        AsmItem::Label(_) => 0,
        AsmItem::BranchTo { .. } => 3,
        AsmItem::LoadPart { .. } => 1,
        _ => 2,
    }
}

/// The words of several items.
pub fn code_words(items: &[AsmItem]) -> u64
    requires { length items.now < 2 ^ 32 }
    ensures { result ≡ code_words items.now }
{
    let mut sum = 0u64;
    for item in items {
        sum += u64::from(item_words(*item));
    }
    sum
}
