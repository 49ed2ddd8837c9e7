//! The operations of a program whose code may stand once, with the words of their code for a core.
ghost use Rattle.std.specs.Prelude.{◌≡◌, ◌++◌, true, map, length, IfOk, OnOk, Some, slice_get};
ghost use Rattle.ec_asm.specs.Items.{code_words};
ghost use Rattle.ec_ir.specs.Operations.{plain_ir, plain_ir_function, plain_ir_program};
ghost use Rattle.ec_select_live.specs.Tables.{needs_of};
ghost use Rattle.ec_select_operations.specs.Code.{called_code};
ghost use Rattle.ec_select_operations.specs.Emitted.{declarations, CanBeEmitted, CanBeCalled};
ghost use Rattle.ec_select_operations.specs.Homes.{home};
ghost use Rattle.ec_select.specs.Seen.{plain_use, tables_in, CanBeUsed, CanBeUses};
ghost use Rattle.ec_select.specs.Selected.{ValidWithCells, HasCode};
ghost use Rattle.ec_select.specs.Sharing.{alone, is_shaped, own_items, used_items, use_of, uses_in, uses_of};
ghost use Rattle.ec_select.specs.Sharing.{function_uses, program_uses};

use crate::labels::homes_of;
use crate::shapes::is_shaped;
use ec_asm::{AsmItem, code_words};
use ec_core::leaves_fill_their_types;
use ec_ir::{Ir, IrFunc, IrProgram};
use ec_ir_known::{RightNumber, right_numbers};
use ec_select_live::{LabelNeeds, valid_operations_have_places, wanted};
use ec_select_operations::{Flags, Homes, Linking, called, has_tables, operation, takes_count};
use ec_space::{Core, NoMemory, Seq, push};
use std::alloc::Global;

/// An operation whose code may stand once: the words of code of its own where it stands, and of what stands there beside a
/// routine.
#[derive(Clone, Copy)]
pub(crate) struct Use<'a> {
    pub operation: &'a Ir,
    pub own: u64,
    pub call: u64,
}

/// The words of some items.
pub(crate) fn words_of(items: &Seq<AsmItem>) -> Result<u64, NoMemory>
    ensures { IfOk result (λ n. n ≡ code_words items.now.items) }
{
    if items.len() >= 0x1_0000_0000 {
        return Err(NoMemory);
    }
    Ok(code_words(items.as_slice()))
}

fn alone(core: Core, homes: Homes) -> Linking
    ensures { result ≡ alone core homes }
{
    Linking {
        core,
        first_label: 0,
        first_entry: 1,
        homes,
        slots: 0,
        is_main: false,
    }
}

/// The words of an operation's own code, where so many bytes of its result are wanted, and its second operand may be
/// known to hold a number.
fn own_words(
    alloc: Global,
    ir: &IrProgram,
    core: Core,
    homes: Homes,
    known: Option<RightNumber>,
    wanted: u8,
    i: &Ir,
) -> Result<u64, NoMemory>
    requires { CanBeEmitted (declarations ir.now) (alone core homes) wanted (plain_ir i.now) }
    ensures { IfOk result (λ n. n ≡ code_words (own_items core (declarations ir.now) homes known wanted (plain_ir i.now))) }
{
    let mut items = Seq::new(alloc);
    let flags = Flags {
        told: None,
        telling: None,
    };
    operation(
        &mut items,
        ir,
        alone(core, homes),
        flags,
        known,
        wanted,
        &[],
        i,
    )?;
    words_of(&items)
}

/// Those of a call of its routine.
fn call_words(alloc: Global, homes: Homes, wanted: u8, i: &Ir) -> Result<u64, NoMemory>
    requires { CanBeCalled wanted (plain_ir i.now) }
    ensures { IfOk result (λ n. n ≡ code_words (called_code (home homes) 0 wanted (plain_ir i.now))) }
{
    let mut items = Seq::new(alloc);
    called(&mut items, homes, 0, wanted, i)?;
    words_of(&items)
}

/// Those of what stands there beside a routine: of a call, but of a shift by a known count its own code, of so many words.
fn used_words(
    alloc: Global,
    ir: &IrProgram,
    core: Core,
    homes: Homes,
    known: Option<RightNumber>,
    wanted: u8,
    own: u64,
    i: &Ir,
) -> Result<u64, NoMemory>
    requires call { CanBeCalled wanted (plain_ir i.now) }
    requires own { own ≡ code_words (own_items core (declarations ir.now) homes known wanted (plain_ir i.now)) }
    ensures { IfOk result (λ n. n ≡ code_words (used_items core (declarations ir.now) homes known wanted (plain_ir i.now))) }
{
    if takes_count(known, i) {
        Ok(own)
    } else {
        call_words(alloc, homes, wanted, i)
    }
}

fn use_of<'a>(
    alloc: Global,
    ir: &IrProgram,
    core: Core,
    homes: Homes,
    known: Option<RightNumber>,
    wanted: u8,
    i: &'a Ir,
) -> Result<Use<'a>, NoMemory>
    requires shaped { is_shaped (plain_ir i.now) ≡ true }
    requires each { CanBeUsed core (declarations ir.now) homes wanted (plain_ir i.now) }
    ensures { IfOk result (λ u. plain_use u ≡ use_of core (declarations ir.now) homes known wanted (plain_ir i.now)) }
{
    let own = own_words(alloc, ir, core, homes, known, wanted, i)?;
    Ok(Use {
        operation: i,
        own,
        call: used_words(alloc, ir, core, homes, known, wanted, own, i)?,
    })
}

/// Appends the use that an operation is, if its code may stand once.
fn add_use<'a>(
    alloc: Global,
    uses: &mut Vec<Use<'a>>,
    ir: &IrProgram,
    core: Core,
    homes: Homes,
    known: Option<RightNumber>,
    wanted: u8,
    i: &'a Ir,
) -> Result<(), NoMemory>
    requires { CanBeUsed core (declarations ir.now) homes wanted (plain_ir i.now) }
    ensures { OnOk result (map plain_use uses.new.items ≡ map plain_use uses.old.items
        ++ uses_of core (declarations ir.now) homes known wanted (plain_ir i.now)) }
{
    if is_shaped(i) {
        let u = use_of(alloc, ir, core, homes, known, wanted, i)?;
        return push(uses, u);
    }
    Ok(())
}

/// Appends the uses in the code of a function, where numbers tell how many bytes are wanted of each result, and what each
/// second operand is known to hold.
fn add_uses<'a>(
    alloc: Global,
    uses: &mut Vec<Use<'a>>,
    ir: &IrProgram,
    core: Core,
    homes: Homes,
    wanted: &[u8],
    known: &[Option<RightNumber>],
    code: &'a [Ir],
) -> Result<(), NoMemory>
    requires numbers { length code.now ≡ length wanted.now }
    requires known { length code.now ≡ length known.now }
    requires each { CanBeUses core (declarations ir.now) homes wanted.now (map plain_ir code.now) }
    ensures { OnOk result (map plain_use uses.new.items ≡ map plain_use uses.old.items
        ++ uses_in core (declarations ir.now) homes wanted.now known.now (map plain_ir code.now)) }
{
    for k in 0..code.len() {
        add_use(alloc, uses, ir, core, homes, known[k], wanted[k], &code[k])?;
    }
    Ok(())
}

/// Appends those of the function with a number.
fn add_function_uses<'a>(
    alloc: Global,
    uses: &mut Vec<Use<'a>>,
    ir: &IrProgram,
    core: Core,
    f: u16,
    g: &'a IrFunc,
    table: &LabelNeeds,
) -> Result<(), NoMemory>
    requires valid { ValidWithCells (plain_ir_program ir.now) }
    requires code { HasCode (plain_ir_program ir.now) }
    requires is { slice_get (plain_ir_program ir.now).functions f ≡ Some (plain_ir_function g.now) }
    ensures { OnOk result (map plain_use uses.new.items ≡ map plain_use uses.old.items
        ++ function_uses core (plain_ir_program ir.now) (needs_of table.now) f (plain_ir_function g.now)) }
{
    leaves_fill_their_types();
    valid_operations_have_places();
    let known = right_numbers(alloc, &g.code, g.slots)?;
    let numbers: &[Option<RightNumber>] = &known;
    let in_flash = has_tables(ir);
    let bytes = wanted(alloc, table, in_flash, &g.code, numbers, g.slots)?;
    let code = g.code.as_slice();
    add_uses(
        alloc,
        uses,
        ir,
        core,
        homes_of(f, code),
        &bytes,
        numbers,
        code,
    )?;
    Ok(())
}

/// The uses in a program, by tables of what is needed at the labels of its functions.
pub(crate) fn uses_of<'a>(
    alloc: Global,
    ir: &'a IrProgram,
    core: Core,
    tables: &[LabelNeeds],
) -> Result<Vec<Use<'a>>, NoMemory>
    requires valid { ValidWithCells (plain_ir_program ir.now) }
    requires code { HasCode (plain_ir_program ir.now) }
    requires tables { length tables.now ≡ length ir.now.funcs.items }
    ensures { IfOk result (λ uses. map plain_use uses.items
        ≡ program_uses core (plain_ir_program ir.now) (tables_in tables.now)) }
{
    let mut uses = Vec::new(alloc);
    for (f, g) in ir.funcs.as_slice().iter().enumerate() {
        add_function_uses(alloc, &mut uses, ir, core, f as u16, g, &tables[f])?;
    }
    Ok(uses)
}
