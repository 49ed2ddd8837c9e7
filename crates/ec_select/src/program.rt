//! The code of a program.
ghost use Rattle.std.specs.Prelude.{◌≡◌, ◌≤◌, ◌+◌, map, IfOk};
ghost use Rattle.ec_asm.specs.Items.{code_words};
ghost use Rattle.ec_core.specs.Weight.{objects_weight};
ghost use Rattle.ec_core.specs.Words.{program_words};
ghost use Rattle.ec_ir.specs.Costs.{functions_words};
ghost use Rattle.ec_ir.specs.Operations.{plain_ir_program};
ghost use Rattle.ec_ir_shapes.specs.Costs.{functions_words_by_shapes};
ghost use Rattle.ec_select.specs.InPlace.{AreInPlace};
ghost use Rattle.ec_select.specs.Laws.{CanBePlaced};
ghost use Rattle.ec_select.specs.Selected.{ValidWithCells, HasCode, IsSelection};

use crate::functions::add_code;
use crate::laws::{selections_are_valid, selections_have_words};
use crate::spans::spans_of;
use ec_asm::{AsmItem, AsmProgram};
use ec_ir::IrProgram;
use ec_select_startup::startup;
use ec_space::{Core, NoMemory, Seq};
use std::alloc::Global;

/// For each function the places of its temporaries.
fn frames_of(alloc: Global, ir: &IrProgram) -> Result<Seq<u16>, NoMemory>
    ensures { IfOk result (λ frames. frames.items ≡ map (λ g. g.slots) (plain_ir_program ir.now).functions) }
{
    let mut frames = Seq::new(alloc);
    for g in ir.funcs.as_slice() {
        frames.push(g.slots)?;
    }
    Ok(frames)
}

/// The code of a program whose operations all have code, for a core: what runs before `main`, behind it each function,
/// and the routines that they call.
///
/// It can be placed, with the sizes of the program's objects and 64 work bytes, behind which is one for each cell. Where
/// operators have their results in place, it has at most the words of the rows of the program and its objects and those
/// that the operations may take, counted by shapes; and never more than where each counts by itself. Or the answer is
/// that memory ran out.
pub fn select(alloc: Global, ir: &IrProgram, core: Core) -> Result<AsmProgram, NoMemory>
    requires valid { ValidWithCells (plain_ir_program ir.now) }
    requires code { HasCode (plain_ir_program ir.now) }
    ensures code { IfOk result (λ asm. IsSelection core (plain_ir_program ir.now) asm) }
    ensures valid { IfOk result (λ asm. CanBePlaced (plain_ir_program ir.now) asm) }
    ensures words { AreInPlace (plain_ir_program ir.now) → IfOk result (λ asm. code_words asm.items.items
        ≤ program_words + objects_weight (plain_ir_program ir.now).objects
        + functions_words_by_shapes (plain_ir_program ir.now).functions) }
    ensures alone { AreInPlace (plain_ir_program ir.now) → IfOk result (λ asm. code_words asm.items.items
        ≤ program_words + objects_weight (plain_ir_program ir.now).objects
        + functions_words (plain_ir_program ir.now).functions) }
{
    selections_are_valid();
    selections_have_words();
    let mut items = Seq::new(alloc);
    items.push(AsmItem::Label(0))?;
    let spans = spans_of(alloc, ir)?;
    startup(&mut items, spans.as_slice(), 1 + u64::from(ir.main))?;
    add_code(alloc, &mut items, ir, core)?;
    let frames = frames_of(alloc, ir)?;
    Ok(AsmProgram {
        items,
        frames,
        entry: 0,
    })
}
