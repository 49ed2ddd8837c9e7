//! The operations of a program.
ghost use Rattle.std.specs.Prelude.{◌≡◌, ◌∷◌, ◌++◌, length, map, OnOk, IfOk};
ghost use Rattle.ec_core.specs.Plain.{plain_function, plain_program, plain_stmt};
ghost use Rattle.ec_core.specs.Valid.{Valid};
ghost use Rattle.ec_core.specs.PortTable.{plain_table};
ghost use Rattle.ec_ir.specs.Operations.{plain_ir, label, plain_ir_function, plain_ir_program};
ghost use Rattle.ec_ir.specs.Valid.{ValidIr};
ghost use Rattle.ec_lower.specs.Emits.{IsLaidOut};
ghost use Rattle.ec_lower_code.specs.Code.{stmt_code, end_code, lowered_function, lowered};
ghost use Rattle.ec_lower_code.specs.Correct.{Follows, IsMadeOf};
ghost use Rattle.ec_lower_shapes.specs.Laws.{CountsByShapes};

use crate::copies::{copied_objects, copied_structs};
use crate::emit::put;
use crate::ends::body_returns;
use crate::extents::stmt_places;
use crate::ports::read_groups;
use crate::statements::lower_stmt;
use ec_core::{Func, Program, Stmt};
use ec_iohw::IoTable;
use ec_ir::{Ir, IrFunc, IrProgram};
use ec_lower_code::{lowered_follows, lowered_is_made_of_its_program};
use ec_lower_shapes::lowered_counts_by_shapes;
use ec_space::{NoMemory, Seq};
use std::alloc::Global;

/// Appends the operations of a body.
fn lower_body(
    code: &mut Seq<Ir>,
    alloc: Global,
    program: &Program,
    io: &IoTable,
    body: &Stmt,
) -> Result<(), NoMemory>
    requires { IsLaidOut (plain_program program.now) }
    ensures { OnOk result (map plain_ir code.new.items ≡ map plain_ir code.old.items
        ++ stmt_code (plain_program program.now) (plain_table io.now) (plain_stmt body.now) 1 0 0
        (label 0 ∷ end_code (plain_stmt body.now))) }
{
    lower_stmt(code, alloc, program, io, body, 1, 0, 0)?;
    put(code, Ir::Label(0))?;
    if body_returns(body) {
        Ok(())
    } else {
        put(code, Ir::Return(None))
    }
}

fn lower_function(
    alloc: Global,
    program: &Program,
    io: &IoTable,
    f: &Func,
) -> Result<IrFunc, NoMemory>
    requires { IsLaidOut (plain_program program.now) }
    ensures { IfOk result (λ g. plain_ir_function g
        ≡ lowered_function (plain_program program.now) (plain_table io.now) (plain_function f.now)) }
{
    let slots = stmt_places(&f.body)?;
    let mut code = Seq::new(alloc);
    lower_body(&mut code, alloc, program, io, &f.body)?;
    Ok(IrFunc { code, slots })
}

fn lower_functions(alloc: Global, program: &Program, io: &IoTable) -> Result<Seq<IrFunc>, NoMemory>
    requires { IsLaidOut (plain_program program.now) }
    ensures { IfOk result (λ funcs. map plain_ir_function funcs.items
        ≡ map (lowered_function (plain_program program.now) (plain_table io.now))
        (map plain_function program.now.funcs.items)) }
{
    let mut funcs = Seq::new(alloc);
    for f in program.funcs.as_slice() {
        let g = lower_function(alloc, program, io, f)?;
        funcs.push(g)?;
    }
    Ok(funcs)
}

/// The operations of a program whose objects have types with leaves, be it valid or not.
pub fn operations(alloc: Global, program: &Program, io: &IoTable) -> Result<IrProgram, NoMemory>
    requires { IsLaidOut (plain_program program.now) }
    ensures { IfOk result (λ ir. plain_ir_program ir ≡ lowered (plain_program program.now) (plain_table io.now)) }
{
    let funcs = lower_functions(alloc, program, io)?;
    let objs = copied_objects(alloc, program.objs.as_slice())?;
    let structs = copied_structs(alloc, program.structs.as_slice())?;
    Ok(IrProgram {
        funcs,
        objs,
        structs,
        main: program.main,
    })
}

/// The operations of a program. They reach all events that the program shows, within its work, and show no others;
/// they keep the rules of intermediate programs, and their words are within the program's weight, those by shapes within
/// its weight by shapes. Only running out of memory keeps it from an answer.
pub fn lower(alloc: Global, program: &Program, io: &IoTable) -> Result<IrProgram, NoMemory>
    requires valid { Valid (plain_program program.now) io.now }
    ensures code { IfOk result (λ ir. plain_ir_program ir ≡ lowered (plain_program program.now) (plain_table io.now)) }
    ensures follows { IfOk result (λ ir. Follows (plain_program program.now) io.now (plain_ir_program ir)) }
    ensures made { IfOk result (λ ir. IsMadeOf (plain_program program.now) io.now (plain_ir_program ir)) }
    ensures valid { IfOk result (λ ir. ValidIr (length io.now.dynamics.items) (plain_ir_program ir)) }
    ensures shapes { IfOk result (λ ir. CountsByShapes (plain_program program.now) io.now (plain_ir_program ir)) }
{
    read_groups(io);
    lowered_follows();
    lowered_is_made_of_its_program();
    lowered_counts_by_shapes();
    let ir = operations(alloc, program, io)?;
    Ok(ir)
}
