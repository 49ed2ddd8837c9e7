//! Programs whose `main` returns 0: one without objects, one with the variables q, r, t in flash and s, which is not
//! external, and one with the variable f of the home far. Each is an int with an initial value.
ghost use Rattle.std.specs.Prelude.{◌≡◌, [], ◌∷◌, map, IfOk};
ghost use Rattle.ec_core.specs.Plain.{plain_type, plain_object, plain_function, plain_program};
ghost use Rattle.ec_core.specs.Typing.{int};
ghost use Rattle.ec_locate.specs.Placing.{object_sizes};
ghost use Rattle.ec_tests.specs.Samples.{variable as variable_of, variables as variables_of, main_function as main_of};
ghost use Rattle.ec_tests.specs.Samples.{program_of as program_with, sample, far_sample};

use ec_asm::{AsmItem, AsmProgram};
use ec_core::{CType, Expr, Func, LeafInit, Node, Obj, Program, Stmt, StmtKind, Storage};
use ec_fx::Mode;
use ec_isa::Instr;
use ec_space::{Home, NoMemory, Seq, SpaceId};
use std::alloc::Global;

fn int_type() -> CType
    ensures { plain_type result ≡ int }
{
    CType::Int {
        signed: true,
        bytes: 2,
    }
}

fn variable(
    alloc: Global,
    name: u8,
    external: bool,
    space: SpaceId,
    home: Home,
    value: u8,
) -> Result<Obj, NoMemory>
    ensures { IfOk result (λ o. plain_object o ≡ variable_of name external space home value) }
{
    let mut text = Seq::new(alloc);
    text.push(name)?;
    let mut values = Seq::new(alloc);
    values.push(LeafInit::Number(i128::from(value)))?;
    Ok(Obj {
        name: text,
        unit: 0,
        external,
        ty: int_type(),
        space,
        home,
        konst: false,
        storage: Storage::Static(values),
    })
}

fn variables(alloc: Global, some: bool) -> Result<Seq<Obj>, NoMemory>
    ensures { IfOk result (λ objs. map plain_object objs.items ≡ variables_of some) }
{
    let mut objs = Seq::new(alloc);
    if some {
        let q = variable(alloc, b'q', true, SpaceId::Data, Home::Data, 7)?;
        objs.push(q)?;
        let r = variable(alloc, b'r', true, SpaceId::Data, Home::Data, 8)?;
        objs.push(r)?;
        let t = variable(alloc, b't', true, SpaceId::Flash, Home::Flash, 9)?;
        objs.push(t)?;
        let s = variable(alloc, b's', false, SpaceId::Data, Home::Data, 5)?;
        objs.push(s)?;
    }
    Ok(objs)
}

/// The bytes of each variable.
pub fn sizes(some: bool) -> &'static [u32]
    ensures { result.now ≡ object_sizes (sample some) }
{
    if some { &[2, 2, 2, 2] } else { &[] }
}

/// `int main(void) { return 0; }`
fn main_function(alloc: Global) -> Func
    ensures { plain_function result ≡ main_of }
{
    let zero = Expr {
        ty: int_type(),
        mode: Mode { saturate: false },
        node: Node::Number(0),
    };
    Func {
        name: Seq::new(alloc),
        unit: 0,
        result: int_type(),
        params: Seq::new(alloc),
        body: Stmt {
            unit: 0,
            at: 0,
            kind: StmtKind::Return(Some(zero)),
        },
    }
}

/// The program with these objects.
fn program_of(alloc: Global, objs: Seq<Obj>) -> Result<Program, NoMemory>
    ensures { IfOk result (λ p. plain_program p ≡ program_with (map plain_object objs.items)) }
{
    let mut funcs = Seq::new(alloc);
    funcs.push(main_function(alloc))?;
    Ok(Program {
        structs: Seq::new(alloc),
        objs,
        funcs,
        main: 0,
    })
}

/// The program with the variables, or the one without.
pub fn program(alloc: Global, some: bool) -> Result<Program, NoMemory>
    ensures { IfOk result (λ p. plain_program p ≡ sample some) }
{
    let objs = variables(alloc, some)?;
    program_of(alloc, objs)
}

/// The program with a variable of the home far.
pub fn far_program(alloc: Global) -> Result<Program, NoMemory>
    ensures { IfOk result (λ p. plain_program p ≡ far_sample) }
{
    let mut objs = Seq::new(alloc);
    let f = variable(alloc, b'f', true, SpaceId::FarFlash, Home::Far, 3)?;
    objs.push(f)?;
    program_of(alloc, objs)
}

/// The bytes of its variable.
pub fn far_sizes() -> &'static [u32]
    ensures { result.now ≡ object_sizes far_sample }
{
    &[2]
}

/// Code that loads a byte of q and a part of the address of its initial value, behind a jump past both; or BREAK alone.
fn items(alloc: Global, some: bool) -> Result<Seq<AsmItem>, NoMemory> {
    let mut items = Seq::new(alloc);
    items.push(AsmItem::Label(0))?;
    if some {
        items.extend_from_slice(&[
            AsmItem::JumpTo(1),
            AsmItem::LoadObj {
                d: 24,
                object: 0,
                offset: 1,
            },
            AsmItem::LoadPart {
                d: 30,
                object: 2048,
                offset: 1,
                part: 0,
            },
            AsmItem::Label(1),
        ])?;
    }
    items.push(AsmItem::Plain(Instr::Break))?;
    Ok(items)
}

/// The code, and the sixteenth part of the scratch memory of `main`.
pub fn code(alloc: Global, some: bool) -> Result<AsmProgram, NoMemory>
    ensures { IfOk result (λ asm. asm.frames.items ≡ 1 ∷ []) }
{
    let items = items(alloc, some)?;
    let mut frames = Seq::new(alloc);
    frames.push(1)?;
    Ok(AsmProgram {
        items,
        frames,
        entry: 0,
    })
}
