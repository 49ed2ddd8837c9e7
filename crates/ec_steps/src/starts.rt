//! The steps before `main`.
ghost use Rattle.std.specs.Prelude.{◌≡◌, ◌≤◌, All, map, length, sum_by};
ghost use Rattle.std.specs.List.{AllByRecursion};
ghost use Rattle.ec_core.specs.Layout.{AreStructs, IsObjectType};
ghost use Rattle.ec_core.specs.Plain.{plain_object, plain_program, plain_storage, plain_struct, plain_type};
ghost use Rattle.ec_core.specs.Valid.{IsObject};
ghost use Rattle.ec_build_laws.specs.Runs.{start_steps};
ghost use Rattle.ec_select.specs.LaidOut.{object_steps};
ghost use Rattle.ec_select.specs.Program.{has_initial_bytes};

use ec_core::{Obj, Program, Storage, StructDef, size_of};
use ec_space::{Home, Seq};

/// Whether an object is static and has the home data.
fn has_initial_bytes(obj: &Obj) -> bool
    ensures { result ≡ has_initial_bytes (plain_storage obj.now.storage) obj.now.home }
{
    match (&obj.storage, obj.home) {
        (Storage::Static(_), Home::Data) => true,
        _ => false,
    }
}

/// The steps that give an object its initial bytes: 40, and 20 for each byte, for a static object of the data bank.
fn object_steps(structs: &Seq<StructDef>, obj: &Obj) -> u64
    requires structs { AreStructs (map plain_struct structs.now.items) }
    requires object { IsObjectType (length structs.now.items) (plain_type obj.now.ty) }
    ensures value { result ≡ object_steps (map plain_struct structs.now.items) (plain_object obj.now) }
    ensures few { result ≤ 85_899_345_940 }
{
    if has_initial_bytes(obj) {
        40 + 20 * size_of(structs, &obj.ty) as u64
    } else {
        0
    }
}

/// The steps that give some objects their initial bytes.
fn objects_steps(structs: &Seq<StructDef>, objs: &[Obj]) -> u64
    requires structs { AreStructs (map plain_struct structs.now.items) }
    requires objects { All (λ obj. IsObjectType (length structs.now.items) (plain_type obj.ty)) objs.now }
    requires few { length objs.now ≤ 1_024 }
    ensures value { result ≡ sum_by (λ obj. object_steps (map plain_struct structs.now.items) (plain_object obj)) objs.now }
    ensures few { result ≤ 87_960_930_242_560 }
{
    let mut steps = 0;
    for obj in objs {
        steps += object_steps(structs, obj);
    }
    steps
}

/// The steps before `main`, at most.
pub(crate) fn start_steps(program: &Program) -> u64
    requires structs { AreStructs (plain_program program.now).structs }
    requires objects { AllByRecursion (IsObject (plain_program program.now)) (plain_program program.now).objects }
    requires few { length (plain_program program.now).objects ≤ 1_024 }
    ensures { result ≡ start_steps (plain_program program.now) }
{
    400 + objects_steps(&program.structs, program.objs.as_slice())
}
