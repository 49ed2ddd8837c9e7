//! Which bytes of a program's objects can be loaded and stored by Y.
ghost use Rattle.std.specs.Prelude.{◌≡◌, All, IfOk, IfErr, length, map as each, slice_get};
ghost use Rattle.std.specs.List.{AllByRecursion};
ghost use Rattle.ec_core.specs.Layout.{AreStructs, IsObjectType};
ghost use Rattle.ec_core.specs.Plain.{plain_struct, plain_type, plain_object, plain_storage, plain_program};
ghost use Rattle.ec_core.specs.Valid.{IsObject, Valid};
ghost use Rattle.ec_map.specs.Maps.{ValidMap};
ghost use Rattle.ec_build_laws.specs.Shortened.{is_in_memory, nowhere, reach_of, reaches_from, reaches_of};
ghost use Rattle.ec_build.specs.Code.{IsCodeOf, AreReaches};

use crate::codes::outline_of;
use crate::places::placed;
use crate::stop::BuildStop;
use ec_asm::AsmProgram;
use ec_asm_based::Reach;
use ec_core::{Obj, Program, Storage, StructDef, size_of};
use ec_map::Map;
use ec_space::{Home, NoMemory, Place, Seq};
use std::alloc::Global;

/// Whether an object stands in data memory: not in flash, and not in named registers.
fn is_in_memory(obj: &Obj) -> bool
    ensures { result ≡ is_in_memory (plain_storage obj.now.storage) obj.now.home }
{
    match (&obj.storage, obj.home) {
        (Storage::Register(_), _) => false,
        (_, Home::Data) => true,
        (_, Home::Flash | Home::Far) => false,
    }
}

fn nowhere() -> Reach
    ensures { result ≡ nowhere }
{
    Reach { first: 0, bytes: 0 }
}

/// The bytes of an object in data memory from its place on, where they all have an address; none for any other.
fn reach_of(structs: &Seq<StructDef>, obj: &Obj, place: Option<Place>) -> Reach
    requires structs { AreStructs (each plain_struct structs.now.items) }
    requires object { IsObjectType (length structs.now.items) (plain_type obj.now.ty) }
    ensures { result ≡ reach_of (each plain_struct structs.now.items) (plain_object obj.now) place }
{
    let Some(place) = place else {
        return nowhere();
    };
    let bytes = size_of(structs, &obj.ty);
    let end = u64::from(place.offset) + u64::from(bytes);
    if is_in_memory(obj) && end < 65_536 {
        Reach {
            first: place.offset as u16,
            bytes: bytes as u16,
        }
    } else {
        nowhere()
    }
}

fn place_at(places: &[Place], i: usize) -> Option<Place>
    ensures { result ≡ slice_get places.now i }
{
    match places.get(i) {
        Some(place) => Some(*place),
        None => None,
    }
}

fn reaches_from(
    alloc: Global,
    structs: &Seq<StructDef>,
    objs: &[Obj],
    places: &[Place],
) -> Result<Seq<Reach>, NoMemory>
    requires structs { AreStructs (each plain_struct structs.now.items) }
    requires objects { All (λ obj. IsObjectType (length structs.now.items) (plain_type obj.ty)) objs.now }
    ensures { IfOk result (λ made. made.items
        ≡ reaches_from (each plain_struct structs.now.items) places.now 0 (each plain_object objs.now)) }
{
    let mut made = Seq::new(alloc);
    for (i, obj) in objs.iter().enumerate() {
        made.push(reach_of(structs, obj, place_at(places, i)))?;
    }
    Ok(made)
}

/// What Y reaches of the objects of a program that have these places.
pub(crate) fn reaches_of(
    alloc: Global,
    program: &Program,
    places: &[Place],
) -> Result<Seq<Reach>, NoMemory>
    requires structs { AreStructs (plain_program program.now).structs }
    requires objects { AllByRecursion (IsObject (plain_program program.now)) (plain_program program.now).objects }
    ensures { IfOk result (λ made. made.items ≡ reaches_of (plain_program program.now) places.now) }
{
    let made = reaches_from(alloc, &program.structs, program.objs.as_slice(), places)?;
    Ok(made)
}

/// What Y reaches of the objects of a program where it is placed by a map.
///
/// Where objects stand does not depend on the items of the code, so they are placed with no more than its label. Where
/// that is refused, so is the code, and nothing is reached.
pub(crate) fn reaches_by(
    alloc: Global,
    program: &Program,
    long: &AsmProgram,
    map: &Map,
) -> Result<Seq<Reach>, BuildStop>
    requires valid { Valid (plain_program program.now) map.now.io }
    requires map { ValidMap map.now }
    requires code { IsCodeOf map.now.core (plain_program program.now) map.now.io long.now }
    ensures reaches { IfOk result (λ reaches. AreReaches (plain_program program.now) map.now reaches.items) }
    ensures stopped { IfErr result (λ stop. stop ≡ BuildStop.NoMemory) }
{
    let outline = outline_of(alloc, long)?;
    match placed(alloc, program, &outline, map) {
        Ok(located) => {
            let reaches = reaches_of(alloc, program, located.places.as_slice())?;
            Ok(reaches)
        }
        Err(BuildStop::NoMemory) => Err(BuildStop::NoMemory),
        Err(_) => Ok(Seq::new(alloc)),
    }
}
