//! Numbers of static objects.
ghost use Rattle.std.specs.Prelude.{◌≡◌, ◌+◌, ◌≤◌, IfOk, IfSome, Some, map as each, position, slice_get};
ghost use Rattle.ec_core.specs.ArithmeticTypes.{arithmetic_of};
ghost use Rattle.ec_core.specs.Layout.{PlainLeaf, scalar_size};
ghost use Rattle.ec_core.specs.Plain.{PlainType, plain_object, plain_program, plain_storage};
ghost use Rattle.ec_emu_watch.specs.Points.{IsWidth, is_data};
ghost use Rattle.ec_space.specs.Spaces.{bank_of};
ghost use Rattle.ec_watch_points.specs.Numbers.{IsValid, is_static, is_named, is_signed, IsPoint, HavePlaces};

use ec_core::{Arithmetic, Leaf, Obj, Program, Storage, leaves, leaves_fill_their_types};
use ec_emu_watch::WatchPoint;
use ec_space::{Bank, Name, NoMemory, Place, Seq};
use std::alloc::Global;

fn is_static(object: &Obj) -> bool
    ensures { result ≡ is_static (plain_storage object.now.storage) }
{
    match &object.storage {
        Storage::Static(_) => true,
        Storage::Local(_) | Storage::Param(_) | Storage::Register(_) => false,
    }
}

fn is_in_data(object: &Obj) -> bool
    ensures { result ≡ is_data (bank_of object.now.home) }
{
    match object.home.bank() {
        Bank::Flash => false,
        Bank::Data => true,
    }
}

/// Whether an object is an external static one of a name, in the data bank.
fn is_named(object: &Obj, name: &Name) -> bool
    ensures { result ≡ is_named name.now.items (plain_object object.now) }
{
    object.external
        && is_static(object)
        && is_in_data(object)
        && object.name.as_slice() == name.as_slice()
}

/// The first such object.
fn object_named(objects: &[Obj], name: &Name) -> Option<usize>
    ensures { result ≡ position (λ object. is_named name.now.items (plain_object object)) objects.now }
{
    objects.iter().position(|object| is_named(object, name))
}

fn is_signed(ty: Arithmetic) -> bool
    ensures { result ≡ is_signed ty }
{
    match ty {
        Arithmetic::Integer(ty) => ty.signed,
        Arithmetic::Fixed(ty) => ty.kind.format().signed,
    }
}

/// How many bytes a number of a type has.
fn bytes_of(ty: Arithmetic) -> u8
    ensures { (leaf : PlainType) → arithmetic_of leaf ≡ Some ty → result ≡ scalar_size leaf }
{
    match ty {
        Arithmetic::Integer(ty) => ty.bytes,
        Arithmetic::Fixed(ty) => ty.kind.format().bits / 8,
    }
}

/// The number that a name and the number of a leaf stand for, where the objects have these places: the leaf of the
/// external static object of that name in the data bank, if it is of integer or fixed-point type. None where there is no
/// such number.
///
/// The number has 1, 2, 4 or 8 bytes, and ends below address 65,536.
pub fn point_at(
    alloc: Global,
    program: &Program,
    places: &Seq<Place>,
    name: &Name,
    leaf: u32,
) -> Result<Option<WatchPoint>, NoMemory>
    requires valid { IsValid (plain_program program.now) }
    requires places { HavePlaces (plain_program program.now) places.now.items }
    ensures point { IfOk result (IsPoint (plain_program program.now) places.now.items name.now.items leaf) }
    ensures width { IfOk result (λ found. IfSome found (λ point. IsWidth point.bytes)) }
    ensures within { IfOk result (λ found. IfSome found (λ point. point.place.offset + point.bytes ≤ 65536)) }
{
    leaves_fill_their_types();
    let objects = program.objs.as_slice();
    let Some(number) = object_named(objects, name) else {
        return Ok(None);
    };
    let found = leaves(alloc, &program.structs, &objects[number].ty)?;
    let Some(found) = found.as_slice().get(leaf as usize) else {
        return Ok(None);
    };
    let Some(ty) = found.ty.arithmetic() else {
        return Ok(None);
    };
    let place = places.as_slice()[number];
    Ok(Some(WatchPoint {
        object: number as u16,
        leaf,
        place: Place {
            bank: Bank::Data,
            offset: place.offset + found.at,
        },
        signed: is_signed(ty),
        bytes: bytes_of(ty),
    }))
}
