//! The contents of the flash: the initial values of static objects, and the code.
ghost use Rattle.std.specs.Prelude.{◌≡◌, ◌<◌, ◌≤◌, ◌^◌, ◌++◌, IsTrue, All, IfOk, OnOk, length, map};
ghost use Rattle.std.specs.Prelude.{[], true};
ghost use Rattle.std.specs.List.{AllByRecursion};
ghost use Rattle.std.specs.Option.{option_copied};
ghost use Rattle.ec_space.specs.Bytes.{little_endian};
ghost use Rattle.ec_asm.specs.Items.{code_words};
ghost use Rattle.ec_core.specs.Layout.{AreStructs, IsObjectType, PlainLeaf, plain_leaf, scalar_size, leaves_of_type};
ghost use Rattle.ec_core.specs.Plain.{plain_struct, plain_type, plain_object, plain_storage, plain_program};
ghost use Rattle.ec_locate.specs.Code.{layout_view, has_words};
ghost use Rattle.ec_locate.specs.Image.{flash_of, space_of, value_number, value_bytes, leaf_bytes};
ghost use Rattle.ec_locate.specs.Image.{object_bytes, with_bytes, values_at, with_values, with_objects};
ghost use Rattle.ec_locate.specs.Image.{image as image_of};

use crate::code::{code_of, number_at, write_from};
use crate::layout::Layout;
use crate::values::{init_at, pointer_to};
use ec_asm::AsmItem;
use ec_avr::Image;
use ec_core::{CType, Leaf, LeafInit, Obj, Program, Storage, StructDef, leaves};
use ec_space::{Core, Home, NoMemory, Place, Seq, SpaceId};
use std::alloc::Global;

/// The bytes of a scalar type.
fn scalar_size(ty: &CType) -> u32
    ensures { result ≡ scalar_size (plain_type ty.now) }
{
    match ty {
        CType::Int { bytes, .. } => u32::from(*bytes),
        CType::Fx { kind, .. } => u32::from(kind.format().bits) / 8,
        CType::Ptr { space, .. } => match space {
            SpaceId::Flash | SpaceId::Data => 2,
            SpaceId::FarFlash | SpaceId::Generic => 3,
        },
        CType::Void | CType::Array { .. } | CType::Struct { .. } => 0,
    }
}

/// The space of a pointer type.
fn space_of(ty: &CType) -> SpaceId
    ensures { result ≡ space_of (plain_type ty.now) }
{
    match ty {
        CType::Ptr { space, .. } => *space,
        _ => SpaceId::Generic,
    }
}

/// The number that the bytes of an initial value make.
fn value_number(places: &[Place], ty: &CType, init: &LeafInit) -> u128
    ensures { result ≡ value_number places.now (plain_type ty.now) init.now }
{
    match init {
        LeafInit::Number(number) => number.cast_unsigned(),
        LeafInit::Null => 0,
        LeafInit::Address { object, offset } => {
            let place = places.get(usize::from(*object)).copied();
            pointer_to(space_of(ty), place, *offset)
        }
    }
}

/// Appends the lowest bytes of a number, the lowest first.
fn put_number(out: &mut Seq<u8>, size: u32, number: u128) -> Result<(), NoMemory>
    ensures { OnOk result (out.new.items ≡ out.old.items ++ little_endian size number) }
{
    let mut rest = number;
    for _i in 0..size {
        out.push((rest % 256) as u8)?;
        rest /= 256;
    }
    Ok(())
}

/// Appends the bytes of an initial value, where there is one.
fn put_value(
    out: &mut Seq<u8>,
    places: &[Place],
    ty: &CType,
    init: Option<&LeafInit>,
) -> Result<(), NoMemory>
    ensures { OnOk result (out.new.items ≡ out.old.items
        ++ value_bytes places.now (plain_type ty.now) (option_copied init.entry)) }
{
    match init {
        Some(init) => put_number(out, scalar_size(ty), value_number(places, ty, init)),
        None => Ok(()),
    }
}

/// The initial values of leaves, one after another.
fn leaf_bytes(
    alloc: Global,
    places: &[Place],
    leaves: &[Leaf],
    inits: &[LeafInit],
) -> Result<Seq<u8>, NoMemory>
    ensures { IfOk result (λ out. out.items ≡ leaf_bytes places.now 0 (map plain_leaf leaves.now) inits.now) }
{
    let mut out = Seq::new(alloc);
    for (i, leaf) in leaves.iter().enumerate() {
        put_value(&mut out, places, &leaf.ty, init_at(inits, i))?;
    }
    Ok(out)
}

/// The initial values of an object.
fn object_bytes(
    alloc: Global,
    places: &[Place],
    structs: &Seq<StructDef>,
    ty: &CType,
    inits: &[LeafInit],
) -> Result<Seq<u8>, NoMemory>
    requires structs { AreStructs (map plain_struct structs.now.items) }
    requires object { IsObjectType (length structs.now.items) (plain_type ty.now) }
    ensures { IfOk result (λ out. out.items
        ≡ object_bytes places.now (map plain_struct structs.now.items) (plain_type ty.now) inits.now) }
{
    let leaves = leaves(alloc, structs, ty)?;
    let bytes = leaf_bytes(alloc, places, leaves.as_slice(), inits)?;
    Ok(bytes)
}

/// The flash address of the initial values of an object.
fn values_at(layout: &Layout, i: usize, home: Home) -> u32
    ensures { result ≡ values_at (layout_view layout.now) i home }
{
    match home {
        Home::Flash | Home::Far => match layout.places.get(i) {
            Some(place) => place.offset,
            None => 0,
        },
        Home::Data => number_at(layout.initials.as_slice(), i),
    }
}

/// Writes the initial values of an object, where it is static.
fn write_values(
    alloc: Global,
    image: &mut Image,
    structs: &Seq<StructDef>,
    layout: &Layout,
    i: usize,
    obj: &Obj,
) -> Result<(), NoMemory>
    requires structs { AreStructs (map plain_struct structs.now.items) }
    requires object { IsObjectType (length structs.now.items) (plain_type obj.now.ty) }
    ensures core { image.new.core ≡ image.old.core }
    ensures flash { OnOk result (flash_of image.new ≡ with_values (map plain_struct structs.now.items)
        (layout_view layout.now) i (plain_object obj.now) (plain_storage obj.now.storage) (flash_of image.old)) }
{
    match &obj.storage {
        Storage::Static(inits) => {
            let places = layout.places.as_slice();
            let bytes = object_bytes(alloc, places, structs, &obj.ty, inits.as_slice())?;
            write_from(image, values_at(layout, i, obj.home), bytes.as_slice());
            Ok(())
        }
        Storage::Register(_) | Storage::Local(_) | Storage::Param(_) => Ok(()),
    }
}

/// Writes the initial values of all static objects.
pub(crate) fn write_objects(
    alloc: Global,
    image: &mut Image,
    structs: &Seq<StructDef>,
    layout: &Layout,
    objs: &[Obj],
) -> Result<(), NoMemory>
    requires structs { AreStructs (map plain_struct structs.now.items) }
    requires objects { All (λ obj. IsObjectType (length structs.now.items) (plain_type obj.ty)) objs.now }
    ensures core { image.new.core ≡ image.old.core }
    ensures flash { OnOk result (flash_of image.new ≡ with_objects (map plain_struct structs.now.items)
        (layout_view layout.now) 0 (map plain_object objs.now) (flash_of image.old)) }
{
    for (i, obj) in objs.iter().enumerate() {
        write_values(alloc, image, structs, layout, i, obj)?;
    }
    Ok(())
}

/// The contents of the flash of a core.
pub(crate) fn image_from(
    alloc: Global,
    core: Core,
    program: &Program,
    items: &[AsmItem],
    layout: &Layout,
    last: u32,
) -> Result<Image, NoMemory>
    requires structs { AreStructs (map plain_struct program.now.structs.items) }
    requires objects { All (λ obj. IsObjectType (length program.now.structs.items) (plain_type obj.ty))
        program.now.objs.items }
    requires words { All (λ item. IsTrue (has_words item)) items.now }
    requires room { code_words items.now < 2 ^ 16 }
    ensures core { IfOk result (λ image. image.core ≡ core) }
    ensures flash { IfOk result (λ image. flash_of image
        ≡ image_of core (plain_program program.now) (layout_view layout.now) last items.now) }
{
    let code = code_of(alloc, items, layout, last)?;
    let mut image = Image::new(alloc, core)?;
    let objs = program.objs.as_slice();
    write_objects(alloc, &mut image, &program.structs, layout, objs)?;
    write_from(&mut image, 0, code.as_slice());
    Ok(image)
}
