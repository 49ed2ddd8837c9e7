//! What is known at a place of a unit.
ghost use Rattle.std.specs.Prelude.{◌≡◌, IfOk, OnOk, Some, false, map, option_map};
ghost use Rattle.ec_space.specs.declared.space.SpaceId.TheVariants.{Generic};
ghost use Rattle.ec_core.specs.Plain.{plain_type, plain_object, plain_storage};
ghost use Rattle.ec_check_names.specs.Names.{plain_names, an_object, with_inside, is_declared_since};
ghost use Rattle.ec_check_declarations.specs.Scopes.{plain_scope, has_room, made_number, inner_object, with_object, with_inner};

use ec_check_names::{Named, Names, Tags};
use ec_check_operands::Modes;
use ec_core::{CType, Obj, Storage, StructDef};
use ec_iohw::IoTable;
use ec_space::{Home, Name, NoMemory, Seq, SpaceId};
use std::alloc::Global;

/// What is known at a place of a unit beside names and objects: nothing in a function adds to it.
#[derive(Clone, Copy)]
pub struct Context<'a> {
    pub tags: &'a Tags,
    /// The structs of the program so far.
    pub structs: &'a Seq<StructDef>,
    pub ports: &'a IoTable,
    pub modes: Modes,
}

/// What each declaration of an object adds to.
#[derive(Drop)]
pub struct Scope {
    pub names: Names,
    /// The objects of the program so far.
    pub objects: Seq<Obj>,
}

/// A name with the same bytes.
pub fn copied_name(alloc: Global, name: &Name) -> Result<Name, NoMemory>
    ensures { IfOk result (λ copy. copy.items ≡ name.now.items) }
{
    let mut copy = Seq::new(alloc);
    copy.extend_from_slice(name.as_slice())?;
    Ok(copy)
}

/// The same type, if there is one.
pub fn copied_type(alloc: Global, ty: &Option<CType>) -> Result<Option<CType>, NoMemory>
    ensures { IfOk result (λ copy. option_map plain_type copy ≡ option_map plain_type ty.now) }
{
    let Some(ty) = ty else {
        return Ok(None);
    };
    let copy = ty.copied(alloc)?;
    Ok(Some(copy))
}

fn has_room(objects: &Seq<Obj>) -> bool
    ensures { result ≡ has_room (map plain_object objects.now.items) }
{
    objects.len() < 65_536
}

fn made_number(ty: &Option<CType>, objects: &Seq<Obj>) -> Option<u16>
    ensures { result ≡ made_number (option_map plain_type ty.now) (map plain_object objects.now.items) }
{
    match ty {
        None => None,
        Some(_) => {
            let number = objects.len();
            if number < 65_536 {
                Some(number as u16)
            } else {
                None
            }
        }
    }
}

fn add_name(
    alloc: Global,
    names: &mut Names,
    name: &Name,
    number: u16,
    ty: &Option<CType>,
    konst: bool,
) -> Result<(), NoMemory>
    ensures { OnOk result (plain_names names.new ≡ with_inside name.now.items
        (an_object (Some number) (option_map plain_type ty.now) konst Generic false) (plain_names names.old)) }
{
    let name = copied_name(alloc, name)?;
    let ty = copied_type(alloc, ty)?;
    names.declare_inside(
        name,
        Named::Object {
            number: Some(number),
            ty,
            konst,
            space: SpaceId::Generic,
            register: false,
        },
    )?;
    Ok(())
}

fn add_object(
    alloc: Global,
    objects: &mut Seq<Obj>,
    unit: u8,
    name: &Name,
    ty: &Option<CType>,
    konst: bool,
    storage: Storage,
) -> Result<(), NoMemory>
    ensures { OnOk result (map plain_object objects.new.items ≡ with_object (option_map plain_type ty.now)
        (inner_object unit name.now.items konst (plain_storage storage)) (map plain_object objects.old.items)) }
{
    let Some(ty) = ty else {
        return Ok(());
    };
    if !has_room(objects) {
        return Ok(());
    }
    let name = copied_name(alloc, name)?;
    let ty = ty.copied(alloc)?;
    objects.push(Obj {
        name,
        unit,
        external: false,
        ty,
        space: SpaceId::Generic,
        home: Home::Data,
        konst,
        storage,
    })
}

impl Scope {
    /// Declares an object of a function: a parameter or a local, as its storage says. Answers its number, or None where
    /// its type is not known, so that no object is made.
    pub fn declare_inner(
        &mut self,
        alloc: Global,
        unit: u8,
        name: &Name,
        ty: &Option<CType>,
        konst: bool,
        storage: Storage,
    ) -> Result<Option<u16>, NoMemory>
        ensures number { IfOk result (λ number. number
            ≡ made_number (option_map plain_type ty.now) (plain_scope self.old).objects) }
        ensures scope { OnOk result (plain_scope self.new ≡ with_inner unit name.now.items
            (option_map plain_type ty.now) konst (plain_storage storage) (plain_scope self.old)) }
    {
        let number = made_number(ty, &self.objects);
        add_name(alloc, &mut self.names, name, number.unwrap_or(0), ty, konst)?;
        add_object(alloc, &mut self.objects, unit, name, ty, konst, storage)?;
        Ok(number)
    }

    /// Whether a name was declared in a block that began where blocks had so many names (rule 5).
    pub fn is_declared_since(&self, base: usize, name: &Name) -> bool
        ensures { result ≡ is_declared_since base name.now.items (plain_scope self.now).names }
    {
        base <= self.names.names_inside() && self.names.is_declared_since(base, name)
    }
}
