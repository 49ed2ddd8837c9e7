//! Copies of objects and structs.
ghost use Rattle.std.specs.Prelude.{◌≡◌, map, IfOk};
ghost use Rattle.ec_core.specs.Plain.{plain_member, plain_struct, plain_storage, plain_object};

use ec_core::{LeafInit, Member, Obj, Storage, StructDef};
use ec_space::{Name, NoMemory, Seq};
use std::alloc::Global;

fn copied_name(alloc: Global, name: &Name) -> Result<Name, NoMemory>
    ensures { IfOk result (λ copy. copy.items ≡ name.now.items) }
{
    let mut copy = Seq::new(alloc);
    copy.extend_from_slice(name.as_slice())?;
    Ok(copy)
}

fn copied_init(init: &LeafInit) -> LeafInit
    ensures { result ≡ init.now }
{
    match init {
        LeafInit::Number(n) => LeafInit::Number(*n),
        LeafInit::Null => LeafInit::Null,
        LeafInit::Address { object, offset } => LeafInit::Address {
            object: *object,
            offset: *offset,
        },
    }
}

fn copied_inits(alloc: Global, inits: &[LeafInit]) -> Result<Seq<LeafInit>, NoMemory>
    ensures { IfOk result (λ copy. copy.items ≡ inits.now) }
{
    let mut copy = Seq::new(alloc);
    for init in inits {
        copy.push(copied_init(init))?;
    }
    Ok(copy)
}

fn copied_storage(alloc: Global, storage: &Storage) -> Result<Storage, NoMemory>
    ensures { IfOk result (λ copy. plain_storage copy ≡ plain_storage storage.now) }
{
    match storage {
        Storage::Static(inits) => {
            let inits = copied_inits(alloc, inits.as_slice())?;
            Ok(Storage::Static(inits))
        }
        Storage::Local(f) => Ok(Storage::Local(*f)),
        Storage::Param(f) => Ok(Storage::Param(*f)),
        Storage::Register(r) => Ok(Storage::Register(*r)),
    }
}

fn copied_object(alloc: Global, o: &Obj) -> Result<Obj, NoMemory>
    ensures { IfOk result (λ copy. plain_object copy ≡ plain_object o.now) }
{
    let name = copied_name(alloc, &o.name)?;
    let ty = o.ty.copied(alloc)?;
    let storage = copied_storage(alloc, &o.storage)?;
    Ok(Obj {
        name,
        unit: o.unit,
        external: o.external,
        ty,
        space: o.space,
        home: o.home,
        konst: o.konst,
        storage,
    })
}

/// The same objects.
pub fn copied_objects(alloc: Global, objs: &[Obj]) -> Result<Seq<Obj>, NoMemory>
    ensures { IfOk result (λ copy. map plain_object copy.items ≡ map plain_object objs.now) }
{
    let mut copy = Seq::new(alloc);
    for o in objs {
        let o = copied_object(alloc, o)?;
        copy.push(o)?;
    }
    Ok(copy)
}

fn copied_member(alloc: Global, member: &Member) -> Result<Member, NoMemory>
    ensures { IfOk result (λ copy. plain_member copy ≡ plain_member member.now) }
{
    let name = copied_name(alloc, &member.name)?;
    let ty = member.ty.copied(alloc)?;
    Ok(Member { name, ty })
}

fn copied_members(alloc: Global, members: &[Member]) -> Result<Seq<Member>, NoMemory>
    ensures { IfOk result (λ copy. map plain_member copy.items ≡ map plain_member members.now) }
{
    let mut copy = Seq::new(alloc);
    for member in members {
        let member = copied_member(alloc, member)?;
        copy.push(member)?;
    }
    Ok(copy)
}

fn copied_struct(alloc: Global, def: &StructDef) -> Result<StructDef, NoMemory>
    ensures { IfOk result (λ copy. plain_struct copy ≡ plain_struct def.now) }
{
    let tag = copied_name(alloc, &def.tag)?;
    let members = copied_members(alloc, def.members.as_slice())?;
    Ok(StructDef { tag, members })
}

/// The same structs.
pub fn copied_structs(alloc: Global, structs: &[StructDef]) -> Result<Seq<StructDef>, NoMemory>
    ensures { IfOk result (λ copy. map plain_struct copy.items ≡ map plain_struct structs.now) }
{
    let mut copy = Seq::new(alloc);
    for def in structs {
        let def = copied_struct(alloc, def)?;
        copy.push(def)?;
    }
    Ok(copy)
}
