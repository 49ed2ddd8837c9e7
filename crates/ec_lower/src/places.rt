//! Places: parts of objects that are named, and what pointers point to.
ghost use Rattle.std.specs.Prelude.{◌≡◌, ◌+◌, ◌∷◌, OnOk, IfOk};
ghost use Rattle.ec_core.specs.Plain.{plain_type};
ghost use Rattle.ec_lower.specs.Emits.{Emits};
ghost use Rattle.ec_lower.specs.Sites.{plain_site};
ghost use Rattle.ec_lower_code.specs.Code.{temp, space_of, pointed, further, further_code, load_from, store_to, value_place};
ghost use Rattle.ec_lower_code.specs.Code.{settled_code, address_code, moving_code};

use crate::emit::{above, put, put_binary, temp};
use crate::offsets::sum;
use ec_core::{BinOp, CType};
use ec_fx::Mode;
use ec_ir::{Ir, Temp};
use ec_space::{NoMemory, Seq, SpaceId};
use std::alloc::Global;

/// Where a place is: in an object, by its number, so many bytes from its beginning; or where a pointer into a space
/// points to.
#[derive(Clone, Copy)]
pub enum Site {
    Named(u16, u32),
    Pointed(Temp, SpaceId),
}

// ---- sites

fn space_of(ty: &CType) -> SpaceId
    ensures { result ≡ space_of (plain_type ty.now) }
{
    match ty {
        CType::Ptr { space, .. } => *space,
        _ => SpaceId::Data,
    }
}

/// So many bytes further.
fn further(k: u32, site: Site) -> Result<Site, NoMemory>
    ensures { IfOk result (λ s. plain_site s ≡ further k (plain_site site)) }
{
    match site {
        Site::Named(o, offset) => {
            let offset = sum(offset, k)?;
            Ok(Site::Named(o, offset))
        }
        Site::Pointed(ptr, space) => Ok(Site::Pointed(ptr, space)),
    }
}

/// Where a pointer of a type that stands at `t` points to.
pub fn pointed(ty: &CType, t: u16) -> Site
    ensures { plain_site result ≡ pointed (temp t (plain_type ty.now)) (space_of (plain_type ty.now)) }
{
    Site::Pointed(temp(t, ty), space_of(ty))
}

/// The place for what is worked out while the pointer is kept.
pub fn value_place(site: Site, t: u16) -> Result<u16, NoMemory>
    ensures { IfOk result (λ u. u ≡ value_place (plain_site site) t) }
{
    match site {
        Site::Named(..) => Ok(t),
        Site::Pointed(..) => above(t),
    }
}

// ---- operations

/// A pointer is moved by so many bytes.
fn put_further(code: &mut Seq<Ir>, k: u32, site: Site) -> Result<(), NoMemory>
    ensures { OnOk result (Emits code.old.items code.new.items (further_code k (plain_site site))) }
{
    match site {
        Site::Named(..) => Ok(()),
        Site::Pointed(ptr, space) => put(
            code,
            Ir::Field {
                ptr,
                space,
                offset: k,
            },
        ),
    }
}

/// A read of a value of a type to `t`.
pub fn put_load(code: &mut Seq<Ir>, ty: &CType, site: Site, t: u16) -> Result<(), NoMemory>
    ensures { OnOk result (Emits code.old.items code.new.items
        (λ rest. load_from (temp t (plain_type ty.now)) (plain_site site) ∷ rest)) }
{
    let to = temp(t, ty);
    match site {
        Site::Named(o, offset) => put(code, Ir::LoadObj(to, o, offset)),
        Site::Pointed(ptr, space) => put(code, Ir::Load { to, ptr, space }),
    }
}

/// A write of the value of a type that stands at `t`.
pub fn put_store(code: &mut Seq<Ir>, ty: &CType, site: Site, t: u16) -> Result<(), NoMemory>
    ensures { OnOk result (Emits code.old.items code.new.items
        (λ rest. store_to (plain_site site) (temp t (plain_type ty.now)) ∷ rest)) }
{
    let from = temp(t, ty);
    match site {
        Site::Named(o, offset) => put(code, Ir::StoreObj(o, offset, from)),
        Site::Pointed(ptr, space) => put(code, Ir::Store { ptr, space, from }),
    }
}

/// A value behind the pointer is brought to its place.
pub fn put_settled(code: &mut Seq<Ir>, site: Site, ty: &CType, t: u16) -> Result<(), NoMemory>
    ensures { OnOk result (Emits code.old.items code.new.items
        (settled_code (plain_site site) (plain_type ty.now) t)) }
{
    match site {
        Site::Named(..) => Ok(()),
        Site::Pointed(..) => {
            let u = above(t)?;
            put(code, Ir::Copy(temp(t, ty), temp(u, ty)))
        }
    }
}

/// The address of a place: the pointer to it, where there is one at `t`.
pub fn put_address(code: &mut Seq<Ir>, site: Site, ty: &CType, t: u16) -> Result<(), NoMemory>
    ensures { OnOk result (Emits code.old.items code.new.items
        (address_code (plain_site site) (plain_type ty.now) t)) }
{
    match site {
        Site::Named(o, offset) => put(code, Ir::Addr(temp(t, ty), o, offset)),
        Site::Pointed(..) => Ok(()),
    }
}

// ---- parts of expressions

/// The member of a place that begins so many bytes behind its beginning: its operations, and where it is.
pub fn put_member(code: &mut Seq<Ir>, k: u32, site: Site) -> Result<Site, NoMemory>
    ensures site { IfOk result (λ s. plain_site s ≡ further k (plain_site site)) }
    ensures code { OnOk result (Emits code.old.items code.new.items (further_code k (plain_site site))) }
{
    put_further(code, k, site)?;
    further(k, site)
}

/// The end of an assignment, whose value stands at `u`: it is stored, and then it is brought to `t`, where a pointer to
/// the place stood.
pub fn put_assigned(
    code: &mut Seq<Ir>,
    ty: &CType,
    site: Site,
    t: u16,
    u: u16,
) -> Result<(), NoMemory>
    ensures { OnOk result (Emits code.old.items code.new.items (λ rest. let ty = plain_type ty.now in
        store_to (plain_site site) (temp u ty) ∷ settled_code (plain_site site) ty t rest)) }
{
    put_store(code, ty, site, u)?;
    put_settled(code, site, ty, t)?;
    Ok(())
}

/// A pointer at `t` that is moved by the number of elements above it: the result goes to `q`, and is stored.
pub fn advance(
    code: &mut Seq<Ir>,
    alloc: Global,
    op: BinOp,
    mode: Mode,
    ty: &CType,
    site: Site,
    t: u16,
    q: u16,
    right: &CType,
) -> Result<(), NoMemory>
    ensures { OnOk result (Emits code.old.items code.new.items
        (moving_code op mode (plain_type ty.now) (plain_site site) t q (plain_type right.now))) }
{
    let up = above(t)?;
    put_binary(code, alloc, op, ty, mode, q, t, ty, up, right)?;
    put_store(code, ty, site, q)
}

/// A postfix step of a pointer at `t`, which stays there: the result goes to the place above it, and is stored.
pub fn advance_behind(
    code: &mut Seq<Ir>,
    alloc: Global,
    op: BinOp,
    mode: Mode,
    ty: &CType,
    site: Site,
    t: u16,
    one: &CType,
) -> Result<(), NoMemory>
    ensures { OnOk result (Emits code.old.items code.new.items
        (moving_code op mode (plain_type ty.now) (plain_site site) t (t + 1) (plain_type one.now))) }
{
    let up = above(t)?;
    advance(code, alloc, op, mode, ty, site, t, up, one)
}
