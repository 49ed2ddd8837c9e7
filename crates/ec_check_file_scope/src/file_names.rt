//! Declarations at file scope, of all units, and how two of them conflict (ISO/IEC 9899:1999, 6.2.2 and 6.2.7).
ghost use Rattle.std.specs.Prelude.{◌≡◌, map, option_map};
ghost use Rattle.std.specs.Option.{option_copied};
ghost use Rattle.ec_core.specs.Plain.{plain_type};
ghost use Rattle.ec_check_names.specs.Definitions.{same_linkage};
ghost use Rattle.ec_check_file_scope.specs.FileNames.{plain_kind, plain_file_name, differ, same_space, other_register};
ghost use Rattle.ec_check_file_scope.specs.FileNames.{same_types, same_at, same_from, other_types};
ghost use Rattle.ec_check_file_scope.specs.FileNames.{other_params, other_kind, is_register, is_external, meet, both_define};
ghost use Rattle.ec_check_file_scope.specs.FileNames.{conflict, conflicts, earlier_link, is_registered, same_bool};
ghost use Rattle.ec_check_file_scope.specs.Groups.{is_whole, says_all};

use ec_check_names::Linkage;
use ec_core::CType;
use ec_space::{Name, Seq, SpaceId};

/// What a name is declared as at file scope.
#[derive(Drop)]
pub enum FileKind {
    Object {
        /// None where the declaration breaks a rule.
        ty: Option<CType>,
        konst: bool,
        space: SpaceId,
    },
    /// An object in named registers.
    Register {
        /// None where the name is that of no register.
        first: Option<u8>,
        /// None where the declaration breaks a rule.
        ty: Option<CType>,
        konst: bool,
    },
    Function {
        /// None where the declaration breaks a rule.
        returns: Option<CType>,
        /// How many parameters there are.
        count: usize,
        /// Their types, or None where the declaration of one breaks a rule.
        params: Option<Seq<CType>>,
    },
}

/// A declaration at file scope.
#[derive(Drop)]
pub struct FileName {
    pub name: Name,
    pub unit: u8,
    pub linkage: Linkage,
    /// Whether it is a definition.
    pub defines: bool,
    pub kind: FileKind,
}

// ---- differences

pub(crate) fn differ(a: &Option<CType>, b: &Option<CType>) -> bool
    ensures { result ≡ differ (option_map plain_type a.now) (option_map plain_type b.now) }
{
    let Some(a) = a else {
        return false;
    };
    let Some(b) = b else {
        return false;
    };
    !a.is_same(b)
}

fn same_space(a: SpaceId, b: SpaceId) -> bool
    ensures { result ≡ same_space a b }
{
    match a {
        SpaceId::Flash => match b {
            SpaceId::Flash => true,
            SpaceId::FarFlash | SpaceId::Data | SpaceId::Generic => false,
        },
        SpaceId::FarFlash => match b {
            SpaceId::FarFlash => true,
            SpaceId::Flash | SpaceId::Data | SpaceId::Generic => false,
        },
        SpaceId::Data => match b {
            SpaceId::Data => true,
            SpaceId::Flash | SpaceId::FarFlash | SpaceId::Generic => false,
        },
        SpaceId::Generic => match b {
            SpaceId::Generic => true,
            SpaceId::Flash | SpaceId::FarFlash | SpaceId::Data => false,
        },
    }
}

fn same_bool(a: bool, b: bool) -> bool
    ensures { result ≡ same_bool a b }
{
    if a { b } else { !b }
}

pub(crate) fn other_register(a: Option<u8>, b: Option<u8>) -> bool
    ensures { result ≡ other_register a b }
{
    let Some(a) = a else {
        return false;
    };
    let Some(b) = b else {
        return false;
    };
    a != b
}

fn same_at(a: &CType, b: Option<&CType>) -> bool
    ensures { result ≡ same_at (plain_type a.now) (option_map plain_type (option_copied b.entry)) }
{
    match b {
        None => false,
        Some(b) => a.is_same(b),
    }
}

fn same_from_first(a: &[CType], b: &Seq<CType>) -> bool
    ensures { result ≡ same_from 0 (map plain_type a.now) (map plain_type b.now.items) }
{
    let mut place = 0;
    for x in a {
        if !same_at(x, b.get(place)) {
            return false;
        }
        place += 1;
    }
    true
}

fn same_types(a: &Seq<CType>, b: &Seq<CType>) -> bool
    ensures { result ≡ same_types (map plain_type a.now.items) (map plain_type b.now.items) }
{
    a.len() == b.len() && same_from_first(a.as_slice(), b)
}

fn other_types(a: &Option<Seq<CType>>, b: &Option<Seq<CType>>) -> bool
    ensures { result ≡ other_types (option_map (λ ts. map plain_type ts.items) a.now)
        (option_map (λ ts. map plain_type ts.items) b.now) }
{
    let Some(a) = a else {
        return false;
    };
    let Some(b) = b else {
        return false;
    };
    !same_types(a, b)
}

/// Whether two lists of parameters, of which there are `m` and `n`, are of two types of functions, also where the type of
/// one is not known.
fn other_params(m: usize, a: &Option<Seq<CType>>, n: usize, b: &Option<Seq<CType>>) -> bool
    ensures { result ≡ other_params m (option_map (λ ts. map plain_type ts.items) a.now)
        n (option_map (λ ts. map plain_type ts.items) b.now) }
{
    m != n || other_types(a, b)
}

fn other_kind(a: &FileKind, b: &FileKind) -> bool
    ensures { result ≡ other_kind (plain_kind a.now) (plain_kind b.now) }
{
    match a {
        FileKind::Object { ty, konst, space } => match b {
            FileKind::Object {
                ty: other,
                konst: fixed,
                space: place,
            } => differ(ty, other) || !same_bool(*konst, *fixed) || !same_space(*space, *place),
            FileKind::Register { .. } | FileKind::Function { .. } => true,
        },
        FileKind::Register { first, ty, konst } => match b {
            FileKind::Register {
                first: register,
                ty: other,
                konst: fixed,
            } => {
                differ(ty, other) || !same_bool(*konst, *fixed) || other_register(*first, *register)
            }
            FileKind::Object { .. } | FileKind::Function { .. } => true,
        },
        FileKind::Function {
            returns,
            count,
            params,
        } => match b {
            FileKind::Function {
                returns: other,
                count: number,
                params: types,
            } => differ(returns, other) || other_params(*count, params, *number, types),
            FileKind::Object { .. } | FileKind::Register { .. } => true,
        },
    }
}

fn is_register(kind: &FileKind) -> bool
    ensures { result ≡ is_register (plain_kind kind.now) }
{
    match kind {
        FileKind::Register { .. } => true,
        FileKind::Object { .. } | FileKind::Function { .. } => false,
    }
}

// ---- conflicts

pub(crate) fn is_external(linkage: Linkage) -> bool
    ensures { result ≡ is_external linkage }
{
    match linkage {
        Linkage::Internal => false,
        Linkage::External => true,
    }
}

fn same_linkage(a: Linkage, b: Linkage) -> bool
    ensures { result ≡ same_linkage a b }
{
    match a {
        Linkage::Internal => !is_external(b),
        Linkage::External => is_external(b),
    }
}

fn meet(a: &FileName, b: &FileName) -> bool
    ensures { result ≡ meet (plain_file_name a.now) (plain_file_name b.now) }
{
    a.name == b.name && (a.unit == b.unit || is_external(a.linkage) && is_external(b.linkage))
}

fn both_define(a: &FileName, b: &FileName) -> bool
    ensures { result ≡ both_define (plain_file_name a.now) (plain_file_name b.now) }
{
    let registers = is_register(&a.kind) && is_register(&b.kind) && a.unit != b.unit;
    a.defines && b.defines && !registers
}

fn conflict(a: &FileName, b: &FileName) -> bool
    ensures { result ≡ conflict (plain_file_name a.now) (plain_file_name b.now) }
{
    meet(a, b)
        && (other_kind(&a.kind, &b.kind)
            || a.unit == b.unit && !same_linkage(a.linkage, b.linkage)
            || both_define(a, b))
}

/// Whether a declaration conflicts with one before it (rule 6): one of the same name in its unit, or external in
/// two, has another kind, type, number of parameters, space or register, or another linkage in the unit, or both are
/// definitions.
pub(crate) fn conflicts(d: &FileName, declared: &[FileName]) -> bool
    ensures { result ≡ conflicts (plain_file_name d.now) (map plain_file_name declared.now) }
{
    for e in declared {
        if conflict(d, e) {
            return true;
        }
    }
    false
}

/// The linkage of the last declaration of a name in a unit.
pub(crate) fn earlier_link(name: &Name, unit: u8, declared: &[FileName]) -> Option<Linkage>
    ensures { result ≡ earlier_link name.now.items unit (map plain_file_name declared.now) }
{
    let mut found = None;
    for d in declared {
        if d.name == *name && d.unit == unit {
            found = Some(d.linkage);
        }
    }
    found
}

/// Whether a name is that of an object in a named register.
pub(crate) fn is_registered(name: &Name, declared: &[FileName]) -> bool
    ensures { result ≡ is_registered name.now.items (map plain_file_name declared.now) }
{
    for d in declared {
        if is_register(&d.kind) && d.name == *name {
            return true;
        }
    }
    false
}

// ---- what needs no second note

fn is_whole(kind: &FileKind) -> bool
    ensures { result ≡ is_whole (plain_kind kind.now) }
{
    match kind {
        FileKind::Object { ty, .. } => ty.is_some(),
        FileKind::Register { .. } => false,
        FileKind::Function {
            returns,
            params,
            ..
        } => returns.is_some() && params.is_some(),
    }
}

/// Whether a declaration tells all that another one tells.
pub(crate) fn says_all(e: &FileName, d: &FileName) -> bool
    ensures { result ≡ says_all (plain_file_name e.now) (plain_file_name d.now) }
{
    is_whole(&e.kind)
        && is_whole(&d.kind)
        && !other_kind(&e.kind, &d.kind)
        && e.name == d.name
        && e.unit == d.unit
        && same_linkage(e.linkage, d.linkage)
        && (e.defines || !d.defines)
}
