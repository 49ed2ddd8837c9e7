//! Copies of declarations at file scope.
ghost use Rattle.std.specs.Prelude.{◌≡◌, ◌∷◌, ◌++◌, [], IfOk, OnOk, map, option_map};
ghost use Rattle.ec_core.specs.Plain.{plain_type};
ghost use Rattle.ec_check_file_scope.specs.FileNames.{plain_kind, plain_file_name};

use crate::file_names::{FileKind, FileName};
use ec_check_declarations::{copied_name, copied_type};
use ec_core::CType;
use ec_space::{NoMemory, Seq};
use std::alloc::Global;

fn push_copy(alloc: Global, types: &mut Seq<CType>, ty: &CType) -> Result<(), NoMemory>
    ensures { OnOk result (map plain_type types.new.items ≡ map plain_type types.old.items ++ plain_type ty.now ∷ []) }
{
    let copy = ty.copied(alloc)?;
    types.push(copy)
}

fn copied_types(alloc: Global, types: &[CType]) -> Result<Seq<CType>, NoMemory>
    ensures { IfOk result (λ copy. map plain_type copy.items ≡ map plain_type types.now) }
{
    let mut copy = Seq::new(alloc);
    for ty in types {
        push_copy(alloc, &mut copy, ty)?;
    }
    Ok(copy)
}

fn copied_params(alloc: Global, params: &Option<Seq<CType>>) -> Result<Option<Seq<CType>>, NoMemory>
    ensures { IfOk result (λ copy. option_map (λ ts. map plain_type ts.items) copy
        ≡ option_map (λ ts. map plain_type ts.items) params.now) }
{
    let Some(params) = params else {
        return Ok(None);
    };
    let copy = copied_types(alloc, params.as_slice())?;
    Ok(Some(copy))
}

fn copied_kind(alloc: Global, kind: &FileKind) -> Result<FileKind, NoMemory>
    ensures { IfOk result (λ copy. plain_kind copy ≡ plain_kind kind.now) }
{
    match kind {
        FileKind::Object { ty, konst, space } => {
            let ty = copied_type(alloc, ty)?;
            let (konst, space) = (*konst, *space);
            Ok(FileKind::Object { ty, konst, space })
        }
        FileKind::Register { first, ty, konst } => {
            let ty = copied_type(alloc, ty)?;
            let (first, konst) = (*first, *konst);
            Ok(FileKind::Register { first, ty, konst })
        }
        FileKind::Function {
            returns,
            count,
            params,
        } => {
            let returns = copied_type(alloc, returns)?;
            let params = copied_params(alloc, params)?;
            Ok(FileKind::Function {
                returns,
                count: *count,
                params,
            })
        }
    }
}

/// The same declaration.
pub(crate) fn copied_declaration(alloc: Global, d: &FileName) -> Result<FileName, NoMemory>
    ensures same { IfOk result (λ copy. plain_file_name copy ≡ plain_file_name d.now) }
    ensures name { IfOk result (λ copy. copy.name.items ≡ d.now.name.items) }
{
    let name = copied_name(alloc, &d.name)?;
    let kind = copied_kind(alloc, &d.kind)?;
    Ok(FileName {
        name,
        unit: d.unit,
        linkage: d.linkage,
        defines: d.defines,
        kind,
    })
}
