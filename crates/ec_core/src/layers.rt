//! Types taken apart, layer by layer, and put together again, in loops: a type may have as many layers as a text has stars.
ghost use Rattle.std.specs.Prelude.{◌≡◌, [], IfOk};
ghost use Rattle.ec_core.specs.Layers.{around, within};
ghost use Rattle.ec_core.specs.Plain.{plain_type};

use crate::types::{CType, boxed};
use ec_space::{NoMemory, SpaceId, push};
use std::alloc::Global;

/// What a type has around the type that it points to, or around the type of its elements.
#[derive(Clone, Copy, Drop)]
pub(crate) enum Layer {
    /// A pointer into a space, `konst` where it points to const.
    Pointer { space: SpaceId, konst: bool },
    /// An array of `len` elements.
    Array { len: u16 },
}

impl Layer {
    /// The type that has this layer around another.
    fn around(self, alloc: Global, inner: CType) -> Result<CType, NoMemory>
        ensures { IfOk result (λ ty. plain_type ty ≡ around self (plain_type inner)) }
    {
        let inner = boxed(alloc, inner)?;
        Ok(match self {
            Layer::Pointer { space, konst } => CType::Ptr {
                space,
                konst,
                to: inner,
            },
            Layer::Array { len } => CType::Array { of: inner, len },
        })
    }
}

/// The type that is left of another when all its layers are put behind those that are there, the outermost first.
#[tactic(auto, using(crate::proofs::Layered::within_last))]
pub(crate) fn unwrapped(ty: &CType, layers: &mut Vec<Layer>) -> Result<CType, NoMemory>
    requires { layers.old.items ≡ [] }
    ensures { IfOk result (λ inner. within layers.new.items (plain_type inner) ≡ plain_type ty.now) }
{
    let mut at = ty;
    loop {
        match at {
            CType::Ptr { space, konst, to } => {
                let layer = Layer::Pointer {
                    space: *space,
                    konst: *konst,
                };
                push(layers, layer)?;
                at = to;
            }
            CType::Array { of, len } => {
                push(layers, Layer::Array { len: *len })?;
                at = of;
            }
            CType::Void => return Ok(CType::Void),
            CType::Int { signed, bytes } => {
                return Ok(CType::Int {
                    signed: *signed,
                    bytes: *bytes,
                });
            }
            CType::Fx { kind, sat } => {
                return Ok(CType::Fx {
                    kind: *kind,
                    sat: *sat,
                });
            }
            CType::Struct { index } => return Ok(CType::Struct { index: *index }),
        }
    }
}

/// The type that has these layers, the outermost first, around another. None of them is left.
#[tactic(auto, using(crate::proofs::Layered::within_last))]
pub(crate) fn wrapped(
    alloc: Global,
    layers: &mut Vec<Layer>,
    inner: CType,
) -> Result<CType, NoMemory>
    ensures { IfOk result (λ ty. plain_type ty ≡ within layers.old.items (plain_type inner)) }
{
    let mut ty = inner;
    while let Some(layer) = layers.pop() {
        ty = layer.around(alloc, ty)?;
    }
    Ok(ty)
}
