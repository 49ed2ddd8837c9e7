//! The objects that are copied or cleared before `main`.
ghost use Rattle.std.specs.Prelude.{◌≡◌, ◌++◌, ◌<◌, map, IfOk, OnOk, Some, slice_get};
ghost use Rattle.std.specs.List.{list_all};
ghost use Rattle.ec_core.specs.Plain.{plain_object, plain_storage, plain_struct};
ghost use Rattle.ec_ir.specs.Operations.{plain_ir_program};
ghost use Rattle.ec_select.specs.Program.{has_initial_bytes, is_zero, filling_of, span_of, spans_of};
ghost use Rattle.ec_select.specs.Selected.{ValidWithCells};

use ec_core::{LeafInit, Obj, Storage, size_of};
use ec_ir::IrProgram;
use ec_select_startup::{Filling, Span};
use ec_space::{Home, NoMemory, Seq};
use std::alloc::Global;

/// Whether an object is static and has the home data.
fn has_initial_bytes(obj: &Obj) -> bool
    ensures { result ≡ has_initial_bytes (plain_storage obj.now.storage) obj.now.home }
{
    match (&obj.storage, obj.home) {
        (Storage::Static(_), Home::Data) => true,
        _ => false,
    }
}

/// Whether the bytes of an initial value are 0.
fn is_zero(init: &LeafInit) -> bool
    ensures { result ≡ is_zero init.now }
{
    match init {
        LeafInit::Number(number) => *number == 0,
        LeafInit::Null => true,
        LeafInit::Address { .. } => false,
    }
}

/// Whether the bytes of all initial values are.
fn are_zero(inits: &[LeafInit]) -> bool
    ensures { result ≡ list_all is_zero inits.now }
{
    inits.iter().all(|init| is_zero(init))
}

/// What the bytes of an object are set to.
fn filling_of(storage: &Storage) -> Filling
    ensures { result ≡ filling_of (plain_storage storage.now) }
{
    match storage {
        Storage::Static(inits) => {
            if are_zero(inits.as_slice()) {
                Filling::Cleared
            } else {
                Filling::Copied
            }
        }
        _ => Filling::Copied,
    }
}

/// Appends the span of object `o` of a program, if it has one.
fn add_span(spans: &mut Seq<Span>, ir: &IrProgram, o: usize, obj: &Obj) -> Result<(), NoMemory>
    requires valid { ValidWithCells (plain_ir_program ir.now) }
    requires is { slice_get (plain_ir_program ir.now).objects o ≡ Some (plain_object obj.now) }
    ensures { OnOk result (spans.new.items
        ≡ spans.old.items ++ span_of (map plain_struct ir.now.structs.items) o (plain_object obj.now)) }
{
    if has_initial_bytes(obj) {
        spans.push(Span {
            from: 2048 + o as u16,
            to: o as u16,
            bytes: size_of(&ir.structs, &obj.ty) as u16,
            filling: filling_of(&obj.storage),
        })?;
    }
    Ok(())
}

/// The spans of the objects of a program.
pub(crate) fn spans_of(alloc: Global, ir: &IrProgram) -> Result<Seq<Span>, NoMemory>
    requires { ValidWithCells (plain_ir_program ir.now) }
    ensures { IfOk result (λ spans. spans.items ≡ spans_of (plain_ir_program ir.now)) }
{
    let mut spans = Seq::new(alloc);
    for (o, obj) in ir.objs.as_slice().iter().enumerate() {
        add_span(&mut spans, ir, o, obj)?;
    }
    Ok(spans)
}
