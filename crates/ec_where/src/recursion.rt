//! What explains that a function reaches itself by calls: it stands at the function's first definition.
ghost use Rattle.std.specs.Prelude.{◌≡◌, ◌<◌, ◌^◌, IfOk, IfSome, map, length, string_bytes};
ghost use Rattle.ec_grammar.specs.Views.{view_external};
ghost use Rattle.ec_where.specs.Recursion.{DefinesAt, IsRecursionTold, IsShownIn, defined_by, definition_in, recursion_message};
ghost use Rattle.ec_where.specs.Located.{SameFiles};

use crate::explain::{SOURCE_BYTES, explain_place};
use crate::locate::tokens_of;
use crate::place::Place;
use ec_grammar::External;
use ec_io::{Store, read_file};
use ec_parse::{discard_tree, parse};
use ec_space::Seq;
use std::alloc::{AllocError, Global};

/// The token of the name, where the part of a unit defines a function of this name.
fn defined_by(item: &External, name: &[u8]) -> Option<u32>
    ensures { result ≡ defined_by name.now (view_external item.now) }
{
    let External::Function(function) = item else {
        return None;
    };
    if function.name.name.as_slice() == name {
        Some(function.name.spot.index)
    } else {
        None
    }
}

/// The token of the name in the first definition of a function of this name.
fn definition_in(items: &[External], name: &[u8]) -> Option<u32>
    ensures { result ≡ definition_in name.now (map view_external items.now) }
{
    for item in items {
        if let Some(index) = defined_by(item, name) {
            return Some(index);
        }
    }
    None
}

/// The token of the name in a text's first definition of a function of this name. None where it has none, or memory
/// ran out.
fn definition_of(alloc: Global, text: &Seq<u8>, name: &[u8]) -> Option<u32>
    requires { length text.now.items < 2 ^ 32 }
    ensures { IfSome result (DefinesAt text.now.items name.now) }
{
    let Ok(tokens) = tokens_of(alloc, text) else {
        return None;
    };
    let Ok(tree) = parse(alloc, &tokens) else {
        return None;
    };
    let index = definition_in(tree.items.as_slice(), name);
    discard_tree(tree);
    index
}

fn message(alloc: Global, name: &str) -> Result<String, AllocError>
    ensures { IfOk result (λ s. string_bytes s ≡ recursion_message name.now) }
{
    format!(in alloc;
        "the function `{name}` reaches itself by calls, and there is no recursion: write a loop"
    )
}

/// Points at the function's first definition in a file. None where the file has none, could not be read, or memory
/// ran out.
fn explain_in<S: Store>(alloc: Global, store: &mut S, file: &str, name: &str) -> Option<Vec<u8>>
    ensures told { IfSome result (λ v. IsShownIn (S.disk store.old) file.now name.now v.items) }
    ensures kept { SameFiles (S.disk store.old) (S.disk store.new) }
{
    let Ok(source) = read_file(alloc, store, file, SOURCE_BYTES) else {
        return None;
    };
    let index = definition_of(alloc, &source, name.as_bytes())?;
    let message = message(alloc, name).ok()?;
    explain_place(alloc, file, &source, Place::Token(index), message.as_str()).ok()
}

/// Points at the function's first definition in these files. None where they have none, or those that have it could not
/// be read, or memory ran out.
pub fn explain_recursion<S: Store>(
    alloc: Global,
    store: &mut S,
    files: &[String],
    name: &str,
) -> Option<Vec<u8>>
    ensures { IfSome result (λ v. IsRecursionTold (S.disk store.old) (map string_bytes files.now) name.now v.items) }
{
    for file in files {
        if let Some(text) = explain_in(alloc, store, file.as_str(), name) {
            return Some(text);
        }
    }
    None
}
