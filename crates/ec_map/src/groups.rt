//! Rules of what is written to acquire and to release groups.
ghost use Rattle.std.specs.Prelude.{◌≡◌, map};
ghost use Rattle.std.specs.List.{list_all};
ghost use Rattle.toml.specs.View.{view, items_view};
ghost use Rattle.ec_map.specs.Values.{values_at};
ghost use Rattle.ec_map.specs.Rules.{are_two_integers, is_pair, are_pairs, has_pairs, has_lists};
ghost use Rattle.ec_map.specs.Rules.{is_write, is_write_in, is_port_pair, has_writes};

use crate::ports::is_port;
use crate::values::{array_at, byte_of, values_at};
use ec_space::Core;
use toml::Value;

fn are_two_integers(values: &[Value]) -> bool
    ensures { result ≡ are_two_integers (items_view values.now) }
{
    match values {
        [port, byte] => port.is_integer() && byte.is_integer(),
        _ => false,
    }
}

fn is_pair(value: &Value) -> bool
    ensures { result ≡ is_pair (view value.now) }
{
    match value.as_array() {
        Some(values) => are_two_integers(values.as_slice()),
        None => false,
    }
}

fn each_is_pair(values: &[Value]) -> bool
    ensures { result ≡ list_all (λ value. is_pair (view value)) values.now }
{
    values.iter().all(|value| is_pair(value))
}

fn are_pairs(values: &[Value]) -> bool
    ensures { result ≡ are_pairs (map view values.now) }
{
    values.len() <= 32 && each_is_pair(values)
}

fn has_pairs(group: &Value, key: &str) -> bool
    ensures { result ≡ has_pairs key.now (view group.now) }
{
    match array_at(group, key) {
        Some(values) => are_pairs(values),
        None => false,
    }
}

/// Whether what is written to acquire and release a group are arrays of at most 32 arrays of two integers.
pub(crate) fn has_lists(group: &Value) -> bool
    ensures { result ≡ has_lists (view group.now) }
{
    has_pairs(group, "acquire") && has_pairs(group, "release")
}

fn is_write(core: Core, port: Option<u8>, byte: Option<u8>) -> bool
    ensures { result ≡ is_write core port byte }
{
    match port {
        Some(port) => byte.is_some() && is_port(core, u32::from(port)),
        None => false,
    }
}

fn is_write_in(core: Core, values: &[Value]) -> bool
    ensures { result ≡ is_write_in core (items_view values.now) }
{
    match values {
        [port, byte] => is_write(core, byte_of(port), byte_of(byte)),
        _ => false,
    }
}

fn is_port_pair(core: Core, value: &Value) -> bool
    ensures { result ≡ is_port_pair core (view value.now) }
{
    match value.as_array() {
        Some(values) => is_write_in(core, values.as_slice()),
        None => false,
    }
}

fn each_is_port_pair(core: Core, values: &[Value]) -> bool
    ensures { result ≡ list_all (λ value. is_port_pair core (view value)) values.now }
{
    values.iter().all(|value| is_port_pair(core, value))
}

/// Whether each value of the array at a key is a port's address and a byte.
fn are_port_pairs(core: Core, group: &Value, key: &str) -> bool
    ensures { result ≡ list_all (is_port_pair core) (values_at key.now (view group.now)) }
{
    each_is_port_pair(core, values_at(group, key))
}

/// Whether each of what is written to acquire and release a group is a port's address and a byte.
pub(crate) fn has_writes(core: Core, group: &Value) -> bool
    ensures { result ≡ has_writes core (view group.now) }
{
    are_port_pairs(core, group, "acquire") && are_port_pairs(core, group, "release")
}
