//! Rules of the ports and groups of a map.
ghost use Rattle.std.specs.Prelude.{◌≡◌, ◌≤◌, ◌<◌, ◌+◌, ◌*◌, ◌^◌, ◌++◌, ◌&&◌, not, option_map, map, IfSome, length, position};
ghost use Rattle.std.specs.List.{list_all, list_any, range_with_len};
ghost use Rattle.std.specs.Str.{bytes_eq};
ghost use Rattle.toml.specs.View.{view, items_view};
ghost use Rattle.ec_avr.specs.State.{is_port as is_port_at};
ghost use Rattle.ec_iohw.specs.Names.{is_letter, is_word, is_identifier};
ghost use Rattle.ec_map.specs.Rules.{are_distinct, name_of, has_name, are_named};
ghost use Rattle.ec_map.specs.Rules.{width_of, count_of, address_of, has_size, are_ports, has_ports, has_address};
ghost use Rattle.ec_map.specs.Rules.{byte_at, group_named, group_of, has_group};

use crate::dynamics::is_dynamic;
use crate::values::{byte_of, text_at};
use ec_space::Core;
use toml::Value;

/// A letter or `_`.
fn is_letter(b: u8) -> bool
    ensures { result ≡ is_letter b }
{
    (b'a' <= b && b <= b'z') || (b'A' <= b && b <= b'Z') || b == b'_'
}

fn is_word(b: u8) -> bool
    ensures { result ≡ is_word b }
{
    is_letter(b) || (b'0' <= b && b <= b'9')
}

fn are_words(bytes: &[u8]) -> bool
    ensures { result ≡ list_all is_word bytes.now }
{
    bytes.iter().all(|b| is_word(*b))
}

/// Whether a name has the form of an identifier (ISO/IEC 9899:1999, 6.4.2.1).
fn is_identifier(name: &[u8]) -> bool
    ensures { result ≡ is_identifier name.now }
{
    match name {
        [first, rest @ ..] => is_letter(*first) && are_words(rest),
        [] => false,
    }
}

/// The name of a port, a group or a dynamic group. Empty where it has none.
pub(crate) fn name_of(value: &Value) -> &str
    ensures { result.now ≡ name_of (view value.now) }
{
    match text_at(value, "name") {
        Some(name) => name,
        None => "",
    }
}

/// Whether one of several has a name.
fn have_name(values: &[Value], name: &str) -> bool
    ensures { result ≡ list_any (λ value. bytes_eq name.now (name_of (view value))) values.now }
{
    values.iter().any(|value| name == name_of(value))
}

/// Whether no two have the same name.
fn have_distinct_names(values: &[Value]) -> bool
    ensures { result ≡ are_distinct (map name_of (map view values.now)) }
{
    let mut rest = values;
    'names: while let [first, others @ ..] = rest {
        if have_name(others, name_of(first)) {
            return false;
        }
        rest = others;
    }
    true
}

/// Whether none of some has the name of one of others.
fn share_no_name(values: &[Value], others: &[Value]) -> bool
    ensures { result ≡ list_all (λ value. not (list_any (λ other.
        bytes_eq (name_of (view value)) (name_of (view other))) others.now)) values.now }
{
    values
        .iter()
        .all(|value| !have_name(others, name_of(value)))
}

fn have_distinct_names_each(values: &[Value], others: &[Value]) -> bool
    ensures { result ≡ (are_distinct (map name_of (map view values.now))
        && are_distinct (map name_of (map view others.now))) }
{
    have_distinct_names(values) && have_distinct_names(others)
}

/// Whether no two of some, and of others besides, have the same name.
pub(crate) fn have_distinct_names_with(values: &[Value], others: &[Value]) -> bool
    ensures { result ≡ are_distinct (map name_of (map view values.now) ++ map name_of (map view others.now)) }
{
    have_distinct_names_each(values, others) && share_no_name(values, others)
}

/// Whether the names are identifiers.
pub(crate) fn have_identifiers(values: &[Value]) -> bool
    ensures { result ≡ list_all (λ value. has_name (view value)) values.now }
{
    values
        .iter()
        .all(|value| is_identifier(name_of(value).as_bytes()))
}

/// Whether the names of ports or groups are identifiers, and no two are the same.
pub(crate) fn are_named(values: &[Value]) -> bool
    ensures { result ≡ are_named (map view values.now) }
{
    have_identifiers(values) && have_distinct_names(values)
}

/// A number of one byte at a key.
fn byte_at(value: &Value, key: &str) -> Option<u8>
    ensures { result ≡ byte_at key.now (view value.now) }
{
    match value.get(key) {
        Some(byte) => byte_of(byte),
        None => None,
    }
}

/// The bytes of a port. 0 where it tells no number of one byte.
pub(crate) fn width_of(port: &Value) -> u8
    ensures { result ≡ width_of (view port.now) }
{
    byte_at(port, "width").unwrap_or(0)
}

/// How many ports follow one another: 1 where nothing is said.
pub(crate) fn count_of(port: &Value) -> u8
    ensures { result ≡ count_of (view port.now) }
{
    match port.get("count") {
        Some(count) => byte_of(count).unwrap_or(0),
        None => 1,
    }
}

pub(crate) fn address_of(port: &Value) -> u8
    ensures { result ≡ address_of (view port.now) }
{
    byte_at(port, "address").unwrap_or(0)
}

pub(crate) fn has_size(port: &Value) -> bool
    ensures { result ≡ has_size (view port.now) }
{
    let width = width_of(port);
    let count = count_of(port);
    (width == 1 || width == 2 || width == 4) && 1 <= count && count <= 220
}

/// Whether an address is that of a port of a core: below 256, and that of none of the core's own registers.
pub(crate) fn is_port(core: Core, address: u32) -> bool
    ensures { result ≡ is_port_at core address }
{
    address < 256 && ec_isa::is_port(core, address as u16)
}

fn are_ports(core: Core, first: u32, many: u32) -> bool
    requires { first + many < 2 ^ 32 }
    ensures { result ≡ are_ports core first many }
{
    (first..first + many).all(|address| is_port(core, address))
}

/// Whether all bytes of a port, or of those that follow one another, are ports of the core, where its address counts from
/// a base.
pub(crate) fn has_ports(core: Core, base: u8, port: &Value) -> bool
    ensures { result ≡ has_ports core base (view port.now) }
{
    let first = u32::from(base) + u32::from(address_of(port));
    let many = u32::from(width_of(port)) * u32::from(count_of(port));
    are_ports(core, first, many)
}

/// Whether the address of a port is a number of one byte and, where the port is not dynamic, all its bytes are ports.
pub(crate) fn has_address(core: Core, dynamics: &[Value], port: &Value) -> bool
    ensures { result ≡ has_address core (map view dynamics.now) (view port.now) }
{
    let named = byte_at(port, "address").is_some();
    named && (is_dynamic(dynamics, port) || has_ports(core, 0, port))
}

/// The place of the first group with a name.
pub(crate) fn group_named(groups: &[Value], name: &str) -> Option<usize>
    ensures value { result ≡ position (λ group. bytes_eq (name_of (view group)) name.now) groups.now }
    ensures within { IfSome result (λ at. at < length groups.now) }
{
    groups.iter().position(|group| name_of(group) == name)
}

/// The place of the group that a port names.
pub(crate) fn group_of(groups: &[Value], port: &Value) -> Option<usize>
    ensures value { result ≡ group_of (map view groups.now) (view port.now) }
    ensures within { IfSome result (λ at. at < length groups.now) }
{
    match text_at(port, "group") {
        Some(name) => group_named(groups, name),
        None => None,
    }
}

/// Whether a port names a group or a dynamic group, where it has one.
pub(crate) fn has_group(groups: &[Value], dynamics: &[Value], port: &Value) -> bool
    ensures { result ≡ has_group (map view groups.now) (map view dynamics.now) (view port.now) }
{
    let named = group_of(groups, port).is_some() || is_dynamic(dynamics, port);
    port.get("group").is_none() || named
}
