//! Rules of the dynamic groups of a map, and of the ports that stand in them.
ghost use Rattle.std.specs.Prelude.{◌≡◌, ◌<◌, ◌≤◌, IfSome, length, map, position};
ghost use Rattle.std.specs.List.{list_all, list_any};
ghost use Rattle.toml.specs.View.{view, items_view};
ghost use Rattle.ec_map.specs.Rules.{is_called, dynamic_named, dynamic_of, is_dynamic, group_by, is_choice_in};
ghost use Rattle.ec_map.specs.Rules.{is_choice, group_in, base_in, meet, stand_once, are_choices, are_few, has_choices};
ghost use Rattle.ec_map.specs.Rules.{choices_of, choices_for, has_ports, has_ports_from};

use crate::ports::{group_named, has_ports};
use crate::values::{byte_in, byte_of, text_at, values_at};
use ec_space::Core;
use toml::Value;

/// Whether a dynamic group has a name.
fn is_called(name: &str, dynamic: &Value) -> bool
    ensures { result ≡ is_called name.now (view dynamic.now) }
{
    match text_at(dynamic, "name") {
        Some(text) => text == name,
        None => false,
    }
}

/// The place of the first dynamic group with a name.
fn dynamic_named(dynamics: &[Value], name: &str) -> Option<usize>
    ensures value { result ≡ position (λ dynamic. is_called name.now (view dynamic)) dynamics.now }
    ensures within { IfSome result (λ at. at < length dynamics.now) }
{
    dynamics.iter().position(|dynamic| is_called(name, dynamic))
}

/// The place of the dynamic group that a port names.
pub(crate) fn dynamic_of(dynamics: &[Value], port: &Value) -> Option<usize>
    ensures value { result ≡ dynamic_of (map view dynamics.now) (view port.now) }
    ensures within { IfSome result (λ at. at < length dynamics.now) }
{
    match text_at(port, "group") {
        Some(name) => dynamic_named(dynamics, name),
        None => None,
    }
}

/// Whether a port names a dynamic group.
pub(crate) fn is_dynamic(dynamics: &[Value], port: &Value) -> bool
    ensures { result ≡ is_dynamic (map view dynamics.now) (view port.now) }
{
    dynamic_of(dynamics, port).is_some()
}

/// The place of the group that a value names, where it is a string that names one.
fn group_by(groups: &[Value], value: &Value) -> Option<usize>
    ensures value { result ≡ group_by (map view groups.now) (view value.now) }
    ensures within { IfSome result (λ at. at < length groups.now) }
{
    match value.as_str() {
        Some(name) => group_named(groups, name),
        None => None,
    }
}

fn is_choice_in(groups: &[Value], values: &[Value]) -> bool
    ensures { result ≡ is_choice_in (map view groups.now) (items_view values.now) }
{
    match values {
        [group, base] => group_by(groups, group).is_some() && byte_of(base).is_some(),
        _ => false,
    }
}

/// Whether a value is an array of a string, which names a group, and a number of one byte.
fn is_choice(groups: &[Value], value: &Value) -> bool
    ensures { result ≡ is_choice (map view groups.now) (view value.now) }
{
    match value.as_array() {
        Some(values) => is_choice_in(groups, values.as_slice()),
        None => false,
    }
}

/// The place of the group of a choice. 0 where it names none.
pub(crate) fn group_in(groups: &[Value], choice: &Value) -> usize
    ensures value { result ≡ group_in (map view groups.now) (view choice.now) }
    ensures within { result ≤ length groups.now }
{
    match choice.get(0) {
        Some(group) => group_by(groups, group).unwrap_or(0),
        None => 0,
    }
}

/// The base of a choice. 0 where it has none.
pub(crate) fn base_in(choice: &Value) -> u8
    ensures { result ≡ base_in (view choice.now) }
{
    byte_in(1, choice)
}

/// Whether two choices have the same group or the same base.
fn meet(groups: &[Value], first: &Value, second: &Value) -> bool
    ensures { result ≡ meet (map view groups.now) (view first.now) (view second.now) }
{
    group_in(groups, first) == group_in(groups, second) || base_in(first) == base_in(second)
}

/// Whether a choice meets one of others.
fn meets_one(groups: &[Value], choice: &Value, others: &[Value]) -> bool
    ensures { result ≡ list_any (λ other. meet (map view groups.now) (view choice.now) (view other)) others.now }
{
    others.iter().any(|other| meet(groups, choice, other))
}

/// Whether no group and no base stands twice among choices.
fn stand_once(groups: &[Value], choices: &[Value]) -> bool
    ensures { result ≡ stand_once (map view groups.now) (map view choices.now) }
{
    let mut rest = choices;
    'choices: while let [first, others @ ..] = rest {
        if meets_one(groups, first, others) {
            return false;
        }
        rest = others;
    }
    true
}

fn each_is_choice(groups: &[Value], choices: &[Value]) -> bool
    ensures { result ≡ list_all (λ choice. is_choice (map view groups.now) (view choice)) choices.now }
{
    choices.iter().all(|choice| is_choice(groups, choice))
}

/// Whether values are choices, and no group and no base stands twice among them.
fn are_choices(groups: &[Value], choices: &[Value]) -> bool
    ensures { result ≡ are_choices (map view groups.now) (map view choices.now) }
{
    each_is_choice(groups, choices) && stand_once(groups, choices)
}

/// Whether there are from 1 to 8 choices.
fn are_few(choices: &[Value]) -> bool
    ensures { result ≡ are_few (map view choices.now) }
{
    1 <= choices.len() && choices.len() <= 8
}

/// The choices of a dynamic group, one value each.
pub(crate) fn choices_of(dynamic: &Value) -> &[Value]
    ensures { map view result.now ≡ choices_of (view dynamic.now) }
{
    values_at(dynamic, "choices")
}

/// Whether a dynamic group has from 1 to 8 choices, and no group and no base stands twice among them.
pub(crate) fn has_choices(groups: &[Value], dynamic: &Value) -> bool
    ensures { result ≡ has_choices (map view groups.now) (view dynamic.now) }
{
    let choices = choices_of(dynamic);
    are_few(choices) && are_choices(groups, choices)
}

/// The choices of the dynamic group that a port names. None where it names none.
fn choices_for<'a>(dynamics: &'a [Value], port: &Value) -> &'a [Value]
    ensures { map view result.now ≡ choices_for (map view dynamics.now) (view port.now) }
{
    match dynamic_of(dynamics, port) {
        Some(at) => choices_of(&dynamics[at]),
        None => &[],
    }
}

fn has_ports_from(core: Core, choices: &[Value], port: &Value) -> bool
    ensures { result ≡ list_all (λ choice. has_ports core (base_in (view choice)) (view port.now)) choices.now }
{
    choices
        .iter()
        .all(|choice| has_ports(core, base_in(choice), port))
}

/// Whether all bytes of a port are ports of the core from the base of each choice on, where it is dynamic.
pub(crate) fn has_bound_ports(core: Core, dynamics: &[Value], port: &Value) -> bool
    ensures { result ≡ has_ports_from core (choices_for (map view dynamics.now) (view port.now)) (view port.now) }
{
    has_ports_from(core, choices_for(dynamics, port), port)
}
