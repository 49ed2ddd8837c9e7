//! The rules of a map, over the table that its text is read as.
ghost use Rattle.std.specs.Prelude.{◌≡◌, ◌<◌, not, length, position, IfSome};
ghost use Rattle.ec_map.specs.Judging.{lie_in, first_broken};
ghost use Rattle.std.specs.Prelude.{map};
ghost use Rattle.std.specs.List.{list_all};
ghost use Rattle.std.specs.Map.{values_of};
ghost use Rattle.toml.specs.View.{view};
ghost use Rattle.ec_map.specs.Values.{entries};
ghost use Rattle.ec_map.specs.Rules.{rule_1, rule_2, rule_3, rule_4, rule_5, rule_6, rule_7, rule_8, rule_9};
ghost use Rattle.ec_map.specs.Rules.{rule_10, rule_11, rule_12, rule_13, rule_14, rule_15, rule_16, rule_17, rule_18};
ghost use Rattle.ec_map.specs.Rules.{rule_19, rule_20, rule_21, rule_22, ports_of, groups_of, dynamics_of};
ghost use Rattle.ec_map.specs.Rules.{has_size, has_address, has_lists, has_writes, has_group, has_choices};
ghost use Rattle.ec_map.specs.Rules.{has_ports_from, choices_for, region_table, is_place, kept, broken};

use crate::cores::{core_at, core_of, last_place};
use crate::dynamics::{has_bound_ports, has_choices};
use crate::groups::{has_lists, has_writes};
use crate::keys::{Kind, is_array_of, is_table_of};
use crate::ports::{
    are_named, has_address, has_group, has_size, have_distinct_names_with, have_identifiers,
};
use crate::region::regions_of;
use crate::values::{number_of, values_at};
use ec_space::Core;
use toml::{Table, Value};

/// Whether `size` bytes from address `first` on begin at address `from` or later and end by address `to`, which is one
/// past the last that they may have.
pub fn lie_in(first: u32, size: u32, from: u32, to: u32) -> bool
    ensures { result ≡ lie_in first size from to }
{
    from <= first && u64::from(first) + u64::from(size) <= u64::from(to)
}

/// The place of the first rule that is not kept.
fn first_not_kept(kept: &[bool]) -> Option<usize>
    ensures value { result ≡ position not kept.now }
    ensures within { IfSome result (λ at. at < length kept.now) }
{
    kept.iter().position(|kept| !*kept)
}

/// The first of the twenty-two rules of a map that is broken, by its number from 1, where it is told of each in order
/// whether it is kept. None where all are.
pub fn first_broken(kept: &[bool; 22]) -> Option<u8>
    ensures { result ≡ first_broken kept.now }
{
    match first_not_kept(kept) {
        Some(at) => Some(at as u8 + 1),
        None => None,
    }
}

/// The ports of a map, one table each.
pub(crate) fn ports_of(root: &Value) -> &[Value]
    ensures { map view result.now ≡ ports_of (view root.now) }
{
    values_at(root, "port")
}

/// The groups of a map, one table each.
pub(crate) fn groups_of(root: &Value) -> &[Value]
    ensures { map view result.now ≡ groups_of (view root.now) }
{
    values_at(root, "group")
}

/// The dynamic groups of a map, one table each.
pub(crate) fn dynamics_of(root: &Value) -> &[Value]
    ensures { map view result.now ≡ dynamics_of (view root.now) }
{
    values_at(root, "dynamic")
}

fn rule_1(root: &Value) -> bool
    ensures { result ≡ rule_1 (view root.now) }
{
    is_table_of(Kind::WholeMap, root)
}

fn rule_2(root: &Value) -> bool
    ensures { result ≡ rule_2 (view root.now) }
{
    core_at(root).is_some()
}

/// The kind of the table of regions on a core.
fn region_table(core: Core) -> Kind
    ensures { result ≡ region_table core }
{
    match core {
        Core::Small => Kind::RegionTable,
        Core::Large => Kind::FarRegionTable,
    }
}

fn rule_3(root: &Value) -> bool
    ensures { result ≡ rule_3 (view root.now) }
{
    match root.get("region") {
        Some(table) => is_table_of(region_table(core_of(root)), table),
        None => false,
    }
}

fn rule_4(root: &Value) -> bool
    ensures { result ≡ rule_4 (view root.now) }
{
    regions_of(core_of(root), root).is_some()
}

fn rule_5(root: &Value) -> bool
    ensures { result ≡ rule_5 (view root.now) }
{
    let core = core_of(root);
    match regions_of(core, root) {
        Some(regions) => regions.are_in_banks(core),
        None => false,
    }
}

fn rule_6(root: &Value) -> bool
    ensures { result ≡ rule_6 (view root.now) }
{
    match regions_of(core_of(root), root) {
        Some(regions) => regions.is_code(),
        None => false,
    }
}

fn rule_7(root: &Value) -> bool
    ensures { result ≡ rule_7 (view root.now) }
{
    match regions_of(core_of(root), root) {
        Some(regions) => regions.are_apart(),
        None => false,
    }
}

fn rule_8(root: &Value) -> bool
    ensures { result ≡ rule_8 (view root.now) }
{
    match root.get("port") {
        Some(ports) => is_array_of(Kind::PortTable, 64, ports),
        None => true,
    }
}

fn rule_9(root: &Value) -> bool
    ensures { result ≡ rule_9 (view root.now) }
{
    are_named(ports_of(root))
}

fn each_has_size(ports: &[Value]) -> bool
    ensures { result ≡ list_all (λ port. has_size (view port)) ports.now }
{
    ports.iter().all(|port| has_size(port))
}

fn rule_10(root: &Value) -> bool
    ensures { result ≡ rule_10 (view root.now) }
{
    each_has_size(ports_of(root))
}

fn each_has_address(core: Core, dynamics: &[Value], ports: &[Value]) -> bool
    ensures { result ≡ list_all (λ port. has_address core (map view dynamics.now) (view port)) ports.now }
{
    ports.iter().all(|port| has_address(core, dynamics, port))
}

fn rule_11(root: &Value) -> bool
    ensures { result ≡ rule_11 (view root.now) }
{
    each_has_address(core_of(root), dynamics_of(root), ports_of(root))
}

fn rule_12(root: &Value) -> bool
    ensures { result ≡ rule_12 (view root.now) }
{
    match root.get("group") {
        Some(groups) => is_array_of(Kind::GroupTable, 16, groups),
        None => true,
    }
}

fn rule_13(root: &Value) -> bool
    ensures { result ≡ rule_13 (view root.now) }
{
    are_named(groups_of(root))
}

fn each_has_lists(groups: &[Value]) -> bool
    ensures { result ≡ list_all (λ group. has_lists (view group)) groups.now }
{
    groups.iter().all(|group| has_lists(group))
}

fn rule_14(root: &Value) -> bool
    ensures { result ≡ rule_14 (view root.now) }
{
    each_has_lists(groups_of(root))
}

fn each_has_writes(core: Core, groups: &[Value]) -> bool
    ensures { result ≡ list_all (λ group. has_writes core (view group)) groups.now }
{
    groups.iter().all(|group| has_writes(core, group))
}

fn rule_15(root: &Value) -> bool
    ensures { result ≡ rule_15 (view root.now) }
{
    each_has_writes(core_of(root), groups_of(root))
}

fn each_has_group(groups: &[Value], dynamics: &[Value], ports: &[Value]) -> bool
    ensures { result ≡ list_all (λ port. has_group (map view groups.now) (map view dynamics.now) (view port)) ports.now }
{
    ports.iter().all(|port| has_group(groups, dynamics, port))
}

fn rule_16(root: &Value) -> bool
    ensures { result ≡ rule_16 (view root.now) }
{
    each_has_group(groups_of(root), dynamics_of(root), ports_of(root))
}

fn rule_17(root: &Value) -> bool
    ensures { result ≡ rule_17 (view root.now) }
{
    match root.get("place") {
        Some(places) => places.is_table(),
        None => true,
    }
}

fn is_place(core: Core, value: &Value) -> bool
    ensures { result ≡ is_place core (view value.now) }
{
    match number_of(value, last_place(core)) {
        Some(at) => 1 <= at,
        None => false,
    }
}

fn each_is_place(core: Core, places: &Table) -> bool
    ensures { result ≡ list_all (λ value. is_place core (view value)) (values_of places.now.entries) }
{
    places.values().all(|value| is_place(core, value))
}

fn are_places(core: Core, places: &Value) -> bool
    ensures { result ≡ list_all (λ e. is_place core e.1) (entries (view places.now)) }
{
    match places.as_table() {
        Some(table) => each_is_place(core, table),
        None => true,
    }
}

fn rule_18(root: &Value) -> bool
    ensures { result ≡ rule_18 (view root.now) }
{
    match root.get("place") {
        Some(places) => are_places(core_of(root), places),
        None => true,
    }
}

fn rule_19(root: &Value) -> bool
    ensures { result ≡ rule_19 (view root.now) }
{
    match root.get("dynamic") {
        Some(dynamics) => is_array_of(Kind::DynamicTable, 8, dynamics),
        None => true,
    }
}

fn rule_20(root: &Value) -> bool
    ensures { result ≡ rule_20 (view root.now) }
{
    let dynamics = dynamics_of(root);
    have_identifiers(dynamics) && have_distinct_names_with(groups_of(root), dynamics)
}

fn each_has_choices(groups: &[Value], dynamics: &[Value]) -> bool
    ensures { result ≡ list_all (λ dynamic. has_choices (map view groups.now) (view dynamic)) dynamics.now }
{
    dynamics.iter().all(|dynamic| has_choices(groups, dynamic))
}

fn rule_21(root: &Value) -> bool
    ensures { result ≡ rule_21 (view root.now) }
{
    each_has_choices(groups_of(root), dynamics_of(root))
}

fn each_has_bound_ports(core: Core, dynamics: &[Value], ports: &[Value]) -> bool
    ensures { result ≡ list_all (λ port.
        has_ports_from core (choices_for (map view dynamics.now) (view port)) (view port)) ports.now }
{
    ports
        .iter()
        .all(|port| has_bound_ports(core, dynamics, port))
}

fn rule_22(root: &Value) -> bool
    ensures { result ≡ rule_22 (view root.now) }
{
    each_has_bound_ports(core_of(root), dynamics_of(root), ports_of(root))
}

/// Whether each rule is kept, in order.
fn kept(root: &Value) -> [bool; 22]
    ensures { result ≡ kept (view root.now) }
{
    [
        rule_1(root),
        rule_2(root),
        rule_3(root),
        rule_4(root),
        rule_5(root),
        rule_6(root),
        rule_7(root),
        rule_8(root),
        rule_9(root),
        rule_10(root),
        rule_11(root),
        rule_12(root),
        rule_13(root),
        rule_14(root),
        rule_15(root),
        rule_16(root),
        rule_17(root),
        rule_18(root),
        rule_19(root),
        rule_20(root),
        rule_21(root),
        rule_22(root),
    ]
}

/// The first rule that a table breaks, by its number from 1.
pub(crate) fn broken(root: &Value) -> Option<u8>
    ensures { result ≡ broken (view root.now) }
{
    first_broken(&kept(root))
}
