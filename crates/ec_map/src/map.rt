//! The map that a table is.
ghost use Rattle.std.specs.Prelude.{◌≡◌, ◌<◌, ◌^◌, map, length, codes, Some, None, IfOk};
ghost use Rattle.toml.specs.View.{view, table_view};
ghost use Rattle.ec_map.specs.Values.{values_at, entries, entries_at, entries_of};
ghost use Rattle.ec_map.specs.Rules.{groups_of, ports_of, dynamics_of, group_of, dynamic_of, broken};
ghost use Rattle.ec_map.specs.Cores.{core_of};
ghost use Rattle.ec_map.specs.Regions.{regions_of};
ghost use Rattle.ec_map.specs.Maps.{pair_of, choice_of, port_of, port_group_of, dynamic_group_of, place_of, port_view};
ghost use Rattle.ec_map.specs.Maps.{group_view, dynamic_view, place_view, names_of, AreAscending, IsMapOf};

use crate::cores::{core_of, last_place};
use crate::dynamics::{base_in, choices_of, dynamic_of, group_in};
use crate::ports::{address_of, count_of, group_of, name_of, width_of};
use crate::region::{Region, Regions, regions_of};
use crate::rules::{dynamics_of, groups_of, ports_of};
use crate::values::{byte_in, number_of, values_at};
use ec_iohw::{Choice, Dynamic, IoTable, Pair, Port, PortGroup};
use ec_space::{Core, Name, NoMemory, Seq};
use std::alloc::Global;
use toml::{Table, Value};

/// The place of an object that a map puts outside all regions.
#[derive(Drop)]
pub struct Fixed1 {
    /// The object's name.
    pub name: Name,
    /// The address of its first byte in its home bank, from 1 to 65,535 on the core `small` and to 131,071 on `large`.
    pub at: u32,
}

/// What a map says of a chip.
#[derive(Drop)]
pub struct Map {
    pub core: Core,
    /// The code, in flash from address 0.
    pub code: Region,
    /// Flash objects and initial bytes, in flash.
    pub tables: Region,
    /// Far objects, in flash. It begins at 0 with size 0 where the map has none, as on the core `small`.
    pub far: Region,
    /// The region `data`, in SRAM.
    pub vars: Region,
    /// The stack, in SRAM.
    pub stack: Region,
    /// The ports, groups and dynamic groups that programs can name.
    pub io: IoTable,
    /// Where external objects stand outside the regions, by rising bytes of their names.
    pub places: Seq<Fixed1>,
}

impl Map {
    ghost use Rattle.ec_map.specs.Maps.{regions};

    /// The regions.
    pub fn regions(&self) -> Regions
        ensures { result ≡ regions self.now }
    {
        Regions {
            code: self.code,
            tables: self.tables,
            far: self.far,
            vars: self.vars,
            stack: self.stack,
        }
    }
}

fn name_from(alloc: Global, text: &str) -> Result<Name, NoMemory>
    ensures { IfOk result (λ name. name.items ≡ text.now) }
{
    let mut name = Seq::new(alloc);
    name.extend_from_slice(text.as_bytes())?;
    Ok(name)
}

/// The place of a port's group among the groups.
fn group_number(groups: &[Value], port: &Value) -> Option<u16>
    requires { length groups.now < 2 ^ 16 }
    ensures { result ≡ group_of (map view groups.now) (view port.now) }
{
    match group_of(groups, port) {
        Some(at) => Some(at as u16),
        None => None,
    }
}

/// The place of a port's dynamic group among the dynamic groups.
fn dynamic_number(dynamics: &[Value], port: &Value) -> Option<u16>
    requires { length dynamics.now < 2 ^ 16 }
    ensures { result ≡ dynamic_of (map view dynamics.now) (view port.now) }
{
    match dynamic_of(dynamics, port) {
        Some(at) => Some(at as u16),
        None => None,
    }
}

fn port_from(
    alloc: Global,
    port: &Value,
    groups: &[Value],
    dynamics: &[Value],
) -> Result<Port, NoMemory>
    requires groups { length groups.now < 2 ^ 16 }
    requires dynamics { length dynamics.now < 2 ^ 16 }
    ensures { IfOk result (λ p. port_view p ≡ port_of (map view groups.now) (map view dynamics.now) (view port.now)) }
{
    let name = name_from(alloc, name_of(port))?;
    Ok(Port {
        name,
        address: address_of(port),
        width: width_of(port),
        count: count_of(port),
        group: group_number(groups, port),
        dynamic: dynamic_number(dynamics, port),
    })
}

fn ports_from(
    alloc: Global,
    ports: &[Value],
    groups: &[Value],
    dynamics: &[Value],
) -> Result<Seq<Port>, NoMemory>
    requires groups { length groups.now < 2 ^ 16 }
    requires dynamics { length dynamics.now < 2 ^ 16 }
    ensures { IfOk result (λ made. map port_view made.items
        ≡ map (port_of (map view groups.now) (map view dynamics.now)) (map view ports.now)) }
{
    let mut made = Seq::new(alloc);
    for port in ports {
        made.push(port_from(alloc, port, groups, dynamics)?)?;
    }
    Ok(made)
}

fn pair_from(array: &Value) -> Pair
    ensures { result ≡ pair_of (view array.now) }
{
    Pair {
        port: byte_in(0, array),
        byte: byte_in(1, array),
    }
}

fn pairs_from(alloc: Global, arrays: &[Value]) -> Result<Seq<Pair>, NoMemory>
    ensures { IfOk result (λ pairs. pairs.items ≡ map pair_of (map view arrays.now)) }
{
    let mut pairs = Seq::new(alloc);
    for array in arrays {
        pairs.push(pair_from(array))?;
    }
    Ok(pairs)
}

/// What is written by the array at a key.
fn pairs_at(alloc: Global, group: &Value, key: &str) -> Result<Seq<Pair>, NoMemory>
    ensures { IfOk result (λ pairs. pairs.items ≡ map pair_of (values_at key.now (view group.now))) }
{
    pairs_from(alloc, values_at(group, key))
}

fn group_from(alloc: Global, group: &Value) -> Result<PortGroup, NoMemory>
    ensures { IfOk result (λ g. group_view g ≡ port_group_of (view group.now)) }
{
    Ok(PortGroup {
        name: name_from(alloc, name_of(group))?,
        acquire: pairs_at(alloc, group, "acquire")?,
        release: pairs_at(alloc, group, "release")?,
    })
}

fn groups_from(alloc: Global, groups: &[Value]) -> Result<Seq<PortGroup>, NoMemory>
    ensures { IfOk result (λ made. map group_view made.items ≡ map port_group_of (map view groups.now)) }
{
    let mut made = Seq::new(alloc);
    for group in groups {
        made.push(group_from(alloc, group)?)?;
    }
    Ok(made)
}

fn choice_from(groups: &[Value], choice: &Value) -> Choice
    requires { length groups.now < 2 ^ 16 }
    ensures { result ≡ choice_of (map view groups.now) (view choice.now) }
{
    Choice {
        group: group_in(groups, choice) as u16,
        base: base_in(choice),
    }
}

fn choices_from(alloc: Global, groups: &[Value], choices: &[Value]) -> Result<Seq<Choice>, NoMemory>
    requires { length groups.now < 2 ^ 16 }
    ensures { IfOk result (λ made. made.items ≡ map (choice_of (map view groups.now)) (map view choices.now)) }
{
    let mut made = Seq::new(alloc);
    for choice in choices {
        made.push(choice_from(groups, choice))?;
    }
    Ok(made)
}

fn dynamic_from(alloc: Global, groups: &[Value], dynamic: &Value) -> Result<Dynamic, NoMemory>
    requires { length groups.now < 2 ^ 16 }
    ensures { IfOk result (λ made. dynamic_view made ≡ dynamic_group_of (map view groups.now) (view dynamic.now)) }
{
    Ok(Dynamic {
        name: name_from(alloc, name_of(dynamic))?,
        choices: choices_from(alloc, groups, choices_of(dynamic))?,
    })
}

fn dynamics_from(
    alloc: Global,
    groups: &[Value],
    dynamics: &[Value],
) -> Result<Seq<Dynamic>, NoMemory>
    requires { length groups.now < 2 ^ 16 }
    ensures { IfOk result (λ made. map dynamic_view made.items
        ≡ map (dynamic_group_of (map view groups.now)) (map view dynamics.now)) }
{
    let mut made = Seq::new(alloc);
    for dynamic in dynamics {
        made.push(dynamic_from(alloc, groups, dynamic)?)?;
    }
    Ok(made)
}

fn place_from(alloc: Global, core: Core, name: &str, value: &Value) -> Result<Fixed1, NoMemory>
    ensures { IfOk result (λ p. place_view p ≡ place_of core (name.now, view value.now)) }
{
    let name = name_from(alloc, name)?;
    Ok(Fixed1 {
        name,
        at: number_of(value, last_place(core)).unwrap_or(0),
    })
}

fn places_in(alloc: Global, core: Core, table: &Table) -> Result<Seq<Fixed1>, NoMemory>
    ensures told { IfOk result (λ made. map place_view made.items
        ≡ map (place_of core) (entries_of (table_view table.now))) }
    ensures ascending { IfOk result (λ made. AreAscending (names_of made.items)) }
{
    let mut made = Seq::new(alloc);
    'places: for (name, value) in table.iter() {
        made.push(place_from(alloc, core, name.as_str(), value)?)?;
    }
    Ok(made)
}

fn places_of(alloc: Global, core: Core, value: &Value) -> Result<Seq<Fixed1>, NoMemory>
    ensures told { IfOk result (λ made. map place_view made.items ≡ map (place_of core) (entries (view value.now))) }
    ensures ascending { IfOk result (λ made. AreAscending (names_of made.items)) }
{
    match value.as_table() {
        Some(table) => {
            let made = places_in(alloc, core, table)?;
            Ok(made)
        }
        None => Ok(Seq::new(alloc)),
    }
}

fn places_from(alloc: Global, core: Core, root: &Value) -> Result<Seq<Fixed1>, NoMemory>
    ensures told { IfOk result (λ made. map place_view made.items
        ≡ map (place_of core) (entries_at (codes "place") (view root.now))) }
    ensures ascending { IfOk result (λ made. AreAscending (names_of made.items)) }
{
    match root.get("place") {
        Some(places) => {
            let made = places_of(alloc, core, places)?;
            Ok(made)
        }
        None => Ok(Seq::new(alloc)),
    }
}

fn io_from(alloc: Global, root: &Value) -> Result<IoTable, NoMemory>
    requires groups { length (groups_of (view root.now)) < 2 ^ 16 }
    requires dynamics { length (dynamics_of (view root.now)) < 2 ^ 16 }
    ensures ports { IfOk result (λ io. map port_view io.ports.items
        ≡ map (port_of (groups_of (view root.now)) (dynamics_of (view root.now))) (ports_of (view root.now))) }
    ensures groups { IfOk result (λ io. map group_view io.groups.items
        ≡ map port_group_of (groups_of (view root.now))) }
    ensures dynamics { IfOk result (λ io. map dynamic_view io.dynamics.items
        ≡ map (dynamic_group_of (groups_of (view root.now))) (dynamics_of (view root.now))) }
{
    let groups = groups_of(root);
    let dynamics = dynamics_of(root);
    Ok(IoTable {
        ports: ports_from(alloc, ports_of(root), groups, dynamics)?,
        groups: groups_from(alloc, groups)?,
        dynamics: dynamics_from(alloc, groups, dynamics)?,
    })
}

/// The regions of a table that keeps the rules.
fn regions_from(root: &Value) -> Regions
    requires { broken (view root.now) ≡ None }
    ensures { regions_of (core_of (view root.now)) (view root.now) ≡ Some result }
{
    match regions_of(core_of(root), root) {
        Some(regions) => regions,
        None => unreachable!(),
    }
}

/// The map that a table is which keeps the rules.
pub(crate) fn map_from(alloc: Global, root: &Value) -> Result<Map, NoMemory>
    requires { broken (view root.now) ≡ None }
    ensures told { IfOk result (IsMapOf (view root.now)) }
    ensures ascending { IfOk result (λ m. AreAscending (names_of m.places.items)) }
{
    let core = core_of(root);
    let Regions {
        code,
        tables,
        far,
        vars,
        stack,
    } = regions_from(root);
    Ok(Map {
        core,
        code,
        tables,
        far,
        vars,
        stack,
        io: io_from(alloc, root)?,
        places: places_from(alloc, core, root)?,
    })
}
